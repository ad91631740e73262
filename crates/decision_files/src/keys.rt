//! The initialisation section and the key of an ad.
ghost use Rattle.std.specs.Prelude.{◌≡◌, IfOk, option_map, codes};
ghost use Rattle.serde_json.specs.View.{view};
ghost use Rattle.serde_json.specs.Find.{as_str, get};
ghost use Rattle.spec_words.specs.Outcomes.{optional, GivesExactly, Tells};
ghost use Rattle.pod_store.specs.Outcome.{GivesOrDecisionFault};
ghost use Rattle.decision_files.specs.Decided.{part_said_by_decision_file, init_section_said_by_decision_file, format_said_by_decision_file, text_said_by_decision_file, method_said_by_decision_file, key_uri_said_by_decision_file, iv_said_by_decision_file, key_said_by_decision_file, key_members_in_decision_file, keys_of_decision_file, init_section_with_decision_file_keys};
ghost use Rattle.decision_files.specs.Inner.Views.{view_of_part};

use crate::members::{byte_range_said_by_decision_file, json_text_in_decision_file};
use crate::texts::{
    is_decision_file_key_format, is_decision_file_key_method, is_decision_file_uri,
};
use attr_list::read_hex_u128;
use playlist_model::{ByteRange, InitSection, Key, Keys, OtherAttributes, Shared, Text};
use pod_store::{DecisionFault, DecisionKind, Place};
use serde_json::Value;
use std::alloc::{AllocError, Global};

/// The format of a key that states none.
const IDENTITY: &str = "identity";

/// A resource, and the part of it.
#[derive(Drop)]
pub struct Part {
    /// Its URI.
    pub uri: Shared<Text>,
    /// The part, if it isn't the whole.
    pub byte_range: Option<ByteRange>,
}

/// The part of the resource `uri` that the byte range of the object `value` states. The faults, at `place` and in this
/// order: `BadUri` if `uri` can't be one, then those of `byte_range_said_by_decision_file`. Takes no memory.
pub fn part_of_resource_in_decision_file(
    place: Place,
    uri: &str,
    value: &Value,
) -> Result<Option<ByteRange>, DecisionFault>
    ensures { GivesExactly (λ byte_range. (uri.now, byte_range)) result
        (part_said_by_decision_file place uri.now (view value.now)) }
{
    if !is_decision_file_uri(uri) {
        return Err(place.fault(DecisionKind::BadUri));
    }
    byte_range_said_by_decision_file(place, value)
}

/// The resource `uri` with the part of it that the object `value` states. The faults of `part_of_resource_in_decision_file`, at `place`;
/// `OutOfMemory` only if an allocation fails.
pub fn part_said_by_decision_file(
    alloc: Global,
    place: Place,
    uri: &str,
    value: &Value,
) -> Result<Part, DecisionFault>
    ensures said { GivesOrDecisionFault view_of_part result
        (part_said_by_decision_file place uri.now (view value.now)) }
    ensures told { Tells result (part_said_by_decision_file place uri.now (view value.now)) }
{
    let byte_range = part_of_resource_in_decision_file(place, uri, value)?;
    let uri = Shared::copy_of(alloc, uri)?;
    Ok(Part { uri, byte_range })
}

/// The resource and the part of it that `value`, the initialisation section of an ad, states (RFC 8216, section
/// 4.3.2.5). `Shape`, at `place`, if it is no object with a URI; then the faults of `part_said_by_decision_file`.
pub fn init_section_said_by_decision_file(
    alloc: Global,
    place: Place,
    value: &Value,
) -> Result<Part, DecisionFault>
    ensures said { GivesOrDecisionFault view_of_part result
        (init_section_said_by_decision_file place (view value.now)) }
    ensures told { Tells result (init_section_said_by_decision_file place (view value.now)) }
{
    let uri = json_text_in_decision_file(value, "uri").ok_or(place.fault(DecisionKind::Shape))?;
    part_said_by_decision_file(alloc, place, uri, value)
}

fn text_said_by_decision_file(place: Place, value: &Value) -> Result<&str, DecisionFault>
    ensures { GivesExactly (λ text. text.now) result (text_said_by_decision_file place (view value.now)) }
{
    value.as_str().ok_or(place.fault(DecisionKind::BadKey))
}

fn format_said_by_decision_file(place: Place, value: &Value) -> Result<&str, DecisionFault>
    ensures { GivesExactly (λ text. text.now) result (format_said_by_decision_file place (view value.now)) }
{
    let text = text_said_by_decision_file(place, value)?;
    if !is_decision_file_key_format(text) {
        return Err(place.fault(DecisionKind::BadKey));
    }
    Ok(text)
}

fn format_in_decision_file(place: Place, value: &Value) -> Result<Option<&str>, DecisionFault>
    ensures { GivesExactly (option_map
        (λ text. text.now)) result (optional (format_said_by_decision_file place) (get (codes "format") (view value.now))) }
{
    match value.get("format") {
        Some(format) => Ok(Some(format_said_by_decision_file(place, format)?)),
        None => Ok(None),
    }
}

fn method_said_by_decision_file(place: Place, value: &Value) -> Result<&str, DecisionFault>
    ensures { GivesExactly (λ text. text.now) result (method_said_by_decision_file place (view value.now)) }
{
    let method = json_text_in_decision_file(value, "method").ok_or(place.fault(
        DecisionKind::BadKey,
    ))?;
    if !is_decision_file_key_method(method) {
        return Err(place.fault(DecisionKind::BadKey));
    }
    Ok(method)
}

fn key_uri_said_by_decision_file(place: Place, value: &Value) -> Result<&str, DecisionFault>
    ensures { GivesExactly (λ text. text.now) result (key_uri_said_by_decision_file place (view value.now)) }
{
    let uri = json_text_in_decision_file(value, "uri").ok_or(place.fault(DecisionKind::BadKey))?;
    if !is_decision_file_uri(uri) {
        return Err(place.fault(DecisionKind::BadUri));
    }
    Ok(uri)
}

fn iv_said_by_decision_file(place: Place, value: &Value) -> Result<u128, DecisionFault>
    ensures { result ≡ iv_said_by_decision_file place (view value.now) }
{
    let iv = json_text_in_decision_file(value, "iv").ok_or(place.fault(DecisionKind::BadKey))?;
    match read_hex_u128(iv) {
        Ok(iv) => Ok(iv),
        Err(_) => Err(place.fault(DecisionKind::BadKey)),
    }
}

fn key_members_in_decision_file(
    alloc: Global,
    place: Place,
    value: &Value,
) -> Result<Key, DecisionFault>
    ensures said { GivesOrDecisionFault (λ key. key) result (key_members_in_decision_file place (view value.now)) }
    ensures told { Tells result (key_members_in_decision_file place (view value.now)) }
{
    let method = method_said_by_decision_file(place, value)?;
    let uri = key_uri_said_by_decision_file(place, value)?;
    let iv = iv_said_by_decision_file(place, value)?;
    let format = format_in_decision_file(place, value)?;
    Ok(Key {
        format: Shared::copy_of(alloc, format.unwrap_or(IDENTITY))?,
        method: Shared::copy_of(alloc, method)?,
        uri: Shared::copy_of(alloc, uri)?,
        iv: Some(iv),
        other_attributes: Shared::new(alloc, OtherAttributes::none(alloc))?,
    })
}

/// The key that `value`, the key of an ad, states (RFC 8216, section 4.3.2.4). `Shape`, at `place`, if it is no
/// object; then the faults of its members in turn.
pub fn key_said_by_decision_file(
    alloc: Global,
    place: Place,
    value: &Value,
) -> Result<Key, DecisionFault>
    ensures said { GivesOrDecisionFault (λ key. key) result (key_said_by_decision_file place (view value.now)) }
    ensures told { Tells result (key_said_by_decision_file place (view value.now)) }
{
    if !value.is_object() {
        return Err(place.fault(DecisionKind::Shape));
    }
    key_members_in_decision_file(alloc, place, value)
}

/// The keys of an ad that states `key`, or none. Fails only if an allocation fails.
pub fn keys_of_decision_file(alloc: Global, key: Option<Key>) -> Result<Keys, AllocError>
    ensures { IfOk result (λ keys. keys ≡ keys_of_decision_file key) }
{
    let mut keys = Vec::new(alloc);
    if let Some(key) = key {
        keys.push(key)?;
    }
    Keys::from_vec(alloc, keys)
}

/// The initialisation section of `part`, under copies of `keys` (RFC 8216, section 4.3.2.5). Fails only if an
/// allocation fails.
pub fn init_section_with_decision_file_keys(
    keys: &Keys,
    part: Part,
) -> Result<InitSection, AllocError>
    ensures { IfOk result
        (λ init_section. init_section ≡ init_section_with_decision_file_keys keys.now (view_of_part part)) }
{
    Ok(InitSection {
        uri: part.uri,
        byte_range: part.byte_range,
        keys: keys.clone()?,
    })
}
