//! The members of the objects of a decision file.
ghost use Rattle.std.specs.Prelude.{◌≡◌, map, option_map, length};
ghost use Rattle.serde_json.specs.View.{view};
ghost use Rattle.serde_json.specs.Find.{get};
ghost use Rattle.decision_files.specs.Json.{json_text_in_decision_file, json_values_in_decision_file, json_list_in_decision_file, json_number_in_decision_file};
ghost use Rattle.decision_files.specs.Decided.{byte_range_in_decision_file, byte_range_said_by_decision_file};

use playlist_model::ByteRange;
use pod_store::{DecisionFault, DecisionKind, Place};
use serde_json::Value;

/// The text under `name` in the object `value`, if there is one.
pub fn json_text_in_decision_file<'a>(value: &'a Value, name: &str) -> Option<&'a str>
    ensures { option_map (λ text. text.now) result ≡ json_text_in_decision_file name.now (view value.now) }
{
    match value.get(name) {
        Some(found) => found.as_str(),
        None => None,
    }
}

#[tactic(auto, using(crate::proofs::Lists::list_of_items))]
/// The values of the array `value`; `None` if it is none.
pub fn json_values_in_decision_file(value: &Value) -> Option<&[Value]>
    ensures { option_map (λ list. map view list.now) result ≡ json_values_in_decision_file (view value.now) }
{
    match value.as_array() {
        Some(list) => Some(list.as_slice()),
        None => None,
    }
}

/// The same values, owned, so that each can be dropped when it is read.
pub fn owned_json_values_of_decision_file(value: Value) -> Option<Vec<Value>>
    ensures { option_map (λ list. map view list.items) result ≡ json_values_in_decision_file (view value) }
{
    match value {
        Value::Array(list) => Some(list),
        _ => None,
    }
}

/// The value under `name` in the object `value`, if there is one. The rest of the object is dropped.
pub fn owned_json_member_of_decision_file(value: Value, name: &str) -> Option<Value>
    ensures { option_map view result ≡ get name.now (view value) }
{
    let mut value = value;
    match value.get_mut(name) {
        Some(found) => Some(found.take()),
        None => None,
    }
}

/// The values of the array under `name` in the object `value`, if there is one.
pub fn json_list_in_decision_file<'a>(value: &'a Value, name: &str) -> Option<&'a [Value]>
    ensures { option_map (λ list. map view list.now) result ≡ json_list_in_decision_file name.now (view value.now) }
{
    match value.get(name) {
        Some(found) => json_values_in_decision_file(found),
        None => None,
    }
}

fn json_number_in_decision_file(value: &Value) -> Option<u64>
    ensures { result ≡ json_number_in_decision_file (view value.now) }
{
    value.as_u64()
}

fn byte_range_in_decision_file(
    place: Place,
    offset: Option<u64>,
    length: Option<u64>,
) -> Result<ByteRange, DecisionFault>
    ensures { result ≡ byte_range_in_decision_file place offset length }
{
    let Some(offset) = offset else {
        return Err(place.fault(DecisionKind::Shape));
    };
    let Some(length) = length else {
        return Err(place.fault(DecisionKind::Shape));
    };
    if length.checked_add(offset).is_none() {
        return Err(place.fault(DecisionKind::Shape));
    }
    Ok(ByteRange { length, offset })
}

/// The byte range that `offset` and `length` of the object `value` state, in bytes (RFC 8216, section 4.3.2.2): both
/// are there, or neither. The faults, at `place`: `Shape` if one alone is there, then those of the two numbers.
pub fn byte_range_said_by_decision_file(
    place: Place,
    value: &Value,
) -> Result<Option<ByteRange>, DecisionFault>
    ensures { result ≡ byte_range_said_by_decision_file place (view value.now) }
{
    match (value.get("offset"), value.get("length")) {
        (None, None) => Ok(None),
        (Some(offset), Some(length)) => {
            let byte_range = byte_range_in_decision_file(
                place,
                json_number_in_decision_file(offset),
                json_number_in_decision_file(length),
            )?;
            Ok(Some(byte_range))
        }
        _ => Err(place.fault(DecisionKind::Shape)),
    }
}
