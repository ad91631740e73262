//! What a key, map or byte range tag says by itself (RFC 8216, 4.3.2.2, 4.3.2.4, 4.3.2.5).
ghost use Rattle.std.specs.Prelude.{◌≡◌, codes};
ghost use Rattle.attr_list.specs.Attributes.{attribute};
ghost use Rattle.spec_words.specs.Outcomes as outcomes;
ghost use Rattle.playlist_model.specs.Said as said;
ghost use Rattle.spec_words.specs.Outcomes.{or_fault};
ghost use Rattle.playlist_model.specs.Said.{iv_of, key_tag_said, uri_of, set_key, key_said, init_section_said, init_section_byte_range, byte_range_of, stated_byte_range};
ghost use Rattle.attr_list.specs.Numbers.{decimal_of};
ghost use Rattle.playlist_model.specs.Reading.{limited};
ghost use Rattle.playlist_model.specs.Refusals.{GivesOrPlaylistFault};
ghost use Rattle.segment_state.specs.Attributes.{pairs_of};
ghost use Rattle.segment_state.specs.Inner.Tags.{init_section_tag_said};

use crate::attributes::{optional_tag_value, required_tag_value, tag_attributes_of};
use crate::key_texts::KeyTexts;
use attr_list::{AttrList, read_decimal, read_hex_u128};
use playlist_model::{ByteRange, FaultKind, Key, KeyTag, OtherAttributes, Shared, Text};
use std::alloc::Global;
use uri_resolver::{Base, BaseFault};

/// The format of a key that states none.
const IDENTITY: &str = "identity";

/// What a map tag says: a resource, and the part of it.
#[derive(Drop)]
pub struct InitSectionTag {
    /// The resource.
    pub uri: Shared<Text>,
    /// The part of it, if it is not the whole.
    pub byte_range: Option<ByteRange>,
}

/// The resource that `reference` names under `base` (RFC 8216, section 4.1). `BadUri` if it can't be resolved;
/// `OutOfMemory` only if an allocation fails.
pub fn tag_uri_of(base: &Base, reference: &str) -> Result<Text, FaultKind>
    ensures { GivesOrPlaylistFault (λ uri. uri) result (uri_of base.now reference.now) }
{
    match base.resolve(reference) {
        Ok(uri) => Ok(Text::from_string(uri)),
        Err(BaseFault::OutOfMemory) => Err(FaultKind::OutOfMemory),
        Err(_) => Err(FaultKind::BadUri),
    }
}

/// The resource that `reference` names under `base`, to be shared, in memory of `alloc`: as `tag_uri_of` gives it, and
/// with the same faults.
pub fn shared_tag_uri_of(
    alloc: Global,
    base: &Base,
    reference: &str,
) -> Result<Shared<Text>, FaultKind>
    ensures { GivesOrPlaylistFault (λ uri. uri) result (uri_of base.now reference.now) }
{
    Ok(Shared::new(alloc, tag_uri_of(base, reference)?)?)
}

// The IV of a key tag, if it states one.
fn key_tag_iv_of(list: &AttrList<'_>) -> Result<Option<u128>, FaultKind>
    ensures { result ≡ outcomes.optional iv_of (attribute (pairs_of list.now) (codes "IV")) }
{
    let Some(value) = optional_tag_value(list, "IV", false)? else {
        return Ok(None);
    };
    match read_hex_u128(value) {
        Ok(iv) => Ok(Some(iv)),
        Err(_) => Err(FaultKind::BadAttributes),
    }
}

fn key_of_tag(
    alloc: Global,
    base: &Base,
    texts: &mut KeyTexts,
    list: &AttrList<'_>,
    method: &str,
) -> Result<Key, FaultKind>
    ensures { GivesOrPlaylistFault said.key result
        (set_key base.now (pairs_of list.now) method.now) }
{
    let reference = required_tag_value(list, "URI", true)?;
    let iv = key_tag_iv_of(list)?;
    let format = optional_tag_value(list, "KEYFORMAT", true)?;
    let uri = shared_tag_uri_of(alloc, base, reference)?;
    let other = OtherAttributes::of(alloc, list)?;
    Ok(Key {
        format: texts.formats.share(alloc, format.unwrap_or(IDENTITY))?,
        method: texts.methods.share(alloc, method)?,
        uri,
        iv,
        other_attributes: texts.share_others(alloc, other)?,
    })
}

/// What an EXT-X-KEY with the attributes `rest` says under `base` (RFC 8216, section 4.3.2.4). Its key shares those of
/// `texts`, what the last tag stated, that are the same. The faults, in this order: `BadAttributes` for the list,
/// `MissingAttribute` or `BadAttributes` for METHOD, URI, IV and KEYFORMAT, `BadUri`; `OutOfMemory` only if an
/// allocation fails.
pub fn said_by_key_tag(
    alloc: Global,
    base: &Base,
    texts: &mut KeyTexts,
    rest: &str,
) -> Result<KeyTag, FaultKind>
    ensures { GivesOrPlaylistFault key_tag_said result (key_said limited base.now rest.now) }
{
    let list = tag_attributes_of(alloc, rest)?;
    let method = required_tag_value(&list, "METHOD", false)?;
    if method == "NONE" {
        return Ok(KeyTag::End);
    }
    Ok(KeyTag::Set(key_of_tag(alloc, base, texts, &list, method)?))
}

fn tag_decimal(text: &str) -> Result<u64, FaultKind>
    ensures { result ≡ or_fault FaultKind.BadRange (decimal_of text.now) }
{
    read_decimal(text).map_err(|_| FaultKind::BadRange)
}

/// The length that `text` states as `n[@o]`, and the offset if it states one, in bytes (RFC 8216, section 4.3.2.2).
/// `BadRange` if it states neither, or the byte range's end passes 2^64 - 1. Takes no memory.
pub fn byte_range_tag_numbers(text: &str) -> Result<(u64, Option<u64>), FaultKind>
    ensures { result ≡ byte_range_of text.now }
{
    // Most state no offset.
    if let Ok(length) = read_decimal(text) {
        return Ok((length, None));
    }
    let Some((length, offset)) = text.split_once('@') else {
        return Err(FaultKind::BadRange);
    };
    byte_range_of_tag(tag_decimal(length)?, tag_decimal(offset)?)
}

// A byte range of this length at this offset.
fn byte_range_of_tag(length: u64, offset: u64) -> Result<(u64, Option<u64>), FaultKind>
    ensures { result ≡ stated_byte_range length offset }
{
    if length.checked_add(offset).is_none() {
        return Err(FaultKind::BadRange);
    }
    Ok((length, Some(offset)))
}

// The part of its resource that an initialisation section is: it begins at 0 if it states no offset.
fn init_section_tag_byte_range(list: &AttrList<'_>) -> Result<Option<ByteRange>, FaultKind>
    ensures { result
        ≡ outcomes.optional init_section_byte_range (attribute (pairs_of list.now) (codes "BYTERANGE")) }
{
    let Some(value) = optional_tag_value(list, "BYTERANGE", true)? else {
        return Ok(None);
    };
    let (length, offset) = byte_range_tag_numbers(value)?;
    let offset = offset.unwrap_or(0);
    Ok(Some(ByteRange { length, offset }))
}

/// What an EXT-X-MAP with the attributes `rest` says under `base` (RFC 8216, section 4.3.2.5). The faults, in this
/// order: `BadAttributes` for the list, `MissingAttribute` or `BadAttributes` for URI, `BadAttributes` or `BadRange`
/// for BYTERANGE, `BadUri`; `OutOfMemory` only if an allocation fails.
pub fn said_by_init_section_tag(
    alloc: Global,
    base: &Base,
    rest: &str,
) -> Result<InitSectionTag, FaultKind>
    ensures { GivesOrPlaylistFault init_section_tag_said result
        (init_section_said limited base.now rest.now) }
{
    let list = tag_attributes_of(alloc, rest)?;
    let reference = required_tag_value(&list, "URI", true)?;
    let byte_range = init_section_tag_byte_range(&list)?;
    let uri = shared_tag_uri_of(alloc, base, reference)?;
    Ok(InitSectionTag { uri, byte_range })
}
