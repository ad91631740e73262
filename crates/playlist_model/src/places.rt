//! Texts of a list of segments, and what few of these have. The list holds them together: each is put after the others, and
//! found by its place.
ghost use Rattle.std.specs.Prelude.{◌≡◌, ◌++◌, true, IfOk, OnOk, OnErr, string_bytes, length};
ghost use Rattle.playlist_model.specs.Rows.{HasExtra, HasText, extra_at, segment_text_at};
ghost use Rattle.playlist_model.specs.Inner.Rows.{Grows};

use crate::{ByteRange, Instant};
use std::alloc::AllocError;

/// Where a text lies among those of a list.
#[derive(Clone, Copy)]
pub(crate) struct Place {
    /// The place of its first byte, from 0.
    pub from: u32,
    /// The place after its last byte.
    pub to: u32,
}

/// The `number` as a place. Fails if it has more than 32 bits.
pub(crate) fn segment_text_place(number: usize) -> Result<u32, AllocError>
    ensures { IfOk result (λ place. place ≡ number) }
{
    match u32::try_from(number) {
        Ok(place) => Ok(place),
        Err(_) => Err(AllocError),
    }
}

// Appends a text, unless it is empty: the rest of a part's URI is, since all of that URI is shared.
#[inline(always)]
fn append_segment_text(texts: &mut String, text: &str) -> Result<(), AllocError>
    ensures appended { OnOk result (string_bytes texts.new ≡ string_bytes texts.old ++ text.now) }
    ensures refused { OnErr result (string_bytes texts.new ≡ string_bytes texts.old) }
{
    if text.is_empty() {
        return Ok(());
    }
    texts.push_str(text)
}

#[tactic(auto, using(crate::proofs::Rows::text_put))]
/// Puts `text` after the `texts` of a list. Fails if an allocation fails, or the texts have 2^32 bytes or more.
#[inline(always)]
pub(crate) fn put_segment_text(texts: &mut String, text: &str) -> Result<Place, AllocError>
    ensures grows { Grows (string_bytes texts.old) (string_bytes texts.new) }
    ensures there { IfOk result
        (λ place. HasText (string_bytes texts.new) place
        × (segment_text_at (string_bytes texts.new) place ≡ text.now)
        × (place.from ≡ length (string_bytes texts.old))
        × (place.to ≡ length (string_bytes texts.new))) }
{
    let from = segment_text_place(texts.len())?;
    append_segment_text(texts, text)?;
    let to = segment_text_place(texts.len())?;
    Ok(Place { from, to })
}

/// Puts `title` after `uri`, the last of the `texts` of a list, and answers the place after it. Fails as `put_segment_text` does.
#[inline(always)]
pub(crate) fn put_segment_title(
    texts: &mut String,
    uri: Place,
    title: &str,
) -> Result<u32, AllocError>
    requires { uri.to ≡ length (string_bytes texts.old) }
    ensures grows { Grows (string_bytes texts.old) (string_bytes texts.new) }
    ensures there { IfOk result
        (λ end. HasText (string_bytes texts.new) (record { from = uri.to; to = end })
        × (segment_text_at (string_bytes texts.new) (record { from = uri.to; to = end }) ≡ title.now)) }
{
    // Most segments have none.
    if title.is_empty() {
        return Ok(uri.to);
    }
    let place = put_segment_text(texts, title)?;
    Ok(place.to)
}

/// The text at `place` among the `texts` of a list.
#[inline(always)]
pub(crate) fn segment_text_at(texts: &str, place: Place) -> &str
    requires { HasText texts.now place }
    ensures { result.now ≡ segment_text_at texts.now place }
{
    let bytes = &texts.as_bytes()[place.from as usize..place.to as usize];
    // Each place has a text.
    unsafe { str::from_utf8_unchecked(bytes) }
}

#[tactic(auto, using(crate::proofs::Rows::text_is_at))]
/// Whether `text` lies at `place` among the `texts` of a list.
#[inline(always)]
pub(crate) fn is_segment_text_at(texts: &str, place: Place, text: &str) -> bool
    ensures { result ≡ true
        → HasText texts.now place × (segment_text_at texts.now place ≡ text.now) }
{
    let found = texts.as_bytes().get(place.from as usize..place.to as usize);
    match found {
        Some(bytes) => bytes == text.as_bytes(),
        None => false,
    }
}

/// What few segments have.
#[derive(Clone, Copy)]
pub(crate) struct Extra {
    /// The part of the resource, if it isn't the whole.
    pub byte_range: Option<ByteRange>,
    /// When the first sample is, if that is stated.
    pub program_date_time: Option<Instant>,
}

/// Puts what few segments have after the `extras` of a list, if the segment of this `byte_range` and this `program_date_time` has
/// any of it. Answers its place there, from 1; 0 if it has nothing of that. Fails if an allocation fails, or they are 2^32 or more.
#[inline(always)]
pub(crate) fn put_segment_extra(
    extras: &mut Vec<Extra>,
    byte_range: Option<ByteRange>,
    program_date_time: Option<Instant>,
) -> Result<u32, AllocError>
    ensures grows { Grows extras.old.items extras.new.items }
    ensures there { IfOk result
        (λ place. HasExtra extras.new.items place
        × (extra_at extras.new.items place
        ≡ record { byte_range = byte_range; program_date_time = program_date_time })) }
{
    if byte_range.is_none() && program_date_time.is_none() {
        return Ok(0);
    }
    push_segment_extra(extras, byte_range, program_date_time)
}

#[tactic(auto, using(crate::proofs::Rows::extra_put))]
#[inline(never)]
fn push_segment_extra(
    extras: &mut Vec<Extra>,
    byte_range: Option<ByteRange>,
    program_date_time: Option<Instant>,
) -> Result<u32, AllocError>
    ensures grows { Grows extras.old.items extras.new.items }
    ensures there { IfOk result
        (λ place. HasExtra extras.new.items place
        × (extra_at extras.new.items place
        ≡ record { byte_range = byte_range; program_date_time = program_date_time })) }
{
    extras.push(Extra {
        byte_range,
        program_date_time,
    })?;
    segment_text_place(extras.len())
}

/// What stands at `place` of the `extras` of a list, from 1; nothing at 0.
#[inline(always)]
pub(crate) fn segment_extra_at(extras: &[Extra], place: u32) -> Extra
    requires { HasExtra extras.now place }
    ensures { result ≡ extra_at extras.now place }
{
    if place == 0 {
        return Extra {
            byte_range: None,
            program_date_time: None,
        };
    }
    extras[(place - 1) as usize]
}
