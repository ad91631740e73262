//! What stands over the segments of a list until a tag changes it, and from which numbers they are counted.
ghost use Rattle.std.specs.Prelude.{◌≡◌, ℕ, ◌+◌, true, None, Some, IfOk, OnOk, OnErr, MatchOption, length, slice_get};
ghost use Rattle.playlist_model.specs.Rows.{AreCompared, IsComparedWithLast, IsLastOf};
ghost use Rattle.playlist_model.specs.Inner.Rows.{Grows, LastOwnKeys, StandsAt, StandsOver};

use crate::places::{Place, segment_text_place};
use crate::{InCommon, InitSection, KeyPlaces, Keys, Shared};
use std::alloc::AllocError;

/// The numbers of a segment (RFC 8216, sections 4.3.3.2 and 4.3.3.3).
#[derive(Clone, Copy)]
pub(crate) struct SegmentNumbers {
    /// Its Media Sequence Number.
    pub media_sequence: u64,
    /// Its Discontinuity Sequence Number.
    pub discontinuity_sequence: u64,
    /// How many EXT-X-DISCONTINUITY stand between it and the segment before.
    pub discontinuities: u64,
}

/// What stands over segments until a tag changes it.
#[derive(Drop)]
pub(crate) struct Standing {
    /// The numbers of the first segment over which it stands. The others differ from it in the Media Sequence Number alone.
    pub numbers: SegmentNumbers,
    /// The place of the front of the URI of each of them.
    pub uri_front: Place,
    /// The keys as their tags state them.
    pub keys: Keys,
    /// The initialisation section.
    pub init_section: Option<Shared<InitSection>>,
    /// What these have in common with what stood before.
    pub in_common: InCommon,
    /// What segments have in common over which these stand.
    pub whole: InCommon,
}

// How many numbers `number` comes after `first`, if that has 32 bits.
#[inline(always)]
fn numbers_after(first: u64, number: u64) -> Option<u32>
    ensures { MatchOption result (Unit {0}) (λ count. first + count ≡ number) }
{
    let count = number.checked_sub(first)?;
    u32::try_from(count).ok()
}

// The place of the last of these, if it has the numbers of the segment of these `numbers`. With it, how many numbers that segment
// comes after its first one.
#[inline(always)]
fn last_standing_over(standings: &[Standing], numbers: SegmentNumbers) -> Option<(usize, u32)>
    ensures { MatchOption result (Unit {0})
        (λ found. (last : Standing) × (slice_get standings.now found.0 ≡ Some last)
        × (found.0 + 1 ≡ length standings.now)
        × StandsOver last found.1 numbers) }
{
    let place = standings.len().checked_sub(1)?;
    let first = standings[place].numbers;
    if first.discontinuities != numbers.discontinuities {
        return None;
    }
    if first.discontinuity_sequence != numbers.discontinuity_sequence {
        return None;
    }
    let number = numbers_after(first.media_sequence, numbers.media_sequence)?;
    Some((place, number))
}

/// The place of what stands over the next segment, and how many numbers that one comes after its first. The segment has these
/// `numbers` and a URI whose front lies at `uri_front`, under these `keys` and this `init_section`. What stands over it is put
/// after the other `standings`, unless the last of them is it. `is_listed` says that this one has the same keys, the same
/// initialisation section and the same front, and `in_common` what they have in common with it. Fails if an allocation fails, or
/// the standings are 2^32 or more.
#[inline(always)]
pub(crate) fn put_segment_standing(
    standings: &mut Vec<Standing>,
    is_listed: bool,
    keys: &Keys,
    init_section: &Option<Shared<InitSection>>,
    in_common: InCommon,
    numbers: SegmentNumbers,
    uri_front: Place,
) -> Result<(u32, u32), AllocError>
    requires listed { is_listed ≡ true → IsLastOf standings.old.items keys.now init_section.now uri_front }
    requires common { AreCompared standings.old.items }
    requires last { IsComparedWithLast standings.old.items in_common keys.now init_section.now }
    ensures grows { Grows standings.old.items standings.new.items }
    ensures there { IfOk result
        (λ at. StandsAt standings.new.items numbers uri_front keys.now init_section.now at.0 at.1) }
    ensures common { AreCompared standings.new.items }
    ensures last { OnOk result (IsLastOf standings.new.items keys.now init_section.now uri_front) }
    ensures refused { OnErr result (standings.new.items ≡ standings.old.items) }
{
    if is_listed {
        if let Some((place, number)) = last_standing_over(standings.as_slice(), numbers) {
            let standing = segment_text_place(place)?;
            return Ok((standing, number));
        }
    }
    let standing = push_segment_standing(
        standings,
        keys,
        init_section,
        in_common,
        numbers,
        uri_front,
    )?;
    Ok((standing, 0))
}

#[inline(never)]
fn push_segment_standing(
    standings: &mut Vec<Standing>,
    keys: &Keys,
    init_section: &Option<Shared<InitSection>>,
    in_common: InCommon,
    numbers: SegmentNumbers,
    uri_front: Place,
) -> Result<u32, AllocError>
    requires common { AreCompared standings.old.items }
    requires last { IsComparedWithLast standings.old.items in_common keys.now init_section.now }
    ensures grows { Grows standings.old.items standings.new.items }
    ensures there { IfOk result
        (λ place. StandsAt standings.new.items numbers uri_front keys.now init_section.now place 0) }
    ensures common { AreCompared standings.new.items }
    ensures last { OnOk result (IsLastOf standings.new.items keys.now init_section.now uri_front) }
    ensures refused { OnErr result (standings.new.items ≡ standings.old.items) }
{
    let place = segment_text_place(standings.len())?;
    standings.push(Standing {
        numbers,
        uri_front,
        keys: keys.clone()?,
        init_section: init_section.clone()?,
        in_common,
        whole: InCommon::whole(in_common.own_keys, init_section.is_some()),
    })?;
    Ok(place)
}

/// The places at which the last of these `standings` has its keys in its initialisation section too; none if it has no such
/// section.
pub(crate) fn last_own_keys(standings: &[Standing]) -> KeyPlaces
    requires { AreCompared standings.now }
    ensures { LastOwnKeys standings.now result }
{
    let Some((last, _)) = standings.split_last() else {
        return KeyPlaces::none();
    };
    if last.init_section.is_none() {
        return KeyPlaces::none();
    }
    last.whole.own_keys
}

/// Whether the `place` of a standing comes directly after `last`, if that one is known.
pub(crate) fn is_next_standing(last: Option<u32>, place: u32) -> bool
    ensures { result ≡ true → (before : ℕ) × (last ≡ Some before) × (before + 1 ≡ place) }
{
    match last {
        Some(last) => u64::from(last) + 1 == u64::from(place),
        None => false,
    }
}
