//! The instants at which a playlist's segments begin (RFC 8216, sections 4.3.2.6 and 6.2.1).
#![tactic(auto)]

ghost use Rattle.std.specs.Prelude.{◌≡◌, ℤ, List, [], ◌∷◌, IfOk, IfErr, IfSome, None, Some, MatchOption, option_map, pos, ◌-ℤ◌, ◌+ℤ◌, ◌||◌, replicate};
ghost use Rattle.std.specs.List.{list_all};
ghost use Rattle.std.specs.Option.{is_some};
ghost use Rattle.playlist_model.specs.Instants.{bounded, instants_after};
ghost use Rattle.playlist_model.specs.LookBack.{or_earlier};
ghost use Rattle.playlist_model.specs.Segments.{Segment};
ghost use Rattle.timeline.specs.Reckoned.{clamped, reckoned, stack_of, IsKeptStack};
ghost use Rattle.timeline.specs.Inner.Reckoned.{is_beginning_unstated};

use date_times::FIRST_INSTANT;
use fixed_duration::Nanos;
use playlist_model::{Instant, SegmentRef, SegmentSlice};
use std::alloc::{AllocError, Global};
use std::marker::Model;

pub mod laws;
mod optional_instant;

pub use optional_instant::OptionalInstant;

#[tactic(auto, using(crate::proofs::Ends::outside_alike))]
// The same number, if it has 64 bits; else one that is outside the range of instants too.
fn end_in_64_bits(end: i128) -> i64
    ensures { (segments : List Segment) → instants_after (Some result) segments ≡ instants_after (Some end) segments }
{
    match i64::try_from(end) {
        Ok(end) => end,
        Err(_) => i64::MAX,
    }
}

#[tactic(auto, using(crate::proofs::Ends::outside_alike))]
// When a segment ends that begins at an instant and lasts so long. Any number serves that is outside the range of instants, if the
// end is.
#[inline(always)]
fn end_after_beginning(begun: Instant, duration: Nanos) -> i64
    ensures { (segments : List Segment)
        → instants_after (Some result) segments ≡ instants_after (Some (begun +ℤ pos duration)) segments }
{
    match i64::try_from(duration.0) {
        Ok(duration) => begun.0.saturating_add(duration),
        Err(_) => end_in_64_bits(i128::from(begun.0) + i128::from(duration.0)),
    }
}

// So much earlier, or one before the first instant if that is passed.
fn earlier_beginning(nanos: i128, duration: u64) -> i128
    ensures { result ≡ clamped (nanos -ℤ pos duration) }
{
    let before_all = FIRST_INSTANT - 1;
    match nanos.checked_sub(i128::from(duration)) {
        Some(nanos) => nanos.max(before_all),
        None => before_all,
    }
}

// The first time that is stated from this segment on, less the durations before it.
fn beginning_reckoned_here(segment: &SegmentRef<'_>, after: Option<i128>) -> Option<i128>
    ensures { result
        ≡ option_map clamped (or_earlier segment.now.program_date_time (option_map
        (λ nanos. nanos -ℤ pos segment.now.duration) after)) }
{
    if let Some(time) = segment.program_date_time() {
        return Some(i128::from(time.0).max(FIRST_INSTANT - 1));
    }
    match after {
        Some(nanos) => Some(earlier_beginning(nanos, segment.duration().0)),
        None => None,
    }
}

// When a segment begins (RFC 8216, section 4.3.2.6): at its stated time, else when the one before it ended, else
// back from the first time that is stated later.
#[inline(always)]
fn segment_begins_at(
    ended: Option<i64>,
    segment: &SegmentRef<'_>,
    reckoned: Option<i128>,
) -> OptionalInstant
    ensures { result
        ≡ bounded (or_earlier segment.now.program_date_time (or_earlier ended reckoned)) }
{
    if let Some(time) = segment.program_date_time() {
        return OptionalInstant::from_number(time.0);
    }
    match ended {
        Some(ended) => OptionalInstant::from_number(ended),
        None => OptionalInstant::from_nanos(reckoned),
    }
}

// Whether a segment states its time or follows one that begins somewhere, so that nothing is reckoned back for it.
#[inline(always)]
fn is_beginning_told(segment: &SegmentRef<'_>, ended: &Option<i64>) -> bool
    ensures { result ≡ (is_some segment.now.program_date_time || is_some ended.now) }
{
    segment.program_date_time().is_some() || ended.is_some()
}

// For each segment the first time that is stated from it on, less the durations before it: the first
// segment's stands last.
fn reckoned_beginnings(
    alloc: Global,
    segments: &SegmentSlice<'_>,
) -> Result<Vec<Option<i128>>, AllocError>
    ensures { IfOk result (λ v. v.items ≡ stack_of segments.now) }
{
    let mut stack = Vec::with_capacity(alloc, segments.len())?;
    let mut after: Option<i128> = None;
    let mut rest = segments.again();
    while let Some((segment, before)) = rest.split_last() {
        after = beginning_reckoned_here(&segment, after);
        stack.push(after)?;
        rest = before;
    }
    Ok(stack)
}

fn is_beginning_unstated(segment: &SegmentRef<'_>) -> bool
    ensures { result ≡ is_beginning_unstated segment.now }
{
    segment.program_date_time().is_none()
}

// Whether none of these segments states its time.
fn are_beginnings_unstated(segments: &SegmentSlice<'_>) -> bool
    ensures { result ≡ list_all is_beginning_unstated segments.now }
{
    let mut rest = segments.again();
    while let Some((segment, later)) = rest.split_first() {
        if !is_beginning_unstated(&segment) {
            return false;
        }
        rest = later;
    }
    true
}

#[tactic(auto, using(crate::proofs::Kept::unstated_kept, crate::proofs::Kept::stack_kept))]
// What is kept of these segments. In most playlists either the first states its time or none does, and then no memory is taken.
fn kept_beginnings_of(
    alloc: Global,
    segments: &SegmentSlice<'_>,
) -> Result<Vec<Option<i128>>, AllocError>
    ensures { IfOk result (λ v. IsKeptStack v.items segments.now) }
{
    if are_beginnings_unstated(segments) {
        return Ok(Vec::new(alloc));
    }
    reckoned_beginnings(alloc, segments)
}

#[tactic(auto, using(crate::proofs::Kept::popped_first, crate::proofs::Kept::popped_others, crate::proofs::Kept::none_first, crate::proofs::Kept::none_others))]
// What is reckoned of the first of some segments, of which this is kept; then it is of the others.
fn pop_reckoned_beginning(kept: &mut Vec<Option<i128>>) -> Option<i128>
    ensures first { (s : Segment) (later : List Segment) → IsKeptStack kept.old.items (s ∷ later)
        → result ≡ reckoned (s ∷ later) }
    ensures others { (s : Segment) (later : List Segment) → IsKeptStack kept.old.items (s ∷ later)
        → IsKeptStack kept.new.items later }
{
    match kept.pop() {
        Some(reckoned) => reckoned,
        None => None,
    }
}

/// The instants at which segments begin, one after the other.
#[derive(Drop)]
pub struct Beginnings<'a> {
    alloc: Global,
    // When the segment before ended, or any number outside the range of instants if that was outside it.
    ended: Option<i64>,
    segments: SegmentSlice<'a>,
    // What is kept of the segments that are left, once one of them needed what is reckoned back.
    kept: Option<Vec<Option<i128>>>,
}

impl<'a> Model for Beginnings<'a> {
    ghost use Rattle.std.specs.Prelude.{◌≡◌, ℤ, List, Option, IfSome, option_map};
    ghost use Rattle.playlist_model.specs.Instants.{instants_after};
    ghost use Rattle.timeline.specs.Reckoned.{IsKeptStack};

    ghost Value = { List (Option ℤ) };

    ghost view = { λ a. instants_after a.ended a.segments };

    ghost invariant = { λ a. IfSome (option_map (λ v. v.items) a.kept) (λ items. IsKeptStack items a.segments) };
}

impl<'a> Beginnings<'a> {
    /// The instants at which the `segments` begin, one after the other (RFC 8216, section 4.3.2.6). The segment
    /// before them ended at `ended`, in nanoseconds from 1970; `None` if that isn't known or there was none. A
    /// segment begins at its stated time; else when the one before it ended; else at the first time stated later,
    /// less the durations between. It has none outside the range of instants. Takes no memory.
    ///
    /// ```text
    /// the segments' durations and times, with `ended` None:    6 s; 6 s, 12:00:06; 4 s
    /// their instants:                                          12:00:00, 12:00:06, 12:00:12
    /// ```
    pub fn new(alloc: Global, ended: Option<i128>, segments: SegmentSlice<'a>) -> Beginnings<'a>
        ensures { result ≡ instants_after ended segments.entry }
    {
        let ended = match ended {
            Some(ended) => Some(end_in_64_bits(ended)),
            None => None,
        };
        Beginnings {
            alloc,
            ended,
            segments,
            kept: None,
        }
    }

    #[tactic(auto, using(crate::proofs::Kept::none_begin))]
    /// How many segments are left, if it is seen that none of them begins at a known instant: none states its time, and it isn't
    /// known when the one before them ended.
    pub fn len_if_unknown(&self) -> Option<usize>
        ensures { IfSome result (λ count. self.now ≡ replicate count None) }
    {
        if self.ended.is_some() || !are_beginnings_unstated(&self.segments) {
            return None;
        }
        Some(self.segments.len())
    }

    /// Where the next segment begins, if there is one. If an allocation fails, all are still to come.
    #[inline(always)]
    pub fn next(&mut self) -> Result<Option<OptionalInstant>, AllocError>
        ensures next { IfOk result
            (λ next. MatchOption next ((self.old ≡ []) × (self.new ≡ []))
            (λ begun. self.old ≡ begun ∷ self.new)) }
        ensures refused { IfErr result (λ _. self.new ≡ self.old) }
    {
        let ended = self.ended;
        let Some((segment, later)) = self.segments.split_first() else {
            return Ok(None);
        };
        if self.kept.is_none() && !is_beginning_told(&segment, &ended) {
            self.kept = Some(kept_beginnings_of(self.alloc, &self.segments)?);
        }
        let reckoned = match &mut self.kept {
            Some(kept) => pop_reckoned_beginning(kept),
            None => None,
        };
        let begun = segment_begins_at(ended, &segment, reckoned);
        self.ended = match begun.get() {
            Some(begun) => Some(end_after_beginning(begun, segment.duration())),
            None => None,
        };
        self.segments = later;
        Ok(Some(begun))
    }
}
