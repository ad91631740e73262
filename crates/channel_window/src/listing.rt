//! The segments that a channel holds, the oldest first: the newest of them, those of a playlist that come after it, and parts of them.
ghost use Rattle.std.specs.Prelude.{◌≡◌, ◌≤◌, ◌-◌, ℕ, None, IfOk, length, filter, drop, take, min};
ghost use Rattle.pod_store.specs.Marks.{newest_mark, mark_in};
ghost use Rattle.stitcher.specs.Stitched.{up_to};
ghost use Rattle.pod_store.specs.Store.{Store};
ghost use Rattle.stitcher.specs.StitchedSegments.{IsDecided, AreDecided};
ghost use Rattle.stitcher.specs.Inner.Making.{mark_after};
ghost use Rattle.channel_spec.specs.Marking.{newest_end, is_new};
ghost use Rattle.channel_spec.specs.Live.{gone_before};
ghost use Rattle.channel_spec.specs.Kept.{shown_from};
ghost use Rattle.playlist_kept.specs.Kept.{playlist_in};
ghost use Rattle.channel_window.specs.Checked.{AreContiguous, AreTaken};
ghost use Rattle.channel_window.specs.Marking.{history_in};
ghost use Rattle.channel_window.specs.Listed.{AreRising, RiseByOne, window_segments_in};
ghost use Rattle.channel_window.specs.Inner.Listed.{IsFront, IsTail, is_after, since};
ghost use Rattle.channel_spec.specs.Successor.{first_number};

use playlist_kept::Read;
use playlist_model::{GrowingSegments, Members, SegmentSlice, Segments, Shared};
use std::alloc::{AllocError, Global};
use stitcher::{MarkedSegment, SharedMark};

#[tactic(auto, using(crate::proofs::Listed::newest_seen, crate::proofs::Listed::newest_decided, crate::proofs::Listed::none_seen, crate::proofs::Listed::last_mark, crate::proofs::Listed::no_mark))]
/// The mark of the newest of the `shown` segments, which is the last; no mark if there is none. Fails only if an
/// allocation fails.
pub fn newest_shown_mark(alloc: Global, shown: &[MarkedSegment]) -> Result<SharedMark, AllocError>
    ensures mark { IfOk result
        (λ id. (store : Store) → newest_mark (history_in store shown.now) ≡ mark_in store id) }
    ensures decided { IfOk result
        (λ id. (store : Store) → AreDecided store shown.now → IsDecided store id) }
    ensures last { IfOk result (λ id. id ≡ mark_after None shown.now) }
{
    match shown.split_last() {
        Some((newest, _)) => newest.mark.clone(),
        None => Shared::new(alloc, None),
    }
}

#[tactic(auto, using(crate::proofs::Listed::newest_ends, crate::proofs::Listed::none_seen))]
/// When the newest of the `shown` segments ends, in nanoseconds from 1970; `None` if it has no instant.
pub fn newest_shown_end(shown: &[MarkedSegment]) -> Option<i128>
    ensures { (store : Store) → result ≡ newest_end (history_in store shown.now) }
{
    match shown.split_last() {
        Some((newest, _)) => newest.instant.end(newest.segment.get().duration()),
        None => None,
    }
}

// The Media Sequence Number of the first of these; 0 if there is none.
fn first_listed_window_number(segments: &SegmentSlice<'_>) -> u64
    ensures { result ≡ first_number segments.now }
{
    match segments.first() {
        Some(segment) => segment.media_sequence(),
        None => 0,
    }
}

// Those of these segments that are numbered after this: the last ones.
fn window_segments_after<'a>(number: u64, segments: &SegmentSlice<'a>) -> SegmentSlice<'a>
    requires { AreContiguous segments.now }
    ensures value { result ≡ filter (is_after number) segments.now }
    ensures last { IsTail result segments.now }
{
    let first = first_listed_window_number(segments);
    if number < first {
        return segments.again();
    }
    let place = (number - first) as usize;
    let later = segments.len().saturating_sub(place).saturating_sub(1);
    segments.split_at(segments.len() - later).1
}

// The segments that were read since others were taken over; all if none were.
fn window_segments_since_taken<'a>(read: &'a Read<'_>) -> SegmentSlice<'a>
    ensures { result ≡ since read.now }
{
    let segments = read.playlist.segments.as_slice();
    if read.taken.is_empty() {
        return segments;
    }
    segments.split_at(read.front).1
}

/// Those segments of the playlist that was `read` that aren't among the `shown` ones: its last ones. All of them were read,
/// since those that were taken over are shown.
pub fn fresh_window_segments_of<'a>(shown: &[MarkedSegment], read: &'a Read<'_>) -> SegmentSlice<'a>
    requires contiguous { AreContiguous (playlist_in read.now).segments }
    requires taken { AreTaken (window_segments_in shown.now) read.now.taken.now }
    requires rising { AreRising shown.now }
    requires front { read.now.front ≤ length read.now.playlist.segments }
    ensures value { (store : Store) → result
        ≡ filter (is_new (history_in store shown.now)) (playlist_in read.now).segments }
    ensures last { IsTail result read.now.playlist.segments }
{
    let segments = window_segments_since_taken(read);
    match shown.split_last() {
        Some((newest, _)) => window_segments_after(
            newest.segment.get().media_sequence(),
            &segments,
        ),
        None => segments,
    }
}

// Copies of these segments.
fn copied_window_segments(
    alloc: Global,
    segments: &SegmentSlice<'_>,
) -> Result<Segments, AllocError>
    ensures { IfOk result (λ copies. copies ≡ segments.now) }
{
    let mut copies = GrowingSegments::new(alloc);
    copies.push_copies(segments.again())?;
    Ok(copies.into_segments())
}

#[tactic(auto, using(crate::proofs::Listed::tail_whole))]
/// A list that ends with `fresh`, as `segments` does: `segments` itself, or a list of copies if `fresh` are fewer
/// than half of it, so that a segment which is shown for long doesn't hold all that were listed with it. Fails only
/// if an allocation fails.
pub fn window_list_with(
    alloc: Global,
    fresh: &SegmentSlice<'_>,
    segments: &Shared<Segments>,
) -> Result<Shared<Segments>, AllocError>
    requires { IsTail fresh.now segments.now }
    ensures { IfOk result (λ list. IsTail fresh.now list) }
{
    if fresh.len() >= segments.len() / 2 {
        return segments.clone();
    }
    Shared::new(alloc, copied_window_segments(alloc, fresh)?)
}

/// The members of `list` that are `fresh`, with which it ends.
pub fn last_window_members<'a>(list: &'a Shared<Segments>, fresh: &SegmentSlice<'_>) -> Members<'a>
    requires { IsTail fresh.now list.now }
    ensures { result ≡ fresh.now }
{
    Members::from_place(list, list.len().saturating_sub(fresh.len()))
}

/// How many segments of `list`, whose numbers rise by one, come before the media sequence number `number`: it begins at
/// that place, from 0.
pub fn place_of_number(number: u64, list: &[MarkedSegment]) -> usize
    requires { AreRising list.now }
    ensures seen { (store : Store) → history_in store (drop result list.now)
        ≡ shown_from number (history_in store list.now) }
    ensures gone { (store : Store) → history_in store (take result list.now)
        ≡ gone_before number (history_in store list.now) }
    ensures place { (first : ℕ) → RiseByOne first list.now → result
        ≡ min (number - first) (length list.now) }
    ensures within { result ≤ length list.now }
{
    let Some(first) = list.first() else {
        return 0;
    };
    let place = number.saturating_sub(first.segment.get().media_sequence()) as usize;
    place.min(list.len())
}

/// The segments of `list`, whose numbers rise by one, up to the one of the media sequence number `number`.
pub fn window_front_to(number: u64, list: &[MarkedSegment]) -> &[MarkedSegment]
    requires { AreRising list.now }
    ensures seen { (store : Store) → history_in store result.now
        ≡ up_to number (history_in store list.now) }
    ensures front { IsFront result.now list.now }
{
    let Some(first) = list.first() else {
        return list;
    };
    if number < first.segment.get().media_sequence() {
        return list.split_at(0).0;
    }
    let place = place_of_number(number, list);
    let later = list.len().saturating_sub(place).saturating_sub(1);
    list.split_at(list.len() - later).0
}

/// The segments of `list`, whose numbers rise by one, before the media sequence number `number`.
pub fn window_front_before(number: u64, list: &[MarkedSegment]) -> &[MarkedSegment]
    requires { AreRising list.now }
    ensures seen { (store : Store) → history_in store result.now
        ≡ gone_before number (history_in store list.now) }
    ensures front { IsFront result.now list.now }
{
    list.split_at(place_of_number(number, list)).0
}
