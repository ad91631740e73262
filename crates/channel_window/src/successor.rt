//! Which playlist may follow which (RFC 8216, sections 6.2.1 and 6.2.2).
ghost use Rattle.std.specs.Prelude.{◌≡◌, List, Some, None, slice_get, true, false, not, ◌&&◌, option_map};
ghost use Rattle.playlist_model.specs.Segments.{Segment};
ghost use Rattle.playlist_model.specs.InCommon.{AreAlike, HaveInCommon};
ghost use Rattle.stitcher.specs.declared.marked.MarkedSegment.{MarkedSegment};
ghost use Rattle.stitcher.specs.StitchedSegments.{KnowCommon};
ghost use Rattle.channel_spec.specs.declared.fault.RefreshFault.TheVariants.{Changed};
ghost use Rattle.channel_spec.specs.Successor.{end_number, first_changed, first_discontinuity, first_number, discontinuity_out_of_range, has_init_sections, is_same_window, last_discontinuity, answer_of, following_fault};
ghost use Rattle.playlist_kept.specs.Kept.{playlist_in};
ghost use Rattle.channel_window.specs.Checked.{AreContiguous, AreTaken};
ghost use Rattle.channel_window.specs.Listed.{window_segments_in};
ghost use Rattle.channel_window.specs.Inner.Checked.{IsAlike, is_as_before};

use channel_spec::{Heading, RefreshFault};
use playlist_kept::{Read, is_same_kind};
use playlist_model::{InCommon, SegmentRef, SegmentSlice, same_segment};
use stitcher::MarkedSegment;

/// The Media Sequence Number of the first segment of the playlist that was `read` (RFC 8216, section 4.3.3.2); 0 if it has
/// none.
pub fn first_successor_number(read: &Read<'_>) -> u64
    ensures { result ≡ first_number (playlist_in read.now).segments }
{
    match read.first() {
        Some(segment) => segment.media_sequence(),
        None => 0,
    }
}

// The number one past the last.
fn end_successor_number(read: &Read<'_>) -> u128
    ensures { result ≡ end_number (playlist_in read.now).segments }
{
    u128::from(first_successor_number(read)) + read.count()
}

/// The Media Sequence Number of the first of the `shown` segments (RFC 8216, section 4.3.3.2); 0 if there is none.
pub fn first_shown_number(shown: &[MarkedSegment]) -> u64
    ensures { result ≡ first_number (window_segments_in shown.now) }
{
    match shown.first() {
        Some(marked) => marked.segment.get().media_sequence(),
        None => 0,
    }
}

#[tactic(auto, using(crate::proofs::Found::held_length))]
// The number one past the last that is shown.
fn end_shown_number(shown: &[MarkedSegment]) -> u128
    ensures { result ≡ end_number (window_segments_in shown.now) }
{
    u128::from(first_shown_number(shown)) + shown.len() as u128
}

fn first_successor_discontinuity(read: &Read<'_>) -> u64
    ensures { result ≡ first_discontinuity (playlist_in read.now).segments }
{
    match read.first() {
        Some(segment) => segment.discontinuity_sequence(),
        None => 0,
    }
}

#[tactic(auto, using(crate::proofs::Found::held_last))]
fn last_shown_discontinuity(shown: &[MarkedSegment]) -> u64
    ensures { result ≡ last_discontinuity (window_segments_in shown.now) }
{
    match shown.split_last() {
        Some((last, _)) => last.segment.get().discontinuity_sequence(),
        None => 0,
    }
}

/// Whether the segments of the playlist that was `read` have initialisation sections (RFC 8216, section 4.3.2.5): whether
/// the first one has.
pub fn successor_has_init_sections(read: &Read<'_>) -> bool
    ensures { result ≡ has_init_sections (playlist_in read.now).segments }
{
    match read.first() {
        Some(segment) => segment.init_section().is_some(),
        None => false,
    }
}

/// Whether the `shown` segments have initialisation sections: whether the first one has.
pub fn shown_have_init_sections(shown: &[MarkedSegment]) -> bool
    ensures { result ≡ has_init_sections (window_segments_in shown.now) }
{
    match shown.first() {
        Some(marked) => marked.segment.get().init_section().is_some(),
        None => false,
    }
}

// What a segment has in common with the shown one at a place. It says nothing of other places.
#[derive(Clone, Copy)]
struct Alike {
    place: usize,
    in_common: InCommon,
}

impl Alike {
    // What is known at a place.
    fn at(&self, place: usize) -> InCommon
        ensures { (shown : List MarkedSegment) → (segment : Segment) → (other : MarkedSegment)
            → IsAlike shown self.now segment → slice_get shown place ≡ Some other
            → AreAlike result segment other.segment }
    {
        if place == self.place {
            return self.in_common;
        }
        InCommon::nothing()
    }
}

// Nothing is known.
fn successor_not_yet_alike() -> Alike
    ensures { (shown : List MarkedSegment) → (segment : Segment) → IsAlike shown result segment }
{
    Alike {
        place: 0,
        in_common: InCommon::nothing(),
    }
}

// What the segment after this one has in common with the shown one at its place, if this one is as it is shown: both follow
// segments that are the same. `in_common` is what it has in common with this one.
fn successor_alike_after(
    shown: &[MarkedSegment],
    segment: &SegmentRef<'_>,
    in_common: InCommon,
) -> Alike
    requires contiguous { AreContiguous (window_segments_in shown.now) }
    requires common { KnowCommon None shown.now }
    requires same { is_as_before (window_segments_in shown.now) segment.now ≡ true }
    ensures { (next : Segment) → HaveInCommon in_common segment.now next → IsAlike shown.now result next }
{
    let (first, number) = (first_shown_number(shown), segment.media_sequence());
    if number < first {
        return successor_not_yet_alike();
    }
    let Some(place) = ((number - first) as usize).checked_add(1) else {
        return successor_not_yet_alike();
    };
    match shown.get(place) {
        Some(next) => Alike {
            place,
            in_common: in_common.after_same(next.in_common),
        },
        None => successor_not_yet_alike(),
    }
}

// Whether a segment is as it is shown, or isn't shown. What it has in common with a shown one is known.
fn is_segment_as_shown(shown: &[MarkedSegment], segment: &SegmentRef<'_>, alike: &Alike) -> bool
    requires contiguous { AreContiguous (window_segments_in shown.now) }
    requires alike { IsAlike shown.now alike.now segment.now }
    ensures { result ≡ is_as_before (window_segments_in shown.now) segment.now }
{
    let (first, number) = (first_shown_number(shown), segment.media_sequence());
    if number < first {
        return true;
    }
    let place = (number - first) as usize;
    match shown.get(place) {
        Some(other) => same_segment(segment, &other.segment.get(), alike.at(place)),
        None => true,
    }
}

// The number of the first of these segments that isn't as it is shown.
fn first_changed_of_successor(shown: &[MarkedSegment], new: &SegmentSlice<'_>) -> Option<u64>
    requires contiguous { AreContiguous (window_segments_in shown.now) }
    requires common { KnowCommon None shown.now }
    ensures { option_map Changed result ≡ first_changed (window_segments_in shown.now) new.now }
{
    let mut rest = new.again();
    let mut alike = successor_not_yet_alike();
    while let Some((segment, later)) = rest.split_first() {
        if !is_segment_as_shown(shown, &segment, &alike) {
            return Some(segment.media_sequence());
        }
        alike = successor_alike_after(shown, &segment, rest.second_in_common());
        rest = later;
    }
    None
}

#[tactic(auto, using(crate::proofs::TakenOver::changed_apart))]
// The number of the first segment that isn't as it is shown. Those that were taken over are.
fn first_changed_from_shown(shown: &[MarkedSegment], read: &Read<'_>) -> Option<u64>
    requires contiguous { AreContiguous (window_segments_in shown.now) }
    requires common { KnowCommon None shown.now }
    requires taken { AreTaken (window_segments_in shown.now) read.now.taken.now }
    ensures { option_map Changed result
        ≡ first_changed (window_segments_in shown.now) (playlist_in read.now).segments }
{
    first_changed_of_successor(shown, &read.playlist.segments.as_slice())
}

// Whether the one starts directly after the other, with a discontinuity number that doesn't follow: it is less, or
// more than 1,000 higher (RFC 8216, section 6.2.1).
fn successor_discontinuity_out_of_range(shown: &[MarkedSegment], read: &Read<'_>) -> bool
    ensures { result
        ≡ discontinuity_out_of_range (window_segments_in shown.now) (playlist_in read.now).segments }
{
    if u128::from(first_successor_number(read)) != end_shown_number(shown) {
        return false;
    }
    let (last, next) = (
        last_shown_discontinuity(shown),
        first_successor_discontinuity(read),
    );
    next < last || u128::from(last) + 1000 < u128::from(next)
}

fn is_same_window_shown(shown: &[MarkedSegment], read: &Read<'_>) -> bool
    ensures { result ≡ is_same_window (window_segments_in shown.now) (playlist_in read.now).segments }
{
    first_successor_number(read) == first_shown_number(shown)
        && end_successor_number(read) == end_shown_number(shown)
}

/// Whether the playlist that was `read` may follow one of the heading `old` of which the segments `shown` are shown (RFC
/// 8216, sections 6.2.1, 6.2.2 and 4.3.3.4): the first of the faults N1 to N9 if it may not. Those of its segments that
/// were taken over are as they are shown, and are not looked at. Takes no memory.
///
/// ```text
/// shown: s3 s4 s5, new: s4 s5 s6    Ok(())
/// shown: s3 s4 s5, new: s2 s3 s4    Err(RefreshFault::Back)
/// shown: s3 s4 s5, new: s7 s8 s9    Err(RefreshFault::Gap)
/// ```
pub fn check_successor(
    old: &Heading,
    shown: &[MarkedSegment],
    read: &Read<'_>,
) -> Result<(), RefreshFault>
    requires contiguous { AreContiguous (window_segments_in shown.now) }
    requires common { KnowCommon None shown.now }
    requires taken { AreTaken (window_segments_in shown.now) read.now.taken.now }
    ensures { result
        ≡ answer_of (following_fault old.now (window_segments_in shown.now) (playlist_in read.now)) }
{
    let new = &read.playlist;
    if new.version != old.version {
        return Err(RefreshFault::VersionChanged);
    }
    if new.target_duration != old.target_duration {
        return Err(RefreshFault::TargetChanged);
    }
    if !is_same_kind(new.playlist_type, old.playlist_type) {
        return Err(RefreshFault::TypeChanged);
    }
    if successor_has_init_sections(read) != shown_have_init_sections(shown) {
        return Err(RefreshFault::MapsChanged);
    }
    if first_successor_number(read) < first_shown_number(shown) {
        return Err(RefreshFault::Back);
    }
    if u128::from(first_successor_number(read)) > end_shown_number(shown) {
        return Err(RefreshFault::Gap);
    }
    if end_successor_number(read) < end_shown_number(shown) {
        return Err(RefreshFault::Shrunk);
    }
    if let Some(number) = first_changed_from_shown(shown, read) {
        return Err(RefreshFault::Changed(number));
    }
    if successor_discontinuity_out_of_range(shown, read) {
        return Err(RefreshFault::Changed(first_successor_number(read)));
    }
    if old.end_list && !(new.end_list && is_same_window_shown(shown, read)) {
        return Err(RefreshFault::Ended);
    }
    Ok(())
}
