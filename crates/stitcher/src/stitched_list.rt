//! A stitched list. It holds no item: each is made when it is asked for.
ghost use Rattle.std.specs.Prelude.{◌≡◌, ◌==◌, ◌∷◌, ◌++◌, ◌+◌, ◌^◌, nat_le, ◌<◌, ◌≤◌, [], List, map, drop, length, true, None, MatchOption, IfSome, IfOk};
ghost use Rattle.std.specs.List.{list_all};
ghost use Rattle.stitcher.specs.declared.OutSegment.{OutSegment};
ghost use Rattle.stitcher.specs.StitchedSegments.{KnowCommon, item_fits};
ghost use Rattle.stitcher.specs.Inner.Making.{numbers_fit};
ghost use Rattle.stitcher.specs.Inner.Cuts.{stretches_within, items_left_from_stretches};
ghost use Rattle.stitcher.specs.Stitched.{Numbers};
ghost use Rattle.stitcher.specs.Stretches.{KeptKnowCommon, LeftKnowCommon, SecondHasInCommon, stitched_ad_item, ads_left, here_items, segment_items, stitched_kept_item, left_items, stitched_numbers_on, stretch_items, stretches_items};

use crate::OutSegment;
use crate::marked::{MarkedSegment, Numbers};
use playlist_model::{InCommon, SegmentRef, SegmentSlice, Segments};
use std::alloc::AllocError;
use std::marker::Model;

/// The segments of ads that stand one after another, and the segments of the origin that are kept after them, up to the next ad.
#[derive(Drop)]
pub(crate) struct Stretch<'a> {
    /// The ads' segments, which repeat the numbers that are written.
    pub ads: Segments,
    /// The kept segments.
    pub kept: &'a [MarkedSegment],
    /// The numbers of the first of those.
    pub numbers: Numbers,
}

// A place in a list of stretches.
#[derive(Drop)]
struct Cursor<'a> {
    // What is left of the segments of ads; none before the first stretch.
    ads: Option<SegmentSlice<'a>>,
    kept: &'a [MarkedSegment],
    numbers: Numbers,
    later: &'a [Stretch<'a>],
}

#[inline(always)]
fn stitched_ad_item(segment: SegmentRef<'_>) -> OutSegment<'_>
    ensures { result ≡ stitched_ad_item segment.entry }
{
    OutSegment {
        media_sequence: segment.media_sequence(),
        discontinuity_sequence: segment.discontinuity_sequence(),
        discontinuities: segment.discontinuities(),
        program_date_time: None,
        segment,
    }
}

#[inline(always)]
fn stitched_kept_item<'a>(numbers: &Numbers, marked: &'a MarkedSegment) -> OutSegment<'a>
    ensures { result ≡ stitched_kept_item numbers.now marked.now }
{
    OutSegment {
        segment: marked.segment.get(),
        media_sequence: numbers.media_sequence,
        discontinuity_sequence: numbers.discontinuity_sequence,
        discontinuities: numbers.discontinuities,
        program_date_time: marked.instant.get(),
    }
}

// The numbers of the first of these, which follow a kept segment with those.
#[inline(always)]
fn stitched_numbers_on(numbers: &Numbers, here: &MarkedSegment, later: &[MarkedSegment]) -> Numbers
    requires { numbers_fit (stitched_numbers_on numbers.now here.now later.now) ≡ true }
    ensures { result ≡ stitched_numbers_on numbers.now here.now later.now }
{
    let Some(next) = later.first() else {
        return *numbers;
    };
    let before = here.segment.get().discontinuity_sequence();
    let steps = next
        .segment
        .get()
        .discontinuity_sequence()
        .saturating_sub(before);
    Numbers {
        media_sequence: numbers.media_sequence + 1,
        discontinuity_sequence: numbers.discontinuity_sequence + steps,
        discontinuities: steps,
    }
}

// Whether no segment of an ad is left.
#[inline(always)]
fn is_past_stitched_ads(ads: &Option<SegmentSlice<'_>>) -> bool
    ensures { result ≡ (length (ads_left ads.now) == 0) }
{
    match ads {
        Some(ads) => ads.len() == 0,
        None => true,
    }
}

// The first of the ads' segments that are left, and those after it.
#[inline(always)]
fn next_stitched_ad<'a>(
    ads: &Option<SegmentSlice<'a>>,
) -> Option<(SegmentRef<'a>, SegmentSlice<'a>)>
    ensures { MatchOption result (ads_left ads.now ≡ [])
        (λ parts. ads_left ads.now ≡ parts.0 ∷ parts.1) }
{
    match ads {
        Some(ads) => ads.split_first(),
        None => None,
    }
}

// Goes to the next stretch that has an item, if none is left of this one.
#[inline(always)]
fn open_stitched_stretch<'a>(cursor: &mut Cursor<'a>)
    requires { LeftKnowCommon cursor.old }
    ensures same { left_items cursor.new ≡ left_items cursor.old }
    ensures open { here_items cursor.new ≡ [] → left_items cursor.new ≡ [] }
    ensures common { LeftKnowCommon cursor.new }
{
    while is_past_stitched_ads(&cursor.ads) && cursor.kept.is_empty() {
        let stretches = cursor.later;
        let [stretch, later @ ..] = stretches else {
            return;
        };
        cursor.ads = Some(stretch.ads.as_slice());
        cursor.kept = stretch.kept;
        cursor.numbers = stretch.numbers;
        cursor.later = later;
    }
}

// The next item of the stretch.
#[inline(always)]
fn next_item_of_stretch<'a>(cursor: &mut Cursor<'a>) -> Option<OutSegment<'a>>
    requires fit { list_all item_fits (here_items cursor.old) ≡ true }
    requires common { LeftKnowCommon cursor.old }
    ensures item { MatchOption result ((here_items cursor.old ≡ []) × (here_items cursor.new ≡ []))
        (λ item. here_items cursor.old ≡ item ∷ here_items cursor.new) }
    ensures later { cursor.new.later.now ≡ cursor.old.later.now }
    ensures common { LeftKnowCommon cursor.new }
{
    if let Some((segment, later)) = next_stitched_ad(&cursor.ads) {
        cursor.ads = Some(later);
        return Some(stitched_ad_item(segment));
    }
    let kept = cursor.kept;
    let Some((here, later)) = kept.split_first() else {
        return None;
    };
    let item = stitched_kept_item(&cursor.numbers, here);
    cursor.numbers = stitched_numbers_on(&cursor.numbers, here, later);
    cursor.kept = later;
    Some(item)
}

// What the second of these segments of ads has in common with the first; nothing if there is no second one.
#[inline(always)]
fn second_ad_of_stretch_in_common(ads: &SegmentSlice<'_>) -> InCommon
    ensures { (more : List OutSegment) → SecondHasInCommon result (map stitched_ad_item ads.now ++ more) }
{
    if ads.len() < 2 {
        return InCommon::nothing();
    }
    ads.second_in_common()
}

// What the second of these kept segments has in common with the first; nothing if there is no second one.
#[inline(always)]
fn second_kept_of_stretch_in_common(kept: &[MarkedSegment]) -> InCommon
    requires { KnowCommon None kept.now }
    ensures { (numbers : Numbers) (more : List OutSegment)
        → SecondHasInCommon result (segment_items numbers kept.now ++ more) }
{
    let [_, second, ..] = kept else {
        return InCommon::nothing();
    };
    second.in_common
}

/// The items of a stitched list, one after the other.
#[derive(Drop)]
pub struct StitchedItems<'a> {
    cursor: Cursor<'a>,
}

impl<'a> Model for StitchedItems<'a> {
    ghost use Rattle.std.specs.Prelude.{◌≡◌, true, List};
    ghost use Rattle.std.specs.List.{list_all};
    ghost use Rattle.stitcher.specs.declared.OutSegment.{OutSegment};
    ghost use Rattle.stitcher.specs.StitchedSegments.{item_fits};
    ghost use Rattle.stitcher.specs.Stretches.{LeftKnowCommon, left_items};

    ghost Value = { List OutSegment };

    ghost view = { λ a. left_items a.cursor };

    ghost invariant = { λ a. (list_all item_fits (left_items a.cursor) ≡ true) × LeftKnowCommon a.cursor };
}

impl<'a> StitchedItems<'a> {
    /// The next item, if there is one.
    #[inline(always)]
    pub fn next(&mut self) -> Option<OutSegment<'a>>
        ensures { MatchOption result ((self.old ≡ []) × (self.new ≡ []))
            (λ item. self.old ≡ item ∷ self.new) }
    {
        open_stitched_stretch(&mut self.cursor);
        next_item_of_stretch(&mut self.cursor)
    }

    /// What the segment of the second item has in common with that of the first; nothing if there is no second one, or that
    /// isn't known.
    #[inline(always)]
    pub fn second_in_common(&self) -> InCommon
        ensures { SecondHasInCommon result self.now }
    {
        match &self.cursor.ads {
            Some(ads) if ads.len() > 0 => second_ad_of_stretch_in_common(ads),
            _ => second_kept_of_stretch_in_common(self.cursor.kept),
        }
    }

    // Passes over the first items, so many.
    fn pass(&mut self, count: usize)
        ensures { self.new ≡ drop count self.old }
    {
        for _ in 0..count {
            let _ = self.next();
        }
    }
}

// The items of stretches.
fn items_of_stretches<'a>(stretches: &'a [Stretch<'a>]) -> StitchedItems<'a>
    requires fit { list_all item_fits (stretches_items stretches.now) ≡ true }
    requires common { KeptKnowCommon stretches.now }
    ensures { result ≡ stretches_items stretches.now }
{
    StitchedItems {
        cursor: Cursor {
            ads: None,
            kept: &[],
            numbers: Numbers::zero(),
            later: stretches,
        },
    }
}

#[tactic(auto, using(crate::proofs::Cursors::length_stretch))]
// How many items there are with those of a stretch, if so many can be counted.
fn count_with_stretch(count: usize, stretch: &Stretch<'_>) -> Option<usize>
    ensures { IfSome result (λ sum. sum ≡ count + length (stretch_items stretch.now)) }
{
    let with_ads = count.checked_add(stretch.ads.len())?;
    with_ads.checked_add(stretch.kept.len())
}

// How many items stretches have, if so many can be counted.
fn count_of_stretch_items(stretches: &[Stretch<'_>]) -> Option<usize>
    ensures { IfSome result (λ count. count ≡ length (stretches_items stretches.now)) }
{
    let mut count: usize = 0;
    for stretch in stretches {
        count = count_with_stretch(count, stretch)?;
    }
    Some(count)
}

// Whether a stretch ends within so many items.
fn stretch_ends_within(stretch: &Stretch<'_>, count: usize) -> bool
    ensures { result ≡ nat_le (length stretch.now.ads + length stretch.now.kept.now) count }
{
    match stretch.ads.len().checked_add(stretch.kept.len()) {
        Some(items) => items <= count,
        None => false,
    }
}

// How many stretches in front end within so many items.
fn stretches_within(stretches: &[Stretch<'_>], count: usize) -> usize
    ensures value { result ≡ stretches_within count stretches.now }
    ensures within { result ≤ length stretches.now }
{
    let mut place = 0;
    let mut left = count;
    for stretch in stretches {
        if !stretch_ends_within(stretch, left) {
            return place;
        }
        left = left - stretch.ads.len() - stretch.kept.len();
        place += 1;
    }
    place
}

// How many items are still to be passed over after those.
fn items_left_from_stretches(stretches: &[Stretch<'_>], count: usize) -> usize
    ensures { result ≡ items_left_from_stretches count stretches.now }
{
    let mut left = count;
    for stretch in stretches {
        if !stretch_ends_within(stretch, left) {
            return left;
        }
        left = left - stretch.ads.len() - stretch.kept.len();
    }
    left
}

// The items of stretches from a place on.
fn items_at_stretch_place<'a>(stretches: &'a [Stretch<'a>], count: usize) -> StitchedItems<'a>
    requires fit { list_all item_fits (stretches_items stretches.now) ≡ true }
    requires common { KeptKnowCommon stretches.now }
    ensures { result ≡ drop count (stretches_items stretches.now) }
{
    let mut items = items_of_stretches(&stretches[stretches_within(stretches, count)..]);
    items.pass(items_left_from_stretches(stretches, count));
    items
}

/// A stitched list: segments of the origin, which stay where they are, and those of ads.
#[derive(Drop)]
pub struct StitchedList<'a> {
    stretches: Vec<Stretch<'a>>,
    // How many items the stretches have.
    count: usize,
    // How many of those stand before the list.
    passed: usize,
}

impl<'a> Model for StitchedList<'a> {
    ghost use Rattle.std.specs.Prelude.{List, drop};
    ghost use Rattle.stitcher.specs.declared.OutSegment.{OutSegment};
    ghost use Rattle.stitcher.specs.Stretches.{IsHeld, stretches_items};

    ghost Value = { List OutSegment };

    ghost view = { λ a. drop a.passed (stretches_items a.stretches.items) };

    ghost invariant = { λ a. IsHeld a.stretches.items a.count a.passed };
}

impl<'a> StitchedList<'a> {
    /// The list of the items of `stretches`, in their order. Fails only if they are more than memory can hold.
    pub(crate) fn from_stretches(
        stretches: Vec<Stretch<'a>>,
    ) -> Result<StitchedList<'a>, AllocError>
        requires fit { list_all item_fits (stretches_items stretches.items) ≡ true }
        requires common { KeptKnowCommon stretches.items }
        ensures items { IfOk result (λ list. list ≡ stretches_items stretches.entry.items) }
        ensures room { IfOk result (λ list. length list < 2 ^ 64) }
    {
        let Some(count) = count_of_stretch_items(stretches.as_slice()) else {
            return Err(AllocError);
        };
        Ok(StitchedList {
            stretches,
            count,
            passed: 0,
        })
    }

    /// Its items, one after the other.
    pub fn items(&self) -> StitchedItems<'_>
        ensures { result ≡ self.now }
    {
        let mut items = items_of_stretches(self.stretches.as_slice());
        items.pass(self.passed);
        items
    }

    /// The items from the `place` on, from 0, one after the other; none past the end. The stretches before it are
    /// passed over at once.
    pub fn items_from(&self, place: usize) -> StitchedItems<'_>
        ensures { result ≡ drop place self.now }
    {
        items_at_stretch_place(
            self.stretches.as_slice(),
            self.passed + place.min(self.count - self.passed),
        )
    }

    /// How many items it has.
    pub fn count(&self) -> usize
        ensures { result ≡ length self.now }
    {
        self.count - self.passed
    }

    /// Leaves out the items before the `place`, from 0; all of them if it is past the end.
    pub fn leave_out(&mut self, place: usize)
        ensures { self.new ≡ drop place self.old }
    {
        let left = self.count - self.passed;
        self.passed += place.min(left);
    }
}
