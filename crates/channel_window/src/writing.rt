//! The window, as it is written.
ghost use Rattle.std.specs.Prelude.{◌≡◌, ◌<◌, ◌≤◌, ◌+◌, ◌-◌, ◌^◌, ℕ, IfOk, IfErr, IfSome, None, drop, length, map, min, nat_lt, is_some, reverse, false, true};
ghost use Rattle.std.specs.List.{list_all, list_any};
ghost use Rattle.stitcher.specs.Stitched.{can_be_numbered};
ghost use Rattle.pod_store.specs.Store.{Store, pod_for};
ghost use Rattle.playlist_model.specs.declared.DateRange.{DateRange};
ghost use Rattle.stitcher.specs.StitchedSegments.{AreDecided, IsDecided, KnowPrevious, ends_in, item_fits, rest_in, stitched_segments};
ghost use Rattle.stitcher.specs.Written.{written_item};
ghost use Rattle.channel_spec.specs.Kept.{items_on, listed, numbers_on, rest_after, next_rest, start_on, window_on};
ghost use Rattle.channel_spec.specs.Inner.Kept.{ends_of};
ghost use Rattle.channel_spec.specs.LastWindow.{last_pieces};
ghost use Rattle.channel_spec.specs.Live.{date_range_text, date_ranges_left, item_place, rest_over};
ghost use Rattle.channel_spec.specs.Successor.{first_number};
ghost use Rattle.playlist_kept.specs.Kept.{playlist_in};
ghost use Rattle.channel_window.specs.Marking.{place_on, history_in};
ghost use Rattle.channel_window.specs.Listed.{AreRising, IsRestDecided, RefusesList, head_of, writes_time};
ghost use Rattle.channel_window.specs.Inner.Listed.{first_alone, first_numbers_of, pod_keeps, date_range_texts_left_in_window};
ghost use Rattle.channel_window.specs.Inner.Placing.{window_rest_count};
ghost use Rattle.channel_window.specs.Inner.Placing.{HasRoom, IsWithin, rest_of_newest_run};
ghost use Rattle.channel_window.specs.Showing.{kept_before, kept_in};

use crate::listing::{window_front_before, window_front_to};
use crate::placing::{newest_run_place, window_rest_count};
use crate::state::Before;
use crate::successor::{first_shown_number, first_successor_number};
use channel_spec::{Heading, RefreshFault};
use fixed_duration::Nanos;
use playlist_kept::Read;
use playlist_model::{DateRange, SegmentRef, Shared, Text};
use pod_store::{IdSet, PodStore};
use std::alloc::{AllocError, Global};
use std::hash::RandomState;
use stitcher::{Ends, MarkedSegment, Numbers, Rest, StitchFault, StitchedList, TextRef, stitch};

// The stitched list of these segments between these ends, whose first item has these numbers.
fn stitch_window_segments<'a>(
    alloc: Global,
    list: &'a [MarkedSegment],
    store: &PodStore,
    first: Numbers,
    ends: &Ends,
) -> Result<StitchedList<'a>, RefreshFault>
    requires decided { AreDecided store.now list.now }
    requires previous { KnowPrevious list.now }
    ensures ok { IfOk result
        (λ v. (v ≡ stitched_segments store.now first ends.now list.now)
        × (list_all item_fits v ≡ true)) }
    ensures room { IfOk result (λ v. length v < 2 ^ 64) }
    ensures err { IfErr result
        (λ e. RefusesList e (list_all item_fits
        (stitched_segments store.now first ends.now list.now) ≡ false)) }
{
    match stitch(alloc, list, store, first, ends) {
        Ok(items) => Ok(items),
        Err(StitchFault::NumberRange) => Err(RefreshFault::NumberRange),
        Err(StitchFault::OutOfMemory) => Err(RefreshFault::OutOfMemory),
    }
}

// Another owner of `rest`. Fails only if an allocation fails.
fn copied_window_rest(rest: &Option<Rest>) -> Result<Option<Rest>, AllocError>
    ensures { IfOk result (λ r. r ≡ rest.now) }
{
    let Some(rest) = rest else {
        return Ok(None);
    };
    Ok(Some(Rest {
        id: rest.id.clone()?,
        place: rest.place,
    }))
}

// What stands at the ends of the list of the segments that are shown.
fn window_ends_of(rest: &Option<Rest>, ended: bool, so_far: Nanos) -> Result<Ends, AllocError>
    ensures { IfOk result
        (λ ends. (store : Store) → ends_in store ends
        ≡ ends_of ended so_far (rest_in store rest.now)) }
{
    let rest = copied_window_rest(rest)?;
    let open = if ended { None } else { Some(so_far) };
    Ok(Ends { rest, so_far: open })
}

// The place, from 0, of the item of the segment `number` of `list`, the rest before the first one apart.
fn window_item_place(
    alloc: Global,
    store: &PodStore,
    rest: &Option<Rest>,
    number: u64,
    list: &[MarkedSegment],
) -> Result<usize, AllocError>
    requires room { HasRoom store.now rest.now list.now }
    requires decided { AreDecided store.now list.now }
    requires previous { KnowPrevious list.now }
    requires rising { AreRising list.now }
    ensures value { IfOk result (λ place. place ≡ item_place number (history_in store.now list.now)) }
    ensures room { IfOk result (λ place. place + window_rest_count store.now rest.now < 2 ^ 64) }
    ensures within { IfOk result
        (λ place. (most : ℕ) → IsWithin store.now rest.now list.now most
        → place + window_rest_count store.now rest.now ≤ most) }
{
    newest_run_place(alloc, store, window_front_to(number, list))
}

// What a window that starts at `start` has of the pod of the newest run of `gone`, the segments before it, after `rest_items`
// items of a rest.
fn window_rest_of(
    alloc: Global,
    store: &PodStore,
    gone: &[MarkedSegment],
    rest_items: usize,
    start: usize,
) -> Result<Option<Rest>, AllocError>
    requires room { place_on store.now None 0 0 gone.now + rest_items < 2 ^ 64 }
    requires decided { AreDecided store.now gone.now }
    requires previous { KnowPrevious gone.now }
    ensures decided { IfOk result (λ rest. IsRestDecided store.now rest) }
    ensures value { IfOk result
        (λ rest. rest_in store.now rest
        ≡ rest_of_newest_run rest_items start (history_in store.now gone.now)) }
{
    let Some((newest, _)) = gone.split_last() else {
        return Ok(None);
    };
    let Some(id) = &*newest.mark else {
        return Ok(None);
    };
    let run = newest_run_place(alloc, store, gone)?;
    Ok(Some(Rest {
        id: id.clone()?,
        place: start.saturating_sub(run + rest_items),
    }))
}

// Where a window starts in a stitched list.
#[derive(Drop)]
struct Start {
    // The place of its first item, from 0.
    place: usize,
    // The rest of a pod that it starts with.
    rest: Option<Rest>,
}

// The start of a window whose first segment has the number `number`, if the last window, of `stood` items, began with
// another one: at the item of that segment, but no later than one past the last window.
fn later_window_start(
    alloc: Global,
    store: &PodStore,
    rest: &Option<Rest>,
    number: u64,
    list: &[MarkedSegment],
    stood: usize,
) -> Result<Start, AllocError>
    requires room { HasRoom store.now rest.now list.now }
    requires decided { AreDecided store.now list.now }
    requires previous { KnowPrevious list.now }
    requires rising { AreRising list.now }
    ensures place { IfOk result
        (λ s. s.place ≡ min (item_place number
        (history_in store.now list.now) + window_rest_count store.now rest.now) stood) }
    ensures within { IfOk result
        (λ s. (most : ℕ) → IsWithin store.now rest.now list.now most
        → s.place ≤ most) }
    ensures decided { IfOk result (λ s. IsRestDecided store.now s.rest) }
    ensures rest { IfOk result
        (λ s. rest_in store.now s.rest
        ≡ rest_over (window_rest_count store.now rest.now) s.place number
        (history_in store.now list.now)) }
{
    let rest_items = window_rest_count(store, rest);
    let item = window_item_place(alloc, store, rest, number, list)? + rest_items;
    let place = item.min(stood);
    if item <= place {
        return Ok(Start { place, rest: None });
    }
    let gone = window_front_before(number, list);
    let rest = window_rest_of(alloc, store, gone, rest_items, place)?;
    Ok(Start { place, rest })
}

// The start of the window of the playlist that was `read` in the stitched list of `list`, after the rest that a channel kept in
// `before` (RFC 8216, section 6.2.2). The last window had `stood` items. Fails only if an allocation fails.
fn window_start_of(
    alloc: Global,
    before: &Before<'_>,
    read: &Read<'_>,
    list: &[MarkedSegment],
    stood: usize,
) -> Result<Start, AllocError>
    requires room { HasRoom (kept_before before.now).store (kept_before before.now).shown.rest list.now }
    requires decided { AreDecided (kept_before before.now).store list.now }
    requires previous { KnowPrevious list.now }
    requires rising { AreRising list.now }
    requires rest { IsRestDecided (kept_before before.now).store (kept_before before.now).shown.rest }
    requires stood { stood ≡ length (last_pieces (kept_before before.now).last (kept_in (kept_before before.now))) }
    ensures place { IfOk result
        (λ s. s.place ≡ start_on (kept_before before.now).last (first_number (playlist_in read.now).segments)
        (kept_in (kept_before before.now)) (history_in (kept_before before.now).store list.now)) }
    ensures within { IfOk result
        (λ s. (most : ℕ) → IsWithin (kept_before before.now).store (kept_before before.now).shown.rest list.now most
        → s.place ≤ most) }
    ensures decided { IfOk result (λ s. IsRestDecided (kept_before before.now).store s.rest) }
    ensures rest { IfOk result
        (λ s. rest_in (kept_before before.now).store s.rest
        ≡ next_rest (kept_before before.now).last
        (first_number (listed (kept_in (kept_before before.now)).shown))
        (first_number (playlist_in read.now).segments) s.place
        (history_in (kept_before before.now).store list.now)
        (rest_in (kept_before before.now).store (kept_before before.now).shown.rest)) }
{
    let (store, shown) = (&before.state.store, &before.state.shown);
    let number = first_successor_number(read);
    let Some(_) = &before.state.last else {
        let place = window_item_place(alloc, store, &shown.rest, number, list)?;
        return Ok(Start { place, rest: None });
    };
    if number == first_shown_number(before.list) {
        let rest = copied_window_rest(&shown.rest)?;
        return Ok(Start { place: 0, rest });
    }
    Ok(later_window_start(alloc, store, &shown.rest, number, list, stood)?)
}

/// The stitched list from the first item of the last window on.
#[derive(Drop)]
pub struct PlacedList<'a> {
    /// Its items.
    pub whole: StitchedList<'a>,
    /// Where the window starts in it.
    pub start: usize,
    /// The rest of a pod that the window starts with.
    pub rest: Option<Rest>,
}

/// The stitched list of the segments `list`, which a channel that kept `before` shows with the playlist that was `read`, and the place in
/// it where the window starts (RFC 8216, section 6.2.2). The newest run of a break has lasted for `lasted`. The last
/// window had `stood` items.
/// `NumberRange` if a number would pass 2^64 - 1 (RFC 8216, sections 4.3.3.2 and 4.3.3.3); `OutOfMemory` only if an
/// allocation fails.
pub fn placed_of<'a>(
    alloc: Global,
    before: &Before<'_>,
    read: &Read<'_>,
    list: &'a [MarkedSegment],
    lasted: Nanos,
    stood: usize,
) -> Result<PlacedList<'a>, RefreshFault>
    requires decided { AreDecided (kept_before before.now).store list.now }
    requires previous { KnowPrevious list.now }
    requires rising { AreRising list.now }
    requires rest { IsRestDecided (kept_before before.now).store (kept_before before.now).shown.rest }
    requires stood { stood ≡ length (last_pieces (kept_before before.now).last (kept_in (kept_before before.now))) }
    ensures whole { IfOk result
        (λ w. w.whole ≡ map written_item
        (reverse (items_on (kept_in (kept_before before.now)) (playlist_in read.now)
        (history_in (kept_before before.now).store list.now) lasted))) }
    ensures window { IfOk result
        (λ w. drop w.start w.whole
        ≡ map written_item (window_on (kept_in (kept_before before.now)) (playlist_in read.now)
        (history_in (kept_before before.now).store list.now) lasted)) }
    ensures left { IfOk result (λ w. IsRestDecided (kept_before before.now).store w.rest) }
    ensures rest { IfOk result
        (λ w. rest_in (kept_before before.now).store w.rest
        ≡ rest_after (kept_in (kept_before before.now)) (playlist_in read.now)
        (history_in (kept_before before.now).store list.now)) }
    ensures fit { IfOk result
        (λ w. list_all can_be_numbered
        (items_on (kept_in (kept_before before.now)) (playlist_in read.now)
        (history_in (kept_before before.now).store list.now) lasted) ≡ true) }
    ensures err { IfErr result
        (λ e. RefusesList e (list_all can_be_numbered
        (items_on (kept_in (kept_before before.now)) (playlist_in read.now)
        (history_in (kept_before before.now).store list.now) lasted)
        ≡ false)) }
{
    let (store, shown) = (&before.state.store, &before.state.shown);
    let ends = window_ends_of(&shown.rest, read.playlist.end_list, lasted)?;
    let first = window_numbers_on(&before.state.last, shown.numbers, list, store, &ends)?;
    let whole = stitch_window_segments(alloc, list, store, first, &ends)?;
    let start = window_start_of(alloc, before, read, list, stood)?;
    Ok(PlacedList {
        whole,
        start: start.place,
        rest: start.rest,
    })
}

/// The numbers of the first of `items`; all are 0 if there is none.
pub fn window_head_numbers(items: &StitchedList<'_>) -> Numbers
    ensures { result ≡ head_of items.now }
{
    let mut items = items.items();
    match items.next() {
        Some(first) => Numbers {
            media_sequence: first.media_sequence,
            discontinuity_sequence: first.discontinuity_sequence,
            discontinuities: first.discontinuities,
        },
        None => Numbers::zero(),
    }
}

// Whether one of `items` states a time. Mostly the first one does, if one does.
fn is_any_window_item_timed(items: &StitchedList<'_>) -> bool
    ensures { result ≡ list_any writes_time items.now }
{
    let mut items = items.items();
    while let Some(item) = items.next() {
        if item.program_date_time.is_some() {
            return true;
        }
    }
    false
}

// The numbers of a first item that a pod stands at.
fn first_window_numbers_with_pod(segment: &SegmentRef<'_>) -> Result<Numbers, RefreshFault>
    ensures ok { IfOk result (λ numbers. numbers ≡ first_alone segment.now true) }
    ensures err { IfErr result
        (λ e. (e ≡ RefreshFault.NumberRange)
        × (nat_lt (segment.now.discontinuity_sequence + 1) (2 ^ 64) ≡ false)) }
{
    let Some(discontinuity) = segment.discontinuity_sequence().checked_add(1) else {
        return Err(RefreshFault::NumberRange);
    };
    Ok(Numbers {
        media_sequence: segment.media_sequence(),
        discontinuity_sequence: discontinuity,
        discontinuities: 1,
    })
}

// Whether an ad stands for a segment of this mark: its break has a pod then, and a pod has an ad.
fn window_begins_with_ad(store: &PodStore, mark: &Option<Shared<Text>>) -> bool
    requires { IsDecided store.now mark.now }
    ensures value { result ≡ is_some mark.now }
    ensures keeps { IfSome mark.now (λ id. pod_keeps (pod_for store.now id) ≡ true) }
{
    let Some(id) = mark else {
        return false;
    };
    match store.pod_for(id.as_str()) {
        Some(pod) => !pod.ads().is_empty(),
        None => false,
    }
}

// The numbers of the first item if these segments are the first ever shown.
fn first_window_numbers(
    list: &[MarkedSegment],
    store: &PodStore,
    ends: &Ends,
) -> Result<Numbers, RefreshFault>
    requires { AreDecided store.now list.now }
    ensures ok { IfOk result (λ numbers. numbers ≡ first_numbers_of list.now) }
    ensures err { IfErr result
        (λ e. RefusesList e (list_all item_fits
        (stitched_segments store.now (first_numbers_of list.now) ends.now list.now) ≡ false)) }
{
    let Some(first) = list.first() else {
        return Ok(Numbers::zero());
    };
    let segment = first.segment.get();
    if window_begins_with_ad(store, &first.mark) {
        return first_window_numbers_with_pod(&segment);
    }
    Ok(Numbers {
        media_sequence: segment.media_sequence(),
        discontinuity_sequence: segment.discontinuity_sequence(),
        discontinuities: segment.discontinuities(),
    })
}

#[tactic(auto, using(crate::proofs::Passing::first_here, crate::proofs::Passing::refuses_first))]
// The numbers of the first item of the stitched list of these segments: those that are kept, if a playlist was
// accepted before. `NumberRange` if one would pass 2^64 - 1.
fn window_numbers_on(
    last: &Option<Heading>,
    numbers: Numbers,
    list: &[MarkedSegment],
    store: &PodStore,
    ends: &Ends,
) -> Result<Numbers, RefreshFault>
    requires { AreDecided store.now list.now }
    ensures ok { IfOk result
        (λ n. n ≡ numbers_on last.now numbers (history_in store.now list.now)) }
    ensures err { IfErr result
        (λ e. RefusesList e (list_all item_fits
        (stitched_segments store.now
        (numbers_on last.now numbers (history_in store.now list.now)) ends.now list.now) ≡ false)) }
{
    match last {
        Some(_) => Ok(numbers),
        None => first_window_numbers(list, store, ends),
    }
}

// The texts of the date ranges of other breaks, where they stand.
fn date_range_texts_left_in_window<'a>(
    alloc: Global,
    set: &IdSet<'_>,
    date_ranges: &'a [Shared<DateRange>],
) -> Result<Vec<TextRef<'a>>, AllocError>
    ensures { IfOk result (λ v. v.items ≡ date_range_texts_left_in_window set.now date_ranges.now) }
{
    let mut texts = Vec::new(alloc);
    let mut rest = date_ranges;
    while let Some((date_range, later)) = rest.split_first() {
        if !set.contains(date_range.id.as_str()) {
            texts.push(TextRef::new(&date_range.attributes))?;
        }
        rest = later;
    }
    Ok(texts)
}

/// The texts of those `date_ranges` that are written (RFC 8216, section 4.3.2.7): all but those of the breaks `ids`,
/// and none if no item of `items` states a time. Fails only if an allocation fails. `hashing`: the keys for a table of the IDs.
pub fn date_ranges_left<'a>(
    alloc: Global,
    hashing: RandomState,
    items: &StitchedList<'_>,
    ids: &[Shared<Text>],
    date_ranges: &'a [Shared<DateRange>],
) -> Result<Vec<TextRef<'a>>, AllocError>
    ensures { IfOk result
        (λ v. v.items ≡ map date_range_text
        (date_ranges_left (list_any writes_time items.now) ids.now date_ranges.now)) }
{
    // Most playlists have no date range, and no item need be looked at then.
    if date_ranges.is_empty() {
        return Ok(Vec::new(alloc));
    }
    if !is_any_window_item_timed(items) {
        return Ok(Vec::new(alloc));
    }
    let set = IdSet::of(alloc, hashing, ids)?;
    date_range_texts_left_in_window(alloc, &set, date_ranges)
}
