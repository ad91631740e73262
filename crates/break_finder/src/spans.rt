//! Time cut into spans, in each of which the same break is entered.
ghost use Rattle.std.specs.Prelude.{◌≡◌, ◌<◌, ◌≤◌, ◌+◌, ◌*◌, ◌^◌, length, ◌++◌, ◌∷◌, [], ◌≤ℤ◌, ◌+ℤ◌, ◌-ℤ◌, pos, int_lt, ◌&&◌, ℕ, ℤ, true, List, Some, None, option_map, is_none, IfOk, IfSome};
ghost use Rattle.std.specs.List.{All, slice_get};
ghost use Rattle.std.specs.Option.{option_copied, option_or};
ghost use Rattle.break_finder.specs.Breaks.{is_near_break_start, is_not_past_break_end};
ghost use Rattle.break_finder.specs.Ends.{end_view};
ghost use Rattle.break_finder.specs.Entrances.{Entrance, break_entered_but_last, is_in, is_within, TellsEntrances};
ghost use Rattle.break_finder.specs.Known.{is_this_break};
ghost use Rattle.break_finder.specs.Places.{AreApart, HasPlaces, IsPlaced, IsPlacedAt, entered_id};
ghost use Rattle.break_finder.specs.Inner.Entrances.{StandAt, is_enterable, second_break_entered};

use crate::end::End;
use crate::entrance::{Entrance, is_last_entered_break};
use fixed_duration::Nanos;
use playlist_model::{Instant, Shared, Text};
use std::alloc::{AllocError, Global};
use std::marker::Model;

// How often a list is halved at most until each part has one.
const HALVINGS: usize = 64;

/// A break that a segment enters.
#[derive(Clone, Copy)]
pub struct EnteredBreak<'a> {
    /// Its ID.
    pub id: &'a Shared<Text>,
    /// Its place in the list of the breaks that can be entered, from 0, if that is known.
    pub place: Option<usize>,
}

/// The break that was entered last.
#[derive(Clone, Copy)]
pub struct LastEntered<'a> {
    /// Its ID, if one was entered.
    pub id: Option<&'a str>,
    /// Its place in the list of the breaks that can be entered, from 0, if that is known. Then its ID is compared with no other.
    pub place: Option<usize>,
}

/// Time from an instant up to another, which is no part of it, in nanoseconds from 1970. Of the breaks that can be
/// entered in it the first, and the first that is another.
#[derive(Drop)]
pub struct BreakSpan<'a> {
    from: i128,
    to: i128,
    first: Option<EnteredBreak<'a>>,
    second: Option<EnteredBreak<'a>>,
}

impl<'a> Model for BreakSpan<'a> {
    ghost use Rattle.std.specs.Prelude.{option_map};
    ghost use Rattle.break_finder.specs.Entrances.{BreakSpan};
    ghost use Rattle.break_finder.specs.Places.{entered_id, entered_place};

    ghost Value = { BreakSpan };

    ghost view = { λ a. record { from = a.from; to = a.to; first = option_map entered_id a.first; second = option_map entered_id a.second; first_place = entered_place a.first; second_place = entered_place a.second } };
}

/// The instants from one up to another, which is no part of them, in nanoseconds from 1970.
#[derive(Clone, Copy)]
pub struct TimesWithin {
    /// The first of them.
    pub from: i128,
    /// The one after the last.
    pub to: i128,
}

impl TimesWithin {
    /// Whether `instant` is one of them.
    pub fn holds(&self, instant: Instant) -> bool
        ensures { result ≡ is_within self.now.from self.now.to instant }
    {
        self.from <= i128::from(instant.0) && i128::from(instant.0) < self.to
    }
}

// Whether a break is the last one entered: by their places, if both are known.
fn is_entered_last(entered: EnteredBreak<'_>, last: LastEntered<'_>) -> bool
    ensures { (found : List Entrance) → AreApart found → IsPlacedAt found entered.entry.place (Some entered.entry.id.now)
        → IsPlacedAt found last.entry.place (option_copied last.entry.id)
        → result ≡ is_this_break entered.entry.id.now (option_copied last.entry.id) }
{
    match (entered.place, last.place) {
        (Some(place), Some(last_place)) => place == last_place,
        _ => is_last_entered_break(last.id, entered.id.as_str()),
    }
}

// The first, or if it is the last one entered the second.
fn break_entered_but_last<'a>(
    first: Option<EnteredBreak<'a>>,
    second: Option<EnteredBreak<'a>>,
    last: LastEntered<'_>,
) -> Option<EnteredBreak<'a>>
    ensures entered { (found : List Entrance) → AreApart found → IsPlaced found first.entry
        → IsPlacedAt found last.entry.place (option_copied last.entry.id)
        → option_map entered_id result
        ≡ break_entered_but_last (option_map entered_id first.entry) (option_map entered_id second.entry) (option_copied last.entry.id) }
    ensures one { (found : List Entrance) → IsPlaced found first.entry → IsPlaced found second.entry → IsPlaced found result }
{
    let Some(entered) = first else {
        return None;
    };
    if is_entered_last(entered, last) {
        return second;
    }
    first
}

// Of two pairs of breaks, each the first and the first other, the first other of all.
fn second_break_entered<'a>(
    our_first: Option<EnteredBreak<'a>>,
    our_second: Option<EnteredBreak<'a>>,
    their_first: Option<EnteredBreak<'a>>,
    their_second: Option<EnteredBreak<'a>>,
) -> Option<EnteredBreak<'a>>
    ensures second { (found : List Entrance) → AreApart found → IsPlaced found our_first.entry → IsPlaced found their_first.entry
        → option_map entered_id result
        ≡ second_break_entered (option_map entered_id our_first.entry) (option_map entered_id our_second.entry) (option_map entered_id their_first.entry) (option_map entered_id their_second.entry) }
    ensures one { (found : List Entrance) → IsPlaced found our_second.entry → IsPlaced found their_first.entry
        → IsPlaced found their_second.entry → IsPlaced found result }
{
    let Some(first) = our_first else {
        return their_second;
    };
    if our_second.is_some() {
        return our_second;
    }
    let last = LastEntered {
        id: Some(first.id.as_str()),
        place: first.place,
    };
    break_entered_but_last(their_first, their_second, last)
}

impl<'a> BreakSpan<'a> {
    // Whether an instant, in nanoseconds from 1970, is in it.
    fn holds(&self, instant: i128) -> bool
        ensures { result ≡ is_in self.now instant }
    {
        self.from <= instant && instant < self.to
    }

    /// Whether no break is entered in it.
    pub fn is_closed(&self) -> bool
        ensures { result ≡ is_none self.now.first }
    {
        self.first.is_none()
    }

    /// Its instants.
    pub fn times(&self) -> TimesWithin
        ensures { result ≡ record { from = self.now.from; to = self.now.to } }
    {
        TimesWithin {
            from: self.from,
            to: self.to,
        }
    }

    /// The break that a segment in this span enters, if the break `last` was entered last.
    pub fn break_entered(&self, last: LastEntered<'_>) -> Option<EnteredBreak<'a>>
        ensures entered { (found : List Entrance) → AreApart found → HasPlaces found self.now
            → IsPlacedAt found last.entry.place (option_copied last.entry.id)
            → option_map entered_id result
            ≡ break_entered_but_last self.now.first self.now.second (option_copied last.entry.id) }
        ensures placed { (found : List Entrance) → HasPlaces found self.now → IsPlaced found result }
    {
        break_entered_but_last(self.first, self.second, last)
    }
}

// What two spans have in common, if the breaks of the one come before those of the other.
fn overlap_of_break_spans<'a>(ours: &BreakSpan<'a>, theirs: &BreakSpan<'a>) -> BreakSpan<'a>
    ensures from_ours { ours.now.from ≤ℤ result.from }
    ensures from_theirs { theirs.now.from ≤ℤ result.from }
    ensures to_ours { result.to ≤ℤ ours.now.to }
    ensures to_theirs { result.to ≤ℤ theirs.now.to }
    ensures first { result.first ≡ option_or ours.now.first theirs.now.first }
    ensures second { (found : List Entrance) → AreApart found → HasPlaces found ours.now → HasPlaces found theirs.now → result.second
        ≡ second_break_entered ours.now.first ours.now.second theirs.now.first theirs.now.second }
    ensures places { (found : List Entrance) → HasPlaces found ours.now → HasPlaces found theirs.now → HasPlaces found result }
{
    BreakSpan {
        from: ours.from.max(theirs.from),
        to: ours.to.min(theirs.to),
        first: ours.first.or(theirs.first),
        second: second_break_entered(ours.first, ours.second, theirs.first, theirs.second),
    }
}

// These spans, but the first one if it ends here or before.
fn break_spans_from_here<'s, 'a>(spans: &'s [BreakSpan<'a>], end: i128) -> &'s [BreakSpan<'a>]
    ensures tells { (tolerance : ℕ) (found : List Entrance)
        → All (TellsEntrances tolerance found) spans.now
        → All (TellsEntrances tolerance found) result.now }
    ensures places { (found : List Entrance) → All (HasPlaces found) spans.now → All (HasPlaces found) result.now }
{
    match spans.split_first() {
        Some((span, later)) => {
            if span.to <= end {
                return later;
            }
            spans
        }
        None => spans,
    }
}

// The spans of breaks and of others that come after these, of those of each.
fn join_break_spans<'a>(
    alloc: Global,
    ours: &[BreakSpan<'a>],
    theirs: &[BreakSpan<'a>],
) -> Result<Vec<BreakSpan<'a>>, AllocError>
    ensures tells { IfOk result
        (λ v. (tolerance : ℕ) (found before after : List Entrance)
        → AreApart found
        → All (HasPlaces found) ours.now → All (HasPlaces found) theirs.now
        → All (TellsEntrances tolerance before) ours.now
        → All (TellsEntrances tolerance after) theirs.now
        → All (TellsEntrances tolerance (before ++ after)) v.items) }
    ensures places { IfOk result
        (λ v. (found : List Entrance)
        → All (HasPlaces found) ours.now → All (HasPlaces found) theirs.now → All (HasPlaces found) v.items) }

    // There are no more of them than of both.
    ensures few { IfOk result (λ v. length v.items ≤ length ours.now + length theirs.now) }
{
    let most = ours.len().saturating_add(theirs.len());
    let mut done = Vec::with_capacity(alloc, most)?;
    let mut ours = ours;
    let mut theirs = theirs;
    while done.len() < most {
        let Some((our, _)) = ours.split_first() else {
            return Ok(done);
        };
        let Some((their, _)) = theirs.split_first() else {
            return Ok(done);
        };
        let span = overlap_of_break_spans(our, their);
        let end = span.to;
        done.push(span)?;
        ours = break_spans_from_here(ours, end);
        theirs = break_spans_from_here(theirs, end);
    }
    Ok(done)
}

// The first instant at which a break can be entered that starts here.
fn first_break_entrance_instant(start: Instant, tolerance: Nanos) -> i128
    ensures { result ≡ start -ℤ pos tolerance }
{
    i128::from(start.0) - i128::from(tolerance.0)
}

// The first instant that is too late to enter a break which starts here, whatever its end.
fn late_break_entrance(start: Instant, tolerance: Nanos) -> i128
    ensures { result ≡ start +ℤ pos tolerance +ℤ pos 1 }
{
    i128::from(start.0) + i128::from(tolerance.0) + 1
}

// The same of one that ends here.
fn late_break_entrance_before(start: Instant, tolerance: Nanos, end: i128) -> i128
    ensures { (instant : ℤ)
        → (is_near_break_start instant tolerance (Some start) && int_lt (instant +ℤ pos tolerance) end)
        ≡ is_within (start -ℤ pos tolerance) result instant }
{
    if end <= i128::from(start.0) {
        return first_break_entrance_instant(start, tolerance);
    }
    late_break_entrance(start, tolerance).min(end - i128::from(tolerance.0))
}

// The same of one with this end, if any.
fn late_break_entrance_with_end(start: Instant, tolerance: Nanos, end: Option<End>) -> i128
    ensures { (instant : ℤ)
        → (is_near_break_start instant tolerance (Some start)
        && is_not_past_break_end instant tolerance (option_map end_view end))
        ≡ is_within (start -ℤ pos tolerance) result instant }
{
    match end {
        Some(End::At(end)) => late_break_entrance_before(start, tolerance, end),
        Some(End::Closed) => late_break_entrance(start, tolerance),
        None => late_break_entrance(start, tolerance),
    }
}

// A span in which none is entered.
fn closed_break_span<'a>(from: i128, to: i128) -> BreakSpan<'a>
    ensures { result
        ≡ record { from = from; to = to; first = None; second = None; first_place = None; second_place = None } }
{
    BreakSpan {
        from,
        to,
        first: None,
        second: None,
    }
}

// The span in which the break at a place can be entered.
fn open_break_span<'a>(tolerance: Nanos, entrance: &Entrance<'a>, place: usize) -> BreakSpan<'a>
    ensures from { result.from ≡ entrance.now.start -ℤ pos tolerance }
    ensures window { (instant : ℤ)
        → is_enterable tolerance instant entrance.now ≡ is_in result instant }
    ensures first { result.first ≡ Some entrance.now.id }
    ensures second { result.second ≡ None }
    ensures places { (result.first_place ≡ Some place) × (result.second_place ≡ None) }
{
    BreakSpan {
        from: first_break_entrance_instant(entrance.start, tolerance),
        to: late_break_entrance_with_end(entrance.start, tolerance, entrance.end),
        first: Some(EnteredBreak {
            id: entrance.id,
            place: Some(place),
        }),
        second: None,
    }
}

// The spans of the break at a place: before it can be entered, while it can, and after that.
fn spans_of_one_break<'a>(
    alloc: Global,
    tolerance: Nanos,
    entrance: &Entrance<'a>,
    place: usize,
) -> Result<Vec<BreakSpan<'a>>, AllocError>
    ensures tells { IfOk result (λ v. All (TellsEntrances tolerance (entrance.now ∷ [])) v.items) }
    ensures places { IfOk result
        (λ v. (found : List Entrance) → slice_get found place ≡ Some entrance.now → All (HasPlaces found) v.items) }
    ensures three { IfOk result (λ v. length v.items ≡ 3) }
{
    let within = open_break_span(tolerance, entrance, place);
    let before = closed_break_span(i128::MIN, within.from);
    let after = closed_break_span(within.to, i128::MAX);
    let mut spans = Vec::with_capacity(alloc, 3)?;
    spans.push(before)?;
    spans.push(within)?;
    spans.push(after)?;
    Ok(spans)
}

// The spans of the breaks of a list, which is halved until each part has one: so often at most. The first of them is at this place
// of the whole list.
fn break_spans_halved<'a>(
    alloc: Global,
    tolerance: Nanos,
    list: &[Entrance<'a>],
    place: usize,
    halvings: usize,
) -> Result<Vec<BreakSpan<'a>>, AllocError>
    requires few { length list.now ≤ 2 ^ halvings }
    requires room { place + length list.now < 2 ^ 64 }
    ensures tells { IfOk result
        (λ v. (found : List Entrance) → AreApart found → StandAt found place list.now
        → All (TellsEntrances tolerance list.now) v.items) }
    ensures places { IfOk result
        (λ v. (found : List Entrance) → StandAt found place list.now → All (HasPlaces found) v.items) }
    ensures few { IfOk result (λ v. length v.items ≤ 3 * length list.now) }
{
    let Some(first) = list.first() else {
        return Ok(Vec::new(alloc));
    };
    if list.len() == 1 {
        return spans_of_one_break(alloc, tolerance, first, place);
    }
    let left = halvings - 1;
    let (before, after) = list.split_at(list.len() / 2);
    let ours = break_spans_halved(alloc, tolerance, before, place, left)?;
    let theirs = break_spans_halved(alloc, tolerance, after, place + before.len(), left)?;
    join_break_spans(alloc, ours.as_slice(), theirs.as_slice())
}

// The spans of breaks each of which can be entered only when none before it can be any more, as mostly all of them are. `None` if
// one can be entered earlier.
fn break_spans_in_order<'a>(
    alloc: Global,
    tolerance: Nanos,
    list: &[Entrance<'a>],
) -> Result<Option<Vec<BreakSpan<'a>>>, AllocError>
    ensures tells { IfOk result (λ some. IfSome some (λ v. All (TellsEntrances tolerance list.now) v.items)) }
    ensures places { IfOk result (λ some. IfSome some (λ v. All (HasPlaces list.now) v.items)) }
    ensures few { IfOk result (λ some. IfSome some (λ v. length v.items ≡ 2 * length list.now + 1)) }
{
    let most = list.len().saturating_mul(2).saturating_add(1);
    let mut spans = Vec::with_capacity(alloc, most)?;
    let mut over = i128::MIN;
    let mut place = 0;
    for entrance in list {
        let within = open_break_span(tolerance, entrance, place);
        let (from, to) = (within.from, within.to);
        if from < over {
            return Ok(None);
        }
        if to < from {
            return Ok(None);
        }
        spans.push(closed_break_span(over, from))?;
        spans.push(within)?;
        over = to;
        place += 1;
    }
    spans.push(closed_break_span(over, i128::MAX))?;
    Ok(Some(spans))
}

/// The spans of time in which the breaks of `list` are entered, by `tolerance`: at most three for each break. Fails
/// only if an allocation fails.
pub fn break_spans_of<'a>(
    alloc: Global,
    tolerance: Nanos,
    list: &[Entrance<'a>],
) -> Result<Vec<BreakSpan<'a>>, AllocError>
    requires { AreApart list.now }
    ensures tells { IfOk result (λ v. All (TellsEntrances tolerance list.now) v.items) }
    ensures places { IfOk result (λ v. All (HasPlaces list.now) v.items) }
    ensures few { IfOk result (λ v. length v.items ≤ 3 * length list.now) }
{
    if list.is_empty() {
        return Ok(Vec::new(alloc));
    }
    match break_spans_in_order(alloc, tolerance, list)? {
        Some(spans) => Ok(spans),
        None => break_spans_halved(alloc, tolerance, list, 0, HALVINGS),
    }
}

/// The place, from 0, of that one of `spans` in which `instant` is, which often is `place`.
pub fn place_in_break_spans(spans: &[BreakSpan<'_>], place: usize, instant: Instant) -> usize {
    let instant = i128::from(instant.0);
    match spans.get(place) {
        Some(span) if span.holds(instant) => place,
        _ => spans.partition_point(|span: &BreakSpan<'_>| -> bool { span.to <= instant }),
    }
}

/// That one of `spans` at `place`, from 0, if `instant` is in it.
pub fn break_span_at<'s, 'a>(
    spans: &'s [BreakSpan<'a>],
    place: usize,
    instant: Instant,
) -> Option<&'s BreakSpan<'a>>
    ensures inside { IfSome result (λ span. is_in span.now instant ≡ true) }
    ensures tells { (tolerance : ℕ) (found : List Entrance)
        → All (TellsEntrances tolerance found) spans.now
        → IfSome result (λ span. TellsEntrances tolerance found span.now) }
    ensures places { (found : List Entrance) → All (HasPlaces found) spans.now
        → IfSome result (λ span. HasPlaces found span.now) }
{
    match spans.get(place) {
        Some(span) if span.holds(i128::from(instant.0)) => Some(span),
        _ => None,
    }
}
