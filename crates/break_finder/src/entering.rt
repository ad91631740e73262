//! The breaks that can be entered, and the one that a segment enters.
ghost use Rattle.std.specs.Prelude.{◌≡◌, ℕ, ℤ, Bool, true, List, Option, Some, None, map, option_map, bytes_eq, IfOk, IfSome};
ghost use Rattle.indexmap.specs.IndexMap.{IsUnique};
ghost use Rattle.std.specs.List.{All};
ghost use Rattle.std.specs.Option.{option_copied};
ghost use Rattle.pod_store.specs.Store.{Store};
ghost use Rattle.break_finder.specs.Breaks.{Break};
ghost use Rattle.break_finder.specs.Kept.{break_at};
ghost use Rattle.break_finder.specs.Entering.{EntryLimits, entered};
ghost use Rattle.break_finder.specs.Entrances.{entrances_in, is_within, first_entrance, TellsEntrances};
ghost use Rattle.break_finder.specs.Places.{AreApart, HasPlaces, IsPlaced, IsPlacedAt, entered_id};

use crate::entrance::{
    Candidates, Entrance, break_entrance_of, first_candidate_break, first_entered_break,
};
use crate::kept::Breaks;
use crate::spans::{
    BreakSpan, EnteredBreak, LastEntered, TimesWithin, break_span_at, break_spans_of,
    place_in_break_spans,
};
use fixed_duration::Nanos;
use playlist_model::{Instant, Shared, Text};
use pod_store::PodStore;
use std::alloc::{AllocError, Global};
use std::marker::Model;

// For no more segments than this no break is listed: each segment looks at the starts of all.
const FEW_TO_LIST: usize = 8;

// For fewer segments than this the breaks are looked through for each.
const FEW_SEGMENTS: usize = 64;

/// The breaks that can be entered as long as the store, the target and the initialisation sections of segments stay as they are: each is
/// signalled and decided, and its pod fits. For many segments time is cut into spans in which the same break is entered,
/// so that what one of them enters is found by a search among the spans, however many breaks start near it.
#[derive(Drop)]
pub struct Entrances<'a> {
    tolerance: Nanos,
    list: Vec<Entrance<'a>>,
    // In place of the list, if it isn't made.
    candidates: Option<Candidates<'a>>,
    spans: Vec<BreakSpan<'a>>,
    // That of the span found last.
    place: usize,
}

impl<'a> Model for Entrances<'a> {
    ghost use Rattle.std.specs.List.{All};
    ghost use Rattle.break_finder.specs.Entrances.{Entrances, TellsEntrances};
    ghost use Rattle.break_finder.specs.Candidates.{found_in};
    ghost use Rattle.break_finder.specs.Places.{AreApart, HasPlaces};

    ghost Value = { Entrances };

    ghost view = { λ a. record { tolerance = a.tolerance; found = found_in a.candidates a.list.items } };

    ghost invariant = { λ a. All (TellsEntrances a.tolerance (found_in a.candidates a.list.items)) a.spans.items × All (HasPlaces (found_in a.candidates a.list.items)) a.spans.items × AreApart (found_in a.candidates a.list.items) };
}

// The spans of these breaks, if it pays to make them for so many segments.
fn entrance_spans_for<'a>(
    alloc: Global,
    tolerance: Nanos,
    list: &[Entrance<'a>],
    segments: usize,
) -> Result<Vec<BreakSpan<'a>>, AllocError>
    requires { AreApart list.now }
    ensures tells { IfOk result (λ v. All (TellsEntrances tolerance list.now) v.items) }
    ensures places { IfOk result (λ v. All (HasPlaces list.now) v.items) }
{
    if segments < FEW_SEGMENTS {
        return Ok(Vec::new(alloc));
    }
    break_spans_of(alloc, tolerance, list)
}

// Those of known breaks that can be entered, in a list.
fn list_break_entrances<'a>(
    alloc: Global,
    target: u64,
    with_init_sections: bool,
    store: &PodStore,
    breaks: &'a Breaks,
) -> Result<Vec<Entrance<'a>>, AllocError>
    ensures list { IfOk result
        (λ v. v.items ≡ entrances_in target with_init_sections store.now (map break_at breaks.now.entries)) }
    ensures unique { IsUnique bytes_eq breaks.now }
{
    let mut list = Vec::new(alloc);
    for (id, said) in breaks {
        if let Some(entrance) = break_entrance_of(
            target,
            with_init_sections,
            store,
            id.as_shared(),
            said,
        ) {
            list.push(entrance)?;
        }
    }
    Ok(list)
}

// The place of a break in the list, if it is there.
fn place_in_break_list(list: &[Entrance<'_>], id: &str) -> Option<usize>
    ensures { IsPlacedAt list.now result (Some id.now) }
{
    let mut place = 0;
    for entrance in list {
        if entrance.id.as_str() == id {
            return Some(place);
        }
        place += 1;
    }
    None
}

// Nothing is listed: each segment looks among all.
fn entrances_without_break_list<'a>(
    alloc: Global,
    tolerance: Nanos,
    candidates: Candidates<'a>,
) -> Entrances<'a>
    requires { IsUnique bytes_eq candidates.breaks.now }
    ensures { result ≡ record { tolerance = tolerance; found = entrances_in candidates.entry.target candidates.entry.with_init_sections candidates.entry.store.now (map break_at candidates.entry.breaks.now.entries) } }
{
    Entrances {
        tolerance,
        list: Vec::new(alloc),
        candidates: Some(candidates),
        spans: Vec::new(alloc),
        place: 0,
    }
}

/// The entrances of those `breaks` that can be entered by `tolerance`: each is signalled, has a pod in `store`, and
/// the pod fits the target duration `target`, in seconds, and segments that are `with_init_sections` (have initialisation
/// sections) or aren't. They are made for about `segments` segments, which changes what they take and nothing else.
/// Fails only if an allocation fails.
pub fn break_entrances_of<'a>(
    alloc: Global,
    tolerance: Nanos,
    target: u64,
    with_init_sections: bool,
    store: &'a PodStore,
    breaks: &'a Breaks,
    segments: usize,
) -> Result<Entrances<'a>, AllocError>
    ensures { IfOk result
        (λ found. found
        ≡ record { tolerance = tolerance; found = entrances_in target with_init_sections store.now (map break_at breaks.now.entries) }) }
{
    if breaks.len() == 0 || segments <= FEW_TO_LIST {
        let candidates = Candidates {
            target,
            with_init_sections,
            store,
            breaks,
        };
        return Ok(entrances_without_break_list(alloc, tolerance, candidates));
    }
    let list = list_break_entrances(alloc, target, with_init_sections, store, breaks)?;
    let spans = entrance_spans_for(alloc, tolerance, list.as_slice(), segments)?;
    Ok(Entrances {
        tolerance,
        list,
        candidates: None,
        spans,
        place: 0,
    })
}

impl<'a> Entrances<'a> {
    // The same, without the spans.
    fn first_found(&self, instant: Instant, last: Option<&str>) -> Option<EnteredBreak<'a>>
        ensures taken { option_map entered_id result
            ≡ first_entrance self.now.tolerance (option_copied last.entry) instant self.now.found }
        ensures placed { IsPlaced self.now.found result }
    {
        let id = match &self.candidates {
            Some(candidates) => first_candidate_break(candidates, self.tolerance, last, instant),
            None => first_entered_break(self.list.as_slice(), self.tolerance, last, instant),
        };
        Some(EnteredBreak {
            id: id?,
            place: None,
        })
    }

    // The first of them that is entered.
    #[inline(always)]
    fn first(&mut self, instant: Instant, last: LastEntered<'_>) -> Option<EnteredBreak<'a>>
        requires { IsPlacedAt self.old.found last.place (option_copied last.id) }
        ensures taken { option_map entered_id result
            ≡ first_entrance self.old.tolerance (option_copied last.entry.id) instant self.old.found }
        ensures placed { IsPlaced self.old.found result }
        ensures kept { self.new ≡ self.old }
    {
        self.place = place_in_break_spans(self.spans.as_slice(), self.place, instant);
        match break_span_at(self.spans.as_slice(), self.place, instant) {
            Some(span) => span.break_entered(last),
            None => self.first_found(instant, last.id),
        }
    }

    #[tactic(auto, using(crate::proofs::Quiet::none_taken))]
    // Whether this is in the span found last, and no break is entered in that.
    #[inline(always)]
    fn is_in_closed_span(&self, instant: Instant) -> bool
        ensures { result ≡ true → (last : Option (List ℕ))
            → first_entrance self.now.tolerance last instant self.now.found ≡ None }
    {
        match break_span_at(self.spans.as_slice(), self.place, instant) {
            Some(span) => span.is_closed(),
            None => false,
        }
    }

    #[tactic(auto, using(crate::proofs::Quiet::none_entered))]
    /// Whether it is seen at once that a segment which begins at `instant` enters none of them, whichever was entered
    /// last: so it is of most segments between two breaks. Takes no memory.
    #[inline(always)]
    pub fn is_quiet(&self, instant: Option<Instant>) -> bool
        ensures { result ≡ true → (m : EntryLimits) → (store : Store) → (breaks : List Break)
            → m.tolerance ≡ self.now.tolerance
            → self.now.found ≡ entrances_in m.target_duration m.with_init_sections store breaks
            → entered m store breaks instant ≡ None }
    {
        match instant {
            Some(instant) => self.is_in_closed_span(instant),
            None => true,
        }
    }

    #[tactic(auto, using(crate::proofs::Quiet::none_within))]
    /// The instants around `instant` at which a segment enters no break, if `last` was entered last. None if that isn't seen
    /// at once. So the IDs are compared once for many segments. Takes no memory.
    pub fn quiet_around(
        &self,
        instant: Option<Instant>,
        last: LastEntered<'_>,
    ) -> Option<TimesWithin>
        requires { IsPlacedAt self.now.found last.place (option_copied last.id) }
        ensures { IfSome result
            (λ times. (m : EntryLimits) (store : Store) (breaks : List Break) (i : ℤ)
            → m.tolerance ≡ self.now.tolerance → m.last ≡ option_copied last.entry.id
            → self.now.found ≡ entrances_in m.target_duration m.with_init_sections store breaks
            → is_within times.from times.to i ≡ true → entered m store breaks (Some i) ≡ None) }
    {
        let span = break_span_at(self.spans.as_slice(), self.place, instant?)?;
        if span.break_entered(last).is_some() {
            return None;
        }
        Some(span.times())
    }

    /// The place of the break `id` among them, from 0, if it is sought among many segments and is there. Takes no memory.
    pub fn place_of(&self, id: &str) -> Option<usize>
        ensures { IsPlacedAt self.now.found result (Some id.now) }
    {
        if self.candidates.is_some() || self.spans.is_empty() {
            return None;
        }
        place_in_break_list(self.list.as_slice(), id)
    }

    /// The first known break that a segment which begins at `instant` enters, in the order in which they became known. The
    /// instant differs from the break's start by at most the tolerance, and is more than the tolerance before its
    /// end; and the break isn't `last`, the one that was entered last. Takes no memory.
    pub fn find_entered(
        &mut self,
        instant: Option<Instant>,
        last: LastEntered<'_>,
    ) -> Option<EnteredBreak<'a>>
        requires { IsPlacedAt self.old.found last.place (option_copied last.id) }
        ensures entered { (target : ℕ) → (with_init_sections : Bool) → (store : Store) → (breaks : List Break)
            → self.old.found ≡ entrances_in target with_init_sections store breaks
            → option_map entered_id result
            ≡ entered (record { tolerance = self.old.tolerance; target_duration = target; with_init_sections = with_init_sections; last = option_copied last.entry.id }) store breaks instant }
        ensures placed { IsPlaced self.old.found result }
        ensures kept { self.new ≡ self.old }
    {
        match instant {
            Some(instant) => self.first(instant, last),
            None => None,
        }
    }
}
