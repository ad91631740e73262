//! A break that can be entered, and whether a segment enters it.
ghost use Rattle.std.specs.Prelude.{◌≡◌, map, option_map};
ghost use Rattle.std.specs.Option.{option_copied};
ghost use Rattle.pod_store.specs.Store.{pod_for};
ghost use Rattle.break_finder.specs.Known.{is_this_break};
ghost use Rattle.break_finder.specs.Entrances.{break_entrance_of, entrances_in, is_break_entered, first_entrance};
ghost use Rattle.break_finder.specs.Inner.Entrances.{is_entered_if};
ghost use Rattle.break_finder.specs.Kept.{break_at};

use crate::described::{Described, is_break_leaving_signal};
use crate::end::{End, break_end_of, is_near_break_start, is_not_past_break_end};
use crate::kept::Breaks;
use fixed_duration::Nanos;
use playlist_model::{Instant, Shared, Text};
use pod_store::PodStore;
use std::marker::Model;

/// A break that can be entered: it is signalled and decided, and its pod fits.
#[derive(Drop)]
pub struct Entrance<'a> {
    /// Its ID.
    pub id: &'a Shared<Text>,
    /// START-DATE.
    pub start: Instant,
    /// Where it ends, by what is said of it or by its pod.
    pub end: Option<End>,
}

impl<'a> Model for Entrance<'a> {
    ghost use Rattle.std.specs.Prelude.{option_map};
    ghost use Rattle.break_finder.specs.Ends.{end_view};
    ghost use Rattle.break_finder.specs.Entrances.{Entrance};

    ghost Value = { Entrance };

    ghost view = { λ a. record { id = a.id.now; start = a.start; end = option_map end_view a.end } };
}

/// Whether `id` is the ID `last`.
pub fn is_last_entered_break(last: Option<&str>, id: &str) -> bool
    ensures { result ≡ is_this_break id.now (option_copied last.entry) }
{
    match last {
        Some(last) => id == last,
        None => false,
    }
}

fn is_break_entered(
    tolerance: Nanos,
    last: Option<&str>,
    instant: Instant,
    entrance: &Entrance<'_>,
) -> bool
    ensures { result ≡ is_break_entered tolerance (option_copied last.entry) instant entrance.now }
{
    is_near_break_start(instant, tolerance, Some(entrance.start))
        && is_not_past_break_end(instant, tolerance, entrance.end)
        && !is_last_entered_break(last, entrance.id.as_str())
}

/// How the break `id`, of which this is `said`, can be entered. `None` if it has no start, isn't signalled, has no
/// pod in `store`, or its pod doesn't fit the target duration `target`, in seconds, and segments that are `with_init_sections`
/// (have initialisation sections) or aren't.
pub fn break_entrance_of<'a>(
    target: u64,
    with_init_sections: bool,
    store: &PodStore,
    id: &'a Shared<Text>,
    said: &Described,
) -> Option<Entrance<'a>>
    ensures { result
        ≡ break_entrance_of target with_init_sections (record { id = id.now; said = said.now }) (pod_for store.now id.now) }
{
    let start = said.start?;
    if !is_break_leaving_signal(said.scte35_out) {
        return None;
    }
    let pod = store.pod_for(id.as_str())?;
    if !pod.fits(target, with_init_sections) {
        return None;
    }
    let end = break_end_of(said, pod.total());
    Some(Entrance { id, start, end })
}

/// The ID of the first break of `list` that a segment which begins at `instant` enters, by `tolerance`, if the break
/// `last` was entered last.
pub fn first_entered_break<'a>(
    list: &[Entrance<'a>],
    tolerance: Nanos,
    last: Option<&str>,
    instant: Instant,
) -> Option<&'a Shared<Text>>
    ensures { option_map
        (λ id. id.now) result
        ≡ first_entrance tolerance (option_copied last.entry) instant list.now }
{
    for entrance in list {
        if is_break_entered(tolerance, last, instant, entrance) {
            return Some(entrance.id);
        }
    }
    None
}

/// Known breaks, and what decides which of them can be entered: the target duration, in seconds, whether segments have
/// initialisation sections, and the store of pods.
#[derive(Clone, Copy)]
pub struct Candidates<'a> {
    /// The target duration.
    pub target: u64,
    /// Whether segments have initialisation sections.
    pub with_init_sections: bool,
    /// The pods.
    pub store: &'a PodStore,
    /// The known breaks.
    pub breaks: &'a Breaks,
}

#[tactic(auto, using(crate::proofs::Candidates::far_off))]
// Whether a segment that begins at an instant enters the break `id`, of which this is said. To look at its start costs less
// than to look for its pod, and few breaks start near.
fn is_candidate_break_entered(
    candidates: &Candidates<'_>,
    tolerance: Nanos,
    last: Option<&str>,
    instant: Instant,
    id: &Shared<Text>,
    said: &Described,
) -> bool
    ensures { result ≡ is_entered_if tolerance (option_copied last.entry) instant
        (break_entrance_of candidates.now.target candidates.now.with_init_sections (record { id = id.now; said = said.now })
        (pod_for candidates.now.store.now id.now)) }
{
    if !is_near_break_start(instant, tolerance, said.start) {
        return false;
    }
    match break_entrance_of(
        candidates.target,
        candidates.with_init_sections,
        candidates.store,
        id,
        said,
    ) {
        Some(entrance) => is_break_entered(tolerance, last, instant, &entrance),
        None => false,
    }
}

/// The ID of the first of the `candidates` that a segment which begins at `instant` enters, by `tolerance`, if the break
/// `last` was entered last.
pub fn first_candidate_break<'a>(
    candidates: &Candidates<'a>,
    tolerance: Nanos,
    last: Option<&str>,
    instant: Instant,
) -> Option<&'a Shared<Text>>
    ensures { option_map (λ id. id.now) result
        ≡ first_entrance tolerance (option_copied last.entry) instant
        (entrances_in candidates.now.target candidates.now.with_init_sections candidates.now.store.now
        (map break_at candidates.now.breaks.now.entries)) }
{
    let breaks = candidates.breaks;
    for (id, said) in breaks {
        if is_candidate_break_entered(candidates, tolerance, last, instant, id.as_shared(), said) {
            return Some(id.as_shared());
        }
    }
    None
}
