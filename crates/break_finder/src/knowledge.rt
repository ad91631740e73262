//! What is known of breaks.
ghost use Rattle.std.specs.Prelude.{List, ℤ, Option, [], ◌∷◌, ◌≡◌, ◌<◌, option_map, slice_get, IfOk};
ghost use Rattle.std.specs.Option.{option_copied};
ghost use Rattle.pod_store.specs.Store.{pod_for};
ghost use Rattle.break_finder.specs.Breaks.{said_of};
ghost use Rattle.break_finder.specs.Known.{Accepted, carry, known};
ghost use Rattle.break_finder.specs.Laws.{CarriesKnown};
ghost use Rattle.break_finder.specs.Entrances.{entrances_in};
ghost use Rattle.break_finder.specs.Entering.{is_inside, is_inside_said, id_of_break, why, why_break_said};
ghost use Rattle.break_finder.specs.Stays.{stays_at};
ghost use Rattle.break_finder.specs.Signals.{is_break_leaving_signal};

use crate::carry::{add_break_tags, are_break_tags_said, copy_standing_breaks};
use crate::described::{Described, is_break_leaving_signal};
use crate::end::{End, break_end_of, is_before_break_end};
use crate::entering::{Entrances, break_entrances_of};
use crate::kept::{Breaks, break_said_for};
use crate::why::Why;
use fixed_duration::Nanos;
use indexmap::IndexMap;
use playlist_model::{Instant, Playlist, Shared};
use pod_store::{Pod, PodStore};
use std::alloc::{AllocError, Global};
use std::hash::RandomState;
use std::marker::Model;

/// Until when segments stay in a break that one of them has entered.
#[derive(Clone, Copy)]
pub struct Stay {
    tolerance: Nanos,
    end: Option<End>,
}

impl Stay {
    /// Whether a segment that begins at `instant` stays in the break: by the tolerance it is before the break's end. No segment
    /// without an instant does.
    pub fn holds(&self, instant: Option<Instant>) -> bool
        ensures { result ≡ stays_at self.now instant }
    {
        match instant {
            Some(instant) => is_before_break_end(instant, self.tolerance, self.end),
            None => false,
        }
    }
}

// Until when segments are inside a break, of which this is said if it is known.
fn stay_in_break_of(said: Option<Described>, tolerance: Nanos, pod: &Pod) -> Stay
    ensures { (instant : Option ℤ)
        → stays_at result instant ≡ is_inside_said instant tolerance pod.now said }
{
    match said {
        Some(said) => Stay {
            tolerance,
            end: break_end_of(&said, pod.total()),
        },
        None => Stay {
            tolerance,
            end: None,
        },
    }
}

fn why_break_said(
    said: &Described,
    id: &str,
    target: u64,
    with_init_sections: bool,
    store: &PodStore,
) -> Why
    ensures { result ≡ why_break_said said.now id.now target with_init_sections store.now }
{
    if said.start.is_none() {
        return Why::NoStart;
    }
    if !is_break_leaving_signal(said.scte35_out) {
        return Why::NotSignalled;
    }
    if store.pod_for(id).is_none() {
        return Why::NotDecided;
    }
    if !store.fits(id, target, with_init_sections) {
        return Why::DoesNotFit;
    }
    Why::Waiting
}

/// The known breaks, in the order in which they became known. What stays from refresh to refresh is one table with several
/// owners.
#[derive(Drop)]
pub struct Knowledge {
    breaks: Shared<Breaks>,
}

impl Model for Knowledge {
    ghost use Rattle.std.specs.Prelude.{List, map};
    ghost use Rattle.break_finder.specs.Breaks.{Break};
    ghost use Rattle.break_finder.specs.Kept.{break_at};

    ghost Value = { List Break };

    ghost view = { λ a. map break_at a.breaks.entries };
}

impl Knowledge {
    /// Nothing is known: no refresh was accepted. `hashing`: the keys of its table's hash. Fails only if an allocation
    /// fails.
    pub fn new(alloc: Global, hashing: RandomState) -> Result<Knowledge, AllocError>
        ensures empty { IfOk result (λ knowledge. knowledge ≡ []) }
        ensures known { IfOk result (λ knowledge. knowledge ≡ known []) }
    {
        let breaks: Breaks = IndexMap::with_hasher(alloc, hashing);
        Ok(Knowledge {
            breaks: Shared::new(alloc, breaks)?,
        })
    }

    fn said(&self, id: &str) -> Option<Described>
        ensures { result ≡ said_of self.now id.now }
    {
        break_said_for(&self.breaks, id)
    }

    /// Until when segments are inside the break `id`, which has the pod `pod`, by `tolerance`: none is if the break isn't known,
    /// is closed, or has no end. The break is looked up here alone, so that a run asks for it once.
    pub fn stay(&self, id: &str, tolerance: Nanos, pod: &Pod) -> Stay
        ensures { (instant : Option ℤ)
            → stays_at result instant ≡ is_inside self.now id.now instant tolerance pod.now }
    {
        stay_in_break_of(self.said(id), tolerance, pod)
    }

    /// Why the break `id` is filled or not: `Filled` if it is in use, which `filled` says. Else it is judged by the
    /// pods of `store`, the target duration `target`, in seconds, and whether the origin's segments are `with_init_sections`
    /// (have initialisation sections). Takes no memory.
    pub fn why(
        &self,
        id: &str,
        target: u64,
        with_init_sections: bool,
        store: &PodStore,
        filled: bool,
    ) -> Why
        ensures { result ≡ why self.now id.now target with_init_sections store.now filled }
    {
        if filled {
            return Why::Filled;
        }
        match self.said(id) {
            Some(said) => why_break_said(&said, id, target, with_init_sections, store),
            None => Why::NotKnown,
        }
    }

    /// The ID of the known break at `place`, from 0, in the order in which they became known. `None` past the last.
    pub fn ids(&self, place: usize) -> Option<&str>
        ensures { option_map (λ id. id.now) result
            ≡ option_map id_of_break (slice_get self.now place) }
    {
        match self.breaks.get_index(place) {
            Some((id, _)) => Some(id.as_str()),
            None => None,
        }
    }

    /// The breaks that can be entered, in the order of the IDs, by `tolerance`: each is signalled and has a pod in
    /// `store`, which fits the target duration `target`, in seconds, and segments that are `with_init_sections` (have
    /// initialisation sections) or aren't. They are made for about `segments` segments, which changes what they take
    /// and nothing else. Fails only if an allocation fails.
    pub fn entrances<'a>(
        &'a self,
        alloc: Global,
        tolerance: Nanos,
        target: u64,
        with_init_sections: bool,
        store: &'a PodStore,
        segments: usize,
    ) -> Result<Entrances<'a>, AllocError>
        ensures { IfOk result
            (λ entrances. entrances
            ≡ record { tolerance = tolerance; found = entrances_in target with_init_sections store.now self.now }) }
    {
        break_entrances_of(
            alloc,
            tolerance,
            target,
            with_init_sections,
            store,
            &self.breaks,
            segments,
        )
    }

    /// What is known after the refresh by `playlist`, if this is known before it, and the newest segment of the
    /// refresh before has the mark `newest`. A break that is in neither is forgotten; of each attribute the first
    /// value is kept (RFC 8216, section 4.3.2.7); new breaks come last, by their first tags. Fails only if an
    /// allocation fails.
    ///
    /// ```text
    /// known before, with the mark b2 on the newest segment:    b1, b2
    /// the date ranges of the playlist:                         b1, b3
    /// known after:                                             b1, b2, b3
    /// ```
    pub fn carry(
        &self,
        alloc: Global,
        playlist: &Playlist,
        newest: Option<&str>,
    ) -> Result<Knowledge, AllocError>
        ensures carried { IfOk result
            (λ after. after
            ≡ carry (record { playlist = playlist.now; carried = option_copied newest.entry }) self.now) }

        // So it is what looking back over all refreshes gives, wherever that was so before.
        ensures known { (before : List Accepted) → CarriesKnown before → self.now ≡ known before
            → IfOk result
            (λ after. after
            ≡ known (record { playlist = playlist.now; carried = option_copied newest.entry }
            ∷ before)) }
    {
        let date_ranges = playlist.date_ranges.as_slice();
        if are_break_tags_said(&self.breaks, date_ranges) {
            return Ok(Knowledge {
                breaks: self.breaks.clone()?,
            });
        }
        let mut breaks = copy_standing_breaks(alloc, &self.breaks, date_ranges, newest)?;
        add_break_tags(alloc, &mut breaks, date_ranges)?;
        Ok(Knowledge {
            breaks: Shared::new(alloc, breaks)?,
        })
    }
}
