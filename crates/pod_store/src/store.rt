//! The store of decided breaks.
ghost use Rattle.std.specs.Prelude.{◌≡◌, ◌+◌, ◌==◌, ◌≤◌, ◌<◌, map, filter, fold, length, is_some, true, false, OnOk, OnErr, IfOk, IfErr};
ghost use Rattle.std.specs.List.{list_any};
ghost use Rattle.std.specs.Option.{option_copied};
ghost use Rattle.pod_store.specs.Store.{nothing_decided, with_entries, names_used, put, entry_for, has_own, own_pod, pod_for, has_fitting_pod, has_no_pod, is_used, is_named_if_any, with_all, withdrawn, decided, with_copy, with_copies, adopted, kept_in_use, is_new_decision, Changes, ChangesExactly};
ghost use Rattle.pod_store.specs.Inner.Store.{GrowsBy};
ghost use Rattle.pod_store.specs.Outcome.{no_memory};
ghost use Rattle.spec_words.specs.Outcomes.{Tells};

use crate::fault::{DecisionFault, DecisionKind, Place};
use crate::kept::{
    Pods, SharedDecision, are_all_pods, are_used_pods, count_named_pods, keep_in_use,
    mark_all_pods_used, mark_stored_pod_used, put_all_stored_pods, put_pod_copy, remove_stored_pod,
    stored_pod_for,
};
use crate::limits::MAX_BREAKS;
use crate::{Decision, Decisions, IdSet, Pod};
use indexmap::IndexMap;
use playlist_model::{Shared, Text};
use std::alloc::{AllocError, Global};
use std::hash::RandomState;
use std::marker::Model;

/// The decided breaks with their pods, in the order in which they were decided, and the fallback: the pod of each break that
/// has none of its own. A break that is entered with the fallback keeps a copy of it, whatever becomes of the fallback.
#[derive(Drop)]
pub struct PodStore {
    kept: Pods,
    fallback: Option<Shared<Pod>>,
    alloc: Global,
}

impl Model for PodStore {
    ghost use Rattle.std.specs.Prelude.{map};
    ghost use Rattle.pod_store.specs.Store.{Store};
    ghost use Rattle.pod_store.specs.Kept.{entry_of};

    ghost Value = { Store };

    ghost view = { λ a. record { entries = map entry_of a.kept.entries; fallback = a.fallback } };
}

// The decisions, whose pods can be shared.
fn decisions_with_shared_pods(
    alloc: Global,
    decisions: Vec<Decision>,
) -> Result<Vec<SharedDecision>, AllocError>
    ensures { IfOk result (λ v. v.items ≡ decisions.items) }
{
    let mut done = Vec::with_capacity(alloc, decisions.len())?;
    for (id, pod) in decisions {
        done.push((id, Shared::new(alloc, pod)?))?;
    }
    Ok(done)
}

impl PodStore {
    /// No break is decided, and there is no fallback. `hashing`: the keys of its table's hash.
    pub fn new(alloc: Global, hashing: RandomState) -> PodStore
        ensures { result ≡ nothing_decided }
    {
        PodStore {
            kept: IndexMap::with_hasher(alloc, hashing),
            fallback: None,
            alloc,
        }
    }

    /// The keys of its table's hash, for other tables of IDs.
    pub fn hashing(&self) -> RandomState {
        *self.kept.hasher()
    }

    /// Whether no break has a pod, and there is no fallback.
    pub fn is_empty(&self) -> bool
        ensures { result ≡ has_no_pod self.now }
    {
        self.kept.len() == 0 && self.fallback.is_none()
    }

    /// The pod that the break `id` has of its own: one that a decision gave it, or a copy of the fallback that it was
    /// entered with.
    pub fn get(&self, id: &str) -> Option<&Pod>
        ensures { option_copied result ≡ own_pod self.now id.now }
    {
        match stored_pod_for(&self.kept, id) {
            Some(kept) => Some(&kept.pod),
            None => None,
        }
    }

    fn fallback(&self) -> Option<&Pod>
        ensures { option_copied result ≡ self.now.fallback }
    {
        match &self.fallback {
            Some(pod) => Some(pod),
            None => None,
        }
    }

    /// The pod that the break `id` is filled with: its own, else the fallback. Takes no memory.
    pub fn pod_for(&self, id: &str) -> Option<&Pod>
        ensures { option_copied result ≡ pod_for self.now id.now }
    {
        match self.get(id) {
            Some(pod) => Some(pod),
            None => self.fallback(),
        }
    }

    /// Whether the break `id` has a pod that it is filled with, and that pod fits, as `Pod::fits` says of `target`,
    /// in seconds, and of `with_init_sections`. A pod of the break's own that doesn't fit isn't replaced by the fallback. Takes
    /// no memory.
    pub fn fits(&self, id: &str, target: u64, with_init_sections: bool) -> bool
        ensures { result ≡ has_fitting_pod self.now id.now target with_init_sections }
    {
        match self.pod_for(id) {
            Some(pod) => pod.fits(target, with_init_sections),
            None => false,
        }
    }

    /// Whether the break `id` has a pod of its own and is used.
    pub fn is_used(&self, id: &str) -> bool
        ensures { result ≡ is_used self.now id.now }
    {
        match stored_pod_for(&self.kept, id) {
            Some(kept) => kept.used,
            None => false,
        }
    }

    fn has_own(&self, id: &str) -> bool
        ensures { result ≡ has_own self.now id.now }
    {
        stored_pod_for(&self.kept, id).is_some()
    }

    fn is_named(&self, id: &str) -> bool
        ensures { result ≡ is_named_if_any (entry_for self.now id.now) }
    {
        match stored_pod_for(&self.kept, id) {
            Some(kept) => !kept.copied,
            None => false,
        }
    }

    fn is_any_used(&self, decisions: &[Decision]) -> bool
        ensures { result ≡ list_any (names_used self.now) decisions.now }
    {
        let mut rest = decisions;
        while let Some((decision, later)) = rest.split_first() {
            if self.is_used(decision.0.as_str()) {
                return true;
            }
            rest = later;
        }
        false
    }

    fn count_new(&self, decisions: &[Decision]) -> usize
        ensures value { result ≡ length (filter (is_new_decision self.now) decisions.now) }
        ensures small { result ≤ length decisions.now }
    {
        let most = decisions.len();
        let mut count = 0;
        let mut rest = decisions;
        while let Some((decision, later)) = rest.split_first() {
            if !self.is_named(decision.0.as_str()) {
                count += 1;
            }
            rest = later;
        }
        count
    }

    // Keeps the pods of these breaks, if there is memory.
    fn put_all(&mut self, decisions: Vec<Decision>) -> Result<(), AllocError>
        ensures ok { OnOk result (self.new
            ≡ with_entries self.old (fold put self.old.entries decisions.items)) }
        ensures err { OnErr result (self.new ≡ self.old) }
    {
        let shared = decisions_with_shared_pods(self.alloc, decisions)?;
        self.kept.reserve(shared.len())?;
        put_all_stored_pods(&mut self.kept, shared);
        Ok(())
    }

    // The breaks have these pods.
    fn decide_all(&mut self, decisions: Vec<Decision>) -> Result<(), DecisionFault>
        ensures changes { Changes self.old self.new result (with_all self.old decisions.items) }
        ensures told { Tells result (with_all self.old decisions.items) }
    {
        if self.is_any_used(decisions.as_slice()) {
            return Err(Place::nowhere().fault(DecisionKind::Used));
        }
        if self.count_new(decisions.as_slice()) + count_named_pods(&self.kept) > MAX_BREAKS {
            return Err(Place::nowhere().fault(DecisionKind::Full));
        }
        self.put_all(decisions)?;
        Ok(())
    }

    // The breaks without a pod of their own have this one.
    fn fall_back(&mut self, pod: Pod) -> Result<(), DecisionFault>
        ensures { Changes self.old self.new result (decided self.old (Decisions.Fallback pod)) }
    {
        let shared = Shared::new(self.alloc, pod)?;
        self.fallback = Some(shared);
        Ok(())
    }

    /// Does what `decisions` say. `Used` if one of their breaks is used; then `Full` if decisions would have given
    /// pods to more than `MAX_BREAKS` breaks. A break that is decided already gets the new pod in place of the old one. A
    /// withdrawal has the faults of `withdraw`. A fallback takes the place of the one before, if any. `OutOfMemory`
    /// only if an allocation fails. After a fault the store is as it was.
    ///
    /// ```text
    /// let mut store = PodStore::new(alloc, hashing);
    /// store.decide(decisions)?;        a pod for the break b1
    /// store.pod_for("b1")              Some(pod)
    /// store.pod_for("b2")              None, as there is no fallback
    /// ```
    pub fn decide(&mut self, decisions: Decisions) -> Result<(), DecisionFault>
        ensures changes { Changes self.old self.new result (decided self.old decisions) }

        // Each fault of the decisions is answered whatever memory there is.
        ensures told { Tells result (decided self.old decisions) }
    {
        match decisions {
            Decisions::Breaks(breaks) => self.decide_all(breaks.into_vec()),
            Decisions::Withdraw(id) => self.withdraw(id.as_str()),
            Decisions::Fallback(pod) => self.fall_back(pod),
            Decisions::NoFallback => {
                self.fallback = None;
                Ok(())
            }
        }
    }

    /// Takes the pod of the break `id` away. `Unknown` if it has none of its own, `Used` if the break is used; the
    /// store is then as it was. Takes no memory.
    pub fn withdraw(&mut self, id: &str) -> Result<(), DecisionFault>
        ensures { ChangesExactly self.old self.new result (withdrawn self.old id.now) }
    {
        if !self.has_own(id) {
            return Err(Place::nowhere().fault(DecisionKind::Unknown));
        }
        if self.is_used(id) {
            return Err(Place::nowhere().fault(DecisionKind::Used));
        }
        remove_stored_pod(&mut self.kept, id);
        Ok(())
    }

    // A copy of the fallback, if there is one, is the pod of a break that has none of its own.
    fn copy(&mut self, id: &str) -> Result<(), AllocError>
        ensures ok { OnOk result (self.new ≡ with_copy self.old id.now) }
        ensures err { OnErr result (self.new ≡ self.old) }
    {
        if self.fallback.is_none() || self.has_own(id) {
            return Ok(());
        }
        match &self.fallback {
            Some(pod) => put_pod_copy(self.alloc, &mut self.kept, id, pod),
            None => Ok(()),
        }
    }

    /// The break `id` is used from now on with the pod that it is filled with: its own, or a copy of the fallback,
    /// which is its own then. `false` if it has neither. `OutOfMemory` only if an allocation fails; the store is then
    /// as it was.
    pub fn adopt(&mut self, id: &str) -> Result<bool, DecisionFault>
        ensures ok { IfOk result
            (λ there. (there ≡ is_some (pod_for self.old id.now))
            × (self.new ≡ adopted self.old id.now)) }
        ensures err { IfErr result (λ e. (e ≡ no_memory) × (self.new ≡ self.old)) }
    {
        if self.has_own(id) {
            mark_stored_pod_used(&mut self.kept, id);
            return Ok(true);
        }
        let there = self.fallback().is_some();
        self.copy(id)?;
        Ok(there)
    }

    // A copy of the fallback, if there is one, is the pod of each of these breaks that has none of its own; or of the first
    // of them.
    fn copy_each(&mut self, ids: &[Shared<Text>]) -> Result<(), AllocError>
        ensures ok { OnOk result (self.new ≡ with_copies self.old ids.now) }
        ensures err { OnErr result (GrowsBy self.old self.new) }
    {
        for id in ids {
            self.copy(id.as_str())?;
        }
        Ok(())
    }

    // Each of these breaks that has no pod of its own keeps a copy of the fallback, if there is one, and is used.
    fn copy_fallback(&mut self, ids: &[Shared<Text>]) -> Result<(), AllocError>
        ensures ok { OnOk result (self.new ≡ with_copies self.old ids.now) }
        ensures err { OnErr result (self.new ≡ self.old) }
    {
        let before = self.kept.len();
        match self.copy_each(ids) {
            Ok(()) => Ok(()),
            Err(error) => {
                self.kept.truncate(before);
                Err(error)
            }
        }
    }

    #[tactic(auto, using(crate::proofs::Copies::fallback_stands, crate::proofs::InUse::seen_alike))]
    /// The breaks `ids` are in use from now on, and no others. Each of them that has no pod of its own keeps a copy
    /// of the fallback, if there is one; the pods of used breaks that aren't among `ids` are dropped. Fails only if
    /// an allocation fails; the store is then as it was.
    pub fn keep_in_use(&mut self, ids: &[Shared<Text>]) -> Result<(), AllocError>
        ensures ok { OnOk result (self.new ≡ kept_in_use ids.now self.old) }
        ensures err { OnErr result (self.new ≡ self.old) }
    {
        if are_used_pods(&self.kept, ids) {
            return Ok(());
        }
        if are_all_pods(&self.kept, ids) {
            mark_all_pods_used(&mut self.kept);
            return Ok(());
        }
        let set = IdSet::of(self.alloc, *self.kept.hasher(), ids)?;
        self.copy_fallback(ids)?;
        keep_in_use(&mut self.kept, &set);
        Ok(())
    }
}
