//! The pods of the runs of marked segments, each looked up once for runs that are known to be of one break.
ghost use Rattle.std.specs.Prelude.{◌≡◌, ◌+◌, IfOk, IfSome, List, Some};
ghost use Rattle.std.specs.List.{All, slice_get};
ghost use Rattle.std.specs.Option.{option_copied};
ghost use Rattle.stitcher.specs.declared.marked.MarkedSegment.{MarkedSegment as Held};
ghost use Rattle.pod_store.specs.Store.{Store};
ghost use Rattle.stitcher.specs.StitchedSegments.{KnowAgain};
ghost use Rattle.stitcher.specs.RunPods.{AreLeftOf, HasRunPod, IsPodOf, IsPodOfFirst};

use crate::marked::MarkedSegment;
use pod_store::{Pod, PodStore};
use std::alloc::{AllocError, Global};
use std::marker::Model;

// The pod of the run that begins at a place of the marked segments.
#[derive(Clone, Copy)]
struct RunPod<'a> {
    place: usize,
    pod: Option<&'a Pod>,
}

/// The pods of the runs of marked segments, as far as they were looked up.
#[derive(Drop)]
pub struct RunPods<'a> {
    marked: &'a [MarkedSegment],
    store: &'a PodStore,
    // In the order of their places.
    found: Vec<RunPod<'a>>,
}

impl<'a> Model for RunPods<'a> {
    ghost use Rattle.std.specs.List.{All};
    ghost use Rattle.stitcher.specs.StitchedSegments.{KnowAgain};
    ghost use Rattle.stitcher.specs.RunPods.{HasRunPod, Runs};

    ghost Value = { Runs };

    ghost view = { λ a. record { marked = a.marked.now; store = a.store.now } };

    ghost invariant = { λ a. KnowAgain a.marked.now × All (HasRunPod a.store.now a.marked.now) a.found.items };
}

// The pod of the run that begins at a place, if it was looked up.
fn run_pod_at<'a>(found: &[RunPod<'a>], place: usize) -> Option<RunPod<'a>>
    ensures place { IfSome result (λ run. run.place ≡ place) }
    ensures has { (store : Store) (marked : List Held) → All (HasRunPod store marked) found.now
        → IfSome result (HasRunPod store marked) }
{
    let at = found.partition_point(|run: &RunPod<'_>| -> bool { run.place < place });
    match found.get(at) {
        Some(run) if run.place == place => Some(*run),
        _ => None,
    }
}

impl<'a> RunPods<'a> {
    /// Those of the runs of `marked`, whose breaks have their pods in `store`.
    pub fn new(alloc: Global, marked: &'a [MarkedSegment], store: &'a PodStore) -> RunPods<'a>
        requires { KnowAgain marked.now }
        ensures { result ≡ record { marked = marked.now; store = store.now } }
    {
        RunPods {
            marked,
            store,
            found: Vec::new(alloc),
        }
    }

    // The pod of the run that begins at a place, if it is known from the segment before that has its mark.
    fn known_again(&self, place: usize, first: &MarkedSegment) -> Option<RunPod<'a>>
        ensures { IfSome result (λ run. HasRunPod self.now.store self.now.marked run × (run.place + first.now.again ≡ place)) }
    {
        let before = place.checked_sub(first.again as usize)?;
        run_pod_at(self.found.as_slice(), before)
    }

    #[tactic(auto, using(crate::proofs::PodsOfRuns::known_pod))]
    // The pod of the break that marks a segment at a place, if one does.
    fn pod_at(&self, place: usize, first: &MarkedSegment) -> Option<&'a Pod>
        requires { slice_get self.now.marked place ≡ Some first.now }
        ensures { IsPodOf self.now.store (option_copied result) first.now.mark }
    {
        let Some(id) = &*first.mark else {
            return None;
        };
        match self.known_again(place, first) {
            Some(run) => run.pod,
            None => self.store.pod_for(id.as_str()),
        }
    }

    #[tactic(auto, using(crate::proofs::PodsOfRuns::first_left_at, crate::proofs::PodsOfRuns::pod_at))]
    /// The pod of the break that marks the first of the segments `left`, which are the last of the marked ones. Fails only if an
    /// allocation fails.
    pub fn pod_of_first(&mut self, left: &[MarkedSegment]) -> Result<Option<&'a Pod>, AllocError>
        requires { AreLeftOf self.old.marked left.now }
        ensures pod { IfOk result (λ pod. IsPodOfFirst self.old.store (option_copied pod) left.now) }
        ensures kept { self.new ≡ self.old }
    {
        let Some(first) = left.first() else {
            return Ok(None);
        };
        let place = self.marked.len() - left.len();
        let pod = self.pod_at(place, first);
        self.found.push(RunPod { place, pod })?;
        Ok(pod)
    }
}
