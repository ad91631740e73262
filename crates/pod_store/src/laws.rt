//! Laws of pods and of the store. Each function's contract is its law; calling it does nothing.
ghost use Rattle.std.specs.Prelude.{◌≡◌};
ghost use Rattle.pod_store.specs.Limits.{most_breaks, most_pod_segments};
ghost use Rattle.pod_store.specs.Laws.{PodsCanBeWritten, StaysSmall, UsedPodsStay, LastPodStands, KeepingIsAdopting};

use crate::limits::{MAX_BREAKS, MAX_POD_SEGMENTS};

/// The limits are these constants.
pub fn pod_limits_are_the_stores()
    ensures segments { most_pod_segments ≡ MAX_POD_SEGMENTS }
    ensures breaks { most_breaks ≡ MAX_BREAKS }
{}

/// After any calls no break stands twice in the store, and at most `MAX_BREAKS` are decided.
pub fn stays_small()
    ensures { StaysSmall }
{}

/// A used break keeps its pod whatever is decided or withdrawn.
pub fn used_pods_stay()
    ensures { UsedPodsStay }
{}

/// After any calls each break has the pod that the last decision on it gave it, or else the fallback with which it came into
/// use, unless it was withdrawn or fell out of use since.
pub fn last_pod_stands()
    ensures { LastPodStands }
{}

/// To say which breaks are in use comes to adopting each of them, after which the other used ones go.
pub fn keeping_is_adopting()
    ensures { KeepingIsAdopting }
{}

/// Each segment of a pod can be written, with the keys and the initialisation section of its ad.
pub fn pods_can_be_written()
    ensures { PodsCanBeWritten }
{}
