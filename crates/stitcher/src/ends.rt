//! What stands at the two ends of a part of a stitched list.
use fixed_duration::Nanos;
use playlist_model::{Shared, Text};

/// The rest of a break's pod, from a place in it on.
#[derive(Drop)]
pub struct Rest {
    /// The break's ID.
    pub id: Shared<Text>,
    /// How many of the pod's segments stand before it.
    pub place: usize,
}

/// The two ends of a part of a stitched list.
#[derive(Drop)]
pub struct Ends {
    /// The rest of a pod that comes first.
    pub rest: Option<Rest>,
    /// How long the last run has lasted, if it is open.
    pub so_far: Option<Nanos>,
}
