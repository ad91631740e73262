//! What is put into a playlist: segments with their numbers, runs replaced by their pods, and the key tags between them.
#![tactic(auto)]

use playlist_model::{Instant, SegmentRef};

mod copies;
mod ends;
mod fault;
mod key_tags;
pub mod laws;
mod making;
mod marked;
mod run_pods;
mod stitched_list;
mod text_ref;

pub use ends::{Ends, Rest};
pub use fault::StitchFault;
pub use key_tags::{is_new_key, keeps_formats, transition};
pub use making::{stitch, stitched_run_goes_on};
pub use marked::{MarkedSegment, Numbers, SharedMark};
pub use run_pods::RunPods;
pub use stitched_list::{StitchedItems, StitchedList};
pub use text_ref::TextRef;

/// A segment as it stands in a written playlist. Its own numbers and time are not those of `segment`.
#[derive(Drop)]
pub struct OutSegment<'a> {
    /// What is played.
    pub segment: SegmentRef<'a>,
    /// Its media sequence number.
    pub media_sequence: u64,
    /// Its discontinuity sequence number.
    pub discontinuity_sequence: u64,
    /// How many discontinuities stand between it and the segment before.
    pub discontinuities: u64,
    /// The instant that is written before it, if one is.
    pub program_date_time: Option<Instant>,
}
