//! What a channel keeps between refreshes.
ghost use Rattle.std.specs.Prelude.{◌≡◌, [], None, IfOk, take};
ghost use Rattle.channel_window.specs.Showing.{kept_before};

use crate::row::WindowRow;
use break_finder::Knowledge;
use channel_spec::Heading;
use fixed_duration::Nanos;
use playlist_model::{Shared, Text};
use pod_store::PodStore;
use std::alloc::{AllocError, Global};
use std::hash::RandomState;
use stitcher::{MarkedSegment, Numbers, Rest};

/// What a channel knows beside the segments that it shows, so that it can show more.
#[derive(Drop)]
pub struct Shown {
    /// The breaks that are known.
    pub knowledge: Knowledge,
    /// The last break entered.
    pub entered: Option<Shared<Text>>,
    /// The numbers of the window's first item.
    pub numbers: Numbers,
    /// How long the newest run has lasted, no more than a nanosecond above its pod's total.
    pub so_far: Nanos,
    /// The rest of a pod that the window starts with.
    pub rest: Option<Rest>,
}

impl Shown {
    /// What a channel knows that was given nothing. `hashing`: the keys for a table of IDs, which strangers choose. Fails
    /// only if an allocation fails.
    pub fn new(alloc: Global, hashing: RandomState) -> Result<Shown, AllocError>
        ensures { IfOk result (λ shown. shown ≡ record { knowledge = []; entered = None; numbers = record { media_sequence = 0; discontinuity_sequence = 0; discontinuities = 0 }; so_far = 0; rest = None }) }
    {
        Ok(Shown {
            knowledge: Knowledge::new(alloc, hashing)?,
            entered: None,
            numbers: Numbers::zero(),
            so_far: Nanos(0),
            rest: None,
        })
    }
}

/// What a channel keeps of all that it was given, its text apart: one window and a few numbers, and no history.
#[derive(Drop)]
pub struct ChannelState {
    /// The decided breaks.
    pub store: PodStore,
    /// The heading of the playlist that was accepted last.
    pub last: Option<Heading>,
    /// The segments that it shows, the oldest first.
    pub list: WindowRow<MarkedSegment>,
    /// What it knows beside them.
    pub shown: Shown,
}

/// What a channel kept before the last of its segments came.
#[derive(Clone, Copy)]
pub struct Before<'a> {
    /// What it keeps with them.
    pub state: &'a ChannelState,
    /// The segments that it showed before, the oldest first.
    pub list: &'a [MarkedSegment],
}

impl ChannelState {
    /// What was kept when the first `count` of the segments were shown.
    pub fn before(&self, count: usize) -> Before<'_>
        ensures { kept_before result ≡ record self.now { list = take count self.now.list } }
    {
        let list = self.list.as_slice();
        Before {
            state: self,
            list: list.split_at(count.min(list.len())).0,
        }
    }
}
