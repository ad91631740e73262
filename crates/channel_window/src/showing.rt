//! The breaks that are known after a refresh, and the segments that are shown then.
ghost use Rattle.std.specs.Prelude.{IfOk, ◌++◌, ◌≤◌, length};
ghost use Rattle.stitcher.specs.StitchedSegments.{AreDecided, KnowPrevious};
ghost use Rattle.playlist_kept.specs.Kept.{playlist_in};
ghost use Rattle.channel_window.specs.Checked.{AreContiguous, AreTaken};
ghost use Rattle.channel_window.specs.Listed.{RisesOn, window_segments_in};
ghost use Rattle.channel_window.specs.Showing.{IsLastEntered, IsShown, kept_in};

use crate::listing::{
    fresh_window_segments_of, last_window_members, newest_shown_end, newest_shown_mark,
    window_list_with,
};
use crate::marking::{Marker, mark_text_in_window};
use crate::state::ChannelState;
use break_finder::Knowledge;
use fixed_duration::Nanos;
use playlist_kept::Read;
use playlist_model::{Shared, Text};
use std::alloc::{AllocError, Global};
use stitcher::MarkedSegment;
use timeline::Beginnings;

/// What a channel knows with a playlist, and what it shows for the first time.
#[derive(Drop)]
pub struct Showing {
    /// The breaks that are known.
    pub knowledge: Knowledge,
    /// The segments that are shown for the first time, the oldest first.
    pub come: Vec<MarkedSegment>,
    /// How many they are.
    pub fresh: usize,
    /// The last break entered.
    pub entered: Option<Shared<Text>>,
    /// How long the newest run has lasted with them.
    pub so_far: Nanos,
}

/// What the channel of `state` knows with the segments of the playlist that was `read`, and those of them that it shows
/// for the first time, which enter breaks by `tolerance`. Fails only if an allocation fails.
pub fn shown_with(
    alloc: Global,
    tolerance: Nanos,
    state: &ChannelState,
    read: &Read<'_>,
) -> Result<Showing, AllocError>
    requires contiguous { AreContiguous (playlist_in read.now).segments }
    requires taken { AreTaken (window_segments_in state.now.list) read.now.taken.now }
    requires front { read.now.front ≤ length read.now.playlist.segments }
    requires decided { AreDecided state.now.store state.now.list }
    requires previous { KnowPrevious state.now.list }
    requires entered { IsLastEntered (kept_in state.now) }
    requires rising { RisesOn state.now.list (playlist_in read.now).segments }
    ensures { IfOk result
        (λ a. IsShown tolerance state.now (playlist_in read.now) (state.now.list ++ a.come.items) a) }
{
    let shown = state.list.as_slice();
    let newest = newest_shown_mark(alloc, shown)?;
    let known = &state.shown.knowledge;
    let knowledge = known.carry(alloc, &read.playlist, mark_text_in_window(&newest))?;
    let fresh = fresh_window_segments_of(shown, read);
    let segments = window_list_with(alloc, &fresh, &read.playlist.segments)?;
    let (store, count) = (&state.store, fresh.len());
    let marker = Marker::new(alloc, tolerance, read, &knowledge, store, count)?;
    let marks = marker.mark(
        alloc,
        &state.shown,
        newest,
        last_window_members(&segments, &fresh),
        Beginnings::new(alloc, newest_shown_end(shown), fresh),
    )?;
    Ok(Showing {
        knowledge,
        come: marks.list,
        fresh: count,
        entered: marks.entered,
        so_far: marks.so_far,
    })
}
