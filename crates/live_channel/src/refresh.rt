//! A refresh in its phases: the playlist is read, it may follow the last one, it is shown, its text is written, and what the
//! channel comes to is kept.
ghost use Rattle.std.specs.Prelude.{◌≡◌, ◌≤◌, ℕ, None, Some, IfOk, IfErr, OnOk, OnErr, false, length};
ghost use Rattle.std.specs.List.{list_all};
ghost use Rattle.stitcher.specs.Stitched.{can_be_numbered};
ghost use Rattle.stitcher.specs.StitchedSegments.{KnowCommon};
ghost use Rattle.channel_spec.specs.Kept.{kept_items, kept_refusal, kept_succession};
ghost use Rattle.channel_spec.specs.Successor.{answer_of};
ghost use Rattle.channel_window.specs.Checked.{AreContiguous, AreTaken};
ghost use Rattle.playlist_kept.specs.Kept.{AreKeptLines, IsKeptUnderBase, IsTakenFrom, kept_segments, playlist_in};
ghost use Rattle.channel_window.specs.Showing.{AreKept, IsLastEntered, kept_in};
ghost use Rattle.live_channel.specs.Inner.Accepting.{Accepts, FollowsLastPlaylist, HasGrown, IsAccepted, IsJudged, BytesAreReadAs, Refused, RefusesNext, state_with};
ghost use Rattle.channel_window.specs.Listed.{RefusesList, RisesOn, window_segments_in};
ghost use Rattle.live_channel.specs.Inner.LastText.{StoodIn};
ghost use Rattle.channel_window.specs.declared.state.ChannelState.{ChannelState as LiveState};

use crate::channel::Refreshed;
use crate::next::{NextState, next_live_state_of};
use channel_spec::{Heading, RefreshFault, owed_heading_of};
use channel_window::{ChannelState, check_successor, shown_with};
use fixed_duration::Nanos;
use playlist_kept::{LastPlaylist, Read};
use playlist_parse::read;
use playlist_write::resumed::WrittenText;
use std::alloc::Global;
use uri_resolver::Base;

// Whether the playlist that was read may follow what is shown.
fn live_refresh_may_follow(state: &ChannelState, read: &Read<'_>) -> Result<(), RefreshFault>
    requires contiguous { AreContiguous (window_segments_in state.now.list) }
    requires common { KnowCommon None state.now.list }
    requires taken { AreTaken (window_segments_in state.now.list) read.now.taken.now }
    ensures { result ≡ answer_of (kept_succession (kept_in state.now) (playlist_in read.now)) }
{
    let shown = state.list.as_slice();
    match &state.last {
        Some(last) => check_successor(last, shown, read),
        None => Ok(()),
    }
}

// What a channel comes to by a playlist that may follow the last one. The segments that are new come behind those that it
// shows, and stay there if the text can't be made. `NumberRange` if a number would pass 2^64 - 1.
fn next_kept_live_state(
    alloc: Global,
    tolerance: Nanos,
    state: &mut ChannelState,
    written: &Option<WrittenText>,
    read: &Read<'_>,
) -> Result<NextState, RefreshFault>
    requires stood { StoodIn (kept_in state.old)
        (kept_items tolerance (kept_in state.old) (playlist_in read.now)) written.now }
    requires contiguous { AreContiguous (playlist_in read.now).segments }
    requires decided { AreKept state.old.store state.old }
    requires entered { IsLastEntered (kept_in state.old) }
    requires rising { RisesOn state.old.list (playlist_in read.now).segments }
    requires taken { AreTaken (window_segments_in state.old.list) read.now.taken.now }
    requires front { read.now.front ≤ length read.now.playlist.segments }
    ensures ok { IfOk result
        (λ a. IsAccepted tolerance (kept_in state.old) (playlist_in read.now) state.new.list a) }
    ensures err { IfErr result
        (λ e. RefusesList e
        (list_all can_be_numbered (kept_items tolerance (kept_in state.old) (playlist_in read.now))
        ≡ false)) }
    ensures grown { HasGrown state.old state.new }
{
    let stood = state.list.len();
    let mut showing = shown_with(alloc, tolerance, state, read)?;
    state.list.append(&mut showing.come)?;
    let (before, list) = (state.before(stood), state.list.as_slice());
    next_live_state_of(alloc, &before, written, read, list, showing)
}

// What the channel of `state` comes to by the playlist that was read, if that is accepted.
fn next_live_state_after(
    alloc: Global,
    tolerance: Nanos,
    state: &mut ChannelState,
    written: &Option<WrittenText>,
    read: &Read<'_>,
) -> Result<NextState, RefreshFault>
    requires { IsJudged tolerance state.old written.now read.now }
    ensures ok { IfOk result
        (λ a. FollowsLastPlaylist tolerance (kept_in state.old)
        (playlist_in read.now) state.new.list a) }
    ensures err { IfErr result
        (λ e. RefusesNext e (kept_refusal tolerance (kept_in state.old) (playlist_in read.now))) }
    ensures grown { HasGrown state.old state.new }
{
    live_refresh_may_follow(state, read)?;
    next_kept_live_state(alloc, tolerance, state, written, read)
}

/// The playlist that `bytes` are read as under `base`. What they have in common with the last text is taken over from
/// `source`, what is kept of it. The faults are those of reading (P1 to P24); `OutOfMemory` only if an allocation fails.
pub fn live_playlist_after<'a>(
    alloc: Global,
    bytes: &'a [u8],
    base: &'a Base,
    source: &'a Option<LastPlaylist>,
) -> Result<Read<'a>, RefreshFault>
    requires { IsKeptUnderBase base.now source.now }
    ensures ok { IfOk result (λ read. BytesAreReadAs base.now bytes.now (playlist_in read)) }
    ensures lines { IfOk result (λ read. AreKeptLines base.now (playlist_in read) read.lines) }
    ensures taken { IfOk result (IsTakenFrom (kept_segments source.now)) }
    ensures front { IfOk result (λ read. read.front ≤ length read.playlist.segments) }
    ensures err { IfErr result
        (λ e. (tolerance : ℕ) (state : LiveState) → Refused base.now tolerance state bytes.now e) }
{
    Ok(read(alloc, bytes, base, source)?)
}

// Keeps in `state` what an accepted refresh by a playlist of the heading `last` comes to, which is `next`, and in `written`
// the text that is written then. The breaks that were entered with the fallback keep copies of it. `OutOfMemory` only if an
// allocation for these fails; `state` and `written` are then as they were.
fn keep_live_refresh(
    state: &mut ChannelState,
    written: &mut Option<WrittenText>,
    last: Heading,
    next: NextState,
) -> Result<Refreshed, RefreshFault>
    requires { next.gone ≤ length state.old.list }
    ensures state { OnOk result (state.new ≡ state_with state.old last next) }
    ensures answer { IfOk result (λ done. done ≡ next.refreshed) }
    ensures written { OnOk result (written.new ≡ Some next.written) }
    ensures err { IfErr result (λ e. (e ≡ RefreshFault.OutOfMemory) × (state.new ≡ state.old)) }
    ensures stays { OnErr result (written.new ≡ written.old) }
{
    state.store.keep_in_use(next.in_use.as_slice())?;
    state.list.let_go(next.gone);
    *written = Some(next.written);
    state.last = Some(last);
    state.shown = next.shown;
    Ok(next.refreshed)
}

// Accepts or refuses a playlist that was read. If it is refused, other segments may stand behind those that are shown.
fn accept_live_refresh_or_grow(
    alloc: Global,
    tolerance: Nanos,
    state: &mut ChannelState,
    written: &mut Option<WrittenText>,
    read: &Read<'_>,
) -> Result<Refreshed, RefreshFault>
    requires { IsJudged tolerance state.old written.old read.now }
    ensures ok { IfOk result
        (λ done. Accepts tolerance state.old (playlist_in read.now) state.new written.new done) }
    ensures err { IfErr result
        (λ e. RefusesNext e (kept_refusal tolerance (kept_in state.old) (playlist_in read.now))) }
    ensures grown { OnErr result (HasGrown state.old state.new) }
    ensures stays { OnErr result (written.new ≡ written.old) }
{
    let next = next_live_state_after(alloc, tolerance, state, written, read)?;
    keep_live_refresh(state, written, owed_heading_of(&read.playlist), next)
}

/// Accepts or refuses the playlist that was `read`, for the channel of `state`, which enters breaks by `tolerance` and wrote `written`
/// last. The faults, in this order: those of `check_successor` (N1 to N9), then `NumberRange`; `OutOfMemory` only if an
/// allocation fails. After a fault `state` and `written` are as they were.
pub fn accept_live_refresh(
    alloc: Global,
    tolerance: Nanos,
    state: &mut ChannelState,
    written: &mut Option<WrittenText>,
    read: &Read<'_>,
) -> Result<Refreshed, RefreshFault>
    requires { IsJudged tolerance state.old written.old read.now }
    ensures ok { IfOk result
        (λ done. Accepts tolerance state.old (playlist_in read.now) state.new written.new done) }
    ensures err { IfErr result
        (λ e. RefusesNext e (kept_refusal tolerance (kept_in state.old) (playlist_in read.now))) }
    ensures state { OnErr result (state.new ≡ state.old) }
    ensures written { OnErr result (written.new ≡ written.old) }
{
    let stood = state.list.len();
    match accept_live_refresh_or_grow(alloc, tolerance, state, written, read) {
        Ok(refreshed) => Ok(refreshed),
        Err(fault) => {
            state.list.take_back(stood);
            Err(fault)
        }
    }
}
