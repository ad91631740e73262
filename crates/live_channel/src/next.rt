//! What a channel comes to by a refresh that shows these segments: what it keeps then, and the text that it writes.
ghost use Rattle.std.specs.Prelude.{◌≡◌, None, IfOk, IfErr, false, drop, map};
ghost use Rattle.std.specs.List.{list_all, list_any};
ghost use Rattle.stitcher.specs.Stitched.{can_be_numbered};
ghost use Rattle.playlist_kept.specs.Kept.{playlist_in};
ghost use Rattle.playlist_write.specs.Owed.{playlist_text};
ghost use Rattle.channel_spec.specs.Kept.{items_on};
ghost use Rattle.channel_spec.specs.Live.{date_range_text, date_ranges_left};
ghost use Rattle.channel_window.specs.Marking.{history_in};
ghost use Rattle.channel_window.specs.Showing.{kept_before, kept_in};
ghost use Rattle.channel_window.specs.Listed.{RefusesList, writes_time};
ghost use Rattle.owed_is_denoted.specs.Owed.{out_playlist};
ghost use Rattle.playlist_write.specs.Laid.{IsLaid};
ghost use Rattle.live_channel.specs.Inner.Accepting.{IsNext, IsReady, IsRefreshReady, IsRefreshWindow, refresh_items};
ghost use Rattle.live_channel.specs.Inner.LastText.{Stood, StandIn, count_in_live_text};

use crate::channel::Refreshed;
use crate::in_use::live_breaks_in_use;
use channel_spec::RefreshFault;
use channel_window::{
    Before, PlacedList, Showing, Shown, date_ranges_left, first_successor_number, place_of_number,
    placed_of, window_head_numbers,
};
use fixed_duration::Nanos;
use playlist_kept::Read;
use playlist_model::{Items, Playlist, Shared, Text};
use playlist_write::OutPlaylist;
use playlist_write::resumed::{WrittenText, front_length, laid_after, laid_out};
use std::alloc::{AllocError, Global};
use std::hash::RandomState;
use stitcher::{MarkedSegment, Numbers, Rest, StitchedList, TextRef};

/// What a channel comes to by an accepted refresh.
#[derive(Drop)]
pub struct NextState {
    /// How many of the segments that are shown go, the oldest first.
    pub gone: usize,
    /// What it knows beside those that stay.
    pub shown: Shown,
    /// The breaks in use.
    pub in_use: Vec<Shared<Text>>,
    /// What the refresh did.
    pub refreshed: Refreshed,
    /// The text that is written.
    pub written: WrittenText,
}

/// The lines of the last text that stand again.
#[derive(Drop)]
pub struct Again<'a> {
    /// The last text.
    pub last: &'a WrittenText,
    /// How many bytes the lines in front of them take.
    pub length: usize,
    /// Of how many segments they are.
    pub count: usize,
}

// How many segments the text that was written last has the lines of.
fn count_in_live_text(written: &Option<WrittenText>) -> usize
    ensures { result ≡ count_in_live_text written.now }
{
    match written {
        Some(last) => last.count,
        None => 0,
    }
}

// The first of these segments stood in the last text. Which lines of it stand again, if the window starts at this place in
// them.
fn live_lines_again<'a>(
    alloc: Global,
    written: &'a Option<WrittenText>,
    whole: &StitchedList<'_>,
    start: usize,
) -> Result<Option<Again<'a>>, AllocError>
    requires { Stood whole.now written.now }
    ensures { IfOk result (StandIn (drop start whole.now)) }
{
    let Some(last) = written else {
        return Ok(None);
    };
    let stood = last.count;
    if stood <= start {
        return Ok(None);
    }
    // Where most of it is gone, the text is made anew.
    if stood - start < start {
        return Ok(None);
    }
    let Some(length) = front_length(alloc, whole, start)? else {
        return Ok(None);
    };
    Ok(Some(Again {
        last,
        length,
        count: stood - start,
    }))
}

// The text of a playlist, of which these lines stand in the last text.
fn lay_live_text(
    alloc: Global,
    out: &OutPlaylist<'_>,
    again: &Option<Again<'_>>,
) -> Result<WrittenText, AllocError>
    requires { StandIn out.now.segments again.now }
    ensures text { IfOk result (λ w. w.text ≡ playlist_text out.now) }
    ensures laid { IfOk result (IsLaid out.now.segments) }
{
    match again {
        Some(again) => laid_after(alloc, out, again.last, again.length, again.count),
        None => laid_out(alloc, out),
    }
}

// The playlist that is written of `playlist`, with these date ranges and items in place of its own, and of the version 6 or more
// (RFC 8216, section 7).
fn live_playlist_out_of<'a>(
    playlist: &Playlist,
    date_ranges: Vec<TextRef<'a>>,
    items: StitchedList<'a>,
) -> OutPlaylist<'a>
    ensures { result ≡ out_playlist playlist.now date_ranges.entry.items items.entry }
{
    OutPlaylist {
        version: playlist.version.max(6),
        target_duration: playlist.target_duration,
        playlist_type: playlist.playlist_type,
        independent_segments: playlist.independent_segments,
        end_list: playlist.end_list,
        date_ranges: Items::from_vec(date_ranges),
        segments: items,
    }
}

// What is written of `playlist` with these items in place of its segments, without the date ranges of the breaks in use.
fn live_playlist_written_of<'a>(
    alloc: Global,
    hashing: RandomState,
    playlist: &'a Playlist,
    in_use: &[Shared<Text>],
    items: StitchedList<'a>,
) -> Result<OutPlaylist<'a>, AllocError>
    ensures { IfOk result
        (λ out. out ≡ out_playlist playlist.now
        (map date_range_text (date_ranges_left
        (list_any writes_time items.entry) in_use.now playlist.now.date_ranges)) items.entry) }
{
    let date_ranges = date_ranges_left(
        alloc,
        hashing,
        &items,
        in_use,
        playlist.date_ranges.as_slice(),
    )?;
    Ok(live_playlist_out_of(playlist, date_ranges, items))
}

/// A refresh whose segments are shown, and whose window is to be written.
#[derive(Clone, Copy)]
pub struct ShownRefresh<'a, 'e> {
    /// What the channel kept before the new segments came.
    pub before: &'a Before<'a>,
    /// The text that it wrote last.
    pub written: &'a Option<WrittenText>,
    /// The playlist that was read.
    pub read: &'a Read<'a>,
    /// The segments that are shown, the oldest first.
    pub list: &'a [MarkedSegment],
    /// The last break entered.
    pub entered: &'e Option<Shared<Text>>,
    /// How long the newest run of a break has lasted.
    pub lasted: Nanos,
}

/// The window that is written after a refresh.
#[derive(Drop)]
pub struct NextWindow {
    /// The numbers of its first item.
    pub numbers: Numbers,
    /// How many items it has.
    pub count: usize,
    /// The rest of a pod that it starts with.
    pub rest: Option<Rest>,
    /// The breaks in use.
    pub in_use: Vec<Shared<Text>>,
    /// Its text.
    pub written: WrittenText,
}

// The window.
fn next_live_window(
    alloc: Global,
    refresh: &ShownRefresh<'_, '_>,
) -> Result<NextWindow, RefreshFault>
    requires { IsRefreshReady refresh.now }
    ensures ok { IfOk result (IsRefreshWindow refresh.now) }
    ensures err { IfErr result
        (λ e. RefusesList e (list_all can_be_numbered (refresh_items refresh.now) ≡ false)) }
{
    let (before, read, list) = (refresh.before, refresh.read, refresh.list);
    let (lasted, stood) = (refresh.lasted, count_in_live_text(refresh.written));
    let PlacedList { whole, start, rest } = placed_of(alloc, before, read, list, lasted, stood)?;
    let again = live_lines_again(alloc, refresh.written, &whole, start)?;
    let mut items = whole;
    items.leave_out(start);
    let number = first_successor_number(read);
    let store = &before.state.store;
    let in_use = live_breaks_in_use(alloc, store, number, list, refresh.entered, &rest)?;
    let (numbers, count) = (window_head_numbers(&items), items.count());
    let hashing = store.hashing();
    let out = live_playlist_written_of(alloc, hashing, &read.playlist, in_use.as_slice(), items)?;
    Ok(NextWindow {
        numbers,
        count,
        rest,
        in_use,
        written: lay_live_text(alloc, &out, &again)?,
    })
}

/// What a channel that kept `before` comes to by the playlist that was `read`, if it shows the segments `list` then, of which
/// those of `showing` came last. `written` is the text that it wrote last, of which lines are copied. `NumberRange` if a
/// number would pass 2^64 - 1 (RFC 8216, sections 4.3.3.2 and 4.3.3.3); `OutOfMemory` only if an allocation fails.
pub fn next_live_state_of<'a>(
    alloc: Global,
    before: &'a Before<'a>,
    written: &'a Option<WrittenText>,
    read: &'a Read<'a>,
    list: &'a [MarkedSegment],
    showing: Showing,
) -> Result<NextState, RefreshFault>
    requires { IsReady (kept_before before.now) written.now (playlist_in read.now) list.now showing.entered showing.so_far }
    ensures ok { IfOk result
        (λ next. IsNext (kept_in (kept_before before.now)) (playlist_in read.now) showing.knowledge list.now
        (history_in (kept_before before.now).store list.now) showing.so_far showing.fresh next) }
    ensures err { IfErr result
        (λ e. RefusesList e (list_all can_be_numbered
        (items_on (kept_in (kept_before before.now)) (playlist_in read.now)
        (history_in (kept_before before.now).store list.now) showing.so_far) ≡ false)) }
{
    let Showing {
        knowledge,
        come: _,
        fresh,
        entered,
        so_far,
    } = showing;
    let refresh = ShownRefresh {
        before,
        written,
        read,
        list,
        entered: &entered,
        lasted: so_far,
    };
    let window = next_live_window(alloc, &refresh)?;
    let refreshed = Refreshed {
        media_sequence: window.numbers.media_sequence,
        segments: window.count,
        fresh,
    };
    let shown = Shown {
        knowledge,
        entered,
        numbers: window.numbers,
        so_far,
        rest: window.rest,
    };
    Ok(NextState {
        gone: place_of_number(first_successor_number(read), list),
        shown,
        in_use: window.in_use,
        refreshed,
        written: window.written,
    })
}
