//! A playlist that was read. Segments that stand in the last text too needn't be read again, nor copied.
ghost use Rattle.std.specs.Prelude.{◌≡◌, ◌<◌, ◌≤◌, ◌+◌, ◌^◌, ◌++◌, List, [], length, true, IfOk, OnOk};
ghost use Rattle.playlist_kept.specs.Places.{StandInBoth};
ghost use Rattle.playlist_kept.specs.Kept.{IsTakenFrom, first_of, playlist_in};
ghost use Rattle.playlist_model.specs.Segments.{Segment as SegmentRead};

use crate::source::KeptLines;
use playlist_model::{GrowingSegments, Member, Playlist, SegmentRef, Segments, Shared};
use std::alloc::{AllocError, Global};

/// A playlist that was read. Some of its segments may be those of the last playlist.
#[derive(Drop)]
pub struct Read<'a> {
    /// The playlist, with those of its segments alone that were read.
    pub playlist: Playlist,
    /// How many of these come before the segments that were taken over.
    pub front: usize,
    /// The segments that were taken over from the last playlist, one after the other.
    pub taken: &'a [Member],
    /// The place of the first of these in the last playlist, from 0.
    pub from: usize,
    /// The place after the last of these there.
    pub till: usize,
    /// What is kept of the text's lines; none if it has no line that names a segment and ends with a line feed.
    pub lines: Option<KeptLines>,
}

impl<'a> Read<'a> {
    #[tactic(auto, using(crate::proofs::Parts::first_before, crate::proofs::Parts::first_taken, crate::proofs::Parts::first_since))]
    /// The first segment of the whole playlist.
    pub fn first(&self) -> Option<SegmentRef<'_>>
        ensures { result ≡ first_of (playlist_in self.now).segments }
    {
        let segments = self.playlist.segments.as_slice();
        let (before, since) = segments.split_at(self.front);
        if let Some(first) = before.first() {
            return Some(first);
        }
        match self.taken.first() {
            Some(first) => Some(first.get()),
            None => since.first(),
        }
    }

    #[tactic(auto, using(crate::proofs::Parts::count_of_all))]
    /// How many segments the whole playlist has.
    pub fn count(&self) -> u128
        ensures count { result ≡ length (playlist_in self.now).segments }
        ensures few { result < 2 ^ 65 }
    {
        self.playlist.segments.len() as u128 + self.taken.len() as u128
    }
}

/// Where segments stand that were taken over: from `start` up to `end` in the new playlist, from `from` up to `till` in the
/// last one.
#[derive(Clone, Copy)]
pub struct Places {
    /// The place of the first of them in the new playlist, from 0.
    pub start: usize,
    /// The place after the last of them there.
    pub end: usize,
    /// The place of the first of them in the last playlist, from 0.
    pub from: usize,
    /// The place after the last of them there.
    pub till: usize,
}

impl Places {
    /// The places of no segment.
    pub fn none() -> Places
        ensures { result ≡ record { start = 0; end = 0; from = 0; till = 0 } }
    {
        Places {
            start: 0,
            end: 0,
            from: 0,
            till: 0,
        }
    }

    // Whether these are the places of `count` segments that come after the first `front` ones.
    fn are_of(&self, front: usize, count: usize) -> bool
        ensures { result ≡ true → (front ≡ self.now.start) × (front + count ≡ self.now.end) }
    {
        self.start == front && self.end.checked_sub(front) == Some(count)
    }
}

// Puts copies of these after others.
fn push_kept_members(list: &mut GrowingSegments, more: &[Member]) -> Result<(), AllocError>
    ensures { OnOk result (list.new.segments ≡ list.old.segments ++ more.now) }
{
    let mut rest = more;
    while let Some((member, later)) = rest.split_first() {
        list.push_copy(&member.get())?;
        rest = later;
    }
    Ok(())
}

// The segments of the playlist that was read, all of them copies.
fn copied_read_segments(alloc: Global, read: &Read<'_>) -> Result<Segments, AllocError>
    ensures { IfOk result (λ all. all ≡ (playlist_in read.now).segments) }
{
    let (front, back) = read.playlist.segments.as_slice().split_at(read.front);
    let mut all = GrowingSegments::new(alloc);
    all.push_copies(front)?;
    push_kept_members(&mut all, read.taken)?;
    all.push_copies(back)?;
    Ok(all.into_segments())
}

#[tactic(auto, using(crate::proofs::Parts::none_between))]
/// The whole playlist that was `read`. It has copies of its segments if some were taken over. Fails only if an allocation
/// fails.
pub fn whole_playlist_of_read(alloc: Global, read: Read<'_>) -> Result<Playlist, AllocError>
    ensures { IfOk result (λ playlist. playlist ≡ playlist_in read.entry) }
{
    if read.taken.is_empty() {
        return Ok(read.playlist);
    }
    let segments = copied_read_segments(alloc, &read)?;
    Ok(Playlist {
        segments: Shared::new(alloc, segments)?,
        ..read.playlist
    })
}

#[tactic(auto, using(crate::proofs::Parts::taken_there))]
/// The playlist that was `read`, with `lines`, what is kept of its text, and with the places of the segments that were taken
/// over, which are `places`. If these aren't told by `read` to be there, they are copied. Fails only if an allocation fails.
pub fn read_with_places<'a>(
    alloc: Global,
    read: Read<'a>,
    places: Places,
    lines: Option<KeptLines>,
) -> Result<Read<'a>, AllocError>
    requires { read.front ≤ length read.playlist.segments }
    ensures playlist { IfOk result (λ placed. playlist_in placed ≡ playlist_in read.entry) }
    ensures lines { IfOk result (λ placed. placed.lines ≡ lines) }
    ensures front { IfOk result (λ placed. placed.front ≤ length placed.playlist.segments) }
    ensures taken { (old : List SegmentRead) → StandInBoth old (playlist_in read.entry).segments places
        → IfOk result (IsTakenFrom old) }
{
    if places.are_of(read.front, read.taken.len()) {
        return Ok(Read {
            from: places.from,
            till: places.till,
            lines,
            ..read
        });
    }
    Ok(Read {
        playlist: whole_playlist_of_read(alloc, read)?,
        front: 0,
        taken: &[],
        from: 0,
        till: 0,
        lines,
    })
}
