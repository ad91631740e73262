//! What a playlist that was read leaves for the reading of the next one.
ghost use Rattle.std.specs.Prelude.{◌≡◌, ◌++◌, IfOk, MatchOption, OnOk, drop, take};
ghost use Rattle.playlist_kept.specs.Kept.{IsAfter, kept_segments, with_taken};

use crate::read_playlist::Read;
use crate::source::{KeptLines, LastPlaylist};
use playlist_model::{Member, Members, Playlist, Segments, Shared};
use std::alloc::{AllocError, Global};

/// A playlist that was read, without those of its segments that were taken over from the last one.
#[derive(Drop)]
pub struct Step {
    /// The playlist, with those segments that were read.
    pub playlist: Playlist,
    /// How many of these come before the segments that were taken over.
    pub front: usize,
    /// The place of the first segment that was taken over, in the last playlist, from 0.
    pub from: usize,
    /// The place after the last of these there.
    pub till: usize,
    /// What is kept of the text's lines, if anything is.
    pub lines: Option<KeptLines>,
}

// The segments of a source from one place up to another; none if there is no source.
fn stretch_of_kept_segments(
    alloc: Global,
    source: Option<LastPlaylist>,
    from: usize,
    till: usize,
) -> Vec<Member>
    ensures { result.items ≡ drop from (take till (kept_segments source)) }
{
    let Some(source) = source else {
        return Vec::new(alloc);
    };
    let mut segments = source.segments;
    segments.truncate(till);
    let gone = from.min(segments.len());
    drop(segments.drain(..gone));
    segments
}

// Puts the next `most` members after a list.
fn push_some_kept_members(
    list: &mut Vec<Member>,
    members: &mut Members<'_>,
    most: usize,
) -> Result<(), AllocError>
    ensures list { OnOk result (list.new.items ≡ list.old.items ++ take most members.old) }
    ensures members { OnOk result (members.new ≡ drop most members.old) }
{
    let mut left = most;
    while left > 0 {
        let Some(member) = members.next()? else {
            return Ok(());
        };
        list.push(member)?;
        left -= 1;
    }
    Ok(())
}

// The members of a list, with others after the first `front` of them.
fn kept_members_with(
    alloc: Global,
    list: &Shared<Segments>,
    front: usize,
    taken: Vec<Member>,
) -> Result<Vec<Member>, AllocError>
    ensures { IfOk result (λ all. all.items ≡ with_taken front list.now taken.items) }
{
    let mut taken = taken;
    let mut members = Members::from_place(list, 0);
    let mut all = Vec::new(alloc);
    push_some_kept_members(&mut all, &mut members, front)?;
    all.append(&mut taken)?;
    push_some_kept_members(&mut all, &mut members, list.len())?;
    Ok(all)
}

impl<'a> Read<'a> {
    /// The playlist without what was taken over, which is the last one's again.
    pub fn step(self) -> Step
        ensures { result ≡ record { playlist = self.entry.playlist; front = self.entry.front; from = self.entry.from; till = self.entry.till; lines = self.entry.lines } }
    {
        Step {
            playlist: self.playlist,
            front: self.front,
            from: self.from,
            till: self.till,
            lines: self.lines,
        }
    }
}

impl Step {
    /// What is kept of the playlist for the reading of the next one, if `last` is what was kept of the last one. Nothing is
    /// kept if no lines are, or if an allocation fails: the next text is read whole then.
    pub fn after(self, alloc: Global, last: Option<LastPlaylist>) -> Option<LastPlaylist>
        ensures { MatchOption result (Unit {0}) (IsAfter self last) }
    {
        let Step {
            playlist,
            front,
            from,
            till,
            lines,
        } = self;
        let Some(lines) = lines else {
            return None;
        };
        let taken = stretch_of_kept_segments(alloc, last, from, till);
        match kept_members_with(alloc, &playlist.segments, front, taken) {
            Ok(segments) => Some(LastPlaylist {
                lines,
                segments,
                date_ranges: playlist.date_ranges,
            }),
            Err(_) => None,
        }
    }
}
