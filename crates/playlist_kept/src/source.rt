//! What is kept of a playlist for the reading of the next one.
use crate::heading::ReadHeading;
use playlist_model::{DateRange, Items, Member, Shared, Text};
use segment_state::Stop;

/// The lines of a text after its header up to the last one that names a segment, and what stands after them.
#[derive(Drop)]
pub struct KeptLines {
    /// The lines, each with its end.
    pub text: Text,
    /// The number of the line after them.
    pub next: u64,
    /// What the tags of the whole playlist say in them.
    pub heading: ReadHeading,
    /// What is in force after them.
    pub stop: Stop,
    /// How many segments they have.
    pub segments: usize,
    /// How many date ranges they have.
    pub date_ranges: usize,
}

/// What is kept of the playlist that was read last, so that the next text can be read by what they have in common.
#[derive(Drop)]
pub struct LastPlaylist {
    /// The lines of its text.
    pub lines: KeptLines,
    /// Its segments.
    pub segments: Vec<Member>,
    /// Its date ranges.
    pub date_ranges: Items<Shared<DateRange>>,
}
