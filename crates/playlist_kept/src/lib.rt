//! A playlist that was read, with the segments that it has in common with the last one, and what is kept of it for the reading
//! of the next one. Whoever works on what was read needs no reader.
#![tactic(auto)]

mod heading;
mod read_playlist;
mod source;
mod step;

pub use heading::{ReadHeading, is_same_kind};
pub use read_playlist::{Places, Read, read_with_places};
pub use source::{KeptLines, LastPlaylist};
pub use step::Step;
