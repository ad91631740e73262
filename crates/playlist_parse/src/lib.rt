//! From the bytes of a media playlist to the playlist that they denote, or their first fault.
#![tactic(auto)]

mod date_range;
mod date_ranges;
mod line;
mod progress;
mod reader;
mod reading;
mod source;
mod tag;

pub use line::{Line, LineKind, Lines, kind_of};
pub use playlist_model::MAX_BYTES;
pub use reader::read;
