//! What a live channel shows with a playlist: which playlist may follow which, which break marks each new segment, and
//! the window of the stitched list that is written. What a channel keeps for it is one window and a few numbers.
#![tactic(auto)]

pub mod laws;
mod listing;
mod marking;
mod placing;
mod row;
mod showing;
mod state;
mod successor;
mod writing;

pub use listing::place_of_number;
pub use marking::mark_text_in_window;
pub use placing::newest_run_place;
pub use row::WindowRow;
pub use showing::{Showing, shown_with};
pub use state::{Before, ChannelState, Shown};
pub use successor::{
    check_successor, first_shown_number, first_successor_number, shown_have_init_sections,
    successor_has_init_sections,
};
pub use writing::{PlacedList, date_ranges_left, placed_of, window_head_numbers};
