//! Many connections side by side, over any devices: each one's bytes are collected by themselves, and a request is applied
//! as a whole once it is there.
#![tactic(auto)]

mod admission;
mod arrivals;
mod client;
mod conversation;
mod deadlines;
mod devices;
pub mod laws;
mod line;
mod seats;
mod table;
mod turns;
mod wire;

pub use admission::Admission;
pub use arrivals::{Arrival, Arrivals, has_come};
pub use client::Client;
pub use conversation::Conversation;
pub use deadlines::{ending_deadline, quiet_deadline, serving_deadline};
pub use devices::{Ending, Incoming, Looking, NonBlocking, Outgoing, Passage, Socket};
pub use line::{Call, Line, Part, Standing, When};
pub use seats::Seat;
pub use table::{Connections, MAX_HELD, MAX_REPLIES, NewTable, PLACES, Phase};
pub use turns::{Turn, drain, is_client_read_out, listen, speak};
pub use wire::{Moved, hear, say};
