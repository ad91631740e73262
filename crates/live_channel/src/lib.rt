//! A live channel: what it keeps from refresh to refresh, what it answers, and what it writes.
#![tactic(auto)]

mod channel;
mod in_use;
pub mod laws;
mod next;
mod refresh;

pub use channel::{Channel, ChannelFault, Refreshed};
pub use channel_spec::RefreshFault;
