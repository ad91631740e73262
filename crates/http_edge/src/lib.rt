//! Many live channels over HTTP: requests on a table of channels, on connections that are served in turn.
#![tactic(auto)]

mod answering;
mod channels;
mod edge;
mod events;
pub mod laws;
mod replies;
mod serving;

pub use answering::{Answer, reply_to};
pub use channel_api::why_word;
pub use channels::MAX_CHANNELS;
pub use edge::Edge;
pub use serving::{EdgeFault, Served, serve};
