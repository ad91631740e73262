//! What requests on the edge name and say, the replies to them, and values under names, no channel among them.
#![tactic(auto)]

mod channel_body;
pub mod laws;
mod named;
mod reasons;
mod replies;
mod routes;

pub use channel_body::{BodyFault, Wanted, read_wanted};
pub use named::{Naming, put_named, remove_named};
pub use reasons::why_word;
pub use replies::{
    LINE_ROOM, body_fault_reply, not_allowed, not_found, push_why_reply_line, refused_decisions,
    refused_refresh, reply_line, reply_of_text,
};
pub use routes::{Resource, Routes};
