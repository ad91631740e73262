//! Messages of HTTP/1.1 (RFC 9110, RFC 9112): a request is read from a source, and a reply is written to a sink.
#![tactic(auto)]

mod arriving;
mod block;
mod head;
pub mod laws;
mod leaving;
mod message;
mod receiving;
mod refusal;
mod reply_head;
mod sending;

pub use arriving::{Arrived, Arriving, Foreseen};
pub use block::{BLOCK, Block, fill_message_block};
pub use head::{MAX_BODY_BYTES, MAX_FIELDS, MAX_HEAD_BYTES};
pub use leaving::Leaving;
pub use message::{Allow, Body, Content, ContentType, Reply, Request};
pub use receiving::{Asked, ReceiveFault, receive};
pub use refusal::{Refusal, plain_http_reply, refusal_reply};
pub use sending::{send, sends_body};
