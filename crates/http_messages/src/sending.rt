//! A reply, written to a sink.
ghost use Rattle.std.specs.Prelude.{◌≡◌, ◌++◌, OnOk, OnErr};
ghost use Rattle.byte_streams.specs.Stands.{TookAll, FailedAfterFront};
ghost use Rattle.http_messages.specs.Replies.{text_sent, reply_body_sent, sends_body};

use crate::block::{Block, fill_message_block};
use crate::message::Reply;
use crate::reply_head::reply_head_of;
use byte_streams::{Sink, SinkFailed, hand_out};
use http::Method;

// Hands out a head and then a body.
fn hand_out_reply_parts<K: Sink>(head: &[u8], body: &[u8], sink: &mut K) -> Result<(), SinkFailed>
    ensures ok { OnOk result (TookAll (K.stand sink.old) (K.stand sink.new)
        (head.now ++ body.now)) }
    ensures err { OnErr result (FailedAfterFront (K.stand sink.old) (K.stand sink.new)
        (head.now ++ body.now)) }
{
    hand_out(head, sink)?;
    hand_out(body, sink)
}

// Hands out a head and a body, in one write if a block has room for both.
fn hand_out_reply_at_once<K: Sink>(head: &[u8], body: &[u8], sink: &mut K) -> Result<(), SinkFailed>
    ensures ok { OnOk result (TookAll (K.stand sink.old) (K.stand sink.new)
        (head.now ++ body.now)) }
    ensures err { OnErr result (FailedAfterFront (K.stand sink.old) (K.stand sink.new)
        (head.now ++ body.now)) }
{
    let mut block = Block::new();
    if fill_message_block(&mut block, head, body) {
        return hand_out(block.as_slice(), sink);
    }
    hand_out_reply_parts(head, body, sink)
}

/// Whether the reply to `method` has a body: not to HEAD (RFC 9110, section 9.3.2).
pub fn sends_body(method: &Method) -> bool
    ensures { result ≡ sends_body method.now }
{
    method.as_str() != "HEAD"
}

/// What is sent of the body of `reply`: all if `with_body`, else nothing.
pub(crate) fn reply_body_sent(reply: &Reply, with_body: bool) -> &[u8]
    ensures { result.now ≡ reply_body_sent with_body reply.now }
{
    if with_body { reply.body() } else { &[] }
}

/// Writes `reply` to `sink`, with its body if `with_body`. `SinkFailed` if a write fails or takes nothing: `sink` has
/// then taken a front of it. Takes no memory.
pub fn send<K: Sink>(reply: &Reply, with_body: bool, sink: &mut K) -> Result<(), SinkFailed>
    ensures ok { OnOk result (TookAll (K.stand sink.old) (K.stand sink.new)
        (text_sent with_body reply.now)) }
    ensures err { OnErr result (FailedAfterFront (K.stand sink.old) (K.stand sink.new)
        (text_sent with_body reply.now)) }
{
    let head = reply_head_of(reply);
    let body = reply_body_sent(reply, with_body);
    hand_out_reply_at_once(head.as_str().as_bytes(), body, sink)
}
