//! What is asked, and its reply: in one place, whoever reads the bytes and writes the reply.
ghost use Rattle.std.specs.Prelude.{◌≡◌, IfOk, OnErr};
ghost use Rattle.http_edge.specs.Served.{IsReplyTo};

use crate::edge::Edge;
use http_messages::{Asked, Reply, refusal_reply, sends_body};
use std::alloc::{AllocError, Global};

/// A reply, and whether its body is sent with it.
#[derive(Drop)]
pub struct Answer {
    pub reply: Reply,
    pub with_body: bool,
}

/// What is answered to what was `asked`. A request is applied to `edge` as a whole; of a refusal the client is told.
/// Fails only if an allocation fails, and leaves `edge` as it was. (A request that memory doesn't suffice for has a
/// reply, 503.)
pub fn reply_to(alloc: Global, edge: &mut Edge, asked: Asked) -> Result<Answer, AllocError>
    ensures ok { IfOk result (λ answer. IsReplyTo asked edge.old edge.new answer.reply
        answer.with_body) }
    ensures err { OnErr result (edge.new ≡ edge.old) }
{
    match asked {
        Asked::Request(request) => Ok(Answer {
            with_body: sends_body(&request.method),
            reply: edge.answer(&request),
        }),
        Asked::Refused(refusal) => Ok(Answer {
            with_body: true,
            reply: refusal_reply(alloc, refusal)?,
        }),
    }
}
