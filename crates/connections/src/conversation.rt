//! One connection: what its client said so far, and then what is left of the reply.
ghost use Rattle.std.specs.Prelude.{◌≡◌, OnErr, IfOk, IfErr, IsErrOf};
ghost use Rattle.http_edge.specs.declared.serving.EdgeFault.TheVariants.{TooManyReads};
ghost use Rattle.connections.specs.Conversing.{Goes, HasTooMany};
ghost use Rattle.connections.specs.Inner.Giving.{IsFaultOfGiving};

use byte_streams::MAX_READS;
use http_edge::{Edge, EdgeFault, reply_to};
use http_messages::{Arrived, Arriving, Leaving};
use std::alloc::Global;

/// Where a connection stands.
#[derive(Drop)]
pub enum Conversation {
    /// The request isn't whole, after so many pieces.
    Asking(Arriving, u64),
    /// It was applied, or refused; this is left of the reply, which has this status.
    Answering(Leaving, u16),
}

/// Gives `piece`, the client's next bytes, to its `conversation`. Once its bytes are a whole request, or can't become
/// one, the request is applied to `edge`, or refused, as a whole, and what is left is the reply: the same that
/// `serve` gives these bytes. `TooManyReads` at the piece with which `serve` would answer it; `OutOfMemory` only if
/// an allocation fails. After a fault `edge` is as it was.
pub(crate) fn give_to_connection(
    conversation: Conversation,
    alloc: Global,
    edge: &mut Edge,
    piece: &[u8],
) -> Result<Conversation, EdgeFault>
    ensures goes { IfOk result (λ after. Goes conversation piece.now edge.old edge.new after) }
    ensures kept { OnErr result (edge.new ≡ edge.old) }
    ensures kind { IfErr result IsFaultOfGiving }
    ensures many { IsErrOf result EdgeFault.TooManyReads → HasTooMany conversation piece.now }
{
    let (arriving, pieces) = match conversation {
        Conversation::Asking(arriving, pieces) => (arriving, pieces),
        answering => return Ok(answering),
    };
    match arriving.take(alloc, piece)? {
        Arrived::More(arriving) => {
            if pieces >= MAX_READS - 1 {
                return Err(EdgeFault::TooManyReads);
            }
            Ok(Conversation::Asking(arriving, pieces + 1))
        }
        Arrived::Whole(asked) => {
            let answer = reply_to(alloc, edge, asked)?;
            let status = answer.reply.status.as_u16();
            let leaving = Leaving::new(answer.reply, answer.with_body);
            Ok(Conversation::Answering(leaving, status))
        }
    }
}
