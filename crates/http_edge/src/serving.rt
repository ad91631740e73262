//! One connection, one request, one reply.
ghost use Rattle.std.specs.Prelude.{◌≡◌, ◌≢◌, Some, OnOk, OnErr, IfOk, IfErr, IsErrOf};
ghost use Rattle.byte_streams.specs.Stands.{TookAll, FailedAfterFront};
ghost use Rattle.http_messages.specs.declared.receiving.Asked.{Asked as Question};
ghost use Rattle.http_messages.specs.Received.{SourceHolds, HoldsFront, SourceHasEnded, HasGivenPart, IsWholeAtLastRead};
ghost use Rattle.http_messages.specs.Replies.{text_sent};
ghost use Rattle.byte_streams.specs.Fair.{IsFairToSource, IsFairToSink, GaveAtEachButLast};
ghost use Rattle.http_edge.specs.FaultTexts.{edge_fault_text};
ghost use Rattle.http_edge.specs.Served.{HasServed, HasServedFront, HasRepliedWhole, HasRepliedFront, edge_fault};

use crate::answering::reply_to;
use crate::edge::Edge;
use byte_streams::{Sink, Source};
use http_messages::{ReceiveFault, Reply, receive, send};
use std::alloc::{AllocError, Global};
use std::error::Error;
use std::fmt;

/// The status that was written.
#[derive(Clone, Copy, Debug, PartialEq, Eq)]
pub struct Served {
    pub status: u16,
}

/// Why a connection was not served, or not wholly.
#[derive(Clone, Copy, Debug, PartialEq, Eq)]
pub enum EdgeFault {
    /// E1: a read failed.
    Read,
    /// E2: a write failed, or took nothing.
    Write,
    /// E3: the 65,536th read gave bytes and the request isn't whole.
    TooManyReads,
    /// E4: the bytes ended before the request was whole.
    Ended,
    /// E5: an allocation failed.
    OutOfMemory,
}

impl EdgeFault {
    /// The code and the name, as `E1 Read`.
    pub fn text(self) -> &'static str
        ensures { result.now ≡ edge_fault_text self }
    {
        match self {
            EdgeFault::Read => "E1 Read",
            EdgeFault::Write => "E2 Write",
            EdgeFault::TooManyReads => "E3 TooManyReads",
            EdgeFault::Ended => "E4 Ended",
            EdgeFault::OutOfMemory => "E5 OutOfMemory",
        }
    }
}

/// The fault's code and name.
impl fmt::Display for EdgeFault {
    ghost output = { λ fault. Some (edge_fault_text fault) };

    fn fmt<W: fmt::Write>(&self, f: &mut fmt::Formatter<W>) -> fmt::Result {
        f.write_str(self.text())
    }
}

impl Error for EdgeFault {}

impl From<AllocError> for EdgeFault {
    ghost use Rattle.http_edge.specs.declared.serving.EdgeFault.TheVariants.{OutOfMemory};

    ghost from_gives = { λ _ e. e ≡ OutOfMemory };

    fn from(_: AllocError) -> EdgeFault {
        EdgeFault::OutOfMemory
    }
}

impl From<ReceiveFault> for EdgeFault {
    ghost use Rattle.http_edge.specs.Served.{edge_fault};

    ghost from_gives = { λ fault e. e ≡ edge_fault fault };

    fn from(fault: ReceiveFault) -> EdgeFault {
        match fault {
            ReceiveFault::Read => EdgeFault::Read,
            ReceiveFault::TooManyReads => EdgeFault::TooManyReads,
            ReceiveFault::Ended => EdgeFault::Ended,
            ReceiveFault::OutOfMemory => EdgeFault::OutOfMemory,
        }
    }
}

// Writes a reply, or as much of it as the sink takes.
fn put_edge_reply<K: Sink>(
    reply: &Reply,
    with_body: bool,
    sink: &mut K,
) -> Result<Served, EdgeFault>
    ensures ok { OnOk result (TookAll (K.stand sink.old) (K.stand sink.new)
        (text_sent with_body reply.now)) }
    ensures status { IfOk result (λ served. served.status ≡ reply.now.status) }
    ensures write { OnErr result (FailedAfterFront (K.stand sink.old) (K.stand sink.new)
        (text_sent with_body reply.now)) }
    ensures kind { IfErr result (λ e. e ≡ EdgeFault.Write) }
    ensures sink { IsFairToSink EdgeFault.Write result (K.stand sink.old) (K.stand sink.new) }
{
    match send(reply, with_body, sink) {
        Ok(()) => Ok(Served {
            status: reply.status.as_u16(),
        }),
        Err(_) => Err(EdgeFault::Write),
    }
}

/// Reads one request from `source`, applies it to `edge`, and writes its reply and nothing else to `sink`. After
/// `Write` the request stands, and `sink` has taken a front of the reply. After any other fault nothing was done or
/// written: `Read` if a read failed, `Ended` if `source` ended before the request was whole, `TooManyReads` at the
/// 65,536th read, `OutOfMemory` if an allocation failed. Each reply closes its connection (RFC 9112, section 9.3).
pub fn serve<S: Source, K: Sink>(
    alloc: Global,
    edge: &mut Edge,
    source: &mut S,
    sink: &mut K,
) -> Result<Served, EdgeFault>
    ensures ok { IfOk result (λ served. HasServed (S.stand source.old) (S.stand source.new)
        (K.stand sink.old) (K.stand sink.new) edge.old edge.new served.status) }

    // However the source cuts its bytes: what all that it holds asks is answered, and it doesn't end if that is a whole
    // request.
    ensures whole { (it : Question) → SourceHolds (S.stand source.old) it →
        IfOk result (λ served. HasRepliedWhole
        (K.stand sink.old) (K.stand sink.new) edge.old edge.new it served.status) }
    ensures whole_front { (it : Question) → SourceHolds (S.stand source.old) it →
        IsErrOf result EdgeFault.Write → HasRepliedFront
        (K.stand sink.old) (K.stand sink.new) edge.old edge.new it }
    ensures held { IsErrOf result EdgeFault.Ended → HoldsFront (S.stand source.old) }

    // If the sink failed it took a front of the reply, and the request stands.
    ensures write { IsErrOf result EdgeFault.Write →
        HasServedFront (S.stand source.old) (S.stand source.new)
        (K.stand sink.old) (K.stand sink.new) edge.old edge.new }

    // After any other fault nothing was done and nothing written.
    ensures unchanged { IfErr result (λ e. e ≢ EdgeFault.Write → edge.new ≡ edge.old) }
    ensures nothing { IfErr result (λ e. e ≢ EdgeFault.Write → sink.new ≡ sink.old) }
    ensures ended { IsErrOf result EdgeFault.Ended →
        SourceHasEnded (S.stand source.old) (S.stand source.new) }
    ensures unfinished { IsErrOf result EdgeFault.TooManyReads →
        HasGivenPart (S.stand source.old) (S.stand source.new) }

    // Nothing is read past it: no read follows the one that makes the request whole, or shows that it is refused.
    ensures nothing_past { IfOk result (λ _. IsWholeAtLastRead S.stand source.old source.new) }
    ensures nothing_past_front { IsErrOf result EdgeFault.Write →
        IsWholeAtLastRead S.stand source.old source.new }

    // A device is blamed exactly if it failed, and is left alone then; the source is at its end too.
    ensures source { IsFairToSource EdgeFault.Read EdgeFault.TooManyReads result
        (S.stand source.old) (S.stand source.new) }
    ensures to_end { IsErrOf result EdgeFault.Ended →
        GaveAtEachButLast (S.stand source.old) (S.stand source.new) }
    ensures sink { IsFairToSink EdgeFault.Write result (K.stand sink.old) (K.stand sink.new) }
{
    let asked = receive(alloc, source)?;
    let answer = reply_to(alloc, edge, asked)?;
    put_edge_reply(&answer.reply, answer.with_body, sink)
}
