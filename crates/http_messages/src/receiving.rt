//! A request, read from a source.
ghost use Rattle.std.specs.Prelude.{◌≡◌, ◌≤◌, ◌+◌, length, take, drop, Some, Ok, Err, IfOk, IfSome, IsErrOf};
ghost use Rattle.http_messages.specs.declared.receiving.Asked.{Asked as Question};
ghost use Rattle.http_messages.specs.Received.{IsHeadAt, SourceHolds, HoldsFront, HasAsked, SourceHasEnded, HasGivenPart, IsWholeAtLastRead};
ghost use Rattle.http_messages.specs.Inner.Received.{IsJudgedAs, IsStep};
ghost use Rattle.byte_streams.specs.Fair.{IsFairToSource, GaveAtEachButLast};

use crate::arriving::{Arrived, Arriving};
use crate::head::{Framing, Head, HeadRead, MAX_HEAD_BYTES, read_request_head};
use crate::message::{Body, Request};
use crate::refusal::Refusal;
use byte_streams::{MAX_READS, READ_ROOM, Source};
use std::alloc::{AllocError, AllocFailed, Global};

/// What was asked.
#[derive(Drop)]
pub enum Asked {
    Request(Request),
    /// A request that is answered at once, with this refusal.
    Refused(Refusal),
}

/// Why no request was read.
#[derive(Clone, Copy, Debug, PartialEq, Eq)]
pub enum ReceiveFault {
    /// A read failed.
    Read,
    /// Each of the most reads gave bytes, and the request isn't whole.
    TooManyReads,
    /// The bytes ended before the request was whole.
    Ended,
    /// An allocation failed.
    OutOfMemory,
}

impl From<AllocError> for ReceiveFault {
    ghost use Rattle.http_messages.specs.declared.receiving.ReceiveFault.TheVariants.{OutOfMemory};

    ghost from_gives = { λ _ e. e ≡ OutOfMemory };

    fn from(_: AllocError) -> ReceiveFault {
        ReceiveFault::OutOfMemory
    }
}

impl<T: Drop> From<AllocFailed<T>> for ReceiveFault {
    ghost use Rattle.http_messages.specs.declared.receiving.ReceiveFault.TheVariants.{OutOfMemory};

    ghost from_gives = { λ _ e. e ≡ OutOfMemory };

    fn from(_: AllocFailed<T>) -> ReceiveFault {
        ReceiveFault::OutOfMemory
    }
}

// What stands at the front of the bytes read so far, of which a head may have only the first.
fn request_head_in_front(alloc: Global, bytes: &[u8]) -> Result<HeadRead, AllocError>
    ensures { IfOk result (IsJudgedAs bytes.now) }
{
    let Some(front) = bytes.get(..MAX_HEAD_BYTES) else {
        return read_request_head(alloc, bytes);
    };
    match read_request_head(alloc, front)? {
        HeadRead::Partial => Ok(HeadRead::Bad),
        read => Ok(read),
    }
}

// What a look at the bytes gave.
#[derive(Drop)]
pub(crate) enum Step {
    // A head and all bytes of its body, which are so many.
    Whole(Head, usize),
    Refused(Refusal),
    // The head, once it is there.
    More(Option<Head>),
}

// Looks whether the body is whole.
fn request_step_with_head(bytes: &[u8], head: Head) -> Step
    requires { IsHeadAt bytes.now head }
    ensures { IsStep bytes.now result }
{
    match head.framing {
        Framing::Refused(refusal) => Step::Refused(refusal),
        Framing::Body(count) => {
            if count > (bytes.len() - head.len) as u64 {
                return Step::More(Some(head));
            }
            Step::Whole(head, count as usize)
        }
    }
}

/// What `bytes`, those read so far, are: a whole request, one that is refused, or the front of one. Their head is
/// `head`, if it is known already. Fails only if an allocation fails.
pub(crate) fn look_for_request(
    alloc: Global,
    bytes: &[u8],
    head: Option<Head>,
) -> Result<Step, AllocError>
    requires { IfSome head (IsHeadAt bytes.now) }
    ensures { IfOk result (IsStep bytes.now) }
{
    if let Some(head) = head {
        return Ok(request_step_with_head(bytes, head));
    }
    match request_head_in_front(alloc, bytes)? {
        HeadRead::Whole(head) => Ok(request_step_with_head(bytes, head)),
        HeadRead::Partial => Ok(Step::More(None)),
        HeadRead::Bad => Ok(Step::Refused(Refusal::BadRequest)),
    }
}

/// The request of `head`, at the front of `bytes`, whose body is the next `count` bytes.
pub(crate) fn http_request_of(bytes: Vec<u8>, head: Head, count: usize) -> Request
    requires { head.len + count ≤ length bytes.items }
    ensures { result ≡ record {
      method = head.method;
      target = head.target;
      body = take count (drop head.len bytes.items);
    } }
{
    let end = head.len + count;
    Request {
        method: head.method,
        target: head.target,
        body: Body::part_of(bytes, head.len, end),
    }
}

/// Reads a request from `source`, up to the end of its body or until it is refused (RFC 9112). However `source` cuts
/// its bytes, the request that they begin with is the one that is answered. `Read` if a read fails, `Ended` if
/// `source` ends before the request is whole, `TooManyReads` at the 65,536th read, `OutOfMemory` if an allocation
/// fails.
///
/// ```text
/// match receive(alloc, &mut source)? {
///     Asked::Request(request) => ..,    its method, its target and its body
///     Asked::Refused(refusal) => refusal_reply(alloc, refusal)?,
/// }
/// ```
pub fn receive<S: Source>(alloc: Global, source: &mut S) -> Result<Asked, ReceiveFault>
    ensures asked { IfOk result (HasAsked (S.stand source.old) (S.stand source.new)) }
    ensures ended { IsErrOf result ReceiveFault.Ended →
        SourceHasEnded (S.stand source.old) (S.stand source.new) }
    ensures unfinished { IsErrOf result ReceiveFault.TooManyReads →
        HasGivenPart (S.stand source.old) (S.stand source.new) }

    // However the source cuts its bytes: what all that it holds asks is answered, and it doesn't end if that is a whole
    // request.
    ensures whole { (it : Question) → SourceHolds (S.stand source.old) it →
        IfOk result (λ asked. asked ≡ it) }
    ensures held { IsErrOf result ReceiveFault.Ended → HoldsFront (S.stand source.old) }

    // Nothing is read past it: no read follows the one that makes the request whole, or shows that it is refused.
    ensures nothing_past { IfOk result (λ _. IsWholeAtLastRead S.stand source.old source.new) }

    // A source is blamed exactly if it failed, and is left alone then, and at its end too.
    ensures source { IsFairToSource ReceiveFault.Read ReceiveFault.TooManyReads result
        (S.stand source.old) (S.stand source.new) }
    ensures to_end { IsErrOf result ReceiveFault.Ended →
        GaveAtEachButLast (S.stand source.old) (S.stand source.new) }
{
    let mut arriving = Arriving::new(alloc);
    let mut block = [0u8; READ_ROOM];
    for _ in 0..MAX_READS {
        let Ok(count) = source.read(&mut block) else {
            return Err(ReceiveFault::Read);
        };
        if count == 0 {
            return Err(ReceiveFault::Ended);
        }
        match arriving.take(alloc, &block[..count])? {
            Arrived::Whole(asked) => return Ok(asked),
            Arrived::More(more) => arriving = more,
        }
    }
    Err(ReceiveFault::TooManyReads)
}
