//! A request that comes in pieces, from whoever has them.
ghost use Rattle.std.specs.Prelude.{◌≡◌, ◌++◌, [], length, IfOk, IfSome};
ghost use Rattle.http_messages.specs.Received.{IsHeadAt};
ghost use Rattle.http_messages.specs.Arriving.{IsArrived, IsForeseen};

use crate::head::{Framing, Head};
use crate::receiving::{Asked, Step, http_request_of, look_for_request};
use playlist_model::Text;
use std::alloc::{AllocError, Global};
use std::marker::Model;

/// What has come of a request that isn't whole yet.
#[derive(Drop)]
pub struct Arriving {
    bytes: Vec<u8>,
    head: Option<Head>,
}

impl Model for Arriving {
    ghost use Rattle.std.specs.Prelude.{ℕ, List, IfSome};
    ghost use Rattle.http_messages.specs.Requests.{IsUnfinished};
    ghost use Rattle.http_messages.specs.Received.{IsHeadAt};

    ghost Value = { List ℕ };

    ghost view = { λ a. a.bytes.items };

    ghost invariant = { λ a. IfSome a.head (IsHeadAt a.bytes.items) × IsUnfinished a.bytes.items };
}

/// What the bytes are with the next piece.
#[derive(Drop)]
pub enum Arrived {
    Whole(Asked),
    More(Arriving),
}

/// What the bytes will be with the next piece.
#[derive(Drop)]
pub enum Foreseen {
    /// A request that isn't whole.
    Part,
    /// A whole request: whether its method is GET, and its target.
    Whole(bool, Text),
    /// They are refused.
    Refused,
}

impl Arriving {
    /// A request of which nothing has come.
    pub fn new(alloc: Global) -> Arriving
        ensures { result ≡ [] }
    {
        Arriving {
            bytes: Vec::new(alloc),
            head: None,
        }
    }

    /// How many bytes have come.
    pub fn len(&self) -> usize
        ensures { result ≡ length self.now }
    {
        self.bytes.len()
    }

    /// Takes `piece`, the next bytes. However the bytes are cut, the request that they begin with is the one that is
    /// asked. Fails only if an allocation fails.
    pub fn take(self, alloc: Global, piece: &[u8]) -> Result<Arrived, AllocError>
        ensures { IfOk result (IsArrived (self ++ piece.now)) }
    {
        let Arriving { mut bytes, head } = self;
        bytes.extend_from_slice(piece)?;
        request_arrived(alloc, bytes, head)
    }

    /// What the bytes are with `piece`, the next ones, which are left where they are. No body is copied. Fails only if an
    /// allocation fails.
    pub fn foresee(&self, alloc: Global, piece: &[u8]) -> Result<Foreseen, AllocError>
        ensures { IfOk result (IsForeseen (self.now ++ piece.now)) }
    {
        if let Some(head) = &self.head {
            return foresee_with_head(alloc, head, self.bytes.as_slice(), piece);
        }
        let mut all = Vec::new(alloc);
        all.extend_from_slice(self.bytes.as_slice())?;
        all.extend_from_slice(piece)?;
        foresee_request(alloc, all.as_slice())
    }
}

// What `bytes` and then `more` are, which begin with `head`.
fn foresee_with_head(
    alloc: Global,
    head: &Head,
    bytes: &[u8],
    more: &[u8],
) -> Result<Foreseen, AllocError>
    requires { IsHeadAt (bytes.now ++ more.now) head.now }
    ensures { IfOk result (IsForeseen (bytes.now ++ more.now)) }
{
    let Framing::Body(count) = head.framing else {
        return Ok(Foreseen::Refused);
    };
    if count > (bytes.len() + more.len() - head.len) as u64 {
        return Ok(Foreseen::Part);
    }
    let gets = head.method.as_str() == "GET";
    Ok(Foreseen::Whole(gets, Text::copy_of(alloc, head.target.as_str())?))
}

// What all of these bytes are.
fn foresee_request(alloc: Global, bytes: &[u8]) -> Result<Foreseen, AllocError>
    ensures { IfOk result (IsForeseen bytes.now) }
{
    match look_for_request(alloc, bytes, None)? {
        Step::Whole(head, _) => Ok(Foreseen::Whole(head.method.as_str() == "GET", head.target)),
        Step::Refused(_) => Ok(Foreseen::Refused),
        Step::More(_) => Ok(Foreseen::Part),
    }
}

// What all of these bytes are, whose head is `head` if it is known already.
fn request_arrived(alloc: Global, bytes: Vec<u8>, head: Option<Head>) -> Result<Arrived, AllocError>
    requires { IfSome head (IsHeadAt bytes.items) }
    ensures { IfOk result (IsArrived bytes.items) }
{
    match look_for_request(alloc, bytes.as_slice(), head)? {
        Step::Whole(head, count) => Ok(Arrived::Whole(Asked::Request(http_request_of(
            bytes, head, count,
        )))),
        Step::Refused(refusal) => Ok(Arrived::Whole(Asked::Refused(refusal))),
        Step::More(head) => Ok(Arrived::More(Arriving { bytes, head })),
    }
}
