//! The connections by their places.
ghost use Rattle.std.specs.Prelude.{◌≡◌, ◌<◌, ◌≤◌, ◌+◌, ◌++◌, [], true, false, not, None, Some, nat_le, length, take, drop, replicate, IfOk, IfErr, OnOk, OnErr, IsErrOf};
ghost use Rattle.std.specs.List.{list_all};
ghost use Rattle.http_edge.specs.Edges.{RepresentsRequests};
ghost use Rattle.http_edge.specs.Waiting.{turn_of};
ghost use Rattle.http_edge.specs.declared.serving.EdgeFault.TheVariants.{TooManyReads};
ghost use Rattle.connections.specs.Conversing.{HasTooManyAt};
ghost use Rattle.connections.specs.Inner.Giving.{IsFaultOfGiving};
ghost use Rattle.connections.specs.Inner.Outlooks.{IsOutlook, outlook_of_request};
ghost use Rattle.connections.specs.Limits.{most_held, place_count};
ghost use Rattle.connections.specs.Arrivals.{is_answered, is_asking};
ghost use Rattle.connections.specs.Table.{at, held_of, held_in, has_room, left_of, part_of_request, with_left, phase_of, PutsAtPlace, Happens};
ghost use Rattle.connections.specs.Table.{arrival, request_bytes, reply_bytes, departure};
ghost use Rattle.connections.specs.Seats.{places_below};

use crate::conversation::{Conversation, give_to_connection};
use crate::seats::{Seat, all_client_seats};
use http_edge::{Edge, EdgeFault, MAX_CHANNELS};
use http_messages::{Arriving, Foreseen};
use std::alloc::{AllocError, Global};
use std::hash::RandomState;
use std::marker::Model;

/// The most bytes of requests that aren't whole, over all connections.
pub const MAX_HELD: usize = 67_108_864;

// So many of them are for all connections alike. The rest is for the one of which most are held: it has room for a longest
// request, and a read.
const MAX_SHARED: usize = 62_832_640;

/// The most bytes of memory that replies which clients haven't taken may keep, over all connections.
pub const MAX_REPLIES: usize = 67_108_864;

/// The places for connections. A process may have 1,024 files open, if nobody says otherwise.
pub const PLACES: usize = 512;

/// The edge, and a fixed number of places for connections.
#[derive(Drop)]
pub struct Connections {
    alloc: Global,
    edge: Edge,
    places: Vec<Option<Conversation>>,
    held: usize,
}

impl Model for Connections {
    ghost use Rattle.std.specs.Prelude.{◌≡◌, ◌≤◌, length};
    ghost use Rattle.connections.specs.Table.{State, held_in};
    ghost use Rattle.connections.specs.Limits.{most_held, place_count};

    ghost Value = { State };

    ghost view = { λ c. record { edge = c.edge; places = c.places.items } };

    ghost invariant = { λ c.
        (c.held ≡ held_in c.places.items) × (c.held ≤ most_held)
        × (length c.places.items ≡ place_count) };
}

/// A table, and all its seats, of which the last is that of the first place.
#[derive(Drop)]
pub struct NewTable<T> {
    pub connections: Connections,
    pub seats: Vec<Seat<T>>,
}

/// What stands at a place.
#[derive(Clone, Copy, Debug, PartialEq, Eq)]
pub enum Phase {
    Vacant,
    Asking,
    /// The status of the reply.
    Answering(u16),
}

/// What a client's request is with the bytes that it sends now.
#[derive(Clone, Copy, Debug, PartialEq, Eq)]
pub(crate) enum Outlook {
    /// It isn't whole.
    Part,
    /// It reads the playlist that a channel wrote last.
    Read,
    /// It takes a turn of the channel of this number.
    Turn(usize),
}

fn bytes_held_by_connection(it: &Option<Conversation>) -> usize
    ensures { result ≡ held_of it.now }
{
    match it {
        Some(Conversation::Asking(arriving, _)) => arriving.len(),
        _ => 0,
    }
}

fn memory_of_reply(it: &Option<Conversation>) -> usize
    ensures none { is_answered it.now ≡ false → result ≡ 0 }
    ensures some { is_answered it.now ≡ true → 0 < result }
{
    match it {
        Some(Conversation::Answering(leaving, _)) => leaving.memory(),
        _ => 0,
    }
}

// The memory of all replies at these places.
fn memory_of_replies(places: &[Option<Conversation>]) -> usize
    ensures none { list_all (λ it. not (is_answered it)) places.now ≡ true → result ≡ 0 }
    ensures some { list_all (λ it. not (is_answered it)) places.now ≡ false → 0 < result }
{
    let mut memory: usize = 0;
    for it in places {
        memory = memory.saturating_add(memory_of_reply(it));
    }
    memory
}

// Whether of none of these connections more bytes are held than so many.
fn holds_most_bytes(places: &[Option<Conversation>], most: usize) -> bool
    ensures { result ≡ list_all (λ it. nat_le (held_of it) most) places.now }
{
    for it in places {
        if bytes_held_by_connection(it) > most {
            return false;
        }
    }
    true
}

// The places, all of them vacant.
fn vacant_connections(alloc: Global) -> Result<Vec<Option<Conversation>>, AllocError>
    ensures { IfOk result (λ places. places.items ≡ replicate place_count None) }
{
    let mut places = Vec::with_capacity(alloc, PLACES)?;
    for _ in 0..PLACES {
        places.push(None)?;
    }
    Ok(places)
}

impl Connections {
    // The edge, with no connection yet. Fails only if an allocation fails.
    fn new(alloc: Global, edge: Edge) -> Result<Connections, AllocError>
        ensures edge { IfOk result (λ new. new.edge ≡ edge) }
        ensures vacant { IfOk result (λ new. new.places ≡ replicate place_count None) }
    {
        Ok(Connections {
            alloc,
            edge,
            places: vacant_connections(alloc)?,
            held: 0,
        })
    }

    /// A new edge, which stands for no request, with no connection yet: all that come are served over this one. A client's
    /// device is a `T`, since no other seat is made. `hashing`: the keys for each channel's tables of IDs. Fails only if an allocation fails.
    pub fn over_new_edge<T>(alloc: Global, hashing: RandomState) -> Result<NewTable<T>, AllocError>
        ensures edge { IfOk result (λ new. RepresentsRequests new.connections.edge []) }
        ensures vacant { IfOk result (λ new. new.connections.places ≡ replicate place_count None) }
        ensures seats { IfOk result (λ new. new.seats.items ≡ places_below place_count) }
    {
        let edge = Edge::new(alloc, hashing)?;
        Ok(NewTable {
            connections: Connections::new(alloc, edge)?,
            seats: all_client_seats(alloc)?,
        })
    }

    /// The bytes of requests that aren't whole.
    pub fn held(&self) -> usize
        ensures sum { result ≡ held_in self.now.places }
        ensures bound { result ≤ most_held }
    {
        self.held
    }

    /// What is at `place`, from 0: nobody, a client that asks, or one that is answered. Nobody is past the last
    /// place.
    pub fn phase(&self, place: usize) -> Phase
        ensures { result ≡ phase_of (at self.now place) }
    {
        match self.places.get(place) {
            Some(Some(Conversation::Asking(_, _))) => Phase::Asking,
            Some(Some(Conversation::Answering(_, status))) => Phase::Answering(*status),
            _ => Phase::Vacant,
        }
    }

    /// Whether a client is at `place`, from 0, whose request isn't whole.
    pub fn is_asking(&self, place: usize) -> bool
        ensures { result ≡ is_asking (at self.now place) }
    {
        self.phase(place) == Phase::Asking
    }

    /// Whether a client is at `place`, from 0, whose reply isn't gone.
    pub fn is_answered(&self, place: usize) -> bool
        ensures { result ≡ is_answered (at self.now place) }
    {
        matches!(self.phase(place), Phase::Answering(_))
    }

    /// How many bytes are left of the reply to the client at `place`, from 0; 0 if it isn't answered.
    pub fn left_at(&self, place: usize) -> usize
        ensures { result ≡ length (left_of (at self.now place)) }
    {
        match self.places.get(place) {
            Some(Some(Conversation::Answering(leaving, _))) => leaving.len(),
            _ => 0,
        }
    }

    /// The bytes of memory that replies keep which clients haven't taken, a text with several owners by the shares of these replies.
    /// It is 0 exactly if nobody is answered.
    pub fn reply_memory(&self) -> usize
        ensures none { list_all (λ it. not (is_answered it)) self.now.places ≡ true → result ≡ 0 }
        ensures some { list_all (λ it. not (is_answered it)) self.now.places ≡ false →
            0 < result }
    {
        memory_of_replies(self.places.as_slice())
    }

    /// How many bytes are held of the request of the client at `place`, from 0, that isn't whole; 0 if there is none.
    pub fn held_at(&self, place: usize) -> usize
        ensures { result ≡ held_of (at self.now place) }
    {
        match self.places.get(place) {
            Some(it) => bytes_held_by_connection(it),
            None => 0,
        }
    }

    /// Whether `count` bytes more are taken of the request of the client at `place`, from 0, that isn't whole with them. Of the client
    /// of which most are held they always are, and of others only as long as they leave it room for its own: so it comes to its end.
    pub fn has_room(&self, place: usize, count: usize) -> bool
        ensures { result ≡ has_room self.now place count }
    {
        let shared = self.held.saturating_add(count) <= MAX_SHARED;
        shared || holds_most_bytes(self.places.as_slice(), self.held_at(place))
    }

    /// What the request of the client at `place` is with `bytes`, the next ones, which are left where they are. Fails only if an
    /// allocation fails.
    pub(crate) fn foresee(&self, place: usize, bytes: &[u8]) -> Result<Outlook, AllocError>
        requires { is_asking (at self.now place) ≡ true }
        ensures { IfOk result (IsOutlook self.now.edge (part_of_request (at self.now place) ++ bytes.now)) }
    {
        match self.places.get(place) {
            Some(Some(Conversation::Asking(arriving, _))) => client_outlook(
                &self.edge, self.alloc, arriving, bytes,
            ),
            _ => Ok(Outlook::Part),
        }
    }

    // Takes away what is at the place of `seat`.
    fn take_out<T>(&mut self, seat: &Seat<T>) -> Option<Conversation>
        ensures it { result ≡ at self.old seat.now }
        ensures puts { PutsAtPlace self.old self.new seat.now None }
        ensures edge { self.new.edge ≡ self.old.edge }
        ensures held { held_in self.new.places + held_of result ≡ held_in self.old.places }
        ensures bound { held_in self.old.places ≤ most_held }
    {
        let it = self.places[seat.place()].take();
        self.held -= bytes_held_by_connection(&it);
        it
    }

    // Puts a connection at the place of `seat`, where nobody is.
    fn put_back<T>(&mut self, seat: &Seat<T>, conversation: Conversation)
        requires vacant { at self.old seat.now ≡ None }
        requires room { held_in self.old.places + held_of (Some conversation) ≤ most_held }
        ensures puts { PutsAtPlace self.old self.new seat.now (Some conversation) }
        ensures edge { self.new.edge ≡ self.old.edge }
    {
        let it = Some(conversation);
        self.held += bytes_held_by_connection(&it);
        self.places[seat.place()] = it;
    }

    /// A client comes to the place of `seat`, where nobody is.
    pub fn insert<T>(&mut self, seat: &Seat<T>)
        requires { at self.old seat.now ≡ None }
        ensures { Happens self.old (arrival seat.now) self.new }
    {
        let conversation = Conversation::Asking(Arriving::new(self.alloc), 0);
        self.put_back(seat, conversation);
    }

    /// The client at `seat` gives `piece`, its next bytes. After a fault the connection is removed, and the edge is
    /// as it was; the faults are `TooManyReads` and `OutOfMemory`.
    pub(crate) fn give<T>(&mut self, seat: &Seat<T>, piece: &[u8]) -> Result<(), EdgeFault>
        requires { held_in self.old.places + length piece.now ≤ most_held }
        ensures ok { OnOk result (Happens self.old (request_bytes seat.now piece.now) self.new) }
        ensures err { OnErr result (Happens self.old (departure seat.now) self.new) }
        ensures kind { IfErr result IsFaultOfGiving }
        ensures many { IsErrOf result EdgeFault.TooManyReads →
            HasTooManyAt (at self.old seat.now) piece.now }
    {
        let Some(conversation) = self.take_out(seat) else {
            return Ok(());
        };
        let after = give_to_connection(conversation, self.alloc, &mut self.edge, piece)?;
        self.put_back(seat, after);
        Ok(())
    }

    /// What is left of the reply to the client at `seat`, in two parts; both are empty if it isn't answered.
    pub(crate) fn parts<T>(&self, seat: &Seat<T>) -> (&[u8], &[u8])
        ensures { result.0.now ++ result.1.now ≡ left_of (at self.now seat.now) }
    {
        match self.places.get(seat.place()) {
            Some(Some(Conversation::Answering(leaving, _))) => leaving.parts(),
            _ => (&[], &[]),
        }
    }

    /// The client at `seat` took the next `count` bytes of its reply.
    pub(crate) fn advance<T>(&mut self, seat: &Seat<T>, count: usize)
        requires { count ≤ length (left_of (at self.old seat.now)) }
        ensures { Happens self.old (reply_bytes seat.now
            (take count (left_of (at self.old seat.now))))
            self.new }
    {
        let Some(conversation) = self.take_out(seat) else {
            return;
        };
        let after = advance_connection_reply(conversation, count);
        self.put_back(seat, after);
    }

    /// The client at `seat` goes, or is given up. Nothing is at its place then.
    pub fn remove<T>(&mut self, seat: &Seat<T>)
        ensures { Happens self.old (departure seat.now) self.new }
    {
        let _ = self.take_out(seat);
    }
}

// What a request is with the next bytes.
fn client_outlook(
    edge: &Edge,
    alloc: Global,
    arriving: &Arriving,
    bytes: &[u8],
) -> Result<Outlook, AllocError>
    ensures { IfOk result (IsOutlook edge.now (arriving.now ++ bytes.now)) }
{
    match arriving.foresee(alloc, bytes)? {
        Foreseen::Part => Ok(Outlook::Part),
        Foreseen::Refused => Ok(Outlook::Turn(MAX_CHANNELS)),
        Foreseen::Whole(gets, target) => Ok(outlook_of_request(edge, gets, target.as_str())),
    }
}

// What is seen of a whole request.
fn outlook_of_request(edge: &Edge, gets: bool, target: &str) -> Outlook
    ensures { result ≡ outlook_of_request (turn_of edge.now gets target.now) }
{
    match edge.turn_of(gets, target) {
        None => Outlook::Read,
        Some(channel) => Outlook::Turn(channel),
    }
}

// The connection when so many bytes of its reply are gone.
fn advance_connection_reply(conversation: Conversation, count: usize) -> Conversation
    requires { count ≤ length (left_of (Some conversation)) }
    ensures { Some result ≡ with_left (drop count (left_of (Some conversation)))
        (Some conversation) }
{
    match conversation {
        Conversation::Answering(mut leaving, status) => {
            leaving.advance(count);
            Conversation::Answering(leaving, status)
        }
        asking => asking,
    }
}
