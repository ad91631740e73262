//! The order in which connections came, and which of them is given up if there is no room.
ghost use Rattle.std.specs.Prelude.{◌≡◌, [], ◌∷◌, ◌++◌, filter, option_map, length, IfOk, OnOk, OnErr};
ghost use Rattle.std.specs.List.{find};
ghost use Rattle.connections.specs.Arrivals.{is_elsewhere, has_come, is_overdue, is_quiet, asks, first_client_arrival, first_that, gives_place, gives_room, gives_text, is_being_answered};

use crate::line::Line;
use crate::table::{Connections, Phase};
use std::alloc::{AllocError, Global};
use std::marker::Model;
use std::time::Instant;

/// A connection's place, and when its time is up.
#[derive(Clone, Copy)]
pub struct Arrival {
    pub place: usize,
    pub until: Instant,
}

/// Connections in the order in which they came.
#[derive(Drop)]
pub struct Arrivals {
    arrivals: Vec<Arrival>,
}

impl Model for Arrivals {
    ghost use Rattle.std.specs.Prelude.{List};
    ghost use Rattle.connections.specs.declared.arrivals.Arrival.{Arrival as One};

    ghost Value = { List One };

    ghost view = { λ a. a.arrivals.items };
}

/// Whether the instant `until` has come at the instant `now`.
pub fn has_come(until: Instant, now: Instant) -> bool
    ensures { result ≡ has_come until now }
{
    match now.checked_duration_since(until) {
        Some(_) => true,
        None => false,
    }
}

// Whether the time of `arrival` is up at `now`, and it doesn't stand in `line`.
fn is_client_overdue(arrival: &Arrival, now: Instant, line: &Line) -> bool
    ensures { result ≡ is_overdue now line.now arrival.now }
{
    has_come(arrival.until, now) && !line.has(arrival.place)
}

fn first_overdue_client(arrivals: &[Arrival], now: Instant, line: &Line) -> Option<usize>
    ensures { result ≡ first_that (is_overdue now line.now) arrivals.now }
{
    for arrival in arrivals {
        if is_client_overdue(arrival, now, line) {
            return Some(arrival.place);
        }
    }
    None
}

fn first_asking_client(arrivals: &[Arrival], connections: &Connections) -> Option<usize>
    ensures { result ≡ first_that (asks connections.now) arrivals.now }
{
    for arrival in arrivals {
        if connections.is_asking(arrival.place) {
            return Some(arrival.place);
        }
    }
    None
}

// Whether bytes of `arrival` are held, nothing came of it for its time, and it doesn't stand in `line`.
fn is_client_quiet(arrival: &Arrival, connections: &Connections, now: Instant, line: &Line) -> bool
    ensures { result ≡ is_quiet connections.now now line.now arrival.now }
{
    is_client_overdue(arrival, now, line) && connections.held_at(arrival.place) > 0
}

fn first_quiet_client(
    arrivals: &[Arrival],
    connections: &Connections,
    now: Instant,
    line: &Line,
) -> Option<usize>
    ensures { result ≡ first_that (is_quiet connections.now now line.now) arrivals.now }
{
    for arrival in arrivals {
        if is_client_quiet(arrival, connections, now, line) {
            return Some(arrival.place);
        }
    }
    None
}

fn first_answered_client(arrivals: &[Arrival], connections: &Connections) -> Option<usize>
    ensures { result ≡ first_that (is_being_answered connections.now) arrivals.now }
{
    for arrival in arrivals {
        if connections.is_answered(arrival.place) {
            return Some(arrival.place);
        }
    }
    None
}

fn first_client_arrival(arrivals: &[Arrival]) -> Option<usize>
    ensures { result ≡ first_client_arrival arrivals.now }
{
    match arrivals {
        [arrival, ..] => Some(arrival.place),
        [] => None,
    }
}

fn remove_client_arrival(arrivals: &mut Vec<Arrival>, place: usize)
    ensures { arrivals.new.items ≡ filter (is_elsewhere place) arrivals.old.items }
{
    arrivals.retain(|arrival| arrival.place != place);
}

impl Arrivals {
    /// No arrivals, and the memory for `most` of them. Fails only if an allocation fails.
    pub fn new(alloc: Global, most: usize) -> Result<Arrivals, AllocError>
        ensures { IfOk result (λ new. new ≡ []) }
    {
        Ok(Arrivals {
            arrivals: Vec::with_capacity(alloc, most)?,
        })
    }

    /// How many there are.
    pub fn len(&self) -> usize
        ensures { result ≡ length self.now }
    {
        self.arrivals.len()
    }

    /// Adds, after the others, the connection at `place`, whose time is up at `until`. Fails only if an allocation
    /// fails; the arrivals are then as they were.
    pub fn push(&mut self, place: usize, until: Instant) -> Result<(), AllocError>
        ensures ok { OnOk result (self.new ≡ self.old
            ++ record { place = place; until = until } ∷ []) }
        ensures err { OnErr result (self.new ≡ self.old) }
    {
        self.arrivals.push(Arrival { place, until })?;
        Ok(())
    }

    /// Takes out the connection at `place`, if there is one.
    pub fn remove(&mut self, place: usize)
        ensures { self.new ≡ filter (is_elsewhere place) self.old }
    {
        remove_client_arrival(&mut self.arrivals, place);
    }

    /// The place of the first connection whose time is up at `now`, of those that don't stand in `line`: who stands
    /// there waits for the others, and they don't wait for it.
    pub fn overdue(&self, now: Instant, line: &Line) -> Option<usize>
        ensures { result ≡ first_that (is_overdue now line.now) self.now }
    {
        first_overdue_client(self.arrivals.as_slice(), now, line)
    }

    /// The place of the client that has asked longest and whose request isn't whole, by what `connections` hold.
    pub fn asked_longest(&self, connections: &Connections) -> Option<usize>
        ensures { result ≡ first_that (asks connections.now) self.now }
    {
        first_asking_client(self.arrivals.as_slice(), connections)
    }

    /// The place of the client that is given up if there is no room for bytes. The arrivals are in the order in which something came
    /// of them last, with the instants from which on they are quiet. Of those that `connections` hold bytes of, that don't stand in
    /// `line` and that are quiet at `now`, it is the first.
    pub fn for_bytes(&self, connections: &Connections, now: Instant, line: &Line) -> Option<usize>
        ensures { result ≡ gives_room connections.now now line.now self.now }
    {
        first_quiet_client(self.arrivals.as_slice(), connections, now, line)
    }

    /// The place of the client that is given up if replies have no room. The arrivals are in the order in which clients last took
    /// bytes of their replies. Of those that `connections` still answer, it is the first.
    pub fn for_texts(&self, connections: &Connections) -> Option<usize>
        ensures { result ≡ gives_text connections.now self.now }
    {
        first_answered_client(self.arrivals.as_slice(), connections)
    }

    /// The place of the client that is given up if another comes and no place is vacant: the one that has asked
    /// longest by what `connections` hold; if none asks, the first of `ending`, whose replies are gone; else the
    /// first of all.
    pub fn for_place(&self, ending: &Arrivals, connections: &Connections) -> Option<usize>
        ensures { result ≡ gives_place connections.now self.now ending.now }
    {
        if let Some(place) = self.asked_longest(connections) {
            return Some(place);
        }
        if let Some(place) = first_client_arrival(ending.arrivals.as_slice()) {
            return Some(place);
        }
        first_client_arrival(self.arrivals.as_slice())
    }
}
