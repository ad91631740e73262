//! The clients by place: who is there, in which order they came, and what is told of one that goes.
#![tactic(auto, using(connections::proofs::Calling::line_stays, connections::proofs::Calling::line_goes_by_one))]

ghost use Rattle.std.specs.Prelude.{◌≡◌, ◌≢◌, ◌-◌, ◌<◌, ◌∷◌, ◌++◌, [], filter, length, replicate, None, Some, true, false, IfOk, IfSome, OnOk, OnErr};
ghost use Rattle.std.specs.Option.{option_map};
ghost use Rattle.adsplice.specs.Clients.{fault_of_leaver, is_granted};
ghost use Rattle.adsplice.specs.Inner.Leaving.{not_served};
ghost use Rattle.adsplice.specs.Inner.Serving.{HadPartRead, HadTurn, HasLeft, IsLastFor, IsNotedBefore, IsWatched, MayLeave, OthersAreThere, OthersStay, client_at, is_over};
ghost use Rattle.connections.specs.Arrivals.{asks, first_that, gives_place, gives_room, gives_text, is_elsewhere, is_overdue};
ghost use Rattle.connections.specs.Limits.{ending_nanos, place_count, quiet_nanos, serving_nanos};
ghost use Rattle.connections.specs.Inner.Going.{LineGoesOn};
ghost use Rattle.connections.specs.Lines.{LineIsCalled, after, calls, is_in_line, joins, leaves, new_line, next, place_of};
ghost use Rattle.connections.specs.Runs.{HasRun};
ghost use Rattle.connections.specs.Table.{at, left_of};

use connections::{
    Arrivals, Call, Client, Connections, Incoming, Line, Outgoing, PLACES, Part, Phase, Seat,
    Socket, Turn, ending_deadline, quiet_deadline, serving_deadline,
};
use http_edge::EdgeFault;
use mio::Registry;
use std::alloc::{AllocError, Global};
use std::marker::Model;
use std::time::Instant;

/// The clients by place, with the order in which they came. Its memory is taken once.
#[derive(Drop)]
pub struct Clients {
    pub(crate) at: Vec<Option<Client<Socket>>>,
    pub(crate) vacant: Vec<Seat<Socket>>,
    // Those that ask or are answered, and those whose reply is gone.
    pub(crate) served: Arrivals,
    pub(crate) ending: Arrivals,
    // Those of which something came last, with the instants from which on they are quiet.
    pub(crate) heard: Arrivals,
    // Those that are answered, in the order in which they last took bytes of their replies.
    pub(crate) took: Arrivals,
    // Those whose next bytes have no room.
    pub(crate) short: Arrivals,
    // Those whose requests are whole, and may take long.
    line: Line,
}

impl Model for Clients {
    ghost use Rattle.mio.specs.declared.net.stream.TcpStream.{TcpStream};
    ghost use Rattle.adsplice.specs.Clients.{ClientsState};
    ghost use Rattle.connections.specs.Devices.{Calls};

    ghost Value = { ClientsState (TcpStream × Calls) };

    ghost view = { λ c. record { at = c.at.items; vacant = c.vacant.items; served = c.served; ending = c.ending; heard = c.heard; took = c.took; short = c.short; line = c.line } };
}

/// What the turn of the client at a place came to, and what it was at before.
#[derive(Clone, Copy)]
pub(crate) struct Turned {
    pub(crate) place: usize,
    // None if nobody is there.
    pub(crate) turn: Option<Turn>,
    pub(crate) was_ending: bool,
    pub(crate) was_asking: bool,
    // The bytes that were left of its reply.
    pub(crate) was_left: usize,
}

impl Clients {
    /// No clients yet, with `seats` for those that come: all of their table. Fails only if an allocation fails.
    pub fn new(alloc: Global, seats: Vec<Seat<Socket>>) -> Result<Clients, AllocError>
        ensures lists { IfOk result (λ new. new ≡ record {
          at = new.at;
          vacant = seats.items;
          served = [];
          ending = [];
          heard = [];
          took = [];
          short = [];
          line = new_line;
        }) }
        ensures nobody { IfOk result (λ new. new.at ≡ replicate place_count None) }
    {
        Ok(Clients {
            at: no_socket_clients(alloc)?,
            vacant: seats,
            served: Arrivals::new(alloc, PLACES)?,
            ending: Arrivals::new(alloc, PLACES)?,
            heard: Arrivals::new(alloc, PLACES)?,
            took: Arrivals::new(alloc, PLACES)?,
            short: Arrivals::new(alloc, PLACES)?,
            line: Line::new(alloc, PLACES)?,
        })
    }

    /// How many clients there are.
    pub(crate) fn present(&self) -> usize
        ensures { result ≡ place_count - length self.now.vacant }
    {
        PLACES.saturating_sub(self.vacant.len())
    }

    /// The client at `place`, from 0, is neither heard nor answered any more.
    pub(crate) fn stop_serving(&mut self, place: usize)
        ensures lists { self.new ≡ not_served place self.old }
        ensures line { LineGoesOn self.old.line self.new.line }
    {
        self.served.remove(place);
        self.heard.remove(place);
        self.took.remove(place);
        self.short.remove(place);
        leave_line(&mut self.line, place);
    }

    /// The seat of the client at `place`, from 0, is vacant from now on, if one is there. Its connection is closed.
    pub(crate) fn give_back(&mut self, place: usize)
        ensures gone { client_at self.new.at place ≡ None }
        ensures others { OthersAreThere place self.old.at self.new.at }
        ensures rest { self.new ≡ record self.old { at = self.new.at; vacant = self.new.vacant } }
    {
        if let Some(client) = self.at.get_mut(place) {
            if let Some(client) = client.take() {
                let _ = self.vacant.push(client.close());
            }
        }
    }

    /// How many stand in line.
    pub(crate) fn waiting(&self) -> usize
        ensures { result ≡ length self.now.line.standing }
    {
        self.line.len()
    }

    /// The client at `place`, from 0, doesn't stand in line any more.
    pub(crate) fn leave_line(&mut self, place: usize)
        ensures left { self.new ≡ record self.old { line = after (leaves place) self.old.line } }
        ensures goes_on { LineGoesOn self.old.line self.new.line }
    {
        leave_line(&mut self.line, place);
    }

    /// The client at `place`, from 0, stands in line for a turn of the `channel` of this number, unless it does already. Fails only
    /// if an allocation fails.
    pub(crate) fn join_line(&mut self, place: usize, channel: usize) -> Result<(), AllocError>
        ensures ok { OnOk result (self.new ≡ record self.old {
          line = after (joins place channel) self.old.line;
        }) }
        ensures err { OnErr result (self.new ≡ self.old) }
        ensures goes_on { LineGoesOn self.old.line self.new.line }
    {
        join_line(&mut self.line, place, channel)
    }

    /// Whether the client at `place`, from 0, stands in line: who does isn't given up for others.
    pub(crate) fn is_in_line(&self, place: usize) -> bool
        ensures { result ≡ is_in_line place self.now.line.standing }
    {
        self.line.has(place)
    }

    /// The place of the client whose time to ask, and then to take its reply, is up at `now`.
    pub(crate) fn late(&self, now: Instant) -> Option<usize>
        ensures { result ≡ first_that (is_overdue now self.now.line) self.now.served }
    {
        self.served.overdue(now, &self.line)
    }

    /// The place of the client whose time to end is up at `now`.
    pub(crate) fn late_to_end(&self, now: Instant) -> Option<usize>
        ensures { result ≡ first_that (is_overdue now self.now.line) self.now.ending }
    {
        self.ending.overdue(now, &self.line)
    }

    /// Takes out the first client whose bytes had no room before `now`, and gives its place.
    pub(crate) fn take_short(&mut self, now: Instant) -> Option<usize>
        ensures first { result ≡ first_that (is_overdue now self.old.line) self.old.short }
        ensures taken { IfSome result (λ place.
            self.new.short ≡ filter (is_elsewhere place) self.old.short) }
        ensures rest { self.new ≡ record self.old { short = self.new.short } }
    {
        let place = self.short.overdue(now, &self.line)?;
        self.short.remove(place);
        Some(place)
    }

    /// The place of the client that is given up at `now` if bytes have no room, by what `connections` hold.
    pub(crate) fn gives_room(&self, connections: &Connections, now: Instant) -> Option<usize>
        ensures { result ≡ gives_room connections.now now self.now.line self.now.heard }
    {
        self.heard.for_bytes(connections, now, &self.line)
    }

    /// The place of the client that is given up if replies have no room, by what `connections` have left of them.
    pub(crate) fn gives_text(&self, connections: &Connections) -> Option<usize>
        ensures { result ≡ gives_text connections.now self.now.took }
    {
        self.took.for_texts(connections)
    }

    /// The place of the client that is given up for one that comes, by what `connections` hold.
    pub(crate) fn gives_place(&self, connections: &Connections) -> Option<usize>
        ensures { result ≡ gives_place connections.now self.now.served self.now.ending }
    {
        self.served.for_place(&self.ending, connections)
    }

    /// The place of the client that has asked longest, by what `connections` hold.
    pub(crate) fn asked_longest(&self, connections: &Connections) -> Option<usize>
        ensures { result ≡ first_that (asks connections.now) self.now.served }
    {
        self.served.asked_longest(connections)
    }

    /// The client at `place`, from 0, leaves `connections`, if one is there.
    pub(crate) fn leave(&self, connections: &mut Connections, place: usize)
        ensures leaves { MayLeave place connections.old connections.new }
        ensures left { HasLeft (client_at self.now.at place) place connections.new }
        ensures run { HasRun connections.old connections.new }
    {
        if let Some(Some(client)) = self.at.get(place) {
            if client.place() == place {
                client.leave(connections);
            }
        }
    }

    /// Has the system say, by `registry`, when the client at `place`, from 0, is ready: `again`, or if it doesn't already. False
    /// if it can't.
    pub(crate) fn watch(&mut self, registry: &Registry, place: usize, again: bool) -> bool
        ensures { IsWatched place self.old self.new }
    {
        let Some(seat) = self.at.get_mut(place) else {
            return true;
        };
        let Some(client) = seat else {
            return true;
        };
        if again {
            client.watch(registry)
        } else {
            client.keep_watched(registry)
        }
    }

    /// Ends what is sent to the client at `place`, from 0, as `Client::end` does; it `was_granted` what it asked. `Done` if nobody is
    /// there.
    pub(crate) fn end(&mut self, place: usize, was_granted: bool) -> Turn
        ensures over { result ≢ Turn.Done → is_over (client_at self.new.at place) ≡ true }
        ensures others { OthersAreThere place self.old.at self.new.at }
        ensures rest { self.new ≡ record self.old { at = self.new.at } }
    {
        let Some(seat) = self.at.get_mut(place) else {
            return Turn::Done;
        };
        let Some(client) = seat else {
            return Turn::Done;
        };
        client.end(was_granted)
    }

    /// Gives the client that has the `call` its turn over `connections`, if one is there. `block` is room for a read.
    pub(crate) fn give_turn(
        &mut self,
        call: &Call,
        connections: &mut Connections,
        block: &mut [u8],
    ) -> Turned
        requires { 0 < length block.old }
        ensures place { result.place ≡ call.now }
        ensures turn { HadTurn ⟦<Socket as Incoming>⟧.stand ⟦<Socket as Outgoing>⟧.stand (length block.old)
            call.now (client_at self.old.at call.now) self.old.at self.new.at
            connections.old connections.new result.turn }
        ensures before { IfSome result.turn (λ _. IsNotedBefore
            (client_at self.old.at call.now) (at connections.old call.now)
            result.was_ending result.was_asking result.was_left) }
        ensures done { result.turn ≡ Some Turn.Done → result.was_ending ≡ false →
            left_of (at connections.new call.now) ≡ [] }
        ensures others { OthersStay call.now connections.old connections.new }
        ensures rest { self.new ≡ record self.old { at = self.new.at } }
        ensures run { HasRun connections.old connections.new }
    {
        let place = call.place();
        let nobody = Turned {
            place,
            turn: None,
            was_ending: false,
            was_asking: false,
            was_left: 0,
        };
        let Some(seat) = self.at.get_mut(place) else {
            return nobody;
        };
        let Some(client) = seat else {
            return nobody;
        };
        if client.place() != place {
            return nobody;
        }
        let was_ending = client.is_ending();
        let was_asking = connections.is_asking(place);
        let was_left = connections.left_at(place);
        let turn = client.take_turn(call, connections, block);
        Turned {
            place,
            turn: Some(turn),
            was_ending,
            was_asking,
            was_left,
        }
    }

    /// Reads `part` of its request once from the client that sends it, if one is there, into `connections`. `block` is room for a
    /// read.
    pub(crate) fn hear_part(
        &mut self,
        part: &Part,
        connections: &mut Connections,
        block: &mut [u8],
    ) -> Option<Turn>
        requires { 0 < length block.old }
        ensures heard { HadPartRead ⟦<Socket as Incoming>⟧.stand part.now.place
            (client_at self.old.at part.now.place) self.old.at self.new.at
            connections.old connections.new result }
        ensures done { result ≡ Some Turn.Done → ⊥ }
        ensures rest { self.new ≡ record self.old { at = self.new.at } }
        ensures run { HasRun connections.old connections.new }
    {
        let place = part.place();
        let Some(seat) = self.at.get_mut(place) else {
            return None;
        };
        let Some(client) = seat else {
            return None;
        };
        if client.place() != place {
            return None;
        }
        Some(client.hear_part(part, connections, block))
    }

    /// Calls the one whose turn it is of those that stand in line, and gives it its turn over `connections`, with `block`, as
    /// `give_turn` does. `None` if nobody stands there.
    pub(crate) fn call_next(
        &mut self,
        connections: &mut Connections,
        block: &mut [u8],
    ) -> Option<Turned>
        requires { 0 < length block.old }
        ensures called { option_map (λ t. t.place) result ≡ place_of (next self.old.line) }
        ensures nobody { result ≡ None →
            (self.new ≡ self.old) × (connections.new ≡ connections.old) }
        ensures turn { IfSome result (λ turned.
            HadTurn ⟦<Socket as Incoming>⟧.stand ⟦<Socket as Outgoing>⟧.stand (length block.old)
            turned.place (client_at self.old.at turned.place) self.old.at self.new.at
            connections.old connections.new turned.turn) }
        ensures done { IfSome result (λ turned.
            turned.turn ≡ Some Turn.Done → turned.was_ending ≡ false →
            left_of (at connections.new turned.place) ≡ []) }
        ensures others { IfSome result (λ turned.
            OthersStay turned.place connections.old connections.new) }
        ensures rest { IfSome result (λ turned.
            self.new ≡ record self.old { at = self.new.at; line = after calls self.old.line }) }
        ensures line { LineIsCalled self.old.line self.new.line }
        ensures run { HasRun connections.old connections.new }
    {
        let call = next_call(&mut self.line)?;
        Some(self.give_turn(&call, connections, block))
    }

    /// From the instant `now` on the client at `place`, from 0, has its time to ask, or to take its reply. Fails only if an allocation
    /// fails.
    pub(crate) fn give_time(&mut self, place: usize, now: Instant) -> Result<(), AllocError>
        ensures ok { OnOk result (IsLastFor serving_nanos now place self.old.served self.new.served) }
        ensures err { OnErr result (self.new.served
            ≡ filter (is_elsewhere place) self.old.served) }
        ensures rest { self.new ≡ record self.old { served = self.new.served } }
    {
        client_comes_last(&mut self.served, place, serving_deadline(now))
    }

    /// From the instant `now` on the client at `place`, from 0, has its time to end. Fails only if an allocation fails.
    pub(crate) fn await_end(&mut self, place: usize, now: Instant) -> Result<(), AllocError>
        ensures ok { OnOk result (IsLastFor ending_nanos now place self.old.ending self.new.ending) }
        ensures err { OnErr result (self.new.ending
            ≡ filter (is_elsewhere place) self.old.ending) }
        ensures rest { self.new ≡ record self.old { ending = self.new.ending } }
    {
        client_comes_last(&mut self.ending, place, ending_deadline(now))
    }

    /// The client at `place`, from 0, waits for room for its bytes from the instant `now` on. Fails only if an allocation fails.
    pub(crate) fn await_room(&mut self, place: usize, now: Instant) -> Result<(), AllocError>
        ensures ok { OnOk result (self.new.short ≡ filter (is_elsewhere place) self.old.short
            ++ record { place = place; until = now } ∷ []) }
        ensures err { OnErr result (self.new.short
            ≡ filter (is_elsewhere place) self.old.short) }
        ensures rest { self.new ≡ record self.old { short = self.new.short } }
    {
        client_comes_last(&mut self.short, place, now)
    }

    /// Something came of the client at `place`, from 0, at the instant `now`: for a while it isn't quiet. Fails only if an
    /// allocation fails.
    pub(crate) fn note_heard(&mut self, place: usize, now: Instant) -> Result<(), AllocError>
        ensures ok { OnOk result (IsLastFor quiet_nanos now place self.old.heard self.new.heard) }
        ensures err { OnErr result (self.new.heard
            ≡ filter (is_elsewhere place) self.old.heard) }
        ensures rest { self.new ≡ record self.old { heard = self.new.heard } }
    {
        client_comes_last(&mut self.heard, place, quiet_deadline(now))
    }

    /// The client at `place`, from 0, has a reply, or took bytes of it, at the instant `now`: of all that are answered it is the
    /// last to be given up for memory. Fails only if an allocation fails.
    pub(crate) fn note_took(&mut self, place: usize, now: Instant) -> Result<(), AllocError>
        ensures ok { OnOk result (self.new.took ≡ filter (is_elsewhere place) self.old.took
            ++ record { place = place; until = now } ∷ []) }
        ensures err { OnErr result (self.new.took
            ≡ filter (is_elsewhere place) self.old.took) }
        ensures rest { self.new ≡ record self.old { took = self.new.took } }
    {
        client_comes_last(&mut self.took, place, now)
    }
}

// The client at `place` comes last of `arrivals`, and stands there once, with the instant `until`.
fn client_comes_last(
    arrivals: &mut Arrivals,
    place: usize,
    until: Instant,
) -> Result<(), AllocError>
    ensures ok { OnOk result (arrivals.new ≡ filter (is_elsewhere place) arrivals.old
        ++ record { place = place; until = until } ∷ []) }
    ensures err { OnErr result (arrivals.new ≡ filter (is_elsewhere place) arrivals.old) }
{
    arrivals.remove(place);
    arrivals.push(place, until)
}

// The client at `place` doesn't stand in `line` any more.
fn leave_line(line: &mut Line, place: usize)
    ensures left { line.new ≡ after (leaves place) line.old }
    ensures goes_on { LineGoesOn line.old line.new }
{
    line.leave(place);
}

// The client at `place` stands in `line` for a turn of the `channel` of this number.
fn join_line(line: &mut Line, place: usize, channel: usize) -> Result<(), AllocError>
    ensures ok { OnOk result (line.new ≡ after (joins place channel) line.old) }
    ensures err { OnErr result (line.new ≡ line.old) }
    ensures goes_on { LineGoesOn line.old line.new }
{
    line.join(place, channel)
}

// Calls the one whose turn it is of those that stand in `line`.
fn next_call(line: &mut Line) -> Option<Call>
    ensures call { result ≡ place_of (next line.old) }
    ensures line { line.new ≡ after calls line.old }
    ensures called { LineIsCalled line.old line.new }
{
    line.call_next()
}

fn no_socket_clients(alloc: Global) -> Result<Vec<Option<Client<Socket>>>, AllocError>
    ensures { IfOk result (λ clients. clients.items ≡ replicate place_count None) }
{
    let mut clients = Vec::with_capacity(alloc, PLACES)?;
    for _ in 0..PLACES {
        clients.push(None)?;
    }
    Ok(clients)
}

/// Whether the client at `place` of `connections`, from 0, was granted what it asked: the status of its reply is
/// below 300.
pub fn was_socket_granted(connections: &Connections, place: usize) -> bool
    ensures { result ≡ is_granted (at connections.now place) }
{
    match connections.phase(place) {
        Phase::Answering(status) => status < 300,
        _ => false,
    }
}

/// The fault of the client at `place` of `connections`, from 0, that is given up: `Read` if it asks, `Write` if it is
/// answered; `None` if nobody is there.
pub fn fault_at_socket(connections: &Connections, place: usize) -> Option<EdgeFault>
    ensures { result ≡ fault_of_leaver (at connections.now place) }
{
    match connections.phase(place) {
        Phase::Asking => Some(EdgeFault::Read),
        Phase::Answering(_) => Some(EdgeFault::Write),
        Phase::Vacant => None,
    }
}
