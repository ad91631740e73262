//! A client, from its first byte to its end. Its device is read and written to here alone.
ghost use Rattle.std.specs.Prelude.{◌≡◌, ◌<◌, ◌+◌, ◌≢◌, ◌⊎◌, [], Some, None, length, max, min, true, false, IfSome};
ghost use Rattle.connections.specs.declared.devices.Passage.TheVariants.{WouldWait};
ghost use Rattle.connections.specs.Arrivals.{is_asking};
ghost use Rattle.connections.specs.Clients.{ConnectionHasEnded, HasFewCalls, HasToWait, IsWhen, TurnComesTo};
ghost use Rattle.connections.specs.Limits.{most_held, drains_in_turn};
ghost use Rattle.connections.specs.Runs.{HasRun};
ghost use Rattle.connections.specs.Table.{Happens, at, departure, has_room, held_in};
ghost use Rattle.connections.specs.Turns.{CalledAtMost, CalledOnce, HasFoundMore, HasNoMore, IfGone, MovedEach};
ghost use Rattle.connections.specs.Wires.{GoesHeard, HasHeard, HasHeardAtMost};

use crate::devices::{Ending, Incoming, Looking, Outgoing, Passage, Socket};
use crate::line::{Call, Part, When};
use crate::seats::Seat;
use crate::table::{Connections, Outlook};
use crate::turns::{Turn, drain, is_client_read_out, listen, speak};
use crate::wire::{Moved, hear};
use http_edge::EdgeFault;
use mio::{Registry, Token};
use std::marker::Model;

/// A client at its seat, with its device.
#[derive(Drop)]
pub struct Client<T> {
    device: T,
    seat: Seat<T>,
    // Whether its reply is gone, or it is given up, so that its end alone is awaited.
    is_ending: bool,
    // Whether the system was asked to tell when it is ready.
    is_watched: bool,
}

impl<T> Model for Client<T> {
    ghost use Rattle.connections.specs.Clients.{ClientAt};

    ghost Value = { ClientAt T };

    ghost view = { λ c. record { device = c.device; place = c.seat; is_ending = c.is_ending; is_watched = c.is_watched } };
}

impl<T> Client<T> {
    /// The client at `seat` whose device is `device`. It asks.
    pub fn new(device: T, seat: Seat<T>) -> Client<T>
        ensures { result ≡ record { device = device; place = seat; is_ending = false; is_watched = false } }
    {
        Client {
            device,
            seat,
            is_ending: false,
            is_watched: false,
        }
    }

    /// The client's place.
    pub fn place(&self) -> usize
        ensures { result ≡ self.now.place }
    {
        self.seat.place()
    }

    /// Whether its end alone is awaited.
    pub fn is_ending(&self) -> bool
        ensures { result ≡ self.now.is_ending }
    {
        self.is_ending
    }

    /// The client is given up, or its reply is gone: nothing is at its place in `connections` any more.
    pub fn leave(&self, connections: &mut Connections)
        ensures goes { Happens connections.old (departure self.now.place) connections.new }
        ensures run { HasRun connections.old connections.new }
    {
        connections.remove(&self.seat);
    }
}

impl<T: Drop> Client<T> {
    /// Closes its device. Its seat is another one's then.
    pub fn close(self) -> Seat<T>
        ensures { result ≡ self.place }
    {
        let Client { seat, .. } = self;
        seat
    }
}

impl<T: Looking> Client<T> {
    // When a client that asks has its turn.
    fn when_it_sends(&mut self, connections: &Connections, block: &mut [u8]) -> When
        requires room { 0 < length block.old }
        requires not_ending { self.old.is_ending ≡ false }
        requires asking { is_asking (at connections.now self.old.place) ≡ true }
        ensures place { self.new.place ≡ self.old.place }
        ensures is_ending { self.new.is_ending ≡ self.old.is_ending }
        ensures is_watched { self.new.is_watched ≡ self.old.is_watched }
        ensures unread { (T.stand self.new.device).bytes ≡ (T.stand self.old.device).bytes }
        ensures turn { IsWhen T.stand self.old self.new.device connections.now result }
        ensures once { CalledOnce (T.stand self.old.device).calls (T.stand self.new.device).calls }
    {
        let count = match self.device.look(block) {
            Passage::Bytes(count) => count,
            Passage::WouldWait => return When::NotYet,
            Passage::HasFailed => return When::Failed(EdgeFault::Read),
        };
        let place = self.seat.place();
        match connections.foresee(place, &block[..count]) {
            Ok(Outlook::Read) => When::AtOnce(Call::new(place)),
            Ok(Outlook::Part) => When::Part(Part { place, count }),
            Ok(Outlook::Turn(channel)) => When::InLine(channel),
            Err(_) => When::NoMemory,
        }
    }

    /// When the client has its turn. `AtOnce` only if it can't hold the others: its end alone is awaited, or it is
    /// answered, or what it said and what it sends now begin with a whole request that reads a playlist that stands. What
    /// it sends is looked at, by `block`, and left unread. `Part` if its request isn't whole with that, also if it has ended;
    /// `InLine` if it is, with the number of the channel whose turn it takes; `NotYet` if it sends nothing; `Failed` if the look
    /// failed: `Read`. `NoMemory` only if an allocation failed. `connections` have what it said.
    pub fn when(&mut self, connections: &Connections, block: &mut [u8]) -> When
        requires { 0 < length block.old }
        ensures place { self.new.place ≡ self.old.place }
        ensures is_ending { self.new.is_ending ≡ self.old.is_ending }
        ensures is_watched { self.new.is_watched ≡ self.old.is_watched }
        ensures unread { (T.stand self.new.device).bytes ≡ (T.stand self.old.device).bytes }
        ensures turn { IsWhen T.stand self.old self.new.device connections.now result }

        // What its one look came to is not dropped for another look.
        ensures once { (self.new.device ≡ self.old.device)
            ⊎ CalledOnce (T.stand self.old.device).calls (T.stand self.new.device).calls }
    {
        let place = self.seat.place();
        if self.is_ending || !connections.is_asking(place) {
            return When::AtOnce(Call::new(place));
        }
        self.when_it_sends(connections, block)
    }

    /// When the client has its turn, though its time is up: as `when` says, by what `connections` have of it and a look by
    /// `block`. `None` if it is given up: it is answered and its reply isn't gone yet, or it asks and nothing that it sent
    /// is unread. So none is given up whose request is whole.
    pub fn when_late(&mut self, connections: &Connections, block: &mut [u8]) -> Option<When>
        requires { 0 < length block.old }
        ensures place { self.new.place ≡ self.old.place }
        ensures is_ending { self.new.is_ending ≡ self.old.is_ending }
        ensures is_watched { self.new.is_watched ≡ self.old.is_watched }
        ensures unread { (T.stand self.new.device).bytes ≡ (T.stand self.old.device).bytes }

        // It is given up only if a look would wait, or if it is answered.
        ensures given_up { result ≡ None →
            is_asking (at connections.now self.old.place) ≡ true →
            (T.stand self.new.device).calls.last ≡ Some WouldWait }
        ensures answered { is_asking (at connections.now self.old.place) ≡ false → result ≡ None }

        // Else it has something unread, has ended, or is gone.
        ensures turn { IfSome result (IsWhen T.stand self.old self.new.device connections.now) }
        ensures sends { result ≡ Some When.NotYet → ⊥ }
        ensures once { (self.new.device ≡ self.old.device)
            ⊎ CalledOnce (T.stand self.old.device).calls (T.stand self.new.device).calls }
    {
        if !connections.is_asking(self.seat.place()) {
            return None;
        }
        match self.when(connections, block) {
            When::NotYet => None,
            when => Some(when),
        }
    }
}

impl<T: Incoming> Client<T> {
    /// Reads once `part`, which `when` saw of the client's request: no more bytes than those that it saw, or one to see an end. `Goes` if it gave bytes, which are what the client said to `connections`; `Waits` if it would wait; `Full` if
    /// so many bytes have no room, as `Connections::has_room` says. `block` is room for a read.
    pub fn hear_part(
        &mut self,
        part: &Part,
        connections: &mut Connections,
        block: &mut [u8],
    ) -> Turn
        requires called { part.now.place ≡ self.old.place }
        requires room { 0 < length block.old }
        ensures place { self.new.place ≡ self.old.place }
        ensures is_ending { self.new.is_ending ≡ self.old.is_ending }
        ensures is_watched { self.new.is_watched ≡ self.old.is_watched }

        // What it said is what its device gave, and no more than was seen.
        ensures heard { result ≡ Turn.Goes → HasHeard (T.stand self.old.device) (T.stand self.new.device)
            self.old.place connections.old connections.new }
        ensures few { result ≡ Turn.Goes → HasHeardAtMost (max 1 part.now.count)
            self.old.place connections.old connections.new }
        ensures waits { result ≡ Turn.Waits →
            (T.stand self.new.device).calls.last ≡ Some WouldWait }
        ensures stays { result ≡ Turn.Waits → connections.new ≡ connections.old }
        ensures room_left { result ≡ Turn.Goes → has_room connections.old self.old.place
            (min (max 1 part.now.count) (length block.old)) ≡ true }
        ensures full { result ≡ Turn.Full → (connections.new ≡ connections.old)
            × ((has_room connections.old self.old.place
            (min (max 1 part.now.count) (length block.old)) ≡ false)
            ⊎ (most_held < held_in connections.old.places + max 1 part.now.count)) }
        ensures unread { result ≡ Turn.Full → self.new ≡ self.old }
        ensures gone { IfGone result (λ fault. GoesHeard fault (T.stand self.old.device)
            (T.stand self.new.device)
            (at connections.old self.old.place)) }
        ensures done { result ≡ Turn.Done → ⊥ }

        // Who goes is at its place no more, and the others are as they were.
        ensures goes { IfGone result (λ fault.
            Happens connections.old (departure self.old.place) connections.new) }
        ensures run { HasRun connections.old connections.new }
    {
        let most = part.count.max(1).min(block.len());
        if !connections.has_room(self.seat.place(), most) {
            return Turn::Full;
        }
        match hear(
            &mut self.device,
            connections,
            &self.seat,
            &mut block[..most],
        ) {
            Moved::Some | Moved::Nothing => Turn::Goes,
            Moved::Waits => Turn::Waits,
            Moved::Full => Turn::Full,
            Moved::Failed(fault) => Turn::Failed(fault),
        }
    }
}

impl<T: Incoming + Outgoing> Client<T> {
    #[tactic(auto, using(crate::proofs::Leading::and_then))]
    /// Gives the client its turn, to which it has a `call`: it is heard until its request is whole, then its reply is written, and once it is
    /// ending what it sends is passed over. A client that asks still would have to wait, has no room, or gave bytes at each of 4 reads. `connections` have what it said and what is left of its reply; `block` is room
    /// for a read.
    pub fn take_turn(
        &mut self,
        call: &Call,
        connections: &mut Connections,
        block: &mut [u8],
    ) -> Turn
        requires called { call.now ≡ self.old.place }
        requires room { 0 < length block.old }
        ensures place { self.new.place ≡ self.old.place }
        ensures is_ending { self.new.is_ending ≡ self.old.is_ending }
        ensures is_watched { self.new.is_watched ≡ self.old.is_watched }

        // What it said and took is what went through its device, in order; and how far it came.
        ensures turn { self.old.is_ending ≡ false →
            TurnComesTo T.Incoming.stand T.Outgoing.stand
            self.old.place self.old.device self.new.device connections.old connections.new result }
        ensures short { self.old.is_ending ≡ false →
            HasFewCalls T.Incoming.stand T.Outgoing.stand self.old.device self.new.device }
        ensures full { result ≡ Turn.Full →
            most_held < held_in connections.new.places + length block.old }
        ensures waits { result ≡ Turn.Waits →
            HasToWait T.Incoming.stand T.Outgoing.stand
            self.old.place self.old.device self.new.device connections.old connections.new }

        // Once it is ending, nothing of it is heard or told, and nothing that it does is a fault.
        ensures passed { self.old.is_ending ≡ true → connections.new ≡ connections.old }
        ensures drained { self.old.is_ending ≡ true → result ≡ Turn.Goes →
            MovedEach drains_in_turn (T.Incoming.stand self.old.device).calls
            (T.Incoming.stand self.new.device).calls }
        ensures ended { self.old.is_ending ≡ true → result ≡ Turn.Done →
            HasNoMore (T.Incoming.stand self.new.device).calls.last }
        ensures stays { self.old.is_ending ≡ true → IfGone result (λ fault. ⊥) }
        ensures fits { self.old.is_ending ≡ true → result ≡ Turn.Full → ⊥ }
        ensures few { self.old.is_ending ≡ true →
            CalledAtMost drains_in_turn (T.Incoming.stand self.old.device).calls
            (T.Incoming.stand self.new.device).calls }
        ensures run { HasRun connections.old connections.new }
    {
        if self.is_ending {
            return drain(&mut self.device);
        }
        if connections.is_asking(call.place()) {
            match listen(&mut self.device, connections, &self.seat, block) {
                Turn::Done => {}
                other => return other,
            }
        }
        speak(&mut self.device, connections, &self.seat)
    }
}

impl<T: Incoming + Ending> Client<T> {
    /// Ends what is sent to a client whose reply is gone, or that is given up. `Done` if it `was_granted` what it
    /// asked and nothing of what it sent is unread; else its end alone is awaited from now on, and what it sends is passed
    /// over.
    pub fn end(&mut self, was_granted: bool) -> Turn
        ensures place { self.new.place ≡ self.old.place }
        ensures is_watched { self.new.is_watched ≡ self.old.is_watched }
        ensures is_ending { was_granted ≡ false → self.new.is_ending ≡ true }
        ensures goes_on { result ≢ Turn.Done → self.new.is_ending ≡ true }
        ensures waits { result ≡ Turn.Waits →
            (T.Incoming.stand self.new.device).calls.last ≡ Some WouldWait }
        ensures done { result ≡ Turn.Done → ConnectionHasEnded was_granted
            (T.Incoming.stand self.new.device).calls.last }
        ensures room { result ≡ Turn.Full → ⊥ }
        ensures stays { IfGone result (λ fault. ⊥) }

        // Who was granted what it asked is awaited only over something unread, or a failed read.
        ensures granted { was_granted ≡ true → result ≢ Turn.Done →
            HasFoundMore (T.Incoming.stand self.old.device).calls
            (T.Incoming.stand self.new.device).calls }
        ensures few { CalledAtMost (drains_in_turn + 1) (T.Incoming.stand self.old.device).calls
            (T.Incoming.stand self.new.device).calls }
    {
        if was_granted && is_client_read_out(&mut self.device) {
            return Turn::Done;
        }
        self.device.end_output();
        self.is_ending = true;
        drain(&mut self.device)
    }
}

impl Client<Socket> {
    /// Has the system say, by `registry`, when the client is ready. False if it can't.
    pub fn watch(&mut self, registry: &Registry) -> bool
        ensures place { self.new.place ≡ self.old.place }
        ensures is_ending { self.new.is_ending ≡ self.old.is_ending }
        ensures is_watched { self.new.is_watched ≡ true }
        ensures device { self.new.device ≡ self.old.device }
    {
        let token = Token(self.seat.place());
        let was_watched = self.is_watched;
        self.is_watched = true;
        self.device.register(registry, token, was_watched)
    }

    /// Has the system say, by `registry`, when the client is ready, if it doesn't already. False if it can't.
    pub fn keep_watched(&mut self, registry: &Registry) -> bool
        ensures place { self.new.place ≡ self.old.place }
        ensures is_ending { self.new.is_ending ≡ self.old.is_ending }
        ensures is_watched { self.new.is_watched ≡ true }
        ensures device { self.new.device ≡ self.old.device }
        ensures kept { self.old.is_watched ≡ true → result ≡ true }
    {
        self.is_watched || self.watch(registry)
    }
}
