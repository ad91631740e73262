//! Whose turn it is of all clients, who is let in, and whose time is up.
#![tactic(auto, using(connections::proofs::Leading::stays, connections::proofs::Leading::by_one, connections::proofs::Leading::and_then, connections::proofs::Calling::line_stays, connections::proofs::Calling::line_goes_on, connections::proofs::Calling::goes_on_after_call, connections::proofs::Calling::is_called_after, connections::proofs::Calling::called_again))]

ghost use Rattle.std.specs.Prelude.{◌≡◌, ◌<◌, ◌-◌, ◌⊎◌, ℕ, List, length, true, false, None, Some, IfSome};
ghost use Rattle.std.specs.Duration.{as_nanos};
ghost use Rattle.std.specs.declared.time.Duration.{Duration as Time};
ghost use Rattle.adsplice.specs.Inner.Serving.{ComesLast, GivesSeat, IsClosed, IsHeard, IsServedAtOnce, IsSettled, LineIsServed, LongestGoes, NextIsServed, client_at, is_awaited, is_full, is_last_call, is_over};
ghost use Rattle.connections.specs.declared.arrivals.Arrival.{Arrival};
ghost use Rattle.connections.specs.Arrivals.{first_that, gives_room, gives_text, is_asking, is_overdue};
ghost use Rattle.connections.specs.Clients.{IfAtOnce, IfInLine, IfLookFailed};
ghost use Rattle.connections.specs.Inner.Going.{LineGoesOn};
ghost use Rattle.connections.specs.Limits.{place_count};
ghost use Rattle.connections.specs.Lines.{LineIsCalled, after, joins, leaves, next, place_of};
ghost use Rattle.connections.specs.Runs.{HasRun};
ghost use Rattle.connections.specs.Table.{at};

use crate::clients::Clients;
use crate::door::{Door, Opened};
use crate::faults::Faults;
use connections::{
    Admission, Call, Client, Connections, Incoming, MAX_REPLIES, NonBlocking, Outgoing, PLACES,
    Part, Phase, Seat, Socket, Turn, When, has_come,
};
use http_edge::{EdgeFault, MAX_CHANNELS};
use mio::net::TcpStream;
use mio::{Events, Token};
use std::io;
use std::marker::Model;
use std::time::{Duration, Instant};

// How many clients are let in before the others have their turn again.
const LET_IN: u32 = 64;

// How many parts of a client's request are read before the others have their turn.
const PARTS: u32 = 4;

// Milliseconds from one tick to the next.
const TICK_MILLIS: u64 = 50;

/// The clients, what the system opened, and how many more are let in.
#[derive(Drop)]
pub struct Server {
    pub(crate) clients: Clients,
    pub(crate) opened: Opened,
    pub(crate) faults: Faults,
    admission: Admission,
    door: Door,
    next_tick: Instant,
}

impl Model for Server {
    ghost use Rattle.mio.specs.declared.net.stream.TcpStream.{TcpStream as Stream};
    ghost use Rattle.adsplice.specs.Clients.{ClientsState};
    ghost use Rattle.connections.specs.Devices.{Calls};

    ghost Value = { ClientsState (Stream × Calls) };

    ghost view = { λ s. s.clients };
}

fn server_tick_after(now: Instant) -> Instant {
    match now.checked_add(Duration::from_millis(TICK_MILLIS)) {
        Some(then) => then,
        None => now,
    }
}

impl Server {
    /// A server that has nobody yet of `clients`, and lets in `count` connections of those that come to what was
    /// `opened`. It tells `faults` on standard error.
    pub fn new(clients: Clients, opened: Opened, faults: Faults, count: u32) -> Server
        ensures { result ≡ clients }
    {
        let next_tick = opened.now;
        Server {
            clients,
            opened,
            faults,
            admission: Admission::new(count),
            door: Door::Open,
            next_tick,
        }
    }

    /// Whether all came that are let in, and none of them is there any more.
    pub fn is_over(&self) -> bool {
        self.admission.is_over(self.clients.present())
    }

    /// Writes the line of the fault `text` to standard error, unless that would wait.
    pub fn tell(&mut self, rt: &HostRuntime, text: &str)
        ensures { self.new ≡ self.old }
    {
        self.faults.tell(rt, text);
    }

    // How long may be waited for the next event.
    fn patience(&self) -> Option<Duration>
        ensures none { 0 < length self.now.line.standing →
            (time : Time) × (result ≡ Some time) × (as_nanos time ≡ 0) }
        ensures endless { result ≡ None → place_count - length self.now.vacant ≡ 0 }
    {
        if self.clients.waiting() > 0 {
            return Some(Duration::from_millis(0));
        }
        match self.door {
            Door::Open => Some(Duration::from_millis(0)),
            Door::Quiet if self.clients.present() == 0 => None,
            _ => Some(Duration::from_millis(TICK_MILLIS)),
        }
    }

    /// Waits until a client is ready, or a tick has passed. `events` has the clients that are ready.
    pub fn wait(&mut self, rt: &HostRuntime, events: &mut Events) -> io::Result<()>
        ensures { self.new ≡ self.old }
    {
        let patience = self.patience();
        self.opened.wait(rt, events, patience)
    }

    // Gives up the client that is quiet at the instant `now`, and of which something came longest ago. Whether there is one.
    fn give_up_for_room(
        &mut self,
        rt: &HostRuntime,
        connections: &mut Connections,
        now: Instant,
    ) -> bool
        ensures goes { (place : ℕ) →
            gives_room connections.old now self.old.line self.old.heard ≡ Some place →
            (is_over (client_at self.new.at place) ≡ true)
            × IsSettled place self.old self.new connections.old connections.new }
        ensures nobody { gives_room connections.old now self.old.line self.old.heard ≡ None →
            (self.new ≡ self.old) × (connections.new ≡ connections.old) }
        ensures run { HasRun connections.old connections.new }
        ensures line { LineGoesOn self.old.line self.new.line }
    {
        let Some(place) = self.clients.gives_room(connections, now) else {
            return false;
        };
        self.give_up(rt, connections, place);
        true
    }

    // For each client whose bytes have no room one is given up that is quiet, and of whose bytes some are held.
    fn make_room(&mut self, rt: &HostRuntime, connections: &mut Connections)
        ensures run { HasRun connections.old connections.new }
        ensures line { LineGoesOn self.old.line self.new.line }
    {
        let now = self.opened.now;
        for _ in 0..self.clients.short.len() {
            if !self.give_up_for_room(rt, connections, now) {
                return;
            }
        }
    }

    // Those whose bytes had no room are heard on, as far as there is room now.
    fn hear_short(&mut self, rt: &HostRuntime, connections: &mut Connections, block: &mut [u8])
        requires { 0 < length block.old }
        ensures run { HasRun connections.old connections.new }
        ensures line { LineGoesOn self.old.line self.new.line }
    {
        for _ in 0..self.clients.short.len() {
            let Some(place) = self.clients.take_short(self.opened.now) else {
                return;
            };
            self.on_ready(rt, connections, place, block);
        }
    }

    // The same if fewer bytes are held than `held`.
    fn hear_short_if_less(
        &mut self,
        rt: &HostRuntime,
        connections: &mut Connections,
        held: usize,
        block: &mut [u8],
    )
        requires { 0 < length block.old }
        ensures run { HasRun connections.old connections.new }
        ensures line { LineGoesOn self.old.line self.new.line }
    {
        if connections.held() >= held {
            return;
        }
        self.hear_short(rt, connections, block);
    }

    // Gives a client its turn for a call, if one is there.
    fn serve(
        &mut self,
        rt: &HostRuntime,
        connections: &mut Connections,
        call: &Call,
        block: &mut [u8],
    )
        requires { 0 < length block.old }
        ensures served { IsServedAtOnce ⟦<Socket as Incoming>⟧.stand ⟦<Socket as Outgoing>⟧.stand
            (length block.old) call.now self.old self.new connections.old connections.new }
        ensures run { HasRun connections.old connections.new }
        ensures line { LineGoesOn self.old.line self.new.line }
    {
        let turned = self.clients.give_turn(call, connections, block);
        self.settle_turn(rt, connections, &turned);
    }

    // Disconnects the client that is answered, and that took bytes of its reply longest ago. Whether there is one.
    fn evict_for_replies(&mut self, rt: &HostRuntime, connections: &mut Connections) -> bool
        ensures goes { (place : ℕ) → gives_text connections.old self.old.took ≡ Some place →
            IsClosed place self.old self.new connections.old connections.new }
        ensures nobody { gives_text connections.old self.old.took ≡ None →
            (self.new ≡ self.old) × (connections.new ≡ connections.old) }
        ensures run { HasRun connections.old connections.new }
        ensures line { LineGoesOn self.old.line self.new.line }
    {
        let Some(place) = self.clients.gives_text(connections) else {
            return false;
        };
        self.evict(rt, connections, place);
        true
    }

    // While replies that clients haven't taken keep too much memory, the client is disconnected that took bytes longest ago.
    fn bound_replies(&mut self, rt: &HostRuntime, connections: &mut Connections)
        ensures run { HasRun connections.old connections.new }
        ensures line { LineGoesOn self.old.line self.new.line }
    {
        for _ in 0..self.clients.took.len() {
            if connections.reply_memory() <= MAX_REPLIES {
                return;
            }
            if !self.evict_for_replies(rt, connections) {
                return;
            }
        }
    }

    // Reads a part of a request. Whether its client may be heard on at once.
    fn hear(
        &mut self,
        rt: &HostRuntime,
        connections: &mut Connections,
        part: &Part,
        block: &mut [u8],
    ) -> bool
        requires { 0 < length block.old }
        ensures heard { IsHeard ⟦<Socket as Incoming>⟧.stand part.now.place
            self.old self.new connections.old connections.new result }
        ensures run { HasRun connections.old connections.new }
        ensures line { LineGoesOn self.old.line self.new.line }
    {
        let place = part.place();
        let Some(turn) = self.clients.hear_part(part, connections, block) else {
            return false;
        };
        if turn == Turn::Goes {
            // (its memory was taken before: what isn't noted isn't given up for others)
            let _ = self.clients.note_heard(place, self.opened.now);
            return true;
        }
        self.settle(rt, connections, place, turn, false);
        false
    }

    // A client has its turn at once if that is short, and else it stands in line.
    fn on_when(
        &mut self,
        rt: &HostRuntime,
        connections: &mut Connections,
        place: usize,
        when: When,
        block: &mut [u8],
    )
        requires { 0 < length block.old }
        ensures in_line { IfInLine when (λ channel.
            (self.new.line ≡ after (joins place channel) self.old.line)
            ⊎ IsClosed place self.old self.new connections.old connections.new) }
        ensures at_once { IfAtOnce when (λ call.
            IsServedAtOnce ⟦<Socket as Incoming>⟧.stand ⟦<Socket as Outgoing>⟧.stand
            (length block.old) call (record self.old { line = after (leaves place) self.old.line })
            self.new connections.old connections.new) }
        ensures not_yet { when ≡ When.NotYet → is_awaited (client_at self.new.at place) ≡ true }
        ensures failed { IfLookFailed when (λ fault.
            is_over (client_at self.new.at place) ≡ true) }
        ensures run { HasRun connections.old connections.new }
        ensures line { LineGoesOn self.old.line self.new.line }
    {
        match when {
            When::AtOnce(call) => {
                self.clients.leave_line(place);
                self.serve(rt, connections, &call, block);
            }
            When::Part(part) => {
                if self.hear(rt, connections, &part, block) {
                    self.watch(connections, place, true);
                }
            }
            When::InLine(channel) => self.stand_in_line(rt, connections, place, channel),
            When::NoMemory => self.stand_in_line(rt, connections, place, MAX_CHANNELS),
            When::NotYet => self.watch(connections, place, false),
            When::Failed(fault) => self.settle(rt, connections, place, Turn::Failed(fault), false),
        }
    }

    // A client is ready.
    fn on_ready(
        &mut self,
        rt: &HostRuntime,
        connections: &mut Connections,
        place: usize,
        block: &mut [u8],
    )
        requires { 0 < length block.old }
        ensures run { HasRun connections.old connections.new }
        ensures line { LineGoesOn self.old.line self.new.line }
    {
        for _ in 0..PARTS {
            match self.when(connections, place, block) {
                Some(When::Part(part)) => {
                    if !self.hear(rt, connections, &part, block) {
                        return;
                    }
                }
                Some(when) => {
                    self.on_when(rt, connections, place, when, block);
                    return;
                }
                None => return,
            }
        }
        self.watch(connections, place, true);
    }

    // When the client at a place has its turn, if one is there.
    fn when(&mut self, connections: &Connections, place: usize, block: &mut [u8]) -> Option<When>
        requires { 0 < length block.old }
        ensures { self.new ≡ record self.old { at = self.new.at } }
    {
        match self.clients.at.get_mut(place) {
            Some(Some(client)) => Some(client.when(connections, block)),
            _ => None,
        }
    }

    // Has a client stand in line for a turn of a channel, or closes its connection if there is no memory for that.
    fn stand_in_line(
        &mut self,
        rt: &HostRuntime,
        connections: &mut Connections,
        place: usize,
        channel: usize,
    )
        ensures stands { (self.new.line ≡ after (joins place channel) self.old.line)
            ⊎ IsClosed place self.old self.new connections.old connections.new }
        ensures run { HasRun connections.old connections.new }
        ensures line { LineGoesOn self.old.line self.new.line }
    {
        if self.clients.join_line(place, channel).is_err() {
            self.faults.tell(rt, EdgeFault::OutOfMemory.text());
            self.close(connections, place);
        }
    }

    // Calls the one whose turn it is of those that stand in line: it has its turn, and nobody else. Whether none is called after it
    // in this round: nobody stands there, or its request is answered.
    fn call_one(
        &mut self,
        rt: &HostRuntime,
        connections: &mut Connections,
        block: &mut [u8],
    ) -> bool
        requires { 0 < length block.old }
        ensures served { NextIsServed ⟦<Socket as Incoming>⟧.stand ⟦<Socket as Outgoing>⟧.stand
            (length block.old) self.old self.new connections.old connections.new }
        ensures last { result ≡ is_last_call (place_of (next self.old.line)) connections.new }
        ensures run { HasRun connections.old connections.new }
        ensures line { LineIsCalled self.old.line self.new.line }
    {
        let Some(turned) = self.clients.call_next(connections, block) else {
            return true;
        };
        self.settle_turn(rt, connections, &turned);
        !connections.is_asking(turned.place)
    }

    // Calls those that stand in line, by the turns of their channels, until the request of one is answered: at most one in a
    // round. None is called twice.
    fn call_line(&mut self, rt: &HostRuntime, connections: &mut Connections, block: &mut [u8])
        requires { 0 < length block.old }
        ensures served { LineIsServed ⟦<Socket as Incoming>⟧.stand ⟦<Socket as Outgoing>⟧.stand
            (length block.old) self.old self.new connections.old connections.new }
        ensures run { HasRun connections.old connections.new }
        ensures line { LineIsCalled self.old.line self.new.line }
    {
        if self.call_one(rt, connections, block) {
            return;
        }
        for _ in 0..self.clients.waiting() {
            if self.call_one(rt, connections, block) {
                return;
            }
        }
    }

    fn on_event(
        &mut self,
        rt: &HostRuntime,
        connections: &mut Connections,
        place: usize,
        block: &mut [u8],
    )
        requires { 0 < length block.old }
        ensures run { HasRun connections.old connections.new }
        ensures line { LineGoesOn self.old.line self.new.line }
    {
        if place == PLACES {
            self.on_somebody(rt, connections);
            return;
        }
        self.on_ready(rt, connections, place, block);
    }

    // Serves each client that an event names.
    fn serve_events(
        &mut self,
        rt: &HostRuntime,
        connections: &mut Connections,
        events: &Events,
        block: &mut [u8],
    )
        requires { 0 < length block.old }
        ensures run { HasRun connections.old connections.new }
        ensures line { LineGoesOn self.old.line self.new.line }
    {
        for event in events.iter() {
            let Token(place) = event.token();
            self.on_event(rt, connections, place, block);
        }
    }

    // Somebody waits to be let in. If no file was left for it, the client that has asked longest is disconnected.
    fn on_somebody(&mut self, rt: &HostRuntime, connections: &mut Connections)
        ensures longest { LongestGoes self.old self.new connections.old connections.new }
        ensures run { HasRun connections.old connections.new }
        ensures line { LineGoesOn self.old.line self.new.line }
    {
        if self.door != Door::NoFile {
            self.door = Door::Open;
            return;
        }
        match self.clients.asked_longest(connections) {
            Some(place) if !self.clients.is_in_line(place) => {
                self.evict(rt, connections, place);
                self.door = Door::Open;
            }
            _ => self.door = Door::Shut,
        }
    }

    // Whether nobody can be let in before a client has had its turn: no place is vacant, and the client that has asked
    // longest stands in line.
    fn is_full(&self, connections: &Connections) -> bool
        ensures { result ≡ is_full connections.now self.now }
    {
        if !self.clients.vacant.is_empty() {
            return false;
        }
        match self.clients.asked_longest(connections) {
            Some(place) => self.clients.is_in_line(place),
            None => false,
        }
    }

    // A vacant seat, for which a connection is given up if there is none.
    fn seat_for_one(
        &mut self,
        rt: &HostRuntime,
        connections: &mut Connections,
    ) -> Option<Seat<Socket>>
        ensures gives { GivesSeat self.old self.new connections.old connections.new }
        ensures run { HasRun connections.old connections.new }
        ensures line { LineGoesOn self.old.line self.new.line }
    {
        if self.clients.vacant.is_empty() {
            let place = self.clients.gives_place(connections)?;
            self.evict(rt, connections, place);
        }
        self.clients.vacant.pop()
    }

    fn seat(
        &mut self,
        rt: &HostRuntime,
        connections: &mut Connections,
        stream: TcpStream,
    ) -> Option<usize>
        ensures time { IfSome result (λ place. (before : List Arrival)
            × ComesLast place before self.new.served self.new.at) }
        ensures run { HasRun connections.old connections.new }
        ensures line { LineGoesOn self.old.line self.new.line }
    {
        let seat = self.seat_for_one(rt, connections)?;
        let place = seat.place();
        if connections.phase(place) != Phase::Vacant {
            return None;
        }
        let client = self.clients.at.get_mut(place)?;
        connections.insert(&seat);
        *client = Some(Client::new(NonBlocking::new(stream), seat));
        self.give_time(rt, connections, place);
        Some(place)
    }

    // The next client that waits, if one does.
    fn next_client(&mut self) -> Option<TcpStream>
        ensures { self.new ≡ self.old }
    {
        match self.opened.next_client() {
            Ok(stream) => Some(stream),
            Err(door) => {
                self.door = door;
                None
            }
        }
    }

    // Lets a client in, which is ready if it sent something.
    fn admit(
        &mut self,
        rt: &HostRuntime,
        connections: &mut Connections,
        stream: TcpStream,
        block: &mut [u8],
    )
        requires { 0 < length block.old }
        ensures run { HasRun connections.old connections.new }
        ensures line { LineGoesOn self.old.line self.new.line }
    {
        if self.admission.is_open() {
            self.admission.let_in();
        }
        let Some(place) = self.seat(rt, connections, stream) else {
            return;
        };
        self.on_ready(rt, connections, place, block);
    }

    // Lets in those who wait, at most `LET_IN` of them.
    fn let_in(&mut self, rt: &HostRuntime, connections: &mut Connections, block: &mut [u8])
        requires { 0 < length block.old }
        ensures run { HasRun connections.old connections.new }
        ensures line { LineGoesOn self.old.line self.new.line }
    {
        for _ in 0..LET_IN {
            if self.door != Door::Open || self.is_full(connections) {
                return;
            }
            if !self.admission.is_open() {
                self.door = Door::Quiet;
                return;
            }
            let Some(stream) = self.next_client() else {
                return;
            };
            self.admit(rt, connections, stream, block);
        }
    }

    // Closes the first client whose time to end is up at the instant `now`. Whether there is one.
    fn close_one_late(&mut self, connections: &mut Connections, now: Instant) -> bool
        ensures goes { (place : ℕ) →
            first_that (is_overdue now self.old.line) self.old.ending ≡ Some place →
            IsClosed place self.old self.new connections.old connections.new }
        ensures nobody { first_that (is_overdue now self.old.line) self.old.ending ≡ None →
            (self.new ≡ self.old) × (connections.new ≡ connections.old) }
        ensures run { HasRun connections.old connections.new }
        ensures line { LineGoesOn self.old.line self.new.line }
    {
        let Some(place) = self.clients.late_to_end(now) else {
            return false;
        };
        self.close(connections, place);
        true
    }

    // Closes those that had time to end.
    fn close_late(&mut self, connections: &mut Connections)
        ensures run { HasRun connections.old connections.new }
        ensures line { LineGoesOn self.old.line self.new.line }
    {
        let now = self.opened.now;
        for _ in 0..PLACES {
            if !self.close_one_late(connections, now) {
                return;
            }
        }
    }

    // A client's time is up: it is given up, unless it has its turn still.
    fn on_late(
        &mut self,
        rt: &HostRuntime,
        connections: &mut Connections,
        place: usize,
        block: &mut [u8],
    )
        requires { 0 < length block.old }
        ensures answered { IfSome (client_at self.old.at place) (λ client.
            is_asking (at connections.old client.place) ≡ false →
            is_over (client_at self.new.at place) ≡ true) }
        ensures run { HasRun connections.old connections.new }
        ensures line { LineGoesOn self.old.line self.new.line }
    {
        let Some(Some(client)) = self.clients.at.get_mut(place) else {
            return;
        };
        match client.when_late(connections, block) {
            Some(when) => self.on_when(rt, connections, place, when, block),
            None => self.give_up(rt, connections, place),
        }
    }

    // Looks at each client whose time is up, and that doesn't stand in line.
    fn give_up_late(&mut self, rt: &HostRuntime, connections: &mut Connections, block: &mut [u8])
        requires { 0 < length block.old }
        ensures run { HasRun connections.old connections.new }
        ensures line { LineGoesOn self.old.line self.new.line }
    {
        for _ in 0..PLACES {
            let Some(place) = self.clients.late(self.opened.now) else {
                return;
            };
            self.on_late(rt, connections, place, block);
        }
    }

    // At each tick: clients whose time is up are given up, and after an error it is tried again to let clients in.
    fn tick(&mut self, rt: &HostRuntime, connections: &mut Connections, block: &mut [u8])
        requires { 0 < length block.old }
        ensures run { HasRun connections.old connections.new }
        ensures line { LineGoesOn self.old.line self.new.line }
    {
        if !has_come(self.next_tick, self.opened.now) {
            return;
        }
        self.next_tick = server_tick_after(self.opened.now);
        if self.door == Door::Shut {
            self.door = Door::Open;
        }
        self.close_late(connections);
        self.give_up_late(rt, connections, block);
        self.make_room(rt, connections);
        self.hear_short(rt, connections, block);
    }

    /// A round over `connections`: of the clients that `events` name, and of those that are let in then, each has its
    /// turn if it reads what stands, or is answered. Of the others the first one has its request applied.
    /// If replies keep too much memory then, those are disconnected that took bytes longest ago.
    /// Those whose bytes had no room are heard on if there is some now. Then those are given up whose time is up, and of whom
    /// nothing is unread. `block` is room for a read.
    pub fn round(
        &mut self,
        rt: &HostRuntime,
        connections: &mut Connections,
        events: &Events,
        block: &mut [u8],
    )
        requires { 0 < length block.old }
        ensures run { HasRun connections.old connections.new }
        ensures line { LineIsCalled self.old.line self.new.line }
    {
        let held = connections.held();
        self.serve_events(rt, connections, events, block);
        self.let_in(rt, connections, block);
        self.call_line(rt, connections, block);
        self.bound_replies(rt, connections);
        self.hear_short_if_less(rt, connections, held, block);
        self.tick(rt, connections, block);
    }
}
