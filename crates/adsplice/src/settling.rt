//! What becomes of a client after its turn: it is watched, its end is awaited, or its connection is closed.
#![tactic(auto, using(connections::proofs::Leading::stays, connections::proofs::Leading::by_one, connections::proofs::Leading::and_then, connections::proofs::Calling::line_stays, connections::proofs::Calling::line_goes_on))]

ghost use Rattle.std.specs.Prelude.{◌≡◌, [], true, false, IfSome, Some};
ghost use Rattle.std.specs.declared.time.Instant.{Instant as Time};
ghost use Rattle.adsplice.specs.Inner.Serving.{ComesLast, FollowsTurn, IsClosed, IsNotedLast, IsSettled, client_at, has_its_wish, has_taken, is_awaited, is_over};
ghost use Rattle.connections.specs.Arrivals.{is_answered};
ghost use Rattle.connections.specs.Inner.Going.{LineGoesOn};
ghost use Rattle.connections.specs.Runs.{HasRun};
ghost use Rattle.connections.specs.Table.{at, left_of};

use crate::clients::{Turned, fault_at_socket, was_socket_granted};
use crate::server::Server;
use connections::{Connections, Turn};
use http_edge::EdgeFault;

impl Server {
    /// Closes the connection at `place` of `connections`, and has its seat for another.
    pub(crate) fn close(&mut self, connections: &mut Connections, place: usize)
        ensures closed { IsClosed place self.old self.new connections.old connections.new }
        ensures run { HasRun connections.old connections.new }
        ensures line { LineGoesOn self.old.line self.new.line }
    {
        self.clients.leave(connections, place);
        self.clients.stop_serving(place);
        self.clients.ending.remove(place);
        self.clients.give_back(place);
    }

    /// Waits for the client at `place`, asking the system `again` or if it wasn't asked. If the system can't tell of it, its
    /// connection is closed, in `connections` too.
    pub(crate) fn watch(&mut self, connections: &mut Connections, place: usize, again: bool)
        ensures awaited { is_awaited (client_at self.new.at place) ≡ true }
        ensures settled { IsSettled place self.old self.new connections.old connections.new }
        ensures run { HasRun connections.old connections.new }
        ensures line { LineGoesOn self.old.line self.new.line }
    {
        let registry = self.opened.poll.registry();
        let watched = self.clients.watch(registry, place, again);
        if watched {
            return;
        }
        self.close(connections, place);
    }

    // Ends a connection whose reply is gone, or that is given up: what its client still sends is awaited for a while.
    fn finish(&mut self, connections: &mut Connections, place: usize, was_granted: bool)
        requires { was_granted ≡ true → has_its_wish (at connections.old place) ≡ true }
        ensures over { is_over (client_at self.new.at place) ≡ true }
        ensures settled { IsSettled place self.old self.new connections.old connections.new }
        ensures run { HasRun connections.old connections.new }
        ensures line { LineGoesOn self.old.line self.new.line }
    {
        self.clients.leave(connections, place);
        self.clients.stop_serving(place);
        let turn = self.clients.end(place, was_granted);
        let is_late = self.clients.await_end(place, self.opened.now).is_err();
        match turn {
            Turn::Waits if !is_late => self.watch(connections, place, false),
            Turn::Goes if !is_late => self.watch(connections, place, true),
            _ => self.close(connections, place),
        }
    }

    // Tells the fault of a connection that is given up.
    fn tell_given_up(&mut self, rt: &HostRuntime, connections: &Connections, place: usize)
        ensures { self.new ≡ self.old }
    {
        if let Some(fault) = fault_at_socket(connections, place) {
            self.faults.tell(rt, fault.text());
        }
    }

    /// Gives up the client at `place` of `connections`, and tells its fault by `rt`.
    pub(crate) fn give_up(&mut self, rt: &HostRuntime, connections: &mut Connections, place: usize)
        ensures over { is_over (client_at self.new.at place) ≡ true }
        ensures settled { IsSettled place self.old self.new connections.old connections.new }
        ensures run { HasRun connections.old connections.new }
        ensures line { LineGoesOn self.old.line self.new.line }
    {
        let was_granted = false;
        self.tell_given_up(rt, connections, place);
        self.finish(connections, place, was_granted);
    }

    /// Gives up the client at `place` of `connections`, whose place or file another one needs, and tells its fault by `rt`.
    pub(crate) fn evict(&mut self, rt: &HostRuntime, connections: &mut Connections, place: usize)
        ensures closed { IsClosed place self.old self.new connections.old connections.new }
        ensures run { HasRun connections.old connections.new }
        ensures line { LineGoesOn self.old.line self.new.line }
    {
        self.tell_given_up(rt, connections, place);
        self.close(connections, place);
    }

    /// What becomes of the client at `place` of `connections` after this `turn`: `was_ending` before it. A fault is told by `rt`.
    pub(crate) fn settle(
        &mut self,
        rt: &HostRuntime,
        connections: &mut Connections,
        place: usize,
        turn: Turn,
        was_ending: bool,
    )
        requires { turn ≡ Turn.Done → was_ending ≡ false →
            left_of (at connections.old place) ≡ [] }
        ensures follows { FollowsTurn (Some turn) (client_at self.new.at place) }
        ensures ended { turn ≡ Turn.Done → was_ending ≡ true →
            IsClosed place self.old self.new connections.old connections.new }
        ensures full { turn ≡ Turn.Full →
            ComesLast place self.old.short self.new.short self.new.at }
        ensures settled { IsSettled place self.old self.new connections.old connections.new }
        ensures run { HasRun connections.old connections.new }
        ensures line { LineGoesOn self.old.line self.new.line }
    {
        match turn {
            Turn::Waits => self.watch(connections, place, false),
            Turn::Goes => self.watch(connections, place, true),
            Turn::Done if was_ending => self.close(connections, place),
            Turn::Done => {
                let granted = was_socket_granted(connections, place);
                self.finish(connections, place, granted);
            }
            Turn::Failed(fault) => {
                self.faults.tell(rt, fault.text());
                self.finish(connections, place, false);
            }
            Turn::Full => self.wait_for_room(rt, connections, place),
        }
    }

    /// From now on the client at `place` of `connections` has its time. If there is no memory to note that, it is closed, and `rt`
    /// tells so.
    pub(crate) fn give_time(
        &mut self,
        rt: &HostRuntime,
        connections: &mut Connections,
        place: usize,
    )
        ensures time { ComesLast place self.old.served self.new.served self.new.at }
        ensures settled { IsSettled place self.old self.new connections.old connections.new }
        ensures run { HasRun connections.old connections.new }
        ensures line { LineGoesOn self.old.line self.new.line }
    {
        if self.clients.give_time(place, self.opened.now).is_err() {
            self.faults.tell(rt, EdgeFault::OutOfMemory.text());
            self.close(connections, place);
        }
    }

    // A client whose request was applied in its turn has its time anew, if its reply isn't gone: it may have waited for the
    // server.
    fn time_reply(
        &mut self,
        rt: &HostRuntime,
        connections: &mut Connections,
        place: usize,
        was_asking: bool,
    )
        ensures anew { was_asking ≡ true → is_answered (at connections.old place) ≡ true →
            ComesLast place self.old.served self.new.served self.new.at }
        ensures in_time { was_asking ≡ false →
            (self.new ≡ self.old) × (connections.new ≡ connections.old) }
        ensures settled { IsSettled place self.old self.new connections.old connections.new }
        ensures run { HasRun connections.old connections.new }
        ensures line { LineGoesOn self.old.line self.new.line }
    {
        if was_asking && connections.is_answered(place) {
            self.give_time(rt, connections, place);
        }
    }

    /// The client at `place` of `connections` isn't heard on before there is room for its bytes. If there is no memory to note
    /// that, it is closed, and `rt` tells so.
    pub(crate) fn wait_for_room(
        &mut self,
        rt: &HostRuntime,
        connections: &mut Connections,
        place: usize,
    )
        ensures waits { ComesLast place self.old.short self.new.short self.new.at }
        ensures settled { IsSettled place self.old self.new connections.old connections.new }
        ensures run { HasRun connections.old connections.new }
        ensures line { LineGoesOn self.old.line self.new.line }
    {
        if self.clients.await_room(place, self.opened.now).is_err() {
            self.faults.tell(rt, EdgeFault::OutOfMemory.text());
            self.close(connections, place);
        }
    }

    // Notes that the reply to the client at a place is another one, or has another rest, than before its turn: then `was_left`
    // bytes were left.
    fn note_reply(&mut self, connections: &Connections, place: usize, was_left: usize)
        ensures took { has_taken was_left (at connections.now place) ≡ true →
            (then : Time) × IsNotedLast place then self.old.took self.new.took }
        ensures waits { has_taken was_left (at connections.now place) ≡ false →
            self.new ≡ self.old }
        ensures rest { self.new ≡ record self.old { took = self.new.took } }
    {
        let left = connections.left_at(place);
        if left > 0 && left != was_left {
            // (its memory was taken before: what isn't noted isn't given up for others)
            let _ = self.clients.note_took(place, self.opened.now);
        }
    }

    /// The client that `turned` is settled in `connections` by what its turn came to. A fault is told by `rt`.
    pub(crate) fn settle_turn(
        &mut self,
        rt: &HostRuntime,
        connections: &mut Connections,
        turned: &Turned,
    )
        requires { turned.now.turn ≡ Some Turn.Done → turned.now.was_ending ≡ false →
            left_of (at connections.old turned.now.place) ≡ [] }
        ensures took { IfSome turned.now.turn (λ _.
            has_taken turned.now.was_left (at connections.new turned.now.place) ≡ true →
            (then : Time) × IsNotedLast turned.now.place then self.old.took self.new.took) }
        ensures anew { IfSome turned.now.turn (λ _. turned.now.was_asking ≡ true →
            is_answered (at connections.new turned.now.place) ≡ true →
            ComesLast turned.now.place self.old.served self.new.served self.new.at) }
        ensures follows { FollowsTurn turned.now.turn (client_at self.new.at turned.now.place) }
        ensures settled { IsSettled turned.now.place self.old self.new connections.old connections.new }
        ensures run { HasRun connections.old connections.new }
        ensures line { LineGoesOn self.old.line self.new.line }
    {
        let Some(turn) = turned.turn else {
            return;
        };
        let place = turned.place;
        self.settle(rt, connections, place, turn, turned.was_ending);
        self.time_reply(rt, connections, place, turned.was_asking);
        self.note_reply(connections, place, turned.was_left);
    }
}
