//! What goes through a client's socket: over any device whose calls don't wait.
ghost use Rattle.std.specs.Prelude.{◌≡◌, ◌<◌, ◌≤◌, ◌+◌, ◌++◌, [], length, take};
ghost use Rattle.http_edge.specs.declared.serving.EdgeFault.TheVariants.{Read, Write, Ended};
ghost use Rattle.connections.specs.Limits.{most_held, most_written};
ghost use Rattle.connections.specs.Table.{Happens, at, left_of, held_in, departure};
ghost use Rattle.connections.specs.Runs.{HasRun};
ghost use Rattle.connections.specs.declared.devices.Passage.TheVariants.{WouldWait};
ghost use Rattle.connections.specs.Wires.{HasHeard, HasHeardAtMost, HasSaid, MovedNothing, GoesHeard, GoesTold, IfFailed, IsFailed};

use crate::devices::{Incoming, Outgoing, Passage};
use crate::seats::Seat;
use crate::table::{Connections, MAX_HELD};
use http_edge::EdgeFault;
use http_messages::{Block, fill_message_block};

// So many bytes are written at once at the most, so that a client's turn is short.
const MAX_WRITTEN: usize = 65_536;

/// What a call came to.
#[derive(Clone, Copy, Debug, PartialEq, Eq)]
pub enum Moved {
    /// Bytes were moved.
    Some,
    /// It would wait.
    Waits,
    /// There is nothing to move.
    Nothing,
    /// There is no room for what would be moved.
    Full,
    /// The connection is gone.
    Failed(EdgeFault),
}

// Removes a client, for this fault.
fn dismiss_client<T>(connections: &mut Connections, seat: &Seat<T>, fault: EdgeFault) -> Moved
    ensures removed { Happens connections.old (departure seat.now) connections.new }
    ensures fault { result ≡ Moved.Failed fault }
{
    connections.remove(seat);
    Moved::Failed(fault)
}

#[tactic(auto, using(crate::proofs::Leading::stays))]
/// Reads once from `device` into `block`: what it gave is what the client said at the place of `seat` in
/// `connections`, and nothing else is. No other byte is read. If it would wait (`Waits`), or `block` is longer than
/// the room that is left (`Full`), all is as it was. A client goes (`Failed`) only if its device failed (`Read`) or
/// gave nothing (`Ended`), or if `serve` would answer the same fault of the same pieces (`TooManyReads`), or if an
/// allocation failed.
pub fn hear<T: Incoming>(
    device: &mut T,
    connections: &mut Connections,
    seat: &Seat<T>,
    block: &mut [u8],
) -> Moved
    requires { 0 < length block.old }
    ensures some { result ≡ Moved.Some →
        HasHeard (T.stand device.old) (T.stand device.new)
        seat.now connections.old connections.new }
    ensures few { result ≡ Moved.Some →
        HasHeardAtMost (length block.old) seat.now connections.old connections.new }
    ensures waits { result ≡ Moved.Waits →
        MovedNothing WouldWait (T.stand device.old) (T.stand device.new) }
    ensures stays { result ≡ Moved.Waits → connections.new ≡ connections.old }
    ensures full { result ≡ Moved.Full →
        (most_held < held_in connections.old.places + length block.old)
        × (connections.new ≡ connections.old) }
    ensures unread { result ≡ Moved.Full → device.new ≡ device.old }
    ensures moves { result ≡ Moved.Nothing → ⊥ }
    ensures fault { IfFailed result (λ fault. GoesHeard fault (T.stand device.old)
        (T.stand device.new)
        (at connections.old seat.now)) }
    ensures failed { IsFailed result →
        Happens connections.old (departure seat.now) connections.new }
    ensures run { HasRun connections.old connections.new }
{
    if block.len() > MAX_HELD - connections.held() {
        return Moved::Full;
    }
    let count = match device.read(block) {
        Passage::Bytes(count) => count,
        Passage::WouldWait => return Moved::Waits,
        Passage::HasFailed => return dismiss_client(connections, seat, EdgeFault::Read),
    };
    if count == 0 {
        return dismiss_client(connections, seat, EdgeFault::Ended);
    }
    match connections.give(seat, &block[..count]) {
        Ok(()) => Moved::Some,
        Err(fault) => Moved::Failed(fault),
    }
}

// The front of a text that is written at once.
fn cut_client_text(text: &[u8]) -> &[u8]
    ensures front { result.now ≡ take (length result.now) text.now }
    ensures some { length result.now ≡ 0 → text.now ≡ [] }
    ensures short { length result.now ≤ most_written }
{
    &text[..text.len().min(MAX_WRITTEN)]
}

// A front of two texts: both, if they fit into a block, else of the first that isn't empty.
fn front_of_client_reply<'a>(block: &'a mut Block, head: &'a [u8], body: &'a [u8]) -> &'a [u8]
    requires { block.old.items ≡ [] }
    ensures front { result.now ≡ take (length result.now) (head.now ++ body.now) }
    ensures some { length result.now ≡ 0 → head.now ++ body.now ≡ [] }
    ensures short { length result.now ≤ most_written }
{
    if head.is_empty() {
        return cut_client_text(body);
    }
    if fill_message_block(block, head, body) {
        return block.as_slice();
    }
    cut_client_text(head)
}

#[tactic(auto, using(crate::proofs::Leading::stays))]
/// Writes once to `device`, at most 65,536 bytes of what `connections` have left of the reply at the place of `seat`, and nothing else. If
/// it would wait (`Waits`), or nothing is left (`Nothing`), all is as it was. A client goes (`Failed`) only if the
/// write failed or took nothing (`Write`).
pub fn say<T: Outgoing>(device: &mut T, connections: &mut Connections, seat: &Seat<T>) -> Moved
    ensures some { result ≡ Moved.Some →
        HasSaid (T.stand device.old) (T.stand device.new) seat.now connections.old connections.new }
    ensures waits { result ≡ Moved.Waits →
        MovedNothing WouldWait (T.stand device.old) (T.stand device.new) }
    ensures stays { result ≡ Moved.Waits → connections.new ≡ connections.old }
    ensures nothing { result ≡ Moved.Nothing →
        (left_of (at connections.old seat.now) ≡ []) × (connections.new ≡ connections.old) }
    ensures unwritten { result ≡ Moved.Nothing → device.new ≡ device.old }
    ensures fault { IfFailed result (λ fault. GoesTold fault (T.stand device.old)
        (T.stand device.new)) }
    ensures failed { IsFailed result →
        Happens connections.old (departure seat.now) connections.new }
    ensures room { result ≡ Moved.Full → ⊥ }
    ensures run { HasRun connections.old connections.new }
{
    let mut block = Block::new();
    let (head, body) = connections.parts(seat);
    let bytes = front_of_client_reply(&mut block, head, body);
    if bytes.is_empty() {
        return Moved::Nothing;
    }
    let count = match device.write(bytes) {
        Passage::Bytes(count) => count,
        Passage::WouldWait => return Moved::Waits,
        Passage::HasFailed => return dismiss_client(connections, seat, EdgeFault::Write),
    };
    if count == 0 {
        return dismiss_client(connections, seat, EdgeFault::Write);
    }
    connections.advance(seat, count);
    Moved::Some
}
