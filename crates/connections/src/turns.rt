//! A client's turn: how often it is heard and told of its reply before the others are.
ghost use Rattle.std.specs.Prelude.{◌≡◌, ◌<◌, ◌+◌, [], Some, length, true, false};
ghost use Rattle.connections.specs.declared.devices.Passage.TheVariants.{WouldWait};
ghost use Rattle.connections.specs.Table.{at, left_of, held_in};
ghost use Rattle.connections.specs.Limits.{most_held, reads_in_turn, writes_in_turn, drains_in_turn};
ghost use Rattle.connections.specs.Arrivals.{is_asking};
ghost use Rattle.connections.specs.Clients.{AreSent};
ghost use Rattle.connections.specs.Runs.{HasRun};
ghost use Rattle.connections.specs.Turns.{AreRead, CalledAtMost, CalledOnce, HasListened, HasListenedUntil, HasSpoken, HasSpokenUntil, IfGone, Stays, HasNoMore, MovedEach, is_client_read_out};

use crate::devices::{Incoming, Outgoing, Passage};
use crate::seats::Seat;
use crate::table::Connections;
use crate::wire::{Moved, hear, say};
use http_edge::EdgeFault;

// How often a client is read, and how often it is written to, in its turn at the most.
const READS: u32 = 4;

const WRITES: u32 = 4;

// How often what a client still sends is passed over in its turn at the most.
const DRAINS: u32 = 32;

/// What a client's turn came to.
#[derive(Clone, Copy, Debug, PartialEq, Eq)]
pub enum Turn {
    /// It has to be waited for.
    Waits,
    /// It was read or written to as often as it may be, and may be ready still.
    Goes,
    /// There is no room for its next bytes.
    Full,
    /// Its request is whole, or it has its reply, or it has ended after it.
    Done,
    /// The connection is gone.
    Failed(EdgeFault),
}

/// Reads from the client at `seat`, whose device is `device`, into `block`, until its request is whole (`Done`). All
/// that the device gave is what the client said to `connections`, in order, and nothing is read past the request.
/// `Waits` if it would wait, `Goes` after 4 reads that gave bytes, `Full` if `block` is longer than the room that `connections` have
/// left, `Failed` if the client is gone.
///
/// ```text
/// match listen(&mut device, &mut connections, &seat, &mut block) {
///     Turn::Done => speak(&mut device, &mut connections, &seat),    its request is whole: the reply is written
///     other => other,
/// }
/// ```
pub fn listen<T: Incoming>(
    device: &mut T,
    connections: &mut Connections,
    seat: &Seat<T>,
    block: &mut [u8],
) -> Turn
    requires room { 0 < length block.old }
    requires asking { is_asking (at connections.old seat.now) ≡ true }
    ensures stays { Stays result (HasListened (T.stand device.old) (T.stand device.new)
        seat.now connections.old connections.new) }
    ensures gone { IfGone result (λ fault. HasListenedUntil fault (T.stand device.old)
        (T.stand device.new)
        seat.now connections.old connections.new) }
    ensures done { result ≡ Turn.Done → is_asking (at connections.new seat.now) ≡ false }
    ensures goes { result ≡ Turn.Goes → is_asking (at connections.new seat.now) ≡ true }
    ensures heard { result ≡ Turn.Goes →
        AreRead reads_in_turn seat.now connections.old connections.new }
    ensures read { result ≡ Turn.Goes →
        MovedEach reads_in_turn (T.stand device.old).calls (T.stand device.new).calls }
    ensures full { result ≡ Turn.Full →
        most_held < held_in connections.new.places + length block.old }
    ensures waits { result ≡ Turn.Waits → (T.stand device.new).calls.last ≡ Some WouldWait }
    ensures few { CalledAtMost reads_in_turn (T.stand device.old).calls (T.stand device.new).calls }
    ensures run { HasRun connections.old connections.new }
{
    for index in 0..READS {
        match hear(device, connections, seat, block) {
            Moved::Some => {}
            Moved::Waits => return Turn::Waits,
            Moved::Full => return Turn::Full,
            Moved::Failed(fault) => return Turn::Failed(fault),
            Moved::Nothing => return Turn::Goes,
        }
        if !connections.is_asking(seat.place()) {
            return Turn::Done;
        }
    }
    Turn::Goes
}

/// Writes to the client at `seat`, whose device is `device`, what `connections` have left of its reply, until nothing
/// is left (`Done`). All that the device took is what was left, in order. `Waits` if it would wait, `Goes` after 4
/// writes that took bytes, `Failed` if the client is gone.
pub fn speak<T: Outgoing>(device: &mut T, connections: &mut Connections, seat: &Seat<T>) -> Turn
    ensures stays { Stays result (HasSpoken (T.stand device.old) (T.stand device.new)
        seat.now connections.old connections.new) }
    ensures gone { IfGone result (λ fault. HasSpokenUntil fault (T.stand device.old)
        (T.stand device.new)
        seat.now connections.old connections.new) }
    ensures asked { is_asking (at connections.old seat.now) ≡ false →
        Stays result (is_asking (at connections.new seat.now) ≡ false) }
    ensures done { result ≡ Turn.Done → left_of (at connections.new seat.now) ≡ [] }
    ensures written { result ≡ Turn.Goes →
        MovedEach writes_in_turn (T.stand device.old).calls (T.stand device.new).calls }
    ensures sent { result ≡ Turn.Goes →
        AreSent writes_in_turn seat.now connections.old connections.new }
    ensures waits { result ≡ Turn.Waits → (T.stand device.new).calls.last ≡ Some WouldWait }
    ensures room { result ≡ Turn.Full → ⊥ }
    ensures few { CalledAtMost writes_in_turn (T.stand device.old).calls (T.stand device.new).calls }
    ensures run { HasRun connections.old connections.new }
{
    for index in 0..WRITES {
        match say(device, connections, seat) {
            Moved::Some => {}
            Moved::Waits => return Turn::Waits,
            Moved::Nothing => return Turn::Done,
            Moved::Failed(fault) => return Turn::Failed(fault),
            Moved::Full => return Turn::Goes,
        }
    }
    Turn::Goes
}

/// Reads what a client still sends by `device` after its reply, and passes it over, until it ends or fails (`Done`):
/// closing before that would reset the connection, and the reply with it. `Waits` if it would wait, `Goes` after 32
/// reads that gave bytes, at most 8,192 each.
pub fn drain<T: Incoming>(device: &mut T) -> Turn
    ensures waits { result ≡ Turn.Waits → (T.stand device.new).calls.last ≡ Some WouldWait }
    ensures done { result ≡ Turn.Done → HasNoMore (T.stand device.new).calls.last }
    ensures read { result ≡ Turn.Goes →
        MovedEach drains_in_turn (T.stand device.old).calls (T.stand device.new).calls }
    ensures room { result ≡ Turn.Full → ⊥ }
    ensures stays { IfGone result (λ fault. ⊥) }
    ensures few { CalledAtMost drains_in_turn (T.stand device.old).calls (T.stand device.new).calls }
{
    let mut block = [0u8; 8192];
    for index in 0..DRAINS {
        match device.read(&mut block) {
            Passage::Bytes(0) => return Turn::Done,
            Passage::Bytes(_) => {}
            Passage::WouldWait => return Turn::Waits,
            Passage::HasFailed => return Turn::Done,
        }
    }
    Turn::Goes
}

/// Reads one byte of `device`, and says whether its client has sent nothing that is unread: it has ended, or would
/// have to be waited for.
pub fn is_client_read_out<T: Incoming>(device: &mut T) -> bool
    ensures is { result ≡ is_client_read_out (T.stand device.new).calls.last }
    ensures once { CalledOnce (T.stand device.old).calls (T.stand device.new).calls }
{
    let mut byte = [0u8; 1];
    match device.read(&mut byte) {
        Passage::Bytes(count) => count == 0,
        Passage::WouldWait => true,
        Passage::HasFailed => false,
    }
}
