//! What comes from a client and what goes to it, by calls that never wait.
ghost use Rattle.std.specs.Prelude.{◌≡◌, ◌<◌, length};
ghost use Rattle.std.specs.IoError.{error_kind};
ghost use Rattle.connections.specs.Devices.{DeviceStand, no_calls, one_call, PassesAtMost, LookPasses, ReadPasses, WritePasses, device_would_wait, device_passage_of, ComesOf};

use byte_streams::{Reads, Writes};
use mio::net::TcpStream;
use mio::{Interest, Registry, Token};
use std::io;
use std::io::ErrorKind;
use std::marker::Model;
use std::net::Shutdown;

/// What one read, or one write, came to.
#[derive(Clone, Copy, Debug, PartialEq, Eq)]
pub enum Passage {
    /// So many bytes went through. None: a client has ended, or takes nothing more.
    Bytes(usize),
    /// It would wait, and moved nothing.
    WouldWait,
    /// It failed, and moved nothing.
    HasFailed,
}

/// What comes from a client. Its count of calls stays at 2^64 - 1.
pub trait Incoming {
    /// How it stands: the bytes that it will still give, if they are known, how often it was read, and what the
    /// last read came to.
    ghost stand: { Self → DeviceStand };

    /// Puts a front of the bytes that are left into `buf`, which has room for at least one, and says how many: none
    /// only at the end.
    fn read(&mut self, buf: &mut [u8]) -> Passage
        requires { 0 < length buf.old }
        ensures bound { PassesAtMost result (length buf.new) }
        ensures bytes { ReadPasses (stand self.old).bytes (stand self.new).bytes result buf.new }
        ensures calls { (stand self.new).calls ≡ one_call result (stand self.old).calls };
}

/// What comes from a client, and can be looked at before it is read.
pub trait Looking: Incoming {
    /// Puts a front of the bytes that are left into `buf`, which has room for at least one, and says how many. All are
    /// left for the next read.
    fn look(&mut self, buf: &mut [u8]) -> Passage
        requires { 0 < length buf.old }
        ensures bound { PassesAtMost result (length buf.new) }
        ensures bytes { LookPasses (Self.stand self.old).bytes result buf.new }
        ensures kept { (Self.stand self.new).bytes ≡ (Self.stand self.old).bytes }
        ensures calls { (Self.stand self.new).calls
            ≡ one_call result (Self.stand self.old).calls };
}

/// What goes to a client. Its count of calls stays at 2^64 - 1.
pub trait Outgoing {
    /// How it stands: the bytes that it has taken, if they are known, how often it was written to, and what the
    /// last write came to.
    ghost stand: { Self → DeviceStand };

    /// Takes a front of `buf`, which has at least one byte, and says how many.
    fn write(&mut self, buf: &[u8]) -> Passage
        requires { 0 < length buf.now }
        ensures bound { PassesAtMost result (length buf.now) }
        ensures bytes { WritePasses (stand self.old).bytes (stand self.new).bytes result buf.now }
        ensures calls { (stand self.new).calls ≡ one_call result (stand self.old).calls };
}

/// What tells a client that nothing more is written to it.
pub trait Ending {
    /// Tells the client so, as far as it can be told. No byte is read or written.
    fn end_output(&mut self)
        ensures { self.new ≡ self.old };
}

/// A reader or a writer of std that answers `WouldBlock` if it would wait, with its calls.
#[derive(Drop)]
pub struct NonBlocking<T> {
    inner: T,
    count: u64,
    last: Option<Passage>,
}

impl<T> Model for NonBlocking<T> {
    ghost use Rattle.connections.specs.Devices.{Calls};

    ghost Value = { T × Calls };

    ghost view = { λ d. (d.inner, record { count = d.count; last = d.last }) };
}

fn device_would_wait(error: &io::Error) -> bool
    ensures { result ≡ device_would_wait (error_kind error.now) }
{
    match error.kind() {
        ErrorKind::WouldBlock => true,
        _ => false,
    }
}

// What a call came to.
fn device_passage_of(answer: io::Result<usize>) -> Passage
    ensures { result ≡ device_passage_of answer }
{
    match answer {
        Ok(count) => Passage::Bytes(count),
        Err(error) if device_would_wait(&error) => Passage::WouldWait,
        Err(_) => Passage::HasFailed,
    }
}

impl<T> NonBlocking<T> {
    /// The device `inner`, of which no call was counted yet.
    pub fn new(inner: T) -> NonBlocking<T>
        ensures { result ≡ (inner, no_calls) }
    {
        NonBlocking {
            inner,
            count: 0,
            last: None,
        }
    }

    // Counts a call that was answered so, and says what it came to. Nothing else counts one.
    fn note(&mut self, answer: io::Result<usize>) -> Passage
        ensures passage { result ≡ device_passage_of answer }
        ensures calls { self.new.1 ≡ one_call (device_passage_of answer) self.old.1 }
        ensures inner { self.new.0 ≡ self.old.0 }
    {
        let passage = device_passage_of(answer);
        self.count = self.count.saturating_add(1);
        self.last = Some(passage);
        passage
    }
}

impl<R: Reads> Incoming for NonBlocking<R> {
    ghost stand = { λ d. record { bytes = R.remaining d.0; calls = d.1 } };

    fn read(&mut self, buf: &mut [u8]) -> Passage
        requires { 0 < length buf.old }
        ensures bound { PassesAtMost result (length buf.new) }
        ensures bytes { ReadPasses (R.remaining self.old.0) (R.remaining self.new.0) result
            buf.new }
        ensures calls { self.new.1 ≡ one_call result self.old.1 }

        // It comes to what the device answered of the same room.
        ensures answered { ComesOf (R.answers_read self.old.0 self.new.0 buf.old buf.new) result }
    {
        let answer = self.inner.read_once(buf);
        self.note(answer)
    }
}

impl<W: Writes> Outgoing for NonBlocking<W> {
    ghost stand = { λ d. record { bytes = W.contents d.0; calls = d.1 } };

    fn write(&mut self, buf: &[u8]) -> Passage
        requires { 0 < length buf.now }
        ensures bound { PassesAtMost result (length buf.now) }
        ensures bytes { WritePasses (W.contents self.old.0) (W.contents self.new.0) result
            buf.now }
        ensures calls { self.new.1 ≡ one_call result self.old.1 }

        // It comes to what the device answered of the same bytes.
        ensures answered { ComesOf (W.answers_write self.old.0 self.new.0 buf.now) result }
    {
        let answer = self.inner.write_once(buf);
        self.note(answer)
    }
}

/// A client's socket.
pub type Socket = NonBlocking<TcpStream>;

impl Socket {
    /// Has the system say, by `registry`, when the client of this `token` is ready: once more if it was `asked` before. That is
    /// no call. False if it can't.
    pub(crate) fn register(&mut self, registry: &Registry, token: Token, asked: bool) -> bool
        ensures { self.new ≡ self.old }
    {
        let both = Interest::READABLE | Interest::WRITABLE;
        let done = if asked {
            registry.reregister(&mut self.inner, token, both)
        } else {
            registry.register(&mut self.inner, token, both)
        };
        done.is_ok()
    }
}

impl Looking for Socket {
    fn look(&mut self, buf: &mut [u8]) -> Passage {
        let answer = self.inner.peek(buf);
        self.note(answer)
    }
}

impl Ending for Socket {
    fn end_output(&mut self) {
        let _ = self.inner.shutdown(Shutdown::Write);
    }
}
