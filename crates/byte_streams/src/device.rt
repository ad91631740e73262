//! Devices that count their calls, and how many of them failed.
ghost use Rattle.std.specs.Prelude.{◌≡◌, ℕ, ◌<◌, ◌≤◌, if◌then◌else◌, length};
ghost use Rattle.std.specs.Io.{ReadsAtMost, WritesAtMost};
ghost use Rattle.std.specs.Io.KnownBytes.{ReadConsumes, WriteAppends};
ghost use Rattle.byte_streams.specs.Devices.{no_failures, next_count, one_more, as_many, failures_after_read, failures_after_write};
ghost use Rattle.byte_streams.specs.Stands.{SourceStand, SinkStand};

use crate::calls::{Reads, Writes};
use std::io;
use std::marker::Model;

/// The room that a read offers at least.
pub const READ_ROOM: usize = 8192;

/// How many reads an input, or a request, may take.
pub const MAX_READS: u64 = 65_536;

/// What bytes come from. Its counters stay at 2^64 - 1.
pub trait Source {
    /// How it stands: the bytes that it has left, if they are known, how many reads there were, how many of them
    /// failed, and whether the last one did.
    ghost stand: { Self → SourceStand };

    /// Puts a front of the bytes that are left into `buf`, which has room for [`READ_ROOM`], and says how many: none
    /// only at the end.
    fn read(&mut self, buf: &mut [u8]) -> io::Result<usize>
        requires { READ_ROOM ≤ length buf.old }
        ensures bound { ReadsAtMost result buf.new }
        ensures bytes { ReadConsumes (stand self.old).remaining (stand self.new).remaining result
            buf.new }
        ensures failures { (stand self.new).failed ≡ failures_after_read result
            (stand self.old).failed }
        ensures calls { (stand self.new).called ≡ next_count (stand self.old).called };

    /// How many reads failed.
    fn failures(&self) -> u64
        ensures { result ≡ (stand self.now).failed.count };

    /// How many reads there were.
    fn calls(&self) -> u64
        ensures { result ≡ (stand self.now).called };
}

/// What bytes go to. Its counter stays at 2^64 - 1.
pub trait Sink {
    /// How it stands: the bytes that it has taken, if they are known, how many of its writes failed or took
    /// nothing, and whether the last one did.
    ghost stand: { Self → SinkStand };

    /// Takes a front of `buf`, which has at least one byte, and says how many.
    fn write(&mut self, buf: &[u8]) -> io::Result<usize>
        requires { 0 < length buf.now }
        ensures bound { WritesAtMost result buf.now }
        ensures bytes { WriteAppends (stand self.old).contents (stand self.new).contents result
            buf.now }
        ensures failures { (stand self.new).failed ≡ failures_after_write result
            (stand self.old).failed };

    /// How many writes failed or took nothing.
    fn failures(&self) -> u64
        ensures { result ≡ (stand self.now).failed.count };
}

/// A reader or a writer of std, with counters.
#[derive(Drop)]
pub struct Counted<T> {
    inner: T,
    failures: u64,
    failed_last: bool,
    calls: u64,
}

impl<T> Model for Counted<T> {
    ghost use Rattle.std.specs.Prelude.{ℕ};
    ghost use Rattle.byte_streams.specs.Devices.{Failures};

    ghost Value = { T × Failures × ℕ };

    ghost view = { λ c. (c.inner, record { count = c.failures; last = c.failed_last }, c.calls) };
}

impl<T> Counted<T> {
    /// The device `inner`, of which no call was counted yet.
    pub fn new(inner: T) -> Counted<T>
        ensures { result ≡ (inner, no_failures, 0) }
    {
        Counted {
            inner,
            failures: 0,
            failed_last: false,
            calls: 0,
        }
    }

    // Notes whether a call failed.
    fn note_failure(&mut self, failed: bool)
        ensures failures { self.new.1 ≡ (if failed then one_more self.old.1 else as_many self.old.1) }
        ensures rest { (self.new.0 ≡ self.old.0) × (self.new.2 ≡ self.old.2) }
    {
        self.failed_last = failed;
        if failed {
            self.failures = self.failures.saturating_add(1);
        }
    }

    // Notes what a read was answered, and hands that on. Nothing else counts a read.
    fn note_read(&mut self, answer: io::Result<usize>) -> io::Result<usize>
        ensures answer { result ≡ answer }
        ensures failures { self.new.1 ≡ failures_after_read answer self.old.1 }
        ensures calls { self.new.2 ≡ next_count self.old.2 }
        ensures inner { self.new.0 ≡ self.old.0 }
    {
        self.calls = self.calls.saturating_add(1);
        self.note_failure(answer.is_err());
        answer
    }

    // Notes what a write was answered, and hands that on.
    fn note_write(&mut self, answer: io::Result<usize>) -> io::Result<usize>
        ensures answer { result ≡ answer }
        ensures failures { self.new.1 ≡ failures_after_write answer self.old.1 }
        ensures inner { self.new.0 ≡ self.old.0 }
    {
        self.note_failure(!matches!(&answer, Ok(n) if *n != 0));
        answer
    }
}

impl<R: Reads> Source for Counted<R> {
    ghost stand = { λ c. record { remaining = R.remaining c.0; called = c.2; failed = c.1 } };

    fn read(&mut self, buf: &mut [u8]) -> io::Result<usize>
        requires { READ_ROOM ≤ length buf.old }
        ensures bound { ReadsAtMost result buf.new }
        ensures bytes { ReadConsumes (R.remaining self.old.0) (R.remaining self.new.0) result
            buf.new }
        ensures failures { self.new.1 ≡ failures_after_read result self.old.1 }
        ensures calls { self.new.2 ≡ next_count self.old.2 }

        // It answers what the device answered of the same room.
        ensures answered { R.answers_read self.old.0 self.new.0 buf.old buf.new result }
    {
        let answer = self.inner.read_once(buf);
        self.note_read(answer)
    }

    fn failures(&self) -> u64 {
        self.failures
    }

    fn calls(&self) -> u64 {
        self.calls
    }
}

impl<W: Writes> Sink for Counted<W> {
    ghost stand = { λ c. record { contents = W.contents c.0; failed = c.1 } };

    fn write(&mut self, buf: &[u8]) -> io::Result<usize>
        requires { 0 < length buf.now }
        ensures bound { WritesAtMost result buf.now }
        ensures bytes { WriteAppends (W.contents self.old.0) (W.contents self.new.0) result
            buf.now }
        ensures failures { self.new.1 ≡ failures_after_write result self.old.1 }

        // It answers what the device answered of the same bytes.
        ensures answered { W.answers_write self.old.0 self.new.0 buf.now result }
    {
        let answer = self.inner.write_once(buf);
        self.note_write(answer)
    }

    fn failures(&self) -> u64 {
        self.failures
    }
}
