//! Devices for tests: they move few bytes at a time, and fail at a stated call.
ghost use Rattle.std.specs.Prelude.{◌≡◌, ◌+◌, ◌<◌, ◌≤◌, ◌↔◌, length, true, IsErr, IfOk, OnErr};
ghost use Rattle.std.specs.Io.{ReadsAtMost, WritesAtMost};
ghost use Rattle.std.specs.Io.KnownBytes.{ReadConsumes, WriteAppends};
ghost use Rattle.byte_streams.specs.Devices.{next_count, failures_after_read, failures_after_write};
ghost use Rattle.byte_streams.specs.TestDevices.{source_of, source_stand, given_count, read_fails, after_giving, after_failing};
ghost use Rattle.byte_streams.specs.TestDevices.{sink_of, sink_stand, taken_count, write_fails, IsMadeAlike};

use crate::device::{READ_ROOM, Sink, Source};
use std::alloc::{AllocError, Global};
use std::io;
use std::io::ErrorKind;
use std::marker::Model;

/// A source over bytes. A read gives at most `most` bytes, none across the place `cut`, and the
/// read with the number `fail`, from 1, alone fails (0: none).
#[derive(Drop)]
pub struct TestSource<'a> {
    bytes: &'a [u8],
    place: usize,
    most: usize,
    cut: usize,
    fail: u64,
    failures: u64,
    failed_last: bool,
    calls: u64,
}

impl<'a> Model for TestSource<'a> {
    ghost use Rattle.std.specs.Prelude.{◌<◌, ◌≤◌, length};
    ghost use Rattle.byte_streams.specs.TestDevices.{SourceState};

    ghost Value = { SourceState };

    ghost view = { λ s. record {
      bytes = s.bytes.now;
      place = s.place;
      most = s.most;
      cut = s.cut;
      fail = s.fail;
      failures = record { count = s.failures; last = s.failed_last };
      calls = s.calls;
    } };

    ghost invariant = { λ s. (0 < s.most) × (s.place ≤ length s.bytes.now) };
}

impl<'a> TestSource<'a> {
    /// A source of `bytes` that has given none yet. A read gives at most `most` of them, and none across the place
    /// `cut`. The read with the number `fail`, from 1 on, alone fails; with `fail` 0 none does.
    pub fn new(bytes: &'a [u8], most: usize, cut: usize, fail: u64) -> TestSource<'a>
        requires { 0 < most }
        ensures { result ≡ source_of bytes.now most cut fail }
    {
        TestSource {
            bytes,
            place: 0,
            most,
            cut,
            fail,
            failures: 0,
            failed_last: false,
            calls: 0,
        }
    }

    // How many bytes the next read gives into this much room.
    fn count(&self, room: usize) -> usize
        ensures count { result ≡ given_count self.now room }
        ensures within { self.now.place + result ≤ length self.now.bytes }
        ensures some { result ≡ 0 → 0 < room → self.now.place ≡ length self.now.bytes }
    {
        let stop = if self.place < self.cut {
            self.bytes.len().min(self.cut)
        } else {
            self.bytes.len()
        };
        (stop - self.place).min(self.most).min(room)
    }
}

impl<'a> Source for TestSource<'a> {
    ghost stand = { source_stand };

    fn read(&mut self, buf: &mut [u8]) -> io::Result<usize>
        requires { READ_ROOM ≤ length buf.old }
        ensures bound { ReadsAtMost result buf.new }
        ensures bytes { ReadConsumes (source_stand self.old).remaining
            (source_stand self.new).remaining
            result buf.new }
        ensures failures { self.new.failures ≡ failures_after_read result self.old.failures }
        ensures calls { self.new.calls ≡ next_count self.old.calls }

        // It fails at its stated call alone, and gives as many bytes as it may.
        ensures fails { IsErr result ↔ (read_fails self.old ≡ true) }
        ensures count { IfOk result (λ n. n ≡ given_count self.old (length buf.old)) }
        ensures moved { IfOk result (λ n. self.new ≡ after_giving n self.old) }
        ensures kept { OnErr result (self.new ≡ after_failing self.old) }
    {
        self.calls = self.calls.saturating_add(1);
        self.failed_last = self.calls == self.fail;
        if self.failed_last {
            self.failures = self.failures.saturating_add(1);
            return Err(io::Error::from(ErrorKind::Other));
        }
        let count = self.count(buf.len());
        let left = &self.bytes[self.place..];
        buf[..count].copy_from_slice(&left[..count]);
        self.place += count;
        Ok(count)
    }

    fn failures(&self) -> u64 {
        self.failures
    }

    fn calls(&self) -> u64 {
        self.calls
    }
}

/// A sink that keeps its bytes, in room that is made at once. A write takes at most `most` bytes,
/// none past the room, and the write with the number `fail`, from 1, alone fails (0: none).
#[derive(Drop)]
pub struct TestSink {
    bytes: Vec<u8>,
    room: usize,
    most: usize,
    fail: u64,
    failures: u64,
    failed_last: bool,
    calls: u64,
}

impl Model for TestSink {
    ghost use Rattle.std.specs.Prelude.{◌≤◌, vec_len, vec_capacity};
    ghost use Rattle.byte_streams.specs.TestDevices.{SinkState};

    ghost Value = { SinkState };

    ghost view = { λ s. record {
      taken = s.bytes.items;
      room = s.room;
      most = s.most;
      fail = s.fail;
      failures = record { count = s.failures; last = s.failed_last };
      calls = s.calls;
    } };

    ghost invariant = { λ s. (vec_len s.bytes ≤ s.room) × (s.room ≤ vec_capacity s.bytes) };
}

impl TestSink {
    /// An empty sink with room for `room` bytes. A write takes at most `most` bytes, and the write with the number
    /// `fail`, from 1 on, alone fails; with `fail` 0 none does. Fails only if an allocation fails.
    pub fn new(alloc: Global, room: usize, most: usize, fail: u64) -> Result<TestSink, AllocError>
        requires { 0 < most }
        ensures { IfOk result (λ sink. sink ≡ sink_of room most fail) }
    {
        Ok(TestSink {
            bytes: Vec::with_capacity(alloc, room)?,
            room,
            most,
            fail,
            failures: 0,
            failed_last: false,
            calls: 0,
        })
    }

    /// What was taken so far.
    pub fn bytes(&self) -> &[u8]
        ensures { result.now ≡ self.now.taken }
    {
        self.bytes.as_slice()
    }
}

impl Sink for TestSink {
    ghost stand = { sink_stand };

    fn write(&mut self, buf: &[u8]) -> io::Result<usize>
        requires { 0 < length buf.now }
        ensures bound { WritesAtMost result buf.now }
        ensures bytes { WriteAppends (sink_stand self.old).contents (sink_stand self.new).contents
            result buf.now }
        ensures failures { self.new.failures ≡ failures_after_write result self.old.failures }

        // It fails at its stated call alone, and takes as many bytes as it may.
        ensures fails { IsErr result ↔ (write_fails self.old ≡ true) }
        ensures count { IfOk result (λ n. n ≡ taken_count self.old (length buf.now)) }
        ensures calls { self.new.calls ≡ next_count self.old.calls }
        ensures settings { IsMadeAlike self.old self.new }
    {
        self.calls = self.calls.saturating_add(1);
        self.failed_last = self.calls == self.fail;
        if self.failed_last {
            self.failures = self.failures.saturating_add(1);
            return Err(io::Error::from(ErrorKind::Other));
        }
        let count = buf.len().min(self.most).min(self.room - self.bytes.len());
        self.failed_last = count == 0;
        if self.failed_last {
            self.failures = self.failures.saturating_add(1);
        }
        self.bytes.extend_from_slice(&buf[..count]).unwrap();
        Ok(count)
    }

    fn failures(&self) -> u64 {
        self.failures
    }
}
