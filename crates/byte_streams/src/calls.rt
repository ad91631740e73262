//! Devices whose calls can be named in a contract: what a call of one answered.
ghost use Rattle.std.specs.Prelude.{ℕ, List, Option, Result};
ghost use Rattle.std.specs.declared.io.Error.{Error};
ghost use Rattle.std.specs.Io.{ReadsAtMost, WritesAtMost};
ghost use Rattle.std.specs.Io.KnownBytes.{ReadConsumes, WriteAppends};

use std::io;
use std::io::{Read, Write};

/// What can be read. Each reader of std is one.
pub trait Reads {
    /// The bytes that it will still give, if they are known.
    ghost remaining: { Self → Option (List ℕ) };

    /// What a read answers: the device before and after it, the room before and after it, and the answer. Who reads some device
    /// by this trait can show this of an answer only by a read with that room.
    ghost answers_read: { Self → Self → List ℕ → List ℕ → Result ℕ Error → Type 0 };

    /// Reads once, as `Read::read` does.
    fn read_once(&mut self, buf: &mut [u8]) -> io::Result<usize>
        ensures bound { ReadsAtMost result buf.new }
        ensures bytes { ReadConsumes (remaining self.old) (remaining self.new) result buf.new }
        ensures answers { answers_read self.old self.new buf.old buf.new result };
}

/// What can be written to. Each writer of std is one.
pub trait Writes {
    /// The bytes that it has taken, if they are known.
    ghost contents: { Self → Option (List ℕ) };

    /// What a write answers: the device before and after it, the bytes that it was given, and the answer.
    ghost answers_write: { Self → Self → List ℕ → Result ℕ Error → Type 0 };

    /// Writes once, as `Write::write` does.
    fn write_once(&mut self, buf: &[u8]) -> io::Result<usize>
        ensures bound { WritesAtMost result buf.now }
        ensures bytes { WriteAppends (contents self.old) (contents self.new) result buf.now }
        ensures answers { answers_write self.old self.new buf.now result };
}

impl<R: Read> Reads for R {
    ghost remaining = { R.remaining };

    // (which answer a reader of std gives no contract says)
    ghost answers_read = { λ old new before after answer. Unit {0} };

    fn read_once(&mut self, buf: &mut [u8]) -> io::Result<usize> {
        self.read(buf)
    }
}

impl<W: Write> Writes for W {
    ghost contents = { W.contents };

    ghost answers_write = { λ old new bytes answer. Unit {0} };

    fn write_once(&mut self, buf: &[u8]) -> io::Result<usize> {
        self.write(buf)
    }
}
