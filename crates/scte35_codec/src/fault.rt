//! Why a section could not be read or written.

ghost use Rattle.std.specs.Prelude.{◌≡◌};
ghost use Rattle.scte35_codec.specs.declared.fault.SpliceFault.TheVariants.{OutOfMemory};

use std::alloc::{AllocError, AllocFailed};
use std::error::Error;
use std::fmt;

/// What is wrong with a splice section. Of several faults the first in this order is answered.
#[derive(Clone, Copy, Debug, PartialEq, Eq, Hash)]
pub enum SpliceFault {
    /// S1: the text does not begin with `0x` or `0X`, or an even number of hexadecimal digits does not follow.
    NotHex,
    /// S2: the section has fewer than 20 bytes.
    TooShort,
    /// S3: table_id is not 0xFC.
    TableId,
    /// S4: section_length is not the number of bytes that follow it.
    Length,
    /// S5: protocol_version is not 0.
    Protocol,
    /// S6: the section is encrypted.
    Encrypted,
    /// S7: the command or the descriptors do not have the length that the section states for them, or
    /// leave too few bytes for what follows.
    CommandLength,
    /// S8: memory ran out.
    OutOfMemory,
    /// S9: a value has no section: a number is too wide for its field, the section would be too long, a
    /// component is one too many, or a time is there where none belongs or the other way round.
    TooLarge,
}

impl fmt::Display for SpliceFault {
    ghost use Rattle.std.specs.Prelude.{Some};
    ghost use Rattle.scte35_codec.specs.Fault.{fault_text};

    ghost output = { λ fault. Some (fault_text fault) };

    fn fmt<W: fmt::Write>(&self, f: &mut fmt::Formatter<W>) -> fmt::Result {
        f.write_str(match self {
            SpliceFault::NotHex => "S1 NotHex",
            SpliceFault::TooShort => "S2 TooShort",
            SpliceFault::TableId => "S3 TableId",
            SpliceFault::Length => "S4 Length",
            SpliceFault::Protocol => "S5 Protocol",
            SpliceFault::Encrypted => "S6 Encrypted",
            SpliceFault::CommandLength => "S7 CommandLength",
            SpliceFault::OutOfMemory => "S8 OutOfMemory",
            SpliceFault::TooLarge => "S9 TooLarge",
        })
    }
}

impl Error for SpliceFault {}

impl From<AllocError> for SpliceFault {
    ghost from_gives = { λ _ e. e ≡ OutOfMemory };

    fn from(_e: AllocError) -> SpliceFault {
        SpliceFault::OutOfMemory
    }
}

impl<T: Drop> From<AllocFailed<T>> for SpliceFault {
    ghost from_gives = { λ _ e. e ≡ OutOfMemory };

    fn from(_e: AllocFailed<T>) -> SpliceFault {
        SpliceFault::OutOfMemory
    }
}
