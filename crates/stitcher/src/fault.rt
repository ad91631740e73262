//! Why nothing was stitched.
ghost use Rattle.std.specs.Prelude.{◌≡◌, Some};
ghost use Rattle.stitcher.specs.declared.fault.StitchFault.TheVariants.{OutOfMemory};
ghost use Rattle.stitcher.specs.FaultTexts.{fault_text};

use std::alloc::{AllocError, AllocFailed};
use std::error::Error;
use std::fmt;

/// Why there is no list of key tags, or no stitched list.
#[derive(Clone, Copy, PartialEq, Eq, Debug)]
pub enum StitchFault {
    /// K1: a media or discontinuity sequence number would pass 2^64 - 1.
    NumberRange,
    /// K2: an allocation failed.
    OutOfMemory,
}

impl fmt::Display for StitchFault {
    ghost output = { λ fault. Some (fault_text fault) };

    fn fmt<W: fmt::Write>(&self, f: &mut fmt::Formatter<W>) -> fmt::Result {
        match self {
            StitchFault::NumberRange => write!(f, "K1 NumberRange"),
            StitchFault::OutOfMemory => write!(f, "K2 OutOfMemory"),
        }
    }
}

impl Error for StitchFault {}

impl From<AllocError> for StitchFault {
    ghost from_gives = { λ _ fault. fault ≡ OutOfMemory };

    fn from(_error: AllocError) -> StitchFault {
        StitchFault::OutOfMemory
    }
}

impl<T: Drop> From<AllocFailed<T>> for StitchFault {
    ghost from_gives = { λ _ fault. fault ≡ OutOfMemory };

    fn from(_error: AllocFailed<T>) -> StitchFault {
        StitchFault::OutOfMemory
    }
}
