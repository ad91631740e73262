//! Attribute lists and the numbers in them (RFC 8216, section 4.2).
#![tactic(auto)]

ghost use Rattle.std.specs.Prelude.{◌≡◌, Some};
ghost use Rattle.attr_list.specs.declared.AttrFault.TheVariants.{OutOfMemory};
ghost use Rattle.attr_list.specs.FaultTexts.{fault_text};

use std::alloc::{AllocError, AllocFailed};
use std::error::Error;
use std::fmt;

mod attr;
pub mod laws;
mod list;
mod numbers;
mod scan;

pub use attr::{Attr, Span};
pub use list::{AttrList, MAX_ATTRIBUTES};
pub use numbers::{read_decimal, read_hex_u128};

/// Why a text is no attribute list, or no number (RFC 8216, section 4.2).
#[derive(Clone, Copy, PartialEq, Eq, Debug)]
pub enum AttrFault {
    /// A1: a name is empty or has a character other than `A` to `Z`, `0` to `9` and `-`.
    BadName,
    /// A2: a name is not followed by `=`.
    NoEquals,
    /// A3: an unquoted value is empty or holds a quote or a space, or neither a comma nor the end
    /// follows a closing quote.
    BadValue,
    /// A4: a quoted value has no closing quote.
    OpenQuote,
    /// A5: a name comes twice.
    Twice,
    /// A6: there are more than 64 attributes.
    TooMany,
    /// A7: an allocation failed.
    OutOfMemory,
    /// A8: a text is no number in range.
    BadNumber,
}

impl fmt::Display for AttrFault {
    ghost output = { λ fault. Some (fault_text fault) };

    fn fmt<W: fmt::Write>(&self, f: &mut fmt::Formatter<W>) -> fmt::Result {
        match self {
            AttrFault::BadName => write!(f, "A1 BadName"),
            AttrFault::NoEquals => write!(f, "A2 NoEquals"),
            AttrFault::BadValue => write!(f, "A3 BadValue"),
            AttrFault::OpenQuote => write!(f, "A4 OpenQuote"),
            AttrFault::Twice => write!(f, "A5 Twice"),
            AttrFault::TooMany => write!(f, "A6 TooMany"),
            AttrFault::OutOfMemory => write!(f, "A7 OutOfMemory"),
            AttrFault::BadNumber => write!(f, "A8 BadNumber"),
        }
    }
}

impl Error for AttrFault {}

impl From<AllocError> for AttrFault {
    ghost from_gives = { λ _ fault. fault ≡ OutOfMemory };

    fn from(_error: AllocError) -> AttrFault {
        AttrFault::OutOfMemory
    }
}

impl<T: Drop> From<AllocFailed<T>> for AttrFault {
    ghost from_gives = { λ _ fault. fault ≡ OutOfMemory };

    fn from(_error: AllocFailed<T>) -> AttrFault {
        AttrFault::OutOfMemory
    }
}
