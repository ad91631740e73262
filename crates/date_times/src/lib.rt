//! Instants: what the time texts of a playlist say (RFC 8216, sections 4.3.2.6 and 4.3.2.7), and how they are written.
#![tactic(auto)]

ghost use Rattle.std.specs.Prelude.{◌≡◌};
ghost use Rattle.date_times.specs.Instant.{in_range, if_in_range};

use std::marker::Model;

mod reading;
mod writing;

pub use reading::{TimeFault, TimeReader, read_instant};
pub use writing::{TimeWriter, write_instant};

/// The first instant: 1900-01-01T00:00:00Z, in nanoseconds from 1970.
pub const FIRST_INSTANT: i128 = -2_208_988_800_000_000_000;

/// The end of all instants, which is none of them: 2200-01-01T00:00:00Z.
pub const END_OF_INSTANTS: i128 = 7_258_118_400_000_000_000;

/// An instant in nanoseconds from 1970 in UTC.
#[derive(Clone, Copy, PartialEq, Eq, PartialOrd, Ord, Debug)]
pub struct Instant(pub i64);

impl Model for Instant {
    ghost use Rattle.std.specs.Prelude.{ℤ};

    ghost Value = { ℤ };

    ghost view = { λ a. a.0 };

    ghost inverse = { λ n. record { 0 = n } };
}

impl Instant {
    /// The instant `nanos` nanoseconds after 1970 began in UTC (before it, if negative). `None` outside the years
    /// 1900 to 2199.
    pub fn from_nanos(nanos: i128) -> Option<Instant>
        ensures { result ≡ if_in_range nanos }
    {
        if nanos < FIRST_INSTANT || nanos >= END_OF_INSTANTS {
            return None;
        }
        Some(Instant(nanos as i64))
    }

    /// Whether it lies in the years 1900 to 2199.
    pub fn is_in_range(self) -> bool
        ensures { result ≡ in_range self }
    {
        Instant::from_nanos(i128::from(self.0)).is_some()
    }
}
