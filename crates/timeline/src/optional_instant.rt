//! An instant, or none, in the room of one number.
ghost use Rattle.std.specs.Prelude.{◌≡◌, Some};
ghost use Rattle.playlist_model.specs.Instants.{bounded, ends_at};

use date_times::Instant;
use fixed_duration::Nanos;
use std::marker::Model;

// The least number of 64 bits lies before every instant in range.
const NO_INSTANT: i64 = i64::MIN;

/// An instant in the years 1900 to 2199, or none. It takes half the room of an `Option<Instant>`, and a channel holds one for
/// each segment.
#[derive(Clone, Copy)]
pub struct OptionalInstant {
    nanos: i64,
}

impl Model for OptionalInstant {
    ghost use Rattle.std.specs.Prelude.{ℤ, Option};
    ghost use Rattle.timeline.specs.OptionalInstants.{instant_held, number_for};
    ghost use Rattle.std.proofs.Common.{arith};

    ghost Value = { Option ℤ };

    ghost view = { λ a. instant_held a.nanos };

    ghost inverse = { λ instant. record { nanos = number_for instant } };

    ghost inverse_ok = { λ a h. Prim.grind (arith) };
}

impl OptionalInstant {
    /// The instant `nanos` nanoseconds after 1970 began; none if `nanos` is `None` or outside the years 1900 to 2199.
    #[inline(always)]
    pub fn from_nanos(nanos: Option<i128>) -> OptionalInstant
        ensures { result ≡ bounded nanos }
    {
        let held = match nanos {
            Some(nanos) => Instant::from_nanos(nanos),
            None => None,
        };
        match held {
            Some(instant) => OptionalInstant { nanos: instant.0 },
            None => OptionalInstant { nanos: NO_INSTANT },
        }
    }

    /// The instant `nanos` nanoseconds after 1970 began; none if it is outside the years 1900 to 2199.
    #[inline(always)]
    pub fn from_number(nanos: i64) -> OptionalInstant
        ensures { result ≡ bounded (Some nanos) }
    {
        let instant = Instant(nanos);
        if instant.is_in_range() {
            return OptionalInstant { nanos };
        }
        OptionalInstant { nanos: NO_INSTANT }
    }

    /// The instant, if there is one.
    #[inline(always)]
    pub fn get(self) -> Option<Instant>
        ensures { result ≡ self }
    {
        if self.nanos == NO_INSTANT {
            return None;
        }
        Some(Instant(self.nanos))
    }

    /// When a segment ends that begins at this instant and lasts for `duration`, in nanoseconds from 1970; `None` if
    /// there is no instant.
    #[inline(always)]
    pub fn end(self, duration: Nanos) -> Option<i128>
        ensures { result ≡ ends_at self duration }
    {
        match self.get() {
            Some(begun) => Some(i128::from(begun.0) + i128::from(duration.0)),
            None => None,
        }
    }
}
