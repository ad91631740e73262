//! The lines of durations.
ghost use Rattle.std.specs.Prelude.{◌≡◌};
ghost use Rattle.fixed_duration.specs.Text.{are_digits};

use crate::words::{number_in, split_word};
use fixed_duration::{Nanos, nanos_of_fraction};
use std::alloc::{AllocError, Global};

/// The nanoseconds of the duration `text`, or its fault.
pub(crate) fn duration_line(alloc: Global, text: &str) -> Result<String, AllocError> {
    match Nanos::read(text) {
        Ok(duration) => format!(in alloc; "{}", duration.0),
        Err(fault) => format!(in alloc; "{fault}"),
    }
}

fn is_all_digits(bytes: &[u8]) -> bool
    ensures { result ≡ are_digits bytes.now }
{
    bytes.iter().all(|byte| byte.is_ascii_digit())
}

/// The nanoseconds that `digits`, those after a point, stand for.
pub(crate) fn fraction_line(alloc: Global, digits: &str) -> Result<String, AllocError> {
    let digits = digits.as_bytes();
    if !is_all_digits(digits) {
        return format!(in alloc; "no digits");
    }
    format!(in alloc; "{}", nanos_of_fraction(digits))
}

/// The line of EXTINF with a duration of `nanos` nanoseconds, in seconds.
pub(crate) fn seconds_line(alloc: Global, nanos: &str) -> Result<String, AllocError> {
    let mut line = String::from_str(alloc, "#EXTINF:")?;
    Nanos(number_in(nanos)).write_to(&mut line)?;
    Ok(line)
}

/// The whole number of seconds that is nearest to `nanos` nanoseconds.
pub(crate) fn rounded_line(alloc: Global, nanos: &str) -> Result<String, AllocError> {
    format!(in alloc; "{}", Nanos(number_in(nanos)).rounded_seconds())
}

/// The sum of the two durations in `both`, in nanoseconds.
pub(crate) fn sum_line(alloc: Global, both: &str) -> Result<String, AllocError> {
    let (first, second) = split_word(both);
    match Nanos(number_in(first)).checked_add(Nanos(number_in(second))) {
        Some(sum) => format!(in alloc; "{}", sum.0),
        None => format!(in alloc; "none"),
    }
}
