//! Durations in whole nanoseconds, read and written as the decimal seconds of a playlist
//! (RFC 8216, section 4.3.2.1, EXTINF): digits with at most one point.
#![tactic(auto)]

ghost use Rattle.std.specs.Prelude.{◌≡◌, ℕ, ◌+◌, ◌*◌, ◌/◌, ◌^◌, ◌<◌, ◌≤◌, ◌++◌, Ok, OnErr, IsTrue, decimal, length, take, string_bytes, string_len, string_capacity};
ghost use Rattle.std.specs.Option.{SomeIff};
ghost use Rattle.fixed_duration.specs.Text.{whole_part, fraction_part, are_digits, value_of_digits, nine_digits, fraction_digits};
ghost use Rattle.fixed_duration.specs.Duration.{duration_of, duration_text, rounded_seconds_of};
ghost use Rattle.fixed_duration.specs.Appended.{Appends};

use itoa::Buffer;
use std::alloc::AllocError;
use std::error::Error;
use std::fmt;
use std::marker::Model;

const NANOS_PER_SECOND: u64 = 1_000_000_000;

/// Durations are shorter than this many seconds.
const MAX_SECONDS: u64 = 1_000_000;

// Ten to the powers of 0 to 9.
static POWERS_OF_TEN: [u32; 10] = [
    1,
    10,
    100,
    1000,
    10_000,
    100_000,
    1_000_000,
    10_000_000,
    100_000_000,
    1_000_000_000,
];

/// Why a text is no duration. The first that holds is told, in this order.
#[derive(Clone, Copy, Debug, PartialEq, Eq, Hash)]
pub enum DurationFault {
    /// The text is empty.
    Empty,
    /// The text isn't digits with at most one point and at least one digit (RFC 8216, section 4.2).
    NotDigits,
    /// The text says 1,000,000 seconds or more.
    TooLarge,
}

impl fmt::Display for DurationFault {
    ghost use Rattle.std.specs.Prelude.{Some};
    ghost use Rattle.fixed_duration.specs.Duration.{fault_text};

    ghost output = { λ fault. Some (fault_text fault) };

    fn fmt<W: fmt::Write>(&self, f: &mut fmt::Formatter<W>) -> fmt::Result {
        f.write_str(match self {
            DurationFault::Empty => "U1 Empty",
            DurationFault::NotDigits => "U2 NotDigits",
            DurationFault::TooLarge => "U3 TooLarge",
        })
    }
}

impl Error for DurationFault {}

/// A duration in whole nanoseconds.
#[derive(Clone, Copy, Debug, PartialEq, Eq, PartialOrd, Ord, Hash)]
pub struct Nanos(pub u64);

impl Model for Nanos {
    ghost use Rattle.std.specs.Prelude.{ℕ};

    ghost Value = { ℕ };

    ghost view = { λ a. a.0 };

    ghost inverse = { λ n. record { 0 = n } };
}

impl Nanos {
    /// The duration that `text` states in decimal seconds (RFC 8216, section 4.3.2.1): digits with at most one point,
    /// below 1,000,000 s. Digits past the ninth after the point are dropped. The faults: `Empty` if `text` is empty;
    /// `NotDigits` if it has anything else than digits and one point, or no digit; `TooLarge` from 1,000,000 s on.
    /// Takes no memory.
    ///
    /// ```text
    /// Nanos::read("6.006")    Ok(Nanos(6_006_000_000))
    /// Nanos::read("6,006")    Err(DurationFault::NotDigits)
    /// ```
    pub fn read(text: &str) -> Result<Nanos, DurationFault>
        ensures { result ≡ duration_of text.now }
    {
        if text.is_empty() {
            return Err(DurationFault::Empty);
        }
        let (whole, fraction) = duration_text_parts(text);
        if !are_duration_digits(whole.as_bytes()) || !are_duration_digits(fraction.as_bytes()) {
            return Err(DurationFault::NotDigits);
        }
        if whole.is_empty() && fraction.is_empty() {
            return Err(DurationFault::NotDigits);
        }
        let Some(seconds) = whole_seconds_of_duration(whole.as_bytes()) else {
            return Err(DurationFault::TooLarge);
        };
        let nanos = nanos_of_fraction(fraction.as_bytes());
        Ok(Nanos(seconds * NANOS_PER_SECOND + u64::from(nanos)))
    }

    #[tactic(auto, using(crate::proofs::Again::read_again, crate::proofs::Again::text_whole))]
    /// Appends the duration in seconds to `out`: without a point if it is of whole seconds, else without zeros at the
    /// end. After a failed allocation `out` is as it was.
    pub fn write_to(&self, out: &mut String) -> Result<(), AllocError>
        ensures ok { Appends result out.old out.new (duration_text self.now) }
        ensures err { OnErr result (string_bytes out.new ≡ string_bytes out.old) }

        // What is written of less than 1,000,000 s is read as the same duration.
        ensures again { self.now < 10 ^ 15 → duration_of (duration_text self.now) ≡ Ok self.now }
    {
        let seconds = self.0 / NANOS_PER_SECOND;
        let rest = self.0 % NANOS_PER_SECOND;
        // Most segments last a few whole seconds.
        if seconds < 100 && rest == 0 {
            out.reserve(2)?;
            push_short_duration_number(out, seconds as u8);
            return Ok(());
        }
        let mut buffer = Buffer::new();
        let whole = buffer.format(seconds);
        out.reserve(whole.len() + 10)?;
        out.push_str(whole).unwrap();
        if rest != 0 {
            out.push('.').unwrap();
            push_duration_fraction(out, rest);
        }
        Ok(())
    }

    /// The nearest whole number of seconds, where a half goes up: as EXT-X-TARGETDURATION compares
    /// durations (RFC 8216, section 4.3.3.1).
    pub fn rounded_seconds(&self) -> u64
        ensures { result ≡ rounded_seconds_of self.now }
    {
        let seconds = self.0 / NANOS_PER_SECOND;
        if self.0 % NANOS_PER_SECOND >= NANOS_PER_SECOND / 2 {
            seconds + 1
        } else {
            seconds
        }
    }

    /// The sum of this duration and `other`, or `None` if it passes 2^64 - 1 nanoseconds.
    pub fn checked_add(self, other: Nanos) -> Option<Nanos>
        ensures { SomeIff result (self + other < 2 ^ 64) (self + other) }
    {
        let sum = self.0.checked_add(other.0)?;
        Some(Nanos(sum))
    }
}

// What stands before the first point and after it. Without one the whole text stands before it.
fn duration_text_parts(text: &str) -> (&str, &str)
    ensures whole { result.0.now ≡ whole_part text.now }
    ensures fraction { result.1.now ≡ fraction_part text.now }
{
    text.split_once('.').unwrap_or((text, ""))
}

/// Whether each of `bytes` is a decimal digit. Takes no memory.
pub fn are_duration_digits(bytes: &[u8]) -> bool
    ensures { result ≡ are_digits bytes.now }
{
    bytes.iter().all(|b| b.is_ascii_digit())
}

// The number that digits write, if it is below the limit. It stops there, so any number of digits may come.
fn whole_seconds_of_duration(digits: &[u8]) -> Option<u64>
    requires { IsTrue (are_digits digits.now) }
    ensures { SomeIff result (value_of_digits digits.now < 10 ^ 6) (value_of_digits digits.now) }
{
    let mut value: u64 = 0;
    for digit in digits {
        value = value * 10 + u64::from(*digit - b'0');
        if value >= MAX_SECONDS {
            return None;
        }
    }
    Some(value)
}

// Ten to the power of so many places.
fn power_of_ten_nanos(places: usize) -> u32
    requires { places ≤ 9 }
    ensures { result ≡ 10 ^ places }
{
    POWERS_OF_TEN[places]
}

/// The number that `digits` write, which are nine at most. Takes no memory.
pub fn nanos_number_of_digits(digits: &[u8]) -> u32
    requires digits { IsTrue (are_digits digits.now) }
    requires few { length digits.now ≤ 9 }
    ensures value { result ≡ value_of_digits digits.now }
    ensures below { result < 10 ^ length digits.now }
{
    let mut value: u32 = 0;
    for digit in digits {
        value = value * 10 + u32::from(*digit - b'0');
    }
    value
}

fn first_nine_fraction_digits(digits: &[u8]) -> &[u8]
    ensures { result.now ≡ take 9 digits.now }
{
    digits.get(..9).unwrap_or(digits)
}

/// The nanoseconds that `digits` stand for, which come after the point of a number of seconds: less than
/// 1,000,000,000. Digits after the ninth are dropped.
pub fn nanos_of_fraction(digits: &[u8]) -> u32
    requires { IsTrue (are_digits digits.now) }
    ensures value { result ≡ value_of_digits (nine_digits digits.now) }
    ensures below { result < 10 ^ 9 }
{
    let digits = first_nine_fraction_digits(digits);
    nanos_number_of_digits(digits) * power_of_ten_nanos(9 - digits.len())
}

// Appends a digit.
fn push_duration_digit(out: &mut String, digit: u8)
    requires digit { digit < 10 }
    requires room { string_len out.old < string_capacity out.old }
    ensures text { string_bytes out.new ≡ string_bytes out.old ++ decimal digit }
    ensures len { string_len out.new ≡ string_len out.old + 1 }
    ensures capacity { string_capacity out.old ≤ string_capacity out.new }
{
    out.push((b'0' + digit) as char).unwrap();
}

// Appends a number of at most two digits.
fn push_short_duration_number(out: &mut String, number: u8)
    requires short { number < 100 }
    requires room { string_len out.old + 2 ≤ string_capacity out.old }
    ensures { string_bytes out.new ≡ string_bytes out.old ++ decimal number }
{
    if number < 10 {
        push_duration_digit(out, number);
        return;
    }
    push_duration_digit(out, number / 10);
    push_duration_digit(out, number % 10);
}

// Appends the digits of a fraction of a second, up to the last that is not 0.
fn push_duration_fraction(out: &mut String, nanos: u64)
    requires below { nanos < 10 ^ 9 }
    requires room { string_len out.old + 9 ≤ string_capacity out.old }
    ensures { string_bytes out.new ≡ string_bytes out.old ++ fraction_digits 9 nanos }
{
    let mut rest = nanos;
    let mut places: u32 = 9;
    while rest != 0 && places != 0 {
        places -= 1;
        let unit = 10u64.pow(places);
        let digit = (rest / unit) as u8;
        out.push((b'0' + digit) as char).unwrap();
        rest %= unit;
    }
}
