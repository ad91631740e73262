//! The instant that a text says.
ghost use Rattle.std.specs.Prelude.{◌≡◌, ◌+◌, ◌-◌, ◌*◌, ◌^◌, ◌<◌, ◌≤◌, ◌==◌, drop, length, pos, ◌-ℤ◌, ◌+ℤ◌, ◌*ℤ◌, Some, IsTrue, true, false, slice_index, MatchOption};
ghost use Rattle.std.specs.Option.{ok_or, IfSome, SomeIff};
ghost use Rattle.jiff_core.specs.Calendar.{IsEpochDay, IsWithin};
ghost use Rattle.std.specs.List.{prefix_len};
ghost use Rattle.std.specs.Char.{is_ascii_digit};
ghost use Rattle.date_times.specs.Instant.{date_field, are_date_digits, has_date_form, is_day, is_date, calendar_day_number, is_clock, second_fraction_length, is_second_fraction, zone_offset_seconds, zone_offset_of, if_in_range, instant_of, IsDayOf};
ghost use Rattle.date_times.specs.Inner.Instant.{has_offset_form, zone_offset_minutes, second_end_of};

use crate::Instant;
use fixed_duration::{are_duration_digits, nanos_number_of_digits, nanos_of_fraction};
use jiff_core::civil::Date;
use std::marker::Model;

/// Why a text says no instant.
#[derive(Clone, Copy, PartialEq, Eq, Debug)]
pub enum TimeFault {
    /// B4: the text is no date and time of the form that is read, or says an instant before 1900 or
    /// after 2199.
    BadTime,
}

// `YYYY-MM-DD` has this many bytes.
const DATE_LEN: usize = 10;

// `YYYY-MM-DDThh:mm:ss` has this many bytes.
const CLOCK_END: usize = 19;

const SECONDS_PER_DAY: i64 = 86_400;

const NANOS_PER_SECOND: i128 = 1_000_000_000;

/// The instant that `text` states as EXT-X-PROGRAM-DATE-TIME does (RFC 8216, section 4.3.2.6, after ISO 8601):
/// `YYYY-MM-DDThh:mm:ss`, then optionally a point and 1 to 9 digits, then `Z`, an offset from UTC `+hh:mm`, `+hhmm`,
/// `+hh` or the same with `-`, or nothing for UTC. `BadTime` for every other text, for a date that is no day of the
/// Gregorian calendar, and for an instant before 1900 or after 2199. Takes no memory.
///
/// ```text
/// read_instant("1970-01-01T00:00:01.5Z")    Ok(Instant(1_500_000_000))
/// read_instant("1970-01-01T01:00:01+01")    Ok(Instant(1_000_000_000))
/// read_instant("1970-02-30T00:00:00Z")      Err(TimeFault::BadTime)
/// ```
pub fn read_instant(text: &str) -> Result<Instant, TimeFault>
    ensures { result ≡ ok_or (instant_of text.now) TimeFault.BadTime }
{
    TimeReader::new().read(text)
}

/// Reads instants one after the other, of which most lie on the day of the one before: the number of that day is kept.
#[derive(Drop)]
pub struct TimeReader {
    date: [u8; DATE_LEN],
    day: i64,
}

impl Model for TimeReader {
    ghost use Rattle.date_times.specs.Instant.{IsDayOf};

    ghost Value = { Unit {0} };

    ghost view = { λ _. tt };

    ghost invariant = { λ a. IsDayOf a.date a.day };
}

impl TimeReader {
    /// It has read nothing yet.
    pub fn new() -> TimeReader {
        TimeReader {
            date: *b"1970-01-01",
            day: 0,
        }
    }

    // The day at the front, in days from 1970.
    fn day_of(&mut self, text: &[u8]) -> Option<i64>
        ensures { MatchOption result (is_date text.now ≡ false) (IsDayOf text.now) }
    {
        let date = text.first_chunk::<DATE_LEN>()?;
        if *date == self.date {
            return Some(self.day);
        }
        let day = date_day_of(date)?;
        self.date = *date;
        self.day = day;
        Some(day)
    }

    /// The instant that `text` states, as [`read_instant`] reads it (RFC 8216, section 4.3.2.6), with the same fault.
    /// Takes no memory.
    pub fn read(&mut self, text: &str) -> Result<Instant, TimeFault>
        ensures { result ≡ ok_or (instant_of text.now) TimeFault.BadTime }
    {
        let text = text.as_bytes();
        let Some(day) = self.day_of(text) else {
            return Err(TimeFault::BadTime);
        };
        instant_on_day(text, day).ok_or(TimeFault::BadTime)
    }
}

// The instant of a text at whose front this day stands.
fn instant_on_day(text: &[u8], day: i64) -> Option<Instant>
    requires { IsDayOf text.now day }
    ensures { result ≡ instant_of text.now }
{
    if !is_date_mark_at(text, 10, b'T') {
        return None;
    }
    let clock = clock_seconds_of(text)?;
    let rest = text.get(CLOCK_END..)?;
    let (nanos, offset) = second_end_of(rest)?;
    instant_of_seconds(instant_seconds_from_1970(day, clock, offset), nanos)
}

// The nanoseconds of a second, and the seconds east of UTC, that stand after a time of day.
#[inline(always)]
fn second_end_of(text: &[u8]) -> Option<(u32, i64)>
    ensures value { result ≡ second_end_of text.now }
    ensures bound { IfSome result (λ end. (end.0 < 10 ^ 9) × IsWithin 86400 end.1) }
{
    // Most texts end so.
    if let Some(nanos) = nanos_of_milliseconds_in_utc(text) {
        return Some((nanos, 0));
    }
    other_second_end_of(text)
}

#[tactic(auto, using(crate::proofs::SecondEnds::milliseconds))]
// The nanoseconds of three decimals, if just these and `Z` stand there.
#[inline(always)]
fn nanos_of_milliseconds_in_utc(text: &[u8]) -> Option<u32>
    ensures { IfSome result
        (λ nanos. (nanos < 10 ^ 9) × (second_end_of text.now ≡ Some (nanos, pos 0))) }
{
    let [b'.', hundreds, tens, ones, b'Z'] = text else {
        return None;
    };
    if !hundreds.is_ascii_digit() || !tens.is_ascii_digit() || !ones.is_ascii_digit() {
        return None;
    }
    let (hundreds, tens, ones) = (*hundreds - b'0', *tens - b'0', *ones - b'0');
    let milliseconds = u32::from(hundreds) * 100 + u32::from(tens) * 10 + u32::from(ones);
    Some(milliseconds * 1_000_000)
}

// The same as `second_end_of`, of any text.
#[inline(never)]
fn other_second_end_of(text: &[u8]) -> Option<(u32, i64)>
    ensures value { result ≡ second_end_of text.now }
    ensures bound { IfSome result (λ end. (end.0 < 10 ^ 9) × IsWithin 86400 end.1) }
{
    let len = second_fraction_length(text);
    if !is_second_fraction(len) {
        return None;
    }
    let (fraction, zone) = text.split_at(len);
    let nanos = nanos_of_fraction(second_digits_after_point(fraction));
    Some((nanos, zone_offset_of(zone)?))
}

fn instant_seconds_from_1970(day: i64, clock: u32, offset: i64) -> i64
    requires day { IsEpochDay day }
    requires clock { clock < 86400 }
    requires offset { IsWithin 86400 offset }
    ensures { result ≡ (day *ℤ pos 86400 +ℤ pos clock) -ℤ offset }
{
    day * SECONDS_PER_DAY + i64::from(clock) - offset
}

// Whether this byte, which isn't 0, stands at a place.
fn is_date_mark_at(text: &[u8], place: usize, byte: u8) -> bool
    requires { 0 < byte }
    ensures { result ≡ (slice_index text.now place == byte) }
{
    place < text.len() && text[place] == byte
}

fn are_date_digits(text: &[u8], from: usize, to: usize) -> bool
    requires { from ≤ to }
    ensures { result ≡ are_date_digits text.now from to }
{
    to <= text.len() && are_duration_digits(&text[from..to])
}

// The number that the digits from one place up to another write.
fn date_field(text: &[u8], from: usize, to: usize) -> u32
    requires order { from ≤ to }
    requires few { to ≤ from + 4 }
    requires digits { IsTrue (are_date_digits text.now from to) }
    ensures value { result ≡ date_field text.now from to }
    ensures below { result < 10 ^ (to - from) }
{
    nanos_number_of_digits(&text[from..to])
}

fn has_date_form(text: &[u8]) -> bool
    ensures { result ≡ has_date_form text.now }
{
    are_date_digits(text, 0, 4)
        && is_date_mark_at(text, 4, b'-')
        && are_date_digits(text, 5, 7)
        && is_date_mark_at(text, 7, b'-')
        && are_date_digits(text, 8, 10)
}

// The number of a day of the calendar, from 1970.
fn calendar_day_number(year: u32, month: u32, day: u32) -> Option<i64>
    requires year { year < 10 ^ 4 }
    requires month { month < 10 ^ 2 }
    requires day { day < 10 ^ 2 }
    ensures value { MatchOption result (is_day year month day ≡ false)
        (λ number. (is_day year month day ≡ true) × (number +ℤ pos 719528 ≡ pos (calendar_day_number year month day))) }
    ensures bound { IfSome result IsEpochDay }
{
    let Ok(date) = Date::new(year as i16, month as i8, day as i8) else {
        return None;
    };
    Some(i64::from(date.to_unix_epoch_day()))
}

// The day at the front, in days from 1970.
fn date_day_of(text: &[u8]) -> Option<i64>
    ensures value { MatchOption result (is_date text.now ≡ false)
        (λ day. (is_date text.now ≡ true) × (day +ℤ pos 719528 ≡ pos (calendar_day_number (date_field text.now 0 4) (date_field text.now 5 7) (date_field text.now 8 10)))) }
    ensures bound { IfSome result IsEpochDay }
{
    if !has_date_form(text) {
        return None;
    }
    calendar_day_number(
        date_field(text, 0, 4),
        date_field(text, 5, 7),
        date_field(text, 8, 10),
    )
}

#[tactic(auto, using(crate::proofs::ClockFields::pair_digits, crate::proofs::ClockFields::pair_value))]
// The number below a limit that the two digits from a place on write.
#[inline(always)]
fn clock_field(text: &[u8], from: usize, limit: u32) -> Option<u32>
    requires { from + 2 ≤ length text.now }
    ensures { SomeIff result
        ((are_date_digits text.now from (from + 2) ≡ true) × (date_field text.now from (from + 2) < limit))
        (date_field text.now from (from + 2)) }
{
    let (tens, ones) = (text[from], text[from + 1]);
    if !tens.is_ascii_digit() || !ones.is_ascii_digit() {
        return None;
    }
    let number = u32::from(tens - b'0') * 10 + u32::from(ones - b'0');
    if number >= limit {
        return None;
    }
    Some(number)
}

// The time of day, in seconds.
fn clock_seconds_of(text: &[u8]) -> Option<u32>
    ensures value { MatchOption result (is_clock text.now ≡ false)
        (λ seconds. (is_clock text.now ≡ true) × (seconds ≡ date_field text.now 11 13 * 3600 + date_field text.now 14 16 * 60 + date_field text.now 17 19)) }
    ensures bound { IfSome result (λ seconds. seconds < 86400) }
{
    if text.len() < CLOCK_END {
        return None;
    }
    if text[13] != b':' || text[16] != b':' {
        return None;
    }
    let hour = clock_field(text, 11, 24)?;
    let minute = clock_field(text, 14, 60)?;
    let second = clock_field(text, 17, 60)?;
    Some(hour * 3600 + minute * 60 + second)
}

fn date_digits_length(text: &[u8]) -> usize
    ensures value { result ≡ prefix_len is_ascii_digit text.now }
    ensures bound { result ≤ length text.now }
{
    text.iter().take_while(|b| b.is_ascii_digit()).count()
}

// The bytes of a point and the digits after it.
fn second_fraction_length(text: &[u8]) -> usize
    ensures value { result ≡ second_fraction_length text.now }
    ensures bound { result ≤ length text.now }
{
    if !is_date_mark_at(text, 0, b'.') {
        return 0;
    }
    date_digits_length(&text[1..]) + 1
}

fn is_second_fraction(len: usize) -> bool
    ensures { result ≡ is_second_fraction len }
{
    len == 0 || (2 <= len && len <= 10)
}

fn second_digits_after_point(bytes: &[u8]) -> &[u8]
    ensures { result.now ≡ drop 1 bytes.now }
{
    match bytes {
        [_, later @ ..] => later,
        [] => bytes,
    }
}

// The minutes of an offset after its sign, if it has a form that is read.
fn zone_offset_minutes(text: &[u8]) -> Option<&[u8]>
    ensures value { MatchOption result (has_offset_form text.now ≡ false)
        (λ minutes. (has_offset_form text.now ≡ true) × (minutes.now ≡ zone_offset_minutes text.now)) }
    ensures few { IfSome result (λ minutes. (length minutes.now ≤ 2) × (2 ≤ length text.now)) }
{
    match text {
        [_, _] => Some(&text[2..]),
        [_, _, _, _] => Some(&text[2..]),
        [_, _, b':', _, _] => Some(&text[3..]),
        _ => None,
    }
}

// The seconds of an offset after its sign.
fn zone_offset_seconds(text: &[u8]) -> Option<u32>
    ensures value { result ≡ zone_offset_seconds text.now }
    ensures bound { IfSome result (λ seconds. seconds < 86400) }
{
    let minutes = zone_offset_minutes(text)?;
    let hours = &text[..2];
    if !are_duration_digits(hours) || !are_duration_digits(minutes) {
        return None;
    }
    let (hours, minutes) = (
        nanos_number_of_digits(hours),
        nanos_number_of_digits(minutes),
    );
    if hours >= 24 || minutes >= 60 {
        return None;
    }
    Some(hours * 3600 + minutes * 60)
}

// The seconds east of UTC.
fn zone_offset_of(text: &[u8]) -> Option<i64>
    ensures value { result ≡ zone_offset_of text.now }
    ensures bound { IfSome result (IsWithin 86400) }
{
    match text.split_first() {
        None => Some(0),
        Some((b'Z', [])) => Some(0),
        Some((b'+', east)) => Some(i64::from(zone_offset_seconds(east)?)),
        Some((b'-', west)) => Some(-i64::from(zone_offset_seconds(west)?)),
        Some(_) => None,
    }
}

// The instant so many seconds and nanoseconds from 1970, in range.
fn instant_of_seconds(seconds: i64, nanos: u32) -> Option<Instant>
    requires { nanos < 10 ^ 9 }
    ensures { result ≡ if_in_range (seconds *ℤ pos 1000000000 +ℤ pos nanos) }
{
    Instant::from_nanos(i128::from(seconds) * NANOS_PER_SECOND + i128::from(nanos))
}
