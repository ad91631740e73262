//! How an instant is written.
ghost use Rattle.std.specs.Prelude.{◌≡◌, ◌++◌, ◌<◌, ◌≤◌, ◌^◌, ◌+◌, ◌-◌, ◌*◌, ◌/◌, [], ◌∷◌, take, OnErr, string_bytes, Some, true};
ghost use Rattle.date_times.specs.Instant.{is_leap_year, calendar_days_in_month, in_range, instant_of};
ghost use Rattle.date_times.specs.Digits.{fixed_digits};
ghost use Rattle.date_times.specs.Times.{instant_from_1900, calendar_days_in_year, year_after_days, month_after_days, decimals, date_at, minute_text, time_tag, time_text_at, time_text};
ghost use Rattle.spec_words.specs.Bytes.{line_feed};
ghost use Rattle.fixed_duration.specs.Appended.{Appends};

use crate::{FIRST_INSTANT, Instant};
use std::alloc::AllocError;
use std::marker::Model;
use std::str;

// `#EXT-X-PROGRAM-DATE-TIME:` has this many bytes.
const TAG: usize = 25;

// The tag with `YYYY-MM-DDThh:mm:ss.nnnnnnnnnZ` and a line feed has this many.
const LONGEST: usize = 56;

// The tag, and room for what stands after it.
const EMPTY: [u8; LONGEST] = *b"#EXT-X-PROGRAM-DATE-TIME:0000000000000000000000000000000";

/// The nanoseconds from the first instant to 1970.
const NANOS_TO_1970: u64 = (-FIRST_INSTANT) as u64;

const NANOS_PER_SECOND: u64 = 1_000_000_000;

const NANOS_PER_MINUTE: u64 = 60_000_000_000;

const MINUTES_PER_DAY: u64 = 1_440;

/// The days from the first of 1900 to the first of 1901.
const DAYS_TO_1901: u64 = 365;

/// The days from the first of 1900 to the first of 2100.
const DAYS_TO_2100: u64 = 73_049;

/// The days of each four years in which one is a leap year.
const DAYS_OF_FOUR_YEARS: u64 = 1461;

// The two digits of each number below 100.
static PAIRS: [u8; 200] =
    *b"00010203040506070809101112131415161718192021222324252627282930313233343536373839404142434445464748495051525354555657585960616263646566676869707172737475767778798081828384858687888990919293949596979899";

// Writes one character after the first `at` ones.
fn put_date_mark(text: &mut [u8; LONGEST], at: usize, mark: u8)
    requires { at < LONGEST }
    ensures { take (at + 1) text.new ≡ take at text.old ++ mark ∷ [] }
{
    text[at] = mark;
}

// Writes the two digits of a number.
fn put_two_date_digits(text: &mut [u8; LONGEST], at: usize, number: u64)
    requires small { number < 100 }
    requires room { at + 2 ≤ LONGEST }
    ensures { take (at + 2) text.new ≡ take at text.old ++ fixed_digits 10 2 number }
{
    let from = number as usize * 2;
    put_date_mark(text, at, PAIRS[from]);
    put_date_mark(text, at + 1, PAIRS[from + 1]);
}

// Writes the three digits of a number.
fn put_three_second_digits(text: &mut [u8; LONGEST], at: usize, number: u64)
    requires small { number < 1000 }
    requires room { at + 3 ≤ LONGEST }
    ensures { take (at + 3) text.new ≡ take at text.old ++ fixed_digits 10 3 number }
{
    put_date_mark(text, at, b'0' + (number / 100) as u8);
    put_two_date_digits(text, at + 1, number % 100);
}

// Writes the four digits of a number.
fn put_four_year_digits(text: &mut [u8; LONGEST], at: usize, number: u64)
    requires small { number < 10000 }
    requires room { at + 4 ≤ LONGEST }
    ensures { take (at + 4) text.new ≡ take at text.old ++ fixed_digits 10 4 number }
{
    put_two_date_digits(text, at, number / 100);
    put_two_date_digits(text, at + 2, number % 100);
}

fn is_leap_year(year: u64) -> bool
    ensures { result ≡ is_leap_year year }
{
    year % 4 == 0 && (year % 100 != 0 || year % 400 == 0)
}

fn calendar_days_in_year(year: u64) -> u64
    ensures { result ≡ calendar_days_in_year year }
{
    if is_leap_year(year) { 366 } else { 365 }
}

fn calendar_days_in_month(year: u64, month: u64) -> u64
    ensures { result ≡ calendar_days_in_month year month }
{
    if month == 2 {
        return if is_leap_year(year) { 29 } else { 28 };
    }
    if month == 4 || month == 6 || month == 9 || month == 11 {
        30
    } else {
        31
    }
}

// The year in which a day lies that is so many days after the first of this one, and which day of it.
fn year_after_days(turns: u16, year: u64, days: u64) -> (u64, u64)
    requires { year + turns < 2 ^ 64 }
    ensures value { result ≡ year_after_days turns year days }
    ensures bound { result.0 ≤ year + turns }
    ensures within { result.1 ≤ days }
{
    if turns == 0 {
        return (year, days);
    }
    if days < calendar_days_in_year(year) {
        return (year, days);
    }
    year_after_days(turns - 1, year + 1, days - calendar_days_in_year(year))
}

// The year in which a day lies that is so many days after the first of 1900, and which day of it.
fn year_of_days(days: u64) -> (u64, u64)
    ensures value { result ≡ year_after_days 300 1900 days }
    ensures bound { result.0 ≤ 2200 }
    ensures within { result.1 ≤ days }
{
    if days < DAYS_TO_1901 || days >= DAYS_TO_2100 {
        return year_after_days(300, 1900, days);
    }
    // From 1901 to 2099 each fourth year is a leap year.
    let since = days - DAYS_TO_1901;
    let years = (4 * since + 3) / DAYS_OF_FOUR_YEARS;
    (1901 + years, since - DAYS_OF_FOUR_YEARS * years / 4)
}

// The same with months of a year.
fn month_after_days(turns: u16, year: u64, month: u64, days: u64) -> (u64, u64)
    requires { month + turns < 2 ^ 64 }
    ensures value { result ≡ month_after_days turns year month days }
    ensures bound { result.0 ≤ month + turns }
    ensures within { result.1 ≤ days }
{
    if turns == 0 {
        return (month, days);
    }
    if days < calendar_days_in_month(year, month) {
        return (month, days);
    }
    month_after_days(
        turns - 1,
        year,
        month + 1,
        days - calendar_days_in_month(year, month),
    )
}

// The month of a day and which day of it, in a year whose February has 30 days: its months begin
// at even steps of 367 twelfths of a day.
fn month_of_even_days(days: u64) -> (u64, u64)
    requires { days < 367 }
    ensures month { result.0 ≡ (12 * days + 373) / 367 }
    ensures day { result.1 ≡ days - (367 * ((12 * days + 373) / 367) - 362) / 12 }
{
    let month = (12 * days + 373) / 367;
    (month, days - (367 * month - 362) / 12)
}

// The month in which a day of a year lies, and which day of it.
fn month_of_days(year: u64, days: u64) -> (u64, u64)
    ensures value { result ≡ month_after_days 12 year 1 days }
    ensures bound { result.0 ≤ 13 }
    ensures within { result.1 ≤ days }
{
    let year_days = calendar_days_in_year(year);
    if days >= year_days {
        return month_after_days(12, year, 1, days);
    }
    // 306 days of each year lie after its February.
    if days + 306 < year_days {
        return month_of_even_days(days);
    }
    month_of_even_days(days + 367 - year_days)
}

// Nanoseconds from 1900.
fn instant_from_1900(time: Instant) -> u64
    ensures { result ≡ instant_from_1900 time }
{
    let nanos = time.0;
    if nanos < 0 {
        NANOS_TO_1970.saturating_sub(nanos.unsigned_abs())
    } else {
        nanos.unsigned_abs() + NANOS_TO_1970
    }
}

// Writes the date of the day so many days after 1900 after the tag.
fn put_calendar_date(text: &mut [u8; LONGEST], days: u64)
    requires { days < 2 ^ 40 }
    ensures { take 35 text.new ≡ take 25 text.old ++ date_at days }
{
    let (year, rest) = year_of_days(days);
    let (month, day) = month_of_days(year, rest);
    put_four_year_digits(text, TAG, year);
    put_date_mark(text, 29, b'-');
    put_two_date_digits(text, 30, month);
    put_date_mark(text, 32, b'-');
    put_two_date_digits(text, 33, (day + 1) % 100);
}

// Writes what stands before the seconds of the minute so many minutes after 1900, after the tag.
fn put_minute(text: &mut [u8; LONGEST], minute: u64)
    requires days { minute < 2 ^ 40 }
    requires tag { take 25 text.old ≡ time_tag }
    ensures { take 42 text.new ≡ time_tag ++ minute_text minute }
{
    put_calendar_date(text, minute / MINUTES_PER_DAY);
    put_date_mark(text, 35, b'T');
    put_two_date_digits(text, 36, minute % MINUTES_PER_DAY / 60);
    put_date_mark(text, 38, b':');
    put_two_date_digits(text, 39, minute % 60);
    put_date_mark(text, 41, b':');
}

// Writes the decimals, and returns where they end.
fn put_second_decimals(text: &mut [u8; LONGEST], nanos: u64) -> usize
    requires { nanos < 1000000000 }
    ensures text { take result text.new ≡ take 45 text.old ++ decimals nanos }
    ensures start { 48 ≤ result }
    ensures room { result < 55 }
{
    if nanos % 1_000_000 == 0 {
        put_three_second_digits(text, 45, nanos / 1_000_000);
        return 48;
    }
    put_three_second_digits(text, 45, nanos / 1_000_000);
    put_three_second_digits(text, 48, nanos / 1000 % 1000);
    put_three_second_digits(text, 51, nanos % 1000);
    54
}

// Writes what stands after the minute of the instant so many nanoseconds after 1900, with a line feed. Returns where the line feed
// stands.
fn put_seconds_after_minute(text: &mut [u8; LONGEST], nanos: u64) -> usize
    requires { take 42 text.old ≡ time_tag ++ minute_text (nanos / 60000000000) }
    ensures text { take result text.new ≡ time_tag ++ time_text_at nanos }
    ensures line { take (result + 1) text.new ≡ time_tag ++ (time_text_at nanos ++ line_feed ∷ []) }
    ensures start { 25 ≤ result }
    ensures room { result < 56 }
    ensures minute { take 42 text.new ≡ take 42 text.old }
{
    let within = nanos % NANOS_PER_MINUTE;
    put_two_date_digits(text, 42, within / NANOS_PER_SECOND);
    put_date_mark(text, 44, b'.');
    let end = put_second_decimals(text, within % NANOS_PER_SECOND);
    put_date_mark(text, end, b'Z');
    put_date_mark(text, end + 1, b'\n');
    end + 1
}

/// Appends `instant` to `out`, in UTC with `Z` (RFC 8216, section 4.3.2.6): with three decimals of a second, or nine
/// if three would lose something. After a failed allocation `out` is as it was.
#[tactic(auto, using(crate::proofs::TimeLaws::time_reads))]
pub fn write_instant(instant: Instant, out: &mut String) -> Result<(), AllocError>
    ensures text { Appends result out.old out.new (time_text instant) }
    ensures err { OnErr result (string_bytes out.new ≡ string_bytes out.old) }

    // What is written of an instant in range is read as the same instant.
    ensures again { in_range instant ≡ true → instant_of (time_text instant) ≡ Some instant }
{
    TimeWriter::new().write(instant, out)
}

// Writes the line of an instant over that of another in this minute, and returns where its line feed stands. What stands before the
// seconds is written if the instant lies in another minute.
#[inline(always)]
fn put_instant(text: &mut [u8; LONGEST], minute: &mut u64, instant: Instant) -> usize
    requires { take 42 text.old ≡ time_tag ++ minute_text minute.old }
    ensures text { take result text.new ≡ time_tag ++ time_text instant }
    ensures line { take (result + 1) text.new ≡ time_tag ++ (time_text instant ++ line_feed ∷ []) }
    ensures start { 25 ≤ result }
    ensures room { result < 56 }
    ensures minute { take 42 text.new ≡ time_tag ++ minute_text minute.new }
{
    let since = instant_from_1900(instant);
    let now = since / NANOS_PER_MINUTE;
    if now != *minute {
        put_minute(text, now);
        *minute = now;
    }
    put_seconds_after_minute(text, since)
}

/// Writes instants one after the other, of which most lie in the minute of the one before: what stands before its seconds is kept.
#[derive(Drop)]
pub struct TimeWriter {
    // The minutes from the first of 1900 to that minute.
    minute: u64,
    // The line of its tag.
    text: [u8; LONGEST],
}

impl Model for TimeWriter {
    ghost use Rattle.std.specs.Prelude.{◌≡◌, ◌++◌, take};
    ghost use Rattle.date_times.specs.Times.{minute_text, time_tag};

    ghost Value = { Unit {0} };

    ghost view = { λ _. tt };

    ghost invariant = { λ a. take 42 a.text ≡ time_tag ++ minute_text a.minute };
}

impl TimeWriter {
    #[tactic(auto, unfolding(crate::specs::Times::time_tag))]
    /// It has written nothing yet.
    pub fn new() -> TimeWriter {
        let mut text = EMPTY;
        put_minute(&mut text, 0);
        TimeWriter { minute: 0, text }
    }

    /// Appends `instant` to `out`, as [`write_instant`] does (RFC 8216, section 4.3.2.6). After a failed allocation
    /// `out` is as it was.
    pub fn write(&mut self, instant: Instant, out: &mut String) -> Result<(), AllocError>
        ensures text { Appends result out.old out.new (time_text instant) }
        ensures err { OnErr result (string_bytes out.new ≡ string_bytes out.old) }
    {
        let end = put_instant(&mut self.text, &mut self.minute, instant);
        // What is written is ASCII.
        let time = unsafe { str::from_utf8_unchecked(&self.text[TAG..end]) };
        out.push_str(time)
    }

    /// Appends to `out` the tag of `instant`, EXT-X-PROGRAM-DATE-TIME, and a line feed (RFC 8216, section 4.3.2.6). After a
    /// failed allocation `out` is as it was.
    pub fn write_line(&mut self, instant: Instant, out: &mut String) -> Result<(), AllocError>
        ensures text { Appends result out.old out.new (time_tag ++ (time_text instant ++ line_feed ∷ [])) }
        ensures err { OnErr result (string_bytes out.new ≡ string_bytes out.old) }
    {
        let end = put_instant(&mut self.text, &mut self.minute, instant);
        // What is written is ASCII.
        let line = unsafe { str::from_utf8_unchecked(&self.text[..end + 1]) };
        out.push_str(line)
    }
}
