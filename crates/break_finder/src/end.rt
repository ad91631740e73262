//! Where a break ends, and whether a segment is before that.
ghost use Rattle.std.specs.Prelude.{◌≡◌, ◌<◌, ◌^◌, option_map, Some, None, IfSome, if◌then◌else◌};
ghost use Rattle.break_finder.specs.Breaks.{at, closed, break_end_after, break_end_of, is_before_break_end, is_not_past_break_end, is_near_break_start};
ghost use Rattle.break_finder.specs.Signals.{break_ticks_nanos, break_signal_nanos, is_break_returning_signal};
ghost use Rattle.break_finder.specs.Ends.{end_view};

use crate::described::{Described, is_break_returning_signal};
use crate::signal::Signal;
use fixed_duration::Nanos;
use playlist_model::Instant;

/// Where a break ends.
#[derive(Clone, Copy)]
pub enum End {
    /// At this instant, in nanoseconds from 1970; it may lie outside the range of instants.
    At(i128),
    /// No segment more is inside.
    Closed,
}

// How many nanoseconds so many ticks of 90 kHz last (SCTE 35, section 9.8.2).
fn break_ticks_nanos(ticks: u64) -> u128
    ensures value { result ≡ break_ticks_nanos ticks }
    ensures bound { result < 2 ^ 96 }
{
    u128::from(ticks) * 100_000 / 9
}

fn break_signal_nanos(signal: Option<Signal>) -> Option<u128>
    ensures value { result ≡ break_signal_nanos signal }
    ensures bound { IfSome result (λ nanos. nanos < 2 ^ 96) }
{
    match signal {
        Some(Signal::Leaves(Some(ticks))) => Some(break_ticks_nanos(ticks)),
        Some(Signal::Returns(Some(ticks))) => Some(break_ticks_nanos(ticks)),
        _ => None,
    }
}

fn break_end_after_wide(start: Option<Instant>, nanos: u128) -> Option<End>
    requires { nanos < 2 ^ 96 }
    ensures { option_map end_view result ≡ break_end_after start (Some nanos) }
{
    match start {
        Some(start) => Some(End::At(i128::from(start.0) + nanos as i128)),
        None => None,
    }
}

fn break_end_after(start: Option<Instant>, duration: Option<Nanos>) -> Option<End>
    ensures { option_map end_view result ≡ break_end_after start duration }
{
    match duration {
        Some(duration) => break_end_after_wide(start, u128::from(duration.0)),
        None => None,
    }
}

fn break_end_after_signal(start: Option<Instant>, signal: Option<Signal>) -> Option<End>
    ensures { option_map end_view result ≡ break_end_after start (break_signal_nanos signal) }
{
    match break_signal_nanos(signal) {
        Some(nanos) => break_end_after_wide(start, nanos),
        None => None,
    }
}

fn stated_break_end(end: Option<Instant>) -> Option<End>
    ensures { option_map end_view result ≡ option_map at end }
{
    match end {
        Some(end) => Some(End::At(i128::from(end.0))),
        None => None,
    }
}

fn closed_break_end(back: Option<Signal>) -> Option<End>
    ensures { option_map end_view result ≡ (if is_break_returning_signal back then Some closed else None) }
{
    if is_break_returning_signal(back) {
        Some(End::Closed)
    } else {
        None
    }
}

/// Where the break ends of which this is `said` and whose pod lasts for `total`: the first end that is known of
/// END-DATE, DURATION, SCTE35-IN, PLANNED-DURATION, the break_duration of SCTE35-OUT, and `total` (RFC 8216, section
/// 4.3.2.7).
pub fn break_end_of(said: &Described, total: Nanos) -> Option<End>
    ensures { option_map end_view result ≡ break_end_of said.now total }
{
    stated_break_end(said.end)
        .or(break_end_after(said.start, said.duration))
        .or(closed_break_end(said.scte35_in))
        .or(break_end_after(said.start, said.planned_duration))
        .or(break_end_after_signal(said.start, said.scte35_out))
        .or(break_end_after(said.start, Some(total)))
}

/// Whether a segment that begins at `instant` is more than `tolerance` before `end`; false if the break is closed or
/// has no end.
pub fn is_before_break_end(instant: Instant, tolerance: Nanos, end: Option<End>) -> bool
    ensures { result ≡ is_before_break_end instant tolerance (option_map end_view end) }
{
    match end {
        Some(End::At(end)) => i128::from(instant.0) + i128::from(tolerance.0) < end,
        Some(End::Closed) => false,
        None => false,
    }
}

/// Whether a break of the end `end` can still be entered at `instant`: it is more than `tolerance` before `end`, or
/// no instant is known of the end.
pub fn is_not_past_break_end(instant: Instant, tolerance: Nanos, end: Option<End>) -> bool
    ensures { result ≡ is_not_past_break_end instant tolerance (option_map end_view end) }
{
    match end {
        Some(End::At(end)) => i128::from(instant.0) + i128::from(tolerance.0) < end,
        Some(End::Closed) => true,
        None => true,
    }
}

/// Whether `instant` and `start` differ by at most `tolerance`; false if there is no `start`.
pub fn is_near_break_start(instant: Instant, tolerance: Nanos, start: Option<Instant>) -> bool
    ensures { result ≡ is_near_break_start instant tolerance start }
{
    match start {
        Some(start) => instant.0.abs_diff(start.0) <= tolerance.0,
        None => false,
    }
}
