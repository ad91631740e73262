//! What is said of a break.
ghost use Rattle.std.specs.Prelude.{◌≡◌, true, IfOk, option_map};
ghost use Rattle.playlist_model.specs.LookBack.{or_earlier};
ghost use Rattle.break_finder.specs.Breaks.{described_break_and_tag, nothing_said_of_break};
ghost use Rattle.break_finder.specs.Signals.{break_signal_of_text, is_break_leaving_signal, is_break_returning_signal};

use crate::signal::{Signal, break_signal_of_text};
use fixed_duration::Nanos;
use playlist_model::{DateRange, Instant, Text};
use std::alloc::{AllocError, Global};

/// The first value of each attribute of a break (RFC 8216, section 4.3.2.7).
#[derive(Clone, Copy)]
pub struct Described {
    /// START-DATE.
    pub start: Option<Instant>,
    /// END-DATE.
    pub end: Option<Instant>,
    /// DURATION.
    pub duration: Option<Nanos>,
    /// PLANNED-DURATION.
    pub planned_duration: Option<Nanos>,
    /// What SCTE35-OUT says.
    pub scte35_out: Option<Signal>,
    /// What SCTE35-IN says.
    pub scte35_in: Option<Signal>,
}

/// Nothing is said yet.
pub fn nothing_said_of_break() -> Described
    ensures { result ≡ nothing_said_of_break }
{
    Described {
        start: None,
        end: None,
        duration: None,
        planned_duration: None,
        scte35_out: None,
        scte35_in: None,
    }
}

// The signal that stands, else what the text says.
fn break_signal_or_said(
    alloc: Global,
    stands: Option<Signal>,
    text: &Option<Text>,
) -> Result<Option<Signal>, AllocError>
    ensures { IfOk result (λ signal. signal ≡ or_earlier stands (option_map break_signal_of_text text.now)) }
{
    if stands.is_some() {
        return Ok(stands);
    }
    match text {
        Some(text) => Ok(Some(break_signal_of_text(alloc, text.as_str())?)),
        None => Ok(None),
    }
}

/// What is `said` of a break with `tag` added. Of tags of one ID the first value of an attribute counts (RFC 8216,
/// section 4.3.2.7). Fails only if an allocation fails.
pub fn described_break_and_tag(
    alloc: Global,
    said: Described,
    tag: &DateRange,
) -> Result<Described, AllocError>
    ensures { IfOk result (λ more. more ≡ described_break_and_tag said tag.now) }
{
    Ok(Described {
        start: said.start.or(tag.start),
        end: said.end.or(tag.end),
        duration: said.duration.or(tag.duration),
        planned_duration: said.planned_duration.or(tag.planned_duration),
        scte35_out: break_signal_or_said(alloc, said.scte35_out, &tag.scte35_out)?,
        scte35_in: break_signal_or_said(alloc, said.scte35_in, &tag.scte35_in)?,
    })
}

// Whether no instant comes to this one, if there is one more.
fn break_instant_stays(stands: Option<Instant>, more: Option<Instant>) -> bool
    ensures { result ≡ true → or_earlier stands more ≡ stands }
{
    match stands {
        Some(_) => true,
        None => more.is_none(),
    }
}

fn break_duration_stays(stands: Option<Nanos>, more: Option<Nanos>) -> bool
    ensures { result ≡ true → or_earlier stands more ≡ stands }
{
    match stands {
        Some(_) => true,
        None => more.is_none(),
    }
}

fn break_signal_stays(stands: Option<Signal>, text: &Option<Text>) -> bool
    ensures { result ≡ true → or_earlier stands (option_map break_signal_of_text text.now) ≡ stands }
{
    match stands {
        Some(_) => true,
        None => text.is_none(),
    }
}

#[tactic(auto, using(crate::proofs::NothingNew::nothing_new))]
/// Whether `tag` says nothing that isn't `said` already. Takes no memory.
pub fn says_nothing_new_of_break(said: &Described, tag: &DateRange) -> bool
    ensures { result ≡ true → described_break_and_tag said.now tag.now ≡ said.now }
{
    if !break_instant_stays(said.start, tag.start) {
        return false;
    }
    if !break_instant_stays(said.end, tag.end) {
        return false;
    }
    if !break_duration_stays(said.duration, tag.duration) {
        return false;
    }
    if !break_duration_stays(said.planned_duration, tag.planned_duration) {
        return false;
    }
    if !break_signal_stays(said.scte35_out, &tag.scte35_out) {
        return false;
    }
    break_signal_stays(said.scte35_in, &tag.scte35_in)
}

/// Whether `signal` leaves the network (SCTE 35, section 9.7.3).
pub fn is_break_leaving_signal(signal: Option<Signal>) -> bool
    ensures { result ≡ is_break_leaving_signal signal }
{
    match signal {
        Some(Signal::Leaves(_)) => true,
        _ => false,
    }
}

/// Whether `signal` returns to the network (SCTE 35, section 9.7.3).
pub fn is_break_returning_signal(signal: Option<Signal>) -> bool
    ensures { result ≡ is_break_returning_signal signal }
{
    match signal {
        Some(Signal::Returns(_)) => true,
        _ => false,
    }
}
