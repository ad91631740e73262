//! When a connection's time is up.
ghost use Rattle.std.specs.Prelude.{◌≡◌, ◌+◌};
ghost use Rattle.std.specs.Time.{instant_nanos, FitsClock};
ghost use Rattle.std.specs.Duration.{as_nanos};
ghost use Rattle.connections.specs.Limits.{serving_nanos, quiet_nanos, ending_nanos};

use std::time::{Duration, Instant};

// How long a request, and then its reply, may take, in milliseconds.
const SERVING_MILLIS: u64 = 10_000;

// How long nothing may have come of a client whose bytes are held, if others need the room, in milliseconds.
const QUIET_MILLIS: u64 = 1_000;

// How long a client may take to close after its reply, in milliseconds.
const ENDING_MILLIS: u64 = 250;

// So much later, or the same instant if the clock has no such one.
fn later_connection_deadline(now: Instant, time: Duration) -> Instant
    ensures later { FitsClock (instant_nanos now + as_nanos time) →
        instant_nanos result ≡ instant_nanos now + as_nanos time }
    ensures last { ¬ (FitsClock (instant_nanos now + as_nanos time)) → result ≡ now }
{
    match now.checked_add(time) {
        Some(then) => then,
        None => now,
    }
}

/// Until when a client that comes at `now` may ask, or one whose request is applied at `now` may take its reply: 10 s
/// later (RFC 9112, section 9.5), or `now` itself if the clock doesn't reach so far.
pub fn serving_deadline(now: Instant) -> Instant
    ensures later { FitsClock (instant_nanos now + serving_nanos) →
        instant_nanos result ≡ instant_nanos now + serving_nanos }
    ensures last { ¬ (FitsClock (instant_nanos now + serving_nanos)) → result ≡ now }
{
    later_connection_deadline(now, Duration::from_millis(SERVING_MILLIS))
}

/// Until when a client of which something came at `now` isn't quiet: a second later, or `now` itself if the clock doesn't reach so
/// far.
pub fn quiet_deadline(now: Instant) -> Instant
    ensures later { FitsClock (instant_nanos now + quiet_nanos) →
        instant_nanos result ≡ instant_nanos now + quiet_nanos }
    ensures last { ¬ (FitsClock (instant_nanos now + quiet_nanos)) → result ≡ now }
{
    later_connection_deadline(now, Duration::from_millis(QUIET_MILLIS))
}

/// Until when a client whose reply is gone at `now` may close: 250 ms later, or `now` itself if the clock doesn't
/// reach so far.
pub fn ending_deadline(now: Instant) -> Instant
    ensures later { FitsClock (instant_nanos now + ending_nanos) →
        instant_nanos result ≡ instant_nanos now + ending_nanos }
    ensures last { ¬ (FitsClock (instant_nanos now + ending_nanos)) → result ≡ now }
{
    later_connection_deadline(now, Duration::from_millis(ENDING_MILLIS))
}
