//! Standard error, of which nothing is ever waited for.

use arrayvec::ArrayString;
use mio::unix::SourceFd;
use mio::{Events, Interest, Poll, Token};
use std::alloc::{AllocError, Global};
use std::io::Write;
use std::process::ExitCode;
use std::time::Duration;

// The descriptor of standard error.
const STDERR: i32 = 2;

// The longest line, with its line feed.
const LINE: usize = 64;

/// The line of a failed allocation.
pub const OUT_OF_MEMORY: &str = "E5 OutOfMemory\n";

/// Writes `line` to standard error, and gives the exit status of a run that failed.
pub fn fails_on_standard_error(rt: &HostRuntime, line: &str) -> ExitCode {
    let _ = rt.stderr().write_all(line.as_bytes());
    ExitCode::from(1)
}

/// Tells faults on standard error, a line each. A line that the system would have the server wait with is dropped: nobody
/// may hold the others by not reading what is told.
#[derive(Drop)]
pub struct Faults {
    // None if a write never waits, as to a file.
    readiness: Option<Poll>,
    events: Events,
}

// What tells whether standard error would wait, if it can.
fn standard_error_readiness(rt: &HostRuntime) -> Option<Poll> {
    let poll = Poll::new(rt).ok()?;
    poll.registry()
        .register(&mut SourceFd(&STDERR), Token(0), Interest::WRITABLE)
        .ok()?;
    Some(poll)
}

// A text and a line feed, if they fit.
fn standard_error_line_of(text: &str) -> Option<ArrayString<LINE>> {
    let mut line = ArrayString::<LINE>::new();
    line.try_push_str(text).ok()?;
    line.try_push('\n').ok()?;
    Some(line)
}

impl Faults {
    /// Fails only if an allocation fails.
    pub fn new(rt: &HostRuntime, alloc: Global) -> Result<Faults, AllocError> {
        Ok(Faults {
            readiness: standard_error_readiness(rt),
            events: Events::with_capacity(alloc, 1)?,
        })
    }

    // Whether a line would be waited for.
    fn waits(&mut self) -> bool {
        let Some(poll) = &mut self.readiness else {
            return false;
        };
        // (only a new interest has the system tell again what is ready already)
        let asked = poll
            .registry()
            .reregister(&mut SourceFd(&STDERR), Token(0), Interest::WRITABLE);
        if asked.is_err() {
            return true;
        }
        let now = Duration::from_millis(0);
        if poll.poll(&mut self.events, Some(now)).is_err() {
            return true;
        }
        self.events.is_empty()
    }

    /// Writes the line of the fault `text` to standard error, unless that would wait.
    pub fn tell(&mut self, rt: &HostRuntime, text: &str) {
        if self.waits() {
            return;
        }
        if let Some(line) = standard_error_line_of(text) {
            let _ = rt.stderr().write(line.as_str().as_bytes());
        }
    }
}
