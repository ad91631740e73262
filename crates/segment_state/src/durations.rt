//! The durations and titles of a playlist's segments (RFC 8216, 4.3.2.1), of which most are the same.
ghost use Rattle.std.specs.Prelude.{◌≡◌, false, Some, None, Ok, Err, IfErr, OnOk, OnErr, MatchResult, MatchOption};
ghost use Rattle.std.specs.List.{before_first, after_first};
ghost use Rattle.attr_list.specs.Attributes.{is_comma};
ghost use Rattle.playlist_model.specs.Said.{duration, duration_said};
ghost use Rattle.segment_state.specs.Kept.{IsDue, own_of};
ghost use Rattle.segment_state.specs.Repeated.{IsLineOf, IsTakenAgain};

use fixed_duration::Nanos;
use playlist_model::FaultKind;
use std::marker::Model;

/// What EXTINF stated last: the next one says the same if its text is the same.
#[derive(Drop)]
pub struct Durations<'a> {
    seconds: SecondsReader<'a>,
    text: &'a str,
    // Whether an EXTINF stood; if so, its duration and its title.
    is_said: bool,
    nanos: Nanos,
    title: &'a str,
    is_due: bool,
    // Whether the text stood twice.
    is_repeated: bool,
    // The whole line of that text, with its line feed, if it stood twice.
    line: Option<&'a str>,
}

impl<'a> Model for Durations<'a> {
    ghost use Rattle.std.specs.Prelude.{List, ℕ, Option};
    ghost use Rattle.segment_state.specs.Kept.{StatesDuration, due_of, kept_own};
    ghost use Rattle.segment_state.specs.Repeated.{IsAgain};
    ghost use Rattle.std.specs.Option.{option_copied};

    ghost Value = { Option (ℕ × List ℕ) };

    ghost view = { due_of };

    ghost invariant = { λ a. StatesDuration a.text.now (kept_own a) × IsAgain (option_copied a.line) (kept_own a) };
}

// Reads the seconds and the title that EXTINF states. Most texts begin as the one before, up to their comma: what that
// front states is kept.
#[derive(Drop)]
struct SecondsReader<'a> {
    front: &'a str,
    nanos: Nanos,
}

impl<'a> Model for SecondsReader<'a> {
    ghost use Rattle.segment_state.specs.Inner.Fronts.{IsDurationFront};

    ghost Value = { Unit {0} };

    ghost view = { λ _. tt };

    ghost invariant = { λ a. IsDurationFront a.front.now a.nanos };
}

impl<'a> SecondsReader<'a> {
    // It has read nothing yet.
    fn new() -> SecondsReader<'a> {
        SecondsReader {
            front: "0,",
            nanos: Nanos(0),
        }
    }

    // Reads a text of another front.
    fn read_other(&mut self, text: &'a str) -> Result<(Nanos, &'a str), FaultKind>
        ensures { MatchResult result
            (λ own. duration_said text.now ≡ Ok (duration own.0 own.1.now))
            (λ e. duration_said text.now ≡ Err e) }
    {
        let (seconds, title) = duration_tag_parts(text);
        let Ok(nanos) = Nanos::read(seconds) else {
            return Err(FaultKind::BadDuration);
        };
        if let Some(front) = text.get(..seconds.len() + 1) {
            self.front = front;
            self.nanos = nanos;
        }
        Ok((nanos, title))
    }

    // What a text states by itself. `BadDuration` if it states no duration.
    fn read(&mut self, text: &'a str) -> Result<(Nanos, &'a str), FaultKind>
        ensures { MatchResult result
            (λ own. duration_said text.now ≡ Ok (duration own.0 own.1.now))
            (λ e. duration_said text.now ≡ Err e) }
    {
        match text.split_at_checked(self.front.len()) {
            Some((front, title)) if front == self.front => Ok((self.nanos, title)),
            _ => self.read_other(text),
        }
    }
}

// What stands before the first comma and after it. Without one the whole text stands before it.
fn duration_tag_parts(text: &str) -> (&str, &str)
    ensures front { result.0.now ≡ before_first is_comma text.now }
    ensures back { result.1.now ≡ after_first is_comma text.now }
{
    text.split_once(',').unwrap_or((text, ""))
}

impl<'a> Durations<'a> {
    /// None was stated yet.
    pub fn new() -> Durations<'a>
        ensures { result ≡ None }
    {
        Durations {
            seconds: SecondsReader::new(),
            text: "",
            is_said: false,
            nanos: Nanos(0),
            title: "",
            is_due: false,
            is_repeated: false,
            line: None,
        }
    }

    // Keeps a text with what it says.
    fn keep(&mut self, text: &'a str, nanos: Nanos, title: &'a str)
        requires { duration_said text.now ≡ Ok (duration nanos title.now) }
        ensures { self.new ≡ Some (nanos, title.now) }
    {
        self.text = text;
        self.is_said = true;
        self.nanos = nanos;
        self.title = title;
        self.is_due = true;
        self.is_repeated = false;
        self.line = None;
    }

    // Reads a text that is not the last one's. Out of line, so that the same text again takes few steps.
    #[inline(never)]
    fn read_other(&mut self, text: &'a str) -> Result<(), FaultKind>
        ensures due { OnOk result (IsDue text.now self.new) }
        ensures err { IfErr result (λ e. duration_said text.now ≡ Err e) }
        ensures kept { OnErr result (self.new ≡ self.old) }
    {
        match self.seconds.read(text) {
            Ok((nanos, title)) => {
                self.keep(text, nanos, title);
                Ok(())
            }
            Err(fault) => Err(fault),
        }
    }

    /// Reads the duration and the title that `text`, the value of EXTINF, states for the next segment (RFC 8216,
    /// section 4.3.2.1). `BadDuration` if it states none; all is then as it was. Takes no memory.
    #[inline]
    pub fn read(&mut self, text: &'a str) -> Result<(), FaultKind>
        ensures due { OnOk result (IsDue text.now self.new) }
        ensures err { IfErr result (λ e. duration_said text.now ≡ Err e) }
        ensures kept { OnErr result (self.new ≡ self.old) }
    {
        if self.is_said && text == self.text {
            self.is_due = true;
            self.is_repeated = true;
            return Ok(());
        }
        self.read_other(text)
    }

    /// Whether `keep_line` may keep a line: the last two stated the same. It has no contract, since `keep_line` looks
    /// for itself.
    #[inline(always)]
    pub fn wants_line(&self) -> bool {
        self.is_repeated && self.line.is_none()
    }

    /// Keeps `line`, a whole line of EXTINF with its line feed, which states `stated`, if the last one stated the same.
    pub fn keep_line(&mut self, line: &'a str, stated: &str)
        requires { IsLineOf line.now stated.now }
        ensures { self.new ≡ self.old }
    {
        if self.is_said && stated == self.text {
            self.line = Some(line);
        }
    }

    /// If `left`, what is left of a playlist, begins with the line that was kept, takes that line again and gives what
    /// is left after it: the next segment has its duration and its title (RFC 8216, section 4.3.2.1).
    #[inline(always)]
    pub fn again(&mut self, left: &'a str) -> Option<&'a str>
        ensures { MatchOption result (self.new ≡ self.old)
            (λ later. IsTakenAgain left.now later.now self.new) }
    {
        let line = self.line?;
        let later = left.strip_prefix(line)?;
        self.is_due = true;
        Some(later)
    }

    /// Whether the next segment has them.
    pub fn is_due(&self) -> bool
        ensures { result ≡ false → self.now ≡ None }
    {
        self.is_due
    }

    /// The duration and the title that the next segment has.
    #[inline(always)]
    pub fn own(&self) -> Option<(Nanos, &'a str)>
        ensures { own_of result ≡ self.now }
    {
        if self.is_due && self.is_said {
            return Some((self.nanos, self.title));
        }
        None
    }

    /// The segment ends: the next one has none yet.
    #[inline]
    pub fn end(&mut self)
        ensures { self.new ≡ None }
    {
        self.is_due = false;
    }
}
