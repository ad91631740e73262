//! Why a refresh of a live playlist is refused, and how that is printed.
ghost use Rattle.std.specs.Prelude.{◌≡◌, ◌≤◌, length, Some};
ghost use Rattle.channel_spec.specs.FaultTexts.{refresh_fault_text};

use arrayvec::ArrayString;
use itoa::Buffer;
use playlist_model::{FaultKind, FaultText, PlaylistFault};
use std::alloc::AllocError;
use std::error::Error;
use std::fmt;

/// Why a refresh of a live playlist is refused: it can't be read, or a client that holds the playlist before it may
/// not be given it (RFC 8216, sections 4.3.3 and 6.2.1).
#[derive(Clone, Copy, PartialEq, Eq, Debug)]
pub enum RefreshFault {
    /// P1 to P24: the text is no playlist that can be read.
    Playlist(PlaylistFault),
    /// N1: the version isn't that of the playlist before.
    VersionChanged,
    /// N2: the target duration isn't (6.2.1).
    TargetChanged,
    /// N3: the playlist type isn't (4.3.3.5).
    TypeChanged,
    /// N4: segments have an initialisation section where they had none, or the other way round.
    MapsChanged,
    /// N5: the playlist starts at an earlier segment (6.2.2).
    Back,
    /// N6: the playlist starts after the segment that follows the last one.
    Gap,
    /// N7: the playlist ends at an earlier segment.
    Shrunk,
    /// N8: the segment of this number isn't as it was, or its discontinuity number doesn't follow (6.2.1).
    Changed(u64),
    /// N9: the playlist before had ended (4.3.3.4).
    Ended,
    /// N10: a number of the stitched list would pass 2^64 - 1.
    NumberRange,
    /// N11: an allocation failed.
    OutOfMemory,
}

/// What is printed of a fault as `text`, in a value that has room for it.
pub fn short_text<const ROOM: usize>(text: &str) -> ArrayString<ROOM>
    requires { length text.now ≤ ROOM }
    ensures { result.bytes ≡ text.now }
{
    let mut short = ArrayString::<ROOM>::new();
    short.push_str(text);
    short
}

// `N8 Changed`, and the number of the segment.
fn changed_segment_refresh_fault_text(number: u64) -> FaultText
    ensures { result.bytes ≡ refresh_fault_text (RefreshFault.Changed number) }
{
    let mut text = FaultText::new();
    text.push_str("N8 Changed ");
    text.push_str(Buffer::new().format(number));
    text
}

impl RefreshFault {
    /// The code and the name, and its place: `P9 BadValue line 7`, or `N8 Changed 12` with the segment's Media Sequence
    /// Number.
    pub fn text(self) -> FaultText
        ensures { result.bytes ≡ refresh_fault_text self }
    {
        match self {
            RefreshFault::Playlist(unread) => unread.text(),
            RefreshFault::VersionChanged => short_text("N1 VersionChanged"),
            RefreshFault::TargetChanged => short_text("N2 TargetChanged"),
            RefreshFault::TypeChanged => short_text("N3 TypeChanged"),
            RefreshFault::MapsChanged => short_text("N4 MapsChanged"),
            RefreshFault::Back => short_text("N5 Back"),
            RefreshFault::Gap => short_text("N6 Gap"),
            RefreshFault::Shrunk => short_text("N7 Shrunk"),
            RefreshFault::Changed(number) => changed_segment_refresh_fault_text(number),
            RefreshFault::Ended => short_text("N9 Ended"),
            RefreshFault::NumberRange => short_text("N10 NumberRange"),
            RefreshFault::OutOfMemory => short_text("N11 OutOfMemory"),
        }
    }
}

/// The fault's text, as the program prints it.
impl fmt::Display for RefreshFault {
    ghost output = { λ fault. Some (refresh_fault_text fault) };

    fn fmt<W: fmt::Write>(&self, f: &mut fmt::Formatter<W>) -> fmt::Result {
        f.write_str(self.text().as_str())
    }
}

impl Error for RefreshFault {}

impl From<AllocError> for RefreshFault {
    ghost use Rattle.channel_spec.specs.declared.fault.RefreshFault.TheVariants.{OutOfMemory};

    ghost from_gives = { λ _ fault. fault ≡ OutOfMemory };

    fn from(_error: AllocError) -> RefreshFault {
        RefreshFault::OutOfMemory
    }
}

/// Memory that was refused while a playlist was read is no fault of it.
impl From<PlaylistFault> for RefreshFault {
    ghost use Rattle.channel_spec.specs.Unread.{fault_of_reading};

    ghost from_gives = { λ fault refused. refused ≡ fault_of_reading fault };

    fn from(fault: PlaylistFault) -> RefreshFault {
        if fault.kind == FaultKind::OutOfMemory {
            return RefreshFault::OutOfMemory;
        }
        RefreshFault::Playlist(fault)
    }
}
