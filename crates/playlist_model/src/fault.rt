//! How faults are printed.
ghost use Rattle.std.specs.Prelude.{◌≡◌, ◌≤◌, length, Some};
ghost use Rattle.playlist_model.specs.FaultTexts.{kind_text, fault_text};

use crate::{FaultKind, PlaylistFault};
use arrayvec::ArrayString;
use itoa::Buffer;
use std::error::Error;
use std::fmt;

/// What is printed of a fault, without its line feed. The bytes lie in the value itself, so that a fault
/// can be told if no memory is left. There is room for a name of 20 bytes, ` line ` and 20 digits.
pub type FaultText = ArrayString<46>;

impl FaultKind {
    /// The code and the name, as `P17 NoDuration`.
    pub fn name(self) -> &'static str
        ensures text { result.now ≡ kind_text self }
        ensures short { length result.now ≤ 20 }
    {
        match self {
            FaultKind::NotUtf8 => "P1 NotUtf8",
            FaultKind::TooLong => "P2 TooLong",
            FaultKind::NoHeader => "P3 NoHeader",
            FaultKind::Control => "P4 Control",
            FaultKind::BadVersion => "P5 BadVersion",
            FaultKind::Version => "P6 Version",
            FaultKind::Repeated => "P7 Repeated",
            FaultKind::Misplaced => "P8 Misplaced",
            FaultKind::BadValue => "P9 BadValue",
            FaultKind::BadDuration => "P10 BadDuration",
            FaultKind::BadAttributes => "P11 BadAttributes",
            FaultKind::MissingAttribute => "P12 MissingAttribute",
            FaultKind::BadRange => "P13 BadRange",
            FaultKind::RangeNoStart => "P14 RangeNoStart",
            FaultKind::BadTime => "P15 BadTime",
            FaultKind::BadUri => "P16 BadUri",
            FaultKind::NoDuration => "P17 NoDuration",
            FaultKind::NoTarget => "P18 NoTarget",
            FaultKind::MasterPlaylist => "P19 MasterPlaylist",
            FaultKind::IFramesOnly => "P20 IFramesOnly",
            FaultKind::NoSegments => "P21 NoSegments",
            FaultKind::MixedMaps => "P22 MixedMaps",
            FaultKind::MapWithoutIv => "P23 MapWithoutIv",
            FaultKind::TooMany => "P24 TooMany",
            FaultKind::OutOfMemory => "P25 OutOfMemory",
        }
    }
}

impl PlaylistFault {
    /// The kind's name, and ` line N` if the fault stands on a line.
    pub fn text(self) -> FaultText
        ensures { result.bytes ≡ fault_text self }
    {
        let mut text = FaultText::new();
        text.push_str(self.kind.name());
        if self.line != 0 {
            text.push_str(" line ");
            text.push_str(Buffer::new().format(self.line));
        }
        text
    }
}

/// The fault's code and name, as `P17 NoDuration`.
impl fmt::Display for FaultKind {
    ghost output = { λ kind. Some (kind_text kind) };

    fn fmt<W: fmt::Write>(&self, f: &mut fmt::Formatter<W>) -> fmt::Result {
        f.write_str(self.name())
    }
}

/// The kind, and ` line N` if the fault stands on a line.
impl fmt::Display for PlaylistFault {
    ghost output = { λ fault. Some (fault_text fault) };

    fn fmt<W: fmt::Write>(&self, f: &mut fmt::Formatter<W>) -> fmt::Result {
        f.write_str(self.text().as_str())
    }
}

impl Error for FaultKind {}

impl Error for PlaylistFault {}
