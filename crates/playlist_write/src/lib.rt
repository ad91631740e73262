//! Writes media playlists (RFC 8216, section 4.3).
#![tactic(auto)]

ghost use Rattle.std.specs.Prelude.{◌≡◌, ◌++◌, true, codes, OnOk, OnErr, IfOk, IsErrOf, string_bytes};
ghost use Rattle.std.specs.Io.KnownBytes.{Appends};
ghost use Rattle.url.specs.Parts.{Parts};
ghost use Rattle.byte_streams.specs.Devices.{FailedAtLast, NoneFailed};
ghost use Rattle.playlist_model.specs.Reading.{Denotes};
ghost use Rattle.playlist_write.specs.Owed.{playlist_text, said_text, header_owed, ended_owed, with_feed};
ghost use Rattle.playlist_write.specs.WellFormed.{well_formed};
ghost use Rattle.playlist_write.specs.Denoted.{denoted};
ghost use Rattle.byte_streams.specs.Handed.{TookFront};

use crate::header::{write_end_line, write_header_lines};
use crate::in_force::InForce;
use crate::lines::write_line;
use crate::pieces::{PIECE_ROOM, write_pieces_of_date_ranges, write_pieces_of_segments};
use byte_streams::{Sink, SinkFailed, hand_out};
use playlist_model::{Items, Keys, PlaylistKind};
use std::alloc::{AllocError, Global};
use stitcher::{StitchedList, TextRef};

mod date_ranges;
mod digits;
mod header;
mod in_force;
mod keys;
mod last_key;
pub mod laws;
mod lines;
mod pieces;
pub mod resumed;
mod room;
mod segments;
mod well_formed;

/// A playlist as it is written.
#[derive(Drop)]
pub struct OutPlaylist<'a> {
    /// EXT-X-VERSION.
    pub version: u64,
    /// EXT-X-TARGETDURATION, in seconds.
    pub target_duration: u64,
    /// EXT-X-PLAYLIST-TYPE, if it is stated.
    pub playlist_type: Option<PlaylistKind>,
    /// Whether EXT-X-INDEPENDENT-SEGMENTS is stated.
    pub independent_segments: bool,
    /// Whether no segment will follow: EXT-X-ENDLIST.
    pub end_list: bool,
    /// What stands after `#EXT-X-DATERANGE:`, for each date range.
    pub date_ranges: Items<TextRef<'a>>,
    /// The segments, in their order.
    pub segments: StitchedList<'a>,
}

/// Why a playlist was not written, or not whole.
#[derive(Clone, Copy, PartialEq, Eq, Debug)]
pub enum WriteFault {
    /// O1: the sink failed, or took nothing.
    Io,
    /// O2: an allocation failed.
    OutOfMemory,
}

impl From<AllocError> for WriteFault {
    ghost use Rattle.playlist_write.specs.declared.WriteFault.TheVariants.{OutOfMemory};

    ghost from_gives = { λ _ fault. fault ≡ OutOfMemory };

    fn from(_error: AllocError) -> WriteFault {
        WriteFault::OutOfMemory
    }
}

impl From<SinkFailed> for WriteFault {
    ghost use Rattle.playlist_write.specs.declared.WriteFault.TheVariants.{Io};

    ghost from_gives = { λ _ fault. fault ≡ Io };

    fn from(_failed: SinkFailed) -> WriteFault {
        WriteFault::Io
    }
}

// The lines before the date ranges, in a text with so much room.
fn written_lines_before_date_ranges(
    alloc: Global,
    room: usize,
    playlist: &OutPlaylist<'_>,
) -> Result<String, AllocError>
    ensures { IfOk result
        (λ text. string_bytes text
        ≡ with_feed (codes "#EXTM3U") ++ said_text (header_owed playlist.now)) }
{
    let mut text = String::with_capacity(alloc, room)?;
    write_line(&mut text, "#EXTM3U")?;
    write_header_lines(&mut text, playlist)?;
    Ok(text)
}

// Adds the end to what is held, and hands all of it out.
fn write_playlist_end<S: Sink>(
    held: &mut String,
    ended: bool,
    sink: &mut S,
) -> Result<(), WriteFault>
    ensures ok { OnOk result
        (Appends (S.stand sink.old).contents (S.stand sink.new).contents
        (string_bytes held.old ++ said_text (ended_owed ended))) }
    ensures err { OnErr result
        (TookFront (S.stand sink.old).contents (S.stand sink.new).contents
        (string_bytes held.old ++ said_text (ended_owed ended))) }
    ensures unfailed { OnOk result
        (NoneFailed (S.stand sink.old).failed (S.stand sink.new).failed) }
    ensures io { IsErrOf result WriteFault.Io
        → FailedAtLast (S.stand sink.old).failed (S.stand sink.new).failed }
    ensures memory { IsErrOf result WriteFault.OutOfMemory
        → NoneFailed (S.stand sink.old).failed (S.stand sink.new).failed }
{
    write_end_line(held, ended)?;
    Ok(hand_out(held.as_bytes(), sink)?)
}

// Makes the text of a playlist, and hands it out in pieces.
fn write_playlist_text<S: Sink>(
    alloc: Global,
    playlist: &OutPlaylist<'_>,
    sink: &mut S,
) -> Result<(), WriteFault>
    ensures ok { OnOk result
        (Appends (S.stand sink.old).contents (S.stand sink.new).contents
        (playlist_text playlist.now)) }
    ensures err { OnErr result
        (TookFront (S.stand sink.old).contents (S.stand sink.new).contents
        (playlist_text playlist.now)) }
    ensures unfailed { OnOk result
        (NoneFailed (S.stand sink.old).failed (S.stand sink.new).failed) }
    ensures io { IsErrOf result WriteFault.Io
        → FailedAtLast (S.stand sink.old).failed (S.stand sink.new).failed }
    ensures memory { IsErrOf result WriteFault.OutOfMemory
        → NoneFailed (S.stand sink.old).failed (S.stand sink.new).failed }
{
    let mut held = written_lines_before_date_ranges(alloc, PIECE_ROOM, playlist)?;
    write_pieces_of_date_ranges(&mut held, playlist.date_ranges.as_slice(), sink)?;
    let (no_keys, no_init_section) = (Keys::none(), None);
    let nothing = InForce::new(&no_keys, &no_init_section);
    write_pieces_of_segments(alloc, &mut held, nothing, playlist.segments.items(), sink)?;
    write_playlist_end(&mut held, playlist.end_list, sink)
}

#[tactic(auto, using(crate::proofs::Whole::text_denotes))]
/// Writes the text of `playlist` to `sink` (RFC 8216, section 4). After a fault `sink` has taken a front of it: `Io`
/// if a write failed or took nothing, `OutOfMemory` if an allocation failed. It holds no more of the text than 64 KiB
/// and the lines of one segment or date range.
///
/// ```text
/// let mut sink = TestSink::new(alloc, 4096, 4096, 0)?;
/// write(alloc, &playlist, &mut sink)    Ok(())
/// sink.bytes()                          b"#EXTM3U\n#EXT-X-VERSION:6\n .."
/// ```
pub fn write<S: Sink>(
    alloc: Global,
    playlist: &OutPlaylist<'_>,
    sink: &mut S,
) -> Result<(), WriteFault>
    ensures ok { OnOk result
        (Appends (S.stand sink.old).contents (S.stand sink.new).contents
        (playlist_text playlist.now)) }
    ensures err { OnErr result
        (TookFront (S.stand sink.old).contents (S.stand sink.new).contents
        (playlist_text playlist.now)) }

    // The text of a playlist that is well formed is read as that playlist, whatever the base.
    ensures denotes { well_formed playlist.now ≡ true
        → (base : Parts) → Denotes base (playlist_text playlist.now) (denoted playlist.now) }

    // The sink is blamed exactly if a write failed or took nothing, and that write is the last: never for a failed allocation.
    ensures unfailed { OnOk result
        (NoneFailed (S.stand sink.old).failed (S.stand sink.new).failed) }
    ensures io { IsErrOf result WriteFault.Io
        → FailedAtLast (S.stand sink.old).failed (S.stand sink.new).failed }
    ensures memory { IsErrOf result WriteFault.OutOfMemory
        → NoneFailed (S.stand sink.old).failed (S.stand sink.new).failed }
{
    write_playlist_text(alloc, playlist, sink)
}
