//! The lines of date ranges and of segments, handed out in pieces while they are made.
ghost use Rattle.std.specs.Prelude.{◌++◌, ◌<◌, length, OnOk, OnErr, IsErrOf, string_bytes};
ghost use Rattle.byte_streams.specs.Devices.{FailedAtLast, NoneFailed};
ghost use Rattle.byte_streams.specs.Handed.{TookFront};
ghost use Rattle.playlist_write.specs.Owed.{said_text, segments_owed, date_ranges_text};
ghost use Rattle.playlist_write.specs.Inner.Taken.{TookAllBut};

use crate::WriteFault;
use crate::header::write_date_range_line;
use crate::in_force::InForce;
use crate::last_key::LastKey;
use crate::segments::write_next_segment_lines;
use byte_streams::{Sink, SinkFailed, hand_out};
use date_times::TimeWriter;
use playlist_model::InCommon;
use std::alloc::Global;
use stitcher::{StitchedItems, TextRef};

// What is held of a text is handed out once it is so many bytes, or more.
const PIECE_BYTES: usize = 65_536;

/// Room for a piece and most lines that fill it, so that what is held is seldom moved.
pub const PIECE_ROOM: usize = PIECE_BYTES + 4_096;

// Hands out what is held, once it is a piece, and then holds nothing.
fn hand_out_written_piece<S: Sink>(held: &mut String, sink: &mut S) -> Result<(), SinkFailed>
    ensures ok { OnOk result
        (TookAllBut (S.stand sink.old).contents (S.stand sink.new).contents (string_bytes held.new)
        (string_bytes held.old)) }
    ensures err { OnErr result
        (TookFront (S.stand sink.old).contents (S.stand sink.new).contents
        (string_bytes held.old)) }
    ensures unfailed { OnOk result
        (NoneFailed (S.stand sink.old).failed (S.stand sink.new).failed) }
    ensures failed { OnErr result
        (FailedAtLast (S.stand sink.old).failed (S.stand sink.new).failed) }

    // Less than a piece is held then.
    ensures short { OnOk result (length (string_bytes held.new) < PIECE_BYTES) }
{
    if held.len() < PIECE_BYTES {
        return Ok(());
    }
    hand_out(held.as_bytes(), sink)?;
    held.clear();
    Ok(())
}

/// Appends the lines of `date_ranges`, word for word, to the text `held`, and hands its front to `sink` each time
/// that a piece is full. The faults, and what `sink` has taken after one, are those of `write`.
pub fn write_pieces_of_date_ranges<S: Sink>(
    held: &mut String,
    date_ranges: &[TextRef<'_>],
    sink: &mut S,
) -> Result<(), WriteFault>
    ensures ok { OnOk result
        (TookAllBut (S.stand sink.old).contents (S.stand sink.new).contents (string_bytes held.new)
        (string_bytes held.old ++ date_ranges_text date_ranges.now)) }
    ensures err { OnErr result
        (TookFront (S.stand sink.old).contents (S.stand sink.new).contents
        (string_bytes held.old ++ date_ranges_text date_ranges.now)) }
    ensures unfailed { OnOk result
        (NoneFailed (S.stand sink.old).failed (S.stand sink.new).failed) }
    ensures io { IsErrOf result WriteFault.Io
        → FailedAtLast (S.stand sink.old).failed (S.stand sink.new).failed }
    ensures memory { IsErrOf result WriteFault.OutOfMemory
        → NoneFailed (S.stand sink.old).failed (S.stand sink.new).failed }
{
    for date_range in date_ranges {
        write_date_range_line(held, date_range.as_str())?;
        hand_out_written_piece(held, sink)?;
    }
    Ok(())
}

/// Appends the lines of all `segments` to the text `held`, after lines with `before` in force, and hands its front to
/// `sink` each time that a piece is full. The faults, and what `sink` has taken after one, are those of `write`.
pub fn write_pieces_of_segments<'a, S: Sink>(
    alloc: Global,
    held: &mut String,
    before: InForce<'a>,
    segments: StitchedItems<'a>,
    sink: &mut S,
) -> Result<(), WriteFault>
    ensures ok { OnOk result
        (TookAllBut (S.stand sink.old).contents (S.stand sink.new).contents (string_bytes held.new)
        (string_bytes held.old ++ said_text (segments_owed before.entry segments.entry))) }
    ensures err { OnErr result
        (TookFront (S.stand sink.old).contents (S.stand sink.new).contents
        (string_bytes held.old ++ said_text (segments_owed before.entry segments.entry))) }
    ensures unfailed { OnOk result
        (NoneFailed (S.stand sink.old).failed (S.stand sink.new).failed) }
    ensures io { IsErrOf result WriteFault.Io
        → FailedAtLast (S.stand sink.old).failed (S.stand sink.new).failed }
    ensures memory { IsErrOf result WriteFault.OutOfMemory
        → NoneFailed (S.stand sink.old).failed (S.stand sink.new).failed }
{
    let mut segments = segments;
    let mut times = TimeWriter::new();
    let mut key = LastKey::new(alloc);
    let (mut force, mut common) = (before, InCommon::nothing());
    let mut later = force.in_common_after_next(&segments);
    while let Some(next) = segments.next() {
        force = write_next_segment_lines(held, &mut times, &mut key, force, &next, common)?;
        common = later;
        later = force.in_common_after_next(&segments);
        hand_out_written_piece(held, sink)?;
    }
    Ok(())
}
