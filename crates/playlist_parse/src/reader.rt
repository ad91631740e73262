//! The reader: from bytes to a playlist, or its first fault.
ghost use Rattle.std.specs.Prelude.{◌≡◌, ◌+◌, ◌^◌, ◌<◌, ◌≤◌, List, ℕ, [], ◌∷◌, ◌++◌, codes, length, true, false, Ok, Err, IfOk, OnOk};
ghost use Rattle.std.specs.List.{list_all};
ghost use Rattle.std.specs.Str.{is_utf8};
ghost use Rattle.std.specs.Str.Lines.{lines};
ghost use Rattle.url.specs.Parts.{Parts};
ghost use Rattle.playlist_model.specs.Said.{nothing};
ghost use Rattle.playlist_model.specs.Reading.{reading, limited, said_by, said_from, and_whole, Fault};
ghost use Rattle.playlist_parse.specs.Inner.LineViews.{is_free};
ghost use Rattle.playlist_parse.specs.Light.{AreLight};
ghost use Rattle.playlist_parse.specs.Inner.Reached.{Reached, Telling, Reads, TellsFault, left_in};
ghost use Rattle.playlist_parse.specs.Answers.{HasNoHeader};
ghost use Rattle.playlist_parse.specs.Inner.Source.{Grown};
ghost use Rattle.playlist_kept.specs.Places.{StandInBoth};
ghost use Rattle.playlist_kept.specs.Kept.{AnswersRead, AreKeptLines, IsKeptUnderBase, IsTakenFrom, kept_segments, playlist_in};

use crate::line::{Lines, cut_after_segment_lines, has_plain_line_bytes};
use crate::reading::{
    Reading, fault_at_line, read_all_lines, read_some_lines, reading_of_lines,
    whole_playlist_reading,
};
use crate::source::{date_ranges_known_of_source, source_lines_of_reading, take_over_source_lines};
use playlist_kept::{LastPlaylist, Places, Read, read_with_places};
use playlist_model::{FaultKind, MAX_BYTES, PlaylistFault, playlist_text_of};
use std::alloc::Global;
use uri_resolver::Base;

#[tactic(none)]
// Reads the lines that are left, some of which may be taken over: at which places the segments of these stand.
fn read_front_lines<'a>(
    alloc: Global,
    reading: &mut Reading<'a>,
    is_plain: bool,
    base: &Base,
    source: &'a Option<LastPlaylist>,
) -> Result<Places, PlaylistFault>
    requires few { length (left_in reading.old) < 2 ^ 63 }
    requires plain { is_plain ≡ true → list_all is_free (left_in reading.old) ≡ true }
    requires begun { (all : List (List ℕ))
        → Reached base.now reading.old.progress reading.old.number all all }
    requires kept { IsKeptUnderBase base.now source.now }
    ensures reached { Reads base.now reading.old result reading.new }
    ensures light { TellsFault base.now reading.old result reading.new }
    ensures none_left { OnOk result (reading.new.lines ≡ []) }
    ensures taken { IfOk result
        (StandInBoth (kept_segments source.now) reading.new.progress.segments) }
{
    match read_some_lines(reading, is_plain, 1) {
        Ok(()) => {}
        Err(fault) => return Err(fault),
    }
    // (a text without a segment takes nothing over, so the faults of its tags need no memory)
    if reading.progress.has_fewer_than(1) {
        return Ok(Places::none());
    }
    let places = match take_over_source_lines(alloc, reading, base, source) {
        Ok(places) => places,
        Err(_) => return Err(fault_at_line(FaultKind::OutOfMemory, 0)),
    };
    match read_all_lines(reading, is_plain) {
        Ok(()) => Ok(places),
        Err(fault) => Err(fault),
    }
}

#[tactic(none)]
// The playlist that is read, after the lines of this text, the last ones.
fn read_tail_lines<'a>(
    reading: Reading<'a>,
    tail: &'a str,
    is_plain: bool,
) -> Result<Read<'a>, PlaylistFault>
    requires few { reading.number + length (lines tail.now) < 2 ^ 64 }
    requires plain { is_plain ≡ true → list_all is_free (lines tail.now) ≡ true }
    ensures answer { (base : Parts) (all : List (List ℕ))
        → Reached base reading.entry.progress reading.entry.number (lines tail.entry.now) all
        → AnswersRead result (and_whole (said_from (said_by limited base) (nothing ∷ []) all)) }
    ensures light { (base : Parts) (e : Fault)
        → Telling base reading.entry.progress reading.entry.number (lines tail.entry.now) e
        → result ≡ Err e }
    ensures grown { (base : Parts) (all : List (List ℕ))
        → Reached base reading.entry.progress reading.entry.number (lines tail.entry.now) all
        → IfOk result (λ read. Grown reading.entry.progress (playlist_in read)) }
    ensures front { IfOk result (λ read. read.front ≤ length read.playlist.segments) }
{
    let mut reading = reading;
    reading.lines = Lines::new(tail);
    match read_all_lines(&mut reading, is_plain) {
        Ok(()) => whole_playlist_reading(reading),
        Err(fault) => Err(fault),
    }
}

#[tactic(none)]
// Reads the lines after the header. `is_plain` says that none of them has a control character.
fn read_lines_after_header<'a>(
    alloc: Global,
    body: &'a str,
    is_plain: bool,
    base: &'a Base,
    source: &'a Option<LastPlaylist>,
) -> Result<Read<'a>, PlaylistFault>
    requires few { length (lines body.now) < 2 ^ 63 }
    requires plain { is_plain ≡ true → list_all is_free (lines body.now) ≡ true }
    requires kept { IsKeptUnderBase base.now source.now }
    ensures answer { AnswersRead result (and_whole (said_from (said_by limited base.now) (nothing
        ∷ []) (lines body.entry.now))) }
    ensures light { (front later : List (List ℕ)) (e : Fault)
        → lines body.entry.now ≡ front ++ later → AreLight front
        → said_from (said_by limited base.now) (nothing ∷ []) front ≡ Err e → result ≡ Err e }
    ensures lines { IfOk result (λ read. AreKeptLines base.now (playlist_in read) read.lines) }
    ensures taken { IfOk result (IsTakenFrom (kept_segments source.now)) }
    ensures front { IfOk result (λ read. read.front ≤ length read.playlist.segments) }
{
    let cut = cut_after_segment_lines(body);
    let known = date_ranges_known_of_source(base, source);
    let mut reading = reading_of_lines(alloc, base, known, Lines::new(cut.front));
    let places = match read_front_lines(alloc, &mut reading, is_plain, base, source) {
        Ok(places) => places,
        Err(fault) => return Err(fault),
    };
    let lines = match source_lines_of_reading(alloc, cut.front, &reading) {
        Ok(lines) => lines,
        Err(_) => return Err(fault_at_line(FaultKind::OutOfMemory, 0)),
    };
    let read = match read_tail_lines(reading, cut.tail, is_plain) {
        Ok(read) => read,
        Err(fault) => return Err(fault),
    };
    match read_with_places(alloc, read, places, lines) {
        Ok(read) => Ok(read),
        Err(_) => Err(fault_at_line(FaultKind::OutOfMemory, 0)),
    }
}

/// The playlist that `bytes` denote under `base` (RFC 8216, section 4), of at most 4,194,304 bytes, 10,000 segments,
/// 64 attributes in a tag and 16 key formats in force; or its first fault and the line of that. The text is UTF-8
/// (section 4.1), and its first line is `#EXTM3U` (section 4.3.1.1). `OutOfMemory`, at the line 0, only if an
/// allocation fails.
///
/// `source` is what was kept of the last playlist, if anything was. What both texts have in common is taken over from
/// there.
///
/// ```text
/// read(alloc, b"#EXTM3U\n#EXT-X-TARGETDURATION:6\n#EXTINF:6,\ns0.ts\n", &base, &None)    Ok: one segment
/// read(alloc, b"#EXTM3U\n#EXTINF:6,\ns0.ts\n", &base, &None)                            Err: P18 NoTarget
/// ```
pub fn read<'a>(
    alloc: Global,
    bytes: &'a [u8],
    base: &'a Base,
    source: &'a Option<LastPlaylist>,
) -> Result<Read<'a>, PlaylistFault>
    requires { IsKeptUnderBase base.now source.now }
    ensures answer { AnswersRead result (reading limited base.now bytes.now) }

    // These faults are answered whatever memory there is.
    ensures utf8 { is_utf8 bytes.now ≡ false
        → result ≡ Err (record { kind = FaultKind.NotUtf8; line = 0 }) }
    ensures long { is_utf8 bytes.now ≡ true → MAX_BYTES < length bytes.now
        → result ≡ Err (record { kind = FaultKind.TooLong; line = 0 }) }
    ensures header { is_utf8 bytes.now ≡ true → length bytes.now ≤ MAX_BYTES
        → HasNoHeader bytes.now → result ≡ Err (record { kind = FaultKind.NoHeader; line = 1 }) }

    // So is the first fault of the lines after the header, up to one that takes memory.
    ensures light { (front later : List (List ℕ)) (e : Fault)
        → is_utf8 bytes.now ≡ true → length bytes.now ≤ MAX_BYTES
        → lines bytes.now ≡ codes "#EXTM3U" ∷ (front ++ later) → AreLight front
        → said_from (said_by limited base.now) (nothing ∷ []) front ≡ Err e → result ≡ Err e }

    ensures lines { IfOk result (λ read. AreKeptLines base.now (playlist_in read) read.lines) }
    ensures taken { IfOk result (IsTakenFrom (kept_segments source.now)) }
    ensures front { IfOk result (λ read. read.front ≤ length read.playlist.segments) }
{
    let text = match playlist_text_of(bytes) {
        Ok(text) => text,
        Err(kind) => return Err(fault_at_line(kind, 0)),
    };
    if text.len() > MAX_BYTES {
        return Err(fault_at_line(FaultKind::TooLong, 0));
    }
    let mut lines = Lines::new(text);
    let Some(first) = lines.next() else {
        return Err(fault_at_line(FaultKind::NoHeader, 1));
    };
    if first.text != "#EXTM3U" {
        return Err(fault_at_line(FaultKind::NoHeader, 1));
    }
    let is_plain = has_plain_line_bytes(bytes);
    read_lines_after_header(alloc, lines.left(), is_plain, base, source)
}
