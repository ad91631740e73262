//! A text that is being read, line by line.
ghost use Rattle.std.specs.Prelude.{◌≡◌, ◌+◌, ◌^◌, ◌<◌, ◌≤◌, ℕ, List, [], ◌∷◌, length, map, true, Ok, IfOk, OnOk};
ghost use Rattle.url.specs.Parts.{Parts};
ghost use Rattle.uri_resolver.specs.Plain.{is_path_segment_byte};
ghost use Rattle.std.specs.List.{list_all};
ghost use Rattle.playlist_model.specs.Said.{nothing};
ghost use Rattle.playlist_model.specs.Reading.{said_by, said_from, and_whole, limited};
ghost use Rattle.playlist_parse.specs.Inner.LineViews.{is_free, line_text};
ghost use Rattle.playlist_parse.specs.Inner.Answers.{fault_at_line};
ghost use Rattle.playlist_parse.specs.Inner.Progress.{EndsIn};
ghost use Rattle.playlist_kept.specs.Kept.{AnswersRead};
ghost use Rattle.playlist_parse.specs.Inner.Reached.{Reached, IsToBeTold, LeadsTo, IsStillTold, Reads, TellsFault, ReadsLine, TellsLine, left_in, reading_at};

use crate::date_ranges::Known;
use crate::line::Lines;
use crate::progress::Progress;
use playlist_kept::Read;
use playlist_model::{FaultKind, PlaylistFault};
use std::alloc::Global;
use uri_resolver::Base;

/// The fault `kind` at the line `line`, from 1; out of memory is at none, and has the line 0.
pub fn fault_at_line(kind: FaultKind, line: u64) -> PlaylistFault
    ensures { result ≡ fault_at_line kind line }
{
    let line = if kind == FaultKind::OutOfMemory {
        0
    } else {
        line
    };
    PlaylistFault { kind, line }
}

/// How far a text is read.
#[derive(Drop)]
pub struct Reading<'a> {
    /// What its lines have said.
    pub progress: Progress<'a>,
    /// The lines that are left.
    pub lines: Lines<'a>,
    /// The number of the next line, from 1.
    pub number: u64,
}

/// A reading under `base` of `lines`, which come after a header that was read. The `known` date ranges may come.
pub fn reading_of_lines<'a>(
    alloc: Global,
    base: &'a Base,
    known: Known<'a>,
    lines: Lines<'a>,
) -> Reading<'a>
    ensures lines { result.lines ≡ lines.entry }
    ensures number { result.number ≡ 2 }
    ensures begun { (all : List (List ℕ)) → Reached base.now result.progress 2 all all }
    ensures light { (all : List (List ℕ)) → IsToBeTold base.now result.progress 2 all all }
{
    Reading {
        progress: Progress::new(alloc, base, known),
        lines,
        number: 2,
    }
}

// Passes the next of `lines` if it is the EXTINF that repeats itself. `is_plain` says that no line has a control character.
#[inline(always)]
fn pass_line_again<'a>(
    progress: &mut Progress<'a>,
    lines: &mut Lines<'a>,
    number: &mut u64,
    is_plain: bool,
)
    requires few { number.old + length lines.old < 2 ^ 64 }
    requires plain { is_plain ≡ true → list_all is_free (map line_text lines.old) ≡ true }
    ensures reached { (base : Parts) → LeadsTo base
        (reading_at progress.old lines.old number.old) (reading_at progress.new lines.new number.new) }
    ensures light { (base : Parts) → IsStillTold base
        (reading_at progress.old lines.old number.old) (reading_at progress.new lines.new number.new) }
    ensures plain { is_plain ≡ true → list_all is_free (map line_text lines.new) ≡ true }
    ensures counted { number.new + length lines.new ≡ number.old + length lines.old }
    ensures fewer { length lines.new ≤ length lines.old }
{
    if !is_plain {
        return;
    }
    if !progress.repeats(lines) {
        return;
    }
    *number += 1;
}

// Reads `line`, the one of this number before `lines`, and passes the next one if that is the EXTINF that repeats itself.
// `is_path_segment` says that `line` is one plain segment of a path, and `is_plain` that no line has a control character.
#[inline(always)]
fn read_next_line<'a>(
    progress: &mut Progress<'a>,
    lines: &mut Lines<'a>,
    number: &mut u64,
    line: &'a str,
    is_path_segment: bool,
    is_plain: bool,
) -> Result<(), PlaylistFault>
    requires segment { is_path_segment ≡ true → list_all is_path_segment_byte line.now ≡ true }
    requires few { number.old + length lines.old + 1 < 2 ^ 64 }
    requires plain { is_plain ≡ true → list_all is_free (line.now ∷ map line_text lines.old) ≡ true }
    ensures reached { (base : Parts) → ReadsLine base line.now
        (reading_at progress.old lines.old number.old) result (reading_at progress.new lines.new number.new) }
    ensures light { (base : Parts) → TellsLine base line.now
        (reading_at progress.old lines.old number.old) result (reading_at progress.new lines.new number.new) }
    ensures plain { OnOk result (is_plain ≡ true → list_all is_free (map line_text lines.new) ≡ true) }
    ensures counted { OnOk result (number.new + length lines.new
        ≡ number.old + length lines.old + 1) }
    ensures fewer { OnOk result (length lines.new ≤ length lines.old) }
{
    match progress.line(line, is_path_segment, is_plain) {
        Ok(()) => *number += 1,
        Err(kind) => return Err(fault_at_line(kind, *number)),
    }
    pass_line_again(progress, lines, number, is_plain);
    Ok(())
}

/// Goes on with `reading` until it has `most` segments, or no line is left. `is_plain` says that no line has a
/// control character. The fault is the first one, with its line.
pub fn read_some_lines<'a>(
    reading: &mut Reading<'a>,
    is_plain: bool,
    most: usize,
) -> Result<(), PlaylistFault>
    requires few { reading.old.number + length reading.old.lines < 2 ^ 64 }
    requires plain { is_plain ≡ true → list_all is_free (left_in reading.old) ≡ true }
    ensures reached { (base : Parts) → Reads base reading.old result reading.new }
    ensures light { (base : Parts) → TellsFault base reading.old result reading.new }
    ensures plain { OnOk result (is_plain ≡ true → list_all is_free (left_in reading.new) ≡ true) }
    ensures none_left { OnOk result
        (length reading.new.progress.segments < most → reading.new.lines ≡ []) }
{
    'lines: while reading.progress.has_fewer_than(most) {
        let Some(line) = reading.lines.next() else {
            return Ok(());
        };
        match read_next_line(
            &mut reading.progress,
            &mut reading.lines,
            &mut reading.number,
            line.text,
            line.is_path_segment,
            is_plain,
        ) {
            Ok(()) => {}
            Err(fault) => return Err(fault),
        }
    }
    Ok(())
}

/// Goes on with `reading` until no line is left. `is_plain` says that none of them has a control character. The fault
/// is the first one, with its line.
#[inline(always)]
pub fn read_all_lines<'a>(reading: &mut Reading<'a>, is_plain: bool) -> Result<(), PlaylistFault>
    requires few { reading.old.number + length reading.old.lines < 2 ^ 64 }
    requires plain { is_plain ≡ true → list_all is_free (left_in reading.old) ≡ true }
    ensures reached { (base : Parts) → Reads base reading.old result reading.new }
    ensures light { (base : Parts) → TellsFault base reading.old result reading.new }
    ensures none_left { OnOk result (reading.new.lines ≡ []) }
{
    // (copies of their own, which the compiler keeps in registers)
    let (start, rest) = reading.lines.stand();
    let mut lines = Lines::at(start, rest);
    let mut number = reading.number;
    'lines: while let Some(line) = lines.next() {
        match read_next_line(
            &mut reading.progress,
            &mut lines,
            &mut number,
            line.text,
            line.is_path_segment,
            is_plain,
        ) {
            Ok(()) => {}
            Err(fault) => return Err(fault),
        }
    }
    reading.lines = lines;
    reading.number = number;
    Ok(())
}

/// The playlist of `reading`, whose lines are all read, or a fault of the whole text (RFC 8216, sections 4.3.2.5 and
/// 4.3.3.1), at the line 0.
pub fn whole_playlist_reading(reading: Reading<'_>) -> Result<Read<'_>, PlaylistFault>
    ensures answer { (base : Parts) (all : List (List ℕ))
        → Reached base reading.entry.progress reading.entry.number [] all
        → AnswersRead result (and_whole (said_from (said_by limited base) (nothing ∷ []) all)) }
    ensures whole { IfOk result (λ read. EndsIn reading.entry.progress (Ok read)) }
    ensures front { IfOk result (λ read. read.front ≤ length read.playlist.segments) }
{
    match reading.progress.read() {
        Ok(read) => Ok(read),
        Err(kind) => Err(fault_at_line(kind, 0)),
    }
}
