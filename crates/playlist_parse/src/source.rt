//! What is kept of a text, and what the next one takes over of it: the lines that stand in both are not read again.
ghost use Rattle.std.specs.Prelude.{◌≡◌, ◌+◌, ◌<◌, [], length, take, drop, true, false, None, Ok, IfOk, OnOk, MatchOption};
ghost use Rattle.std.specs.List.{list_all};
ghost use Rattle.std.specs.Str.Lines.{lines};
ghost use Rattle.playlist_parse.specs.Inner.LineViews.{is_free};
ghost use Rattle.playlist_parse.specs.Inner.Reached.{Reached, LeadsTo, left_in};
ghost use Rattle.playlist_kept.specs.KeptLines.{LinesWereRead};
ghost use Rattle.playlist_parse.specs.Inner.Source.{GoOnAlike, TakesOver, AreLinesOf, gone_after};
ghost use Rattle.playlist_kept.specs.Places.{StandInBoth};
ghost use Rattle.playlist_kept.specs.Kept.{IsKeptUnderBase, kept_segments};

use crate::date_ranges::Known;
use crate::line::Lines;
use crate::progress::Progress;
use crate::reading::{Reading, read_some_lines, reading_of_lines};
use playlist_kept::{KeptLines, LastPlaylist, Places};
use playlist_model::Text;
use std::alloc::{AllocError, Global};
use uri_resolver::Base;

#[tactic(auto, using(crate::proofs::GoingTo::dropped_all))]
// The values from a place on.
fn values_from_read_place<T>(list: &[T], place: usize) -> &[T]
    ensures { result.now ≡ drop place list.now }
{
    match list.get(place..) {
        Some(later) => later,
        None => &[],
    }
}

#[tactic(auto, using(crate::proofs::GoingTo::taken_all))]
/// The first values of `list`, up to `place`, from 0; all if it has no more.
pub(crate) fn values_up_to_read_place<T>(list: &[T], place: usize) -> &[T]
    ensures { result.now ≡ take place list.now }
{
    match list.get(..place) {
        Some(front) => front,
        None => list,
    }
}

// The date ranges that a source has.
fn date_ranges_known_in_source<'a>(base: &Base, source: &'a LastPlaylist) -> Known<'a>
    requires { LinesWereRead base.now source.now.lines source.now.segments.items source.now.date_ranges }
{
    Known::of(values_up_to_read_place(source.date_ranges.as_slice(), source.lines.date_ranges))
}

/// The date ranges that are kept in `source` of what was read under `base`.
pub fn date_ranges_known_of_source<'a>(base: &Base, source: &'a Option<LastPlaylist>) -> Known<'a>
    requires { IsKeptUnderBase base.now source.now }
{
    match source {
        Some(source) => date_ranges_known_in_source(base, source),
        None => Known::none(),
    }
}

// A text of which less is left than this part of what is kept behind as many bytes is read whole: that takes less than to read
// what is kept again.
const SMALL_PART: usize = 8;

// How many segments of the last playlist stand up to the first one that is read here, by its number; none if little is left to
// read. It has no contract: `reading_progress_agrees` decides, whatever it answers.
fn place_of_reading_in_source(source: &LastPlaylist, reading: &Reading<'_>) -> Option<usize> {
    let (here, left) = reading.lines.stand();
    let kept = source.lines.text.as_str().len().saturating_sub(here);
    if left.len() < kept / SMALL_PART {
        return None;
    }
    let first = reading.progress.first_number()?;
    let before = source.segments.as_slice().first()?.get().media_sequence();
    let place = first.checked_sub(before)? as usize;
    place.checked_add(1)
}

// The number of the next line here, as many lines on as there are from `there` to `end`.
fn line_number_after(here: u64, there: u64, end: u64) -> Option<u64>
    ensures { MatchOption result (Unit {0}) (λ number. number + there ≡ here + end) }
{
    let lines = end.checked_sub(there)?;
    here.checked_add(lines)
}

// The lines of a source, read up to the segment that `reading` read first; none if the source doesn't have it.
fn read_front_of_source_lines<'a>(
    alloc: Global,
    reading: &Reading<'_>,
    base: &'a Base,
    source: &'a LastPlaylist,
) -> Option<Reading<'a>>
    requires { LinesWereRead base.now source.now.lines source.now.segments.items source.now.date_ranges }
    ensures { MatchOption result (Unit {0}) (λ front.
        Reached base.now front.progress front.number (left_in front) (lines source.now.lines.text)) }
{
    let most = place_of_reading_in_source(source, reading)?;
    let lines = Lines::new(source.lines.text.as_str());
    let mut front = reading_of_lines(
        alloc,
        base,
        date_ranges_known_in_source(base, source),
        lines,
    );
    match read_some_lines(&mut front, false, most) {
        Ok(()) => Some(front),
        Err(_) => None,
    }
}

// Whether what is read here goes on as what is read there: after the same segment, under the same heading, and after no more
// segments.
#[tactic(none)]
fn reading_progress_agrees(here: &Progress<'_>, there: &Progress<'_>) -> Result<bool, AllocError>
    ensures { IfOk result (λ agrees. agrees ≡ true → GoOnAlike here.now there.now) }
{
    if !here.has_no_more_than(there) {
        return Ok(false);
    }
    let heading = there.heading();
    if !heading.has_media {
        return Ok(false);
    }
    if !here.heading().is(&heading) {
        return Ok(false);
    }
    match there.stop()? {
        Some(stop) => Ok(here.stands_at(&stop)),
        None => Ok(false),
    }
}

// Takes over what a source has after what is read there, of which the segments come from the place `from` on. False if
// that can't be told; then all is as it was.
fn go_on_after_source_lines<'a>(
    here: &mut Progress<'a>,
    there: &Progress<'_>,
    source: &'a LastPlaylist,
    from: usize,
) -> Result<bool, AllocError>
    requires { from ≡ length there.now.segments }
    ensures gone { IfOk result
        (λ done. done ≡ true → here.new ≡ gone_after here.old there.now source.now) }
    ensures kept { IfOk result (λ done. done ≡ false → here.new ≡ here.old) }
{
    let date_ranges = values_up_to_read_place(
        source.date_ranges.as_slice(),
        source.lines.date_ranges,
    );
    let segments = values_up_to_read_place(source.segments.as_slice(), source.lines.segments);
    let new_ranges = values_from_read_place(date_ranges, there.date_range_count());
    let new_segments = values_from_read_place(segments, from);
    here.go_to(
        &source.lines.heading,
        &source.lines.stop,
        new_ranges,
        new_segments,
    )
}

#[tactic(none)]
// Takes over the lines of `source` that come after `front`, if the lines that are left begin with them: at which places
// their segments stand.
fn take_over_source_lines_after<'a>(
    reading: &mut Reading<'a>,
    front: &Reading<'_>,
    source: &'a LastPlaylist,
) -> Result<Places, AllocError>
    ensures reached { OnOk result
        (TakesOver front.now source.now reading.old reading.new) }
    ensures plain { OnOk result (list_all is_free (left_in reading.old) ≡ true
        → list_all is_free (left_in reading.new) ≡ true) }
    ensures taken { IfOk result
        (StandInBoth source.now.segments.items reading.new.progress.segments) }
{
    if !reading_progress_agrees(&reading.progress, &front.progress)? {
        return Ok(Places::none());
    }
    let Some(later) = reading.lines.after(front.lines.left()) else {
        return Ok(Places::none());
    };
    let Some(next) = line_number_after(reading.number, front.number, source.lines.next) else {
        return Ok(Places::none());
    };
    let (Some(start), Some(from)) = (
        reading.progress.segment_count(),
        front.progress.segment_count(),
    ) else {
        return Ok(Places::none());
    };
    if !go_on_after_source_lines(&mut reading.progress, &front.progress, source, from)? {
        return Ok(Places::none());
    }
    reading.lines = later;
    reading.number = next;
    match reading.progress.segment_count() {
        Some(end) => Ok(Places {
            start,
            end,
            from,
            till: source.lines.segments,
        }),
        None => Ok(Places::none()),
    }
}

#[tactic(none)]
/// Takes over the lines of `source` after the segment that `reading` read last under `base`, if the lines that are left
/// begin with them: at which places their segments stand. Fails only if an allocation fails.
pub fn take_over_source_lines<'a>(
    alloc: Global,
    reading: &mut Reading<'a>,
    base: &Base,
    source: &'a Option<LastPlaylist>,
) -> Result<Places, AllocError>
    requires { IsKeptUnderBase base.now source.now }
    ensures reached { OnOk result (LeadsTo base.now reading.old reading.new) }
    ensures plain { OnOk result (list_all is_free (left_in reading.old) ≡ true
        → list_all is_free (left_in reading.new) ≡ true) }
    ensures taken { IfOk result
        (StandInBoth (kept_segments source.now) reading.new.progress.segments) }
{
    let Some(source) = source else {
        return Ok(Places::none());
    };
    match read_front_of_source_lines(alloc, reading, base, source) {
        Some(front) => take_over_source_lines_after(reading, &front, source),
        None => Ok(Places::none()),
    }
}

/// What is kept of `text`, all of whose lines `reading` has read; none if it has no segment, or tags of a further one at
/// its end. Fails only if an allocation fails.
pub fn source_lines_of_reading(
    alloc: Global,
    text: &str,
    reading: &Reading<'_>,
) -> Result<Option<KeptLines>, AllocError>
    ensures lines { IfOk result
        (λ lines. MatchOption lines (Unit {0})
        (λ kept. AreLinesOf text.now reading.now.progress reading.now.number kept)) }
    ensures none { reading.now.progress.segments ≡ [] → result ≡ Ok None }
{
    let Some(segments) = reading.progress.segment_count() else {
        return Ok(None);
    };
    if segments == 0 {
        return Ok(None);
    }
    let Some(stop) = reading.progress.stop()? else {
        return Ok(None);
    };
    let heading = reading.progress.heading();
    let date_ranges = reading.progress.date_range_count();
    let text = Text::copy_of(alloc, text)?;
    Ok(Some(KeptLines {
        text,
        next: reading.number,
        heading,
        stop,
        segments,
        date_ranges,
    }))
}
