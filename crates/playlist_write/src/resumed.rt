//! The text of a playlist as it is written: made whole, or from the text that was written last. The lines of a segment depend on
//! the segment before it alone, so those of segments that stood there are copied in one piece.
ghost use Rattle.std.specs.Prelude.{◌≡◌, ◌++◌, ◌+◌, drop, take, length, IfOk, OnOk, IfSome, string_bytes};
ghost use Rattle.playlist_write.specs.Owed.{none_yet, said_text, segments_owed, ended_owed, playlist_text};
ghost use Rattle.playlist_write.specs.Laid.{after_segments, first_written_segment_states_all, current_of, IsLaid, IsFrontLength, StandsAgain};
ghost use Rattle.playlist_write.specs.Inner.Laid.{front_text};

use crate::header::{write_date_range_lines, write_end_line};
use crate::in_force::InForce;
use crate::last_key::LastKey;
use crate::room::written_text_room_for;
use crate::segments::write_next_segment_lines;
use crate::{OutPlaylist, written_lines_before_date_ranges};
use date_times::TimeWriter;
use playlist_model::{InCommon, InitSection, Keys, Shared, Text};
use std::alloc::{AllocError, Global};
use stitcher::{StitchedItems, StitchedList};

/// A text that was written, with what its next version needs: the places where the lines of its segments begin and end, how
/// many segments they are of, and the keys and the initialisation section that are in force at their end.
#[derive(Drop)]
pub struct WrittenText {
    /// The text.
    pub text: Shared<Text>,
    /// Where the lines of the first segment begin.
    pub from: usize,
    /// Where those of the last one end.
    pub till: usize,
    /// How many segments these are the lines of.
    pub count: usize,
    /// The keys in force there.
    pub keys: Keys,
    /// The initialisation section in force there.
    pub init_section: Option<Shared<InitSection>>,
}

// Appends the lines of the first `most` segments, or of all, after lines with `before` in force. Answers what is in force then.
fn write_first_segment_lines<'a>(
    alloc: Global,
    out: &mut String,
    before: InForce<'a>,
    segments: StitchedItems<'a>,
    most: usize,
) -> Result<InForce<'a>, AllocError>
    ensures text { OnOk result
        (string_bytes out.new ≡ string_bytes out.old
        ++ said_text (segments_owed before.entry (take most segments.entry))) }
    ensures force { IfOk result (λ f. f ≡ after_segments before.entry (take most segments.entry)) }
{
    let mut segments = segments;
    let mut times = TimeWriter::new();
    let mut key = LastKey::new(alloc);
    let mut force = before;
    let mut common = InCommon::nothing();
    let mut left = most;
    while left > 0 {
        let later = force.in_common_after_next(&segments);
        let Some(next) = segments.next() else {
            return Ok(force);
        };
        force = write_next_segment_lines(out, &mut times, &mut key, force, &next, common)?;
        common = later;
        left -= 1;
    }
    Ok(force)
}

// Appends the lines of all these segments after lines with `before` in force. Answers what is in force then.
fn write_all_segment_lines<'a>(
    alloc: Global,
    out: &mut String,
    before: InForce<'a>,
    segments: StitchedItems<'a>,
) -> Result<InForce<'a>, AllocError>
    ensures text { OnOk result
        (string_bytes out.new ≡ string_bytes out.old
        ++ said_text (segments_owed before.entry segments.entry)) }
    ensures force { IfOk result (λ f. f ≡ after_segments before.entry segments.entry) }
{
    let mut segments = segments;
    let mut times = TimeWriter::new();
    let mut key = LastKey::new(alloc);
    let (mut force, mut common) = (before, InCommon::nothing());
    let mut later = force.in_common_after_next(&segments);
    while let Some(next) = segments.next() {
        force = write_next_segment_lines(out, &mut times, &mut key, force, &next, common)?;
        common = later;
        later = force.in_common_after_next(&segments);
    }
    Ok(force)
}

// The keys and the initialisation section that are in force at the end of a text that was written.
fn written_in_force_at_end(last: &WrittenText) -> InForce<'_>
    ensures { result ≡ current_of last.now }
{
    InForce::new(&last.keys, &last.init_section)
}

// A written text, the lines of whose `count` segments stand from `from` up to `till` with `end` in force after them.
fn written_text_with_end(
    alloc: Global,
    text: String,
    from: usize,
    till: usize,
    count: usize,
    end: &InForce<'_>,
) -> Result<WrittenText, AllocError>
    ensures text { IfOk result (λ w. w.text ≡ string_bytes text) }
    ensures from { IfOk result (λ w. w.from ≡ from) }
    ensures till { IfOk result (λ w. w.till ≡ till) }
    ensures count { IfOk result (λ w. w.count ≡ count) }
    ensures end { IfOk result (λ w. current_of w ≡ end.now) }
{
    Ok(WrittenText {
        text: Shared::new(alloc, Text::from_string(text))?,
        from,
        till,
        count,
        keys: end.keys.to_keys()?,
        init_section: end.init_section.clone()?,
    })
}

// How many bytes a text has so far.
fn written_text_length(text: &String) -> usize
    ensures { result ≡ length (string_bytes text.now) }
{
    text.len()
}

#[tactic(auto, unfolding(crate::specs::Inner::Laid::front_text))]
// The lines before the segments, in a text with so much room.
fn written_lines_before_segments(
    alloc: Global,
    room: usize,
    playlist: &OutPlaylist<'_>,
) -> Result<String, AllocError>
    ensures { IfOk result (λ text. string_bytes text ≡ front_text playlist.now) }
{
    let mut text = written_lines_before_date_ranges(alloc, room, playlist)?;
    write_date_range_lines(&mut text, playlist.date_ranges.as_slice())?;
    Ok(text)
}

/// The whole text of `playlist` (RFC 8216, section 4), made anew, with each tag as section 4.3 has it. Fails only if
/// an allocation fails.
pub fn laid_out(alloc: Global, playlist: &OutPlaylist<'_>) -> Result<WrittenText, AllocError>
    ensures text { IfOk result (λ w. w.text ≡ playlist_text playlist.now) }
    ensures laid { IfOk result (IsLaid playlist.now.segments) }
{
    let mut text = written_lines_before_segments(alloc, written_text_room_for(playlist), playlist)?;
    let from = written_text_length(&text);
    let (no_keys, no_init_section) = (Keys::none(), None);
    let nothing = InForce::new(&no_keys, &no_init_section);
    let end = write_all_segment_lines(alloc, &mut text, nothing, playlist.segments.items())?;
    let till = written_text_length(&text);
    write_end_line(&mut text, playlist.end_list)?;
    let count = playlist.segments.count();
    Ok(written_text_with_end(alloc, text, from, till, count, &end)?)
}

// Whether what is in force after the first of these is what it states itself, whatever stood before it.
fn first_written_segment_states_all(before: &InForce<'_>, segments: StitchedItems<'_>) -> bool
    ensures { result ≡ first_written_segment_states_all before.now segments.entry }
{
    let mut segments = segments;
    match segments.next() {
        Some(first) => first.segment.init_section().is_some() || before.init_section.is_none(),
        None => false,
    }
}

/// How many bytes the lines of the first `gone` of `segments` and of the one after them take. `None` if that one
/// doesn't state all that is in force after it: then its lines depend on what was before it. Fails only if an
/// allocation fails.
pub fn front_length(
    alloc: Global,
    segments: &StitchedList<'_>,
    gone: usize,
) -> Result<Option<usize>, AllocError>
    ensures { IfOk result (λ n. IfSome n (IsFrontLength segments.now gone)) }
{
    let mut lines = String::new(alloc);
    let (no_keys, no_init_section) = (Keys::none(), None);
    let nothing = InForce::new(&no_keys, &no_init_section);
    let force = write_first_segment_lines(alloc, &mut lines, nothing, segments.items(), gone)?;
    if !first_written_segment_states_all(&force, segments.items_from(gone)) {
        return Ok(None);
    }
    write_first_segment_lines(alloc, &mut lines, force, segments.items_from(gone), 1)?;
    Ok(Some(written_text_length(&lines)))
}

// The lines of a text's segments, less their first `length` bytes.
fn written_lines_after(last: &WrittenText, length: usize) -> Option<&str>
    ensures { IfSome result
        (λ lines. lines.now ≡ drop (last.now.from + length) (take last.now.till last.now.text)) }
{
    let from = last.from.checked_add(length)?;
    let (lines, _) = last.text.as_str().split_at_checked(last.till)?;
    let (_, lines) = lines.split_at_checked(from)?;
    Some(lines)
}

// The text of a playlist in three parts: its first segment is written, `lines` are copied, and `fresh` is written, with what
// was in force at the end of the last text. It has `count` segments, and is given so much room.
fn join_written_parts(
    alloc: Global,
    room: usize,
    playlist: &OutPlaylist<'_>,
    last: &WrittenText,
    lines: &str,
    fresh: StitchedItems<'_>,
    count: usize,
) -> Result<WrittenText, AllocError>
    ensures text { IfOk result
        (λ w. w.text ≡ front_text playlist.now
        ++ ((said_text (segments_owed none_yet (take 1 playlist.now.segments))
        ++ (lines.now ++ said_text (segments_owed (current_of last.now) fresh.entry)))
        ++ said_text (ended_owed playlist.now.end_list))) }
    ensures from { IfOk result (λ w. w.from ≡ length (front_text playlist.now)) }
    ensures till { IfOk result
        (λ w. w.till ≡ length (front_text playlist.now
        ++ (said_text (segments_owed none_yet (take 1 playlist.now.segments))
        ++ (lines.now ++ said_text (segments_owed (current_of last.now) fresh.entry))))) }
    ensures count { IfOk result (λ w. w.count ≡ count) }
    ensures end { IfOk result
        (λ w. current_of w ≡ after_segments (current_of last.now) fresh.entry) }
{
    let mut text = written_lines_before_segments(alloc, room, playlist)?;
    let from = written_text_length(&text);
    let (no_keys, no_init_section) = (Keys::none(), None);
    let nothing = InForce::new(&no_keys, &no_init_section);
    write_first_segment_lines(alloc, &mut text, nothing, playlist.segments.items(), 1)?;
    text.push_str(lines)?;
    let end = write_all_segment_lines(alloc, &mut text, written_in_force_at_end(last), fresh)?;
    let till = written_text_length(&text);
    write_end_line(&mut text, playlist.end_list)?;
    written_text_with_end(alloc, text, from, till, count, &end)
}

/// The text of `playlist` that `laid_out` makes, of which lines are copied from `last`, the text that was written
/// last. The first `again` segments of `playlist` are the last ones of `last`, and `length` is what `front_length`
/// gives for those in front of them, in bytes. Fails only if an allocation fails.
pub fn laid_after(
    alloc: Global,
    playlist: &OutPlaylist<'_>,
    last: &WrittenText,
    length: usize,
    again: usize,
) -> Result<WrittenText, AllocError>
    requires { StandsAgain playlist.now.segments last.now length again }
    ensures text { IfOk result (λ w. w.text ≡ playlist_text playlist.now) }
    ensures laid { IfOk result (IsLaid playlist.now.segments) }
{
    let Some(lines) = written_lines_after(last, length) else {
        return laid_out(alloc, playlist);
    };
    let fresh = playlist.segments.items_from(again);
    let (room, count) = (written_text_room_for(playlist), playlist.segments.count());
    Ok(join_written_parts(alloc, room, playlist, last, lines, fresh, count)?)
}
