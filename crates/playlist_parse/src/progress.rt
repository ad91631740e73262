//! A playlist as far as it has been read, and what each tag adds to it.
ghost use Rattle.std.specs.Prelude.{◌≡◌, ◌<◌, ◌≤◌, ◌^◌, [], ◌∷◌, true, false, length, Some, None, Ok, Err, IfOk, MatchOption};
ghost use Rattle.std.specs.List.{list_any, list_all};
ghost use Rattle.playlist_model.specs.Reading.{said_by, name_of, said_by_kind, said_by_uri, has_init_section, are_mixed};
ghost use Rattle.playlist_model.specs.Lines as kinds;
ghost use Rattle.playlist_model.specs.Lines.{has_control};
ghost use Rattle.playlist_model.specs.Said as said;
ghost use Rattle.playlist_model.specs.Said.{number_said, version_of, playlist_type_of};
ghost use Rattle.playlist_model.specs.Reading.{limited};
ghost use Rattle.segment_state.specs.Continued.{IsStop};
ghost use Rattle.uri_resolver.specs.Plain.{is_path_segment_byte};
ghost use Rattle.playlist_parse.specs.Light.{IsOfWhole, IsLight};
ghost use Rattle.playlist_parse.specs.Inner.Progress.{progress_at, playlist_from, target_owed, IsLineAgain, TakesLine, TakesLineExactly, TakesTag, TakesTagExactly, EndsIn};
ghost use Rattle.playlist_parse.specs.Inner.HeadingView.{heading_view};
ghost use Rattle.playlist_parse.specs.Inner.Source.{gone_to};
ghost use Rattle.playlist_kept.specs.Kept.{playlist_in, with_taken};

use crate::date_ranges::{Known, ParsedDateRanges};
use crate::line::{
    LineKind, Lines, duration_line_states, first_whole_line, is_blank_line, kind_of,
};
use crate::tag::{Tag, tag_of_line_name};
use attr_list::read_decimal;
use playlist_kept::{Read, ReadHeading};
use playlist_model::{
    DateRange, FaultKind, Member, Playlist, PlaylistKind, SegmentSlice, Shared, has_control,
};
use segment_state::{ReaderState, Stop};
use std::alloc::{AllocError, Global};
use std::marker::Model;
use uri_resolver::Base;

/// A playlist as far as it has been read.
#[derive(Drop)]
pub struct Progress<'a> {
    alloc: Global,
    heading: ReadHeading,
    state: ReaderState<'a>,
    date_ranges: ParsedDateRanges<'a>,
    // How many segments were read before others were taken over, and these.
    front: usize,
    taken: &'a [Member],
}

impl<'a> Model for Progress<'a> {
    ghost use Rattle.std.specs.Prelude.{◌≤◌, length};
    ghost use Rattle.playlist_parse.specs.Inner.Progress.{Progress};
    ghost use Rattle.playlist_parse.specs.Inner.Views.{progress_of};

    ghost Value = { Progress };

    ghost view = { progress_of };

    ghost invariant = { λ a. a.front ≤ length a.state.segments };
}

impl<'a> Progress<'a> {
    /// The progress of a reading under `base` of which nothing but the header was read. The `known` date ranges may
    /// come.
    pub fn new(alloc: Global, base: &'a Base, known: Known<'a>) -> Progress<'a>
        ensures { result ≡ progress_at base.now (said.nothing ∷ []) }
    {
        Progress {
            alloc,
            heading: ReadHeading {
                version: None,
                target_duration: None,
                playlist_type: None,
                independent_segments: false,
                end_list: false,
                has_sequence: false,
                has_discontinuity_sequence: false,
                has_media: false,
            },
            state: ReaderState::new(alloc, base),
            date_ranges: ParsedDateRanges::new(alloc, known),
            front: 0,
            taken: &[],
        }
    }

    #[tactic(auto, using(crate::proofs::PathSegments::segment_has_no_control, crate::proofs::PathSegments::segment_is_no_comment))]
    /// Takes what `line` adds (RFC 8216, sections 4.1 and 4.3): its first fault, or a state after it. `is_path_segment`
    /// says that it was seen to be one plain segment of a path, and `is_plain` that the text was seen to be plain. Such a
    /// line isn't looked at for control characters.
    #[inline(always)]
    pub fn line(
        &mut self,
        line: &'a str,
        is_path_segment: bool,
        is_plain: bool,
    ) -> Result<(), FaultKind>
        requires segment { is_path_segment ≡ true → list_all is_path_segment_byte line.now ≡ true }
        requires plain { is_plain ≡ true → has_control line.now ≡ false }
        ensures takes { TakesLine
            (λ base before. said_by limited base before line.now) self.old self.new result }
        ensures light { IsLight line.now → TakesLineExactly
            (λ base before. said_by limited base before line.now) self.old self.new result }
    {
        if is_path_segment {
            return self.unmarked_line(line, true);
        }
        if line_has_control(line, is_plain) {
            return Err(FaultKind::Control);
        }
        // The tag that every segment has, taken without the other tags' names.
        if let Some(stated) = line.strip_prefix("#EXTINF:") {
            return self.duration(stated);
        }
        if line_begins_with_number_sign(line) {
            return self.marked_line(line);
        }
        self.other_unmarked_line(line)
    }

    #[tactic(auto, using(crate::proofs::Again::line_again))]
    /// If the next of `lines` is the EXTINF that was kept as the one that repeats itself, takes it and passes it: no
    /// line end is looked for, and no text is read (RFC 8216, section 4.3.2.1).
    #[inline(always)]
    pub fn repeats(&mut self, lines: &mut Lines<'a>) -> bool
        ensures again { result ≡ true → IsLineAgain lines.old lines.new self.old self.new }
        ensures other { result ≡ false → (self.new ≡ self.old) × (lines.new ≡ lines.old) }
    {
        let (start, left) = lines.stand();
        let Some(later) = self.state.duration_again(left) else {
            self.keep_next(left);
            return false;
        };
        lines.go_to_reference(start + (left.len() - later.len()), later);
        true
    }

    // Keeps the line that comes next, if it is EXTINF's and the last two stated what it states.
    #[inline(always)]
    fn keep_next(&mut self, left: &'a str)
        ensures { self.new ≡ self.old }
    {
        if self.state.wants_duration_line() {
            self.keep_line(left);
        }
    }

    #[inline(never)]
    fn keep_line(&mut self, left: &'a str)
        ensures { self.new ≡ self.old }
    {
        let Some(line) = first_whole_line(left) else {
            return;
        };
        if let Some(stated) = duration_line_states(line) {
            self.state.keep_duration_line(line, stated);
        }
    }

    // What a line adds that begins with `#` and has no control characters.
    #[inline(never)]
    fn marked_line(&mut self, line: &'a str) -> Result<(), FaultKind>
        requires printable { has_control line.now ≡ false }
        requires marked { kinds.is_comment line.now ≡ true }
        ensures takes { TakesLine
            (λ base before. said_by limited base before line.now) self.old self.new result }
        ensures light { IsLight line.now → TakesLineExactly
            (λ base before. said_by limited base before line.now) self.old self.new result }
    {
        // Two tags that many segments have, taken without the names of all.
        if let Some(stated) = line.strip_prefix("#EXT-X-PROGRAM-DATE-TIME:") {
            return self.time(stated);
        }
        if let Some(stated) = line.strip_prefix("#EXT-X-BYTERANGE:") {
            return self.byte_range(stated);
        }
        match kind_of(line) {
            LineKind::Tag { name, rest, colon } => self.tag(name, rest, colon),
            // (a URI doesn't begin so)
            LineKind::Ignored | LineKind::Uri(_) => Ok(()),
        }
    }

    #[tactic(auto, using(crate::proofs::LineLemmas::unmarked_uri))]
    // What a line adds that doesn't begin with `#` and has no control characters: a segment, unless it is blank.
    #[inline(always)]
    fn unmarked_line(&mut self, line: &'a str, is_path_segment: bool) -> Result<(), FaultKind>
        requires segment { is_path_segment ≡ true → list_all is_path_segment_byte line.now ≡ true }
        requires printable { has_control line.now ≡ false }
        requires unmarked { kinds.is_comment line.now ≡ false }
        ensures takes { TakesLine
            (λ base before. said_by limited base before line.now) self.old self.new result }
        ensures light { IsLight line.now → TakesLineExactly
            (λ base before. said_by limited base before line.now) self.old self.new result }
    {
        if is_blank_line(line) {
            return Ok(());
        }
        self.uri(line, is_path_segment)
    }

    // The same of a line that wasn't seen to be one plain segment of a path. Out of line, since few references are so.
    #[inline(never)]
    fn other_unmarked_line(&mut self, line: &'a str) -> Result<(), FaultKind>
        requires printable { has_control line.now ≡ false }
        requires unmarked { kinds.is_comment line.now ≡ false }
        ensures takes { TakesLine
            (λ base before. said_by limited base before line.now) self.old self.new result }
        ensures light { IsLight line.now → TakesLineExactly
            (λ base before. said_by limited base before line.now) self.old self.new result }
    {
        self.unmarked_line(line, false)
    }

    #[tactic(auto, using(crate::proofs::Rows::one_more))]
    #[inline(always)]
    fn uri(&mut self, reference: &'a str, is_path_segment: bool) -> Result<(), FaultKind>
        requires { is_path_segment ≡ true → list_all is_path_segment_byte reference.now ≡ true }
        ensures { TakesLine
            (λ base before. said_by_uri limited base before reference.now) self.old self.new result }
    {
        self.state.take_segment(reference, is_path_segment)?;
        self.heading.has_media = true;
        Ok(())
    }

    // Takes the tag `name`, with `rest` after its colon if it has one; EXT-X-I-FRAMES-ONLY is refused (RFC 8216,
    // section 4.3.3.6).
    fn tag(&mut self, name: &str, rest: &'a str, colon: bool) -> Result<(), FaultKind>
        ensures takes { TakesLine
            (λ base before. said_by_kind limited base before (kinds.tag name.now rest.now colon))
            self.old self.new result }
        ensures light { IsOfWhole (name_of name.now colon) → TakesLineExactly
            (λ base before. said_by_kind limited base before (kinds.tag name.now rest.now colon))
            self.old self.new result }
    {
        match tag_of_line_name(name, colon) {
            Tag::Inf => self.duration(rest),
            Tag::Discontinuity => self.discontinuity(),
            Tag::Version => self.version(rest),
            Tag::TargetDuration => self.target(rest),
            Tag::MediaSequence => self.sequence(rest),
            Tag::DiscontinuitySequence => self.discontinuity_sequence(rest),
            Tag::PlaylistType => self.playlist_type(rest),
            Tag::EndList => self.end(),
            Tag::IndependentSegments => {
                self.heading.independent_segments = true;
                Ok(())
            }
            Tag::IFramesOnly => Err(FaultKind::IFramesOnly),
            Tag::Master => Err(FaultKind::MasterPlaylist),
            Tag::ByteRange => self.byte_range(rest),
            Tag::Key => self.key(rest),
            Tag::InitSection => self.init_section(rest),
            Tag::ProgramDateTime => self.time(rest),
            Tag::DateRange => self.date_range(rest),
            Tag::Unknown => Ok(()),
        }
    }

    fn duration(&mut self, rest: &'a str) -> Result<(), FaultKind>
        ensures { TakesTag said.duration_tag rest.now self.old self.new result }
    {
        self.state.duration_tag(rest)
    }

    fn discontinuity(&mut self) -> Result<(), FaultKind>
        ensures { TakesTag said.discontinuity_tag [] self.old self.new result }
    {
        self.state.discontinuity()
    }

    // EXT-X-BYTERANGE (4.3.2.2)
    fn byte_range(&mut self, rest: &str) -> Result<(), FaultKind>
        ensures { TakesTag said.byte_range_tag rest.now self.old self.new result }
    {
        self.state.byte_range_tag(rest)
    }

    // EXT-X-KEY (4.3.2.4)
    fn key(&mut self, rest: &str) -> Result<(), FaultKind>
        ensures { TakesTag said.key_tag rest.now self.old self.new result }
    {
        self.state.key_tag(rest)
    }

    // EXT-X-MAP (4.3.2.5)
    fn init_section(&mut self, rest: &str) -> Result<(), FaultKind>
        ensures { TakesTag said.init_section_tag rest.now self.old self.new result }
    {
        self.state.init_section_tag(rest)
    }

    // EXT-X-PROGRAM-DATE-TIME (4.3.2.6)
    fn time(&mut self, rest: &str) -> Result<(), FaultKind>
        ensures { TakesTag said.time_tag rest.now self.old self.new result }
    {
        self.state.time_tag(rest)
    }

    // EXT-X-DATERANGE (4.3.2.7)
    fn date_range(&mut self, rest: &str) -> Result<(), FaultKind>
        ensures { TakesTag said.date_range_tag rest.now self.old self.new result }
    {
        self.date_ranges.push(self.alloc, rest)
    }

    // EXT-X-VERSION (4.3.1.2)
    fn version(&mut self, rest: &str) -> Result<(), FaultKind>
        ensures { TakesTagExactly said.version_tag rest.now self.old self.new result }
    {
        if self.heading.version.is_some() {
            return Err(FaultKind::Repeated);
        }
        self.heading.version = Some(version_said_by_line(rest)?);
        Ok(())
    }

    // EXT-X-TARGETDURATION (RFC 8216, section 4.3.3.1), which comes once, as each tag of the whole playlist (section
    // 4.3.3).
    fn target(&mut self, rest: &str) -> Result<(), FaultKind>
        ensures { TakesTagExactly said.target_tag rest.now self.old self.new result }
    {
        if self.heading.target_duration.is_some() {
            return Err(FaultKind::Repeated);
        }
        self.heading.target_duration = Some(number_said_by_line(rest)?);
        Ok(())
    }

    // EXT-X-MEDIA-SEQUENCE (4.3.3.2)
    fn sequence(&mut self, rest: &str) -> Result<(), FaultKind>
        ensures { TakesTagExactly said.sequence_tag rest.now self.old self.new result }
    {
        if self.heading.has_sequence {
            return Err(FaultKind::Repeated);
        }
        if self.heading.has_media {
            return Err(FaultKind::Misplaced);
        }
        self.state.sequence(number_said_by_line(rest)?);
        self.heading.has_sequence = true;
        Ok(())
    }

    // EXT-X-DISCONTINUITY-SEQUENCE (4.3.3.3)
    fn discontinuity_sequence(&mut self, rest: &str) -> Result<(), FaultKind>
        ensures { TakesTagExactly said.discontinuity_sequence_tag rest.now self.old self.new result }
    {
        if self.heading.has_discontinuity_sequence {
            return Err(FaultKind::Repeated);
        }
        if self.heading.has_media || self.state.has_discontinuity() {
            return Err(FaultKind::Misplaced);
        }
        self.state
            .discontinuity_sequence(number_said_by_line(rest)?);
        self.heading.has_discontinuity_sequence = true;
        Ok(())
    }

    // EXT-X-PLAYLIST-TYPE (4.3.3.5)
    fn playlist_type(&mut self, rest: &str) -> Result<(), FaultKind>
        ensures { TakesTagExactly said.type_tag rest.now self.old self.new result }
    {
        if self.heading.playlist_type.is_some() {
            return Err(FaultKind::Repeated);
        }
        self.heading.playlist_type = Some(playlist_type_said_by_line(rest)?);
        Ok(())
    }

    // EXT-X-ENDLIST (4.3.3.4)
    fn end(&mut self) -> Result<(), FaultKind>
        ensures { TakesTagExactly said.ended_tag [] self.old self.new result }
    {
        if self.heading.end_list {
            return Err(FaultKind::Repeated);
        }
        self.heading.end_list = true;
        Ok(())
    }

    // The target duration, if the text as a whole has no fault: EXT-X-TARGETDURATION is required (RFC 8216, section
    // 4.3.3.1).
    fn target_of_whole(&self) -> Result<u64, FaultKind>
        ensures { result ≡ target_owed self.now }
    {
        let Some(target) = self.heading.target_duration else {
            return Err(FaultKind::NoTarget);
        };
        if !self.heading.has_media {
            return Err(FaultKind::NoSegments);
        }
        if are_read_init_sections_mixed(self.front, &self.state.segments(), self.taken) {
            return Err(FaultKind::MixedMaps);
        }
        Ok(target)
    }

    // The playlist of this target duration, whose segments are shared from here on.
    fn with_target(self, target: u64) -> Result<Read<'a>, AllocError>
        ensures playlist { IfOk result (λ read. playlist_in read ≡ playlist_from self.entry target) }
        ensures front { IfOk result (λ read. read.front ≤ length read.playlist.segments) }
    {
        Ok(Read {
            playlist: Playlist {
                version: self.heading.version.unwrap_or(1),
                target_duration: target,
                playlist_type: self.heading.playlist_type,
                independent_segments: self.heading.independent_segments,
                end_list: self.heading.end_list,
                date_ranges: self.date_ranges.into_items(self.alloc)?,
                segments: Shared::new(self.alloc, self.state.into_segments())?,
            },
            front: self.front,
            taken: self.taken,
            from: 0,
            till: 0,
            lines: None,
        })
    }

    #[tactic(auto, using(playlist_kept::proofs::Parts::count_of_all))]
    /// How many segments are read, with those that were taken over; none if that is 2^64 or more.
    pub fn segment_count(&self) -> Option<usize>
        ensures { MatchOption result (2 ^ 64 ≤ length self.now.segments)
            (λ count. count ≡ length self.now.segments) }
    {
        self.state.segment_count().checked_add(self.taken.len())
    }

    /// Whether fewer than `most` segments are read.
    pub fn has_fewer_than(&self, most: usize) -> bool
        ensures fewer { result ≡ true → length self.now.segments < most }
        ensures enough { result ≡ false → most ≤ length self.now.segments }
    {
        match self.segment_count() {
            Some(count) => count < most,
            None => false,
        }
    }

    /// Whether no more segments are read than by `other`. False if they are too many to be counted.
    pub fn has_no_more_than(&self, other: &Progress<'_>) -> bool
        ensures { result ≡ true → length self.now.segments ≤ length other.now.segments }
    {
        match (self.segment_count(), other.segment_count()) {
            (Some(here), Some(there)) => here <= there,
            _ => false,
        }
    }

    /// How many date ranges are read.
    pub fn date_range_count(&self) -> usize
        ensures { result ≡ length self.now.date_ranges }
    {
        self.date_ranges.len()
    }

    /// The number of the first segment, if one is read and none was taken over.
    pub fn first_number(&self) -> Option<u64> {
        match self.state.segments().first() {
            Some(segment) => Some(segment.media_sequence()),
            None => None,
        }
    }

    /// What the header's tags have said.
    pub fn heading(&self) -> ReadHeading
        ensures { heading_view result ≡ self.now.heading }
    {
        self.heading
    }

    /// What stands here, if no tag of the next segment does.
    pub fn stop(&self) -> Result<Option<Stop>, AllocError>
        ensures { IfOk result
            (λ stop. MatchOption stop (Unit {0}) (λ stop. IsStop self.now.standing stop)) }
    {
        self.state.stop()
    }

    /// Whether the state is that of `stop`, between two segments. Takes no memory.
    pub fn stands_at(&self, stop: &Stop) -> bool
        ensures { result ≡ true → IsStop self.now.standing stop.now }
    {
        self.state.stands_at(stop)
    }

    #[tactic(auto, using(crate::proofs::Rows::gone_on))]
    /// Goes to `stop`, under `heading` and with the `date_ranges` and the `segments` up to it, of which the former have an owner more.
    /// False if the first numbers of this playlist don't lead there, or if segments were taken over before; all is then as
    /// it was. Fails only if an allocation fails.
    pub fn go_to(
        &mut self,
        heading: &ReadHeading,
        stop: &Stop,
        date_ranges: &[Shared<DateRange>],
        segments: &'a [Member],
    ) -> Result<bool, AllocError>
        ensures gone { IfOk result
            (λ done. done ≡ true
            → self.new ≡ gone_to self.old (heading_view heading.now) stop.now date_ranges.now segments.now) }
        ensures kept { IfOk result (λ done. done ≡ false → self.new ≡ self.old) }
    {
        if !self.taken.is_empty() {
            return Ok(false);
        }
        if !self.state.go_to(stop)? {
            return Ok(false);
        }
        self.date_ranges.append_shared(date_ranges)?;
        self.front = self.state.segment_count();
        self.taken = segments;
        self.heading = *heading;
        Ok(true)
    }

    /// The playlist, if the text as a whole has no fault: `NoTarget`, `NoSegments`, `MixedMaps`.
    pub fn read(self) -> Result<Read<'a>, FaultKind>
        ensures ends { EndsIn self.entry result }
        ensures front { IfOk result (λ read. read.front ≤ length read.playlist.segments) }
    {
        match self.target_of_whole() {
            Ok(target) => Ok(self.with_target(target)?),
            Err(kind) => Err(kind),
        }
    }
}

// Whether a line begins with `#`, which few steps tell.
#[inline(always)]
fn line_begins_with_number_sign(line: &str) -> bool
    ensures { result ≡ kinds.is_comment line.now }
{
    match line.as_bytes().split_first() {
        Some((first, _)) => *first == b'#',
        None => false,
    }
}

// Whether a line has a control character: one that is known to be plain isn't looked at.
#[inline(always)]
fn line_has_control(line: &str, is_plain: bool) -> bool
    requires { is_plain ≡ true → has_control line.now ≡ false }
    ensures { result ≡ has_control line.now }
{
    !is_plain && has_control(line)
}

fn number_said_by_line(rest: &str) -> Result<u64, FaultKind>
    ensures { result ≡ number_said rest.now }
{
    read_decimal(rest).map_err(|_| FaultKind::BadValue)
}

// The number that EXT-X-VERSION states: `BadVersion` if it is none, `Version` if it isn't one from 1 to 7 (RFC 8216,
// section 4.3.1.2).
fn version_said_by_line(rest: &str) -> Result<u64, FaultKind>
    ensures { result ≡ version_of rest.now }
{
    let Ok(version) = read_decimal(rest) else {
        return Err(FaultKind::BadVersion);
    };
    if version == 0 || version > 7 {
        return Err(FaultKind::Version);
    }
    Ok(version)
}

// What EXT-X-PLAYLIST-TYPE states: EVENT or VOD (RFC 8216, section 4.3.3.5).
fn playlist_type_said_by_line(rest: &str) -> Result<PlaylistKind, FaultKind>
    ensures { result ≡ playlist_type_of rest.now }
{
    match rest {
        "EVENT" => Ok(PlaylistKind::Event),
        "VOD" => Ok(PlaylistKind::Vod),
        _ => Err(FaultKind::BadValue),
    }
}

fn some_read_have_init_sections(segments: SegmentSlice<'_>) -> bool
    ensures { result ≡ list_any has_init_section segments.entry }
{
    let mut rest = segments;
    while let Some((segment, later)) = rest.split_first() {
        if segment.init_section().is_some() {
            return true;
        }
        rest = later;
    }
    false
}

fn all_read_have_init_sections(segments: SegmentSlice<'_>) -> bool
    ensures { result ≡ list_all has_init_section segments.entry }
{
    let mut rest = segments;
    while let Some((segment, later)) = rest.split_first() {
        if segment.init_section().is_none() {
            return false;
        }
        rest = later;
    }
    true
}

fn some_taken_have_init_sections(segments: &[Member]) -> bool
    ensures { result ≡ list_any has_init_section segments.now }
{
    segments
        .iter()
        .any(|s: &Member| s.get().init_section().is_some())
}

fn all_taken_have_init_sections(segments: &[Member]) -> bool
    ensures { result ≡ list_all has_init_section segments.now }
{
    segments
        .iter()
        .all(|s: &Member| s.get().init_section().is_some())
}

#[tactic(auto, using(crate::proofs::Mixed::any_with_taken, crate::proofs::Mixed::all_with_taken))]
// Whether some of these segments, with those that were taken over after the first `front`, have an initialisation section, and
// others have none (RFC 8216, section 4.3.2.5).
fn are_read_init_sections_mixed(front: usize, segments: &SegmentSlice<'_>, taken: &[Member]) -> bool
    ensures { result ≡ are_mixed (with_taken front segments.now taken.now) }
{
    let some = some_read_have_init_sections(segments.again())
        || some_taken_have_init_sections(taken);
    let all = all_read_have_init_sections(segments.again()) && all_taken_have_init_sections(taken);
    some && !all
}
