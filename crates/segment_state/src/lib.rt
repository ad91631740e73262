//! What stands at a line of a media playlist: a running state that each line changes, proved equal
//! to what RFC 8216 says by looking back over the lines before.
#![tactic(auto)]

ghost use Rattle.std.specs.Prelude.{◌≡◌, ◌+◌, ◌++◌, ◌^◌, ◌<◌, ◌≤◌, [], ◌∷◌, List, ℕ, true, Some, None, Err, IfSome, MatchOption, OnErr, OnOk, nat_lt, length};
ghost use Rattle.std.specs.List.{list_all};
ghost use Rattle.std.specs.Option.{SomeIff};
ghost use Rattle.playlist_model.specs.LookBack.{byte_range_from, byte_range_after, extent_with};
ghost use Rattle.playlist_model.specs.Reading.{limited, said_by_uri};
ghost use Rattle.playlist_model.specs.Said as said;
ghost use Rattle.playlist_model.specs.Segments.{segment_under};
ghost use Rattle.uri_resolver.specs.Fronts.{is_plain_after};
ghost use Rattle.uri_resolver.specs.Plain.{is_path_segment_byte, StandsBefore};
ghost use Rattle.segment_state.specs.Running.{unread, ReadsOne, SayingLeadsTo, TakesTag, TakesTagExactly, TakesSegment};
ghost use Rattle.segment_state.specs.Inner.Running.{after_uri_line, segment_from};
ghost use Rattle.segment_state.specs.Views.{extent_after};
ghost use Rattle.segment_state.specs.Repeated.{IsLineOf, IsRepeated};

use crate::durations::Durations;
use crate::key_texts::KeyTexts;
use crate::keys::keys_in_reader_state_with;
use crate::references::{References, base_front_of_segment};
use crate::tags::{byte_range_tag_numbers, said_by_init_section_tag, said_by_key_tag};
use date_times::TimeReader;
use fixed_duration::Nanos;
use playlist_model::{
    ByteRange, FaultKind, GrowingSegments, InitSection, Instant, KeyPlaces, KeyTag, Keys,
    MAX_SEGMENTS, SegmentParts, SegmentSlice, Segments, Shared, Text, is_iv_needed,
};
use std::alloc::{AllocError, Global};
use std::marker::Model;
pub use stops::Stop;
use uri_resolver::{Base, BaseFront};

pub mod attributes;
mod durations;
mod key_texts;
mod keys;
mod references;
mod stops;
mod tags;

/// A part of a resource, which a segment is.
#[derive(Drop)]
struct Part {
    uri: Shared<Text>,
    byte_range: ByteRange,
}

/// What stands at a line of a playlist, after the lines before it: with its base, and a slice of its text.
#[derive(Drop)]
pub struct ReaderState<'a> {
    alloc: Global,
    references: References<'a>,
    durations: Durations<'a>,
    media_sequence: u64,
    discontinuity_sequence: u64,
    media_count: u64,
    discontinuity_count: u64,
    discontinuities: u64,
    byte_range: Option<(u64, Option<u64>)>,
    program_date_time: Option<Instant>,
    times: TimeReader,
    key_texts: KeyTexts,
    last: Option<Part>,
    // The segments that were read, with the keys, the initialisation section and the front of URIs in force.
    segments: GrowingSegments,
    // Which front of the base that one is, if it is known to be one.
    uri_front: Option<BaseFront>,
}

impl<'a> Model for ReaderState<'a> {
    ghost use Rattle.std.specs.Prelude.{◌+◌, ◌^◌, ◌<◌, ◌≤◌, IfSome};
    ghost use Rattle.playlist_model.specs.declared.limits.TheConstants.{MAX_SEGMENTS};
    ghost use Rattle.segment_state.specs.Running.{Running};
    ghost use Rattle.segment_state.specs.Views.{running_of};
    ghost use Rattle.uri_resolver.specs.Fronts.{is_plain_after};
    ghost use Rattle.uri_resolver.specs.Plain.{StandsBefore};

    ghost Value = { Running };

    ghost view = { running_of };

    ghost invariant = { λ a.
        (a.discontinuity_sequence + a.discontinuity_count < 2 ^ 64)
        × (a.discontinuities ≤ a.discontinuity_count)
        × (a.media_count ≤ MAX_SEGMENTS)
        × IfSome a.uri_front (λ front. StandsBefore a.references (is_plain_after front) a.segments.uri_front) };
}

impl<'a> ReaderState<'a> {
    /// The state before any line of a playlist whose references are resolved against `base`.
    pub fn new(alloc: Global, base: &'a Base) -> ReaderState<'a>
        ensures { result ≡ unread base.now }
    {
        ReaderState {
            alloc,
            references: References::new(alloc, base),
            durations: Durations::new(),
            media_sequence: 0,
            discontinuity_sequence: 0,
            media_count: 0,
            discontinuity_count: 0,
            discontinuities: 0,
            byte_range: None,
            program_date_time: None,
            times: TimeReader::new(),
            key_texts: KeyTexts::new(),
            last: None,
            segments: GrowingSegments::new(alloc),
            uri_front: None,
        }
    }

    /// Sets the Media Sequence Number of the first segment to `number` (RFC 8216, section 4.3.3.2).
    pub fn sequence(&mut self, number: u64)
        ensures takes { SayingLeadsTo (said.sequence number) self.old self.new }
        ensures segments { self.new.segments ≡ self.old.segments }
    {
        self.media_sequence = number;
    }

    /// Sets the Discontinuity Sequence Number before any discontinuity to `number` (RFC 8216, section 4.3.3.3).
    pub fn discontinuity_sequence(&mut self, number: u64)
        requires { self.old.standing.discontinuity_count ≡ 0 }
        ensures takes { SayingLeadsTo (said.discontinuity_sequence number) self.old self.new }
        ensures segments { self.new.segments ≡ self.old.segments }
    {
        self.discontinuity_sequence = number;
    }

    /// Whether a discontinuity stood on a line before.
    pub fn has_discontinuity(&self) -> bool
        ensures { result ≡ nat_lt 0 self.now.standing.discontinuity_count }
    {
        self.discontinuity_count > 0
    }

    /// A discontinuity before the next segment (4.3.2.3). `BadValue` if its number passes 2^64 - 1. Takes no
    /// memory.
    pub fn discontinuity(&mut self) -> Result<(), FaultKind>
        ensures takes { TakesTagExactly said.discontinuity_tag [] self.old self.new result }
        ensures segments { self.new.segments ≡ self.old.segments }
    {
        let Some(total) = self.discontinuity_count.checked_add(1) else {
            return Err(FaultKind::BadValue);
        };
        if self.discontinuity_sequence.checked_add(total).is_none() {
            return Err(FaultKind::BadValue);
        }
        self.discontinuity_count = total;
        self.discontinuities += 1;
        Ok(())
    }

    /// Takes `rest`, the value of EXTINF: the duration and the title of the next segment (RFC 8216, section 4.3.2.1).
    /// `BadDuration` if it states none. Takes no memory.
    pub fn duration_tag(&mut self, rest: &'a str) -> Result<(), FaultKind>
        ensures takes { TakesTagExactly said.duration_tag rest.now self.old self.new result }
        ensures segments { self.new.segments ≡ self.old.segments }
    {
        self.durations.read(rest)
    }

    /// Whether `keep_duration_line` may keep a line: the last two EXTINF stated the same. It has no contract, since
    /// `keep_duration_line` looks for itself.
    #[inline(always)]
    pub fn wants_duration_line(&self) -> bool {
        self.durations.wants_line()
    }

    /// Keeps `line`, a whole line of EXTINF with its line feed, which states `stated`, for `duration_again`, if the
    /// last EXTINF stated the same.
    pub fn keep_duration_line(&mut self, line: &'a str, stated: &str)
        requires { IsLineOf line.now stated.now }
        ensures { self.new ≡ self.old }
    {
        self.durations.keep_line(line, stated);
    }

    #[tactic(auto, using(crate::proofs::Repeating::repeated))]
    /// If `left`, what is left of a playlist, begins with the line that was kept, takes that line again, as
    /// `duration_tag` would, and gives what is left after it (RFC 8216, section 4.3.2.1). Takes no memory.
    #[inline(always)]
    pub fn duration_again(&mut self, left: &'a str) -> Option<&'a str>
        ensures again { MatchOption result (self.new ≡ self.old)
            (λ later. IsRepeated left.now later.now self.old self.new) }
        ensures segments { self.new.segments ≡ self.old.segments }
    {
        self.durations.again(left)
    }

    /// Takes `rest`, the attributes of EXT-X-KEY (RFC 8216, section 4.3.2.4). METHOD=NONE ends the keys of every
    /// format. The faults, in this order: `BadAttributes` for the list, `MissingAttribute` or `BadAttributes` for
    /// METHOD, URI, IV and KEYFORMAT, `BadUri`, `TooMany` if 17 formats would be in force; `OutOfMemory` only if an
    /// allocation fails.
    pub fn key_tag(&mut self, rest: &str) -> Result<(), FaultKind>
        ensures takes { TakesTag said.key_tag rest.now self.old self.new result }
        ensures segments { self.new.segments ≡ self.old.segments }
    {
        let base = self.references.base();
        match said_by_key_tag(self.alloc, base, &mut self.key_texts, rest)? {
            KeyTag::End => self.segments.set_keys(Keys::none(), KeyPlaces::none()),
            KeyTag::Set(key) => {
                let after = keys_in_reader_state_with(self.alloc, self.segments.keys(), key)?;
                self.segments.set_keys(after.keys, after.same);
            }
        }
        Ok(())
    }

    /// Takes `rest`, the attributes of EXT-X-MAP (RFC 8216, section 4.3.2.5): an initialisation section, whose keys
    /// are those in force at its own line. The faults, in this order: `BadAttributes` for the list,
    /// `MissingAttribute` or `BadAttributes` for URI, `BadAttributes` or `BadRange` for BYTERANGE, `BadUri`,
    /// `MapWithoutIv` if a key of METHOD AES-128 has no IV; `OutOfMemory` only if an allocation fails.
    pub fn init_section_tag(&mut self, rest: &str) -> Result<(), FaultKind>
        ensures takes { TakesTag said.init_section_tag rest.now self.old self.new result }
        ensures segments { self.new.segments ≡ self.old.segments }
    {
        let tag = said_by_init_section_tag(self.alloc, self.references.base(), rest)?;
        let keys = self.segments.keys().clone()?;
        if is_iv_needed(&keys.lent()) {
            return Err(FaultKind::MapWithoutIv);
        }
        let init_section = InitSection {
            uri: tag.uri,
            byte_range: tag.byte_range,
            keys,
        };
        let shared = Shared::new(self.alloc, init_section)?;
        self.segments
            .set_init_section(Some(shared), KeyPlaces::all());
        Ok(())
    }

    /// Takes `rest`, the value of EXT-X-BYTERANGE: the byte range of the next segment, in bytes (RFC 8216, section
    /// 4.3.2.2). `BadRange` if it states none, or its end passes 2^64 - 1. Takes no memory.
    pub fn byte_range_tag(&mut self, rest: &str) -> Result<(), FaultKind>
        ensures takes { TakesTagExactly said.byte_range_tag rest.now self.old self.new result }
        ensures segments { self.new.segments ≡ self.old.segments }
    {
        self.byte_range = Some(byte_range_tag_numbers(rest)?);
        Ok(())
    }

    /// Takes `rest`, the value of EXT-X-PROGRAM-DATE-TIME: the instant at which the next segment begins (RFC 8216,
    /// section 4.3.2.6). Of several, the last counts. `BadTime` if it states none. Takes no memory.
    pub fn time_tag(&mut self, rest: &str) -> Result<(), FaultKind>
        ensures takes { TakesTagExactly said.time_tag rest.now self.old self.new result }
        ensures segments { self.new.segments ≡ self.old.segments }
    {
        let Ok(instant) = self.times.read(rest) else {
            return Err(FaultKind::BadTime);
        };
        self.program_date_time = Some(instant);
        Ok(())
    }

    // Whether one more segment is one too many.
    fn is_full(&self) -> bool
        ensures { result ≡ nat_lt MAX_SEGMENTS (self.now.standing.media_count + 1) }
    {
        self.media_count + 1 > MAX_SEGMENTS
    }

    // The next segment's Media Sequence Number (RFC 8216, section 4.3.3.2); none from 2^64 on.
    fn next_number(&self) -> Option<u64>
        ensures { SomeIff result (self.now.standing.media_sequence + self.now.standing.media_count
            < 2 ^ 64) (self.now.standing.media_sequence + self.now.standing.media_count) }
    {
        self.media_sequence.checked_add(self.media_count)
    }

    // The byte range of a segment of this resource here.
    fn next_byte_range(&self, uri: &str) -> Result<Option<ByteRange>, FaultKind>
        ensures { result
            ≡ byte_range_from self.now.standing.byte_range uri.now self.now.standing.extent }
    {
        match self.byte_range {
            None => Ok(None),
            Some((length, Some(offset))) => Ok(Some(ByteRange { length, offset })),
            Some((length, None)) => byte_range_after_last_part(length, uri, &self.last),
        }
    }

    // The next segment's Discontinuity Sequence Number (RFC 8216, section 4.3.3.3).
    fn discontinuity_number(&self) -> u64
        ensures { result
            ≡ self.now.standing.discontinuity_sequence + self.now.standing.discontinuity_count }
    {
        self.discontinuity_sequence + self.discontinuity_count
    }

    // What the next segment has of its own, with this after the front of its URI, of this byte range, and of this duration with this
    // title.
    #[inline(always)]
    fn next_parts<'b>(
        &self,
        number: u64,
        uri_rest: &'b str,
        byte_range: Option<ByteRange>,
        duration: Nanos,
        title: &'b str,
    ) -> SegmentParts<'b>
        requires { number ≡ self.now.standing.media_sequence + self.now.standing.media_count }
        ensures { (front : List ℕ) → segment_under self.now.standing.keys self.now.standing.init_section front result
            ≡ segment_from self.now.standing (front ++ uri_rest.now) byte_range (duration, title.now) }
    {
        SegmentParts {
            media_sequence: number,
            discontinuity_sequence: self.discontinuity_number(),
            discontinuities: self.discontinuities,
            uri_rest,
            byte_range,
            duration,
            title,
            program_date_time: self.program_date_time,
        }
    }

    // Lists the next segment, of the resource whose URI is these two texts, of this byte range, and of this duration with this
    // title. `front` says which front of the base the first text is, if it is known to be one. Fails only if an allocation fails.
    #[inline(always)]
    fn list(
        &mut self,
        number: u64,
        front: Option<BaseFront>,
        uri_front: &str,
        uri_rest: &str,
        byte_range: Option<ByteRange>,
        duration: Nanos,
        title: &str,
    ) -> Result<(), AllocError>
        requires number { number
            ≡ self.old.standing.media_sequence + self.old.standing.media_count }
        requires front { IfSome front
            (λ front. StandsBefore self.old.base (is_plain_after front) uri_front.now) }
        ensures listed { OnOk result
            (self.new ≡ record self.old {
              segments = self.old.segments
                  ++ segment_from self.old.standing (uri_front.now ++ uri_rest.now) byte_range (duration, title.now) ∷ [];
            }) }
        ensures refused { OnErr result (self.new ≡ self.old) }
    {
        let parts = self.next_parts(number, uri_rest, byte_range, duration, title);
        self.segments.set_uri_front(uri_front)?;
        self.uri_front = front;
        self.segments.push(&parts)
    }

    // What holds after a URI line, of whose segment this part is kept: a segment's own tags end with it (RFC 8216,
    // section 4.3.2).
    #[inline(always)]
    fn segment_stands(&mut self, last: Option<Part>)
        requires { self.old.standing.media_count < MAX_SEGMENTS }
        ensures { self.new ≡ after_uri_line self.old (extent_after last) }
    {
        self.media_count += 1;
        self.discontinuities = 0;
        self.durations.end();
        self.byte_range = None;
        self.program_date_time = None;
        if self.last.is_some() || last.is_some() {
            self.last = last;
        }
    }

    /// Lists the segment of the URI line `reference` (RFC 8216, sections 4.3.2 and 5.2), which takes the tags of one
    /// segment. `is_path_segment` says that the reference is known to be one plain segment of a path (RFC 3986, section
    /// 3.3): then its bytes aren't looked at again.
    ///
    /// The faults, in this order: `TooMany` past 10,000 segments, `NoDuration`, `BadValue` if its media sequence
    /// number passes 2^64 - 1, `BadUri`, `RangeNoStart`, `BadRange`; `OutOfMemory` only if an allocation fails, or the
    /// segments' texts have 2^32 bytes or more.
    ///
    /// ```text
    /// let mut state = ReaderState::new(alloc, &base);
    /// state.duration_tag("6,")?;
    /// state.take_segment("s0.ts", false)    Ok: 6 s of base/s0.ts, with the number 0
    /// state.take_segment("s1.ts", false)    Err(FaultKind::NoDuration)
    /// ```
    #[inline(always)]
    pub fn take_segment(
        &mut self,
        reference: &'a str,
        is_path_segment: bool,
    ) -> Result<(), FaultKind>
        requires { is_path_segment ≡ true → list_all is_path_segment_byte reference.now ≡ true }
        ensures takes { TakesSegment
            (λ base before. said_by_uri limited base before reference.now) self.old self.new result }
        ensures one { OnOk result (ReadsOne self.old.segments self.new.segments) }
        ensures refused { OnErr result (self.new.segments ≡ self.old.segments) }

        // These two faults are answered whatever memory there is.
        ensures full { self.old.standing.media_count ≡ MAX_SEGMENTS
            → result ≡ Err FaultKind.TooMany }
        ensures no_duration { self.old.standing.media_count < MAX_SEGMENTS
            → self.old.standing.duration ≡ None → result ≡ Err FaultKind.NoDuration }
    {
        if self.is_full() {
            return Err(FaultKind::TooMany);
        }
        let Some((duration, title)) = self.durations.own() else {
            return Err(FaultKind::NoDuration);
        };
        let Some(number) = self.next_number() else {
            return Err(FaultKind::BadValue);
        };
        if self.byte_range.is_some() {
            return self.take_part(number, reference, duration, title);
        }
        let Some(front) = base_front_of_segment(reference, is_path_segment) else {
            return self.take_other(number, reference, duration, title);
        };
        self.take_joined(front, number, reference, duration, title)
    }

    // The same of a segment whose resource is this front of the base before its reference. Most have the front in force.
    #[inline(always)]
    fn take_joined(
        &mut self,
        front: BaseFront,
        number: u64,
        reference: &str,
        duration: Nanos,
        title: &str,
    ) -> Result<(), FaultKind>
        requires fits { self.old.standing.media_count < MAX_SEGMENTS }
        requires number { number
            ≡ self.old.standing.media_sequence + self.old.standing.media_count }
        requires own { self.old.standing.duration ≡ Some (duration, title.now) }
        requires whole { self.old.standing.byte_range ≡ None }
        requires plain { is_plain_after front reference.now ≡ true }
        ensures takes { TakesSegment
            (λ base before. said_by_uri limited base before reference.now) self.old self.new result }
        ensures one { OnOk result (ReadsOne self.old.segments self.new.segments) }
        ensures refused { OnErr result (self.new.segments ≡ self.old.segments) }
    {
        if self.uri_front != Some(front) {
            return self.take_after_front(front, number, reference, duration, title);
        }
        let parts = self.next_parts(number, reference, None, duration, title);
        self.segments.push(&parts)?;
        self.segment_stands(None);
        Ok(())
    }

    // The same where that front isn't known to be in force. Out of line, since few segments change it.
    #[inline(never)]
    fn take_after_front(
        &mut self,
        front: BaseFront,
        number: u64,
        reference: &str,
        duration: Nanos,
        title: &str,
    ) -> Result<(), FaultKind>
        requires fits { self.old.standing.media_count < MAX_SEGMENTS }
        requires number { number
            ≡ self.old.standing.media_sequence + self.old.standing.media_count }
        requires own { self.old.standing.duration ≡ Some (duration, title.now) }
        requires whole { self.old.standing.byte_range ≡ None }
        requires plain { is_plain_after front reference.now ≡ true }
        ensures takes { TakesSegment
            (λ base before. said_by_uri limited base before reference.now) self.old self.new result }
        ensures one { OnOk result (ReadsOne self.old.segments self.new.segments) }
        ensures refused { OnErr result (self.new.segments ≡ self.old.segments) }
    {
        let Some(text) = self.references.text_of_front(front) else {
            return self.take_other(number, reference, duration, title);
        };
        self.list(number, Some(front), text, reference, None, duration, title)?;
        self.segment_stands(None);
        Ok(())
    }

    // The same of a segment before whose reference nothing is just put. Out of line, since few are so.
    #[inline(never)]
    fn take_other(
        &mut self,
        number: u64,
        reference: &str,
        duration: Nanos,
        title: &str,
    ) -> Result<(), FaultKind>
        requires fits { self.old.standing.media_count < MAX_SEGMENTS }
        requires number { number
            ≡ self.old.standing.media_sequence + self.old.standing.media_count }
        requires own { self.old.standing.duration ≡ Some (duration, title.now) }
        requires whole { self.old.standing.byte_range ≡ None }
        ensures takes { TakesSegment
            (λ base before. said_by_uri limited base before reference.now) self.old self.new result }
        ensures one { OnOk result (ReadsOne self.old.segments self.new.segments) }
        ensures refused { OnErr result (self.new.segments ≡ self.old.segments) }
    {
        let uri = self.references.resolve(reference)?;
        self.list(number, None, "", uri.as_str(), None, duration, title)?;
        self.segment_stands(None);
        Ok(())
    }

    // The same of a segment that is a part of its resource. Out of line, since most segments are whole resources.
    #[inline(never)]
    fn take_part(
        &mut self,
        number: u64,
        reference: &'a str,
        duration: Nanos,
        title: &str,
    ) -> Result<(), FaultKind>
        requires fits { self.old.standing.media_count < MAX_SEGMENTS }
        requires number { number
            ≡ self.old.standing.media_sequence + self.old.standing.media_count }
        requires own { self.old.standing.duration ≡ Some (duration, title.now) }
        ensures takes { TakesSegment
            (λ base before. said_by_uri limited base before reference.now) self.old self.new result }
        ensures one { OnOk result (ReadsOne self.old.segments self.new.segments) }
        ensures refused { OnErr result (self.new.segments ≡ self.old.segments) }
    {
        let uri = self.references.resolve_part(reference)?;
        let byte_range = self.next_byte_range(uri.as_str())?;
        self.list(number, None, uri.as_str(), "", byte_range, duration, title)?;
        self.segment_stands(last_byte_range_part(uri, byte_range));
        Ok(())
    }

    /// The segments that were read, lent.
    pub fn segments(&self) -> SegmentSlice<'_>
        ensures { result ≡ self.now.segments }
    {
        self.segments.as_slice()
    }

    /// How many segments were read.
    pub fn segment_count(&self) -> usize
        ensures { result ≡ length self.now.segments }
    {
        self.segments.len()
    }

    /// The list of the segments that were read.
    pub fn into_segments(self) -> Segments
        ensures { result ≡ self.entry.segments }
    {
        self.segments.into_segments()
    }
}

// What is kept of a segment of this resource for the next one's byte range, if it is a part of it (4.3.2.2).
fn last_byte_range_part(uri: Shared<Text>, byte_range: Option<ByteRange>) -> Option<Part>
    ensures { extent_after result ≡ extent_with uri byte_range }
{
    match byte_range {
        Some(byte_range) => Some(Part { uri, byte_range }),
        None => None,
    }
}

// The byte range of `length` bytes that states no offset: it follows `last`, the one before, if that is of the same
// resource `uri` (RFC 8216, section 4.3.2.2).
fn byte_range_after_last_part(
    length: u64,
    uri: &str,
    last: &Option<Part>,
) -> Result<Option<ByteRange>, FaultKind>
    ensures { result ≡ byte_range_after length uri.now (extent_after last.now) }
{
    let Some(last) = last else {
        return Err(FaultKind::RangeNoStart);
    };
    if uri != last.uri.as_str() {
        return Err(FaultKind::RangeNoStart);
    }
    let Some(offset) = last.byte_range.offset.checked_add(last.byte_range.length) else {
        return Err(FaultKind::BadRange);
    };
    match length.checked_add(offset) {
        None => Err(FaultKind::BadRange),
        Some(_) => Ok(Some(ByteRange { length, offset })),
    }
}
