//! Segments. A list of them holds their texts together: each is a row of places among these.
ghost use Rattle.std.specs.Prelude.{◌≡◌, ℕ, List, ◌∷◌, ◌++◌, ◌<◌, [], true, None, Some, OnOk, OnErr, MatchOption, length, take, drop, slice_get, IsTrue, string_bytes};
ghost use Rattle.std.specs.List.{AllByRecursion};
ghost use Rattle.std.specs.Str.{is_utf8};
ghost use Rattle.playlist_model.specs.InCommon.{AreSameAt, HaveInCommon, IsInCommon, init_section_keys};
ghost use Rattle.playlist_model.specs.Segments.{Segment, segment_under};
ghost use Rattle.playlist_model.specs.Rows.{AreCompared, Fits, HasText, IsComparedWithLast, IsLastOf, row_segment, segment_text_at, title_place};
ghost use Rattle.playlist_model.specs.Inner.Rows.{AreInForceOf, Extends};

use crate::places::{
    Extra, Place, is_segment_text_at, put_segment_extra, put_segment_text, put_segment_title,
    segment_extra_at, segment_text_at,
};
use crate::standings::{
    SegmentNumbers, Standing, is_next_standing, last_own_keys, put_segment_standing,
};
use crate::uri_ref::UriRef;
use crate::{ByteRange, InCommon, InitSection, KeyPlaces, Keys, KeysRef, Shared};
use date_times::Instant;
use fixed_duration::Nanos;
use std::alloc::{AllocError, Global};
use std::marker::Model;

// What the rows of a list point to.
#[derive(Drop)]
struct Tables {
    // The rests of the URIs, each with its title after it, and the fronts of them.
    texts: String,
    extras: Vec<Extra>,
    standings: Vec<Standing>,
}

// A segment of a list, in 32 bytes.
#[derive(Clone, Copy)]
struct Row {
    duration: Nanos,
    // What comes after the front of its URI, which is with its standing.
    uri_rest: Place,
    // The place after its title, which lies after that.
    title_end: u32,
    standing: u32,
    // Its Media Sequence Number, counted from that of its standing.
    number: u32,
    // The place of what it has that few segments have, from 1; 0 if it has nothing of that.
    extra: u32,
}

/// What a segment has of its own: all but the keys, the initialisation section and the front of its URI, which are in force (RFC
/// 8216, section 4.3.2).
#[derive(Clone, Copy)]
pub struct SegmentParts<'a> {
    /// Its Media Sequence Number (section 4.3.3.2).
    pub media_sequence: u64,
    /// Its Discontinuity Sequence Number (section 4.3.3.3).
    pub discontinuity_sequence: u64,
    /// How many EXT-X-DISCONTINUITY stand between it and the segment before.
    pub discontinuities: u64,
    /// What its resource, an absolute URI, has after the front in force.
    pub uri_rest: &'a str,
    /// The part of the resource, if it isn't the whole.
    pub byte_range: Option<ByteRange>,
    /// How long it lasts (EXTINF).
    pub duration: Nanos,
    /// What stands after the duration and a comma.
    pub title: &'a str,
    /// When its first sample is, if EXT-X-PROGRAM-DATE-TIME states that.
    pub program_date_time: Option<Instant>,
}

// Puts the row of the next segment after the others, and into the tables all that it points to. The front of its URI lies there
// already. `is_listed` says that the last standing has the keys, the initialisation section and the front, and `in_common` what
// these have in common with it.
#[inline(always)]
fn push_segment_row(
    tables: &mut Tables,
    rows: &mut Vec<Row>,
    is_listed: bool,
    keys: &Keys,
    init_section: &Option<Shared<InitSection>>,
    in_common: InCommon,
    uri_front: Place,
    parts: &SegmentParts<'_>,
) -> Result<(), AllocError>
    requires listed { is_listed ≡ true
        → IsLastOf tables.old.standings.items keys.now init_section.now uri_front }
    requires common { AreCompared tables.old.standings.items }
    requires last { IsComparedWithLast tables.old.standings.items in_common keys.now init_section.now }
    requires front { HasText (string_bytes tables.old.texts) uri_front }
    ensures extends { Extends tables.old tables.new }
    ensures row { OnOk result
        ((row : Row) × (rows.new.items ≡ rows.old.items ++ row ∷ []) × Fits tables.new row
        × (row_segment tables.new row
        ≡ segment_under keys.now init_section.now (segment_text_at (string_bytes tables.old.texts) uri_front) parts.now)) }
    ensures common { AreCompared tables.new.standings.items }
    ensures last { OnOk result
        (IsLastOf tables.new.standings.items keys.now init_section.now uri_front) }
    ensures refused { OnErr result (rows.new.items ≡ rows.old.items) }
    ensures still { OnErr result (tables.new.standings.items ≡ tables.old.standings.items) }
{
    rows.reserve(1)?;
    let extra = put_segment_extra(
        &mut tables.extras,
        parts.byte_range,
        parts.program_date_time,
    )?;
    let uri_rest = put_segment_text(&mut tables.texts, parts.uri_rest)?;
    let title_end = put_segment_title(&mut tables.texts, uri_rest, parts.title)?;
    // The standing comes last: if an allocation fails, the last one is as it was.
    let (standing, number) = put_segment_standing(
        &mut tables.standings,
        is_listed,
        keys,
        init_section,
        in_common,
        SegmentNumbers {
            media_sequence: parts.media_sequence,
            discontinuity_sequence: parts.discontinuity_sequence,
            discontinuities: parts.discontinuities,
        },
        uri_front,
    )?;
    rows.push_reserved(Row {
        duration: parts.duration,
        uri_rest,
        title_end,
        standing,
        number,
        extra,
    });
    Ok(())
}

// The place of the title of a row.
fn title_place(row: &Row) -> Place
    ensures { result ≡ title_place row.now }
{
    Place {
        from: row.uri_rest.to,
        to: row.title_end,
    }
}

// What the segment of a row has in common with that of the row before it.
fn rows_in_common(tables: &Tables, before: &Row, now: &Row) -> InCommon
    requires common { AreCompared tables.now.standings.items }
    requires before { Fits tables.now before.now }
    requires now { Fits tables.now now.now }
    ensures { HaveInCommon result (row_segment tables.now before.now) (row_segment tables.now now.now) }
{
    let standing = &tables.standings[now.standing as usize];
    if now.standing == before.standing {
        return standing.whole;
    }
    if u64::from(before.standing) + 1 == u64::from(now.standing) {
        return standing.in_common;
    }
    InCommon::nothing()
}

/// A list of segments.
#[derive(Drop)]
pub struct Segments {
    tables: Tables,
    rows: Vec<Row>,
}

impl Model for Segments {
    ghost use Rattle.std.specs.Prelude.{List};
    ghost use Rattle.std.specs.List.{AllByRecursion};
    ghost use Rattle.playlist_model.specs.Segments.{Segment};
    ghost use Rattle.playlist_model.specs.Rows.{AreCompared, Fits, row_segments};

    ghost Value = { List Segment };

    ghost view = { λ a. row_segments a.tables a.rows.items };

    ghost invariant = { λ a. AllByRecursion (Fits a.tables) a.rows.items × AreCompared a.tables.standings.items };
}

impl Segments {
    /// The segments, lent.
    #[inline(always)]
    pub fn as_slice(&self) -> SegmentSlice<'_>
        ensures { result ≡ self.now }
    {
        SegmentSlice {
            tables: &self.tables,
            rows: self.rows.as_slice(),
        }
    }

    #[tactic(auto, using(crate::proofs::Rows::long_rows))]
    /// How many segments there are.
    #[inline(always)]
    pub fn len(&self) -> usize
        ensures { result ≡ length self.now }
    {
        self.rows.len()
    }

    /// The segment at `place`, from 0.
    #[inline(always)]
    pub fn get(&self, place: usize) -> SegmentRef<'_>
        requires { place < length self.now }
        ensures { slice_get self.now place ≡ Some result }
    {
        let segments = self.as_slice();
        segments.get(place)
    }

    // Whether it is seen at once that no segment has a key or an initialisation section. No proof rests on it: it saves that what
    // bare segments have in common is looked up.
    pub(crate) fn is_bare(&self) -> bool {
        match self.tables.standings.as_slice() {
            [] => true,
            [standing] => standing.keys.len() == 0 && standing.init_section.is_none(),
            _ => false,
        }
    }
}

/// Segments that are listed one after the other, and what is in force after them: the keys, the initialisation section, and the
/// front of the URIs, which many of them share.
#[derive(Drop)]
pub struct GrowingSegments {
    tables: Tables,
    rows: Vec<Row>,
    keys: Keys,
    init_section: Option<Shared<InitSection>>,
    uri_front: Place,
    // Whether these three are those of the last standing.
    is_listed: bool,
    // What the keys and the initialisation section have in common with it.
    in_common: InCommon,
}

impl Model for GrowingSegments {
    ghost use Rattle.std.specs.Prelude.{◌≡◌, true, string_bytes};
    ghost use Rattle.std.specs.List.{AllByRecursion};
    ghost use Rattle.playlist_model.specs.Segments.{Growing};
    ghost use Rattle.playlist_model.specs.Rows.{AreCompared, Fits, HasText, IsComparedWithLast, IsLastOf, row_segments, segment_text_at};

    ghost Value = { Growing };

    ghost view = { λ a. record { segments = row_segments a.tables a.rows.items; keys = a.keys; init_section = a.init_section; uri_front = segment_text_at (string_bytes a.tables.texts) a.uri_front } };

    ghost invariant = { λ a.
        AllByRecursion (Fits a.tables) a.rows.items
        × (a.is_listed ≡ true → IsLastOf a.tables.standings.items a.keys a.init_section a.uri_front)
        × AreCompared a.tables.standings.items
        × IsComparedWithLast a.tables.standings.items a.in_common a.keys a.init_section
        × HasText (string_bytes a.tables.texts) a.uri_front };
}

impl GrowingSegments {
    /// No segment, no key, no initialisation section and an empty front. Takes no memory.
    pub fn new(alloc: Global) -> GrowingSegments
        ensures { result ≡ record { segments = []; keys = []; init_section = None; uri_front = [] } }
    {
        GrowingSegments {
            tables: Tables {
                texts: String::new(alloc),
                extras: Vec::new(alloc),
                standings: Vec::new(alloc),
            },
            rows: Vec::new(alloc),
            keys: Keys::none(),
            init_section: None,
            uri_front: Place { from: 0, to: 0 },
            is_listed: false,
            in_common: InCommon::nothing(),
        }
    }

    /// The segments so far, lent.
    #[inline(always)]
    pub fn as_slice(&self) -> SegmentSlice<'_>
        ensures { result ≡ self.now.segments }
    {
        SegmentSlice {
            tables: &self.tables,
            rows: self.rows.as_slice(),
        }
    }

    #[tactic(auto, using(crate::proofs::Rows::long_rows))]
    /// How many segments there are so far.
    pub fn len(&self) -> usize
        ensures { result ≡ length self.now.segments }
    {
        self.rows.len()
    }

    /// The keys in force, as their tags state them.
    pub fn keys(&self) -> &Keys
        ensures { result.now ≡ self.now.keys }
    {
        &self.keys
    }

    /// The initialisation section in force.
    pub fn init_section(&self) -> &Option<Shared<InitSection>>
        ensures { result.now ≡ self.now.init_section }
    {
        &self.init_section
    }

    /// From here on `keys` are in force, as their tags state them (RFC 8216, section 4.3.2.4). At the places `same` they are the
    /// keys that were in force, but for their initialisation vectors.
    pub fn set_keys(&mut self, keys: Keys, same: KeyPlaces)
        requires { AreSameAt same self.old.keys keys }
        ensures { self.new ≡ record self.old { keys = keys } }
    {
        self.in_common = self.in_common.with_keys(same);
        self.keys = keys;
        self.is_listed = false;
    }

    /// From here on `init_section` is in force (RFC 8216, section 4.3.2.5). At the places `same` its keys are those in force, but
    /// for their initialisation vectors.
    pub fn set_init_section(&mut self, init_section: Option<Shared<InitSection>>, same: KeyPlaces)
        requires { AreSameAt same self.old.keys (init_section_keys init_section) }
        ensures { self.new ≡ record self.old { init_section = init_section } }
    {
        self.in_common = self
            .in_common
            .with_init_section(last_own_keys(self.tables.standings.as_slice()), same);
        self.init_section = init_section;
        self.is_listed = false;
    }

    /// From here on the URI of a segment begins with `front`, and goes on with the rest that it states itself. `front` takes no
    /// memory if it was in force before. Fails only if an allocation fails, or the texts have 2^32 bytes or more; all is then as
    /// it was.
    pub fn set_uri_front(&mut self, front: &str) -> Result<(), AllocError>
        ensures set { OnOk result (self.new ≡ record self.old { uri_front = front.now }) }
        ensures refused { OnErr result (self.new ≡ self.old) }
    {
        if is_segment_text_at(self.tables.texts.as_str(), self.uri_front, front) {
            return Ok(());
        }
        self.uri_front = put_segment_text(&mut self.tables.texts, front)?;
        self.is_listed = false;
        Ok(())
    }

    /// Lists the segment of these `parts` under the keys, the initialisation section and the front in force. Fails only if an
    /// allocation fails, or the texts have 2^32 bytes or more; all is then as it was.
    #[inline(always)]
    pub fn push(&mut self, parts: &SegmentParts<'_>) -> Result<(), AllocError>
        ensures pushed { OnOk result
            (self.new ≡ record self.old {
              segments = self.old.segments
                  ++ segment_under self.old.keys self.old.init_section self.old.uri_front parts.now ∷ [];
            }) }
        ensures refused { OnErr result (self.new ≡ self.old) }
    {
        push_segment_row(
            &mut self.tables,
            &mut self.rows,
            self.is_listed,
            &self.keys,
            &self.init_section,
            self.in_common,
            self.uri_front,
            parts,
        )?;
        if !self.is_listed {
            self.in_common = InCommon::whole(self.in_common.own_keys, self.init_section.is_some());
            self.is_listed = true;
        }
        Ok(())
    }

    /// Lists a copy of `segment`, which shares its keys and its initialisation section. Fails only if an allocation fails, or
    /// the texts have 2^32 bytes or more; the segments are then as they were.
    pub fn push_copy(&mut self, segment: &SegmentRef<'_>) -> Result<(), AllocError>
        ensures pushed { OnOk result (self.new.segments ≡ self.old.segments ++ segment.now ∷ []) }
        ensures refused { OnErr result (self.new.segments ≡ self.old.segments) }
    {
        self.push_row_copy(segment.tables, segment.row, None)
    }

    // From here on is in force what stands there. `is_next` says that what is in force stands at the place before.
    fn take_standing(
        &mut self,
        tables: &Tables,
        standing: &Standing,
        is_next: bool,
    ) -> Result<(), AllocError>
        requires front { HasText (string_bytes tables.now.texts) standing.now.uri_front }
        requires next { is_next ≡ true
            → IsInCommon standing.now.in_common self.old.keys self.old.init_section standing.now.keys standing.now.init_section }
        requires own { AreSameAt standing.now.whole.own_keys standing.now.keys (init_section_keys standing.now.init_section) }
        ensures taken { OnOk result
            (self.new ≡ record self.old {
              keys = standing.now.keys;
              init_section = standing.now.init_section;
              uri_front = segment_text_at (string_bytes tables.now.texts) standing.now.uri_front;
            }) }
        ensures refused { OnErr result (self.new.segments ≡ self.old.segments) }
    {
        self.set_uri_front(segment_text_at(tables.texts.as_str(), standing.uri_front))?;
        let in_common = if is_next {
            standing.in_common
        } else {
            InCommon::nothing()
        };
        self.set_keys(standing.keys.clone()?, in_common.keys);
        if in_common.init_section && standing.init_section.is_some() {
            return Ok(());
        }
        self.set_init_section(standing.init_section.clone()?, standing.whole.own_keys);
        Ok(())
    }

    // Lists a copy of the segment of a row, after that of a row over which stands what is at the place `last` of its list, if it is
    // known. What those have in common, the copies have.
    fn push_row_copy(
        &mut self,
        tables: &Tables,
        row: &Row,
        last: Option<u32>,
    ) -> Result<(), AllocError>
        requires fits { Fits tables.now row.now }
        requires common { AreCompared tables.now.standings.items }
        requires last { AreInForceOf tables.now last self.old }
        ensures pushed { OnOk result (self.new.segments ≡ self.old.segments ++ row_segment tables.now row.now ∷ []) }
        ensures last { OnOk result
            (AreInForceOf tables.now (Some row.now.standing) self.new) }
        ensures refused { OnErr result (self.new.segments ≡ self.old.segments) }
    {
        let standing = &tables.standings[row.standing as usize];
        if last != Some(row.standing) {
            self.take_standing(tables, standing, is_next_standing(last, row.standing))?;
        }
        let segment = SegmentRef { tables, row };
        self.push(&SegmentParts {
            media_sequence: segment.media_sequence(),
            discontinuity_sequence: standing.numbers.discontinuity_sequence,
            discontinuities: standing.numbers.discontinuities,
            uri_rest: segment_text_at(tables.texts.as_str(), row.uri_rest),
            byte_range: segment.byte_range(),
            duration: row.duration,
            title: segment.title(),
            program_date_time: segment.program_date_time(),
        })
    }

    /// Lists copies of `segments`, one after the other, as `push_copy` does. Fails only if an allocation fails, or the texts have
    /// 2^32 bytes or more; some of them may be listed then, the first ones.
    pub fn push_copies(&mut self, segments: SegmentSlice<'_>) -> Result<(), AllocError>
        ensures pushed { OnOk result (self.new.segments ≡ self.old.segments ++ segments.entry) }
        ensures refused { OnErr result
            ((count : ℕ) × (self.new.segments ≡ self.old.segments ++ take count segments.entry)) }
    {
        let (tables, mut rest) = (segments.tables, segments.rows);
        let mut last = None;
        while let Some((row, later)) = rest.split_first() {
            self.push_row_copy(tables, row, last)?;
            last = Some(row.standing);
            rest = later;
        }
        Ok(())
    }

    /// The list of the segments.
    pub fn into_segments(self) -> Segments
        ensures { result ≡ self.segments }
    {
        Segments {
            tables: self.tables,
            rows: self.rows,
        }
    }
}

/// Segments of a list that follow each other, lent.
#[derive(Drop)]
pub struct SegmentSlice<'a> {
    tables: &'a Tables,
    rows: &'a [Row],
}

impl<'a> Model for SegmentSlice<'a> {
    ghost use Rattle.std.specs.Prelude.{List};
    ghost use Rattle.std.specs.List.{AllByRecursion};
    ghost use Rattle.playlist_model.specs.Segments.{Segment};
    ghost use Rattle.playlist_model.specs.Rows.{AreCompared, Fits, row_segments};

    ghost Value = { List Segment };

    ghost view = { λ a. row_segments a.tables.now a.rows.now };

    ghost invariant = { λ a. AllByRecursion (Fits a.tables.now) a.rows.now × AreCompared a.tables.now.standings.items };
}

impl<'a> SegmentSlice<'a> {
    /// The same segments, lent once more.
    #[inline(always)]
    pub fn again(&self) -> SegmentSlice<'a>
        ensures { result ≡ self.now }
    {
        SegmentSlice {
            tables: self.tables,
            rows: self.rows,
        }
    }

    #[tactic(auto, using(crate::proofs::Rows::long_rows))]
    /// How many segments there are.
    #[inline(always)]
    pub fn len(&self) -> usize
        ensures { result ≡ length self.now }
    {
        self.rows.len()
    }

    /// The first segment, if there is one.
    pub fn first(&self) -> Option<SegmentRef<'a>>
        ensures { MatchOption result (self.now ≡ []) (λ first. slice_get self.now 0 ≡ Some first) }
    {
        let (first, _) = self.split_first()?;
        Some(first)
    }

    /// The first segment, and those after it, if there is one.
    #[inline(always)]
    pub fn split_first(&self) -> Option<(SegmentRef<'a>, SegmentSlice<'a>)>
        ensures { MatchOption result (self.now ≡ []) (λ parts. self.now ≡ parts.0 ∷ parts.1) }
    {
        let (tables, rows) = (self.tables, self.rows);
        let (row, later) = rows.split_first()?;
        Some((
            SegmentRef { tables, row },
            SegmentSlice {
                tables,
                rows: later,
            },
        ))
    }

    /// What the second segment has in common with the first; nothing if there is no second one.
    pub fn second_in_common(&self) -> InCommon
        ensures { (before now : Segment) (later : List Segment) → self.now ≡ before ∷ (now ∷ later) → HaveInCommon result before now }
    {
        let (tables, rows) = (self.tables, self.rows);
        let [before, now, ..] = rows else {
            return InCommon::nothing();
        };
        rows_in_common(tables, before, now)
    }

    /// The last segment, and those before it, if there is one.
    pub fn split_last(&self) -> Option<(SegmentRef<'a>, SegmentSlice<'a>)>
        ensures { MatchOption result (self.now ≡ []) (λ parts. self.now ≡ parts.1 ++ parts.0 ∷ []) }
    {
        let (tables, rows) = (self.tables, self.rows);
        let (row, before) = rows.split_last()?;
        Some((
            SegmentRef { tables, row },
            SegmentSlice {
                tables,
                rows: before,
            },
        ))
    }

    /// The segments up to `place`, from 0, and those from it on; all and none if it is past the end.
    pub fn split_at(&self, place: usize) -> (SegmentSlice<'a>, SegmentSlice<'a>)
        ensures front { result.0 ≡ take place self.now }
        ensures back { result.1 ≡ drop place self.now }
    {
        let (tables, rows) = (self.tables, self.rows);
        let (front, back) = rows.split_at(place.min(rows.len()));
        (
            SegmentSlice {
                tables,
                rows: front,
            },
            SegmentSlice { tables, rows: back },
        )
    }

    /// The segment at `place`, from 0.
    #[inline(always)]
    pub fn get(&self, place: usize) -> SegmentRef<'a>
        requires { place < length self.now }
        ensures { slice_get self.now place ≡ Some result }
    {
        let (tables, rows) = (self.tables, self.rows);
        SegmentRef {
            tables,
            row: &rows[place],
        }
    }
}

/// A media segment (RFC 8216, sections 3 and 4.3.2), lent by its list.
#[derive(Drop)]
pub struct SegmentRef<'a> {
    tables: &'a Tables,
    row: &'a Row,
}

impl<'a> Model for SegmentRef<'a> {
    ghost use Rattle.playlist_model.specs.Segments.{Segment};
    ghost use Rattle.playlist_model.specs.Rows.{AreCompared, Fits, row_segment};

    ghost Value = { Segment };

    ghost view = { λ a. row_segment a.tables.now a.row.now };

    ghost invariant = { λ a. Fits a.tables.now a.row.now × AreCompared a.tables.now.standings.items };
}

impl<'a> SegmentRef<'a> {
    /// The same segment, lent once more.
    #[inline(always)]
    pub fn again(&self) -> SegmentRef<'a>
        ensures { result ≡ self.now }
    {
        SegmentRef {
            tables: self.tables,
            row: self.row,
        }
    }

    /// Its Media Sequence Number (section 4.3.3.2).
    #[inline(always)]
    pub fn media_sequence(&self) -> u64
        ensures { result ≡ self.now.media_sequence }
    {
        let (tables, row) = (self.tables, self.row);
        tables.standings[row.standing as usize]
            .numbers
            .media_sequence
            + u64::from(row.number)
    }

    /// Its Discontinuity Sequence Number (section 4.3.3.3).
    #[inline(always)]
    pub fn discontinuity_sequence(&self) -> u64
        ensures { result ≡ self.now.discontinuity_sequence }
    {
        let (tables, row) = (self.tables, self.row);
        tables.standings[row.standing as usize]
            .numbers
            .discontinuity_sequence
    }

    /// How many EXT-X-DISCONTINUITY stand between it and the segment before.
    #[inline(always)]
    pub fn discontinuities(&self) -> u64
        ensures { result ≡ self.now.discontinuities }
    {
        let (tables, row) = (self.tables, self.row);
        tables.standings[row.standing as usize]
            .numbers
            .discontinuities
    }

    /// Its resource: an absolute URI.
    #[inline(always)]
    pub fn uri(&self) -> UriRef<'a>
        ensures text { result ≡ self.now.uri }
        ensures utf8 { IsTrue (is_utf8 self.now.uri) }
    {
        let (tables, row) = (self.tables, self.row);
        let texts = tables.texts.as_str();
        let front = segment_text_at(texts, tables.standings[row.standing as usize].uri_front);
        UriRef::new(front, segment_text_at(texts, row.uri_rest))
    }

    /// The part of the resource, if it isn't the whole.
    #[inline(always)]
    pub fn byte_range(&self) -> Option<ByteRange>
        ensures { result ≡ self.now.byte_range }
    {
        let (tables, row) = (self.tables, self.row);
        segment_extra_at(tables.extras.as_slice(), row.extra).byte_range
    }

    /// The keys that it is encrypted under, sorted by format; none if it is clear.
    #[inline(always)]
    pub fn keys(&self) -> KeysRef<'a>
        ensures { result ≡ self.now.keys }
    {
        let (tables, row) = (self.tables, self.row);
        tables.standings[row.standing as usize]
            .keys
            .lent_under(self.media_sequence())
    }

    /// What its parser is initialised with, if it needs that.
    #[inline(always)]
    pub fn init_section(&self) -> &'a Option<Shared<InitSection>>
        ensures { result.now ≡ self.now.init_section }
    {
        let (tables, row) = (self.tables, self.row);
        &tables.standings[row.standing as usize].init_section
    }

    /// How long it lasts (EXTINF).
    #[inline(always)]
    pub fn duration(&self) -> Nanos
        ensures { result ≡ self.now.duration }
    {
        self.row.duration
    }

    /// What stands after the duration and a comma.
    #[inline(always)]
    pub fn title(&self) -> &'a str
        ensures { result.now ≡ self.now.title }
    {
        let (tables, row) = (self.tables, self.row);
        segment_text_at(tables.texts.as_str(), title_place(row))
    }

    /// When its first sample is, if EXT-X-PROGRAM-DATE-TIME states that.
    #[inline(always)]
    pub fn program_date_time(&self) -> Option<Instant>
        ensures { result ≡ self.now.program_date_time }
    {
        let (tables, row) = (self.tables, self.row);
        segment_extra_at(tables.extras.as_slice(), row.extra).program_date_time
    }
}
