//! Which playlists can be written so that the text says them.
ghost use Rattle.std.specs.Prelude.{◌≡◌, ◌==◌, ◌+◌, IfOk, true, false};
ghost use Rattle.std.specs.List.{list_all, list_any};
ghost use Rattle.date_times.specs.Instant.{in_range};
ghost use Rattle.writable.specs.Fitting.{if_some, init_section_fits, uri_fits};
ghost use Rattle.playlist_model.specs.Numbering.{follows, all_follow};
ghost use Rattle.playlist_write.specs.WellFormed.{well_formed, well_formed_without_date_ranges, well_formed_numbers_are_words, well_formed_resource_fits, well_formed_segment_fits, out_numbers, out_numbers_rise, written_segment_has_init_section, written_init_sections_agree, written_version_fits, is_well_formed_number};

use crate::OutPlaylist;
use crate::date_ranges::written_date_ranges_fit;
use playlist_model::{InitSection, Instant, SegmentRef, Shared, UriRef};
use std::alloc::{AllocError, Global};
use stitcher::{OutSegment, StitchedItems, StitchedList};
use writable::{
    byte_range_fits, duration_fits, effective_keys_fit, init_section_fits, is_clean, uri_fits,
};

// A number of 64 bits is one by its type.
fn is_well_formed_number(number: u64) -> bool
    ensures { result ≡ is_well_formed_number number }
{
    number <= u64::MAX
}

fn well_formed_numbers_are_words(out: &OutSegment<'_>) -> bool
    ensures { result ≡ well_formed_numbers_are_words out.now }
{
    is_well_formed_number(out.media_sequence) && is_well_formed_number(out.discontinuity_sequence)
}

fn well_formed_uri_fits(alloc: Global, uri: &UriRef<'_>) -> Result<bool, AllocError>
    ensures { IfOk result (λ b. b ≡ uri_fits uri.now) }
{
    let (front, rest) = uri.parts();
    let mut whole = String::from_str(alloc, front)?;
    whole.push_str(rest)?;
    Ok(uri_fits(whole.as_str()))
}

fn well_formed_resource_fits(alloc: Global, segment: &SegmentRef<'_>) -> Result<bool, AllocError>
    ensures { IfOk result (λ b. b ≡ well_formed_resource_fits segment.now) }
{
    let fits = well_formed_uri_fits(alloc, &segment.uri())?;
    Ok(fits && byte_range_fits(segment.byte_range()))
}

fn well_formed_init_section_fits(init_section: &Option<Shared<InitSection>>) -> bool
    ensures { result ≡ if_some init_section_fits init_section.now }
{
    match init_section {
        Some(init_section) => init_section_fits(init_section),
        None => true,
    }
}

fn well_formed_time_fits(time: Option<Instant>) -> bool
    ensures { result ≡ if_some in_range time }
{
    match time {
        Some(time) => time.is_in_range(),
        None => true,
    }
}

// Whether a segment can be written, apart from how its numbers follow.
fn well_formed_segment_fits(alloc: Global, out: &OutSegment<'_>) -> Result<bool, AllocError>
    ensures { IfOk result (λ b. b ≡ well_formed_segment_fits out.now) }
{
    let segment = &out.segment;
    let resource_fits = well_formed_resource_fits(alloc, segment)?;
    Ok(
        well_formed_numbers_are_words(out)
            && resource_fits
            && effective_keys_fit(&segment.keys())
            && well_formed_init_section_fits(segment.init_section())
            && duration_fits(segment.duration())
            && is_clean(segment.title())
            && well_formed_time_fits(out.program_date_time),
    )
}

fn well_formed_segments_fit(alloc: Global, segments: StitchedItems<'_>) -> Result<bool, AllocError>
    ensures { IfOk result (λ b. b ≡ list_all well_formed_segment_fits segments.entry) }
{
    let mut segments = segments;
    while let Some(out) = segments.next() {
        if !well_formed_segment_fits(alloc, &out)? {
            return Ok(false);
        }
    }
    Ok(true)
}

fn is_well_formed_sum(sum: u64, one: u64, other: u64) -> bool
    ensures { result ≡ (sum == one + other) }
{
    match one.checked_add(other) {
        Some(found) => sum == found,
        None => false,
    }
}

// Whether the media number goes up by one, and the discontinuity number by the steps.
fn well_formed_numbers_follow(previous: &OutSegment<'_>, next: &OutSegment<'_>) -> bool
    ensures { result ≡ follows (out_numbers previous.now) (out_numbers next.now) }
{
    is_well_formed_sum(next.media_sequence, previous.media_sequence, 1)
        && is_well_formed_sum(
            next.discontinuity_sequence,
            previous.discontinuity_sequence,
            next.discontinuities,
        )
}

fn well_formed_numbers_all_follow<'a>(first: OutSegment<'a>, later: StitchedItems<'a>) -> bool
    ensures { result ≡ all_follow out_numbers first.entry later.entry }
{
    let mut previous = first;
    let mut later = later;
    while let Some(next) = later.next() {
        if !well_formed_numbers_follow(&previous, &next) {
            return false;
        }
        previous = next;
    }
    true
}

fn well_formed_numbers_fit(segments: StitchedItems<'_>) -> bool
    ensures { result ≡ out_numbers_rise segments.entry }
{
    let mut later = segments;
    let Some(first) = later.next() else {
        return false;
    };
    first.discontinuities <= first.discontinuity_sequence
        && well_formed_numbers_all_follow(first, later)
}

fn written_segment_has_init_section(out: &OutSegment<'_>) -> bool
    ensures { result ≡ written_segment_has_init_section out.now }
{
    out.segment.init_section().is_some()
}

fn all_written_have_init_sections(segments: StitchedItems<'_>) -> bool
    ensures { result ≡ list_all written_segment_has_init_section segments.entry }
{
    let mut segments = segments;
    while let Some(out) = segments.next() {
        if !written_segment_has_init_section(&out) {
            return false;
        }
    }
    true
}

fn one_written_has_init_section(segments: StitchedItems<'_>) -> bool
    ensures { result ≡ list_any written_segment_has_init_section segments.entry }
{
    let mut segments = segments;
    while let Some(out) = segments.next() {
        if written_segment_has_init_section(&out) {
            return true;
        }
    }
    false
}

fn written_init_sections_agree(segments: &StitchedList<'_>) -> bool
    ensures { result ≡ written_init_sections_agree segments.now }
{
    all_written_have_init_sections(segments.items())
        || !one_written_has_init_section(segments.items())
}

fn written_version_fits(version: u64) -> bool
    ensures { result ≡ written_version_fits version }
{
    version == 6 || version == 7
}

// Whether a playlist can be written, apart from its date ranges.
fn well_formed_without_date_ranges(
    alloc: Global,
    playlist: &OutPlaylist<'_>,
) -> Result<bool, AllocError>
    ensures { IfOk result (λ b. b ≡ well_formed_without_date_ranges playlist.now) }
{
    let segments = &playlist.segments;
    let segments_fit = well_formed_segments_fit(alloc, segments.items())?;
    Ok(
        written_version_fits(playlist.version)
            && is_well_formed_number(playlist.target_duration)
            && well_formed_numbers_fit(segments.items())
            && segments_fit
            && written_init_sections_agree(segments),
    )
}

impl<'a> OutPlaylist<'a> {
    /// Whether the playlist can be written so that its text says it: of such a playlist `write` writes
    /// what is read as this playlist, whatever the base (RFC 8216, section 4).
    ///
    /// The version is 6 or 7. There is a segment, and media numbers go up by one, discontinuity numbers
    /// by the steps. All segments have an initialisation section, or none has. URIs have a scheme.
    /// Texts hold no control character, between quotes no quote, and without quotes no comma, space or
    /// quote. Keys are sorted by format, one for each, with no other attribute twice; a segment's
    /// `identity` key and a section's AES-128 key state their IV. Durations are below 1,000,000 s,
    /// ranges end below 2^64, times lie in the years 1900 to 2199. Date ranges are read, with at most
    /// 64 attributes. Fails only if an allocation fails, while date ranges are read or the parts of a URI
    /// are joined.
    pub fn well_formed(&self, alloc: Global) -> Result<bool, AllocError>
        ensures { IfOk result (λ b. b ≡ well_formed self.now) }
    {
        if !well_formed_without_date_ranges(alloc, self)? {
            return Ok(false);
        }
        written_date_ranges_fit(alloc, self.date_ranges.as_slice())
    }
}
