//! The lines before and after the segments.
ghost use Rattle.std.specs.Prelude.{◌≡◌};
ghost use Rattle.playlist_model.specs.Said as Said;
ghost use Rattle.playlist_write.specs.Spelling.{written_playlist_type};
ghost use Rattle.playlist_write.specs.Owed.{line_saying, ended_date_range_line, said_text, type_owed, independent_owed, ended_owed, first_written_media_sequence, written_discontinuity_sequence, numbers_owed, header_owed, date_ranges_text};
ghost use Rattle.fixed_duration.specs.Appended.{Appends};

use crate::OutPlaylist;
use crate::lines::{write_line, write_number_line, write_tag_line};
use playlist_model::PlaylistKind;
use std::alloc::AllocError;
use stitcher::{StitchedList, TextRef};

fn first_written_media_sequence(segments: &StitchedList<'_>) -> u64
    ensures { result ≡ first_written_media_sequence segments.now }
{
    match segments.items().next() {
        Some(first) => first.media_sequence,
        None => 0,
    }
}

// What EXT-X-DISCONTINUITY-SEQUENCE states: the number before the discontinuities of the first segment (RFC 8216,
// section 4.3.3.3).
fn written_discontinuity_sequence(segments: &StitchedList<'_>) -> u64
    ensures { result ≡ written_discontinuity_sequence segments.now }
{
    match segments.items().next() {
        Some(first) => first
            .discontinuity_sequence
            .saturating_sub(first.discontinuities),
        None => 0,
    }
}

fn written_playlist_type(kind: PlaylistKind) -> &'static str
    ensures { result.now ≡ written_playlist_type kind }
{
    match kind {
        PlaylistKind::Event => "EVENT",
        PlaylistKind::Vod => "VOD",
    }
}

fn write_playlist_type_line(out: &mut String, kind: PlaylistKind) -> Result<(), AllocError>
    ensures { Appends result out.old out.new (line_saying (Said.playlist_type kind)) }
{
    write_tag_line(out, "#EXT-X-PLAYLIST-TYPE:", written_playlist_type(kind))
}

fn write_optional_playlist_type_line(
    out: &mut String,
    kind: Option<PlaylistKind>,
) -> Result<(), AllocError>
    ensures { Appends result out.old out.new (said_text (type_owed kind)) }
{
    if let Some(kind) = kind {
        write_playlist_type_line(out, kind)?;
    }
    Ok(())
}

#[tactic(auto, unfolding(crate::specs::Owed::line_saying))]
fn write_version_line(out: &mut String, version: u64) -> Result<(), AllocError>
    ensures { Appends result out.old out.new (line_saying (Said.version version)) }
{
    write_number_line(out, "#EXT-X-VERSION:", version)
}

#[tactic(auto, unfolding(crate::specs::Owed::line_saying))]
fn write_target_duration_line(out: &mut String, target: u64) -> Result<(), AllocError>
    ensures { Appends result out.old out.new (line_saying (Said.target target)) }
{
    write_number_line(out, "#EXT-X-TARGETDURATION:", target)
}

#[tactic(auto, unfolding(crate::specs::Owed::line_saying))]
fn write_media_sequence_line(out: &mut String, sequence: u64) -> Result<(), AllocError>
    ensures { Appends result out.old out.new (line_saying (Said.sequence sequence)) }
{
    write_number_line(out, "#EXT-X-MEDIA-SEQUENCE:", sequence)
}

#[tactic(auto, unfolding(crate::specs::Owed::line_saying))]
fn write_discontinuity_sequence_line(out: &mut String, sequence: u64) -> Result<(), AllocError>
    ensures { Appends result out.old out.new (line_saying (Said.discontinuity_sequence sequence)) }
{
    write_number_line(out, "#EXT-X-DISCONTINUITY-SEQUENCE:", sequence)
}

fn write_sequence_lines(out: &mut String, playlist: &OutPlaylist<'_>) -> Result<(), AllocError>
    ensures { Appends result out.old out.new (said_text (numbers_owed playlist.now)) }
{
    write_version_line(out, playlist.version)?;
    write_target_duration_line(out, playlist.target_duration)?;
    write_media_sequence_line(out, first_written_media_sequence(&playlist.segments))?;
    write_discontinuity_sequence_line(out, written_discontinuity_sequence(&playlist.segments))
}

// Appends EXT-X-INDEPENDENT-SEGMENTS, if the origin states it (RFC 8216, section 4.3.5.1).
#[tactic(auto, unfolding(crate::specs::Owed::line_saying))]
fn write_independent_segments_line(out: &mut String, independent: bool) -> Result<(), AllocError>
    ensures { Appends result out.old out.new (said_text (independent_owed independent)) }
{
    if independent {
        write_line(out, "#EXT-X-INDEPENDENT-SEGMENTS")?;
    }
    Ok(())
}

/// Appends to `out` the lines before the date ranges of `playlist` (RFC 8216, section 4.3.3). Fails only if an allocation
/// fails.
pub fn write_header_lines(out: &mut String, playlist: &OutPlaylist<'_>) -> Result<(), AllocError>
    ensures { Appends result out.old out.new (said_text (header_owed playlist.now)) }
{
    write_sequence_lines(out, playlist)?;
    write_optional_playlist_type_line(out, playlist.playlist_type)?;
    write_independent_segments_line(out, playlist.independent_segments)
}

#[tactic(auto, unfolding(crate::specs::Owed::ended_date_range_line))]
/// Appends to `out` the line of a date range, whose attributes are `text`, word for word (RFC 8216, section 4.3.2.7).
/// Fails only if an allocation fails.
pub fn write_date_range_line(out: &mut String, text: &str) -> Result<(), AllocError>
    ensures { Appends result out.old out.new (ended_date_range_line text.now) }
{
    write_tag_line(out, "#EXT-X-DATERANGE:", text)
}

/// Appends to `out` the lines of `date_ranges`, word for word. Fails only if an allocation fails.
pub fn write_date_range_lines(
    out: &mut String,
    date_ranges: &[TextRef<'_>],
) -> Result<(), AllocError>
    ensures { Appends result out.old out.new (date_ranges_text date_ranges.now) }
{
    for date_range in date_ranges {
        write_date_range_line(out, date_range.as_str())?;
    }
    Ok(())
}

#[tactic(auto, unfolding(crate::specs::Owed::line_saying))]
/// Appends EXT-X-ENDLIST to `out` if `ended` (RFC 8216, section 4.3.3.4). Fails only if an allocation fails.
pub fn write_end_line(out: &mut String, ended: bool) -> Result<(), AllocError>
    ensures { Appends result out.old out.new (said_text (ended_owed ended)) }
{
    if ended {
        write_line(out, "#EXT-X-ENDLIST")?;
    }
    Ok(())
}
