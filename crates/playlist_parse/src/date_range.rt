//! Date ranges (RFC 8216, section 4.3.2.7).
ghost use Rattle.std.specs.Prelude.{◌≡◌, IfOk, option_map};
ghost use Rattle.attr_list.specs.Attributes.{attribute};
ghost use Rattle.playlist_model.specs.Refusals.{GivesOrPlaylistFault};
ghost use Rattle.spec_words.specs.Outcomes.{optional};
ghost use Rattle.playlist_model.specs.Said.{time_of, attribute_duration_of, value_in_pair, date_range_said, date_range};
ghost use Rattle.playlist_model.specs.Reading.{limited};
ghost use Rattle.segment_state.specs.Attributes.{pairs_of};

use attr_list::AttrList;
use fixed_duration::Nanos;
use playlist_model::{DateRange, FaultKind, Instant, Shared, Text, read_instant};
use segment_state::attributes::{required_tag_value, tag_attributes_of};
use std::alloc::{AllocError, Global};

/// The date range that `rest` states, which comes after `#EXT-X-DATERANGE:` (RFC 8216, section 4.3.2.7). The faults,
/// in this order: `BadAttributes` if it is no attribute list, `MissingAttribute` without ID, `BadAttributes` if ID is
/// without quotes, `BadTime` for START-DATE and END-DATE, `BadDuration` for DURATION and PLANNED-DURATION;
/// `OutOfMemory` only if an allocation fails.
pub fn date_range_line_said(alloc: Global, rest: &str) -> Result<DateRange, FaultKind>
    ensures { GivesOrPlaylistFault date_range result (date_range_said limited rest.now) }
{
    let attributes = tag_attributes_of(alloc, rest)?;
    let id = required_tag_value(&attributes, "ID", true)?;
    let start = instant_said_by_date_range(&attributes, "START-DATE")?;
    let end = instant_said_by_date_range(&attributes, "END-DATE")?;
    let duration = duration_said_by_date_range(&attributes, "DURATION")?;
    let planned = duration_said_by_date_range(&attributes, "PLANNED-DURATION")?;
    let id = Shared::copy_of(alloc, id)?;
    let out = copy_value_of_date_range_line(alloc, &attributes, "SCTE35-OUT")?;
    let back = copy_value_of_date_range_line(alloc, &attributes, "SCTE35-IN")?;
    let text = Text::copy_of(alloc, rest)?;
    Ok(DateRange {
        id,
        start,
        end,
        duration,
        planned_duration: planned,
        scte35_out: out,
        scte35_in: back,
        attributes: text,
    })
}

fn instant_said_by_date_range(
    attributes: &AttrList<'_>,
    name: &str,
) -> Result<Option<Instant>, FaultKind>
    ensures { result ≡ optional time_of (attribute (pairs_of attributes.now) name.now) }
{
    let Some(attribute) = attributes.get(name) else {
        return Ok(None);
    };
    match read_instant(attribute.value) {
        Ok(instant) => Ok(Some(instant)),
        Err(_) => Err(FaultKind::BadTime),
    }
}

fn duration_said_by_date_range(
    attributes: &AttrList<'_>,
    name: &str,
) -> Result<Option<Nanos>, FaultKind>
    ensures { result ≡ optional attribute_duration_of (attribute (pairs_of attributes.now) name.now) }
{
    let Some(attribute) = attributes.get(name) else {
        return Ok(None);
    };
    match Nanos::read(attribute.value) {
        Ok(duration) => Ok(Some(duration)),
        Err(_) => Err(FaultKind::BadDuration),
    }
}

// The value of an attribute.
fn copy_value_of_date_range_line(
    alloc: Global,
    attributes: &AttrList<'_>,
    name: &str,
) -> Result<Option<Text>, AllocError>
    ensures { IfOk result
        (λ text. text ≡ option_map value_in_pair (attribute (pairs_of attributes.now) name.now)) }
{
    let Some(attribute) = attributes.get(name) else {
        return Ok(None);
    };
    Ok(Some(Text::copy_of(alloc, attribute.value)?))
}
