//! Which texts are date ranges (RFC 8216, section 4.3.2.7).
ghost use Rattle.std.specs.Prelude.{◌≡◌, ◌≢◌, map, IfOk, is_some, is_ok, option_map, false};
ghost use Rattle.std.specs.Option.{option_copied};
ghost use Rattle.attr_list.specs.Attrs.{attr_pair};
ghost use Rattle.fixed_duration.specs.Duration.{duration_of};
ghost use Rattle.date_times.specs.Instant.{instant_of};
ghost use Rattle.std.specs.List.{list_all};
ghost use Rattle.playlist_model.specs.Said.{date_range_said};
ghost use Rattle.playlist_model.specs.Reading.{limited};
ghost use Rattle.writable.specs.Fitting.{if_some, says_date_range, date_range_fits};
ghost use Rattle.playlist_write.specs.Inner.DateRangeParts.{is_quoted_id, written_attribute_says_time, written_attribute_says_duration, is_written_date_range};

use attr_list::{Attr, AttrFault, AttrList};
use fixed_duration::Nanos;
use playlist_model::read_instant;
use std::alloc::{AllocError, Global};
use stitcher::TextRef;
use writable::is_clean;

fn is_written_time(text: &str) -> bool
    ensures { result ≡ is_some (instant_of text.now) }
{
    read_instant(text).is_ok()
}

fn is_written_duration(text: &str) -> bool
    ensures { result ≡ is_ok (duration_of text.now) }
{
    Nanos::read(text).is_ok()
}

fn is_written_id(attr: Option<&Attr<'_>>) -> bool
    ensures { result ≡ is_quoted_id (option_map attr_pair (option_copied attr.entry)) }
{
    match attr {
        Some(attr) => attr.quoted,
        None => false,
    }
}

fn written_attribute_says_time(attr: Option<&Attr<'_>>) -> bool
    ensures { result ≡ if_some written_attribute_says_time (option_map attr_pair (option_copied attr.entry)) }
{
    match attr {
        Some(attr) => is_written_time(attr.value),
        None => true,
    }
}

fn written_attribute_says_duration(attr: Option<&Attr<'_>>) -> bool
    ensures { result ≡ if_some written_attribute_says_duration (option_map attr_pair (option_copied attr.entry)) }
{
    match attr {
        Some(attr) => is_written_duration(attr.value),
        None => true,
    }
}

// Whether attributes say a date range: they have an ID in quotes, and what times and durations they
// state are such.
fn is_written_date_range(list: &AttrList<'_>) -> bool
    ensures { result ≡ is_written_date_range (map attr_pair list.now) }
{
    is_written_id(list.get("ID"))
        && written_attribute_says_time(list.get("START-DATE"))
        && written_attribute_says_time(list.get("END-DATE"))
        && written_attribute_says_duration(list.get("DURATION"))
        && written_attribute_says_duration(list.get("PLANNED-DURATION"))
}

// A text that is no attribute list is no date range; of refused memory nothing is said.
fn is_no_written_attribute_list(fault: AttrFault) -> Result<bool, AllocError>
    ensures { IfOk result (λ b. (b ≡ false) × (fault ≢ AttrFault.OutOfMemory)) }
{
    if fault == AttrFault::OutOfMemory {
        return Err(AllocError);
    }
    Ok(false)
}

// Whether a text is an attribute list of at most 64 attributes that says a date range.
fn written_text_reads_as_date_range(alloc: Global, text: &str) -> Result<bool, AllocError>
    ensures { IfOk result (λ b. b ≡ says_date_range (date_range_said limited text.now)) }
{
    match AttrList::read(alloc, text) {
        Ok(list) => Ok(is_written_date_range(&list)),
        Err(fault) => is_no_written_attribute_list(fault),
    }
}

/// Whether `text` can be written as the attributes of an EXT-X-DATERANGE (RFC 8216, section 4.3.2.7): it is read as
/// one, and holds no control character. Fails only if an allocation fails.
pub fn written_date_range_fits(alloc: Global, text: &str) -> Result<bool, AllocError>
    ensures { IfOk result (λ b. b ≡ date_range_fits text.now) }
{
    if !is_clean(text) {
        return Ok(false);
    }
    written_text_reads_as_date_range(alloc, text)
}

/// Whether each of `texts` can be written, as `written_date_range_fits` says. Fails only if an allocation fails.
pub fn written_date_ranges_fit(alloc: Global, texts: &[TextRef<'_>]) -> Result<bool, AllocError>
    ensures { IfOk result (λ b. b ≡ list_all date_range_fits texts.now) }
{
    for text in texts {
        if !written_date_range_fits(alloc, text.as_str())? {
            return Ok(false);
        }
    }
    Ok(true)
}
