//! Which texts and durations can be written (RFC 8216, sections 4.2 and 4.3.2.1).
ghost use Rattle.std.specs.Prelude.{◌≡◌, ◌==◌, true, false};
ghost use Rattle.std.specs.List.{list_any, list_all};
ghost use Rattle.attr_list.specs.Attributes.{is_name, is_attribute_name_byte, ends_plain, is_value};
ghost use Rattle.writable.specs.Fitting.{is_clean, value_fits, uri_fits, quoted_uri_fits, duration_fits};

use fixed_duration::Nanos;
use playlist_model::{has_control, has_quote, has_scheme};

/// Whether `text` holds no control character (RFC 8216, section 4.1).
pub fn is_clean(text: &str) -> bool
    ensures { result ≡ is_clean text.now }
{
    !has_control(text)
}

fn are_writable_name_bytes(text: &str) -> bool
    ensures { result ≡ list_all is_attribute_name_byte text.now }
{
    text.as_bytes().iter().all(|b| b.is_ascii_uppercase() || b.is_ascii_digit() || *b == b'-')
}

/// Whether `text` can be an attribute's name (RFC 8216, section 4.2): one or more of A to Z, 0 to 9 and `-`.
pub fn is_name(text: &str) -> bool
    ensures { result ≡ is_name text.now }
{
    !text.is_empty() && are_writable_name_bytes(text)
}

// Whether a text holds what can't stand in a value without quotes.
fn ends_writable_plain_value(text: &str) -> bool
    ensures { result ≡ list_any ends_plain text.now }
{
    text.as_bytes()
        .iter()
        .any(|b| *b == b',' || *b == b'"' || *b == b' ')
}

// Whether a text can stand between quotes.
fn is_writable_between_quotes(text: &str) -> bool
    ensures { result ≡ is_value true text.now }
{
    !has_quote(text)
}

// Whether a text can stand without quotes.
fn is_writable_without_quotes(text: &str) -> bool
    ensures { result ≡ is_value false text.now }
{
    !text.is_empty() && !ends_writable_plain_value(text)
}

/// Whether `value` can be the value of an attribute (RFC 8216, section 4.2), in quotes if `quoted`, else without. It
/// holds no control character; in quotes no quote either, and without them no comma, quote or space, and something.
///
/// ```text
/// value_fits("a,b", true)     true
/// value_fits("a,b", false)    false
/// ```
pub fn value_fits(value: &str, quoted: bool) -> bool
    ensures { result ≡ value_fits quoted value.now }
{
    let is_value = if quoted {
        is_writable_between_quotes(value)
    } else {
        is_writable_without_quotes(value)
    };
    is_clean(value) && is_value
}

/// Whether `uri` can be on a line of its own: it has a scheme, and no control character (RFC 8216, section 4.1).
pub fn uri_fits(uri: &str) -> bool
    ensures { result ≡ uri_fits uri.now }
{
    is_clean(uri) && has_scheme(uri)
}

/// Whether `uri` can be the value of an attribute in quotes, with a scheme (RFC 8216, section 4.2).
pub fn quoted_uri_fits(uri: &str) -> bool
    ensures { result ≡ quoted_uri_fits uri.now }
{
    value_fits(uri, true) && has_scheme(uri)
}

/// Whether `duration` can be written as EXTINF has it (RFC 8216, section 4.3.2.1): it is below 1,000,000 s.
pub fn duration_fits(duration: Nanos) -> bool
    ensures { result ≡ duration_fits duration }
{
    duration.0 < 1_000_000_000_000_000
}
