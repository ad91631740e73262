//! The front of a text, cut into a name and a value. Nothing here takes memory.
ghost use Rattle.std.specs.Prelude.{◌≡◌, ◌∷◌, not, false, Some, MatchResult};
ghost use Rattle.std.specs.List.{position_or_len};
ghost use Rattle.attr_list.specs.Attributes.{is_attribute_name_byte, ends_plain};
ghost use Rattle.attr_list.specs.Scanning.{first_piece};
ghost use Rattle.attr_list.specs.Inner.Scanning.{ends_attribute_pair, begins_quoted, name_fault, StartsWithName, IsValued, HasValueFault};

use crate::AttrFault;

/// A value at the front of a text, without its quotes, and the text after it.
#[derive(Clone, Copy)]
pub(crate) struct ValueText<'a> {
    pub value: &'a str,
    pub quoted: bool,
    pub after: &'a str,
}

/// The name at the front of `text`, and what comes after its `=`. `BadName` if no name of A to Z, 0 to 9 and `-` is
/// there, or another character ends it; `NoEquals` if a comma or the end does.
pub(crate) fn split_attribute_name(text: &str) -> Result<(&str, &str), AttrFault>
    ensures { MatchResult result
        (λ parts. StartsWithName text.now parts.0.now parts.1.now)
        (λ e. name_fault (first_piece text.now) ≡ Some e) }
{
    let (name, after) = text.split_at(attribute_name_length(text));
    if name.is_empty() {
        return Err(AttrFault::BadName);
    }
    match after.strip_prefix('=') {
        Some(value) => Ok((name, value)),
        None if ends_attribute_pair(after) => Err(AttrFault::NoEquals),
        None => Err(AttrFault::BadName),
    }
}

/// The value at the front of `text`, which ends at a comma or with `text`, and what comes after it. `OpenQuote` if a
/// quoted value has no second quote; `BadValue` if the value may not be so (RFC 8216, section 4.2).
pub(crate) fn split_attribute_value(text: &str) -> Result<ValueText<'_>, AttrFault>
    ensures { MatchResult result
        (λ v. IsValued text.now v.quoted v.value.now v.after.now)
        (λ e. HasValueFault text.now e) }
{
    match text.strip_prefix('"') {
        Some(inside) => split_quoted_attribute_value(inside),
        None => split_plain_attribute_value(text),
    }
}

// The value whose opening quote comes before `text`: all up to the next quote (RFC 8216, section 4.2).
fn split_quoted_attribute_value(text: &str) -> Result<ValueText<'_>, AttrFault>
    ensures { MatchResult result
        (λ v. IsValued (34 ∷ text.now) v.quoted v.value.now v.after.now)
        (λ e. HasValueFault (34 ∷ text.now) e) }
{
    match text.split_once('"') {
        None => Err(AttrFault::OpenQuote),
        Some((value, after)) if ends_attribute_pair(after) => Ok(ValueText {
            value,
            quoted: true,
            after,
        }),
        Some(_) => Err(AttrFault::BadValue),
    }
}

// The unquoted value at the front of `text`: something, without a comma, a quote or a space (RFC 8216, section 4.2).
fn split_plain_attribute_value(text: &str) -> Result<ValueText<'_>, AttrFault>
    requires { begins_quoted text.now ≡ false }
    ensures { MatchResult result
        (λ v. IsValued text.now v.quoted v.value.now v.after.now)
        (λ e. HasValueFault text.now e) }
{
    let (value, after) = text.split_at(plain_attribute_value_length(text));
    if value.is_empty() || !ends_attribute_pair(after) {
        return Err(AttrFault::BadValue);
    }
    Ok(ValueText {
        value,
        quoted: false,
        after,
    })
}

// Whether a pair may end before this text.
fn ends_attribute_pair(text: &str) -> bool
    ensures { result ≡ ends_attribute_pair text.now }
{
    matches!(text.as_bytes(), [] | [b',', ..])
}

// The length of what stands before the first comma, quote or space.
fn plain_attribute_value_length(text: &str) -> usize
    ensures { result ≡ position_or_len ends_plain text.now }
{
    let bytes = text.as_bytes();
    bytes
        .iter()
        .position(|b| matches!(b, b',' | b'"' | b' '))
        .unwrap_or(bytes.len())
}

// The length of the name bytes at the front.
fn attribute_name_length(text: &str) -> usize
    ensures { result ≡ position_or_len (λ b. not (is_attribute_name_byte b)) text.now }
{
    let bytes = text.as_bytes();
    bytes
        .iter()
        .position(|b| !is_attribute_name_byte(*b))
        .unwrap_or(bytes.len())
}

fn is_attribute_name_byte(byte: u8) -> bool
    ensures { result ≡ is_attribute_name_byte byte }
{
    byte.is_ascii_uppercase() || byte.is_ascii_digit() || byte == b'-'
}
