//! An attribute and its place in the text.
/// Where an attribute stands in the text, from its name to the end of its value with its quotes,
/// in bytes.
#[derive(Clone, Copy, PartialEq, Eq, Debug)]
pub struct Span {
    /// The place of the first byte, from 0.
    pub start: usize,
    /// The place after the last byte.
    pub end: usize,
}

/// An attribute `NAME=VALUE` (RFC 8216, section 4.2), as slices of the text of its list.
#[derive(Clone, Copy, PartialEq, Eq, Debug)]
pub struct Attr<'a> {
    /// Its name: capital letters, digits and `-`.
    pub name: &'a str,
    /// The value, without its quotes.
    pub value: &'a str,
    /// Whether the value stands between quotes.
    pub quoted: bool,
    /// Where it stands in the text of its list.
    pub span: Span,
}
