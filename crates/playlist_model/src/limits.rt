//! The limits of the reader, which RFC 8216 leaves open.

/// How many bytes a playlist may have.
pub const MAX_BYTES: usize = 4_194_304;

/// How many segments a playlist may have.
pub const MAX_SEGMENTS: u64 = 10_000;

/// How many formats of keys may be in force (RFC 8216, section 4.3.2.4).
pub const MAX_FORMATS: usize = 16;
