//! References that a base only puts a text before: plain paths, relative or from the root, up to a plain query.

ghost use Rattle.std.specs.Prelude.{◌≡◌, ◌==◌, true, false, slice_index, drop};
ghost use Rattle.std.specs.List.{prefix_len, list_all};
ghost use Rattle.uri_resolver.specs.Plain.{is_path_segment_byte, is_reference_path_byte, is_reference_query_byte, is_plain_reference_path, reference_begins_with_slash, is_relative_reference, is_rooted_reference};

// Each byte that a plain segment holds stands at its own place, and a slash at every other place.
static SEGMENT_BYTES: [u8; 256] = *b"\
    ////////////////////////////////\
    /!//$/&'()*+,-./0123456789/;/=//\
    @ABCDEFGHIJKLMNOPQRSTUVWXYZ////_\
    /abcdefghijklmnopqrstuvwxyz///~/\
    ////////////////////////////////\
    ////////////////////////////////\
    ////////////////////////////////\
    ////////////////////////////////";

fn is_path_segment_byte(b: u8) -> bool
    ensures { result ≡ is_path_segment_byte b }
{
    SEGMENT_BYTES[b as usize] != b'/'
}

// How many of four bytes a plain segment holds, up to the first that it doesn't.
#[inline(always)]
fn path_segment_bytes_of_four(four: &[u8; 4]) -> usize
    ensures { result ≡ prefix_len is_path_segment_byte four.now }
{
    if !is_path_segment_byte(four[0]) {
        return 0;
    }
    if !is_path_segment_byte(four[1]) {
        return 1;
    }
    if !is_path_segment_byte(four[2]) {
        return 2;
    }
    if !is_path_segment_byte(four[3]) {
        return 3;
    }
    4
}

fn is_reference_path_byte(b: u8) -> bool
    ensures { result ≡ is_reference_path_byte b }
{
    is_path_segment_byte(b) || b == b'/'
}

fn is_reference_query_byte(b: u8) -> bool
    ensures { result ≡ is_reference_query_byte b }
{
    (is_reference_path_byte(b) && b != b'\'') || b == b'%' || b == b':' || b == b'?'
}

fn is_reference_query(bytes: &[u8]) -> bool
    ensures { result ≡ list_all is_reference_query_byte bytes.now }
{
    bytes.iter().all(|b| is_reference_query_byte(*b))
}

fn reference_begins_with_dot(bytes: &[u8]) -> bool
    ensures { result ≡ (slice_index bytes.now 0 == 46) }
{
    match bytes.first() {
        Some(first) => *first == b'.',
        None => false,
    }
}

/// What is left of `bytes` after those at its front that a plain segment of a path holds (RFC 3986, section 3.3). They
/// are taken four at a time, since there are many.
#[inline(never)]
pub fn after_path_segment(bytes: &[u8]) -> &[u8]
    ensures { result.now ≡ drop (prefix_len is_path_segment_byte bytes.now) bytes.now }
{
    let mut rest = bytes;
    while let Some((four, later)) = rest.split_first_chunk::<4>() {
        let taken = path_segment_bytes_of_four(four);
        if taken < 4 {
            return &rest[taken..];
        }
        rest = later;
    }
    while let Some((byte, later)) = rest.split_first() {
        if !is_path_segment_byte(*byte) {
            break;
        }
        rest = later;
    }
    rest
}

// Whether this goes on a plain path within a segment, up to a query.
fn reference_goes_on_plain(bytes: &[u8]) -> bool
    ensures { result ≡ is_plain_reference_path false bytes.now }
{
    let mut rest = bytes;
    while let Some((byte, later)) = after_path_segment(rest).split_first() {
        if *byte == b'?' {
            return is_reference_query(later);
        }
        if *byte != b'/' || reference_begins_with_dot(later) {
            return false;
        }
        rest = later;
    }
    true
}

#[tactic(auto, using(crate::proofs::SegmentBytes::front_has_no_dot))]
// Whether this is a plain path, up to a query.
fn is_plain_reference_path(bytes: &[u8]) -> bool
    ensures { result ≡ is_plain_reference_path true bytes.now }
{
    !reference_begins_with_dot(bytes) && reference_goes_on_plain(bytes)
}

fn reference_begins_with_slash(bytes: &[u8]) -> bool
    ensures { result ≡ reference_begins_with_slash bytes.now }
{
    match bytes.first() {
        Some(first) => *first == b'/',
        None => false,
    }
}

/// Whether `reference` is a plain path from the directory of the base on: then its join to the base is that directory
/// with `reference` after it (RFC 3986, section 5).
pub fn is_relative_reference(reference: &str) -> bool
    ensures { result ≡ is_relative_reference reference.now }
{
    let bytes = reference.as_bytes();
    match bytes.first() {
        Some(first) => *first != b'/' && *first != b'?' && is_plain_reference_path(bytes),
        None => false,
    }
}

/// Whether `segment`, a reference that is one plain segment of a path, is a plain path from the directory of the base on:
/// as `is_relative_reference`, without a look at each byte.
pub fn is_relative_path_segment(segment: &str) -> bool
    requires { list_all is_path_segment_byte segment.now ≡ true }
    ensures { result ≡ is_relative_reference segment.now }
{
    match segment.as_bytes().split_first() {
        Some((first, _)) => *first != b'.',
        None => false,
    }
}

/// Whether `reference` is a plain path from the root on: then its join to the base is the base's origin with
/// `reference` after it (RFC 3986, section 5).
pub fn is_rooted_reference(reference: &str) -> bool
    ensures { result ≡ is_rooted_reference reference.now }
{
    match reference.as_bytes().split_first() {
        Some((first, rest)) => *first == b'/'
            && !reference_begins_with_slash(rest)
            && is_plain_reference_path(rest),
        None => false,
    }
}
