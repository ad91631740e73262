//! The lines of a playlist and their kinds (RFC 8216, section 4.1).
ghost use Rattle.std.specs.Prelude.{◌≡◌, [], ◌∷◌, ◌++◌, true, false, map, ◌+◌, ◌^◌, ◌<◌, length, IfSome, MatchOption};
ghost use Rattle.std.specs.List.{list_all, position_or_len, before_first, after_first};
ghost use Rattle.std.specs.Str.Lines.{lines, strip_carriage_return};
ghost use Rattle.attr_list.specs.Attributes.{slices_at};
ghost use Rattle.playlist_model.specs.Lines.{kind_of, is_blank, is_colon, placed_lines};
ghost use Rattle.playlist_parse.specs.LineViews.{line_kind_view, line_span, line_view, is_feed, lines_from, with_end};
ghost use Rattle.playlist_parse.specs.Inner.LineViews.{is_plain_byte, line_text};
ghost use Rattle.playlist_parse.specs.Inner.Source.{EndsInFeed};
ghost use Rattle.segment_state.specs.Repeated.{IsLineOf};
ghost use Rattle.uri_resolver.specs.Plain.{is_path_segment_byte};

use attr_list::Span;
use memchr::{memchr, memrchr};
use std::marker::Model;
use uri_resolver::after_path_segment;

/// What a line of a playlist is, as slices of it.
#[derive(Clone, Copy)]
pub enum LineKind<'a> {
    /// A blank line or a comment.
    Ignored,
    /// The reference of a media segment.
    Uri(&'a str),
    /// A tag: its name runs from after `#` to the first `:`, its rest is what follows; and whether there is a colon.
    Tag {
        name: &'a str,
        rest: &'a str,
        colon: bool,
    },
}

/// A line of a playlist: its place in the text, without the line feed that ends it and a carriage return before that, and
/// the slice of the text that stands there.
#[derive(Clone, Copy)]
pub struct Line<'a> {
    pub span: Span,
    pub text: &'a str,
    /// Whether the text was seen to be one plain segment of a path (RFC 3986, section 3.3).
    pub is_path_segment: bool,
}

/// Whether `line` has no character but spaces.
pub(crate) fn is_blank_line(line: &str) -> bool
    ensures { result ≡ is_blank line.now }
{
    line.as_bytes().iter().all(|b| *b == b' ')
}

// A text's two parts around its first colon: as `split_once`, by vectors, since names of tags are long.
#[inline(always)]
fn cut_line_at_colon(text: &str) -> Option<(&str, &str)>
    ensures { MatchOption result (position_or_len is_colon text.now ≡ length text.now)
        (λ parts. (position_or_len is_colon text.now < length text.now)
        × (parts.0.now ≡ before_first is_colon text.now)
        × (parts.1.now ≡ after_first is_colon text.now)) }
{
    match memchr(b':', text.as_bytes()) {
        None => None,
        Some(at) => Some((&text[..at], &text[at + 1..])),
    }
}

#[tactic(auto, using(crate::proofs::LineLemmas::tag_without_colon, crate::proofs::LineLemmas::tag_with_colon))]
/// What kind of line `line` is, which is without its line feed (RFC 8216, section 4.1): a tag, a URI, or one that is
/// passed over, as it is blank or a comment.
pub fn kind_of(line: &str) -> LineKind<'_>
    ensures { line_kind_view result ≡ kind_of line.now }
{
    if is_blank_line(line) {
        return LineKind::Ignored;
    }
    if !line.starts_with("#EXT") {
        return if line.starts_with("#") {
            LineKind::Ignored
        } else {
            LineKind::Uri(line)
        };
    }
    let text = &line[1..];
    match cut_line_at_colon(text) {
        Some((name, rest)) => LineKind::Tag {
            name,
            rest,
            colon: true,
        },
        None => LineKind::Tag {
            name: text,
            rest: "",
            colon: false,
        },
    }
}

// The carriage return goes only with the line feed after it.
fn line_without_carriage_return(piece: &str) -> &str
    ensures { result.now ≡ strip_carriage_return piece.now }
{
    let bytes = piece.as_bytes();
    if !bytes.is_empty() && bytes[bytes.len() - 1] == b'\r' {
        return &piece[..bytes.len() - 1];
    }
    piece
}

/// Whether `bytes` are printable ASCII characters and line feeds alone, so that no line of them has a control
/// character. It looks at all of them, many at a time.
pub fn has_plain_line_bytes(bytes: &[u8]) -> bool
    ensures { result ≡ list_all is_plain_byte bytes.now }
{
    let mut plain = true;
    for byte in bytes {
        plain &= *byte == b'\n' || (*byte >= b' ' && *byte < 127);
    }
    plain
}

// A line that begins at a place, and whether it was seen to be a segment of a path.
#[inline(always)]
fn line_starting_at(start: usize, text: &str, is_path_segment: bool) -> Line<'_>
    requires { start + length text.now < 2 ^ 64 }
    ensures line { line_view result ≡ with_end (start, text.now) }
    ensures segment { result.is_path_segment ≡ is_path_segment }
{
    let end = start + text.len();
    let span = Span { start, end };
    Line {
        span,
        text,
        is_path_segment,
    }
}

#[tactic(auto, using(crate::proofs::Places::last_line, crate::proofs::Places::no_line))]
// What stands after the last line feed, unless it is empty.
fn last_line_of_text(start: usize, rest: &str) -> Option<Line<'_>>
    requires bound { start + length rest.now < 2 ^ 64 }
    requires last { position_or_len is_feed rest.now ≡ length rest.now }
    ensures line { MatchOption result (lines_from start rest.now ≡ [])
        (λ line. lines_from start rest.now ≡ line_view line ∷ []) }
    ensures segment { IfSome result (λ line. line.is_path_segment ≡ false) }
{
    if rest.is_empty() {
        return None;
    }
    Some(line_starting_at(start, rest, false))
}

// A text's two parts around its first line feed: as `split_once`, by vectors, since the search takes most of the time.
#[inline(always)]
fn cut_at_line_feed(text: &str) -> Option<(&str, &str)>
    ensures { MatchOption result (position_or_len is_feed text.now ≡ length text.now)
        (λ parts. (position_or_len is_feed text.now < length text.now)
        × (parts.0.now ≡ before_first is_feed text.now)
        × (parts.1.now ≡ after_first is_feed text.now)) }
{
    match memchr(b'\n', text.as_bytes()) {
        None => None,
        Some(at) => Some((&text[..at], &text[at + 1..])),
    }
}

// The same, if what stands before the line feed is one plain segment of a path: most references are, and their bytes are
// looked at once then.
#[inline(always)]
fn cut_after_path_segment(text: &str) -> Option<(&str, &str)>
    ensures { MatchOption result (Unit {0})
        (λ parts. (position_or_len is_feed text.now < length text.now)
        × (parts.0.now ≡ before_first is_feed text.now)
        × (parts.1.now ≡ after_first is_feed text.now)
        × (list_all is_path_segment_byte parts.0.now ≡ true)) }
{
    let bytes = text.as_bytes();
    let at = bytes.len() - after_path_segment(bytes).len();
    if at == bytes.len() || bytes[at] != b'\n' {
        return None;
    }
    Some((&text[..at], &text[at + 1..]))
}

// Whether a text ends with a line feed.
fn ends_in_line_feed(text: &str) -> bool
    ensures { result ≡ true → EndsInFeed text.now }
{
    match text.as_bytes().split_last() {
        Some((last, _)) => *last == b'\n',
        None => false,
    }
}

// What stands after a front of a text, if it begins so.
fn text_after_lines<'a>(text: &'a str, front: &str) -> Option<&'a str>
    ensures { MatchOption result (Unit {0}) (λ later. text.now ≡ front.now ++ later.now) }
{
    match text.split_at_checked(front.len()) {
        Some((same, later)) if same == front => Some(later),
        _ => None,
    }
}

// Whether a line that stands after this line feed names a segment.
fn line_names_segment(line: &[u8]) -> bool {
    matches!(line, [_feed, first, ..] if *first != b'#' && *first != b'\n')
}

// The place after the last line that names a segment and ends with a line feed, or the end of the text. It has no contract:
// `cut_after_segment_lines` looks at the place, whatever it is.
fn end_of_segment_lines(text: &str) -> usize {
    let mut rest = text.as_bytes();
    while let Some(feed) = memrchr(b'\n', rest) {
        let Some((front, line)) = rest.split_at_checked(feed) else {
            return text.len();
        };
        if line_names_segment(line) {
            return feed.saturating_add(line.len()).saturating_add(1);
        }
        rest = front;
    }
    text.len()
}

/// The first line of `text` with its line feed, if it has one. It has no contract: `duration_line_states` looks at the line,
/// whatever it is.
pub(crate) fn first_whole_line(text: &str) -> Option<&str> {
    let feed = memchr(b'\n', text.as_bytes())?;
    text.get(..feed + 1)
}

#[tactic(auto, using(crate::proofs::Again::line_states))]
/// What `line` states, if it is one whole line of EXTINF with its line feed.
pub(crate) fn duration_line_states(line: &str) -> Option<&str>
    ensures { IfSome result (λ stated. IsLineOf line.now stated.now) }
{
    let mut lines = Lines::new(line);
    let first = lines.next()?;
    if lines.next().is_some() || !ends_in_line_feed(line) {
        return None;
    }
    first.text.strip_prefix("#EXTINF:")
}

/// A text in two parts.
#[derive(Clone, Copy)]
pub struct CutText<'a> {
    pub front: &'a str,
    pub tail: &'a str,
}

/// The lines of `text` up to the last one that names a segment, and those after it.
pub fn cut_after_segment_lines(text: &str) -> CutText<'_>
    ensures { lines text.now ≡ lines result.front.now ++ lines result.tail.now }
{
    match text.split_at_checked(end_of_segment_lines(text)) {
        Some((front, tail)) if ends_in_line_feed(front) => CutText { front, tail },
        _ => CutText {
            front: text,
            tail: "",
        },
    }
}

/// The lines of a text, one after the other, as slices of it: they take no memory.
#[derive(Drop)]
pub struct Lines<'a> {
    start: usize,
    rest: &'a str,
    // Whether each reference that was tried so far was one plain segment of a path.
    are_path_segments: bool,
    // Whether the next line is tried for that.
    tries_path_segment: bool,
}

impl<'a> Model for Lines<'a> {
    ghost use Rattle.std.specs.Prelude.{ℕ, List, ◌+◌, ◌^◌, ◌<◌, length};
    ghost use Rattle.playlist_parse.specs.LineViews.{lines_from};

    ghost Value = { List ((ℕ × ℕ) × List ℕ) };

    ghost view = { λ a. lines_from a.start a.rest.now };

    ghost invariant = { λ a. a.start + length a.rest.now < 2 ^ 64 };
}

impl<'a> Lines<'a> {
    #[tactic(auto, using(crate::proofs::Places::lines_are_slices_at, crate::proofs::Places::texts_are_lines))]
    /// The lines of `text`, a playlist's, cut at each line feed, each with its place (RFC 8216, section 4.1).
    pub fn new(text: &'a str) -> Lines<'a>
        ensures lines { result ≡ map with_end (placed_lines text.now) }

        // Each line is the slice of the text at its place.
        ensures slices { slices_at text.now (map line_span result) ≡ lines text.now }
        ensures texts { map (λ line. line.1) result ≡ lines text.now }
    {
        Lines::at(0, text)
    }

    /// The text that is left.
    #[tactic(auto, using(crate::proofs::JoinedLines::texts_from))]
    pub(crate) fn left(&self) -> &'a str
        ensures { map line_text self.now ≡ lines result.now }
    {
        self.rest
    }

    /// Where the text that is left begins, in bytes from 0, and that text.
    #[inline(always)]
    pub(crate) fn stand(&self) -> (usize, &'a str)
        ensures lines { self.now ≡ lines_from result.0 result.1.now }
        ensures bound { result.0 + length result.1.now < 2 ^ 64 }
    {
        (self.start, self.rest)
    }

    /// The lines of `left`, what is left of a text from the place `start` on, in bytes from 0.
    #[inline(always)]
    pub(crate) fn at(start: usize, left: &'a str) -> Lines<'a>
        requires { start + length left.now < 2 ^ 64 }
        ensures { result ≡ lines_from start left.now }
    {
        Lines {
            start,
            rest: left,
            are_path_segments: true,
            tries_path_segment: false,
        }
    }

    /// Goes on to `rest`, what is left of the text from the place `start` on, in bytes from 0, where a reference stands as
    /// a rule.
    #[inline(always)]
    pub(crate) fn go_to_reference(&mut self, start: usize, rest: &'a str)
        requires { start + length rest.now < 2 ^ 64 }
        ensures { self.new ≡ lines_from start rest.now }
    {
        self.start = start;
        self.rest = rest;
        self.tries_path_segment = self.are_path_segments;
    }

    // The next line, if it is tried, is seen to be one plain segment of a path and ends with a line feed. Else none is taken.
    #[inline(always)]
    fn next_path_segment(&mut self) -> Option<Line<'a>>
        ensures line { MatchOption result (self.new ≡ self.old) (λ line. self.old ≡ line_view line ∷ self.new) }
        ensures segment { IfSome result (λ line. list_all is_path_segment_byte line.text.now ≡ true) }
    {
        if !self.tries_path_segment {
            return None;
        }
        self.tries_path_segment = false;
        let (start, rest) = (self.start, self.rest);
        let Some((segment, later)) = cut_after_path_segment(rest) else {
            // (a tag says nothing of the references)
            self.are_path_segments = rest.starts_with("#");
            return None;
        };
        self.start = start + segment.len() + 1;
        self.rest = later;
        Some(line_starting_at(start, segment, true))
    }

    /// The lines after `front`, if the text that is left begins so and `front` ends with a line feed.
    pub(crate) fn after(&self, front: &str) -> Option<Lines<'a>>
        ensures { MatchOption result (Unit {0})
            (λ later. map line_text self.now ≡ lines front.now ++ map line_text later) }
    {
        if !ends_in_line_feed(front) {
            return None;
        }
        let later = text_after_lines(self.rest, front)?;
        Some(Lines::at(self.start + front.len(), later))
    }

    /// The next line, if there is one, without the LF or the CR LF that ends it (RFC 8216, section 4.1).
    #[inline(always)]
    pub fn next(&mut self) -> Option<Line<'a>>
        ensures line { MatchOption result ((self.old ≡ []) × (self.new ≡ []))
            (λ line. self.old ≡ line_view line ∷ self.new) }
        ensures segment { IfSome result
            (λ line. line.is_path_segment ≡ true → list_all is_path_segment_byte line.text.now ≡ true) }
    {
        if let Some(line) = self.next_path_segment() {
            return Some(line);
        }
        let start = self.start;
        let rest = self.rest;
        let Some((piece, left)) = cut_at_line_feed(rest) else {
            self.rest = "";
            return last_line_of_text(start, rest);
        };
        self.start = start + piece.len() + 1;
        self.rest = left;
        Some(line_starting_at(start, line_without_carriage_return(piece), false))
    }
}
