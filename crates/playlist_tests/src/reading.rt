//! Lines with their places, of which the program shows nothing. What is read, and what is refused, is tried on the built
//! program (`tests/run_playlists`).
use playlist_parse::{LineKind, Lines, kind_of};

const LINES: &str = "#EXTM3U\r\n \n#comment\n#EXT-X-KEY:METHOD=NONE:x\n s.ts\n#EXTINF";

// What a line is: the text of a URI, the name and the rest of a tag.
fn said(line: &str) -> (&str, &str, &str) {
    match kind_of(line) {
        LineKind::Ignored => ("ignored", "", ""),
        LineKind::Uri(uri) => ("URI", uri, ""),
        LineKind::Tag { name, rest, .. } => ("tag", name, rest),
    }
}

// Whether this is the next line, at its place.
fn is_next(lines: &mut Lines<'_>, owed: (&str, &str, &str)) -> bool {
    let Some(line) = lines.next() else {
        return false;
    };
    let slice = LINES.as_bytes().get(line.span.start..line.span.end);
    slice == Some(line.text.as_bytes()) && said(line.text) == owed
}

// What each of the lines is.
static KINDS: [(&str, &str, &str); 6] = [
    ("tag", "EXTM3U", ""),
    ("ignored", "", ""),
    ("ignored", "", ""),
    ("tag", "EXT-X-KEY", "METHOD=NONE:x"),
    ("URI", " s.ts", ""),
    ("tag", "EXTINF", ""),
];

#[test]
fn kinds_of_lines(rt: HostRuntime) {
    let mut lines = Lines::new(LINES);
    for owed in KINDS.iter() {
        assert!(rt; is_next(&mut lines, *owed));
    }
    assert!(rt; lines.next().is_none());
}
