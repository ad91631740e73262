//! Playlists that are well formed or not, and sinks that take few bytes or fail. Each kind of line that is written is tried on
//! the built program (`tests/run_playlists`).
use crate::beginnings::{FRONT, parts};
use crate::made::{key, listed, unmarked};
use byte_streams::TestSink;
use fixed_duration::Nanos;
use playlist_model::{
    ByteRange, GrowingSegments, InitSection, Items, KeyPlaces, Keys, PlaylistKind, Segments,
    Shared, Text,
};
use playlist_write::resumed::laid_out;
use playlist_write::{OutPlaylist, WriteFault, write};
use std::alloc::{AllocError, Global};
use std::hash::RandomState;
use stitcher::{StitchedList, TextRef};

const ROOM: usize = 4096;

const LONG_ROOM: usize = 262_144;

const DATE_RANGE: &str = "ID=\"b1\",START-DATE=\"2024-05-01T12:00:10Z\",DURATION=10";

// The lines as RFC 8216 has them, written by hand.
const WRITTEN: &str = "#EXTM3U
#EXT-X-VERSION:7
#EXT-X-TARGETDURATION:10
#EXT-X-MEDIA-SEQUENCE:7
#EXT-X-DISCONTINUITY-SEQUENCE:2
#EXT-X-PLAYLIST-TYPE:EVENT
#EXT-X-INDEPENDENT-SEGMENTS
#EXT-X-DATERANGE:ID=\"b1\",START-DATE=\"2024-05-01T12:00:10Z\",DURATION=10
#EXT-X-DISCONTINUITY
#EXT-X-KEY:METHOD=AES-128,URI=\"http://origin.example/ch/ka\",IV=0x0000000000000000000000000000000A
#EXT-X-MAP:URI=\"http://origin.example/ch/init.mp4\"
#EXT-X-KEY:METHOD=AES-128,URI=\"http://origin.example/ch/kb\",IV=0x00000000000000000000000000000002
#EXT-X-PROGRAM-DATE-TIME:2024-05-01T12:00:00.000Z
#EXTINF:9.5,one
#EXT-X-BYTERANGE:30@120
http://origin.example/s.ts
#EXT-X-ENDLIST
";

fn keys(alloc: Global, uri: &str, iv: u128) -> Result<Keys, AllocError> {
    let key = key(alloc, "identity", uri, Some(iv))?;
    Keys::from_vec(alloc, vec![in alloc; key]?)
}

fn init_section(alloc: Global) -> Result<Shared<InitSection>, AllocError> {
    let init_section = InitSection {
        uri: Shared::copy_of(alloc, "http://origin.example/ch/init.mp4")?,
        byte_range: None,
        keys: keys(alloc, "http://origin.example/ch/ka", 10)?,
    };
    Ok(Shared::new(alloc, init_section)?)
}

// So many segments, each a part of a file, encrypted, with a section under another key.
fn segments(alloc: Global, count: usize) -> Result<Shared<Segments>, AllocError> {
    let mut parts = parts(Nanos(9_500_000_000), "one");
    parts.byte_range = Some(ByteRange {
        length: 30,
        offset: 120,
    });
    let mut segments = GrowingSegments::new(alloc);
    segments.set_keys(
        keys(alloc, "http://origin.example/ch/kb", 2)?,
        KeyPlaces::none(),
    );
    segments.set_init_section(Some(init_section(alloc)?), KeyPlaces::none());
    segments.set_uri_front(FRONT)?;
    for _ in 0..count {
        segments.push(&parts)?;
    }
    Shared::new(alloc, segments.into_segments())
}

fn playlist<'a>(
    alloc: Global,
    segments: StitchedList<'a>,
    date_range: &'a Text,
    version: u64,
) -> Result<OutPlaylist<'a>, AllocError> {
    let date_ranges = Items::from_vec(vec![in alloc; TextRef::new(date_range)]?);
    Ok(OutPlaylist {
        version,
        target_duration: 10,
        playlist_type: Some(PlaylistKind::Event),
        independent_segments: true,
        end_list: true,
        date_ranges,
        segments,
    })
}

// Whether a sink that takes at most so many bytes a call has the whole text.
fn takes_all(alloc: Global, playlist: &OutPlaylist<'_>, most: usize) -> Result<bool, WriteFault> {
    let mut sink = TestSink::new(alloc, ROOM, most.max(1), 0)?;
    write(alloc, playlist, &mut sink)?;
    Ok(sink.bytes() == WRITTEN.as_bytes())
}

// Whether a sink that takes a byte a call, and fails after so many, has the front of the text.
fn stops_after(
    alloc: Global,
    playlist: &OutPlaylist<'_>,
    count: usize,
) -> Result<bool, AllocError> {
    let fail = (count as u64).saturating_add(1);
    let mut sink = TestSink::new(alloc, ROOM, 1, fail)?;
    let is_blamed = matches!(write(alloc, playlist, &mut sink), Err(WriteFault::Io));
    let taken = sink.bytes();
    Ok(is_blamed && taken.len() == count && WRITTEN.as_bytes().starts_with(taken))
}

fn stops_after_each(alloc: Global, playlist: &OutPlaylist<'_>) -> Result<bool, AllocError> {
    for count in 0..WRITTEN.len() {
        if !stops_after(alloc, playlist, count)? {
            return Ok(false);
        }
    }
    Ok(true)
}

// How many bytes a sink that takes all that is offered has up to the call that fails, if they are the text's front.
fn taken_before(
    alloc: Global,
    playlist: &OutPlaylist<'_>,
    text: &[u8],
    fail: u64,
) -> Result<usize, AllocError> {
    let mut sink = TestSink::new(alloc, LONG_ROOM, LONG_ROOM, fail)?;
    let _ = write(alloc, playlist, &mut sink);
    let taken = sink.bytes();
    Ok(if text.starts_with(taken) {
        taken.len()
    } else {
        0
    })
}

// Whether what was taken between is 64 KiB, and less than a few lines more.
fn is_piece(before: usize, after: usize) -> bool {
    (65_536..66_560).contains(&after.saturating_sub(before))
}

// Whether a text is taken in two pieces and a rest.
fn is_taken_in_pieces(
    alloc: Global,
    playlist: &OutPlaylist<'_>,
    text: &[u8],
) -> Result<bool, AllocError> {
    let one = taken_before(alloc, playlist, text, 2)?;
    let two = taken_before(alloc, playlist, text, 3)?;
    let three = taken_before(alloc, playlist, text, 4)?;
    Ok(is_piece(0, one) && is_piece(one, two) && three == text.len())
}

fn is_in_pieces(alloc: Global, playlist: &OutPlaylist<'_>) -> Result<bool, AllocError> {
    let written = laid_out(alloc, playlist)?;
    is_taken_in_pieces(alloc, playlist, written.text.as_str().as_bytes())
}

// What is asked of a playlist.
#[derive(Clone, Copy)]
enum Asked {
    WellFormed,
    TakenAtMost(usize),
    StoppedAfterEachByte,
    InPieces,
}

fn answer(alloc: Global, playlist: &OutPlaylist<'_>, asked: Asked) -> Result<bool, WriteFault> {
    match asked {
        Asked::WellFormed => Ok(playlist.well_formed(alloc)?),
        Asked::TakenAtMost(most) => takes_all(alloc, playlist, most),
        Asked::StoppedAfterEachByte => Ok(stops_after_each(alloc, playlist)?),
        Asked::InPieces => Ok(is_in_pieces(alloc, playlist)?),
    }
}

// What the playlist of this version and date range and so many segments answers.
fn answer_with(
    alloc: Global,
    hashing: RandomState,
    date_range: &str,
    version: u64,
    count: usize,
    asked: Asked,
) -> Result<bool, WriteFault> {
    let segments = segments(alloc, count)?;
    let marked = unmarked(alloc, &segments)?;
    let date_range = Text::copy_of(alloc, date_range)?;
    let listed = listed(alloc, hashing, marked.as_slice())?;
    let playlist = playlist(alloc, listed, &date_range, version)?;
    answer(alloc, &playlist, asked)
}

// The date range and the version of a playlist of so many segments, what is asked of it, and what it answers. The text of
// 1,200 segments is longer than two pieces, and shorter than three.
static ASKED: [(&str, u64, usize, Asked, bool); 8] = [
    (DATE_RANGE, 7, 1, Asked::WellFormed, true),
    (DATE_RANGE, 5, 1, Asked::WellFormed, false),
    ("START-DATE=x", 6, 1, Asked::WellFormed, false),
    (DATE_RANGE, 7, 1, Asked::TakenAtMost(7), true),
    (DATE_RANGE, 7, 1, Asked::TakenAtMost(1), true),
    (DATE_RANGE, 7, 1, Asked::TakenAtMost(ROOM), true),
    (DATE_RANGE, 7, 1, Asked::StoppedAfterEachByte, true),
    (DATE_RANGE, 7, 1_200, Asked::InPieces, true),
];

#[test]
fn playlists(rt: HostRuntime) {
    let hashing = RandomState::new(&rt).expect(&rt, "random bytes");
    for (date_range, version, count, asked, owed) in ASKED.iter() {
        let found = answer_with(rt.alloc(), hashing, date_range, *version, *count, *asked);
        assert!(rt; found == Ok(*owed), "{date_range} {version} {count}");
    }
}
