//! How much room the text of a playlist is given before it is made.
ghost use Rattle.std.specs.Prelude.{◌≤◌, map, sum};
ghost use Rattle.playlist_write.specs.Inner.Room.{most_room, date_range_room, text_room};

use crate::OutPlaylist;
use playlist_model::SegmentRef;
use stitcher::{StitchedItems, TextRef};

// So many segments are looked at to reckon how much room all of them take.
const FEW: usize = 16;

// No segment is given more room than this at first, so that one long text claims none for all the others.
const MAX_ROOM: usize = 1024;

// The room that a segment takes, generously.
fn written_segment_room_of(segment: &SegmentRef<'_>) -> usize {
    let texts = segment.uri().len().saturating_add(segment.title().len());
    let keys = segment.keys().len().saturating_mul(160);
    texts.saturating_add(keys).saturating_add(88)
}

// The room that each segment is given: the most that one of the first ones takes, as far as that goes.
fn written_segment_room(segments: StitchedItems<'_>) -> usize
    ensures { result ≤ most_room }
{
    let mut segments = segments;
    let mut most: usize = 0;
    for _ in 0..FEW {
        let Some(next) = segments.next() else {
            break;
        };
        most = most.max(written_segment_room_of(&next.segment));
    }
    most.min(MAX_ROOM)
}

// The room that the lines of date ranges are given.
fn written_date_ranges_room(date_ranges: &[TextRef<'_>]) -> usize
    ensures { result ≤ sum (map date_range_room date_ranges.now) }
{
    let mut room: usize = 0;
    for date_range in date_ranges {
        room = room
            .saturating_add(date_range.as_str().len())
            .saturating_add(24);
    }
    room
}

/// How many bytes most texts of `playlist` take at most: a text that grows is held twice while it is moved, and room
/// that isn't used takes no memory.
pub(crate) fn written_text_room_for(playlist: &OutPlaylist<'_>) -> usize
    ensures { result ≤ text_room playlist.now }
{
    let date_ranges = written_date_ranges_room(playlist.date_ranges.as_slice());
    let segments = &playlist.segments;
    let room = segments
        .count()
        .saturating_mul(written_segment_room(segments.items()));
    room.saturating_add(date_ranges).saturating_add(256)
}
