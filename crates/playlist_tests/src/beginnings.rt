//! Segments that are listed again. When they begin is tried on the built program (`tests/run_playlists`).
use fixed_duration::Nanos;
use playlist_model::{GrowingSegments, InCommon, Instant, SegmentParts, same_segment};
use std::alloc::{AllocError, Global};

/// What the URIs of segments begin with here.
pub(crate) const FRONT: &str = "http://origin.example/";

/// What a segment of `duration` and `title` has of its own: it is a whole resource, and states no time.
pub(crate) fn parts(duration: Nanos, title: &str) -> SegmentParts<'_> {
    SegmentParts {
        media_sequence: 7,
        discontinuity_sequence: 0,
        discontinuities: 0,
        uri_rest: "s.ts",
        byte_range: None,
        duration,
        title,
        program_date_time: None,
    }
}

// Whether a segment is the same as one with another title, steps and time, and this duration.
fn is_listed_again(alloc: Global, duration: Nanos) -> Result<bool, AllocError> {
    let mut again = parts(duration, "news");
    again.discontinuities = 1;
    again.program_date_time = Some(Instant(100));
    let mut both = GrowingSegments::new(alloc);
    both.set_uri_front(FRONT)?;
    both.push(&parts(Nanos(10), ""))?;
    both.push(&again)?;
    let Some((first, later)) = both.as_slice().split_first() else {
        return Ok(false);
    };
    match later.first() {
        Some(again) => Ok(same_segment(&first, &again, InCommon::nothing())),
        None => Ok(false),
    }
}

#[test]
fn a_segment_listed_again_is_the_same(rt: HostRuntime) {
    assert!(rt; matches!(is_listed_again(rt.alloc(), Nanos(10)), Ok(true)));
    assert!(rt; matches!(is_listed_again(rt.alloc(), Nanos(11)), Ok(false)));
}
