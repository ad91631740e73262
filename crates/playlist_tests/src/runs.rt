//! Devices that move few bytes or fail, and shown faults. The program's words and what it prints are tried on the built
//! program (`tests/run_devices`, `tests/run_playlists`).
use byte_streams::{Source, TestSink, TestSource};
use playlist_model::{FaultKind, PlaylistFault};
use std::alloc::{AllocError, Global};
use std::fmt::Display;
use std::hash::RandomState;
use stitcher::StitchFault;
use vod_run::{VodFault, command_vod};

const BASE: &str = "http://origin.example/ch/index.m3u8";

const PLAIN: &[u8] =
    b"#EXTM3U\n#EXT-X-TARGETDURATION:10\n#EXTINF:10,\ns0.ts\n#EXTINF:10,\ns1.ts\n#EXTINF:9.5,\ns2.ts\n#EXT-X-ENDLIST\n";

const WRITTEN: &[u8] =
    b"#EXTM3U\n#EXT-X-VERSION:6\n#EXT-X-TARGETDURATION:10\n#EXT-X-MEDIA-SEQUENCE:0\n#EXT-X-DISCONTINUITY-SEQUENCE:0\n#EXTINF:10,\nhttp://origin.example/ch/s0.ts\n#EXTINF:10,\nhttp://origin.example/ch/s1.ts\n#EXTINF:9.5,\nhttp://origin.example/ch/s2.ts\n#EXT-X-ENDLIST\n";

const ROOM: usize = 4096;

const CANNOT_READ: &[u8] = b"cannot read input\n";

const CANNOT_WRITE: &[u8] = b"cannot write output\n";

// Whether a run over this source prints this of its fault and answers the status that goes with it, and the sink then has
// these bytes.
fn ends_with(
    alloc: Global,
    hashing: RandomState,
    source: &mut TestSource<'_>,
    mut sink: TestSink,
    base: &str,
    printed: &[u8],
    bytes: &[u8],
) -> Result<bool, AllocError> {
    let mut faults = TestSink::new(alloc, ROOM, 1, 0)?;
    let status = command_vod(alloc, hashing, base, None, source, &mut sink, &mut faults);
    let is_told = status == u8::from(!printed.is_empty()) && faults.bytes() == printed;
    Ok(is_told && sink.bytes() == bytes)
}

// Whether a run of some bytes a call up to a cut, writes what is owed, as many bytes a call.
fn is_written(
    alloc: Global,
    hashing: RandomState,
    most: usize,
    cut: usize,
) -> Result<bool, AllocError> {
    let mut source = TestSource::new(PLAIN, most.max(1), cut, 0);
    let sink = TestSink::new(alloc, ROOM, most.max(1), 0)?;
    ends_with(alloc, hashing, &mut source, sink, BASE, b"", WRITTEN)
}

#[test]
fn pieces_of_any_size(rt: HostRuntime) {
    let hashing = RandomState::new(&rt).expect(&rt, "random bytes");
    for most in 1..5usize {
        for cut in 0..40usize {
            assert!(rt;
                matches!(is_written(rt.alloc(), hashing, most, cut), Ok(true)),
                "{most} {cut}"
            );
        }
    }
}

// Whether a run of a byte a call, whose read of this number fails, is blamed on that and writes nothing.
fn is_read_failure(alloc: Global, hashing: RandomState, fail: u64) -> Result<bool, AllocError> {
    let mut source = TestSource::new(PLAIN, 1, 0, fail);
    let sink = TestSink::new(alloc, ROOM, 1, 0)?;
    ends_with(alloc, hashing, &mut source, sink, BASE, CANNOT_READ, b"")
}

#[test]
fn each_read_fails_in_turn(rt: HostRuntime) {
    let hashing = RandomState::new(&rt).expect(&rt, "random bytes");
    // As many reads as bytes, and one that finds the end.
    for fail in 1..=(PLAIN.len() as u64 + 1) {
        assert!(rt;
            matches!(is_read_failure(rt.alloc(), hashing, fail), Ok(true)),
            "{fail}"
        );
    }
}

// Whether a run whose sink takes some bytes a call, and fails at this one or for want of room, is blamed on that, and the
// sink then has so many bytes of what is owed.
fn is_write_failure(
    alloc: Global,
    hashing: RandomState,
    room: usize,
    most: usize,
    fail: u64,
    count: usize,
) -> Result<bool, AllocError> {
    let mut source = TestSource::new(PLAIN, ROOM, 0, 0);
    let sink = TestSink::new(alloc, room, most.max(1), fail)?;
    let bytes = WRITTEN.get(..count).unwrap_or(b"?");
    ends_with(alloc, hashing, &mut source, sink, BASE, CANNOT_WRITE, bytes)
}

#[test]
fn each_write_fails_in_turn(rt: HostRuntime) {
    let hashing = RandomState::new(&rt).expect(&rt, "random bytes");
    for count in 0..WRITTEN.len() {
        let failed = is_write_failure(rt.alloc(), hashing, ROOM, 1, count as u64 + 1, count);
        assert!(rt; matches!(failed, Ok(true)), "{count}");
    }
}

// Whether a run of a byte a call, whose sink fails after all that is owed, isn't blamed on it.
fn is_whole_before_a_failure(alloc: Global, hashing: RandomState) -> Result<bool, AllocError> {
    let mut source = TestSource::new(PLAIN, ROOM, 0, 0);
    let sink = TestSink::new(alloc, ROOM, 1, WRITTEN.len() as u64 + 1)?;
    ends_with(alloc, hashing, &mut source, sink, BASE, b"", WRITTEN)
}

#[test]
fn a_write_after_the_last_does_not_fail(rt: HostRuntime) {
    let hashing = RandomState::new(&rt).expect(&rt, "random bytes");
    assert!(rt; matches!(is_whole_before_a_failure(rt.alloc(), hashing), Ok(true)));
}

#[test]
fn a_sink_without_room(rt: HostRuntime) {
    let hashing = RandomState::new(&rt).expect(&rt, "random bytes");
    assert!(rt;
        matches!(
            is_write_failure(rt.alloc(), hashing, 100, ROOM, 0, 100),
            Ok(true)
        )
    );
}

// Whether a run over this source is refused with this fault printed, with nothing written, after so many reads.
fn is_refused_after(
    alloc: Global,
    hashing: RandomState,
    mut source: TestSource<'_>,
    base: &str,
    printed: &[u8],
    reads: u64,
) -> Result<bool, AllocError> {
    let sink = TestSink::new(alloc, ROOM, ROOM, 0)?;
    let is_refused = ends_with(alloc, hashing, &mut source, sink, base, printed, b"")?;
    Ok(is_refused && source.calls() == reads)
}

fn is_read_too_often(alloc: Global, hashing: RandomState) -> Result<bool, AllocError> {
    let input = Vec::from_elem(alloc, b'\n', 70_000)?;
    let source = TestSource::new(input.as_slice(), 1, 0, 0);
    is_refused_after(alloc, hashing, source, BASE, b"E3 TooManyReads\n", 65_536)
}

#[test]
fn too_many_reads(rt: HostRuntime) {
    let hashing = RandomState::new(&rt).expect(&rt, "random bytes");
    assert!(rt; matches!(is_read_too_often(rt.alloc(), hashing), Ok(true)));
}

#[test]
fn a_base_that_is_none_reads_nothing(rt: HostRuntime) {
    let hashing = RandomState::new(&rt).expect(&rt, "random bytes");
    let source = TestSource::new(PLAIN, ROOM, 0, 1);
    let refused = is_refused_after(rt.alloc(), hashing, source, "ftp://h/", b"C1 BadBase\n", 0);
    assert!(rt; matches!(refused, Ok(true)));
}

// Whether a fault is shown as this text.
fn is_shown<T: Display>(alloc: Global, fault: &T, text: &str) -> bool {
    match format!(in alloc; "{fault}") {
        Ok(shown) => shown.as_str() == text,
        Err(_) => false,
    }
}

static FAULTS: [(VodFault, &str); 3] = [
    (VodFault::TooManyReads, "E3 TooManyReads"),
    (VodFault::OutOfMemory, "E5 OutOfMemory"),
    (VodFault::NumberRange, "N10 NumberRange"),
];

#[test]
fn shown_faults(rt: HostRuntime) {
    for (fault, text) in FAULTS.iter() {
        assert!(rt; is_shown(rt.alloc(), fault, text), "{text}");
        assert!(rt; fault.text().as_str() == *text, "{text}");
    }
    assert!(rt; is_shown(rt.alloc(), &StitchFault::OutOfMemory, "K2 OutOfMemory"));
    let (kind, line) = (FaultKind::MapWithoutIv, 14);
    assert!(rt;
        is_shown(
            rt.alloc(),
            &PlaylistFault { kind, line },
            "P23 MapWithoutIv line 14"
        )
    );
}
