//! Each public call once.
use byte_streams::{Counted, READ_ROOM, Sink, Source, TestSink, TestSource, hand_out};
use std::alloc::{AllocError, Global};
use std::io;
use std::io::{ErrorKind, Read, Write};

// How many bytes the next read moves; none if it fails.
fn read_next<S: Source>(source: &mut S) -> Option<usize> {
    let mut room = [0u8; READ_ROOM];
    source.read(&mut room).ok()
}

// How many of these bytes, which aren't none, the next write takes; none if it fails.
fn write_next<K: Sink>(sink: &mut K, bytes: &[u8]) -> Option<usize> {
    if bytes.is_empty() {
        return None;
    }
    sink.write(bytes).ok()
}

#[test]
fn pieces_of_a_source(rt: HostRuntime) {
    let mut source = TestSource::new(b"abcdefg", 3, 4, 2);
    for moved in [Some(3), None, Some(1), Some(3), Some(0)] {
        assert!(rt; read_next(&mut source) == moved);
    }
    assert!(rt; source.failures() == 1);
    assert!(rt; source.calls() == 5);
}

// What is written, and how many bytes of it are taken.
static WRITES: [(&[u8], Option<usize>); 4] = [
    (b"abcdefg", Some(3)),
    (b"defg", None),
    (b"defg", Some(2)),
    (b"fg", Some(0)),
];

#[test]
fn room_of_a_sink(rt: HostRuntime) -> Result<(), AllocError> {
    let mut sink = TestSink::new(rt.alloc(), 5, 3, 2)?;
    for (bytes, taken) in WRITES.iter() {
        assert!(rt; write_next(&mut sink, bytes) == *taken);
    }
    assert!(rt; sink.bytes() == b"abcde".as_slice());
    assert!(rt; sink.failures() == 2);
    Ok(())
}

// Whether what fits is handed out whole, and of what doesn't the front, at most so many bytes a call.
fn is_handed_out(alloc: Global, most: usize) -> Result<bool, AllocError> {
    let mut sink = TestSink::new(alloc, 7, most.max(1), 0)?;
    let is_whole = hand_out(b"abcde", &mut sink).is_ok();
    let is_cut = hand_out(b"fgh", &mut sink).is_err();
    Ok(is_whole && is_cut && sink.bytes() == b"abcdefg".as_slice())
}

#[test]
fn bytes_handed_out(rt: HostRuntime) {
    for most in 1..5usize {
        assert!(rt;
            matches!(is_handed_out(rt.alloc(), most), Ok(true)),
            "{most}"
        );
    }
}

// A reader and writer of std's kind: each call moves one byte, and the second fails.
#[derive(Drop)]
struct ByteByByte {
    calls: u64,
}

impl ByteByByte {
    fn is_second(&mut self) -> bool {
        self.calls = self.calls.saturating_add(1);
        self.calls == 2
    }
}

impl Read for ByteByByte {
    fn read(&mut self, buf: &mut [u8]) -> io::Result<usize> {
        if self.is_second() {
            return Err(io::Error::from(ErrorKind::Other));
        }
        let Some(first) = buf.first_mut() else {
            return Ok(0);
        };
        *first = b'x';
        Ok(1)
    }
}

impl Write for ByteByByte {
    fn write(&mut self, buf: &[u8]) -> io::Result<usize> {
        if self.is_second() {
            return Err(io::Error::from(ErrorKind::Other));
        }
        Ok(buf.len().min(1))
    }

    fn flush(&mut self) -> io::Result<()> {
        Ok(())
    }
}

// Whether the next read moves one byte, an x.
fn reads_one(source: &mut Counted<ByteByByte>) -> bool {
    let mut room = [0u8; READ_ROOM];
    matches!(Source::read(source, &mut room), Ok(1)) && room[0] == b'x'
}

#[test]
fn counted_reader_is_called(rt: HostRuntime) {
    let mut source = Counted::new(ByteByByte { calls: 0 });
    assert!(rt; reads_one(&mut source));
    assert!(rt; read_next(&mut source).is_none());
    assert!(rt; reads_one(&mut source));
    assert!(rt; Source::failures(&source) == 1);
    assert!(rt; source.calls() == 3);
}

#[test]
fn counted_writer_is_called(rt: HostRuntime) {
    let mut sink = Counted::new(ByteByByte { calls: 0 });
    assert!(rt; write_next(&mut sink, b"abc") == Some(1));
    assert!(rt; write_next(&mut sink, b"bc").is_none());
    assert!(rt; write_next(&mut sink, b"bc") == Some(1));
    assert!(rt; Sink::failures(&sink) == 1);
}
