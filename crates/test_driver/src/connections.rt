//! Connections with devices that move few bytes at a time, or fail.
ghost use Rattle.std.specs.Prelude.{◌<◌};

use crate::escapes::bytes_of;
use crate::words::{number_in, split_word};
use byte_streams::{TestSink, TestSource};
use http_edge::{Edge, serve};
use std::alloc::Global;
use std::io;
use std::io::Print;

// What a sink takes at most.
const ROOM: usize = 65_536;

// How many bytes a call moves at most: one or more.
fn count_of(words: &str) -> (usize, &str)
    ensures { 0 < result.0 }
{
    let (number, rest) = split_word(words);
    let count = number.parse().unwrap_or(1);
    (if count == 0 { 1 } else { count }, rest)
}

// How the devices of a connection move bytes, and which call of them fails: from 1, 0 for none.
#[derive(Clone, Copy)]
struct Moves {
    most_read: usize,
    failing_read: u64,
    most_written: usize,
    failing_write: u64,
}

// The four numbers before a body, and the body.
fn moves_of(words: &str) -> (Moves, &str)
    ensures { (0 < result.0.most_read) × (0 < result.0.most_written) }
{
    let (most_read, words) = count_of(words);
    let (failing_read, words) = split_word(words);
    let (most_written, words) = count_of(words);
    let (failing_write, body) = split_word(words);
    let moves = Moves {
        most_read,
        failing_read: number_in(failing_read),
        most_written,
        failing_write: number_in(failing_write),
    };
    (moves, body)
}

fn print_outcome(
    rt: &impl Print,
    alloc: Global,
    edge: &mut Edge,
    source: &mut TestSource<'_>,
    sink: &mut TestSink,
) -> io::Result<()> {
    match serve(alloc, edge, source, sink) {
        Ok(served) => println!(rt; "{}", served.status),
        Err(fault) => println!(rt; "{fault}"),
    }
}

/// Serves a connection over `edge` as `words` say, and prints what came of it and what was written.
pub(crate) fn print_served(
    rt: &impl Print,
    alloc: Global,
    edge: &mut Edge,
    words: &str,
) -> io::Result<()> {
    let (moves, body) = moves_of(words);
    let bytes = bytes_of(alloc, body)?;
    let mut source = TestSource::new(bytes.as_slice(), moves.most_read, 0, moves.failing_read);
    let mut sink = TestSink::new(alloc, ROOM, moves.most_written, moves.failing_write)?;
    print_outcome(rt, alloc, edge, &mut source, &mut sink)?;
    println!(rt; "{}", std::str::from_utf8(sink.bytes()).unwrap_or("?"))
}
