//! The program that tests speak to. It answers each line of standard input by what the crates below it say.
//!
//! **Texts and splice sections.** To each of these lines one line is printed, or the fault:
//!
//! - `section TEXT`: the fields of a section in hexadecimal digits after `0x`, the CRC_32 that it states, the CRC_32 of the
//!   whole section that is written with its own, and that section.
//! - `rewritten TEXT`: the section that is written of a copy of what was read, with the CRC_32 that was read.
//! - `program TIMING TIME TICKS`, `components TIMING TIME COUNT`, `heading ADJUSTMENT TIER`, `command TYPE`: `written`, once
//!   with the value's own CRC_32 and once with that of its bytes. TIMING is `immediate` or another word, TIME may be `none`.
//! - `crc BYTES`: the CRC_32 of bytes.
//! - `attributes TEXT`: each attribute of a list: where it begins and ends, its name, and its value, in quotes or without.
//! - `attribute NAME\nTEXT`: the value that a list gives this name, in quotes or without, after `=`; or `none`.
//! - `decimal TEXT`, `hexadecimal TEXT`: the number, in decimal.
//! - `duration TEXT`: the nanoseconds.
//! - `fraction DIGITS`: the nanoseconds of the digits after a point.
//! - `seconds NANOSECONDS`: the duration in seconds, after `#EXTINF:`.
//! - `rounded NANOSECONDS`: the whole seconds.
//! - `sum NANOSECONDS NANOSECONDS`: the sum, or `none`.
//! - `memory`: the faults if an allocation fails: of attribute lists, of sections.
//!
//! **Events of channels.** They go to the channel that was made last. Printed is `ok`, or the fault, except for:
//!
//! - `channel TOLERANCE BASE`: makes a channel; the tolerance is in nanoseconds.
//! - `to BACK`: the lines after it go to the channel that was made so many before the last one, from 0. Nothing is printed.
//! - `decide BODY`: a decision file.
//! - `withdraw ID`: the pod of a break is taken away.
//! - `refresh BODY`: a refresh of the origin's playlist. Printed is `ok MEDIA SEGMENTS FRESH`: the first number and the
//!   count that are written, and how many of the origin's segments are shown for the first time.
//! - `playlist`: `playlist` and then the text that is written, or `none`.
//! - `known`: `known`, and a line for each known break with its ID and why it is filled or not.
//! - `why ID`: the word for why a break is filled or not.
//!
//! **Connections and decision files:**
//!
//! - `edge`: makes a new edge with no channel, to which the connections after it go. Nothing is printed.
//! - `serve READ FAILING WRITE FAILING BODY`: a connection that brings these bytes, by the most bytes of a read, the read
//!   that fails, the most bytes of a write, the write that fails (from 1; 0 for none). Printed is the status, or the fault;
//!   and what was written.
//! - `decisions BODY`: `decisions`, and a line for each break of a decision file with its ID, how many ads and segments its
//!   pod has and how many nanoseconds they last; or the break that is withdrawn; or the fallback; or the fault.
//! - `length BODY`: how many bytes it has. The benchmark takes the time of this off.
//!
//! In a TEXT, BYTES or a BODY a backslash and `n` stand for a line feed, `r` for a carriage return, `x` with two hexadecimal
//! digits for that byte, and another backslash for a backslash. In what is printed of a value such bytes are `\x` with two
//! digits. A line that is none of these, or an event if there is no channel, prints `no event`.
#![tactic(auto)]

mod attributes;
mod channels;
mod connections;
mod decisions;
mod durations;
mod escapes;
mod fields;
mod sections;
mod shown;
mod texts;
mod values;
mod words;

use channels::{Channels, print_event, print_made};
use connections::print_served;
use decisions::print_decisions;
use escapes::bytes_of;
use http_edge::Edge;
use scte35_codec::crc_of;
use std::alloc::Global;
use std::hash::RandomState;
use std::io;
use std::io::Print;
use texts::print_text;
use words::split_word;

#[derive(Drop)]
// What lines go to.
struct Session {
    hashing: RandomState,
    channels: Channels,
    edge: Edge,
}

fn new_session(alloc: Global, hashing: RandomState) -> io::Result<Session> {
    let edge = Edge::new(alloc, hashing)?;
    let channels = Channels::new(alloc);
    Ok(Session {
        hashing,
        channels,
        edge,
    })
}

fn make_edge(alloc: Global, session: &mut Session) -> io::Result<()> {
    session.edge = Edge::new(alloc, session.hashing)?;
    Ok(())
}

fn print_length(rt: &impl Print, alloc: Global, body: &str) -> io::Result<()> {
    println!(rt; "{}", bytes_of(alloc, body)?.len())
}

fn print_crc(rt: &impl Print, alloc: Global, body: &str) -> io::Result<()> {
    println!(rt; "{}", crc_of(bytes_of(alloc, body)?.as_slice()))
}

fn print_line(rt: &impl Print, alloc: Global, session: &mut Session, line: &str) -> io::Result<()> {
    let (word, rest) = split_word(line);
    match word {
        "channel" => print_made(rt, alloc, session.hashing, &mut session.channels, rest),
        "to" => {
            session.channels.go_back(rest);
            Ok(())
        }
        "decide" | "withdraw" | "refresh" | "playlist" | "known" | "why" => {
            print_event(rt, alloc, &mut session.channels, word, rest)
        }
        "edge" => make_edge(alloc, session),
        "serve" => print_served(rt, alloc, &mut session.edge, rest),
        "decisions" => print_decisions(rt, alloc, session.hashing, rest),
        "length" => print_length(rt, alloc, rest),
        "crc" => print_crc(rt, alloc, rest),
        _ => print_text(rt, alloc, word, rest),
    }
}

fn print_lines(rt: &HostRuntime, alloc: Global, session: &mut Session) -> io::Result<()> {
    for line in rt.lines(alloc) {
        print_line(rt, alloc, session, line?.as_str())?;
    }
    Ok(())
}

fn main(rt: HostRuntime) -> io::Result<()> {
    let alloc = rt.alloc();
    let mut session = new_session(alloc, RandomState::new(&rt)?)?;
    print_lines(&rt, alloc, &mut session)
}
