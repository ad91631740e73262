//! Live channels, and the events that go to them.
use crate::escapes::bytes_of;
use fixed_duration::Nanos;
use http_edge::why_word;
use live_channel::{Channel, ChannelFault};
use std::alloc::Global;
use std::hash::RandomState;
use std::io;
use std::io::Print;

#[derive(Drop)]
/// The channels that were made, and how many before the last one that is to which events go.
pub(crate) struct Channels {
    made: Vec<Channel>,
    back: usize,
}

impl Channels {
    pub(crate) fn new(alloc: Global) -> Channels {
        let made = Vec::new(alloc);
        Channels { made, back: 0 }
    }

    /// Sends events to the channel that was made `back` channels before the last one; a `back` that is no number is
    /// 0.
    pub(crate) fn go_back(&mut self, back: &str) {
        self.back = back.parse().unwrap_or(0);
    }

    // The place of the channel to which events go. It is none of a channel if none was made so far back.
    fn place(&self) -> usize {
        self.made.len().wrapping_sub(self.back).wrapping_sub(1)
    }
}

fn new_channel(alloc: Global, hashing: RandomState, words: &str) -> Result<Channel, ChannelFault> {
    let (tolerance, base) = words.split_once(' ').unwrap_or(("0", words));
    let tolerance = Nanos(tolerance.parse().unwrap_or(0));
    Channel::new(alloc, hashing, base, tolerance)
}

/// Makes a channel as `words` say, to which events then go, and adds it to `channels`. Prints `ok` or the fault.
/// `hashing`: the keys for tables of IDs.
pub(crate) fn print_made(
    rt: &impl Print,
    alloc: Global,
    hashing: RandomState,
    channels: &mut Channels,
    words: &str,
) -> io::Result<()> {
    match new_channel(alloc, hashing, words) {
        Ok(channel) => {
            channels.back = 0;
            channels.made.push(channel)?;
            println!(rt; "ok")
        }
        Err(fault) => println!(rt; "{fault}"),
    }
}

fn print_decision(
    rt: &impl Print,
    alloc: Global,
    channel: &mut Channel,
    body: &str,
) -> io::Result<()> {
    match channel.decide(alloc, bytes_of(alloc, body)?.as_slice()) {
        Ok(()) => println!(rt; "ok"),
        Err(fault) => println!(rt; "{fault}"),
    }
}

fn print_withdrawal(rt: &impl Print, channel: &mut Channel, id: &str) -> io::Result<()> {
    match channel.withdraw(id) {
        Ok(()) => println!(rt; "ok"),
        Err(fault) => println!(rt; "{fault}"),
    }
}

fn print_refresh(
    rt: &impl Print,
    alloc: Global,
    channel: &mut Channel,
    body: &str,
) -> io::Result<()> {
    match channel.refresh(alloc, bytes_of(alloc, body)?.as_slice()) {
        Ok(done) => println!(rt;
            "ok {} {} {}",
            done.media_sequence, done.segments, done.fresh
        ),
        Err(fault) => println!(rt; "{fault}"),
    }
}

fn print_playlist(rt: &impl Print, channel: &Channel) -> io::Result<()> {
    match channel.playlist() {
        Some(text) => println!(rt; "playlist\n{}", std::str::from_utf8(text).unwrap_or("?")),
        None => println!(rt; "none"),
    }
}

fn print_known(rt: &impl Print, channel: &Channel) -> io::Result<()> {
    println!(rt; "known")?;
    for place in 0..usize::MAX {
        let Some(id) = channel.known(place) else {
            return Ok(());
        };
        println!(rt; "{id} {}", why_word(channel.explain(id)))?;
    }
    Ok(())
}

fn print_on_channel(
    rt: &impl Print,
    alloc: Global,
    channel: &mut Channel,
    word: &str,
    rest: &str,
) -> io::Result<()> {
    match word {
        "decide" => print_decision(rt, alloc, channel, rest),
        "withdraw" => print_withdrawal(rt, channel, rest),
        "refresh" => print_refresh(rt, alloc, channel, rest),
        "playlist" => print_playlist(rt, channel),
        "known" => print_known(rt, channel),
        _ => println!(rt; "{}", why_word(channel.explain(rest))),
    }
}

/// Gives the event `word`, with `rest` after it, to that one of `channels` to which events go: a decision, a
/// withdrawal, a refresh, or a question. A `word` that is no other asks `why`. Prints the answer.
pub(crate) fn print_event(
    rt: &impl Print,
    alloc: Global,
    channels: &mut Channels,
    word: &str,
    rest: &str,
) -> io::Result<()> {
    let place = channels.place();
    match channels.made.get_mut(place) {
        Some(channel) => print_on_channel(rt, alloc, channel, word, rest),
        None => println!(rt; "no event"),
    }
}
