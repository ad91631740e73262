//! Whose turn it is. Requests that may take long wait in a line, in which each channel has its turn.
ghost use Rattle.std.specs.Prelude.{◌≡◌, ◌+◌, filter, find, length, IfOk, OnOk, OnErr};
ghost use Rattle.connections.specs.Lines.{turn_count, new_line, is_in_line, is_of, is_other, next_in, place_of, had_turn, after, joins, leaves, calls};
ghost use Rattle.connections.specs.Seats.{places_below};

use http_edge::{EdgeFault, MAX_CHANNELS};
use std::alloc::{AllocError, Global};
use std::marker::Model;

/// A turn of the client at a place. `Line::call_next` and `Client::when` alone make one, and none is copied.
#[derive(Drop)]
pub struct Call {
    place: usize,
}

impl Model for Call {
    ghost use Rattle.std.specs.Prelude.{ℕ};

    ghost Value = { ℕ };

    ghost view = { λ c. c.place };
}

impl Call {
    // A turn of the client at `place`.
    pub(crate) fn new(place: usize) -> Call
        ensures { result ≡ place }
    {
        Call { place }
    }

    /// The place of the client that is called.
    pub fn place(&self) -> usize
        ensures { result ≡ self.now }
    {
        self.place
    }
}

/// What a client sends of its request, which isn't whole with it. `Client::when` alone makes one, and none is copied.
#[derive(Drop)]
pub struct Part {
    pub(crate) place: usize,
    // How many bytes.
    pub(crate) count: usize,
}

impl Part {
    /// The place of the client that sends it.
    pub fn place(&self) -> usize
        ensures { result ≡ self.now.place }
    {
        self.place
    }
}

/// When a client has its turn.
#[derive(Drop)]
pub enum When {
    /// At once, since it doesn't hold the others.
    AtOnce(Call),
    /// What it sends is read at once: its request isn't whole with it.
    Part(Part),
    /// When it is called: its request is whole. The number of the channel that the request is on.
    InLine(usize),
    /// There was no memory to see what it asks.
    NoMemory,
    /// Once it has sent something.
    NotYet,
    /// Never: the connection is gone.
    Failed(EdgeFault),
}

/// A client that stands in line: its place, and the number of the channel that its request is on.
#[derive(Clone, Copy)]
pub struct Standing {
    pub place: usize,
    pub channel: usize,
}

/// Those whose requests wait, in the order in which they joined. Each channel has its turn: a request waits for those on its own
/// channel that came before it, and for as many of each other channel, and one more.
#[derive(Drop)]
pub struct Line {
    standing: Vec<Standing>,
    // The channels' numbers, the one first whose turn is longest ago.
    turns: Vec<usize>,
}

impl Model for Line {
    ghost use Rattle.connections.specs.Lines.{LineState};

    ghost Value = { LineState };

    ghost view = { λ l. record { standing = l.standing.items; turns = l.turns.items } };
}

fn client_stands_in_line(standing: &[Standing], place: usize) -> bool
    ensures { result ≡ is_in_line place standing.now }
{
    for one in standing {
        if one.place == place {
            return true;
        }
    }
    false
}

fn client_leaves_line(standing: &mut Vec<Standing>, place: usize)
    ensures { standing.new.items ≡ filter (is_other place) standing.old.items }
{
    standing.retain(|one| one.place != place);
}

// The one that joined first of those whose requests are on a channel.
fn first_on_channel(standing: &[Standing], channel: usize) -> Option<Standing>
    ensures { result ≡ find (is_of channel) standing.now }
{
    for one in standing {
        if one.channel == channel {
            return Some(*one);
        }
    }
    None
}

// Whose turn it is.
fn next_in_line(standing: &[Standing], turns: &[usize]) -> Option<Standing>
    ensures { result ≡ next_in standing.now turns.now }
{
    for channel in turns {
        if let Some(one) = first_on_channel(standing, *channel) {
            return Some(one);
        }
    }
    None
}

// A channel had its turn, and is the last now.
fn channel_had_turn(turns: &mut [usize], channel: usize)
    ensures { turns.new ≡ had_turn channel turns.old }
{
    for index in 0..turns.len() {
        if turns[index] == channel {
            turns[index..].rotate_left(1);
            return;
        }
    }
}

// The channels' numbers, the last of them first.
fn all_channel_turns(alloc: Global) -> Result<Vec<usize>, AllocError>
    ensures { IfOk result (λ turns. turns.items ≡ places_below turn_count) }
{
    let mut turns = Vec::with_capacity(alloc, MAX_CHANNELS + 1)?;
    for index in 0..MAX_CHANNELS + 1 {
        turns.push(MAX_CHANNELS - index)?;
    }
    Ok(turns)
}

impl Line {
    /// A line in which nobody stands, and the memory for `most` of them. Fails only if an allocation fails.
    pub fn new(alloc: Global, most: usize) -> Result<Line, AllocError>
        ensures { IfOk result (λ new. new ≡ new_line) }
    {
        Ok(Line {
            standing: Vec::with_capacity(alloc, most)?,
            turns: all_channel_turns(alloc)?,
        })
    }

    /// How many stand in it.
    pub fn len(&self) -> usize
        ensures { result ≡ length self.now.standing }
    {
        self.standing.len()
    }

    /// Whether the client at `place` stands in it.
    pub fn has(&self, place: usize) -> bool
        ensures { result ≡ is_in_line place self.now.standing }
    {
        client_stands_in_line(self.standing.as_slice(), place)
    }

    /// The client at `place`, whose request is on the channel of the number `channel`, stands in line behind all others, unless
    /// it does already. Of no channel is what has a number of `MAX_CHANNELS` or more. Fails only if an allocation fails; the
    /// line is then as it was.
    pub fn join(&mut self, place: usize, channel: usize) -> Result<(), AllocError>
        ensures ok { OnOk result (self.new ≡ after (joins place channel) self.old) }
        ensures err { OnErr result (self.new ≡ self.old) }
    {
        if client_stands_in_line(self.standing.as_slice(), place) {
            return Ok(());
        }
        let channel = channel.min(MAX_CHANNELS);
        self.standing.push(Standing { place, channel })?;
        Ok(())
    }

    /// The client at `place` doesn't stand in line any more.
    pub fn leave(&mut self, place: usize)
        ensures { self.new ≡ after (leaves place) self.old }
    {
        client_leaves_line(&mut self.standing, place);
    }

    /// Calls the one whose turn it is, which leaves the line: of the channels for which one stands, the one whose turn is longest
    /// ago has its turn, and of its clients the one that joined first is called. `None` if nobody stands there. Takes no memory.
    pub fn call_next(&mut self) -> Option<Call>
        ensures call { result ≡ place_of (next_in self.old.standing self.old.turns) }
        ensures line { self.new ≡ after calls self.old }
    {
        let one = next_in_line(self.standing.as_slice(), self.turns.as_slice())?;
        client_leaves_line(&mut self.standing, one.place);
        channel_had_turn(self.turns.as_mut_slice(), one.channel);
        Some(Call::new(one.place))
    }
}
