//! `adsplice live PORT COUNT`: connections on the loopback address, side by side in one thread. The system tells which
//! of them are ready. What they are answered, and which are given up when, `connections` decides.
#![tactic(auto, using(connections::proofs::Leading::stays, connections::proofs::Leading::by_one, connections::proofs::Leading::and_then, connections::proofs::Calling::no_round, connections::proofs::Calling::round_after))]

ghost use Rattle.std.specs.Prelude.{◌≡◌, ◌<◌, length, vec_len, IfOk};
ghost use Rattle.connections.specs.Inner.Going.{RoundsGoOn};
ghost use Rattle.connections.specs.Lines.{new_line};
ghost use Rattle.connections.specs.Runs.{HasRun};

use crate::clients::Clients;
use crate::door::Opened;
use crate::faults::{Faults, OUT_OF_MEMORY, fails_on_standard_error};
use crate::server::Server;
use connections::{Connections, NewTable};
use mio::Events;
use std::alloc::AllocError;
use std::hash::RandomState;
use std::io::{IsTerminal, Write};
use std::process::ExitCode;

// How many events are told at once.
const EVENTS: usize = 256;

// The bytes of a read.
const BLOCK: usize = 65_536;

// Tells who sits at a terminal. A file or a pipe has the faults alone.
fn notice_of_port(rt: &HostRuntime, what: &str, port: u16, count: u32) {
    let mut standard_error = rt.stderr();
    if standard_error.is_terminal() {
        let _ = writeln!(
            standard_error,
            "{what} {count} connections on 127.0.0.1:{port}"
        );
    }
}

// Why the server doesn't start.
#[derive(Clone, Copy)]
enum StartFault {
    OutOfMemory,
    CannotBind,
}

impl StartFault {
    // What is printed of it.
    fn line(self) -> &'static str {
        match self {
            StartFault::OutOfMemory => OUT_OF_MEMORY,
            StartFault::CannotBind => "cannot bind\n",
        }
    }
}

impl From<AllocError> for StartFault {
    fn from(_: AllocError) -> StartFault {
        StartFault::OutOfMemory
    }
}

// A server, its table of connections, and room for what is told and read.
#[derive(Drop)]
struct Started {
    server: Server,
    connections: Connections,
    events: Events,
    block: Vec<u8>,
}

// Takes all memory beside what clients ask, and then the port, so that a client finds the memory there.
fn start_server(
    rt: &HostRuntime,
    hashing: RandomState,
    port: u16,
    count: u32,
) -> Result<Started, StartFault>
    ensures room { IfOk result (λ started. 0 < vec_len started.block) }
    ensures line { IfOk result (λ started. started.server.line ≡ new_line) }
{
    let alloc = rt.alloc();
    let NewTable { connections, seats } = Connections::over_new_edge(alloc, hashing)?;
    let clients = Clients::new(alloc, seats)?;
    let faults = Faults::new(rt, alloc)?;
    let events = Events::with_capacity(alloc, EVENTS)?;
    let block = vec![in alloc; 0u8; BLOCK]?;
    let Ok(opened) = Opened::on(rt, port) else {
        return Err(StartFault::CannotBind);
    };
    Ok(Started {
        server: Server::new(clients, opened, faults, count),
        connections,
        events,
        block,
    })
}

// Serves until all came that are let in, and none of them is there any more. Whether it came to that.
fn serve_all_sockets(
    rt: &HostRuntime,
    server: &mut Server,
    connections: &mut Connections,
    events: &mut Events,
    block: &mut [u8],
) -> bool
    requires { 0 < length block.old }
    ensures run { HasRun connections.old connections.new }
    ensures rounds { RoundsGoOn server.old.line server.new.line }
{
    for _ in 0..u64::MAX {
        if server.is_over() {
            return true;
        }
        if server.wait(rt, events).is_err() {
            server.tell(rt, "cannot accept");
            return false;
        }
        server.round(rt, connections, events, block);
    }
    true
}

/// Serves `count` connections on the port `port` of the loopback address, from 1, and gives the exit status. The
/// memory is taken first, so that a client finds it there.
/// `hashing`: the keys for tables of IDs.
pub fn serve_live_port(rt: &HostRuntime, hashing: RandomState, port: u16, count: u32) -> ExitCode {
    let mut started = match start_server(rt, hashing, port, count) {
        Ok(started) => started,
        Err(fault) => return fails_on_standard_error(rt, fault.line()),
    };
    notice_of_port(rt, "serving", port, count);
    if !serve_all_sockets(
        rt,
        &mut started.server,
        &mut started.connections,
        &mut started.events,
        started.block.as_mut_slice(),
    ) {
        return ExitCode::from(1);
    }
    notice_of_port(rt, "served all", port, count);
    ExitCode::SUCCESS
}
