//! `adsplice`: puts advertisements into live HLS channels.
#![tactic(auto)]

mod clients;
mod decisions;
mod door;
mod faults;
mod live;
mod server;
mod settling;

use crate::decisions::{DecisionsFault, bytes_of_program_file};
use crate::faults::{OUT_OF_MEMORY, fails_on_standard_error};
use crate::live::serve_live_port;
use byte_streams::Counted;
use command_line::{Command, read_command};
use std::hash::RandomState;
use std::io::{ErrorKind, Write};
use std::process::ExitCode;
use std::{env, fs};
use vod_run::command_vod;

const USAGE: &str = "usage: adsplice vod BASE [DECISIONS] | adsplice live PORT COUNT\n";

fn print_program_usage(rt: &HostRuntime) -> ExitCode {
    let _ = rt.stderr().write_all(USAGE.as_bytes());
    ExitCode::from(2)
}

// One playlist from standard input to standard output; the decision file, if there is one, is read first.
fn run_vod_on_standard_input(
    rt: &HostRuntime,
    hashing: RandomState,
    base: &str,
    decisions: Option<&str>,
) -> ExitCode {
    match bytes_of_program_file(decisions.map(|path| fs::read(rt, path))) {
        Ok(None) => run_vod_with_decisions(rt, hashing, base, None),
        Ok(Some(file)) => run_vod_with_decisions(rt, hashing, base, Some(file.as_slice())),
        Err(DecisionsFault::OutOfMemory) => fails_on_standard_error(rt, OUT_OF_MEMORY),
        Err(DecisionsFault::CannotRead) => fails_on_standard_error(rt, "cannot read DECISIONS\n"),
    }
}

fn run_vod_with_decisions(
    rt: &HostRuntime,
    hashing: RandomState,
    base: &str,
    decisions: Option<&[u8]>,
) -> ExitCode {
    let mut input = Counted::new(rt.stdin());
    let mut output = Counted::new(rt.stdout());
    let mut faults = Counted::new(rt.stderr());
    ExitCode::from(command_vod(
        rt.alloc(),
        hashing,
        base,
        decisions,
        &mut input,
        &mut output,
        &mut faults,
    ))
}

fn main(rt: HostRuntime) -> ExitCode {
    let words = match env::args(&rt) {
        Ok(words) => words,
        Err(e) if e.kind() == ErrorKind::OutOfMemory => return fails_on_standard_error(
            &rt,
            OUT_OF_MEMORY,
        ),
        Err(_) => return print_program_usage(&rt),
    };
    let Ok(words) = words.skip(1).collect::<Vec<String>>(rt.alloc()) else {
        return fails_on_standard_error(&rt, OUT_OF_MEMORY);
    };
    let Some(command) = read_command(words.as_slice()) else {
        return print_program_usage(&rt);
    };
    // (the keys of all tables of IDs, which strangers choose)
    let Ok(hashing) = RandomState::new(&rt) else {
        return fails_on_standard_error(&rt, "cannot read random bytes of the system\n");
    };
    match command {
        Command::Vod { base, decisions } => run_vod_on_standard_input(
            &rt, hashing, base, decisions,
        ),
        Command::Live { port, count } => serve_live_port(&rt, hashing, port, count),
    }
}
