//! Single calls and failing devices, for `tests/calls.py` and `tests/devices.py`. With the
//! arguments `WHAT [CALL]` the program reads the input of a trial from files with fixed names in
//! the current folder, and prints the results. `bench WHAT FILE..` measures.
//!
//! ```text
//! python3 tests/calls.py crates/compose_trials/out/compose_trials
//! ```
#![tactic(auto)]

mod answering;
mod bench;
mod certificates;
mod chance;
mod checking;
mod devices;
mod endless;
mod failure;
mod input;
mod marks;
mod network;
mod output;
mod planted;
mod reading;
mod serving;
mod sockets;
mod streams;
mod tables;

use failure::Failure;
use std::process::ExitCode;

/// Tries or measures what the arguments ask for.
fn run(rt: &HostRuntime, arguments: &[&str]) -> Result<(), Failure> {
    match arguments {
        ["bench", words @ ..] => bench::run(rt, words),
        ["read", call] => reading::try_call(rt, call),
        ["table", call] => tables::try_call(rt, call),
        ["answer", call] => answering::try_call(rt, call),
        ["stream", call] => streams::try_call(rt, call),
        ["planted", call] => planted::try_call(rt, call),
        ["certificates"] => certificates::try_all(rt),
        ["devices"] => serving::try_all(rt),
        ["sockets"] => sockets::try_all(rt),
        ["endless"] => endless::serve_endless(rt),
        ["network", seed, schedules] => network::schedule::run_all(rt, seed, schedules),
        _ => Err(Failure::Arguments),
    }
}

/// Returns the arguments after the program's name.
fn arguments_given(rt: &HostRuntime) -> Result<Vec<String>, Failure> {
    let Ok(arguments) = std::env::args(rt) else {
        return Err(Failure::Arguments);
    };
    let Ok(arguments) = arguments.skip(1).collect(rt.alloc()) else {
        return Err(Failure::NoMemory);
    };
    Ok(arguments)
}

/// Runs with the arguments after the program's name.
fn run_given(rt: &HostRuntime) -> Result<(), Failure> {
    let given = arguments_given(rt)?;
    let Ok(arguments) = given
        .iter()
        .map(|argument| argument.as_str())
        .collect::<Vec<&str>>(rt.alloc())
    else {
        return Err(Failure::NoMemory);
    };
    run(rt, &arguments)
}

fn main(rt: HostRuntime) -> ExitCode {
    match run_given(&rt) {
        Ok(()) => ExitCode::from(0),
        Err(failure) => ExitCode::from(failure.status()),
    }
}
