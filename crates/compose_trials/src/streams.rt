//! Bytes of a stream that are fed, and the requests read from them.
use crate::failure::Failure;
use crate::input::{feed_file, read_file};
use crate::marks::mark;
use crate::output::print_line;
use compose_wire::{Feeder, Request, WireFault};

/// Feeds the file `before`, and tries the call that the argument names, a second time if the first
/// is refused. Prints the refusal, and then all requests. `Err(Arguments)` if there is no such
/// call; other errors: see [`Failure`].
pub fn try_call(rt: &HostRuntime, call: &str) -> Result<(), Failure> {
    let mut feeder = feed_file(rt, "before")?;
    match call {
        "feed" => feed(rt, &mut feeder)?,
        "next" => next(rt, &mut feeder)?,
        _ => return Err(Failure::Arguments),
    }
    print_all(rt, &mut feeder)
}

/// Feeds the file `tried`.
fn feed(rt: &HostRuntime, feeder: &mut Feeder) -> Result<(), Failure> {
    let piece = read_file(rt, "tried")?;
    mark(rt);
    let fed = feeder.feed(&piece);
    mark(rt);
    let Err(fault) = fed else {
        return Ok(());
    };
    print_held(rt, fault, feeder)?;
    match feeder.feed(&piece) {
        Ok(()) => Ok(()),
        Err(_) => Err(Failure::NoMemory),
    }
}

/// Reads the next request.
fn next(rt: &HostRuntime, feeder: &mut Feeder) -> Result<(), Failure> {
    mark(rt);
    let given = feeder.next_request(rt.alloc());
    mark(rt);
    match given {
        Ok(Some(request)) => print_request(rt, &request),
        Ok(None) => print_line(rt, "none"),
        Err(fault) => print_held(rt, fault, feeder),
    }
}

/// Prints a refusal, and the number of bytes that are held.
fn print_held(rt: &HostRuntime, fault: WireFault, feeder: &Feeder) -> Result<(), Failure> {
    print_line(rt, fault)?;
    print_line(rt, feeder.held())
}

/// Prints a request.
fn print_request(rt: &HostRuntime, request: &Request) -> Result<(), Failure> {
    match println!(rt; "{request:?}") {
        Ok(()) => Ok(()),
        Err(_) => Err(Failure::System),
    }
}

/// Prints the requests, until there is none.
fn print_all(rt: &HostRuntime, feeder: &mut Feeder) -> Result<(), Failure> {
    for _ in 0..=feeder.held() {
        match feeder.next_request(rt.alloc()) {
            Ok(Some(request)) => print_request(rt, &request)?,
            Ok(None) => return print_line(rt, feeder.held()),
            Err(fault) => return print_line(rt, fault),
        }
    }
    Ok(())
}
