//! Requests to a service before, in and after the tried call.
use crate::failure::Failure;
use crate::input::{read_requests, start_service};
use crate::marks::mark;
use crate::output::{print_line, print_reply};
use compose_service::Service;
use compose_tree::PackedTable;
use compose_wire::{Reply, Request};

/// Answers the requests of the file `before`, tries the call that the argument names on those of
/// `tried`, and answers those of `after`. Prints each reply. `Err(Arguments)` if there is no such
/// call; other errors: see [`Failure`].
pub fn try_call(rt: &HostRuntime, call: &str) -> Result<(), Failure> {
    let mut service = start_service(rt)?;
    try_on(rt, &mut service, call)
}

/// Does the same with this service.
fn try_on(rt: &HostRuntime, service: &mut Service<PackedTable>, call: &str) -> Result<(), Failure> {
    answer_all(rt, service, "before")?;
    match call {
        "one" => answer_one(rt, service)?,
        "run" => run(rt, service)?,
        _ => return Err(Failure::Arguments),
    }
    answer_all(rt, service, "after")
}

/// Answers the requests of a file, and prints each reply. Errors: see [`Failure`].
pub fn answer_all(
    rt: &HostRuntime,
    service: &mut Service<PackedTable>,
    path: &str,
) -> Result<(), Failure> {
    for request in &read_requests(rt, path)? {
        let reply = answer(rt, service, request);
        print_reply(rt, &reply)?;
    }
    Ok(())
}

/// Answers a request.
pub fn answer(rt: &HostRuntime, service: &mut Service<PackedTable>, request: &Request) -> Reply {
    service.answer(rt.alloc(), request)
}

/// Answers one request.
fn answer_one(rt: &HostRuntime, service: &mut Service<PackedTable>) -> Result<(), Failure> {
    let requests = read_requests(rt, "tried")?;
    let Some(request) = requests.first() else {
        return Err(Failure::Input);
    };
    mark(rt);
    let reply = answer(rt, service, request);
    mark(rt);
    print_reply(rt, &reply)
}

/// Answers requests in one call.
fn run(rt: &HostRuntime, service: &mut Service<PackedTable>) -> Result<(), Failure> {
    let requests = read_requests(rt, "tried")?;
    mark(rt);
    let ran = service.run(rt.alloc(), &requests);
    mark(rt);
    match ran {
        Ok(replies) => print_replies(rt, &replies),
        Err(fault) => print_line(rt, fault),
    }
}

/// Prints each reply.
fn print_replies(rt: &HostRuntime, replies: &[Reply]) -> Result<(), Failure> {
    for reply in replies {
        print_reply(rt, reply)?;
    }
    Ok(())
}
