//! Calls that are wrong on purpose: the scripts have to report each.
use crate::answering::{answer, answer_all};
use crate::failure::Failure;
use crate::input::{read_requests, start_service};
use crate::marks::mark;
use crate::output::{print_line, print_reply};
use compose_service::Service;
use compose_tree::PackedTable;
use std::mem;

/// Makes the wrong call that the argument names. `Err(Arguments)` if there is no such call; other
/// errors: see [`Failure`].
pub fn try_call(rt: &HostRuntime, call: &str) -> Result<(), Failure> {
    match call {
        "leak" => leak(rt),
        "leak-at-a-refusal" => leak_at_a_refusal(rt),
        "refusal-of-nothing" => refuse_nothing(rt),
        "change-before-a-refusal" => change_before_a_refusal(rt),
        _ => Err(Failure::Arguments),
    }
}

/// Takes a block, and never frees it.
fn leak(rt: &HostRuntime) -> Result<(), Failure> {
    mark(rt);
    let taken: Result<_, _> = Vec::from_slice(rt.alloc(), b"lost");
    mark(rt);
    match taken {
        Ok(block) => {
            mem::forget(block);
            print_line(rt, "yes")
        }
        Err(_) => print_line(rt, "NoMemory"),
    }
}

/// Takes two blocks, and leaks the first if the second is refused.
fn leak_at_a_refusal(rt: &HostRuntime) -> Result<(), Failure> {
    mark(rt);
    let first: Result<_, _> = Vec::from_slice(rt.alloc(), b"lost");
    let second: Result<_, _> = Vec::from_slice(rt.alloc(), b"refused");
    mark(rt);
    if second.is_ok() && first.is_ok() {
        return print_line(rt, "yes");
    }
    mem::forget(first);
    print_line(rt, "NoMemory")
}

/// Answers that memory ran out, even if it did not.
fn refuse_nothing(rt: &HostRuntime) -> Result<(), Failure> {
    mark(rt);
    let taken: Result<_, _> = Vec::from_slice(rt.alloc(), b"given");
    mark(rt);
    match taken {
        Ok(_) => print_line(rt, "NoMemory"),
        Err(_) => print_line(rt, "NoMemory"),
    }
}

/// Whether there is memory for a block, which is freed again.
fn has_room(rt: &HostRuntime) -> bool {
    let block: Result<_, _> = Vec::from_slice(rt.alloc(), b"block");
    block.is_ok()
}

/// Answers an Open of session 9 with NoMemory, although the session is open then.
fn change_before_a_refusal(rt: &HostRuntime) -> Result<(), Failure> {
    let mut service = start_service(rt)?;
    refuse_an_open(rt, &mut service)
}

/// Does the same with this service.
fn refuse_an_open(rt: &HostRuntime, service: &mut Service<PackedTable>) -> Result<(), Failure> {
    mark(rt);
    let has_room = has_room(rt);
    mark(rt);
    open_anyway(rt, service, has_room)?;
    answer_all(rt, service, "after")
}

/// Opens the session, but prints its reply only if there is room, and otherwise a refusal.
fn open_anyway(
    rt: &HostRuntime,
    service: &mut Service<PackedTable>,
    has_room: bool,
) -> Result<(), Failure> {
    for request in &read_requests(rt, "tried")? {
        let reply = answer(rt, service, request);
        if has_room {
            print_reply(rt, &reply)?;
        } else {
            print_line(rt, "ff00000009000000020009")?;
        }
    }
    Ok(())
}
