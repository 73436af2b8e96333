//! The output of a trial.
use crate::failure::Failure;
use compose_wire::{Reply, put_reply};
use std::fmt::Display;

/// Prints a line. `Err(System)` if the output fails.
pub fn print_line<D: Display + Drop>(rt: &HostRuntime, line: D) -> Result<(), Failure> {
    match println!(rt; "{line}") {
        Ok(()) => Ok(()),
        Err(_) => Err(Failure::System),
    }
}

/// Returns the bytes in hexadecimal.
fn hexadecimal(rt: &HostRuntime, bytes: &[u8]) -> Result<String, Failure> {
    match hex::encode(rt.alloc(), bytes) {
        Ok(text) => Ok(text),
        Err(_) => Err(Failure::NoMemory),
    }
}

/// Prints bytes in hexadecimal. `Err(System)` if the output fails, `Err(NoMemory)` if memory runs
/// out.
pub fn print_bytes(rt: &HostRuntime, bytes: &[u8]) -> Result<(), Failure> {
    let text = hexadecimal(rt, bytes)?;
    print_line(rt, text.as_str())
}

/// Prints the frame of a reply in hexadecimal. `Err(System)` if the output fails, `Err(NoMemory)`
/// if memory runs out.
pub fn print_reply(rt: &HostRuntime, reply: &Reply) -> Result<(), Failure> {
    let frame = put_reply(reply);
    print_bytes(rt, frame.as_slice())
}
