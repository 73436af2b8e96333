//! The lines for connections, and which of them are printed.
ghost use Rattle.std.specs.Prelude.{◌≡◌, ◌++◌, IfOk, string_bytes};
ghost use Rattle.compose_serving.specs.Connection as lines;

use compose_hub::ConnectionEnd;
use compose_serve::{ServeFault, StreamEnd};
use std::alloc::{AllocError, Global};

/// Returns what is printed at the end of the connection with this number, from 1: the number of
/// ends that could not be printed before, if there are any, and then how it ended. O(1).
///
/// Errors: `AllocError` if memory runs out.
pub fn end_text(
    alloc: Global,
    unprinted: u64,
    number: u32,
    how: ConnectionEnd,
) -> Result<String, AllocError>
    ensures { IfOk result
        (λ text. string_bytes text ≡ lines.unprinted_text unprinted ++ lines.connection_line number how) }
{
    let mut text = unprinted_text(alloc, unprinted)?;
    let words = end_words(how);
    let line = format!(in alloc; "connection {number}: {words}\n")?;
    text.push_str(&line)?;
    Ok(text)
}

/// Returns the number of ends of connections that could not be printed, as a line, or an empty text
/// if there are none. O(1).
///
/// Errors: `AllocError` if memory runs out.
pub fn unprinted_text(alloc: Global, unprinted: u64) -> Result<String, AllocError>
    ensures { IfOk result (λ text. string_bytes text ≡ lines.unprinted_text unprinted) }
{
    if unprinted == 0 {
        return Ok(String::new(alloc));
    }
    format!(in alloc; "ends not printed: {unprinted}\n")
}

/// Returns the number of ends that are not printed after one more end, whose text was printed or
/// not. O(1).
pub fn unprinted_after(unprinted: u64, is_printed: bool) -> u64
    ensures { result ≡ lines.unprinted_after unprinted is_printed }
{
    if is_printed {
        0
    } else {
        unprinted.saturating_add(1)
    }
}

/// Returns the words for how a connection ended; a fault has its number. A connection that stalled
/// in the middle of a load is reported as cut.
fn end_words(how: ConnectionEnd) -> &'static str
    ensures { result.now ≡ lines.end_words how }
{
    match how {
        ConnectionEnd::Served(Ok(StreamEnd::InputEnd)) => "ended",
        ConnectionEnd::Served(Ok(StreamEnd::Malformed)) => "malformed",
        ConnectionEnd::Served(Err(ServeFault::Read)) => "fault 1 Read",
        ConnectionEnd::Served(Err(ServeFault::Write)) => "fault 2 Write",
        ConnectionEnd::Served(Err(ServeFault::Cut)) => "fault 3 Cut",
        ConnectionEnd::Served(Err(ServeFault::TooManyFrames)) => "fault 4 TooManyFrames",
        ConnectionEnd::Served(Err(ServeFault::NoMemory)) => "fault 5 NoMemory",
        ConnectionEnd::Stalled => "fault 3 Cut",
        ConnectionEnd::Idle => "idle",
    }
}
