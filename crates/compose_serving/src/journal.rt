//! The lines about the table in use of a service that keeps it.
ghost use Rattle.std.specs.Prelude.{◌≡◌, IfOk, string_bytes};
ghost use Rattle.compose_serving.specs.Journal as lines;

use compose_shown::Shown;
use std::alloc::{AllocError, Global};

/// What became of a load.
#[derive(Clone, Copy)]
pub enum LoadEnd<'a> {
    /// Its table is stored and in use.
    Taken {
        /// The number of its sequences.
        sequences: u32,
        /// The number of sequences of the table before it.
        before: u32,
        /// The file that the table came from.
        origin: &'a str,
    },
    /// Nothing changed, for this reason.
    Refused {
        /// The reason, in words.
        reason: &'a str,
    },
}

/// Returns the line for a load. O(bytes).
///
/// Errors: `AllocError` if memory runs out.
pub fn load_text(alloc: Global, end: LoadEnd<'_>) -> Result<String, AllocError>
    ensures { IfOk result (λ text. string_bytes text ≡ lines.load_text end.entry) }
{
    match end {
        LoadEnd::Taken {
            sequences,
            before,
            origin,
        } => taken_text(alloc, sequences, before, origin),
        LoadEnd::Refused { reason } => format!(in alloc; "load refused: {reason}\n"),
    }
}

/// Returns the line for a load whose table is stored and in use.
fn taken_text(
    alloc: Global,
    sequences: u32,
    before: u32,
    origin: &str,
) -> Result<String, AllocError>
    ensures { IfOk result
        (λ text. string_bytes text ≡ lines.taken_text sequences before origin.now) }
{
    format!(in alloc;
        "loaded: {sequences} sequences, {before} before; from {origin}\n",
        origin = Shown(origin)
    )
}

/// Returns the line for the table with which a service begins, and the file that it came from.
/// O(bytes).
///
/// Errors: `AllocError` if memory runs out.
pub fn table_text(alloc: Global, sequences: u32, origin: &str) -> Result<String, AllocError>
    ensures { IfOk result (λ text. string_bytes text ≡ lines.table_text sequences origin.now) }
{
    format!(in alloc;
        "table: {sequences} sequences, from {origin}\n",
        origin = Shown(origin)
    )
}

/// Returns the line for a table that the owner chose and the service takes, with the number of
/// sessions that are closed. O(1).
///
/// Errors: `AllocError` if memory runs out.
pub fn chosen_text(alloc: Global, sessions: usize) -> Result<String, AllocError>
    ensures { IfOk result (λ text. string_bytes text ≡ lines.chosen_text sessions) }
{
    format!(in alloc; "next: taken, sessions closed: {sessions}\n")
}
