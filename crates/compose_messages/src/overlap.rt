//! The message for an overlap of two sequences.
ghost use Rattle.std.specs.Prelude.{◌≡◌, ◌++◌, string_bytes, IfOk, OnOk};
ghost use Rattle.keysym_core.specs.Printed.{printed};
ghost use Rattle.compose_messages.specs.Overlaps as overlaps;

use keysym_core::{Keysym, Names};
use std::alloc::{AllocError, Global};

/// Returns the message that one sequence is a prefix of the other, each with the names of its
/// keysyms. `Err(AllocError)` if memory runs out. O(keysyms).
pub fn overlap_words(
    alloc: Global,
    names: &Names,
    short: &[Keysym],
    long: &[Keysym],
) -> Result<String, AllocError>
    ensures { IfOk result
        (λ text. string_bytes text ≡ overlaps.overlap_message names.now short.now long.now) }
{
    let mut text = String::from_str(alloc, "the sequence")?;
    push_events(alloc, &mut text, names, short)?;
    text.push_str(" is a prefix of the sequence")?;
    push_events(alloc, &mut text, names, long)?;
    Ok(text)
}

/// Appends the keysyms as events of a table, each after a blank. `Err(AllocError)` if memory runs
/// out. O(keysyms).
pub fn push_events(
    alloc: Global,
    text: &mut String,
    names: &Names,
    sequence: &[Keysym],
) -> Result<(), AllocError>
    ensures { OnOk result
        (string_bytes text.new ≡ string_bytes text.old ++ overlaps.events names.now sequence.now) }
{
    for keysym in sequence {
        push_event(alloc, text, names, *keysym)?;
    }
    Ok(())
}

/// Appends a blank, and a keysym as an event of a table.
fn push_event(
    alloc: Global,
    text: &mut String,
    names: &Names,
    keysym: Keysym,
) -> Result<(), AllocError>
    ensures { OnOk result
        (string_bytes text.new ≡ string_bytes text.old ++ overlaps.event names.now keysym) }
{
    text.push_str(" <")?;
    push_name(alloc, text, names, keysym)?;
    text.push('>')
}

/// Appends the name of a keysym.
fn push_name(
    alloc: Global,
    text: &mut String,
    names: &Names,
    keysym: Keysym,
) -> Result<(), AllocError>
    ensures { OnOk result
        (string_bytes text.new ≡ string_bytes text.old ++ printed names.now keysym) }
{
    match names.print(alloc, keysym) {
        Ok(name) => text.push_str(name.as_str()),
        Err(_) => Err(AllocError),
    }
}
