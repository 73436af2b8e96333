//! The notes of `diff` on lines that other readers skip.
ghost use Rattle.std.specs.Prelude.{◌≡◌, ◌++◌, IfOk, OnOk, string_bytes};
ghost use Rattle.compose_runs.specs.Losing as words;

use compose_input::TableFiles;
use compose_lint::lost_count;
use compose_shown::Shown;
use std::alloc::{AllocError, Global};
use std::fmt::Write;

/// Returns a note on each of two tables with lines that libX11 or libxkbcommon skips, though they
/// are read here; an empty string if there are none. Names are not looked up, so the notes are the
/// same whether or not the header of names is valid. O(bytes).
///
/// `Err` if memory runs out.
pub(crate) fn lost_notes(
    alloc: Global,
    old: &TableFiles,
    new: &TableFiles,
) -> Result<String, AllocError>
    ensures { IfOk result
        (λ notes. string_bytes notes ≡ words.lost_notes old.now new.now) }
{
    let mut notes = String::new(alloc);
    push_note(alloc, &mut notes, old)?;
    push_note(alloc, &mut notes, new)?;
    Ok(notes)
}

/// Adds the note on a table, if it has such lines.
fn push_note(alloc: Global, notes: &mut String, table: &TableFiles) -> Result<(), AllocError>
    ensures { OnOk result
        (string_bytes notes.new ≡ string_bytes notes.old ++ words.lost_note table.now) }
{
    let count = lost_count(alloc, &table.sources)?;
    push_count(notes, &table.path, count)
}

/// Adds the note on the table at this path, with the number of its lines that are skipped; adds
/// nothing if the number is 0.
fn push_count(notes: &mut String, path: &str, count: usize) -> Result<(), AllocError>
    ensures { OnOk result
        (string_bytes notes.new ≡ string_bytes notes.old ++ words.count_note path.now count) }
{
    if count == 0 {
        return Ok(());
    }
    let path = Shown(path);
    writeln!(
        notes,
        "note: libX11 or libxkbcommon loses lines of {path} or of its includes, {count} in all: `composecheck lint` tells which"
    )?;
    Ok(())
}
