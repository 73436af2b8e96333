//! Reading a header of names, line by line.
ghost use Rattle.std.specs.Prelude.{◌≡◌, ◌+◌, ◌≤◌, length, Some, Ok};
ghost use Rattle.compose_text.specs.Lines.{lines_of};
ghost use Rattle.keysym_core.specs.Header.{with_name, with_noted, with_entry, with_text, with_line, with_lines, NamesReturns, ChangeReturns};

use crate::fault::NameFault;
use crate::form::form_value;
use crate::header::{HeaderEntry, entry_of};
use crate::keysym::Keysym;
use crate::table::NameTable;
use compose_text::first_line;
use std::str;

/// Returns the table with the definitions of a header added, or the fault of the first faulty line.
/// O(n) in the bytes.
pub(crate) fn with_lines(table: NameTable, header: &[u8]) -> Result<NameTable, NameFault>
    ensures { NamesReturns result (with_lines (Ok table) 1 (lines_of header.now)) }
{
    let mut grown = table;
    let mut rest = header;
    let mut line = 0;
    while let Some((bytes, others)) = first_line(rest) {
        line += 1;
        take_line(&mut grown, line, bytes)?;
        rest = others;
    }
    Ok(grown)
}

/// Adds the definition of a line to the table. Lines are counted from 1.
fn take_line(table: &mut NameTable, line: usize, bytes: &[u8]) -> Result<(), NameFault>
    ensures { ChangeReturns result table.new (with_line table.old line bytes.now) }
{
    match str::from_utf8(bytes) {
        Ok(_) => take_text(table, line, bytes),
        Err(_) => Err(NameFault::NotUtf8 { line }),
    }
}

/// Adds the definition in the text of a line to the table.
fn take_text(table: &mut NameTable, line: usize, bytes: &[u8]) -> Result<(), NameFault>
    ensures { ChangeReturns result table.new (with_text table.old line bytes.now) }
{
    match bytes.strip_prefix(b"#define XK_") {
        Some(definition) => match entry_of(definition) {
            Some(entry) => take_entry(table, line, &entry),
            None => Err(NameFault::BadLine { line }),
        },
        None => Ok(()),
    }
}

/// Adds a definition to the table.
fn take_entry(table: &mut NameTable, line: usize, entry: &HeaderEntry<'_>) -> Result<(), NameFault>
    ensures { ChangeReturns result table.new (with_entry table.old line (Some entry.now)) }
{
    let Some(keysym) = Keysym::new(entry.value) else {
        return Err(NameFault::ValueTooLarge { line });
    };
    take_name(table, line, entry.name, keysym)?;
    if let Some(character) = entry.character {
        table.give_character(keysym, character)?;
    }
    Ok(())
}

/// Adds a name and its keysym, unless the name looks up as another one, or there would be too many.
fn take_name(
    table: &mut NameTable,
    line: usize,
    name: &str,
    keysym: Keysym,
) -> Result<(), NameFault>
    ensures { ChangeReturns result table.new (with_name table.old line name.now keysym) }
{
    if let Some(known) = table.row_value(name) {
        if known != keysym {
            return Err(NameFault::NameConflict { line });
        }
        return Ok(());
    }
    if let Some(form) = form_value(name.as_bytes()) {
        if form != keysym {
            return Err(NameFault::NameConflict { line });
        }
    }
    if table.count() >= NameTable::MOST {
        return Err(NameFault::TooManyNames);
    }
    prove!(keysym.value() <= Keysym::GREATEST);
    table.add_name(name, keysym)?;
    Ok(())
}
