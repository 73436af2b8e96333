//! The line of a row.
ghost use Rattle.std.specs.Prelude.{◌≡◌, ◌++◌, map, OnOk, string_bytes};
ghost use Rattle.compose_diff.specs.Line as words;

use crate::row::{DiffRow, NewSequence, TextPlace};
use compose_compare::Change;
use compose_lex::quote;
use compose_shown::Shown;
use std::alloc::{AllocError, Global};
use std::fmt::Write;

/// Returns the word for what happens to a sequence.
pub(crate) fn change_word(change: Change) -> &'static str
    ensures { result.now ≡ words.change_word change }
{
    match change {
        Change::Kept => "kept",
        Change::Changed => "changed",
        Change::Waiting => "waiting",
        Change::Removed => "removed",
        Change::Added => "added",
        Change::NewStart => "new start",
    }
}

/// Appends the word for what happens, and the keys, to the text.
pub(crate) fn push_keys(text: &mut String, change: Change, keys: &[&str]) -> Result<(), AllocError>
    ensures { OnOk result
        (string_bytes text.new
        ≡ string_bytes text.old ++ words.keys_text change (map (λ key. key.now) keys.now)) }
{
    text.push_str(change_word(change))?;
    text.push_str(":")?;
    push_key_names(text, keys)
}

/// Appends each key in brackets, after a blank, to the text.
fn push_key_names(text: &mut String, keys: &[&str]) -> Result<(), AllocError>
    ensures { OnOk result
        (string_bytes text.new
        ≡ string_bytes text.old ++ words.keys_part (map (λ key. key.now) keys.now)) }
{
    for key in keys {
        let shown = Shown(key);
        write!(text, " <{shown}>")?;
    }
    Ok(())
}

/// Appends the text of a sequence in quotes, if a table has it, to the text.
pub(crate) fn push_quoted(
    alloc: Global,
    text: &mut String,
    entry: &Option<TextPlace>,
) -> Result<(), AllocError>
    ensures { OnOk result
        (string_bytes text.new ≡ string_bytes text.old ++ words.text_part entry.now) }
{
    let Some(entry) = entry else {
        return Ok(());
    };
    let Ok(quoted) = quote(alloc, entry.text) else {
        return Err(AllocError);
    };
    let shown = Shown(&quoted);
    write!(text, " {shown}")?;
    Ok(())
}

/// Appends the place of a definition, if a table has it, to the text.
pub(crate) fn push_place(text: &mut String, entry: &Option<TextPlace>) -> Result<(), AllocError>
    ensures { OnOk result
        (string_bytes text.new ≡ string_bytes text.old ++ words.place_part entry.now) }
{
    let Some(entry) = entry else {
        return Ok(());
    };
    push_path(text, entry.path, entry.line)
}

/// Appends a path and a line in it, after a blank, to the text.
fn push_path(text: &mut String, path: &str, line: usize) -> Result<(), AllocError>
    ensures { OnOk result
        (string_bytes text.new ≡ string_bytes text.old ++ words.path_part path.now line) }
{
    let path = Shown(path);
    write!(text, " {path}:{line}")?;
    Ok(())
}

/// Appends what happens, the keys and the texts, without places, to the text.
pub(crate) fn push_row_text(
    alloc: Global,
    text: &mut String,
    row: &DiffRow,
) -> Result<(), AllocError>
    ensures { OnOk result
        (string_bytes text.new ≡ string_bytes text.old ++ words.row_text row.now) }
{
    push_keys(text, row.change, row.keys)?;
    push_quoted(alloc, text, &row.old)?;
    push_quoted(alloc, text, &row.new)
}

/// Appends both places to the text.
pub(crate) fn push_places(text: &mut String, row: &DiffRow) -> Result<(), AllocError>
    ensures { OnOk result
        (string_bytes text.new ≡ string_bytes text.old ++ words.places_text row.now) }
{
    push_place(text, &row.old)?;
    push_place(text, &row.new)
}

/// Appends the keys of a sequence of the new table, and its place, to the text.
fn push_sequence(text: &mut String, sequence: &NewSequence) -> Result<(), AllocError>
    ensures { OnOk result
        (string_bytes text.new ≡ string_bytes text.old ++ words.sequence_part sequence.now) }
{
    push_key_names(text, sequence.keys)?;
    push_path(text, sequence.path, sequence.line)
}

/// Appends the longer sequence for which a waiting one waits, if there is one, to the text.
fn push_longer(text: &mut String, longer: &Option<NewSequence>) -> Result<(), AllocError>
    ensures { OnOk result
        (string_bytes text.new ≡ string_bytes text.old ++ words.longer_part longer.now) }
{
    match longer {
        Some(sequence) => {
            text.push_str(" longer:")?;
            push_sequence(text, sequence)
        }
        None => Ok(()),
    }
}

/// Returns whether people lose the sequence to which this happens. Its line then shows how its text
/// is typed now.
pub fn is_loss(change: Change) -> bool
    ensures { result ≡ words.is_loss change }
{
    matches!(change, Change::Changed | Change::Waiting | Change::Removed)
}

/// Appends to the text how the old text of a sequence to which this happens is typed now, or that
/// it can't be typed.
fn push_typing(
    text: &mut String,
    change: Change,
    typing: &Option<NewSequence>,
) -> Result<(), AllocError>
    ensures { OnOk result
        (string_bytes text.new ≡ string_bytes text.old ++ words.now_part change typing.now) }
{
    if !is_loss(change) {
        return Ok(());
    }
    text.push_str(" now:")?;
    match typing {
        Some(sequence) => push_sequence(text, sequence),
        None => text.push_str(" none"),
    }
}

/// Appends both places, the longer sequence, and how the old text is typed now to the text.
fn push_row_end(text: &mut String, row: &DiffRow) -> Result<(), AllocError>
    ensures { OnOk result
        (string_bytes text.new ≡ string_bytes text.old ++ words.row_end row.now) }
{
    push_places(text, row)?;
    push_longer(text, &row.longer)?;
    push_typing(text, row.change, &row.typing)
}

/// Appends the whole line to the text.
pub(crate) fn push_row_line(
    alloc: Global,
    text: &mut String,
    row: &DiffRow,
) -> Result<(), AllocError>
    ensures { OnOk result
        (string_bytes text.new ≡ string_bytes text.old ++ words.row_line row.now) }
{
    push_row_text(alloc, text, row)?;
    push_row_end(text, row)?;
    text.push_str("\n")
}
