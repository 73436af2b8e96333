//! A row of a table: a sequence and what happens to it.
ghost use Rattle.std.specs.Prelude.{◌≡◌, ◌++◌, OnOk, string_bytes};
ghost use Rattle.compose_page.specs.Cells as words;

use crate::keys::{push_keys, push_new_keys, push_old_keys};
use crate::markup::{Markup, push_escaped, push_numbers};
use compose_compare::Change;
use compose_diff::{DiffRow, NewSequence, TextPlace, is_loss};
use std::alloc::AllocError;
use std::fmt::Write;

/// Appends the row of a sequence to the text.
pub(crate) fn push_row(text: &mut String, markup: Markup, row: &DiffRow) -> Result<(), AllocError>
    ensures { OnOk result
        (string_bytes text.new ≡ string_bytes text.old ++ words.row_text markup row.now) }
{
    text.push_str(row_begin(markup))?;
    push_text_cells(text, markup, row)?;
    push_keys_cells(text, markup, row)?;
    push_happens_cell(text, markup, row)?;
    push_places_cell(text, markup, row)?;
    text.push_str(row_end(markup))
}

/// Returns the beginning of a row.
fn row_begin(markup: Markup) -> &'static str
    ensures { result.now ≡ words.row_begin markup }
{
    match markup {
        Markup::Markdown => "",
        Markup::Html => "<tr>",
    }
}

/// Returns the end of a row.
fn row_end(markup: Markup) -> &'static str
    ensures { result.now ≡ words.row_end markup }
{
    match markup {
        Markup::Markdown => "|\n",
        Markup::Html => "</tr>\n",
    }
}

/// Returns the beginning of a cell.
fn cell_begin(markup: Markup) -> &'static str
    ensures { result.now ≡ words.cell_begin markup }
{
    match markup {
        Markup::Markdown => "|",
        Markup::Html => "<td>",
    }
}

/// Returns the end of a cell.
fn cell_end(markup: Markup) -> &'static str
    ensures { result.now ≡ words.cell_end markup }
{
    match markup {
        Markup::Markdown => " ",
        Markup::Html => "</td>",
    }
}

/// Appends the cells for the old text of a sequence, or else for its new one, to the text.
fn push_text_cells(text: &mut String, markup: Markup, row: &DiffRow) -> Result<(), AllocError>
    ensures { OnOk result
        (string_bytes text.new ≡ string_bytes text.old ++ words.text_cells markup row.now) }
{
    let shown = shown_text(row);
    text.push_str(cell_begin(markup))?;
    push_bold(text, markup, shown)?;
    text.push_str(cell_end(markup))?;
    text.push_str(cell_begin(markup))?;
    push_numbers(text, shown)?;
    text.push_str(cell_end(markup))
}

/// Returns the text that the old table has for a sequence, or else that of the new one.
fn shown_text<'r>(row: &DiffRow<'r>) -> &'r str
    ensures { result.now ≡ words.shown_text row.now }
{
    match (row.old, row.new) {
        (Some(entry), _) | (None, Some(entry)) => entry.text,
        (None, None) => "",
    }
}

/// Appends a text of a table, after a blank, to the text.
fn push_bold(text: &mut String, markup: Markup, inside: &str) -> Result<(), AllocError>
    ensures { OnOk result
        (string_bytes text.new ≡ string_bytes text.old ++ words.bold_part markup inside.now) }
{
    text.push_str(" <b>")?;
    push_escaped(text, markup, inside)?;
    text.push_str("</b>")
}

/// Appends the cell for the keys of a sequence to the text, or two: one for its keys, and one for
/// those of the sequence that gives its text now.
fn push_keys_cells(text: &mut String, markup: Markup, row: &DiffRow) -> Result<(), AllocError>
    ensures { OnOk result
        (string_bytes text.new ≡ string_bytes text.old ++ words.keys_cells markup row.now) }
{
    match now_typed(row) {
        Some(new) => push_both_keys(text, markup, row.keys, new.keys),
        None => {
            text.push_str(cell_begin(markup))?;
            push_keys(text, markup, row.keys)?;
            text.push_str(cell_end(markup))
        }
    }
}

/// Returns the sequence that gives the text of this sequence now, if people lose this one.
fn now_typed<'r>(row: &DiffRow<'r>) -> Option<NewSequence<'r>>
    ensures { result ≡ words.now_typed row.now }
{
    if is_loss(row.change) {
        return row.typing;
    }
    None
}

/// Appends the cells for the keys of the old and of the new sequence of a text to the text.
fn push_both_keys(
    text: &mut String,
    markup: Markup,
    old: &[&str],
    new: &[&str],
) -> Result<(), AllocError>
    ensures { OnOk result
        (string_bytes text.new
        ≡ string_bytes text.old
        ++ words.both_keys markup old.now new.now) }
{
    text.push_str(cell_begin(markup))?;
    push_old_keys(text, markup, old, new)?;
    text.push_str(cell_end(markup))?;
    text.push_str(cell_begin(markup))?;
    push_new_keys(text, markup, old, new)?;
    text.push_str(cell_end(markup))
}

/// Appends the cell for what happens to a sequence to the text, if people lose it.
fn push_happens_cell(text: &mut String, markup: Markup, row: &DiffRow) -> Result<(), AllocError>
    ensures { OnOk result
        (string_bytes text.new ≡ string_bytes text.old ++ words.happens_cell markup row.now) }
{
    if !is_loss(row.change) {
        return Ok(());
    }
    text.push_str(cell_begin(markup))?;
    push_happens(text, markup, row)?;
    text.push_str(cell_end(markup))
}

/// Appends what happens to a sequence that people lose to the text.
fn push_happens(text: &mut String, markup: Markup, row: &DiffRow) -> Result<(), AllocError>
    ensures { OnOk result
        (string_bytes text.new ≡ string_bytes text.old ++ words.happens markup row.now) }
{
    match row.change {
        Change::Changed => push_new_text(text, markup, &row.new),
        Change::Waiting => push_longer(text, markup, &row.longer),
        Change::Removed => text.push_str(" removed"),
        Change::Kept | Change::Added | Change::NewStart => Ok(()),
    }
}

/// Appends the text that the new table has for a sequence to the text.
fn push_new_text(
    text: &mut String,
    markup: Markup,
    entry: &Option<TextPlace>,
) -> Result<(), AllocError>
    ensures { OnOk result
        (string_bytes text.new ≡ string_bytes text.old ++ words.changed_to markup entry.now) }
{
    text.push_str(" changed to")?;
    push_entry_text(text, markup, entry)
}

/// Appends the text that a table has, if it has one, and the numbers of its characters to the text.
fn push_entry_text(
    text: &mut String,
    markup: Markup,
    entry: &Option<TextPlace>,
) -> Result<(), AllocError>
    ensures { OnOk result
        (string_bytes text.new ≡ string_bytes text.old ++ words.entry_text markup entry.now) }
{
    let Some(entry) = entry else {
        return Ok(());
    };
    push_bold(text, markup, entry.text)?;
    push_numbers(text, entry.text)
}

/// Appends the longer sequence for which a waiting one waits to the text.
fn push_longer(
    text: &mut String,
    markup: Markup,
    longer: &Option<NewSequence>,
) -> Result<(), AllocError>
    ensures { OnOk result
        (string_bytes text.new ≡ string_bytes text.old ++ words.waiting_for markup longer.now) }
{
    text.push_str(" waiting for")?;
    push_sequence_keys(text, markup, longer)
}

/// Appends the keys of a sequence, if there is one, to the text.
fn push_sequence_keys(
    text: &mut String,
    markup: Markup,
    sequence: &Option<NewSequence>,
) -> Result<(), AllocError>
    ensures { OnOk result
        (string_bytes text.new ≡ string_bytes text.old ++ words.sequence_keys markup sequence.now) }
{
    match sequence {
        Some(sequence) => push_keys(text, markup, sequence.keys),
        None => Ok(()),
    }
}

/// Appends the cell for the places of a sequence, of the longer one, and of the one that gives its
/// text now, to the text.
fn push_places_cell(text: &mut String, markup: Markup, row: &DiffRow) -> Result<(), AllocError>
    ensures { OnOk result
        (string_bytes text.new ≡ string_bytes text.old ++ words.places_cell markup row.now) }
{
    text.push_str(cell_begin(markup))?;
    push_entry_place(text, markup, &row.old)?;
    push_entry_place(text, markup, &row.new)?;
    push_sequence_place(text, markup, &row.longer)?;
    push_sequence_place(text, markup, &row.typing)?;
    text.push_str(cell_end(markup))
}

/// Appends the place of the definition that a table has for a sequence, if it has one, to the text.
fn push_entry_place(
    text: &mut String,
    markup: Markup,
    entry: &Option<TextPlace>,
) -> Result<(), AllocError>
    ensures { OnOk result
        (string_bytes text.new ≡ string_bytes text.old ++ words.entry_place markup entry.now) }
{
    match entry {
        Some(entry) => push_place(text, markup, entry.path, entry.line),
        None => Ok(()),
    }
}

/// Appends the place of a sequence of the new table, if there is one, to the text.
fn push_sequence_place(
    text: &mut String,
    markup: Markup,
    sequence: &Option<NewSequence>,
) -> Result<(), AllocError>
    ensures { OnOk result
        (string_bytes text.new ≡ string_bytes text.old ++ words.sequence_place markup sequence.now) }
{
    match sequence {
        Some(sequence) => push_place(text, markup, sequence.path, sequence.line),
        None => Ok(()),
    }
}

/// Appends a path and a line in it, after a blank, to the text.
fn push_place(text: &mut String, markup: Markup, path: &str, line: usize) -> Result<(), AllocError>
    ensures { OnOk result
        (string_bytes text.new ≡ string_bytes text.old ++ words.place_part markup path.now line) }
{
    text.push_str(" ")?;
    push_escaped(text, markup, path)?;
    write!(text, ":{line}")?;
    Ok(())
}
