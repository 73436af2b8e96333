//! Rows as lines: one line for rows that fold together, and one for a source that is gone.
ghost use Rattle.std.specs.Prelude.{◌≡◌, ◌≤◌, ◌++◌, length, take, IfOk, OnOk, None, string_bytes};
ghost use Rattle.compose_diff.specs.Causes.{has_gone};
ghost use Rattle.compose_diff.specs.Members.{Key, view, members_at, group_in, after};
ghost use Rattle.compose_diff.specs.Folds as words;

use crate::cause::{Gone, gone_entry, gone_sources, push_cause};
use crate::groups::{Groups, common, fold_keys, group_rows, take_group};
use crate::line::{push_keys, push_places, push_quoted, push_row_line};
use crate::row::DiffRow;
use compose_compare::Change;
use std::alloc::{AllocError, Global};
use std::fmt::Write;

/// Returns a line for each row that is not kept, in order: what happens, the keys, the texts and
/// the places. O(bytes).
///
/// Errors: `AllocError` if memory runs out.
pub fn diff_text(alloc: Global, rows: &[DiffRow]) -> Result<String, AllocError>
    ensures { IfOk result (λ text. string_bytes text ≡ words.diff_lines rows.now) }
{
    let reported = reported(alloc, rows)?;
    let mut text = String::new(alloc);
    push_rows(alloc, &mut text, &reported)?;
    Ok(text)
}

/// Returns the lines of `left`, the rows that remain of `rows`. They are those of [`diff_text`],
/// but rows that belong together share a line, at the place of the first of them:
///
/// - Two or more removed rows share a line that names the source, if they are all rows that the old
///   table has in it.
/// - Otherwise rows that are all removed or all added, and that begin with the same two keys (or
///   the same one, if they have two), share a line: their number, the texts of the first three, and
///   the place of the first.
///
/// O(bytes of the rows): what rows have in common, and the number of rows of a source, is looked up
/// in hash maps.
///
/// Errors: `AllocError` if memory runs out.
pub fn folded_text(alloc: Global, rows: &[DiffRow], left: &[DiffRow]) -> Result<String, AllocError>
    ensures { IfOk result (λ text. string_bytes text ≡ words.folded_lines rows.now left.now) }
{
    let reported = reported(alloc, left)?;
    let gone = gone_sources(alloc, rows, &reported)?;
    let mut text = String::new(alloc);
    push_groups(alloc, &mut text, &gone, &reported)?;
    Ok(text)
}

/// Returns the rows that are not kept, in order.
fn reported<'r>(alloc: Global, rows: &[DiffRow<'r>]) -> Result<Vec<DiffRow<'r>>, AllocError>
    ensures { IfOk result (λ reported. reported.items ≡ words.reported rows.now) }
{
    let mut reported = Vec::new(alloc);
    for row in rows {
        if row.change != Change::Kept {
            reported.push(*row)?;
        }
    }
    Ok(reported)
}

/// Appends the line of each row to the text.
fn push_rows(alloc: Global, text: &mut String, rows: &[DiffRow]) -> Result<(), AllocError>
    ensures { OnOk result
        (string_bytes text.new ≡ string_bytes text.old ++ words.row_lines rows.now) }
{
    for row in rows {
        push_row_line(alloc, text, row)?;
    }
    Ok(())
}

/// Appends the lines of each group of rows to the text.
fn push_groups(
    alloc: Global,
    text: &mut String,
    gone: &Gone,
    shown: &[DiffRow],
) -> Result<(), AllocError>
    ensures { OnOk result
        (string_bytes text.new
        ≡ string_bytes text.old ++ words.groups_lines (has_gone gone.now) shown.now) }
{
    let mut groups = group_rows(alloc, gone, shown)?;
    for row in shown {
        push_group_of(alloc, text, gone, &mut groups, row)?;
    }
    Ok(())
}

/// Appends the lines of the group of a row to the text, and takes the group out; nothing if it was
/// taken out before.
fn push_group_of<'r>(
    alloc: Global,
    text: &mut String,
    gone: &Gone,
    groups: &mut Groups<'r>,
    row: &DiffRow<'r>,
) -> Result<(), AllocError>
    ensures lines { OnOk result
        (string_bytes text.new
        ≡ string_bytes text.old
        ++ words.group_lines (has_gone gone.now) (group_in (has_gone gone.now) groups.old row.now)) }
    ensures others { OnOk result
        ((other : Key)
        → members_at groups.new (view other)
        ≡ after (has_gone gone.now) row.now (view other) (members_at groups.old (view other))) }
{
    match common(gone, row) {
        Some(key) => push_group(alloc, text, gone, &take_group(alloc, groups, key)),
        None => push_row_line(alloc, text, row),
    }
}

/// Appends the line of a group to the text, or nothing if the group is empty.
fn push_group(
    alloc: Global,
    text: &mut String,
    gone: &Gone,
    rows: &[DiffRow],
) -> Result<(), AllocError>
    ensures { OnOk result
        (string_bytes text.new
        ≡ string_bytes text.old ++ words.group_lines (has_gone gone.now) rows.now) }
{
    let Some(first) = rows.first() else {
        return Ok(());
    };
    match gone_entry(gone, first) {
        Some(entry) => push_cause(text, &entry, rows.len()),
        None => push_lines(alloc, text, rows),
    }
}

/// Appends the line of a single row, or that of rows that fold together, to the text.
fn push_lines(alloc: Global, text: &mut String, rows: &[DiffRow]) -> Result<(), AllocError>
    ensures { OnOk result
        (string_bytes text.new ≡ string_bytes text.old ++ words.lines_by None rows.now) }
{
    if rows.len() < 2 {
        return push_rows(alloc, text, rows);
    }
    push_fold(alloc, text, rows)
}

/// Appends the one line of rows that fold together to the text.
fn push_fold(alloc: Global, text: &mut String, rows: &[DiffRow]) -> Result<(), AllocError>
    requires { 2 ≤ length rows.now }
    ensures { OnOk result
        (string_bytes text.new ≡ string_bytes text.old ++ words.fold_line rows.now) }
{
    let first = &rows[0];
    let count = rows.len();
    push_keys(text, first.change, fold_keys(first))?;
    write!(text, " .. {count} sequences")?;
    push_texts(alloc, text, first_three(rows))?;
    text.push_str(" ..")?;
    push_places(text, first)?;
    text.push_str("\n")
}

/// Returns the first three of the rows, or all if there are fewer.
fn first_three<'s, 'r>(rows: &'s [DiffRow<'r>]) -> &'s [DiffRow<'r>]
    ensures { result.now ≡ take 3 rows.now }
{
    if rows.len() < 3 {
        return rows;
    }
    &rows[..3]
}

/// Appends the texts of the rows to the text.
fn push_texts(alloc: Global, text: &mut String, rows: &[DiffRow]) -> Result<(), AllocError>
    ensures { OnOk result
        (string_bytes text.new ≡ string_bytes text.old ++ words.texts_part rows.now) }
{
    for row in rows {
        push_quoted(alloc, text, &row.old)?;
        push_quoted(alloc, text, &row.new)?;
    }
    Ok(())
}
