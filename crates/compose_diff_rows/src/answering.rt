//! The answer of `diff`: both tables are read, and what happens to their sequences is printed.
ghost use Rattle.std.specs.Prelude.{◌≡◌, ◌++◌, Bool, List, map, IfOk, IsTrue, string_bytes};
ghost use Rattle.std.specs.List.Sorted.{IsPermutation};
ghost use Rattle.compose_model.specs.Certificate.{keys_rise};
ghost use Rattle.compose_diff_rows.specs.Answers as answers;
ghost use Rattle.compose_diff_rows.specs.Answers.{AnswersDiff, asked, form_text};
ghost use Rattle.compose_diff_rows.specs.Rows as words;
ghost use Rattle.compose_diff_rows.specs.Steps.{ReturnsFresh, IsPlaced, IsRowsAnswer, AnswersCompared, AnswersForm, AnswersWhole, placed_parts};
ghost use Rattle.compose_diff_rows.specs.Taken as merges;
ghost use Rattle.compose_diff_rows.specs.declared.asking.Form.{Form};
ghost use Rattle.compose_diff.specs.Accepted.{Line};
ghost use Rattle.compose_diff.specs.Lost as lost;
ghost use Rattle.compose_diff.specs.Order.{AreInOrder};
ghost use Rattle.compose_diff.specs.declared.overlaps.Overlaps.{Overlaps};
ghost use Rattle.compose_diff.specs.declared.row.DiffRow.{DiffRow};

use crate::asking::{DiffFault, DiffInput, Form};
use crate::reported::{ReportedSequence, lost_texts, reported_of_new, reported_of_old};
use crate::rows::{add_kept_rows, reported_rows};
use crate::taken::count_taken;
use crate::written::WrittenTable;
use compose_answer::{Answer, Refusal};
use compose_compare::compare;
use compose_diff::{
    Accepted, DiffRow, Overlaps, Printed, accept_text, answer_diff, json_answer, loses_nothing,
    lost_rows, sort_rows,
};
use compose_fresh::check_fresh;
use compose_lookup::TextIndex;
use compose_migration::Migration;
use compose_page::page_text;
use compose_places::PlacedTable;
use compose_tree::{BuildTable, ComposeTable};
use keysym_core::{Keysym, Names};
use std::alloc::{AllocError, Global};

/// Returns what the new table does to each sequence of the old one, and what it adds. The answer is
/// yes if each change that is not accepted is harmless to everybody who types with the old table.
///
/// Costs as much as reading the tables with their places (`read_placed_table`), comparing them
/// (`compare`), and the printed rows: O(r log r + keys of these rows × log edges of a node) for r
/// rows.
///
/// Errors: `Input` with the first part that is refused, in the order names, key names, old table,
/// new table, fresh keysyms, or if memory runs out. `Accept` if a line of the list of intended
/// changes is not in the required form, or matches none of the rows.
pub fn diff_migration<T: BuildTable>(
    alloc: Global,
    input: &DiffInput<'_, '_>,
) -> Result<Answer, DiffFault>
    ensures { AnswersDiff (asked input.now) result }
{
    match Migration::<PlacedTable<'_, T>>::read(alloc, input.tables) {
        Ok(migration) => diff_tables(alloc, input, &migration),
        Err(refusal) => Err(DiffFault::Input(refusal)),
    }
}

/// Does the same, once both tables are read.
fn diff_tables<T: ComposeTable>(
    alloc: Global,
    input: &DiffInput<'_, '_>,
    migration: &Migration<PlacedTable<'_, T>>,
) -> Result<Answer, DiffFault>
    requires { IsPlaced T.definitions input.now migration.now }
    ensures { AnswersDiff (asked input.now) result }
{
    let fresh = fresh_keysyms(alloc, migration)?;
    let accepted = Accepted::read(alloc, input.accepted)?;
    answer_tables(alloc, input, migration, &fresh, &accepted)
}

/// Returns the fresh keysyms of a migration in rising order, each once, if the old table has none
/// of them.
fn fresh_keysyms<T: ComposeTable>(
    alloc: Global,
    migration: &Migration<PlacedTable<'_, T>>,
) -> Result<Vec<Keysym>, DiffFault>
    ensures { ReturnsFresh (placed_parts T.definitions migration.now) result }
{
    let mut fresh = Vec::from_slice(alloc, &migration.keys)?;
    fresh.sort()?;
    fresh.dedup();
    match check_fresh(&migration.old.table, &fresh) {
        Some(fault) => Err(DiffFault::Input(Refusal::Fresh(fault))),
        None => Ok(fresh),
    }
}

/// Returns the answer on two tables that were read.
fn answer_tables<T: ComposeTable>(
    alloc: Global,
    input: &DiffInput<'_, '_>,
    migration: &Migration<PlacedTable<'_, T>>,
    fresh: &[Keysym],
    accepted: &Accepted<'_>,
) -> Result<Answer, DiffFault>
    requires rise { IsTrue (keys_rise fresh.now) }
    requires placed { IsPlaced T.definitions input.now migration.now }
    ensures { AnswersCompared (asked input.now)
        (record { move = placed_parts T.definitions migration.now; fresh = fresh.now })
        accepted.now result }
{
    let names = &migration.names;
    let old = WrittenTable {
        table: &migration.old.table,
        lines: &migration.old.lines,
        paths: input.old_paths,
    };
    let new = WrittenTable {
        table: &migration.new.table,
        lines: &migration.new.lines,
        paths: input.new_paths,
    };
    // The contracts of these calls state that both are tables.
    let _ = old.table.node_count();
    let _ = new.table.node_count();
    let whole = reports_kept(input.form);
    let comparison = compare(alloc, old.table, new.table, names, fresh)?;
    let changes = comparison.old_changes();
    let lost = lost_texts(alloc, changes, &old)?;
    let index = TextIndex::of_texts(alloc, new.table, &lost)?;
    let of_old = reported_of_old(alloc, names, whole, changes, &old, &new, &index)?;
    let of_new = reported_of_new(alloc, comparison.new_changes(), &new)?;
    let mut rows = sorted_rows(alloc, names, &of_old, &of_new, &new)?;
    add_kept_rows(&mut rows, whole, changes, &old)?;
    let overlaps = Overlaps {
        old: migration.old.overlaps,
        new: migration.new.overlaps,
    };
    let added = count_taken(names, comparison.new_changes(), old.table, &new);
    let last = merge_line(alloc, input.form, old.table.leaf_count(), added)?;
    let (form, lost_alone) = (input.form, input.lost_alone);
    let answered = answer_rows(alloc, &rows, accepted, form, lost_alone, overlaps);
    with_last(answered, &last)
}

/// Returns the line about `merge`, if it is printed in this form: how many sequences of both tables
/// the merged one has.
fn merge_line(alloc: Global, form: Form, kept: u32, added: u32) -> Result<String, AllocError>
    ensures { IfOk result (λ line. string_bytes line ≡ merges.merge_line form kept added) }
{
    match form {
        Form::Folded => format!(in alloc;
            "merge: would keep {kept} of OLD's sequences and add {added} of NEW's\n"
        ),
        Form::Lines | Form::Json | Form::AcceptList | Form::Page { .. } => Ok(String::new(alloc)),
    }
}

/// Returns the answer with this last line, if people lose something by it.
fn with_last(answered: Result<Answer, DiffFault>, last: &str) -> Result<Answer, DiffFault>
    ensures { (form : Form) (lost_alone : Bool) (overlaps : Overlaps) (lines : List Line)
        (rows : List DiffRow) → AnswersForm form lost_alone overlaps lines rows answered
        → AnswersWhole form lost_alone overlaps last.now lines rows result }
{
    match answered {
        Ok(Answer::No(mut text)) => {
            text.push_str(last)?;
            Ok(Answer::No(text))
        }
        other => other,
    }
}

/// Returns whether kept sequences are reported too.
fn reports_kept(form: Form) -> bool
    ensures { result ≡ answers.reports_kept form }
{
    match form {
        Form::Json => true,
        Form::Folded | Form::Lines | Form::AcceptList | Form::Page { .. } => false,
    }
}

/// Returns the rows of these sequences of the old table, and of these sequences that only the new
/// table has, in the order in which they are printed.
fn sorted_rows<'a, T: ComposeTable>(
    alloc: Global,
    names: &Names,
    of_old: &'a [ReportedSequence<'a>],
    of_new: &'a [ReportedSequence<'a>],
    new: &WrittenTable<'a, T>,
) -> Result<Vec<DiffRow<'a>>, AllocError>
    ensures same { IfOk result
        (λ rows. IsPermutation
        (map (words.old_row names.now (words.written T.definitions new.now))
        (map words.reported_sequence of_old.now)
        ++ map words.new_row (map words.reported_sequence of_new.now))
        (map words.reported_row rows.items)) }
    ensures sorted { IfOk result (λ rows. AreInOrder rows.items) }
{
    let mut rows = reported_rows(alloc, names, of_old, of_new, new)?;
    sort_rows(&mut rows)?;
    Ok(rows)
}

/// Prints, in this form, the rows that are not accepted, or only those of lost texts.
fn answer_rows(
    alloc: Global,
    rows: &[DiffRow<'_>],
    accepted: &Accepted<'_>,
    form: Form,
    lost_alone: bool,
    overlaps: Overlaps,
) -> Result<Answer, DiffFault>
    ensures { AnswersForm form lost_alone overlaps accepted.now rows.now result }
{
    match form {
        Form::Folded => {
            let printed = Printed {
                folds: true,
                lost_alone,
            };
            Ok(answer_diff(alloc, rows, accepted, printed, overlaps)?)
        }
        Form::Lines => {
            let printed = Printed {
                folds: false,
                lost_alone,
            };
            Ok(answer_diff(alloc, rows, accepted, printed, overlaps)?)
        }
        Form::Json => {
            let left = accepted.leave_out(alloc, rows)?;
            let text = json_answer(alloc, rows, &left, lost_alone, overlaps)?;
            Ok(answer_on(&left, text))
        }
        Form::AcceptList => {
            let left = accepted.leave_out(alloc, rows)?;
            let shown = shown_rows(alloc, &left, lost_alone)?;
            Ok(answer_on(&left, accept_text(alloc, &shown)?))
        }
        Form::Page { markup, folds } => {
            let printed = Printed { folds, lost_alone };
            let left = accepted.leave_out(alloc, rows)?;
            let text = page_text(alloc, rows, &left, markup, printed, overlaps)?;
            Ok(answer_on(&left, text))
        }
    }
}

/// Returns all of the rows, or those of lost texts alone.
fn shown_rows<'r>(
    alloc: Global,
    rows: &[DiffRow<'r>],
    lost_alone: bool,
) -> Result<Vec<DiffRow<'r>>, AllocError>
    ensures { IfOk result (λ shown. shown.items ≡ lost.shown_rows lost_alone rows.now) }
{
    if lost_alone {
        return lost_rows(alloc, rows);
    }
    Vec::from_slice(alloc, rows)
}

/// Returns the answer on the rows that remain, which is printed as this text: yes if each of them
/// is harmless.
fn answer_on(rows: &[DiffRow<'_>], text: String) -> Answer
    ensures { (form : Form) (lost_alone : Bool) (overlaps : Overlaps) (all : List DiffRow)
        → string_bytes text ≡ form_text form lost_alone overlaps all rows.now
        → IsRowsAnswer form lost_alone overlaps all rows.now result }
{
    if loses_nothing(rows) {
        return Answer::Yes(text);
    }
    Answer::No(text)
}
