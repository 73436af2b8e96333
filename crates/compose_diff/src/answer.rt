//! The whole answer of `diff`.
ghost use Rattle.std.specs.Prelude.{◌≡◌, ◌++◌, IfOk, OnOk, string_bytes};
ghost use Rattle.compose_diff.specs.Counts.{counts_line};
ghost use Rattle.compose_diff.specs.Overlaps.{overlaps_line};
ghost use Rattle.compose_diff.specs.Reported as words;
ghost use Rattle.compose_diff.specs.Lost.{shown_rows};
ghost use Rattle.compose_diff.specs.Reported.{AnswersRows};

use crate::accepted::{AcceptFault, Accepted};
use crate::counts::{Counts, loses_nothing};
use crate::fold::{diff_text, folded_text};
use crate::lost::lost_rows;
use crate::overlaps::{Overlaps, push_overlaps};
use crate::row::DiffRow;
use compose_answer::Answer;
use std::alloc::{AllocError, Global};
use std::fmt::Write;

/// How rows are printed.
#[derive(Clone, Copy, Debug)]
pub struct Printed {
    /// Whether rows that belong together share a line.
    pub folds: bool,
    /// Whether only the rows are printed whose old text no sequence of the new table gives.
    pub lost_alone: bool,
}

/// Returns the answer of `diff` for rows in order: the lines of the rows that are neither kept nor
/// accepted, the line of the overlaps, and the line of the counts. Rows that belong together share
/// a line, and only rows of lost texts are printed, if that is asked for. The answer is yes if each
/// row that is not accepted is harmless. O(bytes + rows × log rows) if the accepted lines are in
/// the order of the rows.
///
/// Errors: `Stale` with the first accepted line that matches no row, or `NoMemory` if memory runs
/// out.
pub fn answer_diff(
    alloc: Global,
    rows: &[DiffRow],
    accepted: &Accepted,
    printed: Printed,
    overlaps: Overlaps,
) -> Result<Answer, AcceptFault>
    ensures { AnswersRows printed overlaps accepted.now rows.now result }
{
    if accepted.is_empty() {
        return Ok(answer_on(alloc, rows, rows, printed, overlaps)?);
    }
    let left = accepted.leave_out(alloc, rows)?;
    Ok(answer_on(alloc, rows, &left, printed, overlaps)?)
}

/// Returns the answer on `left`, those of all rows that are not accepted.
fn answer_on(
    alloc: Global,
    rows: &[DiffRow],
    left: &[DiffRow],
    printed: Printed,
    overlaps: Overlaps,
) -> Result<Answer, AllocError>
    ensures { IfOk result (λ answer. words.IsAnswer printed overlaps rows.now left.now answer) }
{
    let text = answer_text(alloc, rows, left, printed, overlaps)?;
    if loses_nothing(left) {
        return Ok(Answer::Yes(text));
    }
    Ok(Answer::No(text))
}

/// Returns the lines of the rows that are printed, of the overlaps, and of the counts.
fn answer_text(
    alloc: Global,
    rows: &[DiffRow],
    left: &[DiffRow],
    printed: Printed,
    overlaps: Overlaps,
) -> Result<String, AllocError>
    ensures { IfOk result
        (λ text. string_bytes text ≡ words.answer_text printed overlaps rows.now left.now) }
{
    let counts = Counts::of(alloc, left, rows.len().saturating_sub(left.len()))?;
    let mut text = shown_text(alloc, rows, left, printed)?;
    push_counts(&mut text, &counts, overlaps)?;
    Ok(text)
}

/// Appends the line of the overlaps and that of the counts to the text.
fn push_counts(text: &mut String, counts: &Counts, overlaps: Overlaps) -> Result<(), AllocError>
    ensures { OnOk result
        (string_bytes text.new
        ≡ string_bytes text.old ++ (overlaps_line overlaps ++ counts_line counts.now)) }
{
    push_overlaps(text, overlaps)?;
    write!(text, "{counts}")?;
    Ok(())
}

/// Returns the lines of the rows that are printed.
fn shown_text(
    alloc: Global,
    rows: &[DiffRow],
    left: &[DiffRow],
    printed: Printed,
) -> Result<String, AllocError>
    ensures { IfOk result
        (λ text. string_bytes text
        ≡ words.lines_text printed.folds rows.now (shown_rows printed.lost_alone left.now)) }
{
    if printed.lost_alone {
        let lost = lost_rows(alloc, left)?;
        return lines_text(alloc, rows, &lost, printed.folds);
    }
    lines_text(alloc, rows, left, printed.folds)
}

/// Returns the lines of `shown`, which are some of all rows.
fn lines_text(
    alloc: Global,
    rows: &[DiffRow],
    shown: &[DiffRow],
    folds: bool,
) -> Result<String, AllocError>
    ensures { IfOk result (λ text. string_bytes text ≡ words.lines_text folds rows.now shown.now) }
{
    if folds {
        return folded_text(alloc, rows, shown);
    }
    diff_text(alloc, shown)
}
