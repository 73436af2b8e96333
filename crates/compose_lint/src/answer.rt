//! The answer of `lint` on the given tables.
ghost use Rattle.std.specs.Prelude.{◌≡◌, IfOk, string_bytes};
ghost use Rattle.compose_lint.specs.Answers as words;
ghost use Rattle.compose_lint.specs.Answers.{AnswersBy, AnswersLint, asked};

use crate::accepted::{accept_text, left_by};
use crate::asking::{LintFault, LintForm, LintInput};
use crate::json::json_answer;
use crate::report::rows_text;
use crate::row::{Row, linted_tables, rows_in};
use compose_answer::{Answer, Refusal};
use keysym_core::{NameFault, Names};
use std::alloc::{AllocError, Global};

/// Returns the findings in the tables that are not accepted, in the order of the tables: `No` with
/// a line for each, `PATH:LINE:COLUMN: KIND: SENTENCE`, or with JSON, or with the list that accepts
/// them; `Yes` if there are none. Takes the time of `find_findings` for each table, and O(bytes).
///
/// # Errors
/// `Names` if the header is refused. Otherwise `BadLine` if a line of the list of accepted findings
/// doesn't begin with the word of a kind, a colon and a blank. Otherwise `Stale` if a line of the
/// list accepts no finding of these tables. `NoMemory` if memory runs out.
pub fn lint_tables(alloc: Global, input: &LintInput<'_>) -> Result<Answer, LintFault>
    ensures { AnswersLint (asked input.entry.now) result }
{
    match Names::read(alloc, input.header) {
        Ok(names) => answer_by(alloc, &names, input),
        Err(NameFault::NoMemory) => Err(LintFault::Input(Refusal::NoMemory)),
        Err(fault) => Err(LintFault::Input(Refusal::Names(fault))),
    }
}

/// Returns the answer under these names.
fn answer_by(alloc: Global, names: &Names, input: &LintInput<'_>) -> Result<Answer, LintFault>
    ensures { AnswersBy (asked input.entry.now) names.now result }
{
    let (readers, is_all) = (input.readers, input.is_all);
    let tables = linted_tables(alloc, names, readers, is_all, input.tables)?;
    let rows = rows_in(alloc, &tables)?;
    answer_on(alloc, input, &rows)
}

/// Returns the answer on these findings.
fn answer_on(alloc: Global, input: &LintInput<'_>, rows: &[Row<'_>]) -> Result<Answer, LintFault>
    ensures { words.AnswersOn (asked input.entry.now) rows.now result }
{
    match left_by(alloc, input.accepted, rows) {
        Ok(left) => Ok(answer_of(alloc, input.form, rows, &left)?),
        Err(fault) => Err(LintFault::from(fault)),
    }
}

/// Returns the answer if `left` are the findings that are not accepted.
fn answer_of(
    alloc: Global,
    form: LintForm,
    rows: &[Row<'_>],
    left: &[Row<'_>],
) -> Result<Answer, AllocError>
    ensures { IfOk result (words.IsLintAnswer form rows.now left.now) }
{
    let text = form_text(alloc, form, rows, left)?;
    if left.is_empty() {
        return Ok(Answer::Yes(text));
    }
    Ok(Answer::No(text))
}

/// Returns the printed text if `left` are the findings that are not accepted.
fn form_text(
    alloc: Global,
    form: LintForm,
    rows: &[Row<'_>],
    left: &[Row<'_>],
) -> Result<String, AllocError>
    ensures { IfOk result (λ text. string_bytes text ≡ words.form_text form rows.now left.now) }
{
    match form {
        LintForm::Lines => rows_text(alloc, left),
        LintForm::Json => json_answer(alloc, rows, left),
        LintForm::AcceptList => accept_text(alloc, left),
    }
}
