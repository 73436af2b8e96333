//! The number of rows for each change.
ghost use Rattle.std.specs.Prelude.{◌≡◌, Some, IfOk};
ghost use Rattle.compose_diff.specs.Counts as words;
ghost use Rattle.compose_diff.specs.Counts.{counts_line};

use crate::lost::count_lost_texts;
use crate::row::DiffRow;
use compose_compare::Change;
use std::alloc::{AllocError, Global};
use std::fmt;

/// The number of rows for each change, printed as
///
/// ```text
/// diff: 52 kept, 3 changed, 0 waiting, 29 removed, 0 new starts, 1 added, 2 accepted; 4 texts lost
/// ```
///
/// and a newline.
#[derive(Clone, Copy, Debug, PartialEq, Eq, Drop)]
pub struct Counts {
    /// The number of sequences that give the same text.
    pub kept: usize,
    /// The number of sequences that give another text.
    pub changed: usize,
    /// The number of sequences that now only begin a longer one.
    pub waiting: usize,
    /// The number of sequences that the new table no longer has.
    pub removed: usize,
    /// The number of new sequences whose first key started no sequence before.
    pub new_starts: usize,
    /// The number of all other new sequences.
    pub added: usize,
    /// The number of accepted rows, which are in none of the other counts.
    pub accepted: usize,
    /// The number of texts, each counted once, that the old table gives for a row that is not
    /// accepted, and that no sequence of the new table gives.
    pub lost_texts: usize,
}

impl Counts {
    /// Counts the rows, which are those that are not accepted; `accepted` is the number of the
    /// accepted ones. O(rows × log rows).
    ///
    /// Errors: `AllocError` if memory runs out.
    pub fn of(alloc: Global, rows: &[DiffRow], accepted: usize) -> Result<Counts, AllocError>
        ensures { IfOk result (λ counts. counts ≡ words.counts_of rows.now accepted) }
    {
        let lost_texts = count_lost_texts(alloc, rows)?;
        Ok(Counts {
            kept: count_of(rows, Change::Kept),
            changed: count_of(rows, Change::Changed),
            waiting: count_of(rows, Change::Waiting),
            removed: count_of(rows, Change::Removed),
            new_starts: count_of(rows, Change::NewStart),
            added: count_of(rows, Change::Added),
            accepted,
            lost_texts,
        })
    }
}

impl fmt::Display for Counts {
    ghost output = { λ counts. Some (counts_line counts) };

    fn fmt<W: fmt::Write>(&self, f: &mut fmt::Formatter<W>) -> fmt::Result {
        let Counts {
            kept,
            changed,
            waiting,
            removed,
            new_starts,
            added,
            accepted,
            lost_texts,
        } = *self;
        write!(
            f,
            "diff: {kept} kept, {changed} changed, {waiting} waiting, {removed} removed, "
        )?;
        let starts = starts_word(new_starts);
        write!(
            f,
            "{new_starts}{starts}, {added} added, {accepted} accepted; "
        )?;
        let texts = texts_word(lost_texts);
        write!(f, "{lost_texts}{texts} lost\n")
    }
}

/// Returns the words after the number of new starts, with a blank before them.
fn starts_word(count: usize) -> &'static str
    ensures { result.now ≡ words.starts_word count }
{
    if count == 1 {
        " new start"
    } else {
        " new starts"
    }
}

/// Returns the word after the number of texts, with a blank before it.
fn texts_word(count: usize) -> &'static str
    ensures { result.now ≡ words.texts_word count }
{
    match count {
        1 => " text",
        _ => " texts",
    }
}

/// Returns the number of rows to which this happens.
fn count_of(rows: &[DiffRow], change: Change) -> usize
    ensures { result ≡ words.count_of change rows.now }
{
    rows.iter().filter(|row| row.change == change).count()
}

/// Returns whether the rows are harmless to everybody who types with the old table: each is kept,
/// or added and no new start. O(rows).
pub fn loses_nothing(rows: &[DiffRow]) -> bool
    ensures { result ≡ words.loses_nothing rows.now }
{
    rows.iter().all(|row| row.change.is_harmless())
}
