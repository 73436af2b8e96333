//! A source of the old table all of whose sequences are removed, as one line.
ghost use Rattle.std.specs.Prelude.{◌≡◌, ℕ, ◌++◌, IfOk, OnOk, string_bytes};
ghost use Rattle.compose_diff.specs.Causes as words;

use crate::row::{DiffRow, TextPlace};
use compose_compare::Change;
use compose_shown::Shown;
use indexmap::IndexMap;
use std::alloc::{AllocError, Global};
use std::fmt::Write;

/// The number of rows that the old table has in each source, by the index of the source.
type Counts = IndexMap<usize, usize>;

/// The sources of the old table all of whose rows are removed: the number of rows of each source,
/// and the number of those that are printed and removed.
#[derive(Drop)]
pub(crate) struct Gone {
    all: Counts,
    removed: Counts,
}

impl Gone {
    ghost use Rattle.std.specs.Prelude.{◌≡◌};
    ghost use Rattle.compose_diff.specs.Causes as words;

    /// Returns whether the old table has two rows or more in this source, and as many are removed
    /// from it.
    fn has(&self, source: usize) -> bool
        ensures { result ≡ words.has_gone self.now source }
    {
        let count = count_at(&self.all, source);
        count > 1 && count_at(&self.removed, source) == count
    }
}

/// Returns the sources that are gone, if `shown` are those of all rows that are printed. O(rows).
pub(crate) fn gone_sources(
    alloc: Global,
    rows: &[DiffRow],
    shown: &[DiffRow],
) -> Result<Gone, AllocError>
    ensures { IfOk result
        (λ gone. (source : ℕ) → words.has_gone gone source ≡ words.is_gone rows.now shown.now source) }
{
    let all = count_by_source(alloc, rows, false)?;
    let removed = count_by_source(alloc, shown, true)?;
    Ok(Gone { all, removed })
}

/// Returns the number of rows that the old table has in each source, of all rows or of the removed
/// ones.
fn count_by_source(
    alloc: Global,
    rows: &[DiffRow],
    removed_alone: bool,
) -> Result<Counts, AllocError>
    ensures { IfOk result
        (λ counts. (source : ℕ)
        → words.count_at counts source ≡ words.counted_in removed_alone source rows.now) }
{
    let mut counts = IndexMap::new(alloc);
    for row in rows {
        if let Some(source) = counted_source(row, removed_alone) {
            let count = count_at(&counts, source);
            counts.insert(source, count + 1)?;
        }
    }
    Ok(counts)
}

/// Returns the number that was counted for a source.
fn count_at(counts: &Counts, source: usize) -> usize
    ensures { result ≡ words.count_at counts.now source }
{
    counts.get(&source).copied().unwrap_or(0)
}

/// Returns the source in which the old table has the row, if the row is counted.
fn counted_source(row: &DiffRow, removed_alone: bool) -> Option<usize>
    ensures { (source : ℕ)
        → words.is_source source result ≡ words.is_counted removed_alone source row.now }
{
    let entry = row.old?;
    if removed_alone && row.change != Change::Removed {
        return None;
    }
    Some(entry.source)
}

/// Returns what the old table has for a removed row whose source is gone.
pub(crate) fn gone_entry<'r>(gone: &Gone, row: &DiffRow<'r>) -> Option<TextPlace<'r>>
    ensures { result ≡ words.gone_entry (words.has_gone gone.now) row.now }
{
    let entry = row.old?;
    if row.change == Change::Removed && gone.has(entry.source) {
        return Some(entry);
    }
    None
}

/// Appends the line of this number of removed sequences, which are all of one source, to the text.
pub(crate) fn push_cause(
    text: &mut String,
    entry: &TextPlace,
    count: usize,
) -> Result<(), AllocError>
    ensures { OnOk result
        (string_bytes text.new ≡ string_bytes text.old ++ words.cause_line entry.now count) }
{
    let path = Shown(entry.path);
    write!(
        text,
        "removed: all {count} sequences of {path}, from which the new table has none\n"
    )?;
    Ok(())
}
