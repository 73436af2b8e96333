//! Rows whose old text no sequence of the new table gives.
ghost use Rattle.std.specs.Prelude.{◌≡◌, length, map, IfOk};
ghost use Rattle.compose_diff.specs.Lost as words;

use crate::line::is_loss;
use crate::row::DiffRow;
use std::alloc::{AllocError, Global};

/// Returns whether people lose the sequence, and no sequence of the new table gives its text. O(1).
pub fn is_lost(row: &DiffRow) -> bool
    ensures { result ≡ words.is_lost row.now }
{
    is_loss(row.change) && row.typing.is_none()
}

/// Returns the rows of lost texts, in order. O(rows).
///
/// Errors: `AllocError` if memory runs out.
pub fn lost_rows<'r>(alloc: Global, rows: &[DiffRow<'r>]) -> Result<Vec<DiffRow<'r>>, AllocError>
    ensures { IfOk result (λ lost. lost.items ≡ words.lost_rows rows.now) }
{
    let mut lost = Vec::new(alloc);
    for row in rows {
        if is_lost(row) {
            lost.push(*row)?;
        }
    }
    Ok(lost)
}

/// Returns the number of texts that no sequence of the new table gives any more: each text of such
/// rows is counted once. O(rows × log rows) comparisons of texts.
pub(crate) fn count_lost_texts(alloc: Global, rows: &[DiffRow]) -> Result<usize, AllocError>
    ensures { IfOk result (λ count. count ≡ length (words.lost_texts rows.now)) }
{
    let mut texts = old_texts(alloc, rows)?;
    texts.sort()?;
    texts.dedup();
    Ok(texts.as_slice().len())
}

/// Returns the text that the old table has for each row of a lost text, in order.
fn old_texts<'r>(alloc: Global, rows: &[DiffRow<'r>]) -> Result<Vec<&'r str>, AllocError>
    ensures { IfOk result
        (λ texts. map (λ text. text.now) texts.items ≡ map words.old_text (words.lost_rows rows.now)) }
{
    let mut texts = Vec::new(alloc);
    for row in rows {
        if is_lost(row) {
            texts.push(old_text(row))?;
        }
    }
    Ok(texts)
}

/// Returns the text that the old table has for a row, or an empty one.
fn old_text<'r>(row: &DiffRow<'r>) -> &'r str
    ensures { result.now ≡ words.old_text row.now }
{
    match row.old {
        Some(entry) => entry.text,
        None => "",
    }
}
