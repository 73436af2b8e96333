//! The parts of a page.
ghost use Rattle.std.specs.Prelude.{◌≡◌, IfOk};
ghost use Rattle.compose_page.specs.Sections as words;

use compose_compare::Change;
use compose_diff::{DiffRow, is_loss};
use std::alloc::{AllocError, Global};

/// A part of a page.
#[derive(Clone, Copy, Debug, PartialEq, Eq)]
pub enum Section {
    /// Sequences that people lose, and whose text no sequence of the new table gives.
    Lost,
    /// Sequences that people lose, and whose text another sequence of the new table gives.
    Otherwise,
    /// New sequences that begin with a key that started no sequence before.
    Starts,
    /// All other sequences that only the new table has.
    Additions,
}

/// Returns the rows that are in a part, in order. O(rows).
pub(crate) fn rows_in<'r>(
    alloc: Global,
    section: Section,
    rows: &[DiffRow<'r>],
) -> Result<Vec<DiffRow<'r>>, AllocError>
    ensures { IfOk result (λ its. its.items ≡ words.rows_in section rows.now) }
{
    let mut its = Vec::new(alloc);
    for row in rows {
        if is_in(section, row) {
            its.push(*row)?;
        }
    }
    Ok(its)
}

/// Returns whether the row is in the part.
fn is_in(section: Section, row: &DiffRow) -> bool
    ensures { result ≡ words.is_in section row.now }
{
    match section {
        Section::Lost => is_loss(row.change) && row.typing.is_none(),
        Section::Otherwise => is_loss(row.change) && row.typing.is_some(),
        Section::Starts => row.change == Change::NewStart,
        Section::Additions => row.change == Change::Added,
    }
}

/// Returns the words of its heading.
pub(crate) fn title(section: Section) -> &'static str
    ensures { result.now ≡ words.title section }
{
    match section {
        Section::Lost => "Texts that can't be typed any more",
        Section::Otherwise => "Texts that are typed otherwise",
        Section::Starts => "Keys that begin a sequence now",
        Section::Additions => "Added",
    }
}

/// Returns the caption of its table.
pub(crate) fn caption(section: Section) -> &'static str
    ensures { result.now ≡ words.caption section }
{
    match section {
        Section::Lost => "No sequence of the new table types the text.",
        Section::Otherwise => {
            "The new keys are the shortest sequence of the new table that types the text."
        }
        Section::Starts => { "No sequence of the old table begins with the first key." }
        Section::Additions => "Nobody who types with the old table meets these.",
    }
}

/// Returns whether it is folded, if parts are folded at all.
pub(crate) fn is_folded(section: Section) -> bool
    ensures { result ≡ words.is_folded section }
{
    matches!(section, Section::Starts | Section::Additions)
}
