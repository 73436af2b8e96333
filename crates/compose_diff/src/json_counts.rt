//! The whole answer of `diff` as JSON.
ghost use Rattle.std.specs.Prelude.{◌≡◌, ◌++◌, IfOk, OnOk, string_bytes};
ghost use Rattle.compose_diff.specs.JsonAnswer as words;
ghost use Rattle.compose_diff.specs.Json.{json_rows};
ghost use Rattle.compose_diff.specs.Lost.{shown_rows};

use crate::counts::Counts;
use crate::json::json_text;
use crate::lost::lost_rows;
use crate::overlaps::Overlaps;
use crate::row::DiffRow;
use std::alloc::{AllocError, Global};
use std::fmt::Write;

/// Returns `left`, the rows that remain of `rows`, as JSON ([`json_text`]), or only those of lost
/// texts if `lost_alone`. After them comes one more object, whose member `counts` has the
/// [`Counts`] of all that remain, and the [`Overlaps`]. O(bytes + rows × log rows).
///
/// Errors: `AllocError` if memory runs out.
pub fn json_answer(
    alloc: Global,
    rows: &[DiffRow],
    left: &[DiffRow],
    lost_alone: bool,
    overlaps: Overlaps,
) -> Result<String, AllocError>
    ensures { IfOk result
        (λ text. string_bytes text ≡ words.json_answer lost_alone overlaps rows.now left.now) }
{
    let counts = Counts::of(alloc, left, rows.len().saturating_sub(left.len()))?;
    let mut text = shown_objects(alloc, left, lost_alone)?;
    push_counts(&mut text, &counts, overlaps)?;
    Ok(text)
}

/// Returns the objects of all rows, or of those of lost texts alone.
fn shown_objects(alloc: Global, rows: &[DiffRow], lost_alone: bool) -> Result<String, AllocError>
    ensures { IfOk result
        (λ text. string_bytes text ≡ json_rows (shown_rows lost_alone rows.now)) }
{
    if lost_alone {
        let lost = lost_rows(alloc, rows)?;
        return json_text(alloc, &lost);
    }
    json_text(alloc, rows)
}

/// Appends the object of the counts, and a newline, to the text.
fn push_counts(text: &mut String, counts: &Counts, overlaps: Overlaps) -> Result<(), AllocError>
    ensures { OnOk result
        (string_bytes text.new ≡ string_bytes text.old ++ words.json_counts counts.now overlaps) }
{
    push_old_counts(text, counts)?;
    push_new_counts(text, counts)?;
    push_overlaps(text, overlaps)
}

/// Appends the numbers of kept, changed, waiting and removed sequences of the old table to the
/// text.
fn push_old_counts(text: &mut String, counts: &Counts) -> Result<(), AllocError>
    ensures { OnOk result
        (string_bytes text.new ≡ string_bytes text.old ++ words.json_old_counts counts.now) }
{
    push_count(text, "{\"counts\":{\"kept\":", counts.kept)?;
    push_count(text, ",\"changed\":", counts.changed)?;
    push_count(text, ",\"waiting\":", counts.waiting)?;
    push_count(text, ",\"removed\":", counts.removed)
}

/// Appends the other counts to the text.
fn push_new_counts(text: &mut String, counts: &Counts) -> Result<(), AllocError>
    ensures { OnOk result
        (string_bytes text.new ≡ string_bytes text.old ++ words.json_new_counts counts.now) }
{
    push_count(text, ",\"new_starts\":", counts.new_starts)?;
    push_count(text, ",\"added\":", counts.added)?;
    push_count(text, ",\"accepted\":", counts.accepted)?;
    push_count(text, ",\"lost_texts\":", counts.lost_texts)
}

/// Appends the numbers of overlaps, and the end of the object, to the text.
fn push_overlaps(text: &mut String, overlaps: Overlaps) -> Result<(), AllocError>
    ensures { OnOk result
        (string_bytes text.new ≡ string_bytes text.old ++ words.json_overlaps overlaps) }
{
    push_count(text, ",\"old_overlaps\":", overlaps.old)?;
    push_count(text, ",\"new_overlaps\":", overlaps.new)?;
    text.push_str("}}\n")
}

/// Appends the text before a count, and the count, to the text.
fn push_count(text: &mut String, before: &str, count: usize) -> Result<(), AllocError>
    ensures { OnOk result
        (string_bytes text.new ≡ string_bytes text.old ++ words.json_count before.now count) }
{
    text.push_str(before)?;
    write!(text, "{count}")?;
    Ok(())
}
