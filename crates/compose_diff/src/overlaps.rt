//! The line that counts overlaps.
ghost use Rattle.std.specs.Prelude.{◌≡◌, ◌++◌, OnOk, string_bytes};
ghost use Rattle.compose_diff.specs.Overlaps as words;

use std::alloc::AllocError;
use std::fmt::Write;

/// The number of sequences, in the sources of each table, that are a prefix of another one. The
/// longer sequence counts.
#[derive(Clone, Copy, Debug, PartialEq, Eq)]
pub struct Overlaps {
    /// The number in the old table.
    pub old: usize,
    /// The number in the new table.
    pub new: usize,
}

/// Appends the line that counts overlaps, if there are any, to the text. O(1).
///
/// Errors: `AllocError` if memory runs out.
pub fn push_overlaps(text: &mut String, overlaps: Overlaps) -> Result<(), AllocError>
    ensures { OnOk result
        (string_bytes text.new ≡ string_bytes text.old ++ words.overlaps_line overlaps) }
{
    let Overlaps { old, new } = overlaps;
    if old == 0 && new == 0 {
        return Ok(());
    }
    write!(
        text,
        "overlaps: {old} in the old table, {new} in the new one; the longer sequences count\n"
    )?;
    Ok(())
}
