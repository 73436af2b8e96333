//! The number of sequences that are left out of a table.
ghost use Rattle.std.specs.Prelude.{◌≡◌, length, map, IfOk};
ghost use Rattle.compose_model.specs.Nodes.{rising_lists};

use keysym_core::Keysym;
use std::alloc::AllocError;

/// Returns the number of distinct sequences. O(n log n) comparisons of sequences.
pub(crate) fn count_distinct(mut sequences: Vec<&[Keysym]>) -> Result<usize, AllocError>
    ensures { IfOk result
        (λ count. count
        ≡ length (rising_lists (map (λ s. s.now) sequences.entry.items))) }
{
    sequences.sort()?;
    sequences.dedup();
    Ok(sequences.as_slice().len())
}
