//! The fresh keysyms of a command.
ghost use Rattle.std.specs.Prelude.{◌≡◌, IfOk};
ghost use Rattle.std.specs.Ordering.{nat_cmp};
ghost use Rattle.compose_model.specs.Nodes.{rising};

use keysym_core::Keysym;
use std::alloc::{AllocError, Global};

/// Returns the keysyms in rising order, each once. `Err(AllocError)` if memory runs out. O(n log
/// n).
pub fn in_rising_order(alloc: Global, keys: &[Keysym]) -> Result<Vec<Keysym>, AllocError>
    ensures { IfOk result (λ fresh. fresh.items ≡ rising nat_cmp keys.now) }
{
    let mut fresh = Vec::from_slice(alloc, keys)?;
    fresh.sort()?;
    fresh.dedup();
    Ok(fresh)
}
