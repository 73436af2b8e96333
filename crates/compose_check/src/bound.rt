//! The condition that no node of the new table is longer than the bound.
ghost use Rattle.std.specs.Prelude.{◌≡◌};
ghost use Rattle.compose_fresh.specs.Conditions.{first_unmet};
ghost use Rattle.compose_check.specs.Conditions.{bound_conditions};

use compose_fresh::CheckFault;
use compose_tree::{ComposeTable, NodeId};

/// Returns the fault of the first node that is longer than the bound. O(nodes).
pub(crate) fn check_bound<U: ComposeTable>(new: &U, bound: u32) -> Option<CheckFault>
    ensures { result ≡ first_unmet (bound_conditions (U.definitions new.now) bound) }
{
    for number in 0..new.node_count() {
        if new.depth(NodeId(number)) > bound {
            return Some(CheckFault::BoundExceeded { node: number });
        }
    }
    None
}
