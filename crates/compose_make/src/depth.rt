//! The depth of a table.
ghost use Rattle.compose_make.specs.Depth.{IsGreatestDepth};

use compose_tree::{ComposeTable, NodeId};

/// Returns the greatest depth of a node. O(nodes).
pub fn greatest_depth<U: ComposeTable>(new: &U) -> u32
    ensures { IsGreatestDepth (U.definitions new.now) result }
{
    let mut greatest = 0;
    for number in 0..new.node_count() {
        let depth = new.depth(NodeId(number));
        if depth <= greatest {
            continue;
        }
        greatest = depth;
    }
    greatest
}
