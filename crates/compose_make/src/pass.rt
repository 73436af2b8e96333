//! One pass over the sequences of a table whose keys are all in the repertoire.
ghost use Rattle.std.specs.Prelude.{◌≡◌, ◌<◌, ◌||◌, ℕ, Bool, List, length, IsTrue};
ghost use Rattle.compose_model.specs.Nodes as words;
ghost use Rattle.compose_model.specs.Nodes.{nodes};
ghost use Rattle.compose_model.specs.Certificate.{keys_rise};
ghost use Rattle.compose_read.specs.Settle.{IsSettled};
ghost use Rattle.compose_make.specs.Least.{are_keys};
ghost use Rattle.compose_make.specs.Wanted.{AreLeast, is_whole_after, characters_of};

use crate::wanted::{Wanted, offer_text, with_key};
use compose_cert::Repertoire;
use compose_tree::{ComposeTable, NodeId, Target};
use keysym_core::Keysym;

/// Offers each sequence that goes on by keys of the repertoire from the node, to which these keys
/// lead. O(edges from the node on × log n) for n rows.
pub fn visit<U: ComposeTable>(
    new: &U,
    repertoire: &Repertoire,
    node: NodeId,
    keys: &[Keysym],
    rows: &mut [Wanted],
)
    requires settled { IsSettled (U.definitions new.now) }
    requires in_range { node.0 < length (nodes (U.definitions new.now)) }
    requires path { keys.now ≡ words.node (U.definitions new.now) node.0 }
    requires by_keys { IsTrue (are_keys repertoire.now keys.now) }
    requires rise { IsTrue (keys_rise (characters_of rows.old)) }
    ensures characters { characters_of rows.new ≡ characters_of rows.old }
    ensures least { (passes : ℕ → List ℕ → Bool) → AreLeast passes rows.old
        → AreLeast
        (λ c v. passes c v
        || is_whole_after (U.definitions new.now) repertoire.now c keys.now v) rows.new }
{
    for index in 0..new.edge_count(node) {
        let (keysym, target) = new.edge(node, index);
        if !repertoire.is_key(keysym) {
            continue;
        }
        let longer = with_key(keys, keysym);
        match target {
            Target::Node(child) => visit(new, repertoire, child, longer.as_slice(), rows),
            Target::Leaf(leaf) => offer_text(rows, new.text(leaf), longer.as_slice()),
        }
    }
}
