//! The condition on the keysyms that begin a sequence in the new table and none in the old one.
ghost use Rattle.std.specs.Prelude.{◌≡◌, ◌||◌, [], Some, IsTrue};
ghost use Rattle.compose_model.specs.Table.{has_key, is_prefix_free};
ghost use Rattle.compose_model.specs.Nodes.{has_edge};
ghost use Rattle.compose_model.specs.Certificate as words;
ghost use Rattle.compose_model.specs.Certificate.{keys_rise};
ghost use Rattle.compose_tree.specs.Targets.{target_of};
ghost use Rattle.compose_fresh.specs.Conditions.{first_unmet};
ghost use Rattle.compose_check.specs.Conditions.{start_conditions};

use crate::landing::is_own_text;
use compose_fresh::{CheckFault, is_among};
use compose_tree::{ComposeTable, NodeId, Target};
use keysym_core::{Keysym, Names};

/// Returns the fault of the first keysym that begins a sequence only in the new table, is not
/// fresh, and does not type itself. O(edges of the new root × (log edges of the old root + log
/// fresh)).
pub(crate) fn check_starts<T: ComposeTable, U: ComposeTable>(
    old: &T,
    new: &U,
    names: &Names,
    fresh: &[Keysym],
) -> Option<CheckFault>
    requires rise { IsTrue (keys_rise fresh.now) }
    requires prefix_free { IsTrue (is_prefix_free (U.definitions new.now)) }
    ensures { result
        ≡ first_unmet
        (start_conditions names.now fresh.now (T.definitions old.now) (U.definitions new.now)) }
{
    for index in 0..new.edge_count(NodeId::ROOT) {
        let (keysym, target) = new.edge(NodeId::ROOT, index);
        if !is_kept(old, new, names, fresh, keysym, target) {
            return Some(CheckFault::NewStart { keysym });
        }
    }
    None
}

/// Returns whether the keysym, which leads there from the new root, begins a sequence of the old
/// table, is fresh, or types itself.
fn is_kept<T: ComposeTable, U: ComposeTable>(
    old: &T,
    new: &U,
    names: &Names,
    fresh: &[Keysym],
    keysym: Keysym,
    target: Target,
) -> bool
    requires rise { IsTrue (keys_rise fresh.now) }
    requires leads { target_of (U.definitions new.now) [] keysym ≡ Some target }
    requires prefix_free { IsTrue (is_prefix_free (U.definitions new.now)) }
    ensures { result
        ≡ (has_edge (T.definitions old.now) [] keysym
        || (has_key fresh.now keysym
        || words.types_itself names.now (U.definitions new.now) keysym)) }
{
    begins(old, keysym) || is_among(fresh, keysym) || types_itself(new, names, keysym, target)
}

/// Returns whether the keysym begins a sequence of the table.
fn begins<T: ComposeTable>(table: &T, keysym: Keysym) -> bool
    ensures { result ≡ has_edge (T.definitions table.now) [] keysym }
{
    table.step(NodeId::ROOT, keysym).is_some()
}

/// Returns whether the keysym, which leads there from the root, is a whole sequence that commits
/// its own text.
fn types_itself<U: ComposeTable>(new: &U, names: &Names, keysym: Keysym, target: Target) -> bool
    requires leads { target_of (U.definitions new.now) [] keysym ≡ Some target }
    requires prefix_free { IsTrue (is_prefix_free (U.definitions new.now)) }
    ensures { result ≡ words.types_itself names.now (U.definitions new.now) keysym }
{
    match target {
        Target::Node(_) => false,
        Target::Leaf(leaf) => is_own_text(names, keysym, new.text(leaf)),
    }
}
