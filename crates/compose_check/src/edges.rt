//! The conditions at the edges of each pair's old node.
ghost use Rattle.std.specs.Prelude.{◌≡◌, ◌<◌, length, flat_map, Some, IsTrue};
ghost use Rattle.compose_model.specs.Table.{is_table};
ghost use Rattle.compose_model.specs.Nodes.{nodes, node as node_at, edges};
ghost use Rattle.compose_model.specs.Certificate.{pairs_rise, pairs_in_range};
ghost use Rattle.compose_tree.specs.Targets.{target_of};
ghost use Rattle.compose_fresh.specs.Conditions.{first_unmet};
ghost use Rattle.compose_check.specs.Conditions.{edge_conditions, one_edge_conditions};

use crate::landing::{cancels, commits, number_at, text_to};
use compose_cert::Certificate;
use compose_fresh::CheckFault;
use compose_tree::{ComposeTable, NodeId, Target};
use keysym_core::{Keysym, Names};

/// A pair of nodes, and its index among the pairs.
#[derive(Clone, Copy)]
struct Pair {
    index: usize,
    old: NodeId,
    new: NodeId,
}

/// Returns the fault of the first edge at which the new table does not do what the old one does,
/// pair by pair. O(pairs × edges of their old nodes × (log new nodes + log edges of their new
/// nodes)).
pub(crate) fn check_edges<T: ComposeTable, U: ComposeTable>(
    old: &T,
    new: &U,
    names: &Names,
    certificate: &Certificate,
) -> Option<CheckFault>
    requires rise { IsTrue (pairs_rise certificate.now.pairs) }
    requires in_range { IsTrue
        (pairs_in_range (T.definitions old.now) (U.definitions new.now) certificate.now.pairs) }
    requires sound { IsTrue (is_table (T.definitions old.now)) }
    ensures { result
        ≡ first_unmet
        (edge_conditions names.now (T.definitions old.now)
        (U.definitions new.now) certificate.now.pairs) }
{
    for index in 0..certificate.pair_count() {
        let (old_number, new_number) = certificate.pair(index);
        let pair = Pair {
            index,
            old: NodeId(old_number),
            new: NodeId(new_number),
        };
        if let Some(fault) = check_pair(old, new, names, certificate, pair) {
            return Some(fault);
        }
    }
    None
}

/// Returns the fault of the first edge of the pair's old node that is not kept.
fn check_pair<T: ComposeTable, U: ComposeTable>(
    old: &T,
    new: &U,
    names: &Names,
    certificate: &Certificate,
    pair: Pair,
) -> Option<CheckFault>
    requires rise { IsTrue (pairs_rise certificate.now.pairs) }
    requires old_in_range { pair.old.0 < length (nodes (T.definitions old.now)) }
    requires new_in_range { pair.new.0 < length (nodes (U.definitions new.now)) }
    requires sound { IsTrue (is_table (T.definitions old.now)) }
    ensures { result
        ≡ first_unmet
        (flat_map
        (one_edge_conditions names.now (T.definitions old.now)
        (U.definitions new.now) certificate.now.pairs pair.index
        (node_at (T.definitions old.now) pair.old.0)
        (node_at (U.definitions new.now) pair.new.0))
        (edges (T.definitions old.now) (node_at (T.definitions old.now) pair.old.0))) }
{
    for edge in 0..old.edge_count(pair.old) {
        let (keysym, target) = old.edge(pair.old, edge);
        if let Some(fault) = check_edge(old, new, names, certificate, pair, keysym, target) {
            return Some(fault);
        }
    }
    None
}

/// Returns the fault of the first condition that fails at the edge of this keysym. The edge leads
/// to the target in the old table.
fn check_edge<T: ComposeTable, U: ComposeTable>(
    old: &T,
    new: &U,
    names: &Names,
    certificate: &Certificate,
    pair: Pair,
    keysym: Keysym,
    target: Target,
) -> Option<CheckFault>
    requires rise { IsTrue (pairs_rise certificate.now.pairs) }
    requires leads { target_of (T.definitions old.now)
        (node_at (T.definitions old.now) pair.old.0) keysym ≡ Some target }
    requires new_in_range { pair.new.0 < length (nodes (U.definitions new.now)) }
    requires sound { IsTrue (is_table (T.definitions old.now)) }
    ensures { result
        ≡ first_unmet
        (one_edge_conditions names.now (T.definitions old.now)
        (U.definitions new.now) certificate.now.pairs pair.index
        (node_at (T.definitions old.now) pair.old.0)
        (node_at (U.definitions new.now) pair.new.0) keysym) }
{
    let landing = new.step(pair.new, keysym);
    if cancels(pair.new, landing) {
        return Some(CheckFault::Cancels {
            pair: pair.index,
            keysym,
        });
    }
    if !commits(new, names, keysym, landing, text_to(old, target)) {
        return Some(CheckFault::TextDiffers {
            pair: pair.index,
            keysym,
        });
    }
    if !certificate.has_pair(number_at(Some(target)), number_at(landing)) {
        return Some(CheckFault::PairMissing {
            pair: pair.index,
            keysym,
        });
    }
    None
}
