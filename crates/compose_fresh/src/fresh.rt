//! The conditions on fresh keysyms: keysyms that the old table does not have, and for which nothing
//! is promised.
ghost use Rattle.std.specs.Prelude.{◌≡◌, ◌==◌, ◌<◌, ℕ, List, None, length, flat_map, IsTrue};
ghost use Rattle.std.specs.List.{position_or_len};
ghost use Rattle.compose_model.specs.Table.{Definition, has_key};
ghost use Rattle.compose_model.specs.Nodes.{nodes, node as node_at, edges, keysyms};
ghost use Rattle.compose_model.specs.Certificate.{AreFresh, keys_rise};
ghost use Rattle.compose_fresh.specs.Conditions.{first_unmet};
ghost use Rattle.compose_fresh.specs.Fresh.{fresh_conditions, one_fresh_conditions};

use crate::fault::CheckFault;
use compose_tree::{ComposeTable, NodeId};
use keysym_core::Keysym;

/// The largest number of fresh keysyms that a certificate can have.
pub const MAX_FRESH: usize = 1_048_576;

/// Returns the fault of the first condition on fresh keysyms that these do not meet: they are
/// strictly increasing, none is ignored, and none is in a sequence of the old table. O(edges of the
/// table × log n + n) in the number n of the keysyms, or O(n) if there are none; allocates nothing.
pub fn check_fresh<T: ComposeTable>(old: &T, fresh: &[Keysym]) -> Option<CheckFault>
    ensures exact { result ≡ first_unmet (fresh_conditions (T.definitions old.now) fresh.now) }
    ensures clear { result ≡ None → AreFresh fresh.now (T.definitions old.now) }
    ensures only { AreFresh fresh.now (T.definitions old.now) → result ≡ None }
{
    if !are_rising(fresh) {
        return Some(CheckFault::FreshNotRising);
    }
    first_stale(fresh, first_used(old, fresh))
}

/// Returns whether the keysym is one of these, which are increasing. O(log n).
pub fn is_among(keysyms: &[Keysym], keysym: Keysym) -> bool
    requires { IsTrue (keys_rise keysyms.now) }
    ensures { result ≡ has_key keysyms.now keysym }
{
    keysyms.binary_search(&keysym).is_ok()
}

/// Returns whether the keysyms are strictly increasing.
fn are_rising(keysyms: &[Keysym]) -> bool
    ensures { result ≡ keys_rise keysyms.now }
{
    let Some((first, rest)) = keysyms.split_first() else {
        return true;
    };
    let mut last = *first;
    for keysym in rest {
        if *keysym <= last {
            return false;
        }
        last = *keysym;
    }
    true
}

/// Returns the fault of the first fresh keysym that is ignored or used. The first one that is used
/// has the index `used`, if there is one.
fn first_stale(fresh: &[Keysym], used: usize) -> Option<CheckFault>
    ensures { (old : List Definition) → used ≡ position_or_len (has_key (keysyms old)) fresh.now
        → result ≡ first_unmet (flat_map (one_fresh_conditions old) fresh.now) }
{
    for index in 0..fresh.len() {
        let keysym = fresh[index];
        if keysym.is_ignored() {
            return Some(CheckFault::FreshIgnored { keysym });
        }
        if index == used {
            return Some(CheckFault::FreshUsed { keysym });
        }
    }
    None
}

/// Returns the index of the first fresh keysym that is in a sequence of the table, or their number
/// if none is.
fn first_used<T: ComposeTable>(old: &T, fresh: &[Keysym]) -> usize
    requires { IsTrue (keys_rise fresh.now) }
    ensures { result ≡ position_or_len (has_key (keysyms (T.definitions old.now))) fresh.now }
{
    if fresh.is_empty() {
        return 0;
    }
    let mut least = fresh.len();
    for number in 0..old.node_count() {
        least = least.min(first_used_at(old, NodeId(number), fresh));
    }
    least
}

/// Returns the index of the first fresh keysym that is an edge of the node, or their number if none
/// is.
fn first_used_at<T: ComposeTable>(old: &T, node: NodeId, fresh: &[Keysym]) -> usize
    requires rise { IsTrue (keys_rise fresh.now) }
    requires in_range { node.0 < length (nodes (T.definitions old.now)) }
    ensures { result
        ≡ position_or_len
        (has_key
        (edges (T.definitions old.now)
        (node_at (T.definitions old.now) node.0))) fresh.now }
{
    let mut least = fresh.len();
    for index in 0..old.edge_count(node) {
        let (keysym, _) = old.edge(node, index);
        least = least.min(index_of(fresh, keysym));
    }
    least
}

/// Returns the index of the keysym among these, which are increasing, or their number if it is none
/// of them. O(log n).
fn index_of(keysyms: &[Keysym], keysym: Keysym) -> usize
    requires { IsTrue (keys_rise keysyms.now) }
    ensures { result ≡ position_or_len (λ k. k == keysym) keysyms.now }
{
    match keysyms.binary_search(&keysym) {
        Ok(index) => index,
        Err(_) => keysyms.len(),
    }
}
