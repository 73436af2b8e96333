//! One pass through all sequences of each table, side by side with the other one.
ghost use Rattle.std.specs.Prelude.{◌≡◌, ◌<◌, ◌&&◌, ◌==◌, ◌++◌, ◌∷◌, [], ℕ, List, Option, Some, None, not, length, if◌then◌else◌, IsTrue, IfSome};
ghost use Rattle.keysym_core.specs.Names as model;
ghost use Rattle.compose_model.specs.Table.{is_proper_prefix, is_sequence, is_table, same, has_key};
ghost use Rattle.compose_model.specs.Nodes as words;
ghost use Rattle.compose_model.specs.Nodes.{nodes, leaves, has_edge};
ghost use Rattle.compose_model.specs.Certificate.{keys_rise};
ghost use Rattle.compose_read.specs.Settle.{IsSettled};
ghost use Rattle.compose_tree.specs.Targets.{target_of};
ghost use Rattle.compose_compare.specs.declared.Change.TheVariants.{Removed};
ghost use Rattle.compose_compare.specs.Change.{change};
ghost use Rattle.compose_compare.specs.Passes.{node_of, node_in, position_node, begins_anew, old_change, new_change, IsWritten};

use crate::Change;
use compose_fresh::is_among;
use compose_tree::{ComposeTable, NodeId, Target};
use compose_walk::{difference, key_step};
use keysym_core::{Keysym, Names};

/// Writes what happens to each sequence of the old table that goes on from the node. `stand` is the
/// new table's position after the node's keys, if it agreed along them, and `same` is its node with
/// the same keys. O(edges from the node on × log edges).
pub fn visit_old<T: ComposeTable, U: ComposeTable>(
    old: &T,
    new: &U,
    names: &Names,
    node: NodeId,
    stand: Option<NodeId>,
    same: Option<NodeId>,
    changes: &mut [Change],
)
    requires old_settled { IsSettled (T.definitions old.now) }
    requires new_settled { IsSettled (U.definitions new.now) }
    requires in_range { node.0 < length (nodes (T.definitions old.now)) }
    requires stand { stand
        ≡ position_node names.now (T.definitions old.now) (U.definitions new.now)
        (words.node (T.definitions old.now) node.0) }
    requires same { same
        ≡ node_of (U.definitions new.now) (words.node (T.definitions old.now) node.0) }
    requires fits { length changes.old ≡ length (leaves (T.definitions old.now)) }
    ensures fits { length changes.new ≡ length (leaves (T.definitions old.now)) }
    ensures written { (fresh : List ℕ)
        → IsWritten Removed
        (change names.now fresh (T.definitions old.now) (U.definitions new.now))
        (T.definitions old.now)
        (is_proper_prefix (words.node (T.definitions old.now) node.0)) changes.old changes.new }
{
    for index in 0..old.edge_count(node) {
        let (keysym, target) = old.edge(node, index);
        let after = node_after(old, new, names, node, stand, keysym, target);
        let there = target_from(new, same, keysym);
        match target {
            Target::Node(child) => {
                visit_old(old, new, names, child, after, node_at(there), changes);
            }
            Target::Leaf(leaf) => changes[leaf.0 as usize] = old_change(after.is_some(), there),
        }
    }
}

/// Writes what happens to each sequence of the new table that goes on from the node. `same` is the
/// old table's node with the same keys. `anew` is true if no sequence of the old table begins with
/// the first of these keys, and it is not fresh. O(edges from the node on × log edges).
pub fn visit_new<T: ComposeTable, U: ComposeTable>(
    old: &T,
    new: &U,
    names: &Names,
    fresh: &[Keysym],
    node: NodeId,
    same: Option<NodeId>,
    anew: bool,
    changes: &mut [Option<Change>],
)
    requires old_settled { IsSettled (T.definitions old.now) }
    requires new_settled { IsSettled (U.definitions new.now) }
    requires rise { IsTrue (keys_rise fresh.now) }
    requires in_range { node.0 < length (nodes (U.definitions new.now)) }
    requires same { same
        ≡ node_of (T.definitions old.now) (words.node (U.definitions new.now) node.0) }
    requires anew { anew
        ≡ begins_anew fresh.now (T.definitions old.now)
        (words.node (U.definitions new.now) node.0) }
    requires fits { length changes.old ≡ length (leaves (U.definitions new.now)) }
    ensures fits { length changes.new ≡ length (leaves (U.definitions new.now)) }
    ensures written { IsWritten None
        (λ s. if is_sequence (T.definitions old.now) s then None else Some
        (change names.now fresh.now (T.definitions old.now) (U.definitions new.now) s))
        (U.definitions new.now)
        (is_proper_prefix (words.node (U.definitions new.now) node.0)) changes.old changes.new }
{
    for index in 0..new.edge_count(node) {
        let (keysym, target) = new.edge(node, index);
        let there = target_from(old, same, keysym);
        let begins = still_anew(old, fresh, node, anew, keysym);
        match target {
            Target::Node(child) => {
                visit_new(
                    old,
                    new,
                    names,
                    fresh,
                    child,
                    node_at(there),
                    begins,
                    changes,
                );
            }
            Target::Leaf(leaf) => {
                let starts = is_start(names, node, keysym, new.text(leaf), begins);
                changes[leaf.0 as usize] = new_change(there, starts);
            }
        }
    }
}

/// Returns the new table's position one key on, if it agrees with the old one up to there.
fn node_after<T: ComposeTable, U: ComposeTable>(
    old: &T,
    new: &U,
    names: &Names,
    node: NodeId,
    stand: Option<NodeId>,
    keysym: Keysym,
    target: Target,
) -> Option<NodeId>
    requires table { IsTrue (is_table (T.definitions old.now)) }
    requires in_range { node.0 < length (nodes (T.definitions old.now)) }
    requires stand { stand
        ≡ position_node names.now (T.definitions old.now) (U.definitions new.now)
        (words.node (T.definitions old.now) node.0) }
    requires target { target_of (T.definitions old.now)
        (words.node (T.definitions old.now) node.0) keysym ≡ Some target }
    ensures { result
        ≡ position_node names.now (T.definitions old.now) (U.definitions new.now)
        (words.node (T.definitions old.now) node.0 ++ keysym ∷ []) }
{
    let Some(there) = stand else {
        return None;
    };
    let old_step = key_step(old, names, node, keysym, Some(target));
    let new_step = key_step(new, names, there, keysym, new.step(there, keysym));
    if difference(&old_step, &new_step).is_some() {
        return None;
    }
    Some(new_step.next)
}

/// Returns where the keysym leads from the node, if there is a node and it has this edge. O(log
/// edges of the node).
fn target_from<T: ComposeTable>(table: &T, node: Option<NodeId>, keysym: Keysym) -> Option<Target>
    requires { IfSome node (λ n. n.0 < length (nodes (T.definitions table.now))) }
    ensures { (p : List ℕ) → node ≡ node_of (T.definitions table.now) p
        → result ≡ target_of (T.definitions table.now) p keysym }
{
    match node {
        Some(node) => table.step(node, keysym),
        None => None,
    }
}

/// Returns the node to which the target leads, if it is a node.
fn node_at(target: Option<Target>) -> Option<NodeId>
    ensures { result ≡ node_in target }
{
    match target {
        Some(Target::Node(node)) => Some(node),
        _ => None,
    }
}

/// Returns what happens to a sequence of the old table, given whether it is kept, and where its
/// keys lead in the new one.
fn old_change(kept: bool, there: Option<Target>) -> Change
    ensures { result ≡ old_change kept there }
{
    if kept {
        return Change::Kept;
    }
    match there {
        Some(Target::Leaf(_)) => Change::Changed,
        Some(Target::Node(_)) => Change::Waiting,
        None => Change::Removed,
    }
}

/// Returns what happens to a sequence of the new table, given where its keys lead in the old one,
/// and whether it is a new start if it is added.
fn new_change(there: Option<Target>, starts: bool) -> Option<Change>
    ensures { result ≡ new_change there starts }
{
    if let Some(Target::Leaf(_)) = there {
        return None;
    }
    Some(if starts {
        Change::NewStart
    } else {
        Change::Added
    })
}

/// Whether no sequence of the old table begins with the first of the node's keys and this one, and
/// it is not fresh. `anew` is the same for the node's keys alone, if it has any.
fn still_anew<T: ComposeTable>(
    old: &T,
    fresh: &[Keysym],
    node: NodeId,
    anew: bool,
    keysym: Keysym,
) -> bool
    requires { IsTrue (keys_rise fresh.now) }
    ensures { result
        ≡ (if node.0 == 0 then not (has_edge (T.definitions old.now) [] keysym)
        && not (has_key fresh.now keysym) else anew) }
{
    if node == NodeId::ROOT {
        return is_unknown(old, fresh, keysym);
    }
    anew
}

/// Whether no sequence of the old table begins with the keysym, and it is not fresh.
fn is_unknown<T: ComposeTable>(old: &T, fresh: &[Keysym], keysym: Keysym) -> bool
    requires { IsTrue (keys_rise fresh.now) }
    ensures { result
        ≡ (not (has_edge (T.definitions old.now) [] keysym) && not (has_key fresh.now keysym)) }
{
    if old.step(NodeId::ROOT, keysym).is_some() {
        return false;
    }
    !is_among(fresh, keysym)
}

/// Whether the sequence of the node's keys and this one, which has the text, is a new start if it
/// is added: it begins anew, and is not the keysym alone with its own text.
fn is_start(names: &Names, node: NodeId, keysym: Keysym, text: &str, begins: bool) -> bool
    ensures { result
        ≡ (begins && not (node.0 == 0 && same (model.text names.now keysym) text.now)) }
{
    if node == NodeId::ROOT && is_own_text(names, keysym, text) {
        return false;
    }
    begins
}

/// Whether the text is that of the keysym itself: its character, or empty if it has none.
/// O(log n) in the keysyms with characters.
pub fn is_own_text(names: &Names, keysym: Keysym, text: &str) -> bool
    ensures { result ≡ same (model.text names.now keysym) text.now }
{
    match names.text_of(keysym) {
        Some(character) => character.encode_utf8(&mut [0; 4]) == text,
        None => text.is_empty(),
    }
}
