//! Feeds one key to a state in C's memory, as `ComposeState::feed_alone` does, without a copy of
//! the state.
ghost use Rattle.std.specs.Prelude.{◌≡◌, ◌≤◌, ◌<◌, true, length, take, [], ◌∷◌, ◌++◌, Some, option_map, IsTrue, IsFalse, if◌then◌else◌};
ghost use Rattle.std.specs.List.{list_all};
ghost use Rattle.keysym_core.specs.Keysym.{is_keysym, is_ignored};
ghost use Rattle.compose_model.specs.Nodes as words;
ghost use Rattle.compose_model.specs.Nodes.{nodes, leaves};
ghost use Rattle.compose_model.specs.Session.{fed};
ghost use Rattle.compose_model.specs.Step.{is_empty};
ghost use Rattle.compose_model.specs.declared.Status.TheVariants.{Nothing, Composing, Cancelled};
ghost use Rattle.compose_state.specs.Answers.{IsFedAlone};
ghost use Rattle.compose_state.specs.NodeIds.{node_id};
ghost use Rattle.compose_state.specs.Texts.{text_bytes};
ghost use Rattle.compose_tree.specs.Targets.{target_of};
ghost use Rattle.compose_c.specs.States.{session_of};

use crate::following::child;
use crate::state::{State, number_of, pending_numbers, status_of};
use compose_model::Status;
use compose_state::{Fed, FedText};
use compose_tree::{ComposeTable, NodeId, Target};
use keysym_core::Keysym;

/// Returns the keysym with this number. O(1).
#[inline(always)]
fn keysym_of(number: u32) -> Keysym
    requires { IsTrue (is_keysym number) }
    ensures { result ≡ number }
{
    match Keysym::new(number) {
        Some(keysym) => keysym,
        None => Keysym::default(),
    }
}

/// Returns the node after the keysym with this number, if it leads to a node. The edge with the
/// index `hint` is tried first.
#[inline(always)]
fn child_at<T: ComposeTable>(table: &T, node: NodeId, number: u32, hint: u32) -> Option<NodeId>
    requires at { node.0 < length (nodes (T.definitions table.now)) }
    requires keysym { IsTrue (is_keysym number) }
    ensures { result
        ≡ node_id (T.definitions table.now)
        (words.node (T.definitions table.now) node.0 ++ number ∷ []) }
{
    if hint < table.edge_count(node) {
        let (there, target) = table.edge(node, hint);
        if there.value() == number {
            return match target {
                Target::Node(next) => Some(next),
                Target::Leaf(_) => None,
            };
        }
    }
    child(table, node, keysym_of(number))
}

/// Returns the node of the keysyms with these numbers, if they are a node of the table.
#[inline(always)]
fn node_of<T: ComposeTable>(table: &T, numbers: &[u32], hints: &[u32; 31]) -> Option<NodeId>
    requires few { length numbers.now ≤ 31 }
    requires keysyms { IsTrue (list_all is_keysym numbers.now) }
    ensures { result ≡ node_id (T.definitions table.now) numbers.now }
{
    let mut node = NodeId::ROOT;
    for index in 0..numbers.len() {
        node = child_at(table, node, numbers[index], hints[index])?;
    }
    Some(node)
}

/// Returns the index and the target of the keysym's edge after the pending keysyms, if they are a
/// node of the table and it has such an edge.
#[inline(always)]
fn target<T: ComposeTable>(
    table: &T,
    numbers: &[u32],
    hints: &[u32; 31],
    keysym: Keysym,
) -> Option<(u32, Target)>
    requires few { length numbers.now ≤ 31 }
    requires keysyms { IsTrue (list_all is_keysym numbers.now) }
    ensures value { option_map (λ found. found.1) result
        ≡ target_of (T.definitions table.now) numbers.now keysym }
    ensures room { (edge_index : _) → (node : _) → result ≡ Some (edge_index, Target.Node node)
        → length numbers.now < 31 }
    ensures leaf { (edge_index : _) → (leaf : _) → result ≡ Some (edge_index, Target.Leaf leaf)
        → leaf.0 < length (leaves (T.definitions table.now)) }
{
    // called for its contract, which says that the table is settled
    let _nodes = table.node_count();
    let node = node_of(table, numbers, hints)?;
    let edge_index = table.find(node, keysym)?;
    let (_, target) = table.edge(node, edge_index);
    Some((edge_index, target))
}

/// Feeds one key, without keysym names. Allocates nothing; O(pending keysyms + log edges of a node)
/// if the pending keysyms were fed with this table, otherwise O(pending keysyms × log edges of a
/// node).
#[inline(always)]
pub fn feed<'t, T: ComposeTable>(state: &mut State, table: &'t T, keysym: Keysym) -> Fed<'t>
    ensures state { session_of state.new
        ≡ fed (T.definitions table.now) (session_of state.old) keysym }
    ensures reported { IsFedAlone (T.definitions table.now) (session_of state.old) keysym result }
{
    let ignored = keysym.is_ignored();
    if ignored {
        return Fed {
            accepted: false,
            status: status_of(state.status),
            text: FedText::Empty,
        };
    }
    let numbers = pending_numbers(state);
    let count = numbers.len();
    match target(table, numbers, &state.hints, keysym) {
        Some((hint, target)) => return follow(state, count, table, keysym, hint, target),
        None => return break_off(state, count),
    }
}

/// Feeds a key that leads to this target from the pending keysyms, by the edge with the index
/// `hint`.
#[inline(always)]
fn follow<'t, T: ComposeTable>(
    state: &mut State,
    count: usize,
    table: &'t T,
    keysym: Keysym,
    hint: u32,
    target: Target,
) -> Fed<'t>
    requires pending { take count state.old.pending ≡ (session_of state.old).pending }
    requires accepted { IsFalse (is_ignored keysym) }
    requires leads { target_of (T.definitions table.now) (session_of state.old).pending keysym
        ≡ Some target }
    requires room { (node : _) → target ≡ Target.Node node → count < 31 }
    requires leaf { (leaf : _) → target ≡ Target.Leaf leaf
        → leaf.0 < length (leaves (T.definitions table.now)) }
    ensures state { session_of state.new
        ≡ fed (T.definitions table.now) (session_of state.old) keysym }
    ensures reported { IsFedAlone (T.definitions table.now) (session_of state.old) keysym result }
{
    match target {
        Target::Node(_) => {
            extend(state, count, keysym, hint);
            return Fed {
                accepted: true,
                status: Status::Composing,
                text: FedText::Empty,
            };
        }
        Target::Leaf(leaf) => {
            finish(state, Status::Composed);
            return Fed {
                accepted: true,
                status: Status::Composed,
                text: FedText::Slice(table.text(leaf)),
            };
        }
    }
}

/// Adds a keysym and its hint to the pending ones; `count` is their number.
#[inline(always)]
fn extend(state: &mut State, count: usize, keysym: Keysym, hint: u32)
    requires pending { take count state.old.pending ≡ (session_of state.old).pending }
    requires room { count < 31 }
    ensures { session_of state.new
        ≡ record { pending = (session_of state.old).pending ++ keysym ∷ []; status = Composing } }
{
    state.pending[count] = keysym.value();
    state.hints[count] = hint;
    state.count = count as u32 + 1;
    state.status = number_of(Status::Composing);
}

/// Clears the pending keysyms, and sets this status.
#[inline(always)]
fn finish(state: &mut State, status: Status)
    ensures { session_of state.new ≡ record { pending = []; status = status } }
{
    state.count = 0;
    state.status = number_of(status);
}

/// Feeds a key that continues no sequence from the pending keysyms; `count` is their number.
#[inline(always)]
fn break_off(state: &mut State, count: usize) -> Fed<'static>
    requires { length (session_of state.old).pending ≡ count }
    ensures state { session_of state.new
        ≡ (if is_empty (session_of state.old).pending then record {
          pending = [];
          status =
              Nothing;
        } else record { pending = []; status = Cancelled }) }
    ensures accepted { result.accepted ≡ true }
    ensures status { result.status ≡ (session_of state.new).status }
    ensures text { text_bytes result.text ≡ [] }
{
    let status = if count == 0 {
        Status::Nothing
    } else {
        Status::Cancelled
    };
    finish(state, status);
    Fed {
        accepted: true,
        status,
        text: FedText::Empty,
    }
}
