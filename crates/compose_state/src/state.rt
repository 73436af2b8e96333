//! A compose state: the pending keysyms and the status.
ghost use Rattle.std.specs.Prelude.{◌≡◌, ◌≤◌, ◌<◌, length, [], ◌∷◌, ◌++◌, Some, option_map, true, IsFalse, IsSome, if◌then◌else◌};
ghost use Rattle.compose_model.specs.Step.{is_empty, pending, passes, cancels};
ghost use Rattle.compose_model.specs.declared.Status.TheVariants.{Nothing, Cancelled};
ghost use Rattle.compose_model.specs.Step as steps;
ghost use Rattle.compose_model.specs.Nodes as words;
ghost use Rattle.compose_model.specs.Nodes.{nodes, leaves};
ghost use Rattle.compose_model.specs.Session.{Session, rest, fed, loaded};
ghost use Rattle.compose_state.specs.Answers.{IsFed, IsFedAlone, ComesFrom};
ghost use Rattle.compose_state.specs.NodeIds.{node_id};
ghost use Rattle.compose_state.specs.Texts.{text_bytes};
ghost use Rattle.compose_tree.specs.Targets.{target_of};
ghost use Rattle.keysym_core.specs.Keysym.{is_ignored};
ghost use Rattle.keysym_core.specs.Names.{KeysymNames, text as names_text};

use crate::fed::{Fed, FedText};
use crate::pending::Pending;
use arrayvec::ArrayVec;
use compose_model::Status;
use compose_tree::{ComposeTable, NodeId, Target};
use keysym_core::{Keysym, Names};
use std::marker::Model;

/// The pending keysyms, at most 31, and the status (xkb_compose_state). Any state can be fed with
/// any table.
#[derive(Drop)]
pub struct ComposeState {
    pending: Pending,
    // for each pending keysym, the index of its edge in the table with which it was fed: a hint, which is always
    // checked
    edge_indexes: [u32; 31],
    status: Status,
}

impl Model for ComposeState {
    ghost Value = { Session };

    ghost view = { λ s. record { pending = s.pending; status = s.status } };

    ghost invariant = { λ s. length s.pending ≤ 31 };
}

impl ComposeState {
    /// Returns a state at rest: no key is pending, and the status is `Nothing`. O(1).
    pub fn new() -> ComposeState
        ensures { result ≡ rest }
    {
        ComposeState {
            pending: Pending::new(),
            edge_indexes: [0; 31],
            status: Status::Nothing,
        }
    }

    /// Returns the status after the last key, reset or refeeding. O(1).
    pub fn status(&self) -> Status
        ensures { result ≡ self.now.status }
    {
        self.status
    }

    /// Returns the pending keysyms, at most 31, in the order in which they were typed. O(1).
    pub fn pending(&self) -> &[Keysym]
        ensures value { result.now ≡ self.now.pending }
        ensures few { length result.now ≤ 31 }
    {
        self.pending.as_slice()
    }

    /// Puts the state at rest (xkb_compose_state_reset). O(1).
    pub fn reset(&mut self)
        ensures { self.new ≡ rest }
    {
        self.end(Status::Nothing);
    }

    /// Feeds one key (xkb_compose_state_feed). Allocates nothing; O(pending keysyms + log edges of
    /// a node) if the pending keysyms were fed with this table, and else O(pending keysyms × log
    /// edges of a node).
    #[inline(always)]
    pub fn feed<'t, T: ComposeTable>(
        &mut self,
        table: &'t T,
        names: &Names,
        keysym: Keysym,
    ) -> Fed<'t>
        ensures state { self.new ≡ fed (T.definitions table.now) self.old keysym }
        ensures reported { IsFed names.now (T.definitions table.now) self.old keysym result }
    {
        if keysym.is_ignored() {
            return Fed {
                accepted: false,
                status: self.status,
                text: FedText::Empty,
            };
        }
        match target(table, self.pending.as_slice(), &self.edge_indexes, keysym) {
            Some((edge_index, target)) => return self.follow(table, keysym, edge_index, target),
            None => return self.feed_apart(names, keysym),
        }
    }

    /// Returns the state with these pending keysyms and this status. For each pending keysym there
    /// is a hint, the index of its edge; any numbers will do as hints. O(pending keysyms).
    pub fn restored(
        pending: ArrayVec<Keysym, 31>,
        edge_indexes: [u32; 31],
        status: Status,
    ) -> ComposeState
        ensures { result ≡ record { pending = pending.items; status = status } }
    {
        ComposeState {
            pending: Pending::of(pending.as_slice()),
            edge_indexes,
            status,
        }
    }

    /// Returns the hints, for `restored`. O(1).
    pub fn edge_indexes(&self) -> [u32; 31] {
        self.edge_indexes
    }

    /// Feeds one key as `feed` does, but without keysym names: a key that passes commits no text,
    /// as in libxkbcommon, where the caller has to find its text. Allocates nothing; as fast as
    /// `feed`.
    #[inline(always)]
    pub fn feed_alone<'t, T: ComposeTable>(&mut self, table: &'t T, keysym: Keysym) -> Fed<'t>
        ensures state { self.new ≡ fed (T.definitions table.now) self.old keysym }
        ensures reported { IsFedAlone (T.definitions table.now) self.old keysym result }
    {
        let ignored = keysym.is_ignored();
        if ignored {
            return Fed {
                accepted: false,
                status: self.status,
                text: FedText::Empty,
            };
        }
        let pending = self.pending.as_slice();
        match target(table, pending, &self.edge_indexes, keysym) {
            Some((edge_index, target)) => return self.follow(table, keysym, edge_index, target),
            None => return self.break_off(),
        }
    }

    /// Moves the state to the table, and feeds one key: `refeed` and then `feed`. Allocates
    /// nothing. It costs as much as `feed` alone if the pending keysyms are a node of the table, as
    /// they are if they were fed with it, or if nothing is pending; and else as much as both.
    #[inline(always)]
    pub fn refeed_and_feed<'t, T: ComposeTable>(
        &mut self,
        table: &'t T,
        names: &Names,
        keysym: Keysym,
    ) -> Fed<'t>
        ensures state { self.new
            ≡ fed (T.definitions table.now) (loaded (T.definitions table.now) self.old) keysym }
        ensures reported { IsFed names.now (T.definitions table.now)
            (loaded (T.definitions table.now) self.old) keysym result }
    {
        if keysym.is_ignored() {
            self.refeed(table, names);
            return Fed {
                accepted: false,
                status: self.status,
                text: FedText::Empty,
            };
        }
        let node = self.refed_node(table);
        match edge_after(table, node, keysym) {
            Some((edge_index, target)) => return self.follow(table, keysym, edge_index, target),
            None => return self.feed_apart(names, keysym),
        }
    }

    /// Moves the state to the table: the pending keysyms are fed to it, starting at rest. If
    /// something is pending then, the status becomes `Composing`. If nothing is pending and the
    /// status was `Composing`, it becomes `Nothing`. No text is committed. Allocates nothing; O(1)
    /// if nothing is pending. If the pending keysyms are a node of the table, only the status may
    /// change; this costs O(pending keysyms) if they were fed with this table, and O(pending
    /// keysyms × log edges of a node) if not. Else it costs O(pending keysyms × (pending keysyms +
    /// log edges of a node)).
    #[inline(always)]
    pub fn refeed<T: ComposeTable>(&mut self, table: &T, names: &Names)
        ensures { self.new ≡ loaded (T.definitions table.now) self.old }
    {
        let _ = names;
        self.refeed_alone(table);
    }

    /// Moves the state to the table as `refeed` does, without keysym names.
    #[inline(always)]
    pub fn refeed_alone<T: ComposeTable>(&mut self, table: &T)
        ensures { self.new ≡ loaded (T.definitions table.now) self.old }
    {
        if self.pending.is_empty() && self.status != Status::Composing {
            return;
        }
        self.refeed_pending(table);
    }

    /// Does the same. It is a function of its own, so that `refeed` is short enough to be inlined.
    #[inline(never)]
    fn refeed_pending<T: ComposeTable>(&mut self, table: &T)
        ensures { self.new ≡ loaded (T.definitions table.now) self.old }
    {
        if !self.pending.is_empty()
            && node_of(table, self.pending.as_slice(), &self.edge_indexes).is_some()
        {
            self.status = Status::Composing;
            return;
        }
        let refed = state_after(table, self.pending());
        if !refed.pending().is_empty() {
            self.status = Status::Composing;
        } else if self.status == Status::Composing {
            self.status = Status::Nothing;
        }
        self.pending = refed.pending;
        self.edge_indexes = refed.edge_indexes;
    }

    /// Moves the pending keysyms to the table as `refeed` does, and returns their node. The status
    /// stays as it was: the key that is fed next sets it.
    #[inline(always)]
    fn refed_node<T: ComposeTable>(&mut self, table: &T) -> NodeId
        ensures pending { self.new.pending ≡ pending (T.definitions table.now) self.old.pending }
        ensures node { node_id (T.definitions table.now) self.new.pending ≡ Some result }
    {
        match node_of(table, self.pending.as_slice(), &self.edge_indexes) {
            Some(node) => return node,
            None => return self.refeed_to_node(table),
        }
    }

    /// Does the same, and refeeds in any case. It is a function of its own, so that `refed_node` is
    /// short enough to be inlined.
    #[inline(never)]
    fn refeed_to_node<T: ComposeTable>(&mut self, table: &T) -> NodeId
        ensures pending { self.new.pending ≡ pending (T.definitions table.now) self.old.pending }
        ensures node { node_id (T.definitions table.now) self.new.pending ≡ Some result }
    {
        self.refeed_pending(table);
        match node_of(table, self.pending.as_slice(), &self.edge_indexes) {
            Some(node) => return node,
            None => return NodeId::ROOT,
        }
    }

    /// Ends what is pending, with this status.
    #[inline(always)]
    fn end(&mut self, status: Status)
        ensures { self.new ≡ record { pending = []; status = status } }
    {
        self.pending.clear();
        self.status = status;
    }

    /// Feeds a key that leads from the pending keysyms to this target, by the edge at this index.
    #[inline(always)]
    fn follow<'t, T: ComposeTable>(
        &mut self,
        table: &'t T,
        keysym: Keysym,
        edge_index: u32,
        target: Target,
    ) -> Fed<'t>
        requires accepted { IsFalse (is_ignored keysym) }
        requires leads { target_of (T.definitions table.now) self.old.pending keysym ≡ Some target }
        ensures state { self.new ≡ fed (T.definitions table.now) self.old keysym }
        ensures reported { (names : KeysymNames)
            → IsFed names (T.definitions table.now) self.old keysym result }
    {
        // every table is settled, by the contract of its count of nodes
        let _nodes = table.node_count();
        match target {
            Target::Node(_) => {
                self.edge_indexes[self.pending.len()] = edge_index;
                self.pending.push(keysym);
                self.status = Status::Composing;
                return Fed {
                    accepted: true,
                    status: Status::Composing,
                    text: FedText::Empty,
                };
            }
            Target::Leaf(leaf) => {
                self.end(Status::Composed);
                return Fed {
                    accepted: true,
                    status: Status::Composed,
                    text: FedText::Slice(table.text(leaf)),
                };
            }
        }
    }

    /// Feeds a key that no sequence has after the pending keysyms: it passes if nothing is pending,
    /// and else it cancels.
    #[inline(always)]
    fn feed_apart(&mut self, names: &Names, keysym: Keysym) -> Fed<'static>
        ensures state { self.new
            ≡ (if is_empty self.old.pending then record {
              pending = [];
              status =
                  Nothing;
            } else record { pending = []; status = Cancelled }) }
        ensures accepted { result.accepted ≡ true }
        ensures status { result.status ≡ self.new.status }
        ensures text { text_bytes result.text
            ≡ (if is_empty self.old.pending then names_text names.now keysym else []) }
        ensures source { ComesFrom
            (if is_empty self.old.pending then passes else cancels) result.text }
    {
        if self.pending.is_empty() {
            self.status = Status::Nothing;
            return Fed {
                accepted: true,
                status: Status::Nothing,
                text: plain_text(names, keysym),
            };
        }
        self.end(Status::Cancelled);
        Fed {
            accepted: true,
            status: Status::Cancelled,
            text: FedText::Empty,
        }
    }
}

impl ComposeState {
    /// Feeds a key that no sequence has after the pending keysyms, and commits no text.
    fn break_off(&mut self) -> Fed<'static>
        ensures state { self.new
            ≡ (if is_empty self.old.pending then record {
              pending = [];
              status =
                  Nothing;
            } else record { pending = []; status = Cancelled }) }
        ensures accepted { result.accepted ≡ true }
        ensures status { result.status ≡ self.new.status }
        ensures text { text_bytes result.text ≡ [] }
    {
        let status = if self.pending.is_empty() {
            Status::Nothing
        } else {
            Status::Cancelled
        };
        self.end(status);
        Fed {
            accepted: true,
            status: self.status,
            text: FedText::Empty,
        }
    }
}

/// Returns the state of the table after these keysyms, starting at rest.
fn state_after<T: ComposeTable>(table: &T, keysyms: &[Keysym]) -> ComposeState
    ensures { result.pending ≡ pending (T.definitions table.now) keysyms.now }
{
    let mut state = ComposeState::new();
    for keysym in keysyms {
        state.feed_alone(table, *keysym);
    }
    state
}

/// Returns the text of a key that is not part of a sequence.
fn plain_text(names: &Names, keysym: Keysym) -> FedText<'static>
    ensures value { text_bytes result ≡ names_text names.now keysym }
    ensures source { ComesFrom passes result }
    ensures few { length (text_bytes result) ≤ 255 }
{
    match names.text_of(keysym) {
        Some(character) => FedText::Char(character),
        None => FedText::Empty,
    }
}

/// Returns the node after the keysym, if a sequence goes on there.
fn child<T: ComposeTable>(table: &T, node: NodeId, keysym: Keysym) -> Option<NodeId>
    requires { node.0 < length (nodes (T.definitions table.now)) }
    ensures { result
        ≡ node_id (T.definitions table.now)
        (words.node (T.definitions table.now) node.0 ++ keysym ∷ []) }
{
    match table.step(node, keysym) {
        Some(Target::Node(next)) => Some(next),
        Some(Target::Leaf(_)) | None => None,
    }
}

/// Returns the node after the keysym, if a sequence goes on there. Tries this index among the
/// node's edges first.
#[inline(always)]
fn child_at<T: ComposeTable>(
    table: &T,
    node: NodeId,
    keysym: Keysym,
    edge_index: u32,
) -> Option<NodeId>
    requires { node.0 < length (nodes (T.definitions table.now)) }
    ensures { result
        ≡ node_id (T.definitions table.now)
        (words.node (T.definitions table.now) node.0 ++ keysym ∷ []) }
{
    if edge_index < table.edge_count(node) {
        let (there, target) = table.edge(node, edge_index);
        if there == keysym {
            return match target {
                Target::Node(next) => Some(next),
                Target::Leaf(_) => None,
            };
        }
    }
    child(table, node, keysym)
}

/// Returns the node of these keysyms, if they are a node of the table. The indexes are hints.
#[inline(always)]
fn node_of<T: ComposeTable>(
    table: &T,
    keysyms: &[Keysym],
    edge_indexes: &[u32; 31],
) -> Option<NodeId>
    requires { length keysyms.now ≤ 31 }
    ensures value { result ≡ node_id (T.definitions table.now) keysyms.now }
    ensures again { IsSome result → pending (T.definitions table.now) keysyms.now ≡ keysyms.now }
{
    // every table is settled, by the contract of its count of nodes
    let _nodes = table.node_count();
    let mut node = NodeId::ROOT;
    for (index, keysym) in keysyms.iter().enumerate() {
        node = child_at(table, node, *keysym, edge_indexes[index])?;
    }
    Some(node)
}

/// Returns the index and the target of the keysym's edge after the pending keysyms, if they are a
/// node of the table and it has such an edge.
#[inline(always)]
fn target<T: ComposeTable>(
    table: &T,
    pending: &[Keysym],
    edge_indexes: &[u32; 31],
    keysym: Keysym,
) -> Option<(u32, Target)>
    requires { length pending.now ≤ 31 }
    ensures value { option_map (λ found. found.1) result
        ≡ target_of (T.definitions table.now) pending.now keysym }
    ensures again { IsSome result
        → steps.pending (T.definitions table.now) pending.now ≡ pending.now }
{
    let node = node_of(table, pending, edge_indexes)?;
    edge_after(table, node, keysym)
}

/// Returns the index and the target of the keysym's edge after the node, if it has one.
#[inline(always)]
fn edge_after<T: ComposeTable>(table: &T, node: NodeId, keysym: Keysym) -> Option<(u32, Target)>
    requires { node.0 < length (nodes (T.definitions table.now)) }
    ensures { option_map (λ found. found.1) result
        ≡ target_of (T.definitions table.now)
        (words.node (T.definitions table.now) node.0) keysym }
{
    let edge_index = table.find(node, keysym)?;
    let (_, target) = table.edge(node, edge_index);
    Some((edge_index, target))
}
