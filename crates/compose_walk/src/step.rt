//! One key in both tables.
ghost use Rattle.std.specs.Prelude.{◌≡◌, ◌<◌, ◌≤◌, false, length};
ghost use Rattle.keysym_core.specs.Keysym as keysyms;
ghost use Rattle.keysym_core.specs.Names.{text};
ghost use Rattle.compose_model.specs.Nodes as words;
ghost use Rattle.compose_model.specs.Nodes.{nodes, is_node, number_of};
ghost use Rattle.compose_model.specs.Step as steps;
ghost use Rattle.compose_model.specs.Follows as follows;
ghost use Rattle.compose_tree.specs.Targets.{target_of};
ghost use Rattle.compose_walk.specs.Kinds.{kind_of};
ghost use Rattle.compose_walk.specs.Steps.{text_bytes, IsStep, difference_of};

use crate::evidence::Kind;
use arrayvec::ArrayString;
use compose_tree::{ComposeTable, NodeId, Target};
use keysym_core::{Keysym, Names};

/// The text that a key commits: its own, or that of a sequence.
#[derive(Clone, Copy)]
pub enum KeyText<'t> {
    /// The key's own text.
    Own(ArrayString<4>),
    /// The text of a sequence that the key completes, or nothing.
    Sequence(&'t str),
}

impl KeyText<'_> {
    /// Returns the text.
    pub fn as_str(&self) -> &str
        ensures { result.now ≡ text_bytes self.now }
    {
        match self {
            KeyText::Own(own) => own.as_str(),
            KeyText::Sequence(sequence) => sequence,
        }
    }
}

/// What a key does to a table: whether it cancels, the text that it commits, and the node that is
/// pending afterwards.
#[derive(Clone, Copy)]
pub struct KeyStep<'t> {
    /// Whether the key cancels a sequence.
    pub cancels: bool,
    /// The text that the key commits.
    pub text: KeyText<'t>,
    /// The node that is pending after the key; the root at rest.
    pub next: NodeId,
}

/// Returns the text of the key itself. It costs one look-up in the names.
pub fn own_text(names: &Names, key: Keysym) -> ArrayString<4>
    ensures text { result.bytes ≡ text names.now key }
    ensures short { length result.bytes ≤ 4 }
{
    let mut own = ArrayString::<4>::new();
    if let Some(character) = names.text_of(key) {
        own.push(character);
    }
    own
}

/// Returns what the key does to the table at the node. `target` is where the key leads from the
/// node, if it leads anywhere. O(1), and at the root a look-up in the names.
pub fn key_step<'t, T: ComposeTable>(
    table: &'t T,
    names: &Names,
    node: NodeId,
    key: Keysym,
    target: Option<Target>,
) -> KeyStep<'t>
    requires node_in_range { node.0 < length (nodes (T.definitions table.now)) }
    requires target { target
        ≡ target_of (T.definitions table.now) (words.node (T.definitions table.now) node.0) key }
    requires fed { keysyms.is_ignored key ≡ false }
    ensures step { IsStep names.now (T.definitions table.now)
        (words.node (T.definitions table.now) node.0) key result }
    ensures short { length (text_bytes result.text) ≤ 255 }
{
    let Some(target) = target else {
        return if node == NodeId::ROOT {
            KeyStep {
                cancels: false,
                text: KeyText::Own(own_text(names, key)),
                next: NodeId::ROOT,
            }
        } else {
            KeyStep {
                cancels: true,
                text: KeyText::Sequence(""),
                next: NodeId::ROOT,
            }
        };
    };
    match target {
        Target::Node(next) => KeyStep {
            cancels: false,
            text: KeyText::Sequence(""),
            next,
        },
        Target::Leaf(leaf) => KeyStep {
            cancels: false,
            text: KeyText::Sequence(table.text(leaf)),
            next: NodeId::ROOT,
        },
    }
}

/// Returns how the steps of the two tables differ, if they do. O(bytes of the texts).
pub fn difference(old: &KeyStep<'_>, new: &KeyStep<'_>) -> Option<Kind>
    ensures { result ≡ difference_of old.now new.now }
{
    if new.cancels {
        Some(Kind::Cancelled)
    } else if new.text.as_str() != old.text.as_str() {
        Some(Kind::Text)
    } else if old.next == NodeId::ROOT && new.next != NodeId::ROOT {
        Some(Kind::Waiting)
    } else {
        None
    }
}
