//! Where a key leads from a node, and the text that it commits.
ghost use Rattle.std.specs.Prelude.{◌≡◌};
ghost use Rattle.keysym_core.specs.Names as model;
ghost use Rattle.compose_model.specs.Table.{same};
ghost use Rattle.compose_check.specs.Landing.{IsOf, IsLandingOf, target_text, landing_text, landing_cancels, landing_number};

use compose_tree::{ComposeTable, NodeId, Target};
use keysym_core::{Keysym, Names};

/// Returns the text that the table commits when a key leads to the target.
pub(crate) fn text_to<T: ComposeTable>(table: &T, target: Target) -> &str
    requires { IsOf (T.definitions table.now) target }
    ensures { result.now ≡ target_text (T.definitions table.now) target }
{
    match target {
        Target::Node(_) => "",
        Target::Leaf(leaf) => table.text(leaf),
    }
}

/// Returns whether the table commits the text at a key that leads there, or that leads nowhere at
/// rest.
pub(crate) fn commits<T: ComposeTable>(
    table: &T,
    names: &Names,
    keysym: Keysym,
    landing: Option<Target>,
    text: &str,
) -> bool
    requires { IsLandingOf (T.definitions table.now) landing }
    ensures { result
        ≡ same (landing_text names.now (T.definitions table.now) keysym landing) text.now }
{
    match landing {
        Some(target) => text_to(table, target) == text,
        None => is_own_text(names, keysym, text),
    }
}

/// Returns whether the text is that of the keysym itself.
pub(crate) fn is_own_text(names: &Names, keysym: Keysym, text: &str) -> bool
    ensures { result ≡ same (model.text names.now keysym) text.now }
{
    match names.text_of(keysym) {
        Some(character) => character.encode_utf8(&mut [0; 4]) == text,
        None => text.is_empty(),
    }
}

/// Returns whether a key that leads there from the node cancels the pending keysyms.
pub(crate) fn cancels(node: NodeId, landing: Option<Target>) -> bool
    ensures { result ≡ landing_cancels node.0 landing }
{
    landing.is_none() && node.0 != 0
}

/// Returns the number of the node that is pending after a key that leads there.
pub(crate) fn number_at(landing: Option<Target>) -> u32
    ensures { result ≡ landing_number landing }
{
    match landing {
        Some(Target::Node(node)) => node.0,
        _ => 0,
    }
}
