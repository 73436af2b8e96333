//! Keys that type a character by themselves.
ghost use Rattle.std.specs.Prelude.{◌≡◌, ◌<◌, ◌&&◌, not, [], ◌∷◌, length};
ghost use Rattle.std.specs.Option.{option_map};
ghost use Rattle.keysym_core.specs.Keysym as keysyms;
ghost use Rattle.compose_model.specs.Nodes.{nodes, has_edge};
ghost use Rattle.compose_model.specs.Certificate.{is_key};
ghost use Rattle.compose_make.specs.Candidates.{is_plain, IsLeastOf};

use compose_cert::Repertoire;
use compose_tree::{ComposeTable, NodeId};
use keysym_core::{Keysym, Names};

/// Returns the least key of the repertoire that begins no sequence and whose own text is the
/// character. O(log names) for each keysym of the character.
pub fn plain_key<U: ComposeTable>(
    new: &U,
    names: &Names,
    repertoire: &Repertoire,
    character: char,
) -> Option<Keysym>
    ensures { IsLeastOf (is_plain names.now (U.definitions new.now) repertoire.now character)
        (option_map (λ k. k ∷ []) result) }
{
    let mut after = None;
    loop {
        let Some(keysym) = names.next_of(character, after) else {
            return None;
        };
        if is_plain_key(new, repertoire, keysym) {
            return Some(keysym);
        }
        prove!(keysym.value() <= Keysym::GREATEST);
        after = Some(keysym);
    }
}

/// Whether the keysym is a key of the repertoire that is not ignored and starts no sequence of the
/// table.
fn is_plain_key<U: ComposeTable>(new: &U, repertoire: &Repertoire, keysym: Keysym) -> bool
    ensures { result
        ≡ (is_key repertoire.now keysym && not (keysyms.is_ignored keysym)
        && not (has_edge (U.definitions new.now) [] keysym)) }
{
    if !repertoire.is_key(keysym) {
        return false;
    }
    if keysym.is_ignored() {
        return false;
    }
    new.step(NodeId::ROOT, keysym).is_none()
}
