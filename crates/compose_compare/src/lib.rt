//! What a new compose table does to each sequence of an old one, and what it adds.
//!
//! Each sequence has exactly one [`Change`]. [`compare`] finds those of two whole tables, sequence
//! by sequence, and its contract says that nothing is lost exactly if the new table follows the old
//! one. The laws say what this means for people who type: what is kept still types its text, and
//! whatever is lost begins with evidence that the tables differ.
//!
//! An example: the old table is `<a> <b> : "x"`, and the new one `<a> <b> <c> : "y"`. The sequence
//! of the old table is waiting, and the one of the new table is added. It is not a new start, since
//! the old table has a sequence that begins with `a`.
#![tactic(auto)]

ghost use Rattle.std.specs.Prelude.{true, ◌≡◌, ◌↔◌, ◌&&◌, ◌||◌, ◌++◌, List, [], ◌∷◌, ℕ, IsTrue, Option, Some, None, is_some, unwrap_or};
ghost use Rattle.keysym_core.specs.Names.{KeysymNames};
ghost use Rattle.compose_model.specs.Table.{Definition, same, is_sequence, is_table, is_prefix_free, text_at};
ghost use Rattle.std.specs.List.{list_any, list_all};
ghost use Rattle.std.specs.Option.{option_map_or};
ghost use Rattle.std.specs.List.Sorted.{IsStrictlySortedBy};
ghost use Rattle.std.specs.Ordering.{nat_cmp};
ghost use Rattle.std.specs.Cmp.Lexicographic.{slice_cmp};
ghost use Rattle.compose_model.specs.Nodes.{leaves, is_node};
ghost use Rattle.compose_model.specs.Follows.{Follows};
ghost use Rattle.compose_model.specs.Certificate.{AreFresh};
ghost use Rattle.compose_compare.specs.declared.Change.TheVariants.{Removed};
ghost use Rattle.compose_compare.specs.Change.{KeepsAll, IsKept, StillTypes, Happens, change, is_harmless, loses_nothing, old_changes, new_changes, agree_along, stands, position_after, is_new_start, Evidence};

mod comparison;
mod passes;

pub use comparison::{Comparison, compare};
pub use passes::is_own_text;

/// What happens to a sequence of an old table or a new one.
#[derive(Clone, Copy, Debug, PartialEq, Eq, Drop)]
pub enum Change {
    /// The new table commits the same text at every key, and is at rest at the end.
    Kept,
    /// The new table has the sequence with another text.
    Changed,
    /// The new table waits for more keys.
    Waiting,
    /// Anything else: the new table cancels, commits another text, or commits earlier.
    Removed,
    /// The old table does not have the sequence.
    Added,
    /// The old table does not have it, no sequence of the old table begins with its first keysym,
    /// which is not fresh, and it is not that keysym alone with the keysym's own text.
    NewStart,
}

impl Change {
    /// Whether the change affects nobody who types with the old table.
    pub fn is_harmless(self) -> bool
        ensures { result ≡ is_harmless self }
    {
        match self {
            Change::Kept | Change::Added => true,
            Change::Changed | Change::Waiting | Change::Removed | Change::NewStart => false,
        }
    }
}

/// A new table follows an old one exactly if every sequence of the old one is kept and no added one
/// is a new start.
pub fn law_keeps()
    ensures enough { (names : KeysymNames) (fresh : List ℕ) (old new : List Definition)
        → KeepsAll names fresh old new → Follows names fresh old new }
    ensures needed { (names : KeysymNames) (fresh : List ℕ) (old new : List Definition)
        → IsTrue (is_table old) → IsTrue (is_table new) → AreFresh fresh old
        → Follows names fresh old new → KeepsAll names fresh old new }
{}

/// For two tables without overlap, exactly one thing happens to each sequence of either, and it is
/// what the tests find.
pub fn law_one_kind()
    ensures { (names : KeysymNames) (fresh : List ℕ) (old new : List Definition)
        → IsTrue (is_table old) → IsTrue (is_table new) → IsTrue (is_prefix_free old)
        → IsTrue (is_prefix_free new) → (s : List ℕ)
        → IsTrue (is_sequence old s || is_sequence new s) → (c : Change)
        → Happens names fresh old new s c ↔ change names fresh old new s ≡ c }
{}

/// The leaves of two tables together are the sequences of both, each once, and the new table
/// follows exactly if all of them are harmless.
pub fn law_changes()
    ensures listed { (old new : List Definition) (s : List ℕ)
        → list_any (same s) (leaves (old ++ new)) ≡ is_sequence old s || is_sequence new s }
    ensures rise { (old new : List Definition)
        → IsStrictlySortedBy (slice_cmp nat_cmp) (leaves (old ++ new)) }
    ensures by_table { (names : KeysymNames) (fresh : List ℕ) (old new : List Definition)
        → loses_nothing names fresh old new
        ≡ list_all is_harmless (old_changes names fresh old new)
        && list_all (λ c. option_map_or is_harmless c true) (new_changes names fresh old new) }
    ensures decide { (names : KeysymNames) (fresh : List ℕ) (old new : List Definition)
        → IsTrue (is_table old) → IsTrue (is_table new) → AreFresh fresh old
        → Follows names fresh old new ↔ IsTrue (loses_nothing names fresh old new) }
{}

/// A sequence of an old table without overlap is kept exactly if its keys still type its text.
pub fn law_kept()
    ensures { (names : KeysymNames) (old new : List Definition) → IsTrue (is_table old)
        → IsTrue (is_prefix_free old) → (s : List ℕ) → IsTrue (is_sequence old s)
        → IsKept names old new s ↔ StillTypes names new s (unwrap_or (text_at old s) []) }
{}

/// One pass over the old nodes suffices to find what is kept. The new table's position follows from
/// its position one key earlier. At a node of both tables, that node is its position. Once the
/// tables no longer agree, every longer sequence is removed.
pub fn law_pass()
    ensures on { (names : KeysymNames) (old new : List Definition) (p : List ℕ) (k : ℕ)
        → IsTrue (is_table old) → IsTrue (is_node old p)
        → stands names old new (p ++ k ∷ [])
        ≡ position_after names old new p k (stands names old new p) }
    ensures kept { (names : KeysymNames) (old new : List Definition) (s : List ℕ)
        → is_some (stands names old new s) ≡ agree_along names old new [] [] s }
    ensures both { (names : KeysymNames) (old new : List Definition) (p : List ℕ)
        → IsTrue (is_table old) → IsTrue (is_table new) → IsTrue (is_node old p)
        → IsTrue (is_node new p) → stands names old new p ≡ Some p }
    ensures lost { (names : KeysymNames) (fresh : List ℕ) (old new : List Definition) (p : List ℕ)
        (k : ℕ) (w : List ℕ) → IsTrue (is_table old) → IsTrue (is_table new)
        → IsTrue (is_prefix_free old) → IsTrue (is_prefix_free new)
        → stands names old new p ≡ None → IsTrue (is_sequence old (p ++ k ∷ w))
        → change names fresh old new (p ++ k ∷ w) ≡ Removed }
{}

/// Whatever is lost, and every new start, begins with a counterexample.
pub fn law_evident()
    ensures lost { (names : KeysymNames) (fresh : List ℕ) (old new : List Definition) (s : List ℕ)
        → IsTrue (is_table old) → AreFresh fresh old → IsTrue (is_sequence old s)
        → (IsKept names old new s → ⊥) → Evidence names fresh old new s }
    ensures start { (names : KeysymNames) (fresh : List ℕ) (old new : List Definition)
        (s : List ℕ) → IsTrue (is_table new) → IsTrue (is_sequence new s)
        → IsTrue (is_new_start names fresh old new s) → Evidence names fresh old new s }
{}
