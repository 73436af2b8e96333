//! The sequences of a table as lines of a Compose file, or as JSON: those that give a text, and
//! those that begin with some keys.
//!
//! [`how_to_type`] returns the lines of the sequences that give a text, the shortest first.
//! [`list_table`] returns those of all sequences of a table, or of some of them, by the definitions
//! that count. The lines of all sequences are a Compose file without includes, which is read as the
//! same table ([`law_listing`]). [`list_next`] returns the keys that can follow some keys.
//!
//! ```text
//! let wanted = HowWanted { texts: &["≠"], repertoire: None, first: true, form: ListForm::Lines };
//! how_to_type::<PackedTable>(alloc, names, &table, &paths, wanted)?.lines
//! <Multi_key> <equal> <slash> : "≠"  # /usr/share/X11/locale/en_US.UTF-8/Compose:123
//! ```
#![tactic(auto)]

ghost use Rattle.std.specs.Prelude.{◌≡◌, ℕ, List, [], ◌∷◌, None, Ok, map, IsTrue};
ghost use Rattle.std.specs.Str.{is_utf8};
ghost use Rattle.keysym_core.specs.Names.{KeysymNames};
ghost use Rattle.compose_model.specs.Table.{Definition};
ghost use Rattle.compose_model.specs.Nodes.{leaves};
ghost use Rattle.compose_model.specs.declared.Rule as rules;
ghost use Rattle.compose_read.specs.Lines.{Visit};
ghost use Rattle.compose_tree.specs.TableReturns.{table_of};
ghost use Rattle.compose_places.specs.Counting.{counting_line, AreLines};
ghost use Rattle.compose_listing.specs.Chosen.{chosen};
ghost use Rattle.compose_listing.specs.Held.{IsBuilt, are_writable};
ghost use Rattle.compose_listing.specs.Listing.{listing};

mod chosen;
mod form;
mod how;
mod json;
mod line;
mod list;
mod listed;
mod next;
mod order;
mod wanted;

pub use form::{ListForm, ListOrder};
pub use how::{HowWanted, Ways, how_to_type};
pub use list::{ListWanted, list_table};
pub use listed::{ListedTable, push_leaves};
pub use next::list_next;
pub use wanted::wanted_text;

/// The listing of a table is read as the same table, by either rule for overlaps and under any
/// name. This holds for a table that is built, each of whose sequences has a line that counts, as
/// in a table that is read, and whose texts the string of a Compose file can write. What is printed
/// has to be UTF-8, as a `String` always is. If no keys and no text are asked for, the listed
/// sequences are all of the table.
pub fn law_listing()
    ensures whole { (table : List Definition) → chosen table [] None ≡ leaves table }
    ensures again { (names : KeysymNames) (lines : List Visit) (paths : List (List ℕ))
        (table : List Definition) (root : List ℕ) (rule : rules.Rule) → IsBuilt table
        → AreLines names table (map (counting_line names lines) (leaves table))
        → IsTrue (are_writable table) → IsTrue (is_utf8 (listing names lines paths table))
        → table_of names
        (record { name = root; bytes = listing names lines paths table } ∷ []) root rule ≡ Ok table }
{}
