//! From two tables to the rows of `diff`: each sequence of either table, what happens to it, its
//! keys as they are written, and the places of its definitions.
//!
//! [`diff_migration`] reads both tables from their sources and returns the answer. If kept
//! sequences aren't printed, their keys aren't read.
//!
//! ```text
//! old  1  <Multi_key> <e> : "é"     # changed: <Multi_key> <e> "é" "è" old:1 new:2
//! new  2  <U20> <e> : "è"
//! ```
#![tactic(auto)]

ghost use Rattle.std.specs.Prelude.{◌≡◌, ◌↔◌, ℕ, List, [], Some, None, Ok, IsTrue};
ghost use Rattle.compose_model.specs.Table.{Definition, is_table, is_sequence, is_proper_prefix};
ghost use Rattle.compose_lookup.specs.Longer.{first_longer};
ghost use Rattle.compose_lookup.specs.Lookup.{gives};
ghost use Rattle.compose_diff_rows.specs.Rows.{first_typing};
ghost use Rattle.compose_diff_rows.specs.Typings.{IsFirstTyping, IsFirstLonger};
ghost use Rattle.compose_model.specs.Follows.{Follows};
ghost use Rattle.compose_answer.specs.Parts.{Explainable};
ghost use Rattle.compose_answer.specs.declared.answer.Answer.{Answer};
ghost use Rattle.compose_diff.specs.Accepted.{Line, accepted_of};
ghost use Rattle.compose_diff_rows.specs.Answers.{Asked, IsDiff, compared_parts};
ghost use Rattle.compose_diff_rows.specs.Following.{AreMeant, IsYes};

mod answering;
mod asking;
mod longer;
mod reported;
mod rows;
mod taken;
mod typing;
mod written;

pub use answering::diff_migration;
pub use asking::{DiffFault, DiffInput, Form};

/// A row names the shortest sequence with which the new table types the old text, and of several
/// the first in order: no shorter sequence has that text, and none of the same length comes before
/// it. If a row names none, no sequence has the text.
pub fn law_typing()
    ensures found { (table : List Definition) (text s : List ℕ) → IsTrue (is_table table)
        → first_typing table text ≡ Some s → IsFirstTyping table text s }
    ensures none { (table : List Definition) (text : List ℕ) → IsTrue (is_table table)
        → first_typing table text ≡ None → (t : List ℕ) → IsTrue (gives table text t) → ⊥ }
{}

/// A waiting row names the shortest sequence of the new table that begins with its own and goes on,
/// and of several the first in order: no shorter one does, and none of the same length comes before
/// it. If a row names none, no sequence does.
pub fn law_longer()
    ensures found { (table : List Definition) (s longer : List ℕ) → IsTrue (is_table table)
        → first_longer table s ≡ Some longer → IsFirstLonger table s longer }
    ensures none { (table : List Definition) (s : List ℕ) → IsTrue (is_table table)
        → first_longer table s ≡ None → (t : List ℕ) → IsTrue (is_sequence table t)
        → IsTrue (is_proper_prefix s t) → ⊥ }
{}

/// What the answer of [`diff_migration`] means for people who type. If no changes are accepted, it
/// is yes exactly if the new table follows the old one, with the given fresh keysyms. If some are,
/// it is yes exactly if each sequence of either table whose change is harmful is named by one of
/// the accepted lines.
pub fn law_answer()
    ensures follows { (asked : Asked) (e : Explainable) (answer : Answer)
        → compared_parts asked.migration ≡ Ok e → IsDiff asked e answer
        → accepted_of asked.accepted ≡ Ok []
        → IsYes answer ↔ Follows e.move.names e.fresh e.move.old e.move.new }
    ensures meant { (asked : Asked) (e : Explainable) (answer : Answer) (lines : List Line)
        → IsDiff asked e answer → accepted_of asked.accepted ≡ Ok lines
        → IsYes answer ↔ AreMeant asked e lines }
{}
