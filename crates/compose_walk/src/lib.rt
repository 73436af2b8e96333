//! The walk through an old and a new compose table side by side: does the new one follow, and if
//! not, where do they differ?
//!
//! [`walk`] visits pairs of nodes, shortest keys first. If the new table follows, it returns the
//! pairs that a certificate lists. Otherwise it returns a shortest list of keys at whose last one
//! the tables differ, the first in order if several are equally short. [`differences`] returns
//! every such list that has no other as a prefix; [`explain`] and [`explain_all`] print them.
//!
//! ```text
//! differences(alloc, &old, &new, &names, &[])?    // old: <a> <b> : "x", new: <a> <b> : "y"
//!                                                 // one: the keys a, b, on which "x" became "y"
//! ```
#![tactic(auto)]

ghost use Rattle.std.specs.Prelude.{◌∷◌, [], ℕ, List, IsTrue};
ghost use Rattle.keysym_core.specs.Names.{KeysymNames};
ghost use Rattle.compose_model.specs.Table.{Definition, is_table};
ghost use Rattle.compose_model.specs.Follows.{Follows};
ghost use Rattle.compose_model.specs.Certificate.{AreFresh};
ghost use Rattle.compose_walk.specs.Evidence.{Evidence, IsLeast, AreDifferences};

mod all_differences;
mod evidence;
mod evidence_text;
mod fault;
mod outcome;
mod pairs;
mod pass;
mod step;
mod trace;
mod walker;

pub use all_differences::Differences;
pub use evidence::{Counterexample, Kind};
pub use evidence_text::{explain, explain_all};
pub use fault::MakeFault;
pub use outcome::Walk;
pub use pairs::Pairs;
pub use step::{KeyStep, KeyText, difference, key_step};
pub use walker::{differences, walk};

/// The first of all differences of two tables, in order, is the least counterexample; if there is
/// none, the new table follows.
pub fn law_differences()
    ensures first { (names : KeysymNames) (fresh : List ℕ) (old new : List Definition)
        (x : Evidence) (xs : List Evidence) → IsTrue (is_table old) → IsTrue (is_table new)
        → AreFresh fresh old → AreDifferences names fresh old new (x ∷ xs)
        → IsLeast names fresh old new x }
    ensures none { (names : KeysymNames) (fresh : List ℕ) (old new : List Definition)
        → IsTrue (is_table old) → IsTrue (is_table new) → AreFresh fresh old
        → AreDifferences names fresh old new [] → Follows names fresh old new }
{}
