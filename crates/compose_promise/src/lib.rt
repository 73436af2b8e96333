//! The promise to people who type, as it is read aloud, and why the checker's yes means it.
//!
//! This crate has no program, only a definition and two laws. [`law_keeps_typing`] says that the
//! definition by runs (`specs/Promise.antt`) and the one that the other crates prove with
//! (`Follows` of `compose_model`) are the same. [`law_yes`] says what a yes promises of all tables
//! that are read from sources. The laws of the program, from the status of a run, cite both.
#![tactic(auto)]

ghost use Rattle.std.specs.Prelude.{◌≡◌, List, ℕ, Ok};
ghost use Rattle.keysym_core.specs.Names.{KeysymNames};
ghost use Rattle.compose_model.specs.Table.{Definition};
ghost use Rattle.compose_model.specs.Follows.{Follows};
ghost use Rattle.compose_check.specs.Input.{Input, Parts, parts_of, verdict_on};
ghost use Rattle.compose_check.specs.declared.verdict.Verdict.TheVariants as verdicts;
ghost use Rattle.compose_promise.specs.Kept.{IsKept};
ghost use Rattle.compose_promise.specs.Promise.{KeepsTyping};

/// A new table follows an old one exactly if, on all keys that the old one does not cancel, their
/// two runs agree at each key.
pub fn law_keeps_typing()
    ensures only { (names : KeysymNames) (fresh : List ℕ) (old new : List Definition)
        → Follows names fresh old new → KeepsTyping names fresh old new }
    ensures enough { (names : KeysymNames) (fresh : List ℕ) (old new : List Definition)
        → KeepsTyping names fresh old new → Follows names fresh old new }
{}

/// If the parts of a check are read from this input, and the verdict on them is yes, the promises
/// hold. Nothing is assumed of the tables or the certificate.
pub fn law_yes()
    ensures { (input : Input) (p : Parts)
        → parts_of input ≡ Ok p → verdict_on p ≡ verdicts.Yes → IsKept p }
{}
