//! A Compose file as another reader reads it: what it types, and what became of each line.
//!
//! There is a module for each reader, so far for libxkbcommon. A file is read line by line
//! ([`xkbcommon::Reader::file`]); a walk follows the includes from the root and lists what the reader
//! comes upon ([`walk`]), or says why it refuses the whole table; and [`fates`] decides what becomes
//! of each definition, when all are known. The table is what the definitions say that are taken.
//!
//! ```text
//! <Multi_key> <a> : "x"            overridden by the longer sequence of line 2
//! <Multi_key> <a> <b> : "y"        taken
//! ~Ctrl <Multi_key> <a> : "\q"     behind the longer sequence of line 2
//! <nosuchname> : "z"               left out: an unknown name
//! ```
//!
//! That a module is that reader no contract can say: `tests/as_reader.py` compares both.
#![tactic(auto)]

ghost use Rattle.std.specs.Prelude.{◌≡◌, false, ℕ, List};
ghost use Rattle.compose_model.specs.Table.{is_proper_prefix};
ghost use Rattle.compose_readers.specs.Definitions.{Definition};
ghost use Rattle.compose_readers.specs.Fates.{Entry};
ghost use Rattle.compose_readers.specs.Taken.{IsTaken};

mod cause;
mod file;
mod settling;
mod walking;
pub mod xkbcommon;

pub use cause::Cause;
pub use file::{Definition, FileRead, LineEnd, LineRead};
pub use settling::{Fate, fates};
pub use walking::{Bounds, Refusal, Told, Walked, What, walk};

/// The definitions that are taken are a table: each sequence is taken once, and none begins with
/// another one.
pub fn law_taken()
    ensures one { (entries : List Entry) (i j : ℕ) (a b : Definition) → IsTaken entries i a
        → IsTaken entries j b → a.keys ≡ b.keys → i ≡ j }
    ensures free { (entries : List Entry) (i j : ℕ) (a b : Definition) → IsTaken entries i a
        → IsTaken entries j b → is_proper_prefix a.keys b.keys ≡ false }
{}
