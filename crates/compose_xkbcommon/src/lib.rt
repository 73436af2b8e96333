//! A line of a Compose file as libxkbcommon reads it: its parts, and the text of its string.
//!
//! libxkbcommon reads more than this program's own grammar (`compose_lex`): modifiers before and
//! between the keys, escapes of any letter, an empty text, and anything behind the name of a result.
//!
//! ```text
//! Ctrl <a> ! Shift <b> : "\q" x <c>     the keys a and b, the raw text \q, the result x
//! \q                                   the text q
//! ```
#![tactic(auto)]

ghost use Rattle.std.specs.Prelude.{◌≡◌, List, Some, ℕ};
ghost use Rattle.compose_xkbcommon.specs.Grammar as grammar;
ghost use Rattle.compose_xkbcommon.specs.Right.{AreParts};

mod grammar;
mod tokens;
mod typed;

pub use grammar::{Keys, Parts, parts_of};
pub use typed::typed_text;

/// The parts of a line are 1 to 10 names of keys, and a string, a name of a keysym, or both.
pub fn law_parts()
    ensures { (line : List ℕ) (parts : grammar.Parts) → grammar.parts_of line ≡ Some parts
        → AreParts parts }
{}
