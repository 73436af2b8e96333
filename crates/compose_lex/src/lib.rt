//! One line of a Compose file, the escapes of its texts, and quoting.
//!
//! `lex_line` reads a line by the grammar, each token a slice of the line, or returns the fault of
//! the first place from the left where the expected token is missing; it takes no memory. For
//! example, `<Multi_key> <apostrophe> <e> : "é" eacute # e acute` is a production of three events
//! with the raw text `é` and the result name `eacute`, and `Ctrl<a> : "x"` has a modifier list at
//! offset 0. `lex_line_into` puts the names of the events in the caller's list, so that one list
//! serves every line of a file.
//!
//! A raw text is a string as it is written, with its escapes. `unescape` returns the text that it
//! stands for, or the leftmost bad escape, and `push_text` appends that text to another one.
//! `quote` puts a text in quotes, with escapes; the part between the quotes is a raw text for the
//! same text.
//!
//! The grammar is a relation between a line and its meaning (`specs/Line.antt`). The faults of a
//! line and of a raw text are defined with the grammar too (`specs/LineFault.antt`,
//! `specs/TextFault.antt`), separately from the functions that find them (`specs/Fault.antt`,
//! `specs/Escape.antt`). The laws below state that the two agree on every line and every raw text.
#![tactic(auto)]

ghost use Rattle.std.specs.Prelude.{◌≡◌, ℕ, nat_lt, List, Ok, Err, IsTrue};
ghost use Rattle.std.specs.List.{list_all};
ghost use Rattle.compose_lex.specs.Line.{Reading, IsLine};
ghost use Rattle.compose_lex.specs.Fault.{reading_of};
ghost use Rattle.compose_lex.specs.Escape.{Unescapes, IsText, text_of, quote_inside};
ghost use Rattle.compose_lex.specs.LineFault.{IsLineFault};
ghost use Rattle.compose_lex.specs.TextFault.{IsTextFault};
ghost use Rattle.compose_lex.specs.declared.LexFault.{LexFault};
ghost use Rattle.compose_lex.specs.declared.LexFault.TheVariants as faults;

mod escapes;
mod lexer;
mod quotes;
mod scan;
mod texts;
mod token;

use arrayvec::ArrayVec;
pub use lexer::{LineContent, lex_line, lex_line_into};
pub use quotes::quote;
use std::alloc::AllocError;
pub use texts::{push_text, unescape};
use thiserror::Error;

/// The fault of a line, or of the raw text of a string. `at` is an offset in bytes in the text that
/// was passed to the function, counted from 0.
#[derive(Debug, PartialEq, Eq, Drop, Error)]
pub enum LexFault {
    /// Something other than the expected token, at its first byte; or the end of the line.
    #[error("1 BadToken at={at}")]
    BadToken { at: usize },
    /// A modifier list where an event may begin, at its first byte. Modifier lists are not
    /// supported.
    #[error("2 ModifierList at={at}")]
    ModifierList { at: usize },
    /// A string without its closing quote, at its opening quote.
    #[error("3 UnclosedString at={at}")]
    UnclosedString { at: usize },
    /// A backslash that begins none of the known escapes, at the backslash.
    #[error("4 UnknownEscape at={at}")]
    UnknownEscape { at: usize },
    /// A code without a digit, the code 0, or an octal code above 255, at its backslash.
    #[error("5 BadCode at={at}")]
    BadCode { at: usize },
    /// A colon with neither a string nor a name after it.
    #[error("6 NoResult")]
    NoResult,
    /// A 33rd event.
    #[error("7 TooManyKeysyms")]
    TooManyKeysyms,
    /// An empty text.
    #[error("8 EmptyText")]
    EmptyText,
    /// A text of more than 255 bytes.
    #[error("9 TextTooLong")]
    TextTooLong,
    /// A text whose bytes are not UTF-8.
    #[error("10 TextNotUtf8")]
    TextNotUtf8,
    /// Memory ran out.
    #[error("11 NoMemory")]
    NoMemory,
}

impl From<AllocError> for LexFault {
    ghost from_gives = { λ _ fault. fault ≡ faults.NoMemory };

    fn from(_: AllocError) -> LexFault {
        LexFault::NoMemory
    }
}

/// The content of a line; its tokens are slices of the line.
#[derive(Debug, PartialEq, Eq, Drop)]
pub enum Line<'a> {
    /// Only blanks, and perhaps a comment.
    Blank,
    /// An include, with the raw text of its string.
    Include(&'a str),
    /// A production: the names of 1 to 32 events, then the raw text of the string, the name of the
    /// result keysym, or both.
    Production {
        /// The name between `<` and `>` of each event.
        events: ArrayVec<&'a str, 32>,
        /// The part between the quotes of the string, with its escapes as written.
        raw_text: Option<&'a str>,
        /// The name of the result keysym, not looked up.
        result_name: Option<&'a str>,
    },
}

/// A line has at most one meaning by the grammar, and that is what is read.
pub fn law_one_reading()
    ensures read { (line : List ℕ) (reading : Reading) → IsLine line reading
        → reading_of line ≡ Ok reading }
    ensures one { (line : List ℕ) (a b : Reading) → IsLine line a → IsLine line b → a ≡ b }
    ensures faultless { (line : List ℕ) (reading : Reading) (fault : LexFault)
        → IsLine line reading → reading_of line ≡ Err fault → ⊥ }
{}

/// What is read is what the line means by the grammar: a line without a fault is a line of the
/// grammar.
pub fn law_right_reading()
    ensures { (line : List ℕ) (reading : Reading) → reading_of line ≡ Ok reading
        → IsLine line reading }
{}

/// The fault that is found in a line is its fault by the grammar: up to this place the tokens are
/// the first ones of a valid line, and no token of a valid line follows. A line has at most one
/// fault.
pub fn law_line_fault()
    ensures content { (line : List ℕ) (fault : LexFault) → reading_of line ≡ Err fault
        → IsLineFault line fault }
    ensures read { (line : List ℕ) (fault : LexFault) → IsLineFault line fault
        → reading_of line ≡ Err fault }
    ensures one { (line : List ℕ) (a b : LexFault) → IsLineFault line a → IsLineFault line b
        → a ≡ b }
{}

/// A raw text stands for at most one list of bytes. If these are a text, it is the one that is
/// read.
pub fn law_one_text()
    ensures one { (raw a b : List ℕ) → Unescapes raw a → Unescapes raw b → a ≡ b }
    ensures read { (raw bytes : List ℕ) → Unescapes raw bytes → IsText bytes
        → text_of raw ≡ Ok bytes }
    ensures content { (raw bytes : List ℕ) → text_of raw ≡ Ok bytes
        → Unescapes raw bytes × IsText bytes }
{}

/// The fault that is found in a raw text is the fault of its escapes, or of the bytes that it
/// stands for. A raw text has at most one fault.
pub fn law_text_fault()
    ensures content { (raw : List ℕ) (fault : LexFault) → text_of raw ≡ Err fault
        → IsTextFault raw fault }
    ensures read { (raw : List ℕ) (fault : LexFault) → IsTextFault raw fault
        → text_of raw ≡ Err fault }
    ensures one { (raw : List ℕ) (a b : LexFault) → IsTextFault raw a → IsTextFault raw b → a ≡ b }
{}

/// The part between the quotes of a quoted text is a raw text for that text.
pub fn law_quote()
    ensures { (text : List ℕ) → IsText text → IsTrue (list_all (λ b. nat_lt 0 b) text)
        → Unescapes (quote_inside text) text × (text_of (quote_inside text) ≡ Ok text) }
{}
