//! Keysyms, the names of keysyms, and the text of a keysym.
//!
//! A keysym is the number of a symbol on a key (keysymdef.h). `Names` is a table of names with
//! their keysyms, and of keysyms with their characters: the core names, and the definitions of a
//! header. Contracts see it as a record of these rows, in the order in which they were added.
//! `lookup` returns the keysym of a name by the rows or by the forms `U00E9` and `0xe9`, `print` a
//! name that looks up as the keysym, `text_of` the character of a keysym, and `next_of` the keysyms
//! of a character one after another:
//!
//!     let names = Names::read(alloc, b"#define XK_Greek_alpha 0x07e1  /* U+03B1 */")?;
//!     names.lookup("Greek_alpha")      // 0x7e1, whose text is 'α'
//!     names.next_of('α', None)         // 0x7e1, and after it 0x10003b1
//!
//! The definition in a line of a header is given by a grammar, as a relation between the two
//! (`specs/HeaderLine.antt`), separately from the functions that read lines (`specs/Header.antt`);
//! `law_header_line` states that the two agree on every line.
#![tactic(auto)]

ghost use Rattle.std.specs.Prelude.{◌≡◌, ℕ, List, Some};
ghost use Rattle.keysym_core.specs.Header.{HeaderEntry, defined_entry};
ghost use Rattle.keysym_core.specs.HeaderLine.{DefinesEntry};

mod built_in;
mod built_in_characters;
mod built_in_places;
mod built_in_rows;
mod character_index;
mod core_names;
mod fault;
mod form;
mod header;
mod hints;
mod keysym;
mod names;
mod next;
mod places;
mod read;
mod same;
mod shown;
mod table;

pub use fault::NameFault;
pub use keysym::Keysym;
pub use names::Names;
pub use shown::{KeyList, ShownChar, ShownKeysym};

/// A line of a header defines at most one entry, and what is read from the line is the entry that
/// it defines.
pub fn law_header_line()
    ensures read { (line : List ℕ) (entry : HeaderEntry) → DefinesEntry line entry
        → defined_entry line ≡ Some entry }
    ensures expected { (line : List ℕ) (entry : HeaderEntry) → defined_entry line ≡ Some entry
        → DefinesEntry line entry }
    ensures one { (line : List ℕ) (a b : HeaderEntry) → DefinesEntry line a → DefinesEntry line b
        → a ≡ b }
{}
