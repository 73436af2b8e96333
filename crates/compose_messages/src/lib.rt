//! Messages for what is wrong with a command's input, with its place.
//!
//! [`fault_position`] finds the line and the column of a fault of a table, [`read_message`] returns
//! what is missing or expected there and what was found, and [`FileMessage`] prints both with the
//! file's path:
//!
//! ```text
//! composecheck: fi_FI.UTF-8/Compose:400:1: no keysym has the name "Multi_kei"
//! composecheck: table.compose:1:5: expected ":" or "<", found "5"
//! ```
//!
//! The faults of the other files have messages of their own ([`FaultWords`]), an overlap is
//! reported with the names of its keysyms ([`overlap_words`]), and a [`Hint`] follows if there is
//! one that helps.
#![tactic(auto)]

mod beginning;
mod characters;
mod fault_lines;
mod faults;
mod hints;
mod lines;
mod message;
mod names;
mod offsets;
mod overlap;
mod position;
mod reading;
mod tokens;

pub use characters::{CharacterHint, key_of_text, text_in_place};
pub use fault_lines::{FaultLines, PlacedFault};
pub use faults::{
    FaultWords, certificate_words, manifest_words, name_words, open_words, repertoire_words,
    socket_words, source_words,
};
pub use hints::{
    Hint, LocaleHint, certificate_hint, header_hint, include_hint, manifest_hint, name_hint,
    repertoire_hint, source_not_utf8, table_hint,
};
pub use message::{FileMessage, Message};
pub use overlap::{overlap_words, push_events};
pub use position::{Position, fault_position, line_of};
pub use reading::read_message;
