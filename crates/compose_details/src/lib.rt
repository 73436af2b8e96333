//! What `-v` adds to a refusal or to the answer `no`: lines with the path of a file, a position in
//! it and what is wrong there, and hints.
//!
//! [`refusal_details`] prints every faulty line of a table (at most twenty), both places of an
//! overlap, and the faulty line of any other file. [`manifest_details`] prints what is wrong with a
//! manifest, [`find_message`] which include leads to no file, and [`fault_text`] why an input of a
//! command can't be read.
//!
//! ```text
//! refused: new: 1 Read: 4 UnknownKeysym source=0 line=1 index=0      # without -v
//! composecheck: new.compose:1:1: no keysym has the name "nosuch"     # with -v
//! composecheck: hint: `--names builtin` has the names of keysymdef.h
//! ```
#![tactic(auto)]

mod answer;
mod definitions;
mod faulty;
mod files;
mod given;
mod input;
mod lines;
mod pairs;
mod refusal;
mod sides;

pub use answer::answer_details;
pub use files::{find_message, manifest_details};
pub use given::{Given, GivenTable};
pub use input::{fault_text, fault_words};
pub use lines::{path_of, push_line, whole_line};
pub use refusal::{push_hint, refusal_details};
