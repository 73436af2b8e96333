//! Lists of keys as written on lines: a list for each line.
#![tactic(auto)]

mod lists;
mod refused_list;

pub use lists::{KeyLists, key_lists};
pub use refused_list::refused_line;
