//! Lists of keys as people write them, in one argument or on one line.
//!
//! ```text
//! keys_in(alloc, "Multi_key - >")?                  // ["Multi_key", "-", ">"]
//! keys_in(alloc, "Multi_key,minus,greater")?        // ["Multi_key", "minus", "greater"]
//! keys_in(alloc, "<Multi_key><minus><greater>")?    // ["Multi_key", "minus", "greater"]
//! ```
#![tactic(auto)]

mod items;
mod words;

pub use items::keys_in;
pub use words::words_in;
