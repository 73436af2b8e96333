//! A compose state, which is fed one key after another.
//!
//! A state is the keysyms of a sequence that were typed so far, and a status.
//! [`ComposeState::feed`] feeds it the next keysym, and returns what the key commits;
//! [`ComposeState::refeed`] moves the state from one table to another, as a service does after a
//! load.
//!
//! ```text
//! let mut state = ComposeState::new();                      // <Multi_key> <apostrophe> <e> : "é"
//! state.feed(&table, &names, multi_key).word()              // "composing"
//! state.feed(&table, &names, apostrophe).word()             // "composing"
//! state.feed(&table, &names, e).text_into(&mut text)        // "é"
//! ```
#![tactic(auto)]

mod fed;
mod pending;
mod state;

pub use fed::{Fed, FedText};
pub use state::ComposeState;
