//! Text that users and files wrote, printed so that it is safe to show on a terminal.
//!
//! ```text
//! println!(rt; "{}", Shown("a\u{1b}[2J"))    // a\u{1b}[2J
//! ```
#![tactic(auto)]

mod shown;

pub use shown::{Shown, ShownLines, is_unsafe};
