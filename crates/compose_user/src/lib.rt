//! The user's own Compose file: the one that the environment names, or one among the user's
//! settings.
//!
//! ```text
//! $XCOMPOSEFILE, $XDG_CONFIG_HOME/XCompose (or ~/.config/XCompose), ~/.XCompose
//! ```
#![tactic(auto)]

mod paths;
mod table;

pub use paths::{UserFolders, user_paths};
pub use table::first_file;
