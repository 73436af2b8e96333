//! The commands of `composecheck` as functions over values: each returns its answer on the bytes
//! that it is given.
#![tactic(auto)]

mod checking;
mod explaining;
mod fresh;
mod making;
mod making_all;
mod typing;

pub use checking::{check_allowed, check_migration};
pub use explaining::{explain_all_migration, explain_migration};
pub use making::make_migration;
pub use making_all::make_all_migration;
pub use typing::{TypeFault, type_keys, type_lines, type_lists};
