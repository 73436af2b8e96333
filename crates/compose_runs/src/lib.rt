//! The commands as functions over values: from the contents of the files, the environment and the
//! arguments to the [`Outcome`] of the run, which is what it prints and how it ends. Nothing is
//! printed here, and files are read through a [`ReadOnce`](compose_folder::ReadOnce) alone.
//!
//! ```text
//! let outcome =
//!     run_type::<PackedTable, _>(alloc, &mut files, options, "table.manifest", &["a", "b"])?;
//! print(rt, &outcome)
//! ```
//!
//! [`Outcome`]: compose_report::Outcome
#![tactic(auto)]

mod checking;
mod differing;
mod files;
mod linting;
mod looking_up;
mod losing;
mod making;
mod manifest;
mod one_table;
mod options;
mod skipping;
mod stored;
mod typing;
mod updating;
mod written_keys;

pub use checking::{CheckPaths, CheckTexts, run_check, run_check_files};
pub use differing::run_diff;
pub use linting::run_lint;
pub use looking_up::{run_how, run_list};
pub use making::{MakeOptions, run_make, run_make_files};
pub use manifest::run_manifest;
pub use one_table::is_refused;
pub use options::Options;
pub use stored::read_stored;
pub use typing::{run_type, run_type_file};
pub use updating::{
    IntendedChanges, UpdateFiles, UpdateRun, refused_outcome, run_update, source_names,
};
pub use written_keys::{borrowed, key_names};
