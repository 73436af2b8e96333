//! The program `composecheck`: the commands of `compose_commands` on the packed form of a table.
//!
//! ```text
//! composecheck type table.manifest Multi_key apostrophe e
//! ```
#![tactic(auto)]

use compose_commands::run;
use compose_tree::PackedTable;
use std::io::IsTerminal;
use std::process;
use std::process::ExitCode;

fn main(rt: HostRuntime) -> ExitCode {
    run::<PackedTable>(&rt, process::id(rt.process()), rt.stdout().is_terminal())
}
