//! The commands of `compose_commands` on the plain form of a table. Tests run it beside
//! `composecheck`, and it has to answer alike; it is not installed.
//!
//! ```text
//! python3 tests/run.py crates/composecheck_list/out/composecheck_list
//! ```
#![tactic(auto)]

use compose_commands::run;
use compose_tree::ListTable;
use std::io::IsTerminal;
use std::process;
use std::process::ExitCode;

fn main(rt: HostRuntime) -> ExitCode {
    run::<ListTable>(&rt, process::id(rt.process()), rt.stdout().is_terminal())
}
