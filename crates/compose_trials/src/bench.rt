//! Times of single calls, for `bench/run.py`. `compose_trials bench WHAT FILE..` prints lines of a
//! name, a tab and a number. Times are in nanoseconds, each the least of some rounds.
//!
//! ```text
//! compose_trials bench names share/composecheck/short-unicode-names.h
//! ```
mod compiling;
mod figures;
mod loading;
mod reading;
mod serving;
mod sessions;
mod stopwatch;
mod typing;

use crate::bench::serving::start;
use crate::failure::Failure;
use compose_service::Service;
use compose_tree::PackedTable;

/// What is measured with a service.
#[derive(Clone, Copy)]
enum Measured<'a> {
    /// Loads of the same table.
    Loads,
    /// Opening and closing this number of sessions.
    Sessions(&'a str),
    /// The keys of this file, in this number of sessions.
    Keys(&'a str, &'a str),
}

/// Measures what the arguments ask for. `Err(Arguments)` if they name no measurement; other errors:
/// see [`Failure`].
pub fn run(rt: &HostRuntime, arguments: &[&str]) -> Result<(), Failure> {
    match arguments {
        ["lex", table] => reading::lex(rt, table),
        ["names", header] => reading::read_names(rt, header),
        ["certificate", certificate] => reading::read_certificate(rt, certificate),
        ["compile", header, table] => compiling::compile(rt, header, table),
        ["type", header, table, keys, turns] => typing::type_keys(rt, header, table, keys, turns),
        ["load", header, table, certificate] => {
            serve(rt, &[header, table, certificate], Measured::Loads)
        }
        ["sessions", header, table, certificate, sessions] => {
            serve(
                rt,
                &[header, table, certificate],
                Measured::Sessions(sessions),
            )
        }
        ["keys", header, table, certificate, keys, sessions] => {
            serve(
                rt,
                &[header, table, certificate],
                Measured::Keys(keys, sessions),
            )
        }
        _ => Err(Failure::Arguments),
    }
}

/// Measures a service over the packed table of a file. The files are those of the names, the table
/// and its certificate.
fn serve(rt: &HostRuntime, files: &[&str; 3], measured: Measured<'_>) -> Result<(), Failure> {
    let mut service: Service<PackedTable> = start(rt, files)?;
    measure(rt, &mut service, files, measured)
}

/// Measures this service, which was started from these files.
fn measure(
    rt: &HostRuntime,
    service: &mut Service<PackedTable>,
    files: &[&str; 3],
    measured: Measured<'_>,
) -> Result<(), Failure> {
    match measured {
        Measured::Loads => loading::load(rt, service, files),
        Measured::Sessions(count) => sessions::open_and_close(rt, service, count),
        Measured::Keys(keys, count) => {
            sessions::type_in_sessions(rt, service, files, keys, count)
        }
    }
}
