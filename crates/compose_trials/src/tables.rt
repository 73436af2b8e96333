//! Calls over an old and a new table.
use crate::failure::Failure;
use crate::input::{read_names, read_repertoire, read_table};
use crate::marks::mark;
use crate::output::print_line;
use compose_cert::{Certificate, Repertoire};
use compose_make::{Made, MakeFault, make};
use compose_tree::PackedTable;
use compose_walk::{Counterexample, explain};
use keysym_core::{Names, ShownChar};

/// The names, and an old and a new table.
#[derive(Drop)]
struct Tables {
    names: Names,
    old: PackedTable,
    new: PackedTable,
}

/// Tries the call that the argument names. `Err(Arguments)` if there is no such call; other errors:
/// see [`Failure`].
pub fn try_call(rt: &HostRuntime, call: &str) -> Result<(), Failure> {
    let tables = read_tables(rt)?;
    try_on(rt, &tables, call)
}

/// Does the same with these tables.
fn try_on(rt: &HostRuntime, tables: &Tables, call: &str) -> Result<(), Failure> {
    match call {
        "make" => try_make(rt, tables),
        "explain" => try_explain(rt, tables),
        _ => Err(Failure::Arguments),
    }
}

/// Reads the tables from the files.
fn read_tables(rt: &HostRuntime) -> Result<Tables, Failure> {
    let names = read_names(rt, "header")?;
    let old = read_table(rt, &names, "old")?;
    read_new(rt, names, old)
}

/// Reads the new table, with the names and the old table at hand.
fn read_new(rt: &HostRuntime, names: Names, old: PackedTable) -> Result<Tables, Failure> {
    let new = read_table(rt, &names, "new")?;
    Ok(Tables { names, old, new })
}

/// Makes a certificate, between two marks.
fn try_make(rt: &HostRuntime, tables: &Tables) -> Result<(), Failure> {
    let repertoire = read_repertoire(rt)?;
    mark(rt);
    let made = make_with(rt, tables, &repertoire);
    mark(rt);
    match made {
        Ok(Made::Made(certificate)) => print_certificate(rt, &certificate),
        Ok(Made::Unreachable(character)) => print_line(rt, ShownChar(character)),
        Ok(Made::Differs(counterexample)) => print_evidence(rt, &tables.names, &counterexample),
        Err(fault) => print_line(rt, fault),
    }
}

/// Makes a certificate.
fn make_with(
    rt: &HostRuntime,
    tables: &Tables,
    repertoire: &Repertoire,
) -> Result<Made, MakeFault> {
    make(
        rt.alloc(),
        &tables.old,
        &tables.new,
        &tables.names,
        repertoire,
        &[],
    )
}

/// Prints the text of a certificate.
fn print_certificate(rt: &HostRuntime, certificate: &Certificate) -> Result<(), Failure> {
    match certificate.write_text(rt.alloc()) {
        Ok(text) => print_line(rt, text.as_str()),
        Err(_) => Err(Failure::NoMemory),
    }
}

/// Prints the evidence that the tables differ.
fn print_evidence(
    rt: &HostRuntime,
    names: &Names,
    counterexample: &Counterexample,
) -> Result<(), Failure> {
    match explain(rt.alloc(), names, counterexample) {
        Ok(text) => print_line(rt, text.as_str()),
        Err(_) => Err(Failure::NoMemory),
    }
}

/// Writes the evidence that the tables differ.
fn try_explain(rt: &HostRuntime, tables: &Tables) -> Result<(), Failure> {
    let repertoire = read_repertoire(rt)?;
    match make_with(rt, tables, &repertoire) {
        Ok(Made::Made(certificate)) => print_certificate(rt, &certificate),
        Ok(Made::Unreachable(character)) => print_line(rt, ShownChar(character)),
        Ok(Made::Differs(counterexample)) => explain_marked(rt, &tables.names, &counterexample),
        Err(fault) => print_line(rt, fault),
    }
}

/// Writes the evidence, between two marks.
fn explain_marked(
    rt: &HostRuntime,
    names: &Names,
    counterexample: &Counterexample,
) -> Result<(), Failure> {
    mark(rt);
    let explained = explain(rt.alloc(), names, counterexample);
    mark(rt);
    match explained {
        Ok(text) => print_line(rt, text.as_str()),
        Err(fault) => print_line(rt, fault),
    }
}
