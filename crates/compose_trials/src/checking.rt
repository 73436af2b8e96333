//! Checks of a certificate from bytes.
use crate::failure::Failure;
use crate::input::{read_file, read_sources};
use crate::marks::mark;
use crate::output::print_line;
use compose_check::{CheckInput, InputFault, Verdict, check_bytes};
use compose_model::Rule;
use compose_read::Sources;
use compose_tree::PackedTable;

/// The input of a check, except for the certificate.
#[derive(Drop)]
pub struct Parts {
    header: Vec<u8>,
    tables: Tables,
    repertoire: Vec<u8>,
}

/// The sources of both tables.
#[derive(Drop)]
struct Tables {
    old: Sources<'static>,
    new: Sources<'static>,
}

/// Reads the parts from the files. Errors: see [`Failure`].
pub fn read_parts(rt: &HostRuntime) -> Result<Parts, Failure> {
    let header = read_file(rt, "header")?;
    let tables = read_tables(rt)?;
    let repertoire = read_file(rt, "repertoire")?;
    Ok(Parts {
        header,
        tables,
        repertoire,
    })
}

/// Reads both tables.
fn read_tables(rt: &HostRuntime) -> Result<Tables, Failure> {
    let old = read_sources(rt, "old")?;
    let new = read_sources(rt, "new")?;
    Ok(Tables { old, new })
}

/// Checks a certificate with these parts. Errors: those of `check_bytes`.
pub fn check_with(
    rt: &HostRuntime,
    parts: &Parts,
    certificate: &[u8],
) -> Result<Verdict, InputFault> {
    let input = CheckInput {
        header: &parts.header,
        old: &parts.tables.old,
        new: &parts.tables.new,
        old_rule: Rule::Refuse,
        new_rule: Rule::Refuse,
        repertoire: &parts.repertoire,
        certificate,
    };
    check_bytes::<PackedTable>(rt.alloc(), &input)
}

/// Prints the answer to a certificate. `Err(System)` if the output fails.
pub fn print_verdict(
    rt: &HostRuntime,
    verdict: Result<Verdict, InputFault>,
) -> Result<(), Failure> {
    match verdict {
        Ok(Verdict::Yes) => print_line(rt, "yes"),
        Ok(Verdict::No(fault)) => print_line(rt, fault),
        Err(fault) => print_line(rt, fault),
    }
}

/// Checks the certificate. Errors: see [`Failure`].
pub fn check(rt: &HostRuntime) -> Result<(), Failure> {
    let parts = read_parts(rt)?;
    check_marked(rt, &parts)
}

/// Checks it with these parts, between two marks.
fn check_marked(rt: &HostRuntime, parts: &Parts) -> Result<(), Failure> {
    let certificate = read_file(rt, "certificate")?;
    mark(rt);
    let verdict = check_with(rt, parts, &certificate);
    mark(rt);
    print_verdict(rt, verdict)
}
