//! Tables of one source, and the other parts of a row.
//!
//! Most functions here call one function of the libraries, whose contract then stays out of the
//! proofs of those that call these.
use compose_cert::{CertFault, Certificate, Repertoire, RepertoireFault};
use compose_migration::{Refusal, look_up_keys};
use compose_model::Rule;
use compose_read::Sources;
use compose_tree::{BuildTable, TableFault, read_table};
use keysym_core::{Keysym, NameFault, Names};
use std::alloc::Global;
use std::test::Fail;

/// Returns the sources with this text alone.
/// Errors: memory runs out.
pub fn one_source(alloc: Global, text: &str) -> Result<Sources<'static>, Fail> {
    let mut sources = Sources::new(alloc);
    sources.add("root", Vec::from_slice(alloc, text.as_bytes())?)?;
    Ok(sources)
}

fn read<T: BuildTable>(alloc: Global, names: &Names, sources: &Sources) -> Result<T, TableFault> {
    read_table(alloc, names, sources, "root", Rule::Refuse)
}

/// Reads the table of one source.
/// Errors: the table is refused, or memory runs out.
pub fn table<T: BuildTable>(alloc: Global, names: &Names, text: &str) -> Result<T, Fail> {
    let sources = one_source(alloc, text)?;
    Ok(read(alloc, names, &sources)?)
}

/// The tables of two sources, and the names with which they are read.
#[derive(Drop)]
pub struct Tables<T: BuildTable, U: BuildTable> {
    /// The names.
    pub names: Names,
    /// The old table.
    pub old: T,
    /// The new table.
    pub new: U,
}

impl<T: BuildTable, U: BuildTable> Tables<T, U> {
    /// Reads two sources with the built-in names.
    /// Errors: a table is refused, or memory runs out.
    pub fn read(alloc: Global, old: &str, new: &str) -> Result<Tables<T, U>, Fail> {
        let names = core(alloc)?;
        let (old, new) = both(alloc, &names, old, new)?;
        Ok(Tables { names, old, new })
    }
}

fn both<T: BuildTable, U: BuildTable>(
    alloc: Global,
    names: &Names,
    old: &str,
    new: &str,
) -> Result<(T, U), Fail> {
    let old = table(alloc, names, old)?;
    let new = table(alloc, names, new)?;
    Ok((old, new))
}

/// Returns the built-in names.
/// Errors: `NoMemory` if memory runs out.
pub fn core(alloc: Global) -> Result<Names, NameFault> {
    Names::core(alloc)
}

/// Reads a repertoire.
/// Errors: the fault of the text; `NoMemory` if memory runs out.
pub fn repertoire_of(alloc: Global, text: &str) -> Result<Repertoire, RepertoireFault> {
    Repertoire::read(alloc, text.as_bytes())
}

/// Reads a certificate.
/// Errors: the fault of the text; `NoMemory` if memory runs out.
pub fn certificate_of(alloc: Global, text: &str) -> Result<Certificate, CertFault> {
    Certificate::read(alloc, text.as_bytes())
}

/// Returns the fresh keysyms of a row, which has one or none.
/// Errors: the name has no keysym, or memory runs out.
pub fn fresh_of(alloc: Global, names: &Names, key_name: &str) -> Result<Vec<Keysym>, Fail> {
    if key_name.is_empty() {
        return Ok(Vec::new(alloc));
    }
    Ok(keys_of(alloc, names, &[key_name])?)
}

fn keys_of(alloc: Global, names: &Names, key_names: &[&str]) -> Result<Vec<Keysym>, Refusal> {
    look_up_keys(alloc, names, key_names)
}

/// Returns the keysym of a key name.
/// Errors: the name has no keysym.
pub fn keysym_of(names: &Names, key_name: &str) -> Result<Keysym, Fail> {
    Ok(names.lookup(key_name).ok_or("a keysym")?)
}
