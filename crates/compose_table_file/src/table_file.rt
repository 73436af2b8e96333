//! The file of the table in use.
ghost use Rattle.std.specs.Prelude.{◌≡◌, List, ℕ, Option, Some, IfOk, option_map};
ghost use Rattle.compose_bundle.specs.Bundle.{Bundle, IsBundle};
ghost use Rattle.compose_table_file.specs.TableFile as words;
ghost use Rattle.compose_table_file.specs.TableFile.{AreKeysyms, TableFile, FileHas, file_of, rule_marked};
ghost use Rattle.compose_table_file.specs.Reading.{ReadsTable, WritesTable, table_of_parts};

use crate::fresh::{fresh_bytes, read_fresh};
use compose_bundle::{BundleFault, read_bundle, write_bundle};
use compose_model::Rule;
use compose_read::{SourceFault, Sources};
use keysym_core::Keysym;
use std::alloc::{AllocError, Global};
use thiserror::Error;

/// The table in use, as its file has it.
#[derive(Drop)]
pub struct StoredTable<'b> {
    /// The rule for overlaps.
    pub rule: Rule,
    /// The characters that people need, and their keys: the text of a repertoire.
    pub repertoire: Vec<u8>,
    /// The lines of the files of names; none if the names are the built-in ones.
    pub names: Vec<u8>,
    /// The keysyms that a load may list as fresh.
    pub fresh: Vec<Keysym>,
    /// The payload of the load that brought the table: a bundle.
    pub payload: &'b [u8],
}

/// The table in use, as its file is to have it.
#[derive(Clone, Copy)]
pub struct TableParts<'a> {
    /// The rule for overlaps.
    pub rule: Rule,
    /// The characters that people need, and their keys: the text of a repertoire.
    pub repertoire: &'a [u8],
    /// The lines of the files of names; none if the names are the built-in ones.
    pub names: &'a [u8],
    /// The keysyms that a load may list as fresh.
    pub fresh: &'a [Keysym],
    /// The payload of the load that brought the table: a bundle.
    pub payload: &'a [u8],
}

/// Why the file of a table can't be read or written.
#[derive(Clone, Copy, Debug, PartialEq, Eq, Drop, Error)]
pub enum StoredFault {
    /// The bytes are not those of such a file: they are no bundle, as if the file were cut off.
    #[error("1 Form")]
    Form,
    /// The file would have more than 8,388,608 bytes.
    #[error("2 TooLarge")]
    TooLarge,
    /// Memory ran out.
    #[error("3 NoMemory")]
    NoMemory,
    /// The parts behind the repertoire are not the names and the fresh keysyms.
    #[error("4 Parts")]
    Parts,
    /// The part with the fresh keysyms has other bytes than those of keysyms.
    #[error("5 Fresh")]
    Fresh,
}

/// Returns the bytes of the file that keeps a table. O(bytes).
/// Errors: `TooLarge` if the file would be larger than a load may be; `NoMemory` if memory runs out.
pub fn write_table(alloc: Global, table: &TableParts<'_>) -> Result<Vec<u8>, StoredFault>
    ensures { WritesTable result (table_of_parts table.entry.now) }
{
    let Ok(sources) = sources_of(alloc, table) else {
        return Err(StoredFault::NoMemory);
    };
    match write_bundle(alloc, &sources, table.payload) {
        Ok(bytes) => Ok(bytes),
        Err(BundleFault::TooLarge) => Err(StoredFault::TooLarge),
        Err(_) => Err(StoredFault::NoMemory),
    }
}

/// Returns the sources of the file of a table.
fn sources_of<'a>(alloc: Global, table: &TableParts<'a>) -> Result<Sources<'a>, SourceFault>
    ensures { IfOk result
        (λ sources. sources ≡ (file_of (table_of_parts table.entry.now)).sources) }
{
    let fresh = fresh_bytes(alloc, table.fresh)?;
    let mut sources = Sources::new(alloc);
    sources.add_borrowed(mark(table.rule), table.repertoire)?;
    sources.add_borrowed("names", table.names)?;
    sources.add("fresh", fresh)?;
    Ok(sources)
}

/// Reads the file that keeps a table, also in the forms of earlier versions: form 1, which has no
/// names and no fresh keysyms, and a payload alone, for which the longest of overlapping sequences
/// counts and people need no character. Then the names are the built-in ones, and no load may list
/// a fresh keysym. O(bytes).
/// Errors: `Form` if the bytes are no bundle; `Parts` or `Fresh` if a part of form 2 is missing, is
/// another one, or is none; `NoMemory` if memory runs out.
pub fn read_table(alloc: Global, bytes: &[u8]) -> Result<StoredTable<'_>, StoredFault>
    ensures { ReadsTable bytes.now result }
{
    let bundle = match read_bundle(alloc, bytes) {
        Ok(bundle) => bundle,
        Err(BundleFault::NoMemory) => return Err(StoredFault::NoMemory),
        Err(_) => return Err(StoredFault::Form),
    };
    match rule_of(&bundle.sources) {
        Some(rule) => read_parts(alloc, rule, &bundle.sources, bundle.certificate),
        None => read_before(alloc, bytes, &bundle.sources, bundle.certificate),
    }
}

/// Reads the file with these sources and this payload, whose first source marks a rule in form 2.
fn read_parts<'b>(
    alloc: Global,
    rule: Rule,
    sources: &Sources,
    payload: &'b [u8],
) -> Result<StoredTable<'b>, StoredFault>
    ensures { (bytes : List ℕ) → IsBundle bytes (record {
      sources = sources.now;
      certificate = payload.now;
    }) → rule_marked words.mark sources.now ≡ Some rule → ReadsTable bytes result }
{
    let Some((names, fresh)) = parts_of(sources) else {
        return Err(StoredFault::Parts);
    };
    let fresh = match read_fresh(alloc, fresh) {
        Ok(fresh) => fresh,
        Err(fault) => return Err(fault),
    };
    match (first_bytes(alloc, sources), Vec::from_slice(alloc, names)) {
        (Ok(repertoire), Ok(names)) => Ok(StoredTable {
            rule,
            repertoire,
            names,
            fresh,
            payload,
        }),
        _ => Err(StoredFault::NoMemory),
    }
}

/// Reads the file with these bytes, which are the bundle of these sources and this payload, and
/// which is of an earlier form.
fn read_before<'b>(
    alloc: Global,
    bytes: &'b [u8],
    sources: &Sources,
    payload: &'b [u8],
) -> Result<StoredTable<'b>, StoredFault>
    ensures { IsBundle bytes.now (record {
      sources = sources.now;
      certificate = payload.now;
    }) → rule_marked words.mark sources.now ≡ Option.None → ReadsTable bytes.now result }
{
    match first_rule_of(sources) {
        Some(rule) => match first_bytes(alloc, sources) {
            Ok(repertoire) => Ok(StoredTable {
                rule,
                repertoire,
                names: Vec::new(alloc),
                fresh: Vec::new(alloc),
                payload,
            }),
            Err(_) => Err(StoredFault::NoMemory),
        },
        None => Ok(StoredTable {
            rule: Rule::Longest,
            repertoire: Vec::new(alloc),
            names: Vec::new(alloc),
            fresh: Vec::new(alloc),
            payload: bytes,
        }),
    }
}

/// What is read from the file that was written for a table is that table.
pub fn law_table_file()
    ensures { (bytes : List ℕ) (table found : TableFile) → AreKeysyms table.fresh
        → IsBundle bytes (file_of table) → FileHas bytes found → found ≡ table }
{}

/// Returns the name of the part with the repertoire, by which the file and its rule are known.
fn mark(rule: Rule) -> &'static str
    ensures { result.now ≡ words.mark rule }
{
    match rule {
        Rule::Longest => "composecheck-table 2 longest",
        Rule::Refuse => "composecheck-table 2 refuse",
    }
}

/// Returns the rule that the name of the first source marks, if it marks one in form 2.
fn rule_of(sources: &Sources) -> Option<Rule>
    ensures { result ≡ rule_marked words.mark sources.now }
{
    match sources.name(0) {
        Some("composecheck-table 2 longest") => Some(Rule::Longest),
        Some("composecheck-table 2 refuse") => Some(Rule::Refuse),
        _ => None,
    }
}

/// Returns the rule that the name of the first source marks, if it marks one in form 1.
fn first_rule_of(sources: &Sources) -> Option<Rule>
    ensures { result ≡ rule_marked words.first_mark sources.now }
{
    match sources.name(0) {
        Some("composecheck-table 1 longest") => Some(Rule::Longest),
        Some("composecheck-table 1 refuse") => Some(Rule::Refuse),
        _ => None,
    }
}

/// Returns the contents of the sources `names` and `fresh`, if these are the two behind the first.
fn parts_of<'a>(sources: &'a Sources) -> Option<(&'a [u8], &'a [u8])>
    ensures { option_map (λ p. (p.0.now, p.1.now)) result ≡ words.parts sources.now }
{
    if sources.count() != 3
        || sources.name(1) != Some("names")
        || sources.name(2) != Some("fresh")
    {
        return None;
    }
    Some((sources.bytes(1), sources.bytes(2)))
}

/// Returns the bytes of the first source; none if there is no source.
fn first_bytes(alloc: Global, sources: &Sources) -> Result<Vec<u8>, AllocError>
    ensures { IfOk result (λ bytes. bytes.items ≡ words.first_bytes sources.now) }
{
    if sources.count() == 0 {
        return Ok(Vec::new(alloc));
    }
    Vec::from_slice(alloc, sources.bytes(0))
}
