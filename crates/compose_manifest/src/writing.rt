//! Writing the manifest of the sources that were found on a system.
ghost use Rattle.std.specs.Prelude.{◌≡◌, ◌++◌, ◌∷◌, [], IfOk, OnOk, string_bytes};
ghost use Rattle.compose_manifest.specs.Text as text;
ghost use Rattle.compose_manifest.specs.declared.writing.WriteFault.TheVariants.{NoMemory};

use crate::manifest::{Manifest, ManifestEntry, ManifestFault, read_manifest};
use compose_find::FoundSource;
use compose_model::Rule;
use std::alloc::{AllocError, AllocFailed, Global};
use thiserror::Error;

/// Why a manifest can't be written.
#[derive(Clone, Copy, Debug, PartialEq, Eq, Drop, Error)]
pub enum WriteFault {
    /// A name or a path can't be written in a manifest: for example, it has a newline or a tab.
    #[error("1 Unwritable")]
    Unwritable,
    /// A memory allocation failed.
    #[error("2 NoMemory")]
    NoMemory,
}

impl From<AllocError> for WriteFault {
    ghost from_gives = { λ _ e. e ≡ NoMemory };

    fn from(_error: AllocError) -> WriteFault {
        WriteFault::NoMemory
    }
}

impl<T: Drop> From<AllocFailed<T>> for WriteFault {
    ghost from_gives = { λ _ e. e ≡ NoMemory };

    fn from(_error: AllocFailed<T>) -> WriteFault {
        WriteFault::NoMemory
    }
}

/// Returns the manifest of these sources: one line for each, with its name, a tab and its path.
/// Reading it lists them in order, with the rule that refuses overlaps. O(bytes).
///
/// Errors: `Unwritable` if reading it would not list them, as for a path with a newline; or
/// `NoMemory`.
pub fn manifest_text(alloc: Global, sources: &[FoundSource]) -> Result<String, WriteFault>
    ensures { text.IsWritten sources.now result }
{
    let text = lines_of(alloc, sources)?;
    match read_manifest(alloc, text.as_bytes()) {
        Ok(manifest) if lists(&manifest, sources) => Ok(text),
        Err(ManifestFault::NoMemory) => Err(WriteFault::NoMemory),
        _ => Err(WriteFault::Unwritable),
    }
}

/// Returns a line for each source.
fn lines_of(alloc: Global, sources: &[FoundSource]) -> Result<String, AllocError>
    ensures { IfOk result (λ written. string_bytes written ≡ text.manifest_bytes sources.now) }
{
    let mut lines = String::new(alloc);
    for source in sources {
        push_line(&mut lines, source)?;
    }
    Ok(lines)
}

/// Adds the line of a source.
fn push_line(lines: &mut String, source: &FoundSource) -> Result<(), AllocError>
    ensures { OnOk result
        (string_bytes lines.new ≡ string_bytes lines.old ++ text.line_of source.now) }
{
    lines.push_str(&source.name)?;
    lines.push('\t')?;
    lines.push_str(&source.path)?;
    lines.push('\n')
}

/// Returns whether the manifest lists these sources, with the rule that refuses overlaps and with
/// unchanged paths.
fn lists(manifest: &Manifest, sources: &[FoundSource]) -> bool
    ensures { result ≡ text.lists manifest.now sources.now }
{
    !manifest.paths_here()
        && manifest.rule() == Rule::Refuse
        && are_entries(manifest.entries(), sources)
}

/// Returns whether the entries are those of the sources, in order.
fn are_entries(entries: &[ManifestEntry], sources: &[FoundSource]) -> bool
    ensures { result ≡ text.are_entries entries.now sources.now }
{
    if entries.len() != sources.len() {
        return false;
    }
    for (index, entry) in entries.iter().enumerate() {
        if !is_entry(entry, &sources[index]) {
            return false;
        }
    }
    true
}

/// Returns whether the entry is that of the source.
fn is_entry(entry: &ManifestEntry, source: &FoundSource) -> bool
    ensures { result ≡ text.is_entry entry.now source.now }
{
    entry.name == source.name && entry.path == source.path
}
