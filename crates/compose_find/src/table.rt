//! The sources of a table, with the bytes of their files.
ghost use Rattle.std.specs.Prelude.{◌≡◌, ◌++◌, ◌∷◌, [], All, OnOk, IfOk, map, option_map, Some, None};
ghost use Rattle.std.specs.List.{list_any};
ghost use Rattle.std.specs.Str.{bytes_eq};
ghost use Rattle.compose_read.specs.Sources.{add_fault};
ghost use Rattle.compose_find.specs.Found.{held, held_at};
ghost use Rattle.compose_find.specs.Sources.{AreHeld};

use crate::files::Files;
use crate::found_source::FoundSource;
use compose_read::{SourceFault, Sources};
use std::alloc::{AllocError, Global};

/// The sources of a table: where each was found, and its bytes.
#[derive(Drop)]
pub struct FoundTable {
    /// Each source with its path, the root first.
    pub files: Vec<FoundSource>,
    /// The same sources in the same order, each with the kept bytes of its file: those in which its
    /// includes were found.
    pub sources: Sources<'static>,
}

impl FoundTable {
    /// Makes the table of the sources that [`find_sources`](crate::find_sources) found among these
    /// files: each source with the bytes that [`Files`] keeps for its path. These are moved out of
    /// the files; only if a later source has the same path, the earlier one gets a copy. O(s * f +
    /// s * s) in the sources and the files, and the copies of the names, and of the bytes of paths
    /// that several sources have.
    ///
    /// Errors: `AllocError` if memory runs out; the files and the sources are freed then.
    pub fn new(
        alloc: Global,
        mut files: Files,
        found: Vec<FoundSource>,
    ) -> Result<FoundTable, AllocError>
        requires { AreHeld files found.items }
        ensures files { IfOk result (λ table. table.files ≡ found) }
        ensures sources { IfOk result (λ table. table.sources ≡ map (held files) found.items) }
    {
        let mut sources = Sources::new(alloc);
        for index in 0..found.len() {
            let later = &found[index + 1..];
            add_held(alloc, &mut files, &found[index], later, &mut sources)?;
        }
        Ok(FoundTable {
            files: found,
            sources,
        })
    }
}

/// Adds a source with the bytes of its file. The files of the later sources are still there.
fn add_held(
    alloc: Global,
    files: &mut Files,
    source: &FoundSource,
    later: &[FoundSource],
    sources: &mut Sources,
) -> Result<(), AllocError>
    requires there { held_at files.old source.now.path
        ≡ Some (held files.old source.now).bytes }
    requires new { add_fault sources.old source.now.name ≡ None }
    ensures added { OnOk result (sources.new ≡ sources.old ++ held files.old source.now ∷ []) }
    ensures kept { All
        (λ m. held_at files.new m.path ≡ held_at files.old m.path) later.now }
{
    let Some(bytes) = take_bytes(alloc, files, &source.path, later)? else {
        unreachable!();
    };
    match sources.add(&source.name, bytes) {
        Ok(()) => Ok(()),
        Err(SourceFault::NoMemory) => Err(AllocError),
        Err(SourceFault::NameTaken | SourceFault::TooManySources) => unreachable!(),
    }
}

/// Returns the bytes of the file at this path, if one was found there. They are moved out of the
/// files, or copied if a later source has this path too.
fn take_bytes(
    alloc: Global,
    files: &mut Files,
    path: &str,
    later: &[FoundSource],
) -> Result<Option<Vec<u8>>, AllocError>
    ensures bytes { IfOk result
        (λ bytes. option_map (λ b. b.items) bytes ≡ held_at files.old path.now) }
    ensures kept { All
        (λ m. held_at files.new m.path ≡ held_at files.old m.path) later.now }
{
    if !is_path_of_any(later, path) {
        return Ok(files.take_at(path));
    }
    match files.held_at(path) {
        Some(bytes) => Ok(Some(Vec::from_slice(alloc, bytes)?)),
        None => Ok(None),
    }
}

/// Returns whether this is the path of one of these sources.
fn is_path_of_any(sources: &[FoundSource], path: &str) -> bool
    ensures { result ≡ list_any (λ m. bytes_eq path.now m.path) sources.now }
{
    sources.iter().any(|source| has_path(source, path))
}

/// Returns whether this is the path of the source.
fn has_path(source: &FoundSource, path: &str) -> bool
    ensures { result ≡ bytes_eq path.now source.now.path }
{
    path == source.path.as_str()
}
