//! The search for the files of a table, following includes.
ghost use Rattle.std.specs.Prelude.{◌≡◌, ◌≤◌, ◌<◌, length, string_bytes, bytes_eq, slice_get, OnOk, IfOk, Ok, Some, [], ◌∷◌};
ghost use Rattle.std.specs.List.{find};
ghost use Rattle.compose_find.specs.Found as found;
ghost use Rattle.compose_find.specs.Expand as paths;
ghost use Rattle.compose_find.specs.FindReturns.{words, FindReturns};
ghost use Rattle.compose_find.specs.Sources.{AreHeld};

use crate::files::Files;
use crate::found_source::{FindFault, FoundSource, known, missing_file, refused};
use crate::includes::Include;
use crate::paths::{below_root, beside, include_path};
use crate::{IncludeFault, Meanings};
use compose_read::Sources;
use std::alloc::Global;

/// The largest depth of a source: the number of includes from the root to it.
const MAX_DEPTH: usize = 8;

/// Finds every source of the table whose root is at this path, the root first: one for each
/// different raw text of an include, with its path. There is a file at each of these paths, as
/// [`FoundTable::new`](crate::FoundTable::new) asks.
///
/// The file of an include is looked for in three places: an absolute path first below the root
/// folder of these meanings, if there is one; then the path itself; then beside the including file.
/// O(s + i * s) in the sources and includes; in addition the copies of their texts, and the
/// look-ups of paths, O(f) in the files.
///
/// Errors: `Wanted` if a path was not looked for yet: add what is found there, and search again.
/// Otherwise the error is that of the first include that can't be resolved, in the order of the
/// search (one source after another, line by line): `Include`, or `MissingFile` if its file is not
/// found. `MissingRoot` if there is no file at the root's path, and `NoMemory` if memory runs out.
pub fn find_sources(
    alloc: Global,
    files: &Files,
    meanings: Meanings<'_>,
    root: &str,
) -> Result<Vec<FoundSource>, FindFault>
    ensures found { FindReturns (λ sources. sources.items) result
        (found.found files.now (words meanings.entry) root.now) }
    ensures held { IfOk result (λ sources. AreHeld files.now sources.items) }
{
    let mut sources = Vec::new(alloc);
    sources.push(root_source(alloc, root)?)?;
    let mut index = 0;
    while index < sources.len() {
        add_includes_of(alloc, files, meanings, index, &mut sources)?;
        index += 1;
    }
    Ok(sources)
}

/// Returns the root; its name is its path.
fn root_source(alloc: Global, root: &str) -> Result<FoundSource, FindFault>
    ensures { FindReturns (λ m. m) result
        (Ok (record { name = root.now; path = root.now; depth = 0 })) }
{
    Ok(FoundSource {
        name: String::from_str(alloc, root)?,
        path: String::from_str(alloc, root)?,
        depth: 0,
    })
}

/// Adds the sources that the one at this index includes.
fn add_includes_of(
    alloc: Global,
    files: &Files,
    meanings: Meanings<'_>,
    index: usize,
    sources: &mut Vec<FoundSource>,
) -> Result<(), FindFault>
    requires within { index < length sources.old.items }
    requires few { length sources.old.items ≤ 64 }
    ensures adds { (from : found.FoundSource) → slice_get sources.old.items index ≡ Some from
        → FindReturns (λ _. sources.new.items) result
        (found.with_includes_of files.now (words meanings.entry) from sources.old.items) }
    ensures few { OnOk result (length sources.new.items ≤ 64) }
{
    let from = sources[index].copy(alloc)?;
    let includes = files.includes_at(alloc, &from.path)?;
    add_includes(alloc, files, meanings, &from, includes, sources)
}

/// Adds the sources to which these includes lead.
fn add_includes(
    alloc: Global,
    files: &Files,
    meanings: Meanings<'_>,
    from: &FoundSource,
    includes: &[Include],
    sources: &mut Vec<FoundSource>,
) -> Result<(), FindFault>
    requires { length sources.old.items ≤ 64 }
    ensures adds { FindReturns (λ _. sources.new.items) result
        (found.with_includes files.now
        (words meanings.entry) from.now includes.now sources.old.items) }
    ensures few { OnOk result (length sources.new.items ≤ 64) }
{
    for include in includes {
        add_include(alloc, files, meanings, from, include, sources)?;
    }
    Ok(())
}

/// Adds the source that an include names, unless it is known already.
fn add_include(
    alloc: Global,
    files: &Files,
    meanings: Meanings<'_>,
    from: &FoundSource,
    include: &Include,
    sources: &mut Vec<FoundSource>,
) -> Result<(), FindFault>
    requires { length sources.old.items ≤ 64 }
    ensures adds { FindReturns (λ _. sources.new.items) result
        (found.with_include files.now
        (words meanings.entry) from.now include.now sources.old.items) }
    ensures few { OnOk result (length sources.new.items ≤ 64) }
{
    let path = lead(alloc, files, meanings, from, include)?;
    add_source(alloc, from, include, path, sources)
}

/// Adds the source at this path, unless it is known already.
fn add_source(
    alloc: Global,
    from: &FoundSource,
    include: &Include,
    path: String,
    sources: &mut Vec<FoundSource>,
) -> Result<(), FindFault>
    requires few { length sources.old.items ≤ 64 }
    requires level { from.now.depth < 8 }
    ensures adds { FindReturns (λ _. sources.new.items) result
        (found.with_source from.now include.now (string_bytes path)
        (find (λ m. bytes_eq include.now.raw m.name) sources.old.items) sources.old.items) }
    ensures few { OnOk result (length sources.new.items ≤ 64) }
{
    if let Some(source) = known(sources, &include.raw) {
        if source.path.as_str() == path.as_str() {
            return Ok(());
        }
        return Err(refused(alloc, from, include, IncludeFault::TwoFiles));
    }
    if sources.len() >= Sources::MOST {
        return Err(refused(alloc, from, include, IncludeFault::TooManySources));
    }
    sources.push(FoundSource {
        name: String::from_str(alloc, &include.raw)?,
        path,
        depth: from.depth + 1,
    })?;
    Ok(())
}

/// Returns the path of the file of an include.
fn lead(
    alloc: Global,
    files: &Files,
    meanings: Meanings<'_>,
    from: &FoundSource,
    include: &Include,
) -> Result<String, FindFault>
    ensures leads { FindReturns string_bytes result
        (found.leads_to files.now (words meanings.entry) from.now include.now) }
    ensures level { OnOk result (from.now.depth < 8) }
{
    if from.depth >= MAX_DEPTH {
        return Err(refused(alloc, from, include, IncludeFault::IncludeDepth));
    }
    match include_path(alloc, meanings, &include.raw) {
        Ok(path) => located(alloc, files, meanings, from, include, path),
        Err(IncludeFault::NoMemory) => Err(FindFault::NoMemory),
        Err(fault) => Err(refused(alloc, from, include, fault)),
    }
}

/// Returns the first place at which an include with this path has a file: for an absolute path this
/// may be below the root, if a root is given.
fn located(
    alloc: Global,
    files: &Files,
    meanings: Meanings<'_>,
    from: &FoundSource,
    include: &Include,
    path: String,
) -> Result<String, FindFault>
    ensures { FindReturns string_bytes result
        (found.located files.now
        (words meanings.entry) from.now include.now (string_bytes path)) }
{
    if let Some(below) = below_root(alloc, meanings.root, &path)? {
        if files.found_includes(alloc, &below)?.is_some() {
            return Ok(below);
        }
    }
    located_here(alloc, files, from, include, path)
}

/// Returns the path itself if a file is there, or else the one beside the including file.
fn located_here(
    alloc: Global,
    files: &Files,
    from: &FoundSource,
    include: &Include,
    path: String,
) -> Result<String, FindFault>
    ensures { FindReturns string_bytes result
        (found.first_place files.now
        (found.missing_file from.now.path include.now.line (string_bytes path))
        (string_bytes path ∷ paths.beside from.now.path (string_bytes path) ∷ [])) }
{
    if files.found_includes(alloc, &path)?.is_some() {
        return Ok(path);
    }
    let beside = beside(alloc, &from.path, &path)?;
    if files.found_includes(alloc, &beside)?.is_some() {
        return Ok(beside);
    }
    Err(missing_file(alloc, from, include, path))
}
