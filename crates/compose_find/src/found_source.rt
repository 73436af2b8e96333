//! The sources that the search found, and why a search fails.
ghost use Rattle.std.specs.Prelude.{◌≡◌, IfOk, option_copied, bytes_eq, string_bytes};
ghost use Rattle.std.specs.List.{find};
ghost use Rattle.compose_find.specs.Found as found;
ghost use Rattle.compose_find.specs.FindReturns.{IsStop};
ghost use Rattle.compose_find.specs.declared.found_source.FindFault.TheVariants.{NoMemory};

use crate::IncludeFault;
use crate::includes::Include;
use std::alloc::{AllocError, AllocFailed, Global};
use std::marker::Model;
use thiserror::Error;

/// A source of a table: a file of it, under the name by which it is included.
#[derive(Debug, Drop)]
pub struct FoundSource {
    /// The raw text by which includes name it; for the root, its path.
    pub name: String,
    /// The path of its file.
    pub path: String,
    /// The smallest number of includes that lead from the root to it, 0 for the root.
    pub depth: usize,
}

impl Model for FoundSource {
    ghost use Rattle.std.specs.Prelude.{string_bytes};
    ghost use Rattle.compose_find.specs.Found as found;

    ghost Value = { found.FoundSource };

    ghost view = { λ m. record {
      name = string_bytes m.name;
      path = string_bytes m.path;
      depth =
          m.depth;
    } };
}

impl FoundSource {
    /// Returns a copy.
    pub(crate) fn copy(&self, alloc: Global) -> Result<FoundSource, AllocError>
        ensures { IfOk result (λ m. m ≡ self.now) }
    {
        Ok(FoundSource {
            name: String::from_str(alloc, &self.name)?,
            path: String::from_str(alloc, &self.path)?,
            depth: self.depth,
        })
    }
}

/// Why the search didn't find all sources.
#[derive(Debug, Drop, Error)]
pub enum FindFault {
    /// The path `path` has to be looked for first.
    #[error("1 Wanted path={path}")]
    Wanted {
        path: String,
    },
    /// There is no file at the path `path` of the root.
    #[error("2 MissingRoot path={path}")]
    MissingRoot {
        path: String,
    },
    /// There is no file for an include on line `line`, counted from 1, of the file at the path
    /// `from`: neither at its path `path`, nor below the given root if the path is absolute, nor
    /// beside the including file if it is relative.
    #[error("3 MissingFile from={from} line={line} path={path}")]
    MissingFile {
        from: String,
        line: usize,
        path: String,
    },
    /// The include on line `line`, counted from 1, of the file at the path `from` can't be
    /// resolved, for the reason in `fault`.
    #[error("4 Include from={from} line={line}: {fault}")]
    Include {
        from: String,
        line: usize,
        fault: IncludeFault,
    },
    /// A memory allocation failed.
    #[error("5 NoMemory")]
    NoMemory,
}

impl From<AllocError> for FindFault {
    ghost from_gives = { λ _ e. e ≡ NoMemory };

    fn from(_error: AllocError) -> FindFault {
        FindFault::NoMemory
    }
}

impl<T: Drop> From<AllocFailed<T>> for FindFault {
    ghost from_gives = { λ _ e. e ≡ NoMemory };

    fn from(_error: AllocFailed<T>) -> FindFault {
        FindFault::NoMemory
    }
}

/// Makes the fault that a path has to be looked for first.
pub(crate) fn wanted(alloc: Global, path: &str) -> FindFault
    ensures { IsStop (found.wanted path.now) result }
{
    match String::from_str(alloc, path) {
        Ok(path) => FindFault::Wanted { path },
        Err(_) => FindFault::NoMemory,
    }
}

/// Makes the fault that there is no file at the root's path.
pub(crate) fn missing_root(alloc: Global, path: &str) -> FindFault
    ensures { IsStop (found.missing_root path.now) result }
{
    match String::from_str(alloc, path) {
        Ok(path) => FindFault::MissingRoot { path },
        Err(_) => FindFault::NoMemory,
    }
}

/// Makes the fault that there is no file for an include of this source.
pub(crate) fn missing_file(
    alloc: Global,
    from: &FoundSource,
    include: &Include,
    path: String,
) -> FindFault
    ensures { IsStop
        (found.missing_file from.now.path include.now.line (string_bytes path)) result }
{
    match String::from_str(alloc, &from.path) {
        Ok(from) => FindFault::MissingFile {
            from,
            line: include.line,
            path,
        },
        Err(_) => FindFault::NoMemory,
    }
}

/// Makes the fault that an include of this source can't be resolved.
pub(crate) fn refused(
    alloc: Global,
    from: &FoundSource,
    include: &Include,
    fault: IncludeFault,
) -> FindFault
    ensures { IsStop (found.refusal from.now include.now fault) result }
{
    match String::from_str(alloc, &from.path) {
        Ok(from) => FindFault::Include {
            from,
            line: include.line,
            fault,
        },
        Err(_) => FindFault::NoMemory,
    }
}

/// Returns the source with this name, if there is one.
pub(crate) fn known<'m>(sources: &'m [FoundSource], name: &str) -> Option<&'m FoundSource>
    ensures { option_copied result ≡ find (λ m. bytes_eq name.now m.name) sources.now }
{
    sources.iter().find(|source| has_name(source, name))
}

/// Returns whether this is the name of the source.
fn has_name(source: &FoundSource, name: &str) -> bool
    ensures { result ≡ bytes_eq name.now source.now.name }
{
    name == source.name.as_str()
}
