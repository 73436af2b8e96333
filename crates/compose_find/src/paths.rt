//! The paths that an include may name.
ghost use Rattle.std.specs.Prelude.{◌≡◌, IfOk, option_copied, string_bytes};
ghost use Rattle.std.specs.Option.{option_map};
ghost use Rattle.compose_find.specs.Expand as paths;
ghost use Rattle.compose_find.specs.FindReturns.{words, Returns};

use crate::IncludeFault;
use crate::percent::{Meanings, expand};
use compose_lex::{LexFault, unescape};
use std::alloc::{AllocError, Global};

/// Returns the path for the raw text of an include.
pub(crate) fn include_path(
    alloc: Global,
    meanings: Meanings<'_>,
    raw: &str,
) -> Result<String, IncludeFault>
    ensures { Returns string_bytes result (paths.include_path (words meanings.entry) raw.now) }
{
    match unescape(alloc, raw) {
        Ok(text) => expand(alloc, meanings, &text),
        Err(LexFault::NoMemory) => Err(IncludeFault::NoMemory),
        Err(fault) => Err(IncludeFault::Text { fault }),
    }
}

/// Returns a relative path as seen from the folder of the file `from`, and an absolute one as it
/// is. O(bytes).
///
/// Errors: `AllocError` if memory runs out.
pub fn beside(alloc: Global, from: &str, path: &str) -> Result<String, AllocError>
    ensures { IfOk result (λ beside. string_bytes beside ≡ paths.beside from.now path.now) }
{
    let mut beside = String::new(alloc);
    if path.as_bytes().first() != Some(&b'/') {
        beside.push_str(folder_of(from))?;
    }
    beside.push_str(path)?;
    Ok(beside)
}

/// Returns a relative path as seen from this folder, and an absolute one as it is.
pub(crate) fn in_folder(alloc: Global, folder: &str, path: &str) -> Result<String, AllocError>
    ensures { IfOk result (λ whole. string_bytes whole ≡ paths.in_folder folder.now path.now) }
{
    let mut whole = String::new(alloc);
    if path.as_bytes().first() != Some(&b'/') {
        whole.push_str(folder)?;
        whole.push('/')?;
    }
    whole.push_str(path)?;
    Ok(whole)
}

/// Returns an absolute path below the root, if a root is given.
pub(crate) fn below_root(
    alloc: Global,
    root: Option<&str>,
    path: &str,
) -> Result<Option<String>, AllocError>
    ensures { IfOk result
        (λ place. option_map string_bytes place
        ≡ paths.below_root (option_copied root.entry) path.now) }
{
    let Some(root) = root else {
        return Ok(None);
    };
    if path.as_bytes().first() != Some(&b'/') {
        return Ok(None);
    }
    let mut place = String::from_str(alloc, root)?;
    place.push_str(path)?;
    Ok(Some(place))
}

/// Returns the path up to its last slash, with the slash.
fn folder_of(path: &str) -> &str
    ensures { result.now ≡ paths.folder_of path.now }
{
    match memchr::memrchr(b'/', path.as_bytes()) {
        Some(at) => &path[..at + 1],
        None => "",
    }
}
