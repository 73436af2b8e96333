//! Where the files of a table are: a relative name of a source is a path from the folder in which
//! the table was taken, which the name of the first source keeps.
ghost use Rattle.std.specs.Prelude.{◌≡◌, ◌≢◌, [], IfOk, IfErr, option_copied, option_map, string_bytes, unwrap_or};
ghost use Rattle.compose_read.specs.declared.sources.SourceFault.TheVariants.{NoMemory};
ghost use Rattle.compose_table_file.specs.Origin as spec;
ghost use Rattle.compose_table_file.specs.Origin.{CannotBeNamed, GoesFrom, IsFilePath, IsPlainPath};

use compose_read::{SourceFault, Sources};
use std::alloc::{AllocError, Global};

/// What stands between a folder and a path from it, as rsync writes it.
const HERE: &str = "/./";

/// Returns these sources, the first one named by its path from this folder if its name is a
/// relative path. O(bytes).
/// Errors: `NameTaken` if that is the name of another one; `NoMemory` if memory runs out.
pub fn named_from(
    alloc: Global,
    folder: &str,
    sources: &Sources,
) -> Result<Sources<'static>, SourceFault>
    ensures named { IfOk result (λ named. named ≡ spec.named_from folder.now sources.now) }
    ensures refused { IfErr result
        (λ e. e ≢ NoMemory → CannotBeNamed folder.now sources.now e) }
{
    let mut named = Sources::new(alloc);
    for index in 0..sources.count() {
        let copy = Vec::from_slice(alloc, sources.bytes(index))?;
        let name = name_of(alloc, folder, index, sources.name(index))?;
        named.add(&name, copy)?;
    }
    Ok(named)
}

/// Returns the name of the source at this index, from this folder if it is the first one.
fn name_of(
    alloc: Global,
    folder: &str,
    index: usize,
    name: Option<&str>,
) -> Result<String, AllocError>
    ensures { IfOk result
        (λ named. string_bytes named
        ≡ spec.name_at folder.now index (unwrap_or (option_copied name.entry) [])) }
{
    let name = name.unwrap_or("");
    if index == 0 {
        return path_from(alloc, folder, name);
    }
    String::from_str(alloc, name)
}

/// Returns the path, from this folder if it is a relative one. O(bytes).
/// Errors: `AllocError` if memory runs out.
fn path_from(alloc: Global, folder: &str, path: &str) -> Result<String, AllocError>
    ensures { IfOk result (λ from. string_bytes from ≡ spec.path_from folder.now path.now) }
{
    if is_absolute(path) {
        return String::from_str(alloc, path);
    }
    format!(in alloc; "{folder}{HERE}{path}")
}

/// Returns the path without the mark of the folder that it goes from. O(bytes).
/// Errors: `AllocError` if memory runs out.
pub fn plain_path(alloc: Global, path: &str) -> Result<String, AllocError>
    ensures { IfOk result (λ plain. IsPlainPath path.now (string_bytes plain)) }
{
    match split_here(path) {
        Some((folder, rest)) => format!(in alloc; "{folder}/{rest}"),
        None => String::from_str(alloc, path),
    }
}

/// Returns where the file of the source with this name is, in a table whose first source has the
/// name `root`; `None` if the name is a relative path, and `root` doesn't say from which folder.
/// O(bytes).
/// Errors: `AllocError` if memory runs out.
pub fn file_path(alloc: Global, root: &str, name: &str) -> Result<Option<String>, AllocError>
    ensures { IfOk result (λ path. IsFilePath root.now name.now (option_map string_bytes path)) }
{
    if is_absolute(name) {
        return Ok(Some(plain_path(alloc, name)?));
    }
    match split_here(root) {
        Some((folder, _)) => Ok(Some(format!(in alloc; "{folder}/{name}")?)),
        None => Ok(None),
    }
}

/// Whether a path begins at the root of the file system.
fn is_absolute(path: &str) -> bool
    ensures { result ≡ spec.is_absolute path.now }
{
    path.as_bytes().first() == Some(&b'/')
}

/// Returns the folder that a path goes from and the rest of the path, if it has the mark.
fn split_here(path: &str) -> Option<(&str, &str)>
    ensures { GoesFrom path.now (option_map (λ parts. (parts.0.now, parts.1.now)) result) }
{
    path.split_once(HERE)
}
