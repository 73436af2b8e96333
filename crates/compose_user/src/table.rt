//! The first Compose file of a user that exists.
ghost use Rattle.std.specs.Prelude.{◌≡◌, map, option_map, IfOk, string_bytes};
ghost use Rattle.compose_user.specs.Paths.{IsFirstFile, IsKnown};

use compose_folder::{Folder, ReadOnce, Unread};
use std::alloc::{AllocError, Global};

/// Returns the first of these paths at which a file can be read. O(bytes of the files), each of
/// which is read once in a run.
///
/// Errors: `AllocError` if memory runs out.
pub fn first_file<F: Folder>(
    files: &mut ReadOnce<F>,
    alloc: Global,
    paths: &[String],
) -> Result<Option<String>, AllocError>
    ensures kept { files.new.holds ≡ files.old.holds }
    ensures first { IfOk result
        (λ path. IsFirstFile files.old.holds (map string_bytes paths.now) (option_map string_bytes path)) }
{
    for path in paths {
        let text = path.as_str();
        let there = is_file(files, alloc, text)?;
        if there {
            let copy = String::from_str(alloc, text)?;
            return Ok(Some(copy));
        }
    }
    Ok(None)
}

/// Returns whether a file can be read at this path.
fn is_file<F: Folder>(
    files: &mut ReadOnce<F>,
    alloc: Global,
    path: &str,
) -> Result<bool, AllocError>
    ensures kept { files.new.holds ≡ files.old.holds }
    ensures is { IfOk result (λ is. IsKnown files.old.holds path.now is) }
{
    match files.read(alloc, path) {
        Ok(_) => Ok(true),
        Err(Unread::Refused(_)) => Ok(false),
        Err(Unread::NoMemory) => Err(AllocError),
    }
}
