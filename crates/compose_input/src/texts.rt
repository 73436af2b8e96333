//! A file as it is.
ghost use Rattle.std.specs.Prelude.{◌≡◌};
ghost use Rattle.compose_input.specs.Texts.{IsRead, IsUnread, named};

use crate::fault::{Fault, Unopened};
use compose_folder::{Folder, ReadOnce, Unread};
use std::alloc::Global;
use std::io::ErrorKind;

/// Returns the bytes of the file at this path; `-` is standard input. O(bytes).
///
/// Errors: `Unread` if it can't be read, or `NoMemory` if memory runs out.
pub fn read_text<F: Folder>(
    files: &mut ReadOnce<F>,
    alloc: Global,
    path: &str,
) -> Result<Vec<u8>, Fault>
    ensures kept { files.new.holds ≡ files.old.holds }
    ensures reads { IsRead files.old.holds path.now result }
{
    match files.read(alloc, path) {
        Ok(bytes) => Ok(bytes),
        Err(Unread::Refused(kind)) => Err(unread(alloc, path, kind)),
        Err(Unread::NoMemory) => Err(Fault::NoMemory),
    }
}

/// Returns the bytes of the file at a path that is written in a file, where `-` is an ordinary file
/// name. O(bytes).
pub(crate) fn read_named<F: Folder>(
    files: &mut ReadOnce<F>,
    alloc: Global,
    path: &str,
) -> Result<Vec<u8>, Fault>
    ensures kept { files.new.holds ≡ files.old.holds }
    ensures reads { IsRead files.old.holds (named path.now) result }
{
    if path == "-" {
        return read_text(files, alloc, "./-");
    }
    read_text(files, alloc, path)
}

/// Returns the fault that the file at this path can't be read.
pub(crate) fn unread(alloc: Global, path: &str, kind: ErrorKind) -> Fault
    ensures { IsUnread path.now kind result }
{
    match String::from_str(alloc, path) {
        Ok(path) => Fault::Unread(Unopened { path, kind }),
        Err(_) => Fault::NoMemory,
    }
}
