//! What becomes of the table in use and of the next one.
ghost use Rattle.compose_stored.specs.Storing.{IsStored, IsRewritten, IsTaken, IsHandedOver, IsDropped};

use crate::files::{Name, StateFiles};
use crate::steps::{replace, use_file, write_whole};
use std::io::ErrorKind;

/// Stores the table in use, and keeps the one before it, or none. At each moment the old table or
/// the new one is there, whole. If the disk can't be waited for in the end, the new table is in
/// use, and only a power cut may bring the old one back. O(1) calls and the time to write the
/// bytes.
///
/// Errors: the reason if it can't be stored, also if the table before the last change can neither
/// be replaced nor be removed; the table in use is the old one then.
pub fn store<F: StateFiles>(files: &mut F, bytes: &[u8]) -> Result<(), ErrorKind>
    ensures { IsStored bytes.now (F.calls files.old) (F.calls files.new) result }
{
    match write_whole(files, Name::NewTable, bytes) {
        Ok(()) => use_file(files, Name::NewTable),
        Err(why) => Err(why),
    }
}

/// Stores the table in use once more, with other settings. The table before the last change stays
/// as it is. O(1) calls and the time to write the bytes.
///
/// Errors: the reason if it can't be stored; the table in use is the old one then.
pub fn rewrite<F: StateFiles>(files: &mut F, bytes: &[u8]) -> Result<(), ErrorKind>
    ensures { IsRewritten bytes.now (F.calls files.old) (F.calls files.new) result }
{
    replace(files, Name::NewTable, Name::Table, bytes)
}

/// Makes the file `next` the table in use, and keeps the table before it, or none. At each moment
/// either the table and `next` are as before, or the table is what `next` was. O(1) calls.
///
/// Errors: the reason if that can't be done; the table in use and `next` are the old ones then.
pub fn use_next<F: StateFiles>(files: &mut F) -> Result<(), ErrorKind>
    ensures { IsTaken (F.calls files.old) (F.calls files.new) result }
{
    use_file(files, Name::Next)
}

/// Hands a table over to the service, in the file `next`, which is the old one or the new one,
/// whole, at each moment. O(1) calls and the time to write the bytes.
///
/// Errors: the reason if it can't be written; `next` is the old one then.
pub fn hand_over<F: StateFiles>(files: &mut F, bytes: &[u8]) -> Result<(), ErrorKind>
    ensures { IsHandedOver bytes.now (F.calls files.old) (F.calls files.new) result }
{
    replace(files, Name::NewNext, Name::Next, bytes)
}

/// Removes the file `next`, if there is one. O(1) calls.
///
/// Errors: the reason if it can't be removed; nothing changes then.
pub fn drop_next<F: StateFiles>(files: &mut F) -> Result<(), ErrorKind>
    ensures { IsDropped (F.calls files.old) (F.calls files.new) result }
{
    match files.remove(Name::Next) {
        Ok(()) => {
            let _ = files.sync();
            Ok(())
        }
        Err(why) => Err(why),
    }
}
