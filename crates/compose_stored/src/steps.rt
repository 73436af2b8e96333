//! The steps, in an order in which a power cut leaves whole files.
ghost use Rattle.compose_stored.specs.Changes.{Changes};
ghost use Rattle.compose_stored.specs.Steps.{ButFor, Writes, Moves, Links, Keeps, Uses, Replaces};

use crate::files::{Name, StateFiles};
use std::io::ErrorKind;

/// Renames this file to the table in use, and keeps the table before it, or none.
/// Errors: the reason if that can't be done; the table in use is the old one then.
pub(crate) fn use_file<F: StateFiles>(files: &mut F, from: Name) -> Result<(), ErrorKind>
    ensures { Uses from (F.calls files.old) (F.calls files.new) result }
{
    match keep_previous(files) {
        Ok(()) => move_to(files, from, Name::Table),
        Err(why) => Err(why),
    }
}

/// Keeps the table in use as the one before the next. If it can't be kept, none is kept.
/// Errors: the reason if it can't be kept, and the one that is kept can't be removed.
fn keep_previous<F: StateFiles>(files: &mut F) -> Result<(), ErrorKind>
    ensures { Keeps (F.calls files.old) (F.calls files.new) result }
{
    clear(files, Name::NewPrevious);
    match link_previous(files) {
        Ok(()) => Ok(()),
        Err(_) => files.remove(Name::Previous),
    }
}

/// Gives the table in use a second name, that of the table before the last change.
/// Errors: the reason if that can't be done; the table before the last change stays as it is then.
fn link_previous<F: StateFiles>(files: &mut F) -> Result<(), ErrorKind>
    ensures { Links (F.calls files.old) (F.calls files.new) result }
{
    match files.link(Name::Table, Name::NewPrevious) {
        Ok(()) => files.rename(Name::NewPrevious, Name::Previous),
        Err(why) => Err(why),
    }
}

/// Writes the bytes to a new file, which takes the place of another one.
/// Errors: the reason if that can't be done; at most the new file has changed then.
pub(crate) fn replace<F: StateFiles>(
    files: &mut F,
    new: Name,
    name: Name,
    bytes: &[u8],
) -> Result<(), ErrorKind>
    ensures { Replaces new name bytes.now (F.calls files.old) (F.calls files.new) result }
{
    match write_whole(files, new, bytes) {
        Ok(()) => move_to(files, new, name),
        Err(why) => Err(why),
    }
}

/// Writes the bytes to a new file, and waits until they are on the disk. If that fails, what was
/// written is removed, if it can be.
pub(crate) fn write_whole<F: StateFiles>(
    files: &mut F,
    name: Name,
    bytes: &[u8],
) -> Result<(), ErrorKind>
    ensures { Writes name bytes.now (F.calls files.old) (F.calls files.new) result }
{
    clear(files, name);
    match files.write(name, bytes) {
        Ok(()) => Ok(()),
        Err(why) => {
            clear(files, name);
            Err(why)
        }
    }
}

/// Renames the file, in the place of the other one, and waits until that is on the disk. If it
/// can't be waited for, the file is renamed all the same.
/// Errors: the reason if it can't be renamed; nothing changes then.
fn move_to<F: StateFiles>(files: &mut F, from: Name, to: Name) -> Result<(), ErrorKind>
    ensures { Moves from to (F.calls files.old) (F.calls files.new) result }
{
    match files.rename(from, to) {
        Ok(()) => {
            let _ = files.sync();
            Ok(())
        }
        Err(why) => Err(why),
    }
}

/// Removes the file, if it is there and can be removed.
fn clear<F: StateFiles>(files: &mut F, name: Name)
    ensures { Changes (ButFor name) (ButFor name) (F.calls files.old) (F.calls files.new) }
{
    let _ = files.remove(name);
}
