//! The files of the folder of the table in use, on the disk.
ghost use Rattle.std.specs.Prelude.{None};

use crate::state_folder::{Changed, StateFolder};
use compose_stored::{Name, StateFiles};
use std::fs::{File, OpenOptions};
use std::io::{ErrorKind, Write};
use std::os::unix::fs::OpenOptionsExt;
use std::rt::Files;
use std::{fs, io};

/// The files of a folder on the disk. The folder is open from the beginning, so that it need not be
/// opened after a file has changed.
#[derive(Drop)]
pub struct DiskFiles<'f, R> {
    rt: &'f R,
    folder: &'f StateFolder,
    opened: File,
    changed: Changed,
}

impl<'f, R: Files<File = File>> DiskFiles<'f, R> {
    /// Opens the folder.
    /// Errors: the reason if it can't be opened.
    pub fn open(rt: &'f R, folder: &'f StateFolder) -> Result<DiskFiles<'f, R>, ErrorKind> {
        match File::open(rt, folder.path.as_str()) {
            Ok(opened) => Ok(DiskFiles {
                rt,
                folder,
                opened,
                changed: Changed::Kept,
            }),
            Err(error) => Err(error.kind()),
        }
    }

    /// Returns whether what has changed is on the disk.
    pub fn changed(&self) -> Changed {
        self.changed
    }
}

impl<R: Files<File = File>> StateFiles for DiskFiles<'_, R> {
    ghost calls = { λ files. None };

    fn write(&mut self, name: Name, bytes: &[u8]) -> Result<(), ErrorKind> {
        kind_of(write_synced(self.rt, self.folder.path_of(name), bytes))
    }

    /// Renames the file. The table in use may be the previous one already, by a cut before: then
    /// both names stay, and the first one is removed. (The next table may be there anew by now.)
    fn rename(&mut self, from: Name, to: Name) -> Result<(), ErrorKind> {
        let path = self.folder.path_of(from);
        kind_of(fs::rename(self.rt, path, self.folder.path_of(to)))?;
        if matches!(from, Name::NewPrevious) {
            let _ = fs::remove_file(self.rt, path);
        }
        Ok(())
    }

    fn link(&mut self, from: Name, to: Name) -> Result<(), ErrorKind> {
        let (from, to) = (self.folder.path_of(from), self.folder.path_of(to));
        kind_of(fs::hard_link(self.rt, from, to))
    }

    fn remove(&mut self, name: Name) -> Result<(), ErrorKind> {
        match kind_of(fs::remove_file(self.rt, self.folder.path_of(name))) {
            Err(ErrorKind::NotFound) => Ok(()),
            removed => removed,
        }
    }

    fn sync(&mut self) -> Result<(), ErrorKind> {
        let synced = kind_of(self.opened.sync_all());
        if let Err(kind) = synced {
            self.changed = Changed::Unsynced(kind);
        }
        synced
    }
}

/// Returns what a call gave, with the kind of its error.
fn kind_of(given: io::Result<()>) -> Result<(), ErrorKind> {
    match given {
        Ok(()) => Ok(()),
        Err(error) => Err(error.kind()),
    }
}

/// Writes the bytes to a new file that its user alone may read, and waits until they are on the
/// disk.
fn write_synced(rt: &impl Files<File = File>, path: &str, bytes: &[u8]) -> io::Result<()> {
    let mut how = OpenOptions::new();
    how.write(true).create_new(true).mode(0o600);
    let mut file = how.open(rt, path)?;
    file.write_all(bytes)?;
    file.sync_all()
}
