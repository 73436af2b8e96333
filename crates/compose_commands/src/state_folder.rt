//! The folder of the table in use. While a service runs it holds the lock and is the only writer of
//! the table; otherwise `update` holds it while it writes. In which order the files of tables change
//! is under contract (`compose_stored`): a power cut at any moment leaves whole tables.
//!
//! | File | What it has |
//! |---|---|
//! | `lock` | nothing: it is locked by who may write `table` |
//! | `handing` | nothing: it is locked by the update that writes `next` |
//! | `table` | the table in use |
//! | `previous` | the table before the last change |
//! | `next` | a table that the owner chose, until the service takes it |
use crate::disk_files::DiskFiles;
use compose_input::{Fault, Unopened};
use compose_stored::{Name, drop_next, hand_over, rewrite, store, use_next};
use std::alloc::Global;
use std::fs::{DirBuilder, File, OpenOptions, Permissions, TryLockError};
use std::io::ErrorKind;
use std::os::unix::fs::{DirBuilderExt, OpenOptionsExt, PermissionsExt};
use std::path::Path;
use std::rt::Files;
use std::{fs, io};

/// What is printed behind the reason why it is not known whether a change is on the disk.
pub const UNSYNCED: &str = ": if the power fails now, the table before may be in use again";

/// The folder of the table in use.
#[derive(Drop)]
pub struct StateFolder {
    /// Its path.
    pub path: String,
    /// The path of the table in use.
    pub table: String,
    /// The path of the table before the last change.
    pub previous: String,
    /// The path of a table that the owner chose, and that the service has not taken yet.
    pub next: String,
    new_table: String,
    new_previous: String,
    new_next: String,
}

/// A change of the folder that was made.
#[derive(Clone, Copy, Debug, PartialEq, Eq, Drop)]
pub enum Changed {
    /// It is on the disk.
    Kept,
    /// Whether it is on the disk is not known, for this reason: a power cut may undo it.
    Unsynced(ErrorKind),
}

/// A lock that keeps other writers out of the folder while it exists. It is released when the
/// process ends in any way.
#[derive(Drop)]
pub struct FolderLock {
    _file: File,
}

impl StateFolder {
    /// Returns the folder at this path.
    /// Errors: `NoMemory` if memory runs out.
    pub fn new(alloc: Global, path: &str) -> Result<StateFolder, Fault> {
        Ok(StateFolder {
            path: String::from_str(alloc, path)?,
            table: format!(in alloc; "{path}/table")?,
            previous: format!(in alloc; "{path}/previous")?,
            next: format!(in alloc; "{path}/next")?,
            new_table: format!(in alloc; "{path}/table.new")?,
            new_previous: format!(in alloc; "{path}/previous.new")?,
            new_next: format!(in alloc; "{path}/next.new")?,
        })
    }

    /// Returns the path of this file of the folder.
    pub fn path_of(&self, name: Name) -> &str {
        match name {
            Name::Table => &self.table,
            Name::NewTable => &self.new_table,
            Name::Previous => &self.previous,
            Name::NewPrevious => &self.new_previous,
            Name::Next => &self.next,
            Name::NewNext => &self.new_next,
        }
    }

    /// Returns whether the folder exists.
    pub fn is_there(&self, rt: &impl Files) -> bool {
        matches!(fs::exists(rt, self.path.as_str()), Ok(true))
    }

    /// Creates the folder if it doesn't exist, for its user alone. A folder that is there already
    /// is closed to others too, if it is the user's own.
    /// Errors: `Unwritten` if it can't be created; `NoMemory` if memory runs out.
    pub fn create(&self, rt: &(impl Files + AllocGlobal)) -> Result<(), Fault> {
        match self.create_private(rt) {
            Ok(()) => Ok(()),
            Err(error) => Err(unwritten(rt.alloc(), &self.path, error.kind())),
        }
    }

    /// Creates the folder, and those above it.
    fn create_private(&self, rt: &impl Files) -> io::Result<()> {
        if self.is_there(rt) {
            let _ = fs::set_permissions(rt, self.path.as_str(), Permissions::from_mode(0o700));
            return Ok(());
        }
        if let Some(parent) = Path::new(self.path.as_str()).parent() {
            fs::create_dir_all(rt, parent)?;
        }
        DirBuilder::new().mode(0o700).create(rt, self.path.as_str())
    }

    /// Locks the table in use, unless somebody else has locked it: then returns `None`.
    /// Errors: `Unwritten` if the lock file can't be opened or locked; `NoMemory` if memory runs
    /// out.
    pub fn try_lock(
        &self,
        rt: &(impl Files<File = File> + AllocGlobal),
    ) -> Result<Option<FolderLock>, Fault> {
        let lock = format!(in rt.alloc(); "{}/lock", self.path)?;
        match locked(rt, &lock) {
            Ok(lock) => Ok(lock),
            Err(error) => Err(unwritten(rt.alloc(), &lock, error.kind())),
        }
    }

    /// Locks the file `next`, unless another update has locked it: then returns `None`.
    /// Errors: the reason if that can't be done.
    pub fn try_lock_next(
        &self,
        rt: &(impl Files<File = File> + AllocGlobal),
    ) -> io::Result<Option<FolderLock>> {
        let lock = format!(in rt.alloc(); "{}/handing", self.path)?;
        locked(rt, &lock)
    }

    /// Returns whether somebody may write the table in use. It makes no file.
    pub fn is_locked(&self, rt: &(impl Files<File = File> + AllocGlobal)) -> Result<bool, Fault> {
        let lock = format!(in rt.alloc(); "{}/lock", self.path)?;
        match File::open(rt, &lock) {
            Ok(file) => Ok(file.try_lock_shared().is_err()),
            Err(_) => Ok(false),
        }
    }

    /// Stores the table in use, and keeps the one before it.
    /// Errors: the reason if it can't be stored; the table in use is the old one then.
    pub fn store(&self, rt: &impl Files<File = File>, bytes: &[u8]) -> Result<Changed, ErrorKind> {
        let mut files = DiskFiles::open(rt, self)?;
        store(&mut files, bytes)?;
        Ok(files.changed())
    }

    /// Stores the table in use once more, with other settings. The table before the last change stays
    /// as it is.
    /// Errors: the reason if it can't be stored; the table in use is the old one then.
    pub fn rewrite(
        &self,
        rt: &impl Files<File = File>,
        bytes: &[u8],
    ) -> Result<Changed, ErrorKind> {
        let mut files = DiskFiles::open(rt, self)?;
        rewrite(&mut files, bytes)?;
        Ok(files.changed())
    }

    /// Makes the file `next` the table in use, and keeps the table before it.
    /// Errors: the reason if that can't be done; the table in use and `next` are the old ones then.
    pub fn use_next(&self, rt: &impl Files<File = File>) -> Result<Changed, ErrorKind> {
        let mut files = DiskFiles::open(rt, self)?;
        use_next(&mut files)?;
        Ok(files.changed())
    }

    /// Hands a table over to the service, in the file `next`.
    /// Errors: the reason if it can't be written; `next` is the old one then.
    pub fn hand_over(
        &self,
        rt: &impl Files<File = File>,
        bytes: &[u8],
    ) -> Result<Changed, ErrorKind> {
        let mut files = DiskFiles::open(rt, self)?;
        hand_over(&mut files, bytes)?;
        Ok(files.changed())
    }

    /// Removes the file `next`.
    /// Errors: the reason if it can't be removed.
    pub fn drop_next(&self, rt: &impl Files<File = File>) -> Result<Changed, ErrorKind> {
        let mut files = DiskFiles::open(rt, self)?;
        drop_next(&mut files)?;
        Ok(files.changed())
    }
}

/// Prints that a change of the folder may not be on the disk, if so.
pub fn print_unsynced(rt: &impl Eprint, folder: &StateFolder, changed: Changed) {
    if let Changed::Unsynced(kind) = changed {
        let _ = eprintln!(rt; "composecheck: {}: {kind}{UNSYNCED}", folder.path);
    }
}

/// Returns the bytes of the file at this path, or `None` if there is no file.
/// Errors: `Unread` if the file exists and can't be read; `NoMemory` if memory runs out.
pub fn read_if_there(
    rt: &(impl Files + AllocGlobal),
    path: &str,
) -> Result<Option<Vec<u8>>, Fault> {
    match fs::read(rt, path) {
        Ok(bytes) => Ok(Some(bytes)),
        Err(error) if error.kind() == ErrorKind::NotFound => Ok(None),
        Err(error) if error.kind() == ErrorKind::OutOfMemory => Err(Fault::NoMemory),
        Err(error) => Err(Fault::Unread(unopened(rt.alloc(), path, error.kind())?)),
    }
}

/// Returns the fault that the file at this path can't be written.
pub fn unwritten(alloc: Global, path: &str, kind: ErrorKind) -> Fault {
    match unopened(alloc, path, kind) {
        Ok(_) if kind == ErrorKind::OutOfMemory => Fault::NoMemory,
        Ok(unopened) => Fault::Unwritten(unopened),
        Err(fault) => fault,
    }
}

/// Returns a path at which something failed, and the reason.
fn unopened(alloc: Global, path: &str, kind: ErrorKind) -> Result<Unopened, Fault> {
    let path = String::from_str(alloc, path)?;
    Ok(Unopened { path, kind })
}

/// Locks the file at this path, which is made if it isn't there, unless somebody else has locked it.
fn locked(rt: &impl Files<File = File>, path: &str) -> io::Result<Option<FolderLock>> {
    let mut how = OpenOptions::new();
    how.write(true).create(true).mode(0o600);
    let file = how.open(rt, path)?;
    match file.try_lock() {
        Ok(()) => Ok(Some(FolderLock { _file: file })),
        Err(TryLockError::WouldBlock) => Ok(None),
        Err(TryLockError::Error(error)) => Err(error),
    }
}
