//! The table in use of a service, as it is kept in its folder.
ghost use Rattle.std.specs.Prelude.{[]};
ghost use Rattle.compose_keep.specs.Stored.{kept_of};

use crate::state_folder::{Changed, StateFolder};
use compose_keep::{Keep, KeptTable, NotKept};
use compose_model::Rule;
use compose_table_file::{StoredFault, TableParts, write_table};
use keysym_core::Keysym;
use std::alloc::Global;
use std::fs::File;
use std::io::ErrorKind;
use std::rt::Files;

/// What is kept beside a table, and stays while loads change the table.
#[derive(Drop)]
pub struct KeptSettings {
    /// The text of the repertoire.
    pub repertoire: Vec<u8>,
    /// The lines of the names; none if they are the built-in ones.
    pub names: Vec<u8>,
    /// The keysyms that a load may list as fresh.
    pub fresh: Vec<Keysym>,
}

impl KeptSettings {
    /// Returns the bytes of the file that keeps a table with these settings.
    /// Errors: the reason if it would be too large, or if memory runs out.
    fn file(&self, alloc: Global, rule: Rule, payload: &[u8]) -> Result<Vec<u8>, ErrorKind> {
        let parts = TableParts {
            rule,
            repertoire: &self.repertoire,
            names: &self.names,
            fresh: &self.fresh,
            payload,
        };
        match write_table(alloc, &parts) {
            Ok(file) => Ok(file),
            Err(StoredFault::TooLarge) => Err(ErrorKind::FileTooLarge),
            Err(_) => Err(ErrorKind::OutOfMemory),
        }
    }
}

/// The table in use, as it is kept in the folder of a service that holds its lock. No contract can
/// say what a file holds, so what is known here is what was read when the service began, and what
/// was stored since.
#[derive(Drop)]
pub struct KeptFile<'f, R> {
    rt: &'f R,
    folder: &'f StateFolder,
    settings: KeptSettings,
    kept: KeptTable,
    /// Whether the file in the folder has other settings.
    has_new_settings: bool,
    /// Why the last table could not be stored, if it could not.
    failure: Option<ErrorKind>,
    /// Whether the last table that was stored is on the disk.
    changed: Changed,
}

impl<'f, R> KeptFile<'f, R> {
    /// Returns a file of this folder, which has this table, and these settings or others.
    pub fn new(
        rt: &'f R,
        folder: &'f StateFolder,
        settings: KeptSettings,
        has_new_settings: bool,
        kept: KeptTable,
    ) -> KeptFile<'f, R> {
        KeptFile {
            rt,
            folder,
            settings,
            has_new_settings,
            kept,
            failure: None,
            changed: Changed::Kept,
        }
    }

    /// Returns why the last table could not be stored, if it could not.
    pub fn failure(&self) -> Option<ErrorKind> {
        self.failure
    }

    /// Returns the folder.
    pub fn folder(&self) -> &StateFolder {
        self.folder
    }

    /// Returns whether the last table that was stored is on the disk.
    pub fn changed(&self) -> Changed {
        self.changed
    }

    /// Returns whether the file in the folder has other settings than those that are to be kept.
    pub fn has_new_settings(&self) -> bool {
        self.has_new_settings
    }

    /// Returns the lines of the names that are kept; none if they are the built-in ones.
    pub fn names(&self) -> &[u8] {
        &self.settings.names
    }

    /// Returns the payload of the table that is kept.
    pub fn payload(&self) -> &[u8] {
        &self.kept.payload
    }
}

impl<R: Files<File = File> + AllocGlobal> KeptFile<'_, R> {
    /// Stores a table in the folder.
    fn store(&self, alloc: Global, rule: Rule, payload: &[u8]) -> Result<Changed, ErrorKind> {
        let file = self.settings.file(alloc, rule, payload)?;
        self.folder.store(self.rt, &file)
    }

    /// Stores the same table in the folder once more, with other settings. The table before the last
    /// change stays.
    /// Errors: the reason if it can't be stored; nothing changes in the folder then.
    pub fn store_settings(&self, alloc: Global) -> Result<Changed, ErrorKind> {
        let file = self
            .settings
            .file(alloc, self.kept.rule, &self.kept.payload)?;
        self.folder.rewrite(self.rt, &file)
    }
}

impl<R: Files<File = File> + AllocGlobal> Keep for KeptFile<'_, R> {
    ghost kept = { λ file. kept_of file.kept };

    ghost moments = { λ file. [] };

    fn put(&mut self, alloc: Global, rule: Rule, payload: &[u8]) -> Result<(), NotKept> {
        let kept = KeptTable::copied(alloc, rule, payload)?;
        match self.store(alloc, rule, payload) {
            Ok(changed) => {
                self.failure = None;
                self.changed = changed;
                self.kept = kept;
                Ok(())
            }
            Err(kind) => {
                self.failure = Some(kind);
                Err(NotKept)
            }
        }
    }

    fn get(&self, alloc: Global) -> Result<KeptTable, NotKept> {
        KeptTable::copied(alloc, self.kept.rule, &self.kept.payload)
    }
}
