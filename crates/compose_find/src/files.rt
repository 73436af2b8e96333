//! Files that were looked for: their bytes and their includes.
ghost use Rattle.std.specs.Prelude.{◌≡◌, ◌++◌, ◌∷◌, [], List, ℕ, false, None, OnOk, OnErr, IfOk, option_copied, bytes_eq, string_bytes};
ghost use Rattle.std.specs.List.{find, position};
ghost use Rattle.std.specs.Option.{option_map};
ghost use Rattle.compose_find.specs.Includes.{includes_of};
ghost use Rattle.compose_find.specs.Found as found;
ghost use Rattle.compose_find.specs.FindReturns.{FindReturns};

use crate::found_source::{FindFault, missing_root, wanted};
use crate::includes::{Include, includes_of};
use std::alloc::{AllocError, Global};
use std::marker::Model;

/// A file that was read: its bytes, and the includes in them, which are searched for once.
#[derive(Drop)]
struct ReadFile {
    bytes: Vec<u8>,
    includes: Vec<Include>,
}

impl Model for ReadFile {
    ghost use Rattle.std.specs.Prelude.{◌≡◌, List, ℕ};
    ghost use Rattle.compose_find.specs.Includes.{includes_of};

    ghost Value = { List ℕ };

    ghost view = { λ f. f.bytes.items };

    ghost invariant = { λ f. f.includes.items ≡ includes_of f.bytes.items };
}

/// A path that was looked for, and its file, if there is one.
#[derive(Drop)]
struct TriedFile {
    path: String,
    file: Option<ReadFile>,
}

impl Model for TriedFile {
    ghost use Rattle.std.specs.Prelude.{string_bytes};
    ghost use Rattle.compose_find.specs.Found as found;

    ghost Value = { found.TriedFile };

    ghost view = { λ f. record { path = string_bytes f.path; bytes = f.file } };
}

/// The files that were looked for, each with its bytes.
#[derive(Drop)]
pub struct Files {
    files: Vec<TriedFile>,
}

impl Model for Files {
    ghost use Rattle.std.specs.Prelude.{List};
    ghost use Rattle.compose_find.specs.Found as found;

    ghost Value = { List found.TriedFile };

    ghost view = { λ f. f.files.items };
}

impl Files {
    /// Returns an empty list of files. It allocates nothing.
    pub fn new(alloc: Global) -> Files
        ensures { result ≡ [] }
    {
        Files {
            files: Vec::new(alloc),
        }
    }

    /// Adds what was found at a path: the bytes of the file, which are kept, or `None` if there is
    /// no file. O(bytes).
    ///
    /// Errors: `AllocError` if memory runs out; the list is unchanged then, and the bytes are
    /// freed.
    pub fn add(
        &mut self,
        alloc: Global,
        path: &str,
        bytes: Option<Vec<u8>>,
    ) -> Result<(), AllocError>
        ensures ok { OnOk result
            (self.new
            ≡ self.old
            ++ record {
              path = path.now;
              bytes = option_map (λ held. held.items) bytes;
            } ∷ []) }
        ensures err { OnErr result (self.new ≡ self.old) }
    {
        let path = String::from_str(alloc, path)?;
        let file = match bytes {
            Some(bytes) => Some(ReadFile::new(alloc, bytes)?),
            None => None,
        };
        self.files.push(TriedFile { path, file })?;
        Ok(())
    }

    /// Returns the bytes of the file at this path, if one was found there. O(f) in the files.
    pub(crate) fn held_at(&self, path: &str) -> Option<&[u8]>
        ensures { option_copied result ≡ found.held_at self.now path.now }
    {
        self.looked(path)?.bytes()
    }

    /// Takes out the bytes of the file at this path, if one was found there: from now on there is
    /// no file. O(f) in the files.
    pub(crate) fn take_at(&mut self, path: &str) -> Option<Vec<u8>>
        ensures bytes { option_map (λ b. b.items) result ≡ found.held_at self.old path.now }
        ensures others { (other : List ℕ) → bytes_eq path.now other ≡ false
            → found.held_at self.new other ≡ found.held_at self.old other }
    {
        let index = self.index_of(path)?;
        self.files[index].take_bytes()
    }

    /// Returns the includes of the file at this path, or `None` if there is no file. Errors:
    /// `Wanted` if the path was not looked for yet, or `NoMemory`.
    pub(crate) fn found_includes(
        &self,
        alloc: Global,
        path: &str,
    ) -> Result<Option<&[Include]>, FindFault>
        ensures { FindReturns option_copied result (found.found_includes self.now path.now) }
    {
        match self.looked(path) {
            Some(file) => Ok(file.includes()),
            None => Err(wanted(alloc, path)),
        }
    }

    /// Returns the includes of the file at this path. Errors: `Wanted` if the path was not looked
    /// for yet, `MissingRoot` if there is no file, or `NoMemory`.
    pub(crate) fn includes_at(&self, alloc: Global, path: &str) -> Result<&[Include], FindFault>
        ensures { FindReturns (λ i. i.now) result (found.includes_at self.now path.now) }
    {
        match self.found_includes(alloc, path)? {
            Some(includes) => Ok(includes),
            None => Err(missing_root(alloc, path)),
        }
    }

    /// Returns the entry of this path, if it was looked for.
    fn looked(&self, path: &str) -> Option<&TriedFile>
        ensures { option_copied result ≡ find (λ f. bytes_eq path.now f.path) self.now }
    {
        self.files.iter().find(|file| has_path(file, path))
    }

    /// Returns the index of the entry of this path, if it was looked for.
    fn index_of(&self, path: &str) -> Option<usize>
        ensures { result ≡ position (λ f. bytes_eq path.now f.path) self.now }
    {
        self.files.iter().position(|file| has_path(file, path))
    }
}

impl ReadFile {
    /// Makes a file of these bytes.
    fn new(alloc: Global, bytes: Vec<u8>) -> Result<ReadFile, AllocError>
        ensures { IfOk result (λ file. file ≡ bytes.items) }
    {
        let includes = includes_of(alloc, &bytes)?;
        Ok(ReadFile { bytes, includes })
    }

    /// Returns its bytes.
    fn bytes(&self) -> &[u8]
        ensures { result.now ≡ self.now }
    {
        &self.bytes
    }

    /// Returns its includes.
    fn includes(&self) -> &[Include]
        ensures { result.now ≡ includes_of self.now }
    {
        &self.includes
    }
}

impl TriedFile {
    /// Returns the bytes of the file, if there is one.
    fn bytes(&self) -> Option<&[u8]>
        ensures { option_copied result ≡ self.now.bytes }
    {
        Some(self.file.as_ref()?.bytes())
    }

    /// Takes out the bytes of the file, if there is one: from now on there is no file.
    fn take_bytes(&mut self) -> Option<Vec<u8>>
        ensures bytes { option_map (λ b. b.items) result ≡ self.old.bytes }
        ensures gone { self.new ≡ record { path = self.old.path; bytes = None } }
    {
        Some(self.file.take()?.bytes)
    }

    /// Returns the includes of the file, if there is one.
    fn includes(&self) -> Option<&[Include]>
        ensures { option_copied result ≡ option_map includes_of self.now.bytes }
    {
        Some(self.file.as_ref()?.includes())
    }
}

/// Returns whether this is the path of the file.
fn has_path(file: &TriedFile, path: &str) -> bool
    ensures { result ≡ bytes_eq path.now file.now.path }
{
    path == file.path.as_str()
}
