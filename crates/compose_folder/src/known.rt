//! A folder of known files.
ghost use Rattle.std.specs.Prelude.{◌≡◌, [], ◌∷◌, ◌++◌, Some, map, option_map, option_copied, string_bytes, bytes_eq, OnOk, OnErr};
ghost use Rattle.std.specs.List as list;
ghost use Rattle.compose_folder.specs.Content.{File};

use crate::reading::{Folder, Unread};
use std::alloc::{AllocError, Global};
use std::io::ErrorKind;
use std::marker::Model;

/// A known file, and its path.
#[derive(Drop)]
struct KnownFile {
    path: String,
    bytes: Vec<u8>,
}

impl Model for KnownFile {
    ghost use Rattle.std.specs.Prelude.{string_bytes};
    ghost use Rattle.compose_folder.specs.Content.{Entry, File};

    ghost Value = { Entry };

    ghost view = { λ f. record {
      path = string_bytes f.path;
      content =
          File f.bytes.items;
    } };
}

/// A folder of known files, which keeps the list of paths that it was asked for.
#[derive(Drop)]
pub struct Memory {
    files: Vec<KnownFile>,
    asked: Vec<String>,
}

impl Memory {
    /// Returns a folder without files. It takes no memory.
    pub fn new(alloc: Global) -> Memory
        ensures holds { ⟦<Memory as Folder>⟧.holds result ≡ Some [] }
        ensures asked { ⟦<Memory as Folder>⟧.asked result ≡ Some [] }
    {
        Memory {
            files: Vec::new(alloc),
            asked: Vec::new(alloc),
        }
    }

    /// Adds a file after the others; if several have the same path, the first one counts. An error
    /// leaves the files as they were.
    ///
    /// Errors: `AllocError` if memory runs out.
    pub fn add(&mut self, alloc: Global, path: &str, bytes: &[u8]) -> Result<(), AllocError>
        ensures ok { OnOk result
            (⟦<Memory as Folder>⟧.holds self.new
            ≡ option_map (λ files. files ++ record { path = path.now; content = File bytes.now } ∷ [])
            (⟦<Memory as Folder>⟧.holds self.old)) }
        ensures err { OnErr result
            (⟦<Memory as Folder>⟧.holds self.new ≡ ⟦<Memory as Folder>⟧.holds self.old) }
        ensures asked { ⟦<Memory as Folder>⟧.asked self.new ≡ ⟦<Memory as Folder>⟧.asked self.old }
    {
        let path = String::from_str(alloc, path)?;
        let bytes = Vec::from_slice(alloc, bytes)?;
        self.files.push(KnownFile { path, bytes })?;
        Ok(())
    }

    /// Returns the paths that the folder was asked for, the newest last. O(1).
    pub fn asked(&self) -> &[String]
        ensures { Some (map string_bytes result.now) ≡ ⟦<Memory as Folder>⟧.asked self.now }
    {
        &self.asked
    }
}

impl Folder for Memory {
    ghost holds = { λ m. Some m.files.items };

    ghost asked = { λ m. Some (map string_bytes m.asked.items) };

    fn read(&mut self, alloc: Global, path: &str) -> Result<Vec<u8>, Unread> {
        self.asked.push(String::from_str(alloc, path)?)?;
        match find(&self.files, path) {
            Some(file) => Ok(Vec::from_slice(alloc, &file.bytes)?),
            None => Err(Unread::Refused(ErrorKind::NotFound)),
        }
    }
}

/// Returns the first file with this path.
fn find<'f>(files: &'f [KnownFile], path: &str) -> Option<&'f KnownFile>
    ensures { option_copied result ≡ list.find (λ e. bytes_eq path.now e.path) files.now }
{
    files.iter().find(|file| has_path(file, path))
}

/// Returns whether the file has this path.
fn has_path(file: &KnownFile, path: &str) -> bool
    ensures { result ≡ bytes_eq path.now file.now.path }
{
    path == file.path.as_str()
}
