//! A folder that is asked for each path at most once.
ghost use Rattle.std.specs.Prelude.{◌≡◌, [], ◌∷◌, ◌++◌, option_copied, bytes_eq, OnOk, OnErr};
ghost use Rattle.std.specs.List.{find};
ghost use Rattle.compose_folder.specs.Content.{content_of, paths_of, unless_seen, AreHeld, IsHeld};
ghost use Rattle.compose_folder.specs.Reading.{Reads, Asks};
ghost use Rattle.compose_folder.specs.Once.{Sees, Keeps, Returns};

use crate::reading::{Folder, Unread};
use std::alloc::{AllocError, Global};
use std::io::ErrorKind;
use std::marker::Model;

/// The content that was found at a path.
#[derive(Drop)]
struct SeenPath {
    path: String,
    content: Result<Vec<u8>, ErrorKind>,
}

impl Model for SeenPath {
    ghost use Rattle.std.specs.Prelude.{string_bytes};
    ghost use Rattle.compose_folder.specs.Content.{Entry, content_of};

    ghost Value = { Entry };

    ghost view = { λ e. record {
      path = string_bytes e.path;
      content =
          content_of e.content;
    } };
}

/// A folder that is asked for each path at most once: the result is kept, also if the file could
/// not be read.
#[derive(Drop)]
pub struct ReadOnce<F: Folder> {
    folder: F,
    seen: Vec<SeenPath>,
}

impl<F: Folder> Model for ReadOnce<F> {
    ghost use Rattle.compose_folder.specs.Content.{AreHeld};
    ghost use Rattle.compose_folder.specs.Once.{OnceState};

    ghost Value = { OnceState };

    ghost view = { λ r. record {
      holds = F.holds r.folder;
      asked =
          F.asked r.folder;
      entries =
          r.seen.items;
    } };

    ghost invariant = { λ r. AreHeld (F.holds r.folder) r.seen.items };
}

impl<F: Folder> ReadOnce<F> {
    /// Returns the folder with nothing read yet. It takes no memory.
    pub fn new(alloc: Global, folder: F) -> ReadOnce<F>
        ensures { result
            ≡ record { holds = F.holds folder; asked = F.asked folder; entries = [] } }
    {
        ReadOnce {
            folder,
            seen: Vec::new(alloc),
        }
    }

    /// Returns the bytes of the file under the path: those that were read before, or else those in
    /// the folder. The folder is asked for a path only once, except that it may be asked again
    /// after memory ran out. O(bytes), and O(p) in the number of paths that were read.
    ///
    /// Errors: `Refused` if the file cannot be read, with the reason from when it was first read;
    /// `NoMemory` if memory runs out.
    pub fn read(&mut self, alloc: Global, path: &str) -> Result<Vec<u8>, Unread>
        ensures kept { self.new.holds ≡ self.old.holds }
        ensures reads { Reads self.old.holds path.now result }
        ensures asks { Asks self.old.asked self.new.asked
            (unless_seen (paths_of self.old.entries) path.now) result }
        ensures sees { Sees self.old.entries path.now self.new.entries result }
    {
        match self.find(path) {
            Some(found) => copied(alloc, found),
            None => self.read_new(alloc, path),
        }
    }

    /// Returns what was found at this path before.
    fn find(&self, path: &str) -> Option<&SeenPath>
        ensures first { option_copied result
            ≡ find (λ e. bytes_eq path.now e.path) self.now.entries }
        ensures held { AreHeld self.now.holds self.now.entries }
    {
        self.seen.iter().find(|found| has_path(found, path))
    }

    /// Reads the file under a path that was not read before.
    fn read_new(&mut self, alloc: Global, path: &str) -> Result<Vec<u8>, Unread>
        ensures kept { self.new.holds ≡ self.old.holds }
        ensures reads { Reads self.old.holds path.now result }
        ensures asks { Asks self.old.asked self.new.asked (path.now ∷ []) result }
        ensures keeps { Keeps self.old.entries path.now self.new.entries result }
    {
        match self.folder.read(alloc, path) {
            Ok(bytes) => {
                let copy = Vec::from_slice(alloc, &bytes)?;
                self.keep(alloc, path, Ok(copy))?;
                Ok(bytes)
            }
            Err(Unread::Refused(kind)) => {
                self.keep(alloc, path, Err(kind))?;
                Err(Unread::Refused(kind))
            }
            Err(Unread::NoMemory) => Err(Unread::NoMemory),
        }
    }

    /// Keeps what was found at a path. An error changes nothing.
    fn keep(
        &mut self,
        alloc: Global,
        path: &str,
        content: Result<Vec<u8>, ErrorKind>,
    ) -> Result<(), AllocError>
        requires { IsHeld self.old.holds path.now (content_of content) }
        ensures ok { OnOk result
            (self.new
            ≡ record self.old {
              entries =
                  self.old.entries
                  ++ record { path = path.now; content = content_of content } ∷ [];
            }) }
        ensures err { OnErr result (self.new ≡ self.old) }
    {
        let path = String::from_str(alloc, path)?;
        self.seen.push(SeenPath { path, content })?;
        Ok(())
    }
}

/// Returns whether it was found at this path.
fn has_path(found: &SeenPath, path: &str) -> bool
    ensures { result ≡ bytes_eq path.now found.now.path }
{
    path == found.path.as_str()
}

/// Returns a copy of what was found.
fn copied(alloc: Global, found: &SeenPath) -> Result<Vec<u8>, Unread>
    ensures { Returns found.now.content result }
{
    match &found.content {
        Ok(bytes) => Ok(Vec::from_slice(alloc, bytes)?),
        Err(kind) => Err(Unread::Refused(*kind)),
    }
}
