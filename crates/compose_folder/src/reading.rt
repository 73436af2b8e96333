//! The source of files.
ghost use Rattle.std.specs.Prelude.{◌≡◌, ℕ, List, [], ◌∷◌, Option};
ghost use Rattle.compose_folder.specs.Content.{Entry};
ghost use Rattle.compose_folder.specs.Reading.{Reads, Asks};
ghost use Rattle.compose_folder.specs.declared.reading.Unread.TheVariants.{NoMemory};

use std::alloc::{AllocError, AllocFailed, Global};
use std::io::ErrorKind;

/// The reason why a file was not read.
#[derive(Clone, Copy, Debug, PartialEq, Eq, Drop)]
pub enum Unread {
    /// The file cannot be opened or read, for this reason.
    Refused(ErrorKind),
    /// Memory ran out.
    NoMemory,
}

impl From<AllocError> for Unread {
    ghost from_gives = { λ _ e. e ≡ NoMemory };

    fn from(_error: AllocError) -> Unread {
        Unread::NoMemory
    }
}

impl<T: Drop> From<AllocFailed<T>> for Unread {
    ghost from_gives = { λ _ e. e ≡ NoMemory };

    fn from(_error: AllocFailed<T>) -> Unread {
        Unread::NoMemory
    }
}

/// A source of files.
pub trait Folder: Sized + Drop {
    /// The content of each path, if it is known.
    ghost holds: { Self → Option (List Entry) };

    /// The paths that were asked for, the newest last, if they are known.
    ghost asked: { Self → Option (List (List ℕ)) };

    /// Returns the bytes of the file under the path. The path is asked for once, and the folder
    /// holds the same afterwards.
    ///
    /// Errors: `Refused` if there is no such file or it cannot be read; `NoMemory` if memory runs
    /// out.
    fn read(&mut self, alloc: Global, path: &str) -> Result<Vec<u8>, Unread>
        ensures kept { holds self.new ≡ holds self.old }
        ensures reads { Reads (holds self.old) path.now result }
        ensures asks { Asks (asked self.old) (asked self.new) (path.now ∷ []) result };
}
