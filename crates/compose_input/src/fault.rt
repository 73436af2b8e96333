//! Why an input of a command can't be read.
ghost use Rattle.std.specs.Prelude.{◌≡◌};
ghost use Rattle.compose_input.specs.declared.fault.Fault.TheVariants.{NoMemory};

use compose_find::FindFault;
use compose_manifest::ManifestFault;
use compose_read::SourceFault;
use std::alloc::{AllocError, AllocFailed};
use std::io::ErrorKind;

/// A path at which nothing can be read or written, or no socket can be used, and the reason.
#[derive(Debug, Drop)]
pub struct Unopened {
    /// The path.
    pub path: String,
    /// The reason.
    pub kind: ErrorKind,
}

/// Why an input of a command can't be read.
#[derive(Debug, Drop)]
pub enum Fault {
    /// A file can't be read.
    Unread(Unopened),
    /// A file can't be written.
    Unwritten(Unopened),
    /// A manifest is refused.
    Manifest {
        /// The path of the manifest.
        path: String,
        /// The bytes of the file at this path.
        bytes: Vec<u8>,
        /// What is wrong with these bytes.
        fault: ManifestFault,
    },
    /// A file can't be among the sources of a table.
    Source {
        /// The table: `old`, `new` or `table`.
        part: &'static str,
        /// The path that was given for the table, or the path of the file.
        path: String,
        /// Why the file can't be a source.
        fault: SourceFault,
    },
    /// Not all files of a Compose file were found.
    Find {
        /// The include that leads to no file, and the reason.
        fault: FindFault,
        /// The paths at which the file of an include was searched for; at none of them is a file.
        tried: Vec<Unopened>,
    },
    /// A socket can't be bound, accepted from or connected to.
    Socket(Unopened),
    /// Another part of the input of a command is refused.
    Refused {
        /// The part: `load`, `state` or `connection`.
        part: &'static str,
        /// What is refused, or the reason.
        text: String,
    },
    /// A command-line argument or an environment variable is not UTF-8.
    Word,
    /// Memory ran out.
    NoMemory,
}

impl Fault {
    ghost use Rattle.compose_input.specs.Texts.{IsRefused, IsSocket};

    /// Returns `Refused` with this part of the input and the text, or `NoMemory` if there was no
    /// memory for the text. O(1).
    pub fn refused(part: &'static str, text: Result<String, AllocError>) -> Fault
        ensures { IsRefused part.now text result }
    {
        match text {
            Ok(text) => Fault::Refused { part, text },
            Err(_) => Fault::NoMemory,
        }
    }

    /// Returns `Socket` with the path of a socket that can't be used and the reason, or `NoMemory`
    /// if there was no memory for the path. O(1).
    pub fn socket(path: Result<String, AllocError>, kind: ErrorKind) -> Fault
        ensures { IsSocket path kind result }
    {
        match path {
            Ok(path) => Fault::Socket(Unopened { path, kind }),
            Err(_) => Fault::NoMemory,
        }
    }
}

impl From<AllocError> for Fault {
    ghost from_gives = { λ _ e. e ≡ NoMemory };

    fn from(_error: AllocError) -> Fault {
        Fault::NoMemory
    }
}

impl<T: Drop> From<AllocFailed<T>> for Fault {
    ghost from_gives = { λ _ e. e ≡ NoMemory };

    fn from(_error: AllocFailed<T>) -> Fault {
        Fault::NoMemory
    }
}
