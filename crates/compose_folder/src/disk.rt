//! The files of the disk.
ghost use Rattle.std.specs.Prelude.{None};

use crate::reading::{Folder, Unread};
use std::alloc::Global;
use std::fs::{File, OpenFile};
use std::io;
use std::io::{ErrorKind, Read};
use std::rt::Files;

/// The files of the disk, and standard input, whose path is `-`. No contract says what they hold.
#[derive(Drop)]
pub struct Disk<'r, R> {
    rt: &'r R,
}

impl<'r, R> Disk<'r, R> {
    /// Returns the files that this runtime can read. It takes no memory and opens no file.
    pub fn new(rt: &'r R) -> Disk<'r, R> {
        Disk { rt }
    }
}

impl<R: Files + Input + AllocGlobal> Folder for Disk<'_, R> {
    ghost holds = { λ _. None };

    ghost asked = { λ _. None };

    fn read(&mut self, alloc: Global, path: &str) -> Result<Vec<u8>, Unread> {
        let read = if path == "-" {
            standard_input(self.rt, alloc)
        } else {
            read_file(self.rt, alloc, path)
        };
        match read {
            Ok(bytes) => Ok(bytes),
            Err(error) if error.kind() == ErrorKind::OutOfMemory => Err(Unread::NoMemory),
            Err(error) => Err(Unread::Refused(error.kind())),
        }
    }
}

/// Reads standard input to its end.
fn standard_input(rt: &impl Input, alloc: Global) -> io::Result<Vec<u8>> {
    let mut bytes = Vec::new(alloc);
    rt.reader().read_to_end(&mut bytes)?;
    Ok(bytes)
}

/// Reads a file to its end, into one allocation of its size and a byte more, so that a file that
/// didn't grow meanwhile never has to be moved.
fn read_file(rt: &impl Files, alloc: Global, path: &str) -> io::Result<Vec<u8>> {
    let mut file = File::open(rt, path)?;
    let size = file.metadata()?.len();
    let mut bytes = Vec::with_capacity(alloc, (size as usize).saturating_add(1))?;
    file.read_to_end(&mut bytes)?;
    Ok(bytes)
}
