//! What is ready of a service's sockets, until its owner chooses another table.
ghost use Rattle.std.specs.Prelude.{None};

use crate::state_folder::StateFolder;
use compose_hub::{Readiness, Ready};
use std::io::ErrorKind;
use std::rt::Files;
use std::time::Duration;
use std::{fs, io};

/// What is ready of the sockets of a service, until a connection comes while a table waits in the
/// folder's file `next`. `update`, which writes that file, connects once to have it seen.
#[derive(Drop)]
pub struct UntilNext<'f, R, W> {
    rt: &'f R,
    folder: &'f StateFolder,
    readiness: W,
    has_come: bool,
}

impl<'f, R, W> UntilNext<'f, R, W> {
    /// Returns what is ready, with the folder whose file `next` ends the service.
    pub fn new(rt: &'f R, folder: &'f StateFolder, readiness: W) -> UntilNext<'f, R, W> {
        UntilNext {
            rt,
            folder,
            readiness,
            has_come: false,
        }
    }

    /// Returns whether the service ended since a table waits.
    pub fn has_come(&self) -> bool {
        self.has_come
    }
}

impl<R: Files, W: Readiness> Readiness for UntilNext<'_, R, W> {
    ghost waits = { λ r. None };

    /// Waits as usual. Errors: also `Interrupted` if a table waits.
    fn wait(
        &mut self,
        longest_wait: Option<Duration>,
        ready: &mut Vec<Ready>,
    ) -> io::Result<Duration> {
        let passed = self.readiness.wait(longest_wait, ready)?;
        if has_listener(ready) && is_there(self.rt, &self.folder.next) {
            self.has_come = true;
            return Err(io::Error::from(ErrorKind::Interrupted));
        }
        Ok(passed)
    }

    fn passed(&mut self) -> Duration {
        self.readiness.passed()
    }
}

/// Returns whether a connection may be accepted.
fn has_listener(ready: &[Ready]) -> bool {
    ready.iter().any(|source| *source == Ready::Listener)
}

/// Returns whether a file is at this path.
fn is_there(rt: &impl Files, path: &str) -> bool {
    matches!(fs::exists(rt, path), Ok(true))
}
