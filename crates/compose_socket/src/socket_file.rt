//! A socket file that is created with its mode.
use mio::net::UnixStream;
use std::alloc::AllocError;
use std::fs::{DirBuilder, Permissions};
use std::net::Net;
use std::os::unix::fs::{DirBuilderExt, FileTypeExt, PermissionsExt};
use std::os::unix::net::UnixListener;
use std::rt::Files;
use std::{fs, io};
use thiserror::Error;

/// Why no socket is bound.
#[derive(Clone, Copy, Debug, PartialEq, Eq, Drop, Error)]
pub enum SocketFault {
    /// The path exists, and what is there may not be replaced.
    #[error("1 Taken")]
    Taken,
    /// The system refused a call, with this kind of error.
    #[error("2 System")]
    System(io::ErrorKind),
    /// Memory ran out.
    #[error("3 NoMemory")]
    NoMemory,
    /// The descriptor that was handed over is no Unix socket that listens.
    #[error("4 NoListener")]
    NoListener,
}

impl From<io::Error> for SocketFault {
    fn from(error: io::Error) -> SocketFault {
        match error.kind() {
            io::ErrorKind::OutOfMemory => SocketFault::NoMemory,
            io::ErrorKind::AlreadyExists => SocketFault::Taken,
            kind => SocketFault::System(kind),
        }
    }
}

impl From<AllocError> for SocketFault {
    fn from(_error: AllocError) -> SocketFault {
        SocketFault::NoMemory
    }
}

/// The place and the mode of a socket's file.
#[derive(Clone, Copy, Debug)]
pub struct SocketFile<'p> {
    /// The path of the file, of at most 95 bytes.
    pub path: &'p str,
    /// Who may connect, as the mode of a file: 0o600 is the user alone.
    pub mode: u32,
    /// Whether a stream socket on which nobody listens is replaced.
    pub replace: bool,
}

impl SocketFile<'_> {
    /// Listens on a new socket file. The socket is bound in a new folder beside the path, which
    /// only this user may enter, gets its mode there, and is then linked to the path, which
    /// replaces nothing.
    /// Errors: `Taken` if the path exists, unless `replace` is set and a socket is there on which
    /// nobody listens; also if the new folder exists. `System` with the kind of error if the system
    /// refuses a call. `NoMemory` if memory runs out.
    pub fn bind(
        &self,
        rt: &(impl Files + Net + AllocGlobal),
        process_id: u32,
    ) -> Result<UnixListener, SocketFault> {
        if self.replace {
            remove_unused(rt, self.path)?;
        }
        let folder = format!(in rt.alloc(); "{}.{}", self.path, process_id)?;
        DirBuilder::new().mode(0o700).create(rt, folder.as_str())?;
        let bound = self.bind_inside(rt, &folder);
        let _left = fs::remove_dir(rt, folder.as_str());
        bound
    }

    /// Binds in the folder, and links the socket to the path.
    fn bind_inside(
        &self,
        rt: &(impl Files + Net + AllocGlobal),
        folder: &str,
    ) -> Result<UnixListener, SocketFault> {
        let inside = format!(in rt.alloc(); "{folder}/s")?;
        let listener = UnixListener::bind(rt, inside.as_str())?;
        let placed = self.place(rt, &inside);
        let _left = fs::remove_file(rt, inside.as_str());
        placed?;
        Ok(listener)
    }

    /// Sets the mode of the socket, and links it to the path.
    fn place(&self, rt: &impl Files, inside: &str) -> Result<(), SocketFault> {
        fs::set_permissions(rt, inside, Permissions::from_mode(self.mode))?;
        fs::hard_link(rt, inside, self.path)?;
        Ok(())
    }
}

/// Removes the file at the path if it is a stream socket on which nobody listens. A socket of
/// another type, or one whose queue is full, is somebody's, and nothing is waited for.
fn remove_unused(rt: &(impl Files + Net), path: &str) -> Result<(), SocketFault> {
    let Ok(found) = fs::symlink_metadata(rt, path) else {
        return Ok(());
    };
    if !found.file_type().is_socket() || !is_stale(rt, path) {
        return Err(SocketFault::Taken);
    }
    fs::remove_file(rt, path)?;
    Ok(())
}

/// Returns whether nobody listens on the stream socket at this path.
fn is_stale(rt: &impl Net, path: &str) -> bool {
    match UnixStream::connect(rt, path) {
        Ok(_) => false,
        Err(error) => error.kind() == io::ErrorKind::ConnectionRefused,
    }
}
