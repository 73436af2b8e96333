//! `serve`: the socket on which a service serves its connections, and their lines. How it starts,
//! and what is printed if it does not, is in `compose_service_runs`.
use crate::at_once::serve_listener;
use crate::commands::Answered;
use crate::connection_ends::print_text;
use crate::kept_serving::{GivenSettings, serve_kept};
use compose_answer::Ended;
use compose_arguments::{ServeArguments, Served, ServedFiles};
use compose_folder::{Folder, ReadOnce};
use compose_given::Environment;
use compose_input::{Fault, NameFiles};
use compose_runs::Options;
use compose_service_runs::{kept_names, start_service};
use compose_socket::{SocketFault, SocketFile, listener_of_systemd};
use compose_tree::BuildTable;
use std::alloc::Global;
use std::fs;
use std::fs::File;
use std::io::ErrorKind;
use std::net::Net;
use std::os::unix::net::UnixListener;
use std::rt::{Clock, Env, Files};

/// Serves typing sessions on a socket, one connection after another or several at once. Returns how
/// the run ends, or what is printed if the service can't start.
/// Errors: the fault of the first file that can't be read or is refused; `Word` if a variable of
/// the environment that is needed is not UTF-8; a fault of the folder or of the socket; `NoMemory`
/// if memory runs out.
pub fn serve<T: BuildTable, F: Folder>(
    rt: &(impl Clock + Env + Files<File = File> + Net + Print + Eprint + AllocGlobal),
    files: &mut ReadOnce<F>,
    environment: &Environment,
    options: Options<'_>,
    process_id: u32,
    arguments: &ServeArguments<'_>,
    allowed: Option<&[&str]>,
) -> Result<Answered, Fault> {
    match &arguments.served {
        Served::Files(served) => serve_files::<T, F>(
            rt,
            files,
            environment,
            options,
            process_id,
            arguments,
            served,
            allowed,
        ),
        Served::State { folder } => {
            let names = given_names(rt.alloc(), files, options.names)?;
            let given = GivenSettings {
                names: names.as_deref(),
                fresh: allowed,
            };
            let ended = serve_kept::<T>(rt, process_id, folder, arguments, given)?;
            Ok(Answered::Served(ended))
        }
    }
}

/// Returns the lines of the names that are given, as the file of a table keeps them; `None` if no
/// names are given.
fn given_names<F: Folder>(
    alloc: Global,
    files: &mut ReadOnce<F>,
    names: &[&str],
) -> Result<Option<Vec<u8>>, Fault> {
    if names.is_empty() {
        return Ok(None);
    }
    let read = NameFiles::read(files, alloc, names)?;
    Ok(Some(Vec::from_slice(alloc, kept_names(&read.lines))?))
}

/// Serves the table of these files.
fn serve_files<T: BuildTable, F: Folder>(
    rt: &(impl Clock + Env + Files + Net + Print + Eprint + AllocGlobal),
    files: &mut ReadOnce<F>,
    environment: &Environment,
    options: Options<'_>,
    process_id: u32,
    arguments: &ServeArguments<'_>,
    served: &ServedFiles<'_>,
    allowed: Option<&[&str]>,
) -> Result<Answered, Fault> {
    let alloc = rt.alloc();
    match start_service::<T, F>(alloc, files, environment, options, served, allowed)? {
        Ok((mut service, notes)) => {
            let _ = eprint!(rt; "{notes}");
            let listener = listen(rt, process_id, arguments)?;
            let ended = serve_listener(rt, listener, &mut service, arguments)?;
            Ok(Answered::Served(unlinked(rt, arguments, ended)))
        }
        Err(outcome) => Ok(Answered::Outcome(outcome)),
    }
}

/// Removes the socket's file, if `unlink` is set, and returns how the run ends.
pub fn unlinked(rt: &impl Files, arguments: &ServeArguments<'_>, ended: Ended) -> Ended {
    if arguments.unlink {
        let _ = fs::remove_file(rt, arguments.socket);
    }
    ended
}

/// Returns the listener that systemd passes, or otherwise one on a new socket file, and prints that
/// a client can connect.
/// Errors: a refusal of `socket` if systemd passes something that does not listen; a fault of the
/// socket if it can't be bound; `NoMemory` if memory runs out.
pub fn listen(
    rt: &(impl Env + Files + Net + Print + AllocGlobal),
    process_id: u32,
    arguments: &ServeArguments<'_>,
) -> Result<UnixListener, Fault> {
    let listener = bind(rt, process_id, arguments)?;
    let _ = print_text(rt, String::from_str(rt.alloc(), "listening\n"));
    Ok(listener)
}

/// Returns the listener that systemd passes, or otherwise one on a new socket file.
/// Errors: a refusal of `socket` if systemd passes something that does not listen; a fault of the
/// socket if it can't be bound; `NoMemory` if memory runs out.
fn bind(
    rt: &(impl Env + Files + Net + AllocGlobal),
    process_id: u32,
    arguments: &ServeArguments<'_>,
) -> Result<UnixListener, Fault> {
    match listener_of_systemd(rt, process_id) {
        Ok(Some(listener)) => return Ok(listener),
        Ok(None) => {}
        Err(fault) => return Err(socket_fault(rt.alloc(), arguments, fault)),
    }
    let file = SocketFile {
        path: arguments.socket,
        mode: arguments.mode,
        replace: arguments.replace,
    };
    match file.bind(rt, process_id) {
        Ok(listener) => Ok(listener),
        Err(fault) => Err(socket_fault(rt.alloc(), arguments, fault)),
    }
}

/// Returns the fault that there is no socket to serve on, and why.
fn socket_fault(alloc: Global, arguments: &ServeArguments<'_>, fault: SocketFault) -> Fault {
    match fault {
        SocketFault::NoMemory => Fault::NoMemory,
        SocketFault::Taken => refused_socket(alloc, arguments, ErrorKind::AlreadyExists),
        SocketFault::System(kind) => refused_socket(alloc, arguments, kind),
        SocketFault::NoListener => {
            let words = "descriptor 3, which LISTEN_FDS hands over, is no Unix socket that listens";
            Fault::refused("socket", String::from_str(alloc, words))
        }
    }
}

/// Returns the fault that the socket can't be served on, and why.
pub fn refused_socket(alloc: Global, arguments: &ServeArguments<'_>, kind: ErrorKind) -> Fault {
    Fault::socket(String::from_str(alloc, arguments.socket), kind)
}
