//! `load` and `session`: a client of a running service. What is sent, and what is printed for the
//! replies, is in `compose_service_runs`; here are the socket and its bytes. A function returns an
//! error if its input can't be read or is refused, or if memory runs out.
ghost use Rattle.std.specs.Prelude.{None, ⊤};

use crate::deadline::{Deadline, pause};
use compose_arguments::{LoadArguments, SessionArguments};
use compose_client::{ReplyFeeder, RequestFault, put_request};
use compose_folder::{Folder, ReadOnce};
use compose_given::Environment;
use compose_input::Fault;
use compose_report::Outcome;
use compose_runs::Options;
use compose_service_runs::{ClientRequests, Peer, run_exchange, run_load, run_session};
use compose_tree::BuildTable;
use compose_wire::{Reply, Request};
use mio::net::UnixStream as PolledStream;
use std::alloc::Global;
use std::io::{ErrorKind, Read, Write};
use std::net::Net;
use std::os::fd::OwnedFd;
use std::os::unix::net::UnixStream;
use std::rt::Clock;
use std::time::Duration;
use std::{io, thread};

/// The greatest number of bytes read at once.
const PIECE: usize = 4096;

/// For how many seconds `load` and `session` wait for a reply.
const PATIENCE: u32 = 30;

/// Loads a new table into a running service. Returns what is printed.
/// Errors: the fault of the first file that can't be read or is refused; `Word` if a variable of
/// the environment that is needed is not UTF-8; a fault of the socket or the connection; `NoMemory`
/// if memory runs out.
pub fn load_files<F: Folder>(
    rt: &(impl Clock + Net + AllocGlobal),
    files: &mut ReadOnce<F>,
    environment: &Environment,
    arguments: &LoadArguments<'_>,
) -> Result<Outcome, Fault> {
    let sent = run_load(rt.alloc(), files, environment, arguments)?;
    exchange(rt, arguments.socket, PATIENCE, sent)
}

/// Types in a session of a running service. Returns what is printed.
/// Errors: the fault of the first names file that can't be read; a fault of the socket or the
/// connection; `NoMemory` if memory runs out.
pub fn session_files<T: BuildTable, F: Folder>(
    rt: &(impl Clock + Net + AllocGlobal),
    files: &mut ReadOnce<F>,
    options: Options<'_>,
    arguments: &SessionArguments<'_>,
) -> Result<Outcome, Fault> {
    match run_session::<T, F>(rt.alloc(), files, options, arguments)? {
        Ok(sent) => exchange(rt, arguments.socket, PATIENCE, sent),
        Err(outcome) => Ok(outcome),
    }
}

/// Sends the requests to the service on the socket at this path, and waits for each reply for at
/// most this number of seconds. Returns what is printed for the replies.
fn exchange(
    rt: &(impl Clock + Net + AllocGlobal),
    path: &str,
    seconds: u32,
    sent: ClientRequests,
) -> Result<Outcome, Fault> {
    match Connection::open(rt, path, seconds) {
        Ok(mut connection) => run_exchange(rt.alloc(), &mut connection, sent),
        Err(error) => Err(Fault::socket(String::from_str(rt.alloc(), path), error.kind())),
    }
}

/// Connects to the service on the socket at this path. One whose queue is full is tried again until
/// the time has passed.
/// Errors: the reason if nobody listens there, or `TimedOut`.
pub fn connect(rt: &(impl Clock + Net), path: &str, deadline: &Deadline) -> io::Result<UnixStream> {
    for _ in 0..u64::MAX {
        match PolledStream::connect(rt, path) {
            Ok(stream) => {
                let stream = UnixStream::from(OwnedFd::from(stream));
                stream.set_nonblocking(false)?;
                return Ok(stream);
            }
            Err(error) if error.kind() == ErrorKind::WouldBlock && !deadline.is_over(rt) => {
                pause(rt);
            }
            Err(error) if error.kind() == ErrorKind::WouldBlock => break,
            Err(error) => return Err(error),
        }
    }
    Err(io::Error::from(ErrorKind::TimedOut))
}

/// A connection to a service. No contract describes what it receives.
#[derive(Drop)]
pub struct Connection {
    stream: UnixStream,
    feeder: ReplyFeeder,
    /// For how many seconds it waits for a reply.
    seconds: u32,
}

impl Connection {
    /// Connects to the socket at this path, within this number of seconds, and waits for each reply
    /// for at most as long.
    /// Errors: the reason if nobody can be reached there.
    pub fn open(
        rt: &(impl Clock + Net + AllocGlobal),
        path: &str,
        seconds: u32,
    ) -> io::Result<Connection> {
        let stream = connect(rt, path, &Deadline::after(rt, seconds))?;
        let limit = Some(Duration::from_secs(u64::from(seconds)));
        stream.set_read_timeout(limit)?;
        stream.set_write_timeout(limit)?;
        Ok(Connection {
            stream,
            feeder: ReplyFeeder::new(rt.alloc()),
            seconds,
        })
    }
}

impl Peer for Connection {
    ghost turns = { λ _. None };

    ghost gives = { λ _ _ _. ⊤ };

    fn ask(&mut self, alloc: Global, request: &Request) -> Result<Option<Reply>, Fault> {
        send(alloc, &self.stream, request)?;
        receive(alloc, &self.stream, &mut self.feeder, self.seconds)
    }
}

/// Sends a request. If that fails, the other side has closed, and what it sent before can still be
/// read.
fn send(alloc: Global, mut stream: &UnixStream, request: &Request) -> Result<(), Fault> {
    match put_request(alloc, request) {
        Ok(frame) => {
            let _ = stream.write_all(&frame);
            Ok(())
        }
        Err(RequestFault::NoMemory) => Err(Fault::NoMemory),
        Err(fault) => Err(Fault::refused("load", format!(in alloc; "{fault}"))),
    }
}

/// Returns the next reply, or `None` if the other side closes before it.
fn receive(
    alloc: Global,
    mut stream: &UnixStream,
    feeder: &mut ReplyFeeder,
    seconds: u32,
) -> Result<Option<Reply>, Fault> {
    'pieces: for _ in 0..u64::MAX {
        match feeder.next_reply() {
            Ok(None) => {}
            Ok(Some(reply)) => return Ok(Some(reply)),
            Err(fault) => return Err(Fault::refused("connection", format!(in alloc; "{fault}"))),
        }
        let mut piece = [0u8; PIECE];
        let count = match stream.read(&mut piece) {
            Ok(0) => return Ok(None),
            Ok(count) => count,
            Err(error) if is_late(error.kind()) => return Err(late(alloc, seconds)),
            Err(_) => return Ok(None),
        };
        if feeder.feed(&piece[..count]).is_err() {
            return Err(Fault::NoMemory);
        }
    }
    Ok(None)
}

/// Returns whether nothing came in time.
fn is_late(kind: ErrorKind) -> bool {
    matches!(kind, ErrorKind::WouldBlock | ErrorKind::TimedOut)
}

/// Returns the fault that no reply came in time.
fn late(alloc: Global, seconds: u32) -> Fault {
    Fault::refused(
        "connection",
        format!(in alloc; "no reply in {seconds} seconds"),
    )
}
