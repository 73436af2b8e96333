//! The loop over the connections to a service.
ghost use Rattle.std.specs.Prelude.{None};

use crate::connection_ends::EndLines;
use compose_answer::Ended;
use compose_arguments::ServeArguments;
use compose_hub::{
    ConnectionEnd, EndReport, Limits, PolledReadiness, PolledSockets, Readiness, Sockets,
    UnixCalls, poll_listener, serve_at_once,
};
use compose_input::Fault;
use compose_serve::Responder;
use mio::net::UnixListener as PolledListener;
use std::alloc::Global;
use std::io;
use std::net::Net;
use std::os::unix::net::UnixListener;
use std::rt::Clock;

impl<R: Print + Eprint + AllocGlobal> EndReport for EndLines<'_, R> {
    ghost reported = { λ lines. None };

    /// Prints the line of the connection, or counts it.
    fn ended(&mut self, number: u32, how: ConnectionEnd) -> io::Result<()> {
        self.print(number, how);
        Ok(())
    }

    fn catch_up(&mut self) -> bool {
        self.catch_up_now()
    }
}

/// Serves the number of connections that the arguments give, one after another or several at once,
/// and prints how each ended. Returns how the run ends.
/// Errors: a fault of the socket if it can't be served on; `NoMemory` if memory runs out.
pub fn serve_listener<S: Responder>(
    rt: &(impl Clock + Net + Print + Eprint + AllocGlobal),
    listener: UnixListener,
    service: &mut S,
    arguments: &ServeArguments<'_>,
) -> Result<Ended, Fault> {
    let mut lines = EndLines::new(rt);
    let served = match polled(rt, listener) {
        Ok((mut sockets, mut readiness)) => {
            serve_sockets(
                rt,
                &mut sockets,
                &mut readiness,
                service,
                arguments,
                &mut lines,
            )
        }
        Err(error) => Err(error),
    };
    match served {
        Ok(()) => Ok(lines.finish()),
        Err(error) => Err(serving_fault(rt.alloc(), arguments.socket, error.kind())),
    }
}

/// Returns the sockets of a listener, which becomes nonblocking, and what is ready of them.
/// Errors: an I/O error if it can't be polled, or if memory runs out.
pub fn polled<'c, C: Clock + Net + AllocGlobal>(
    rt: &'c C,
    listener: UnixListener,
) -> io::Result<(PolledSockets<UnixCalls>, PolledReadiness<'c, C>)> {
    listener.set_nonblocking(true)?;
    poll_listener(rt, rt.alloc(), PolledListener::from_std(listener))
}

/// Serves the connections to these sockets, and reports how each ended.
/// Errors: an I/O error of waiting, or of memory.
pub fn serve_sockets<N: Sockets, W: Readiness, S: Responder, E: EndReport>(
    rt: &impl AllocGlobal,
    sockets: &mut N,
    readiness: &mut W,
    service: &mut S,
    arguments: &ServeArguments<'_>,
    report: &mut E,
) -> io::Result<()> {
    let limits = Limits {
        at_once: usize::from(arguments.at_once.unwrap_or(1)),
        connections: arguments.connections,
        unsent: arguments.unsent as usize,
        idle: arguments.idle,
        own_sessions: arguments.own_sessions,
    };
    serve_at_once(sockets, readiness, rt.alloc(), service, limits, report)
}

/// Returns why connections can't be served: memory ran out, or a fault of the socket.
pub fn serving_fault(alloc: Global, path: &str, kind: io::ErrorKind) -> Fault {
    match kind {
        io::ErrorKind::OutOfMemory => Fault::NoMemory,
        kind => Fault::socket(String::from_str(alloc, path), kind),
    }
}
