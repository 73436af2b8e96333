//! The lines about the ends of connections. They are printed only if the service doesn't have to
//! wait for that.
use compose_answer::Ended;
use compose_hub::ConnectionEnd;
use compose_report::written;
use compose_serving::{end_text, unprinted_after, unprinted_text};
use libc::net::{POLLOUT, poll};
use libc::types::pollfd;
use std::alloc::AllocError;
use std::io;
use std::io::ErrorKind;

/// The file descriptor of standard output.
const STDOUT: i32 = 1;

/// Prints the ends of connections, and counts those that could not be printed.
#[derive(Drop)]
pub struct EndLines<'r, R> {
    rt: &'r R,
    unprinted: u64,
}

impl<'r, R: Print + Eprint + AllocGlobal> EndLines<'r, R> {
    /// Returns a printer that has no unprinted ends.
    pub fn new(rt: &'r R) -> EndLines<'r, R> {
        EndLines { rt, unprinted: 0 }
    }

    /// Prints how a connection ended, after the number of ends that could not be printed before. If
    /// it can't be printed now, counts it.
    pub fn print(&mut self, number: u32, how: ConnectionEnd) {
        let text = end_text(self.rt.alloc(), self.unprinted, number, how);
        let is_printed = print_text(self.rt, text).is_ok();
        self.unprinted = unprinted_after(self.unprinted, is_printed);
    }

    /// Prints the number of ends that could not be printed, if that is possible now. Returns false
    /// if it helps to wait and try again.
    pub fn catch_up_now(&mut self) -> bool {
        match self.print_unprinted() {
            Ok(()) => true,
            Err(error) => error.kind() != ErrorKind::WouldBlock,
        }
    }

    /// Prints the number of ends that could not be printed.
    fn print_unprinted(&mut self) -> io::Result<()> {
        if self.unprinted > 0 {
            print_text(self.rt, unprinted_text(self.rt.alloc(), self.unprinted))?;
            self.unprinted = 0;
        }
        Ok(())
    }

    /// Returns how a run ends after its last connection: as refused if an end was neither printed
    /// nor included in a printed number.
    pub fn finish(&mut self) -> Ended {
        written(self.rt, self.print_unprinted(), Ended::Yes)
    }
}

/// Prints a text of at most two lines. If standard output accepts nothing now, returns an error
/// instead of waiting.
/// Errors: `WouldBlock` if standard output accepts nothing now; `OutOfMemory` if there is no text,
/// as memory ran out; any error of printing.
pub fn print_text(rt: &impl Print, text: Result<String, AllocError>) -> io::Result<()> {
    let text = text?;
    if !takes_output() {
        return Err(io::Error::from(ErrorKind::WouldBlock));
    }
    print!(rt; "{text}")
}

/// Returns whether standard output accepts a short text now, or fails at once.
fn takes_output() -> bool {
    let mut outputs = [pollfd {
        fd: STDOUT,
        events: POLLOUT,
        revents: 0,
    }];
    poll(&mut outputs, 0) > 0
}
