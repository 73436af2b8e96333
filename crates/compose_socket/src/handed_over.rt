//! A socket that systemd passes to the service.
use crate::socket_file::SocketFault;
use libc::net::{POLLOUT, poll};
use libc::types::pollfd;
use os::FromRawFd;
use std::env;
use std::os::unix::net::UnixListener;
use std::rt::Env;

/// The descriptor of the first socket that systemd passes (sd_listen_fds(3)).
const FIRST_DESCRIPTOR: i32 = 3;

/// Returns the listener that systemd passes to the process with this number, if it passes exactly
/// one socket: if `LISTEN_PID` is the process and `LISTEN_FDS` is 1 (sd_listen_fds(3)). Must be
/// called at most once, since the listener closes its descriptor.
///
/// Errors: `NoListener` if what is passed is not open, is no Unix socket, or does not listen. Then
/// it is not served on, and no other socket in its place.
pub fn listener_of_systemd(
    rt: &(impl Env + AllocGlobal),
    process_id: u32,
) -> Result<Option<UnixListener>, SocketFault> {
    if !is_passed(rt, process_id) {
        return Ok(None);
    }
    if !is_silent(FIRST_DESCRIPTOR) {
        return Err(SocketFault::NoListener);
    }
    // SAFETY: by the protocol of systemd this descriptor is open and belongs to this process;
    // nothing else closes it.
    let listener = unsafe { UnixListener::from_raw_fd(FIRST_DESCRIPTOR) };
    match listener.local_addr() {
        Ok(_) => Ok(Some(listener)),
        Err(_) => Err(SocketFault::NoListener),
    }
}

/// Returns whether systemd passes exactly one socket to the process with this number.
fn is_passed(rt: &(impl Env + AllocGlobal), process_id: u32) -> bool {
    let Ok(process) = env::var(rt, "LISTEN_PID") else {
        return false;
    };
    let Ok(count) = env::var(rt, "LISTEN_FDS") else {
        return false;
    };
    process.parse::<u32>().ok() == Some(process_id) && count.as_str() == "1"
}

/// Returns whether a descriptor is open, takes no bytes, and reports no error and no end of a
/// stream. A socket that listens is so at any time; one that is connected, has no peer, or is for
/// datagrams is not.
fn is_silent(descriptor: i32) -> bool {
    let mut polled = [pollfd {
        fd: descriptor,
        events: POLLOUT,
        revents: 0,
    }];
    poll(&mut polled, 0) == 0
}
