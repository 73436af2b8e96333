//! The socket of a service. It is either a file that has its mode from the start, never replaces
//! another file, and can't be reached by other users before it is ready; or a socket that systemd
//! passes.
//!
//! ```text
//! let socket = SocketFile { path: "compose.socket", mode: 0o600, replace: false };
//! let listener = socket.bind(rt, process_id)?;
//! for stream in listener.incoming() { .. }
//! ```
//!
//! A contract can't say what a file system holds. So these functions are proved safe and total, and
//! the rest is tested over real sockets.
#![tactic(auto)]

mod handed_over;
mod socket_file;

pub use handed_over::listener_of_systemd;
pub use socket_file::{SocketFault, SocketFile};
