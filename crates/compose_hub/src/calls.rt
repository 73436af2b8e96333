//! The calls of the system that polled sockets make.
ghost use Rattle.std.specs.Prelude.{◌≡◌, [], ◌∷◌, Option, List};
ghost use Rattle.mio.specs.Interest.{is_readable, is_writable};
ghost use Rattle.compose_hub.specs.Calls.{Call, accepts, watches, calls_more};

use mio::Interest;
use std::io;
use std::io::{Read, Write};

/// The calls of the system on a listener and its connections: accept(2), epoll_ctl(2), and on each
/// connection read(2), write(2) and, as it is dropped, close(2).
pub trait SocketCalls {
    /// A connection that was accepted; it does not wait. It is closed when it is dropped, and is not
    /// reported from then on.
    type Stream: Read + Write + Drop;

    /// The calls so far, if they are counted.
    ghost calls: { Self → Option (List Call) };

    /// Accepts the next connection. Errors: an I/O error; `WouldBlock` if none waits.
    fn accept_next(&mut self) -> io::Result<Self::Stream>
        ensures { calls self.new ≡ calls_more (calls self.old) (accepts ∷ []) };

    /// Has a connection reported by this key whenever it becomes ready for this. Errors: an I/O
    /// error; then it is not reported.
    fn watch(&mut self, stream: &mut Self::Stream, key: usize, interest: Interest) -> io::Result<()>
        ensures { calls self.new ≡ calls_more (calls self.old)
            (watches key (is_readable interest) (is_writable interest) ∷ []) };
}
