//! Connections that do not wait, with the last errors of reading and of writing them.
ghost use Rattle.std.specs.Prelude.{◌≡◌, ◌≤◌, length, None};
ghost use Rattle.compose_many.specs.Connection.{max_piece};
ghost use Rattle.compose_many.specs.Streams.{TryPulls, TryPushes};

use compose_many::{Nonblocking, TryError, TryPull, TryPush};
use std::io::{Read, Write};

/// A connection, and the last errors of reading and of writing it.
#[derive(Drop)]
pub(crate) struct Marked<D> {
    device: Nonblocking<D>,
    read_mark: Option<TryError>,
    write_mark: Option<TryError>,
}

impl<D> Marked<D> {
    /// Returns a connection that is not marked. O(1).
    pub(crate) fn new(device: D) -> Marked<D>
        ensures { (result.device.inner ≡ device) × (result.read_mark ≡ None)
            × (result.write_mark ≡ None) }
    {
        Marked {
            device: Nonblocking::new(device),
            read_mark: None,
            write_mark: None,
        }
    }
}

impl<D: Read> Marked<D> {
    /// Reads as `TryPull::try_pull` does. The bytes are not known to contracts.
    pub(crate) fn try_pull(&mut self, piece: &mut [u8]) -> Result<usize, TryError>
        requires { length piece.old ≤ max_piece }
        ensures pulls { TryPulls None None self.old.read_mark self.new.read_mark result piece.new }
        ensures writer { self.new.write_mark ≡ self.old.write_mark }
    {
        let came = self.device.try_pull(piece);
        if let Err(why) = came {
            self.read_mark = Some(why);
        }
        came
    }
}

impl<D: Write> Marked<D> {
    /// Writes as `TryPush::try_push` does. The bytes are not known to contracts.
    pub(crate) fn try_push(&mut self, piece: &[u8]) -> Result<usize, TryError>
        ensures pushes { TryPushes None None self.old.write_mark self.new.write_mark result piece.now }
        ensures reader { self.new.read_mark ≡ self.old.read_mark }
    {
        let taken = self.device.try_push(piece);
        if let Err(why) = taken {
            self.write_mark = Some(why);
        }
        taken
    }
}
