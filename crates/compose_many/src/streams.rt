//! Readers and writers that do not wait.
ghost use Rattle.std.specs.Prelude.{ℕ, ◌≤◌, List, Option, length};
ghost use Rattle.compose_many.specs.declared.streams.TryError.{TryError};
ghost use Rattle.compose_many.specs.Streams.{TryPulls, TryPushes};
ghost use Rattle.compose_many.specs.Connection.{max_piece};

/// Why a device reads or writes no bytes.
#[derive(Clone, Copy, Debug, PartialEq, Eq, Drop)]
pub enum TryError {
    /// It would have to wait.
    WouldBlock,
    /// It failed.
    Failed,
}

/// A reader that does not wait.
pub trait TryPull {
    /// The bytes that are left to read, if they are known.
    ghost left: { Self → Option (List ℕ) };

    /// Its mark: the last error since it was made, if there was one.
    ghost mark: { Self → Option TryError };

    /// Reads the next bytes to the start of the piece and returns their number, which is 0 only at
    /// the end, or if the piece is empty.
    ///
    /// At most 4,096 bytes are asked for. Errors: `WouldBlock` if there are no bytes for now,
    /// `Failed` if it can't read. Either is its mark from then on, and no byte is lost.
    fn try_pull(&mut self, piece: &mut [u8]) -> Result<usize, TryError>
        requires { length piece.old ≤ max_piece }
        ensures { TryPulls (left self.old) (left self.new) (mark self.old)
            (mark self.new) result piece.new };
}

/// A writer that does not wait.
pub trait TryPush {
    /// The bytes that were written, if they are known.
    ghost written: { Self → Option (List ℕ) };

    /// Its mark: the last error since it was made, if there was one.
    ghost mark: { Self → Option TryError };

    /// Writes bytes from the start of the piece and returns their number, which is at least 1 if
    /// the piece isn't empty.
    ///
    /// Errors: `WouldBlock` if it takes none for now, `Failed` if it can't write. Either is its
    /// mark from then on, and no byte was written.
    fn try_push(&mut self, piece: &[u8]) -> Result<usize, TryError>
        ensures { TryPushes (written self.old) (written self.new) (mark self.old)
            (mark self.new) result piece.now };
}
