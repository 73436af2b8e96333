//! The sources that bytes are read from, and the targets that they are written to.
ghost use Rattle.std.specs.Prelude.{◌≡◌, ◌<◌, ◌≤◌, ℕ, List, Bool, Option, true, length, take, OnOk, OnErr};
ghost use Rattle.std.specs.Io.KnownBytes.{Appends};
ghost use Rattle.compose_serve.specs.Streams.{max_piece, Pulls, Pushes, PushesPart};

/// A device failed.
#[derive(Clone, Copy, Debug, PartialEq, Eq, Drop)]
pub struct Failed;

/// A source that bytes are pulled from.
pub trait Pull {
    /// The bytes that are left, if they are known.
    ghost left: { Self → Option (List ℕ) };

    /// Whether it is marked as failed.
    ghost failed: { Self → Bool };

    /// Puts the next bytes at the start of the piece and returns their number. It is 0 only at the
    /// end, or if the piece is empty.
    ///
    /// The piece is at most 4,096 bytes.
    ///
    /// # Errors
    /// `Failed` if the read fails. The source is marked as failed then, and no byte is lost.
    fn pull(&mut self, piece: &mut [u8]) -> Result<usize, Failed>
        requires { length piece.old ≤ max_piece }
        ensures { Pulls (left self.old) (left self.new) (failed self.old)
            (failed self.new) result piece.new };
}

/// A target that bytes are pushed to.
pub trait Push {
    /// The bytes that were written, if they are known.
    ghost written: { Self → Option (List ℕ) };

    /// Whether it is marked as failed.
    ghost failed: { Self → Bool };

    /// Takes bytes from the start of the piece and returns their number: at least one, unless the
    /// piece is empty.
    ///
    /// # Errors
    /// `Failed` if the write fails. The target is marked as failed then, and has taken no bytes.
    fn push(&mut self, piece: &[u8]) -> Result<usize, Failed>
        ensures { Pushes (written self.old) (written self.new) (failed self.old)
            (failed self.new) result piece.now };
}

/// Writes all of the bytes, with as many pushes as are needed. If one fails, a part of them is
/// written.
pub(crate) fn push_all<W: Push>(writer: &mut W, bytes: &[u8]) -> Result<(), Failed>
    ensures ok { OnOk result (Appends (W.written writer.old) (W.written writer.new) bytes.now) }
    ensures kept { OnOk result (W.failed writer.new ≡ W.failed writer.old) }
    ensures err { OnErr result
        (PushesPart (W.written writer.old) (W.written writer.new) bytes.now) }
    ensures marked { OnErr result (W.failed writer.new ≡ true) }
{
    let mut done = 0;
    while done < bytes.len() {
        done += writer.push(&bytes[done..])?;
    }
    Ok(())
}
