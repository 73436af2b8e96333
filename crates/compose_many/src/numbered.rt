//! The streams of many connections, each by its number.
ghost use Rattle.std.specs.Prelude.{ℕ, ◌≤◌, length};
ghost use Rattle.compose_many.specs.Connection.{max_piece};
ghost use Rattle.compose_many.specs.Numbered.{StreamState, PullsOn, PushesOn, OthersStay, TurnsAreStreamed, StreamedOneAfterAnother, EachStreamHasItsOwn};

use crate::streams::TryError;

/// The streams of many connections, each by its number.
///
/// A stream exists from the start, with what its client will send.
pub trait Streams {
    /// What is known of the stream with a number.
    ghost stream: { Self → ℕ → StreamState };

    /// Reads the next bytes of the stream with this number to the start of the piece and returns
    /// their number, as `TryPull::try_pull` does.
    ///
    /// At most 4,096 bytes are asked for. Nothing else changes on this stream, and nothing on any
    /// other. Errors: `WouldBlock` if there are no bytes for now, `Failed` if it can't read.
    fn try_pull(&mut self, number: u64, piece: &mut [u8]) -> Result<usize, TryError>
        requires { length piece.old ≤ max_piece }
        ensures own { PullsOn (stream self.old number) (stream self.new number) result piece.new }
        ensures others { OthersStay number (stream self.old) (stream self.new) };

    /// Writes bytes from the start of the piece to the stream with this number and returns their
    /// number, as `TryPush::try_push` does.
    ///
    /// Nothing else changes on this stream, and nothing on any other. Errors: `WouldBlock` if it
    /// takes no bytes for now, `Failed` if it can't write.
    fn try_push(&mut self, number: u64, piece: &[u8]) -> Result<usize, TryError>
        ensures own { PushesOn (stream self.old number) (stream self.new number) result piece.now }
        ensures others { OthersStay number (stream self.old) (stream self.new) };
}

/// A turn on one stream is a list of events on all of them (`one`), and what happens on many
/// streams can be joined, one part after the other (`more`).
///
/// And the stream of each new connection has only its own bytes (`own`): the bytes that were read
/// from it are the frames of its own requests, followed by a rest, and the bytes that were written
/// to it are the replies to exactly these, up to what is unsent, whatever happens on other streams.
pub fn law_streams()
    ensures one { TurnsAreStreamed }
    ensures more { StreamedOneAfterAnother }
    ensures own { EachStreamHasItsOwn }
{}
