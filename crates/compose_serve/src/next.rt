//! The next request of a stream.
ghost use Rattle.std.specs.Prelude.{◌≡◌, ◌≢◌, ℕ, List, Err};
ghost use Rattle.compose_serve.specs.Streams.{SameStream};
ghost use Rattle.compose_serve.specs.Next.{IsPullResult, IsNextRequest};

use crate::streams::{Failed, Pull};
use compose_wire::{Feeder, Request, WireFault};
use std::alloc::Global;

/// The most bytes that are read at once.
const PIECE: usize = 4096;

/// The result of pulling a piece.
#[derive(Clone, Copy)]
pub(crate) enum PullResult {
    /// Some bytes came, and are held now.
    More,
    /// The input is at its end.
    End,
    /// The reader failed.
    Failure,
    /// Some bytes came, for which there is no memory.
    NoRoom,
}

/// Why there is no next request.
#[derive(Clone, Copy)]
pub(crate) enum Stop {
    /// A faulty frame follows.
    Faulty,
    /// The input ended after a whole frame.
    End,
    /// The input ended in the middle of a frame.
    EndInFrame,
    /// The reader failed.
    ReadFailed,
    /// There was no memory for a piece or a payload.
    NoMemory,
}

/// Reads one piece.
fn pull_piece<R: Pull>(feeder: &mut Feeder, reader: &mut R) -> PullResult
    ensures so { (rest : List ℕ)
        × SameStream (feeder.old) (R.left reader.old) rest (R.left reader.new)
        × IsPullResult result (feeder.old) rest (feeder.new) (R.left reader.new) (R.failed reader.new) }
    ensures mark { result ≢ PullResult.Failure → R.failed reader.new ≡ R.failed reader.old }
{
    let mut piece = [0u8; PIECE];
    match reader.pull(&mut piece) {
        Ok(0) => PullResult::End,
        Ok(count) => match feeder.feed(&piece[..count]) {
            Ok(()) => PullResult::More,
            Err(_) => PullResult::NoRoom,
        },
        Err(Failed) => PullResult::Failure,
    }
}

/// Reads until the next request is complete, and takes it out of the feeder.
pub(crate) fn next_request<R: Pull>(
    feeder: &mut Feeder,
    alloc: Global,
    reader: &mut R,
) -> Result<Request, Stop>
    ensures so { (rest : List ℕ)
        × SameStream (feeder.old) (R.left reader.old) rest (R.left reader.new)
        × IsNextRequest result rest (feeder.new) (R.left reader.new) (R.failed reader.new) }
    ensures mark { result ≢ Err Stop.ReadFailed → R.failed reader.new ≡ R.failed reader.old }
{
    'pieces: loop {
        match feeder.next_request(alloc) {
            Ok(Some(request)) => return Ok(request),
            Ok(None) => {}
            Err(WireFault::NoMemory) => return Err(Stop::NoMemory),
            Err(_) => return Err(Stop::Faulty),
        }
        match pull_piece(feeder, reader) {
            PullResult::More => {}
            PullResult::End => {
                return Err(if feeder.held() == 0 {
                    Stop::End
                } else {
                    Stop::EndInFrame
                });
            }
            PullResult::Failure => return Err(Stop::ReadFailed),
            PullResult::NoRoom => return Err(Stop::NoMemory),
        }
    }
}
