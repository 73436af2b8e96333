//! A turn of a connection on its stream.
ghost use Rattle.std.specs.Prelude.{◌≡◌, ◌≢◌, ◌+◌, ◌<◌, ◌≤◌, ℕ, List, [], false, length, max, Err, Some};
ghost use Rattle.std.specs.Io.KnownBytes.{Consumes, Appends};
ghost use Rattle.compose_many.specs.Connection.{Sends};
ghost use Rattle.compose_many.specs.Steps.{SendsAs, EndsAt, IsRoomFor, ReadsAs, behind_answers};
ghost use Rattle.compose_many.specs.Turns.{TurnAs};
ghost use Rattle.compose_many.specs.Numbered.{OthersStay, ReaderStays, WriterStays};

use crate::connection::{Connection, Stop};
use crate::numbered::Streams;
use crate::owners::Owners;
use crate::streams::TryError;
use compose_serve::{Responder, ServeFault, StreamEnd};
use std::alloc::Global;

/// The most bytes that are read at once.
const PIECE: usize = 4096;

/// The limits of what is kept of a connection, in bytes.
#[derive(Clone, Copy, Debug, PartialEq, Eq, Drop)]
pub struct TurnLimits {
    /// No request is answered while this many bytes or more are unsent. 0 counts as 1: then a
    /// request is answered only if nothing is unsent.
    pub unsent: usize,
    /// Nothing is read while this many bytes or more are held, that is, came and are not answered.
    pub held: usize,
}

/// What follows a turn.
#[derive(Clone, Copy, Debug, PartialEq, Eq, Drop)]
pub enum Turn {
    /// There may be more to do at once.
    GoesOn,
    /// As `GoesOn`, after a load was answered.
    Loaded,
    /// The stream has no bytes for now, or takes none.
    Waits,
    /// The limit of held bytes is reached, and they are less than a frame: nothing was read.
    NeedsRoom,
    /// The connection has ended, in this way.
    Ends(Result<StreamEnd, ServeFault>),
}

/// Sends what is unsent, answers what is held up to one load, and reads a piece if all is answered
/// and sent.
///
/// It makes at most one push and one pull, on the stream with this number alone. Nothing is
/// answered once the limit of unsent bytes is reached or a load was answered, and nothing is read
/// before all is sent. So fewer bytes are unsent than the limit plus 272, the maximum length of a
/// reply, and at most 4,096 bytes are read. A load is answered only if the result is `Loaded`, and
/// then exactly one.
///
/// A connection ends as a stream does that `serve` serves. `InputEnd` comes at the stream's end if
/// all is answered, and `Cut` if a part of a frame is left. `Malformed` comes once the reply to a
/// faulty frame is sent. `Read` and `Write` come if the stream fails, `Write` with unsent bytes
/// missing. `TooManyFrames` comes if a whole frame follows the 16,777,216th, and `NoMemory` if
/// memory runs out for bytes that came or for the reply to them. At every end but `Write` all
/// replies are sent. A call after the end is no error, but its effect is not specified.
///
/// `owners` has the owners of the open sessions: a session that is opened is owned by this
/// connection, and one for which a Close is answered has no owner. The list takes memory for one
/// owner more than there are sessions; if it can't get that, the connection ends with `NoMemory`.
///
/// A turn costs as much as its answers, and is linear in the bytes that it moves; an Open or a
/// Close costs O(owners) on top of that.
pub fn turn_on<M: Streams, A: Responder>(
    streams: &mut M,
    connection: &mut Connection,
    service: &mut A,
    owners: &mut Owners,
    alloc: Global,
    limits: TurnLimits,
    number: u64,
) -> Turn
    ensures turn { TurnAs limits A.reading result (A.state service.old)
        (A.state service.new) connection.old connection.new (M.stream streams.old number).left
        (M.stream streams.new number).left (M.stream streams.old number).written
        (M.stream streams.new number).written (M.stream streams.new number).read_mark
        (M.stream streams.new number).write_mark number owners.old.list owners.new.list }
    ensures read_mark { result ≢ Turn.Waits → result ≢ Turn.Ends (Err ServeFault.Read)
        → (M.stream streams.new number).read_mark ≡ (M.stream streams.old number).read_mark }
    ensures write_mark { result ≢ Turn.Waits → result ≢ Turn.Ends (Err ServeFault.Write)
        → (M.stream streams.new number).write_mark ≡ (M.stream streams.old number).write_mark }
    ensures others { OthersStay number (M.stream streams.old) (M.stream streams.new) }
{
    if let Some(turn) = send_on(connection, streams, number) {
        return turn;
    }
    if connection.is_refused() {
        return Turn::Ends(Ok(StreamEnd::Malformed));
    }
    let stop = connection.answer_held(service, owners, alloc, limits.unsent.max(1), number);
    if !connection.unsent().is_empty() {
        return behind_answers(stop);
    }
    match stop {
        Stop::NeedsBytes => read_on(connection, streams, number, limits.held),
        Stop::NoMemory => Turn::Ends(Err(ServeFault::NoMemory)),
        Stop::TooManyFrames => Turn::Ends(Err(ServeFault::TooManyFrames)),
        Stop::Full | Stop::Refused | Stop::Loaded => Turn::GoesOn,
    }
}

/// Returns what follows a turn in which requests were answered until this stop.
fn behind_answers(stop: Stop) -> Turn
    ensures { result ≡ behind_answers stop }
{
    match stop {
        Stop::Loaded => Turn::Loaded,
        _ => Turn::GoesOn,
    }
}

/// Sends what is unsent, as far as the stream takes it at once. Returns `None` if all is sent.
fn send_on<M: Streams>(connection: &mut Connection, streams: &mut M, number: u64) -> Option<Turn>
    ensures so { (bytes : List ℕ) × Sends connection.old bytes connection.new
        × Appends (M.stream streams.old number).written (M.stream streams.new number).written bytes
        × SendsAs result bytes connection.new (M.stream streams.new number).write_mark }
    ensures mark { result ≢ Some Turn.Waits → result ≢ Some (Turn.Ends (Err ServeFault.Write))
        → (M.stream streams.new number).write_mark ≡ (M.stream streams.old number).write_mark }
    ensures stays { ReaderStays (M.stream streams.old number) (M.stream streams.new number) }
    ensures others { OthersStay number (M.stream streams.old) (M.stream streams.new) }
{
    if connection.unsent().is_empty() {
        return None;
    }
    match streams.try_push(number, connection.unsent()) {
        Ok(count) => connection.sent(count),
        Err(TryError::WouldBlock) => return Some(Turn::Waits),
        Err(TryError::Failed) => return Some(Turn::Ends(Err(ServeFault::Write))),
    }
    if connection.unsent().is_empty() {
        return None;
    }
    Some(Turn::GoesOn)
}

/// Reads a piece, unless the limit of held bytes is reached.
fn read_on<M: Streams>(
    connection: &mut Connection,
    streams: &mut M,
    number: u64,
    most: usize,
) -> Turn
    ensures so { (piece : List ℕ)
        × Consumes (M.stream streams.old number).left (M.stream streams.new number).left piece
        × IsRoomFor most connection.old.held piece
        × ReadsAs most result connection.old piece connection.new
        (M.stream streams.new number).left (M.stream streams.new number).read_mark }
    ensures mark { result ≢ Turn.Waits → result ≢ Turn.Ends (Err ServeFault.Read)
        → (M.stream streams.new number).read_mark ≡ (M.stream streams.old number).read_mark }
    ensures stays { WriterStays (M.stream streams.old number) (M.stream streams.new number) }
    ensures others { OthersStay number (M.stream streams.old) (M.stream streams.new) }
{
    if connection.held() >= most {
        return Turn::NeedsRoom;
    }
    let mut piece = [0u8; PIECE];
    match streams.try_pull(number, &mut piece) {
        Ok(0) => Turn::Ends(at_end(connection.held())),
        Ok(count) => match connection.receive(&piece[..count]) {
            Ok(()) => Turn::GoesOn,
            Err(_) => Turn::Ends(Err(ServeFault::NoMemory)),
        },
        Err(TryError::WouldBlock) => Turn::Waits,
        Err(TryError::Failed) => Turn::Ends(Err(ServeFault::Read)),
    }
}

/// Returns how a connection ends at its stream's end, if `held` bytes are held.
fn at_end(held: usize) -> Result<StreamEnd, ServeFault>
    ensures { EndsAt held result }
{
    if held == 0 {
        Ok(StreamEnd::InputEnd)
    } else {
        Err(ServeFault::Cut)
    }
}
