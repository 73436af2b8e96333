//! A service on a stream.
ghost use Rattle.std.specs.Prelude.{◌≡◌, ◌≢◌, List, Err};
ghost use Rattle.compose_wire.specs.Messages as words;
ghost use Rattle.compose_wire.specs.Replies.{HasReplyValue};
ghost use Rattle.compose_wire.specs.Requests.{request_of};
ghost use Rattle.compose_machine.specs.Machine.{ServiceState, Reading, Step};
ghost use Rattle.compose_serve.specs.Ends.{Serves, EndsBy};

use crate::ends::{ServeFault, StreamEnd};
use crate::next::{Stop, next_request};
use crate::streams::{Pull, Push, push_all};
use compose_wire::{Feeder, Reply, ReplyBody, Request, put_reply};
use std::alloc::Global;

/// The greatest number of requests that are answered on one stream.
const MAX_FRAMES: u32 = 16_777_216;

/// A service that answers requests, each by one step of the service machine.
pub trait Responder {
    /// What the payload of a load is read as.
    ghost reading: { Reading };

    /// The state of the machine that it models.
    ghost state: { Self → ServiceState };

    /// Answers one request, and replaces the reply by the answer. What the reply was before is of no
    /// effect: a caller may keep one reply for all its requests.
    fn answer_into(&mut self, alloc: Global, request: &Request, reply: &mut Reply)
        ensures { (expected : words.Reply)
            × Step reading (state self.old) (request_of request.now) expected (state self.new)
            × HasReplyValue reply.new expected };
}

/// Ends the stream if no request follows, and writes the refusal of a faulty frame.
fn end_with<W: Push>(writer: &mut W, stop: Stop) -> Result<StreamEnd, ServeFault>
    ensures so { EndsBy stop result (W.written writer.old) (W.written writer.new)
        (W.failed writer.new) }
    ensures mark { result ≢ Err ServeFault.Write → W.failed writer.new ≡ W.failed writer.old }
{
    match stop {
        Stop::Faulty => {
            let reply = [0xff, 0, 0, 0, 0, 0, 0, 0, 2, 0, 10];
            match push_all(writer, &reply) {
                Ok(()) => Ok(StreamEnd::Malformed),
                Err(_) => Err(ServeFault::Write),
            }
        }
        Stop::End => Ok(StreamEnd::InputEnd),
        Stop::EndInFrame => Err(ServeFault::Cut),
        Stop::ReadFailed => Err(ServeFault::Read),
        Stop::NoMemory => Err(ServeFault::NoMemory),
    }
}

/// Answers the requests of a stream, and writes each reply before it reads the next request.
///
/// It reads pieces of at most 4,096 bytes and does not flush. The answered requests are the first
/// frames of what was read, and they keep their effect however the stream ends. It holds the bytes
/// of one frame and of one piece. Each request costs what its answer costs, one write and, if no
/// whole frame is held, one read or more.
///
/// It ends with `InputEnd` at the reader's end after a whole frame, and with `Malformed` after the
/// reply to a faulty frame.
///
/// # Errors
/// `Cut` if the reader's end comes in the middle of a frame; `Read` if a read fails, when every
/// whole frame that was read is answered; `Write` if a write fails, when a part of the last reply
/// is missing; `TooManyFrames` if a whole frame follows the 16,777,216th; `NoMemory` if there is no
/// memory for bytes that were read.
pub fn serve<S: Responder, R: Pull, W: Push>(
    service: &mut S,
    alloc: Global,
    reader: &mut R,
    writer: &mut W,
) -> Result<StreamEnd, ServeFault>
    ensures ends { Serves S.reading (S.state service.old) (S.state service.new)
        (R.left reader.old) (R.left reader.new) (W.written writer.old) (W.written writer.new)
        (R.failed reader.new) (W.failed writer.new) result }
    ensures read_mark { result ≢ Err ServeFault.Read → R.failed reader.new ≡ R.failed reader.old }
    ensures write_mark { result ≢ Err ServeFault.Write → W.failed writer.new ≡ W.failed writer.old }
{
    let mut feeder = Feeder::new(alloc);
    // a reply is large: one is kept, and filled for each request
    let mut reply = Reply {
        session: 0,
        answer: ReplyBody::Opened,
    };
    'answers: for count in 0..MAX_FRAMES {
        match next_request(&mut feeder, alloc, reader) {
            Ok(request) => {
                service.answer_into(alloc, &request, &mut reply);
                let bytes = put_reply(&reply);
                match push_all(writer, bytes.as_slice()) {
                    Ok(()) => {}
                    Err(_) => return Err(ServeFault::Write),
                }
            }
            Err(stop) => return end_with(writer, stop),
        }
    }
    match next_request(&mut feeder, alloc, reader) {
        Ok(_) => return Err(ServeFault::TooManyFrames),
        Err(stop) => return end_with(writer, stop),
    }
}
