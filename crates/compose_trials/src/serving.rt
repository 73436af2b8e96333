//! Streams over devices that fail, and the service's answers on them.
use crate::devices::{Behaviour, TrialReader, TrialWriter};
use crate::failure::Failure;
use crate::input::{read_file, start_service};
use crate::output::{print_bytes, print_line};
use compose_serve::{Device, ServeFault, StreamEnd};
use compose_service::Service;
use compose_tree::PackedTable;
use std::io::{Read, Write};

/// One stream of a trial: its bytes, and the behaviour of its devices.
#[derive(Clone, Copy, Drop)]
struct Stream<'a> {
    bytes: &'a [u8],
    reading: Behaviour,
    writing: Behaviour,
}

/// Serves both streams of each line of the file `trials`, one after the other, by a service that is
/// started anew for each line. Prints how each stream ends, and what is written.
///
/// A line has twelve numbers:
///
/// - where the first stream ends in the file `stream`, and where the second begins;
/// - for the first stream's reader, and then for its writer, the four fields of [`Behaviour`]: the
///   most bytes of a call, the call that fails, the one that moves nothing, and the number of calls
///   of which one is interrupted;
/// - the most bytes of a call of the second stream's reader and writer.
///
/// `Err(Input)` if a line is wrong; other errors: see [`Failure`].
pub fn try_all(rt: &HostRuntime) -> Result<(), Failure> {
    let stream = read_file(rt, "stream")?;
    let trials = read_file(rt, "trials")?;
    let Ok(trials) = str::from_utf8(&trials) else {
        return Err(Failure::Input);
    };
    for line in trials.lines() {
        try_line(rt, &stream, line)?;
    }
    Ok(())
}

/// Serves both streams of a line.
fn try_line(rt: &HostRuntime, stream: &[u8], line: &str) -> Result<(), Failure> {
    let numbers = numbers_of(rt, line)?;
    match streams_of(stream, &numbers) {
        Some((first, second)) => serve_both(rt, first, second),
        None => Err(Failure::Input),
    }
}

/// Makes both streams from a line's numbers.
fn streams_of<'a>(stream: &'a [u8], numbers: &[usize]) -> Option<(Stream<'a>, Stream<'a>)> {
    let [end, start, behaviours @ .., reads, writes] = numbers else {
        return None;
    };
    let first = first_stream(stream.get(..*end)?, behaviours)?;
    let second = Stream {
        bytes: stream.get(*start..)?,
        reading: sound(*reads),
        writing: sound(*writes),
    };
    Some((first, second))
}

/// Makes the first stream of a line, whose devices may fail.
fn first_stream<'a>(bytes: &'a [u8], behaviours: &[usize]) -> Option<Stream<'a>> {
    let (reading, writing) = behaviours.split_at_checked(4)?;
    Some(Stream {
        bytes,
        reading: behaviour_of(reading)?,
        writing: behaviour_of(writing)?,
    })
}

/// Makes a device's behaviour from four numbers.
fn behaviour_of(numbers: &[usize]) -> Option<Behaviour> {
    let [most, failing, idle, interrupted] = numbers else {
        return None;
    };
    Some(Behaviour {
        most: *most,
        failing: *failing,
        idle: *idle,
        interrupted: *interrupted,
    })
}

/// Reads the numbers of a line.
fn numbers_of(rt: &HostRuntime, line: &str) -> Result<Vec<usize>, Failure> {
    let mut numbers = Vec::new(rt.alloc());
    for word in line.split(' ') {
        let Ok(number) = word.parse::<usize>() else {
            return Err(Failure::Input);
        };
        if numbers.push(number).is_err() {
            return Err(Failure::NoMemory);
        }
    }
    Ok(numbers)
}

/// Returns the behaviour of a device that moves this number of bytes per call, and never fails.
fn sound(most: usize) -> Behaviour {
    Behaviour {
        most,
        failing: 0,
        idle: 0,
        interrupted: 0,
    }
}

/// Serves one stream after the other.
fn serve_both(rt: &HostRuntime, first: Stream<'_>, second: Stream<'_>) -> Result<(), Failure> {
    let mut service = start_service(rt)?;
    serve_in_turn(rt, &mut service, first, second)
}

/// Does the same with this service.
fn serve_in_turn(
    rt: &HostRuntime,
    service: &mut Service<PackedTable>,
    first: Stream<'_>,
    second: Stream<'_>,
) -> Result<(), Failure> {
    serve_one(rt, service, first)?;
    serve_one(rt, service, second)
}

/// Serves a stream, and prints how it ends, and what is written.
fn serve_one(
    rt: &HostRuntime,
    service: &mut Service<PackedTable>,
    stream: Stream<'_>,
) -> Result<(), Failure> {
    let mut writer = TrialWriter::new(rt.alloc(), stream.writing);
    let ended = serve_into(rt, service, stream, &mut writer)?;
    print_end(rt, ended)?;
    print_bytes(rt, writer.taken())
}

/// Serves a stream into this writer.
fn serve_into(
    rt: &HostRuntime,
    service: &mut Service<PackedTable>,
    stream: Stream<'_>,
    writer: &mut TrialWriter,
) -> Result<Result<StreamEnd, ServeFault>, Failure> {
    let Ok(bytes) = Vec::from_slice(rt.alloc(), stream.bytes) else {
        return Err(Failure::NoMemory);
    };
    let mut reader = Device::new(TrialReader::new(bytes, stream.reading));
    Ok(serve(rt, service, &mut reader, &mut Device::new(writer)))
}

/// Serves a stream. Errors: those of `Service::serve`.
pub fn serve<R: Read, W: Write>(
    rt: &HostRuntime,
    service: &mut Service<PackedTable>,
    reader: &mut Device<R>,
    writer: &mut Device<W>,
) -> Result<StreamEnd, ServeFault> {
    service.serve(rt.alloc(), reader, writer)
}

/// Prints how a stream ends. `Err(System)` if the output fails.
pub fn print_end(rt: &HostRuntime, ended: Result<StreamEnd, ServeFault>) -> Result<(), Failure> {
    match ended {
        Ok(StreamEnd::InputEnd) => print_line(rt, "ended"),
        Ok(StreamEnd::Malformed) => print_line(rt, "malformed"),
        Err(fault) => print_line(rt, fault),
    }
}
