//! Streams of requests, and the bytes of replies, written out.
ghost use Rattle.std.specs.Prelude.{◌≤◌};

use crate::helpers::expect_text;
use arrayvec::{ArrayString, ArrayVec};
use compose_model::Status;
use compose_wire::{Body, Feeder, Reply, ReplyBody, Request, WireFault, put_reply};
use keysym_core::Keysym;
use std::alloc::{AllocError, Global};
use std::fmt::Write;
use std::process::Abort;
use std::test::Fail;

/// The bytes of two requests: open session 7, and the keysym 0xfe50 in it.
const OPEN_AND_KEY: [u8; 22] = [
    1, 0, 0, 0, 7, 0, 0, 0, 0, 2, 0, 0, 0, 7, 0, 0, 0, 4, 0, 0, 0xfe, 0x50,
];

/// The printed form of each of these requests, and of both.
const OPEN: &str = "Request { session: 7, body: Open };";

const KEY: &str = "Request { session: 7, body: Key(65104) };";

const BOTH: &str = "Request { session: 7, body: Open };Request { session: 7, body: Key(65104) };";

/// The end of a stream: the fault after its requests, and the number of bytes that are still held.
#[derive(Clone, Copy)]
struct End {
    fault: Option<WireFault>,
    held: usize,
}

fn feed(feeder: &mut Feeder, piece: &[u8]) -> Result<(), WireFault> {
    feeder.feed(piece)
}

fn next(feeder: &mut Feeder, alloc: Global) -> Result<Option<Request>, WireFault> {
    feeder.next_request(alloc)
}

fn push_request(text: &mut String, request: &Request) -> Result<(), AllocError> {
    write!(text, "{request:?};")?;
    Ok(())
}

/// Prints every complete request, and returns the fault after them.
fn take_all(
    alloc: Global,
    feeder: &mut Feeder,
    requests: &mut String,
) -> Result<Option<WireFault>, AllocError> {
    for _ in 0..=feeder.held() {
        match next(feeder, alloc) {
            Ok(Some(request)) => push_request(requests, &request)?,
            Ok(None) => return Ok(None),
            Err(fault) => return Ok(Some(fault)),
        }
    }
    Ok(None)
}

/// Feeds bytes in pieces of some size, prints the requests, and returns the end.
fn feed_pieces(
    alloc: Global,
    feeder: &mut Feeder,
    bytes: &[u8],
    size: usize,
    requests: &mut String,
) -> Result<End, WireFault> {
    let mut fault = None;
    for piece in bytes.chunks(size.max(1)) {
        feed(feeder, piece)?;
        fault = take_all(alloc, feeder, requests)?;
    }
    let held = feeder.held();
    Ok(End { fault, held })
}

fn expect_end(rt: &impl Abort, row: &str, found: End, wanted: End) {
    assert_eq!(rt; found.fault, wanted.fault, "{row}");
    assert_eq!(rt; found.held, wanted.held, "{row}");
}

/// Expects these requests and this end if the bytes are fed in pieces of some size.
fn expect_pieces(
    rt: &impl Abort,
    alloc: Global,
    feeder: &mut Feeder,
    bytes: &[u8],
    size: usize,
    requests: &str,
    end: End,
) -> Result<(), WireFault> {
    let mut text = String::new(alloc);
    let found = feed_pieces(alloc, feeder, bytes, size, &mut text)?;
    expect_text(rt, requests, &text, requests);
    expect_end(rt, requests, found, end);
    Ok(())
}

/// The result of cutting the stream of an open and a key: the requests of the first part, the
/// number of bytes held after them, and the requests of the other part.
#[derive(Clone, Copy)]
struct Cut {
    before: &'static str,
    held: usize,
    after: &'static str,
}

fn cut_at(index: usize) -> Cut {
    let (before, held, after) = if index < 9 {
        ("", index, BOTH)
    } else if index < 22 {
        (OPEN, index - 9, KEY)
    } else {
        (BOTH, 0, "")
    };
    Cut {
        before,
        held,
        after,
    }
}

/// Expects the result of cutting the stream, each part being fed in pieces of some size.
fn expect_cut(rt: &impl Abort, alloc: Global, index: usize, size: usize) -> Result<(), WireFault>
    requires { index ≤ 22 }
{
    let (before, after) = (&OPEN_AND_KEY[..index], &OPEN_AND_KEY[index..]);
    let cut = cut_at(index);
    let fault = None;
    let between = End {
        fault,
        held: cut.held,
    };
    let end = End { fault, held: 0 };
    let mut feeder = Feeder::new(alloc);
    expect_pieces(rt, alloc, &mut feeder, before, size, cut.before, between)?;
    expect_pieces(rt, alloc, &mut feeder, after, size, cut.after, end)
}

#[test]
fn cut_anywhere(rt: HostRuntime) -> Result<(), WireFault> {
    for index in 0..=22 {
        expect_cut(&rt, rt.alloc(), index, 1)?;
        expect_cut(&rt, rt.alloc(), index, 22)?;
    }
    Ok(())
}

/// The bytes after an open and a key, and their fault.
struct FaultRow {
    name: &'static str,
    bytes: &'static [u8],
    fault: Option<WireFault>,
}

#[rattlefmt::skip]
static FAULTS: [FaultRow; 12] = [
    FaultRow { name: "a load of one byte too many", bytes: &[5, 0, 0, 0, 0, 0, 0x80, 0, 1], fault: Some(WireFault::TooLong) },
    FaultRow { name: "a load by the longest sequences of one byte too many", bytes: &[7, 0, 0, 0, 0, 0, 0x80, 0, 1], fault: Some(WireFault::TooLong) },
    FaultRow { name: "a load as large as may be", bytes: &[5, 0, 0, 0, 0, 0, 0x80, 0, 0], fault: None },
    FaultRow { name: "a load by the longest sequences as large as may be", bytes: &[7, 0, 0, 0, 0, 0, 0x80, 0, 0], fault: None },
    FaultRow { name: "the kind behind the last one", bytes: &[9], fault: Some(WireFault::UnknownKind) },
    FaultRow { name: "the kind of no request", bytes: &[8], fault: Some(WireFault::UnknownKind) },
    FaultRow { name: "kind 0", bytes: &[0], fault: Some(WireFault::UnknownKind) },
    FaultRow { name: "a key of three bytes", bytes: &[2, 0, 0, 0, 7, 0, 0, 0, 3], fault: Some(WireFault::BadLength) },
    FaultRow { name: "a key of five bytes", bytes: &[2, 0, 0, 0, 7, 0, 0, 0, 5], fault: Some(WireFault::BadLength) },
    FaultRow { name: "a head that is cut", bytes: &[2, 0, 0, 0, 7, 0, 0, 0], fault: None },
    FaultRow { name: "a question with a payload", bytes: &[6, 0, 0, 0, 7, 0, 0, 0, 1], fault: Some(WireFault::BadLength) },
    FaultRow { name: "a key that is cut", bytes: &[2, 0, 0, 0, 7, 0, 0, 0, 4, 0xff], fault: None },
];

/// Expects these requests and then the fault of the row, and this number of held bytes.
fn expect_fault(
    rt: &impl Abort,
    alloc: Global,
    row: &FaultRow,
    feeder: &mut Feeder,
    requests: &str,
    held: usize,
) -> Result<(), AllocError> {
    let mut text = String::new(alloc);
    let fault = take_all(alloc, feeder, &mut text)?;
    expect_text(rt, row.name, &text, requests);
    let found = End {
        fault,
        held: feeder.held(),
    };
    let wanted = End {
        fault: row.fault,
        held,
    };
    expect_end(rt, row.name, found, wanted);
    Ok(())
}

/// Expects the fault of a row after an open and a key, and that it stays whatever follows.
fn expect_lasting_fault(rt: &impl Abort, alloc: Global, row: &FaultRow) -> Result<(), WireFault> {
    let mut feeder = Feeder::new(alloc);
    feed(&mut feeder, &OPEN_AND_KEY)?;
    feed(&mut feeder, row.bytes)?;
    expect_fault(rt, alloc, row, &mut feeder, BOTH, row.bytes.len())?;
    if row.fault.is_some() {
        feed(&mut feeder, &OPEN_AND_KEY)?;
        let held = row.bytes.len().saturating_add(22);
        expect_fault(rt, alloc, row, &mut feeder, "", held)?;
    }
    Ok(())
}

#[test]
fn faults(rt: HostRuntime) -> Result<(), WireFault> {
    for row in &FAULTS {
        expect_lasting_fault(&rt, rt.alloc(), row)?;
    }
    Ok(())
}

/// A fault, and its printed form.
struct PrintedRow {
    fault: WireFault,
    prints: &'static str,
}

#[rattlefmt::skip]
static PRINTED: [PrintedRow; 4] = [
    PrintedRow { fault: WireFault::UnknownKind, prints: "1 UnknownKind" },
    PrintedRow { fault: WireFault::BadLength, prints: "2 BadLength" },
    PrintedRow { fault: WireFault::TooLong, prints: "3 TooLong" },
    PrintedRow { fault: WireFault::NoMemory, prints: "4 NoMemory" },
];

fn expect_printed(rt: &impl Abort, alloc: Global, row: &PrintedRow) -> Result<(), AllocError> {
    let mut text = String::new(alloc);
    write!(text, "{}", row.fault)?;
    expect_text(rt, row.prints, &text, row.prints);
    Ok(())
}

#[test]
fn fault_texts(rt: HostRuntime) -> Result<(), AllocError> {
    for row in &PRINTED {
        expect_printed(&rt, rt.alloc(), row)?;
    }
    Ok(())
}

/// Returns the next pseudorandom number.
fn next_by_chance(seed: u32) -> u32 {
    let mut next = seed;
    next ^= next << 13;
    next ^= next >> 17;
    next ^= next << 5;
    next
}

/// Returns the length of a payload of this kind: pseudorandom for a load.
fn size_by_chance(kind: u8, seed: u32) -> u8 {
    match kind {
        2 => 4,
        5 | 7 => ((seed >> 20) % 40) as u8,
        _ => 0,
    }
}

/// Appends a pseudorandom frame, and now and then a byte that begins no frame.
fn push_by_chance(stream: &mut Vec<u8>, seed: u32) -> Result<(), AllocError> {
    let kind = ((seed >> 8) % 8) as u8;
    let size = size_by_chance(kind, seed);
    stream.extend_from_slice(&[kind.max(1), 0, 0, 0, kind, 0, 0, 0, size])?;
    for index in 0..size {
        stream.push(((seed >> (index % 25)) % 256) as u8)?;
    }
    if seed % 11 == 0 {
        stream.push((seed % 256) as u8)?;
    }
    Ok(())
}

/// Expects the same result in pieces of some size as in one piece.
fn expect_same(
    rt: &impl Abort,
    alloc: Global,
    stream: &[u8],
    size: usize,
    whole: &str,
    end: End,
) -> Result<(), WireFault> {
    let mut feeder = Feeder::new(alloc);
    expect_pieces(rt, alloc, &mut feeder, stream, size, whole, end)
}

/// Expects the same result in one piece and in pieces of each size.
fn expect_same_in_pieces(rt: &impl Abort, alloc: Global, stream: &[u8]) -> Result<(), WireFault> {
    let mut feeder = Feeder::new(alloc);
    let mut whole = String::new(alloc);
    let end = feed_pieces(alloc, &mut feeder, stream, stream.len(), &mut whole)?;
    for size in [1, 2, 7, 30] {
        expect_same(rt, alloc, stream, size, &whole, end)?;
    }
    Ok(())
}

/// Pseudorandom bytes, mostly frames: the result does not depend on the pieces.
#[test]
fn by_chance(rt: HostRuntime) -> Result<(), WireFault> {
    let mut seed = 0x2545_f491u32;
    for _ in 0..200u32 {
        let mut stream = Vec::new(rt.alloc());
        for _ in 0..8 {
            seed = next_by_chance(seed);
            push_by_chance(&mut stream, seed)?;
        }
        expect_same_in_pieces(&rt, rt.alloc(), &stream)?;
    }
    Ok(())
}

fn expect_reply(rt: &impl Abort, session: u32, answer: ReplyBody, bytes: &[u8]) {
    let reply = Reply { session, answer };
    assert_eq!(rt; put_reply(&reply).as_slice(), bytes, "{reply:?}");
}

#[test]
fn replies(rt: HostRuntime) {
    expect_reply(&rt, 7, ReplyBody::Opened, &[0x81, 0, 0, 0, 7, 0, 0, 0, 0]);
    expect_reply(
        &rt,
        7,
        ReplyBody::Fed(Status::Composing, true, ArrayString::new()),
        &[0x82, 0, 0, 0, 7, 0, 0, 0, 2, 1, 1],
    );
    expect_reply(&rt, 7, ReplyBody::WasReset, &[0x83, 0, 0, 0, 7, 0, 0, 0, 0]);
    expect_reply(&rt, 7, ReplyBody::Closed, &[0x84, 0, 0, 0, 7, 0, 0, 0, 0]);
    expect_reply(
        &rt,
        0,
        ReplyBody::Loaded(258),
        &[0x85, 0, 0, 0, 0, 0, 0, 0, 8, 0, 0, 0, 0, 0, 0, 1, 2],
    );
    expect_reply(
        &rt,
        7,
        ReplyBody::State(Status::Nothing, ArrayVec::new()),
        &[0x86, 0, 0, 0, 7, 0, 0, 0, 2, 0, 0],
    );
    expect_reply(
        &rt,
        0,
        ReplyBody::Refused(10),
        &[0xff, 0, 0, 0, 0, 0, 0, 0, 2, 0, 10],
    );
}

#[test]
fn replies_with_texts(rt: HostRuntime) -> Result<(), Fail> {
    let text = ArrayString::<255>::from("é").map_err(|_| "no room")?;
    expect_reply(
        &rt,
        0x0102_0304,
        ReplyBody::Fed(Status::Cancelled, false, text),
        &[0x82, 1, 2, 3, 4, 0, 0, 0, 4, 3, 0, 0xc3, 0xa9],
    );
    let longest = Reply {
        session: 1,
        answer: ReplyBody::Fed(Status::Composed, true, ArrayString::zero_filled()),
    };
    assert_eq!(rt; put_reply(&longest).len(), 266);
    Ok(())
}

#[test]
fn replies_with_keysyms(rt: HostRuntime) -> Result<(), Fail> {
    let mut pending = ArrayVec::<Keysym, 31>::new();
    pending.push(Keysym::new(0xfe50).ok_or("no keysym")?);
    pending.push(Keysym::new(0x1fff_ffff).ok_or("no keysym")?);
    expect_reply(
        &rt,
        7,
        ReplyBody::State(Status::Composed, pending),
        &[
            0x86, 0, 0, 0, 7, 0, 0, 0, 10, 2, 2, 0, 0, 0xfe, 0x50, 0x1f, 0xff, 0xff, 0xff,
        ],
    );
    Ok(())
}
