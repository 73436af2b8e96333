//! The lexer, and the readers of names and certificates.
use crate::bench::figures::print;
use crate::bench::stopwatch::{ROUNDS, Stopwatch, now};
use crate::failure::Failure;
use crate::input::read_file;
use arrayvec::ArrayVec;
use compose_cert::Certificate;
use compose_lex::{LineContent, lex_line_into};
use keysym_core::Names;

/// Measures how all lines of a table are lexed. Errors: see [`Failure`].
pub fn lex(rt: &HostRuntime, path: &str) -> Result<(), Failure> {
    let bytes = read_file(rt, path)?;
    match str::from_utf8(&bytes) {
        Ok(text) => lex_text(rt, text),
        Err(_) => Err(Failure::Input),
    }
}

/// Lexes all lines of a text.
fn lex_text(rt: &HostRuntime, text: &str) -> Result<(), Failure> {
    match text.lines().collect::<Vec<&str>>(rt.alloc()) {
        Ok(lines) => lex_rounds(rt, &lines),
        Err(_) => Err(Failure::NoMemory),
    }
}

/// Lexes the lines in each round, and prints the least time and the number of their events.
fn lex_rounds(rt: &HostRuntime, lines: &[&str]) -> Result<(), Failure> {
    let mut stopwatch = Stopwatch::new();
    let mut events = 0;
    for _ in 0..ROUNDS {
        let start = now(rt)?;
        events = count_events(lines);
        stopwatch.stop(rt, start)?;
    }
    print(rt, &[("lex", stopwatch.least()), ("events", events)])
}

/// Returns the number of events of the lines.
fn count_events(lines: &[&str]) -> u64 {
    let mut events = ArrayVec::new();
    let mut count = 0u64;
    for line in lines {
        count = count.saturating_add(events_on(line, &mut events));
    }
    count
}

/// Returns the number of events of a line.
fn events_on<'a>(line: &'a str, events: &mut ArrayVec<&'a str, 32>) -> u64 {
    match lex_line_into(line, events) {
        Ok(LineContent::Production { .. }) => events.len() as u64,
        _ => 0,
    }
}

/// Measures how a header of names is read. Errors: see [`Failure`].
pub fn read_names(rt: &HostRuntime, path: &str) -> Result<(), Failure> {
    let header = read_file(rt, path)?;
    measure_names(rt, &header)
}

/// Prints the least time of reading these bytes of a header.
fn measure_names(rt: &HostRuntime, header: &[u8]) -> Result<(), Failure> {
    let mut stopwatch = Stopwatch::new();
    for _ in 0..ROUNDS {
        let start = now(rt)?;
        if Names::read(rt.alloc(), header).is_err() {
            return Err(Failure::Input);
        }
        stopwatch.stop(rt, start)?;
    }
    print(rt, &[("names", stopwatch.least())])
}

/// Measures how a certificate is read and written. Errors: see [`Failure`].
pub fn read_certificate(rt: &HostRuntime, path: &str) -> Result<(), Failure> {
    let text = read_file(rt, path)?;
    match Certificate::read(rt.alloc(), &text) {
        Ok(certificate) => measure_certificate(rt, &text, &certificate),
        Err(_) => Err(Failure::Input),
    }
}

/// Prints the times of a certificate, and the number of its pairs.
fn measure_certificate(
    rt: &HostRuntime,
    text: &[u8],
    certificate: &Certificate,
) -> Result<(), Failure> {
    let reading = reading_time(rt, text)?;
    let writing = writing_time(rt, certificate)?;
    let pairs = certificate.pair_count() as u64;
    print(
        rt,
        &[
            ("read certificate", reading),
            ("write certificate", writing),
            ("pairs", pairs),
        ],
    )
}

/// Returns the least time of reading a certificate.
fn reading_time(rt: &HostRuntime, text: &[u8]) -> Result<u64, Failure> {
    let mut stopwatch = Stopwatch::new();
    for _ in 0..10 {
        let start = now(rt)?;
        if Certificate::read(rt.alloc(), text).is_err() {
            return Err(Failure::Input);
        }
        stopwatch.stop(rt, start)?;
    }
    Ok(stopwatch.least())
}

/// Returns the least time of writing a certificate.
fn writing_time(rt: &HostRuntime, certificate: &Certificate) -> Result<u64, Failure> {
    let mut stopwatch = Stopwatch::new();
    for _ in 0..10 {
        let start = now(rt)?;
        if certificate.write_text(rt.alloc()).is_err() {
            return Err(Failure::NoMemory);
        }
        stopwatch.stop(rt, start)?;
    }
    Ok(stopwatch.least())
}
