//! Readers and writers that fail, move little, or are interrupted.
use std::alloc::Global;
use std::io;
use std::io::{ErrorKind, Read, Write};

/// The behaviour of a device. Calls are counted from 1, so 0 is none.
#[derive(Clone, Copy, Drop)]
pub struct Behaviour {
    /// The greatest number of bytes that a call moves.
    pub most: usize,
    /// The call that fails.
    pub failing: usize,
    /// The call that moves no byte.
    pub idle: usize,
    /// Of this number of calls, the last is interrupted. It does not count for the other fields.
    pub interrupted: usize,
}

/// A device's calls so far.
#[derive(Clone, Copy, Drop)]
struct Calls {
    behaviour: Behaviour,
    count: usize,
    since_interrupted: usize,
}

impl Calls {
    /// Makes the state before the first call.
    fn new(behaviour: Behaviour) -> Calls {
        Calls {
            behaviour,
            count: 0,
            since_interrupted: 0,
        }
    }

    /// Counts a call, and returns the greatest number of bytes that it moves.
    fn next(&mut self) -> io::Result<usize> {
        self.since_interrupted = self.since_interrupted.saturating_add(1);
        if self.since_interrupted == self.behaviour.interrupted {
            self.since_interrupted = 0;
            return Err(io::Error::from(ErrorKind::Interrupted));
        }
        self.count = self.count.saturating_add(1);
        if self.count == self.behaviour.failing {
            return Err(io::Error::from(ErrorKind::ConnectionReset));
        }
        if self.count == self.behaviour.idle {
            return Ok(0);
        }
        Ok(self.behaviour.most)
    }
}

/// A reader of some bytes.
#[derive(Drop)]
pub struct TrialReader {
    bytes: Vec<u8>,
    start: usize,
    calls: Calls,
}

impl TrialReader {
    /// Makes a reader of these bytes.
    pub fn new(bytes: Vec<u8>, behaviour: Behaviour) -> TrialReader {
        TrialReader {
            bytes,
            start: 0,
            calls: Calls::new(behaviour),
        }
    }
}

impl Read for TrialReader {
    fn read(&mut self, buf: &mut [u8]) -> io::Result<usize> {
        let most = self.calls.next()?;
        let Some(rest) = self.bytes.get(self.start..) else {
            return Ok(0);
        };
        let count = most.min(rest.len()).min(buf.len());
        buf[..count].copy_from_slice(&rest[..count]);
        self.start = self.start.saturating_add(count);
        Ok(count)
    }
}

/// A writer that keeps the bytes that it takes.
#[derive(Drop)]
pub struct TrialWriter {
    taken: Vec<u8>,
    calls: Calls,
}

impl TrialWriter {
    /// Makes a writer that has taken nothing.
    pub fn new(alloc: Global, behaviour: Behaviour) -> TrialWriter {
        TrialWriter {
            taken: Vec::new(alloc),
            calls: Calls::new(behaviour),
        }
    }

    /// Returns the bytes that it has taken.
    pub fn taken(&self) -> &[u8] {
        self.taken.as_slice()
    }
}

impl Write for TrialWriter {
    fn write(&mut self, buf: &[u8]) -> io::Result<usize> {
        let most = self.calls.next()?;
        let count = most.min(buf.len());
        self.taken.extend_from_slice(&buf[..count])?;
        Ok(count)
    }

    fn flush(&mut self) -> io::Result<()> {
        Ok(())
    }
}
