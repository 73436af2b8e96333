//! The least time of some rounds.
use crate::failure::Failure;
use std::time::Instant;

/// The number of rounds in which a call is measured.
pub const ROUNDS: u32 = 200;

/// The least time so far, in nanoseconds.
#[derive(Clone, Copy, Drop)]
pub struct Stopwatch {
    least: u64,
}

impl Stopwatch {
    /// Makes a stopwatch that has counted no round.
    pub fn new() -> Stopwatch {
        Stopwatch { least: u64::MAX }
    }

    /// Counts a round that began at `start` and ends now. `Err(System)` if the clock fails.
    pub fn stop(&mut self, rt: &HostRuntime, start: Instant) -> Result<(), Failure> {
        let Ok(time) = start.elapsed(rt) else {
            return Err(Failure::System);
        };
        let nanoseconds = u64::try_from(time.as_nanos()).unwrap_or(u64::MAX);
        self.least = self.least.min(nanoseconds);
        Ok(())
    }

    /// Returns the least time in nanoseconds.
    pub fn least(&self) -> u64 {
        self.least
    }
}

/// Returns the current time. `Err(System)` if the clock fails.
pub fn now(rt: &HostRuntime) -> Result<Instant, Failure> {
    match Instant::now(rt) {
        Ok(moment) => Ok(moment),
        Err(_) => Err(Failure::System),
    }
}
