//! How long something is waited for.
use std::rt::Clock;
use std::thread;
use std::time::Duration;

/// How long is waited before something is tried again, in milliseconds.
const PAUSE: u64 = 50;

/// The time at which nothing is waited for any more.
#[derive(Clone, Copy, Drop)]
pub struct Deadline {
    /// By the clock; `None` if that can't be read, and then nothing is waited for.
    at: Option<Duration>,
}

impl Deadline {
    /// Returns the time after this number of seconds.
    pub fn after(rt: &impl Clock, seconds: u32) -> Deadline {
        let wait = Duration::from_secs(u64::from(seconds));
        let at = match rt.monotonic() {
            Ok(now) => now.checked_add(wait),
            Err(_) => None,
        };
        Deadline { at }
    }

    /// Returns whether the time has passed.
    pub fn is_over(&self, rt: &impl Clock) -> bool {
        match (self.at, rt.monotonic()) {
            (Some(at), Ok(now)) => now >= at,
            _ => true,
        }
    }
}

/// Waits before something is tried again.
pub fn pause(rt: &impl Clock) {
    thread::sleep(rt, Duration::from_millis(PAUSE));
}
