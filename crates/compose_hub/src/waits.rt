//! The connection that has waited longest for room, and the one that is idle next.
ghost use Rattle.std.specs.Prelude.{◌≡◌};
ghost use Rattle.std.specs.Option.{option_map};
ghost use Rattle.std.specs.Duration.{as_nanos};
ghost use Rattle.compose_hub.specs.Slots.{waits_since, slot_idle_in};
ghost use Rattle.compose_hub.specs.Rounds.{lesser, sooner, WaitsLongest, IsNextIdle};

use crate::client::{Client, WaitsFor};
use std::time::Duration;

/// Returns the time since which the connection in this slot waits for room, if it does.
fn waits_since(slot: &Option<Client>) -> Option<u64>
    ensures { result ≡ waits_since slot.now }
{
    match slot {
        Some(client) if client.waits_for == WaitsFor::Room => Some(client.since()),
        _ => None,
    }
}

/// Returns the number of nanoseconds until the connection in this slot is idle, if it waits for its
/// stream.
fn idle_in(slot: &Option<Client>, idle: Option<u32>, time: u64) -> Option<u64>
    ensures { result ≡ slot_idle_in idle time slot.now }
{
    match slot {
        Some(client) => client.idle_in(idle, time),
        None => None,
    }
}

/// Returns whichever has the lesser number: the least slot so far with its number, or this slot, if
/// it has one.
fn lesser(least: Option<(usize, u64)>, key: usize, number: Option<u64>) -> Option<(usize, u64)>
    ensures { result ≡ lesser least key number }
{
    match (least, number) {
        (_, None) => least,
        (None, Some(number)) => Some((key, number)),
        (Some((_, other)), Some(number)) => {
            if number < other {
                Some((key, number))
            } else {
                least
            }
        }
    }
}

/// Returns the slot of the connection that has waited longest for room, if one waits. O(slots).
pub(crate) fn waits_longest(slots: &[Option<Client>]) -> Option<usize>
    ensures { WaitsLongest slots.now result }
{
    let mut longest = None;
    'slots: for (key, slot) in slots.iter().enumerate() {
        longest = lesser(longest, key, waits_since(slot));
    }
    match longest {
        Some((key, _)) => Some(key),
        None => None,
    }
}

/// Returns the number of nanoseconds until the first connection is idle, if one waits for its
/// stream. O(slots).
pub(crate) fn next_idle(slots: &[Option<Client>], idle: Option<u32>, time: u64) -> Option<u64>
    ensures { IsNextIdle idle time slots.now result }
{
    let mut next = None;
    'slots: for (key, slot) in slots.iter().enumerate() {
        next = lesser(next, key, idle_in(slot, idle, time));
    }
    match next {
        Some((_, nanos)) => Some(nanos),
        None => None,
    }
}

/// Returns the shorter of two waits, the second one in nanoseconds. `None` is no limit.
pub(crate) fn sooner(wait: Option<Duration>, nanos: Option<u64>) -> Option<Duration>
    ensures { option_map as_nanos result ≡ sooner (option_map as_nanos wait) nanos }
{
    let Some(nanos) = nanos else {
        return wait;
    };
    match wait {
        Some(wait) if wait.as_nanos() <= u128::from(nanos) => Some(wait),
        _ => Some(Duration::from_nanos(nanos)),
    }
}
