//! A stream of keys that is typed.
ghost use Rattle.std.specs.Prelude.{◌<◌};

use crate::bench::figures::print;
use crate::bench::serving::read_count;
use crate::bench::stopwatch::{Stopwatch, now};
use crate::failure::Failure;
use crate::input::{read_file, read_names, read_table};
use arrayvec::ArrayString;
use compose_model::Status;
use compose_state::ComposeState;
use compose_tree::PackedTable;
use keysym_core::{Keysym, Names};

/// The number of times that each status came, the number of bytes of all committed texts, and the
/// sum of their first bytes.
#[derive(Clone, Copy, PartialEq, Eq, Drop)]
pub struct TestCounts {
    by_status: [u64; 4],
    text_bytes: u64,
    first_bytes: u64,
}

impl TestCounts {
    /// Makes counts of no key.
    pub fn new() -> TestCounts {
        TestCounts {
            by_status: [0; 4],
            text_bytes: 0,
            first_bytes: 0,
        }
    }

    /// Counts a key, and reads the first byte of its text, so that the text has to be made. There
    /// is no branch on the status, as there is none in libxkbcommon's counts.
    pub fn count(&mut self, status: Status, text: &str) {
        let count = &mut self.by_status[index_of(status)];
        *count = count.wrapping_add(1);
        self.text_bytes = self.text_bytes.wrapping_add(text.len() as u64);
        let first = text.as_bytes().first().copied().unwrap_or(0);
        self.first_bytes = self.first_bytes.wrapping_add(u64::from(first));
    }
}

/// Returns the index of a status among the counts.
fn index_of(status: Status) -> usize
    ensures { result < 4 }
{
    match status {
        Status::Nothing => 0,
        Status::Composing => 1,
        Status::Composed => 2,
        Status::Cancelled => 3,
    }
}

/// Types the keys of a file, in which each keysym has four bytes, the lowest first, this number of
/// times. Errors: see [`Failure`].
pub fn type_keys(
    rt: &HostRuntime,
    header: &str,
    path: &str,
    keys: &str,
    turns: &str,
) -> Result<(), Failure> {
    let turns = read_count(turns)?;
    let names = read_names(rt, header)?;
    type_with(rt, &names, path, keys, turns)
}

/// Does the same with these names.
fn type_with(
    rt: &HostRuntime,
    names: &Names,
    path: &str,
    keys: &str,
    turns: u32,
) -> Result<(), Failure> {
    let table: PackedTable = read_table(rt, names, path)?;
    type_file(rt, &table, names, keys, turns)
}

/// Types the keys of a file over this table, and prints the least time of a turn.
fn type_file(
    rt: &HostRuntime,
    table: &PackedTable,
    names: &Names,
    keys: &str,
    turns: u32,
) -> Result<(), Failure> {
    let keys = read_keys(rt, keys)?;
    let mut stopwatch = Stopwatch::new();
    let mut counts = TestCounts::new();
    for _ in 0..turns {
        let start = now(rt)?;
        counts = type_all(table, names, &keys);
        stopwatch.stop(rt, start)?;
    }
    print_counts(rt, stopwatch.least(), counts)
}

/// Prints the time and the counts of a turn.
fn print_counts(rt: &HostRuntime, time: u64, counts: TestCounts) -> Result<(), Failure> {
    let [nothing, composing, composed, cancelled] = counts.by_status;
    print(
        rt,
        &[
            ("type", time),
            ("nothing", nothing),
            ("composing", composing),
            ("composed", composed),
            ("cancelled", cancelled),
            ("text bytes", counts.text_bytes),
            ("first bytes", counts.first_bytes),
        ],
    )
}

/// Reads the keysyms of a file. `Err(File)` if it can't be read, `Err(Input)` if four of its bytes
/// are not a keysym, `Err(NoMemory)` if memory runs out.
pub fn read_keys(rt: &HostRuntime, path: &str) -> Result<Vec<Keysym>, Failure> {
    let bytes = read_file(rt, path)?;
    keysyms_in(rt, &bytes)
}

/// Returns the keysyms of these bytes.
fn keysyms_in(rt: &HostRuntime, bytes: &[u8]) -> Result<Vec<Keysym>, Failure> {
    let mut keys = Vec::new(rt.alloc());
    for index in 0..bytes.len() / 4 {
        let Some(keysym) = keysym_at(bytes, index * 4) else {
            return Err(Failure::Input);
        };
        if keys.push(keysym).is_err() {
            return Err(Failure::NoMemory);
        }
    }
    Ok(keys)
}

/// Returns the keysym of the four bytes at this index.
fn keysym_at(bytes: &[u8], index: usize) -> Option<Keysym> {
    let four = bytes.get(index..)?.first_chunk::<4>()?;
    Keysym::new(u32::from_le_bytes(*four))
}

/// Feeds each key, and reads the status and the text each time.
fn type_all(table: &PackedTable, names: &Names, keys: &[Keysym]) -> TestCounts {
    let mut counts = TestCounts::new();
    let mut state = ComposeState::new();
    let mut text: ArrayString<255> = ArrayString::new();
    for key in keys {
        let fed = state.feed(table, names, *key);
        fed.text_into(&mut text);
        counts.count(fed.status, text.as_str());
    }
    counts
}
