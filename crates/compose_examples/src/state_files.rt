//! The files of the folder of the table in use, in memory: whichever call fails, and after each call,
//! the table is the old one or the new one.
ghost use Rattle.std.specs.Prelude.{None};

use compose_stored::{Name, StateFiles, drop_next, hand_over, rewrite, store, use_next};
use std::io::ErrorKind;
use std::process::Abort;

/// What a file has of which a part is written.
const PART: u8 = 255;

/// What the table in use, the one before it and the next one have at first, and what a new one has.
const OLD: u8 = 1;

const BEFORE: u8 = 2;

const CHOSEN: u8 = 3;

const NEW: u8 = 4;

/// More calls than any function here makes.
const CALLS: usize = 12;

/// Files of one byte; 0 if there is no such file. The call with the number `fails_at`, counted from
/// 1, fails.
#[derive(Drop)]
struct InMemory {
    files: [u8; 6],
    calls: usize,
    fails_at: usize,
    is_whole: bool,
}

impl InMemory {
    fn new(fails_at: usize) -> InMemory {
        InMemory {
            files: [OLD, 0, BEFORE, 0, CHOSEN, 0],
            calls: 0,
            fails_at,
            is_whole: true,
        }
    }

    /// Counts a call. Errors: `StorageFull` if it is the one that fails.
    fn count(&mut self) -> Result<(), ErrorKind> {
        self.look();
        self.calls = self.calls.wrapping_add(1);
        if self.calls == self.fails_at {
            return Err(ErrorKind::StorageFull);
        }
        Ok(())
    }

    /// Looks whether each of the files that are read is whole.
    fn look(&mut self) {
        if [self.files[0], self.files[2], self.files[4]].contains(&PART) || self.files[0] == 0 {
            self.is_whole = false;
        }
    }

    /// Returns the table in use, the one before it, and the next one.
    fn tables(&self) -> (u8, u8, u8) {
        (self.files[0], self.files[2], self.files[4])
    }
}

fn index_of(name: Name) -> usize {
    match name {
        Name::Table => 0,
        Name::NewTable => 1,
        Name::Previous => 2,
        Name::NewPrevious => 3,
        Name::Next => 4,
        Name::NewNext => 5,
    }
}

impl StateFiles for InMemory {
    ghost calls = { λ _. None };

    fn write(&mut self, name: Name, bytes: &[u8]) -> Result<(), ErrorKind> {
        self.files[index_of(name)] = PART;
        self.count()?;
        self.files[index_of(name)] = bytes.first().copied().unwrap_or(0);
        Ok(())
    }

    fn rename(&mut self, from: Name, to: Name) -> Result<(), ErrorKind> {
        self.count()?;
        if self.files[index_of(from)] == 0 {
            return Err(ErrorKind::NotFound);
        }
        self.files[index_of(to)] = self.files[index_of(from)];
        self.files[index_of(from)] = 0;
        Ok(())
    }

    fn link(&mut self, from: Name, to: Name) -> Result<(), ErrorKind> {
        self.count()?;
        if self.files[index_of(to)] != 0 {
            return Err(ErrorKind::AlreadyExists);
        }
        self.files[index_of(to)] = self.files[index_of(from)];
        Ok(())
    }

    fn remove(&mut self, name: Name) -> Result<(), ErrorKind> {
        self.count()?;
        self.files[index_of(name)] = 0;
        Ok(())
    }

    fn sync(&mut self) -> Result<(), ErrorKind> {
        self.count()
    }
}

/// Tries a change without a failure, and then with each of its calls failing in turn. If it is made,
/// the tables are those of the first or the second row; otherwise they are those of the third, but
/// for the table before the last change.
fn expect_tables(
    rt: &impl Abort,
    change: impl Fn(&mut InMemory) -> Result<(), ErrorKind>,
    made: [(u8, u8, u8); 2],
    refused: (u8, u8),
) {
    for fails_at in 0..CALLS {
        let mut files = InMemory::new(fails_at);
        let changed = change(&mut files);
        files.look();
        assert!(rt;
            files.is_whole,
            "a part of a table after call {fails_at} failed"
        );
        let (table, _, next) = files.tables();
        match changed {
            Ok(()) => assert!(rt; made.contains(&files.tables())),
            Err(_) => assert_eq!(rt; (table, next), refused),
        }
        assert!(rt; fails_at > 0 || files.tables() == made[0]);
    }
}

#[test]
fn a_table_is_stored(rt: HostRuntime) {
    let made = [(NEW, OLD, CHOSEN), (NEW, 0, CHOSEN)];
    expect_tables(&rt, |files| store(files, &[NEW]), made, (OLD, CHOSEN));
}

#[test]
fn a_table_is_stored_with_other_settings(rt: HostRuntime) {
    let made = [(NEW, BEFORE, CHOSEN); 2];
    expect_tables(&rt, |files| rewrite(files, &[NEW]), made, (OLD, CHOSEN));
}

#[test]
fn the_next_table_is_taken(rt: HostRuntime) {
    let made = [(CHOSEN, OLD, 0), (CHOSEN, 0, 0)];
    expect_tables(&rt, |files| use_next(files), made, (OLD, CHOSEN));
}

#[test]
fn a_table_is_handed_over(rt: HostRuntime) {
    let made = [(OLD, BEFORE, NEW); 2];
    expect_tables(&rt, |files| hand_over(files, &[NEW]), made, (OLD, CHOSEN));
}

#[test]
fn the_next_table_is_dropped(rt: HostRuntime) {
    let made = [(OLD, BEFORE, 0); 2];
    expect_tables(&rt, |files| drop_next(files), made, (OLD, CHOSEN));
}
