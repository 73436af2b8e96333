//! A place in memory that keeps a table, for tests: it fails at a given call, and it remembers what a
//! start would have found at each step.
ghost use Rattle.std.specs.Prelude.{map};
ghost use Rattle.compose_keep.specs.Stored.{kept_of};

use crate::keep::{Keep, KeptTable, NotKept};
use compose_model::Rule;
use std::alloc::Global;

/// A table that is kept in memory.
#[derive(Drop)]
pub struct Scripted {
    kept: KeptTable,
    moments: Vec<KeptTable>,
    calls: u64,
    fails_at: u64,
}

impl Scripted {
    /// Keeps a table; the call of `put` with this number fails, counted from 1.
    pub fn new(alloc: Global, kept: KeptTable, fails_at: u64) -> Scripted {
        Scripted {
            kept,
            moments: Vec::new(alloc),
            calls: 0,
            fails_at,
        }
    }

    /// Returns what a start finds after a cut at the step with this number.
    ///
    /// # Errors
    /// `NotKept` if there was no such step, or memory runs out.
    pub fn cut_at(&self, alloc: Global, step: usize) -> Result<KeptTable, NotKept> {
        match self.moments.as_slice().get(step) {
            Some(moment) => KeptTable::copied(alloc, moment.rule, moment.payload.as_slice()),
            None => Err(NotKept),
        }
    }
}

impl Keep for Scripted {
    ghost kept = { λ s. kept_of s.kept };

    ghost moments = { λ s. map kept_of s.moments.items };

    fn put(&mut self, alloc: Global, rule: Rule, payload: &[u8]) -> Result<(), NotKept> {
        let before = KeptTable::copied(alloc, self.kept.rule, self.kept.payload.as_slice())?;
        let after = KeptTable::copied(alloc, rule, payload)?;
        let kept = KeptTable::copied(alloc, rule, payload)?;
        // first step: the bytes are written beside what is kept
        let Ok(()) = self.moments.push(before) else {
            return Err(NotKept);
        };
        self.calls = self.calls.saturating_add(1);
        if self.calls == self.fails_at {
            return Err(NotKept);
        }
        // second step: they take its place
        let Ok(()) = self.moments.push(after) else {
            return Err(NotKept);
        };
        self.kept = kept;
        Ok(())
    }

    fn get(&self, alloc: Global) -> Result<KeptTable, NotKept> {
        KeptTable::copied(alloc, self.kept.rule, self.kept.payload.as_slice())
    }
}
