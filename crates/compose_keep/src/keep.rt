//! Where the table in use is kept.
ghost use Rattle.std.specs.Prelude.{◌≡◌, List, Ok, IfOk};
ghost use Rattle.compose_keep.specs.Kept.{Kept, Puts};

use compose_model::Rule;
use std::alloc::Global;

/// A table as it is kept: the payload of the load that brought it, and the rule of that load.
#[derive(Drop)]
pub struct KeptTable {
    /// The rule for overlaps.
    pub rule: Rule,
    /// The payload of the load.
    pub payload: Vec<u8>,
}

impl KeptTable {
    ghost use Rattle.std.specs.Prelude.{◌≡◌, IfOk};
    ghost use Rattle.compose_keep.specs.Stored.{kept_of};

    /// Returns a table with a copy of this payload. O(bytes).
    ///
    /// # Errors
    /// `NotKept` if memory runs out.
    pub fn copied(alloc: Global, rule: Rule, payload: &[u8]) -> Result<KeptTable, NotKept>
        ensures { IfOk result
            (λ copied. kept_of copied ≡ record { rule = rule; payload = payload.now }) }
    {
        match Vec::from_slice(alloc, payload) {
            Ok(payload) => Ok(KeptTable { rule, payload }),
            Err(_) => Err(NotKept),
        }
    }
}

/// The table could not be kept, or what is kept could not be read.
#[derive(Clone, Copy, Debug, PartialEq, Eq, Drop)]
pub struct NotKept;

/// A place that keeps one table, from one start of the service to the next.
pub trait Keep {
    /// What a start finds now.
    ghost kept: { Self → Kept };

    /// What a start might have found, at each moment so far at which this could change.
    ghost moments: { Self → List Kept };

    /// Keeps a table in the place of the one that is kept. A start at any moment of the call finds
    /// the one or the other, whole.
    ///
    /// # Errors
    /// `NotKept` if it can't be kept; then what was kept before is kept on.
    fn put(&mut self, alloc: Global, rule: Rule, payload: &[u8]) -> Result<(), NotKept>
        ensures { Puts (kept self.old) (moments self.old) (record {
          rule = rule;
          payload = payload.now;
        }) result (kept self.new) (moments self.new) };

    /// Returns what is kept.
    ///
    /// # Errors
    /// `NotKept` if it can't be read.
    fn get(&self, alloc: Global) -> Result<KeptTable, NotKept>
        ensures { IfOk result (λ found. kept self.now ≡ record {
          rule = found.rule;
          payload = found.payload.items;
        }) };
}
