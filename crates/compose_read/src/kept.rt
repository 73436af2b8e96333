//! A record of the sources that were read, so that including one again costs its definitions and
//! not its bytes.
ghost use Rattle.std.specs.Prelude.{◌≡◌, ◌≤◌, ◌<◌, Some, None, replicate, slice_get, slice_set, IfSome};

use crate::sources::Sources;

/// The result of reading a source to its end, the last time.
#[derive(Clone, Copy)]
pub(crate) struct KeptSource {
    /// The number of levels of includes that were left below it.
    pub(crate) left: usize,
    /// The number of lines that were read, including those of included sources.
    pub(crate) lines: usize,
    /// The index of its first definition among all definitions.
    pub(crate) first: usize,
    /// The number of its definitions.
    pub(crate) count: usize,
}

/// What is kept of each source, by the index of the source; 2.5 KB, without an allocation.
#[derive(Drop)]
pub(crate) struct Kept {
    by_source: [Option<KeptSource>; Sources::MOST],
}

impl Kept {
    /// Returns a value in which nothing is kept.
    pub(crate) fn new() -> Kept
        ensures { result.by_source ≡ replicate 64 None }
    {
        Kept {
            by_source: [None; Sources::MOST],
        }
    }

    /// Returns what is kept of a source, if at most this many levels were left below it when it was
    /// read. O(1).
    pub(crate) fn find(&self, source: usize, left: usize) -> Option<KeptSource>
        requires { source < 64 }
        ensures { IfSome result
            (λ k. (slice_get self.now.by_source source ≡ Some (Some k)) × (k.left ≤ left)) }
    {
        let kept = self.by_source[source]?;
        if kept.left > left {
            return None;
        }
        Some(kept)
    }

    /// Keeps the result of reading a source, in place of an earlier one. O(1).
    pub(crate) fn put(&mut self, source: usize, gave: KeptSource)
        requires { source < 64 }
        ensures { self.new.by_source ≡ slice_set self.old.by_source source (Some gave) }
    {
        self.by_source[source] = Some(gave);
    }
}
