//! A source whose lines are being visited.
ghost use Rattle.std.specs.Prelude.{◌<◌, ◌+◌, ◌^◌, length};

use crate::reading::without_mark;
use crate::sources::Sources;

/// A source whose lines are being visited: its index, the number of the last line that was visited,
/// and the bytes after that line.
#[derive(Clone, Copy)]
pub(crate) struct OpenSource<'a> {
    pub(crate) source: usize,
    pub(crate) line: usize,
    pub(crate) rest: &'a [u8],

    ghost counted: { line + length rest.now < 2 ^ 63 },
}

impl<'a> Default for OpenSource<'a> {
    fn default() -> OpenSource<'a> {
        OpenSource {
            source: 0,
            line: 0,
            rest: &[],
        }
    }
}

impl<'a> OpenSource<'a> {
    ghost use Rattle.std.specs.Prelude.{◌≡◌, ◌≤◌, ◌<◌, ◌-◌, ℕ, length};
    ghost use Rattle.compose_read.specs.Lines.{visits_below, max_depth};
    ghost use Rattle.compose_read.specs.Visits.{left_in};

    /// Returns the source at this index, with no line visited yet. O(1).
    pub(crate) fn new(sources: &'a Sources, source: usize) -> OpenSource<'a>
        requires { source < length sources.now }
        ensures { (depth : ℕ) → depth ≤ max_depth
            → left_in sources.now depth result
            ≡ visits_below sources.now (max_depth - depth) source }
    {
        OpenSource {
            source,
            line: 0,
            rest: without_mark(sources.bytes(source)),
        }
    }
}
