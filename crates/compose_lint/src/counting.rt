//! The line of a file that defines a sequence last, and so counts.
ghost use Rattle.std.specs.Prelude.{◌≡◌, ℕ, List, IfOk, IsTrue, bytes_eq, slice_get, option_copied};
ghost use Rattle.std.specs.Borrow.{Bor};
ghost use Rattle.std.specs.Option.{option_and_then};
ghost use Rattle.indexmap.specs.IndexMap.{get_by};
ghost use Rattle.compose_lint.specs.Counting.{last_defining, IsOnce};

use crate::lines::LintLine;
use indexmap::IndexMap;
use keysym_core::Keysym;
use std::alloc::{AllocError, Global};

/// For each sequence that the lines of a file define, the index of the last line that does.
pub(crate) type LastLines<'a> = IndexMap<&'a [Keysym], usize>;

/// Returns, for each sequence that the lines define, the index of the last line that does, and
/// whether no line defines a sequence again. O(keysyms).
pub(crate) fn last_lines<'a>(
    alloc: Global,
    lines: &'a [LintLine<'_>],
) -> Result<(LastLines<'a>, bool), AllocError>
    ensures last { IfOk result
        (λ found. (q : Bor (List ℕ))
        → option_and_then (slice_get lines.now) (get_by (λ k. bytes_eq q.now k.now) found.0)
        ≡ last_defining lines.now q.now) }
    ensures once { IfOk result (λ found. IsTrue found.1 → IsOnce lines.now) }
{
    let mut last = IndexMap::with_capacity(alloc, lines.len())?;
    let mut is_once = true;
    for (index, line) in lines.iter().enumerate() {
        if let Some(definition) = line.definition() {
            let before = last.insert(definition.sequence(), index)?;
            is_once = is_once & before.is_none();
        }
    }
    Ok((last, is_once))
}
