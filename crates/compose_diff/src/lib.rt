//! The output of `diff`: what a new Compose table does to each sequence of an old one, as lines,
//! and the intended changes.
//!
//! A [`DiffRow`] is a sequence and what happens to it. [`sort_rows`] puts rows into the order in
//! which they are printed, and [`answer_diff`] returns the whole answer: a line for each row
//! ([`diff_text`], or [`folded_text`]) and the [`Counts`]. [`colored_text`] adds colours, and
//! [`json_answer`] is the answer for programs. A line:
//!
//!     changed: <dead_hook> <o> "ở" "ờ" OLD:1234 NEW:361 now: <dead_horn> <dead_hook> <o> NEW:340
//!
//! [`Accepted`] holds the intended changes, as such lines, and [`accept_text`] writes the lines
//! that accept all rows.
#![tactic(auto)]

ghost use Rattle.std.specs.Prelude.{◌≡◌, ℕ, Bool, List, ◌∷◌, ◌++◌, filter, IsTrue};
ghost use Rattle.std.specs.List.{list_all};
ghost use Rattle.std.specs.List.Sorted.{IsPermutation};
ghost use Rattle.std.specs.Str.Lines.{lines};
ghost use Rattle.compose_diff.specs.declared.answer.Printed.{Printed};
ghost use Rattle.compose_diff.specs.declared.overlaps.Overlaps.{Overlaps};
ghost use Rattle.compose_diff.specs.declared.row.DiffRow.{DiffRow};
ghost use Rattle.compose_diff.specs.Causes.{is_gone, are_removed};
ghost use Rattle.compose_diff.specs.Groups.{groups, all_of, IsGroup};
ghost use Rattle.compose_diff.specs.Folds.{reported};
ghost use Rattle.compose_diff.specs.Accepted.{has_key, accept_lines, AcceptsAll};
ghost use Rattle.compose_diff.specs.Reported.{answer_text};
ghost use Rattle.compose_diff.specs.Colors.{colored_lines, uncolored_text};

mod accepted;
mod answer;
mod cause;
mod color;
mod counts;
mod fold;
mod groups;
mod json;
mod json_counts;
mod line;
mod lost;
mod order;
mod overlaps;
mod row;

pub use accepted::{AcceptFault, Accepted, ListLine, accept_text, list_lines};
pub use answer::{Printed, answer_diff};
pub use color::colored_text;
pub use counts::{Counts, loses_nothing};
pub use fold::{diff_text, folded_text};
pub use json::{json_text, push_json_string};
pub use json_counts::json_answer;
pub use line::is_loss;
pub use lost::{is_lost, lost_rows};
pub use order::sort_rows;
pub use overlaps::{Overlaps, push_overlaps};
pub use row::{DiffRow, NewSequence, TextPlace};

/// Each group of rows has all rows that fold together with one row, in their order, or is a single
/// row that folds together with none.
pub fn law_groups()
    ensures { (gone : ℕ → Bool) (rows part : List DiffRow) (before after : List (List DiffRow))
        → groups gone rows ≡ before ++ part ∷ after → IsGroup gone rows part }
{}

/// Each row that remains is in exactly one group, and so in one line ([`folded_text`]): none is
/// omitted or repeated.
pub fn law_reported_rows()
    ensures { (rows left : List DiffRow) → IsPermutation left (all_of (groups (is_gone rows left) left)) }
{}

/// If some of all rows remain, and a source is gone by these ([`folded_text`]), then every row that
/// the old table has in this source is removed.
pub fn law_gone()
    ensures { (keep : DiffRow → Bool) (rows : List DiffRow) (source : ℕ)
        → IsTrue (is_gone rows (reported (filter keep rows)) source)
        → IsTrue (are_removed source rows) }
{}

/// The list that [`accept_text`] writes for rows whose sequences have keys is read by
/// [`Accepted::read`], and accepts these rows: no line is stale, and the rows that are left are the
/// harmless ones.
pub fn law_accept_text()
    ensures { (rows : List DiffRow) → IsTrue (list_all has_key rows)
        → AcceptsAll (accept_lines rows) rows }
{}

/// An answer in colours ([`colored_text`]) without its escape sequences is the answer.
pub fn law_colors()
    ensures { (printed : Printed) (overlaps : Overlaps) (rows left : List DiffRow)
        → uncolored_text (colored_lines (lines (answer_text printed overlaps rows left)))
        ≡ answer_text printed overlaps rows left }
{}
