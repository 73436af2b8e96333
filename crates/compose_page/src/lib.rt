//! The rows of `diff` as a page that people read: Markdown, or HTML in one file.
//!
//! [`page_text`] begins with what matters most: the texts that can't be typed any more, then those
//! that are typed otherwise, and then the rest, folded. Each part ([`Section`]) is a heading with
//! its number of sequences, and a table. A row of Markdown:
//!
//!     | <b>ở</b> | U+1EDF | <kbd>dead\_hook</kbd> <kbd>o</kbd> | removed | OLD:1234 |
#![tactic(auto)]

ghost use Rattle.std.specs.Prelude.{List};
ghost use Rattle.std.specs.List.Sorted.{IsPermutation};
ghost use Rattle.compose_diff.specs.declared.row.DiffRow.{DiffRow};
ghost use Rattle.compose_diff.specs.Folds.{reported};
ghost use Rattle.compose_page.specs.Sections.{rows_of_all};

mod cells;
mod keys;
mod markup;
mod page;
mod section;

pub use markup::Markup;
pub use page::page_text;
pub use section::Section;

/// Each row that is not kept is in exactly one part of the page: none is omitted or repeated.
pub fn law_sections()
    ensures { (rows : List DiffRow) → IsPermutation (reported rows) (rows_of_all rows) }
{}
