//! Mistakes in a table, and lines of it that other readers of Compose files skip or treat
//! differently.
#![tactic(auto)]

ghost use Rattle.std.specs.Prelude.{◌≡◌, ℕ, List, [], ◌∷◌, ◌++◌, IsTrue};
ghost use Rattle.compose_text.specs.Bytes.{is_blank};
ghost use Rattle.compose_lint.specs.Accepted.{AcceptsAll, accept_lines, listed_line};
ghost use Rattle.compose_lint.specs.Rows.{Row};

mod accepted;
mod alike;
mod answer;
mod asking;
mod classes;
mod comment;
mod comments;
mod commonest;
mod counting;
mod definition;
mod faultless;
mod faults;
mod file_lines;
mod finding;
mod included;
mod json;
mod kinds;
mod lines;
mod lint;
mod listed;
mod longer;
mod lost;
mod production;
mod reader;
mod report;
mod row;
mod signs;
mod source_lines;
mod texts;

pub use answer::lint_tables;
pub use asking::{LintFault, LintForm, LintInput, LintTable};
pub use finding::{Finding, FindingKind, LinePlace};
pub use lint::find_findings;
pub use lost::lost_count;
pub use reader::{Class, Reader, Readers};

/// The list that accepts findings, as [`lint_tables`] writes it, can be read again and accepts
/// them: no line of it is stale, and no finding is left.
pub fn law_accept_text()
    ensures { (rows : List Row) → AcceptsAll (accept_lines rows) rows }
{}

/// A blank at the end of a line in a list of accepted findings is ignored, a carriage return too.
pub fn law_blank_at_end()
    ensures { (line : List ℕ) (b : ℕ) → IsTrue (is_blank b)
        → listed_line (line ++ b ∷ []) ≡ listed_line line }
{}
