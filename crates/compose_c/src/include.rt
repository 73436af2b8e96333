//! Include lines.
ghost use Rattle.std.specs.Prelude.{MatchOption};
ghost use Rattle.compose_c.specs.Includes.{IsInclude, IncludesNone};

use compose_lex::{Line, lex_line};
use std::str;

/// Returns the raw name of the line, the text between its quotes, if the line is an include.
fn included(text: &str) -> Option<&str>
    ensures { MatchOption result ((name : _) → IsInclude text.now name → ⊥)
        (λ name. IsInclude text.now name.now) }
{
    match lex_line(text) {
        Ok(Line::Include(raw)) => return Some(raw),
        Ok(Line::Blank) => return None,
        Ok(Line::Production { .. }) => return None,
        Err(_) => return None,
    }
}

/// Returns the raw name of the line, the text between its quotes, if the line is UTF-8 and an
/// include. O(bytes).
pub fn include(line: &[u8]) -> Option<&str>
    ensures { MatchOption result (IncludesNone line.now) (λ name. IsInclude line.now name.now) }
{
    let Ok(text) = str::from_utf8(line) else {
        return None;
    };
    included(text)
}
