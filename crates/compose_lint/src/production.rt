//! The parts of a production.
ghost use Rattle.std.specs.Prelude.{◌≡◌, map};
ghost use Rattle.std.specs.Option.{option_map};
ghost use Rattle.compose_lint.specs.Productions as words;

use arrayvec::ArrayVec;
use compose_lex::{LineContent, lex_line_into};
use std::marker::Model;

/// The names of the keys of a line, at most 32. One list serves every line of a file.
pub(crate) type Events<'a> = ArrayVec<&'a str, 32>;

/// The right-hand side of a production: what is between the quotes of its string, and the name of
/// its result keysym.
#[derive(Drop)]
pub(crate) struct Written<'a> {
    pub(crate) raw_text: Option<&'a str>,
    pub(crate) result_name: Option<&'a str>,
}

impl<'a> Model for Written<'a> {
    ghost use Rattle.std.specs.Prelude.{option_copied};
    ghost use Rattle.compose_lint.specs.Productions as words;

    ghost Value = { words.Written };

    ghost view = { λ p. record {
      raw = option_copied p.raw_text;
      name = option_copied p.result_name;
    } };
}

/// A production: the names of its keys, and its string and result name.
#[derive(Drop)]
pub(crate) struct Production<'a> {
    pub(crate) events: Events<'a>,
    pub(crate) written: Written<'a>,
}

impl<'a> Model for Production<'a> {
    ghost use Rattle.std.specs.Prelude.{map};
    ghost use Rattle.compose_lint.specs.Productions as words;

    ghost Value = { words.Production };

    ghost view = { λ p. record {
      events = map (λ e. e.now) p.events.items;
      written = p.written;
    } };
}

impl<'a> Written<'a> {
    ghost use Rattle.std.specs.Prelude.{◌≡◌, option_copied};

    /// Returns what is between the quotes of the string, if there is one.
    pub(crate) fn raw_text(&self) -> Option<&'a str>
        ensures { option_copied result ≡ self.now.raw }
    {
        self.raw_text
    }

    /// Returns the name of the result keysym, if there is one.
    pub(crate) fn result_name(&self) -> Option<&'a str>
        ensures { option_copied result ≡ self.now.name }
    {
        self.result_name
    }
}

/// Returns the string and the result name of the production on the line, if it is one. The names of
/// its keys are left in the list. O(bytes).
pub(crate) fn written_on<'a>(line: &'a [u8], events: &mut Events<'a>) -> Option<Written<'a>>
    ensures { option_map (words.production_with (map (λ e. e.now) events.new.items)) result
        ≡ words.production_of line.now }
{
    let Ok(text) = str::from_utf8(line) else {
        return None;
    };
    match lex_line_into(text, events) {
        Ok(
            LineContent::Production {
                raw_text,
                result_name,
            },
        ) => Some(Written {
            raw_text,
            result_name,
        }),
        _ => None,
    }
}

/// Returns the production on the line, if it is one. O(bytes).
pub(crate) fn production_of(line: &[u8]) -> Option<Production<'_>>
    ensures { result ≡ words.production_of line.now }
{
    let mut events = ArrayVec::new();
    let written = written_on(line, &mut events)?;
    Some(Production { events, written })
}
