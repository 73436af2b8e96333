//! A message, and the place in a file that it is about.
ghost use Rattle.std.specs.Prelude.{◌≡◌};
ghost use Rattle.compose_messages.specs.Messages as messages;

use crate::names::beginning;
use crate::position::Position;
use compose_shown::Shown;
use std::fmt;

/// A message that says what is wrong.
#[derive(Clone, Copy, Debug)]
pub enum Message<'a> {
    /// A text.
    Plain(&'a str),
    /// A text, and after it a quotation from the file.
    Quoting(&'a str, &'a str),
    /// A text, and after it a name in quotes, of which at most 80 characters are printed.
    Naming(&'a str, &'a str),
    /// What was expected in a line, and what was found; the latter is empty at the end of the line.
    Expected(&'a str, &'a str),
}

impl fmt::Display for Message<'_> {
    ghost use Rattle.std.specs.Prelude.{Some};
    ghost use Rattle.compose_messages.specs.Messages.{message_text};

    ghost output = { λ message. Some (message_text message) };

    fn fmt<W: fmt::Write>(&self, f: &mut fmt::Formatter<W>) -> fmt::Result {
        match self {
            Message::Plain(words) => f.write_str(words),
            Message::Quoting(words, text) => {
                let text = Shown(text);
                write!(f, "{words}\"{text}\"")
            }
            Message::Naming(words, name) => {
                let name = Name(name);
                write!(f, "{words}{name}")
            }
            Message::Expected(expected, found) => {
                let found = Found(found);
                write!(f, "expected {expected}, found {found}")
            }
        }
    }
}

/// What was found in a line, printed in quotes, or the end of the line.
#[derive(Clone, Copy, Debug)]
struct Found<'a>(&'a str);

impl fmt::Display for Found<'_> {
    ghost use Rattle.std.specs.Prelude.{Some};
    ghost use Rattle.compose_messages.specs.Messages.{found_words};

    ghost output = { λ found. Some (found_words found.0.now) };

    fn fmt<W: fmt::Write>(&self, f: &mut fmt::Formatter<W>) -> fmt::Result {
        match self.0.as_bytes().first() {
            None => f.write_str("the end of the line"),
            Some(_) => {
                let found = Name(self.0);
                write!(f, "{found}")
            }
        }
    }
}

/// A name, printed in quotes. Of a name that is longer than 80 characters only these are printed,
/// and three dots after the quotes.
#[derive(Clone, Copy, Debug)]
struct Name<'a>(&'a str);

impl fmt::Display for Name<'_> {
    ghost use Rattle.std.specs.Prelude.{Some};
    ghost use Rattle.compose_messages.specs.Messages.{name_text};

    ghost output = { λ name. Some (name_text name.0.now) };

    fn fmt<W: fmt::Write>(&self, f: &mut fmt::Formatter<W>) -> fmt::Result {
        let (begun, dots) = (Shown(beginning(self.0)), dots_of(self.0));
        write!(f, "\"{begun}\"{dots}")
    }
}

/// Returns three dots if not all of a name is printed.
fn dots_of(name: &str) -> &'static str
    ensures { result.now ≡ messages.dots_of name.now }
{
    if beginning(name).len() < name.len() {
        "..."
    } else {
        ""
    }
}

/// A message about a file, printed as `composecheck: PATH:LINE:COLUMN: MESSAGE`, or without the
/// position.
#[derive(Clone, Copy, Debug)]
pub struct FileMessage<'a> {
    /// The file's path, as it was given.
    pub path: &'a str,
    /// The place in the file, if the message is about one.
    pub position: Option<Position>,
    /// What is wrong there.
    pub message: Message<'a>,
}

impl fmt::Display for FileMessage<'_> {
    ghost use Rattle.std.specs.Prelude.{Some};
    ghost use Rattle.compose_messages.specs.Messages.{file_text};

    ghost output = { λ reported. Some (file_text reported) };

    fn fmt<W: fmt::Write>(&self, f: &mut fmt::Formatter<W>) -> fmt::Result {
        let (path, message) = (Shown(self.path), self.message);
        match self.position {
            Some(position) => write!(f, "composecheck: {path}:{position}: {message}"),
            None => write!(f, "composecheck: {path}: {message}"),
        }
    }
}
