//! Text that users and files wrote, as it is printed to a terminal.
ghost use Rattle.std.specs.Prelude.{◌≡◌, Some, IsOk};
ghost use Rattle.std.specs.Fmt.{HasWritten, IsPlainFormatter};
ghost use Rattle.compose_shown.specs.Shown as words;
ghost use Rattle.compose_shown.specs.Shown.{shown_character, shown_in_lines, shown_lines, shown_text};

use std::fmt;

/// A text, printed so that it cannot control a terminal, and that nothing in it is unseen. A control
/// character (U+0000 to U+001F, U+007F to U+009F), a character that changes the direction of writing
/// (U+061C, U+200E, U+200F, U+202A to U+202E, U+2066 to U+2069) or one that no terminal shows
/// (U+200B, U+2060 to U+2064, U+FEFF) is printed as an escape such as `\u{202e}`, any other as it is.
#[derive(Clone, Copy, Debug)]
pub struct Shown<'a>(pub &'a str);

impl fmt::Display for Shown<'_> {
    ghost output = { λ shown. Some (shown_text shown.0.now) };

    fn fmt<W: fmt::Write>(&self, f: &mut fmt::Formatter<W>) -> fmt::Result {
        write_shown(self.0, f)
    }
}

/// Writes each character of the text.
fn write_shown<W: fmt::Write>(text: &str, f: &mut fmt::Formatter<W>) -> fmt::Result
    ensures { IsPlainFormatter f.old → IsOk result
        → HasWritten W.write_str_gives f.old (shown_text text.now) f.new }
{
    for character in text.chars() {
        let shown = ShownCharacter(character);
        write!(f, "{shown}")?;
    }
    Ok(())
}

/// A text of several lines, printed as by [`Shown`], except that its newlines are kept.
#[derive(Clone, Copy, Debug)]
pub struct ShownLines<'a>(pub &'a str);

impl fmt::Display for ShownLines<'_> {
    ghost output = { λ shown. Some (shown_lines shown.0.now) };

    fn fmt<W: fmt::Write>(&self, f: &mut fmt::Formatter<W>) -> fmt::Result {
        write_lines(self.0, f)
    }
}

/// Writes each character of the lines.
fn write_lines<W: fmt::Write>(text: &str, f: &mut fmt::Formatter<W>) -> fmt::Result
    ensures { IsPlainFormatter f.old → IsOk result
        → HasWritten W.write_str_gives f.old (shown_lines text.now) f.new }
{
    for character in text.chars() {
        let shown = ShownInLines(character);
        write!(f, "{shown}")?;
    }
    Ok(())
}

/// A character of a text of several lines, printed so that it cannot control a terminal.
#[derive(Clone, Copy, Debug)]
struct ShownInLines(char);

impl fmt::Display for ShownInLines {
    ghost output = { λ shown. Some (shown_in_lines shown.0) };

    fn fmt<W: fmt::Write>(&self, f: &mut fmt::Formatter<W>) -> fmt::Result {
        if self.0 == '\n' {
            return f.write_char(self.0);
        }
        let shown = ShownCharacter(self.0);
        write!(f, "{shown}")
    }
}

/// A character, printed so that it cannot control a terminal.
#[derive(Clone, Copy, Debug)]
struct ShownCharacter(char);

impl fmt::Display for ShownCharacter {
    ghost output = { λ shown. Some (shown_character shown.0) };

    fn fmt<W: fmt::Write>(&self, f: &mut fmt::Formatter<W>) -> fmt::Result {
        let number = u32::from(self.0);
        if is_unsafe(number) {
            return write!(f, "\\u{{{number:x}}}");
        }
        f.write_char(self.0)
    }
}

/// Returns whether the character with this number is a control character, changes the direction of
/// writing, or is shown by no terminal. O(1).
pub fn is_unsafe(number: u32) -> bool
    ensures { result ≡ words.is_unsafe number }
{
    is_control(number) || turns_direction(number) || is_invisible(number)
}

/// Returns whether it is a control character.
fn is_control(number: u32) -> bool
    ensures { result ≡ words.is_control number }
{
    matches!(number, 0..=0x1f | 0x7f..=0x9f)
}

/// Returns whether it changes the direction of writing.
fn turns_direction(number: u32) -> bool
    ensures { result ≡ words.turns_direction number }
{
    matches!(number, 0x61c | 0x200e..=0x200f | 0x202a..=0x202e | 0x2066..=0x2069)
}

/// Returns whether no terminal shows it.
fn is_invisible(number: u32) -> bool
    ensures { result ≡ words.is_invisible number }
{
    matches!(number, 0x200b | 0x2060..=0x2064 | 0xfeff)
}
