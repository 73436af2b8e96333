//! Lines about files.
ghost use Rattle.std.specs.Prelude.{◌≡◌, ◌++◌, map, OnOk, string_bytes, option_copied};
ghost use Rattle.compose_messages.specs.Messages.{message_text};
ghost use Rattle.compose_details.specs.Lines as lines;

use compose_input::Header;
use compose_messages::{FileMessage, Message, Position};
use std::alloc::AllocError;
use std::fmt::Write;

/// Adds a line about a file and a position in it, as compilers print one. O(bytes of the message).
///
/// Errors: `AllocError` if memory runs out.
pub fn push_line(
    text: &mut String,
    path: &str,
    position: Option<Position>,
    message: &Message,
) -> Result<(), AllocError>
    ensures { OnOk result
        (string_bytes text.new
        ≡ string_bytes text.old ++ lines.line path.now position (message_text message.now)) }
{
    let reported = FileMessage {
        path,
        position,
        message: *message,
    };
    writeln!(text, "{reported}")?;
    Ok(())
}

/// Adds a line that concerns no file.
pub(crate) fn push_remark(text: &mut String, message: &Message) -> Result<(), AllocError>
    ensures { OnOk result
        (string_bytes text.new
        ≡ string_bytes text.old ++ lines.remark (message_text message.now)) }
{
    writeln!(text, "composecheck: {message}")?;
    Ok(())
}

/// Returns the beginning of the line with this number, which counts from 1. O(1).
pub fn whole_line(line: usize) -> Option<Position>
    ensures { result ≡ lines.whole_line line }
{
    Some(Position { line, column: 1 })
}

/// Returns the path of the file of the source with this index, or an empty text if there is none.
/// O(1).
pub fn path_of(paths: &[String], source: usize) -> &str
    ensures { result.now ≡ lines.path_of (map (λ path. string_bytes path) paths.now) source }
{
    match paths.get(source) {
        Some(path) => path,
        None => "",
    }
}

/// Returns the file that has this line of all names, and the number of the line in it.
pub(crate) fn header_line<'a>(headers: &[Header<'a>], line: usize) -> Option<(Header<'a>, usize)>
    ensures { result ≡ lines.header_line headers.now line }
{
    let mut left = line;
    for header in headers {
        if left <= header.lines {
            return Some((*header, left));
        }
        left -= header.lines;
    }
    None
}
