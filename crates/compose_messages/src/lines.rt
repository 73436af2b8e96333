//! The lines of a source by their numbers.
ghost use Rattle.std.specs.Prelude.{◌≡◌, [], get_or};
ghost use Rattle.compose_text.specs.Lines.{lines_of};
ghost use Rattle.compose_read.specs.Lines.{without_mark};
ghost use Rattle.compose_messages.specs.Places.{line_at, text_or_nothing};

use compose_read::Sources;
use compose_text::first_line;

/// Returns the line with this number, counted from 1, of the source with this index; nothing if
/// there is none. O(bytes of the source).
pub(crate) fn source_line<'a>(sources: &'a Sources, source: usize, line: usize) -> &'a [u8]
    ensures { result.now ≡ line_at sources.now source line }
{
    if source >= sources.count() {
        return &[];
    }
    nth_line(without_mark(sources.bytes(source)), line.saturating_sub(1))
}

/// Returns the line with this index, counted from 0; nothing if there is none.
pub(crate) fn nth_line(bytes: &[u8], index: usize) -> &[u8]
    ensures { result.now ≡ get_or (lines_of bytes.now) index [] }
{
    let mut rest = bytes;
    let mut left = index;
    while let Some((line, behind)) = first_line(rest) {
        if left == 0 {
            return line;
        }
        left -= 1;
        rest = behind;
    }
    &[]
}

/// Returns the bytes without a UTF-8 byte order mark at their start.
pub(crate) fn without_mark(bytes: &[u8]) -> &[u8]
    ensures { result.now ≡ without_mark bytes.now }
{
    if bytes.starts_with(&[0xef, 0xbb, 0xbf]) {
        &bytes[3..]
    } else {
        bytes
    }
}

/// Returns the bytes if they are UTF-8, and otherwise nothing.
pub(crate) fn text_or_nothing(bytes: &[u8]) -> &str
    ensures { result.now ≡ text_or_nothing bytes.now }
{
    match str::from_utf8(bytes) {
        Ok(text) => text,
        Err(_) => "",
    }
}
