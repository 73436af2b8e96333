//! Files of names, one after another.
ghost use Rattle.std.specs.Prelude.{◌≡◌, ◌++◌, OnOk, length};
ghost use Rattle.compose_text.specs.Lines.{lines_of};
ghost use Rattle.compose_input.specs.Headers as words;
ghost use Rattle.compose_input.specs.Headers.{ended};

use compose_text::first_line;
use std::alloc::AllocError;

/// Adds the lines of a file of names to those of the files before it. Each file ends with a
/// newline, so that no line continues in the next file. O(bytes of the lines).
///
/// Errors: `AllocError` if memory runs out. The names are then unusable: only a part of the file's
/// lines may have been added.
pub fn add_names(header: &mut Vec<u8>, lines: &[u8]) -> Result<(), AllocError>
    ensures { OnOk result (header.new.items ≡ header.old.items ++ ended lines.now) }
{
    header.extend_from_slice(lines)?;
    if !lines.ends_with(b"\n") {
        header.push(b'\n')?;
    }
    Ok(())
}

/// Returns the number of lines that a file of names adds to those before it: at least one.
/// O(bytes).
pub fn line_count(bytes: &[u8]) -> usize
    ensures { result ≡ words.line_count bytes.now }
{
    lines_in(bytes).max(1)
}

/// Returns the number of lines.
fn lines_in(bytes: &[u8]) -> usize
    ensures { result ≡ length (lines_of bytes.now) }
{
    let mut count = 0;
    let mut rest = bytes;
    while let Some((_, behind)) = first_line(rest) {
        count += 1;
        rest = behind;
    }
    count
}
