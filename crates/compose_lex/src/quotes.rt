//! A text in quotes, as it is printed.
ghost use Rattle.std.specs.Prelude.{◌≡◌, ◌<◌, ◌==◌, ◌||◌, ◌++◌, not, nat_lt, OnOk, IfOk, IfErr, false, string_bytes};
ghost use Rattle.compose_lex.specs.Escape as escapes;
ghost use Rattle.compose_lex.specs.declared.LexFault.TheVariants as faults;

use crate::LexFault;
use std::alloc::{AllocError, Global};

/// Returns whether a byte stands for itself between quotes.
fn is_plain(byte: u8) -> bool
    ensures { result ≡ not (byte == 92 || byte == 34 || (nat_lt byte 32 || byte == 127)) }
{
    !(byte == b'\\' || byte == b'"' || (byte < 32 || byte == 127))
}

/// Appends a backslash and the three octal digits of a control byte.
fn push_octal(quoted: &mut String, byte: u8) -> Result<(), AllocError>
    requires { byte < 128 }
    ensures { OnOk result
        (string_bytes quoted.new ≡ string_bytes quoted.old ++ escapes.octal_escape byte) }
{
    quoted.push('\\')?;
    quoted.push(char::from(b'0' + byte / 64))?;
    quoted.push(char::from(b'0' + byte / 8 % 8))?;
    quoted.push(char::from(b'0' + byte % 8))
}

/// Appends the escape of a byte that does not stand for itself.
fn push_escape(quoted: &mut String, byte: u8) -> Result<(), AllocError>
    requires ascii { byte < 128 }
    requires special { not (byte == 92 || byte == 34 || (nat_lt byte 32 || byte == 127)) ≡ false }
    ensures { OnOk result
        (string_bytes quoted.new ≡ string_bytes quoted.old ++ escapes.quote_byte byte) }
{
    if byte == b'\\' || byte == b'"' {
        quoted.push('\\')?;
        return quoted.push(char::from(byte));
    }
    push_octal(quoted, byte)
}

/// Appends the part between the quotes, each run of plain bytes at once.
fn push_inside(quoted: &mut String, text: &str) -> Result<(), AllocError>
    ensures { OnOk result
        (string_bytes quoted.new ≡ string_bytes quoted.old ++ escapes.quote_inside text.now) }
{
    let mut done = 0;
    for (at, byte) in text.as_bytes().iter().enumerate() {
        if !is_plain(*byte) {
            quoted.push_str(&text[done..at])?;
            push_escape(quoted, *byte)?;
            done = at + 1;
        }
    }
    quoted.push_str(&text[done..])
}

/// Returns the text in double quotes, with a backslash before each `"` and `\`, and each control
/// character as an octal escape. O(bytes).
///
/// Errors: `NoMemory` if memory runs out.
pub fn quote(alloc: Global, text: &str) -> Result<String, LexFault>
    ensures ok { IfOk result (λ quoted. string_bytes quoted ≡ escapes.quote text.now) }
    ensures err { IfErr result (λ e. e ≡ faults.NoMemory) }
{
    let mut quoted = String::with_capacity(alloc, text.len() + 2)?;
    quoted.push('"')?;
    push_inside(&mut quoted, text)?;
    quoted.push('"')?;
    Ok(quoted)
}
