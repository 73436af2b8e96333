//! The lines of the definitions that are taken.
ghost use Rattle.std.specs.Prelude.{◌≡◌, ◌++◌, ◌∷◌, [], flat_map, IfOk, OnOk, string_bytes, codes};
ghost use Rattle.std.specs.Option.{option_map_or};
ghost use Rattle.compose_lex.specs.Escape.{octal_escape};
ghost use Rattle.compose_lex.specs.Line.{quoted};
ghost use Rattle.keysym_core.specs.Printed.{printed};
ghost use Rattle.compose_listed_as.specs.Line as words;
ghost use Rattle.compose_readers.specs.Seen.{what_of};
ghost use Rattle.compose_readers.specs.Walks.{entry_of};

use crate::judged::Judged;
use compose_lex::quote;
use compose_readers::{Definition, FileRead, Told, What};
use compose_shown::Shown;
use keysym_core::{Keysym, Names};
use std::alloc::{AllocError, Global};
use std::fmt::Write;

/// Returns the lines of the definitions that are taken, with the paths of these files. O(bytes).
pub(crate) fn taken_lines(
    alloc: Global,
    names: &Names,
    files: &[FileRead],
    all: &[Judged<'_, '_>],
) -> Result<String, AllocError>
    ensures { IfOk result
        (λ lines. string_bytes lines ≡ flat_map (words.taken_line names.now files.now) all.now) }
{
    let mut lines = String::new(alloc);
    for one in all {
        push_taken(alloc, &mut lines, names, files, one)?;
    }
    Ok(lines)
}

/// Appends the line of a definition that is taken; nothing for anything else.
fn push_taken(
    alloc: Global,
    lines: &mut String,
    names: &Names,
    files: &[FileRead],
    one: &Judged<'_, '_>,
) -> Result<(), AllocError>
    ensures { OnOk result
        (string_bytes lines.new
        ≡ string_bytes lines.old ++ words.taken_line names.now files.now one.now) }
{
    if one.is_taken() {
        push_told(alloc, lines, names, files, one.told)?;
    }
    Ok(())
}

/// Appends the line of a definition; nothing for anything else.
fn push_told(
    alloc: Global,
    lines: &mut String,
    names: &Names,
    files: &[FileRead],
    told: &Told<'_>,
) -> Result<(), AllocError>
    ensures { OnOk result
        (string_bytes lines.new
        ≡ string_bytes lines.old ++ words.told_line names.now files.now told.now) }
{
    match told.what {
        What::Defines(definition) => push_line(alloc, lines, names, files, told, definition),
        What::LeftOut(_) | What::Includes(_) => Ok(()),
    }
}

/// Appends the line of a definition: its keys, its text, and its place as a comment.
fn push_line(
    alloc: Global,
    lines: &mut String,
    names: &Names,
    files: &[FileRead],
    told: &Told<'_>,
    definition: &Definition,
) -> Result<(), AllocError>
    ensures { OnOk result
        (string_bytes lines.new
        ≡ string_bytes lines.old
        ++ words.definition_line names.now files.now told.now definition.now) }
{
    push_keys(alloc, lines, names, definition.keys.as_slice())?;
    lines.push_str(": ")?;
    push_result(alloc, lines, &definition.text)?;
    lines.push_str("  # ")?;
    push_place(lines, files, told)?;
    lines.push('\n')
}

/// Appends the keys with these keysyms between `<` and `>`, and a blank after each.
fn push_keys(
    alloc: Global,
    lines: &mut String,
    names: &Names,
    keys: &[u32],
) -> Result<(), AllocError>
    ensures { OnOk result
        (string_bytes lines.new
        ≡ string_bytes lines.old ++ flat_map (words.key_text names.now) keys.now) }
{
    for keysym in keys {
        push_key(alloc, lines, names, *keysym)?;
    }
    Ok(())
}

/// Appends the key with this keysym between `<` and `>`, and a blank after it.
fn push_key(alloc: Global, lines: &mut String, names: &Names, keysym: u32) -> Result<(), AllocError>
    ensures { OnOk result
        (string_bytes lines.new ≡ string_bytes lines.old ++ words.key_text names.now keysym) }
{
    let name = key_name(alloc, names, keysym)?;
    lines.push_str("<")?;
    lines.push_str(&name)?;
    lines.push_str("> ")
}

/// Returns the name of the number of a keysym.
fn key_name(alloc: Global, names: &Names, number: u32) -> Result<String, AllocError>
    ensures { IfOk result (λ name. string_bytes name ≡ words.key_name names.now number) }
{
    match Keysym::new(number) {
        Some(keysym) => printed_name(alloc, names, keysym),
        None => format!(in alloc; "0x{number:x}"),
    }
}

/// Returns the name of a keysym.
fn printed_name(alloc: Global, names: &Names, keysym: Keysym) -> Result<String, AllocError>
    ensures { IfOk result (λ name. string_bytes name ≡ printed names.now keysym) }
{
    match names.print(alloc, keysym) {
        Ok(name) => Ok(name),
        Err(_) => Err(AllocError),
    }
}

/// Appends what is typed: a text in quotes, or bytes that are no text by their codes.
fn push_result(alloc: Global, lines: &mut String, text: &[u8]) -> Result<(), AllocError>
    ensures { OnOk result
        (string_bytes lines.new ≡ string_bytes lines.old ++ words.result_text text.now) }
{
    match str::from_utf8(text) {
        Ok(text) => push_text(alloc, lines, text),
        Err(_) => push_codes(lines, text),
    }
}

/// Appends the text in quotes, or the name of the keysym without a text if it is empty.
fn push_text(alloc: Global, lines: &mut String, text: &str) -> Result<(), AllocError>
    ensures { OnOk result
        (string_bytes lines.new ≡ string_bytes lines.old ++ words.utf8_result text.now) }
{
    if text.is_empty() {
        return lines.push_str("VoidSymbol");
    }
    let Ok(quoted) = quote(alloc, text) else {
        return Err(AllocError);
    };
    lines.push_str(&quoted)
}

/// Appends the octal codes of these bytes in quotes.
fn push_codes(lines: &mut String, bytes: &[u8]) -> Result<(), AllocError>
    ensures { OnOk result
        (string_bytes lines.new
        ≡ string_bytes lines.old ++ quoted (flat_map octal_escape bytes.now)) }
{
    lines.push('"')?;
    push_octals(lines, bytes)?;
    lines.push('"')
}

/// Appends the octal codes of these bytes.
fn push_octals(lines: &mut String, bytes: &[u8]) -> Result<(), AllocError>
    ensures { OnOk result
        (string_bytes lines.new ≡ string_bytes lines.old ++ flat_map octal_escape bytes.now) }
{
    for byte in bytes {
        push_octal(lines, *byte)?;
    }
    Ok(())
}

/// Appends a backslash and the three octal digits of a byte.
fn push_octal(lines: &mut String, byte: u8) -> Result<(), AllocError>
    ensures { OnOk result (string_bytes lines.new ≡ string_bytes lines.old ++ octal_escape byte) }
{
    lines.push('\\')?;
    lines.push(char::from(b'0' + byte / 64))?;
    lines.push(char::from(b'0' + byte / 8 % 8))?;
    lines.push(char::from(b'0' + byte % 8))
}

/// Appends the place at which something is told: the path of its file, and the number of its line.
pub(crate) fn push_place(
    lines: &mut String,
    files: &[FileRead],
    told: &Told<'_>,
) -> Result<(), AllocError>
    ensures { OnOk result
        (string_bytes lines.new ≡ string_bytes lines.old ++ words.place_text files.now told.now) }
{
    let path = Shown(path_at(files, told.file));
    let line = told.line;
    write!(lines, "{path}:{line}")?;
    Ok(())
}

/// Returns the path of the file with this index; an empty text if there is none.
fn path_at(files: &[FileRead], index: usize) -> &str
    ensures { result.now ≡ words.path_at files.now index }
{
    match files.get(index) {
        Some(file) => text_or_empty(&file.path),
        None => "",
    }
}

/// Returns the bytes as a text; an empty one if they are none.
pub(crate) fn text_or_empty(bytes: &[u8]) -> &str
    ensures { result.now ≡ words.text_or_empty bytes.now }
{
    match str::from_utf8(bytes) {
        Ok(text) => text,
        Err(_) => "",
    }
}
