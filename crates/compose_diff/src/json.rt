//! Rows as JSON.
ghost use Rattle.std.specs.Prelude.{◌≡◌, ◌++◌, map, IfOk, OnOk, string_bytes};
ghost use Rattle.compose_diff.specs.Json as words;

use crate::line::change_word;
use crate::row::{DiffRow, NewSequence, TextPlace};
use compose_shown::is_unsafe;
use std::alloc::{AllocError, Global};
use std::fmt::Write;

/// Returns a JSON object, on a line of its own, for each row, also for those that are kept. Its
/// members are `change`, `keys`, the texts `old` and `new`, and the places `old_file`, `old_line`,
/// `new_file` and `new_line`, each `null` if the table doesn't have the sequence. Then come the
/// keys and the place of the longer sequence for which a waiting one waits (`longer`,
/// `longer_file`, `longer_line`), and of the sequence that gives the old text now (`now`,
/// `now_file`, `now_line`), `null` if there is none. O(bytes).
///
/// Errors: `AllocError` if memory runs out.
pub fn json_text(alloc: Global, rows: &[DiffRow]) -> Result<String, AllocError>
    ensures { IfOk result (λ text. string_bytes text ≡ words.json_rows rows.now) }
{
    let mut text = String::new(alloc);
    for row in rows {
        push_object(&mut text, row)?;
    }
    Ok(text)
}

/// Appends the object of a row, and a newline, to the text.
fn push_object(text: &mut String, row: &DiffRow) -> Result<(), AllocError>
    ensures { OnOk result
        (string_bytes text.new ≡ string_bytes text.old ++ words.json_row row.now) }
{
    push_keys(text, row)?;
    push_texts(text, row)?;
    push_end(text, row)?;
    text.push_str("}\n")
}

/// Appends the members for both places, for the longer sequence, and for the sequence that gives
/// the old text now, to the text.
fn push_end(text: &mut String, row: &DiffRow) -> Result<(), AllocError>
    ensures { OnOk result
        (string_bytes text.new ≡ string_bytes text.old ++ words.json_end row.now) }
{
    push_places(text, row)?;
    push_sequence(text, "longer", &row.longer)?;
    push_sequence(text, "now", &row.typing)
}

/// Appends the members of this name for a sequence of the new table to the text.
fn push_sequence(
    text: &mut String,
    name: &str,
    sequence: &Option<NewSequence>,
) -> Result<(), AllocError>
    ensures { OnOk result
        (string_bytes text.new
        ≡ string_bytes text.old ++ words.json_sequence name.now sequence.now) }
{
    let Some(sequence) = sequence else {
        write!(
            text,
            ",\"{name}\":null,\"{name}_file\":null,\"{name}_line\":null"
        )?;
        return Ok(());
    };
    let line = sequence.line;
    write!(text, ",\"{name}\":")?;
    push_strings(text, sequence.keys)?;
    write!(text, ",\"{name}_file\":")?;
    push_json_string(text, sequence.path)?;
    write!(text, ",\"{name}_line\":{line}")?;
    Ok(())
}

/// Appends the members for what happens and for the keys to the text.
fn push_keys(text: &mut String, row: &DiffRow) -> Result<(), AllocError>
    ensures { OnOk result
        (string_bytes text.new ≡ string_bytes text.old ++ words.json_keys row.now) }
{
    text.push_str("{\"change\":\"")?;
    text.push_str(change_word(row.change))?;
    text.push_str("\",\"keys\":")?;
    push_strings(text, row.keys)
}

/// Appends the members for the texts to the text.
fn push_texts(text: &mut String, row: &DiffRow) -> Result<(), AllocError>
    ensures { OnOk result
        (string_bytes text.new ≡ string_bytes text.old ++ words.json_texts row.now) }
{
    text.push_str(",\"old\":")?;
    push_text(text, &row.old)?;
    text.push_str(",\"new\":")?;
    push_text(text, &row.new)
}

/// Appends the members for both places to the text.
fn push_places(text: &mut String, row: &DiffRow) -> Result<(), AllocError>
    ensures { OnOk result
        (string_bytes text.new ≡ string_bytes text.old ++ words.json_places row.now) }
{
    push_place(text, "old", &row.old)?;
    push_place(text, "new", &row.new)
}

/// Appends the array of the texts to the text.
fn push_strings(text: &mut String, texts: &[&str]) -> Result<(), AllocError>
    ensures { OnOk result
        (string_bytes text.new
        ≡ string_bytes text.old ++ words.json_strings (map (λ t. t.now) texts.now)) }
{
    let Some((first, others)) = texts.split_first() else {
        return text.push_str("[]");
    };
    text.push_str("[")?;
    push_json_string(text, first)?;
    push_others(text, others)?;
    text.push_str("]")
}

/// Appends each of the texts, after a comma, to the text.
fn push_others(text: &mut String, texts: &[&str]) -> Result<(), AllocError>
    ensures { OnOk result
        (string_bytes text.new
        ≡ string_bytes text.old ++ words.other_strings (map (λ t. t.now) texts.now)) }
{
    for other in texts {
        text.push_str(",")?;
        push_json_string(text, other)?;
    }
    Ok(())
}

/// Appends the text that a table has, or `null`, to the text.
fn push_text(text: &mut String, entry: &Option<TextPlace>) -> Result<(), AllocError>
    ensures { OnOk result
        (string_bytes text.new ≡ string_bytes text.old ++ words.json_text entry.now) }
{
    match entry {
        Some(entry) => push_json_string(text, entry.text),
        None => text.push_str("null"),
    }
}

/// Appends the members for the place of a definition to the text.
fn push_place(text: &mut String, side: &str, entry: &Option<TextPlace>) -> Result<(), AllocError>
    ensures { OnOk result
        (string_bytes text.new ≡ string_bytes text.old ++ words.json_place side.now entry.now) }
{
    let Some(entry) = entry else {
        write!(text, ",\"{side}_file\":null,\"{side}_line\":null")?;
        return Ok(());
    };
    let line = entry.line;
    write!(text, ",\"{side}_file\":")?;
    push_json_string(text, entry.path)?;
    write!(text, ",\"{side}_line\":{line}")?;
    Ok(())
}

/// Appends `inside` as a JSON string (RFC 8259) to the text: in quotes, with a backslash before a
/// quote or a backslash, and with each character that could control a terminal as `\u` and four
/// hexadecimal digits. O(bytes).
///
/// Errors: `AllocError` if memory runs out.
pub fn push_json_string(text: &mut String, inside: &str) -> Result<(), AllocError>
    ensures { OnOk result
        (string_bytes text.new ≡ string_bytes text.old ++ words.json_string inside.now) }
{
    text.push_str("\"")?;
    push_characters(text, inside)?;
    text.push_str("\"")
}

/// Appends the characters between the quotes to the text.
fn push_characters(text: &mut String, inside: &str) -> Result<(), AllocError>
    ensures { OnOk result
        (string_bytes text.new ≡ string_bytes text.old ++ words.json_characters inside.now) }
{
    for character in inside.chars() {
        push_character(text, character)?;
    }
    Ok(())
}

/// Appends a character of a JSON string to the text.
fn push_character(text: &mut String, character: char) -> Result<(), AllocError>
    ensures { OnOk result
        (string_bytes text.new ≡ string_bytes text.old ++ words.json_character character) }
{
    let number = u32::from(character);
    if number == 34 || number == 92 {
        text.push('\\')?;
        return text.push(character);
    }
    if is_unsafe(number) {
        write!(text, "\\u{number:04x}")?;
        return Ok(());
    }
    text.push(character)
}
