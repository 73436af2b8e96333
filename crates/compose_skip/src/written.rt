//! A line that only libxkbcommon reads, written as a line of this program's grammar.
ghost use Rattle.std.specs.Prelude.{◌≡◌, ◌++◌, ◌∷◌, ◌&&◌, if◌then◌else◌, drop, codes, map, Some, None, IfOk, OnOk, option_map, string_bytes, true};
ghost use Rattle.std.specs.List.{list_all};
ghost use Rattle.std.specs.Option.{option_map_or};
ghost use Rattle.std.specs.Fmt.{digits};
ghost use Rattle.compose_text.specs.Numbers.{hexadecimal};
ghost use Rattle.keysym_core.specs.Printed.{at_least_four};
ghost use Rattle.compose_skip.specs.Libxkbcommon as words;
ghost use Rattle.compose_xkbcommon.specs.Text.{typed};
ghost use Rattle.compose_xkbcommon.specs.Scanned as scanned;

use compose_lex::quote;
use compose_text::hexadecimal_number;
use compose_xkbcommon::{Parts, parts_of, typed_text};
use keysym_core::{Keysym, Names};
use std::alloc::{AllocError, Global};
use std::fmt::Write;

/// Returns the number in a name that is `U` and one to eight digits.
fn character_number(name: &str) -> Option<u32>
    ensures { result
        ≡ (if words.is_character_name name.now then Some (hexadecimal (drop 1 name.now)) else None) }
{
    let (first, digits) = name.as_bytes().split_first()?;
    if *first != b'U' {
        return None;
    }
    hexadecimal_number(1, 8, digits)
}

/// Appends `U` and at least four digits of this number.
fn push_character_name(line: &mut String, number: u32) -> Result<(), AllocError>
    ensures { OnOk result
        (string_bytes line.new ≡ string_bytes line.old ++ 85 ∷ at_least_four (digits 16 true number)) }
{
    write!(line, "U{number:04X}")?;
    Ok(())
}

/// Appends the other spelling of a name.
fn push_other_name(line: &mut String, name: &str) -> Result<(), AllocError>
    ensures { OnOk result
        (string_bytes line.new ≡ string_bytes line.old ++ words.other_name name.now) }
{
    if let Some(number) = character_number(name) {
        return push_character_name(line, number);
    }
    if name.starts_with("XF86_") {
        line.push_str("XF86")?;
        return line.push_str(&name[5..]);
    }
    line.push_str(name)
}

/// Appends the name, or its other spelling if it has no keysym.
fn push_strict_name(line: &mut String, names: &Names, name: &str) -> Result<(), AllocError>
    ensures { OnOk result
        (string_bytes line.new ≡ string_bytes line.old ++ words.strict_name names.now name.now) }
{
    if names.lookup(name).is_some() {
        return line.push_str(name);
    }
    push_other_name(line, name)
}

/// Returns the keysym of a name in either spelling.
fn keysym_named(alloc: Global, names: &Names, name: &str) -> Result<Option<Keysym>, AllocError>
    ensures { IfOk result (λ keysym. keysym ≡ words.keysym_named names.now name.now) }
{
    let mut strict = String::new(alloc);
    push_strict_name(&mut strict, names, name)?;
    Ok(names.lookup(&strict))
}

/// Returns whether a name is that of a key.
fn is_key(alloc: Global, names: &Names, name: &str) -> Result<bool, AllocError>
    ensures { IfOk result (λ is. is ≡ words.is_key names.now name.now) }
{
    match keysym_named(alloc, names, name)? {
        Some(keysym) => Ok(keysym.value() > 0 && !keysym.is_ignored()),
        None => Ok(false),
    }
}

/// Returns whether a name is that of a result keysym.
fn is_result(alloc: Global, names: &Names, name: &str) -> Result<bool, AllocError>
    ensures { IfOk result (λ is. is ≡ words.is_result names.now name.now) }
{
    match keysym_named(alloc, names, name)? {
        Some(keysym) => Ok(keysym.value() > 0),
        None => Ok(false),
    }
}

/// Returns whether each of these names is that of a key. O(bytes).
fn are_keys(alloc: Global, names: &Names, keys: &[&str]) -> Result<bool, AllocError>
    ensures { IfOk result
        (λ are. are ≡ list_all (words.is_key names.now) (map (λ key. key.now) keys.now)) }
{
    for key in keys {
        if !is_key(alloc, names, key)? {
            return Ok(false);
        }
    }
    Ok(true)
}

/// Appends a key between `<` and `>`, and a blank.
fn push_key(line: &mut String, names: &Names, key: &str) -> Result<(), AllocError>
    ensures { OnOk result
        (string_bytes line.new
        ≡ string_bytes line.old ++ words.key_text (words.strict_name names.now key.now)) }
{
    line.push('<')?;
    push_strict_name(line, names, key)?;
    line.push_str("> ")
}

/// Appends each key between `<` and `>`, and a blank after it. O(bytes).
fn push_keys(line: &mut String, names: &Names, keys: &[&str]) -> Result<(), AllocError>
    ensures { OnOk result
        (string_bytes line.new
        ≡ string_bytes line.old
        ++ words.keys_text
        (map (words.strict_name names.now) (map (λ key. key.now) keys.now))) }
{
    for key in keys {
        push_key(line, names, key)?;
    }
    Ok(())
}

/// Returns whether the name of VoidSymbol has no character.
fn is_void(names: &Names) -> bool
    ensures { result ≡ words.is_void names.now }
{
    match names.lookup("0xffffff") {
        Some(keysym) => names.text_of(keysym).is_none(),
        None => false,
    }
}

/// Returns a text in quotes, or the name of VoidSymbol for an empty one.
fn string_written(alloc: Global, text: &str) -> Result<String, AllocError>
    ensures { IfOk result (λ written. string_bytes written ≡ words.string_written text.now) }
{
    if text.is_empty() {
        return String::from_str(alloc, "0xffffff");
    }
    match quote(alloc, text) {
        Ok(quoted) => Ok(quoted),
        Err(_) => Err(AllocError),
    }
}

/// Returns a raw text as it is written, if it stands for a text. O(bytes).
fn string_if(alloc: Global, names: &Names, raw: &[u8]) -> Result<Option<String>, AllocError>
    ensures { IfOk result
        (λ written. option_map string_bytes written
        ≡ (if words.is_string names.now raw.now then Some
        (words.string_written (typed raw.now)) else None)) }
{
    match typed_text(alloc, raw)? {
        Some(text) if !text.is_empty() || is_void(names) => {
            Ok(Some(string_written(alloc, &text)?))
        }
        _ => Ok(None),
    }
}

/// Returns a line with its keys, and this result.
fn line_with(
    alloc: Global,
    names: &Names,
    parts: &Parts,
    outcome: &str,
) -> Result<String, AllocError>
    ensures { IfOk result
        (λ line. string_bytes line
        ≡ words.keys_text (map (words.strict_name names.now) (scanned.parts parts.now).keys)
        ++ (codes ": " ++ outcome.now)) }
{
    let mut line = String::new(alloc);
    push_keys(&mut line, names, parts.keys.as_slice())?;
    line.push_str(": ")?;
    line.push_str(outcome)?;
    Ok(line)
}

/// Returns a line as it is written, if its names have keysyms and its string stands for a text.
/// O(bytes).
fn line_if(alloc: Global, names: &Names, parts: &Parts) -> Result<Option<String>, AllocError>
    ensures { IfOk result
        (λ written. option_map string_bytes written
        ≡ (if words.are_known names.now (scanned.parts parts.now) then Some
        (words.line_written names.now (scanned.parts parts.now)) else None)) }
{
    if !are_keys(alloc, names, parts.keys.as_slice())? {
        return Ok(None);
    }
    let Some(result) = result_if(alloc, names, parts)? else {
        return Ok(None);
    };
    Ok(Some(line_with(alloc, names, parts, &result)?))
}

/// Returns the result of a line as it is written, if its name has a keysym and its string stands
/// for a text.
fn result_if(alloc: Global, names: &Names, parts: &Parts) -> Result<Option<String>, AllocError>
    ensures { IfOk result
        (λ written. option_map string_bytes written
        ≡ (if option_map_or (words.is_result names.now) (scanned.parts parts.now).name true
        && option_map_or (words.is_string names.now) (scanned.parts parts.now).string true then Some
        (words.result_written names.now (scanned.parts parts.now)) else None)) }
{
    if let Some(name) = parts.name {
        if !is_result(alloc, names, name)? {
            return Ok(None);
        }
    }
    if let Some(raw) = parts.string {
        return string_if(alloc, names, raw);
    }
    let mut written = String::new(alloc);
    if let Some(name) = parts.name {
        push_strict_name(&mut written, names, name)?;
    }
    Ok(Some(written))
}

/// Returns the line with the definition that libxkbcommon reads in this line, if there is one.
/// O(bytes).
pub(crate) fn rewritten(
    alloc: Global,
    names: &Names,
    line: &[u8],
) -> Result<Option<String>, AllocError>
    ensures { IfOk result
        (λ written. option_map string_bytes written ≡ words.rewritten names.now line.now) }
{
    match parts_of(line) {
        Some(parts) => line_if(alloc, names, &parts),
        None => Ok(None),
    }
}
