//! The keys of a text: names and characters between blanks, between commas, and in `<` and `>`.
ghost use Rattle.std.specs.Prelude.{◌≡◌, ◌++◌, ◌==◌, ◌<◌, flat_map, map, IfOk, OnOk};
ghost use Rattle.std.specs.List.{slice_split};
ghost use Rattle.compose_keys.specs.Keys as wanted;

use crate::words::words_in;
use std::alloc::{AllocError, Global};

/// Returns the keys that a text writes, as it writes them: names or characters between blanks,
/// between commas, or each in `<` and `>`. A word of one byte is a key, such as `,`. Of two commas
/// without a key between them an empty key is returned. `Err(AllocError)` if memory runs out.
/// O(bytes).
pub fn keys_in<'a>(alloc: Global, text: &'a str) -> Result<Vec<&'a str>, AllocError>
    ensures { IfOk result (λ keys. map (λ key. key.now) keys.items ≡ wanted.keys_in text.now) }
{
    let words = words_in(alloc, text)?;
    keys_of(alloc, &words)
}

/// Returns the keys of these words.
fn keys_of<'a>(alloc: Global, words: &[&'a str]) -> Result<Vec<&'a str>, AllocError>
    ensures { IfOk result
        (λ keys. map (λ key. key.now) keys.items
        ≡ flat_map wanted.word_keys (map (λ word. word.now) words.now)) }
{
    let mut keys = Vec::new(alloc);
    for word in words {
        push_word(alloc, &mut keys, word)?;
    }
    Ok(keys)
}

/// Appends the keys of a word.
fn push_word<'a>(alloc: Global, keys: &mut Vec<&'a str>, word: &'a str) -> Result<(), AllocError>
    ensures { OnOk result
        (map (λ key. key.now) keys.new.items
        ≡ map (λ key. key.now) keys.old.items ++ wanted.word_keys word.now) }
{
    if word.len() == 1 {
        keys.push(word)?;
        return Ok(());
    }
    let items = parts_ended(alloc, word, ',')?;
    push_items(alloc, keys, &items)
}

/// Appends the keys of these items.
fn push_items<'a>(
    alloc: Global,
    keys: &mut Vec<&'a str>,
    items: &[&'a str],
) -> Result<(), AllocError>
    ensures { OnOk result
        (map (λ key. key.now) keys.new.items
        ≡ map (λ key. key.now) keys.old.items
        ++ flat_map wanted.item_keys (map (λ item. item.now) items.now)) }
{
    for item in items {
        push_item(alloc, keys, item)?;
    }
    Ok(())
}

/// Appends the keys of an item.
fn push_item<'a>(alloc: Global, keys: &mut Vec<&'a str>, item: &'a str) -> Result<(), AllocError>
    ensures { OnOk result
        (map (λ key. key.now) keys.new.items
        ≡ map (λ key. key.now) keys.old.items ++ wanted.item_keys item.now) }
{
    if item.starts_with('<') && item.ends_with('>') {
        let parts = parts_ended(alloc, item, '>')?;
        return push_named(keys, &parts);
    }
    keys.push(item)?;
    Ok(())
}

/// Appends what follows `<` in each of these parts.
fn push_named<'a>(keys: &mut Vec<&'a str>, parts: &[&'a str]) -> Result<(), AllocError>
    ensures { OnOk result
        (map (λ key. key.now) keys.new.items
        ≡ map (λ key. key.now) keys.old.items
        ++ map wanted.key_of (map (λ part. part.now) parts.now)) }
{
    for part in parts {
        keys.push(key_of(part))?;
    }
    Ok(())
}

/// Returns what follows the `<` with which a part begins, or the part itself.
fn key_of(part: &str) -> &str
    ensures { result.now ≡ wanted.key_of part.now }
{
    match part.split_once('<') {
        Some((before, key)) if before.is_empty() => key,
        _ => part,
    }
}

/// Returns the parts of a text between these characters, without the empty one after a character
/// that ends the text.
fn parts_ended<'a>(alloc: Global, text: &'a str, end: char) -> Result<Vec<&'a str>, AllocError>
    requires some { 0 < end }
    requires ascii { end < 128 }
    ensures { IfOk result
        (λ parts. map (λ part. part.now) parts.items ≡ wanted.parts_ended end text.now) }
{
    let mut parts = parts_between(alloc, text, end)?;
    if text.ends_with(end) {
        let _ = parts.pop();
    }
    Ok(parts)
}

/// Returns the parts of a text between these characters.
fn parts_between<'a>(alloc: Global, text: &'a str, end: char) -> Result<Vec<&'a str>, AllocError>
    requires { end < 128 }
    ensures { IfOk result
        (λ parts. map (λ part. part.now) parts.items ≡ slice_split (λ b. b == end) text.now) }
{
    text.split(end).collect(alloc)
}
