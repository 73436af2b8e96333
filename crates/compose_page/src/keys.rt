//! The keys of sequences, and the keys in which two sequences differ.
ghost use Rattle.std.specs.Prelude.{◌≡◌, ◌≤◌, ◌++◌, length, OnOk, string_bytes};
ghost use Rattle.compose_page.specs.Keys as words;

use crate::markup::{Markup, push_escaped};
use std::alloc::AllocError;

/// Appends each key, after a blank, to the text.
pub(crate) fn push_keys(text: &mut String, markup: Markup, keys: &[&str]) -> Result<(), AllocError>
    ensures { OnOk result
        (string_bytes text.new
        ≡ string_bytes text.old ++ words.keys_part markup keys.now) }
{
    push_between(text, markup, " <kbd>", keys, "</kbd>")
}

/// Appends each key between two texts to the text.
fn push_between(
    text: &mut String,
    markup: Markup,
    before: &str,
    keys: &[&str],
    after: &str,
) -> Result<(), AllocError>
    ensures { OnOk result
        (string_bytes text.new
        ≡ string_bytes text.old
        ++ words.keys_between markup before.now after.now keys.now) }
{
    for key in keys {
        text.push_str(before)?;
        push_escaped(text, markup, key)?;
        text.push_str(after)?;
    }
    Ok(())
}

/// Appends the keys of the old sequence of a text to the text. Those that the new one doesn't have
/// at their place are struck through.
pub(crate) fn push_old_keys(
    text: &mut String,
    markup: Markup,
    old: &[&str],
    new: &[&str],
) -> Result<(), AllocError>
    ensures { OnOk result
        (string_bytes text.new
        ≡ string_bytes text.old
        ++ words.old_keys markup old.now new.now) }
{
    push_marked(text, markup, " <del><kbd>", old, "</kbd></del>", new)
}

/// Appends the keys of the new sequence of a text to the text. Those that the old one doesn't have
/// at their place are underlined.
pub(crate) fn push_new_keys(
    text: &mut String,
    markup: Markup,
    old: &[&str],
    new: &[&str],
) -> Result<(), AllocError>
    ensures { OnOk result
        (string_bytes text.new
        ≡ string_bytes text.old
        ++ words.new_keys markup old.now new.now) }
{
    push_marked(text, markup, " <ins><kbd>", new, "</kbd></ins>", old)
}

/// Appends the keys to the text. Each key between those with which both sequences begin and those
/// with which both end is put between the two texts.
fn push_marked(
    text: &mut String,
    markup: Markup,
    before: &str,
    keys: &[&str],
    after: &str,
    others: &[&str],
) -> Result<(), AllocError>
    ensures { OnOk result
        (string_bytes text.new
        ≡ string_bytes text.old
        ++ words.marked_keys markup before.now after.now keys.now
        others.now) }
{
    let start = common_start(keys, others);
    let (shared, rest) = keys.split_at(start);
    let (_, other_rest) = others.split_at(start);
    push_keys(text, markup, shared)?;
    push_after(text, markup, before, rest, after, other_rest)
}

/// Appends the keys to the text. Each key before those with which both sequences end is put between
/// the two texts.
fn push_after(
    text: &mut String,
    markup: Markup,
    before: &str,
    rest: &[&str],
    after: &str,
    others: &[&str],
) -> Result<(), AllocError>
    ensures { OnOk result
        (string_bytes text.new
        ≡ string_bytes text.old
        ++ words.marked_after markup before.now after.now rest.now
        others.now) }
{
    let (own, end) = rest.split_at(own_count(rest, others));
    push_between(text, markup, before, own, after)?;
    push_keys(text, markup, end)
}

/// Returns the number of keys before those with which both sequences end.
fn own_count(rest: &[&str], others: &[&str]) -> usize
    ensures value { result
        ≡ words.own_count rest.now others.now }
    ensures fits { result ≤ length rest.now }
{
    rest.len() - common_end(rest, others)
}

/// Returns the number of keys with which both sequences begin.
fn common_start(keys: &[&str], others: &[&str]) -> usize
    ensures value { result
        ≡ words.common_start keys.now others.now }
    ensures fits { result ≤ length keys.now }
    ensures fits_other { result ≤ length others.now }
{
    let Some((key, keys)) = keys.split_first() else {
        return 0;
    };
    let Some((other, others)) = others.split_first() else {
        return 0;
    };
    if key != other {
        return 0;
    }
    1 + common_start(keys, others)
}

/// Returns the number of keys with which both sequences end.
fn common_end(keys: &[&str], others: &[&str]) -> usize
    ensures value { result
        ≡ words.common_end keys.now others.now }
    ensures fits { result ≤ length keys.now }
{
    let Some((key, keys)) = keys.split_last() else {
        return 0;
    };
    let Some((other, others)) = others.split_last() else {
        return 0;
    };
    if key != other {
        return 0;
    }
    1 + common_end(keys, others)
}
