//! Evidence as text.
ghost use Rattle.std.specs.Prelude.{◌≡◌, ◌++◌, List, ℕ, length, string_bytes, IfOk, IfErr};
ghost use Rattle.compose_lex.specs.Escape.{quote};
ghost use Rattle.keysym_core.specs.Printed.{printed};
ghost use Rattle.compose_walk.specs.Explained.{keys_line, explained, kind_word, count_of, count_word, count_line, each_explained, all_explained};
ghost use Rattle.compose_walk.specs.Kinds.{kind_of};

use crate::all_differences::Differences;
use crate::evidence::{Counterexample, Kind};
use crate::fault::MakeFault;
use compose_lex::quote;
use keysym_core::{Keysym, Names};
use std::alloc::{AllocError, Global};
use std::fmt::Write;

/// Returns a counterexample as four lines of text: the keys, how the tables differ at the last one,
/// and the two texts. `Err(NoMemory)` if memory runs out. O(keys × look-up in the names + bytes of
/// the texts).
pub fn explain(
    alloc: Global,
    names: &Names,
    counterexample: &Counterexample,
) -> Result<String, MakeFault>
    ensures ok { IfOk result (λ text. string_bytes text ≡ explained names.now counterexample.now) }
    ensures err { IfErr result (λ e. e ≡ MakeFault.NoMemory) }
{
    let mut text = String::new(alloc);
    push_explained(alloc, &mut text, names, counterexample)?;
    Ok(text)
}

/// Returns all differences as text: four lines for each, with an empty line after them, and a last
/// line that counts them, such as `2 differences: 1 text, 1 cancelled, 0 waiting`. If there is
/// none, the only line is `follows`. `Err(NoMemory)` if memory runs out. O(keys × look-up in the
/// names + bytes of the texts).
pub fn explain_all(
    alloc: Global,
    names: &Names,
    differences: &Differences,
) -> Result<String, MakeFault>
    ensures ok { IfOk result (λ text. string_bytes text ≡ all_explained names.now differences.now) }
    ensures err { IfErr result (λ e. e ≡ MakeFault.NoMemory) }
{
    let mut text = String::new(alloc);
    push_all(alloc, &mut text, names, differences.as_slice())?;
    Ok(text)
}

/// Appends all differences and their count to the text, or the line that says that there is none.
fn push_all(
    alloc: Global,
    text: &mut String,
    names: &Names,
    differences: &[Counterexample],
) -> Result<(), AllocError>
    ensures { IfOk result
        (λ _. string_bytes text.new
        ≡ string_bytes text.old ++ all_explained names.now differences.now) }
{
    if differences.is_empty() {
        return text.push_str("follows\n");
    }
    push_each(alloc, text, names, differences)?;
    push_count(text, differences)
}

/// Appends each difference, with an empty line after it, to the text.
fn push_each(
    alloc: Global,
    text: &mut String,
    names: &Names,
    differences: &[Counterexample],
) -> Result<(), AllocError>
    ensures { IfOk result
        (λ _. string_bytes text.new
        ≡ string_bytes text.old ++ each_explained names.now differences.now) }
{
    for difference in differences {
        push_explained(alloc, text, names, difference)?;
        text.push_str("\n")?;
    }
    Ok(())
}

/// Appends the line that counts the differences to the text.
fn push_count(text: &mut String, differences: &[Counterexample]) -> Result<(), AllocError>
    ensures { IfOk result
        (λ _. string_bytes text.new ≡ string_bytes text.old ++ count_line differences.now) }
{
    let count = differences.len();
    let word = count_word(count);
    let texts = count_of(differences, Kind::Text);
    let cancelled = count_of(differences, Kind::Cancelled);
    let waiting = count_of(differences, Kind::Waiting);
    write!(
        text,
        "{count} {word}: {texts} text, {cancelled} cancelled, {waiting} waiting\n"
    )?;
    Ok(())
}

/// Returns `difference` or `differences`, as the count demands.
fn count_word(count: usize) -> &'static str
    ensures { result.now ≡ count_word count }
{
    if count == 1 {
        "difference"
    } else {
        "differences"
    }
}

/// Returns the number of differences of this kind. O(n).
fn count_of(differences: &[Counterexample], kind: Kind) -> usize
    ensures { result ≡ count_of (kind_of kind) differences.now }
{
    differences
        .iter()
        .filter(|difference| difference.kind == kind)
        .count()
}

/// Appends the four lines to the text.
fn push_explained(
    alloc: Global,
    text: &mut String,
    names: &Names,
    counterexample: &Counterexample,
) -> Result<(), AllocError>
    ensures { IfOk result
        (λ _. string_bytes text.new
        ≡ string_bytes text.old ++ explained names.now counterexample.now) }
{
    push_keys(alloc, text, names, counterexample)?;
    text.push_str("\nkind ")?;
    text.push_str(word(counterexample.kind))?;
    text.push_str("\nold ")?;
    push_quoted(alloc, text, counterexample.old_text.as_str())?;
    text.push_str("\nnew ")?;
    push_quoted(alloc, text, counterexample.new_text.as_str())?;
    text.push_str("\n")?;
    Ok(())
}

/// Appends the word `keys` and the printed keysyms, with a blank before each, to the text.
fn push_keys(
    alloc: Global,
    text: &mut String,
    names: &Names,
    counterexample: &Counterexample,
) -> Result<(), AllocError>
    ensures { IfOk result
        (λ _. string_bytes text.new
        ≡ string_bytes text.old ++ keys_line names.now counterexample.now.keys) }
{
    text.push_str("keys")?;
    for key in counterexample.keys.as_slice() {
        text.push_str(" ")?;
        push_printed(alloc, text, names, *key)?;
    }
    Ok(())
}

/// Appends the printed keysym to the text.
fn push_printed(
    alloc: Global,
    text: &mut String,
    names: &Names,
    key: Keysym,
) -> Result<(), AllocError>
    ensures { IfOk result
        (λ _. string_bytes text.new ≡ string_bytes text.old ++ printed names.now key) }
{
    match names.print(alloc, key) {
        Ok(name) => Ok(text.push_str(name.as_str())?),
        Err(_) => Err(AllocError),
    }
}

/// Appends a text in quotes to the other one.
fn push_quoted(alloc: Global, text: &mut String, inside: &str) -> Result<(), AllocError>
    ensures { IfOk result (λ _. string_bytes text.new ≡ string_bytes text.old ++ quote inside.now) }
{
    match quote(alloc, inside) {
        Ok(quoted) => Ok(text.push_str(quoted.as_str())?),
        Err(_) => Err(AllocError),
    }
}

/// Returns the word for a kind of difference.
fn word(kind: Kind) -> &'static str
    ensures { result.now ≡ kind_word (kind_of kind) }
{
    match kind {
        Kind::Text => "text",
        Kind::Cancelled => "cancelled",
        Kind::Waiting => "waiting",
    }
}
