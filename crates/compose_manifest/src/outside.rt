//! The files of a table that lie outside of a tree of locales.
ghost use Rattle.std.specs.Prelude.{◌≡◌, ◌++◌, IfOk, OnOk, option_copied, string_bytes};
ghost use Rattle.compose_manifest.specs.Outside as outside;

use compose_find::{FoundSource, lies_below};
use compose_shown::Shown;
use std::alloc::{AllocError, Global};
use std::fmt::Write;

/// Returns a line for each source but the first whose path lies neither below the tree nor below
/// the root, if one is given: `note: PATH lies outside of TREE`, in order, escaped for a terminal.
/// The first source is the root of the table, whose path comes from the user. O(bytes).
///
/// Errors: `AllocError` if memory runs out.
pub fn outside_text(
    alloc: Global,
    tree: &str,
    root: Option<&str>,
    sources: &[FoundSource],
) -> Result<String, AllocError>
    ensures { IfOk result
        (λ text. string_bytes text
        ≡ outside.outside_text tree.now (option_copied root.entry) sources.now) }
{
    match sources.split_first() {
        Some((_, others)) => notes(alloc, tree, root, others),
        None => Ok(String::new(alloc)),
    }
}

/// Returns the lines for those of the sources that lie outside.
fn notes(
    alloc: Global,
    tree: &str,
    root: Option<&str>,
    sources: &[FoundSource],
) -> Result<String, AllocError>
    ensures { IfOk result
        (λ text. string_bytes text
        ≡ outside.notes tree.now (option_copied root.entry) sources.now) }
{
    let mut text = String::new(alloc);
    for source in sources {
        if is_outside(tree, root, &source.path) {
            push_note(&mut text, tree, source)?;
        }
    }
    Ok(text)
}

/// Adds the line for a source.
fn push_note(text: &mut String, tree: &str, source: &FoundSource) -> Result<(), AllocError>
    ensures { OnOk result
        (string_bytes text.new ≡ string_bytes text.old ++ outside.note tree.now source.now) }
{
    let (path, tree) = (Shown(&source.path), Shown(tree));
    writeln!(text, "note: {path} lies outside of {tree}")?;
    Ok(())
}

/// Returns whether the path lies neither below the tree nor below the root, if one is given.
fn is_outside(tree: &str, root: Option<&str>, path: &str) -> bool
    ensures { result ≡ outside.is_outside tree.now (option_copied root.entry) path.now }
{
    if lies_below(tree, path) {
        return false;
    }
    match root {
        Some(root) => !lies_below(root, path),
        None => true,
    }
}
