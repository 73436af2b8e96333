//! Rows of `diff` as pages.
use compose_compare::Change;
use compose_diff::{DiffRow, NewSequence, Overlaps, Printed, TextPlace};
use compose_page::{Markup, page_text};
use std::alloc::{AllocError, Global};
use std::test::Fail;

/// Returns a removed sequence whose text another one produces.
fn row() -> DiffRow<'static> {
    DiffRow {
        change: Change::Removed,
        keys: &["a", "b_", "c"],
        old: Some(TextPlace {
            text: "<|>",
            source: 0,
            path: "OLD",
            line: 1,
        }),
        new: None,
        longer: None,
        typing: Some(NewSequence {
            keys: &["a", "c"],
            path: "NEW",
            line: 2,
        }),
    }
}

/// Returns the page of this row, or only that of its lost texts.
fn page(alloc: Global, markup: Markup, lost_alone: bool) -> Result<String, AllocError> {
    let printed = Printed {
        folds: true,
        lost_alone,
    };
    let overlaps = Overlaps { old: 1, new: 0 };
    page_text(alloc, &[row()], &[row()], markup, printed, overlaps)
}

#[test]
fn keys_between_a_common_beginning_and_end_are_marked(rt: HostRuntime) -> Result<(), Fail> {
    let text =
        "## Texts that can't be typed any more (0 sequences)\n\n## Texts that are typed otherwise (1 sequence)\n\nThe new keys are the shortest sequence of the new table that types the text.\n\n| Text | Characters | Old keys | New keys | What happens | Places |\n|---|---|---|---|---|---|\n| <b>\\<\\|\\></b> | U+003C U+007C U+003E | <kbd>a</kbd> <del><kbd>b\\_</kbd></del> <kbd>c</kbd> | <kbd>a</kbd> <kbd>c</kbd> | removed | OLD:1 NEW:2 |\n\n## Keys that begin a sequence now (0 sequences)\n\n## Added (0 sequences)\n\n<pre>\noverlaps: 1 in the old table, 0 in the new one; the longer sequences count\ndiff: 0 kept, 0 changed, 0 waiting, 1 removed, 0 new starts, 0 added, 0 accepted; 0 texts lost\n</pre>\n";
    let page = page(rt.alloc(), Markup::Markdown, false)?;
    assert!(rt; page.as_str() == text);
    Ok(())
}

#[test]
fn text_that_is_typed_otherwise_is_not_lost(rt: HostRuntime) -> Result<(), Fail> {
    let text =
        "## Texts that can't be typed any more (0 sequences)\n\n<pre>\noverlaps: 1 in the old table, 0 in the new one; the longer sequences count\ndiff: 0 kept, 0 changed, 0 waiting, 1 removed, 0 new starts, 0 added, 0 accepted; 0 texts lost\n</pre>\n";
    let page = page(rt.alloc(), Markup::Markdown, true)?;
    assert!(rt; page.as_str() == text);
    Ok(())
}

#[test]
fn tags_of_a_text_are_none(rt: HostRuntime) -> Result<(), Fail> {
    let row =
        "<tr><td> <b>&#60;|&#62;</b></td><td> U+003C U+007C U+003E</td><td> <kbd>a</kbd> <del><kbd>b_</kbd></del> <kbd>c</kbd></td><td> <kbd>a</kbd> <kbd>c</kbd></td><td> removed</td><td> OLD:1 NEW:2</td></tr>\n";
    let page = page(rt.alloc(), Markup::Html, false)?;
    assert!(rt; page.contains(row));
    Ok(())
}
