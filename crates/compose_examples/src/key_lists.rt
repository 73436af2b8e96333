//! Lists of keys as the lines of a text write them, and the line with a refused key.
use crate::helpers::expect_text;
use compose_answer::Refusal;
use compose_key_lists::{key_lists, refused_line};
use std::alloc::{AllocError, Global};
use std::fmt::Write;
use std::process::Abort;

/// A text, and what is printed for it: its keys, and after a bar the number of keys in each line.
struct ListsRow {
    text: &'static str,
    prints: &'static str,
}

#[rattlefmt::skip]
static LISTS: [ListsRow; 14] = [
    ListsRow { text: "", prints: "| " },
    ListsRow { text: "\n", prints: "| 0 " },
    ListsRow { text: "Multi_key e '\n\nx\ty", prints: "Multi_key e ' x y | 3 0 2 " },
    ListsRow { text: " \t a  b\r\n", prints: "a b | 2 " },
    ListsRow { text: "é", prints: "é | 1 " },
    ListsRow { text: "Multi_key - >\nMulti_key,minus,greater", prints: "Multi_key - > Multi_key minus greater | 3 3 " },
    ListsRow { text: "<Multi_key><minus><greater>", prints: "Multi_key minus greater | 3 " },
    ListsRow { text: "<Multi_key> <minus>, <greater>,", prints: "Multi_key minus greater | 3 " },
    ListsRow { text: "<a><b>,c,<d>", prints: "a b c d | 4 " },
    ListsRow { text: ", < > <", prints: ", < > < | 4 " },
    ListsRow { text: "a,,b", prints: "a  b | 3 " },
    ListsRow { text: ",,", prints: "  | 2 " },
    ListsRow { text: "<a <b>c <> <<>", prints: "<a <b>c  < | 4 " },
    ListsRow { text: "<a>b<c>", prints: "a b<c | 2 " },
];

fn push_words(text: &mut String, words: &[&str]) -> Result<(), AllocError> {
    for word in words {
        write!(text, "{word} ")?;
    }
    text.push_str("| ")?;
    Ok(())
}

fn push_counts(text: &mut String, counts: &[usize]) -> Result<(), AllocError> {
    for count in counts {
        write!(text, "{count} ")?;
    }
    Ok(())
}

/// Expects the lists of a row.
fn expect_lists(rt: &impl Abort, alloc: Global, row: &ListsRow) -> Result<(), AllocError> {
    let lists = key_lists(alloc, row.text)?;
    let mut text = String::new(alloc);
    push_words(&mut text, &lists.keys)?;
    push_counts(&mut text, &lists.counts)?;
    expect_text(rt, row.text, &text, row.prints);
    Ok(())
}

#[test]
fn lists_of_lines(rt: HostRuntime) -> Result<(), AllocError> {
    for row in &LISTS {
        expect_lists(&rt, rt.alloc(), row)?;
    }
    Ok(())
}

/// The index of a refused key among those of lines with three, no and two keys, and what is printed
/// about its line.
struct LineRow {
    index: usize,
    says: &'static str,
}

#[rattlefmt::skip]
static REFUSED: [LineRow; 4] = [
    LineRow { index: 0, says: "composecheck: the key is in line 1 of standard input\n" },
    LineRow { index: 2, says: "composecheck: the key is in line 1 of standard input\n" },
    LineRow { index: 3, says: "composecheck: the key is in line 3 of standard input\n" },
    LineRow { index: 4, says: "composecheck: the key is in line 3 of standard input\n" },
];

/// Expects what is printed about the line of a refused key, and nothing for another refusal.
fn expect_line(rt: &impl Abort, alloc: Global, row: &LineRow) -> Result<(), AllocError> {
    let index = row.index;
    let content = refused_line(alloc, &[3, 0, 2], &Err(Refusal::Key { index }))?;
    expect_text(rt, row.says, &content, row.says);
    let other = refused_line(alloc, &[3, 0, 2], &Err(Refusal::NoMemory))?;
    expect_text(rt, row.says, &other, "");
    Ok(())
}

#[test]
fn lines_of_refused_keys(rt: HostRuntime) -> Result<(), AllocError> {
    for row in &REFUSED {
        expect_line(&rt, rt.alloc(), row)?;
    }
    Ok(())
}
