//! Sources whose bytes are borrowed, and the same sources with bytes of their own.
use crate::helpers::{expect_text, push_sources};
use compose_read::{SourceFault, Sources};
use std::alloc::{AllocError, Global};
use std::fmt::Write;
use std::process::Abort;

/// The names and the texts of sources that are added one after another, what is answered, and the
/// name and the text of each source then.
struct BorrowedRow {
    added: &'static [(&'static str, &'static str)],
    answers: &'static str,
    prints: &'static str,
}

#[rattlefmt::skip]
static BORROWED: [BorrowedRow; 4] = [
    BorrowedRow { added: &[], answers: "", prints: "" },
    BorrowedRow { added: &[("r", "<a> : \"x\""), ("%L", "")], answers: "added;added;", prints: "r=<a> : \"x\"\n%L=\n" },
    BorrowedRow { added: &[("r", "1"), ("r", "2"), ("s", "3")], answers: "added;1 NameTaken;added;", prints: "r=1\ns=3\n" },
    BorrowedRow { added: &[("s", "2"), ("", "1"), ("", "1")], answers: "added;added;1 NameTaken;", prints: "s=2\n=1\n" },
];

/// Prints what is answered to an added source.
fn push_answer(text: &mut String, answer: Result<(), SourceFault>) -> Result<(), AllocError> {
    match answer {
        Ok(()) => text.push_str("added;")?,
        Err(fault) => write!(text, "{fault};")?,
    }
    Ok(())
}

/// Adds the sources of a row, and expects what is answered.
fn added(
    rt: &impl Abort,
    alloc: Global,
    row: &BorrowedRow,
) -> Result<Sources<'static>, AllocError> {
    let mut sources = Sources::new(alloc);
    let mut text = String::new(alloc);
    for (name, content) in row.added {
        push_answer(&mut text, sources.add_borrowed(name, content.as_bytes()))?;
    }
    expect_text(rt, row.answers, &text, row.answers);
    Ok(sources)
}

/// Expects the names and the texts of these sources.
fn expect_sources(
    rt: &impl Abort,
    alloc: Global,
    sources: &Sources,
    prints: &str,
) -> Result<(), AllocError> {
    let mut text = String::new(alloc);
    push_sources(&mut text, sources)?;
    expect_text(rt, prints, &text, prints);
    Ok(())
}

/// Expects the sources of a row, and the same of those with bytes of their own.
fn expect_borrowed(rt: &impl Abort, alloc: Global, row: &BorrowedRow) -> Result<(), AllocError> {
    let sources = added(rt, alloc, row)?;
    expect_sources(rt, alloc, &sources, row.prints)?;
    let owned = sources.owned(alloc)?;
    expect_sources(rt, alloc, &owned, row.prints)
}

#[test]
fn borrowed_sources(rt: HostRuntime) -> Result<(), AllocError> {
    for row in &BORROWED {
        expect_borrowed(&rt, rt.alloc(), row)?;
    }
    Ok(())
}
