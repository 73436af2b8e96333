//! The sequences of worked tables that produce a text.
use crate::tables::{core, table};
use compose_lookup::TextIndex;
use compose_tree::{BuildTable, LeafId, ListTable, PackedTable};
use std::alloc::Global;
use std::fmt::Write;
use std::test::Fail;

/// A text, and the numbers of the leaves that produce it in the table below, with a blank after
/// each.
struct FoundRow {
    text: &'static str,
    leaves: &'static str,
}

/// Sequences in another order than that of their numbers: `<a> <b> <c>` is leaf 0, `<a> <c>` 1,
/// `<b>` 2, `<c> <a>` 3, `<c> <b>` 4.
static LINES: &str =
    "<c> <b> : \"x\"\n<b> : \"yy\"\n<a> <c> : \"x\"\n<a> <b> <c> : \"x\"\n<c> <a> : \"y\"\n";

#[rattlefmt::skip]
static FOUND: [FoundRow; 6] = [
    FoundRow { text: "x", leaves: "1 4 0 " },
    FoundRow { text: "y", leaves: "3 " },
    FoundRow { text: "yy", leaves: "2 " },
    FoundRow { text: "yyy", leaves: "" },
    FoundRow { text: "", leaves: "" },
    FoundRow { text: "é", leaves: "" },
];

/// Returns the numbers of leaves, with a blank after each.
fn numbers(alloc: Global, leaves: &[LeafId]) -> Result<String, Fail> {
    let mut text = String::new(alloc);
    for leaf in leaves {
        let number = leaf.0;
        write!(text, "{number} ")?;
    }
    Ok(text)
}

/// Returns the leaves that an index of the texts above finds for one of them.
fn found<T: BuildTable>(alloc: Global, table: &T, text: &str) -> Result<String, Fail> {
    let mut texts = Vec::new(alloc);
    for row in &FOUND {
        texts.push(row.text)?;
    }
    let index = TextIndex::of_texts(alloc, table, &texts)?;
    numbers(alloc, index.leaves_with(table, text))
}

/// Returns the first text for which other leaves are found.
fn first_wrong<T: BuildTable>(alloc: Global) -> Result<Option<&'static str>, Fail> {
    let names = core(alloc)?;
    let table: T = table(alloc, &names, LINES)?;
    for row in &FOUND {
        if found(alloc, &table, row.text)?.as_str() != row.leaves {
            return Ok(Some(row.text));
        }
    }
    Ok(None)
}

#[test]
fn sequences_of_texts(rt: HostRuntime) -> Result<(), Fail> {
    assert_eq!(rt; first_wrong::<ListTable>(rt.alloc())?, None);
    assert_eq!(rt; first_wrong::<PackedTable>(rt.alloc())?, None);
    Ok(())
}
