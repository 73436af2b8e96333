//! The arrays of packed tables.
use crate::helpers::expect_text;
use crate::tables::{core, table};
use compose_tree::{LentArrays, PackedTable};
use keysym_core::Names;
use std::alloc::{AllocError, Global};
use std::fmt::Write;
use std::process::Abort;
use std::test::Fail;

/// The lines of a table, and its arrays: depth and first edge of each node, keysym and target of
/// each edge, the entries of the texts, the long texts, and the number of hints.
struct ArraysRow {
    lines: &'static str,
    prints: &'static str,
}

#[rattlefmt::skip]
static ARRAYS: [ArraysRow; 5] = [
    ArraysRow { lines: "", prints: "0 from 0;0 from 0;||||0" },
    ArraysRow { lines: "<a> : \"é\"", prints: "0 from 0;0 from 1;|0x61 to 1;|195 169 0 2 ||2" },
    ArraysRow { lines: "<a> <b> : \"x\"\n<a> <c> : \"yz\"\n<d> : \"w\"", prints: "0 from 0;1 from 2;0 from 4;|0x61 to 2;0x64 to 5;0x62 to 1;0x63 to 3;|120 0 0 1 121 122 0 2 119 0 0 1 ||8" },
    ArraysRow { lines: "<a> : \"12345\"\n<b> : \"6789\"", prints: "0 from 0;0 from 2;|0x61 to 1;0x62 to 3;|0 0 0 5 3 0 0 4 |12345\u{0}6789|4" },
    ArraysRow { lines: "<a> : \"12345\"\n<b> : \"6789\"\n<c> : \"12345\"", prints: "0 from 0;0 from 3;|0x61 to 1;0x62 to 3;0x63 to 5;|0 0 0 5 3 0 0 4 0 0 0 5 |12345\u{0}6789|6" },
];

/// Prints the nodes and the edges.
fn push_nodes_and_edges(text: &mut String, arrays: &LentArrays<'_>) -> Result<(), AllocError> {
    for node in arrays.nodes {
        let (depth, first) = (node.depth, node.first);
        write!(text, "{depth} from {first};")?;
    }
    text.push_str("|")?;
    for edge in arrays.edges {
        let (keysym, target) = (edge.keysym.value(), edge.target);
        write!(text, "0x{keysym:x} to {target};")?;
    }
    text.push_str("|")?;
    Ok(())
}

/// Prints the entries of the texts, the long texts and the number of hints.
fn push_texts_and_hints(text: &mut String, arrays: &LentArrays<'_>) -> Result<(), AllocError> {
    for byte in arrays.texts {
        write!(text, "{byte} ")?;
    }
    let texts = str::from_utf8(arrays.long_texts).unwrap_or("?");
    let hints = arrays.hints.len();
    write!(text, "|{texts}|{hints}")?;
    Ok(())
}

/// Expects the arrays of a row.
fn expect_arrays(
    rt: &impl Abort,
    alloc: Global,
    names: &Names,
    row: &ArraysRow,
) -> Result<(), Fail> {
    let table: PackedTable = table(alloc, names, row.lines)?;
    let mut text = String::new(alloc);
    let arrays = table.arrays();
    push_nodes_and_edges(&mut text, &arrays)?;
    push_texts_and_hints(&mut text, &arrays)?;
    expect_text(rt, row.lines, &text, row.prints);
    Ok(())
}

#[test]
fn arrays_of_packed_tables(rt: HostRuntime) -> Result<(), Fail> {
    let names = core(rt.alloc())?;
    for row in &ARRAYS {
        expect_arrays(&rt, rt.alloc(), &names, row)?;
    }
    Ok(())
}
