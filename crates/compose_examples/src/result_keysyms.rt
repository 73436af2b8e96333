//! The result keysyms of the sequences of worked tables.
use crate::helpers::{core, expect_text, two_sources};
use compose_model::Rule;
use compose_results::{ResultTable, read_first_results, read_results};
use compose_tree::PackedTable;
use keysym_core::Keysym;
use std::alloc::{AllocError, Global};
use std::fmt::Write;
use std::process::Abort;
use std::test::Fail;

/// The root's lines, those of the source `%L`, and the values of the result keysyms of the
/// sequences of the root's table in rising order, and of that source's table.
struct ResultRow {
    root: &'static str,
    included: &'static str,
    prints: &'static str,
    of_included: &'static str,
}

#[rattlefmt::skip]
static RESULTS: [ResultRow; 5] = [
    ResultRow { root: "", included: "", prints: "", of_included: "" },
    ResultRow { root: "<a> : \"x\" b\n<b> : \"é\"\n<c> : \"xyz\"\n<d> : eacute\n", included: "<a> : \"z\"", prints: "98 233 0 233 ", of_included: "122 " },
    ResultRow { root: "<a> : \"x\" b\n<a> : \"y\" c\n", included: "", prints: "99 ", of_included: "" },
    ResultRow { root: "<a> : \"x\"\ninclude \"%L\"\n", included: "<a> : \"x\" c\n", prints: "99 ", of_included: "99 " },
    ResultRow { root: "<f> <b> : \"z\" q\n<f> <a> : \"x\"\n", included: "", prints: "120 113 ", of_included: "" },
];

fn push_numbers(text: &mut String, results: &[Keysym]) -> Result<(), AllocError> {
    for keysym in results {
        let number = keysym.value();
        write!(text, "{number} ")?;
    }
    Ok(())
}

/// Expects these values of result keysyms.
fn expect_numbers(
    rt: &impl Abort,
    alloc: Global,
    results: &[Keysym],
    prints: &str,
) -> Result<(), AllocError> {
    let mut text = String::new(alloc);
    push_numbers(&mut text, results)?;
    expect_text(rt, prints, &text, prints);
    Ok(())
}

/// Expects the result keysyms of a row.
fn expect_results(rt: &impl Abort, alloc: Global, row: &ResultRow) -> Result<(), Fail> {
    let sources = two_sources(alloc, row.root.as_bytes(), row.included)?;
    let names = core(alloc)?;
    let first: ResultTable<PackedTable> = read_first_results(
        alloc,
        &names,
        &sources,
        Rule::Longest,
    )?;
    expect_numbers(rt, alloc, &first.results, row.prints)?;
    let other: ResultTable<PackedTable> = read_results(
        alloc,
        &names,
        &sources,
        "%L",
        Rule::Longest,
    )?;
    expect_numbers(rt, alloc, &other.results, row.of_included)?;
    Ok(())
}

#[test]
fn result_keysyms_of_sequences(rt: HostRuntime) -> Result<(), Fail> {
    for row in &RESULTS {
        expect_results(&rt, rt.alloc(), row)?;
    }
    Ok(())
}
