//! Worked tables in both forms: their nodes, edges and texts, or the first fault.
ghost use Rattle.std.specs.Prelude.{◌<◌, length};
ghost use Rattle.compose_model.specs.Nodes.{nodes};

use crate::helpers::{core, expect_text, two_sources};
use compose_model::Rule;
use compose_read::{SourceFault, Sources};
use compose_tree::{
    BuildFault, BuildTable, LeafId, ListTable, NodeId, PackedTable, TableFault, Target, read_table,
};
use keysym_core::{Keysym, Names};
use std::alloc::{AllocError, Global};
use std::fmt::Write;
use std::process::Abort;

/// The root's lines, those of the source `%L`, the rule for overlapping sequences, and what is
/// printed: the edges of each node after its depth, and the texts; or the first fault.
struct TableRow {
    root: &'static str,
    included: &'static str,
    rule: Rule,
    prints: &'static str,
}

#[rattlefmt::skip]
static TABLES: [TableRow; 9] = [
    TableRow { root: "<Multi_key> <apostrophe> <e> : \"é\" eacute # e acute\n<dead_acute> <e> : \"é\"\n<Multi_key> <apostrophe> <a> : \"á\"\n", included: "", rule: Rule::Refuse, prints: "0[fe51=n1,ff20=n2,]1[65=l0,]1[27=n3,]2[61=l1,65=l2,] é|á|é|" },
    TableRow { root: "<Multi_key> <apostrophe> <e> : \"é\" eacute # e acute\n<dead_acute> <e> : \"é\"\n", included: "", rule: Rule::Refuse, prints: "0[fe51=n1,ff20=n2,]1[65=l0,]1[27=n3,]2[65=l1,] é|é|" },
    TableRow { root: "<a> <b> : \"x\"\n<a> <c> : \"yz\"\n<d> : \"w\"\n", included: "", rule: Rule::Refuse, prints: "0[61=n1,64=l2,]1[62=l0,63=l1,] x|yz|w|" },
    TableRow { root: "<a> <b> : \"x\"\n<a> : \"y\"\n", included: "", rule: Rule::Refuse, prints: "2 Settle: 1 Overlap short=0x61 long=0x61,0x62" },
    TableRow { root: "<a> <b> : \"x\"\ninclude \"%L\"\n", included: "<a> <b> : \"z\"\n", rule: Rule::Refuse, prints: "0[61=n1,]1[62=l0,] z|" },
    TableRow { root: "<a> <b> : \"x\"\n<a> : \"y\"\n", included: "", rule: Rule::Longest, prints: "0[61=n1,]1[62=l0,] x|" },
    TableRow { root: "<a> : \"1\"\n<a> <b> <c> : \"2\"\n<a> <b> : \"3\"\n<a> <b> <c> : \"4\"\n", included: "", rule: Rule::Longest, prints: "0[61=n1,]1[62=n2,]2[63=l0,] 4|" },
    TableRow { root: "", included: "", rule: Rule::Refuse, prints: "0[] " },
    TableRow { root: "<nosuch> : \"x\"\n", included: "", rule: Rule::Refuse, prints: "1 Read: 4 UnknownKeysym source=0 line=1 index=0" },
];

/// Prints an edge, and a mark unless looking up its keysym finds it.
fn print_edge(
    text: &mut String,
    keysym: Keysym,
    target: Target,
    found: bool,
) -> Result<(), AllocError> {
    let (kind, number) = match target {
        Target::Node(node) => ("n", node.0),
        Target::Leaf(leaf) => ("l", leaf.0),
    };
    let mark = if found { "" } else { "!" };
    let value = keysym.value();
    write!(text, "{value:x}={kind}{number}{mark},")?;
    Ok(())
}

/// Prints a node's depth and its edges.
fn print_node<T: BuildTable>(text: &mut String, table: &T, node: NodeId) -> Result<(), AllocError>
    requires { node.0 < length (nodes (T.definitions table.now)) }
{
    let depth = table.depth(node);
    write!(text, "{depth}[")?;
    for index in 0..table.edge_count(node) {
        let (keysym, target) = table.edge(node, index);
        let found = table.find(node, keysym) == Some(index)
            && table.step(node, keysym) == Some(target);
        print_edge(text, keysym, target, found)?;
    }
    text.push_str("]")?;
    Ok(())
}

/// Prints all that the functions of a table return.
fn push_whole<T: BuildTable>(text: &mut String, table: &T) -> Result<(), AllocError> {
    for number in 0..table.node_count() {
        print_node(text, table, NodeId(number))?;
    }
    text.push_str(" ")?;
    for number in 0..table.leaf_count() {
        text.push_str(table.text(LeafId(number)))?;
        text.push_str("|")?;
    }
    Ok(())
}

fn read<T: BuildTable>(
    alloc: Global,
    names: &Names,
    sources: &Sources,
    root: &str,
    rule: Rule,
) -> Result<T, TableFault> {
    read_table(alloc, names, sources, root, rule)
}

fn push_fault(text: &mut String, fault: &TableFault) -> Result<(), AllocError> {
    write!(text, "{fault}")?;
    Ok(())
}

/// Expects the printed table, or its fault.
fn expect_whole<T: BuildTable>(
    rt: &impl Abort,
    alloc: Global,
    read: &Result<T, TableFault>,
    prints: &str,
) -> Result<(), AllocError> {
    let mut text = String::new(alloc);
    match read {
        Ok(table) => push_whole(&mut text, table)?,
        Err(fault) => push_fault(&mut text, fault)?,
    }
    expect_text(rt, prints, &text, prints);
    Ok(())
}

/// Expects the same of both forms of a table.
fn expect_both(
    rt: &impl Abort,
    alloc: Global,
    names: &Names,
    sources: &Sources,
    root: &str,
    rule: Rule,
    prints: &str,
) -> Result<(), AllocError> {
    expect_whole::<ListTable>(rt, alloc, &read(alloc, names, sources, root, rule), prints)?;
    expect_whole::<PackedTable>(rt, alloc, &read(alloc, names, sources, root, rule), prints)
}

fn expect_table(
    rt: &impl Abort,
    alloc: Global,
    names: &Names,
    row: &TableRow,
) -> Result<(), SourceFault> {
    let sources = two_sources(alloc, row.root.as_bytes(), row.included)?;
    expect_both(rt, alloc, names, &sources, "r", row.rule, row.prints)?;
    Ok(())
}

fn expect_tables(rt: &impl Abort, alloc: Global, names: &Names) -> Result<(), SourceFault> {
    for row in &TABLES {
        expect_table(rt, alloc, names, row)?;
    }
    Ok(())
}

#[test]
fn reads_worked_tables(rt: HostRuntime) -> Result<(), SourceFault> {
    let names = core(rt.alloc())?;
    expect_tables(&rt, rt.alloc(), &names)
}

fn expect_no_root(rt: &impl Abort, alloc: Global, names: &Names) -> Result<(), AllocError> {
    let sources = Sources::new(alloc);
    expect_both(
        rt,
        alloc,
        names,
        &sources,
        "r",
        Rule::Refuse,
        "1 Read: 1 MissingRoot",
    )
}

/// There is no table if no source has the root's name.
#[test]
fn reads_no_table_without_a_root(rt: HostRuntime) -> Result<(), AllocError> {
    let names = core(rt.alloc())?;
    expect_no_root(&rt, rt.alloc(), &names)
}

#[test]
fn prints_want_of_memory(rt: HostRuntime) -> Result<(), AllocError> {
    let (table, build) = (TableFault::NoMemory, BuildFault::NoMemory);
    let text = format!(in rt.alloc(); "{table}, {build}")?;
    expect_text(&rt, "both faults", &text, "4 NoMemory, 2 NoMemory");
    Ok(())
}
