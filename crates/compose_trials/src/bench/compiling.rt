//! Compilation of a table from its bytes.
use crate::bench::figures::print;
use crate::bench::stopwatch::{ROUNDS, Stopwatch, now};
use crate::failure::Failure;
use crate::input::{read_names, read_sources, read_table};
use compose_model::Rule;
use compose_read::{Definitions, Sequences, Sources, read_definitions, settle};
use compose_tree::{BuildTable, ComposeTable, NodeId, PackedTable};
use keysym_core::Names;

/// The least times of the three parts of a compilation, and of the whole.
#[derive(Clone, Copy, Drop)]
struct Times {
    reading: Stopwatch,
    settling: Stopwatch,
    building: Stopwatch,
    whole: Stopwatch,
}

/// Reads, settles and builds a table, and prints the times and the contents of the table. Errors:
/// see [`Failure`].
pub fn compile(rt: &HostRuntime, header: &str, path: &str) -> Result<(), Failure> {
    let names = read_names(rt, header)?;
    compile_with(rt, &names, path)
}

/// Does the same with these names.
fn compile_with(rt: &HostRuntime, names: &Names, path: &str) -> Result<(), Failure> {
    let times = measure_table(rt, names, path)?;
    print_times(rt, times)?;
    print_table(rt, names, path)
}

/// Returns the times of some rounds over the table of a file.
fn measure_table(rt: &HostRuntime, names: &Names, path: &str) -> Result<Times, Failure> {
    let sources = read_sources(rt, path)?;
    measure(rt, names, &sources, path)
}

/// Returns the times of some rounds.
fn measure(
    rt: &HostRuntime,
    names: &Names,
    sources: &Sources,
    root: &str,
) -> Result<Times, Failure> {
    let mut times = Times {
        reading: Stopwatch::new(),
        settling: Stopwatch::new(),
        building: Stopwatch::new(),
        whole: Stopwatch::new(),
    };
    for _ in 0..ROUNDS {
        measure_round(rt, names, sources, root, &mut times)?;
    }
    Ok(times)
}

/// Measures one round.
fn measure_round(
    rt: &HostRuntime,
    names: &Names,
    sources: &Sources,
    root: &str,
    times: &mut Times,
) -> Result<(), Failure> {
    let start = now(rt)?;
    compile_round(rt, names, sources, root, times)?;
    times.whole.stop(rt, start)
}

/// Runs the three parts of a compilation one after another.
fn compile_round(
    rt: &HostRuntime,
    names: &Names,
    sources: &Sources,
    root: &str,
    times: &mut Times,
) -> Result<(), Failure> {
    let definitions = read_round(rt, names, sources, root, &mut times.reading)?;
    let sequences = settle_round(rt, definitions, &mut times.settling)?;
    build_round(rt, sequences, &mut times.building)
}

/// Reads the definitions.
fn read_round(
    rt: &HostRuntime,
    names: &Names,
    sources: &Sources,
    root: &str,
    stopwatch: &mut Stopwatch,
) -> Result<Definitions, Failure> {
    let start = now(rt)?;
    let Ok(definitions) = read_definitions(rt.alloc(), names, sources, root) else {
        return Err(Failure::Input);
    };
    stopwatch.stop(rt, start)?;
    Ok(definitions)
}

/// Settles them.
fn settle_round(
    rt: &HostRuntime,
    definitions: Definitions,
    stopwatch: &mut Stopwatch,
) -> Result<Sequences, Failure> {
    let start = now(rt)?;
    let Ok(sequences) = settle(rt.alloc(), definitions, Rule::Refuse) else {
        return Err(Failure::Input);
    };
    stopwatch.stop(rt, start)?;
    Ok(sequences)
}

/// Builds the table.
fn build_round(
    rt: &HostRuntime,
    sequences: Sequences,
    stopwatch: &mut Stopwatch,
) -> Result<(), Failure> {
    let start = now(rt)?;
    if PackedTable::build(rt.alloc(), sequences).is_err() {
        return Err(Failure::Input);
    }
    stopwatch.stop(rt, start)
}

/// Prints the times.
fn print_times(rt: &HostRuntime, times: Times) -> Result<(), Failure> {
    print(
        rt,
        &[
            ("read", times.reading.least()),
            ("settle", times.settling.least()),
            ("build", times.building.least()),
            ("compile", times.whole.least()),
        ],
    )
}

/// Prints the contents of the table of a file.
fn print_table(rt: &HostRuntime, names: &Names, path: &str) -> Result<(), Failure> {
    let table: PackedTable = read_table(rt, names, path)?;
    print_counts(rt, &table)
}

/// Prints the numbers of nodes, edges and sequences of a table, and of the bytes of its arrays.
fn print_counts(rt: &HostRuntime, table: &PackedTable) -> Result<(), Failure> {
    print(
        rt,
        &[
            ("nodes", u64::from(table.node_count())),
            ("edges", count_edges(table)),
            ("root edges", u64::from(table.edge_count(NodeId::ROOT))),
            ("sequences", u64::from(table.leaf_count())),
            ("bytes", array_bytes(table)),
        ],
    )
}

/// Returns the number of edges of all nodes.
fn count_edges(table: &PackedTable) -> u64 {
    let mut count = 0u64;
    for node in 0..table.node_count() {
        count = count.saturating_add(u64::from(table.edge_count(NodeId(node))));
    }
    count
}

/// Returns the number of bytes of the arrays of a table.
fn array_bytes(table: &PackedTable) -> u64 {
    let arrays = table.arrays();
    let lengths = [
        arrays.nodes.len().saturating_mul(8),
        arrays.edges.len().saturating_mul(8),
        arrays.texts.len(),
        arrays.long_texts.len(),
        arrays.hints.len(),
    ];
    let mut bytes = 0u64;
    for length in lengths {
        bytes = bytes.saturating_add(length as u64);
    }
    bytes
}
