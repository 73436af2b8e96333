//! What a command reads, and what was read.
use crate::chosen::NotedTable;
use compose_arguments::TypeTable;
use compose_input::NameFiles;

/// A table that a command reads.
#[derive(Clone, Copy)]
pub struct WantedTable<'a> {
    /// The part of the input that a fault names: `old`, `new` or `table`.
    pub part: &'static str,
    /// Its manifest, or its Compose file.
    pub table: TypeTable<'a>,
}

/// What a command reads: names, then tables, then other files.
#[derive(Clone, Copy)]
pub struct Wanted<'a> {
    /// The arguments of each `--names`.
    pub names: &'a [&'a str],
    /// Whether the tables are Compose files, for which names are built in.
    pub are_files: bool,
    /// The tables, in their order.
    pub tables: &'a [WantedTable<'a>],
    /// The paths of the other files, in their order.
    pub texts: &'a [&'a str],
}

/// What was read.
#[derive(Drop)]
pub struct ReadParts<'n> {
    /// The files of names.
    pub names: NameFiles<'n>,
    /// The tables, in their order.
    pub tables: Vec<NotedTable>,
    /// The other files, in their order.
    pub texts: Vec<Vec<u8>>,
}
