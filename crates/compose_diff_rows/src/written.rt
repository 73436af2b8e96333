//! A table as it is written.
use compose_places::CountingLine;

/// A table, the lines that count for its leaves, and the paths of its sources.
#[derive(Drop)]
pub(crate) struct WrittenTable<'a, T> {
    /// The table.
    pub(crate) table: &'a T,
    /// For each leaf, by its number, the line that counts for its sequence, as `read_placed_table`
    /// returns them.
    pub(crate) lines: &'a [Option<CountingLine<'a>>],
    /// The path of each source, by its index.
    pub(crate) paths: &'a [&'a str],
}
