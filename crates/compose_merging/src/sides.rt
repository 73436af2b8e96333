//! A table of a merge: its rows, and the lines that give them.
use compose_listing::ListedTable;
use compose_places::CountingLine;
use compose_read::Sequences;

/// A table, and its rows, of which each is the leaf with its index.
#[derive(Drop)]
pub(crate) struct Side<'a, T> {
    /// The table, with the lines that count.
    pub(crate) listed: ListedTable<'a, T>,
    /// Its rows.
    pub(crate) rows: Sequences,
}

impl<'a, T> Side<'a, T> {
    /// Returns the line that counts for the row at this index, if there is one.
    pub(crate) fn line(&self, row: usize) -> Option<&'a CountingLine<'a>> {
        match self.listed.lines.get(row) {
            Some(Some(line)) => Some(line),
            _ => None,
        }
    }

    /// Returns the path of the source at this index.
    pub(crate) fn path(&self, source: usize) -> &'a str {
        match self.listed.paths.get(source) {
            Some(path) => path,
            None => "",
        }
    }
}
