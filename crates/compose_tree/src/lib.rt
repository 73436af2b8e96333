//! Compose tables as nodes and edges, behind one trait.
//!
//! The meaning of a table is a list of settled definitions. Its nodes are the root and the proper
//! prefixes of the sequences, its leaves are the sequences; both are numbered in the order of the
//! sequences. The contract of [`ComposeTable`] defines counts, depths, edges, steps and texts by
//! that list alone, so the crates above do not depend on the form: [`ListTable`] is the plain form,
//! [`PackedTable`] the compact one, and [`LentTable`] the compact one in memory that somebody else
//! keeps. The first two are built ([`BuildTable`]) from the same rows, in one pass over the
//! sequences; a packed table is read as the lent table of its arrays.
//!
//! ```text
//! let table: PackedTable = read_table(alloc, &names, &sources, "main", Rule::Refuse)?;
//! let first = table.step(NodeId::ROOT, keysym);
//! ```
#![tactic(auto)]

mod edge;
mod hints;
mod lent_table;
mod list_table;
mod packed;
mod packed_table;
mod reading;
mod rows;
mod table;

pub use lent_table::{LentArrays, LentTable, entry_text};
pub use list_table::ListTable;
pub use packed::{PackedEdge, PackedNode, TEXT_ENTRY};
pub use packed_table::PackedTable;
pub use reading::{TableFault, read_first_table, read_table};
pub use table::{BuildFault, BuildTable, ComposeTable, LeafId, NodeId, Target};
