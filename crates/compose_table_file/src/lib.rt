//! The file that keeps the table in use from one start of the service to the next: the rule for
//! overlaps, the characters that people need, the names of keysyms, the keysyms that a load may list
//! as fresh, and the payload of the load that brought the table.
//!
//! [`write_table`] gives its bytes, [`read_table`] reads them, and [`law_table_file`] says that what
//! is read is what was written. [`named_from`] keeps the folder from which relative paths go in the
//! name of the first source, and [`file_path`] finds the files by it. The file is a bundle (`compose_bundle`), so it has no format of its
//! own: the sources are the parts, and the payload is in the place of the certificate.
//!
//! ```text
//! 0003                                                 three sources
//! 001c 636f6d706f..   "composecheck-table 2 longest"   the first one's name, which marks the rule
//! 0000000f 6b657973.. "keys 0x20 0x7e\n"               its content, the repertoire
//! 0005 6e616d6573     "names"
//! 00000000                                             no lines: the built-in names
//! 0005 6672657368     "fresh"
//! 00000004 0000fe61                                    one keysym, 0xfe61
//! 0001a2b3 0001..                                      the payload
//! ```
#![tactic(auto)]

mod fresh;
mod origin;
mod table_file;

pub use origin::{file_path, named_from, plain_path};
pub use table_file::{
    StoredFault, StoredTable, TableParts, law_table_file, read_table, write_table,
};
