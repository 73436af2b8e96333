//! Finds the files of a Compose file on a system.
//!
//! [`find_sources`] follows includes over the files that were looked for. It returns every source,
//! named by the raw text of its include, with its path; or it reports the path that has to be
//! looked for next. Add what is found there to [`Files`], which keeps the bytes, and search again.
//! Once no path is wanted, [`FoundTable::new`] makes the table of the sources, with the very bytes
//! in which the includes were found, so that no file is read twice. [`expand`] turns the text of an
//! include into a path: `%S`, `%L` and `%H` are replaced by [`Meanings`], and [`locale_file`]
//! returns the path for `%L`.
//!
//! ```text
//! root:  include "%L"      # %L  /usr/share/X11/locale/en_US.UTF-8/Compose
//!        include "more"    # more, or beside the root
//! ```
#![tactic(auto)]

mod fault;
mod files;
mod found_source;
mod includes;
mod law;
mod locales;
mod paths;
mod percent;
mod search;
mod table;
mod trees;

pub use fault::IncludeFault;
pub use files::Files;
pub use found_source::{FindFault, FoundSource};
pub use includes::{Include, includes_of};
pub use law::{law_any_locale, law_found, law_held};
pub use locales::locale_file;
pub use paths::beside;
pub use percent::{Meanings, expand};
pub use search::find_sources;
pub use table::FoundTable;
pub use trees::{lies_below, locale_tree};
