//! Manifests: lists of the files of a table, under the names by which includes name them.
//!
//! [`read_manifest`] reads one, and [`file_path`] returns the path of an entry's file.
//! [`manifest_text`] writes the manifest of the sources that were found on a system, one line for
//! each, and reads the text back to check that it lists these sources; a name or a path that can't
//! be written in a manifest is an error. [`outside_text`] reports which of the sources lie outside
//! of a tree of locales.
//!
//! ```text
//! manifest_text(alloc, &[root, english])?
//! // root\troot.compose
//! // %L\t/usr/share/X11/locale/en_US.UTF-8/Compose
//! ```
#![tactic(auto)]

mod manifest;
mod outside;
mod writing;

pub use manifest::{Manifest, ManifestEntry, ManifestFault, file_path, read_manifest};
pub use outside::outside_text;
pub use writing::{WriteFault, manifest_text};
