//! The arguments of `list`.
use crate::name_lists::keys_of_option;
use crate::table_arguments::{TableArguments, table_arguments};
use clap::ArgMatches;
use std::alloc::{AllocError, Global};

/// The arguments of `list`, except the names.
#[derive(Drop)]
pub struct ListArguments<'a> {
    /// The table.
    pub table: TableArguments<'a>,
    /// The keys with which the sequences begin, as `--prefix` writes them.
    pub prefix: Vec<&'a str>,
    /// The text that the sequences produce, if one is given.
    pub text: Option<&'a str>,
    /// Whether the keys that can follow are printed, instead of the sequences.
    pub next: bool,
    /// The order of the sequences.
    pub sort: ListSort,
    /// Whether the answer is JSON.
    pub json: bool,
}

/// The order in which `list` prints sequences.
#[derive(Clone, Copy, Debug, PartialEq, Eq)]
pub enum ListSort {
    /// By their keys.
    Keys,
    /// By their text.
    Text,
    /// In the order of the file.
    File,
}

/// Returns the arguments of `list`.
/// Errors: `AllocError` if memory runs out.
pub fn list_arguments<'a>(
    alloc: Global,
    given: &ArgMatches<'a>,
) -> Result<ListArguments<'a>, AllocError> {
    Ok(ListArguments {
        table: table_arguments(given, given.get_str("FILE"), !given.get_flag("strict")),
        prefix: keys_of_option(alloc, given, "prefix")?,
        text: given.get_str("text"),
        next: given.get_flag("next"),
        sort: sort_of(given),
        json: given.get_str("format") == Some("json"),
    })
}

/// Returns the order that is asked for.
fn sort_of(given: &ArgMatches<'_>) -> ListSort {
    match given.get_str("sort") {
        Some("text") => ListSort::Text,
        Some("file") => ListSort::File,
        _ => ListSort::Keys,
    }
}

/// The arguments of `list --as`.
#[derive(Clone, Copy, Debug)]
pub struct ListAsArguments<'a> {
    /// The reader.
    pub reader: TableReader,
    /// The path of the Compose file, if it is given.
    pub file: Option<&'a str>,
    /// The folder of the system's tables.
    pub system: Option<&'a str>,
    /// The name of a locale.
    pub locale: Option<&'a str>,
}

/// Another reader of Compose files.
#[derive(Clone, Copy, Debug, PartialEq, Eq)]
pub enum TableReader {
    /// libxkbcommon 1.5.
    Libxkbcommon1_5,
    /// libxkbcommon 1.7.
    Libxkbcommon1_7,
}

/// Returns the arguments of `list --as`, if a reader is given. O(1).
pub(crate) fn list_as_arguments<'a>(given: &ArgMatches<'a>) -> Option<ListAsArguments<'a>> {
    Some(ListAsArguments {
        reader: reader_of(given.get_str("as")?),
        file: given.get_str("FILE"),
        system: given.get_str("system"),
        locale: given.get_str("locale"),
    })
}

/// Returns the reader with this name, which is one of those of the command line; without a version
/// the newest.
fn reader_of(name: &str) -> TableReader {
    match name {
        "libxkbcommon=1.5" => TableReader::Libxkbcommon1_5,
        _ => TableReader::Libxkbcommon1_7,
    }
}
