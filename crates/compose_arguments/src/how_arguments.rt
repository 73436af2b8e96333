//! The arguments of `how`.
use crate::table_arguments::{TableArguments, table_arguments};
use clap::ArgMatches;

/// The arguments of `how`, except the names and the texts.
#[derive(Clone, Copy)]
pub struct HowArguments<'a> {
    /// The table.
    pub table: TableArguments<'a>,
    /// The path of the repertoire with the only keys that can be typed, if it is given.
    pub repertoire: Option<&'a str>,
    /// Whether only the first sequence of each text is printed.
    pub first: bool,
    /// Whether the answer is JSON.
    pub json: bool,
}

/// Returns the arguments of `how`.
pub fn how_arguments<'a>(given: &ArgMatches<'a>) -> HowArguments<'a> {
    HowArguments {
        table: table_arguments(given, given.get_str("from"), !given.get_flag("strict")),
        repertoire: given.get_str("repertoire"),
        first: given.get_flag("first"),
        json: given.get_str("format") == Some("json"),
    }
}
