//! The arguments of a command on one Compose file.
use clap::ArgMatches;

/// A Compose file, and where its includes are looked for.
#[derive(Clone, Copy)]
pub struct TableArguments<'a> {
    /// The path of the Compose file, if it is given.
    pub file: Option<&'a str>,
    /// Whether overlapping sequences are refused; if not, the longest one is taken.
    pub refuse_overlaps: bool,
    /// Whether faulty lines are skipped.
    pub skip_faulty: bool,
    /// The folder of the system's tables.
    pub system: Option<&'a str>,
    /// The name of a locale.
    pub locale: Option<&'a str>,
    /// The folder below which an include's absolute path is looked for first.
    pub root: Option<&'a str>,
}

/// Returns the arguments about the Compose file at this path.
pub fn table_arguments<'a>(
    given: &ArgMatches<'a>,
    file: Option<&'a str>,
    skip_faulty: bool,
) -> TableArguments<'a> {
    TableArguments {
        file,
        refuse_overlaps: given.get_str("overlap") == Some("refuse"),
        skip_faulty,
        system: given.get_str("system"),
        locale: given.get_str("locale"),
        root: given.get_str("root"),
    }
}
