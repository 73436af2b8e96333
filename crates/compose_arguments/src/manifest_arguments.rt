//! The arguments of `manifest`.
use clap::ArgMatches;

/// The arguments of `manifest`.
#[derive(Clone, Copy)]
pub struct ManifestArguments<'a> {
    /// The folder of the system's tables.
    pub system: Option<&'a str>,
    /// The name of a locale.
    pub locale: Option<&'a str>,
    /// The folder below which an include's absolute path is looked for first.
    pub root: Option<&'a str>,
    /// The path of the Compose file, if it is given.
    pub file: Option<&'a str>,
}

/// Returns the arguments of `manifest`.
pub fn manifest_arguments<'a>(given: &ArgMatches<'a>) -> ManifestArguments<'a> {
    ManifestArguments {
        system: given.get_str("system"),
        locale: given.get_str("locale"),
        root: given.get_str("root"),
        file: given.get_str("FILE"),
    }
}
