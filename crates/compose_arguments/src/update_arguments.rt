//! The arguments of `update`.
use clap::ArgMatches;

/// The arguments of `update`.
#[derive(Clone, Copy)]
pub struct UpdateArguments<'a> {
    /// The path of the Compose file that is taken into use.
    pub file: &'a str,
    /// The path of the repertoire, the characters that people need with their keys; if it is not
    /// given, they need what they needed before.
    pub repertoire: Option<&'a str>,
    /// The path of the list of intended changes, if it is given.
    pub accept: Option<&'a str>,
    /// Whether the new table is merged into the table in use.
    pub merge: bool,
    /// Where the table in use is kept and served, and how it is taken into use.
    pub taking: TakingArguments<'a>,
    /// The folder of the system's tables, if it is given; otherwise the environment decides.
    pub system: Option<&'a str>,
    /// The name of the locale, if it is given; otherwise the environment decides.
    pub locale: Option<&'a str>,
}

/// Where the table in use is kept and served, and how another one is taken into use.
#[derive(Clone, Copy)]
pub struct TakingArguments<'a> {
    /// The folder in which the table in use is kept, if it is given; otherwise the environment
    /// decides.
    pub state: Option<&'a str>,
    /// The path of the running service's socket, if it is given; otherwise the environment decides.
    pub socket: Option<&'a str>,
    /// The number of seconds for which a running service and other updates are waited for, from 1
    /// to 3,600.
    pub timeout: u32,
    /// Whether nothing is stored, loaded or handed over.
    pub dry_run: bool,
}

/// Returns the arguments of `update`, if none is missing.
pub fn update_arguments<'a>(given: &ArgMatches<'a>) -> Option<UpdateArguments<'a>> {
    Some(UpdateArguments {
        file: given.get_str("FILE")?,
        repertoire: given.get_str("repertoire"),
        accept: given.get_str("accept"),
        merge: given.get_flag("merge"),
        taking: taking_arguments(given)?,
        system: given.get_str("system"),
        locale: given.get_str("locale"),
    })
}

/// Returns where the table in use is kept and served, and how another one is taken into use.
pub fn taking_arguments<'a>(given: &ArgMatches<'a>) -> Option<TakingArguments<'a>> {
    Some(TakingArguments {
        state: given.get_str("state"),
        socket: given.get_str("socket"),
        timeout: given.get_one::<u32>("timeout")?,
        dry_run: given.get_flag("dry-run"),
    })
}
