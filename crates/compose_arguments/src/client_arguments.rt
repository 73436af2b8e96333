//! The arguments of `load` and `session`.
use crate::given_tables::{TypeTable, table_named};
use crate::name_lists::argument_keys;
use clap::ArgMatches;
use std::alloc::{AllocError, Global};

/// The arguments of `load`.
#[derive(Clone, Copy)]
pub struct LoadArguments<'a> {
    /// The path of the service's socket.
    pub socket: &'a str,
    /// The new table.
    pub new: TypeTable<'a>,
    /// The path of the certificate.
    pub certificate: &'a str,
}

/// The arguments of `session`.
#[derive(Drop)]
pub struct SessionArguments<'a> {
    /// The path of the service's socket.
    pub socket: &'a str,
    /// Whether keys are written as for Compose files; the names are then the built-in ones, unless
    /// others are given.
    pub files: bool,
    /// The number of the session.
    pub session: u32,
    /// Whether the session is opened first.
    pub open: bool,
    /// Whether its compose state is reset before the keys.
    pub reset: bool,
    /// The names of the keysyms, or with `files` the keys as they are written.
    pub keys: Vec<&'a str>,
    /// Whether its state is asked for after the keys.
    pub ask: bool,
    /// Whether the session is closed at the end.
    pub close: bool,
}

/// Returns the arguments of `load`, if none is missing.
pub fn load_arguments<'a>(given: &ArgMatches<'a>) -> Option<LoadArguments<'a>> {
    Some(LoadArguments {
        socket: given.get_str("SOCKET")?,
        new: table_named(given, "NEW", false)?,
        certificate: given.get_str("CERTIFICATE")?,
    })
}

/// Returns the arguments of `session`, or `None` if one is missing.
/// Errors: `AllocError` if memory runs out.
pub fn session_arguments<'a>(
    alloc: Global,
    given: &ArgMatches<'a>,
) -> Result<Option<SessionArguments<'a>>, AllocError> {
    let (Some(socket), Some(session)) = (given.get_str("SOCKET"), given.get_one::<u32>("NUMBER"))
    else {
        return Ok(None);
    };
    let files = given.get_flag("files");
    let keys = argument_keys(alloc, files, given.get_strs("KEY").unwrap_or(&[]))?;
    Ok(Some(SessionArguments {
        socket,
        files,
        session,
        open: given.get_flag("open"),
        reset: given.get_flag("reset"),
        keys,
        ask: given.get_flag("ask"),
        close: given.get_flag("close"),
    }))
}
