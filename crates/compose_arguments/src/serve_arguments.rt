//! The arguments of `serve`.
use crate::given_tables::{TypeTable, table_named};
use clap::ArgMatches;

/// The table that a service starts with.
#[derive(Clone, Copy)]
pub enum Served<'a> {
    /// A table with a repertoire and a certificate.
    Files(ServedFiles<'a>),
    /// The table that is kept in a folder.
    State {
        /// The path of the folder; if it is empty, the environment decides.
        folder: &'a str,
    },
}

/// A table with a repertoire and a certificate.
#[derive(Clone, Copy)]
pub struct ServedFiles<'a> {
    /// The table.
    pub table: TypeTable<'a>,
    /// The path of the repertoire.
    pub repertoire: &'a str,
    /// The path of the certificate of the table against itself.
    pub certificate: &'a str,
}

/// The arguments of `serve`.
#[derive(Clone, Copy)]
pub struct ServeArguments<'a> {
    /// The table that the service starts with.
    pub served: Served<'a>,
    /// The path of the socket.
    pub socket: &'a str,
    /// The number of connections after which it ends, at least 1.
    pub connections: u32,
    /// The number of connections served at once, from 1 to 1,024; if it is not given, one is served
    /// after another.
    pub at_once: Option<u16>,
    /// The number of unsent bytes of replies at which no more requests of a connection are
    /// answered, at least 1; used if connections are served at once.
    pub unsent: u32,
    /// The number of seconds for which a connection may be idle, at least 1; if it is not given,
    /// there is no limit.
    pub idle: Option<u32>,
    /// Whether a session is closed when the connection on which it was opened ends.
    pub own_sessions: bool,
    /// The mode of the socket's file.
    pub mode: u32,
    /// Whether a socket on which nobody listens is replaced.
    pub replace: bool,
    /// Whether the socket's file is removed at the end.
    pub unlink: bool,
}

/// Returns the arguments of `serve`, if none is missing.
pub fn serve_arguments<'a>(given: &ArgMatches<'a>) -> Option<ServeArguments<'a>> {
    let (served, socket) = served_on(given)?;
    Some(ServeArguments {
        served,
        socket,
        connections: connections_of(given)?,
        at_once: given.get_one::<u16>("at-once"),
        unsent: given.get_one::<u32>("unsent")?,
        idle: given.get_one::<u32>("idle"),
        own_sessions: given.get_flag("own-sessions"),
        mode: mode_of(given.get_str("mode")?),
        replace: given.get_flag("replace"),
        unlink: given.get_flag("unlink"),
    })
}

/// Returns the table that is served, and the path of the socket, which with `--state` is the first
/// positional argument.
fn served_on<'a>(given: &ArgMatches<'a>) -> Option<(Served<'a>, &'a str)> {
    if let Some(folder) = given.get_str("state") {
        return Some((Served::State { folder }, given.get_str("TABLE")?));
    }
    let files = ServedFiles {
        table: table_named(given, "TABLE", false)?,
        repertoire: given.get_str("REPERTOIRE")?,
        certificate: given.get_str("CERTIFICATE")?,
    };
    Some((Served::Files(files), given.get_str("SOCKET")?))
}

/// Returns the number of connections after which the service ends; with `--state`, 2³² - 1.
fn connections_of(given: &ArgMatches<'_>) -> Option<u32> {
    if given.get_str("state").is_some() {
        return Some(u32::MAX);
    }
    Some(u32::from(given.get_one::<u16>("CONNECTIONS")?))
}

/// Returns the mode that `--mode` has as this argument.
fn mode_of(argument: &str) -> u32 {
    match argument {
        "666" => 0o666,
        "660" => 0o660,
        _ => 0o600,
    }
}
