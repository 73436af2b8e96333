//! The command that the command line names.
use crate::client_arguments::{LoadArguments, SessionArguments, load_arguments, session_arguments};
use crate::command_line::command_line;
use crate::name_lists::{fresh_names, given_fresh_names};
use crate::question::{Question, question_of};
use crate::serve_arguments::{ServeArguments, serve_arguments};
use crate::status_arguments::{StatusArguments, status_arguments};
use crate::update_arguments::{
    TakingArguments, UpdateArguments, taking_arguments, update_arguments,
};
use clap::error::ErrorKind;
use clap::{ArgMatches, Command, Error};
use std::alloc::{AllocError, Global};

/// The command that the command line names.
#[derive(Drop)]
pub enum CommandRequest<'a> {
    /// A command that reads files and answers.
    Answer(Question<'a>),
    /// `update`: takes a Compose file into use.
    Update {
        /// The other arguments.
        arguments: UpdateArguments<'a>,
        /// The keys in `--fresh`.
        fresh: Vec<&'a str>,
    },
    /// `update --back`: takes the table before the last change into use.
    TakeBack(TakingArguments<'a>),
    /// `status`: prints which table is in use.
    Status(StatusArguments<'a>),
    /// `serve`: serves typing sessions on a socket.
    Serve {
        /// The other arguments.
        arguments: ServeArguments<'a>,
        /// The keys in `--fresh`, if it is given.
        fresh: Option<Vec<&'a str>>,
    },
    /// `load`: loads a table into a running service.
    Load(LoadArguments<'a>),
    /// `session`: types in a session of a running service.
    Session(SessionArguments<'a>),
}

/// The arguments of the command line.
#[derive(Drop)]
pub struct CommandLine<'a> {
    /// The arguments of each `--names`: the path of a header of names, or `builtin`.
    pub names: Vec<&'a str>,
    /// Whether details of a refusal are printed.
    pub verbose: bool,
    /// The command and its arguments.
    pub request: CommandRequest<'a>,
}

/// Reads these arguments, the first of which is the program's name. O(bytes of the arguments).
/// Errors: clap's error, which is the help, the version, why the arguments are refused, or that
/// memory ran out.
pub fn read_command_line<'a>(
    alloc: Global,
    arguments: &'a [String],
) -> Result<CommandLine<'a>, Error> {
    let matches = command_line(alloc)?.try_get_matches_from(arguments)?;
    arguments_found(alloc, &matches)
}

/// Reads the parsed arguments.
fn arguments_found<'a>(alloc: Global, matches: &ArgMatches<'a>) -> Result<CommandLine<'a>, Error> {
    let names = names_of(alloc, matches)?;
    match request_of(alloc, matches)? {
        Some(request) => Ok(CommandLine {
            names,
            verbose: is_verbose(matches),
            request,
        }),
        None => Err(no_request(alloc)?),
    }
}

/// Returns the arguments of each `--names` of the parsed command.
fn names_of<'a>(alloc: Global, matches: &ArgMatches<'a>) -> Result<Vec<&'a str>, AllocError> {
    let Some((_, given)) = matches.subcommand() else {
        return Ok(Vec::new(alloc));
    };
    match given.get_strs("names") {
        Some(names) => Ok(Vec::from_slice(alloc, names)?),
        None => Ok(Vec::new(alloc)),
    }
}

/// Returns whether the parsed command has `--verbose`.
fn is_verbose(matches: &ArgMatches<'_>) -> bool {
    match matches.subcommand() {
        Some((_, given)) => given.get_flag("verbose"),
        None => false,
    }
}

/// Returns the error for a missing argument that clap has let pass.
fn no_request(alloc: Global) -> Result<Error, AllocError> {
    let mut command = command_line(alloc)?;
    missing_word(&mut command)
}

/// Returns the error that a word is missing.
fn missing_word(command: &mut Command<'_>) -> Result<Error, AllocError> {
    command.error(ErrorKind::MissingRequiredArgument, "a word is missing")
}

/// Returns the request of the parsed command, if no argument is missing.
fn request_of<'a>(
    alloc: Global,
    matches: &ArgMatches<'a>,
) -> Result<Option<CommandRequest<'a>>, AllocError> {
    let Some((command, given)) = matches.subcommand() else {
        return Ok(None);
    };
    match command {
        "update" => update_request(alloc, given),
        "status" => Ok(Some(CommandRequest::Status(status_arguments(given)))),
        "serve" => serve_request(alloc, given),
        "load" => Ok(load_arguments(given).map(CommandRequest::Load)),
        "session" => session_request(alloc, given),
        _ => Ok(question_of(alloc, command, given)?.map(CommandRequest::Answer)),
    }
}

/// Returns the request of `serve`.
fn serve_request<'a>(
    alloc: Global,
    given: &ArgMatches<'a>,
) -> Result<Option<CommandRequest<'a>>, AllocError> {
    let Some(arguments) = serve_arguments(given) else {
        return Ok(None);
    };
    Ok(Some(CommandRequest::Serve {
        arguments,
        fresh: given_fresh_names(alloc, given, serves_files(given))?,
    }))
}

/// Returns whether the table that `serve` begins with is of Compose files: one that is given with
/// `--files`, or that of `--state`.
fn serves_files(given: &ArgMatches<'_>) -> bool {
    given.get_flag("files") || given.get_str("state").is_some()
}

/// Returns the request of `session`.
fn session_request<'a>(
    alloc: Global,
    given: &ArgMatches<'a>,
) -> Result<Option<CommandRequest<'a>>, AllocError> {
    Ok(session_arguments(alloc, given)?.map(CommandRequest::Session))
}

/// Returns the request of `update`.
fn update_request<'a>(
    alloc: Global,
    given: &ArgMatches<'a>,
) -> Result<Option<CommandRequest<'a>>, AllocError> {
    if given.get_flag("back") {
        return Ok(taking_arguments(given).map(CommandRequest::TakeBack));
    }
    let Some(arguments) = update_arguments(given) else {
        return Ok(None);
    };
    Ok(Some(CommandRequest::Update {
        arguments,
        fresh: fresh_names(alloc, given, true)?,
    }))
}
