//! The arguments of `status`.
use clap::ArgMatches;

/// The arguments of `status`.
#[derive(Clone, Copy)]
pub struct StatusArguments<'a> {
    /// The folder in which the table in use is kept, if it is given; otherwise the environment
    /// decides.
    pub state: Option<&'a str>,
    /// The path of the running service's socket, if it is given; otherwise the environment decides.
    pub socket: Option<&'a str>,
    /// The form of what is printed.
    pub form: StatusForm,
}

/// The form of what `status` prints.
#[derive(Clone, Copy, Debug, PartialEq, Eq, Drop)]
pub enum StatusForm {
    /// Lines for people.
    Lines,
    /// A JSON object on one line.
    Json,
}

/// Returns the arguments of `status`.
pub fn status_arguments<'a>(given: &ArgMatches<'a>) -> StatusArguments<'a> {
    StatusArguments {
        state: given.get_str("state"),
        socket: given.get_str("socket"),
        form: match given.get_str("format") {
            Some("json") => StatusForm::Json,
            _ => StatusForm::Lines,
        },
    }
}
