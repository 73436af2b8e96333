//! The answer of a command, and how it ends.
ghost use Rattle.std.specs.Prelude.{◌≡◌};
ghost use Rattle.compose_answer.specs.Ends.{end_of, status_of};

use compose_check::CheckFault;
use compose_migration::Refusal;
use keysym_core::{Keysym, ShownKeysym};
use std::fmt;

/// A command's answer, on standard output.
#[derive(Debug, PartialEq, Eq, Drop)]
pub enum Answer {
    /// Yes: the certificate is valid or was made, the new table follows, or keys were typed. This
    /// text is printed.
    Yes(String),
    /// No: the tables differ, or a character can't be typed. This text is printed.
    No(String),
    /// The certificate is not valid: the first condition that it does not meet, which is printed
    /// after `no: `.
    Invalid(CheckFault),
    /// The certificate is valid, but this fresh keysym of it is not among those that are allowed;
    /// it is the first such one.
    FreshNotAllowed(Keysym),
}

impl fmt::Display for Answer {
    ghost use Rattle.compose_answer.specs.Ends.{printed_text};

    ghost output = { λ answer. printed_text answer };

    fn fmt<W: fmt::Write>(&self, f: &mut fmt::Formatter<W>) -> fmt::Result {
        match self {
            Answer::Yes(text) => f.write_str(text),
            Answer::No(text) => f.write_str(text),
            Answer::Invalid(fault) => writeln!(f, "no: {fault}"),
            Answer::FreshNotAllowed(keysym) => {
                let keysym = ShownKeysym(*keysym);
                writeln!(f, "no: 16 FreshNotAllowed keysym={keysym}")
            }
        }
    }
}

/// How a command ends, in the order of the exit statuses.
#[derive(Clone, Copy, Debug, PartialEq, Eq, Drop)]
pub enum Ended {
    /// Yes: a valid certificate, one that was made, a table that follows, or keys that were typed.
    Yes,
    /// No: a certificate that is not valid, or lists a fresh keysym that is not allowed; tables
    /// that differ; or a character that can't be typed.
    No,
    /// The input is refused.
    Refused,
    /// Memory ran out.
    NoMemory,
}

impl Ended {
    /// Returns how a command with this answer, or without one, ends.
    pub fn of(answered: &Result<Answer, Refusal>) -> Ended
        ensures { result ≡ end_of answered.now }
    {
        match answered {
            Ok(Answer::Yes(_)) => Ended::Yes,
            Ok(_) => Ended::No,
            Err(Refusal::NoMemory) => Ended::NoMemory,
            Err(_) => Ended::Refused,
        }
    }

    /// Returns the exit status: 0 for yes, 1 for no, 2 if the input is refused, 3 if memory ran
    /// out.
    pub fn status(self) -> u8
        ensures { result ≡ status_of self }
    {
        self as u8
    }
}
