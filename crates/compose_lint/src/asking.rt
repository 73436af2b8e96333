//! The input of `lint`, and its errors.
use crate::reader::Readers;
use compose_answer::Refusal;
use compose_diff::AcceptFault;
use compose_read::Sources;
use std::alloc::{AllocError, AllocFailed};
use thiserror::Error;

/// How findings are printed.
#[derive(Clone, Copy, Debug, PartialEq, Eq)]
pub enum LintForm {
    /// A line for each, `PATH:LINE:COLUMN: KIND: SENTENCE`.
    Lines,
    /// A JSON object for each, and one with their counts.
    Json,
    /// The list that accepts them.
    AcceptList,
}

/// A table: its sources, and the path of each source's file.
#[derive(Clone, Copy)]
pub struct LintTable<'a> {
    /// The sources of the table.
    pub sources: &'a Sources<'a>,
    /// The path of each source's file, in the order of the sources.
    pub paths: &'a [&'a str],
    /// Whether faulty lines are skipped, and so are not findings.
    pub skip_faulty: bool,
}

/// The input of `lint`.
#[derive(Clone, Copy)]
pub struct LintInput<'a> {
    /// The names of keysyms, as the bytes of a C header.
    pub header: &'a [u8],
    /// The tables.
    pub tables: &'a [LintTable<'a>],
    /// The readers whose findings are wanted.
    pub readers: Readers,
    /// Whether lines are also compared with the lines of included files.
    pub is_all: bool,
    /// The list of accepted findings.
    pub accepted: &'a [u8],
    /// How the other findings are printed.
    pub form: LintForm,
}

/// Why `lint` has no answer.
#[derive(Debug, PartialEq, Eq, Drop, Error)]
pub enum LintFault {
    /// The names are refused, or memory ran out.
    #[error("{0}")]
    Input(Refusal),
    /// The list of accepted findings is refused.
    #[error("refused: accept: {0}")]
    Accept(AcceptFault),
}

impl From<AcceptFault> for LintFault {
    ghost use Rattle.std.specs.Prelude.{◌≡◌};
    ghost use Rattle.compose_lint.specs.Raised.{accept_raised};

    ghost from_gives = { λ fault e. e ≡ accept_raised fault };

    fn from(fault: AcceptFault) -> LintFault {
        match fault {
            AcceptFault::NoMemory => LintFault::Input(Refusal::NoMemory),
            fault => LintFault::Accept(fault),
        }
    }
}

impl From<AllocError> for LintFault {
    ghost use Rattle.std.specs.Prelude.{◌≡◌};
    ghost use Rattle.compose_migration.specs.declared.refusal.Refusal.TheVariants.{NoMemory};
    ghost use Rattle.compose_lint.specs.declared.asking.LintFault.TheVariants.{Input};

    ghost from_gives = { λ _ e. e ≡ Input NoMemory };

    fn from(_error: AllocError) -> LintFault {
        LintFault::Input(Refusal::NoMemory)
    }
}

impl<T: Drop> From<AllocFailed<T>> for LintFault {
    ghost use Rattle.std.specs.Prelude.{◌≡◌};
    ghost use Rattle.compose_migration.specs.declared.refusal.Refusal.TheVariants.{NoMemory};
    ghost use Rattle.compose_lint.specs.declared.asking.LintFault.TheVariants.{Input};

    ghost from_gives = { λ _ e. e ≡ Input NoMemory };

    fn from(_error: AllocFailed<T>) -> LintFault {
        LintFault::Input(Refusal::NoMemory)
    }
}
