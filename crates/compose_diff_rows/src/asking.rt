//! The input of `diff`, and why it has no answer.
use compose_answer::Refusal;
use compose_diff::AcceptFault;
use compose_migration::MigrationInput;
use compose_page::Markup;
use std::alloc::{AllocError, AllocFailed};
use thiserror::Error;

/// The form in which the rows that are not accepted are printed.
#[derive(Clone, Copy, Debug, PartialEq, Eq)]
pub enum Form {
    /// As lines, with one line for rows that belong together, and a line of counts.
    Folded,
    /// As a line for each row, and a line of counts.
    Lines,
    /// As a JSON object for each row, also for those that are kept.
    Json,
    /// As the list that accepts them.
    AcceptList,
    /// As a page that people read, in this markup language; `folds` is whether some of its parts
    /// are folded.
    Page { markup: Markup, folds: bool },
}

/// The input of `diff`.
#[derive(Clone, Copy)]
pub struct DiffInput<'a, 'w> {
    /// The names, the key names of the fresh keysyms, and the sources of both tables.
    pub tables: MigrationInput<'a, 'w>,
    /// The path of each source of the old table, in the order of the sources.
    pub old_paths: &'a [&'a str],
    /// The path of each source of the new table, in the order of the sources.
    pub new_paths: &'a [&'a str],
    /// The list of intended changes.
    pub accepted: &'a [u8],
    /// Whether only the rows are printed whose text no sequence of the new table gives.
    pub lost_alone: bool,
    /// The form in which the other rows are printed.
    pub form: Form,
}

/// Why `diff` has no answer.
#[derive(Debug, PartialEq, Eq, Drop, Error)]
pub enum DiffFault {
    /// A part of the input is refused, or memory ran out.
    #[error("{0}")]
    Input(Refusal),
    /// The list of intended changes is refused.
    #[error("refused: accept: {0}")]
    Accept(AcceptFault),
}

impl From<Refusal> for DiffFault {
    ghost use Rattle.std.specs.Prelude.{◌≡◌};
    ghost use Rattle.compose_diff_rows.specs.declared.asking.DiffFault.TheVariants.{Input};

    ghost from_gives = { λ refusal e. e ≡ Input refusal };

    fn from(refusal: Refusal) -> DiffFault {
        DiffFault::Input(refusal)
    }
}

impl From<AcceptFault> for DiffFault {
    ghost use Rattle.std.specs.Prelude.{◌≡◌};
    ghost use Rattle.compose_diff_rows.specs.Steps.{accept_raised};

    ghost from_gives = { λ fault e. e ≡ accept_raised fault };

    fn from(fault: AcceptFault) -> DiffFault {
        match fault {
            AcceptFault::NoMemory => DiffFault::Input(Refusal::NoMemory),
            fault => DiffFault::Accept(fault),
        }
    }
}

impl From<AllocError> for DiffFault {
    ghost use Rattle.std.specs.Prelude.{◌≡◌};
    ghost use Rattle.compose_migration.specs.declared.refusal.Refusal.TheVariants.{NoMemory};
    ghost use Rattle.compose_diff_rows.specs.declared.asking.DiffFault.TheVariants.{Input};

    ghost from_gives = { λ _ e. e ≡ Input NoMemory };

    fn from(_error: AllocError) -> DiffFault {
        DiffFault::Input(Refusal::NoMemory)
    }
}

impl<T: Drop> From<AllocFailed<T>> for DiffFault {
    ghost use Rattle.std.specs.Prelude.{◌≡◌};
    ghost use Rattle.compose_migration.specs.declared.refusal.Refusal.TheVariants.{NoMemory};
    ghost use Rattle.compose_diff_rows.specs.declared.asking.DiffFault.TheVariants.{Input};

    ghost from_gives = { λ _ e. e ≡ Input NoMemory };

    fn from(_error: AllocFailed<T>) -> DiffFault {
        DiffFault::Input(Refusal::NoMemory)
    }
}
