//! Why an include can't be resolved to a path.
ghost use Rattle.std.specs.Prelude.{◌≡◌};
ghost use Rattle.compose_find.specs.declared.fault.IncludeFault.TheVariants.{NoMemory};

use compose_lex::LexFault;
use std::alloc::{AllocError, AllocFailed};
use thiserror::Error;

/// Why an include can't be resolved to a file.
#[derive(Debug, PartialEq, Eq, Drop, Error)]
pub enum IncludeFault {
    /// The string of the include is not a valid text, for the reason in `fault`.
    #[error("1 Text: {fault}")]
    Text { fault: LexFault },
    /// A percent sign that is not followed by `%`, `S`, `L` or `H`.
    #[error("2 UnknownPercent")]
    UnknownPercent,
    /// `%L`, but no table of a locale is known.
    #[error("3 NoLocale")]
    NoLocale,
    /// `%H`, but no home folder is known.
    #[error("4 NoHome")]
    NoHome,
    /// The same raw text was resolved to another file before.
    #[error("5 TwoFiles")]
    TwoFiles,
    /// The include would add a 65th source.
    #[error("6 TooManySources")]
    TooManySources,
    /// The include is in a file that is eight includes below the root already.
    #[error("7 IncludeDepth")]
    IncludeDepth,
    /// A memory allocation failed.
    #[error("8 NoMemory")]
    NoMemory,
}

impl From<AllocError> for IncludeFault {
    ghost from_gives = { λ _ e. e ≡ NoMemory };

    fn from(_error: AllocError) -> IncludeFault {
        IncludeFault::NoMemory
    }
}

impl<T: Drop> From<AllocFailed<T>> for IncludeFault {
    ghost from_gives = { λ _ e. e ≡ NoMemory };

    fn from(_error: AllocFailed<T>) -> IncludeFault {
        IncludeFault::NoMemory
    }
}
