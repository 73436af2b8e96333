//! The faults of a header of names.
ghost use Rattle.std.specs.Prelude.{◌≡◌};
ghost use Rattle.keysym_core.specs.declared.fault.NameFault.TheVariants.{NoMemory};

use std::alloc::{AllocError, AllocFailed};
use thiserror::Error;

/// The reason why a header of names is rejected. The first faulty line counts; if one line has
/// several faults, the one with the lowest number does. Lines are counted from 1.
#[derive(Debug, PartialEq, Eq, Drop, Error)]
pub enum NameFault {
    /// The line is not UTF-8.
    #[error("1 NotUtf8 line={line}")]
    NotUtf8 { line: usize },
    /// The line begins with `#define XK_`, but is not a definition.
    #[error("2 BadLine line={line}")]
    BadLine { line: usize },
    /// The value is greater than the greatest keysym, `0x1fffffff`.
    #[error("3 ValueTooLarge line={line}")]
    ValueTooLarge { line: usize },
    /// The name already has another value: from an earlier line, as a core name, or by its form
    /// (`U00E9`, `0xe9`).
    #[error("4 NameConflict line={line}")]
    NameConflict { line: usize },
    /// There are more than 16,384 names, the core names included.
    #[error("5 TooManyNames")]
    TooManyNames,
    /// Memory ran out.
    #[error("6 NoMemory")]
    NoMemory,
}

impl From<AllocError> for NameFault {
    ghost from_gives = { λ _ e. e ≡ NoMemory };

    fn from(_error: AllocError) -> NameFault {
        NameFault::NoMemory
    }
}

impl<T: Drop> From<AllocFailed<T>> for NameFault {
    ghost from_gives = { λ _ e. e ≡ NoMemory };

    fn from(_error: AllocFailed<T>) -> NameFault {
        NameFault::NoMemory
    }
}
