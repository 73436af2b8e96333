//! Why a walk has no answer.
use compose_fresh::CheckFault;
use std::alloc::{AllocError, AllocFailed};
use thiserror::Error;

/// Why a walk has no answer.
#[derive(Debug, PartialEq, Eq, Drop, Error)]
pub enum MakeFault {
    /// Memory ran out.
    #[error("1 NoMemory")]
    NoMemory,
    /// The fresh keysyms are not in rising order, or one of them is ignored or occurs in the old
    /// table.
    #[error("2 BadFresh: {0}")]
    BadFresh(CheckFault),
    /// There are more than 1,048,576 fresh keysyms.
    #[error("3 TooManyFresh")]
    TooManyFresh,
}

impl From<AllocError> for MakeFault {
    ghost use Rattle.std.specs.Prelude.{◌≡◌};
    ghost use Rattle.compose_walk.specs.declared.fault.MakeFault.TheVariants.{NoMemory};

    ghost from_gives = { λ _ e. e ≡ NoMemory };

    fn from(_error: AllocError) -> MakeFault {
        MakeFault::NoMemory
    }
}

impl<T: Drop> From<AllocFailed<T>> for MakeFault {
    ghost use Rattle.std.specs.Prelude.{◌≡◌};
    ghost use Rattle.compose_walk.specs.declared.fault.MakeFault.TheVariants.{NoMemory};

    ghost from_gives = { λ _ e. e ≡ NoMemory };

    fn from(_error: AllocFailed<T>) -> MakeFault {
        MakeFault::NoMemory
    }
}
