//! Why a feeder fails.
ghost use Rattle.std.specs.Prelude.{◌≡◌};
ghost use Rattle.compose_wire.specs.declared.fault.WireFault.TheVariants.{NoMemory};

use std::alloc::AllocError;
use thiserror::Error;

/// Why a feeder can't take a piece or return a request.
#[derive(Clone, Copy, Debug, PartialEq, Eq, Drop, Error)]
pub enum WireFault {
    /// The first byte of the next frame is not the kind of a request.
    #[error("1 UnknownKind")]
    UnknownKind,
    /// The length of the next frame doesn't fit its kind.
    #[error("2 BadLength")]
    BadLength,
    /// The next frame is a load with a payload of more than 8,388,608 bytes.
    #[error("3 TooLong")]
    TooLong,
    /// A memory allocation failed.
    #[error("4 NoMemory")]
    NoMemory,
}

impl From<AllocError> for WireFault {
    ghost from_gives = { λ _ fault. fault ≡ NoMemory };

    fn from(_error: AllocError) -> WireFault {
        WireFault::NoMemory
    }
}
