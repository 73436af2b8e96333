//! Why a request can't be written, and why a feeder fails.
ghost use Rattle.std.specs.Prelude.{◌≡◌};
ghost use Rattle.compose_client.specs.declared.fault.RequestFault.TheVariants as request_faults;
ghost use Rattle.compose_client.specs.declared.fault.ReplyFault.TheVariants as reply_faults;

use std::alloc::AllocError;
use thiserror::Error;

/// Why a request can't be written.
#[derive(Clone, Copy, Debug, PartialEq, Eq, Drop, Error)]
pub enum RequestFault {
    /// It is a load with a payload of more than 8,388,608 bytes.
    #[error("1 TooLong")]
    TooLong,
    /// The memory for its frame could not be allocated.
    #[error("2 NoMemory")]
    NoMemory,
}

impl From<AllocError> for RequestFault {
    ghost from_gives = { λ _ fault. fault ≡ request_faults.NoMemory };

    fn from(_error: AllocError) -> RequestFault {
        RequestFault::NoMemory
    }
}

/// Why a feeder can't take a piece or return a reply.
#[derive(Clone, Copy, Debug, PartialEq, Eq, Drop, Error)]
pub enum ReplyFault {
    /// The first byte of the next frame is not the kind of a reply.
    #[error("1 UnknownKind")]
    UnknownKind,
    /// The length of the next frame doesn't fit its kind.
    #[error("2 BadLength")]
    BadLength,
    /// No reply has the payload of the next frame.
    #[error("3 BadPayload")]
    BadPayload,
    /// A memory allocation failed.
    #[error("4 NoMemory")]
    NoMemory,
}

impl From<AllocError> for ReplyFault {
    ghost from_gives = { λ _ fault. fault ≡ reply_faults.NoMemory };

    fn from(_error: AllocError) -> ReplyFault {
        ReplyFault::NoMemory
    }
}
