//! How a stream ends.
use thiserror::Error;

/// How a stream ended.
#[derive(Clone, Copy, Debug, PartialEq, Eq, Drop)]
pub enum StreamEnd {
    /// The input ended after a whole frame, or had none.
    InputEnd,
    /// A faulty frame came. It was answered with refusal 10.
    Malformed,
}

/// Why a stream was aborted.
#[derive(Clone, Copy, Debug, PartialEq, Eq, Drop, Error)]
pub enum ServeFault {
    /// A read failed.
    #[error("1 Read")]
    Read,
    /// A write failed, or took no bytes.
    #[error("2 Write")]
    Write,
    /// The input ended in the middle of a frame.
    #[error("3 Cut")]
    Cut,
    /// Another frame came after 16,777,216 of them.
    #[error("4 TooManyFrames")]
    TooManyFrames,
    /// There was no memory for a piece that was read, or for the payload of a load.
    #[error("5 NoMemory")]
    NoMemory,
}
