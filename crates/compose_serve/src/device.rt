//! Readers and writers of std, as the sources of a pull and the targets of a push.
use crate::streams::{Failed, Pull, Push};
use std::io::{ErrorKind, Read, Write};

/// A reader or a writer, with a mark whether it failed.
///
/// A call that the system interrupted is repeated, and is not a failure.
#[derive(Drop)]
pub struct Device<D> {
    inner: D,
    failed: bool,
}

impl<D> Device<D> {
    ghost use Rattle.std.specs.Prelude.{◌≡◌, false, true};

    /// Makes a device that is not marked as failed. O(1).
    pub fn new(inner: D) -> Device<D>
        ensures { result ≡ record { inner = inner; failed = false } }
    {
        Device {
            inner,
            failed: false,
        }
    }

    /// Marks the device as failed.
    fn fail(&mut self) -> Failed
        ensures { self.new ≡ record self.old { failed = true } }
    {
        self.failed = true;
        Failed
    }
}

impl<D: Read> Pull for Device<D> {
    ghost left = { λ d. D.remaining d.inner };

    ghost failed = { λ d. d.failed };

    /// Calls `read` once. A failed read marks the device.
    fn pull(&mut self, piece: &mut [u8]) -> Result<usize, Failed> {
        'reads: for _ in 0..u64::MAX {
            match self.inner.read(piece) {
                Ok(count) => return Ok(count),
                Err(error) if error.kind() == ErrorKind::Interrupted => {}
                Err(_) => return Err(self.fail()),
            }
        }
        Err(self.fail())
    }
}

impl<D: Write> Push for Device<D> {
    ghost written = { λ d. D.contents d.inner };

    ghost failed = { λ d. d.failed };

    /// Calls `write` once. A write that fails or takes no bytes marks the device.
    fn push(&mut self, piece: &[u8]) -> Result<usize, Failed> {
        'writes: for _ in 0..u64::MAX {
            match self.inner.write(piece) {
                Ok(0) if !piece.is_empty() => return Err(self.fail()),
                Ok(taken) => return Ok(taken),
                Err(error) if error.kind() == ErrorKind::Interrupted => {}
                Err(_) => return Err(self.fail()),
            }
        }
        Err(self.fail())
    }
}
