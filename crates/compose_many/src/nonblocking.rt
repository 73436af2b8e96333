//! Readers and writers of std that do not wait.
use crate::streams::{TryError, TryPull, TryPush};
use std::io::{Error, ErrorKind, Read, Write};

/// A reader or a writer that returns `WouldBlock` instead of waiting, and its mark: the last error
/// since it was made, if there was one.
///
/// A call that the system interrupted is tried again.
#[derive(Drop)]
pub struct Nonblocking<D> {
    inner: D,
    mark: Option<TryError>,
}

impl<D> Nonblocking<D> {
    ghost use Rattle.std.specs.Prelude.{◌≡◌, ◌≢◌, None, Some};
    ghost use Rattle.std.specs.IoError.{error_kind};

    /// Returns a device that is not marked. O(1).
    pub fn new(inner: D) -> Nonblocking<D>
        ensures { result ≡ record { inner = inner; mark = None } }
    {
        Nonblocking { inner, mark: None }
    }

    /// Marks the device by the kind of an error: `WouldBlock` if that is its kind, and `Failed`
    /// otherwise.
    fn stopped(&mut self, error: &Error) -> TryError
        ensures mark { self.new ≡ record self.old { mark = Some result } }
        ensures waits { error_kind error.now ≡ ErrorKind.WouldBlock
            → result ≡ TryError.WouldBlock }
        ensures fails { error_kind error.now ≢ ErrorKind.WouldBlock → result ≡ TryError.Failed }
    {
        if error.kind() == ErrorKind::WouldBlock {
            self.marked(TryError::WouldBlock)
        } else {
            self.marked(TryError::Failed)
        }
    }

    /// Sets the mark, and returns it.
    fn marked(&mut self, why: TryError) -> TryError
        ensures mark { self.new ≡ record self.old { mark = Some why } }
        ensures same { result ≡ why }
    {
        self.mark = Some(why);
        why
    }
}

impl<D: Read> TryPull for Nonblocking<D> {
    ghost left = { λ d. D.remaining d.inner };

    ghost mark = { λ d. d.mark };

    /// Reads once, and again if the call was interrupted. Errors: `WouldBlock` if the read would
    /// wait, `Failed` at any other error. Either is its mark from then on.
    fn try_pull(&mut self, piece: &mut [u8]) -> Result<usize, TryError> {
        'reads: for _ in 0..u64::MAX {
            match self.inner.read(piece) {
                Ok(count) => return Ok(count),
                Err(error) if error.kind() == ErrorKind::Interrupted => {}
                Err(error) => return Err(self.stopped(&error)),
            }
        }
        Err(self.marked(TryError::Failed))
    }
}

impl<D: Write> TryPush for Nonblocking<D> {
    ghost written = { λ d. D.contents d.inner };

    ghost mark = { λ d. d.mark };

    /// Writes once, and again if the call was interrupted. Errors: `WouldBlock` if the write would
    /// wait, `Failed` at any other error, or if it takes no bytes of a piece that has some. Either
    /// is its mark from then on.
    fn try_push(&mut self, piece: &[u8]) -> Result<usize, TryError> {
        'writes: for _ in 0..u64::MAX {
            match self.inner.write(piece) {
                Ok(0) if !piece.is_empty() => return Err(self.marked(TryError::Failed)),
                Ok(taken) => return Ok(taken),
                Err(error) if error.kind() == ErrorKind::Interrupted => {}
                Err(error) => return Err(self.stopped(&error)),
            }
        }
        Err(self.marked(TryError::Failed))
    }
}
