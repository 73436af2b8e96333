//! A client of a network in memory: the bytes that it sends, those that have arrived, and the
//! replies that it has taken.
ghost use Rattle.std.specs.Prelude.{◌≡◌, ◌≤◌, length, IfOk};

use crate::chance::Chance;
use std::alloc::Global;
use std::io;
use std::io::ErrorKind;

/// A client and its stream.
#[derive(Drop)]
pub struct TestClient {
    /// All bytes of it that arrive.
    pub sends: Vec<u8>,
    /// Whether its stream breaks after these bytes, and does not just end.
    pub breaks: bool,
    /// The number of bytes of replies after which it takes no more, and its stream is broken.
    pub takes: usize,
    /// The bytes of replies that it has taken.
    pub taken: Vec<u8>,
    /// The key under which it is reported while it is served.
    pub key: Option<usize>,
    come: usize,
    is_over: bool,
    read: usize,
    room: usize,
}

impl TestClient {
    /// Makes a client of which no bytes have arrived.
    pub fn new(alloc: Global, sends: Vec<u8>, breaks: bool, takes: usize) -> TestClient {
        TestClient {
            sends,
            breaks,
            takes,
            taken: Vec::new(alloc),
            key: None,
            come: 0,
            is_over: false,
            read: 0,
            room: 0,
        }
    }

    /// Whether all of its bytes have arrived, and it takes all that it will take.
    pub fn is_done(&self) -> bool {
        self.is_over && self.room >= self.takes
    }

    /// Lets more bytes arrive, and lets it take more.
    pub fn go_on(&mut self, chance: &mut Chance) {
        let rest = self.sends.len().saturating_sub(self.come);
        let more = chance.below(rest.saturating_add(1));
        self.come = self.come.saturating_add(more);
        self.is_over = self.is_over || self.come >= self.sends.len();
        let taken = if chance.once_in(4) {
            self.takes
        } else {
            chance.below(60)
        };
        self.room = self.room.saturating_add(taken);
    }

    /// Reads the next bytes that have arrived, a random number of them. `Err(WouldBlock)` if none
    /// are there yet, `Err(ConnectionReset)` once the stream is broken.
    pub fn read(&mut self, chance: &mut Chance, piece: &mut [u8]) -> io::Result<usize>
        ensures { IfOk result (λ n. n ≤ length piece.new) }
    {
        let Some(rest) = self.sends.get(self.read..self.come) else {
            return Err(io::Error::from(ErrorKind::ConnectionReset));
        };
        if rest.is_empty() {
            return self.read_end();
        }
        let most = chance.below(rest.len()).saturating_add(1);
        let count = most.min(rest.len()).min(piece.len());
        piece[..count].copy_from_slice(&rest[..count]);
        self.read = self.read.saturating_add(count);
        Ok(count)
    }

    /// Returns the result of a read after all bytes that have arrived were read.
    fn read_end(&self) -> io::Result<usize>
        ensures { IfOk result (λ n. n ≡ 0) }
    {
        if !self.is_over {
            return Err(io::Error::from(ErrorKind::WouldBlock));
        }
        if self.breaks {
            return Err(io::Error::from(ErrorKind::ConnectionReset));
        }
        Ok(0)
    }

    /// Takes the first bytes, a random number of them. `Err(WouldBlock)` if it takes none yet,
    /// `Err(BrokenPipe)` once it takes no more; an error of memory if that runs out.
    pub fn write(&mut self, chance: &mut Chance, piece: &[u8]) -> io::Result<usize>
        ensures { IfOk result (λ n. n ≤ length piece.now) }
    {
        let taken = self.taken.len();
        if taken >= self.takes {
            return Err(io::Error::from(ErrorKind::BrokenPipe));
        }
        let room = self.room.min(self.takes).saturating_sub(taken);
        if room == 0 {
            return Err(io::Error::from(ErrorKind::WouldBlock));
        }
        let most = chance.below(room).saturating_add(1);
        let count = most.min(piece.len());
        self.taken.extend_from_slice(&piece[..count])?;
        Ok(count)
    }
}
