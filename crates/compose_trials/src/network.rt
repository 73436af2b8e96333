//! A network in memory: sockets that delay, split and cut at any byte, and fail to accept, as a
//! seed determines.
ghost use Rattle.std.specs.Prelude.{◌≤◌, length, IfOk, None};

use crate::chance::Chance;
use compose_hub::{Interest, Readiness, Ready, SocketCalls};
use std::cell::RefCell;
use std::io;
use std::io::{ErrorKind, Read, Write};
use std::time::Duration;

pub mod client;
pub mod schedule;

use client::TestClient;

/// The clients, and the random numbers that determine what happens to their streams.
#[derive(Drop)]
struct Clients {
    clients: Vec<TestClient>,
    chance: Chance,
    /// The number of clients that have connected.
    connected: usize,
    /// The number of clients that were accepted.
    accepted: usize,
    /// The most time that passes at once, in milliseconds.
    longest: usize,
}

impl Clients {
    /// Accepts the next client, or not, at random. Returns its index.
    fn accept_next(&mut self) -> io::Result<usize> {
        match self.chance.below(16) {
            0 => return Err(io::Error::from(ErrorKind::ConnectionAborted)),
            1 => return Err(io::Error::from(ErrorKind::OutOfMemory)),
            _ => {}
        }
        let index = self.accepted;
        if index >= self.connected {
            return Err(io::Error::from(ErrorKind::WouldBlock));
        }
        self.accepted = index.saturating_add(1);
        Ok(index)
    }

    /// Has the client with this index reported by this key, or by none.
    fn set_key(&mut self, index: usize, key: Option<usize>) {
        if let Some(client) = self.clients.get_mut(index) {
            client.key = key;
        }
    }

    /// Reads from the client with this index.
    fn read_from(&mut self, index: usize, buf: &mut [u8]) -> io::Result<usize>
        ensures { IfOk result (λ n. n ≤ length buf.new) }
    {
        match self.clients.get_mut(index) {
            Some(client) => client.read(&mut self.chance, buf),
            None => Err(io::Error::from(ErrorKind::ConnectionReset)),
        }
    }

    /// Writes to the client with this index.
    fn write_to(&mut self, index: usize, buf: &[u8]) -> io::Result<usize>
        ensures { IfOk result (λ n. n ≤ length buf.now) }
    {
        match self.clients.get_mut(index) {
            Some(client) => client.write(&mut self.chance, buf),
            None => Err(io::Error::from(ErrorKind::BrokenPipe)),
        }
    }

    /// Goes on with the first client, from this index on, that is not done, and appends what is
    /// ready then.
    fn go_on(&mut self, from: usize, ready: &mut Vec<Ready>) -> io::Result<()> {
        for index in 0..self.clients.len() {
            let at = index
                .wrapping_add(from)
                .checked_rem(self.clients.len())
                .unwrap_or(0);
            if let Some(client) = self.clients.get_mut(at) {
                if client.is_done() {
                    continue;
                }
                client.go_on(&mut self.chance);
                if let Some(key) = client.key {
                    ready.push(Ready::Key(key))?;
                }
                return Ok(());
            }
        }
        Ok(())
    }

    /// Lets some events happen, and replaces `ready` by what is ready then.
    fn happen(&mut self, ready: &mut Vec<Ready>) -> io::Result<()> {
        ready.clear();
        for _ in 0..=self.chance.below(6) {
            let from = self.chance.below(self.clients.len());
            self.go_on(from, ready)?;
        }
        if self.connected < self.clients.len() {
            self.connected = self
                .connected
                .saturating_add(self.chance.below(4))
                .min(self.clients.len());
            ready.push(Ready::Listener)?;
        }
        Ok(())
    }
}

/// A network of clients. Its listener, its streams and what is ready of them share the clients.
#[derive(Drop)]
pub struct Network {
    clients: RefCell<Clients>,
}

impl Network {
    /// Makes a network of these clients, with these random numbers, in which at most this number of
    /// milliseconds pass at once.
    pub fn new(clients: Vec<TestClient>, chance: Chance, longest: usize) -> Network {
        Network {
            clients: RefCell::new(Clients {
                clients,
                chance,
                connected: 0,
                accepted: 0,
                longest,
            }),
        }
    }

    /// Returns the clients, in the order in which they were accepted.
    pub fn into_clients(self) -> Vec<TestClient> {
        self.clients.into_inner().clients
    }
}

/// Returns the error of a network whose clients are in use, which none is beside a call.
fn in_use() -> io::Error {
    io::Error::from(ErrorKind::ResourceBusy)
}

/// The listener of a network.
#[derive(Drop)]
pub struct NetworkListener<'n> {
    pub network: &'n Network,
}

impl<'n> SocketCalls for NetworkListener<'n> {
    type Stream = NetworkStream<'n>;

    ghost calls = { λ l. None };

    fn accept_next(&mut self) -> io::Result<NetworkStream<'n>> {
        let network = self.network;
        match network.clients.try_borrow_mut() {
            Ok(mut clients) => {
                let index = clients.accept_next()?;
                Ok(NetworkStream { network, index })
            }
            Err(_) => Err(in_use()),
        }
    }

    fn watch(
        &mut self,
        stream: &mut NetworkStream<'n>,
        key: usize,
        _interest: Interest,
    ) -> io::Result<()> {
        match self.network.clients.try_borrow_mut() {
            Ok(mut clients) => {
                clients.set_key(stream.index, Some(key));
                Ok(())
            }
            Err(_) => Err(in_use()),
        }
    }
}

/// The stream of the client with this index.
pub struct NetworkStream<'n> {
    network: &'n Network,
    index: usize,
}

impl Drop for NetworkStream<'_> {
    /// The client is not reported from now on.
    fn drop(self) {
        let Self { network, index } = self;
        if let Ok(mut clients) = network.clients.try_borrow_mut() {
            clients.set_key(index, None);
        }
    }
}

impl Read for NetworkStream<'_> {
    fn read(&mut self, buf: &mut [u8]) -> io::Result<usize> {
        match self.network.clients.try_borrow_mut() {
            Ok(mut clients) => clients.read_from(self.index, buf),
            Err(_) => Err(in_use()),
        }
    }
}

impl Write for NetworkStream<'_> {
    fn write(&mut self, buf: &[u8]) -> io::Result<usize> {
        match self.network.clients.try_borrow_mut() {
            Ok(mut clients) => clients.write_to(self.index, buf),
            Err(_) => Err(in_use()),
        }
    }

    fn flush(&mut self) -> io::Result<()> {
        Ok(())
    }
}

/// What is ready of a network.
#[derive(Drop)]
pub struct NetworkReadiness<'n> {
    pub network: &'n Network,
}

impl Readiness for NetworkReadiness<'_> {
    ghost waits = { λ r. None };

    fn wait(
        &mut self,
        _longest_wait: Option<Duration>,
        ready: &mut Vec<Ready>,
    ) -> io::Result<Duration> {
        match self.network.clients.try_borrow_mut() {
            Ok(mut clients) => clients.happen(ready)?,
            Err(_) => return Err(in_use()),
        }
        Ok(self.passed())
    }

    fn passed(&mut self) -> Duration {
        match self.network.clients.try_borrow_mut() {
            Ok(mut clients) => {
                let longest = clients.longest;
                Duration::from_millis(clients.chance.below(longest) as u64)
            }
            Err(_) => Duration::ZERO,
        }
    }
}
