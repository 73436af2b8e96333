//! Random schedules of many clients, each of which has to get exactly the replies to its own
//! requests.
ghost use Rattle.std.specs.Prelude.{None};

use crate::chance::Chance;
use crate::devices::{Behaviour, TrialReader, TrialWriter};
use crate::failure::Failure;
use crate::input::{read_file, start_service};
use crate::network::client::TestClient;
use crate::network::{Network, NetworkListener, NetworkReadiness};
use crate::output::print_line;
use crate::serving::serve;
use compose_hub::{ConnectionEnd, EndReport, Limits, PolledSockets, serve_at_once};
use compose_serve::{Device, ServeFault, StreamEnd};
use compose_service::Service;
use compose_tree::PackedTable;
use std::alloc::Global;
use std::io;

/// The number of clients in a schedule.
const CLIENTS: usize = 64;

/// The keysyms that are typed: those of the table's sequences, and one that is in none.
const KEYSYMS: [u32; 4] = [0xfe50, 0xfe51, 0x65, 0x78];

/// The ends of the connections, by their numbers, counted from 1.
#[derive(Drop)]
struct Ends {
    ends: Vec<Option<ConnectionEnd>>,
}

impl EndReport for Ends {
    ghost reported = { λ ends. None };

    /// Keeps the end. It is an error if the connection already has one.
    fn ended(&mut self, number: u32, how: ConnectionEnd) -> io::Result<()> {
        let index = (number as usize).wrapping_sub(1);
        match self.ends.get_mut(index) {
            Some(end) if end.is_none() => {
                *end = Some(how);
                Ok(())
            }
            _ => Err(io::Error::from(io::ErrorKind::AlreadyExists)),
        }
    }

    fn catch_up(&mut self) -> bool {
        true
    }
}

/// The number of clients, of those that were cut while they took replies, and of those that were
/// idle.
#[derive(Clone, Copy, Drop)]
struct TestCounts {
    clients: u64,
    cut: u64,
    idle: u64,
}

/// Runs this number of schedules from this seed. Prints the number of clients, of those that were
/// cut, and of those that were idle; or the first schedule that is wrong. `Err(Arguments)` if one
/// of them is not a number; other errors: see [`Failure`].
pub fn run_all(rt: &HostRuntime, seed: &str, schedules: &str) -> Result<(), Failure> {
    let seed = read_number(seed)?;
    let schedules = read_number(schedules)?;
    let load = read_file(rt, "load")?;
    let mut counts = TestCounts {
        clients: 0,
        cut: 0,
        idle: 0,
    };
    for number in 0..schedules {
        let schedule = seed.wrapping_add(number);
        if !run_one(rt, &load, Chance::new(schedule), &mut counts)? {
            return print_line(rt, format_args!("schedule {schedule} is wrong"));
        }
    }
    let TestCounts { clients, cut, idle } = counts;
    print_line(
        rt,
        format_args!("schedules {schedules}, clients {clients}, cut {cut}, idle {idle}"),
    )
}

/// Reads a number of the arguments.
fn read_number(argument: &str) -> Result<u64, Failure> {
    match argument.parse::<u64>() {
        Ok(number) => Ok(number),
        Err(_) => Err(Failure::Arguments),
    }
}

/// Runs a schedule, and returns whether each client got what it should.
fn run_one(
    rt: &HostRuntime,
    load: &[u8],
    chance: Chance,
    counts: &mut TestCounts,
) -> Result<bool, Failure> {
    let mut chance = chance;
    let clients = memory(clients_of(rt.alloc(), load, &mut chance))?;
    let limits = limits_of(&mut chance);
    let mut ends = memory(no_ends(rt.alloc()))?;
    let network = Network::new(clients, chance, longest_of(limits));
    if serve_network(rt, &network, limits, &mut ends)?.is_err() {
        return Ok(false);
    }
    compare_all(rt, &network.into_clients(), &ends, limits, counts)
}

/// Serves the clients of a network, and keeps how they ended.
fn serve_network(
    rt: &HostRuntime,
    network: &Network,
    limits: Limits,
    ends: &mut Ends,
) -> Result<io::Result<()>, Failure> {
    let mut service = start_service(rt)?;
    let mut sockets = PolledSockets::new(NetworkListener { network }, rt.alloc());
    let mut readiness = NetworkReadiness { network };
    Ok(serve_at_once(
        &mut sockets,
        &mut readiness,
        rt.alloc(),
        &mut *service,
        limits,
        ends,
    ))
}

/// Returns what was made, or `NoMemory`.
fn memory<T, E: Drop>(made: Result<T, E>) -> Result<T, Failure> {
    match made {
        Ok(made) => Ok(made),
        Err(_) => Err(Failure::NoMemory),
    }
}

/// Makes the list of ends before any client has ended.
fn no_ends(alloc: Global) -> io::Result<Ends> {
    let mut ends = Vec::new(alloc);
    for _ in 0..CLIENTS {
        ends.push(None)?;
    }
    Ok(Ends { ends })
}

/// Makes random limits.
fn limits_of(chance: &mut Chance) -> Limits {
    let unsent = match chance.below(4) {
        0 => 1,
        1 => 20,
        2 => 300,
        _ => 65_536,
    };
    Limits {
        at_once: chance.below(CLIENTS).saturating_add(1),
        connections: 64,
        unsent,
        idle: if chance.once_in(8) { Some(2) } else { None },
        own_sessions: chance.once_in(2),
    }
}

/// Returns the most milliseconds that pass at once: 100 if idle connections are closed, and
/// otherwise 0.
fn longest_of(limits: Limits) -> usize {
    match limits.idle {
        Some(_) => 100,
        None => 0,
    }
}

/// Makes random clients; the first one loads.
fn clients_of(alloc: Global, load: &[u8], chance: &mut Chance) -> io::Result<Vec<TestClient>> {
    let mut clients = Vec::new(alloc);
    for index in 0..CLIENTS {
        let load: &[u8] = if index == 0 { load } else { &[] };
        clients.push(client_of(alloc, index as u32, load, chance)?)?;
    }
    Ok(clients)
}

/// Makes a random client with this index, which may be cut anywhere.
fn client_of(
    alloc: Global,
    index: u32,
    load: &[u8],
    chance: &mut Chance,
) -> io::Result<TestClient> {
    let mut sends = requests_of(alloc, index, load, chance)?;
    let mut breaks = false;
    if chance.once_in(4) {
        sends.truncate(chance.below(sends.len()));
        breaks = chance.once_in(2);
    }
    let takes = if chance.once_in(6) {
        chance.below(200)
    } else {
        usize::MAX
    };
    Ok(TestClient::new(alloc, sends, breaks, takes))
}

/// Makes random requests over the two sessions of a client, with bytes after some of them that are
/// not a request.
fn requests_of(alloc: Global, index: u32, load: &[u8], chance: &mut Chance) -> io::Result<Vec<u8>> {
    let mut sends = Vec::new(alloc);
    for _ in 0..count_of(chance) {
        let session = index
            .wrapping_mul(2)
            .wrapping_add(u32::from(chance.once_in(2)));
        if !load.is_empty() && chance.once_in(4) {
            sends.extend_from_slice(load)?;
        } else {
            put_request(&mut sends, session, chance)?;
        }
    }
    if chance.once_in(16) {
        sends.extend_from_slice(&[9, 1, 2, 3])?;
    }
    Ok(sends)
}

/// Returns the number of requests that a client sends: a few, or once in a while many.
fn count_of(chance: &mut Chance) -> usize {
    let most = if chance.once_in(32) { 400 } else { 14 };
    chance.below(most)
}

/// Appends a random request of a session: its kind, the session, the length of what follows, and
/// for a key its keysym.
fn put_request(sends: &mut Vec<u8>, session: u32, chance: &mut Chance) -> io::Result<()> {
    let kind = match chance.below(10) {
        0 | 1 => 1,
        2 => 3,
        3 => 4,
        4 => 6,
        _ => 2,
    };
    sends.push(kind)?;
    sends.extend_from_slice(&session.to_be_bytes())?;
    if kind != 2 {
        sends.extend_from_slice(&[0, 0, 0, 0])?;
        return Ok(());
    }
    let keysym = KEYSYMS
        .get(chance.below(KEYSYMS.len()))
        .copied()
        .unwrap_or(0x78);
    sends.extend_from_slice(&[0, 0, 0, 4])?;
    sends.extend_from_slice(&keysym.to_be_bytes())?;
    Ok(())
}

/// Whether each client got what a service of its own answers, one client after another.
fn compare_all(
    rt: &HostRuntime,
    clients: &[TestClient],
    ends: &Ends,
    limits: Limits,
    counts: &mut TestCounts,
) -> Result<bool, Failure> {
    let mut service = start_service(rt)?;
    for (client, end) in clients.iter().zip(ends.ends.iter()) {
        let Some(end) = *end else {
            return Ok(false);
        };
        let (ended, replies) = serve_alone(rt, &mut service, &client.sends)?;
        count(counts, end);
        if !is_right(client, end, limits, ended, &replies) {
            return Ok(false);
        }
    }
    Ok(true)
}

/// Counts a client by its end.
fn count(counts: &mut TestCounts, end: ConnectionEnd) {
    counts.clients = counts.clients.saturating_add(1);
    match end {
        ConnectionEnd::Served(Err(ServeFault::Write)) => counts.cut = counts.cut.saturating_add(1),
        ConnectionEnd::Idle => counts.idle = counts.idle.saturating_add(1),
        _ => {}
    }
}

/// Returns how a stream of these bytes ends, and what a service answers to it.
fn serve_alone(
    rt: &HostRuntime,
    service: &mut Service<PackedTable>,
    bytes: &[u8],
) -> Result<(Result<StreamEnd, ServeFault>, Vec<u8>), Failure> {
    let behaviour = Behaviour {
        most: usize::MAX,
        failing: 0,
        idle: 0,
        interrupted: 0,
    };
    let bytes = memory(Vec::from_slice(rt.alloc(), bytes))?;
    let mut reader = Device::new(TrialReader::new(bytes, behaviour));
    let mut writer = TrialWriter::new(rt.alloc(), behaviour);
    let ended = serve(rt, service, &mut reader, &mut Device::new(&mut writer));
    let replies = memory(Vec::from_slice(rt.alloc(), writer.taken()))?;
    Ok((ended, replies))
}

/// Whether a client got all replies to the bytes of it that arrived, and its connection ended as
/// their stream does; or only the first replies, if it took no more or was idle.
fn is_right(
    client: &TestClient,
    end: ConnectionEnd,
    limits: Limits,
    alone: Result<StreamEnd, ServeFault>,
    replies: &[u8],
) -> bool {
    let taken = client.taken.as_slice();
    match end {
        ConnectionEnd::Served(Err(ServeFault::Write)) => {
            client.takes < replies.len() && replies.starts_with(taken)
        }
        ConnectionEnd::Idle => limits.idle.is_some() && replies.starts_with(taken),
        ConnectionEnd::Served(Err(ServeFault::Read)) => client.breaks && taken == replies,
        ConnectionEnd::Served(ended) => {
            let broken = client.breaks && ended != Ok(StreamEnd::Malformed);
            !broken && ended == alone && taken == replies
        }
        ConnectionEnd::Stalled => false,
    }
}
