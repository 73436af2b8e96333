//! Keys in the sessions of a service, compared with the same keys in the same number of compose
//! states.
use crate::bench::figures::print;
use crate::bench::serving::{close_sessions, open_sessions, read_count};
use crate::bench::stopwatch::{Stopwatch, now};
use crate::bench::typing::{TestCounts, read_keys};
use crate::failure::Failure;
use crate::input::read_names;
use arrayvec::ArrayString;
use compose_model::Status;
use compose_service::Service;
use compose_state::ComposeState;
use compose_tree::{BuildTable, ComposeTable};
use compose_wire::{Body, Reply, ReplyBody, Request};
use keysym_core::{Keysym, Names};

/// The number of rounds of typing the same keys, and of opening and closing the same sessions.
const TYPINGS: u32 = 5;

/// The distance between the first key of a session and that of the next one, in keys.
const APART: usize = 97;

/// A key, and the session in which it is typed.
#[derive(Clone, Copy, Drop)]
struct Press {
    session: u32,
    keysym: Keysym,
}

/// The least times of opening sessions, of closing the first one, and of closing the others.
#[derive(Clone, Copy, Drop)]
struct Times {
    opening: Stopwatch,
    first: Stopwatch,
    others: Stopwatch,
}

/// Types the keys of a file in this number of sessions, in turn, each from another place in the
/// file: through a service, and without one. Errors: see [`Failure`].
pub fn type_in_sessions<T: BuildTable>(
    rt: &HostRuntime,
    service: &mut Service<T>,
    files: &[&str; 3],
    keys: &str,
    count: &str,
) -> Result<(), Failure> {
    let [header, _, _] = files;
    let count = read_count(count)?;
    let presses = read_presses(rt, keys, count)?;
    measure_keys(rt, header, service, &presses, count)
}

/// Measures the keys with the names of a file.
fn measure_keys<T: BuildTable>(
    rt: &HostRuntime,
    header: &str,
    service: &mut Service<T>,
    presses: &[Press],
    count: u32,
) -> Result<(), Failure> {
    let names = read_names(rt, header)?;
    measure_rounds(rt, &names, service, presses, count)
}

/// Prints the least times of typing the keys without a service, through it, and through it with
/// each reply handed out as a whole. The rounds alternate; each key has the same answer in all
/// three.
fn measure_rounds<T: BuildTable>(
    rt: &HostRuntime,
    names: &Names,
    service: &mut Service<T>,
    presses: &[Press],
    count: u32,
) -> Result<(), Failure> {
    let mut bare = Stopwatch::new();
    let mut served = Stopwatch::new();
    let mut whole = Stopwatch::new();
    for _ in 0..TYPINGS {
        let fed = feed_round(rt, service.table(), names, presses, count, &mut bare)?;
        let answered = answer_round(rt, service, presses, count, &mut served)?;
        let handed = whole_round(rt, service, presses, count, &mut whole)?;
        if fed != answered || fed != handed {
            return Err(Failure::Input);
        }
    }
    let keys = presses.len() as u64;
    print(
        rt,
        &[
            ("keys", keys),
            ("feed", bare.least()),
            ("key", served.least()),
            ("whole reply", whole.least()),
        ],
    )
}

/// Reads the keys of a file, in the order in which they are typed.
fn read_presses(rt: &HostRuntime, path: &str, count: u32) -> Result<Vec<Press>, Failure> {
    let keys = read_keys(rt, path)?;
    presses_of(rt, &keys, count)
}

/// Returns the keys in the order in which they are typed.
fn presses_of(rt: &HostRuntime, keys: &[Keysym], count: u32) -> Result<Vec<Press>, Failure> {
    let mut presses = Vec::new(rt.alloc());
    for index in 0..keys.len() {
        let Some(press) = press_at(keys, count as usize, index) else {
            return Err(Failure::Arguments);
        };
        if presses.push(press).is_err() {
            return Err(Failure::NoMemory);
        }
    }
    Ok(presses)
}

/// Returns the key at this index of the order; none if there are no sessions.
fn press_at(keys: &[Keysym], count: usize, index: usize) -> Option<Press> {
    let session = index.checked_rem(count)?;
    let round = index.checked_div(count)?;
    let from = session.wrapping_mul(APART).wrapping_add(round);
    let keysym = keys.get(from.checked_rem(keys.len())?)?;
    Some(Press {
        session: u32::try_from(session).ok()?,
        keysym: *keysym,
    })
}

/// Types the keys without a service.
fn feed_round<T: ComposeTable>(
    rt: &HostRuntime,
    table: &T,
    names: &Names,
    presses: &[Press],
    count: u32,
    stopwatch: &mut Stopwatch,
) -> Result<TestCounts, Failure> {
    let mut states = states_at_rest(rt, count)?;
    let start = now(rt)?;
    let counts = feed_all(table, names, presses, &mut states);
    stopwatch.stop(rt, start)?;
    Ok(counts)
}

/// Makes one compose state for each session.
fn states_at_rest(rt: &HostRuntime, count: u32) -> Result<Vec<ComposeState>, Failure> {
    let mut states = Vec::new(rt.alloc());
    for _ in 0..count {
        if states.push(ComposeState::new()).is_err() {
            return Err(Failure::NoMemory);
        }
    }
    Ok(states)
}

/// Feeds each key to the state of its session, and reads the status and the text each time.
fn feed_all<T: ComposeTable>(
    table: &T,
    names: &Names,
    presses: &[Press],
    states: &mut [ComposeState],
) -> TestCounts {
    let mut counts = TestCounts::new();
    let mut text: ArrayString<255> = ArrayString::new();
    for press in presses {
        if let Some(state) = states.get_mut(press.session as usize) {
            let fed = state.feed(table, names, press.keysym);
            fed.text_into(&mut text);
            counts.count(fed.status, text.as_str());
        }
    }
    counts
}

/// Types the keys through the service, in sessions that are opened for the round.
fn answer_round<T: BuildTable>(
    rt: &HostRuntime,
    service: &mut Service<T>,
    presses: &[Press],
    count: u32,
    stopwatch: &mut Stopwatch,
) -> Result<TestCounts, Failure> {
    open_sessions(rt, service, count)?;
    let start = now(rt)?;
    let counts = answer_all(rt, service, presses)?;
    stopwatch.stop(rt, start)?;
    close_sessions(rt, service, 0, count)?;
    Ok(counts)
}

/// Has the service answer each key into one reply, and reads the status and the text each time.
fn answer_all<T: BuildTable>(
    rt: &HostRuntime,
    service: &mut Service<T>,
    presses: &[Press],
) -> Result<TestCounts, Failure> {
    let mut counts = TestCounts::new();
    let mut reply = new_reply();
    for press in presses {
        let request = Request {
            session: press.session,
            body: Body::Key(press.keysym.value()),
        };
        service.answer_into(rt.alloc(), &request, &mut reply);
        let ReplyBody::Fed(status, _, text) = &reply.answer else {
            return Err(Failure::Input);
        };
        counts.count(*status, text.as_str());
    }
    Ok(counts)
}

/// Does the same with each reply handed out as a whole.
fn whole_round<T: BuildTable>(
    rt: &HostRuntime,
    service: &mut Service<T>,
    presses: &[Press],
    count: u32,
    stopwatch: &mut Stopwatch,
) -> Result<TestCounts, Failure> {
    open_sessions(rt, service, count)?;
    let start = now(rt)?;
    let counts = answer_all_whole(rt, service, presses)?;
    stopwatch.stop(rt, start)?;
    close_sessions(rt, service, 0, count)?;
    Ok(counts)
}

/// Has the service answer each key into one reply, which is handed out as a whole each time.
fn answer_all_whole<T: BuildTable>(
    rt: &HostRuntime,
    service: &mut Service<T>,
    presses: &[Press],
) -> Result<TestCounts, Failure> {
    let mut counts = TestCounts::new();
    let mut reply = new_reply();
    for press in presses {
        let request = Request {
            session: press.session,
            body: Body::Key(press.keysym.value()),
        };
        service.answer_into(rt.alloc(), &request, &mut reply);
        let Some((status, text)) = fed_of(&reply) else {
            return Err(Failure::Input);
        };
        counts.count(status, text);
    }
    Ok(counts)
}

/// Makes the reply that a round keeps.
fn new_reply() -> Reply {
    Reply {
        session: 0,
        answer: ReplyBody::Opened,
    }
}

/// Returns the status and the text of a reply to a key. It is never inlined, so that all of each
/// reply has to be in memory, as for a caller of which nothing is known.
#[inline(never)]
fn fed_of(reply: &Reply) -> Option<(Status, &str)> {
    match &reply.answer {
        ReplyBody::Fed(status, _, text) => Some((*status, text.as_str())),
        _ => None,
    }
}

/// Opens this number of sessions, and closes them from the first to the last. The first is measured
/// by itself, since it comes before all others. Errors: see [`Failure`].
pub fn open_and_close<T: BuildTable>(
    rt: &HostRuntime,
    service: &mut Service<T>,
    count: &str,
) -> Result<(), Failure> {
    let count = read_count(count)?;
    measure_opening(rt, service, count)
}

/// Prints the least times of opening and closing the sessions.
fn measure_opening<T: BuildTable>(
    rt: &HostRuntime,
    service: &mut Service<T>,
    count: u32,
) -> Result<(), Failure> {
    let mut times = Times {
        opening: Stopwatch::new(),
        first: Stopwatch::new(),
        others: Stopwatch::new(),
    };
    for _ in 0..TYPINGS {
        open_and_close_round(rt, service, count, &mut times)?;
    }
    print(
        rt,
        &[
            ("open all", times.opening.least()),
            ("close the first", times.first.least()),
            ("close the others", times.others.least()),
        ],
    )
}

/// Opens the sessions and closes them.
fn open_and_close_round<T: BuildTable>(
    rt: &HostRuntime,
    service: &mut Service<T>,
    count: u32,
    times: &mut Times,
) -> Result<(), Failure> {
    let start = now(rt)?;
    open_sessions(rt, service, count)?;
    times.opening.stop(rt, start)?;
    let start = now(rt)?;
    close_sessions(rt, service, 0, 1)?;
    times.first.stop(rt, start)?;
    let start = now(rt)?;
    close_sessions(rt, service, 1, count)?;
    times.others.stop(rt, start)
}
