//! The contents of the files.
use crate::failure::Failure;
use compose_cert::Repertoire;
use compose_model::Rule;
use compose_read::Sources;
use compose_service::{Service, StartFault};
use compose_tree::{BuildTable, PackedTable, read_first_table};
use compose_wire::{Feeder, Request};
use keysym_core::Names;

/// Reads the bytes of a file. `Err(File)` if that fails.
pub fn read_file(rt: &HostRuntime, path: &str) -> Result<Vec<u8>, Failure> {
    match std::fs::read(rt, path) {
        Ok(bytes) => Ok(bytes),
        Err(_) => Err(Failure::File),
    }
}

/// Reads the names of a header. `Err(File)` if the file can't be read, `Err(Input)` if it is not a
/// header.
pub fn read_names(rt: &HostRuntime, path: &str) -> Result<Names, Failure> {
    let header = read_file(rt, path)?;
    match Names::read(rt.alloc(), &header) {
        Ok(names) => Ok(names),
        Err(_) => Err(Failure::Input),
    }
}

/// Reads the characters of the repertoire. `Err(File)` if the file can't be read, `Err(Input)` if
/// it is not a repertoire.
pub fn read_repertoire(rt: &HostRuntime) -> Result<Repertoire, Failure> {
    let bytes = read_file(rt, "repertoire")?;
    match Repertoire::read(rt.alloc(), &bytes) {
        Ok(repertoire) => Ok(repertoire),
        Err(_) => Err(Failure::Input),
    }
}

/// Reads the sources of a table that is one file, under its path. `Err(File)` if the file can't be
/// read, `Err(Input)` if it can't be added.
pub fn read_sources(rt: &HostRuntime, path: &str) -> Result<Sources<'static>, Failure> {
    let bytes = read_file(rt, path)?;
    let mut sources = Sources::new(rt.alloc());
    match sources.add(path, bytes) {
        Ok(()) => Ok(sources),
        Err(_) => Err(Failure::Input),
    }
}

/// Reads the table of a file. `Err(File)` if the file can't be read, `Err(Input)` if it is not a
/// table.
pub fn read_table<T: BuildTable>(
    rt: &HostRuntime,
    names: &Names,
    path: &str,
) -> Result<T, Failure> {
    let sources = read_sources(rt, path)?;
    match read_first_table(rt.alloc(), names, &sources, Rule::Refuse) {
        Ok(table) => Ok(table),
        Err(_) => Err(Failure::Input),
    }
}

/// What a service starts with, besides its certificate.
#[derive(Drop)]
pub struct Start {
    names: Names,
    repertoire: Repertoire,
    sources: Sources<'static>,
}

/// Reads the repertoire, the old table and the names. `Err(File)` if a file can't be read,
/// `Err(Input)` if it does not hold what it should.
pub fn read_start(rt: &HostRuntime) -> Result<Start, Failure> {
    let repertoire = read_repertoire(rt)?;
    let sources = read_sources(rt, "old")?;
    let names = read_names(rt, "header")?;
    Ok(Start {
        names,
        repertoire,
        sources,
    })
}

/// Starts a service of these parts. Errors: those of `Service::start`.
pub fn start_with(
    rt: &HostRuntime,
    parts: Start,
    certificate: &[u8],
) -> Result<Service<PackedTable>, StartFault> {
    Service::start(
        rt.alloc(),
        parts.names,
        parts.repertoire,
        parts.sources,
        Rule::Refuse,
        certificate,
    )
}

/// Starts a service over the old table. It is in a box because it has many parts, and a function
/// that owns all of them is slow to verify. `Err(File)` if a file can't be read, `Err(Input)` if no
/// service starts, `Err(NoMemory)` if there is no memory for the box.
pub fn start_service(rt: &HostRuntime) -> Result<Box<Service<PackedTable>>, Failure> {
    let certificate = read_file(rt, "certificate")?;
    let parts = read_start(rt)?;
    match start_with(rt, parts, &certificate) {
        Ok(service) => boxed(rt, service),
        Err(_) => Err(Failure::Input),
    }
}

/// Moves the value into a box.
fn boxed<T: Drop>(rt: &HostRuntime, value: T) -> Result<Box<T>, Failure> {
    match Box::new(rt.alloc(), value) {
        Ok(boxed) => Ok(boxed),
        Err(_) => Err(Failure::NoMemory),
    }
}

/// Makes a feeder that holds the bytes of a file. `Err(File)` if the file can't be read,
/// `Err(NoMemory)` if memory runs out.
pub fn feed_file(rt: &HostRuntime, path: &str) -> Result<Feeder, Failure> {
    let bytes = read_file(rt, path)?;
    let mut feeder = Feeder::new(rt.alloc());
    match feeder.feed(&bytes) {
        Ok(()) => Ok(feeder),
        Err(_) => Err(Failure::NoMemory),
    }
}

/// Reads the requests of a file. `Err(File)` if the file can't be read, `Err(Input)` if it has a
/// faulty frame, `Err(NoMemory)` if memory runs out.
pub fn read_requests(rt: &HostRuntime, path: &str) -> Result<Vec<Request>, Failure> {
    let mut feeder = feed_file(rt, path)?;
    let mut requests = Vec::new(rt.alloc());
    for _ in 0..feeder.held() {
        match feeder.next_request(rt.alloc()) {
            Ok(Some(request)) => keep(&mut requests, request)?,
            Ok(None) => return Ok(requests),
            Err(_) => return Err(Failure::Input),
        }
    }
    Ok(requests)
}

/// Appends a request.
fn keep(requests: &mut Vec<Request>, request: Request) -> Result<(), Failure> {
    match requests.push(request) {
        Ok(()) => Ok(()),
        Err(_) => Err(Failure::NoMemory),
    }
}
