//! A service, and requests to it.
use crate::failure::Failure;
use crate::input::{read_file, read_names, read_sources};
use compose_cert::Repertoire;
use compose_model::Rule;
use compose_service::Service;
use compose_tree::BuildTable;
use compose_wire::{Body, Reply, ReplyBody, Request};
use keysym_core::Names;

/// Starts a service over the table of a file, without a repertoire. The files are those of the
/// names, the table and its certificate against itself. `Err(File)` if one can't be read,
/// `Err(Input)` if no service starts; other errors: see [`Failure`].
pub fn start<T: BuildTable>(rt: &HostRuntime, files: &[&str; 3]) -> Result<Service<T>, Failure> {
    let [header, path, certificate] = files;
    let certificate = read_file(rt, certificate)?;
    let names = read_names(rt, header)?;
    start_with(rt, names, path, &certificate)
}

/// Does the same with these names and this certificate.
fn start_with<T: BuildTable>(
    rt: &HostRuntime,
    names: Names,
    path: &str,
    certificate: &[u8],
) -> Result<Service<T>, Failure> {
    let sources = read_sources(rt, path)?;
    let repertoire = no_repertoire(rt)?;
    match Service::start(
        rt.alloc(),
        names,
        repertoire,
        sources,
        Rule::Refuse,
        certificate,
    ) {
        Ok(service) => Ok(service),
        Err(_) => Err(Failure::Input),
    }
}

/// Makes a repertoire without characters.
fn no_repertoire(rt: &HostRuntime) -> Result<Repertoire, Failure> {
    match Repertoire::read(rt.alloc(), &[]) {
        Ok(repertoire) => Ok(repertoire),
        Err(_) => Err(Failure::NoMemory),
    }
}

/// Reads a number of sessions from an argument. `Err(Arguments)` if it is not a `u32`.
pub fn read_count(argument: &str) -> Result<u32, Failure> {
    match argument.parse::<u32>() {
        Ok(count) => Ok(count),
        Err(_) => Err(Failure::Arguments),
    }
}

/// Sends a request to the service, and returns its reply.
pub fn ask<T: BuildTable>(
    rt: &HostRuntime,
    service: &mut Service<T>,
    session: u32,
    body: Body,
) -> Reply {
    let request = Request { session, body };
    service.answer(rt.alloc(), &request)
}

/// Opens the sessions 0, 1 and so on, up to this number. `Err(Input)` if one is refused.
pub fn open_sessions<T: BuildTable>(
    rt: &HostRuntime,
    service: &mut Service<T>,
    count: u32,
) -> Result<(), Failure> {
    for session in 0..count {
        let reply = ask(rt, service, session, Body::Open);
        if !matches!(&reply.answer, ReplyBody::Opened) {
            return Err(Failure::Input);
        }
    }
    Ok(())
}

/// Closes the sessions from `from` on, up to but not including `to`. `Err(Input)` if one is
/// refused.
pub fn close_sessions<T: BuildTable>(
    rt: &HostRuntime,
    service: &mut Service<T>,
    from: u32,
    to: u32,
) -> Result<(), Failure> {
    for session in from..to {
        let reply = ask(rt, service, session, Body::Close);
        if !matches!(&reply.answer, ReplyBody::Closed) {
            return Err(Failure::Input);
        }
    }
    Ok(())
}
