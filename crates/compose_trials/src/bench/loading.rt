//! Loads of a table into a service over the same table, compared with `check_bytes` on the same
//! bytes.
use crate::bench::figures::print;
use crate::bench::stopwatch::{Stopwatch, now};
use crate::failure::Failure;
use crate::input::{read_file, read_sources};
use compose_bundle::write_bundle;
use compose_check::{CheckInput, Verdict, check_bytes};
use compose_model::Rule;
use compose_read::Sources;
use compose_service::Service;
use compose_tree::BuildTable;
use compose_wire::{Body, Payload, ReplyBody, Request};

/// The number of times that the table is loaded, and the same bytes are checked.
const LOADS: u32 = 100;

/// The bytes of a header of names, of a table, and of its certificate against itself.
#[derive(Drop)]
struct Parts {
    header: Vec<u8>,
    sources: Sources<'static>,
    certificate: Vec<u8>,
}

/// Loads the table of a file into a service over it, and checks the same bytes, in turn. Prints the
/// least times. Errors: see [`Failure`].
pub fn load<T: BuildTable>(
    rt: &HostRuntime,
    service: &mut Service<T>,
    files: &[&str; 3],
) -> Result<(), Failure> {
    let parts = read_parts(rt, files)?;
    load_parts(rt, service, &parts)
}

/// Reads the parts from these files.
fn read_parts(rt: &HostRuntime, files: &[&str; 3]) -> Result<Parts, Failure> {
    let [header, path, certificate] = files;
    let header = read_file(rt, header)?;
    let sources = read_sources(rt, path)?;
    let certificate = read_file(rt, certificate)?;
    Ok(Parts {
        header,
        sources,
        certificate,
    })
}

/// Loads and checks these parts.
fn load_parts<T: BuildTable>(
    rt: &HostRuntime,
    service: &mut Service<T>,
    parts: &Parts,
) -> Result<(), Failure> {
    let request = load_of(rt, parts)?;
    measure(rt, service, &request, parts)
}

/// Makes the request that loads the table.
fn load_of(rt: &HostRuntime, parts: &Parts) -> Result<Request, Failure> {
    match write_bundle(rt.alloc(), &parts.sources, &parts.certificate) {
        Ok(payload) => Ok(Request {
            session: 0,
            body: Body::Load(Payload::new(payload)),
        }),
        Err(_) => Err(Failure::Input),
    }
}

/// Prints the least times of the request and of a check.
fn measure<T: BuildTable>(
    rt: &HostRuntime,
    service: &mut Service<T>,
    request: &Request,
    parts: &Parts,
) -> Result<(), Failure> {
    let mut loading = Stopwatch::new();
    let mut checking = Stopwatch::new();
    for _ in 0..LOADS {
        load_round(rt, service, request, &mut loading)?;
        check_round::<T>(rt, parts, &mut checking)?;
    }
    print(
        rt,
        &[("load", loading.least()), ("check", checking.least())],
    )
}

/// Loads the table.
fn load_round<T: BuildTable>(
    rt: &HostRuntime,
    service: &mut Service<T>,
    request: &Request,
    stopwatch: &mut Stopwatch,
) -> Result<(), Failure> {
    let start = now(rt)?;
    if !is_loaded(rt, service, request) {
        return Err(Failure::Input);
    }
    stopwatch.stop(rt, start)
}

/// Whether the service accepts the load.
fn is_loaded<T: BuildTable>(rt: &HostRuntime, service: &mut Service<T>, request: &Request) -> bool {
    let reply = service.answer(rt.alloc(), request);
    matches!(&reply.answer, ReplyBody::Loaded(_))
}

/// Checks the same bytes.
fn check_round<T: BuildTable>(
    rt: &HostRuntime,
    parts: &Parts,
    stopwatch: &mut Stopwatch,
) -> Result<(), Failure> {
    let start = now(rt)?;
    if !is_valid::<T>(rt, parts) {
        return Err(Failure::Input);
    }
    stopwatch.stop(rt, start)
}

/// Whether the certificate is valid for the table against itself.
fn is_valid<T: BuildTable>(rt: &HostRuntime, parts: &Parts) -> bool {
    let input = CheckInput {
        header: &parts.header,
        old: &parts.sources,
        new: &parts.sources,
        old_rule: Rule::Refuse,
        new_rule: Rule::Refuse,
        repertoire: &[],
        certificate: &parts.certificate,
    };
    let verdict = check_bytes::<T>(rt.alloc(), &input);
    matches!(verdict, Ok(Verdict::Yes))
}
