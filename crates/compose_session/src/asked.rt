//! The requests of a command.
ghost use Rattle.std.specs.Prelude.{◌≡◌, ◌++◌, IfOk, if◌then◌else◌, [], ◌∷◌, map};
ghost use Rattle.compose_session.specs.AskedSession.{bodies_of, asks, LoadReturns};

use compose_bundle::{BundleFault, write_bundle};
use compose_model::Rule;
use compose_read::Sources;
use compose_wire::{Body, Payload, Request};
use keysym_core::Keysym;
use std::alloc::{AllocError, Global};

/// The requests of a session, in the order in which they are sent: open it, reset it, type keys,
/// ask for its state, close it.
#[derive(Clone, Copy)]
pub struct AskedSession<'k> {
    /// The number of the session.
    pub session: u32,
    /// Whether the session is opened.
    pub open: bool,
    /// Whether its compose state is reset.
    pub reset: bool,
    /// The keys that are typed in it.
    pub keys: &'k [Keysym],
    /// Whether its state is asked for.
    pub ask: bool,
    /// Whether it is closed.
    pub close: bool,
}

/// Returns the requests of a session, in the order in which they are sent. O(keys).
/// Errors: `AllocError` if memory runs out.
pub fn session_requests(alloc: Global, asked: &AskedSession<'_>) -> Result<Vec<Request>, AllocError>
    ensures { IfOk result
        (λ requests. requests.items
        ≡ map (asks asked.entry.now.session) (bodies_of asked.entry.now)) }
{
    let session = asked.session;
    let mut requests = Vec::new(alloc);
    push_if(&mut requests, asked.open, session, Body::Open)?;
    push_if(&mut requests, asked.reset, session, Body::Reset)?;
    push_keys(&mut requests, session, asked.keys)?;
    push_if(&mut requests, asked.ask, session, Body::Ask)?;
    push_if(&mut requests, asked.close, session, Body::Close)?;
    Ok(requests)
}

/// Appends a request, if it is wanted.
fn push_if(
    requests: &mut Vec<Request>,
    wanted: bool,
    session: u32,
    body: Body,
) -> Result<(), AllocError>
    ensures { IfOk result
        (λ _. requests.new.items
        ≡ requests.old.items ++ map (asks session) (if wanted then body ∷ [] else [])) }
{
    if wanted {
        requests.push(Request { session, body })?;
    }
    Ok(())
}

/// Appends a request for each key.
fn push_keys(requests: &mut Vec<Request>, session: u32, keys: &[Keysym]) -> Result<(), AllocError>
    ensures { IfOk result
        (λ _. requests.new.items
        ≡ requests.old.items ++ map (asks session) (map (λ k. Body.Key k) keys.now)) }
{
    for key in keys {
        let body = Body::Key(key.value());
        requests.push(Request { session, body })?;
    }
    Ok(())
}

/// Returns the request that loads the table of these sources, the first of which is the root, with
/// a certificate that the new table follows the one in use. Its session is 0, which a load ignores.
/// O(bytes).
/// Errors: `TooLarge` if the sources and the certificate don't fit into a load; `NoMemory` if
/// memory runs out.
pub fn load_request(
    alloc: Global,
    sources: &Sources,
    rule: Rule,
    certificate: &[u8],
) -> Result<Request, BundleFault>
    ensures { LoadReturns result rule
        (record { sources = sources.now; certificate = certificate.now }) }
{
    let payload = Payload::new(write_bundle(alloc, sources, certificate)?);
    let body = match rule {
        Rule::Refuse => Body::Load(payload),
        Rule::Longest => Body::LoadLongest(payload),
    };
    Ok(Request { session: 0, body })
}
