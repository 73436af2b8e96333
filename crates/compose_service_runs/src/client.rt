//! `load` and `session`: what a client of a service sends, and what it prints for the replies.
ghost use Rattle.std.specs.Prelude.{◌≡◌, ◌||◌, [], ◌∷◌, map, Ok, IfOk, IfErr, string_bytes};
ghost use Rattle.keysym_core.specs.Core.{core_names};
ghost use Rattle.compose_migration.specs.Values.{named_parts};
ghost use Rattle.compose_session.specs.AskedSession.{LoadReturns};
ghost use Rattle.compose_service_runs.specs.Clients.{AsksSession, FailsExchange, FailsLoad, FailsSession, IsExchange, IsKeysReported, IsLoadRun, IsSessionBy, IsSessionOf, IsSessionRun, IsUnsendable, LoadsTable, bundle_of};
ghost use Rattle.compose_service_runs.specs.Turns as words;
ghost use Rattle.compose_service_runs.specs.Turns.{then_turns, turns_of};

use crate::peer::Peer;
use compose_answer::Refusal;
use compose_arguments::{LoadArguments, SessionArguments};
use compose_bundle::BundleFault;
use compose_details::Given;
use compose_folder::{Folder, ReadOnce};
use compose_given::{Environment, NotedTable, read_names_for, read_table};
use compose_input::{Fault, NameFiles, TableFiles, read_text};
use compose_migration::Named;
use compose_report::{Outcome, exchange_outcome, worded_outcome};
use compose_runs::{Options, borrowed, key_names};
use compose_session::{AskedSession, load_request, report_replies, session_requests};
use compose_tree::BuildTable;
use compose_wire::{Reply, ReplyBody, Request};
use keysym_core::Names;
use std::alloc::{AllocError, Global};

/// The requests of a client, in the order in which they are sent, and what it needs for the report.
#[derive(Drop)]
pub struct ClientRequests {
    /// Notes on the files that were read, as lines.
    pub notes: String,
    /// The names with which keys are printed.
    pub names: Names,
    /// The requests, in the order in which they are sent.
    pub requests: Vec<Request>,
}

/// Reads the new table and then the certificate. Returns the request that loads them, with notes on
/// where the files of the table lie. Takes the time of reading them.
/// Errors: the fault of the first file that can't be read or is refused; `Word` if a variable of
/// the environment that is needed is not UTF-8; a refusal if they don't fit into a load; `NoMemory`
/// if memory runs out.
pub fn run_load<F: Folder>(
    alloc: Global,
    files: &mut ReadOnce<F>,
    environment: &Environment,
    arguments: &LoadArguments<'_>,
) -> Result<ClientRequests, Fault>
    ensures kept { files.new.holds ≡ files.old.holds }
    ensures sent { IfOk result
        (λ sent. IsLoadRun files.old.holds environment.now arguments.now sent) }
    ensures fault { IfErr result
        (λ fault. FailsLoad files.old.holds environment.now arguments.now fault) }
{
    let new = read_table(alloc, files, environment, "new", &arguments.new)?;
    let certificate = read_text(files, alloc, arguments.certificate)?;
    let NotedTable { table, notes } = new;
    noted_load(alloc, &table, &certificate, notes)
}

/// Returns the request that loads this table with this certificate, without notes. O(bytes).
/// Errors: a refusal if they don't fit into a load; `NoMemory` if memory runs out.
pub fn load_requests(
    alloc: Global,
    table: &TableFiles,
    certificate: &[u8],
) -> Result<ClientRequests, Fault>
    ensures sent { IfOk result (λ sent. LoadsTable table.now certificate.now [] sent) }
    ensures fault { IfErr result (λ fault. IsUnsendable (bundle_of table.now certificate.now) fault) }
{
    noted_load(alloc, table, certificate, String::new(alloc))
}

/// Returns the request that loads this table with this certificate, and these notes.
fn noted_load(
    alloc: Global,
    table: &TableFiles,
    certificate: &[u8],
    notes: String,
) -> Result<ClientRequests, Fault>
    ensures sent { IfOk result
        (λ sent. LoadsTable table.now certificate.now (string_bytes notes) sent) }
    ensures fault { IfErr result (λ fault. IsUnsendable (bundle_of table.now certificate.now) fault) }
{
    let request = request_to_load(alloc, table, certificate)?;
    Ok(one_request(alloc, request, notes)?)
}

/// Returns the request that loads this table with this certificate.
fn request_to_load(alloc: Global, table: &TableFiles, certificate: &[u8]) -> Result<Request, Fault>
    ensures loads { IfOk result
        (λ request. LoadReturns (Ok request) table.now.rule (bundle_of table.now certificate.now)) }
    ensures fault { IfErr result (λ fault. IsUnsendable (bundle_of table.now certificate.now) fault) }
{
    match load_request(alloc, &table.sources, table.rule, certificate) {
        Ok(request) => Ok(request),
        Err(BundleFault::NoMemory) => Err(Fault::NoMemory),
        Err(fault) => Err(Fault::refused("load", format!(in alloc; "{fault}"))),
    }
}

/// Returns one request without keys, with these notes.
fn one_request(alloc: Global, request: Request, notes: String) -> Result<ClientRequests, AllocError>
    ensures notes { IfOk result (λ sent. string_bytes sent.notes ≡ string_bytes notes) }
    ensures names { IfOk result (λ sent. sent.names ≡ core_names) }
    ensures one { IfOk result (λ sent. sent.requests.items ≡ request ∷ []) }
{
    let Ok(names) = Names::core(alloc) else {
        return Err(AllocError);
    };
    let mut requests = Vec::new(alloc);
    requests.push(request)?;
    Ok(ClientRequests {
        notes,
        names,
        requests,
    })
}

/// Returns the requests of a session, or the outcome if the names or the keys are refused. Takes
/// the time of reading the names.
/// Errors: the fault of the first names file that can't be read; `NoMemory` if memory runs out.
pub fn run_session<T: BuildTable, F: Folder>(
    alloc: Global,
    files: &mut ReadOnce<F>,
    options: Options<'_>,
    arguments: &SessionArguments<'_>,
) -> Result<Result<ClientRequests, Outcome>, Fault>
    ensures kept { files.new.holds ≡ files.old.holds }
    ensures started { IfOk result
        (λ started. IsSessionRun files.old.holds options.entry arguments.now started) }
    ensures fault { IfErr result
        (λ fault. FailsSession files.old.holds arguments.now.files
        (map (λ name. name.now) options.entry.names.now) fault) }
{
    let names = read_names_for(files, alloc, arguments.files, options.names)?;
    Ok(session_of::<T>(alloc, options.verbose, &names, arguments)?)
}

/// Returns the same by these names; with `--files` a key may be written as its character.
fn session_of<T: BuildTable>(
    alloc: Global,
    verbose: bool,
    names: &NameFiles<'_>,
    arguments: &SessionArguments<'_>,
) -> Result<Result<ClientRequests, Outcome>, AllocError>
    ensures { IfOk result (λ started. IsSessionOf verbose names.now arguments.now started) }
{
    let written = key_names(alloc, arguments.files, &names.lines, &arguments.keys)?;
    let keys = borrowed(alloc, &written)?;
    session_by::<T>(alloc, verbose, names, arguments, &keys)
}

/// Returns the same by the keys with these names.
fn session_by<T: BuildTable>(
    alloc: Global,
    verbose: bool,
    names: &NameFiles<'_>,
    arguments: &SessionArguments<'_>,
    keys: &[&str],
) -> Result<Result<ClientRequests, Outcome>, AllocError>
    ensures { IfOk result
        (λ started. IsSessionBy verbose names.now arguments.now (map (λ key. key.now) keys.now)
        started) }
{
    match Named::read(alloc, &names.lines, keys) {
        Ok(named) => Ok(Ok(requests_of(alloc, named, arguments)?)),
        Err(refusal) => {
            let are_files = arguments.files;
            Ok(Err(keys_outcome::<T>(alloc, verbose, are_files, names, keys, refusal)?))
        }
    }
}

/// Returns the requests of the session, by the keysyms of its keys.
fn requests_of(
    alloc: Global,
    named: Named,
    arguments: &SessionArguments<'_>,
) -> Result<ClientRequests, AllocError>
    ensures { IfOk result (λ sent. AsksSession (named_parts named) arguments.now sent) }
{
    let asked = AskedSession {
        session: arguments.session,
        open: arguments.open,
        reset: arguments.reset,
        keys: &named.keys,
        ask: arguments.ask,
        close: arguments.close,
    };
    let requests = session_requests(alloc, &asked)?;
    Ok(ClientRequests {
        notes: String::new(alloc),
        names: named.names,
        requests,
    })
}

/// Returns the outcome if the names or the keys are refused; with `verbose` or `--files` with each
/// faulty line, and with `--files` for people.
fn keys_outcome<T: BuildTable>(
    alloc: Global,
    verbose: bool,
    are_files: bool,
    names: &NameFiles<'_>,
    keys: &[&str],
    refusal: Refusal,
) -> Result<Outcome, AllocError>
    ensures { IfOk result
        (λ outcome. IsKeysReported verbose are_files names.now (map (λ key. key.now) keys.now)
        refusal outcome) }
{
    let given = Given::of(names, keys, &[]);
    let detailed = wants_lines(verbose, are_files);
    worded_outcome::<T>(alloc, !are_files, detailed, &given, Err(refusal))
}

/// Returns whether each faulty line of a refusal is printed: if `verbose`, and with `--files`
/// always.
fn wants_lines(verbose: bool, are_files: bool) -> bool
    ensures { result ≡ verbose || are_files }
{
    verbose || are_files
}

/// Sends the requests one after another, until one is refused or the other side closes. Returns
/// what is printed for the replies, after the notes.
/// Errors: what the other side gives for the first request that can't be sent or whose reply is
/// malformed; `NoMemory` if memory runs out.
pub fn run_exchange<P: Peer>(
    alloc: Global,
    peer: &mut P,
    sent: ClientRequests,
) -> Result<Outcome, Fault>
    ensures exchange { IfOk result
        (λ outcome. IsExchange sent (P.turns peer.old) (P.turns peer.new) outcome) }
    ensures fault { IfErr result
        (λ fault. FailsExchange P.turns P.gives sent.requests.items peer.old fault) }
{
    let replies = replies_of(alloc, peer, &sent.requests)?;
    let report = report_replies(alloc, &sent.names, &sent.requests, &replies)?;
    let printed = exchange_outcome(alloc, report)?;
    Ok(printed.with_notes(sent.notes))
}

/// Returns the replies to the requests, until one is refused or the other side closes.
fn replies_of<P: Peer>(
    alloc: Global,
    peer: &mut P,
    requests: &[Request],
) -> Result<Vec<Reply>, Fault>
    ensures turns { IfOk result
        (λ replies. P.turns peer.new
        ≡ then_turns (P.turns peer.old) (turns_of requests.now replies.items)) }
    ensures fault { IfErr result
        (λ fault. FailsExchange P.turns P.gives requests.now peer.old fault) }
{
    let mut replies = Vec::new(alloc);
    for request in requests {
        let Some(reply) = peer.ask(alloc, request)? else {
            return Ok(replies);
        };
        let is_refused = is_refusal(&reply.answer);
        replies.push(reply)?;
        if is_refused {
            return Ok(replies);
        }
    }
    Ok(replies)
}

/// Returns whether the answer is a refusal.
fn is_refusal(answer: &ReplyBody) -> bool
    ensures { result ≡ words.is_refusal answer.now }
{
    matches!(answer, ReplyBody::Refused(_))
}
