//! `serve --state`: a service that owns the folder of the table in use. A load that it takes is
//! stored before it is answered, so what is served and what is stored are one; a table that the
//! owner chose, in the file `next`, is taken as soon as a connection comes.
use crate::at_once::{polled, serve_sockets, serving_fault};
use crate::connection_ends::{EndLines, print_text};
use crate::deadline::{Deadline, pause};
use crate::journal::Journal;
use crate::kept_file::{KeptFile, KeptSettings};
use crate::places::state_folder;
use crate::serving::{listen, refused_socket, unlinked};
use crate::state_folder::{FolderLock, StateFolder, print_unsynced, read_if_there, unwritten};
use crate::until_next::UntilNext;
use compose_answer::Ended;
use compose_arguments::ServeArguments;
use compose_cert::{Repertoire, RepertoireFault};
use compose_input::Fault;
use compose_keep::{Keeper, KeptTable, ResumeFault};
use compose_migration::look_up_keys;
use compose_service::RefusalCode;
use compose_serving::chosen_text;
use compose_session::refusal_words;
use compose_table_file::{StoredFault, StoredTable, read_table};
use compose_tree::BuildTable;
use keysym_core::{Keysym, NameFault, Names};
use std::alloc::Global;
use std::fs::File;
use std::net::Net;
use std::os::unix::net::UnixListener;
use std::rt::{Clock, Env, Files};

/// For how many seconds the folder's lock is tried, while an update may hold it.
const SECONDS: u32 = 5;

/// What the command line gives beside the folder.
#[derive(Clone, Copy)]
pub struct GivenSettings<'a> {
    /// The lines of the names, as the file of a table keeps them, if names are given.
    pub names: Option<&'a [u8]>,
    /// The key names of the keysyms that a load may list as fresh, if they are given.
    pub fresh: Option<&'a [&'a str]>,
}

/// Serves the table that is kept in the folder at this path, without end, and keeps there what is
/// loaded. Its names are those that are kept; its loads may list only the keysyms as fresh that are
/// kept, or that are given, which are kept from then on. Returns how the run ends.
/// Errors: a refusal of `state` if another service has the folder, if nothing is stored there, if
/// it is no table or if other names are given than those that are kept; a fault of the folder or the
/// socket; `NoMemory` if memory runs out.
pub fn serve_kept<T: BuildTable>(
    rt: &(impl Clock + Env + Files<File = File> + Net + Print + Eprint + AllocGlobal),
    process_id: u32,
    path: &str,
    arguments: &ServeArguments<'_>,
    given: GivenSettings<'_>,
) -> Result<Ended, Fault> {
    let folder = state_folder(rt, Some(path).filter(|path| !path.is_empty()))?;
    if !folder.is_there(rt) {
        return Err(no_table(rt.alloc(), &folder));
    }
    folder.create(rt)?;
    let _lock = lock_of_service(rt, &folder)?;
    let mut service = first_service::<T, _>(rt, &folder, given)?;
    serve_folder(
        rt,
        process_id,
        &mut service,
        &folder,
        arguments,
        given.fresh,
    )
}

/// Serves connections without end, and takes each table into service that the owner chooses.
fn serve_folder<
    'f,
    T: BuildTable,
    R: Clock + Env + Files<File = File> + Net + Print + Eprint + AllocGlobal,
>(
    rt: &'f R,
    process_id: u32,
    service: &mut Journal<'f, R, T>,
    folder: &'f StateFolder,
    arguments: &ServeArguments<'_>,
    allowed: Option<&[&str]>,
) -> Result<Ended, Fault> {
    let listener = listen(rt, process_id, arguments)?;
    for _ in 0..u64::MAX {
        service.print_table();
        let one = listener_again(rt.alloc(), &listener, arguments)?;
        match serve_until_next(rt, one, service, folder, arguments)? {
            Some(ended) => return Ok(unlinked(rt, arguments, ended)),
            None => take_next(rt, service, folder, allowed)?,
        }
    }
    Ok(Ended::Yes)
}

/// Returns the same listener once more, for the sockets that are served until the owner chooses
/// another table.
fn listener_again(
    alloc: Global,
    listener: &UnixListener,
    arguments: &ServeArguments<'_>,
) -> Result<UnixListener, Fault> {
    match listener.try_clone() {
        Ok(listener) => Ok(listener),
        Err(error) => Err(refused_socket(alloc, arguments, error.kind())),
    }
}

/// Serves connections, and returns how the run ends, or `None` once the owner chose another table.
fn serve_until_next<
    T: BuildTable,
    R: Clock + Files<File = File> + Net + Print + Eprint + AllocGlobal,
>(
    rt: &R,
    listener: UnixListener,
    service: &mut Journal<'_, R, T>,
    folder: &StateFolder,
    arguments: &ServeArguments<'_>,
) -> Result<Option<Ended>, Fault> {
    let mut lines = EndLines::new(rt);
    let (mut sockets, readiness) = match polled(rt, listener) {
        Ok(polled) => polled,
        Err(error) => return Err(serving_fault(rt.alloc(), arguments.socket, error.kind())),
    };
    let mut until_next = UntilNext::new(rt, folder, readiness);
    match serve_sockets(
        rt,
        &mut sockets,
        &mut until_next,
        service,
        arguments,
        &mut lines,
    ) {
        Ok(()) => Ok(Some(lines.finish())),
        Err(_) if until_next.has_come() => Ok(None),
        Err(error) => Err(serving_fault(rt.alloc(), arguments.socket, error.kind())),
    }
}

/// Locks the folder for a service. Another update is waited for.
fn lock_of_service(
    rt: &(impl Clock + Files<File = File> + AllocGlobal),
    folder: &StateFolder,
) -> Result<FolderLock, Fault> {
    let deadline = Deadline::after(rt, SECONDS);
    for _ in 0..u64::MAX {
        if let Some(lock) = folder.try_lock(rt)? {
            return Ok(lock);
        }
        if deadline.is_over(rt) {
            break;
        }
        pause(rt);
    }
    let words = format!(in rt.alloc(); "{}: another service serves it", folder.path);
    Err(Fault::refused("state", words))
}

/// Returns the service with which a run begins. Fresh keys that are given are kept from then on.
/// Errors: a refusal of `state` if other names are given than those that are kept; those of
/// `chosen_or_stored`.
fn first_service<'f, T: BuildTable, R: Files<File = File> + Print + Eprint + AllocGlobal>(
    rt: &'f R,
    folder: &'f StateFolder,
    given: GivenSettings<'_>,
) -> Result<Journal<'f, R, T>, Fault> {
    let service = chosen_or_stored(rt, folder, given.fresh)?;
    if !service.has_names(given.names) {
        return Err(other_names(rt.alloc(), folder));
    }
    match service.keep_settings() {
        Ok(()) => Ok(service),
        Err(kind) => Err(unwritten(rt.alloc(), &folder.table, kind)),
    }
}

/// Returns the fault that other names are given than those that are kept.
fn other_names(alloc: Global, folder: &StateFolder) -> Fault {
    let words = format!(in alloc;
        "{}: the table in use has other names than those of --names: leave the option out, or `composecheck update --names FILE.. TABLE` takes a table with these",
        folder.path
    );
    Fault::refused("state", words)
}

/// Returns the service over the table that the owner chose, if one waits and it is a table, and
/// otherwise over the table in use.
fn chosen_or_stored<'f, T: BuildTable, R: Files<File = File> + Print + Eprint + AllocGlobal>(
    rt: &'f R,
    folder: &'f StateFolder,
    allowed: Option<&[&str]>,
) -> Result<Journal<'f, R, T>, Fault> {
    if let Some(service) = chosen_service(rt, folder, allowed)? {
        return Ok(service);
    }
    match read_if_there(rt, &folder.table)? {
        Some(bytes) => service_of(rt, folder, &folder.table, &bytes, allowed),
        None => Err(no_table(rt.alloc(), folder)),
    }
}

/// Returns the fault that no table is stored in the folder.
fn no_table(alloc: Global, folder: &StateFolder) -> Fault {
    let words = format!(in alloc;
        "{}: no table is stored: `composecheck update FILE` stores one",
        folder.path
    );
    Fault::refused("state", words)
}

/// Has the table that the owner chose served, in the place of the one that is; its sessions are
/// closed. If it can't be served, the old one goes on.
fn take_next<'f, T: BuildTable, R: Files<File = File> + Print + Eprint + AllocGlobal>(
    rt: &'f R,
    service: &mut Journal<'f, R, T>,
    folder: &'f StateFolder,
    allowed: Option<&[&str]>,
) -> Result<(), Fault> {
    let sessions = service.session_count();
    if let Some(next) = chosen_service(rt, folder, allowed)? {
        let _ = print_text(rt, chosen_text(rt.alloc(), sessions));
        *service = next;
    }
    Ok(())
}

/// Returns the service over the table that the owner chose, which becomes the table in use. If it
/// is no table, it is removed, and why is printed.
fn chosen_service<'f, T: BuildTable, R: Files<File = File> + Print + Eprint + AllocGlobal>(
    rt: &'f R,
    folder: &'f StateFolder,
    allowed: Option<&[&str]>,
) -> Result<Option<Journal<'f, R, T>>, Fault> {
    let Some(bytes) = read_if_there(rt, &folder.next)? else {
        return Ok(None);
    };
    match service_of(rt, folder, &folder.next, &bytes, allowed) {
        Ok(service) => match folder.use_next(rt) {
            Ok(changed) => {
                print_unsynced(rt, folder, changed);
                Ok(Some(service))
            }
            Err(kind) => Err(unwritten(rt.alloc(), &folder.table, kind)),
        },
        Err(Fault::Refused { text, .. }) => {
            let _ = eprintln!(rt; "composecheck: next is refused: {text}");
            let _ = folder.drop_next(rt);
            Ok(None)
        }
        Err(fault) => Err(fault),
    }
}

/// Returns the service over the table that this file of the folder has.
fn service_of<'f, T: BuildTable, R: Files<File = File> + Print + Eprint + AllocGlobal>(
    rt: &'f R,
    folder: &'f StateFolder,
    path: &str,
    bytes: &[u8],
    allowed: Option<&[&str]>,
) -> Result<Journal<'f, R, T>, Fault> {
    let alloc = rt.alloc();
    let stored = stored_at(alloc, path, bytes)?;
    let names = names_at(alloc, path, &stored.names)?;
    let fresh = allowed_keysyms(alloc, &names, allowed, &stored.fresh)?;
    let repertoire = repertoire_at(alloc, path, &stored.repertoire)?;
    let file = kept_file(rt, folder, stored, &fresh)?;
    match Keeper::resume(alloc, names, repertoire, file) {
        Ok(keeper) => Ok(Journal::new(rt, keeper.allow_fresh(fresh))),
        Err(ResumeFault::Refused(refusal)) => Err(refused_table(alloc, path, refusal)),
        Err(ResumeFault::Unread) => Err(Fault::NoMemory),
    }
}

/// Returns the file of the folder that keeps this table, whose loads may list these keysyms as
/// fresh.
fn kept_file<'f, R: AllocGlobal>(
    rt: &'f R,
    folder: &'f StateFolder,
    stored: StoredTable<'_>,
    fresh: &[Keysym],
) -> Result<KeptFile<'f, R>, Fault> {
    let alloc = rt.alloc();
    let Ok(kept) = KeptTable::copied(alloc, stored.rule, stored.payload) else {
        return Err(Fault::NoMemory);
    };
    let has_new_fresh = !are_same_keysyms(fresh, &stored.fresh);
    let settings = KeptSettings {
        repertoire: stored.repertoire,
        names: stored.names,
        fresh: Vec::from_slice(alloc, fresh)?,
    };
    Ok(KeptFile::new(rt, folder, settings, has_new_fresh, kept))
}

/// Returns whether both have the same keysyms, in any order.
fn are_same_keysyms(some: &[Keysym], others: &[Keysym]) -> bool {
    some.iter().all(|keysym| others.contains(keysym))
        && others.iter().all(|keysym| some.contains(keysym))
}

/// Reads the bytes of the file at this path, which keeps a table.
pub fn stored_at<'b>(alloc: Global, path: &str, bytes: &'b [u8]) -> Result<StoredTable<'b>, Fault> {
    match read_table(alloc, bytes) {
        Ok(stored) => Ok(stored),
        Err(StoredFault::NoMemory) => Err(Fault::NoMemory),
        Err(fault) => Err(Fault::refused("state", format!(in alloc; "{path}: {fault}"))),
    }
}

/// Reads the lines of names that are kept in the file at this path; none are the built-in names.
pub fn names_at(alloc: Global, path: &str, lines: &[u8]) -> Result<Names, Fault> {
    if lines.is_empty() {
        return Ok(Names::built_in());
    }
    match Names::read(alloc, lines) {
        Ok(names) => Ok(names),
        Err(NameFault::NoMemory) => Err(Fault::NoMemory),
        Err(fault) => Err(Fault::refused("state", format!(in alloc; "{path}: names: {fault}"))),
    }
}

/// Returns the keysyms of these key names; those that are kept if no key names are given.
fn allowed_keysyms(
    alloc: Global,
    names: &Names,
    allowed: Option<&[&str]>,
    kept: &[Keysym],
) -> Result<Vec<Keysym>, Fault> {
    let Some(key_names) = allowed else {
        return Ok(Vec::from_slice(alloc, kept)?);
    };
    match look_up_keys(alloc, names, key_names) {
        Ok(keysyms) => Ok(keysyms),
        Err(refusal) => Err(Fault::refused("key", format!(in alloc; "{refusal}"))),
    }
}

/// Reads the repertoire that is kept in the file at this path.
fn repertoire_at(alloc: Global, path: &str, text: &[u8]) -> Result<Repertoire, Fault> {
    match Repertoire::read(alloc, text) {
        Ok(repertoire) => Ok(repertoire),
        Err(RepertoireFault::NoMemory) => Err(Fault::NoMemory),
        Err(fault) => Err(Fault::refused("state", format!(in alloc; "{path}: {fault}"))),
    }
}

/// Returns the fault that the file at this path keeps no table that can be served.
fn refused_table(alloc: Global, path: &str, refusal: RefusalCode) -> Fault {
    match refusal {
        RefusalCode::NoMemory => Fault::NoMemory,
        refusal => {
            let words = refusal_words(refusal.code());
            Fault::refused("state", format!(in alloc; "{path}: {words}"))
        }
    }
}
