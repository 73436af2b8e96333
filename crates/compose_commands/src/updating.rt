//! `update`: takes a Compose file into use, if nobody's typing changes or if the change is meant.
//! While a service runs it has the folder's lock, and is asked; otherwise the table is stored here.
//! What becomes of a table is decided in `compose_service_runs`.
ghost use Rattle.std.specs.Prelude.{None};

use crate::client::{Connection, connect};
use crate::deadline::{Deadline, pause};
use crate::environment::read_environment;
use crate::places::{socket_path, state_folder};
use crate::state_folder::{Changed, FolderLock, StateFolder, UNSYNCED, read_if_there, unwritten};
use compose_answer::Ended;
use compose_arguments::{TakingArguments, UpdateArguments};
use compose_folder::{Folder, ReadOnce};
use compose_input::{Fault, TableFiles};
use compose_program::fault_in_form;
use compose_read::SourceFault;
use compose_report::{Form, Outcome};
use compose_runs::UpdateFiles;
use compose_service_runs::{
    Decision, HandOver, Handed, TableFolder, Taking, Wanted, decide_taking, take_alone,
    take_running,
};
use compose_table_file::{named_from, read_table};
use compose_tree::BuildTable;
use std::alloc::Global;
use std::env::current_dir;
use std::fs::File;
use std::io::ErrorKind;
use std::mem::replace;
use std::net::Net;
use std::rt::{Clock, Env, Files};
use std::{fs, io};

/// How often a table is decided on, if the table in use changes meanwhile.
const TRIES: u32 = 3;

/// The table that is to be taken into use.
#[derive(Drop)]
enum Wish<'a> {
    /// The table of these files.
    Files(UpdateFiles<'a>, Wanted<'a>),
    /// The table before the last change.
    Back,
}

/// Who may write the table in use.
#[derive(Drop)]
enum Writer {
    /// This update, as long as it has the lock.
    Here(FolderLock),
    /// The service, on a connection to it.
    Service(Connection),
}

/// The folder of the table in use, with the handles of the program.
#[derive(Drop)]
struct UsedFolder<'f, R> {
    rt: &'f R,
    folder: &'f StateFolder,
    /// The path of the socket on which a service would listen.
    socket: Option<&'f str>,
    /// For how many seconds a service and other updates are waited for.
    seconds: u32,
    /// Whether a table that was stored here is on the disk.
    changed: Changed,
}

impl<'f, R> UsedFolder<'f, R> {
    /// Returns the same folder once more.
    fn again(&self) -> UsedFolder<'f, R> {
        UsedFolder {
            rt: self.rt,
            folder: self.folder,
            socket: self.socket,
            seconds: self.seconds,
            changed: Changed::Kept,
        }
    }
}

impl<R: Files<File = File> + AllocGlobal> TableFolder for UsedFolder<'_, R> {
    ghost stored = { λ folder. None };

    fn replace(&mut self, _alloc: Global, file: &[u8]) -> Result<(), ErrorKind> {
        self.changed = self.folder.store(self.rt, file)?;
        Ok(())
    }
}

impl<R: Clock + Files<File = File> + Net + AllocGlobal> HandOver for UsedFolder<'_, R> {
    ghost handed = { λ folder. None };

    /// Writes the file `next`, has the service see it, and waits until it is the table in use. Other
    /// updates that hand over a table are waited for.
    fn hand_over(&mut self, _alloc: Global, file: &[u8]) -> Handed {
        let deadline = Deadline::after(self.rt, self.seconds);
        let _lock = match self.lock_next(&deadline) {
            Ok(Some(lock)) => lock,
            Ok(None) => return Handed::Waits,
            Err(error) => return Handed::Unwritten(error.kind()),
        };
        if let Err(kind) = self.folder.hand_over(self.rt, file) {
            return Handed::Unwritten(kind);
        }
        for _ in 0..u64::MAX {
            self.wake_service(&deadline);
            pause(self.rt);
            if !self.has_next() {
                break;
            }
            if deadline.is_over(self.rt) {
                return Handed::Waits;
            }
        }
        self.taken(file)
    }
}

impl<R: Clock + Files<File = File> + Net + AllocGlobal> UsedFolder<'_, R> {
    /// Locks the file `next`, within this time.
    fn lock_next(&self, deadline: &Deadline) -> io::Result<Option<FolderLock>> {
        for _ in 0..u64::MAX {
            if let Some(lock) = self.folder.try_lock_next(self.rt)? {
                return Ok(Some(lock));
            }
            if deadline.is_over(self.rt) {
                break;
            }
            pause(self.rt);
        }
        Ok(None)
    }

    /// Connects once, which has the service look for the file `next`.
    fn wake_service(&self, deadline: &Deadline) {
        if let Some(socket) = self.socket {
            let _ = connect(self.rt, socket, deadline);
        }
    }

    /// Returns whether the file `next` is there.
    fn has_next(&self) -> bool {
        !matches!(fs::exists(self.rt, self.folder.next.as_str()), Ok(false))
    }

    /// Returns what the service made of this file, which is not in its place any more.
    fn taken(&self, file: &[u8]) -> Handed {
        match read_if_there(self.rt, &self.folder.table) {
            Ok(Some(table)) => {
                if table.as_slice() == file {
                    Handed::Taken
                } else {
                    Handed::Waits
                }
            }
            Ok(None) => Handed::Waits,
            Err(_error) => Handed::Waits,
        }
    }
}

/// Takes a Compose file into use. Returns what is printed.
/// Errors: the fault of the first file that can't be read or is refused; `Word` if a variable of
/// the environment that is needed is not UTF-8; `NoMemory` if memory runs out. A fault of the
/// folder, the socket or the connection is printed in this form, after the notes of the files.
pub fn update_files<'a, T: BuildTable, F: Folder>(
    rt: &(impl Clock + Env + Files<File = File> + Net + AllocGlobal),
    files: &mut ReadOnce<F>,
    form: Form,
    names: &'a [&'a str],
    arguments: &UpdateArguments<'_>,
    fresh: &'a [&'a str],
) -> Result<Outcome, Fault> {
    let folder = state_folder(rt, arguments.taking.state)?;
    let socket = socket_path(rt, arguments.taking.socket)?;
    let read = read_files(rt, files, names, arguments)?;
    let note = String::from_str(rt.alloc(), &read.new.note)?;
    let used = used_folder(rt, &folder, socket.as_deref(), &arguments.taking);
    let wanted = Wanted {
        merge: arguments.merge,
        fresh,
        has_names: !names.is_empty(),
        has_repertoire: arguments.repertoire.is_some(),
    };
    let updated = take::<T, _>(&used, &arguments.taking, Wish::Files(read, wanted));
    let outcome = match updated {
        Ok(outcome) => outcome,
        Err(fault) => fault_in_form(rt.alloc(), form, &fault)?,
    };
    let notes = format!(in rt.alloc(); "{note}{}", outcome.notes)?;
    Ok(outcome.with_notes(notes))
}

/// Reads the files of an update. Messages have their paths as they were given.
fn read_files<'a, F: Folder>(
    rt: &(impl Env + AllocGlobal),
    files: &mut ReadOnce<F>,
    names: &'a [&'a str],
    arguments: &UpdateArguments<'_>,
) -> Result<UpdateFiles<'a>, Fault> {
    let environment = read_environment(rt, false)?;
    let mut read = UpdateFiles::read(rt.alloc(), files, &environment, names, arguments)?;
    name_from_here(rt, &mut read.new)?;
    Ok(read)
}

/// Names the sources of a table so that they are found from other folders too. They stay as they are
/// if that can't be done.
fn name_from_here(rt: &(impl Env + AllocGlobal), table: &mut TableFiles) -> Result<(), Fault> {
    let Ok(folder) = current_dir(rt) else {
        return Ok(());
    };
    let Some(folder) = folder.to_str() else {
        return Ok(());
    };
    match named_from(rt.alloc(), folder, &table.sources) {
        Ok(named) => {
            // (an assignment of what borrows for 'static is what this kit can't prove)
            let _old = replace(&mut table.sources, named);
            Ok(())
        }
        Err(SourceFault::NoMemory) => Err(Fault::NoMemory),
        Err(_) => Ok(()),
    }
}

/// Takes the table before the last change into use again. Returns what is printed.
/// Errors: a refusal of `state` if none is kept; a fault of the folder, the socket or the
/// connection; `NoMemory` if memory runs out.
pub fn take_back<T: BuildTable>(
    rt: &(impl Clock + Env + Files<File = File> + Net + AllocGlobal),
    arguments: &TakingArguments<'_>,
) -> Result<Outcome, Fault> {
    let folder = state_folder(rt, arguments.state)?;
    let socket = socket_path(rt, arguments.socket)?;
    let used = used_folder(rt, &folder, socket.as_deref(), arguments);
    take::<T, _>(&used, arguments, Wish::Back)
}

/// Returns this folder with the handles of the program.
fn used_folder<'f, R>(
    rt: &'f R,
    folder: &'f StateFolder,
    socket: Option<&'f str>,
    arguments: &TakingArguments<'_>,
) -> UsedFolder<'f, R> {
    UsedFolder {
        rt,
        folder,
        socket,
        seconds: arguments.timeout,
        changed: Changed::Kept,
    }
}

/// Takes a table into use, here or by the service that runs, or prints what would become of it. If
/// that fails and the table in use has changed meanwhile, it is tried again.
fn take<T: BuildTable, R: Clock + Files<File = File> + Net + AllocGlobal>(
    used: &UsedFolder<'_, R>,
    arguments: &TakingArguments<'_>,
    wish: Wish<'_>,
) -> Result<Outcome, Fault> {
    let mut wish = wish;
    if arguments.dry_run {
        return would_be(
            used.rt.alloc(),
            wished::<T>(used.rt, used.folder, &mut wish)?,
        );
    }
    if matches!(wish, Wish::Files(..)) {
        used.folder.create(used.rt)?;
    }
    for _ in 1..TRIES {
        let before = read_if_there(used.rt, &used.folder.table)?;
        let outcome = take_once::<T, R>(used, arguments, &mut wish)?;
        if outcome.ended == Ended::Yes || before == read_if_there(used.rt, &used.folder.table)? {
            return Ok(outcome);
        }
    }
    take_once::<T, R>(used, arguments, &mut wish)
}

/// Takes a table into use, here or by the service that runs.
fn take_once<T: BuildTable, R: Clock + Files<File = File> + Net + AllocGlobal>(
    used: &UsedFolder<'_, R>,
    arguments: &TakingArguments<'_>,
    wish: &mut Wish<'_>,
) -> Result<Outcome, Fault> {
    let (rt, folder) = (used.rt, used.folder);
    match writer_of(used, arguments)? {
        Writer::Here(_lock) => {
            settle_next(rt, folder)?;
            let Decision { taking, notes } = wished::<T>(rt, folder, wish)?;
            noted_first(rt.alloc(), &notes, taken_here(used, taking)?)
        }
        Writer::Service(service) => {
            let Decision { taking, notes } = wished::<T>(rt, folder, wish)?;
            noted_first(rt.alloc(), &notes, taken_by_service(used, service, taking)?)
        }
    }
}

/// Returns the outcome with these notes before its own.
fn noted_first(alloc: Global, notes: &str, outcome: Outcome) -> Result<Outcome, Fault> {
    let notes = format!(in alloc; "{notes}{}", outcome.notes)?;
    Ok(outcome.with_notes(notes))
}

/// Returns what is decided about the table that is to be taken into use, by the table in use.
fn wished<T: BuildTable>(
    rt: &(impl Files + AllocGlobal),
    folder: &StateFolder,
    wish: &mut Wish<'_>,
) -> Result<Decision, Fault> {
    let wanted = match wish {
        Wish::Files(_, wanted) => *wanted,
        Wish::Back => return previous(rt, folder),
    };
    match wish {
        Wish::Files(read, _) => {
            let stored = read_if_there(rt, &folder.table);
            decide_taking::<T>(rt.alloc(), read, wanted, stored)
        }
        Wish::Back => previous(rt, folder),
    }
}

/// Returns the table before the last change, as it is taken into use again.
/// Errors: a refusal of `state` if none is kept.
fn previous(rt: &(impl Files + AllocGlobal), folder: &StateFolder) -> Result<Decision, Fault> {
    match read_if_there(rt, &folder.previous)? {
        Some(file) => Ok(Decision {
            taking: Taking::Meant { file },
            notes: String::new(rt.alloc()),
        }),
        None => Err(no_previous(rt.alloc(), folder)),
    }
}

/// Returns the fault that no table from before the last change is kept.
fn no_previous(alloc: Global, folder: &StateFolder) -> Fault {
    let words = format!(in alloc; "{}: no table is kept from before", folder.path);
    Fault::refused("state", words)
}

/// Makes a table that the owner chose, and that no service has taken, the table in use. If the file
/// is none of a table, it is removed.
fn settle_next(
    rt: &(impl Files<File = File> + AllocGlobal),
    folder: &StateFolder,
) -> Result<(), Fault> {
    let Some(next) = read_if_there(rt, &folder.next)? else {
        return Ok(());
    };
    let settled = match read_table(rt.alloc(), &next) {
        Ok(_) => folder.use_next(rt),
        Err(_) => folder.drop_next(rt),
    };
    match settled {
        Ok(_) => Ok(()),
        Err(kind) => Err(unwritten(rt.alloc(), &folder.table, kind)),
    }
}

/// Stores a table while no service runs. Returns what is printed.
fn taken_here<R: Files<File = File> + AllocGlobal>(
    used: &UsedFolder<'_, R>,
    taking: Taking,
) -> Result<Outcome, Fault> {
    let mut used = used.again();
    let alloc = used.rt.alloc();
    match take_alone(alloc, &mut used, taking)? {
        Ok(outcome) => with_unsynced(alloc, &used.folder.path, outcome, used.changed),
        Err(kind) => Err(unwritten(alloc, &used.folder.table, kind)),
    }
}

/// Adds a note to the outcome if it is not known whether the change is on the disk.
fn with_unsynced(
    alloc: Global,
    path: &str,
    outcome: Outcome,
    changed: Changed,
) -> Result<Outcome, Fault> {
    match changed {
        Changed::Kept => Ok(outcome),
        Changed::Unsynced(kind) => {
            let notes = format!(in alloc; "{}note: {path}: {kind}{UNSYNCED}\n", outcome.notes)?;
            Ok(outcome.with_notes(notes))
        }
    }
}

/// Has the running service take a table. Returns what is printed.
fn taken_by_service<R: Clock + Files<File = File> + Net + AllocGlobal>(
    used: &UsedFolder<'_, R>,
    service: Connection,
    taking: Taking,
) -> Result<Outcome, Fault> {
    let (mut used, mut service) = (used.again(), service);
    let alloc = used.rt.alloc();
    match take_running(alloc, &mut service, &mut used, taking)? {
        Ok(outcome) => Ok(outcome),
        Err(kind) => Err(unwritten(alloc, &used.folder.next, kind)),
    }
}

/// Returns what would become of a table, as it is printed.
fn would_be(alloc: Global, decision: Decision) -> Result<Outcome, Fault> {
    let Decision { taking, notes } = decision;
    let line = match taking {
        Taking::Refused(outcome) => return noted_first(alloc, &notes, outcome),
        Taking::Same => "unchanged\n",
        Taking::Follows { .. } => "would be stored\n",
        Taking::Meant { .. } => "would be stored, and sessions would begin anew\n",
    };
    let line = String::from_str(alloc, line)?;
    Ok(Outcome::of_output(alloc, line, Ended::Yes).with_notes(notes))
}

/// Returns who may write the table in use: this update, if it gets the lock, or the service that has
/// it. Another update is waited for.
/// Errors: a refusal of `state` if neither can be had in time; a fault of the socket that was given
/// if nobody listens there.
fn writer_of<R: Clock + Files<File = File> + Net + AllocGlobal>(
    used: &UsedFolder<'_, R>,
    arguments: &TakingArguments<'_>,
) -> Result<Writer, Fault> {
    let deadline = Deadline::after(used.rt, used.seconds);
    if arguments.socket.is_some() {
        reachable(used, &deadline)?;
    }
    for _ in 0..u64::MAX {
        if let Some(lock) = used.folder.try_lock(used.rt)? {
            return Ok(Writer::Here(lock));
        }
        if let Some(service) = connected(used) {
            return Ok(Writer::Service(service));
        }
        if deadline.is_over(used.rt) {
            break;
        }
        pause(used.rt);
    }
    let socket = used.socket.unwrap_or("a socket");
    let words = format!(in used.rt.alloc();
        "{}: in use, and no service listens on {socket}",
        used.folder.path
    );
    Err(Fault::refused("state", words))
}

/// Returns a connection to the service, if one listens on the socket.
fn connected<R: Clock + Net + AllocGlobal>(used: &UsedFolder<'_, R>) -> Option<Connection> {
    Connection::open(used.rt, used.socket?, used.seconds).ok()
}

/// Tries whether somebody listens on the socket that was given.
/// Errors: a fault of the socket if nobody does.
fn reachable<R: Clock + Net + AllocGlobal>(
    used: &UsedFolder<'_, R>,
    deadline: &Deadline,
) -> Result<(), Fault> {
    let Some(socket) = used.socket else {
        return Ok(());
    };
    match connect(used.rt, socket, deadline) {
        Ok(_) => Ok(()),
        Err(error) => Err(socket_fault(used.rt.alloc(), socket, &error)),
    }
}

/// Returns the fault that nobody can be reached on the socket at this path.
fn socket_fault(alloc: Global, path: &str, error: &io::Error) -> Fault {
    Fault::socket(String::from_str(alloc, path), error.kind())
}
