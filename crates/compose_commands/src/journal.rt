//! A service that keeps its table, and prints what becomes of loads.
use crate::connection_ends::print_text;
use crate::kept_file::KeptFile;
use crate::state_folder::print_unsynced;
use compose_bundle::read_bundle;
use compose_keep::Keeper;
use compose_serve::Responder;
use compose_serving::{LoadEnd, load_text, table_text};
use compose_session::refusal_words;
use compose_table_file::plain_path;
use compose_tree::{BuildTable, ComposeTable};
use compose_wire::{Body, Reply, ReplyBody, Request};
use std::alloc::{AllocError, Global};
use std::fs::File;
use std::io::ErrorKind;
use std::rt::Files;

/// The note if `--fresh` names other keys than the folder kept.
const NEW_FRESH: &str =
    "note: --fresh names other keys than the folder kept; it keeps these from now on\n";

/// A service that keeps its table. A line is printed for each load, with what became of it.
#[derive(Drop)]
pub struct Journal<'f, R: Files<File = File> + AllocGlobal, T: BuildTable> {
    rt: &'f R,
    keeper: Keeper<T, KeptFile<'f, R>>,
}

impl<'f, R: Files<File = File> + Print + Eprint + AllocGlobal, T: BuildTable> Journal<'f, R, T> {
    /// Returns the service of this keeper.
    pub fn new(rt: &'f R, keeper: Keeper<T, KeptFile<'f, R>>) -> Journal<'f, R, T> {
        Journal { rt, keeper }
    }

    /// Returns the number of open sessions.
    pub fn session_count(&self) -> usize {
        self.keeper.service().session_count()
    }

    /// Returns whether these are the lines of the names in use, as a file keeps them; true if none
    /// are given.
    pub fn has_names(&self, names: Option<&[u8]>) -> bool {
        match names {
            Some(names) => names == self.keeper.place().names(),
            None => true,
        }
    }

    /// Stores the table in use with its new settings, if they aren't kept yet, and prints a note.
    /// Errors: the reason if it can't be stored.
    pub fn keep_settings(&self) -> Result<(), ErrorKind> {
        let place = self.keeper.place();
        if place.has_new_settings() {
            let changed = place.store_settings(self.rt.alloc())?;
            let _ = eprint!(self.rt; "{NEW_FRESH}");
            print_unsynced(self.rt, place.folder(), changed);
        }
        Ok(())
    }

    /// Prints the number of sequences of the table, and the file that it came from.
    pub fn print_table(&self) {
        let alloc = self.rt.alloc();
        let text = match origin_of(alloc, self.keeper.place().payload()) {
            Ok(origin) => table_text(alloc, self.sequences(), &origin),
            Err(error) => Err(error),
        };
        let _ = print_text(self.rt, text);
    }

    /// Returns the number of sequences of the table.
    fn sequences(&self) -> u32 {
        self.keeper.service().table().leaf_count()
    }

    /// Prints what became of a load, before which the table had this number of sequences.
    fn print_load(&self, before: u32, payload: &[u8], answer: &ReplyBody) {
        let _ = print_text(self.rt, self.load_line(before, payload, answer));
        if let ReplyBody::Loaded(_) = answer {
            let place = self.keeper.place();
            print_unsynced(self.rt, place.folder(), place.changed());
        }
    }

    /// Returns the line about a load.
    fn load_line(
        &self,
        before: u32,
        payload: &[u8],
        answer: &ReplyBody,
    ) -> Result<String, AllocError> {
        let alloc = self.rt.alloc();
        match (answer, self.keeper.place().failure()) {
            (ReplyBody::Refused(9), Some(kind)) => {
                let reason = format!(in alloc; "it can't be stored: {kind}")?;
                load_text(alloc, LoadEnd::Refused { reason: &reason })
            }
            (ReplyBody::Refused(code), _) => {
                let reason = refusal_words(*code);
                load_text(alloc, LoadEnd::Refused { reason })
            }
            _ => {
                let origin = origin_of(alloc, payload)?;
                let end = LoadEnd::Taken {
                    sequences: self.sequences(),
                    before,
                    origin: &origin,
                };
                load_text(alloc, end)
            }
        }
    }
}

impl<R: Files<File = File> + Print + Eprint + AllocGlobal, T: BuildTable> Responder
    for Journal<'_, R, T> {
    ghost use Rattle.compose_machine.specs.Late.{seen};
    ghost use Rattle.compose_service.specs.Reading.{reading as load_reading};

    ghost reading = { load_reading };

    ghost state = { λ s. seen s.keeper.service };

    fn answer_into(&mut self, alloc: Global, request: &Request, reply: &mut Reply) {
        let before = self.sequences();
        Responder::answer_into(&mut self.keeper, alloc, request, reply);
        match &request.body {
            Body::Load(payload) | Body::LoadLongest(payload) => {
                self.print_load(before, payload.as_slice(), &reply.answer);
            }
            _ => {}
        }
    }
}

/// Returns the path of the first source of a payload: the file that its table came from.
fn origin_of(alloc: Global, payload: &[u8]) -> Result<String, AllocError> {
    match read_bundle(alloc, payload) {
        Ok(bundle) => plain_path(alloc, bundle.sources.name(0).unwrap_or("")),
        Err(_) => Ok(String::new(alloc)),
    }
}
