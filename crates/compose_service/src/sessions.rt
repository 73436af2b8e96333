//! The sessions of a service, by number.
ghost use Rattle.std.specs.Prelude.{◌≡◌, ◌<◌, ◌++◌, [], ◌∷◌, ℕ, length, map, true, Some, None, is_some, IsNone, MatchOption, OnOk, OnErr, nat_eq, nat_lt, slice_get};
ghost use Rattle.std.specs.Map.{lookup};
ghost use Rattle.compose_model.specs.Session.{Session, rest, loaded, fed as session_fed};
ghost use Rattle.compose_state.specs.Answers.{IsFed};
ghost use Rattle.compose_wire.specs.Messages as words;
ghost use Rattle.compose_wire.specs.Replies.{HasAnswerValue};
ghost use Rattle.compose_machine.specs.Machine.{session_of, with_session, without_session, all_loaded};
ghost use Rattle.compose_machine.specs.Late.{refed_row, rows_at_swap};

use arrayvec::ArrayVec;
use compose_cert::Certificate;
use compose_state::{ComposeState, Fed};
use compose_tree::ComposeTable;
use compose_wire::ReplyBody;
use indexmap::IndexMap;
use keysym_core::{Keysym, Names};
use std::alloc::{AllocError, Global};
use std::marker::Model;

/// The number of hints.
const HINTS: usize = 4_096;

/// Sessions by their numbers, in the order in which they were opened.
#[derive(Drop)]
pub struct Sessions {
    rows: IndexMap<u32, ComposeState>,
    // by the last twelve bits of a session number: the index of the session that was found last; a hint, which is
    // always checked
    hints: [u16; HINTS],
}

impl Model for Sessions {
    ghost use Rattle.std.specs.Prelude.{List};
    ghost use Rattle.compose_machine.specs.Machine.{Row};
    ghost use Rattle.compose_service.specs.Rows.{rows_of};

    ghost Value = { List Row };

    ghost view = { λ s. rows_of s.rows.entries };
}

impl Sessions {
    /// Makes an empty list of sessions; takes no memory yet. O(1).
    pub fn new(alloc: Global) -> Sessions
        ensures { result ≡ [] }
    {
        Sessions {
            rows: IndexMap::new(alloc),
            hints: [0; HINTS],
        }
    }

    /// Returns the number of open sessions. O(1).
    pub fn count(&self) -> usize
        ensures { result ≡ length self.now }
    {
        self.rows.len()
    }

    /// Whether the session is open. O(1).
    pub fn has(&self, number: u32) -> bool
        ensures { result ≡ is_some (session_of self.now number) }
    {
        self.rows.contains_key(&number)
    }

    /// Adds a session at rest after the others. `Err(AllocError)` if memory runs out; nothing
    /// changes then. O(1), amortized.
    pub fn open(&mut self, number: u32) -> Result<(), AllocError>
        requires { IsNone (session_of self.old number) }
        ensures ok { OnOk result
            (self.new ≡ self.old ++ record { number = number; session = rest } ∷ []) }
        ensures err { OnErr result (self.new ≡ self.old) }
    {
        self.rows.insert(number, ComposeState::new())?;
        Ok(())
    }

    /// Refeeds the session by the table, and returns whether there is one. Takes no memory.
    /// O(pending keysyms × log edges).
    pub fn refeed<T: ComposeTable>(&mut self, number: u32, table: &T, names: &Names) -> bool
        ensures value { self.new ≡ map (refed_row (T.definitions table.now) number) self.old }
        ensures some { result ≡ is_some (session_of self.new number) }
    {
        let Some(session) = self.rows.get_mut(&number) else {
            return false;
        };
        session.refeed(table, names);
        true
    }

    /// Refeeds the session by the table and feeds a key to it, if there is one. Takes no memory,
    /// and costs what `ComposeState::refeed_and_feed` does; the session is looked up at its hint
    /// first.
    #[inline(always)]
    pub fn feed<'t, T: ComposeTable>(
        &mut self,
        number: u32,
        table: &'t T,
        names: &Names,
        keysym: Keysym,
    ) -> Option<Fed<'t>>
        ensures { MatchOption result ((session_of self.old number ≡ None) × (self.new ≡ self.old))
            (λ reported. (s : Session) × (session_of self.old number ≡ Some s)
            × (self.new
            ≡ with_session self.old number
            (session_fed (T.definitions table.now)
            (loaded (T.definitions table.now) s) keysym))
            × IsFed names.now (T.definitions table.now)
            (loaded (T.definitions table.now) s) keysym reported) }
    {
        let hint = &mut self.hints[number as usize % HINTS];
        let Some(index) = index_of(&self.rows, number, hint) else {
            return None;
        };
        let Some(session) = self.rows.get_index_mut(index) else {
            return None;
        };
        let fed = session.refeed_and_feed(table, names, keysym);
        Some(fed)
    }

    /// Resets the session, if there is one, and returns whether there is. O(1).
    pub fn reset(&mut self, number: u32) -> bool
        ensures value { self.new ≡ with_session self.old number rest }
        ensures some { result ≡ is_some (session_of self.old number) }
    {
        let Some(session) = self.rows.get_mut(&number) else {
            return false;
        };
        session.reset();
        true
    }

    /// Removes the session, if there is one, and returns whether there was. O(sessions opened
    /// later).
    pub fn close(&mut self, number: u32) -> bool
        ensures value { self.new ≡ without_session self.old number }
        ensures some { result ≡ is_some (session_of self.old number) }
    {
        let _before = self.rows.len();
        self.rows.shift_remove(&number).is_some()
    }

    /// Returns the pending keys of the session and its status, if there is one. O(pending keysyms).
    pub fn state(&self, number: u32) -> Option<ReplyBody>
        ensures { MatchOption result (session_of self.now number ≡ None)
            (λ answer. (s : Session) × (session_of self.now number ≡ Some s)
            × HasAnswerValue answer (words.state s.status s.pending)) }
    {
        let Some(session) = self.rows.get(&number) else {
            return None;
        };
        let mut pending = ArrayVec::new();
        pending.try_extend_from_slice(session.pending()).unwrap();
        Some(ReplyBody::State(session.status(), pending))
    }

    /// Prepares for a table that comes with this certificate and replaces the given one: if it has
    /// fresh keysyms, all sessions are refed by the old table, and otherwise they stay as they are.
    /// Takes no memory.
    pub fn leave<T: ComposeTable>(&mut self, certificate: &Certificate, table: &T, names: &Names)
        ensures { self.new ≡ rows_at_swap certificate.now.fresh (T.definitions table.now) self.old }
    {
        if has_fresh(certificate) {
            self.refeed_all(table, names);
        }
    }

    /// Refeeds every session by the table. Takes no memory. O(sessions × pending keysyms × log
    /// edges).
    pub fn refeed_all<T: ComposeTable>(&mut self, table: &T, names: &Names)
        ensures { self.new ≡ all_loaded (T.definitions table.now) self.old }
    {
        self.rows.retain(
            |_number: &u32, each: &mut ComposeState| -> bool
                ensures { (result ≡ true)
                    × (each.new ≡ loaded (T.definitions table.entry.now) each.old) }
            {
                each.refeed(table, names);
                true
            },
        );
    }
}

/// Whether the certificate lists fresh keysyms. O(1).
fn has_fresh(certificate: &Certificate) -> bool
    ensures { result ≡ nat_lt 0 (length certificate.now.fresh) }
{
    certificate.fresh_count() > 0
}

/// Returns the index of the session, if there is one. It checks the hinted index first, and updates
/// the hint if the session is found elsewhere. O(1).
#[inline(always)]
fn index_of(rows: &IndexMap<u32, ComposeState>, number: u32, hint: &mut u16) -> Option<usize>
    ensures { MatchOption result (lookup (nat_eq number) rows.now.entries ≡ None)
        (λ index. (s : Session) × (slice_get rows.now.entries index ≡ Some (number, s))) }
{
    let hinted = usize::from(*hint);
    if let Some((there, _)) = rows.get_index(hinted) {
        if *there == number {
            return Some(hinted);
        }
    }
    let (index, _, _) = rows.get_full(&number)?;
    *hint = u16::try_from(index).unwrap_or(0);
    Some(index)
}
