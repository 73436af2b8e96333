//! A compose state as numbers in C's memory.
ghost use Rattle.std.specs.Prelude.{◌≡◌, ◌≤◌, take, length, IsTrue};
ghost use Rattle.std.specs.List.{list_all};
ghost use Rattle.keysym_core.specs.Keysym.{is_keysym};
ghost use Rattle.compose_state.specs.Texts.{text_bytes};
ghost use Rattle.compose_c.specs.States as words;
ghost use Rattle.compose_c.specs.States.{session_of, status_number};

use crate::copies::{put, put_numbers};
use arrayvec::{ArrayString, ArrayVec};
use compose_model::Status;
use compose_state::{ComposeState, Fed, FedText};
use keysym_core::Keysym;

/// A compose state. All zeros are a state at rest, and any numbers are a state: nothing is pending
/// if the count is above 31 or one of the pending numbers is not a keysym, a status above 3 means
/// nothing, and any numbers are hints.
#[repr(C)]
#[derive(Clone, Copy)]
pub struct State {
    /// The numbers of the pending keysyms, at the front.
    pub pending: [u32; 31],
    /// For each pending keysym, a hint for the index of its edge.
    pub hints: [u32; 31],
    /// The number of pending keysyms, at most 31.
    pub count: u32,
    /// The status, as the number in `enum xkb_compose_status`, from 0 to 3.
    pub status: u32,
}

/// Returns the pending keysyms.
fn pending_of(state: &State) -> ArrayVec<Keysym, 31>
    ensures { result.items ≡ words.pending_of state.now }
{
    if state.count > 31 {
        return ArrayVec::new();
    }
    let (numbers, _) = state.pending.split_at(state.count as usize);
    keysyms_of(numbers)
}

/// Returns the pending keysyms as numbers, at most 31. O(pending keysyms).
#[inline(always)]
pub fn pending_numbers(state: &State) -> &[u32]
    ensures value { result.now ≡ (session_of state.now).pending }
    ensures front { take (length result.now) state.now.pending ≡ result.now }
    ensures few { length result.now ≤ 31 }
    ensures keysyms { IsTrue (list_all is_keysym result.now) }
{
    let (none, _) = state.pending.split_at(0);
    if state.count > 31 {
        return none;
    }
    let (numbers, _) = state.pending.split_at(state.count as usize);
    if are_keysyms(numbers) {
        return numbers;
    }
    none
}

/// Returns whether all of the numbers are keysyms. O(numbers).
#[inline(always)]
fn are_keysyms(numbers: &[u32]) -> bool
    ensures { result ≡ list_all is_keysym numbers.now }
{
    for number in numbers {
        if *number > Keysym::GREATEST {
            return false;
        }
    }
    true
}

/// Returns the keysyms with these numbers, or none if one of the numbers is not a keysym.
fn keysyms_of(numbers: &[u32]) -> ArrayVec<Keysym, 31>
    requires { length numbers.now ≤ 31 }
    ensures { result.items ≡ words.keysyms_of numbers.now }
{
    let mut keysyms = ArrayVec::new();
    for number in numbers {
        let Some(keysym) = Keysym::new(*number) else {
            return ArrayVec::new();
        };
        keysyms.push(keysym);
    }
    keysyms
}

/// Returns the status with this number; any number above 3 means `Nothing`. O(1).
#[inline(always)]
pub fn status_of(number: u32) -> Status
    ensures { result ≡ words.status_of number }
{
    match number {
        1 => Status::Composing,
        2 => Status::Composed,
        3 => Status::Cancelled,
        _ => Status::Nothing,
    }
}

/// Returns the number of the status, from 0 to 3. O(1).
pub fn number_of(status: Status) -> u32
    ensures { result ≡ status_number status }
{
    match status {
        Status::Nothing => 0,
        Status::Composing => 1,
        Status::Composed => 2,
        Status::Cancelled => 3,
    }
}

/// Returns the state that the numbers mean. O(pending keysyms).
pub fn session(state: &State) -> ComposeState
    ensures { result ≡ session_of state.now }
{
    ComposeState::restored(pending_of(state), state.hints, status_of(state.status))
}

/// Puts the numbers of the keysyms at the front, and returns their number. O(keysyms).
pub fn put_keysyms(keysyms: &[Keysym], target: &mut [u32; 31]) -> u32
    requires { length keysyms.now ≤ 31 }
    ensures count { result ≡ length keysyms.now }
    ensures front { take (length keysyms.now) target.new ≡ keysyms.now }
    ensures keysyms { IsTrue (list_all is_keysym keysyms.now) }
{
    put_numbers(keysyms, target);
    keysyms.len() as u32
}

/// Stores the state as numbers, and the hints if something is pending. O(pending keysyms).
pub fn keep(state: &mut State, session: &ComposeState)
    ensures { session_of state.new ≡ session.now }
{
    state.count = put_keysyms(session.pending(), &mut state.pending);
    if state.count > 0 {
        state.hints = session.edge_indexes();
    }
    state.status = number_of(session.status());
}

/// Puts the text of the answer at the front of the array, and returns its length in bytes, at most
/// 255. O(its bytes).
pub fn put_text(fed: &Fed<'_>, target: &mut [u8; 255]) -> u32
    ensures text { take result target.new ≡ text_bytes fed.now.text }
    ensures few { result ≤ 255 }
{
    match fed.text {
        FedText::Empty => 0,
        FedText::Char(_) => put_character(fed, target),
        FedText::Slice(text) => {
            put(text.as_bytes(), target);
            text.len() as u32
        }
    }
}

/// Does the same for a text that is a character.
fn put_character(fed: &Fed<'_>, target: &mut [u8; 255]) -> u32
    ensures text { take result target.new ≡ text_bytes fed.now.text }
    ensures few { result ≤ 255 }
{
    let mut text = ArrayString::new();
    fed.text_into(&mut text);
    let bytes = text.as_str().as_bytes();
    put(bytes, target);
    bytes.len() as u32
}
