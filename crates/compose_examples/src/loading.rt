//! Loading a table while a key is pending, over each form of a table.
use crate::helpers::expect_text;
use crate::tables::{Tables, keysym_of};
use arrayvec::ArrayString;
use compose_model::Status;
use compose_state::{ComposeState, Fed};
use compose_tree::{BuildTable, ListTable, PackedTable};
use keysym_core::{Keysym, Names};
use std::alloc::Global;
use std::process::Abort;
use std::test::Fail;

const OLD: &str = "<dead_grave> <dead_acute> <e> : \"x\"\n<dead_acute> <e> : \"x\"\n";

const NEW: &str = "<dead_acute> <e> : \"x\"\n";

/// The status, the number of pending keysyms, and the first of them.
type Standing = (Status, usize, Option<Keysym>);

/// Returns the status and the pending keysyms of a state.
fn standing(state: &ComposeState) -> Standing {
    (
        state.status(),
        state.pending().len(),
        state.pending().first().copied(),
    )
}

fn feed<T: BuildTable>(state: &mut ComposeState, table: &T, names: &Names, keysym: Keysym) {
    state.feed(table, names, keysym);
}

/// Feeds the keysym of a key name.
fn type_key<T: BuildTable>(
    state: &mut ComposeState,
    table: &T,
    names: &Names,
    key_name: &str,
) -> Result<(), Fail> {
    feed(state, table, names, keysym_of(names, key_name)?);
    Ok(())
}

/// Returns the state after a key on the old table and a load of the new one.
fn after_load<T: BuildTable, U: BuildTable>(alloc: Global, key: &str) -> Result<Standing, Fail> {
    let Tables { names, old, new } = Tables::<T, U>::read(alloc, OLD, NEW)?;
    loaded(&old, &new, &names, key)
}

fn loaded<T: BuildTable, U: BuildTable>(
    old: &T,
    new: &U,
    names: &Names,
    key: &str,
) -> Result<Standing, Fail> {
    let mut state = ComposeState::new();
    type_key(&mut state, old, names, key)?;
    state.refeed(new, names);
    Ok(standing(&state))
}

/// Returns the state after a key on each table, without a load.
fn without_load<T: BuildTable, U: BuildTable>(
    alloc: Global,
    key: &str,
    next: &str,
) -> Result<Standing, Fail> {
    let Tables { names, old, new } = Tables::<T, U>::read(alloc, OLD, NEW)?;
    not_loaded(&old, &new, &names, key, next)
}

fn not_loaded<T: BuildTable, U: BuildTable>(
    old: &T,
    new: &U,
    names: &Names,
    key: &str,
    next: &str,
) -> Result<Standing, Fail> {
    let mut state = ComposeState::new();
    type_key(&mut state, old, names, key)?;
    type_key(&mut state, new, names, next)?;
    Ok(standing(&state))
}

/// Expects this state after a key and a load, over tables of each form.
fn expect_after_load(
    rt: &impl Abort,
    alloc: Global,
    key: &str,
    wanted: Standing,
) -> Result<(), Fail> {
    let standings = [
        after_load::<ListTable, ListTable>(alloc, key)?,
        after_load::<PackedTable, PackedTable>(alloc, key)?,
        after_load::<ListTable, PackedTable>(alloc, key)?,
        after_load::<PackedTable, ListTable>(alloc, key)?,
    ];
    for standing in standings {
        assert_eq!(rt; standing, wanted);
    }
    Ok(())
}

#[test]
fn a_load_forgets_unknown_keys(rt: HostRuntime) -> Result<(), Fail> {
    let rest = (Status::Nothing, 0, None);
    expect_after_load(&rt, rt.alloc(), "dead_grave", rest)
}

#[test]
fn without_a_load_the_next_key_cancels(rt: HostRuntime) -> Result<(), Fail> {
    let alloc = rt.alloc();
    let standings = [
        without_load::<ListTable, ListTable>(alloc, "dead_grave", "dead_acute")?,
        without_load::<PackedTable, PackedTable>(alloc, "dead_grave", "dead_acute")?,
        without_load::<ListTable, PackedTable>(alloc, "dead_grave", "dead_acute")?,
        without_load::<PackedTable, ListTable>(alloc, "dead_grave", "dead_acute")?,
    ];
    for standing in standings {
        assert_eq!(rt; standing, (Status::Cancelled, 0, None));
    }
    Ok(())
}

#[test]
fn a_load_keeps_what_is_known(rt: HostRuntime) -> Result<(), Fail> {
    let composing = (Status::Composing, 1, Keysym::new(0xfe51));
    expect_after_load(&rt, rt.alloc(), "dead_acute", composing)
}

/// The keys that are typed on the old table, the key that comes after a load of the new one, the
/// word of its answer, the text that it commits, and the status and the pending keysyms then.
struct NextKeyRow {
    keys: &'static [&'static str],
    next: &'static str,
    word: &'static str,
    text: &'static str,
    standing: (Status, usize, u32),
}

#[rattlefmt::skip]
static NEXT_KEYS: [NextKeyRow; 8] = [
    NextKeyRow { keys: &[], next: "a", word: "nothing", text: "a", standing: (Status::Nothing, 0, 0) },
    NextKeyRow { keys: &[], next: "dead_acute", word: "composing", text: "", standing: (Status::Composing, 1, 0xfe51) },
    NextKeyRow { keys: &["dead_acute"], next: "e", word: "composed", text: "x", standing: (Status::Composed, 0, 0) },
    NextKeyRow { keys: &["dead_acute"], next: "a", word: "cancelled", text: "", standing: (Status::Cancelled, 0, 0) },
    NextKeyRow { keys: &["dead_grave", "dead_acute"], next: "e", word: "composed", text: "x", standing: (Status::Composed, 0, 0) },
    NextKeyRow { keys: &["dead_grave"], next: "a", word: "nothing", text: "a", standing: (Status::Nothing, 0, 0) },
    NextKeyRow { keys: &["dead_grave"], next: "Shift_L", word: "ignored", text: "", standing: (Status::Nothing, 0, 0) },
    NextKeyRow { keys: &["dead_grave", "dead_acute"], next: "Shift_L", word: "ignored", text: "", standing: (Status::Composing, 1, 0xfe51) },
];

/// Moves the state to the table and feeds a key.
fn refeed_and_feed<'t, T: BuildTable>(
    state: &mut ComposeState,
    table: &'t T,
    names: &Names,
    keysym: Keysym,
) -> Fed<'t> {
    state.refeed_and_feed(table, names, keysym)
}

/// Expects the answer of a row over these tables.
fn expect_next<T: BuildTable, U: BuildTable>(
    rt: &impl Abort,
    alloc: Global,
    row: &NextKeyRow,
) -> Result<(), Fail> {
    let Tables { names, old, new } = Tables::<T, U>::read(alloc, OLD, NEW)?;
    let mut state = ComposeState::new();
    for key in row.keys {
        type_key(&mut state, &old, &names, key)?;
    }
    let fed = refeed_and_feed(&mut state, &new, &names, keysym_of(&names, row.next)?);
    let mut text = ArrayString::new();
    fed.text_into(&mut text);
    expect_text(rt, row.next, fed.word(), row.word);
    expect_text(rt, row.next, text.as_str(), row.text);
    let (status, count, first) = standing(&state);
    let first = first.map_or(0, |keysym| keysym.value());
    assert_eq!(rt; (status, count, first), row.standing);
    Ok(())
}

#[test]
fn a_key_after_a_load(rt: HostRuntime) -> Result<(), Fail> {
    let alloc = rt.alloc();
    for row in &NEXT_KEYS {
        expect_next::<ListTable, ListTable>(&rt, alloc, row)?;
        expect_next::<PackedTable, PackedTable>(&rt, alloc, row)?;
        expect_next::<ListTable, PackedTable>(&rt, alloc, row)?;
        expect_next::<PackedTable, ListTable>(&rt, alloc, row)?;
    }
    Ok(())
}
