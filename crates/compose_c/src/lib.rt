//! Proved Compose tables and compose states for C: the static library behind `composecheck.h`.
//!
//! The library hands out nothing that it owns. A table is five arrays in the caller's memory, which
//! `composecheck_compile` fills and which never change after that: any number of threads and states
//! can read them at the same time. A state is a struct of numbers in the caller's memory, and all
//! zeros are a state at rest. So there are no handles, nothing to free and no locks; a call that
//! allocates memory frees all of it before it returns.
#![tactic(auto)]

ghost use Rattle.std.specs.Prelude.{◌≡◌, ◌≢◌, ◌≤◌, ◌<◌, ◌+◌, ℕ, List, true, false, take, map, length, slice_get, Some, None, option_map, ◌*◌};
ghost use Rattle.compose_model.specs.Nodes.{edges as keys_behind};
ghost use Rattle.compose_model.specs.Step.{effect};
ghost use Rattle.compose_model.specs.Table.{Definition};
ghost use Rattle.compose_model.specs.Session.{rest, fed, loaded};
ghost use Rattle.compose_state.specs.Answers.{sequence_text};
ghost use Rattle.compose_tree.specs.Packed.{IsPacked, unpacked};
ghost use Rattle.compose_tree.specs.Targets.{target_of};
ghost use Rattle.compose_c.specs.States.{session_of, status_number, feed_number};
ghost use Rattle.compose_c.specs.Arrays.{edge_of};
ghost use Rattle.compose_c.specs.Characters.{AreCharacters, ReportsNames};
ghost use Rattle.compose_c.specs.Compiled.{IsRead, IsReadWithResults, AreSizesOf, Fits, rule_of};
ghost use Rattle.compose_c.specs.Faults.{Reports};
ghost use Rattle.compose_c.specs.Finds.{Finds, Needs, ReportsFind, Wants, locale_path, search_of};
ghost use Rattle.compose_c.specs.Includes.{IsInclude, IncludesNone};
ghost use Rattle.compose_c.specs.Loads.{IsCertified, ReportsUncertified, IsLoaded, ReportsNotLoaded};
ghost use Rattle.compose_c.specs.Results.{result_at};
ghost use Rattle.compose_c.specs.Sentences.{IsSentence};

mod answers;
mod characters;
mod compile;
mod copies;
mod explain;
mod fault;
mod feeding;
mod find;
mod following;
mod include;
mod load;
mod locale;
mod loose;
mod packed;
mod pieces;
mod results;
mod state;

use characters::characters;
pub use compile::Sizes;
use compile::compile;
use compose_state::ComposeState;
use compose_tree::{LentTable, PackedEdge, PackedNode};
use copies::put;
use explain::sentence;
pub use fault::FaultRecord;
use feeding::feed;
use find::find;
use following::following;
use include::include;
use keysym_core::Keysym;
use load::{check, load};
use locale::locale_file;
use loose::LooseArrays;
pub use loose::LooseEdge;
use packed::is_table;
use results::{compile_with_results, result_of};
pub use state::State;
use state::{keep, number_of, pending_numbers, put_text, session, status_of};
use std::alloc::Global;

/// Feeds one keysym to the state. If it completes a sequence, the text of the sequence is put at
/// the front of `text`; `text_length` is its number of bytes, 0 without a text.
///
/// Returns 1 if the keysym is accepted and 0 if it is ignored (`enum xkb_compose_feed_result`), or
/// 2 if the number is above `0x1fffffff` and so not a keysym: then the state is not changed, and
/// `text_length` is 0. Allocates nothing; O(pending keysyms + log edges of a node) if the pending
/// keysyms were fed with this table, otherwise O(pending keysyms × log edges of a node).
#[unsafe(no_mangle)]
pub extern "C" fn composecheck_feed(
    nodes: &[PackedNode],
    edges: &[PackedEdge],
    texts: &[u8],
    long_texts: &[u8],
    hints: &[u8],
    state: &mut State,
    key: u32,
    text: &mut [u8; 255],
    text_length: &mut u32,
) -> u32
    requires { IsPacked nodes.now edges.now texts.now long_texts.now
        (unpacked nodes.now edges.now texts.now long_texts.now) }
    ensures state { key ≤ 0x1fffffff → session_of state.new
        ≡ fed (unpacked nodes.now edges.now texts.now long_texts.now) (session_of state.old) key }
    ensures text { key ≤ 0x1fffffff → take text_length.new text.new
        ≡ sequence_text
        (effect (unpacked nodes.now edges.now texts.now long_texts.now)
        (session_of state.old).pending key)
        (unpacked nodes.now edges.now texts.now long_texts.now) (session_of state.old).pending key }
    ensures length { text_length.new ≤ 255 }
    ensures reported { result ≡ feed_number key }
    ensures no_keysym { 0x1fffffff < key → state.new ≡ state.old }
    ensures no_text { 0x1fffffff < key → text_length.new ≡ 0 }
    ensures untouched { 0x1fffffff < key → text.new ≡ text.old }
{
    let Some(keysym) = Keysym::new(key) else {
        *text_length = 0;
        return 2;
    };
    let table = LentTable::of(nodes, edges, texts, long_texts, hints);
    let fed = feed(state, &table, keysym);
    *text_length = put_text(&fed, text);
    u32::from(fed.accepted)
}

/// Moves the state to another table, in the middle of a sequence too: the pending keysyms are typed
/// anew with that table. No text is committed. Allocates nothing.
#[unsafe(no_mangle)]
pub extern "C" fn composecheck_refeed(
    nodes: &[PackedNode],
    edges: &[PackedEdge],
    texts: &[u8],
    long_texts: &[u8],
    hints: &[u8],
    state: &mut State,
)
    requires { IsPacked nodes.now edges.now texts.now long_texts.now
        (unpacked nodes.now edges.now texts.now long_texts.now) }
    ensures { session_of state.new
        ≡ loaded (unpacked nodes.now edges.now texts.now long_texts.now) (session_of state.old) }
{
    let table = LentTable::of(nodes, edges, texts, long_texts, hints);
    let mut now = session(state);
    now.refeed_alone(&table);
    keep(state, &now);
}

/// Resets the state: nothing is pending, and the status is 0 (nothing). O(1).
#[unsafe(no_mangle)]
pub extern "C" fn composecheck_reset(state: &mut State)
    ensures { session_of state.new ≡ rest }
{
    keep(state, &ComposeState::new());
}

/// Returns the status of the state, as the number in `enum xkb_compose_status`: 0 nothing, 1
/// composing, 2 composed, 3 cancelled. O(1).
#[unsafe(no_mangle)]
pub extern "C" fn composecheck_status(state: &State) -> u32
    ensures value { result ≡ status_number (session_of state.now).status }
    ensures few { result ≤ 3 }
{
    number_of(status_of(state.status))
}

/// Puts the pending keysyms at the front of `keysyms`, and returns their number, at most 31.
/// O(pending keysyms).
#[unsafe(no_mangle)]
pub extern "C" fn composecheck_pending(state: &State, keysyms: &mut [u32; 31]) -> u32
    ensures value { take result keysyms.new ≡ (session_of state.now).pending }
    ensures few { result ≤ 31 }
{
    let pending = pending_numbers(state);
    put(pending, keysyms);
    pending.len() as u32
}

/// Finds the keysym at this index, counted from 0, among the keysyms that may follow the pending
/// ones, in increasing order, and what feeding it to the state would do. Puts the keysym into
/// `key`, the status after it into `status`, and the text that it would commit into `text` and
/// `text_length`.
///
/// Returns false if there are no more such keysyms. The state is not changed. Allocates nothing;
/// O(pending keysyms × log edges of a node).
#[unsafe(no_mangle)]
pub extern "C" fn composecheck_following(
    nodes: &[PackedNode],
    edges: &[PackedEdge],
    texts: &[u8],
    long_texts: &[u8],
    hints: &[u8],
    state: &State,
    index: u32,
    key: &mut u32,
    status: &mut u32,
    text: &mut [u8; 255],
    text_length: &mut u32,
) -> bool
    requires { IsPacked nodes.now edges.now texts.now long_texts.now
        (unpacked nodes.now edges.now texts.now long_texts.now) }
    ensures none { result ≡ false
        → length
        (keys_behind (unpacked nodes.now edges.now texts.now long_texts.now)
        (session_of state.now).pending) ≤ index }
    ensures key { result ≡ true
        → slice_get
        (keys_behind (unpacked nodes.now edges.now texts.now long_texts.now)
        (session_of state.now).pending) index ≡ Some key.new }
    ensures status { result ≡ true → status.new
        ≡ status_number
        (fed (unpacked nodes.now edges.now texts.now long_texts.now) (session_of state.now)
        key.new).status }
    ensures text { result ≡ true → take text_length.new text.new
        ≡ sequence_text
        (effect (unpacked nodes.now edges.now texts.now long_texts.now)
        (session_of state.now).pending key.new)
        (unpacked nodes.now edges.now texts.now long_texts.now) (session_of state.now).pending
        key.new }
    ensures length { result ≡ true → text_length.new ≤ 255 }
    ensures untouched { result ≡ false → (key.new ≡ key.old) × (status.new ≡ status.old)
        × (text.new ≡ text.old) × (text_length.new ≡ text_length.old) }
{
    let table = LentTable::of(nodes, edges, texts, long_texts, hints);
    let mut now = session(state);
    let Some(keysym) = following(&table, now.pending(), index) else {
        return false;
    };
    let typed = now.feed_alone(&table, keysym);
    *key = keysym.value();
    *status = number_of(now.status());
    *text_length = put_text(&typed, text);
    true
}

/// Reads a table and puts its arrays into the caller's memory.
///
/// `header` holds the names of keysyms, in lines like those of `keysymdef.h`. `bundle` holds the
/// sources, the root first, in the form that `read_bundle` reads; its certificate is not used. A
/// table in which one sequence is a prefix of another one is refused unless `longest` is set: then
/// the longer sequence overrides the shorter one, as in libxkbcommon.
///
/// Returns 0 if the table is compiled; `sizes` is then the number of entries used in each array.
/// Returns 1 if the sources or the header are refused, for the reason in `fault`; `sizes` is not
/// changed then. Returns 2 if an array is too small; `sizes` is then the number of entries needed.
/// The arrays are only changed if it returns 0.
#[unsafe(no_mangle)]
pub extern "C" fn composecheck_compile(
    alloc: Global,
    header: &[u8],
    bundle: &[u8],
    longest: bool,
    nodes: &mut [PackedNode],
    edges: &mut [PackedEdge],
    texts: &mut [u8],
    long_texts: &mut [u8],
    hints: &mut [u8],
    sizes: &mut Sizes,
    fault: &mut FaultRecord,
) -> u32
    ensures read { result ≡ 0 → IsRead header.now bundle.now (rule_of longest)
        (unpacked (take sizes.new.nodes nodes.new) (take sizes.new.edges edges.new)
        (take sizes.new.texts texts.new) (take sizes.new.long_texts long_texts.new)) }
    ensures packed { result ≡ 0 → IsPacked (take sizes.new.nodes nodes.new)
        (take sizes.new.edges edges.new) (take sizes.new.texts texts.new)
        (take sizes.new.long_texts long_texts.new)
        (unpacked (take sizes.new.nodes nodes.new) (take sizes.new.edges edges.new)
        (take sizes.new.texts texts.new) (take sizes.new.long_texts long_texts.new)) }
    ensures refused { result ≡ 1 → Reports header.now bundle.now (rule_of longest) fault.new }
    ensures fits { result ≡ 0 → Fits sizes.new (length nodes.old) (length edges.old)
        (length texts.old) (length long_texts.old) (length hints.old) }
    ensures wide { result ≡ 2 → Fits sizes.new (length nodes.old) (length edges.old)
        (length texts.old) (length long_texts.old) (length hints.old) → ⊥ }
    ensures sizes { result ≢ 1
        → AreSizesOf (IsRead header.now bundle.now (rule_of longest)) sizes.new }
    ensures few { result ≤ 2 }
    ensures same_fault { result ≢ 1 → fault.new ≡ fault.old }
    ensures same_sizes { result ≡ 1 → sizes.new ≡ sizes.old }
    ensures untouched { result ≢ 0 → (nodes.new ≡ nodes.old) × (edges.new ≡ edges.old)
        × (texts.new ≡ texts.old) × (long_texts.new ≡ long_texts.old) × (hints.new ≡ hints.old) }
{
    compile(
        alloc, header, bundle, longest, nodes, edges, texts, long_texts, hints, sizes, fault,
    )
}

/// Reads a table as `composecheck_compile` does, and also puts the result keysym of each of its
/// leaves into `results`, in the order of their texts. `result_count` is their number, a quarter of
/// the bytes of `texts`.
///
/// The result keysym is the one on the line that defines the sequence; if that line names none, it
/// is the least keysym of the text's character, or 0 (`XKB_KEY_NoSymbol`) if the text isn't one
/// character or no keysym has that character.
///
/// Returns 0 if the table is compiled, 1 if the sources or the header are refused, for the reason
/// in `fault`, and 2 if an array is too small. The arrays are only changed if it returns 0.
#[unsafe(no_mangle)]
pub extern "C" fn composecheck_compile_with_results(
    alloc: Global,
    header: &[u8],
    bundle: &[u8],
    longest: bool,
    nodes: &mut [PackedNode],
    edges: &mut [PackedEdge],
    texts: &mut [u8],
    long_texts: &mut [u8],
    hints: &mut [u8],
    results: &mut [u32],
    sizes: &mut Sizes,
    result_count: &mut usize,
    fault: &mut FaultRecord,
) -> u32
    ensures read { result ≡ 0 → IsReadWithResults header.now bundle.now (rule_of longest)
        (unpacked (take sizes.new.nodes nodes.new) (take sizes.new.edges edges.new)
        (take sizes.new.texts texts.new) (take sizes.new.long_texts long_texts.new))
        (take result_count.new results.new) }
    ensures packed { result ≡ 0 → IsPacked (take sizes.new.nodes nodes.new)
        (take sizes.new.edges edges.new) (take sizes.new.texts texts.new)
        (take sizes.new.long_texts long_texts.new)
        (unpacked (take sizes.new.nodes nodes.new) (take sizes.new.edges edges.new)
        (take sizes.new.texts texts.new) (take sizes.new.long_texts long_texts.new)) }
    ensures refused { result ≡ 1 → Reports header.now bundle.now (rule_of longest) fault.new }
    ensures fits { result ≡ 0 → Fits sizes.new (length nodes.old) (length edges.old)
        (length texts.old) (length long_texts.old) (length hints.old) }
    ensures results_fit { result ≡ 0 → result_count.new ≤ length results.old }
    ensures wide { result ≡ 2 → Fits sizes.new (length nodes.old) (length edges.old)
        (length texts.old) (length long_texts.old) (length hints.old)
        → result_count.new ≤ length results.old → ⊥ }
    ensures sizes { result ≢ 1
        → AreSizesOf (IsRead header.now bundle.now (rule_of longest)) sizes.new }
    ensures count { result ≢ 1 → 4 * result_count.new ≡ sizes.new.texts }
    ensures few { result ≤ 2 }
    ensures same_fault { result ≢ 1 → fault.new ≡ fault.old }
    ensures same_sizes { result ≡ 1 → sizes.new ≡ sizes.old }
    ensures same_count { result ≡ 1 → result_count.new ≡ result_count.old }
    ensures untouched { result ≢ 0 → (nodes.new ≡ nodes.old) × (edges.new ≡ edges.old)
        × (texts.new ≡ texts.old) × (long_texts.new ≡ long_texts.old) × (hints.new ≡ hints.old) }
    ensures untouched_results { result ≢ 0 → results.new ≡ results.old }
{
    compile_with_results(
        alloc,
        header,
        bundle,
        longest,
        nodes,
        edges,
        texts,
        long_texts,
        hints,
        results,
        sizes,
        result_count,
        fault,
    )
}

/// Returns the result keysym of the sequence that feeding the keysym to the state would complete:
/// its entry in `results`, the result keysyms of the table's leaves. Returns 0 if no sequence would
/// be completed, if the sequence has no result keysym, or if `results` ends before it. The state is
/// not changed. Allocates nothing; O(pending keysyms × log edges of a node).
#[unsafe(no_mangle)]
pub extern "C" fn composecheck_result(
    nodes: &[PackedNode],
    edges: &[PackedEdge],
    texts: &[u8],
    long_texts: &[u8],
    hints: &[u8],
    results: &[u32],
    state: &State,
    key: u32,
) -> u32
    requires { IsPacked nodes.now edges.now texts.now long_texts.now
        (unpacked nodes.now edges.now texts.now long_texts.now) }
    ensures some { key ≤ 0x1fffffff → result
        ≡ result_at results.now
        (target_of (unpacked nodes.now edges.now texts.now long_texts.now)
        (session_of state.now).pending key) }
    ensures none { 0x1fffffff < key → result ≡ 0 }
{
    let Some(keysym) = Keysym::new(key) else {
        return 0;
    };
    let table = LentTable::of(nodes, edges, texts, long_texts, hints);
    result_of(&table, session(state).pending(), keysym, results)
}

/// Puts the message why `composecheck_compile` refuses the sources into `text`, in UTF-8; it is
/// empty if they are not refused. `text_length` is its number of bytes.
///
/// Returns 0 if the message is written, 1 if it doesn't fit into `text`, which needs `text_length`
/// bytes, and 2 if memory runs out. Takes as long as compiling.
#[unsafe(no_mangle)]
pub extern "C" fn composecheck_explain(
    alloc: Global,
    header: &[u8],
    bundle: &[u8],
    longest: bool,
    text: &mut [u8],
    text_length: &mut usize,
) -> u32
    ensures reason { result ≡ 0 → IsSentence header.now bundle.now (rule_of longest)
        (take text_length.new text.new) }
    ensures wide { result ≡ 1 → length text.old < text_length.new }
    ensures few { result ≤ 2 }
    ensures untouched { result ≢ 0 → text.new ≡ text.old }
    ensures same_length { result ≡ 2 → text_length.new ≡ text_length.old }
{
    let Ok(reason) = sentence(alloc, header, bundle, longest) else {
        return 2;
    };
    *text_length = reason.len();
    if reason.len() > text.len() {
        return 1;
    }
    put(reason.as_bytes(), text);
    0
}

/// Checks a certificate for a move from an old table to a new one, with the names of the header and
/// a repertoire, as the command `check` does.
///
/// Returns true if the certificate is valid: then typing with the new table is what the certificate
/// promises. Returns false if a part is refused or a condition isn't met, for the reason in
/// `fault`.
#[unsafe(no_mangle)]
pub extern "C" fn composecheck_check(
    alloc: Global,
    header: &[u8],
    old_nodes: &[PackedNode],
    old_edges: &[PackedEdge],
    old_texts: &[u8],
    old_long_texts: &[u8],
    old_hints: &[u8],
    new_nodes: &[PackedNode],
    new_edges: &[PackedEdge],
    new_texts: &[u8],
    new_long_texts: &[u8],
    new_hints: &[u8],
    repertoire: &[u8],
    certificate: &[u8],
    fault: &mut FaultRecord,
) -> bool
    requires old { IsPacked old_nodes.now old_edges.now old_texts.now old_long_texts.now
        (unpacked old_nodes.now old_edges.now old_texts.now old_long_texts.now) }
    requires new { IsPacked new_nodes.now new_edges.now new_texts.now new_long_texts.now
        (unpacked new_nodes.now new_edges.now new_texts.now new_long_texts.now) }
    ensures valid { result ≡ true → IsCertified header.now
        (unpacked old_nodes.now old_edges.now old_texts.now old_long_texts.now)
        (unpacked new_nodes.now new_edges.now new_texts.now new_long_texts.now) repertoire.now
        certificate.now }
    ensures refused { result ≡ false → ReportsUncertified header.now
        (unpacked old_nodes.now old_edges.now old_texts.now old_long_texts.now)
        (unpacked new_nodes.now new_edges.now new_texts.now new_long_texts.now) repertoire.now
        certificate.now fault.new }
    ensures same_fault { result ≡ true → fault.new ≡ fault.old }
{
    let old = LentTable::of(old_nodes, old_edges, old_texts, old_long_texts, old_hints);
    let new = LentTable::of(new_nodes, new_edges, new_texts, new_long_texts, new_hints);
    check(alloc, header, &old, &new, repertoire, certificate, fault)
}

/// Reads a table as `composecheck_compile` does, but puts its arrays into the caller's memory only
/// if the bundle's certificate is valid for a move to it from the table in use.
///
/// Returns 0 if the table is loaded, 1 if a part is refused or the certificate isn't valid, for the
/// reason in `fault`, and 2 if an array is too small. The arrays are only changed if it returns 0.
#[unsafe(no_mangle)]
pub extern "C" fn composecheck_load(
    alloc: Global,
    header: &[u8],
    old_nodes: &[PackedNode],
    old_edges: &[PackedEdge],
    old_texts: &[u8],
    old_long_texts: &[u8],
    old_hints: &[u8],
    repertoire: &[u8],
    bundle: &[u8],
    longest: bool,
    nodes: &mut [PackedNode],
    edges: &mut [PackedEdge],
    texts: &mut [u8],
    long_texts: &mut [u8],
    hints: &mut [u8],
    sizes: &mut Sizes,
    fault: &mut FaultRecord,
) -> u32
    requires { IsPacked old_nodes.now old_edges.now old_texts.now old_long_texts.now
        (unpacked old_nodes.now old_edges.now old_texts.now old_long_texts.now) }
    ensures loaded { result ≡ 0 → IsLoaded header.now
        (unpacked old_nodes.now old_edges.now old_texts.now old_long_texts.now) repertoire.now
        bundle.now (rule_of longest)
        (unpacked (take sizes.new.nodes nodes.new) (take sizes.new.edges edges.new)
        (take sizes.new.texts texts.new) (take sizes.new.long_texts long_texts.new)) }
    ensures packed { result ≡ 0 → IsPacked (take sizes.new.nodes nodes.new)
        (take sizes.new.edges edges.new) (take sizes.new.texts texts.new)
        (take sizes.new.long_texts long_texts.new)
        (unpacked (take sizes.new.nodes nodes.new) (take sizes.new.edges edges.new)
        (take sizes.new.texts texts.new) (take sizes.new.long_texts long_texts.new)) }
    ensures refused { result ≡ 1 → ReportsNotLoaded header.now
        (unpacked old_nodes.now old_edges.now old_texts.now old_long_texts.now) repertoire.now
        bundle.now (rule_of longest) fault.new }
    ensures fits { result ≡ 0 → Fits sizes.new (length nodes.old) (length edges.old)
        (length texts.old) (length long_texts.old) (length hints.old) }
    ensures wide { result ≡ 2 → Fits sizes.new (length nodes.old) (length edges.old)
        (length texts.old) (length long_texts.old) (length hints.old) → ⊥ }
    ensures sizes { result ≢ 1 → AreSizesOf
        (IsLoaded header.now
        (unpacked old_nodes.now old_edges.now old_texts.now old_long_texts.now) repertoire.now bundle.now
        (rule_of longest)) sizes.new }
    ensures few { result ≤ 2 }
    ensures same_fault { result ≢ 1 → fault.new ≡ fault.old }
    ensures same_sizes { result ≡ 1 → sizes.new ≡ sizes.old }
    ensures untouched { result ≢ 0 → (nodes.new ≡ nodes.old) × (edges.new ≡ edges.old)
        × (texts.new ≡ texts.old) × (long_texts.new ≡ long_texts.old) × (hints.new ≡ hints.old) }
{
    let old = LentTable::of(old_nodes, old_edges, old_texts, old_long_texts, old_hints);
    load(
        alloc, header, &old, repertoire, bundle, longest, nodes, edges, texts, long_texts, hints,
        sizes, fault,
    )
}

/// Returns 1 if these arrays, of any numbers, are a table as `composecheck_compile` writes one, 0
/// if they are the arrays of no table, and 2 if memory runs out. The hints of a table are not
/// checked, since any bytes are hints. Takes about a third of the time of compiling the table.
#[unsafe(no_mangle)]
pub extern "C" fn composecheck_is_table(
    alloc: Global,
    nodes: &[PackedNode],
    edges: &[LooseEdge],
    texts: &[u8],
    long_texts: &[u8],
) -> u32
    ensures packed { result ≡ 1 → IsPacked nodes.now (map edge_of edges.now) texts.now long_texts.now
        (unpacked nodes.now (map edge_of edges.now) texts.now long_texts.now) }
    ensures refused { result ≡ 0 → (table : List Definition)
        → IsPacked nodes.now (map edge_of edges.now) texts.now long_texts.now table → ⊥ }
    ensures few { result ≤ 2 }
{
    let arrays = LooseArrays {
        nodes,
        edges,
        texts,
        long_texts,
    };
    match is_table(alloc, &arrays) {
        Ok(true) => 1,
        Ok(false) => 0,
        Err(_) => 2,
    }
}

/// Puts the character of each keysym, by the names of a header, into `target` at the index of the
/// keysym: its code point, or 0 if the keysym has none or the number is above `0x1fffffff`. A key
/// that is part of no sequence commits its character, in UTF-8.
///
/// Returns 0 if the characters are written, 1 if the header is refused, for the reason in `fault`,
/// and 2 if `target` has less room than there are keysyms. O(header + keysyms).
#[unsafe(no_mangle)]
pub extern "C" fn composecheck_characters(
    alloc: Global,
    header: &[u8],
    keysyms: &[u32],
    target: &mut [u32],
    fault: &mut FaultRecord,
) -> u32
    ensures done { result ≡ 0 → AreCharacters header.now keysyms.now
        (take (length keysyms.now) target.new) }
    ensures refused { result ≡ 1 → ReportsNames header.now fault.new }
    ensures wide { result ≡ 2 → length target.old < length keysyms.now }
    ensures few { result ≤ 2 }
    ensures untouched { result ≢ 0 → target.new ≡ target.old }
    ensures same_fault { result ≢ 1 → fault.new ≡ fault.old }
{
    characters(alloc, header, keysyms, target, fault)
}

/// Finds the name in an include line, the bytes between its quotes, and puts it into `name`. The
/// caller can find the sources of a table with it, without a callback: it searches the lines of
/// each source that it has, and adds the sources that they include. Allocates nothing; O(bytes).
///
/// Returns 0 if the line is not an include or is not UTF-8, and 1 if it is an include. Returns 2 if
/// the name doesn't fit into `name`, which needs `name_length` bytes.
#[unsafe(no_mangle)]
pub extern "C" fn composecheck_include(line: &[u8], name: &mut [u8], name_length: &mut usize) -> u32
    ensures none { result ≡ 0 → IncludesNone line.now }
    ensures some { result ≡ 1 → IsInclude line.now (take name_length.new name.new) }
    ensures wide { result ≡ 2 → length name.old < name_length.new }
    ensures needed { result ≡ 2 → (raw : List ℕ) × IsInclude line.now raw
        × (length raw ≡ name_length.new) }
    ensures few { result ≤ 2 }
    ensures untouched { result ≢ 1 → name.new ≡ name.old }
    ensures same_length { result ≡ 0 → name_length.new ≡ name_length.old }
{
    match include(line) {
        Some(raw) => {
            *name_length = raw.len();
            if raw.len() > name.len() {
                return 2;
            }
            put(raw.as_bytes(), name);
            1
        }
        None => 0,
    }
}

/// Finds the files of a table, one path after another: the caller looks for a file at each path,
/// and keeps what it found. The library opens no file, and keeps nothing between two calls.
///
/// `answers` holds what was found so far: the number of answers (2 bytes), and for each answer the
/// length of its path (2 bytes), the path, and then either 1, the length of the file (4 bytes) and
/// its bytes, or 0 if there is no file. All numbers are big-endian. `root` is the path of the
/// table; `system`, `locale` and `home` are the expansions of `%S`, `%L` and `%H`, and `sysroot` is
/// the folder in which an absolute path is looked for first. `locale`, `home` and `sysroot` may be
/// empty, and are not known then.
///
/// Returns 3 if a path has to be looked for, which is put into `target`; no answer has this path
/// yet. Returns 0 if all files are found: `target` is then the bundle of their sources and the
/// certificate, as `composecheck_compile` and `composecheck_load` read it. Returns 2 if `target` is
/// too small; it needs `target_length` bytes. Returns 1 for the reason in `fault`: the root or an
/// included file is missing, an include can't be resolved, the answers are malformed, a path is not
/// UTF-8, the bundle is too large, or memory runs out. The `source` of a fault in a file is the
/// index of its answer. O(bytes of all answers, and sources × includes).
#[unsafe(no_mangle)]
pub extern "C" fn composecheck_find(
    alloc: Global,
    answers: &[u8],
    root: &[u8],
    system: &[u8],
    locale: &[u8],
    home: &[u8],
    sysroot: &[u8],
    certificate: &[u8],
    target: &mut [u8],
    target_length: &mut usize,
    fault: &mut FaultRecord,
) -> u32
    ensures found { result ≡ 0 → Finds
        (search_of answers.now root.now system.now locale.now home.now sysroot.now)
        certificate.now (take target_length.new target.new) }
    ensures refused { result ≡ 1 → ReportsFind
        (search_of answers.now root.now system.now locale.now home.now sysroot.now)
        certificate.now fault.new }
    ensures wide { result ≡ 2 → length target.old < target_length.new }
    ensures needed { result ≡ 2 → Needs
        (search_of answers.now root.now system.now locale.now home.now sysroot.now)
        certificate.now target_length.new }
    ensures wanted { result ≡ 3 → Wants
        (search_of answers.now root.now system.now locale.now home.now sysroot.now)
        (take target_length.new target.new) }
    ensures few { result ≤ 3 }
    ensures untouched { result ≢ 0 → result ≢ 3 → target.new ≡ target.old }
    ensures same_length { result ≡ 1 → target_length.new ≡ target_length.old }
    ensures same_fault { result ≢ 1 → fault.new ≡ fault.old }
{
    find(
        alloc,
        answers,
        root,
        system,
        locale,
        home,
        sysroot,
        certificate,
        target,
        target_length,
        fault,
    )
}

/// Puts the path of a locale's table into `path`: the file in this folder that `compose_dir` lists
/// for the locale. If `aliases` lists the locale as an alias, its target is looked up instead.
/// `compose_dir` and `aliases` are the bytes of the folder's files `compose.dir` and
/// `locale.alias`.
///
/// Returns 1 if there is such a path, and 0 if there is none, or if the folder or the locale is not
/// UTF-8. Returns 2 if the path doesn't fit into `path`, which needs `path_length` bytes, and 3 if
/// memory runs out. O(bytes).
#[unsafe(no_mangle)]
pub extern "C" fn composecheck_locale_file(
    alloc: Global,
    folder: &[u8],
    compose_dir: &[u8],
    aliases: &[u8],
    locale: &[u8],
    path: &mut [u8],
    path_length: &mut usize,
) -> u32
    ensures some { result ≡ 1
        → locale_path folder.now compose_dir.now aliases.now locale.now
        ≡ Some (take path_length.new path.new) }
    ensures none { result ≡ 0
        → locale_path folder.now compose_dir.now aliases.now locale.now ≡ None }
    ensures wide { result ≡ 2 → length path.old < path_length.new }
    ensures needed { result ≡ 2
        → option_map length (locale_path folder.now compose_dir.now aliases.now locale.now)
        ≡ Some path_length.new }
    ensures few { result ≤ 3 }
    ensures untouched { result ≢ 1 → path.new ≡ path.old }
{
    let Ok(found) = locale_file(alloc, folder, compose_dir, aliases, locale) else {
        return 3;
    };
    let Some(file) = found else {
        return 0;
    };
    *path_length = file.len();
    if file.len() > path.len() {
        return 2;
    }
    put(file.as_bytes(), path);
    1
}
