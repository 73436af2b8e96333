//! The places of the definitions of a table (source and line), the definition of each sequence that
//! counts, and its events as they are written.
//!
//! [`definition_places`] returns the places of the definitions that
//! [`read_definitions`](compose_read::read_definitions) returns, in the same order.
//! [`last_definitions`] returns for each leaf of a table the definition that counts, and
//! [`written_events`] the names of a definition's events, as they are written on its line.
//! [`read_placed_table`] reads a table, and finds for each of its leaves the line that counts.
//!
//! ```text
//! main  1  include "%L"
//! main  2  <Multi_key> <e> : "x"      # its place is main:2; read last, it counts for its sequence
//! %L    1  <Multi_key> <e> : "é"      # its place is %L:1
//! ```
#![tactic(auto)]

ghost use Rattle.std.specs.Prelude.{◌≡◌, ℕ, List, length, map, Ok, Some};
ghost use Rattle.std.specs.Option.{option_map};
ghost use Rattle.keysym_core.specs.Names.{KeysymNames, value};
ghost use Rattle.compose_model.specs.Table.{Definition};
ghost use Rattle.compose_model.specs.Nodes.{leaves};
ghost use Rattle.compose_model.specs.declared.Rule.{Rule};
ghost use Rattle.compose_read.specs.Lines.{Source};
ghost use Rattle.compose_read.specs.Read.{line_result, definitions_of};
ghost use Rattle.compose_tree.specs.TableReturns.{table_of};
ghost use Rattle.compose_places.specs.Counting.{counting_line, read_lines, AreLines};
ghost use Rattle.compose_places.specs.Places.{definition_lines, definition_places};
ghost use Rattle.compose_places.specs.Events.{written_events};

mod counting;
mod events;
mod last;
mod overlaps;
mod placed;
mod places;
mod sequence_list;

pub use counting::{CountingLine, leaf_named, sequence_named};
pub use events::{Events, written_events};
pub use last::last_definitions;
pub use placed::{PlacedTable, read_placed_table};
pub use places::{DefinitionPlace, definition_places};

/// If a table is read without a fault, it has as many places as definitions, and the line of each
/// place yields the definition of the same index.
pub fn law_places()
    ensures lines { (names : KeysymNames) (sources : List Source) (root : List ℕ)
        (table : List Definition) → definitions_of names sources root ≡ Ok table
        → map (line_result names sources) (definition_lines sources root)
        ≡ map (λ d. Ok (Some d)) table }
    ensures as_many { (names : KeysymNames) (sources : List Source) (root : List ℕ)
        (table : List Definition) → definitions_of names sources root ≡ Ok table
        → length (definition_places sources root) ≡ length table }
{}

/// If a table is read without a fault, events are written at the place of each definition, and what
/// their names mean is the sequence of the definition of the same index.
pub fn law_events()
    ensures { (names : KeysymNames) (sources : List Source) (root : List ℕ)
        (table : List Definition) → definitions_of names sources root ≡ Ok table
        → map (λ place. option_map (map (value names)) (written_events sources place))
        (definition_places sources root)
        ≡ map (λ d. Some (map Some d.sequence)) table }
{}

/// In a table that is read from sources, each sequence has a line that counts, and the keys written
/// on that line are the sequence.
pub fn law_lines()
    ensures { (names : KeysymNames) (sources : List Source) (root : List ℕ) (rule : Rule)
        (table : List Definition) → table_of names sources root rule ≡ Ok table
        → AreLines names table
        (map (counting_line names (read_lines sources root)) (leaves table)) }
{}
