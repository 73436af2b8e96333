//! A table as libxkbcommon reads it: lines that have a fault here and that libxkbcommon reads are
//! rewritten, and the other faulty lines are left empty, and reported.
//!
//! A line is faulty if it has a fault in any table: it is not UTF-8, it has a syntax error, the raw
//! text of its string has a fault, it has a name that is not that of a keysym, or an ignored keysym
//! in its sequence. libxkbcommon reads many of them: modifiers before and between the keys, names
//! such as `U226` and `XF86_Back`, escapes of any letter, an empty text, and anything behind the
//! name of a result. Such a line is replaced by one of this program's grammar that has the same
//! definition. An include of a missing file, or one that is nested too deeply, does not make a line
//! faulty: the whole table is rejected because of it, here as in libxkbcommon.
//!
//! ```text
//! <Multi_key> <a> : "x"         <Multi_key> <a> : "x"
//! Ctrl <Multi_key> <b> : "\q"   <Multi_key> <b> : "q"
//! <Multi_kei> <b> : "y"      ->                         # 4 UnknownKeysym source=0 line=3 index=0
//! include "%L"                  include "%L"
//! ```
#![tactic(auto)]

ghost use Rattle.std.specs.Prelude.{◌≡◌, [], List, None, Ok, ℕ};
ghost use Rattle.keysym_core.specs.Names.{KeysymNames};
ghost use Rattle.compose_model.specs.Table.{Definition};
ghost use Rattle.compose_read.specs.Lines.{Source, Visit};
ghost use Rattle.compose_read.specs.Read.{definitions_of, line_result};
ghost use Rattle.compose_skip.specs.Faulty.{AreOthers, own_fault, own_faults};
ghost use Rattle.compose_skip.specs.Left.{kept_visit, other_definitions, other_result};

mod line;
mod lines;
mod others;
mod written;

pub use others::{OtherLines, other_lines};

/// The table that is read without the faulty lines has the definitions of the other lines, and
/// those that libxkbcommon reads in faulty ones, in order. Wherever a line is read, one without a
/// fault has the same result as in the original sources, and any other one has what libxkbcommon
/// reads in it, or nothing. No line is faulty any longer.
pub fn law_other_lines()
    ensures table { (names : KeysymNames) (sources others : List Source) (root : List ℕ)
        (table : List Definition) → AreOthers names sources others
        → definitions_of names others root ≡ Ok table
        → table ≡ other_definitions names sources root }
    ensures lines { (names : KeysymNames) (sources others : List Source) (v : Visit)
        → AreOthers names sources others
        → line_result names others (kept_visit names v) ≡ other_result names sources v }
    ensures right { (names : KeysymNames) (v : Visit) → own_fault names (kept_visit names v) ≡ None }
    ensures faultless { (names : KeysymNames) (sources others : List Source)
        → AreOthers names sources others → own_faults names others ≡ [] }
{}
