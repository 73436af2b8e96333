//! The names of keysyms.
ghost use Rattle.std.specs.Prelude.{◌≡◌, ◌≤◌, ◌+◌, ◌&&◌, not, ℕ, true, List, length, map, IfOk, IfErr, IfSome, Ok, Some, option_copied, string_bytes};
ghost use Rattle.builtin_names.specs.declared.lines.TheConstants.{LINES};
ghost use Rattle.keysym_core.specs.Names.{value, character_of, text, first_character, form_value};
ghost use Rattle.keysym_core.specs.GivenCharacters.{gives, is_fixed};
ghost use Rattle.keysym_core.specs.Keysym.{max_keysym};
ghost use Rattle.keysym_core.specs.Core.{core_names};
ghost use Rattle.keysym_core.specs.Header.{NamesReturns, names_of};
ghost use Rattle.keysym_core.specs.Next.{IsNextOf, IsLeastFrom};
ghost use Rattle.keysym_core.specs.Printed.{first_name, printed};
ghost use Rattle.keysym_core.specs.declared.fault.NameFault.TheVariants.{NoMemory};

use crate::built_in;
use crate::character_index::{next_given, sorted_by_character};
use crate::core_names::CORE_NAMES;
use crate::fault::NameFault;
use crate::form::form_of;
use crate::hints::Hints;
use crate::keysym::Keysym;
use crate::next::{lesser, next_fixed};
use crate::read::with_lines;
use crate::table::NameTable;
use builtin_names::builtin_names;
use std::alloc::{AllocError, Global};
use std::marker::Model;

/// The names of keysyms with their values, and the characters that a header assigns to keysyms.
#[derive(Drop)]
pub struct Names {
    source: Source,
}

/// Where names come from.
#[derive(Drop)]
enum Source {
    /// The header that is built in: its names are data of the program.
    BuiltIn,
    /// A header that was read.
    Read(ReadNames),
}

/// The names of a header that was read, with indexes.
#[derive(Drop)]
struct ReadNames {
    table: NameTable,
    hints: Hints,
    by_character: Vec<(u32, char)>,
}

impl Model for Names {
    ghost use Rattle.keysym_core.specs.Names.{KeysymNames};
    ghost use Rattle.keysym_core.specs.Source.{names_of_source};

    ghost Value = { KeysymNames };

    ghost view = { λ n. names_of_source n.source };
}

impl Model for ReadNames {
    ghost use Rattle.std.specs.List.Sorted.{IsNonDecreasingBy};
    ghost use Rattle.keysym_core.specs.GivenCharacters.{HasCountingRows, ArePairsOfKeysyms, rank};
    ghost use Rattle.keysym_core.specs.Names.{KeysymNames};

    ghost Value = { KeysymNames };

    ghost view = { λ n. n.table };

    ghost invariant = { λ n. HasCountingRows n.by_character.items n.table.characters
        × ArePairsOfKeysyms n.by_character.items × IsNonDecreasingBy rank n.by_character.items };
}

impl ReadNames {
    /// Returns the table with hints for the index of each name, and with its index by character.
    /// O(n) in the names, and O(m log m) in the m characters.
    fn of_table(alloc: Global, table: NameTable) -> Result<ReadNames, AllocError>
        ensures { IfOk result (λ names. names ≡ table) }
    {
        let hints = table.hints(alloc)?;
        let by_character = sorted_by_character(table.counting_pairs(alloc)?);
        Ok(ReadNames {
            table,
            hints,
            by_character,
        })
    }

    /// Returns the least keysym not below `low` whose text is this character by the header.
    /// O(log n) in the number of characters that the header assigns.
    fn next_given(&self, character: char, low: u32) -> Option<Keysym>
        requires { low ≤ max_keysym + 1 }
        ensures { IsLeastFrom low
            (λ k. (not (is_fixed k) && gives self.now.characters character k) ≡ true) result }
    {
        next_given(&self.by_character, character, low)
    }
}

impl Names {
    /// Returns the core names, without a header. O(n) in the names.
    ///
    /// Errors: `NoMemory` if memory runs out.
    pub fn core(alloc: Global) -> Result<Names, NameFault>
        ensures ok { IfOk result (λ names. names ≡ core_names) }
        ensures err { IfErr result (λ e. e ≡ NoMemory) }
    {
        law_core_names();
        let table = NameTable::of_rows(alloc, &CORE_NAMES)?;
        Ok(Names::of_table(alloc, table)?)
    }

    /// Returns the names that are built in, as if their header were read. Takes no memory. O(1).
    pub fn built_in() -> Names
        ensures { NamesReturns (Ok result) (names_of LINES.now) }
    {
        Names {
            source: Source::BuiltIn,
        }
    }

    /// Returns the core names and those of a header, whose lines are `#define XK_NAME 0xVALUE` with
    /// the character in a comment, such as `/* U+00E9 .. */`. O(n) in the bytes, and O(m log m) in
    /// the m characters. The header that is built in is compared, and not read.
    ///
    /// Errors: the fault of the first faulty line; `NoMemory` if memory runs out.
    pub fn read(alloc: Global, header: &[u8]) -> Result<Names, NameFault>
        ensures { NamesReturns result (names_of header.now) }
    {
        if header == builtin_names().as_bytes() {
            return Ok(Names::built_in());
        }
        law_core_names();
        let core = NameTable::of_rows(alloc, &CORE_NAMES)?;
        match with_lines(core, header) {
            Ok(table) => Ok(Names::of_table(alloc, table)?),
            Err(fault) => Err(fault),
        }
    }

    /// Returns the names of a table that was read.
    fn of_table(alloc: Global, table: NameTable) -> Result<Names, AllocError>
        ensures { IfOk result (λ names. names ≡ table) }
    {
        let names = ReadNames::of_table(alloc, table)?;
        Ok(Names {
            source: Source::Read(names),
        })
    }

    /// Returns the keysym of a name: by the table, else by the form `U00E9`, else by the form
    /// `0xe9`. O(n) in the bytes of the name: a test of the form, then a comparison with the name at
    /// the hinted index, and a hash only if that is another name.
    #[inline(always)]
    pub fn lookup(&self, name: &str) -> Option<Keysym>
        ensures { result ≡ value self.now name.now }
    {
        match &self.source {
            Source::BuiltIn => built_in::lookup(name),
            Source::Read(names) => names.table.lookup(name, &names.hints),
        }
    }

    /// Returns the name with which a keysym is printed: its first name in the order of the table;
    /// else `U` and at least four upper case digits, if it stands for a character by its number;
    /// else `0x` and lower case digits. `lookup` returns the keysym again. O(1).
    ///
    /// Errors: `NoMemory` if memory runs out.
    pub fn print(&self, alloc: Global, keysym: Keysym) -> Result<String, NameFault>
        ensures ok { IfOk result (λ text. string_bytes text ≡ printed self.now keysym) }
        ensures found { IfOk result (λ text. value self.now (string_bytes text) ≡ Some keysym) }
        ensures err { IfErr result (λ e. e ≡ NoMemory) }
    {
        match self.first_name(keysym) {
            Some(name) => Ok(String::from_str(alloc, name)?),
            None => Ok(form_of(alloc, keysym)?),
        }
    }

    /// Returns the first name with this value, in the order of the rows. The name looks up as the
    /// value, and so does each form of the keysym. O(1).
    fn first_name(&self, keysym: Keysym) -> Option<&str>
        ensures same { option_copied result ≡ first_name self.now.names keysym }
        ensures found { IfSome result (λ name. value self.now name.now ≡ Some keysym) }
        ensures forms { (n : List ℕ) → form_value n ≡ Some keysym → value self.now n ≡ Some keysym }
    {
        match &self.source {
            Source::BuiltIn => built_in::first_name(keysym),
            Source::Read(names) => names.table.first_name(keysym),
        }
    }

    /// Returns the character of a keysym, if it has one. O(1).
    pub fn text_of(&self, keysym: Keysym) -> Option<char>
        ensures same { result ≡ character_of self.now keysym }
        ensures fits { (k : ℕ) → length (text self.now k) ≤ 4 }
    {
        let number = keysym.value();
        match number {
            0x20..=0x7e | 0xa0..=0xff => char::from_u32(number),
            0x0100_0100..=0x0110_ffff => char::from_u32(number - 0x0100_0000),
            0xffb0..=0xffb9 => char::from_u32(number - 0xffb0 + 0x30),
            _ => self.given_character(keysym),
        }
    }

    /// Returns the character that the header assigns to a keysym. O(1).
    fn given_character(&self, keysym: Keysym) -> Option<char>
        ensures { result ≡ first_character self.now.characters keysym }
    {
        match &self.source {
            Source::BuiltIn => built_in::given_character(keysym),
            Source::Read(names) => names.table.given_character(keysym),
        }
    }

    /// Returns the least keysym, greater than `after` if that is given, whose `text_of` is the
    /// character. O(log n) in the number of characters that the header assigns.
    pub fn next_of(&self, character: char, after: Option<Keysym>) -> Option<Keysym>
        ensures { IsNextOf self.now character after result }
    {
        let low = after.map_or(0, |keysym| keysym.value() + 1);
        let fixed = next_fixed(u32::from(character), low);
        lesser(fixed, self.next_given(character, low))
    }

    /// Returns the least keysym not below `low` whose text is this character by the header.
    /// O(log n) in the number of characters that the header assigns.
    fn next_given(&self, character: char, low: u32) -> Option<Keysym>
        requires { low ≤ max_keysym + 1 }
        ensures { IsLeastFrom low
            (λ k. (not (is_fixed k) && gives self.now.characters character k) ≡ true) result }
    {
        match &self.source {
            Source::BuiltIn => built_in::next_given(character, low),
            Source::Read(names) => names.next_given(character, low),
        }
    }
}

/// The table of the core names has the rows of their definition.
fn law_core_names()
    ensures { map (λ r. record { name = r.0.now; value = r.1 }) CORE_NAMES ≡ core_names.names }
{}
