//! Definitions that are being read or put together.
//!
//! The keysyms and the text of a definition are appended to those of the others as they are read,
//! so that none is copied. When the definition is complete, its span is added. The offsets are
//! `u32`s: at most 100,000 definitions of at most 32 keysyms and 255 bytes fit.
ghost use Rattle.std.specs.Prelude.{◌≡◌};
ghost use Rattle.std.specs.List.{list_all};
ghost use Rattle.compose_model.specs.Table.{is_definition};
ghost use Rattle.compose_read.specs.Sequence as words;

use crate::definitions::Definitions;
use crate::reading::MAX_DEFINITIONS;
use crate::rows::{RowSpan, Rows};
use compose_lex::{LexFault, push_text};
use keysym_core::Keysym;
use std::alloc::{AllocError, Global};
use std::marker::Model;

/// The greatest number of keysyms of a sequence.
const MAX_KEYSYMS: usize = 32;

/// The greatest number of bytes of a text.
const MAX_BYTES: usize = 255;

/// Definitions in flat arrays, and after them one that is being read.
#[derive(Drop)]
pub struct Draft {
    keysyms: Vec<Keysym>,
    texts: String,
    spans: Vec<RowSpan>,
    first_keysym: usize,
    first_byte: usize,
}

impl Model for Draft {
    ghost use Rattle.std.specs.Prelude.{◌≤◌, length, drop, string_bytes, IsTrue};
    ghost use Rattle.std.specs.Str.{IsCharBoundary};
    ghost use Rattle.compose_model.specs.Table.{is_table};
    ghost use Rattle.compose_read.specs.Rows.{DraftRows, draft_rows, rows_of, ArePlaced, ComesAfter};

    ghost Value = { DraftRows };

    ghost view = { λ d. draft_rows d.keysyms.items
        (string_bytes d.texts) d.spans.items d.first_keysym d.first_byte };

    ghost invariant = { λ d. ArePlaced d.keysyms.items (string_bytes d.texts) d.spans.items
        × (d.first_keysym ≤ length d.keysyms.items)
        × IsCharBoundary (string_bytes d.texts) d.first_byte
        × IsTrue (is_table (rows_of d.keysyms.items (string_bytes d.texts) d.spans.items))
        × ComesAfter d.spans.items d.first_keysym d.first_byte };
}

impl Draft {
    ghost use Rattle.std.specs.Prelude.{◌≡◌, ◌≤◌, ◌<◌, ◌+◌, ◌++◌, ◌⊎◌, ℕ, List, [], ◌∷◌, true, false, length, take, drop, IfOk, OnOk, OnErr, IsTrue, encode_utf8};
    ghost use Rattle.compose_model.specs.Table.{is_definition, is_table};
    ghost use Rattle.compose_lex.specs.Lexed.{PushReturns};
    ghost use Rattle.compose_lex.specs.Escape.{text_of, Unescapes, IsText};
    ghost use Rattle.compose_read.specs.Read.{max_definitions};
    ghost use Rattle.compose_read.specs.Rows.{with_row, no_row};

    /// Returns a draft without definitions. Takes no memory.
    pub fn new(alloc: Global) -> Draft
        ensures { result ≡ record { table = []; row = no_row } }
    {
        Draft {
            keysyms: Vec::new(alloc),
            texts: String::new(alloc),
            spans: Vec::new(alloc),
            first_keysym: 0,
            first_byte: 0,
        }
    }

    /// Reserves room for this many more definitions of three keysyms and three bytes of text. If
    /// memory runs out, there is only less room. O(definitions) at most.
    pub(crate) fn reserve(&mut self, definitions: usize)
        ensures { self.new ≡ self.old }
    {
        let many = definitions.saturating_mul(3);
        let _ = self.keysyms.reserve(many);
        let _ = self.texts.reserve(many);
        let _ = self.spans.reserve(definitions);
    }

    /// Returns the number of complete definitions. O(1).
    pub fn len(&self) -> usize
        ensures { result ≡ length self.now.table }
    {
        self.spans.len()
    }

    /// Begins a definition, and drops one that was not finished. O(keysyms that are dropped).
    pub(crate) fn begin(&mut self)
        ensures { self.new ≡ with_row self.old no_row }
    {
        self.keysyms.truncate(self.first_keysym);
        self.texts.truncate(self.first_byte);
    }

    /// Appends a keysym to the definition that is being read. An error changes nothing. O(1).
    pub(crate) fn push_keysym(&mut self, keysym: Keysym) -> Result<(), AllocError>
        ensures pushed { OnOk result
            (self.new
            ≡ with_row self.old
            (record {
              sequence = self.old.row.sequence ++ keysym ∷ [];
              text =
                  self.old.row.text;
            })) }
        ensures unchanged { OnErr result (self.new ≡ self.old) }
    {
        self.keysyms.push(keysym)?;
        Ok(())
    }

    /// Appends the text that a raw text stands for to that of the definition. O(bytes).
    pub(crate) fn push_raw_text(&mut self, raw: &str) -> Result<(), LexFault>
        ensures exact { PushReturns self.old.row.text self.new.row.text result (text_of raw.now) }
        ensures found { OnOk result
            ((bytes : List ℕ) × (self.new.row.text ≡ self.old.row.text ++ bytes)
            × Unescapes raw.now bytes × IsText bytes) }
        ensures others { (self.new.table ≡ self.old.table)
            × (self.new.row.sequence ≡ self.old.row.sequence) }
    {
        push_text(&mut self.texts, raw)
    }

    /// Appends a character to the text of the definition. An error changes nothing. O(1).
    pub(crate) fn push_character(&mut self, character: char) -> Result<(), AllocError>
        ensures pushed { OnOk result
            (self.new
            ≡ with_row self.old
            (record {
              sequence = self.old.row.sequence;
              text =
                  self.old.row.text ++ encode_utf8 character;
            })) }
        ensures unchanged { OnErr result (self.new ≡ self.old) }
    {
        self.texts.push(character)?;
        Ok(())
    }

    /// Appends these keysyms to the definition that is being read. An error changes nothing.
    /// O(keysyms).
    fn push_keysyms(&mut self, keysyms: &[Keysym]) -> Result<(), AllocError>
        ensures pushed { OnOk result
            (self.new
            ≡ with_row self.old
            (record {
              sequence = self.old.row.sequence ++ keysyms.now;
              text =
                  self.old.row.text;
            })) }
        ensures unchanged { OnErr result (self.new ≡ self.old) }
    {
        self.keysyms.extend_from_slice(keysyms)?;
        Ok(())
    }

    /// Appends this text to that of the definition. An error changes nothing. O(bytes).
    fn push_text(&mut self, text: &str) -> Result<(), AllocError>
        ensures pushed { OnOk result
            (self.new
            ≡ with_row self.old
            (record {
              sequence = self.old.row.sequence;
              text =
                  self.old.row.text ++ text.now;
            })) }
        ensures unchanged { OnErr result (self.new ≡ self.old) }
    {
        self.texts.push_str(text)?;
        Ok(())
    }

    /// Adds a definition of this sequence and this text to the complete ones, and returns true.
    /// Returns false, and adds none, if they are not a definition, or if there are 100,000 already.
    /// A definition that is being read is dropped. O(keysyms + bytes).
    pub fn add(&mut self, sequence: &[Keysym], text: &str) -> Result<bool, AllocError>
        ensures added { IfOk result
            (λ added. added ≡ true
            → self.new.table
            ≡ self.old.table ++ record { sequence = sequence.now; text = text.now } ∷ []) }
        ensures refused { IfOk result
            (λ added. added ≡ false
            → (is_definition (record { sequence = sequence.now; text = text.now }) ≡ false)
            ⊎ (max_definitions ≤ length self.old.table)) }
        ensures others { IfOk result (λ added. added ≡ false → self.new.table ≡ self.old.table) }
        ensures failed { OnErr result (self.new.table ≡ self.old.table) }
    {
        if self.len() >= MAX_DEFINITIONS || !is_a_definition(sequence, text) {
            return Ok(false);
        }
        self.begin();
        self.push_keysyms(sequence)?;
        self.push_text(text)?;
        self.finish()?;
        Ok(true)
    }

    /// Adds the definition that is being read to the complete ones. An error changes nothing. O(1).
    pub(crate) fn finish(&mut self) -> Result<(), AllocError>
        requires definition { IsTrue (is_definition self.old.row) }
        requires room { length self.old.table < max_definitions }
        ensures finished { OnOk result (self.new.table ≡ self.old.table ++ self.old.row ∷ []) }
        ensures unchanged { OnErr result (self.new ≡ self.old) }
    {
        let span = RowSpan {
            first_keysym: self.first_keysym as u32,
            first_byte: self.first_byte as u32,
            keysym_count: (self.keysyms.len() - self.first_keysym) as u16,
            byte_count: (self.texts.len() - self.first_byte) as u16,
        };
        self.spans.push(span)?;
        self.first_keysym = self.keysyms.len();
        self.first_byte = self.texts.len();
        Ok(())
    }

    /// Repeats this many definitions, from this index on, after the others; they share keysyms and
    /// texts. An error changes nothing. O(definitions).
    pub(crate) fn repeat(&mut self, first: usize, count: usize) -> Result<(), AllocError>
        requires within { first + count ≤ length self.old.table }
        requires room { length self.old.table + count ≤ max_definitions }
        ensures repeated { OnOk result
            (self.new.table ≡ self.old.table ++ take count (drop first self.old.table)) }
        ensures unchanged { OnErr result (self.new ≡ self.old) }
    {
        self.spans.extend_from_within(first..first + count)?;
        Ok(())
    }

    /// Returns the complete definitions. O(1).
    pub fn into_definitions(self) -> Definitions
        ensures same { result ≡ self.table }
        ensures table { IsTrue (is_table self.table) }
        ensures few { length self.table ≤ max_definitions }
    {
        Definitions::from_rows(Rows {
            keysyms: self.keysyms,
            texts: self.texts,
            spans: self.spans,
        })
    }
}

/// Returns whether these are a sequence and a text of a definition. O(keysyms).
fn is_a_definition(sequence: &[Keysym], text: &str) -> bool
    ensures { result ≡ is_definition (record { sequence = sequence.now; text = text.now }) }
{
    !sequence.is_empty()
        && sequence.len() <= MAX_KEYSYMS
        && are_fed(sequence)
        && text.len() <= MAX_BYTES
}

/// Returns whether a compose state ignores none of these keysyms. O(keysyms).
fn are_fed(sequence: &[Keysym]) -> bool
    ensures { result ≡ list_all words.is_fed sequence.now }
{
    for keysym in sequence {
        if !is_fed(*keysym) {
            return false;
        }
    }
    true
}

/// Returns whether a compose state does not ignore the keysym. O(1).
fn is_fed(keysym: Keysym) -> bool
    ensures { result ≡ words.is_fed keysym }
{
    !keysym.is_ignored()
}
