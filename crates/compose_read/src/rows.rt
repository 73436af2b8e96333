//! Rows one after another in flat arrays.
//!
//! `<a> <b> : "x"` and `<c> : "yz"` make
//!
//! ```text
//! spans          row     0      1
//!                keysyms 0, 2   2, 1       the first one's index, and how many
//!                text    0, 1   1, 2       the first byte's offset, and how many
//! keysyms                a b    c
//! texts                  x      y z
//! ```
ghost use Rattle.std.specs.Prelude.{◌≡◌, take, drop};
ghost use Rattle.compose_read.specs.Rows.{sequence_at};

use keysym_core::Keysym;
use std::marker::Model;

/// The position of the keysyms and of the text of a row, in 12 bytes without padding.
#[derive(Clone, Copy)]
pub(crate) struct RowSpan {
    pub(crate) first_keysym: u32,
    pub(crate) first_byte: u32,
    pub(crate) keysym_count: u16,
    pub(crate) byte_count: u16,
}

/// Definitions in flat arrays: 12 bytes for each row, and its keysyms and its text.
#[derive(Drop)]
pub(crate) struct Rows {
    pub(crate) keysyms: Vec<Keysym>,
    pub(crate) texts: String,
    pub(crate) spans: Vec<RowSpan>,
}

impl Model for Rows {
    ghost use Rattle.std.specs.Prelude.{List, string_bytes};
    ghost use Rattle.compose_model.specs.Table.{Definition};
    ghost use Rattle.compose_read.specs.Rows.{rows_of, ArePlaced};

    ghost Value = { List Definition };

    ghost view = { λ r. rows_of r.keysyms.items (string_bytes r.texts) r.spans.items };

    ghost invariant = { λ r. ArePlaced r.keysyms.items (string_bytes r.texts) r.spans.items };
}

impl Rows {
    ghost use Rattle.std.specs.Prelude.{◌≡◌, ◌<◌, length, Some, slice_get, option_map};

    /// Returns the number of rows. O(1).
    pub(crate) fn len(&self) -> usize
        ensures { result ≡ length self.now }
    {
        self.spans.len()
    }

    /// Returns the sequence of the row at this index. O(1).
    pub(crate) fn sequence(&self, index: usize) -> &[Keysym]
        requires { index < length self.now }
        ensures { option_map (λ d. d.sequence) (slice_get self.now index) ≡ Some result.now }
    {
        keysyms_at(&self.keysyms, self.spans[index])
    }

    /// Returns the text of the row at this index. O(1).
    pub(crate) fn text(&self, index: usize) -> &str
        requires { index < length self.now }
        ensures { option_map (λ d. d.text) (slice_get self.now index) ≡ Some result.now }
    {
        let span = self.spans[index];
        let start = span.first_byte as usize;
        let texts = self.texts.as_str();
        &texts[start..start + span.byte_count as usize]
    }
}

/// Returns the keysyms of a row with this span; none if it lies after the end. O(1).
pub(crate) fn keysyms_at(keysyms: &[Keysym], span: RowSpan) -> &[Keysym]
    ensures { result.now ≡ sequence_at keysyms.now span }
{
    part_at(keysyms, span)
}

/// Returns the items in a row's span of keysyms; none if it lies after the end. O(1).
pub(crate) fn part_at<T>(items: &[T], span: RowSpan) -> &[T]
    ensures { result.now ≡ take span.keysym_count (drop span.first_keysym items.now) }
{
    let start = items.len().min(span.first_keysym as usize);
    let behind = &items[start..];
    let count = behind.len().min(span.keysym_count as usize);
    &behind[..count]
}
