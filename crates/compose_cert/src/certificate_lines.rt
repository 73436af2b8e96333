//! The forms of a certificate's lines.
ghost use Rattle.std.specs.Prelude.{◌≡◌, ◌++◌, ◌∷◌, [], ℕ, List, Ok, Err, IfOk, IfErr};
ghost use Rattle.std.specs.Option.{option_map_or};
ghost use Rattle.compose_text.specs.Lines.{divide};
ghost use Rattle.compose_cert.specs.StepReturns.{StepReturns};
ghost use Rattle.compose_cert.specs.Reading as reading;

use crate::CertFault;
use crate::certificate::Typing;
use crate::certificate_words::{character_of, keysym_of, number_of, split_at_byte};
use keysym_core::Keysym;
use std::alloc::Global;

/// Splits off the line with this number. Returns the line, and what follows its newline. O(its
/// bytes).
///
/// Errors: `NotText` with this line number if the bytes have no newline.
pub fn take_line(bytes: &[u8], line: usize) -> Result<(&[u8], &[u8]), CertFault>
    ensures ok { IfOk result (λ x. divide 10 bytes.now ≡ x.0.now ∷ divide 10 x.1.now) }
    ensures err { IfErr result
        (λ e. (e ≡ CertFault.NotText line) × (divide 10 bytes.now ≡ bytes.now ∷ [])) }
{
    split_at_byte(bytes, b'\n').ok_or(CertFault::NotText { line })
}

/// Returns the version in the first line, 1 or 2.
pub fn version_of(line: &[u8]) -> Option<u8>
    ensures { result ≡ reading.version_of line.now }
{
    if line == b"compose-certificate 1".as_slice() {
        return Some(1);
    }
    if line == b"compose-certificate 2".as_slice() {
        return Some(2);
    }
    None
}

/// Returns the number after a word. The word is given with the blank that ends it.
pub fn number_after(line: &[u8], word: &[u8]) -> Option<u32>
    ensures { (name : List ℕ) → word.now ≡ name ++ 32 ∷ []
        → result ≡ reading.number_after name line.now }
{
    if !line.starts_with(word) {
        return None;
    }
    number_of(&line[word.len()..])
}

/// Returns a pair: two numbers with a blank between them.
pub fn pair_of(line: &[u8]) -> Option<(u32, u32)>
    ensures { result ≡ reading.pair_of line.now }
{
    let (old, new) = split_at_byte(line, b' ')?;
    let old = number_of(old)?;
    let new = number_of(new)?;
    Some((old, new))
}

/// Returns a typing: a character and its keys, with a blank before each key.
///
/// Errors: `NotText` with this line number if the text is no typing, or `NoMemory`.
pub fn typing_of(alloc: Global, text: &[u8], line: usize) -> Result<Typing, CertFault>
    ensures { StepReturns (λ t. t) result
        (option_map_or Ok (reading.typing_of text.now) (Err (CertFault.NotText line))) }
{
    let (character, keys) = split_at_byte(text, b' ').ok_or(CertFault::NotText { line })?;
    let character = character_of(character).ok_or(CertFault::NotText { line })?;
    let keys = keysyms_of(alloc, keys, line)?;
    Ok(Typing::new(character, keys))
}

/// Returns keysyms with a blank between them.
fn keysyms_of(alloc: Global, words: &[u8], line: usize) -> Result<Vec<Keysym>, CertFault>
    ensures { StepReturns (λ keys. keys.items) result
        (option_map_or Ok (reading.keysyms_of (divide 32 words.now))
        (Err (CertFault.NotText line))) }
{
    let mut keys = Vec::new(alloc);
    let mut rest = words;
    while let Some((word, behind)) = split_at_byte(rest, b' ') {
        let key = keysym_of(word).ok_or(CertFault::NotText { line })?;
        keys.push(key)?;
        rest = behind;
    }
    let key = keysym_of(rest).ok_or(CertFault::NotText { line })?;
    keys.push(key)?;
    Ok(keys)
}
