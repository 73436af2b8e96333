//! The words of a text, between blanks.
ghost use Rattle.std.specs.Prelude.{◌≡◌, ◌++◌, ◌==◌, ◌∷◌, [], filter, flat_map, map, IfOk, OnOk};
ghost use Rattle.std.specs.List.{slice_split};
ghost use Rattle.compose_keys.specs.Words as wanted;
ghost use Rattle.compose_keys.specs.Words.{is_word};

use std::alloc::{AllocError, Global};

/// Returns the words of a text, which are separated by spaces and tabs. `Err(AllocError)` if memory
/// runs out. O(bytes).
pub fn words_in<'a>(alloc: Global, text: &'a str) -> Result<Vec<&'a str>, AllocError>
    ensures { IfOk result
        (λ words. map (λ word. word.now) words.items ≡ wanted.words_in text.now) }
{
    let parts = between_spaces(alloc, text)?;
    words_of(alloc, &parts)
}

/// Returns the parts of a text between spaces.
fn between_spaces<'a>(alloc: Global, text: &'a str) -> Result<Vec<&'a str>, AllocError>
    ensures { IfOk result
        (λ parts. map (λ part. part.now) parts.items ≡ slice_split (λ b. b == 32) text.now) }
{
    text.split(' ').collect(alloc)
}

/// Returns the words of these parts, which have no spaces.
fn words_of<'a>(alloc: Global, parts: &[&'a str]) -> Result<Vec<&'a str>, AllocError>
    ensures { IfOk result
        (λ words. map (λ word. word.now) words.items
        ≡ flat_map wanted.words_between (map (λ part. part.now) parts.now)) }
{
    let mut words = Vec::new(alloc);
    for part in parts {
        push_words(alloc, &mut words, part)?;
    }
    Ok(words)
}

/// Appends the words of a part of a text that has no space.
fn push_words<'a>(alloc: Global, words: &mut Vec<&'a str>, part: &'a str) -> Result<(), AllocError>
    ensures { OnOk result
        (map (λ word. word.now) words.new.items
        ≡ map (λ word. word.now) words.old.items ++ wanted.words_between part.now) }
{
    let pieces = between_tabs(alloc, part)?;
    push_pieces(words, &pieces)
}

/// Returns the parts of a text between tabs.
fn between_tabs<'a>(alloc: Global, text: &'a str) -> Result<Vec<&'a str>, AllocError>
    ensures { IfOk result
        (λ pieces. map (λ piece. piece.now) pieces.items ≡ slice_split (λ b. b == 9) text.now) }
{
    text.split('\t').collect(alloc)
}

/// Appends those of the pieces that are words.
fn push_pieces<'a>(words: &mut Vec<&'a str>, pieces: &[&'a str]) -> Result<(), AllocError>
    ensures { OnOk result
        (map (λ word. word.now) words.new.items
        ≡ map (λ word. word.now) words.old.items
        ++ filter is_word (map (λ piece. piece.now) pieces.now)) }
{
    for piece in pieces {
        push_piece(words, piece)?;
    }
    Ok(())
}

/// Appends a piece if it is a word.
fn push_piece<'a>(words: &mut Vec<&'a str>, piece: &'a str) -> Result<(), AllocError>
    ensures { OnOk result
        (map (λ word. word.now) words.new.items
        ≡ map (λ word. word.now) words.old.items ++ filter is_word (piece.now ∷ [])) }
{
    if !piece.is_empty() {
        words.push(piece)?;
    }
    Ok(())
}
