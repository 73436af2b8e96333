//! A line: definitions, and what follows them.
ghost use Rattle.std.specs.Prelude.{◌≡◌, ◌<◌, false, length, IfOk};
ghost use Rattle.compose_readers.specs.Ends.{end_of};
ghost use Rattle.compose_readers.specs.Files.{is_empty, is_end, is_untold};
ghost use Rattle.compose_readers.specs.declared.xkbcommon.lines.Stop.TheVariants as stops;

use crate::cause::Cause;
use crate::file::{Definition, LineEnd, LineRead};
use crate::xkbcommon::Reader;
use crate::xkbcommon::includes::included;
use crate::xkbcommon::strings::before_nul;
use crate::xkbcommon::tokens::{Token, is_blank, token_at};
use arrayvec::ArrayVec;
use std::alloc::{AllocError, Global};

/// The keysyms of a sequence.
type Keys = ArrayVec<u32, 10>;

/// Why a definition isn't read.
pub(crate) enum Stop {
    /// The line is left out from here on.
    LeftOut(Cause),
    /// Memory ran out.
    NoMemory,
}

impl From<AllocError> for Stop {
    ghost from_gives = { λ _ stop. stop ≡ stops.NoMemory };

    fn from(_: AllocError) -> Stop {
        Stop::NoMemory
    }
}

impl From<Cause> for Stop {
    ghost from_gives = { λ cause stop. stop ≡ stops.LeftOut cause };

    fn from(cause: Cause) -> Stop {
        Stop::LeftOut(cause)
    }
}

/// Returns whether a word is the name of a modifier.
fn is_modifier(word: &[u8]) -> bool {
    matches!(
        word,
        b"Ctrl" | b"Lock" | b"Caps" | b"Shift" | b"Alt" | b"Meta"
    )
}

/// Reads a modifier, which a tilde may precede; returns the rest. `None` if there is none.
fn behind_modifier(rest: &[u8]) -> Result<Option<&[u8]>, Cause> {
    let (word, behind) = match token_at(rest) {
        (Token::Tilde, behind) => match token_at(behind) {
            (Token::Word(word), behind) if word != b"include".as_slice() => (word, behind),
            _ => return Err(Cause::NoModifier),
        },
        (Token::Word(word), behind) if word != b"include".as_slice() => (word, behind),
        _ => return Ok(None),
    };
    if !is_modifier(word) {
        return Err(Cause::UnknownModifier);
    }
    Ok(Some(behind))
}

/// Reads modifiers, which have no meaning; returns the rest. O(bytes).
fn behind_modifiers(line: &[u8]) -> Result<&[u8], Cause> {
    let mut rest = line;
    for _ in 0..line.len() {
        match behind_modifier(rest)? {
            Some(behind) => rest = behind,
            None => return Ok(rest),
        }
    }
    Ok(rest)
}

/// Reads what may precede a key: `None`, or modifiers, perhaps behind an exclamation mark.
fn behind_list(rest: &[u8]) -> Result<&[u8], Cause> {
    match token_at(rest) {
        (Token::Word(b"None"), behind) => Ok(behind),
        (Token::Mark, behind) => behind_modifiers(behind),
        _ => behind_modifiers(rest),
    }
}

/// Reads a key with what precedes it; returns its name and the rest.
fn key_at(rest: &[u8]) -> Result<(&[u8], &[u8]), Cause> {
    match token_at(behind_list(rest)?) {
        (Token::Key(name), behind) => Ok((name, behind)),
        (Token::Fault(cause), _) => Err(cause),
        _ => Err(Cause::NoKeyHere),
    }
}

impl Reader<'_> {
    /// Reads the keys up to the colon; returns them, and the rest. O(bytes).
    fn keys_at<'l>(&self, alloc: Global, line: &'l [u8]) -> Result<(Keys, &'l [u8]), Stop> {
        let mut keys = ArrayVec::new();
        let mut rest = line;
        loop {
            if let (Token::Colon, behind) = token_at(rest) {
                if keys.is_empty() {
                    return Err(Stop::LeftOut(Cause::NoKey));
                }
                return Ok((keys, behind));
            }
            let (name, behind) = key_at(rest)?;
            let Some(keysym) = self.keysym(alloc, name)? else {
                return Err(Stop::LeftOut(Cause::UnknownKey));
            };
            if keys.is_full() {
                return Err(Stop::LeftOut(Cause::TooManyKeys));
            }
            keys.push(keysym);
            rest = behind;
        }
    }

    /// Returns the keysym of the word that names a result.
    fn result_named(&self, alloc: Global, word: &[u8]) -> Result<u32, Stop> {
        match self.keysym(alloc, word)? {
            Some(keysym) => Ok(keysym),
            None => Err(Stop::LeftOut(Cause::UnknownResult)),
        }
    }

    /// Reads what follows a string: the name of a result, or the end of the line. Returns the rest.
    fn behind_string<'l>(
        &self,
        alloc: Global,
        line: &'l [u8],
        is_ended: bool,
    ) -> Result<&'l [u8], Stop> {
        match token_at(line) {
            (Token::Word(word), behind) => {
                self.result_named(alloc, word)?;
                Ok(behind)
            }
            (Token::End, _) if is_ended => Ok(&[]),
            (Token::End, _) => Err(Stop::LeftOut(Cause::NoNewline)),
            (Token::Raw(raw), _) => {
                self.string(alloc, raw)??;
                Err(Stop::LeftOut(Cause::TwoStrings))
            }
            (Token::Fault(cause), _) => Err(Stop::LeftOut(cause)),
            _ => Err(Stop::LeftOut(Cause::OddResult)),
        }
    }

    /// Returns the text of a string, up to its first byte 0.
    fn text_in(&self, alloc: Global, raw: &[u8]) -> Result<Vec<u8>, Stop> {
        let bytes = self.string(alloc, raw)??;
        if bytes.len() > self.version.most_text() {
            return Err(Stop::LeftOut(Cause::LongText));
        }
        Ok(Vec::from_slice(alloc, before_nul(&bytes))?)
    }

    /// Reads a definition; returns it, and the rest of the line. O(bytes).
    fn definition_at<'l>(
        &self,
        alloc: Global,
        line: &'l [u8],
        is_ended: bool,
    ) -> Result<(Definition, &'l [u8]), Stop> {
        let (keys, rest) = self.keys_at(alloc, line)?;
        match token_at(rest) {
            (Token::Raw(raw), behind) => {
                let text = self.text_in(alloc, raw)?;
                let rest = self.behind_string(alloc, behind, is_ended)?;
                Ok((
                    Definition {
                        keys,
                        text,
                        has_string: true,
                    },
                    rest,
                ))
            }
            (Token::Word(word), rest) => {
                let keysym = self.result_named(alloc, word)?;
                let text = self.text_of(alloc, keysym)?;
                Ok((
                    Definition {
                        keys,
                        text,
                        has_string: false,
                    },
                    rest,
                ))
            }
            (Token::End, _) if is_ended => Err(Stop::LeftOut(Cause::NoResult)),
            (Token::End, _) => Err(Stop::LeftOut(Cause::NoNewline)),
            (Token::Fault(cause), _) => Err(Stop::LeftOut(cause)),
            _ => Err(Stop::LeftOut(Cause::OddResult)),
        }
    }

    /// Returns what an include is, given what follows the word `include`.
    fn include(&self, alloc: Global, behind: &[u8], is_ended: bool) -> Result<LineEnd, AllocError>
        ensures { IfOk result (λ end. is_end (end_of end) ≡ false) }
    {
        match included(alloc, &self.meanings, behind, is_ended)? {
            Ok(path) => Ok(LineEnd::Includes(path)),
            Err(cause) => Ok(LineEnd::LeftOut(cause)),
        }
    }

    /// Reads a line that isn't empty. O(bytes).
    fn parts(&self, alloc: Global, line: &[u8], is_ended: bool) -> Result<LineRead, AllocError>
        requires { 0 < length line.now }
        ensures { IfOk result (λ read. is_untold read read.definitions ≡ false) }
    {
        let mut definitions = Vec::new(alloc);
        let mut rest = line;
        // each definition takes a byte at least
        for _index in 0..line.len() {
            if let (Token::Word(b"include"), behind) = token_at(rest) {
                let end = self.include(alloc, behind, is_ended)?;
                return Ok(LineRead { definitions, end });
            }
            match self.definition_at(alloc, rest, is_ended) {
                Ok((definition, behind)) => {
                    definitions.push(definition)?;
                    rest = behind;
                }
                Err(Stop::LeftOut(cause)) => {
                    let end = LineEnd::LeftOut(cause);
                    return Ok(LineRead { definitions, end });
                }
                Err(Stop::NoMemory) => return Err(AllocError),
            }
            if is_blank(rest) {
                break;
            }
        }
        let end = LineEnd::Nothing;
        Ok(LineRead { definitions, end })
    }

    /// Reads a line. O(bytes).
    pub(crate) fn line(
        &self,
        alloc: Global,
        line: &[u8],
        is_ended: bool,
    ) -> Result<LineRead, AllocError>
        ensures { IfOk result
            (λ read. is_untold read read.definitions ≡ is_empty line.now) }
    {
        if is_blank(line) {
            return Ok(LineRead {
                definitions: Vec::new(alloc),
                end: LineEnd::Nothing,
            });
        }
        self.parts(alloc, line, is_ended)
    }
}
