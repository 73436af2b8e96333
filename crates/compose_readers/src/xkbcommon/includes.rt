//! The path of an include.
use crate::cause::Cause;
use crate::xkbcommon::Meanings;
use crate::xkbcommon::strings::before_nul;
use crate::xkbcommon::tokens::{BUFFER, Token, skip_spaces, token_at};
use std::alloc::{AllocError, Global};

impl Meanings<'_> {
    /// Returns what a percent sign and this byte stand for.
    fn of(&self, form: u8) -> Option<&[u8]> {
        match form {
            b'%' => Some(b"%"),
            b'H' => self.home,
            b'L' => self.locale,
            b'S' => Some(self.system),
            _ => None,
        }
    }

    /// Returns the path that a text stands for, in which backslashes are no escapes. O(bytes of the
    /// path).
    fn path(&self, alloc: Global, text: &[u8]) -> Result<Result<Vec<u8>, Cause>, AllocError> {
        let mut path = Vec::new(alloc);
        let mut rest = text;
        while let Some((first, behind)) = rest.split_first() {
            rest = behind;
            if *first != b'%' {
                path.push(*first)?;
                continue;
            }
            let Some((form, behind)) = rest.split_first() else {
                return Ok(Err(Cause::BadPercent));
            };
            let Some(meaning) = self.of(*form) else {
                return Ok(Err(Cause::BadPercent));
            };
            path.extend_from_slice(meaning)?;
            rest = behind;
        }
        if path.len() >= BUFFER {
            return Ok(Err(Cause::LongPath));
        }
        Ok(Ok(path))
    }
}

/// Returns the text between the quotes behind the word `include`, and what follows it.
fn quoted_at(rest: &[u8]) -> Result<(&[u8], &[u8]), Cause> {
    let Some((b'"', inside)) = skip_spaces(rest).split_first() else {
        return Err(Cause::NoPath);
    };
    match inside.iter().position(|byte| *byte == b'"') {
        Some(end) => Ok((&inside[..end], &inside[end + 1..])),
        None => Err(Cause::OpenPath),
    }
}

/// Returns the path of an include, up to its first byte 0, from what follows the word `include`;
/// or why it is none. O(bytes of the path).
pub(crate) fn included(
    alloc: Global,
    meanings: &Meanings<'_>,
    rest: &[u8],
    is_ended: bool,
) -> Result<Result<Vec<u8>, Cause>, AllocError> {
    let (text, behind) = match quoted_at(rest) {
        Ok(parts) => parts,
        Err(cause) => return Ok(Err(cause)),
    };
    let path = match meanings.path(alloc, text)? {
        Ok(path) => path,
        Err(cause) => return Ok(Err(cause)),
    };
    match token_at(behind) {
        (Token::End, _) if is_ended => { Ok(Ok(Vec::from_slice(alloc, before_nul(&path))?)) }
        (Token::End, _) => Ok(Err(Cause::NoNewline)),
        _ => Ok(Err(Cause::BehindInclude)),
    }
}
