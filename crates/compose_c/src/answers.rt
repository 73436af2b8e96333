//! The answers from C: what it found at each path that it was asked to look for.
ghost use Rattle.std.specs.Prelude.{◌≡◌, IfOk, [], Some, option_copied, option_map, bytes_eq};
ghost use Rattle.std.specs.List.{find, position};
ghost use Rattle.compose_find.specs.Found as found;
ghost use Rattle.compose_c.specs.Answers.{answer_at, answers_at, answers_of, file_at};
ghost use Rattle.compose_c.specs.Finds.{answer_for};

use crate::pieces::{split_by_2, split_by_4, split_count, text_of};
use compose_find::Files;
use std::alloc::{AllocError, Global};
use std::marker::Model;

/// A path that was looked for, and the bytes of its file, if there is one.
#[derive(Drop)]
pub struct FileAnswer<'p> {
    path: &'p str,
    bytes: Option<&'p [u8]>,
}

impl<'p> Model for FileAnswer<'p> {
    ghost use Rattle.std.specs.Prelude.{option_copied};
    ghost use Rattle.compose_find.specs.Found as found;

    ghost Value = { found.TriedFile };

    ghost view = { λ a. record { path = a.path.now; bytes = option_copied a.bytes } };
}

impl<'p> FileAnswer<'p> {
    ghost use Rattle.std.specs.Prelude.{◌≡◌, option_copied};

    /// Returns the path.
    fn path(&self) -> &'p str
        ensures { result.now ≡ self.now.path }
    {
        self.path
    }

    /// Returns the bytes of its file, if there is one.
    fn bytes(&self) -> Option<&'p [u8]>
        ensures { option_copied result ≡ self.now.bytes }
    {
        self.bytes
    }
}

/// Returns the answers in a payload; `None` if it is malformed. O(answers).
///
/// `Err` if memory runs out.
pub fn read_answers(
    alloc: Global,
    payload: &[u8],
) -> Result<Option<Vec<FileAnswer<'_>>>, AllocError>
    ensures { IfOk result
        (λ answers. option_map (λ a. a.items) answers ≡ answers_of payload.now) }
{
    let Some((count, rest)) = split_count(payload) else {
        return Ok(None);
    };
    let Some((answers, rest)) = read_counted(alloc, count, rest)? else {
        return Ok(None);
    };
    if !rest.is_empty() {
        return Ok(None);
    }
    Ok(Some(answers))
}

/// Reads this number of answers. Returns them and the bytes after them.
fn read_counted(
    alloc: Global,
    count: u16,
    bytes: &[u8],
) -> Result<Option<(Vec<FileAnswer<'_>>, &[u8])>, AllocError>
    ensures { IfOk result
        (λ read. option_map (λ p. (p.0.items, p.1.now)) read ≡ answers_at count [] bytes.now) }
{
    let mut answers = Vec::new(alloc);
    let mut rest = bytes;
    for index in 0..count {
        let Some((answer, left)) = read_answer(rest) else {
            return Ok(None);
        };
        answers.push(answer)?;
        rest = left;
    }
    Ok(Some((answers, rest)))
}

/// Reads one answer. Returns it and the bytes after it.
fn read_answer(bytes: &[u8]) -> Option<(FileAnswer<'_>, &[u8])>
    ensures { option_map (λ p. (p.0, p.1.now)) result ≡ answer_at bytes.now }
{
    let (path, rest) = split_by_2(bytes)?;
    read_file(text_of(path)?, rest)
}

/// Reads what was found at the path: no file, or the bytes of one. Returns the answer and the bytes
/// after it.
fn read_file<'p>(path: &'p str, bytes: &'p [u8]) -> Option<(FileAnswer<'p>, &'p [u8])>
    ensures { option_map (λ p. (p.0, p.1.now)) result ≡ file_at path.now bytes.now }
{
    match bytes {
        [0, rest @ ..] => Some((FileAnswer { path, bytes: None }, rest)),
        [1, rest @ ..] => {
            let (bytes, rest) = split_by_4(rest)?;
            let answer = FileAnswer {
                path,
                bytes: Some(bytes),
            };
            Some((answer, rest))
        }
        _ => None,
    }
}

/// Returns the files that were looked for, each with a copy of its bytes. O(bytes).
///
/// `Err` if memory runs out.
pub fn files_of(alloc: Global, answers: &[FileAnswer<'_>]) -> Result<Files, AllocError>
    ensures { IfOk result (λ files. files ≡ answers.now) }
{
    let mut files = Files::new(alloc);
    for answer in answers {
        let bytes = match answer.bytes() {
            Some(bytes) => Some(Vec::from_slice(alloc, bytes)?),
            None => None,
        };
        files.add(alloc, answer.path(), bytes)?;
    }
    Ok(files)
}

/// Returns the index of the answer for this path, or the number of answers if there is none.
/// O(answers).
pub fn answer_for(answers: &[FileAnswer<'_>], path: &str) -> usize
    ensures { result ≡ answer_for answers.now path.now }
{
    position_of(answers, path).unwrap_or(answers.len())
}

/// Returns the index of the answer for this path, if there is one.
fn position_of(answers: &[FileAnswer<'_>], path: &str) -> Option<usize>
    ensures { result ≡ position (λ f. bytes_eq path.now f.path) answers.now }
{
    answers.iter().position(|answer| has_path(answer, path))
}

/// Returns the bytes of the file at this path, if one was found there. O(answers).
pub fn held_at<'s, 'p>(answers: &'s [FileAnswer<'p>], path: &str) -> Option<&'p [u8]>
    ensures { option_copied result ≡ found.held_at answers.now path.now }
{
    looked(answers, path)?.bytes()
}

/// Returns the answer for this path, if there is one.
fn looked<'s, 'p>(answers: &'s [FileAnswer<'p>], path: &str) -> Option<&'s FileAnswer<'p>>
    ensures { option_copied result ≡ find (λ f. bytes_eq path.now f.path) answers.now }
{
    answers.iter().find(|answer| has_path(answer, path))
}

/// Returns whether the answer is for this path.
fn has_path(answer: &FileAnswer<'_>, path: &str) -> bool
    ensures { result ≡ bytes_eq path.now answer.now.path }
{
    path == answer.path
}
