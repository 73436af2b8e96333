//! libxkbcommon.
mod includes;
mod keysyms;
mod lines;
mod strings;
mod tokens;
mod vendor_names;

ghost use Rattle.std.specs.Prelude.{◌≡◌, IfOk};
ghost use Rattle.compose_readers.specs.Files.{AreLinesOf};
ghost use Rattle.compose_readers.specs.Xkbcommon.{behind_mark, begins_text, most_nodes, refusal_of};

use crate::file::{FileRead, LineRead};
use crate::walking::{Bounds, Refusal};
use compose_text::first_line;
use keysym_core::Names;
use std::alloc::{AllocError, Global};

/// A version of libxkbcommon.
#[derive(Clone, Copy, Debug, PartialEq, Eq, Drop)]
pub enum Version {
    /// 1.5.0, as in Debian 12.
    V1_5,
    /// 1.7.0, as in Debian 13: the newest one here.
    V1_7,
}

impl Version {
    /// Includes may lead five deep, and a file may have ten faulty lines.
    pub const BOUNDS: Bounds = Bounds {
        depth: 5,
        faults: 10,
    };

    /// Returns the number that the nodes of a table have to stay below, of which there is one for
    /// each beginning of a sequence. O(1).
    pub fn most_nodes(self) -> usize
        ensures { result ≡ most_nodes self }
    {
        match self {
            Version::V1_5 => 65_534,
            Version::V1_7 => 8_388_607,
        }
    }

    /// Returns the number of bytes that a text may have. O(1).
    fn most_text(self) -> usize {
        match self {
            Version::V1_5 => 254,
            Version::V1_7 => 255,
        }
    }

    /// Returns the greatest keysym that `0x` and digits may name. O(1).
    fn greatest_keysym(self) -> u32 {
        match self {
            Version::V1_5 => u32::MAX,
            Version::V1_7 => 0x1fff_ffff,
        }
    }
}

/// What `%H`, `%L` and `%S` stand for in the path of an include.
#[derive(Clone, Copy, Debug, Drop)]
pub struct Meanings<'a> {
    /// `%H`: the user's home folder, if it is set.
    pub home: Option<&'a [u8]>,
    /// `%L`: the path of the locale's table, if there is one.
    pub locale: Option<&'a [u8]>,
    /// `%S`: the folder of the system's tables.
    pub system: &'a [u8],
}

/// A libxkbcommon: its version, its names of keysyms, and what the paths of includes are made of.
#[derive(Clone, Copy)]
pub struct Reader<'a> {
    /// The version.
    pub version: Version,
    /// The names of keysyms in the headers of X; those of vendors are known here.
    pub names: &'a Names,
    /// What `%H`, `%L` and `%S` stand for.
    pub meanings: Meanings<'a>,
}

/// A UTF-8 byte order mark.
const MARK: [u8; 3] = [0xef, 0xbb, 0xbf];

/// Returns whether bytes begin as a text in ASCII does: the first byte is below 128, and the first
/// two are no byte 0. A single byte always does.
fn begins_text(bytes: &[u8]) -> bool
    ensures { result ≡ begins_text bytes.now }
{
    match bytes {
        [first, second, ..] => *first != 0 && *second != 0 && *first < 128,
        _ => true,
    }
}

impl Reader<'_> {
    /// Returns what the reader reads of the bytes: those behind a byte order mark, if the version
    /// passes over it.
    fn behind_mark<'b>(&self, bytes: &'b [u8]) -> &'b [u8]
        ensures { result.now ≡ behind_mark self.now.version bytes.now }
    {
        match self.version {
            Version::V1_5 => bytes,
            Version::V1_7 => bytes.strip_prefix(&MARK).unwrap_or(bytes),
        }
    }

    /// Returns why the reader refuses a file with these bytes before it looks at a line, if it does.
    fn refusal_of(&self, bytes: &[u8]) -> Option<Refusal>
        ensures { result ≡ refusal_of self.now.version bytes.now }
    {
        if bytes.is_empty() {
            return Some(Refusal::Empty);
        }
        match self.version {
            Version::V1_5 => None,
            Version::V1_7 if bytes.starts_with(&MARK) || begins_text(bytes) => None,
            Version::V1_7 => Some(Refusal::Encoding),
        }
    }

    /// Reads the lines of these bytes. O(bytes).
    #[tactic(auto, using(crate::proofs::Lines::line_read, crate::proofs::Lines::lines_done))]
    fn lines(&self, alloc: Global, bytes: &[u8]) -> Result<Vec<LineRead>, AllocError>
        ensures { IfOk result (λ lines. AreLinesOf lines.items bytes.now) }
    {
        let mut lines = Vec::new(alloc);
        let mut rest = bytes;
        while let Some((line, behind)) = first_line(rest) {
            let is_ended = line.len() < rest.len();
            lines.push(self.line(alloc, line, is_ended)?)?;
            rest = behind;
        }
        Ok(lines)
    }

    /// Reads a file: its lines, or why the reader refuses it. O(bytes).
    ///
    /// Errors: `AllocError` if memory runs out.
    pub fn file(&self, alloc: Global, path: Vec<u8>, bytes: &[u8]) -> Result<FileRead, AllocError>
        ensures path { IfOk result (λ file. file.path ≡ path.items) }
        ensures lines { IfOk result
            (λ file. AreLinesOf file.lines (behind_mark self.now.version bytes.now)) }
        ensures refusal { IfOk result
            (λ file. file.refusal ≡ refusal_of self.now.version bytes.now) }
    {
        let lines = self.lines(alloc, self.behind_mark(bytes))?;
        Ok(FileRead {
            path,
            refusal: self.refusal_of(bytes),
            lines,
        })
    }
}
