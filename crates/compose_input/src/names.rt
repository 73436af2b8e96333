//! The files of keysym names.
ghost use Rattle.std.specs.Prelude.{◌≡◌, map, IfOk, IfErr, OnOk};
ghost use Rattle.compose_input.specs.Faults.{FailsName, FailNames};
ghost use Rattle.compose_input.specs.Names.{AreNames, AddsNames, IsNamedText};

use crate::fault::Fault;
use crate::headers::{add_names, line_count};
use crate::texts::read_text;
use builtin_names::builtin_names;
use compose_folder::{Folder, ReadOnce};
use std::alloc::{AllocError, Global};

/// A file of keysym names.
#[derive(Clone, Copy, Debug)]
pub struct Header<'a> {
    /// The path of the file, or `builtin`.
    pub path: &'a str,
    /// The number of lines that it adds to those of all names.
    pub lines: usize,
}

/// The files of keysym names.
#[derive(Drop)]
pub struct NameFiles<'n> {
    /// The lines of all files, one file after another.
    pub lines: Vec<u8>,
    /// The files, in their order.
    pub files: Vec<Header<'n>>,
}

impl<'n> NameFiles<'n> {
    /// Reads the lines of the files of names, in their order; `builtin` stands for the built-in
    /// names. O(bytes).
    ///
    /// Errors: that of the first file that can't be read, or `NoMemory` if memory runs out.
    pub fn read<F: Folder>(
        files: &mut ReadOnce<F>,
        alloc: Global,
        names: &[&'n str],
    ) -> Result<NameFiles<'n>, Fault>
        ensures kept { files.new.holds ≡ files.old.holds }
        ensures read { IfOk result
            (λ read. AreNames files.old.holds (map (λ name. name.now) names.now) read) }
        ensures fault { IfErr result
            (λ fault. FailNames files.old.holds (map (λ name. name.now) names.now) fault) }
    {
        let mut header = NameFiles {
            lines: Vec::new(alloc),
            files: Vec::new(alloc),
        };
        for name in names {
            let text = name_text(files, alloc, name)?;
            header.add(name, &text)?;
        }
        Ok(header)
    }

    /// Adds a file of names to those before it.
    fn add(&mut self, path: &'n str, lines: &[u8]) -> Result<(), AllocError>
        ensures { OnOk result
            (AddsNames (record { name = path.now; text = lines.now }) self.old self.new) }
    {
        self.files.push(Header {
            path,
            lines: line_count(lines),
        })?;
        add_names(&mut self.lines, lines)
    }
}

/// Reads the lines for a given name.
fn name_text<F: Folder>(
    files: &mut ReadOnce<F>,
    alloc: Global,
    name: &str,
) -> Result<Vec<u8>, Fault>
    ensures kept { files.new.holds ≡ files.old.holds }
    ensures read { IfOk result
        (λ text. IsNamedText files.old.holds (record { name = name.now; text = text.items })) }
    ensures fault { IfErr result (λ fault. FailsName files.old.holds name.now fault) }
{
    if name == "builtin" {
        return Ok(Vec::from_slice(alloc, builtin_names().as_bytes())?);
    }
    read_text(files, alloc, name)
}
