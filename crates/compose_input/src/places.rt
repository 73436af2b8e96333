//! The folders of a system's tables.
ghost use Rattle.std.specs.Prelude.{◌≡◌, ◌++◌, option_copied, option_map, IfOk, IfErr, string_bytes};
ghost use Rattle.compose_find.specs.FindReturns.{words};
ghost use Rattle.compose_input.specs.Texts.{IsFound};
ghost use Rattle.compose_input.specs.declared.fault.Fault.TheVariants.{NoMemory};

use crate::fault::Fault;
use compose_find::{Meanings, locale_file};
use compose_folder::{Folder, ReadOnce, Unread};
use std::alloc::{AllocError, Global};

/// The folders of a system's tables, and what is known of its user.
#[derive(Clone, Copy, Debug, Drop)]
pub struct Places<'a> {
    /// The folder of the system's tables, for `%S`.
    pub system: &'a str,
    /// The folder of the tree to which the files of a table belong, if it is given; otherwise the
    /// table's own path shows it.
    pub tree: Option<&'a str>,
    /// The name of the locale, whose table is `%L`, if it is known.
    pub locale: Option<&'a str>,
    /// The user's home folder, for `%H`, if it is known.
    pub home: Option<&'a str>,
    /// The folder below which a file with an absolute path is searched for first, for example that
    /// of an unpacked package.
    pub root: Option<&'a str>,
}

impl<'a> Places<'a> {
    ghost use Rattle.compose_input.specs.Places.{words_with, IsListing, IsLocaleTable};

    /// Returns what `%S`, `%L` and `%H` stand for, if this is the table of the locale.
    pub(crate) fn meanings(&self, locale: Option<&'a str>) -> Meanings<'a>
        ensures { words result ≡ words_with self.now (option_copied locale.entry) }
    {
        Meanings {
            system: self.system,
            locale,
            home: self.home,
            root: self.root,
        }
    }

    /// Returns the path of the table of the locale, if there is one. It is found by the files
    /// `compose.dir` and `locale.alias` of the system's folder; a file that can't be read counts as
    /// empty. O(bytes).
    ///
    /// Errors: only `NoMemory`, if memory runs out.
    pub fn locale_table<F: Folder>(
        &self,
        files: &mut ReadOnce<F>,
        alloc: Global,
    ) -> Result<Option<String>, Fault>
        ensures kept { files.new.holds ≡ files.old.holds }
        ensures found { IfOk result
            (λ table. IsLocaleTable files.old.holds self.now (option_map string_bytes table)) }
        ensures fault { IfErr result (λ fault. fault ≡ NoMemory) }
    {
        let Some(locale) = self.locale else {
            return Ok(None);
        };
        let compose_dir = self.listing(files, alloc, "/compose.dir")?;
        let aliases = self.listing(files, alloc, "/locale.alias")?;
        Ok(locale_file(alloc, self.system, &compose_dir, &aliases, locale)?)
    }

    /// Returns the bytes of the file with this name, which begins with a slash, in the system's
    /// folder: below the root if it is there, and empty if there is none.
    fn listing<F: Folder>(
        &self,
        files: &mut ReadOnce<F>,
        alloc: Global,
        name: &str,
    ) -> Result<Vec<u8>, Fault>
        ensures kept { files.new.holds ≡ files.old.holds }
        ensures read { IfOk result
            (λ bytes. IsListing files.old.holds self.now name.now bytes.items) }
        ensures fault { IfErr result (λ fault. fault ≡ NoMemory) }
    {
        let path = joined(alloc, self.system, name)?;
        if let Some(root) = self.root {
            let below = joined(alloc, root, &path)?;
            if let Some(bytes) = found(files, alloc, &below)? {
                return Ok(bytes);
            }
        }
        match found(files, alloc, &path)? {
            Some(bytes) => Ok(bytes),
            None => Ok(Vec::new(alloc)),
        }
    }
}

/// Returns the bytes of the file at this path, if it can be read.
pub(crate) fn found<F: Folder>(
    files: &mut ReadOnce<F>,
    alloc: Global,
    path: &str,
) -> Result<Option<Vec<u8>>, Fault>
    ensures kept { files.new.holds ≡ files.old.holds }
    ensures found { IfOk result
        (λ bytes. IsFound files.old.holds path.now (option_map (λ held. held.items) bytes)) }
    ensures fault { IfErr result (λ fault. fault ≡ NoMemory) }
{
    match files.read(alloc, path) {
        Ok(bytes) => Ok(Some(bytes)),
        Err(Unread::Refused(_)) => Ok(None),
        Err(Unread::NoMemory) => Err(Fault::NoMemory),
    }
}

/// Returns a text followed by another one.
pub(crate) fn joined(alloc: Global, first: &str, second: &str) -> Result<String, AllocError>
    ensures { IfOk result (λ text. string_bytes text ≡ first.now ++ second.now) }
{
    let mut text = String::from_str(alloc, first)?;
    text.push_str(second)?;
    Ok(text)
}
