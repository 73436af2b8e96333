//! The sources that a table may be read from, by name.
ghost use Rattle.std.specs.Prelude.{◌≡◌, ◌≢◌, ◌<◌, ◌≤◌, ◌++◌, [], ◌∷◌, length, Some, None, IsSome, IfErr, IfOk, OnOk, OnErr, false, nat_lt, position, bytes_eq, IfSome, slice_get, option_map, option_copied, unwrap_or};
ghost use Rattle.std.specs.Cow.{cow_slice_items};
ghost use Rattle.compose_read.specs.Lines.{source_named};
ghost use Rattle.compose_read.specs.Sources.{add_fault, AreSources};
ghost use Rattle.compose_read.specs.declared.sources.SourceFault.TheVariants.{NoMemory};

use indexmap::IndexMap;
use std::alloc::{AllocError, AllocFailed, Global};
use std::borrow::CowSlice;
use std::marker::Model;
use thiserror::Error;

/// The reason why a source cannot be added.
#[derive(Clone, Copy, Debug, PartialEq, Eq, Drop, Error)]
pub enum SourceFault {
    /// There is a source with this name already.
    #[error("1 NameTaken")]
    NameTaken,
    /// There are 64 sources already.
    #[error("2 TooManySources")]
    TooManySources,
    /// Memory ran out.
    #[error("3 NoMemory")]
    NoMemory,
}

impl From<AllocError> for SourceFault {
    ghost from_gives = { λ _ e. e ≡ NoMemory };

    fn from(_error: AllocError) -> SourceFault {
        SourceFault::NoMemory
    }
}

impl<T: Drop> From<AllocFailed<T>> for SourceFault {
    ghost from_gives = { λ _ e. e ≡ NoMemory };

    fn from(_error: AllocFailed<T>) -> SourceFault {
        SourceFault::NoMemory
    }
}

/// Files under the names by which includes find them, in the order in which they were added; at
/// most 64. A file's bytes are owned, or borrowed for `'s`.
#[derive(Drop)]
pub struct Sources<'s> {
    files: IndexMap<String, CowSlice<'s, u8>>,
}

impl<'s> Model for Sources<'s> {
    ghost use Rattle.std.specs.Prelude.{List, length, ◌≤◌};
    ghost use Rattle.compose_read.specs.Lines.{Source};
    ghost use Rattle.compose_read.specs.Sources.{sources_of};

    ghost Value = { List Source };

    ghost view = { λ s. sources_of s.files.entries };

    ghost invariant = { λ s. length s.files.entries ≤ 64 };
}

impl<'s> Sources<'s> {
    /// The greatest number of sources.
    pub const MOST: usize = 64;

    /// Returns an empty list of sources. It takes no memory.
    pub fn new(alloc: Global) -> Sources<'s>
        ensures { result ≡ [] }
    {
        Sources {
            files: IndexMap::new(alloc),
        }
    }

    /// Returns the number of sources: at most 64, whose names are distinct. O(1).
    pub fn count(&self) -> usize
        ensures count { result ≡ length self.now }
        ensures sound { AreSources self.now }
    {
        self.files.len()
    }

    /// Returns the name of the source at this index, if there is one. O(1).
    pub fn name(&self, index: usize) -> Option<&str>
        ensures { option_copied result ≡ option_map (λ s. s.name) (slice_get self.now index) }
    {
        let (name, _) = self.files.get_index(index)?;
        Some(name.as_str())
    }

    /// Adds a source after the others. An error changes nothing. O(1) in the number of sources, and
    /// a copy of the name.
    ///
    /// Errors: `NameTaken` if there is a source with this name, else `TooManySources` if there are
    /// 64 sources; `NoMemory` if memory runs out.
    pub fn add(&mut self, name: &str, bytes: Vec<u8>) -> Result<(), SourceFault>
        ensures ok { OnOk result
            ((add_fault self.old name.now ≡ None)
            × (self.new ≡ self.old ++ record { name = name.now; bytes = bytes.items } ∷ [])) }
        ensures err { OnErr result (self.new ≡ self.old) }
        ensures refused { IfErr result (λ e. e ≢ NoMemory → add_fault self.old name.now ≡ Some e) }
        ensures fault { IsSome (add_fault self.old name.now)
            → IfErr result (λ e. add_fault self.old name.now ≡ Some e) }
    {
        self.add_new(name, CowSlice::Owned(bytes))
    }

    /// Adds a source after the others, as [`Sources::add`] does, but borrows its bytes in the place
    /// of taking them. An error changes nothing. O(1) in the number of sources and in the bytes, and
    /// a copy of the name.
    ///
    /// Errors: those of [`Sources::add`].
    pub fn add_borrowed(&mut self, name: &str, bytes: &'s [u8]) -> Result<(), SourceFault>
        ensures ok { OnOk result
            ((add_fault self.old name.now ≡ None)
            × (self.new ≡ self.old ++ record { name = name.now; bytes = bytes.now } ∷ [])) }
        ensures err { OnErr result (self.new ≡ self.old) }
        ensures refused { IfErr result (λ e. e ≢ NoMemory → add_fault self.old name.now ≡ Some e) }
        ensures fault { IsSome (add_fault self.old name.now)
            → IfErr result (λ e. add_fault self.old name.now ≡ Some e) }
    {
        self.add_new(name, CowSlice::Borrowed(bytes))
    }

    /// Adds a source after the others, if its name is new and there is room.
    fn add_new(&mut self, name: &str, bytes: CowSlice<'s, u8>) -> Result<(), SourceFault>
        ensures ok { OnOk result
            ((add_fault self.old name.now ≡ None)
            × (self.new
            ≡ self.old ++ record { name = name.now; bytes = cow_slice_items bytes.entry } ∷ [])) }
        ensures err { OnErr result (self.new ≡ self.old) }
        ensures refused { IfErr result (λ e. e ≢ NoMemory → add_fault self.old name.now ≡ Some e) }
        ensures fault { IsSome (add_fault self.old name.now)
            → IfErr result (λ e. add_fault self.old name.now ≡ Some e) }
    {
        if self.index_of(name).is_some() {
            return Err(SourceFault::NameTaken);
        }
        if self.count() >= Sources::MOST {
            return Err(SourceFault::TooManySources);
        }
        self.append(name, bytes)?;
        Ok(())
    }

    /// Returns the index of the source with this name, if there is one. O(1).
    pub(crate) fn index_of(&self, name: &str) -> Option<usize>
        ensures index { result ≡ position (λ s. bytes_eq name.now s.name) self.now }
        ensures within { IfSome result (λ i. i < length self.now) }
        ensures few { length self.now ≤ 64 }
    {
        self.files.get_index_of(name)
    }

    /// Returns the bytes of the source at this index. O(1).
    pub fn bytes(&self, index: usize) -> &[u8]
        requires { index < length self.now }
        ensures { option_map (λ s. s.bytes) (slice_get self.now index) ≡ Some result.now }
    {
        self.files[index].as_slice()
    }

    /// Returns the same sources with bytes of their own. O(bytes).
    ///
    /// Errors: `AllocError` if memory runs out.
    pub fn owned(&self, alloc: Global) -> Result<Sources<'static>, AllocError>
        ensures { IfOk result (λ owned. owned ≡ self.now) }
    {
        let mut owned = Sources::new(alloc);
        for index in 0..self.count() {
            let copy = Vec::from_slice(alloc, self.bytes(index))?;
            add_copy(&mut owned, self.name(index), copy)?;
        }
        Ok(owned)
    }

    /// Adds a source with a new name after the others.
    fn append(&mut self, name: &str, bytes: CowSlice<'s, u8>) -> Result<(), AllocError>
        requires new { position (λ s. bytes_eq name.now s.name) self.old ≡ None }
        requires room { length self.old < 64 }
        ensures ok { OnOk result
            (self.new
            ≡ self.old ++ record { name = name.now; bytes = cow_slice_items bytes.entry } ∷ []) }
        ensures err { OnErr result (self.new ≡ self.old) }
    {
        let alloc = *self.files.allocator();
        let kept = String::from_str(alloc, name)?;
        self.files.insert(kept, bytes)?;
        Ok(())
    }
}

/// Adds a source with this name after the others.
fn add_copy(
    sources: &mut Sources<'static>,
    name: Option<&str>,
    bytes: Vec<u8>,
) -> Result<(), AllocError>
    ensures { OnOk result
        (sources.new
        ≡ sources.old
        ++ record { name = unwrap_or (option_copied name.entry) []; bytes = bytes.items } ∷ []) }
{
    match sources.add(name.unwrap_or(""), bytes) {
        Ok(()) => Ok(()),
        Err(_) => Err(AllocError),
    }
}
