//! The files of the folder, and the calls by which they change.
ghost use Rattle.std.specs.Prelude.{◌≡◌, [], ◌∷◌, List, Option, MatchResult, true, false};
ghost use Rattle.compose_stored.specs.Folder.{Call, more, writing, wrote, renamed, linked, removed, synced, failed};

use std::io::ErrorKind;

/// A file of the folder.
#[derive(Clone, Copy, Debug, PartialEq, Eq, Drop)]
pub enum Name {
    /// The table in use.
    Table,
    /// A table that is being stored.
    NewTable,
    /// The table before the last change.
    Previous,
    /// The table in use, while it is kept as the previous one.
    NewPrevious,
    /// A table that the owner chose, until the service takes it.
    Next,
    /// A table that is being handed over.
    NewNext,
}

/// The calls by which the files of the folder change.
pub trait StateFiles {
    /// The calls that were made one after another, if they are known.
    ghost calls: { Self → Option (List Call) };

    /// Writes a new file with these bytes, and waits until they are on the disk. O(bytes).
    ///
    /// Errors: the reason, also if a file of this name is there; then any part of it may be there.
    fn write(&mut self, name: Name, bytes: &[u8]) -> Result<(), ErrorKind>
        ensures { MatchResult result
            (λ _. calls self.new ≡ more (calls self.old) (writing name ∷ wrote name bytes.now ∷ []))
            (λ why. calls self.new ≡ more (calls self.old) (writing name ∷ failed why ∷ [])) };

    /// Gives the file another name, in the place of the file of that name if there is one.
    ///
    /// If both are names of one file already, the old name may stay. Here that happens at most to
    /// `NewPrevious`, and no contract speaks of what is left of it then.
    ///
    /// Errors: the reason, also if there is no such file; nothing changes then.
    fn rename(&mut self, from: Name, to: Name) -> Result<(), ErrorKind>
        ensures { MatchResult result
            (λ _. calls self.new ≡ more (calls self.old) (renamed from to ∷ []))
            (λ why. calls self.new ≡ more (calls self.old) (failed why ∷ [])) };

    /// Gives the file a second name, which no file has.
    ///
    /// Errors: the reason, also if there is no such file, or if a file has that name; nothing
    /// changes then.
    fn link(&mut self, from: Name, to: Name) -> Result<(), ErrorKind>
        ensures { MatchResult result
            (λ _. calls self.new ≡ more (calls self.old) (linked from to ∷ []))
            (λ why. calls self.new ≡ more (calls self.old) (failed why ∷ [])) };

    /// Removes the file, if there is one.
    ///
    /// Errors: the reason if it can't be removed; nothing changes then. It is no error that there
    /// is no such file.
    fn remove(&mut self, name: Name) -> Result<(), ErrorKind>
        ensures { MatchResult result
            (λ _. calls self.new ≡ more (calls self.old) (removed name ∷ []))
            (λ why. calls self.new ≡ more (calls self.old) (failed why ∷ [])) };

    /// Waits until the changes of names so far are on the disk.
    ///
    /// Errors: the reason if that is not known; then a power cut may undo the last of them.
    fn sync(&mut self) -> Result<(), ErrorKind>
        ensures { MatchResult result
            (λ _. calls self.new ≡ more (calls self.old) (synced true ∷ []))
            (λ _. calls self.new ≡ more (calls self.old) (synced false ∷ [])) };
}
