//! Why a reader leaves a line out.
ghost use Rattle.std.specs.Prelude.{◌≡◌};
ghost use Rattle.compose_readers.specs.Refusals.{is_fault};
ghost use Rattle.compose_readers.specs.Words.{cause_words};

/// Why a reader leaves a line out: the first thing from the left that it doesn't take.
#[derive(Clone, Copy, Debug, PartialEq, Eq, Drop)]
pub enum Cause {
    /// A key's `<` without its `>`.
    OpenKey,
    /// A name or a word that is too long.
    LongName,
    /// A character with which nothing begins.
    OddByte,
    /// A string without its closing quote.
    OpenString,
    /// A string that is too long to be read.
    LongString,
    /// A string that isn't UTF-8.
    NotUtf8,
    /// Something else where a key or a colon has to stand.
    NoKeyHere,
    /// A `~` without a modifier behind it.
    NoModifier,
    /// A word that names no modifier.
    UnknownModifier,
    /// A key whose name has no keysym.
    UnknownKey,
    /// A result whose name has no keysym.
    UnknownResult,
    /// More keys than a sequence may have.
    TooManyKeys,
    /// A colon with no key before it.
    NoKey,
    /// A second string.
    TwoStrings,
    /// A text that is longer than the reader keeps.
    LongText,
    /// Neither a string nor the name of a result.
    NoResult,
    /// Something else in the result, or behind a string.
    OddResult,
    /// The end of the file where a newline has to be.
    NoNewline,
    /// An include without a quote.
    NoPath,
    /// A path without its closing quote.
    OpenPath,
    /// A path that is too long.
    LongPath,
    /// A percent sign with nothing known behind it, or with something that isn't set.
    BadPercent,
    /// Something behind the path of an include.
    BehindInclude,
}

impl Cause {
    /// Returns whether it makes a line faulty: of faulty lines libxkbcommon takes only some in a
    /// file. O(1).
    pub(crate) fn is_fault(self) -> bool
        ensures { result ≡ is_fault self }
    {
        match self {
            Cause::TooManyKeys => false,
            Cause::NoKey => false,
            Cause::TwoStrings => false,
            Cause::LongText => false,
            Cause::NoResult => false,
            Cause::OpenKey
            | Cause::LongName
            | Cause::OddByte
            | Cause::OpenString
            | Cause::LongString
            | Cause::NotUtf8
            | Cause::NoKeyHere
            | Cause::NoModifier
            | Cause::UnknownModifier
            | Cause::UnknownKey
            | Cause::UnknownResult
            | Cause::OddResult
            | Cause::NoNewline
            | Cause::NoPath
            | Cause::OpenPath
            | Cause::LongPath
            | Cause::BadPercent
            | Cause::BehindInclude => true,
        }
    }
    /// Returns it in words. O(1).
    pub fn words(self) -> &'static str
        ensures { result.now ≡ cause_words self }
    {
        match self {
            Cause::OpenKey => "a `<` without a `>`",
            Cause::LongName => "a name that is too long",
            Cause::OddByte => "a character that begins nothing",
            Cause::OpenString => "a string without its end",
            Cause::LongString => "a string that is too long",
            Cause::NotUtf8 => "a string that is not UTF-8",
            Cause::NoKeyHere => "no key where one has to be",
            Cause::NoModifier => "no modifier behind a `~`",
            Cause::UnknownModifier => "an unknown modifier",
            Cause::UnknownKey => "an unknown name of a key",
            Cause::UnknownResult => "an unknown name of a result",
            Cause::TooManyKeys => "too many keys",
            Cause::NoKey => "no key",
            Cause::TwoStrings => "two strings",
            Cause::LongText => "a text that is too long",
            Cause::NoResult => "no result",
            Cause::OddResult => "something odd in the result",
            Cause::NoNewline => "no newline behind it",
            Cause::NoPath => "an include without a path",
            Cause::OpenPath => "a path without its end",
            Cause::LongPath => "a path that is too long",
            Cause::BadPercent => "an unknown or unset % form",
            Cause::BehindInclude => "something behind an include",
        }
    }
}
