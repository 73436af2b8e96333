//! Other readers of Compose files, and the classes of lines that they skip or treat differently.

/// Another reader of Compose files; docs/READERS.md lists the versions.
#[derive(Clone, Copy, Debug, PartialEq, Eq, Drop)]
pub enum Reader {
    /// The X library, libX11.
    LibX11,
    /// The keyboard library libxkbcommon.
    Libxkbcommon,
    /// GTK, major version 3.
    Gtk3,
    /// GTK, major version 4.
    Gtk4,
}

/// The readers whose findings are wanted.
#[derive(Clone, Copy, Debug, PartialEq, Eq, Drop)]
pub struct Readers {
    /// Whether findings about libX11 are wanted.
    pub libx11: bool,
    /// Whether findings about libxkbcommon are wanted.
    pub libxkbcommon: bool,
    /// Whether findings about GTK 3 are wanted.
    pub gtk3: bool,
    /// Whether findings about GTK 4 are wanted.
    pub gtk4: bool,
}

/// A class of lines that this program reads, and that a reader skips or types differently.
#[derive(Clone, Copy, Debug, PartialEq, Eq, Drop)]
pub enum Class {
    /// The first line, after a byte order mark.
    ByteOrderMark,
    /// The last line, without a newline.
    NoNewline,
    /// The line before it ends in a backslash.
    Joined,
    /// A carriage return outside of the string and the comment.
    CarriageReturn,
    /// A blank between `<` or `>` and the name of a key.
    SpacedName,
    /// More keysyms than the reader takes: at least ten for libX11, eleven for libxkbcommon.
    ManyKeysyms,
    /// The keysym 0 in the sequence.
    NoSymbol,
    /// A text of 255 bytes.
    LongestText,
    /// A byte 0 in the text.
    Nul,
    /// A keysym above 0xffff in the sequence.
    WideKeysym,
    /// A result name that begins with a digit.
    DigitName,
    /// No string.
    NoString,
    /// One of the escapes `\n`, `\r` and `\t`.
    LetterEscape,
}
