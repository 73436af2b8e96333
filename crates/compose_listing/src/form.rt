//! The form and the order in which sequences are printed.

/// The form in which sequences are printed.
#[derive(Clone, Copy, Debug, PartialEq, Eq)]
pub enum ListForm {
    /// A line of a Compose file for each.
    Lines,
    /// A JSON object for each.
    Json,
}

/// The order in which sequences are printed.
#[derive(Clone, Copy, Debug, PartialEq, Eq)]
pub enum ListOrder {
    /// By the keysyms of their keys.
    Keys,
    /// By the bytes of their texts, and those of one text by their keys.
    Text,
    /// By the files in the order in which they are found, the root first, and by the lines in them.
    File,
}
