//! The entries of the packed arrays.
use keysym_core::Keysym;

/// A node of a packed table.
#[derive(Clone, Copy)]
#[repr(C)]
pub struct PackedNode {
    /// The depth of the node: the number of keysyms that lead to it, at most 31.
    pub depth: u32,
    /// The index of its first edge among all edges. Its edges end where those of the next begin.
    pub first: u32,
}

/// An edge of a packed table.
#[derive(Clone, Copy)]
#[repr(C)]
pub struct PackedEdge {
    /// The target of the edge: twice the number of a node, or twice the number of a leaf plus one. It
    /// comes first: a processor tests the lowest bit of eight bytes with one instruction.
    pub target: u32,
    /// The keysym of the edge.
    pub keysym: Keysym,
}

/// The number of bytes of a text's entry.
pub const TEXT_ENTRY: usize = 4;

/// A text of at most this number of bytes stands in its entry.
pub const SHORT_TEXT: usize = 3;
