//! The faults of a certificate.
use keysym_core::{Keysym, ShownChar, ShownKeysym};
use thiserror::Error;

/// The first condition that a certificate does not meet. `pair` is the index of the pair, counted
/// from 0.
#[derive(Clone, Copy, Debug, PartialEq, Eq, Drop, Error)]
pub enum CheckFault {
    /// The pairs are not strictly increasing by their old and then their new number.
    #[error("1 PairsNotRising")]
    PairsNotRising,
    /// A number in a pair is not the number of a node.
    #[error("2 NodeOutOfRange")]
    NodeOutOfRange,
    /// The two roots are not a pair.
    #[error("3 RootPairMissing")]
    RootPairMissing,
    /// The old root is paired with another node than the new root.
    #[error("4 RestBroken")]
    RestBroken,
    /// The keysym begins a sequence only in the new table; it is not fresh, and does not type
    /// itself.
    #[error("5 NewStart keysym={keysym}", keysym = ShownKeysym(*keysym))]
    NewStart { keysym: Keysym },
    /// From the nodes of the pair, the new table cancels at the keysym.
    #[error("6 Cancels pair={pair} keysym={keysym}", keysym = ShownKeysym(*keysym))]
    Cancels { pair: usize, keysym: Keysym },
    /// From the nodes of the pair, the tables commit different texts at the keysym.
    #[error("7 TextDiffers pair={pair} keysym={keysym}", keysym = ShownKeysym(*keysym))]
    TextDiffers { pair: usize, keysym: Keysym },
    /// From the nodes of the pair, the keysym leads to nodes that are not a pair.
    #[error("8 PairMissing pair={pair} keysym={keysym}", keysym = ShownKeysym(*keysym))]
    PairMissing { pair: usize, keysym: Keysym },
    /// The sequence of this node of the new table is longer than the bound.
    #[error("9 BoundExceeded node={node}")]
    BoundExceeded { node: u32 },
    /// The character of the repertoire has no typing.
    #[error("10 TypingMissing char={character}", character = ShownChar(*character))]
    TypingMissing { character: char },
    /// The typing does not type its character with the repertoire's keys.
    #[error("11 TypingWrong char={character}", character = ShownChar(*character))]
    TypingWrong { character: char },
    /// The typing's character is not in the repertoire.
    #[error("12 TypingUnasked char={character}", character = ShownChar(*character))]
    TypingUnasked { character: char },
    /// The fresh keysyms are not strictly increasing.
    #[error("13 FreshNotRising")]
    FreshNotRising,
    /// The fresh keysym is one that a compose state ignores.
    #[error("14 FreshIgnored keysym={keysym}", keysym = ShownKeysym(*keysym))]
    FreshIgnored { keysym: Keysym },
    /// The fresh keysym is in a sequence of the old table.
    #[error("15 FreshUsed keysym={keysym}", keysym = ShownKeysym(*keysym))]
    FreshUsed { keysym: Keysym },
}
