//! A keysym: the number of a symbol on a key.
ghost use Rattle.std.specs.Prelude.{◌≡◌, ◌<◌, ◌≤◌, ℕ, Some, None};
ghost use Rattle.keysym_core.specs.Keysym as words;

use std::marker::Model;

/// A keysym: a number from 0 to `0x1fffffff` (keysymdef.h: the three highest bits of the 32 are
/// never set).
#[derive(Clone, Copy, Debug, PartialEq, Eq, PartialOrd, Ord, Hash)]
#[repr(C)]
pub struct Keysym {
    number: u32,
}

impl Model for Keysym {
    ghost Value = { ℕ };

    ghost view = { λ k. k.number };

    ghost invariant = { λ k. k.number ≤ 0x1fffffff };

    ghost inverse = { λ n. record { number = n } };
}

impl Keysym {
    /// The number of the greatest keysym.
    pub const GREATEST: u32 = 0x1fffffff;

    /// Returns the keysym with this number; `None` above `0x1fffffff`. O(1).
    pub fn new(number: u32) -> Option<Keysym>
        ensures some { number ≤ 0x1fffffff → result ≡ Some number }
        ensures none { 0x1fffffff < number → result ≡ None }
    {
        if number > Keysym::GREATEST {
            return None;
        }
        Some(Keysym { number })
    }

    /// Returns its number. O(1).
    pub fn value(self) -> u32
        ensures same { result ≡ self }
        ensures fits { result ≤ 0x1fffffff }
    {
        self.number
    }

    /// Returns whether a compose state ignores it: modifiers, locks and group switches. O(1).
    pub fn is_ignored(self) -> bool
        ensures { result ≡ words.is_ignored self }
    {
        matches!(self.number, 0xfe01..=0xfe13 | 0xff7e | 0xff7f | 0xffe1..=0xffee)
    }
}

impl Default for Keysym {
    ghost is_default = { λ k. k ≡ 0 };

    fn default() -> Self {
        Keysym { number: 0 }
    }
}
