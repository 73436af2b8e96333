//! Pending keysyms.
use keysym_core::Keysym;
use std::marker::Model;

/// The most pending keysyms: one fewer than a sequence may have.
const MOST_PENDING: usize = 31;

/// At most 31 keysyms. To end them only a number is written, where an `ArrayVec` writes all of its
/// elements.
#[derive(Drop)]
pub(crate) struct Pending {
    keysyms: [Keysym; MOST_PENDING],
    count: usize,
}

impl Model for Pending {
    ghost use Rattle.std.specs.Prelude.{◌≤◌, ℕ, List, take};

    ghost Value = { List ℕ };

    ghost view = { λ p. take p.count p.keysyms };

    ghost invariant = { λ p. p.count ≤ 31 };
}

impl Pending {
    ghost use Rattle.std.specs.Prelude.{◌≡◌, ◌≤◌, ◌<◌, ◌++◌, [], ◌∷◌, length};
    ghost use Rattle.compose_model.specs.Step.{is_empty};

    /// Returns no keysyms. O(1).
    pub fn new() -> Pending
        ensures { result ≡ [] }
    {
        Pending {
            keysyms: [Keysym::default(); MOST_PENDING],
            count: 0,
        }
    }

    /// Returns these keysyms. O(their number).
    pub fn of(keysyms: &[Keysym]) -> Pending
        requires { length keysyms.now ≤ 31 }
        ensures { result ≡ keysyms.now }
    {
        let mut pending = Pending::new();
        for keysym in keysyms {
            pending.push(*keysym);
        }
        pending
    }

    /// Returns their number, at most 31. O(1).
    pub fn len(&self) -> usize
        ensures value { result ≡ length self.now }
        ensures few { result ≤ 31 }
    {
        self.as_slice().len()
    }

    /// Returns whether there are none. O(1).
    pub fn is_empty(&self) -> bool
        ensures { result ≡ is_empty self.now }
    {
        self.as_slice().is_empty()
    }

    /// Returns them in the order in which they were typed. O(1).
    pub fn as_slice(&self) -> &[Keysym]
        ensures value { result.now ≡ self.now }
        ensures few { length result.now ≤ 31 }
    {
        &self.keysyms[..self.count]
    }

    /// Adds a keysym after them. O(1).
    pub fn push(&mut self, keysym: Keysym)
        requires { length self.old < 31 }
        ensures { self.new ≡ self.old ++ keysym ∷ [] }
    {
        self.keysyms[self.count] = keysym;
        self.count += 1;
    }

    /// Ends them. O(1).
    pub fn clear(&mut self)
        ensures { self.new ≡ [] }
    {
        self.count = 0;
    }
}
