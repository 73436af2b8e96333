//! Which keysyms a load may list as fresh.
ghost use Rattle.std.specs.Prelude.{◌≡◌, Some, None};
ghost use Rattle.compose_machine.specs.Machine.{are_allowed};

use keysym_core::Keysym;
use std::marker::Model;

/// Which keysyms the certificate of a load may list as fresh: those of a list, or any.
#[derive(Drop)]
pub struct Allowed {
    keysyms: Option<Vec<Keysym>>,
}

impl Model for Allowed {
    ghost use Rattle.std.specs.Prelude.{ℕ, List, Option};
    ghost use Rattle.compose_service.specs.Allowed.{list_of};

    ghost Value = { Option (List ℕ) };

    ghost view = { λ a. list_of a.keysyms };
}

impl Allowed {
    /// Allows any keysym.
    pub fn any() -> Allowed
        ensures { result ≡ None }
    {
        Allowed { keysyms: None }
    }

    /// Allows these keysyms alone.
    pub fn among(keysyms: Vec<Keysym>) -> Allowed
        ensures { result ≡ Some keysyms.items }
    {
        Allowed {
            keysyms: Some(keysyms),
        }
    }

    /// Whether all of these keysyms may be listed. O(keysyms × allowed ones).
    pub fn has_all(&self, keysyms: &[Keysym]) -> bool
        ensures { result ≡ are_allowed self.now keysyms.now }
    {
        match &self.keysyms {
            Some(allowed) => are_among(keysyms, allowed),
            None => true,
        }
    }
}

/// Whether all of the keysyms are among the allowed ones.
fn are_among(keysyms: &[Keysym], allowed: &[Keysym]) -> bool
    ensures { result ≡ are_allowed (Some allowed.now) keysyms.now }
{
    keysyms.iter().all(|keysym| allowed.contains(keysym))
}
