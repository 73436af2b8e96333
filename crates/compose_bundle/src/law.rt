//! The law of bundles.
ghost use Rattle.std.specs.Prelude.{◌≡◌, List, ℕ, Some};
ghost use Rattle.compose_bundle.specs.Bundle.{Bundle, IsBundle, AreBytes};
ghost use Rattle.compose_bundle.specs.Decoded.{bundle_of};

/// A payload is at most one bundle, and `bundle_of` returns it.
pub fn law_one_bundle()
    ensures one { (payload : List ℕ) (a b : Bundle) → IsBundle payload a → IsBundle payload b
        → a ≡ b }
    ensures found { (payload : List ℕ) (b : Bundle) → IsBundle payload b
        → bundle_of payload ≡ Some b }
    ensures only { (payload : List ℕ) (b : Bundle) → AreBytes payload → bundle_of payload ≡ Some b
        → IsBundle payload b }
{}
