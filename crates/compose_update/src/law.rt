//! What an update guarantees.
ghost use Rattle.std.specs.Prelude.{◌≡◌, ℕ, List, Ok, Some};
ghost use Rattle.compose_model.specs.Follows.{Follows};
ghost use Rattle.compose_answer.specs.Parts.{Needs, make_parts};
ghost use Rattle.compose_read.specs.Lines.{Source};
ghost use Rattle.compose_update.specs.Update.{GivenUpdate, Replaces, move_from};

/// If a new table replaces one that is in use, it follows that one.
pub fn law_update()
    ensures { (given : GivenUpdate) (stored certificate : List ℕ)
        → Replaces given stored (Some certificate)
        → (old : List Source) × (needs : Needs) × (given.current ≡ Some old)
        × (make_parts (move_from given old) given.repertoire ≡ Ok needs)
        × Follows needs.move.names needs.fresh needs.move.old needs.move.new }
{}
