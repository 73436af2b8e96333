//! What a table that is taken into use means for the people who type.
ghost use Rattle.std.specs.Prelude.{◌≡◌, ℕ, List, Option, Some};
ghost use Rattle.std.specs.declared.alloc.Global.{Global};
ghost use Rattle.std.specs.declared.vec.Vec.{Vec};
ghost use Rattle.compose_runs.specs.declared.updating.UpdateFiles.{UpdateFiles};
ghost use Rattle.compose_table_file.specs.TableFile.{TableFile};
ghost use Rattle.compose_service_runs.specs.Following.{FollowsInUse, MergeFollows};
ghost use Rattle.compose_service_runs.specs.Taking.{Asked, Becomes, BecomesMerged};
ghost use Rattle.compose_service_runs.specs.declared.client.ClientRequests.{ClientRequests};
ghost use Rattle.compose_service_runs.specs.declared.taking.Decision.{Decision};
ghost use Rattle.compose_service_runs.specs.declared.taking.Taking.TheVariants.{Follows};

/// A table that a running service is to load follows the one in use, with no key fresh but those
/// that were given. With a merge it is the table that the merge of both gives.
pub fn law_taking()
    ensures follows { (a : Asked) (fresh : List (List ℕ)) (current : TableFile)
        (files : UpdateFiles) (file : Vec ℕ Global) (load : Option ClientRequests)
        → Becomes a fresh (Some current) files (Follows file load)
        → FollowsInUse files fresh current.payload }
    ensures merged { (a : Asked) (fresh : List (List ℕ)) (current : TableFile)
        (files : UpdateFiles) (decision : Decision) (file : Vec ℕ Global)
        (load : Option ClientRequests) → BecomesMerged a fresh current files decision
        → decision.taking ≡ Follows file load → MergeFollows files fresh current.payload }
{}
