//! The laws of a service that keeps its table.
ghost use Rattle.compose_keep.specs.Laws.{StaysServed, CutsLeave, LivesFollow, NextLoadGoesThrough};

/// After any requests, what is kept is what is served. A cut at any moment leaves a table that
/// follows the one that was served before it, and the one of the start: a new start serves it. So
/// it does over any number of cuts and starts, except for the fresh keysyms of the loads.
pub fn law_keeping()
    ensures served { StaysServed }
    ensures cuts { CutsLeave }
    ensures lives { LivesFollow }
{}

/// A load whose table follows the one that is served goes through, if there is memory for it and it
/// can be kept.
pub fn law_next_load()
    ensures { NextLoadGoesThrough }
{}
