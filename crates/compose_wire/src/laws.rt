//! The laws of frames.
ghost use Rattle.std.specs.Prelude.{◌≡◌, ◌+◌, ◌<◌, ◌≤◌, ◌++◌, List, ℕ, [], length, Some, None};
ghost use Rattle.std.specs.List.{AllByRecursion};
ghost use Rattle.compose_wire.specs.Messages.{Request, Fits, AreBytes};
ghost use Rattle.compose_wire.specs.Cut.{Turn, Leads, stream_of, requests_of};
ghost use Rattle.compose_wire.specs.Frames.{frame, frames, Fault, fault_at, stated_size, BeginsWithFrame, IsBegun, max_frame};

/// No frame is a prefix of another one, so no two requests begin the same stream.
pub fn law_one_frame()
    ensures { (q r : Request) (x y : List ℕ) → Fits q → Fits r → frame q ++ x ≡ frame r ++ y
        → (q ≡ r) × (x ≡ y) }
{}

/// A stream is the frames of only one list of requests, followed by bytes that begin with no frame.
pub fn law_one_stream()
    ensures { (qs rs : List Request) (x y : List ℕ) → AllByRecursion Fits qs
        → AllByRecursion Fits rs → (BeginsWithFrame x → ⊥) → (BeginsWithFrame y → ⊥)
        → frames qs ++ x ≡ frames rs ++ y → (qs ≡ rs) × (x ≡ y) }
{}

/// Bytes begin with a frame or with a fault, or they are only the beginning of a frame, and then
/// shorter than the largest frame. A fault stays a fault, whatever follows.
pub fn law_next_frame()
    ensures no_fault { (q : Request) (x : List ℕ) → Fits q → fault_at (frame q ++ x) ≡ None }
    ensures whole { (bytes : List ℕ) → BeginsWithFrame bytes → 9 + stated_size bytes ≤ length bytes }
    ensures stands { (bytes : List ℕ) → AreBytes bytes → fault_at bytes ≡ None → 9 ≤ length bytes
        → 9 + stated_size bytes ≤ length bytes → BeginsWithFrame bytes }
    ensures short { (bytes : List ℕ) → AreBytes bytes → IsBegun bytes → length bytes < max_frame }
    ensures stays { (bytes more : List ℕ) (fault : Fault) → fault_at bytes ≡ Some fault
        → fault_at (bytes ++ more) ≡ Some fault }
{}

/// The requests of a stream do not depend on the pieces in which it arrives.
///
/// A turn is a piece that a feeder takes, or a request that it returns. If two feeders took the
/// same stream, each in its own pieces, and their bytes now begin with no frame, then they returned
/// the same requests and hold the same bytes.
pub fn law_any_cut()
    ensures { (turns turns' : List Turn) (held held' : List ℕ) → Leads [] turns held
        → Leads [] turns' held' → stream_of turns ≡ stream_of turns' → (BeginsWithFrame held → ⊥)
        → (BeginsWithFrame held' → ⊥) → (requests_of turns ≡ requests_of turns') × (held ≡ held') }
{}
