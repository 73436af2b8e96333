//! The other side of an exchange.
ghost use Rattle.std.specs.Prelude.{◌≡◌, [], ◌∷◌, List, Option, IfOk, IfErr};
ghost use Rattle.compose_input.specs.declared.fault.Fault.{Fault};
ghost use Rattle.compose_wire.specs.declared.request.Request.{Request};
ghost use Rattle.compose_service_runs.specs.Turns.{Turn, then_turns};

use compose_input::Fault;
use compose_wire::{Reply, Request};
use std::alloc::Global;

/// The other side of an exchange: a service that receives requests and replies to them.
pub trait Peer: Sized {
    /// The requests that it received, each with its reply, if they are known.
    ghost turns: { Self → Option (List Turn) };

    /// The faults that it gives for a request.
    ghost gives: { Self → Request → Fault → Type 0 };

    /// Sends a request, and waits for its reply; returns `None` if the other side closes first.
    /// Errors: a fault if the request can't be sent, or if the response is not a reply.
    fn ask(&mut self, alloc: Global, request: &Request) -> Result<Option<Reply>, Fault>
        ensures reply { IfOk result
            (λ reply. turns self.new
            ≡ then_turns (turns self.old) (record { request = request.now; reply = reply } ∷ [])) }
        ensures fault { IfErr result (λ fault. gives self.old request.now fault) };
}
