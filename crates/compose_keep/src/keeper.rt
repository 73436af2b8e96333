//! A service that keeps its table.
ghost use Rattle.std.specs.Prelude.{◌≡◌, IsFalse, MatchOption};
ghost use Rattle.compose_wire.specs.Messages.{load};
ghost use Rattle.compose_wire.specs.Requests.{request_of};
ghost use Rattle.compose_machine.specs.Laws.{is_load};

use crate::keep::Keep;
use compose_cert::Repertoire;
use compose_model::Rule;
use compose_service::{RefusalCode, Service};
use compose_tree::BuildTable;
use compose_wire::{Body, Reply, ReplyBody, Request};
use keysym_core::{Keysym, Names};
use std::alloc::Global;
use std::marker::Model;

/// Why a service does not start on what is kept.
#[derive(Clone, Copy, Debug, PartialEq, Eq, Drop)]
pub enum ResumeFault {
    /// What is kept can't be read.
    Unread,
    /// It is no table, or memory ran out.
    Refused(RefusalCode),
}

/// A service, and the place where its table is kept.
#[derive(Drop)]
pub struct Keeper<T: BuildTable, K: Keep + Drop> {
    service: Service<T>,
    keep: K,
}

impl<T: BuildTable, K: Keep + Drop> Model for Keeper<T, K> {
    ghost use Rattle.compose_keep.specs.Keeping.{Keeping, HasTable};

    ghost Value = { Keeping };

    ghost view = { λ k. record {
      service = k.service;
      kept = K.kept k.keep;
      moments = K.moments k.keep;
    } };

    // what is kept and what is served are the same table
    ghost invariant = { λ k. HasTable k.service.names (K.kept k.keep) k.service.table };
}

impl<T: BuildTable, K: Keep + Drop> Keeper<T, K> {
    ghost use Rattle.std.specs.Prelude.{IfOk, Err, List, Some};
    ghost use Rattle.compose_model.specs.Table.{Definition};
    ghost use Rattle.compose_service.specs.declared.refusal.RefusalCode.{RefusalCode};
    ghost use Rattle.compose_wire.specs.Messages as words;
    ghost use Rattle.compose_wire.specs.Replies.{HasReplyValue};
    ghost use Rattle.compose_keep.specs.Keeping.{Keeping, HasTable, IsServed, KeepsStep, Resumed, allowing};
    ghost use Rattle.compose_keep.specs.Answered.{KeepsLoad};

    /// Starts a service without sessions over the table that is kept. It costs what reading the
    /// table costs: nothing is checked, as every table follows itself.
    ///
    /// # Errors
    /// `Unread` if what is kept can't be read; `Refused` if it is no table, or, with `NoMemory`, if
    /// memory runs out. So what a service has kept is refused for memory alone.
    pub fn resume(
        alloc: Global,
        names: Names,
        repertoire: Repertoire,
        keep: K,
    ) -> Result<Keeper<T, K>, ResumeFault>
        ensures ok { IfOk result
            (λ keeper. Resumed names repertoire (K.kept keep) (K.moments keep) keeper) }
        ensures refused { (why : RefusalCode) (table : List Definition)
            → result ≡ Err (ResumeFault.Refused why) → HasTable names (K.kept keep) table
            → why ≡ RefusalCode.NoMemory }
    {
        let Ok(kept) = keep.get(alloc) else {
            return Err(ResumeFault::Unread);
        };
        match Service::resume(alloc, names, repertoire, kept.payload.as_slice(), kept.rule) {
            Ok(service) => Ok(Keeper { service, keep }),
            Err(refusal) => Err(ResumeFault::Refused(refusal)),
        }
    }

    /// Returns the same service, except that the certificate of a load may list only these keysyms
    /// as fresh. O(1).
    pub fn allow_fresh(self, keysyms: Vec<Keysym>) -> Keeper<T, K>
        ensures { result ≡ allowing self keysyms.items }
    {
        let Keeper { service, keep } = self;
        Keeper {
            service: service.allow_fresh(keysyms),
            keep,
        }
    }

    /// Returns the service, which can't be changed past its keeper. O(1).
    pub fn service(&self) -> &Service<T>
        ensures { result.now ≡ self.now.service }
    {
        &self.service
    }

    /// Returns the place where the table is kept. O(1).
    pub fn place(&self) -> &K
        ensures kept { K.kept result.now ≡ self.now.kept }
        ensures moments { K.moments result.now ≡ self.now.moments }
    {
        &self.keep
    }

    /// Answers one request, and replaces the reply by the answer. A load is judged first; then it is
    /// kept; then its table is swapped in, and it is answered. If it can't be kept, nothing changes,
    /// and it is refused as if memory had run out.
    pub fn answer_into(&mut self, alloc: Global, request: &Request, reply: &mut Reply)
        ensures step { (expected : words.Reply)
            × KeepsStep self.old (request_of request.now) expected self.new
            × HasReplyValue reply.new expected }
        ensures served { IsServed self.new }
    {
        match load_of(request) {
            Some((rule, payload)) => {
                reply.session = request.session;
                reply.answer = self.load(alloc, payload, rule);
            }
            None => self.service.answer_into(alloc, request, reply),
        }
    }

    /// Judges a load, keeps it, swaps its table in, and returns the answer.
    fn load(&mut self, alloc: Global, payload: &[u8], rule: Rule) -> ReplyBody
        ensures load { KeepsLoad self.old rule payload.now result self.new }
        ensures served { IsServed self.new }
    {
        let candidate = match self.service.judge(alloc, payload, rule) {
            Ok(candidate) => candidate,
            Err(refusal) => return ReplyBody::Refused(refusal.code()),
        };
        match self.keep.put(alloc, rule, payload) {
            Ok(()) => self.service.swap_in(candidate),
            Err(_) => ReplyBody::Refused(RefusalCode::NoMemory.code()),
        }
    }
}

/// Returns the rule and the payload of a load; `None` of any other request.
fn load_of(request: &Request) -> Option<(Rule, &[u8])>
    ensures { MatchOption result (IsFalse (is_load (request_of request.now).body))
        (λ p. (request_of request.now).body ≡ load p.0 p.1.now) }
{
    match &request.body {
        Body::Load(payload) => Some((Rule::Refuse, payload.as_slice())),
        Body::LoadLongest(payload) => Some((Rule::Longest, payload.as_slice())),
        Body::Open | Body::Key(_) | Body::Reset | Body::Close | Body::Ask => None,
    }
}
