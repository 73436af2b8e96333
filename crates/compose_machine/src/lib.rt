//! The service as a state machine: the replies that it may give to a request, its next state, and
//! the laws of its runs.
//!
//! A law is a function without parameters whose contract states it, for all states and all lists of
//! requests: sessions don't disturb each other, and a load doesn't change what a session types.
//!
//! ```text
//! // the replies to one session's requests are those of a run of its requests alone
//! law_isolation();
//! // a load with a valid certificate changes no text that a session types
//! law_kept_texts();
//! ```
#![tactic(auto)]

ghost use Rattle.std.specs.Prelude.{◌≡◌, ◌++◌, List, ℕ, map};
ghost use Rattle.compose_wire.specs.Messages.{Body, ReplyBody, Request, Reply};
ghost use Rattle.compose_machine.specs.Machine.{ServiceState, Reading, Run};
ghost use Rattle.compose_machine.specs.Laws.{Exchange, IsHistory, Isolation, KeptTexts, LoadsTypeNothing, StandingPromise, TableStays};
ghost use Rattle.compose_machine.specs.Late.{seen, AreKept, LateAnswers, IsLateHistory, Stands, SeenAtNodes, LateLoadsTypeNothing};

/// The replies to a session's requests depend only on these requests, on the loads that are
/// accepted, and on the replies to its Opens.
pub fn law_isolation()
    ensures { Isolation }
{}

/// While a session stays open, it types what the table types with which it was opened, whatever is
/// loaded in the meantime, as long as that table would not cancel and none of the session's keys
/// was fresh in a load.
pub fn law_kept_texts()
    ensures { KeptTexts }
{}

/// A load types nothing, and the promises of its certificate hold from then on. Only an accepted
/// load changes the table.
pub fn law_loads()
    ensures silent { LoadsTypeNothing }
    ensures promise { StandingPromise }
    ensures stays { TableStays }
{}

/// A service may refeed a session only when a request names it, and all sessions before a table
/// with fresh keysyms comes: it still behaves as the machine. The pending keysyms of a session, as
/// requests see it, are a node of the current table, and an accepted load types nothing in it,
/// whatever came before.
pub fn law_late_service()
    ensures step { (reading : Reading) (old new : ServiceState) (n : ℕ) (body : Body)
        (answer : ReplyBody) → AreKept old.table old.sessions
        → LateAnswers reading old n body answer new → Stands reading old n body answer new }
    ensures history { (reading : Reading) (old new : ServiceState) (h : List Exchange)
        → AreKept old.table old.sessions → IsLateHistory reading old h new
        → IsHistory reading (seen old) h (seen new) × AreKept new.table new.sessions }
    ensures nodes { SeenAtNodes }
    ensures silent { LateLoadsTypeNothing }
{}

/// A run over some requests, followed by a run over others, is a run over all of them, and each run
/// over all of them is two such runs.
pub fn law_run_append()
    ensures joined { (reading : Reading) (old mid new : ServiceState)
        (first second : List Request) (first_replies second_replies : List Reply)
        → Run reading old first first_replies mid → Run reading mid second second_replies new
        → Run reading old (first ++ second) (first_replies ++ second_replies) new }
    ensures parted { (reading : Reading) (old new : ServiceState) (first second : List Request)
        (replies : List Reply) → Run reading old (first ++ second) replies new
        → (mid : ServiceState) × (first_replies : List Reply) × (second_replies : List Reply)
        × (replies ≡ first_replies ++ second_replies)
        × Run reading old first first_replies mid × Run reading mid second second_replies new }
{}

/// The runs of the machine are its histories. So the other laws, which are about requests with
/// their replies, hold for each run.
pub fn law_run_history()
    ensures history { (reading : Reading) (old new : ServiceState) (requests : List Request)
        (replies : List Reply) → Run reading old requests replies new
        → (h : List Exchange) × (map (λ x. x.request) h ≡ requests)
        × (map (λ x. x.reply) h ≡ replies) × IsHistory reading old h new }
    ensures run { (reading : Reading) (old new : ServiceState) (h : List Exchange)
        → IsHistory reading old h new
        → Run reading old (map (λ x. x.request) h) (map (λ x. x.reply) h) new }
{}
