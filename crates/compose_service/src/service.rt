//! The service: sessions over one current table.
ghost use Rattle.std.specs.Prelude.{◌≡◌, [], false, Err};
ghost use Rattle.compose_machine.specs.Machine.{ServiceState};
ghost use Rattle.compose_service.specs.Answered.{ReadsLoad, with_names};
ghost use Rattle.compose_state.specs.Texts.{text_bytes};
ghost use Rattle.compose_wire.specs.Messages as words;
ghost use Rattle.compose_wire.specs.Replies.{HasAnswerValue};

use crate::allowed::Allowed;
use crate::refusal::RefusalCode;
use crate::sessions::Sessions;
use arrayvec::ArrayString;
use compose_bundle::read_bundle;
use compose_cert::{CertFault, Certificate, Repertoire};
use compose_check::{CheckFault, Verdict, check};
use compose_model::{Rule, Status};
use compose_read::Sources;
use compose_serve::{Pull, Push, ServeFault, StreamEnd, serve};
use compose_state::Fed;
use compose_tree::{BuildTable, ComposeTable, TableFault, read_first_table};
use compose_wire::{Body, Reply, ReplyBody, Request};
use keysym_core::{Keysym, Names};
use std::alloc::Global;
use std::marker::Model;
use thiserror::Error;

/// The greatest number of sessions that are open at once.
const MOST_SESSIONS: usize = 4_096;

/// Why a service does not start.
#[derive(Debug, PartialEq, Eq, Drop, Error)]
pub enum StartFault {
    /// The table could not be read from the sources.
    #[error("1 Table: {0}")]
    Table(TableFault),
    /// The text is not a certificate.
    #[error("2 Certificate: {0}")]
    Certificate(CertFault),
    /// The certificate is not valid for the table against itself.
    #[error("3 No: {0}")]
    No(CheckFault),
    /// Memory ran out in this call.
    #[error("4 NoMemory")]
    NoMemory,
}

impl From<TableFault> for StartFault {
    ghost use Rattle.std.specs.Prelude.{◌≡◌};
    ghost use Rattle.compose_service.specs.Start.{table_raised};

    ghost from_gives = { λ fault e. e ≡ table_raised fault };

    fn from(fault: TableFault) -> StartFault {
        match fault {
            TableFault::NoMemory => StartFault::NoMemory,
            other => StartFault::Table(other),
        }
    }
}

impl From<CertFault> for StartFault {
    ghost use Rattle.std.specs.Prelude.{◌≡◌};
    ghost use Rattle.compose_service.specs.Start.{certificate_raised};

    ghost from_gives = { λ fault e. e ≡ certificate_raised fault };

    fn from(fault: CertFault) -> StartFault {
        match fault {
            CertFault::NoMemory => StartFault::NoMemory,
            other => StartFault::Certificate(other),
        }
    }
}

impl From<CheckFault> for StartFault {
    ghost use Rattle.std.specs.Prelude.{◌≡◌};
    ghost use Rattle.compose_service.specs.declared.service.StartFault.TheVariants.{No};

    ghost from_gives = { λ fault e. e ≡ No fault };

    fn from(fault: CheckFault) -> StartFault {
        StartFault::No(fault)
    }
}

/// Why requests were not answered.
#[derive(Clone, Copy, Debug, PartialEq, Eq, Drop, Error)]
pub enum RunFault {
    /// There is no room for the replies.
    #[error("1 NoMemory")]
    NoMemory,
}

/// Sessions over one current table, which loads change.
///
/// A contract sees what is stored: the table, the names, the repertoire, the number of loads, and
/// the sessions in the order in which they were opened, each as it was last used. `seen` turns this
/// into the state of the machine, in which each session is refed by the current table.
#[derive(Drop)]
pub struct Service<T: ComposeTable> {
    table: T,
    names: Names,
    repertoire: Repertoire,
    allowed: Allowed,
    loads: u64,
    sessions: Sessions,
}

impl<T: ComposeTable> Model for Service<T> {
    ghost use Rattle.compose_machine.specs.Machine.{ServiceState};
    ghost use Rattle.compose_machine.specs.Late.{AreKept};

    ghost Value = { ServiceState };

    ghost view = { λ s. record {
      table = T.definitions s.table;
      names = s.names;
      repertoire =
          s.repertoire;
      allowed = s.allowed;
      loads = s.loads;
      sessions =
          s.sessions;
    } };

    // for each session, the current table does not cancel on the pending keys, and the status is composing exactly if a
    // key is pending
    ghost invariant = { λ s. AreKept (T.definitions s.table) s.sessions };
}

/// A table that was read from the payload of a load, with its certificate.
#[derive(Drop)]
pub struct Candidate<T: ComposeTable> {
    table: T,
    certificate: Certificate,
}

impl<T: BuildTable> Service<T> {
    ghost use Rattle.std.specs.Prelude.{◌≡◌, ◌≢◌, ◌<◌, ◌≤◌, List, [], ℕ, length, map, IsTrue, IsFalse, IfOk, OnErr, MatchResult, Some, Err, true, false};
    ghost use Rattle.keysym_core.specs.Keysym.{is_keysym};
    ghost use Rattle.compose_model.specs.Table.{is_prefix_free};
    ghost use Rattle.compose_wire.specs.Messages as words;
    ghost use Rattle.compose_wire.specs.Requests.{request_of, body_of};
    ghost use Rattle.compose_wire.specs.Replies.{HasReplyValue, HasAnswerValue};
    ghost use Rattle.compose_machine.specs.Machine.{ServiceState, Step, Run, Accepts, one_more};
    ghost use Rattle.compose_machine.specs.Late.{seen, swapped, rows_at_swap, LateAnswers, AreKept};
    ghost use Rattle.compose_service.specs.Reading.{reading};
    ghost use Rattle.compose_service.specs.Answered.{Answered, ReadsLoad, Judges, Resumes, AreReplies};
    ghost use Rattle.compose_service.specs.Start.{BeginsBy, StartReturns, started};
    ghost use Rattle.compose_tree.specs.TableReturns.{first_table};
    ghost use Rattle.compose_cert.specs.Reading.{certificate_of};
    ghost use Rattle.compose_serve.specs.Ends.{Serves};

    /// Starts a service without sessions over the table of the sources, whose root is the first
    /// one. The table is read by the rule, then the certificate is read, and the table is checked
    /// against itself. O(b + n log n) in the bytes of the sources and of the certificate and in the
    /// definitions of the table, besides what `check` costs for the pairs of the certificate.
    ///
    /// # Errors
    /// The first fault in this order: `Table` if the table cannot be read, `Certificate` if the
    /// text is not a certificate, `No` if it is not valid for the table against itself. `NoMemory`
    /// if memory runs out.
    pub fn start(
        alloc: Global,
        names: Names,
        repertoire: Repertoire,
        sources: Sources<'_>,
        rule: Rule,
        certificate: &[u8],
    ) -> Result<Service<T>, StartFault>
        ensures { StartReturns names repertoire result
            (started names repertoire (first_table names sources.entry rule)
            (certificate_of certificate.now)) }
    {
        let table: T = read_first_table(alloc, &names, &sources, rule)?;
        Service::check_own(alloc, &table, &names, &repertoire, certificate)?;
        Ok(Service {
            table,
            names,
            repertoire,
            allowed: Allowed::any(),
            loads: 0,
            sessions: Sessions::new(alloc),
        })
    }

    /// Reads the certificate of a table, and checks the table against itself.
    fn check_own(
        alloc: Global,
        table: &T,
        names: &Names,
        repertoire: &Repertoire,
        certificate: &[u8],
    ) -> Result<(), StartFault>
        ensures { BeginsBy names.now repertoire.now (T.definitions table.now) result
            (certificate_of certificate.now) }
    {
        let certificate = Certificate::read(alloc, certificate)?;
        match check(table, table, names, repertoire, &certificate) {
            Verdict::Yes => Ok(()),
            Verdict::No(fault) => Err(StartFault::from(fault)),
        }
    }

    /// Returns the same service, except that the certificate of a load may list only these keysyms
    /// as fresh. O(1).
    pub fn allow_fresh(self, keysyms: Vec<Keysym>) -> Service<T>
        ensures { result ≡ record self { allowed = Some keysyms.items } }
    {
        let Service {
            table,
            names,
            repertoire,
            allowed: _,
            loads,
            sessions,
        } = self;
        Service {
            table,
            names,
            repertoire,
            allowed: Allowed::among(keysyms),
            loads,
            sessions,
        }
    }

    /// Returns the names of keysyms. O(1).
    pub fn names(&self) -> &Names
        ensures { result.now ≡ self.now.names }
    {
        &self.names
    }

    /// Returns the current table. O(1).
    pub fn table(&self) -> &T
        ensures { T.definitions result.now ≡ self.now.table }
    {
        &self.table
    }

    /// Returns the number of accepted loads; once it reaches the greatest `u64` it stays there.
    /// O(1).
    pub fn loads(&self) -> u64
        ensures { result ≡ self.now.loads }
    {
        self.loads
    }

    /// Returns the number of open sessions. O(1).
    pub fn session_count(&self) -> usize
        ensures { result ≡ length self.now.sessions }
    {
        self.sessions.count()
    }

    /// Answers one request, which is one step of the machine. A Key, a Reset, a Close and an Ask
    /// take no memory and never fail for lack of it. A request that is refused changes nothing.
    ///
    /// It costs what `answer_into` costs, and a new reply, which is some 270 bytes long.
    #[inline(always)]
    pub fn answer(&mut self, alloc: Global, request: &Request) -> Reply
        ensures stored { (expected : words.ReplyBody)
            × LateAnswers reading self.old (request_of request.now).session
            (request_of request.now).body expected self.new
            × HasReplyValue result
            (record { session = (request_of request.now).session; answer = expected }) }
        ensures step { (expected : words.Reply)
            × Step reading (seen self.old) (request_of request.now) expected (seen self.new)
            × HasReplyValue result expected }
    {
        let mut reply = Reply {
            session: request.session,
            answer: ReplyBody::Opened,
        };
        self.answer_into(alloc, request, &mut reply);
        reply
    }

    /// Answers one request as `answer` does, and replaces a reply by the answer. What the reply was
    /// before is of no effect: a caller may keep one reply for all its requests.
    ///
    /// Costs:
    ///
    /// - Open: O(1), amortized.
    /// - Key: what `ComposeState::refeed_and_feed` costs. If no load came since the session was
    ///   last used, that is what `feed` costs. The session is looked up where one with the same last
    ///   twelve bits of its number was found last, and failing that by its hash. If the reply was
    ///   one to a key, only its status and the bytes of its text are written, and otherwise a whole
    ///   reply is.
    /// - Reset, Ask: O(1) besides refeeding.
    /// - Close: the same, and O(sessions opened later), since the order of opening is kept.
    /// - Load: the cost of reading, settling, building and checking. An accepted load touches no
    ///   session, unless its certificate has fresh keysyms; then it refeeds each.
    #[inline(always)]
    pub fn answer_into(&mut self, alloc: Global, request: &Request, reply: &mut Reply)
        ensures stored { (expected : words.ReplyBody)
            × LateAnswers reading self.old (request_of request.now).session
            (request_of request.now).body expected self.new
            × HasReplyValue reply.new
            (record { session = (request_of request.now).session; answer = expected }) }
        ensures step { (expected : words.Reply)
            × Step reading (seen self.old) (request_of request.now) expected (seen self.new)
            × HasReplyValue reply.new expected }
    {
        // the stored state is sound: its invariant says so
        let _sessions = &self.sessions;
        reply.session = request.session;
        // a reply is large and most requests are keys: the reply to a key is written in place, and other answers are
        // made in calls of their own: room for one of them here would be cleared at every key
        if let Body::Key(keysym) = &request.body {
            self.key_into(request.session, *keysym, &mut reply.answer);
            return;
        }
        self.body_into(alloc, request.session, &request.body, &mut reply.answer);
    }

    /// Answers requests in order, each by `answer`. It costs the sum of what the requests cost, and
    /// one allocation for the replies.
    ///
    /// # Errors
    /// `NoMemory` if there is no memory for all replies. It is taken first, so nothing has changed
    /// then.
    pub fn run(&mut self, alloc: Global, requests: &[Request]) -> Result<Vec<Reply>, RunFault>
        ensures ok { IfOk result
            (λ replies. (expected : List words.Reply)
            × Run reading (seen self.old) (map request_of requests.now) expected (seen self.new)
            × AreReplies replies.items expected) }
        ensures err { OnErr result (self.new ≡ self.old) }
    {
        let Ok(mut replies) = Vec::with_capacity(alloc, requests.len()) else {
            return Err(RunFault::NoMemory);
        };
        for request in requests {
            let reply = self.answer(alloc, request);
            replies.push(reply).unwrap();
        }
        Ok(replies)
    }

    /// Answers the requests of a stream until it ends, and writes each reply before the next frame
    /// is read. The answered requests keep their effect however the stream ends, and the service
    /// can serve again.
    ///
    /// # Errors
    /// As [`compose_serve::serve`]: a failed read or write, an end in the middle of a frame, too
    /// many frames, or no memory for bytes that were read.
    pub fn serve<R: Pull, W: Push>(
        &mut self,
        alloc: Global,
        reader: &mut R,
        writer: &mut W,
    ) -> Result<StreamEnd, ServeFault>
        ensures ends { Serves reading (seen self.old) (seen self.new) (R.left reader.old)
            (R.left reader.new) (W.written writer.old) (W.written writer.new)
            (R.failed reader.new) (W.failed writer.new) result }
        ensures read_mark { result ≢ Err ServeFault.Read
            → R.failed reader.new ≡ R.failed reader.old }
        ensures write_mark { result ≢ Err ServeFault.Write
            → W.failed writer.new ≡ W.failed writer.old }
    {
        serve(self, alloc, reader, writer)
    }

    /// Answers this request to the session, and replaces an answer by that.
    #[inline(never)]
    fn body_into(&mut self, alloc: Global, number: u32, body: &Body, answer: &mut ReplyBody)
        ensures { Answered self.old number (body_of body.now) answer.new self.new }
    {
        *answer = self.answer_body(alloc, number, body);
    }

    /// Answers this request to the session.
    fn answer_body(&mut self, alloc: Global, number: u32, body: &Body) -> ReplyBody
        ensures { Answered self.old number (body_of body.now) result self.new }
    {
        match body {
            Body::Open => return self.open(number),
            Body::Key(keysym) => return self.key(number, *keysym),
            Body::Reset => return self.reset(number),
            Body::Close => return self.close(number),
            Body::Load(payload) => {
                return self.load(alloc, number, payload.as_slice(), Rule::Refuse);
            }
            Body::Ask => return self.ask(number),
            Body::LoadLongest(payload) => {
                return self.load(alloc, number, payload.as_slice(), Rule::Longest);
            }
        }
    }

    /// Opens the session after the others.
    fn open(&mut self, number: u32) -> ReplyBody
        ensures { Answered self.old number words.open_session result self.new }
    {
        if self.sessions.has(number) {
            return ReplyBody::Refused(RefusalCode::SessionTaken.code());
        }
        if self.sessions.count() >= MOST_SESSIONS {
            return ReplyBody::Refused(RefusalCode::Full.code());
        }
        let Ok(()) = self.sessions.open(number) else {
            return ReplyBody::Refused(RefusalCode::NoMemory.code());
        };
        ReplyBody::Opened
    }

    /// Types a key in the session.
    fn key(&mut self, number: u32, keysym: u32) -> ReplyBody
        ensures { Answered self.old number (words.key keysym) result self.new }
    {
        let mut answer = ReplyBody::Opened;
        self.key_into(number, keysym, &mut answer);
        answer
    }

    /// Types a key in the session, and replaces an answer by that to the key.
    #[inline(always)]
    fn key_into(&mut self, number: u32, keysym: u32, answer: &mut ReplyBody)
        ensures { Answered self.old number (words.key keysym) answer.new self.new }
    {
        let Some(keysym) = Keysym::new(keysym) else {
            *answer = ReplyBody::Refused(self.refuse_key(number, keysym));
            return;
        };
        let fed = self.sessions.feed(number, &self.table, &self.names, keysym);
        let Some(fed) = fed else {
            *answer = ReplyBody::Refused(RefusalCode::NoSession.code());
            return;
        };
        put_fed(&fed, answer);
    }

    /// Returns the code with which a key is refused whose number is not a keysym's.
    #[inline(never)]
    fn refuse_key(&mut self, number: u32, keysym: u32) -> u16
        requires { IsFalse (is_keysym keysym) }
        ensures { Answered self.old number (words.key keysym) (ReplyBody.Refused result) self.new }
    {
        if !self.sessions.refeed(number, &self.table, &self.names) {
            return RefusalCode::NoSession.code();
        }
        RefusalCode::BadKeysym.code()
    }

    /// Resets the session.
    fn reset(&mut self, number: u32) -> ReplyBody
        ensures { Answered self.old number words.reset result self.new }
    {
        if !self.sessions.refeed(number, &self.table, &self.names) {
            return ReplyBody::Refused(RefusalCode::NoSession.code());
        }
        self.sessions.reset(number);
        ReplyBody::WasReset
    }

    /// Closes the session.
    fn close(&mut self, number: u32) -> ReplyBody
        ensures { Answered self.old number words.close result self.new }
    {
        if !self.sessions.refeed(number, &self.table, &self.names) {
            return ReplyBody::Refused(RefusalCode::NoSession.code());
        }
        self.sessions.close(number);
        ReplyBody::Closed
    }

    /// Answers with the status of the session and its pending keys.
    fn ask(&mut self, number: u32) -> ReplyBody
        ensures { Answered self.old number words.ask result self.new }
    {
        self.sessions.refeed(number, &self.table, &self.names);
        let Some(answer) = self.sessions.state(number) else {
            return ReplyBody::Refused(RefusalCode::NoSession.code());
        };
        answer
    }

    /// Changes the current table, if the certificate is accepted for that.
    fn load(&mut self, alloc: Global, number: u32, payload: &[u8], rule: Rule) -> ReplyBody
        ensures { Answered self.old number (words.load rule payload.now) result self.new }
    {
        let candidate = match self.judge(alloc, payload, rule) {
            Ok(candidate) => candidate,
            Err(refusal) => return ReplyBody::Refused(refusal.code()),
        };
        self.swap_in(candidate)
    }

    /// Reads the payload of a load, and checks whether its table may become the current one. Nothing
    /// changes.
    ///
    /// # Errors
    /// The refusal with which a load of this payload is answered.
    pub fn judge(
        &self,
        alloc: Global,
        payload: &[u8],
        rule: Rule,
    ) -> Result<Candidate<T>, RefusalCode>
        ensures judged { Judges self.now rule payload.now T.definitions result }
        ensures sound { AreKept self.now.table self.now.sessions }
    {
        // the stored state is sound: its invariant says so
        let _sessions = &self.sessions;
        let (table, certificate) = match self.read_load(alloc, payload, rule) {
            Ok(load) => load,
            Err(refusal) => return Err(refusal),
        };
        if !self.accepts(&table, &certificate) {
            return Err(RefusalCode::VerdictNo);
        }
        Ok(Candidate { table, certificate })
    }

    /// Makes the table of a load that was judged the current one, counts the load, and returns the
    /// answer to it. It takes no memory.
    pub fn swap_in(&mut self, candidate: Candidate<T>) -> ReplyBody
        requires prefix_free { IsTrue (is_prefix_free (T.definitions candidate.table)) }
        requires accepted { Accepts self.old (T.definitions candidate.table) candidate.certificate }
        ensures swapped { self.new
            ≡ swapped self.old (T.definitions candidate.table) candidate.certificate.fresh }
        ensures reported { HasAnswerValue result (words.loaded (one_more self.old.loads)) }
    {
        let Candidate { table, certificate } = candidate;
        self.swap(table, &certificate)
    }

    /// Starts a service without sessions over the table of a load that a service had accepted and
    /// kept. The certificate isn't checked again: it is that of a move from another table.
    ///
    /// # Errors
    /// The refusal with which a load of this payload would be answered.
    pub fn resume(
        alloc: Global,
        names: Names,
        repertoire: Repertoire,
        payload: &[u8],
        rule: Rule,
    ) -> Result<Service<T>, RefusalCode>
        ensures { Resumes names repertoire rule payload.now result }
    {
        match read_payload(alloc, &names, payload, rule) {
            Ok((table, _)) => Ok(Service {
                table,
                names,
                repertoire,
                allowed: Allowed::any(),
                loads: 0,
                sessions: Sessions::new(alloc),
            }),
            Err(refusal) => Err(refusal),
        }
    }

    /// Reads the table and the certificate of a load.
    fn read_load(
        &self,
        alloc: Global,
        payload: &[u8],
        rule: Rule,
    ) -> Result<(T, Certificate), RefusalCode>
        ensures { ReadsLoad self.now rule payload.now T.definitions result }
    {
        read_payload(alloc, &self.names, payload, rule)
    }

    /// Whether the certificate is valid for the change from the current table to this one, and
    /// lists only allowed keysyms as fresh.
    fn accepts(&self, table: &T, certificate: &Certificate) -> bool
        ensures prefix_free { IsTrue (is_prefix_free (T.definitions table.now)) }
        ensures yes { result ≡ true → Accepts self.now (T.definitions table.now) certificate.now }
        ensures no { result ≡ false → Accepts self.now (T.definitions table.now) certificate.now
            → ⊥ }
    {
        // every table is settled: the contract of this call says so
        let _nodes = table.node_count();
        if !self.allowed.has_all(certificate.fresh_keys()) {
            return false;
        }
        let verdict = check(
            &self.table,
            table,
            &self.names,
            &self.repertoire,
            certificate,
        );
        match verdict {
            Verdict::Yes => true,
            Verdict::No(_) => false,
        }
    }

    /// Makes the table the current one, and counts the load.
    fn swap(&mut self, table: T, certificate: &Certificate) -> ReplyBody
        requires prefix_free { IsTrue (is_prefix_free (T.definitions table)) }
        requires accepted { Accepts self.old (T.definitions table) certificate.now }
        ensures swapped { self.new ≡ swapped self.old (T.definitions table) certificate.now.fresh }
        ensures reported { HasAnswerValue result (words.loaded (one_more self.old.loads)) }
    {
        self.change_table(table, certificate);
        self.count_load()
    }

    /// Counts a load, and answers with the number of accepted loads.
    fn count_load(&mut self) -> ReplyBody
        ensures counted { self.new ≡ record self.old { loads = one_more self.old.loads } }
        ensures reported { HasAnswerValue result (words.loaded (one_more self.old.loads)) }
    {
        self.loads = self.loads.saturating_add(1);
        ReplyBody::Loaded(self.loads)
    }

    /// Makes the table the current one. The sessions stay as they are, unless the new table has
    /// fresh keysyms: then all of them are first refed by the old table.
    fn change_table(&mut self, table: T, certificate: &Certificate)
        requires prefix_free { IsTrue (is_prefix_free (T.definitions table)) }
        requires accepted { Accepts self.old (T.definitions table) certificate.now }
        ensures { self.new
            ≡ record self.old {
              table = T.definitions table;
              sessions = rows_at_swap certificate.now.fresh self.old.table self.old.sessions;
            } }
    {
        self.sessions.leave(certificate, &self.table, &self.names);
        self.table = table;
    }
}

/// Reads the table and the certificate of a load.
fn read_payload<T: BuildTable>(
    alloc: Global,
    names: &Names,
    payload: &[u8],
    rule: Rule,
) -> Result<(T, Certificate), RefusalCode>
    ensures read { (now : ServiceState)
        → ReadsLoad (with_names now names.now) rule payload.now T.definitions result }
    ensures no_verdict { result ≡ Err RefusalCode.VerdictNo → ⊥ }
{
    let bundle = read_bundle(alloc, payload)?;
    let table: T = read_first_table(alloc, names, &bundle.sources, rule)?;
    let certificate = Certificate::read(alloc, bundle.certificate)?;
    Ok((table, certificate))
}

/// Replaces an answer by that to a key which was fed: it writes the status and the bytes of the
/// text, and nothing else. An answer of another kind becomes an empty one to a key first.
#[inline(always)]
fn put_fed(fed: &Fed<'_>, answer: &mut ReplyBody)
    ensures { HasAnswerValue answer.new
        (words.fed fed.now.status fed.now.accepted (text_bytes fed.now.text)) }
{
    if !matches!(answer, ReplyBody::Fed(_, _, _)) {
        put_empty(answer);
    }
    if let ReplyBody::Fed(status, accepted, text) = answer {
        *status = fed.status;
        *accepted = fed.accepted;
        fed.text_into(text);
    }
}

/// Puts an empty answer to a key in the place of any other one. It is a function of its own, since
/// a new `ArrayString` clears all of its bytes: in `put_fed` they would be cleared at every key.
/// What was fed isn't passed to it, and so can stay in registers.
#[inline(never)]
fn put_empty(answer: &mut ReplyBody)
    ensures { HasAnswerValue answer.new (words.fed Status.Nothing false []) }
{
    *answer = ReplyBody::Fed(Status::Nothing, false, ArrayString::new());
}
