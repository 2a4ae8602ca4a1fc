//! What a port's mutex holds.
ghost use Rattle.std.specs.Prelude.{◌≡◌, ◌≢◌, ◌+◌, ◌++◌, ◌∷◌, ℕ, [], length, Ok, Err, Some, OnOk, OnErr, IfOk, IfErr};
ghost use Rattle.std.specs.Prelude.{◌≤◌, true, IfSome, IfNone, nat_lt, if◌then◌else◌, vec_capacity};
ghost use Rattle.std.specs.Arc.{arc_value};
ghost use Rattle.rdm_log.specs.log.LogState.{stored, drained, MayGoOn};
ghost use Rattle.rdm_log.specs.log.History.{next_client};
ghost use Rattle.rdm_log.specs.log.Legal.{Legal};
ghost use Rattle.rdm_log.specs.log.Runs.{known_devices, devices_run};
ghost use Rattle.rdm_log.specs.promises.Blocks.{JoinLogs, WorkLogs, SubmitLogs, DiscoverLogs, PauseLogs, ResumeLogs};
ghost use Rattle.rdm_log.specs.promises.Blocks.{GrowsBy, CloseAdds, DeliverAdds, number_or_fault};
ghost use Rattle.rdm_log.specs.promises.Promised.{Promised};
ghost use Rattle.rdm_log.specs.promises.Outcomes.{oldest_kind, request_outcome, discovery_outcome};
ghost use Rattle.rdm_log.specs.declared.outcome.Outcome.TheVariants as outcomes;
ghost use Rattle.rdm_log.specs.declared.work.Work.TheVariants.{Submit, Discover};
ghost use Rattle.rdm_log.specs.declared.outcome.OutcomeKind.TheVariants as kinds;
ghost use Rattle.rdm_locked.specs.Calls.{count_calls, calls_logged};
ghost use Rattle.rdm_locked.specs.Clients.{logged};
ghost use Rattle.rdm_locked.specs.Openings.{MayOpen, IsOpened};
ghost use Rattle.rdm_locked.specs.Pages.{IsPage};
ghost use Rattle.rdm_locked.specs.Turns.{TurnLogs};
ghost use Rattle.rdm_locked.specs.body.Keeps.{Keeps};
ghost use Rattle.rdm_locked.specs.body.Parts.{HasParts};

mod finish;

use crate::history::{Accepted, Blank, Completed, Ended, Ledger, LoggedCall};
use crate::oldest::OldestOutcome;
use crate::sets::SharedSets;
use crate::share::CallShare;
use crate::turn::Turn;
pub use finish::SessionEnd;
use rdm_agent::Kind;
use rdm_client::{BoxedAsk, DeviceView};
use rdm_join::LineEvent;
use rdm_ledger::{Book as Lists, Items};
use rdm_log::{
    AskFault, ClientId, Completion, DiscoveryEnd, Entry, IntoSetup, JoinFault, Log, LogFull,
    NotAsked, OutcomeKind, Page, SubmitFault, Work, WorkFault,
};
use rdm_queue::{Session, TakesDevices};
use rdm_wire::{DeviceSet, NoMemory, Request};
use std::alloc::Global;
use std::snapshot::Snapshot;
use std::sync::Arc;
use std::sync::ledger::{Book, Share};

/// A session with a book of its clients' calls: what the mutex of a [`Port`](crate::Port) holds. Each of its calls is
/// made with the mutex taken, and is one call of the session.
///
/// Whenever the mutex is free, these hold:
/// - The log is legal and keeps all that clients are promised, and the session is the one that the log describes. One
///   promise is the bound: a run on an honest line that doesn't fail, with a sufficient budget, is answered without
///   fault unless the queue is closed.
/// - The book has as many calls as the log. An Accept, an Ask, a Collect, and a Refuse of a client's call are one each.
/// - The book has 17 parts: each client that joined has one, and the others are here.
#[derive(Drop)]
pub struct Inside<L: Ledger> {
    session: Session,
    calls: Book<L>,
    rest: Share<L>,
    lists: Lists<LoggedCall, L>,
    joined: u8,
    left: u8,
    ghost counted: { count_calls session.entries ≡ calls.total },
    ghost clients: { next_client session.opening session.entries ≡ joined },
    ghost parts: { HasParts rest.parts rest.amount joined left },
    ghost keeps: { Keeps session lists.lists joined },
}

impl<L: Ledger> Inside<L> {
    ghost use Rattle.rdm_locked.specs.Inside.{SameClients, AddsOnly, IsCollected};
    ghost use Rattle.rdm_locked.specs.body.Oldest.{ShowsKind, CollectsOldest, KeepsSets};

    /// A session without clients, as [`Session::new`] makes one. The blank has 17 parts and the name of the book `L`.
    /// The other conditions are those of `Session::new`.
    /// Err: out of memory; the blank and the log are returned unchanged.
    pub fn new<S: IntoSetup>(
        alloc: Global,
        blank: Blank,
        setup: S,
        log: Log,
    ) -> Result<Inside<L>, (NoMemory, Blank, Log)>
        requires may_open { MayOpen L.name L.parts L.lists blank (S.setup_of setup).config log }
        ensures opened { IfOk result (λ i. IsOpened (S.setup_of setup) log i.session i.joined i.left) }
        ensures back { IfErr result (λ e. (e.1 ≡ blank) × (e.2 ≡ log)) }
    {
        let session = match Session::new(alloc, setup, log) {
            Ok(session) => session,
            Err((fault, log)) => return Err((fault, blank, log)),
        };
        let Blank { calls, lists } = blank;
        let (calls, rest) = calls.open::<L>();
        Ok(Inside {
            session,
            calls,
            rest,
            lists: Lists::open(lists),
            joined: 0,
            left: 0,
        })
    }

    /// Lets a client join, as [`Session::join_client`] does. Returns its number and its share, which has counted no
    /// call.
    /// Err: LogFull, or else the first other fault that applies; nothing changes but the log.
    pub fn join(&mut self, alloc: Global, places: u8) -> Result<(ClientId, CallShare<L>), JoinFault>
        ensures joined { IfOk result (λ r. GrowsBy self.old.session (JoinLogs self.old.session places (Ok r.0))
            self.new.session) }
        ensures refused { IfErr result (λ e. GrowsBy self.old.session (JoinLogs self.old.session places (Err e))
            self.new.session) }
        ensures share { IfOk result (λ r. r.1.count ≡ 0) }
        ensures history { IfOk result (λ r. (r.1.history.index ≡ r.0.0) × (r.1.history.items ≡ [])) }
        ensures one_more { OnOk result (self.new.joined ≡ self.old.joined + 1) }
        ensures no_more { OnErr result (self.new.joined ≡ self.old.joined) }
        ensures left { self.new.left ≡ self.old.left }
    {
        let Inside {
            session,
            rest,
            lists,
            joined,
            ..
        } = self;
        let client = session.join_client(alloc, places)?;
        let share = CallShare::new(rest.split_off(1, 0), lists.begin());
        *joined += 1;
        Ok((client, share))
    }

    /// Accepts a client's work, as [`Session::accept`] does, and counts the call in the client's share, even if it is
    /// refused. If the log is full, it isn't counted.
    /// Err: LogFull, or else the first other fault that applies; nothing changes but the log and the counts, and the
    /// work is returned.
    // It is inlined: a request is large, and each call would move it there and back.
    #[inline(always)]
    pub fn accept(
        &mut self,
        client: ClientId,
        work: Work,
        mine: &mut CallShare<L>,
    ) -> Result<u64, (WorkFault, Work)>
        requires own { client.0 ≡ mine.old.history.index }
        ensures adds { AddsOnly (WorkLogs self.old.session client work (number_or_fault result)) self.old self.new }
        ensures made { mine.new.history.items
            ≡ mine.old.history.items ++ logged client work (number_or_fault result) }
        ensures client { mine.new.history.index ≡ mine.old.history.index }
        ensures returned { IfErr result (λ e. e.1 ≡ work) }
        ensures counted { mine.new.count ≡ mine.old.count + calls_logged (number_or_fault result) }
    {
        let Inside {
            session,
            calls,
            lists,
            ..
        } = self;
        let asked = Snapshot::of(&work);
        let answer = session.accept(client, work);
        mine.add_calls(calls, calls_logged(&answer), session.log().len_in_all());
        let made = Items::shown::<
            ClientId,
            Snapshot<Work>,
            Result<u64, (WorkFault, Work)>,
            Accepted,
        >(&client, &asked, &answer);
        lists.add(&mut mine.history, &made);
        answer
    }

    /// Accepts a client's request, as [`Inside::accept`] does.
    /// Err: as `accept` returns; the request is returned.
    pub fn submit(
        &mut self,
        client: ClientId,
        request: Request,
        mine: &mut CallShare<L>,
    ) -> Result<u64, (SubmitFault, Request)>
        requires own { client.0 ≡ mine.old.history.index }
        ensures adds { AddsOnly (SubmitLogs self.old.session client request result) self.old self.new }
        ensures made { mine.new.history.items
            ≡ mine.old.history.items ++ logged client (Submit request) (number_or_fault result) }
        ensures client { mine.new.history.index ≡ mine.old.history.index }
        ensures counted { mine.new.count ≡ mine.old.count + calls_logged (number_or_fault result) }
    {
        match self.accept(client, Work::Submit(request), mine) {
            Ok(number) => Ok(number),
            Err((fault, work)) => Err((fault, work.into_request())),
        }
    }

    /// Accepts a client's discovery, as [`Inside::accept`] does.
    /// Err: as `accept` returns.
    pub fn discover(
        &mut self,
        client: ClientId,
        kind: Kind,
        mine: &mut CallShare<L>,
    ) -> Result<u64, AskFault>
        requires own { client.0 ≡ mine.old.history.index }
        ensures adds { AddsOnly (DiscoverLogs self.old.session client kind result) self.old self.new }
        ensures made { mine.new.history.items ≡ mine.old.history.items ++ logged client (Discover kind) result }
        ensures client { mine.new.history.index ≡ mine.old.history.index }
        ensures counted { mine.new.count ≡ mine.old.count + calls_logged result }
    {
        match self.accept(client, Work::Discover(kind), mine) {
            Ok(number) => Ok(number),
            Err((fault, _)) => Err(fault),
        }
    }

    /// Hands out all entries that the log stores, as [`Session::drain`] does, with the number of the first: how many
    /// entries the log had before it.
    /// Err: as `Session::drain` returns; nothing has changed, and the memory is returned.
    #[tactic(auto, using(crate::proofs::PageLemmas::is_page))]
    pub fn drain(&mut self, next: Vec<Entry>) -> Result<Page, (LogFull, Vec<Entry>)>
        requires { next.items ≡ [] }
        ensures first { IfOk result (λ page. page.first + length page.entries.items
            ≡ length self.old.session.entries) }
        ensures handed_out { IfOk result (λ page. page.entries.items ≡ stored self.old.session) }
        ensures memory { self.old.session.keeps ≡ true → IfOk result (λ page.
            self.old.session.room ≤ self.old.session.gone + vec_capacity page.entries) }
        ensures page { IfOk result IsPage }
        ensures log { OnOk result (self.new.session ≡ drained self.old.session (vec_capacity next)) }
        ensures back { IfErr result (λ e. e.1 ≡ next) }
        ensures refused { OnErr result (MayGoOn self.old.session (vec_capacity next) → ⊥) }
        ensures unchanged { OnErr result (self.new.session ≡ self.old.session) }
        ensures clients { SameClients self.old self.new }
    {
        let first = self.session.log().first_stored();
        let entries = self.session.drain(next)?;
        Ok(Page { first, entries })
    }

    /// The kind of a client's oldest uncollected outcome, as [`Session::oldest`] says. None: there is none.
    pub fn oldest(&self, client: ClientId) -> Option<OutcomeKind>
        ensures { result ≡ oldest_kind self.now.session.opening self.now.session.entries client.0 }
    {
        match self.session.oldest(client) {
            Some(oldest) => Some(oldest.kind()),
            None => None,
        }
    }

    /// Collects a client's oldest outcome if that is a request's, as [`Session::next_completion`] does, and counts the
    /// call in the client's share. It moves no set.
    /// None: there is no outcome, or it is a discovery's; nothing changes.
    pub fn collect_request(
        &mut self,
        client: ClientId,
        mine: &mut CallShare<L>,
    ) -> Option<(u64, Completion)>
        requires own { client.0 ≡ mine.old.history.index }
        ensures collected { IfSome result (λ r.
            IsCollected client (request_outcome r) self.old mine.old self.new mine.new) }
        ensures none { IfNone result
            (oldest_kind self.old.session.opening self.old.session.entries client.0 ≢ Some kinds.Request) }
        ensures unchanged { IfNone result ((self.new.session ≡ self.old.session) × (mine.new.count ≡ mine.old.count)
            × (mine.new.history ≡ mine.old.history)) }
        ensures client { mine.new.history.index ≡ mine.old.history.index }
        ensures clients { SameClients self.old self.new }
    {
        let Inside {
            session,
            calls,
            lists,
            ..
        } = self;
        let outcome = session.next_completion(client)?;
        mine.add_calls(calls, 1, session.log().len_in_all());
        let made = Items::shown::<ClientId, (u64, Completion), (), Completed>(
            &client,
            &outcome,
            &(),
        );
        lists.add(&mut mine.history, &made);
        Some(outcome)
    }

    /// Collects a client's oldest outcome if that is a discovery's, as [`Session::next_discovery`] does, and counts the
    /// call in the client's share. `set` takes the devices that the run found, in place of its own.
    /// None: there is no outcome, or it is a request's; nothing changes.
    pub fn collect_discovery<T: TakesDevices>(
        &mut self,
        client: ClientId,
        set: &mut T,
        mine: &mut CallShare<L>,
    ) -> Option<DiscoveryEnd>
        requires own { client.0 ≡ mine.old.history.index }
        ensures collected { IfSome result (λ end.
            IsCollected client (discovery_outcome end (T.devices set.new)) self.old mine.old self.new mine.new) }
        ensures none { IfNone result
            (oldest_kind self.old.session.opening self.old.session.entries client.0 ≢ Some kinds.Discovery) }
        ensures unchanged { IfNone result
            ((self.new.session ≡ self.old.session) × (set.new ≡ set.old) × (mine.new.count ≡ mine.old.count)
            × (mine.new.history ≡ mine.old.history)) }
        ensures client { mine.new.history.index ≡ mine.old.history.index }
        ensures clients { SameClients self.old self.new }
    {
        let Inside {
            session,
            calls,
            lists,
            ..
        } = self;
        let end = session.next_discovery(client, set)?;
        mine.add_calls(calls, 1, session.log().len_in_all());
        let made = Items::shown::<ClientId, DiscoveryEnd, T, Ended<T>>(&client, &end, set);
        lists.add(&mut mine.history, &made);
        Some(end)
    }

    // Looks at a client's oldest outcome, and collects it if it is of a wanted kind: a request's as `collect_request`
    // does, and a discovery's as `collect_shared` does. `requests` and `asks` say which kinds are wanted.
    pub(crate) fn collect_oldest(
        &mut self,
        client: ClientId,
        requests: bool,
        asks: bool,
        sets: &mut SharedSets,
        mine: &mut CallShare<L>,
    ) -> OldestOutcome
        requires own { client.0 ≡ mine.old.history.index }
        ensures kind { ShowsKind requests asks result
            (oldest_kind self.old.session.opening self.old.session.entries client.0) }
        ensures collected { CollectsOldest client result self.old mine.old self.new mine.new }
        ensures sets { KeepsSets result (length sets.old.sets.items) (length sets.new.sets.items) }
        ensures client { mine.new.history.index ≡ mine.old.history.index }
        ensures clients { SameClients self.old self.new }
    {
        let Some(kind) = self.oldest(client) else {
            return OldestOutcome::Nothing;
        };
        match kind {
            OutcomeKind::Request if !requests => OldestOutcome::Stays(kind),
            OutcomeKind::Discovery if !asks => OldestOutcome::Stays(kind),
            OutcomeKind::Request => match self.collect_request(client, mine) {
                Some((_, done)) => OldestOutcome::Request(done),
                None => unreachable!(),
            },
            OutcomeKind::Discovery => match self.collect_shared(client, sets, mine) {
                Some(done) => OldestOutcome::Discovery(done),
                None => OldestOutcome::Nothing,
            },
        }
    }

    // Collects a client's oldest outcome if that is a discovery's, as `collect_discovery` does. A box that no
    // completion shares takes its devices, and the completion then shares it. None: as there, or each is shared.
    fn collect_shared(
        &mut self,
        client: ClientId,
        sets: &mut SharedSets,
        mine: &mut CallShare<L>,
    ) -> Option<BoxedAsk>
        requires own { client.0 ≡ mine.old.history.index }
        ensures collected { IfSome result (λ done. (n : ℕ)
            × IsCollected client (outcomes.Discovery (Some n) done) self.old mine.old self.new mine.new) }
        ensures unchanged { IfNone result ((self.new.session ≡ self.old.session)
            × (length sets.new.sets.items ≡ length sets.old.sets.items) × (mine.new.count ≡ mine.old.count)
            × (mine.new.history ≡ mine.old.history)) }
        ensures client { mine.new.history.index ≡ mine.old.history.index }
        ensures clients { SameClients self.old self.new }
    {
        let mut set = sets.take_unshared()?;
        if let Some(own) = Arc::get_mut(&mut set) {
            if let Some(end) = self.collect_discovery(client, own, mine) {
                return Some(BoxedAsk::shared(end.run, end.fault, sets.share(set)));
            }
        }
        sets.put_back(set);
        None
    }

    /// Pauses, as [`Session::pause`] does.
    /// Err: the log is full; nothing has changed.
    pub fn pause(&mut self) -> Result<(), LogFull>
        ensures { AddsOnly (PauseLogs self.old.session result) self.old self.new }
    {
        self.session.pause()
    }

    /// Resumes, as [`Session::resume`] does.
    /// Err: the log is full; nothing has changed.
    pub fn resume(&mut self) -> Result<(), LogFull>
        ensures { AddsOnly (ResumeLogs self.old.session result) self.old self.new }
    {
        self.session.resume()
    }

    /// Closes, as [`Session::close`] does.
    pub fn close(&mut self)
        ensures { AddsOnly (CloseAdds self.old.session.opening self.old.session.entries) self.old self.new }
    {
        self.session.close();
    }

    /// What a worker has to do in its turn: send the next frame, as [`Session::take`] returns it, or why there is none.
    pub fn turn(&mut self) -> Turn
        ensures { AddsOnly (TurnLogs self.old.session self.old.joined self.old.left result) self.old self.new }
    {
        match self.session.take() {
            Ok(Some(frame)) => Turn::Exchange(frame),
            Ok(None) if self.left == self.joined => Turn::AllLeft,
            Ok(None) => Turn::Nothing,
            Err(LogFull) => Turn::LogFull,
        }
    }

    /// Takes what came back over the line, as [`Session::deliver`] does.
    /// Err: no reply is awaited; nothing has changed, and the event is returned.
    pub fn deliver(&mut self, alloc: Global, event: LineEvent) -> Result<(), (NotAsked, LineEvent)>
        ensures { AddsOnly (DeliverAdds self.old.session event result) self.old self.new }
    {
        self.session.deliver(alloc, event)
    }

    /// The devices that the last run without fault found, and that run; none and 0 before the first.
    pub fn devices(&self) -> DeviceView
        ensures run { result.run ≡ devices_run self.now.session.opening self.now.session.entries }
        ensures set { result.set ≡ known_devices self.now.session.opening self.now.session.entries }
    {
        DeviceView {
            run: self.session.devices_run(),
            set: self.session.devices().copied(),
        }
    }

    /// A client has left. If as many have left as have joined, it has no effect.
    pub fn leave(&mut self)
        ensures left { self.new.left
            ≡ (if nat_lt self.old.left self.old.joined then self.old.left + 1 else self.old.left) }
        ensures same { (self.new.session ≡ self.old.session) × (self.new.joined ≡ self.old.joined) }
    {
        if self.left < self.joined {
            self.left += 1;
        }
    }

    /// The session. Whatever the calls were, its log is legal and keeps all that clients are promised. Its calls are
    /// those of the book, and its clients are those that joined.
    pub fn session(&self) -> &Session
        ensures session { result.now ≡ self.now.session }
        ensures legal { Legal self.now.session.opening self.now.session.entries }
        ensures promised { Promised self.now.session }
        ensures counted { count_calls self.now.session.entries ≡ self.now.calls.total }
        ensures clients { next_client self.now.session.opening self.now.session.entries ≡ self.now.joined }
    {
        // Only for the proof: the log says that it is legal, and what it promises.
        self.session.log();
        &self.session
    }
}

// How many calls in the log a call with this answer is: none if the log was full.
fn calls_logged(answer: &Result<u64, (WorkFault, Work)>) -> u64
    ensures { result ≡ calls_logged (number_or_fault answer.now) }
{
    match answer {
        Ok(_) => 1,
        Err((fault, _)) => u64::from(*fault != WorkFault::LogFull),
    }
}
