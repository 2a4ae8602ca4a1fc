//! A controller that keeps a log of all that it does.
ghost use Rattle.std.specs.Prelude.{◌≡◌, if◌then◌else◌};
ghost use Rattle.rdm_log.specs.log.LogState.{opened};
ghost use Rattle.rdm_queue.specs.body.SessionInvariant.{SessionAmid, FinishesDue};

use crate::controller::Controller;
use crate::oldest::Oldest;
use crate::takes_devices::TakesDevices;
use arrayvec::ArrayVec;
use rdm_agent::{Kind, MOST_APART};
use rdm_join::LineEvent;
use rdm_log::{
    AskFault, BrokenAnswers, Call, Cause, ClientId, Completion, DiscoveryEnd, Entry, IntoSetup,
    JoinFault, LEAST_FREE, Log, LogFull, MOST_ENTRIES, NotAsked, NotIdle, Opening, Outcome, Setup,
    SubmitFault, Work, WorkFault,
};
use rdm_wire::{DeviceSet, Frame, NoMemory, Request, Uid, copy_of_frame};
use std::alloc::Global;
use std::marker::Model;
use std::mem;

/// A controller with a log of all that it does. Contracts see the log. It is always legal, the controller's state is
/// the one that it describes, and it has capacity for all reserved entries.
#[derive(Debug, Drop)]
pub struct Session {
    controller: Controller,
    log: Log,
}

impl Model for Session {
    ghost use Rattle.rdm_log.specs.log.LogState.{LogState};

    ghost Value = { LogState };

    ghost use Rattle.rdm_queue.specs.body.SessionInvariant.{SessionInvariant};

    ghost view = { λ s. s.log };

    ghost invariant = { λ s. SessionInvariant s.controller s.log };
}

impl Session {
    ghost use Rattle.std.specs.Prelude.{◌≡◌, ◌≢◌, [], length, ◌+◌, ◌-◌, ◌≤◌, IfOk, IfErr, OnOk, OnErr, IfNone};
    ghost use Rattle.std.specs.Prelude.{IfSome, Some, true, false, vec_capacity, option_map};
    ghost use Rattle.rdm_log.specs.log.History.{awaited, is_paused, is_closed, is_idle, reserved, next_client};
    ghost use Rattle.rdm_log.specs.log.Legal.{Legal};
    ghost use Rattle.rdm_log.specs.log.Config.{IsConfig};
    ghost use Rattle.rdm_log.specs.log.LogState.{free_entries, is_full_log, begun, opening_after, stored, drained};
    ghost use Rattle.rdm_log.specs.log.LogState.{MayGoOn, filled_page};
    ghost use Rattle.rdm_log.specs.promises.Promised.{Promised};
    ghost use Rattle.rdm_log.specs.promises.Blocks.{JoinLogs, SubmitLogs, PauseLogs, ResumeLogs, TakeLogs};
    ghost use Rattle.rdm_log.specs.log.Runs.{known_devices, devices_run, next_run};
    ghost use Rattle.rdm_log.specs.promises.Blocks.{DiscoverLogs, CloseAdds, DeliverAdds, CollectAdds, GrowsBy};
    ghost use Rattle.rdm_log.specs.promises.Blocks.{WorkLogs, number_or_fault, IsOldest};
    ghost use Rattle.rdm_log.specs.promises.Outcomes.{oldest_kind, request_outcome, discovery_outcome};
    ghost use Rattle.rdm_log.specs.declared.outcome.OutcomeKind.TheVariants as kinds;
    ghost use Rattle.rdm_queue.specs.promises.BadUids.{AreBadUids, HasMoreBadUids};
    ghost use Rattle.rdm_queue.specs.promises.Oldest.{outcome_shown, kind_shown, flag_shown};
    ghost use Rattle.rdm_log.specs.log.Broken.{oldest_may_be_incomplete};
    ghost use Rattle.rdm_queue.specs.body.Describes.{StandsAfter};

    /// A session without clients, neither paused nor closed. Its discovery runs are numbered from 1, and all else from
    /// 0. With a [`Config`](crate::Config) alone its runs search steadily; a [`Setup`](crate::Setup) also says how they
    /// search. It writes the log's opening, which records both. The configuration must be valid
    /// ([`Config::is_valid`](crate::Config::is_valid)), and the log must never have had an entry ([`Log::len_in_all`]).
    /// Err: out of memory; the log is returned unchanged.
    pub fn new<S: IntoSetup>(alloc: Global, setup: S, log: Log) -> Result<Session, (NoMemory, Log)>
        requires config_is { IsConfig (S.setup_of setup).config }
        requires empty { log.entries ≡ [] }
        ensures ok { IfOk result (λ s. s ≡ begun (S.setup_of setup) log) }
        ensures err { IfErr result (λ e. e.1 ≡ log) }
    {
        let setup = setup.into_setup();
        let opening = opening_of(&setup);
        let Ok(controller) = Controller::new(alloc, setup) else {
            return Err((NoMemory, log));
        };
        Ok(Session {
            controller,
            log: log.after(opening),
        })
    }

    /// Lets a client join, as [`Controller::join_client`] does. LogFull adds no entry. Any other refusal is a Refuse
    /// entry with the number of its fault. Err: LogFull, or else the first other fault that applies; nothing changes
    /// but the log.
    pub fn join_client(&mut self, alloc: Global, places: u8) -> Result<ClientId, JoinFault>
        ensures adds { GrowsBy self.old (JoinLogs self.old places result) self.new }
        ensures legal { Legal self.new.opening self.new.entries }
    {
        if self.is_full() {
            return Err(JoinFault::LogFull);
        }
        match self.controller.join_client(alloc, places) {
            Ok(client) => {
                self.log.append(Entry::Join { client, places });
                Ok(client)
            }
            Err(fault) => {
                self.log.append(Entry::Refuse {
                    client: None,
                    call: Call::Join(places),
                    cause: Cause(fault.number()),
                });
                Err(fault)
            }
        }
    }

    /// Accepts a client's work, as [`Controller::accept`] does. Each refusal except LogFull is an entry.
    /// Err: LogFull, or else the first other fault that applies; nothing changes but the log, and the work is returned.
    // It is inlined: a request is large, and each call would move it there and back.
    #[inline(always)]
    pub fn accept(&mut self, client: ClientId, work: Work) -> Result<u64, (WorkFault, Work)>
        ensures adds { GrowsBy self.old (WorkLogs self.old client work (number_or_fault result)) self.new }
        ensures returned { IfErr result (λ e. e.1 ≡ work) }
        ensures legal { Legal self.new.opening self.new.entries }
    {
        if self.is_full() {
            return Err((WorkFault::LogFull, work));
        }
        if let Some(fault) = self.controller.first_fault(client, &work) {
            self.log.append(work.copied().refused(client, fault));
            return Err((fault, work));
        }
        let copy = work.copied();
        let number = self.controller.add(client, work);
        self.log.append(copy.accepted(client, number));
        Ok(number)
    }

    /// Accepts a client's request, as [`Controller::submit`] does. Each refusal except LogFull is an entry.
    /// Err: LogFull, or else the first other fault that applies; nothing changes but the log, and the request is
    /// returned.
    #[inline(always)]
    pub fn submit(
        &mut self,
        client: ClientId,
        request: Request,
    ) -> Result<u64, (SubmitFault, Request)>
        ensures adds { GrowsBy self.old (SubmitLogs self.old client request result) self.new }
        ensures legal { Legal self.new.opening self.new.entries }
    {
        match self.accept(client, Work::Submit(request)) {
            Ok(number) => Ok(number),
            Err((fault, work)) => Err((fault, work.into_request())),
        }
    }

    /// Accepts a client's discovery, as [`Controller::discover`] does. Each refusal except LogFull is an entry.
    /// Err: LogFull, or else the first other fault that applies; nothing changes but the log.
    pub fn discover(&mut self, client: ClientId, kind: Kind) -> Result<u64, AskFault>
        ensures adds { GrowsBy self.old (DiscoverLogs self.old client kind result) self.new }
        ensures legal { Legal self.new.opening self.new.entries }
    {
        match self.accept(client, Work::Discover(kind)) {
            Ok(number) => Ok(number),
            Err((fault, _)) => Err(fault),
        }
    }

    /// Pauses, as [`Controller::pause`] does, with an entry if that has an effect.
    /// Err: the log is full, even if the call would have no effect; nothing has changed.
    pub fn pause(&mut self) -> Result<(), LogFull>
        ensures adds { GrowsBy self.old (PauseLogs self.old result) self.new }
        ensures legal { Legal self.new.opening self.new.entries }
    {
        if self.is_full() {
            return Err(LogFull);
        }
        if !self.controller.can_pause() {
            return Ok(());
        }
        self.controller.pause();
        self.log.append(Entry::Pause);
        Ok(())
    }

    /// Resumes, as [`Controller::resume`] does, with an entry if that has an effect.
    /// Err: the log is full, even if the call would have no effect; nothing has changed.
    pub fn resume(&mut self) -> Result<(), LogFull>
        ensures adds { GrowsBy self.old (ResumeLogs self.old result) self.new }
        ensures legal { Legal self.new.opening self.new.entries }
    {
        if self.is_full() {
            return Err(LogFull);
        }
        if !self.controller.can_resume() {
            return Ok(());
        }
        self.controller.resume();
        self.log.append(Entry::Resume);
        Ok(())
    }

    /// Closes, as [`Controller::close`] does, with an entry if that has an effect. The entries of the requests that it
    /// finishes and the discoveries that it answers follow. All of them always fit into the log.
    pub fn close(&mut self)
        ensures adds { GrowsBy self.old (CloseAdds self.old.opening self.old.entries) self.new }
        ensures legal { Legal self.new.opening self.new.entries }
    {
        if self.controller.is_closed() {
            return;
        }
        self.controller.shut();
        self.log.append(Entry::Close);
        finish_due(&mut self.controller, &mut self.log);
    }

    /// The next frame for the line, as [`Controller::take`] returns it, with an entry if there is one.
    /// Err: the log is full, even if there would be no frame, and after a close too; nothing has changed.
    // It is inlined, and so is what it calls for a request: a frame is large, and each call would move it.
    #[inline(always)]
    pub fn take(&mut self) -> Result<Option<Frame>, LogFull>
        ensures adds { GrowsBy self.old (TakeLogs self.old result) self.new }
        ensures legal { Legal self.new.opening self.new.entries }
    {
        if self.is_full() {
            return Err(LogFull);
        }
        let Some((owner, frame)) = self.controller.give() else {
            return Ok(None);
        };
        self.log.append(Entry::Send {
            owner,
            frame: copy_of_frame(&frame),
        });
        Ok(Some(frame))
    }

    /// Takes what the line answered, as [`Controller::deliver`] does, with an entry. The entries of the requests that
    /// it finishes and the discoveries that it answers follow. All of them always fit into the log. An Answer that it
    /// adds has a fault only after a failure or a close, if these hold:
    /// - the line is honest, and its devices stay;
    /// - they are at most 1,024;
    /// - the budget is at least the bound on frames.
    ///
    /// Err: no reply is awaited; nothing has changed, and the event is returned.
    // It is inlined: an event is large, and a call would move it there and back.
    #[inline(always)]
    pub fn deliver(&mut self, alloc: Global, event: LineEvent) -> Result<(), (NotAsked, LineEvent)>
        ensures adds { GrowsBy self.old (DeliverAdds self.old event result) self.new }
        ensures legal { Legal self.new.opening self.new.entries }
    {
        if !self.controller.awaits() {
            return Err((NotAsked, event));
        }
        self.controller.hear(alloc, &event);
        self.log.append(Entry::Came { event });
        finish_due(&mut self.controller, &mut self.log);
        Ok(())
    }

    /// A client's oldest outcome, as [`Controller::next_outcome`] returns it, with an entry if there is one. The entry
    /// always fits into the log.
    // It is inlined: an outcome has room for a set, and each call would fill and move all of it.
    #[inline(always)]
    pub fn next_outcome(&mut self, client: ClientId) -> Option<Outcome>
        ensures adds { GrowsBy self.old (CollectAdds self.old.opening self.old.entries client result) self.new }
        ensures legal { Legal self.new.opening self.new.entries }
    {
        let outcome = self.controller.next_outcome(client)?;
        self.log.append(Entry::Collect { client });
        Some(outcome)
    }

    /// A look at a client's oldest uncollected outcome. None if there is none, or no such client.
    pub fn oldest(&self, client: ClientId) -> Option<Oldest<'_>>
        ensures kind { option_map kind_shown result ≡ oldest_kind self.now.opening self.now.entries client.0 }
        ensures outcome { IfSome result (λ oldest.
            IsOldest self.now.opening self.now.entries client.0 (outcome_shown oldest)) }
        ensures may_be_incomplete { option_map flag_shown result
            ≡ oldest_may_be_incomplete self.now.opening self.now.entries client.0 }
    {
        self.controller.oldest(client)
    }

    /// Collects a client's oldest outcome if that is a request's, as [`Controller::next_completion`] does, with an
    /// entry, which always fits into the log. It moves no set.
    /// None: there is no outcome, it is a discovery's, or there is no such client; nothing has changed.
    #[inline(always)]
    pub fn next_completion(&mut self, client: ClientId) -> Option<(u64, Completion)>
        ensures adds { IfSome result (λ r. GrowsBy self.old
            (CollectAdds self.old.opening self.old.entries client (Some (request_outcome r))) self.new) }
        ensures none { IfNone result (oldest_kind self.old.opening self.old.entries client.0 ≢ Some kinds.Request) }
        ensures unchanged { IfNone result (self.new ≡ self.old) }
        ensures legal { Legal self.new.opening self.new.entries }
    {
        let (number, done) = self.controller.next_completion(client)?;
        self.log.append(Entry::Collect { client });
        Some((number, done))
    }

    /// Collects a client's oldest outcome if that is a discovery's, as [`Controller::next_discovery`] does, with an
    /// entry, which always fits into the log. `set` takes the devices that its run found, in place of its own. A
    /// [`DeviceSet`] gets a copy of them. A box with one is exchanged for the one that has them.
    /// None: there is no outcome, it is a request's, or there is no such client; nothing has changed, and `set` is
    /// unchanged.
    pub fn next_discovery<T: TakesDevices>(
        &mut self,
        client: ClientId,
        set: &mut T,
    ) -> Option<DiscoveryEnd>
        ensures adds { IfSome result (λ end. GrowsBy self.old (CollectAdds self.old.opening self.old.entries client
            (Some (discovery_outcome end (T.devices set.new)))) self.new) }
        ensures none { IfNone result (oldest_kind self.old.opening self.old.entries client.0 ≢ Some kinds.Discovery) }
        ensures unchanged { IfNone result ((self.new ≡ self.old) × (set.new ≡ set.old)) }
        ensures legal { Legal self.new.opening self.new.entries }
    {
        let end = self.controller.next_discovery(client, set)?;
        self.log.append(Entry::Collect { client });
        Some(end)
    }

    /// How many entries are free: the capacity, less the entries of the log and those that are reserved. Reserved are:
    /// - one for a close, unless it is closed, and one for a reply that is awaited;
    /// - two for each request that isn't finished and each discovery that isn't answered;
    /// - one for each outcome that isn't collected.
    pub fn free(&self) -> usize
        ensures free { result ≡ free_entries self.now }
        ensures kept { length self.now.entries + reserved self.now.opening self.now.entries + result ≡ self.now.room }
    {
        self.log.unused() - self.reserved()
    }

    /// How many entries are reserved, as [`free`](Session::free) says. A drain needs memory for as many at least.
    pub fn reserved(&self) -> usize
        ensures reserved { result ≡ reserved self.now.opening self.now.entries }
        ensures kept { length self.now.entries + result ≤ self.now.room }
    {
        // Only for the proof: it bounds the sums below.
        self.log.room();
        let close = one_if(!self.controller.is_closed());
        let reply = one_if(self.controller.awaits());
        let unended = self.controller.waiting() + self.controller.asked();
        let uncollected = self.controller.uncollected();
        close + reply + 2 * unended + uncollected
    }

    /// Hands out all entries that the log stores, oldest first, and continues in other memory. That is possible at any
    /// time. It copies no entry and allocates nothing. Contracts still cover all entries, so that nothing that clients
    /// are promised depends on when this is called, except whether the log is full. The memory must be empty. If the
    /// log kept entries, the memory that is handed out has at least its capacity ([`Log::room`]), and can be the next
    /// one, once it is cleared. The number of the first entry that it hands out is what [`Log::first_stored`] returned
    /// before.
    /// Err: the memory has no capacity for all entries that are [`reserved`](Session::reserved), or there would be more
    /// than 2^62 entries in all; nothing has changed, and the memory is returned.
    pub fn drain(&mut self, next: Vec<Entry>) -> Result<Vec<Entry>, (LogFull, Vec<Entry>)>
        requires empty { next.items ≡ [] }
        ensures fits { OnOk result (MayGoOn self.old (vec_capacity next)) }
        ensures handed_out { IfOk result (λ page. page.items ≡ stored self.old) }
        ensures memory { self.old.keeps ≡ true → IfOk result (λ page.
            self.old.room ≤ self.old.gone + vec_capacity page) }
        ensures log { OnOk result (self.new ≡ drained self.old (vec_capacity next)) }
        ensures history { (self.new.opening ≡ self.old.opening) × (self.new.entries ≡ self.old.entries) }
        ensures back { IfErr result (λ e. e.1 ≡ next) }
        ensures refused { OnErr result (MayGoOn self.old (vec_capacity next) → ⊥) }
        ensures unchanged { OnErr result (self.new ≡ self.old) }
        ensures legal { Legal self.new.opening self.new.entries }
    {
        // The log is legal, even if nothing is handed out.
        self.log();
        if !self.can_go_on(next.capacity()) {
            return Err((LogFull, next));
        }
        Ok(self.log.drain(next))
    }

    /// The same, to another log, in place of that log's own entries, and goes on in its memory
    /// ([`Log::drain_into`]).
    /// Err: as `drain` returns, or the other log keeps nothing; nothing has changed.
    pub fn drain_into(&mut self, page: &mut Log) -> Result<(), LogFull>
        ensures fits { OnOk result ((page.old.keeps ≡ true) × MayGoOn self.old (page.old.room - page.old.gone)) }
        ensures handed_out { OnOk result (page.new ≡ filled_page page.old self.old) }
        ensures log { OnOk result (self.new ≡ drained self.old (page.old.room - page.old.gone)) }
        ensures history { (self.new.opening ≡ self.old.opening) × (self.new.entries ≡ self.old.entries) }
        ensures refused { OnErr result (page.old.keeps ≡ true → MayGoOn self.old (page.old.room - page.old.gone) → ⊥) }
        ensures unchanged { OnErr result ((self.new ≡ self.old) × (page.new ≡ page.old)) }
        ensures legal { Legal self.new.opening self.new.entries }
    {
        // The log is legal, even if nothing is handed out.
        self.log();
        if !page.keeps() || !self.can_go_on(page.room()) {
            return Err(LogFull);
        }
        self.log.drain_into(page);
        Ok(())
    }

    // Whether the log can go on in memory for this many entries.
    fn can_go_on(&self, room: usize) -> bool
        ensures may { result ≡ true → MayGoOn self.now room }
        ensures may_not { result ≡ false → MayGoOn self.now room → ⊥ }
    {
        room >= 1 && room >= self.reserved() && room as u64 <= MOST_ENTRIES - self.log.len_in_all()
    }

    /// Whether the log is full: fewer than three entries are [free](Session::free), so that it refuses some calls.
    pub fn is_full(&self) -> bool
        ensures { result ≡ is_full_log self.now }
    {
        !self.has_ample_room() && self.free() < LEAST_FREE
    }

    // Whether so many entries are unused that three are free, whatever is reserved. If so, `is_full` doesn't have to
    // count what is reserved.
    fn has_ample_room(&self) -> bool
        ensures { result ≡ true → is_full_log self.now ≡ false }
    {
        // One more entry is reserved for a close, and one for a reply.
        self.log.unused() >= self.controller.most_reserved() + 2 + LEAST_FREE
    }

    /// The log. It is legal, and keeps all that clients are promised.
    pub fn log(&self) -> &Log
        ensures log { result.now ≡ self.now }
        ensures legal { Legal self.now.opening self.now.entries }
        ensures promised { Promised self.now }
    {
        &self.log
    }

    /// The devices that the last run without fault found; none before the first.
    pub fn devices(&self) -> &DeviceSet
        ensures { result.now ≡ known_devices self.now.opening self.now.entries }
    {
        self.controller.devices()
    }

    /// The number of the run that found them; 0 before the first.
    pub fn devices_run(&self) -> u64
        ensures { result ≡ devices_run self.now.opening self.now.entries }
    {
        self.controller.devices_run()
    }

    /// The bad UIDs of the run that began last, as [`Controller::bad_uids`] lists them. After a rotation they are still
    /// those of that run, which the old log has, but no clause says so.
    pub fn bad_uids(&self) -> &[Uid]
        ensures fits { length result.now ≤ MOST_APART }
        ensures value { AreBadUids self.now.opening self.now.entries result.now }
    {
        self.controller.bad_uids()
    }

    /// Whether that run gave up further UIDs like these, since [`MOST_APART`] were set apart.
    pub fn has_more_bad_uids(&self) -> bool
        ensures { HasMoreBadUids self.now.opening self.now.entries result }
    {
        self.controller.has_more_bad_uids()
    }

    /// The number of that run; 0 before the first.
    pub fn bad_uids_run(&self) -> u64
        ensures { result ≡ next_run self.now.opening self.now.entries - 1 }
    {
        self.controller.bad_uids_run()
    }

    /// How many clients have joined, 0 to 16. They are numbered from 0.
    pub fn client_count(&self) -> usize
        ensures { result ≡ next_client self.now.opening self.now.entries }
    {
        self.controller.client_count()
    }

    /// Whether each request is finished, each discovery answered, and each outcome collected.
    pub fn is_idle(&self) -> bool
        ensures { result ≡ is_idle self.now.entries }
    {
        self.controller.is_idle()
    }

    /// Whether sending is paused.
    pub fn is_paused(&self) -> bool
        ensures { result ≡ is_paused self.now.opening self.now.entries }
    {
        self.controller.is_paused()
    }

    /// Whether it is closed.
    pub fn is_closed(&self) -> bool
        ensures { result ≡ is_closed self.now.opening self.now.entries }
    {
        self.controller.is_closed()
    }

    /// Whether a reply is awaited.
    pub fn awaits(&self) -> bool
        ensures { result ≡ awaited self.now.entries }
    {
        self.controller.awaits()
    }

    /// Continues with a new log, and returns the old one with its entries. The returned log may be the next one, once
    /// it is [`cleared`](Log::cleared). To hand out entries of a busy session, use [`drain`](Session::drain).
    ///
    /// An entry takes 296 bytes. A request takes 5 entries if one frame is enough for it, and 2 for each further frame.
    /// A discovery takes 3, and its run 2 for each frame. On an honest line a run with `n` devices and `k` known ones
    /// has at most `8 + 370 n + 5 k` frames, and 205 more if it searches quickly.
    ///
    /// The numbers of requests, discoveries, runs and frames continue. The clients with their queue depths, the devices
    /// and their run, the GETs that broke off, how runs search, and whether it is paused or closed are unchanged: all
    /// are in the new log's opening. The new log must never have had an entry ([`Log::len_in_all`]).
    /// Err: the session isn't idle. It is returned unchanged, and so is the new log.
    pub fn rotate(mut self, log: Log) -> Result<(Session, Log), (NotIdle, Session, Log)>
        requires empty { log.entries ≡ [] }
        ensures idle { OnOk result (is_idle self.entries ≡ true) }
        ensures not_idle { OnErr result (is_idle self.entries ≡ false) }
        ensures goes_on { IfOk result (λ r. r.0 ≡ record {
          opening = opening_after self.opening self.entries;
          entries = [];
          room = log.room;
          gone = log.gone;
          keeps = log.keeps;
        }) }
        ensures handed_back { IfOk result (λ r. r.1 ≡ self) }
        ensures unchanged { IfErr result (λ e. (e.1 ≡ self) × (e.2 ≡ log)) }
    {
        if !self.is_idle() {
            return Err((NotIdle, self, log));
        }
        let next_log = log.after(self.controller.opening());
        let old_log = mem::replace(&mut self.log, next_log);
        Ok((self, old_log))
    }

    /// The controller, and the log that describes its state.
    pub fn end(self) -> (Controller, Log)
        ensures log { result.1 ≡ self }
        ensures controller { StandsAfter self.opening self.entries result.0 }
    {
        let Session { controller, log } = self;
        (controller, log)
    }
}

// The opening of a session with this set-up.
fn opening_of(setup: &Setup) -> Opening
    ensures { result ≡ opened setup.now }
{
    Opening {
        source: setup.config.source,
        greatest: setup.config.places,
        budget: setup.config.budget,
        search: setup.search,
        places: ArrayVec::new(),
        paused: false,
        closed: false,
        devices: DeviceSet::new(),
        devices_run: 0,
        broken: BrokenAnswers::new(),
        next_request: 0,
        next_ask: 0,
        next_run: 1,
        next_tn: 0,
    }
}

// Ends all that is due, with an entry for each.
fn finish_due(controller: &mut Controller, log: &mut Log)
    requires { SessionAmid controller.old log.old }
    ensures { FinishesDue log.old controller.new log.new }
{
    while let Some(entry) = controller.finish_next() {
        log.append(entry);
    }
}

// One if the flag is set, or else none.
fn one_if(flag: bool) -> usize
    ensures { result ≡ (if flag then 1 else 0) }
{
    if flag { 1 } else { 0 }
}
