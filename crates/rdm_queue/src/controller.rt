//! The queue of requests and discoveries on one RDM line.

use crate::oldest::Oldest;
use crate::queue::Queue;
use crate::takes_devices::TakesDevices;
use rdm_agent::{Kind, MOST_APART, Search};
use rdm_join::LineEvent;
use rdm_log::{
    AskFault, ClientId, Completion, DiscoveryEnd, Entry, IntoSetup, JoinFault, NotAsked, Opening,
    Outcome, Owner, SubmitFault, Work, WorkFault,
};
use rdm_wire::{DeviceSet, Frame, NoMemory, Request, Uid};
use std::alloc::Global;
use std::collections::VecDeque;
use std::marker::Model;

/// The queue of the requests and discoveries of up to sixteen clients on one RDM line. One request is sent at a time,
/// the oldest first, whatever its client. All discoveries that wait are served by one run, before the requests that
/// wait, but not between two parts of a request. It does no input or output: `take` returns each frame for the line,
/// and `deliver` takes what the line answered.
///
/// Contracts say which logs describe its state (`StandsAfter`), and what each call adds to such a log.
#[derive(Debug, Drop)]
pub struct Controller {
    // Boxed, because it is large, and a controller is moved often.
    queue: Box<Queue>,
}

impl Model for Controller {
    ghost use Rattle.rdm_queue.specs.body.State.{QueueState};

    ghost Value = { QueueState };

    ghost view = { λ c. c.queue.value };
}

impl Controller {
    ghost use Rattle.std.specs.Prelude.{◌≡◌, ◌∷◌, ◌<◌, ◌≤◌, ◌+◌, ◌-◌, ◌*◌, [], true, false, length, IfOk, IfErr};
    ghost use Rattle.std.specs.Prelude.{IfSome, IfNone, OnErr, OnSome, Some, None, Ok, Err, ◌≢◌, option_map};
    ghost use Rattle.rdm_log.specs.declared.entry.Entry.TheVariants.{Send, Came, Close};
    ghost use Rattle.rdm_log.specs.log.History.{awaited, is_paused, is_closed, can_pause, can_resume, is_idle};
    ghost use Rattle.rdm_log.specs.log.History.{next_client};
    ghost use Rattle.rdm_log.specs.log.MaySend.{MaySend, NoSend};
    ghost use Rattle.rdm_log.specs.log.Config.{IsConfig};
    ghost use Rattle.rdm_log.specs.log.LogState.{opening_after};
    ghost use Rattle.rdm_log.specs.promises.Blocks.{JoinAdds, SubmitAdds, PauseAdds, ResumeAdds, CloseAdds};
    ghost use Rattle.rdm_log.specs.promises.Blocks.{DiscoverAdds, TakeAdds, DeliverAdds, CollectAdds, WorkAdds};
    ghost use Rattle.rdm_log.specs.promises.Blocks.{number_or_fault, IsOldest};
    ghost use Rattle.rdm_queue.specs.promises.BadUids.{AreBadUids, HasMoreBadUids};
    ghost use Rattle.rdm_queue.specs.promises.EachLog.{ForEachLog, AddsToEach, IsSetUp};
    ghost use Rattle.rdm_queue.specs.promises.Oldest.{outcome_shown, kind_shown, flag_shown};
    ghost use Rattle.rdm_log.specs.log.Broken.{oldest_may_be_incomplete};
    ghost use Rattle.rdm_queue.specs.body.Describes.{StandsAfter, ForEachBlock, AddsAmid, FinishesNext, FinishesEach};
    ghost use Rattle.rdm_queue.specs.body.State.{unended, uncollected, first_fault};
    ghost use Rattle.rdm_log.specs.log.Runs.{known_devices, devices_run, next_run};
    ghost use Rattle.rdm_log.specs.promises.Outcomes.{oldest_kind, request_outcome, discovery_outcome};
    ghost use Rattle.rdm_log.specs.declared.outcome.OutcomeKind.TheVariants as kinds;

    /// A controller without clients, neither paused nor closed, whose numbers begin at 0. With a
    /// [`Config`](crate::Config) alone its runs search steadily; a [`Setup`](crate::Setup) also says how they search.
    /// The configuration must be valid ([`Config::is_valid`](crate::Config::is_valid)).
    /// Err: out of memory.
    pub fn new<S: IntoSetup>(alloc: Global, setup: S) -> Result<Controller, NoMemory>
        requires { IsConfig (S.setup_of setup).config }
        ensures { IfOk result (IsSetUp (S.setup_of setup)) }
    {
        let setup = setup.into_setup();
        let places = usize::from(setup.config.places);
        let Ok(owners) = VecDeque::with_capacity(alloc, places) else {
            return Err(NoMemory);
        };
        match Box::new(alloc, Queue::new(alloc, setup, owners)) {
            Ok(queue) => Ok(Controller { queue }),
            Err(_) => Err(NoMemory),
        }
    }

    /// How its runs search.
    pub fn search(&self) -> Search
        ensures { result ≡ self.now.search }
    {
        self.queue.search()
    }

    /// Lets a client join, with this queue depth: how many requests it may have outstanding, from their acceptance
    /// until their outcomes are collected. The memory for them is reserved here.
    /// Err: the first fault that applies; nothing has changed.
    pub fn join_client(&mut self, alloc: Global, places: u8) -> Result<ClientId, JoinFault>
        ensures adds { AddsToEach self.old (λ k. JoinAdds k.opening k.entries places result) self.new }
        ensures unchanged { OnErr result (self.new ≡ self.old) }
    {
        self.queue.join_client(alloc, places)
    }

    /// Accepts a client's work, and returns its number: a request as [`submit`](Controller::submit) does, and a
    /// discovery as [`discover`](Controller::discover) does.
    /// Err: the first fault that applies; nothing has changed, and the work is returned.
    // It is inlined: a request is large, and each call would move it there and back.
    #[inline(always)]
    pub fn accept(&mut self, client: ClientId, work: Work) -> Result<u64, (WorkFault, Work)>
        ensures adds { AddsToEach self.old
            (λ k. WorkAdds k.opening k.entries client work (number_or_fault result)) self.new }
        ensures unchanged { IfErr result (λ e. (e.1 ≡ work) × (self.new ≡ self.old)) }
    {
        if let Some(fault) = self.first_fault(client, &work) {
            return Err((fault, work));
        }
        Ok(self.add(client, work))
    }

    /// The first fault that refuses a client's work.
    #[inline(always)]
    pub(crate) fn first_fault(&self, client: ClientId, work: &Work) -> Option<WorkFault>
        ensures first { result ≡ first_fault self.now client.0 work.now }
        ensures adds { IfSome result (λ fault. AddsToEach self.now
            (λ k. WorkAdds k.opening k.entries client work.now (Err fault)) self.now) }
    {
        self.queue.first_fault(client, work)
    }

    /// Accepts a client's work, which no fault refuses, and returns its number.
    #[inline(always)]
    pub(crate) fn add(&mut self, client: ClientId, work: Work) -> u64
        requires { first_fault self.old client.0 work ≡ None }
        ensures { AddsToEach self.old (λ k. WorkAdds k.opening k.entries client work (Ok result)) self.new }
    {
        self.queue.add(client, work)
    }

    /// Accepts a client's request, and returns its number. It is outstanding until its outcome is collected.
    /// Err: the first fault that applies; nothing has changed, and the request is returned.
    #[inline(always)]
    pub fn submit(
        &mut self,
        client: ClientId,
        request: Request,
    ) -> Result<u64, (SubmitFault, Request)>
        ensures adds { AddsToEach self.old (λ k. SubmitAdds k.opening k.entries client request result) self.new }
        ensures unchanged { IfErr result (λ e. (e.1 ≡ request) × (self.new ≡ self.old)) }
    {
        match self.accept(client, Work::Submit(request)) {
            Ok(number) => Ok(number),
            Err((fault, work)) => Err((fault, work.into_request())),
        }
    }

    /// Accepts a client's discovery, and returns its number. A run serves all discoveries that wait when it begins. It
    /// is full if one of them is, or else incremental; an incremental run mutes the known devices first.
    /// Err: the first fault that applies; nothing has changed.
    pub fn discover(&mut self, client: ClientId, kind: Kind) -> Result<u64, AskFault>
        ensures adds { AddsToEach self.old (λ k. DiscoverAdds k.opening k.entries client kind result) self.new }
        ensures unchanged { OnErr result (self.new ≡ self.old) }
    {
        match self.accept(client, Work::Discover(kind)) {
            Ok(number) => Ok(number),
            Err((fault, _)) => Err(fault),
        }
    }

    /// Begins no run and sends no request until `resume`; a run that has begun continues, and a reply that is awaited
    /// is still taken. It has no effect if it is paused or closed already.
    pub fn pause(&mut self)
        ensures adds { AddsToEach self.old (λ k. PauseAdds k.opening k.entries) self.new }
        ensures unchanged { ForEachLog self.old (λ o h. can_pause o h ≡ false → self.new ≡ self.old) }
    {
        if self.can_pause() {
            self.queue.set_paused(true);
        }
    }

    /// Begins runs and sends requests again. It has no effect if it isn't paused, or is closed.
    pub fn resume(&mut self)
        ensures adds { AddsToEach self.old (λ k. ResumeAdds k.opening k.entries) self.new }
        ensures unchanged { ForEachLog self.old (λ o h. can_resume o h ≡ false → self.new ≡ self.old) }
    {
        if self.can_resume() {
            self.queue.set_paused(false);
        }
    }

    /// Refuses all later joins, submits and discovers, and sends nothing more. If no reply is awaited, everything is
    /// ended at once; otherwise `deliver` does it. The order is: the discoveries of a run that has begun, with Aborted;
    /// the requests that wait, with status FailedToSend; the other discoveries, with Aborted and run 0. It has no
    /// effect if it is closed already.
    pub fn close(&mut self)
        ensures adds { AddsToEach self.old (λ k. CloseAdds k.opening k.entries) self.new }
        ensures unchanged { ForEachLog self.old (λ o h. is_closed o h ≡ true → self.new ≡ self.old) }
    {
        if !self.queue.is_closed() {
            self.shut();
            self.finish_due();
        }
    }

    /// The next frame for the line, with the next transaction number, modulo 256, and port id 1. It is the next frame
    /// of a run that has begun; or, if sending isn't paused, the first of these:
    /// - that of the request that is between two parts;
    /// - the first unmute of a run for all discoveries that wait;
    /// - that of the oldest unfinished request.
    ///
    /// None if a reply is awaited, if it is closed, or if there is none of these.
    pub fn take(&mut self) -> Option<Frame>
        ensures adds { AddsToEach self.old (λ k. TakeAdds k.opening k.entries result) self.new }
        ensures unchanged { IfNone result (self.new ≡ self.old) }
    {
        let (_, frame) = self.give()?;
        Some(frame)
    }

    /// Takes what the line answered to the last frame. If that decides a request's result, the request is finished,
    /// with status NoMemory if there is no memory for its joined data. A run that ends answers all its discoveries
    /// alike, in the order in which they were asked for; without fault, `devices` returns its devices from then on.
    /// After a close, everything else is then ended too, as by `close`.
    ///
    /// A discovery that it answers has a fault only after a failure or a close, if these hold:
    /// - the line is honest, and its devices stay;
    /// - they are at most 1,024;
    /// - the budget is at least the bound on frames.
    ///
    /// Err: no reply is awaited; nothing has changed, and the event is returned.
    pub fn deliver(&mut self, alloc: Global, event: LineEvent) -> Result<(), (NotAsked, LineEvent)>
        ensures adds { AddsToEach self.old (λ k. DeliverAdds k event result) self.new }
        ensures unchanged { IfErr result (λ e. (e.1 ≡ event) × (self.new ≡ self.old)) }
    {
        if !self.awaits() {
            return Err((NotAsked, event));
        }
        self.hear(alloc, &event);
        self.finish_due();
        Ok(())
    }

    /// A client's oldest uncollected outcome, which is then no longer outstanding. None if there is none, or no such
    /// client.
    // It is inlined: an outcome has room for a set, and each call would fill and move all of it.
    #[inline(always)]
    pub fn next_outcome(&mut self, client: ClientId) -> Option<Outcome>
        ensures adds { AddsToEach self.old (λ k. CollectAdds k.opening k.entries client result) self.new }
        ensures unchanged { IfNone result (self.new ≡ self.old) }
    {
        self.queue.next_outcome(client)
    }

    /// A look at a client's oldest uncollected outcome. None if there is none, or no such client.
    pub fn oldest(&self, client: ClientId) -> Option<Oldest<'_>>
        ensures kind { ForEachLog self.now (λ o h. option_map kind_shown result ≡ oldest_kind o h client.0) }
        ensures outcome { IfSome result (λ oldest. ForEachLog self.now
            (λ o h. IsOldest o h client.0 (outcome_shown oldest))) }
        ensures may_be_incomplete { ForEachLog self.now
            (λ o h. option_map flag_shown result ≡ oldest_may_be_incomplete o h client.0) }
    {
        self.queue.oldest_outcome(client)
    }

    /// Collects a client's oldest outcome if that is a request's, and returns its number and how it ended. It moves no
    /// set. None: there is no outcome, it is a discovery's, or there is no such client; nothing has changed.
    #[inline(always)]
    pub fn next_completion(&mut self, client: ClientId) -> Option<(u64, Completion)>
        ensures adds { IfSome result (λ r. AddsToEach self.old
            (λ k. CollectAdds k.opening k.entries client (Some (request_outcome r))) self.new) }
        ensures none { IfNone result (ForEachLog self.old (λ o h. oldest_kind o h client.0 ≢ Some kinds.Request)) }
        ensures unchanged { IfNone result (self.new ≡ self.old) }
    {
        self.queue.next_completion(client)
    }

    /// Collects a client's oldest outcome if that is a discovery's. `set` takes the devices that its run found, in
    /// place of its own. A [`DeviceSet`] gets a copy of them. A box with one is exchanged for the one that has them.
    /// None: there is no outcome, it is a request's, or there is no such client; nothing has changed, and `set` is
    /// unchanged.
    pub fn next_discovery<T: TakesDevices>(
        &mut self,
        client: ClientId,
        set: &mut T,
    ) -> Option<DiscoveryEnd>
        ensures adds { IfSome result (λ end. AddsToEach self.old (λ k. CollectAdds k.opening k.entries client
            (Some (discovery_outcome end (T.devices set.new)))) self.new) }
        ensures none { IfNone result (ForEachLog self.old (λ o h. oldest_kind o h client.0 ≢ Some kinds.Discovery)) }
        ensures unchanged { IfNone result ((self.new ≡ self.old) × (set.new ≡ set.old)) }
    {
        self.queue.next_discovery(client, set)
    }

    /// The devices that the last run without fault found; none before the first.
    pub fn devices(&self) -> &DeviceSet
        ensures { ForEachLog self.now (λ o h. result.now ≡ known_devices o h) }
    {
        self.queue.devices()
    }

    /// The number of the run that found them; 0 before the first.
    pub fn devices_run(&self) -> u64
        ensures { ForEachLog self.now (λ o h. result ≡ devices_run o h) }
    {
        self.queue.devices_run()
    }

    /// The bad UIDs of the run that began last, open or ended: those that it has set apart, the newest first, at most
    /// [`MOST_APART`]. Each was answered badly when it was asked alone: it couldn't be read, or what was read couldn't
    /// be muted. None before the first run, and none in steady runs.
    pub fn bad_uids(&self) -> &[Uid]
        ensures fits { length result.now ≤ MOST_APART }
        ensures value { ForEachLog self.now (λ o h. AreBadUids o h result.now) }
    {
        self.queue.bad_uids()
    }

    /// Whether that run gave up further UIDs like these, since [`MOST_APART`] were set apart.
    pub fn has_more_bad_uids(&self) -> bool
        ensures { ForEachLog self.now (λ o h. HasMoreBadUids o h result) }
    {
        self.queue.has_more_bad_uids()
    }

    /// The number of that run; 0 before the first.
    pub fn bad_uids_run(&self) -> u64
        ensures { ForEachLog self.now (λ o h. result ≡ next_run o h - 1) }
    {
        self.queue.bad_uids_run()
    }

    /// How many clients have joined, 0 to 16. They are numbered from 0.
    pub fn client_count(&self) -> usize
        ensures { ForEachLog self.now (λ o h. result ≡ next_client o h) }
    {
        self.queue.client_count()
    }

    /// Whether each request is finished, each discovery answered, and each outcome collected.
    pub fn is_idle(&self) -> bool
        ensures { ForEachLog self.now (λ o h. result ≡ is_idle h) }
    {
        self.queue.is_idle()
    }

    /// Whether sending is paused.
    pub fn is_paused(&self) -> bool
        ensures { ForEachLog self.now (λ o h. result ≡ is_paused o h) }
    {
        self.queue.is_paused()
    }

    /// Whether it is closed.
    pub fn is_closed(&self) -> bool
        ensures { ForEachLog self.now (λ o h. result ≡ is_closed o h) }
    {
        self.queue.is_closed()
    }

    /// Whether a reply is awaited.
    pub fn awaits(&self) -> bool
        ensures { ForEachLog self.now (λ o h. result ≡ awaited h) }
    {
        self.queue.awaits()
    }

    /// Whether a pause has an effect.
    pub(crate) fn can_pause(&self) -> bool
        ensures { ForEachLog self.now (λ o h. result ≡ can_pause o h) }
    {
        !self.queue.is_paused() && !self.queue.is_closed()
    }

    /// Whether a resume has an effect.
    pub(crate) fn can_resume(&self) -> bool
        ensures { ForEachLog self.now (λ o h. result ≡ can_resume o h) }
    {
        self.queue.is_paused() && !self.queue.is_closed()
    }

    /// The next frame for the line, and its owner.
    // It is inlined: a frame is large, and each call would move it.
    #[inline(always)]
    pub(crate) fn give(&mut self) -> Option<(Owner, Frame)>
        ensures frame { IfSome result (λ given. AddsToEach self.old
            (λ k block. MaySend k.opening k.entries given.0 given.1 × (block ≡ Send given.0 given.1 ∷ [])) self.new) }
        ensures none { IfNone result (ForEachLog self.old (λ o h. NoSend o h) × (self.new ≡ self.old)) }
    {
        self.queue.take()
    }

    /// Closes, if it isn't closed. The caller has to end what is due then.
    pub(crate) fn shut(&mut self)
        ensures { AddsAmid self.old (λ o h. is_closed o h ≡ false) Close self.new }
    {
        self.queue.set_closed();
    }

    /// Takes what the line answered, if a reply is awaited. The caller has to end what is due then.
    pub(crate) fn hear(&mut self, alloc: Global, event: &LineEvent)
        ensures { AddsAmid self.old (λ o h. awaited h ≡ true) (Came event.now) self.new }
    {
        self.queue.hear(alloc, event);
    }

    /// Ends what is due next, and returns its entry: a Finish or an Answer. None if nothing is due.
    #[inline(always)]
    pub(crate) fn finish_next(&mut self) -> Option<Entry>
        ensures ended { IfSome result (λ entry. FinishesNext self.old entry self.new) }
        ensures fewer { OnSome result (unended self.new < unended self.old) }
        ensures settled { IfNone result (ForEachBlock self.old (λ o h. StandsAfter o h self.old)
            × (self.new ≡ self.old)) }
    {
        self.queue.finish_next()
    }

    // Ends all that is due.
    fn finish_due(&mut self)
        ensures { FinishesEach self.old self.new }
    {
        while self.finish_next().is_some() {}
    }

    /// The opening of a log that continues from here.
    pub(crate) fn opening(&self) -> Opening
        ensures { ForEachLog self.now (λ o h. result ≡ opening_after o h) }
    {
        self.queue.opening()
    }

    /// How many requests aren't finished.
    pub(crate) fn waiting(&self) -> usize
        ensures { result ≡ length self.now.waiting }
    {
        self.queue.waiting()
    }

    /// How many discoveries aren't answered.
    pub(crate) fn asked(&self) -> usize
        ensures { result ≡ length self.now.asked }
    {
        self.queue.asked()
    }

    /// At least as many as `uncollected`, and two for each request that isn't finished and each discovery that isn't
    /// answered. It returns three for each request that the queue can hold, and for each of 64 discoveries: sixteen
    /// clients can have four each. It looks at no client.
    pub(crate) fn most_reserved(&self) -> usize
        ensures most { 2 * (length self.now.waiting + length self.now.asked) + uncollected self.now ≤ result }
        ensures fits { result ≤ 12432 }
    {
        self.queue.most_reserved()
    }

    /// How many outcomes aren't collected.
    pub(crate) fn uncollected(&self) -> usize
        ensures { result ≡ uncollected self.now }
    {
        self.queue.uncollected()
    }
}
