//! What a client calls.
ghost use Rattle.std.specs.Prelude.{◌≡◌, ◌+◌, [], ◌∷◌, ◌++◌, length, true, false, Ok, Err, OnOk, OnErr, IfErr};
ghost use Rattle.std.specs.Prelude.{IfSome, IfNone, MatchOption, Some, None, slice_get, ⊤, ◌<◌};
ghost use Rattle.rtrb.specs.Ring.{received as popped, known_items};
ghost use Rattle.rdm_client.specs.declared.told.Collected.TheVariants.{Request as RequestTold};
ghost use Rattle.rdm_lanes.specs.declared.call.ClientCall.TheVariants.{Submit, Discover};
ghost use Rattle.rdm_lanes.specs.declared.fault.RingFault.TheVariants.{RingFull as NoSlot};
ghost use Rattle.rdm_lanes.specs.body.Holding.{HoldsFor, IsWanted};
ghost use Rattle.rdm_lanes.specs.Clients.{SameClient, Collects, HasRead, sent_by, got_by, submit_fault, discover_fault};
ghost use Rattle.rdm_lanes.specs.Ends.{end_sent, end_got};
ghost use mathlib.Core.List.{IsPrefix};
ghost use Rattle.rdm_lanes.specs.Views.{last_view, last_view_run, last_found, later_view};
ghost use Rattle.std.specs.Borrow.{sem};
ghost use mathlib.Core.Option.{none};
ghost use denote.Follow.{follows_so};
ghost use Rattle.rdm_lanes.specs.contracts.client.RingClient.{the_row};

use crate::call::ClientCall;
use crate::client::RingClient;
use crate::client::ends::ClientEnd;
use crate::client::found::{keep_found, later};
use crate::client::settle::settle;
use crate::fault::{RingFault, RingFull};
use crate::ring_outcome::RingOutcome;
use crate::views::history::ViewHistory;
use rdm_agent::Kind;
use rdm_client::{Collected, DeviceView, Tells, TellsAsk, Told};
use rdm_wire::Request;

impl<J: ViewHistory, C: Tells, A: TellsAsk> RingClient<J, C, A> {
    /// Sends a request to the worker, and holds its callback until the outcome is collected.
    /// Err: the first fault that applies, Left, Full or RingFull. Nothing has changed, and the request and the callback
    /// are returned. Full: as many requests' callbacks are held as the queue depth, or `u64::MAX` calls were sent.
    #[tactic(auto, using(crate::proofs::Counting::counted_sent, crate::proofs::Counting::work_more))]
    pub fn submit(&mut self, request: Request, callback: C) -> Result<(), (RingFault, Request, C)>
        ensures sent { OnOk result (sent_by self.new ≡ sent_by self.old ++ Submit request ∷ []) }
        ensures holds { OnOk result (self.new.desk
            ≡ record self.old.desk { requests = self.old.desk.requests ++ callback ∷ [] }) }
        ensures fault { MatchOption (submit_fault self.old) (IfErr result (λ e. e ≡ (NoSlot, request, callback)))
            (λ fault. result ≡ Err (fault, request, callback)) }
        ensures refused { OnErr result ((sent_by self.new ≡ sent_by self.old) × (self.new.desk ≡ self.old.desk)) }
        ensures got { got_by self.new ≡ got_by self.old }
        ensures left { self.new.left ≡ self.old.left }
        ensures client { SameClient self.old self.new }
        ensures views { self.new.views ≡ self.old.views }
    {
        if self.left {
            return Err((RingFault::Left, request, callback));
        }
        if self.desk.is_full() || self.sent == u64::MAX {
            return Err((RingFault::Full, request, callback));
        }
        if self.calls.slots() == 0 {
            return Err((RingFault::RingFull, request, callback));
        }
        if let Err((_, callback)) = self.desk.hold(callback) {
            return Err((RingFault::Full, request, callback));
        }
        self.calls.push_reserved(ClientCall::Submit(request));
        self.worker.wake();
        self.sent += 1;
        Ok(())
    }

    /// Sends a discovery to the worker, and holds its callback until the outcome is collected.
    /// Err: the first fault that applies, Left, Full or RingFull. Nothing has changed, and the callback is returned.
    /// Full: four discoveries' callbacks are held, or `u64::MAX` calls were sent.
    #[tactic(auto, using(crate::proofs::Counting::counted_sent, crate::proofs::Counting::work_more))]
    pub fn discover(&mut self, kind: Kind, callback: A) -> Result<(), (RingFault, A)>
        ensures sent { OnOk result (sent_by self.new ≡ sent_by self.old ++ Discover kind ∷ []) }
        ensures holds { OnOk result (self.new.desk
            ≡ record self.old.desk { asks = self.old.desk.asks ++ callback ∷ [] }) }
        ensures fault { MatchOption (discover_fault self.old) (IfErr result (λ e. e ≡ (NoSlot, callback)))
            (λ fault. result ≡ Err (fault, callback)) }
        ensures refused { OnErr result ((sent_by self.new ≡ sent_by self.old) × (self.new.desk ≡ self.old.desk)) }
        ensures got { got_by self.new ≡ got_by self.old }
        ensures left { self.new.left ≡ self.old.left }
        ensures client { SameClient self.old self.new }
        ensures views { self.new.views ≡ self.old.views }
    {
        if self.left {
            return Err((RingFault::Left, callback));
        }
        if self.desk.is_full_of_asks() || self.sent == u64::MAX {
            return Err((RingFault::Full, callback));
        }
        if self.calls.slots() == 0 {
            return Err((RingFault::RingFull, callback));
        }
        if let Err((_, callback)) = self.desk.hold_ask(callback) {
            return Err((RingFault::Full, callback));
        }
        self.calls.push_reserved(ClientCall::Discover(kind));
        self.worker.wake();
        self.sent += 1;
        Ok(())
    }

    /// Collects the oldest outcome that has come: the oldest callback of its kind is called with it. None: no outcome
    /// has come, or no callback of its kind is held; the outcome then stays in the ring. The set of a discovery that
    /// ended without fault is copied once, for [`RingClient::known_devices`].
    pub fn collect(&mut self) -> Option<Collected>
        ensures got { IfSome result (λ told. Collects C.calls C.tag_of A.calls A.tag_of self.old told self.new) }
        ensures none { IfNone result ((got_by self.new ≡ got_by self.old) × (self.new.desk ≡ self.old.desk)) }
        ensures sent { sent_by self.new ≡ sent_by self.old }
        ensures left { self.new.left ≡ self.old.left }
        ensures client { SameClient self.old self.new }
        ensures views { self.new.views ≡ self.old.views }
    {
        self.collect_wanted(true)
    }

    /// Collects the oldest outcome that has come, if it is a request's. None: no outcome has come, it is a discovery's,
    /// or no request's callback is held; the outcome then stays in the ring.
    pub fn collect_request(&mut self) -> Option<Told>
        ensures got { IfSome result (λ told.
            Collects C.calls C.tag_of A.calls A.tag_of self.old (RequestTold told) self.new) }
        ensures none { IfNone result ((popped self.new.replies ≡ popped self.old.replies)
            × (self.new.desk ≡ self.old.desk)) }
        ensures sent { sent_by self.new ≡ sent_by self.old }
        ensures left { self.new.left ≡ self.old.left }
        ensures client { SameClient self.old self.new }
        ensures views { self.new.views ≡ self.old.views }
    {
        match self.collect_wanted(false)? {
            Collected::Request(told) => Some(told),
            Collected::Ask(_) => unreachable!(),
        }
    }

    // Collects the oldest outcome that has come, as `collect` does; if it is a discovery's, only if `asks` wants it.
    fn collect_wanted(&mut self, asks: bool) -> Option<Collected>
        ensures got { IfSome result (λ told. Collects C.calls C.tag_of A.calls A.tag_of self.old told self.new) }
        ensures wanted { IfSome result (λ told. IsWanted asks told) }
        ensures none { IfNone result ((popped self.new.replies ≡ popped self.old.replies)
            × (self.new.desk ≡ self.old.desk)) }
        ensures sent { sent_by self.new ≡ sent_by self.old }
        ensures left { self.new.left ≡ self.old.left }
        ensures client { SameClient self.old self.new }
        ensures views { self.new.views ≡ self.old.views }
    {
        if self.replies.slots() == 0 || !self.holds_for(asks) {
            return None;
        }
        let item = self.replies.pop_known();
        self.worker.wake();
        keep_found(&mut self.found, &item);
        let collected = settle(&mut self.desk, item);
        self.collected += 1;
        Some(collected)
    }

    /// Reads what the worker has published, and lends the devices that the client knows of then: it is
    /// [`RingClient::read`], and then [`RingClient::known_devices`]. It copies no set.
    pub fn devices(&mut self) -> &DeviceView
        ensures* after { sem 𝓛 (follows_so (the_row J.row C.row A.row J.ViewHistory)
            (the_row J.row C.row A.row J.ViewHistory) self.entry.ghost_name none (λ _ _. ⊤) (λ n. HasRead self.old n
            × (result.now ≡ later_view (last_view n.views) (last_found (got_by n))))) }
    {
        self.read();
        self.known_devices()
    }

    /// Reads what the worker has published, for [`RingClient::known_devices`]. What had been read before is a prefix of
    /// what is read then. It copies no set. If nothing can be read, the last view that was read stays: the worker is
    /// gone, or the view has as many owners as can be counted.
    pub fn read(&mut self)
        ensures views { IsPrefix self.old.views self.new.views }
        ensures sent { sent_by self.new ≡ sent_by self.old }
        ensures got { got_by self.new ≡ got_by self.old }
        ensures left { self.new.left ≡ self.old.left }
        ensures desk { self.new.desk ≡ self.old.desk }
        ensures client { SameClient self.old self.new }
    {
        self.views.read();
    }

    /// The devices that the client knows of, without reading. They are the later, by run, of the last view that was
    /// read and of what the client found itself, by its last discovery without fault whose outcome it collected. Before
    /// any run ended without fault that is the view of run 0, without devices. It copies no set.
    pub fn known_devices(&self) -> &DeviceView
        ensures { result.now ≡ later_view (last_view self.now.views) (last_found (got_by self.now)) }
    {
        later(self.views.last(), &self.found)
    }

    /// Tells the worker that the client leaves: it sends nothing more. What has come, and what is still to come, can
    /// be collected all the same. It has no effect once the client has left.
    /// Err: the ring of calls has no free slot; nothing has changed.
    #[tactic(auto, using(crate::proofs::Counting::counted_leave, crate::proofs::Counting::leave_more))]
    pub fn leave(&mut self) -> Result<(), RingFull>
        ensures left { OnOk result (self.new.left ≡ true) }
        ensures full { OnErr result ((self.old.left ≡ false) × (self.new.left ≡ false)) }
        ensures sent { sent_by self.new ≡ sent_by self.old }
        ensures got { got_by self.new ≡ got_by self.old }
        ensures desk { self.new.desk ≡ self.old.desk }
        ensures client { SameClient self.old self.new }
        ensures views { self.new.views ≡ self.old.views }
    {
        if self.left {
            return Ok(());
        }
        if self.calls.slots() == 0 {
            return Err(RingFull);
        }
        self.calls.push_reserved(ClientCall::Leave);
        self.worker.wake();
        self.left = true;
        Ok(())
    }

    // Whether a callback is held for the oldest outcome, and it is a request's or `asks` wants it.
    fn holds_for(&self, asks: bool) -> bool
        requires { 0 < length (known_items self.now.replies) }
        ensures { result ≡ true
            → MatchOption (slice_get (known_items self.now.replies) 0) ⊤ (HoldsFor asks self.now.desk) }
    {
        match self.replies.peek_known() {
            RingOutcome::Request { .. } => self.desk.requests_held() > 0,
            RingOutcome::Discovery { .. } => asks && self.desk.asks_held() > 0,
        }
    }

    /// Ends the client, and returns the callbacks that it holds.
    #[tactic(auto, using(crate::proofs::Counting::values_long))]
    pub fn end(self) -> ClientEnd<J, C, A>
        ensures unspent { result.unspent ≡ record { requests = self.desk.requests; asks = self.desk.asks } }
        ensures sent { (end_sent result ≡ sent_by self) × (result.sent ≡ length (end_sent result)) }
        ensures got { (end_got result ≡ got_by self) × (result.collected ≡ length (end_got result)) }
        ensures rings { (result.calls ≡ self.calls) × (result.replies ≡ self.replies) }
        ensures views { (result.views ≡ self.views) × (result.run ≡ last_view_run self.views) }
    {
        let RingClient {
            desk,
            calls,
            replies,
            views,
            found: _,
            sent,
            collected,
            left,
            worker: _,
            sleep: _,
        } = self;
        ClientEnd {
            unspent: desk.end(),
            sent,
            collected,
            run: views.last().run,
            calls,
            replies,
            views,
            left,
        }
    }
}
