//! A client of a session with a mutex.
ghost use Rattle.std.specs.Prelude.{◌≡◌, ◌⊎◌, ◌≤◌, ◌+◌, ◌++◌, ◌∷◌, [], length, nat_le, true, false, OnOk, IfErr};
ghost use Rattle.std.specs.Prelude.{IsErrAnd, IfSome, IfNone, OnSome, IsNone, Some, ◌≢◌, if◌then◌else◌, MatchOption};
ghost use Rattle.std.specs.Prelude.{IsSomeAnd, Ok, Err, refl};
ghost use Rattle.std.proofs.Common.{◌∙◌};
ghost use Rattle.rdm_log.specs.declared.fault.WorkFault.{WorkFault as WorkFaultState};
ghost use Rattle.rdm_log.specs.declared.fault.WorkFault.TheVariants as work_faults;
ghost use Rattle.rdm_log.specs.declared.outcome.OutcomeKind.TheVariants as kinds;
ghost use Rattle.rdm_log.specs.declared.work.Work.TheVariants.{Submit, Discover};
ghost use Rattle.rdm_log.specs.promises.Blocks.{number_or_fault};
ghost use Rattle.rdm_client.specs.declared.told.Collected.TheVariants as collected;
ghost use Rattle.rdm_locked.specs.Calls.{refused_calls};
ghost use Rattle.rdm_locked.specs.Clients.{logged, made_by, with_fault, GotTold};
ghost use Rattle.rdm_client.specs.Collects.{Collects, CollectsRequest, CollectsDiscovery};
ghost use Rattle.rdm_client.specs.Faults.{of_session};
ghost use Rattle.rdm_locked.specs.body.Oldest.{IsOfWanted};

mod sleeping;

use crate::history::Ledger;
use crate::oldest::OldestOutcome;
use crate::port::Port;
use crate::sets::SharedSets;
use crate::share::CallShare;
use rdm_agent::Kind;
use rdm_client::{
    AskCallback, AskTold, CallFault, Callback, Client, Collected, Desk, DeviceView, Tells,
    TellsAsk, Told, Unspent,
};
use rdm_log::{AskFault, ClientId, OutcomeKind, SubmitFault};
use rdm_wire::Request;
use std::sync::Wait;

/// A client of a session with a mutex, with the callbacks of what it has outstanding. It may be used in any thread. Its
/// calls wait for the mutex, and take it once at most; a callback runs after the mutex is released. None of its calls
/// allocates.
///
/// It has memory for the devices of four discoveries. A discovery that it collects shares one of these sets until its
/// completion, which [`AskTold`] usually has, is dropped. While all four are in use, the outcome of the client's next
/// discovery stays in the session, and all its later outcomes stay behind it. Then [`collect`](LockedClient::collect)
/// returns None, and [`oldest`](LockedClient::oldest) says Discovery. To go on, copy a completion's devices, and drop
/// it.
///
/// It isn't [`Drop`]: [`LockedClient::leave`] returns what it holds.
pub struct LockedClient<'a, L: Ledger, C = Callback, A = AskCallback> {
    port: &'a Port<L>,
    number: ClientId,
    desk: Desk<C, A>,
    calls: CallShare<L>,
    // Whether no callback was held for its oldest outcome: then it collects nothing any more.
    stranded: bool,
    sets: SharedSets,
    ghost own: { number.0 ≡ calls.history.index },
}

/// What is left of a client.
pub struct Left<L: Ledger, C = Callback, A = AskCallback> {
    /// The callbacks that weren't called.
    pub unspent: Unspent<C, A>,
    /// How many of the log's calls are the client's.
    pub calls: CallShare<L>,
}

impl<'a, L: Ledger, C: Tells, A: TellsAsk> LockedClient<'a, L, C, A> {
    // A client that has made no call.
    pub(crate) fn new(
        port: &'a Port<L>,
        number: ClientId,
        desk: Desk<C, A>,
        calls: CallShare<L>,
        sets: SharedSets,
    ) -> LockedClient<'a, L, C, A>
        requires own { number.0 ≡ calls.history.index }
        ensures holds { (result.desk ≡ desk) × (result.calls ≡ calls) }
        ensures is_new { (result.number ≡ number) × (result.stranded ≡ false) }
    {
        LockedClient {
            port,
            number,
            desk,
            calls,
            stranded: false,
            sets,
        }
    }

    /// Submits a request, and returns its number. The callback is held until it is called with the request's
    /// completion.
    /// Err: Full if the desk can't hold the callback, before all other faults; such a call has no entry, and isn't
    /// counted. Otherwise as [`Inside::submit`](crate::Inside::submit) returns. The request and the callback are
    /// returned.
    pub fn submit<R: Wait>(
        &mut self,
        rt: &R,
        request: Request,
        callback: C,
    ) -> Result<u64, (SubmitFault, Request, C)>
        ensures held { OnOk result
            (self.new.desk ≡ record self.old.desk { requests = self.old.desk.requests ++ callback ∷ [] }) }
        ensures accepted { OnOk result (self.new.calls.count ≡ self.old.calls.count + 1) }
        ensures refused { IfErr result (λ e. self.new.calls.count ≡ self.old.calls.count
            + (if nat_le self.old.desk.places (length self.old.desk.requests) then 0 else refused_calls e.0)) }
        ensures made { made_by self.new.calls ≡ made_by self.old.calls
            ++ (if nat_le self.old.desk.places (length self.old.desk.requests) then []
            else logged self.old.number (Submit request) (with_fault result (λ e. e.0))) }
        ensures full { self.old.desk.places ≤ length self.old.desk.requests
            → IsErrAnd result (λ e. e.0 ≡ work_faults.Full) }
        ensures back { IfErr result (λ e. (e.1 ≡ request) × (e.2 ≡ callback) × (self.new.desk ≡ self.old.desk)) }
        ensures client { (self.new.number ≡ self.old.number) × (self.new.stranded ≡ self.old.stranded) }
    {
        if self.desk.is_full() {
            return Err((SubmitFault::Full, request, callback));
        }
        let LockedClient {
            port,
            number,
            desk,
            calls,
            ..
        } = self;
        let answer = port.inside.lock(rt).submit(*number, request, calls);
        port.sleepers.wake_workers();
        match answer {
            Ok(accepted) => match desk.hold(callback) {
                Ok(()) => Ok(accepted),
                Err(_) => unreachable!(),
            },
            Err((fault, request)) => Err((fault, request, callback)),
        }
    }

    /// Asks for a discovery, and returns its number. The callback is held until it is called with the discovery's
    /// completion.
    /// Err: Full if the desk can't hold the callback, before all other faults; such a call has no entry, and isn't
    /// counted. Otherwise as [`Inside::discover`](crate::Inside::discover) returns. The callback is returned.
    pub fn discover<R: Wait>(
        &mut self,
        rt: &R,
        kind: Kind,
        callback: A,
    ) -> Result<u64, (AskFault, A)>
        ensures held { OnOk result
            (self.new.desk ≡ record self.old.desk { asks = self.old.desk.asks ++ callback ∷ [] }) }
        ensures accepted { OnOk result (self.new.calls.count ≡ self.old.calls.count + 1) }
        ensures refused { IfErr result (λ e. self.new.calls.count ≡ self.old.calls.count
            + (if nat_le 4 (length self.old.desk.asks) then 0 else refused_calls e.0)) }
        ensures made { made_by self.new.calls ≡ made_by self.old.calls
            ++ (if nat_le 4 (length self.old.desk.asks) then []
            else logged self.old.number (Discover kind) (number_or_fault result)) }
        ensures full { 4 ≤ length self.old.desk.asks → IsErrAnd result (λ e. e.0 ≡ work_faults.Full) }
        ensures back { IfErr result (λ e. (e.1 ≡ callback) × (self.new.desk ≡ self.old.desk)) }
        ensures client { (self.new.number ≡ self.old.number) × (self.new.stranded ≡ self.old.stranded) }
    {
        if self.desk.is_full_of_asks() {
            return Err((AskFault::Full, callback));
        }
        let LockedClient {
            port,
            number,
            desk,
            calls,
            ..
        } = self;
        let answer = port.inside.lock(rt).discover(*number, kind, calls);
        port.sleepers.wake_workers();
        match answer {
            Ok(accepted) => match desk.hold_ask(callback) {
                Ok(()) => Ok(accepted),
                Err(_) => unreachable!(),
            },
            Err(fault) => Err((fault, callback)),
        }
    }

    /// The kind of the client's oldest uncollected outcome, as [`Inside::oldest`](crate::Inside::oldest) says. None:
    /// there is none.
    pub fn oldest<R: Wait>(&self, rt: &R) -> Option<OutcomeKind> {
        self.port.inside.lock(rt).oldest(self.number)
    }

    /// Collects the client's oldest outcome: the oldest callback of its kind is called with its completion, after the
    /// mutex is released.
    /// None: there is no outcome, it is a discovery's and all four sets are in use, or no callback is held for it;
    /// nothing changes. In the last case this call, `collect_request` and `collect_discovery` return None from then on,
    /// and the outcome stays in the session.
    pub fn collect<R: Wait>(&mut self, rt: &R) -> Option<Collected>
        ensures collected { IfSome result (λ told.
            Collects C.calls C.tag_of A.calls A.tag_of self.old.desk told self.new.desk) }
        ensures counted { OnSome result (self.new.calls.count ≡ self.old.calls.count + 1) }
        ensures made { IfSome result (λ told.
            GotTold self.old.number told (made_by self.old.calls) (made_by self.new.calls)) }
        ensures none { IfNone result ((self.new.desk ≡ self.old.desk) × (self.new.calls.count ≡ self.old.calls.count)
            × (made_by self.new.calls ≡ made_by self.old.calls)) }
        ensures for_good { self.old.stranded ≡ true → IsNone result × (self.new.stranded ≡ true) }
        // That happens only if no callback of one kind is held.
        ensures strands { self.old.stranded ≡ false → self.new.stranded ≡ true
            → (length self.old.desk.requests ≡ 0) ⊎ (length self.old.desk.asks ≡ 0) }
        ensures client { self.new.number ≡ self.old.number }
    {
        self.collect_wanted(rt, None)
    }

    /// Collects the client's oldest outcome if that is a request's, as [`collect`](LockedClient::collect) does.
    /// None: there is no outcome, it is a discovery's, or no callback is held for it; nothing changes. In the last
    /// case this call, `collect` and `collect_discovery` return None from then on.
    pub fn collect_request<R: Wait>(&mut self, rt: &R) -> Option<Told>
        ensures collected { IfSome result (λ told.
            CollectsRequest C.calls C.tag_of self.old.desk told self.new.desk) }
        ensures counted { OnSome result (self.new.calls.count ≡ self.old.calls.count + 1) }
        ensures made { IfSome result (λ told.
            GotTold self.old.number (collected.Request told) (made_by self.old.calls) (made_by self.new.calls)) }
        ensures none { IfNone result ((self.new.desk ≡ self.old.desk) × (self.new.calls.count ≡ self.old.calls.count)
            × (made_by self.new.calls ≡ made_by self.old.calls)) }
        ensures for_good { self.old.stranded ≡ true → IsNone result × (self.new.stranded ≡ true) }
        ensures strands { self.old.stranded ≡ false → self.new.stranded ≡ true → length self.old.desk.requests ≡ 0 }
        ensures client { self.new.number ≡ self.old.number }
    {
        match self.collect_wanted(rt, Some(OutcomeKind::Request))? {
            Collected::Request(told) => Some(told),
            Collected::Ask(_) => unreachable!(),
        }
    }

    /// Collects the client's oldest outcome if that is a discovery's, as [`collect`](LockedClient::collect) does. It
    /// copies no device: a box of the client's is exchanged for the one that has them.
    /// None: there is no outcome, it is a request's, all four sets are in use, or no callback is held for it; nothing
    /// changes. In the last case this call, `collect` and `collect_request` return None from then on.
    pub fn collect_discovery<R: Wait>(&mut self, rt: &R) -> Option<AskTold>
        ensures collected { IfSome result (λ told.
            CollectsDiscovery A.calls A.tag_of self.old.desk told self.new.desk) }
        ensures counted { OnSome result (self.new.calls.count ≡ self.old.calls.count + 1) }
        ensures made { IfSome result (λ told.
            GotTold self.old.number (collected.Ask told) (made_by self.old.calls) (made_by self.new.calls)) }
        ensures none { IfNone result ((self.new.desk ≡ self.old.desk) × (self.new.calls.count ≡ self.old.calls.count)
            × (made_by self.new.calls ≡ made_by self.old.calls)) }
        ensures for_good { self.old.stranded ≡ true → IsNone result × (self.new.stranded ≡ true) }
        ensures strands { self.old.stranded ≡ false → self.new.stranded ≡ true → length self.old.desk.asks ≡ 0 }
        ensures client { self.new.number ≡ self.old.number }
    {
        match self.collect_wanted(rt, Some(OutcomeKind::Discovery))? {
            Collected::Ask(told) => Some(told),
            Collected::Request(_) => unreachable!(),
        }
    }

    // Collects the client's oldest outcome if it is of the wanted kind, or of either if none is given, as `collect`
    // does.
    fn collect_wanted<R: Wait>(&mut self, rt: &R, wanted: Option<OutcomeKind>) -> Option<Collected>
        ensures collected { IfSome result (λ told.
            Collects C.calls C.tag_of A.calls A.tag_of self.old.desk told self.new.desk) }
        ensures wanted { IfSome result (λ told. IsOfWanted wanted told) }
        ensures counted { OnSome result (self.new.calls.count ≡ self.old.calls.count + 1) }
        ensures made { IfSome result (λ told.
            GotTold self.old.number told (made_by self.old.calls) (made_by self.new.calls)) }
        ensures none { IfNone result ((self.new.desk ≡ self.old.desk) × (self.new.calls.count ≡ self.old.calls.count)
            × (made_by self.new.calls ≡ made_by self.old.calls)) }
        ensures for_good { self.old.stranded ≡ true → IsNone result × (self.new.stranded ≡ true) }
        ensures strands { self.old.stranded ≡ false → self.new.stranded ≡ true
            → ((wanted ≢ Some kinds.Discovery) × (length self.old.desk.requests ≡ 0))
            ⊎ ((wanted ≢ Some kinds.Request) × (length self.old.desk.asks ≡ 0)) }
        ensures client { self.new.number ≡ self.old.number }
    {
        if self.stranded {
            return None;
        }
        let LockedClient {
            port,
            number,
            desk,
            calls,
            stranded,
            sets,
        } = self;
        let requests = wanted != Some(OutcomeKind::Discovery) && desk.requests_held() > 0;
        let asks = wanted != Some(OutcomeKind::Request) && desk.asks_held() > 0;
        let oldest = port
            .inside
            .lock(rt)
            .collect_oldest(*number, requests, asks, sets, calls);
        match oldest {
            OldestOutcome::Request(done) => match desk.settle_request(done) {
                Ok(told) => Some(Collected::Request(told)),
                Err(_) => unreachable!(),
            },
            OldestOutcome::Discovery(done) => Some(Collected::Ask(desk.settle_held_ask(done))),
            // If its kind was wanted, no callback is held for it.
            OldestOutcome::Stays(kind) => {
                *stranded = wanted.unwrap_or(kind) == kind;
                None
            }
            OldestOutcome::Nothing => None,
        }
    }

    /// The devices that the last run without fault found, and that run; none and 0 before the first.
    pub fn devices<R: Wait>(&self, rt: &R) -> DeviceView {
        self.port.inside.lock(rt).devices()
    }

    /// Leaves, and returns the callbacks that weren't called, and the client's share of the calls. What it has
    /// outstanding stays in the session.
    pub fn leave<R: Wait>(self, rt: &R) -> Left<L, C, A>
        ensures unspent { result.unspent ≡ record { requests = self.entry.desk.requests; asks = self.entry.desk.asks } }
        ensures calls { result.calls ≡ self.entry.calls }
    {
        let LockedClient {
            port,
            number: _,
            desk,
            calls,
            stranded: _,
            sets: _,
        } = self;
        port.inside.lock(rt).leave();
        port.sleepers.wake_workers();
        Left {
            unspent: desk.end(),
            calls,
        }
    }
}

/// Its calls wait for the mutex with the runtime.
impl<L: Ledger, C: Tells, A: TellsAsk, R: Wait> Client<C, A, R> for LockedClient<'_, L, C, A> {
    ghost held = { λ client. client.desk };

    ghost same = { λ old new. new.number ≡ old.number };

    ghost submits = { λ old request number new. IsSomeAnd number (λ n.
        made_by new.calls ≡ made_by old.calls ++ logged old.number (Submit request) (Ok n))
        × (new.calls.count ≡ old.calls.count + 1) × (new.stranded ≡ old.stranded) };

    ghost refuses_submit = { λ old request fault new. (session_fault : WorkFaultState)
        × (fault ≡ of_session session_fault) × (made_by new.calls ≡ made_by old.calls
        ++ (if nat_le old.desk.places (length old.desk.requests) then []
        else logged old.number (Submit request) (Err session_fault)))
        × (new.calls.count ≡ old.calls.count
        + (if nat_le old.desk.places (length old.desk.requests) then 0 else refused_calls session_fault))
        × (new.stranded ≡ old.stranded) };

    ghost discovers = { λ old kind number new. IsSomeAnd number (λ n.
        made_by new.calls ≡ made_by old.calls ++ logged old.number (Discover kind) (Ok n))
        × (new.calls.count ≡ old.calls.count + 1) × (new.stranded ≡ old.stranded) };

    ghost refuses_discover = { λ old kind fault new. (session_fault : WorkFaultState)
        × (fault ≡ of_session session_fault) × (made_by new.calls ≡ made_by old.calls
        ++ (if nat_le 4 (length old.desk.asks) then [] else logged old.number (Discover kind) (Err session_fault)))
        × (new.calls.count ≡ old.calls.count
        + (if nat_le 4 (length old.desk.asks) then 0 else refused_calls session_fault))
        × (new.stranded ≡ old.stranded) };

    ghost collects = { λ old collected new. MatchOption collected
        ((new.calls.count ≡ old.calls.count) × (made_by new.calls ≡ made_by old.calls))
        (λ told. (new.calls.count ≡ old.calls.count + 1)
        × GotTold old.number told (made_by old.calls) (made_by new.calls)) };

    fn submit(
        &mut self,
        rt: &R,
        request: Request,
        callback: C,
    ) -> Result<Option<u64>, (CallFault, Request, C)> {
        match LockedClient::submit(self, rt, request, callback) {
            Ok(number) => Ok(Some(number)),
            Err((fault, request, callback)) => Err((CallFault::from(fault), request, callback)),
        }
    }

    fn discover(&mut self, rt: &R, kind: Kind, callback: A) -> Result<Option<u64>, (CallFault, A)> {
        match LockedClient::discover(self, rt, kind, callback) {
            Ok(number) => Ok(Some(number)),
            Err((fault, callback)) => Err((CallFault::from(fault), callback)),
        }
    }

    fn collect(&mut self, rt: &R) -> Option<Collected> {
        LockedClient::collect(self, rt)
    }

    fn collect_request(&mut self, rt: &R) -> Option<Told> {
        LockedClient::collect_request(self, rt)
    }

    ghost stays = { λ a. refl };

    ghost follows = { λ a b c before after. after ∙ before };
}
