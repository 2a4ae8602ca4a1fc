//! How the worker makes a client's calls.
ghost use Rattle.std.specs.Prelude.{◌≡◌, MatchOption, slice_get, ⊤, true, false, length, ◌<◌, Some, IfSome, IfNone};
ghost use Rattle.rdm_lanes.specs.declared.call.ClientCall.TheVariants.{Leave};
ghost use Rattle.rtrb.specs.Ring.{known_items};
ghost use Rattle.rdm_log.specs.log.History.{places};
ghost use Rattle.rdm_lanes.specs.body.Doing.{DoesFor, IsServed, MayNotMakeNext};
ghost use Rattle.rdm_lanes.specs.body.Quiet.{NoExchange};
ghost use Rattle.rdm_lanes.specs.Lines.{IsBetweenTurns};
ghost use Rattle.rdm_lanes.specs.Lanes.{LaneFits, SameLane};
ghost use Rattle.rdm_lanes.specs.body.Serving.{IsReadyFor, StepsFor, HasRefusalSlot, MayMake, LooksForSlot};
ghost use Rattle.rdm_lanes.specs.body.Serving.{AfterAnswer, FitsAnswer, bringing, kind_of_work, refused_value};
ghost use Rattle.rdm_lanes.specs.Told.{value_in};

use crate::call::ClientCall;
use crate::ring_outcome::RingOutcome;
use crate::worker::lane::Lane;
use rdm_agent::AgentFault;
use rdm_client::BoxedAsk;
use rdm_join::Status;
use rdm_log::{ClientId, Completion, MOST_DISCOVERIES, OutcomeKind, Work, WorkFault};
use rdm_queue::Session;
use std::alloc::Global;

/// Makes the oldest call of a client's ring, if it has one that may be made now.
#[tactic(auto, using(crate::proofs::LineLemmas::line_same))]
pub fn serve_call(alloc: Global, session: &mut Session, client: ClientId, lane: &mut Lane)
    requires known { slice_get (places session.old.opening session.old.entries) client.0 ≡ Some lane.old.places }
    requires fits { LaneFits client.0 session.old lane.old }
    requires served { IsBetweenTurns session.old }
    ensures { DoesFor NoExchange IsServed client.0 session.old lane.old session.new lane.new }
{
    if lane.calls.slots() == 0 || session.is_full() {
        return;
    }
    if !may_make(session, client, lane) {
        return;
    }
    let Some(work) = work_of(lane.calls.pop_known()) else {
        lane.left = true;
        return;
    };
    make_work(alloc, session, client, lane, work);
}

// Whether the oldest call of the client's ring may be made. A submit waits until the client has fewer requests
// outstanding than its queue depth. A discover waits until the client has fewer than four discoveries outstanding.
// After a close both wait until all earlier outcomes are on the client's ring and a slot is free. Their own outcomes
// are put there at once. A leave never waits.
fn may_make(session: &Session, client: ClientId, lane: &mut Lane) -> bool
    requires { 0 < length (known_items lane.old.calls) }
    ensures may { result ≡ true → MatchOption (slice_get (known_items lane.new.calls) 0) ⊤
        (MayMake client.0 session.now lane.new) }
    ensures may_not { result ≡ false → MayNotMakeNext client.0 session.now lane.new }
    ensures lane { LooksForSlot lane.old lane.new }
{
    let closed = session.is_closed();
    let has_slot = has_refusal_slot(session, client, lane);
    match lane.calls.peek_known() {
        ClientCall::Leave => true,
        ClientCall::Submit(_) => if closed {
            has_slot
        } else {
            lane.requests < lane.places
        },
        ClientCall::Discover(_) => if closed {
            has_slot
        } else {
            lane.asks < MOST_DISCOVERIES
        },
    }
}

// Whether all outcomes of the client are on its ring, which has a free slot.
#[tactic(auto, using(rdm_log::proofs::PromiseLemmas::OutcomeLemmas::nothing_uncollected))]
fn has_refusal_slot(session: &Session, client: ClientId, lane: &mut Lane) -> bool
    ensures may { result ≡ true → HasRefusalSlot client.0 session.now lane.new }
    ensures may_not { result ≡ false → HasRefusalSlot client.0 session.now lane.new → ⊥ }
    ensures lane { LooksForSlot lane.old lane.new }
{
    lane.replies.slots() > 0 && session.oldest(client).is_none()
}

// The work that a call brings. None: it is a leave.
fn work_of(call: ClientCall) -> Option<Work>
    ensures work { IfSome result (λ work. call ≡ bringing work) }
    ensures leave { IfNone result (call ≡ Leave) }
{
    match call {
        ClientCall::Submit(request) => Some(Work::Submit(request)),
        ClientCall::Discover(kind) => Some(Work::Discover(kind)),
        ClientCall::Leave => None,
    }
}

// Makes the call that brings this work. If a close refuses it, its outcome is put on the ring at once.
fn make_work(alloc: Global, session: &mut Session, client: ClientId, lane: &mut Lane, work: Work)
    requires { IsReadyFor (bringing work) client.0 session.old lane.old }
    ensures step { StepsFor client.0 session.old lane.old session.new lane.new }
    ensures calls { lane.new.calls ≡ lane.old.calls }
{
    let kind = kind_of(&work);
    let answer = session.accept(client, work);
    apply_answer(alloc, lane, kind, answer);
}

// The kind of the outcome of this work.
fn kind_of(work: &Work) -> OutcomeKind
    ensures { result ≡ kind_of_work work.now }
{
    match work {
        Work::Submit(_) => OutcomeKind::Request,
        Work::Discover(_) => OutcomeKind::Discovery,
    }
}

// Counts accepted work, or puts the outcome of work that a close refused on the ring.
fn apply_answer(
    alloc: Global,
    lane: &mut Lane,
    kind: OutcomeKind,
    answer: Result<u64, (WorkFault, Work)>,
)
    requires { FitsAnswer kind lane.old answer }
    ensures after { AfterAnswer kind lane.old answer lane.new }
    ensures lane { SameLane lane.old lane.new }
    ensures calls { lane.new.calls ≡ lane.old.calls }
{
    match answer {
        Ok(_) => match kind {
            OutcomeKind::Request => lane.requests += 1,
            OutcomeKind::Discovery => lane.asks += 1,
        },
        Err((WorkFault::Closed, _)) => {
            lane.replies.push_reserved(refused(alloc, kind));
            lane.sleep.wake();
        }
        Err(_) => {}
    }
}

// The outcome of work that a close refused.
fn refused(alloc: Global, kind: OutcomeKind) -> RingOutcome
    ensures { value_in result ≡ refused_value kind }
{
    match kind {
        OutcomeKind::Request => RingOutcome::Request {
            number: None,
            done: Completion {
                status: Status::FailedToSend,
                reply: None,
                bytes: Vec::new(alloc),
            },
        },
        OutcomeKind::Discovery => RingOutcome::Discovery {
            number: None,
            done: BoxedAsk::new(0, Some(AgentFault::Aborted), None),
        },
    }
}
