//! How the worker moves outcomes to a client's ring.
ghost use Rattle.std.specs.Prelude.{◌≡◌, Some};
ghost use Rattle.rdm_log.specs.declared.outcome.OutcomeKind.TheVariants as kinds;
ghost use Rattle.rdm_log.specs.promises.Outcomes.{oldest_kind};
ghost use Rattle.rdm_lanes.specs.Lines.{IsBetweenTurns};
ghost use Rattle.rdm_lanes.specs.Lanes.{LaneFits};
ghost use Rattle.rdm_lanes.specs.body.Doing.{DoesFor, IsMoved, MayMoveOne, MovesOne};
ghost use Rattle.rdm_lanes.specs.body.Quiet.{OnlyCollects};

use crate::ring_outcome::RingOutcome;
use crate::worker::lane::Lane;
use rdm_client::BoxedAsk;
use rdm_log::ClientId;
use rdm_queue::{Oldest, Session};
use rdm_wire::DeviceSet;
use std::alloc::Global;

/// Moves a client's outcomes to its ring, oldest first, until there is none, or no slot is free. If an allocation for
/// the set of a discovery fails, that outcome waits.
#[tactic(auto, using(crate::proofs::MovingLemmas::moves_same))]
pub fn move_outcomes(alloc: Global, session: &mut Session, client: ClientId, lane: &mut Lane)
    requires fits { LaneFits client.0 session.old lane.old }
    requires served { IsBetweenTurns session.old }
    ensures { DoesFor OnlyCollects IsMoved client.0 session.old lane.old session.new lane.new }
{
    if session.oldest(client).is_none() {
        return;
    }
    lane.replies.slots();
    while lane.replies.cached_slots() > 0 {
        if !move_outcome(alloc, session, client, lane) {
            return;
        }
    }
}

// Moves the client's oldest outcome, and says whether it did.
#[tactic(auto, using(crate::proofs::MovingLemmas::moves_nothing))]
fn move_outcome(alloc: Global, session: &mut Session, client: ClientId, lane: &mut Lane) -> bool
    requires { MayMoveOne client.0 session.old lane.old }
    ensures { MovesOne client.0 session.old lane.old result session.new lane.new }
{
    match session.oldest(client) {
        None => false,
        Some(Oldest::Request { .. }) => move_completion(session, client, lane),
        Some(Oldest::Discovery { .. }) => move_discovery(alloc, session, client, lane),
    }
}

// Moves a request's outcome. No device set is moved with it.
#[tactic(auto, using(crate::proofs::MovingLemmas::moves_nothing))]
fn move_completion(session: &mut Session, client: ClientId, lane: &mut Lane) -> bool
    requires { MayMoveOne client.0 session.old lane.old }
    ensures { MovesOne client.0 session.old lane.old result session.new lane.new }
{
    let Some((number, done)) = session.next_completion(client) else {
        return false;
    };
    lane.requests -= 1;
    lane.replies.push_reserved(RingOutcome::Request {
        number: Some(number),
        done,
    });
    lane.sleep.wake();
    true
}

// Moves a discovery's outcome. A box, which is allocated first, is exchanged for the one with its set. It isn't
// inlined, so that a turn without a discovery has no set in its frame.
#[inline(never)]
#[tactic(auto, using(crate::proofs::MovingLemmas::moves_nothing))]
fn move_discovery(alloc: Global, session: &mut Session, client: ClientId, lane: &mut Lane) -> bool
    requires may { MayMoveOne client.0 session.old lane.old }
    requires oldest { oldest_kind session.old.opening session.old.entries client.0 ≡ Some kinds.Discovery }
    ensures { MovesOne client.0 session.old lane.old result session.new lane.new }
{
    let Ok(mut set) = Box::new(alloc, DeviceSet::new()) else {
        return false;
    };
    let Some(end) = session.next_discovery(client, &mut set) else {
        return false;
    };
    let done = BoxedAsk::new(end.run, end.fault, Some(set));
    lane.asks -= 1;
    lane.replies.push_reserved(RingOutcome::Discovery {
        number: Some(end.number),
        done,
    });
    lane.sleep.wake();
    true
}
