//! How an outcome calls a callback.
ghost use Rattle.std.specs.Prelude.{◌≡◌, Bool, true, Some};
ghost use Rattle.rdm_client.specs.Desks.{settled, without_oldest, Called};
ghost use Rattle.rdm_lanes.specs.Told.{outcome_in};
ghost use Rattle.rdm_lanes.specs.body.Holding.{HoldsFor, IsWanted};

use crate::ring_outcome::RingOutcome;
use rdm_client::{Collected, Desk, Tells, TellsAsk};

/// Calls the oldest callback of the outcome's kind with it.
pub fn settle<C: Tells, A: TellsAsk>(desk: &mut Desk<C, A>, item: RingOutcome) -> Collected
    requires { HoldsFor true desk.old item }
    ensures called { Called C.calls A.calls desk.old (outcome_in item) result }
    ensures told { settled C.tag_of A.tag_of desk.old (outcome_in item) ≡ Some result }
    ensures removed { desk.new ≡ without_oldest desk.old (outcome_in item) }
    ensures kind { (asks : Bool) → HoldsFor asks desk.old item → IsWanted asks result }
{
    match item {
        RingOutcome::Request { number: _, done } => match desk.settle_request(done) {
            Ok(told) => Collected::Request(told),
            Err(_) => unreachable!(),
        },
        RingOutcome::Discovery { number: _, done } => Collected::Ask(desk.settle_held_ask(done)),
    }
}
