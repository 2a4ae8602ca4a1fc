//! The worker, which has the session and one end of each ring.
ghost use Rattle.std.specs.Prelude.{◌≡◌, ◌≤◌, false, vec_len};
ghost use Rattle.rtrb.specs.Ring.{received as popped};
ghost use Rattle.rdm_lanes.specs.Lines.{IsBetweenTurns};
ghost use Rattle.rdm_lanes.specs.body.Operated.{IsOperated};
ghost use Rattle.rdm_lanes.specs.Lanes.{AllFit};

pub(crate) mod compared;
pub(crate) mod comparing;
pub(crate) mod draining;
pub(crate) mod lane;
pub(crate) mod moving;
pub(crate) mod operating;
pub(crate) mod operator;
mod resting;
pub(crate) mod serve;
pub(crate) mod view_turns;
pub(crate) mod view_worker;
pub(crate) mod working;

use crate::call::OperatorCall;
use crate::worker::lane::Lane;
use rdm_queue::Session;
use rtrb::Consumer;
use std::alloc::Global;

/// What makes the calls of the clients and of the operator and the exchanges with the line, and moves outcomes.
/// [`ViewWorker`](crate::ViewWorker) has it, and publishes views. It has the session. What it has received from each
/// client is that client's calls in the session's log. What it has sent to each client is that client's outcomes in the
/// log, except those not collected from the session yet. Nobody else has joined or called anything. The pauses, resumes
/// and closes in the log are those of the operator's calls that had an effect.
#[derive(Drop)]
pub struct Worker {
    session: Session,
    lanes: Vec<Lane>,
    operator: Consumer<OperatorCall, Global>,
    operator_left: bool,
    ghost few: { vec_len lanes ≤ 16 },
    ghost served: { IsBetweenTurns session },
    ghost fits: { AllFit session lanes.items },
    ghost operated: { IsOperated session (popped operator) },
}

impl Worker {
    // A worker of these lanes that hasn't made a turn.
    pub(crate) fn new(
        session: Session,
        lanes: Vec<Lane>,
        operator: Consumer<OperatorCall, Global>,
    ) -> Worker
        requires few { vec_len lanes ≤ 16 }
        requires served { IsBetweenTurns session }
        requires fits { AllFit session lanes.items }
        requires operated { IsOperated session (popped operator) }
        ensures holds { (result.session ≡ session) × (result.lanes ≡ lanes) }
        ensures operator { (result.operator ≡ operator) × (result.operator_left ≡ false) }
    {
        Worker {
            session,
            lanes,
            operator,
            operator_left: false,
        }
    }
}
