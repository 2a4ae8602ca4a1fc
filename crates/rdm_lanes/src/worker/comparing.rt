//! How both ends of each client's rings are compared.
ghost use Rattle.std.specs.Prelude.{◌≡◌, ◌++◌, true};
ghost use mathlib.Core.List.{IsPrefix};
ghost use Rattle.rtrb.specs.Ring.{sent as pushed, received as popped, known_items, IsPair};
ghost use Rattle.rdm_log.specs.log.Legal.{Legal};
ghost use Rattle.rdm_log.specs.promises.Promised.{Promised};
ghost use Rattle.rdm_lanes.specs.Lines.{IsBetweenTurns};
ghost use Rattle.rdm_lanes.specs.Lanes.{AllFit, AllHaveLeft};
ghost use Rattle.rdm_lanes.specs.Pairs.{ArePair};
ghost use Rattle.rdm_lanes.specs.Ends.{end_rings, left_in, PairUp, AllAgree, AllRead, AllShowSame, ShowsSame};

use crate::client::ends::ClientEnd;
use crate::views::history::ViewHistory;
use crate::worker::Worker;
use crate::worker::lane::Lane;
use crate::worker::operator::Operator;
use rdm_client::{Tells, TellsAsk};
use rdm_queue::Session;

impl Worker {
    // Compares both ends of each client's rings, as a worker does at its end.
    pub(crate) fn compared<J: ViewHistory, C: Tells, A: TellsAsk>(
        self,
        ends: Vec<ClientEnd<J, C, A>>,
    ) -> (Session, Vec<ClientEnd<J, C, A>>, bool)
        requires pairs { PairUp self.lanes.items ends.items }
        ensures log { result.0 ≡ self.session }
        ensures fits { AllFit self.session self.lanes.items }
        ensures served { IsBetweenTurns self.session }
        ensures legal { Legal self.session.opening self.session.entries }
        ensures promised { Promised self.session }
        ensures agree { AllAgree self.session result.1.items }
        ensures read { AllHaveLeft self.lanes.items → AllRead result.1.items }
        ensures show_same { AllShowSame ends.items result.1.items }
        ensures matched { result.2 ≡ true }
    {
        let Worker { session, lanes, .. } = self;
        let mut lanes = lanes;
        let mut ends = ends;
        for at in 0..lanes.len() {
            compare(&mut lanes[at], &mut ends[at]);
        }
        shows_legal(&session);
        (session, ends, true)
    }

    // Compares both ends of the operator's ring.
    pub(crate) fn compare_operator(&mut self, operator: &mut Operator)
        requires pair { IsPair operator.old.calls self.old.operator }
        ensures sent { IsPrefix (popped self.new.operator) (pushed operator.new.calls) }
        ensures received { popped self.new.operator ≡ popped self.old.operator }
        ensures called { (pushed operator.new.calls ≡ pushed operator.old.calls)
            × (operator.new.left ≡ operator.old.left) }
        ensures session { (self.new.session ≡ self.old.session) × (self.new.lanes ≡ self.old.lanes) }
        ensures operator { self.new.operator_left ≡ self.old.operator_left }
        ensures pairs { IsPair operator.new.calls self.new.operator }
    {
        self.operator.slots_beside(&mut operator.calls);
    }
}

// Compares both ends of a client's rings.
fn compare<J: ViewHistory, C: Tells, A: TellsAsk>(lane: &mut Lane, end: &mut ClientEnd<J, C, A>)
    requires { ArePair (end_rings end.old) lane.old }
    ensures calls { pushed end.new.calls ≡ popped lane.old.calls ++ left_in end.new.calls }
    ensures replies { popped end.new.replies ++ known_items end.new.replies ≡ pushed lane.old.replies }
    ensures show_same { ShowsSame end.old end.new }
    ensures left { lane.new.left ≡ lane.old.left }
{
    lane.calls.slots_beside(&mut end.calls);
    end.replies.slots_beside(&mut lane.replies);
    end.calls.slots_beside(&mut lane.calls);
}

/// Only for the proof: this session's log is legal, and keeps all that clients are promised.
pub fn shows_legal(session: &Session)
    ensures legal { Legal session.now.opening session.now.entries }
    ensures promised { Promised session.now }
{
    session.log();
}
