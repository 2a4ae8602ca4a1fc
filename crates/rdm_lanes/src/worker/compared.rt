//! How a worker ends, and what its clients have read.
ghost use Rattle.std.specs.Prelude.{◌≡◌, true};
ghost use Rattle.rdm_log.specs.log.Legal.{Legal};
ghost use Rattle.rdm_log.specs.promises.Promised.{Promised};
ghost use Rattle.rdm_lanes.specs.Lines.{IsBetweenTurns};
ghost use Rattle.rdm_lanes.specs.Lanes.{AllFit, AllHaveLeft};
ghost use mathlib.Core.List.{IsPrefix};
ghost use Rattle.rdm_lanes.specs.Operators.{switches, effective};
ghost use Rattle.rdm_lanes.specs.Workers.{session_of, lanes_of, published_by, operator_has_left};
ghost use Rattle.rdm_lanes.specs.Workers.{received_by, called_by, has_left, OperatorPairs};
ghost use Rattle.rdm_lanes.specs.Ends.{PairUp, AllAgree, AllRead, AllShowSame, AllHoldTheirOwn};
ghost use Rattle.rdm_lanes.specs.Views.{all_views};
ghost use Rattle.rdm_lanes.specs.Publishing.{IsPublished, BeginOne};
ghost use Rattle.rdm_lanes.specs.ViewsRead.{AllViewsRead, AllShownFirst};

use crate::client::ends::ClientEnd;
use crate::views::history::{Front, ViewHistory};
use crate::views::publishing::Shown;
use crate::worker::operator::Operator;
use crate::worker::view_worker::ViewWorker;
use rdm_client::{AskCallback, Callback, Tells, TellsAsk};
use rdm_queue::Session;
use std::sync::Wait;

/// What is left of a worker and its clients, once both ends of all rings were compared.
pub struct Compared<J: ViewHistory, C = Callback, A = AskCallback> {
    /// The session, with its log.
    pub session: Session,
    /// What is left of each client, in order.
    pub ends: Vec<ClientEnd<J, C, A>>,
    /// Whether all ends could be compared. It is always true.
    pub matched: bool,
    /// The views that were published. [`Front::len`] is their number; only contracts see the views themselves.
    pub published: Front<J>,
}

impl<J: ViewHistory, R: Wait + Drop> ViewWorker<J, Shown<J>, R> {
    /// Ends the worker, and compares both ends of each client's rings. The ends are those of the clients that were
    /// opened with this worker, in their order. Callers know this from the clauses of whatever has used the clients
    /// since then.
    ///
    /// The pauses, resumes and closes in the log are those of the operator's calls that had an effect, in order. The
    /// calls are those that the worker received.
    ///
    /// What each client sent is its calls in the log, in order, each once. After those comes what is left in its ring,
    /// which is nothing if its leave was received. The outcomes that the log has for a client come in three parts:
    /// those that it got, those left in its ring, and those still in the session. Nobody else has joined or called
    /// anything. The log is legal, and keeps what clients are promised.
    ///
    /// Each client still holds one callback of the right kind for each own call without an outcome.
    ///
    /// The published views are a prefix of the log's, and lack the last one at most. They and those that a client has
    /// read are prefixes of one list. If a client's run isn't later than that of the last published view, it has read a
    /// prefix of the published ones. No client has got an outcome without fault of a later run than that of the last
    /// published view.
    ///
    /// The flag says whether all ends could be compared. It is always true, since the ends are the worker's own. The
    /// call waits for reads that are under way.
    pub fn end<C: Tells, A: TellsAsk>(self, ends: Vec<ClientEnd<J, C, A>>) -> Compared<J, C, A>
        requires pairs { PairUp (lanes_of self) ends.items }
        ensures log { result.session ≡ session_of self }
        ensures fits { AllFit (session_of self) (lanes_of self) }
        ensures served { IsBetweenTurns (session_of self) }
        ensures legal { Legal (session_of self).opening (session_of self).entries }
        ensures operated { switches (session_of self).entries ≡ effective (received_by self) }
        ensures promised { Promised (session_of self) }
        ensures agree { AllAgree (session_of self) result.ends.items }
        ensures read { AllHaveLeft (lanes_of self) → AllRead result.ends.items }
        ensures show_same { AllShowSame ends.items result.ends.items }
        ensures unspent { AllHoldTheirOwn result.ends.items }
        ensures matched { result.matched ≡ true }
        ensures shown { result.published ≡ published_by self }
        ensures published { IsPublished (all_views (session_of self).entries) result.published }
        ensures views { AllViewsRead result.published result.ends.items }
        ensures shown_first { AllShownFirst result.published result.ends.items }
    {
        let ViewWorker { server, views, .. } = self;
        let (session, ends, matched) = server.compared(ends);
        compare_views(views.front(), ends.as_slice());
        Compared {
            session,
            ends,
            matched,
            published: views.front().again(),
        }
    }
}

impl<J: ViewHistory, R: Wait + Drop> ViewWorker<J, Shown<J>, R> {
    /// Compares both ends of the operator's ring. What the operator sent is what the worker received, in order, and
    /// then what is left in the ring. The operator is the one that was opened with this worker.
    pub fn compare_operator(&mut self, operator: &mut Operator)
        requires pair { OperatorPairs operator.old self.old }
        ensures sent { IsPrefix (received_by self.new) (called_by operator.new) }
        ensures received { received_by self.new ≡ received_by self.old }
        ensures called { (called_by operator.new ≡ called_by operator.old)
            × (has_left operator.new ≡ has_left operator.old) }
        ensures session { session_of self.new ≡ session_of self.old }
        ensures lanes { lanes_of self.new ≡ lanes_of self.old }
        ensures operator { operator_has_left self.new ≡ operator_has_left self.old }
        ensures published { published_by self.new ≡ published_by self.old }
        ensures pairs { OperatorPairs operator.new self.new }
    {
        let ViewWorker { server, .. } = self;
        server.compare_operator(operator);
    }
}

// Compares what each client has read with what was published.
fn compare_views<J: ViewHistory, C, A>(shown: &Front<J>, ends: &[ClientEnd<J, C, A>])
    ensures { AllViewsRead shown.now ends.now }
{
    for end in ends {
        begin_one(shown, end.views.front());
    }
}

// Both fronts are prefixes of one list.
#[tactic(auto, using(crate::proofs::ReadLemmas::begin_one_list))]
fn begin_one<J: ViewHistory>(shown: &Front<J>, read: &Front<J>)
    ensures { BeginOne shown.now read.now }
{
    shown.len();
    read.len();
    shown.longer(read);
}
