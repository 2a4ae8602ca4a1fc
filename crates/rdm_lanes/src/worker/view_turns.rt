//! What the worker does in its turns. After each exchange that ends a run without fault it publishes a view of the
//! devices. Only then does it move that run's outcomes to the clients' rings.
ghost use Rattle.std.specs.Prelude.{◌≡◌, ◌≢◌, ◌<◌, ◌≤◌, ◌+◌, ◌-◌, ◌^◌, true, false};
ghost use mathlib.Core.List.{IsPrefix};
ghost use Rattle.rtrb.specs.Ring.{SameConsumer};
ghost use Rattle.rdm_log.specs.log.LogState.{is_full_log};
ghost use Rattle.rdm_log.specs.log.MaySend.{NoSend};
ghost use Rattle.rdm_lanes.specs.Lines.{Exchanged, SameSwitches, exchange_count};
ghost use Rattle.rdm_lanes.specs.Lanes.{SameLanes, AllHaveLeft};
ghost use Rattle.rdm_lanes.specs.Views.{all_views};
ghost use Rattle.rdm_lanes.specs.body.Showing.{Publishes, AllPublished};
ghost use Rattle.rdm_lanes.specs.Operators.{switches, effective};
ghost use Rattle.rdm_lanes.specs.Workers.{session_of, lanes_of, operator_has_left, published_by, HasPublishedAll};
ghost use Rattle.rdm_lanes.specs.Workers.{operator_ring, received_by, turns_made_of};
ghost use Rattle.rdm_lanes.specs.Turns.{AreTurns};
ghost use Rattle.rdm_lanes.specs.body.Steps.{CallsAndAttempts, EndsTurn, MovesAll, PublishesNext, Turned};
ghost use Rattle.rdm_client.specs.declared.worker_end.WorkerEnd.TheVariants.{AllLeft, Turns, LogFull as FullLog};

use crate::views::history::ViewHistory;
use crate::views::publishing::{Publisher, Shown};
use crate::worker::comparing::shows_legal;
use crate::worker::view_worker::ViewWorker;
use crate::worker::working::Attempt;
use rdm_client::WorkerEnd;
use rdm_line::Line;
use rdm_queue::Session;
use std::alloc::Global;
use std::sync::Wait;

impl<J: ViewHistory, R: Wait + Drop> ViewWorker<J, Shown<J>, R> {
    /// Works for this many turns at most. In one turn it does these, in order:
    /// - it publishes a view whose publication failed before;
    /// - it takes at most one call from each client's ring, in the clients' order, and then one from the operator's;
    /// - it makes at most one exchange, and publishes the devices that it found;
    /// - it moves outcomes to the clients' rings, while they have free slots.
    ///
    /// It stops early once all have left, or once the log is full. If it ends with Turns, it made all its turns. In
    /// each it made an exchange, or no frame may be sent after it, or a view isn't published yet.
    ///
    /// It looks at a call before it takes it from a ring. While fewer than three entries of the log are free, it takes
    /// none. A submit waits until its client has fewer requests outstanding in the session than its queue depth. A
    /// discover waits until its client has fewer than four discoveries outstanding. After a close a client's call waits
    /// until that client's earlier outcomes are on its ring, and a slot is free. Then it is refused, and its outcome is
    /// put there at once: status FailedToSend, or Aborted and run 0, and no number.
    ///
    /// It allocates memory for these:
    /// - joined data;
    /// - the set of each discovery's outcome, which waits while the allocation fails;
    /// - each view.
    ///
    /// It waits for reads that are under way when it publishes.
    ///
    /// A publication that fails changes nothing, and is tried again in the next turn. Until it is made, no call is
    /// taken, no exchange is made and no outcome is moved. Nor does the work end because all have left.
    #[tactic(auto, using(crate::proofs::WorkLemmas::view_steps_join, crate::proofs::ExchangeLemmas::exchanged_join))]
    pub fn work<X: Line>(&mut self, alloc: Global, line: &mut X, turns: u64) -> WorkerEnd
        ensures exchanged { Exchanged X.step line.old (session_of self.old) line.new (session_of self.new) }
        ensures lanes { SameLanes (lanes_of self.old) (lanes_of self.new) }
        ensures turns { (turns_made_of self.new ≤ turns) × (turns ≡ 0 → result ≡ Turns) }
        ensures all_turns { result ≡ Turns → turns_made_of self.new ≡ turns }
        ensures worked { result ≡ Turns → AreTurns turns (session_of self.old) (published_by self.old)
            (session_of self.new) (published_by self.new) }
        ensures exchanges { exchange_count (session_of self.new)
            ≤ exchange_count (session_of self.old) + turns_made_of self.new }
        ensures all_left { result ≡ AllLeft → AllHaveLeft (lanes_of self.new) × (operator_has_left self.new ≡ true)
            × NoSend (session_of self.new).opening (session_of self.new).entries }
        ensures published { result ≢ Turns → HasPublishedAll self.new }
        ensures views { IsPrefix (published_by self.old) (published_by self.new) }
        ensures full { result ≡ FullLog → is_full_log (session_of self.new) ≡ true }
        ensures operator { operator_has_left self.old ≡ true → (operator_has_left self.new ≡ true)
            × SameSwitches (session_of self.old) (session_of self.new) }
        ensures operated { switches (session_of self.new).entries ≡ effective (received_by self.new) }
        ensures ring { SameConsumer (operator_ring self.old) (operator_ring self.new) }
    {
        self.turns_made = 0;
        for _turn in 0..turns {
            if let Some(end) = self.turn(alloc, line) {
                return end;
            }
        }
        WorkerEnd::Turns
    }

    /// Works as [`work`](ViewWorker::work) does, but sleeps after a turn in which it had nothing to do, until a client
    /// or the operator calls, or a client collects. So clients have to be in other threads, since nobody else wakes it.
    #[tactic(auto, using(crate::proofs::WorkLemmas::view_steps_join, crate::proofs::ExchangeLemmas::exchanged_join))]
    pub fn work_or_sleep<X: Line, W: Wait>(
        &mut self,
        rt: &W,
        alloc: Global,
        line: &mut X,
        turns: u64,
    ) -> WorkerEnd
        ensures exchanged { Exchanged X.step line.old (session_of self.old) line.new (session_of self.new) }
        ensures lanes { SameLanes (lanes_of self.old) (lanes_of self.new) }
        ensures turns { (turns_made_of self.new ≤ turns) × (turns ≡ 0 → result ≡ Turns) }
        ensures all_turns { result ≡ Turns → turns_made_of self.new ≡ turns }
        ensures worked { result ≡ Turns → AreTurns turns (session_of self.old) (published_by self.old)
            (session_of self.new) (published_by self.new) }
        ensures exchanges { exchange_count (session_of self.new)
            ≤ exchange_count (session_of self.old) + turns_made_of self.new }
        ensures all_left { result ≡ AllLeft → AllHaveLeft (lanes_of self.new) × (operator_has_left self.new ≡ true)
            × NoSend (session_of self.new).opening (session_of self.new).entries }
        ensures published { result ≢ Turns → HasPublishedAll self.new }
        ensures views { IsPrefix (published_by self.old) (published_by self.new) }
        ensures full { result ≡ FullLog → is_full_log (session_of self.new) ≡ true }
        ensures operator { operator_has_left self.old ≡ true → (operator_has_left self.new ≡ true)
            × SameSwitches (session_of self.old) (session_of self.new) }
        ensures operated { switches (session_of self.new).entries ≡ effective (received_by self.new) }
        ensures ring { SameConsumer (operator_ring self.old) (operator_ring self.new) }
    {
        self.turns_made = 0;
        self.serve_sleepers(true);
        for _turn in 0u64..turns {
            let logged = self.server.session.log().len_in_all();
            if let Some(end) = self.turn(alloc, line) {
                self.serve_sleepers(false);
                return end;
            }
            self.rest(rt, logged);
        }
        self.serve_sleepers(false);
        WorkerEnd::Turns
    }

    // One turn, which is counted first. Some: the worker stops.
    pub(crate) fn turn<X: Line>(&mut self, alloc: Global, line: &mut X) -> Option<WorkerEnd>
        requires few { self.old.turns_made < 2 ^ 64 - 1 }
        ensures { EndsTurn X.step line.old self.old line.new self.new result }
    {
        self.turns_made += 1;
        match self.serve_all(alloc, line) {
            None => None,
            Some(Attempt::Exchanged) => None,
            Some(Attempt::NothingToSend) if self.server.have_all_left() => Some(WorkerEnd::AllLeft),
            Some(Attempt::NothingToSend) => None,
            Some(Attempt::LogFull) => Some(WorkerEnd::LogFull),
        }
    }

    // All that is done in a turn, and what its attempt at an exchange came to. None: a publication failed, and nothing
    // was done after that. A view whose publication failed before comes first. A call that is taken after a close puts
    // its outcome on the ring at once.
    fn serve_all<X: Line>(&mut self, alloc: Global, line: &mut X) -> Option<Attempt>
        ensures { Turned X.step line.old self.old line.new self.new result }
    {
        if !self.publish(alloc) {
            return None;
        }
        let attempt = self.serve_and_exchange(alloc, line);
        if !self.publish(alloc) {
            return None;
        }
        self.move_all(alloc);
        shows_legal(&self.server.session);
        Some(attempt)
    }

    // Publishes what isn't published yet, and returns whether all is published.
    fn publish(&mut self, alloc: Global) -> bool
        ensures { PublishesNext self.old result self.new }
    {
        let ViewWorker { server, views, .. } = self;
        publish_next(alloc, &server.session, views)
    }

    // Makes at most one call of each client and of the operator. Then it makes an exchange with the line, if there is a
    // frame to send. What that found isn't published yet.
    fn serve_and_exchange<X: Line>(&mut self, alloc: Global, line: &mut X) -> Attempt
        requires { AllPublished self.old.server.session self.old.views }
        ensures { CallsAndAttempts X.step line.old self.old line.new self.new result }
    {
        self.server.serve_clients(alloc);
        self.server.serve_operator();
        self.server.exchange(alloc, line)
    }

    // Moves the outcomes of each client, once all views are published.
    fn move_all(&mut self, alloc: Global)
        requires { AllPublished self.old.server.session self.old.views }
        ensures { MovesAll self.old self.new }
    {
        self.server.move_all(alloc);
    }

    /// The same worker, whose operator has left.
    pub(crate) fn without_operator(self) -> ViewWorker<J, Shown<J>, R>
        ensures same { (result.server.session ≡ self.server.session) × (result.server.lanes ≡ self.server.lanes) }
        ensures left { result.server.operator_left ≡ true }
        ensures views { result.views ≡ self.views }
    {
        let mut worker = self;
        worker.server.operator_left = true;
        worker
    }
}

// Adds the missing view, if there is one, and publishes the last one. It returns whether all are published.
#[tactic(auto, using(crate::proofs::ShowingLemmas::publishes_still, crate::proofs::ShowingLemmas::publishes_shown, crate::proofs::ShowingLemmas::all_published))]
fn publish_next<J: ViewHistory, R: Wait + Drop>(
    alloc: Global,
    session: &Session,
    views: &mut Publisher<J, Shown<J>, R>,
) -> bool
    requires publishes { Publishes session.now views.old }
    ensures made { result ≡ true → AllPublished session.now views.new }
    ensures refused { result ≡ false → views.new.shown ≡ views.old.shown }
    ensures lacks { result ≡ false → views.new.shown ≢ all_views session.now.entries }
    ensures publishes { Publishes session.now views.new }
{
    if !add_next(alloc, session, views) {
        return false;
    }
    if !views.show() {
        return false;
    }
    true
}

// Adds the missing view, if there is one, and returns whether all views are added.
#[tactic(auto, using(crate::proofs::ShowingLemmas::publishes_still, crate::proofs::ShowingLemmas::publishes_next, crate::proofs::ShowingLemmas::added_all, crate::proofs::ShowingLemmas::added_next))]
fn add_next<J: ViewHistory, R: Wait + Drop>(
    alloc: Global,
    session: &Session,
    views: &mut Publisher<J, Shown<J>, R>,
) -> bool
    requires publishes { Publishes session.now views.old }
    ensures added { result ≡ true → views.new.added ≡ all_views session.now.entries }
    ensures lacks { result ≡ false → views.new.shown ≢ all_views session.now.entries }
    ensures shown { views.new.shown ≡ views.old.shown }
    ensures publishes { Publishes session.now views.new }
{
    let run = session.devices_run();
    if run <= views.run() {
        return true;
    }
    if !views.add(alloc, run, session.devices()) {
        return false;
    }
    true
}
