//! The worker and the bodies in threads.
ghost use Rattle.std.specs.Prelude.{◌≡◌, ◌≢◌, ◌+◌, ◌≤◌, true};
ghost use Rattle.rdm_log.specs.log.LogState.{is_full_log};
ghost use Rattle.rdm_log.specs.log.MaySend.{NoSend};
ghost use Rattle.rdm_client.specs.declared.worker_end.WorkerEnd.TheVariants.{AllLeft, Turns, LogFull as FullLog};
ghost use Rattle.rdm_lanes.specs.Lanes.{SameLanes, AllHaveLeft};
ghost use Rattle.rdm_lanes.specs.Lines.{Exchanged, SameSwitches, exchange_count};
ghost use Rattle.rdm_lanes.specs.Workers.{session_of, lanes_of, operator_has_left, turns_made_of, HasPublishedAll};
ghost use Rattle.rdm_lanes.specs.body.Seats.{SameSeats};

use crate::opening::seat::Seat;
use crate::session::body::{Body, Gate, WORKER_STOPPED};
use crate::views::history::ViewHistory;
use crate::views::publishing::Shown;
use crate::worker::operator::Operator;
use crate::worker::view_worker::ViewWorker;
use rdm_client::WorkerEnd;
use rdm_line::Line;
use rdm_log::MOST_CLIENTS;
use std::alloc::Global;
use std::sync::Wait;
use std::thread;
use std::thread::Threads;

/// Runs each body in a thread of its own, if one can be made. Then the worker sleeps no more.
pub fn call_bodies<
    J: ViewHistory + Send + Sync,
    B: Body<C, A> + Send,
    C: Send,
    A: Send,
    G: Gate + Sync,
    R: Threads + Sync,
>(rt: &R, seats: &mut [Seat<J, B, C, A>], gate: &G, operator: &Operator)
    ensures { SameSeats seats.old seats.new }
{
    thread::for_each_mut(
        rt,
        seats,
        MOST_CLIENTS,
        &|_, seat| seat.body.run(&mut seat.client, gate),
    );
    // Those that haven't left call nothing more either.
    operator.worker.end();
}

/// Runs the worker beside the bodies, and waits for all of them. The worker arrives at its point once it has stopped.
#[tactic(auto, using(crate::proofs::SeatLemmas::same_seats_in))]
pub fn all_in_threads<
    J: ViewHistory + Send + Sync,
    B: Body<C, A> + Send,
    C: Send,
    A: Send,
    G: Gate + Sync,
    X: Line + Send,
    R: Threads + Wait + Sync,
    W: Wait + Drop + Send,
>(
    rt: &R,
    alloc: Global,
    worker: ViewWorker<J, Shown<J>, W>,
    seats: Vec<Seat<J, B, C, A>>,
    gate: &G,
    line: X,
    turns: u64,
    operator: &Operator,
) -> (
    ViewWorker<J, Shown<J>, W>,
    Vec<Seat<J, B, C, A>>,
    X,
    WorkerEnd,
)
    ensures seats { SameSeats seats.items result.1.items }
    ensures exchanged { Exchanged X.step line (session_of worker) result.2 (session_of result.0) }
    ensures exchanges { exchange_count (session_of result.0)
        ≤ exchange_count (session_of worker) + turns_made_of result.0 }
    ensures lanes { SameLanes (lanes_of worker) (lanes_of result.0) }
    ensures operator { operator_has_left worker ≡ true → (operator_has_left result.0 ≡ true)
        × SameSwitches (session_of worker) (session_of result.0) }
    ensures turns { (turns_made_of result.0 ≤ turns) × (turns ≡ 0 → result.3 ≡ Turns) }
    ensures all_turns { result.3 ≡ Turns → turns_made_of result.0 ≡ turns }
    ensures all_left { result.3 ≡ AllLeft → AllHaveLeft (lanes_of result.0)
        × NoSend (session_of result.0).opening (session_of result.0).entries }
    ensures full { result.3 ≡ FullLog → is_full_log (session_of result.0) ≡ true }
    ensures published { result.3 ≢ Turns → HasPublishedAll result.0 }
{
    let mut worker = worker;
    let mut seats = seats;
    let mut line = line;
    let mut serve = ||
        ensures exchanged { Exchanged X.step line.entry (session_of worker.entry) line.exit (session_of worker.exit) }
        ensures exchanges { exchange_count (session_of worker.exit)
            ≤ exchange_count (session_of worker.entry) + turns_made_of worker.exit }
        ensures lanes { SameLanes (lanes_of worker.entry) (lanes_of worker.exit) }
        ensures operator { operator_has_left worker.entry ≡ true → (operator_has_left worker.exit ≡ true)
            × SameSwitches (session_of worker.entry) (session_of worker.exit) }
        ensures turns { (turns_made_of worker.exit ≤ turns) × (turns ≡ 0 → result ≡ Turns) }
        ensures all_turns { result ≡ Turns → turns_made_of worker.exit ≡ turns }
        ensures all_left { result ≡ AllLeft → AllHaveLeft (lanes_of worker.exit)
            × NoSend (session_of worker.exit).opening (session_of worker.exit).entries }
        ensures full { result ≡ FullLog → is_full_log (session_of worker.exit) ≡ true }
        ensures published { result ≢ Turns → HasPublishedAll worker.exit }
    {
        let end = worker.work_or_sleep(rt, alloc, &mut line, turns);
        gate.arrive(WORKER_STOPPED);
        end
    };
    let all = seats.as_mut_slice();
    let mut play = || call_bodies(rt, all, gate, operator);
    let (end, _) = thread::join_mut(rt, &mut serve, &mut play);
    (worker, seats, line, end)
}
