//! A session over open lanes: the bodies in their seats, the worker beside them, and the comparison at the end.
ghost use Rattle.std.specs.Prelude.{◌≡◌, ◌+◌, ◌≤◌, ℕ, List, length, map};
ghost use Rattle.rdm_log.specs.log.Legal.{Legal};
ghost use Rattle.rdm_log.specs.promises.Promised.{Promised};
ghost use Rattle.rdm_client.specs.declared.worker_end.WorkerEnd.TheVariants.{Turns};
ghost use Rattle.rdm_lanes.specs.declared.worker.lane.Lane.{Lane};
ghost use Rattle.rdm_lanes.specs.Lines.{Exchanged, SameSwitches, IsBetweenTurns, exchange_count};
ghost use Rattle.rdm_lanes.specs.Lanes.{AllFit};
ghost use Rattle.rdm_lanes.specs.Ended.{IsEnded};
ghost use Rattle.rdm_lanes.specs.Ends.{AllHaveSlots};
ghost use Rattle.rdm_lanes.specs.Pairs.{ClientsPair, client_rings};
ghost use Rattle.rdm_lanes.specs.body.Rooms.{HasRoomFor};
ghost use Rattle.rdm_lanes.specs.body.Seats.{RingsHaveSlots};
ghost use Rattle.rdm_lanes.specs.Workers.{session_of, lanes_of};

use crate::client::ends::ClientEnd;
use crate::opening::Lanes;
use crate::opening::rooms::{Rooms, seated, unseated};
use crate::session::body::{Body, Gate};
use crate::session::threads::all_in_threads;
use crate::views::history::{Front, ViewHistory};
use crate::views::publishing::Shown;
use crate::worker::compared::Compared;
use rdm_client::{AskCallback, Callback, Tells, TellsAsk, WorkerEnd};
use rdm_line::Line;
use rdm_queue::Session;
use std::alloc::Global;
use std::sync::Wait;
use std::thread::Threads;

/// How a session with ring buffers ended.
pub struct LanesEnd<J: ViewHistory, B, X, C = Callback, A = AskCallback> {
    /// The session, with its log.
    pub session: Session,
    /// What is left of each client, in order.
    pub ends: Vec<ClientEnd<J, C, A>>,
    /// Whether both ends of all rings could be compared. It is always true.
    pub matched: bool,
    /// The bodies, in the order of their clients. That order is only tested.
    pub bodies: Vec<B>,
    /// Why the worker stopped.
    pub worker: WorkerEnd,
    /// How many turns the worker made.
    pub turns: u64,
    /// The line.
    pub line: X,
    /// The views that were published. [`Front::len`] is their number; only contracts see the views themselves.
    pub published: Front<J>,
}

/// Runs the bodies beside the worker, without an operator, and compares both ends of all rings.
pub fn lanes_in_threads<
    J: ViewHistory + Send + Sync,
    B: Body<C, A> + Send,
    C: Tells + Send,
    A: TellsAsk + Send,
    G: Gate + Sync,
    X: Line + Send,
    R: Threads + Wait + Sync,
    W: Wait + Drop + Send,
>(
    rt: &R,
    alloc: Global,
    lanes: Lanes<J, Shown<J>, W, C, A>,
    rooms: Rooms<J, B, C, A>,
    bodies: Vec<B>,
    gate: &G,
    line: X,
    turns: u64,
) -> LanesEnd<J, B, X, C, A>
    requires pairs { ClientsPair (lanes_of lanes.worker) lanes.clients.items }
    requires one_each { length bodies.items ≡ length lanes.clients.items }
    requires room { HasRoomFor (length bodies.items) rooms }
    ensures exchanged { Exchanged X.step line (session_of lanes.worker) result.line result.session }
    ensures exchanges { exchange_count result.session ≤ exchange_count (session_of lanes.worker) + result.turns }
    ensures served { IsBetweenTurns result.session }
    ensures legal { Legal result.session.opening result.session.entries }
    ensures promised { Promised result.session }
    ensures switches { SameSwitches (session_of lanes.worker) result.session }
    ensures fits { (lanes_left : List Lane) × (length lanes_left ≡ length (lanes_of lanes.worker))
        × AllFit result.session lanes_left }
    ensures ended { IsEnded (length bodies.items) result }
    ensures slots { (n : ℕ) → RingsHaveSlots n (map client_rings lanes.clients.items)
        → AllHaveSlots n result.ends.items }
    ensures turns { (result.turns ≤ turns) × (turns ≡ 0 → result.worker ≡ Turns) }
    ensures all_turns { result.worker ≡ Turns → result.turns ≡ turns }
{
    let Lanes {
        clients,
        operator,
        worker,
    } = lanes;
    let Rooms {
        seats,
        ends,
        bodies: back,
    } = rooms;
    let paired = seated(bodies, clients, seats);
    let alone = worker.without_operator();
    let (worker, left, line, end) = all_in_threads(
        rt, alloc, alone, paired, gate, line, turns, &operator,
    );
    let (bodies, ends) = unseated(left, back, ends);
    let turns = worker.turns_made;
    let Compared {
        session,
        ends,
        matched,
        published,
    } = worker.end(ends);
    LanesEnd {
        session,
        ends,
        matched,
        bodies,
        worker: end,
        turns,
        line,
        published,
    }
}
