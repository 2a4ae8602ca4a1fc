//! A whole session: clients, each with what it does, and a worker over a line, in threads.
ghost use Rattle.std.specs.Prelude.{◌≡◌, ◌≤◌, length, IfOk, IfErr};
ghost use Rattle.rdm_log.specs.log.Config.{steady};
ghost use Rattle.rdm_log.specs.log.LogState.{emptied_log};
ghost use Rattle.rdm_lanes.specs.Opened.{MayOpen, HasFirstFault};
ghost use Rattle.rdm_lanes.specs.SessionEnds.{IsSessionEnd};
ghost use Rattle.rdm_lanes.specs.Workers.{book_of};

pub(crate) mod body;
pub(crate) mod threads;
pub(crate) mod together;

use crate::fault::OpenFault;
use crate::opening::rooms::rooms_for;
use crate::opening::{fault_of_places, open_lanes};
use crate::session::body::{Body, Gate};
use crate::session::together::{LanesEnd, lanes_in_threads};
use crate::views::history::{BlankHistory, ViewHistory};
use rdm_client::{Tells, TellsAsk};
use rdm_line::Line;
use rdm_log::{Config, Log, Setup};
use std::alloc::Global;
use std::sync::Wait;
use std::thread::Threads;

/// Runs a session. It opens a client with each of these queue depths, and runs each client's body in a thread of its
/// own. The worker runs beside them, with this many turns. There is no operator, so nobody pauses or closes. If a
/// thread can't be made, its work is done in an existing one, after that one's own work. `J` is the history of the
/// views that the worker publishes. At the end, what was published is compared with what each client has read. Each
/// client still holds a callback for each own call without an outcome. Both rings of each client have `ring` slots, as
/// [`ClientEnd::slots`](crate::ClientEnd::slots) shows at the end. If the worker ended with Turns, it made all its
/// turns, as [`LanesEnd::turns`] counts them.
///
/// The conditions are those of [`open_lanes`](crate::open_lanes), and there are as many bodies as queue depths. Once
/// the worker has stopped, its clients' ends are compared, as by [`ViewWorker::end`](crate::ViewWorker::end). It waits
/// for its threads. A session that has to run for years has a log that keeps nothing ([`Log::nothing`]).
///
/// Err: the first fault of `open_lanes` that applies; no body has run. The log is returned like a new one with the same
/// capacity. The bodies, the line and the blank history are returned unchanged. So the same call can be made again,
/// with more memory or with a larger log.
pub fn run_session<
    J: ViewHistory + Send + Sync,
    B: Body<C, A> + Send,
    C: Tells + Send,
    A: TellsAsk + Send,
    G: Gate + Sync,
    X: Line + Send,
    R: Threads + Wait + Sync,
>(
    rt: &R,
    alloc: Global,
    history: BlankHistory,
    config: Config,
    log: Log,
    ring: u8,
    places: &[u8],
    bodies: Vec<B>,
    gate: &G,
    line: X,
    turns: u64,
) -> Result<LanesEnd<J, B, X, C, A>, (OpenFault, Log, Vec<B>, X, BlankHistory)>
    requires may_open { MayOpen J.book history config log ring }
    requires one_each { length bodies.items ≡ length places.now }
    ensures over { IfOk result (IsSessionEnd X.step (steady config) log.room ring places.now line turns) }
    ensures kept { IfOk result (λ end. (end.session.keeps ≡ log.keeps) × (end.session.gone ≡ 0)) }
    ensures fault { HasFirstFault config.places log.room places.now (λ e. e.0) result }
    ensures back { IfErr result (λ e. (e.1 ≡ emptied_log log.keeps log.room) × (e.2 ≡ bodies) × (e.3 ≡ line)
        × (book_of e.4 ≡ J.book)) }
{
    run_session_with(
        rt,
        alloc,
        history,
        Setup::steady(config),
        log,
        ring,
        places,
        bodies,
        gate,
        line,
        turns,
    )
}

/// The same with a set-up, which also says how runs search. Conditions and errors are those of [`run_session`].
pub fn run_session_with<
    J: ViewHistory + Send + Sync,
    B: Body<C, A> + Send,
    C: Tells + Send,
    A: TellsAsk + Send,
    G: Gate + Sync,
    X: Line + Send,
    R: Threads + Wait + Sync,
>(
    rt: &R,
    alloc: Global,
    history: BlankHistory,
    setup: Setup,
    log: Log,
    ring: u8,
    places: &[u8],
    bodies: Vec<B>,
    gate: &G,
    line: X,
    turns: u64,
) -> Result<LanesEnd<J, B, X, C, A>, (OpenFault, Log, Vec<B>, X, BlankHistory)>
    requires may_open { MayOpen J.book history setup.config log ring }
    requires one_each { length bodies.items ≡ length places.now }
    ensures over { IfOk result (IsSessionEnd X.step setup log.room ring places.now line turns) }
    ensures kept { IfOk result (λ end. (end.session.keeps ≡ log.keeps) × (end.session.gone ≡ 0)) }
    ensures fault { HasFirstFault setup.config.places log.room places.now (λ e. e.0) result }
    ensures back { IfErr result (λ e. (e.1 ≡ emptied_log log.keeps log.room) × (e.2 ≡ bodies) × (e.3 ≡ line)
        × (book_of e.4 ≡ J.book)) }
{
    if let Some(fault) = fault_of_places(&setup.config, places) {
        return Err((fault, log.cleared(), bodies, line, history));
    }
    let Some(rooms) = rooms_for(alloc, bodies.len()) else {
        return Err((OpenFault::NoMemory, log.cleared(), bodies, line, history));
    };
    match open_lanes(rt, alloc, history, setup, log, ring, places) {
        Ok(lanes) => Ok(lanes_in_threads(rt, alloc, lanes, rooms, bodies, gate, line, turns)),
        Err((fault, log, history)) => {
            rooms.give_up();
            Err((fault, log, bodies, line, history))
        }
    }
}
