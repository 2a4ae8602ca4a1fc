//! How clients, an operator and a worker are opened.
ghost use Rattle.std.specs.Prelude.{◌≡◌, IfOk, IfErr};
ghost use Rattle.rdm_log.specs.log.LogState.{emptied_log};
ghost use Rattle.rdm_lanes.specs.Opened.{places_fault, MayOpen, IsOpened, HasFirstFault};
ghost use Rattle.rdm_lanes.specs.Workers.{book_of};

pub(crate) mod rooms;
pub(crate) mod seat;
pub(crate) mod steps;

use crate::client::RingClient;
use crate::fault::OpenFault;
use crate::opening::steps::{discard, joined, open_clients, total};
use crate::sleeping::WorkerSleep;
use crate::views::history::{BlankHistory, ViewHistory};
use crate::views::publishing::{Publisher, Shown};
use crate::worker::Worker;
use crate::worker::operator::Operator;
use crate::worker::view_worker::ViewWorker;
use left_right::Absorb;
use rdm_client::{AskCallback, Callback, DeviceView, Tells, TellsAsk};
use rdm_log::{Config, IntoSetup, Log, MOST_CLIENTS};
use rtrb::RingBuffer;
use std::alloc::Global;
use std::sync::{Arc, Wait};

/// The clients of a session, its operator and its worker. `T` is `Shown<J>`.
pub struct Lanes<
    J: ViewHistory,
    T: Absorb<Shown<J>, State = [DeviceView; 0]> + Drop,
    R: Wait + Drop,
    C = Callback,
    A = AskCallback,
> {
    /// The clients, in the order of the queue depths that were passed.
    pub clients: Vec<RingClient<J, C, A>>,
    /// The operator.
    pub operator: Operator,
    /// The worker, which has the session.
    pub worker: ViewWorker<J, T, R>,
}

/// A session with an operator, a worker, and a client for each of these queue depths. With a [`Config`] alone its runs
/// search steadily; a [`Setup`](rdm_queue::Setup) also says how they search. Each client has a ring of this many slots
/// for its calls and one for its outcomes, and the operator one for its calls. This call allocates the rings, and the
/// memory for what each client finds. A view is allocated when it is published. `J` is the history of the views that
/// the worker publishes. The worker keeps the runtime, to wait for readers when it publishes. This call waits for
/// nobody.
///
/// The conditions are these:
/// - the controller's UID isn't broadcast;
/// - the greatest sum of queue depths is at most [`MOST_PLACES`](rdm_queue::MOST_PLACES);
/// - the budget is at least 1;
/// - the log has never had an entry ([`Log::len_in_all`](rdm_log::Log::len_in_all));
/// - a ring has at least one slot.
///
/// Err: the first fault that applies. The log is returned without entries, like a new one with the same capacity, and
/// the blank history is returned unchanged. So the same call can be made again, with more memory or with a larger log.
pub fn open_lanes<J: ViewHistory, C: Tells, A: TellsAsk, R: Wait + Drop, S: IntoSetup>(
    rt: R,
    alloc: Global,
    history: BlankHistory,
    setup: S,
    log: Log,
    ring: u8,
    places: &[u8],
) -> Result<Lanes<J, Shown<J>, R, C, A>, (OpenFault, Log, BlankHistory)>
    requires may_open { MayOpen J.book history (S.setup_of setup).config log ring }
    ensures opened { IfOk result (IsOpened (S.setup_of setup) log ring places.now) }
    ensures fault { HasFirstFault (S.setup_of setup).config.places log.room places.now (λ e. e.0) result }
    ensures back { IfErr result (λ e. (e.1 ≡ emptied_log log.keeps log.room) × (book_of e.2 ≡ J.book)) }
{
    let setup = setup.into_setup();
    if let Some(fault) = fault_of_places(&setup.config, places) {
        return Err((fault, log.cleared(), history));
    }
    let Ok((calls, heard)) = RingBuffer::new(alloc, usize::from(ring)) else {
        return Err((OpenFault::NoMemory, log.cleared(), history));
    };
    let views = match Publisher::new(alloc, rt, history, places.len().max(1)) {
        Ok(views) => views,
        Err(history) => return Err((OpenFault::NoMemory, log.cleared(), history)),
    };
    let Some((sleep, woken)) = worker_sleep(alloc) else {
        return Err((OpenFault::NoMemory, log.cleared(), views.into_blank()));
    };
    let Some((clients, lanes)) = open_clients(alloc, &views, ring, places, &sleep) else {
        return Err((OpenFault::NoMemory, log.cleared(), views.into_blank()));
    };
    match joined(alloc, setup, log, places) {
        Ok(session) => Ok(Lanes {
            clients,
            operator: Operator {
                calls,
                left: false,
                worker: woken,
            },
            worker: ViewWorker {
                server: Worker::new(session, lanes, heard),
                views,
                turns_made: 0,
                sleep,
            },
        }),
        Err((fault, log)) => {
            discard(clients);
            Err((fault, log, views.into_blank()))
        }
    }
}

// What a worker sleeps on, for itself and for its operator. None: out of memory.
fn worker_sleep(alloc: Global) -> Option<(Arc<WorkerSleep>, Arc<WorkerSleep>)> {
    let sleep = Arc::new(alloc, WorkerSleep::new()).ok()?;
    let woken = Arc::try_clone(&sleep).ok()?;
    Some((sleep, woken))
}

/// The first fault that the queue depths show: there are too many clients, or their queue depths' sum is more than the
/// configuration allows.
pub fn fault_of_places(config: &Config, places: &[u8]) -> Option<OpenFault>
    ensures { result ≡ places_fault config.now.places places.now }
{
    if places.len() > MOST_CLIENTS {
        return Some(OpenFault::TooManyClients);
    }
    if total(places) > config.places {
        return Some(OpenFault::NoPlaces);
    }
    None
}
