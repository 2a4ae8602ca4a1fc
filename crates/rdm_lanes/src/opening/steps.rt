//! The steps by which clients, an operator and a worker are opened.
ghost use Rattle.std.specs.Prelude.{◌≡◌, [], ◌∷◌, length, OnOk, IfOk, IfErr, IfSome, ◌≤◌, sum, false};
ghost use Rattle.rdm_log.specs.log.Config.{IsConfig};
ghost use Rattle.rdm_log.specs.log.Legal.{Legal};
ghost use Rattle.rdm_log.specs.log.LogState.{emptied_log};
ghost use Rattle.rdm_lanes.specs.Opened.{opened_with, join_entries};
ghost use Rattle.rdm_lanes.specs.body.Opening.{IsNewWith, AreNewWith, HoldNothing};
ghost use Rattle.rdm_lanes.specs.Opened.{IsFullFor, IsLaterFault};
ghost use Rattle.rdm_lanes.specs.Views.{opening_view};

use crate::client::RingClient;
use crate::fault::OpenFault;
use crate::sleeping::{ClientSleep, WorkerSleep};
use crate::views::history::ViewHistory;
use crate::views::publishing::{Publisher, Shown};
use crate::worker::comparing::shows_legal;
use crate::worker::lane::Lane;
use rdm_client::{Desk, DeviceView, Tells, TellsAsk};
use rdm_log::{JoinFault, Log, Setup};
use rdm_queue::Session;
use rdm_wire::DeviceSet;
use rtrb::RingBuffer;
use std::alloc::Global;
use std::sync::{Arc, Wait};

/// The sum of the queue depths of at most sixteen clients.
pub fn total(places: &[u8]) -> u16
    requires { length places.now ≤ 16 }
    ensures { result ≡ sum places.now }
{
    let mut all = 0;
    for n in places {
        all += u16::from(*n);
    }
    all
}

/// A client with this queue depth, and its lane. None: out of memory, or [`Publisher::reader`] failed.
pub fn open_client<J: ViewHistory, C: Tells, A: TellsAsk, R: Wait + Drop>(
    alloc: Global,
    publisher: &Publisher<J, Shown<J>, R>,
    ring: u8,
    places: u8,
    worker: &Arc<WorkerSleep>,
) -> Option<(RingClient<J, C, A>, Lane)>
    requires { publisher.now.shown ≡ opening_view ∷ [] }
    ensures { IfSome result (λ r. IsNewWith ring places r.0 r.1) }
{
    let Ok(views) = publisher.reader() else {
        return None;
    };
    let Some(found) = opening_found(alloc) else {
        return None;
    };
    let Ok((calls, heard)) = RingBuffer::new(alloc, usize::from(ring)) else {
        return None;
    };
    let Ok((outcomes, replies)) = RingBuffer::new(alloc, usize::from(ring)) else {
        return None;
    };
    let (worker, sleep, woken) = sleeps_for(alloc, worker)?;
    let Ok(desk) = Desk::new(alloc, places) else {
        return None;
    };
    let client = RingClient::new(desk, calls, replies, views, found, worker, sleep);
    let lane = Lane {
        calls: heard,
        replies: outcomes,
        places: usize::from(places),
        requests: 0,
        asks: 0,
        left: false,
        sleep: woken,
    };
    Some((client, lane))
}

// What the worker sleeps on, and twice what the client does. None: out of memory.
fn sleeps_for(
    alloc: Global,
    worker: &Arc<WorkerSleep>,
) -> Option<(Arc<WorkerSleep>, Arc<ClientSleep>, Arc<ClientSleep>)> {
    let sleep = Arc::new(alloc, ClientSleep::new()).ok()?;
    let woken = Arc::try_clone(&sleep).ok()?;
    Some((Arc::try_clone(worker).ok()?, sleep, woken))
}

// What a client knows of devices at first, in a box. It isn't inlined, so that only its own frame has a set.
#[inline(never)]
fn opening_found(alloc: Global) -> Option<Box<DeviceView>>
    ensures { IfSome result (λ found. found.value ≡ opening_view) }
{
    Box::new(
        alloc,
        DeviceView {
            run: 0,
            set: DeviceSet::new(),
        },
    )
    .ok()
}

/// A client with its lane for each of these queue depths. None: out of memory, or [`Publisher::reader`] failed.
pub fn open_clients<J: ViewHistory, C: Tells, A: TellsAsk, R: Wait + Drop>(
    alloc: Global,
    publisher: &Publisher<J, Shown<J>, R>,
    ring: u8,
    places: &[u8],
    worker: &Arc<WorkerSleep>,
) -> Option<(Vec<RingClient<J, C, A>>, Vec<Lane>)>
    requires { publisher.now.shown ≡ opening_view ∷ [] }
    ensures { IfSome result (λ r. AreNewWith ring places.now r.0.items r.1.items) }
{
    let Ok(mut lanes) = Vec::with_capacity(alloc, places.len()) else {
        return None;
    };
    let Ok(mut clients) = Vec::with_capacity(alloc, places.len()) else {
        return None;
    };
    for n in places {
        let Some((client, lane)) = open_client(alloc, publisher, ring, *n, worker) else {
            discard(clients);
            return None;
        };
        clients.push_reserved(client);
        lanes.push_reserved(lane);
    }
    Some((clients, lanes))
}

/// Ends clients that hold no callbacks.
pub fn discard<J: ViewHistory, C: Tells, A: TellsAsk>(clients: Vec<RingClient<J, C, A>>)
    requires { HoldNothing clients.items }
{
    let mut clients = clients;
    while let Some(client) = clients.pop() {
        client.end().into_unspent().close_empty();
    }
    clients.destroy_empty();
}

/// A session with this set-up, in which a client has joined with each of these queue depths. Err: out of memory, or the
/// log is full. The log is returned like a new one with the same capacity.
pub fn joined(
    alloc: Global,
    setup: Setup,
    log: Log,
    places: &[u8],
) -> Result<Session, (OpenFault, Log)>
    requires config_is { IsConfig setup.config }
    requires empty { log.entries ≡ [] }
    ensures session { IfOk result (λ session. session ≡ opened_with setup log.keeps log.room places.now) }
    ensures legal { IfOk result (λ session. Legal session.opening session.entries) }
    ensures fits { OnOk result (IsFullFor log.room places.now → ⊥) }
    ensures fault { IfErr result (λ e. IsLaterFault log.room places.now e.0) }
    ensures back { IfErr result (λ e. e.1 ≡ emptied_log log.keeps log.room) }
{
    // Only for the proof: nothing was handed out.
    log.gone();
    let mut session = match Session::new(alloc, setup, log) {
        Ok(session) => session,
        Err((_, log)) => return Err((OpenFault::NoMemory, log.cleared())),
    };
    match join_all(alloc, &mut session, places) {
        Ok(()) => {
            shows_legal(&session);
            Ok(session)
        }
        Err(fault) => Err((fault, session.end().1.cleared())),
    }
}

// Lets a client join with each of these queue depths.
fn join_all(alloc: Global, session: &mut Session, places: &[u8]) -> Result<(), OpenFault>
    requires empty { session.old.entries ≡ [] }
    requires no_clients { session.old.opening.places.items ≡ [] }
    requires not_closed { session.old.opening.closed ≡ false }
    ensures joined { OnOk result (session.new ≡ record session.old { entries = join_entries 0 places.now }) }
    ensures log { (session.new.room ≡ session.old.room) × (session.new.gone ≡ session.old.gone)
        × (session.new.keeps ≡ session.old.keeps) }
    ensures fits { OnOk result (IsFullFor session.old.room places.now → ⊥) }
    ensures fault { IfErr result (IsLaterFault session.old.room places.now) }
{
    for n in places {
        match session.join_client(alloc, *n) {
            Ok(_) => {}
            Err(JoinFault::LogFull) => return Err(OpenFault::LogFull),
            Err(_) => return Err(OpenFault::NoMemory),
        }
    }
    Ok(())
}
