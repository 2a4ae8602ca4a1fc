//! Serves the clients of a session file with ring buffers.
ghost use Rattle.std.specs.Prelude.{◌≡◌, ◌≤◌, [], ⊤, length, slice_get, option_map, IfSome, IfOk};
ghost use Rattle.std.specs.List.{All};
ghost use Rattle.rdm_log.specs.log.Config.{IsConfig};
ghost use Rattle.rdm_arguments.specs.declared.port_kind.PortKind.TheVariants.{Rings};
ghost use Rattle.rdm_lanes.specs.Clients.{SameClient};
ghost use Rattle.rdm_lanes.specs.Ends.{end_slots};
ghost use Rattle.rdm_lanes.specs.Lines.{exchange_count};
ghost use Rattle.rdm_lanes.specs.Workers.{book_of};
ghost use Rattle.rdm_serving.specs.Serving.{slots_by};
ghost use Rattle.rdm_serving.specs.body.Scripts.{ran_out_by};

use crate::serving::calls::cancel_all;
use crate::serving::playing::{Watch, play};
use crate::serving::ticket::{AskTicket, RequestTicket};
use crate::serving::{ServeFault, Served, Start};
use rdm_client::WorkerEnd;
use rdm_files::{ClientCall, ClientFile};
use rdm_lanes::views::{BlankHistory, ViewHistory};
use rdm_lanes::{
    Body, ClientEnd, Gate, LanesEnd, OpenFault, RingClient, WORKER_STOPPED, run_session_with,
};
use rdm_line::Line;
use rdm_reports::Outcomes;
use std::alloc::Global;
use std::marker::Brand;
use std::sync::Wait;
use std::sync::atomic::{AtomicBool, Ordering};
use std::thread;
use std::thread::Threads;

type Client<J> = RingClient<J, RequestTicket, AskTicket>;

/// Serves the clients: each has a thread and two ring buffers with this many slots, and the worker another thread.
/// Err: there was no memory, or the log was full before all clients had joined.
pub fn serve_rings<X: Line + Send + Drop, R: Threads + Wait + Sync>(
    rt: &R,
    alloc: Global,
    start: Start,
    ring: u8,
    clients: &[ClientFile],
    line: X,
) -> Result<Served, ServeFault>
    requires config_is { IsConfig start.setup.config }
    requires empty { start.log.entries ≡ [] }
    requires slots { 1 ≤ ring }
    ensures in_turns { IfOk result (λ s. exchange_count s.session ≤ start.turns) }
    ensures slots { IfOk result (λ s. s.slots ≡ slots_by Rings ring clients.now) }
    ensures ran_out { IfOk result (λ s. IfSome s.ran_out (λ made. made ≡ start.turns)) }
{
    let history = BlankHistory::new();
    serve_views::<Brand, X, R>(rt, alloc, history, start, ring, clients, line)
}

// The same, with this history of the views that the worker publishes.
fn serve_views<J: ViewHistory + Send + Sync, X: Line + Send + Drop, R: Threads + Wait + Sync>(
    rt: &R,
    alloc: Global,
    history: BlankHistory,
    start: Start,
    ring: u8,
    clients: &[ClientFile],
    line: X,
) -> Result<Served, ServeFault>
    requires name { book_of history ≡ J.book }
    requires config_is { IsConfig start.setup.config }
    requires empty { start.log.entries ≡ [] }
    requires slots { 1 ≤ ring }
    ensures in_turns { IfOk result (λ s. exchange_count s.session ≤ start.turns) }
    ensures slots { IfOk result (λ s. s.slots ≡ slots_by Rings ring clients.now) }
    ensures ran_out { IfOk result (λ s. IfSome s.ran_out (λ made. made ≡ start.turns)) }
{
    let Start { setup, log, turns } = start;
    let Some((places, callers)) = seats_of(rt, alloc, clients, turns) else {
        return Err(ServeFault::Memory);
    };
    let gate = Stop(AtomicBool::new(false));
    let ended = run_session_with::<J, _, _, _, _, X, R>(
        rt, alloc, history, setup, log, ring, &places, callers, &gate, line, turns,
    );
    match ended {
        Ok(end) => served(alloc, end),
        Err((OpenFault::LogFull, _, _, _, _)) => Err(ServeFault::Log),
        Err(_) => Err(ServeFault::Memory),
    }
}

// The queue depths of the clients, and what they do, one each. None: there was no memory.
fn seats_of<'a, R>(
    rt: &'a R,
    alloc: Global,
    clients: &'a [ClientFile],
    turns: u64,
) -> Option<(Vec<u8>, Vec<Caller<'a, R>>)>
    ensures places { IfSome result (λ seats. length seats.0.items ≡ length clients.now) }
    ensures callers { IfSome result (λ seats. length seats.1.items ≡ length seats.0.items) }
    ensures turns { IfSome result (λ seats. All (λ c. c.turns ≡ turns) seats.1.items) }
{
    let mut places = Vec::new(alloc);
    let mut callers = Vec::new(alloc);
    for client in clients {
        places.push(client.places).ok()?;
        callers
            .push(Caller::new(rt, alloc, &client.calls, turns))
            .ok()?;
    }
    Some((places, callers))
}

// The outcomes of the clients' calls, in their order, and the session. All callbacks that are left are cancelled.
fn served<J: ViewHistory, X: Drop, R>(
    alloc: Global,
    end: LanesEnd<J, Caller<'_, R>, X, RequestTicket, AskTicket>,
) -> Result<Served, ServeFault>
    ensures session { IfOk result (λ s. s.session ≡ end.entry.session) }
    ensures slots { IfOk result (λ s. s.slots ≡ option_map end_slots (slice_get end.entry.ends.items 0)) }
    ensures ran_out { IfOk result (λ s. s.ran_out ≡ ran_out_by end.entry.worker end.entry.turns) }
{
    let LanesEnd {
        session,
        ends,
        matched: _,
        bodies,
        worker,
        turns,
        line: _,
        published: _,
    } = end;
    let slots = slots_of(&ends);
    cancel_ends(alloc, ends);
    match outcomes_of(alloc, bodies) {
        Some(outcomes) => Ok(Served {
            outcomes,
            session,
            slots,
            ran_out: ran_out_by(worker, turns),
        }),
        None => Err(ServeFault::Memory),
    }
}

// The outcomes of the clients, in their order. None: there was no memory, now or for one of their calls.
fn outcomes_of<R>(alloc: Global, callers: Vec<Caller<'_, R>>) -> Option<Vec<Outcomes>> {
    let mut outcomes = Vec::new(alloc);
    for caller in callers {
        if caller.end == Err(ServeFault::Memory) || outcomes.push(caller.outcomes).is_err() {
            return None;
        }
    }
    Some(outcomes)
}

// How many slots the first client's rings had. None: there are no clients.
fn slots_of<J: ViewHistory>(
    ends: &[ClientEnd<J, RequestTicket, AskTicket>],
) -> Option<(usize, usize)>
    ensures { result ≡ option_map end_slots (slice_get ends.now 0) }
{
    ends.first().map(|end| end.slots())
}

// The turns that a worker made, if it made all of them.
fn ran_out_by(end: WorkerEnd, made: u64) -> Option<u64>
    ensures { result ≡ ran_out_by end made }
{
    match end {
        WorkerEnd::Turns => Some(made),
        WorkerEnd::AllLeft | WorkerEnd::LogFull => None,
    }
}

// Cancels the callbacks that the clients held at their ends.
fn cancel_ends<J: ViewHistory>(alloc: Global, ends: Vec<ClientEnd<J, RequestTicket, AskTicket>>) {
    let mut ends = ends;
    while let Some(end) = ends.pop() {
        cancel_all(alloc, end.into_unspent());
    }
    ends.destroy_empty();
}

// Whether the worker has stopped.
#[derive(Drop)]
struct Stop(AtomicBool);

impl Gate for Stop {
    fn arrive(&self, point: u8) {
        if point == WORKER_STOPPED {
            self.0.store(true, Ordering::SeqCst);
        }
    }

    fn passed(&self, point: u8) -> bool {
        point == WORKER_STOPPED && self.0.load(Ordering::SeqCst)
    }
}

// What a client does.
#[derive(Drop)]
struct Caller<'a, R> {
    rt: &'a R,
    alloc: Global,
    calls: &'a [ClientCall],
    turns: u64,
    outcomes: Outcomes,
    end: Result<(), ServeFault>,
}

impl<'a, R> Caller<'a, R> {
    // A client that has made none of these calls.
    fn new(rt: &'a R, alloc: Global, calls: &'a [ClientCall], turns: u64) -> Caller<'a, R>
        ensures { result.turns ≡ turns }
    {
        Caller {
            rt,
            alloc,
            calls,
            turns,
            outcomes: Outcomes::new(alloc),
            end: Err(ServeFault::Turns),
        }
    }

    // Leaves. A client whose turns run out may find its ring full, until the worker takes a call or has stopped.
    fn leave<J: ViewHistory, G: Gate>(&self, client: &mut Client<J>, gate: &G)
        ensures { SameClient client.old client.new }
    {
        for _turn in 0..self.turns {
            if client.leave().is_ok() || gate.passed(WORKER_STOPPED) {
                return;
            }
            thread::yield_now();
        }
    }
}

impl<R: Wait> Body<RequestTicket, AskTicket> for Caller<'_, R> {
    fn run<J: ViewHistory, G: Gate>(&mut self, client: &mut Client<J>, gate: &G)
        ensures in_turns { self.new.outcomes.turns ≤ self.old.turns }
        ensures same { SameClient client.old client.new }
    {
        let watch = AtGate { gate, rt: self.rt };
        let (outcomes, end) = play(&(), self.alloc, self.calls, client, &watch, self.turns);
        self.outcomes = outcomes;
        self.end = end;
        self.leave(client, gate);
    }
}

// Sleeps until the client has an outcome or the worker stops, before it looks at the gate whether that has stopped.
#[derive(Drop)]
struct AtGate<'a, G, R> {
    gate: &'a G,
    rt: &'a R,
}

impl<J: ViewHistory, G: Gate, R: Wait> Watch<Client<J>> for AtGate<'_, G, R> {
    ghost sees = { λ watch client has_stopped. ⊤ };

    fn has_stopped(&self, client: &Client<J>) -> bool {
        client.wait_for_outcome(self.rt);
        self.gate.passed(WORKER_STOPPED)
    }
}
