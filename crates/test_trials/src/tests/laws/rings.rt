//! A session with ring buffers.
ghost use Rattle.std.specs.Prelude.{◌≡◌, IfSome};
ghost use Rattle.rdm_lanes.specs.Clients.{SameClient};
ghost use Rattle.rdm_lanes.specs.Workers.{book_of};
ghost use Rattle.rdm_line.specs.Sim.{SimState};
ghost use Rattle.rdm_scenes.specs.Reports.{IsLogOver};

use super::report::{Report, TAGS, get, reply_in, set};
use crate::tests::*;
use rdm_client::Collected;
use rdm_lanes::views::{BlankHistory, ViewHistory};
use rdm_lanes::{Body, ClientEnd, Gate, LanesEnd, RingClient, WORKER_STOPPED, run_session};
use rdm_line::SimLine;
use rdm_queue::Session;
use std::marker::Brand;
use std::sync::atomic::{AtomicBool, Ordering};
use std::thread;

type Client<J> = RingClient<J, Note, AskNote>;

// More turns than a worker takes.
const TURNS: u64 = 1_000_000_000;

// How often a client tries to collect before it gives up.
const TRIES: u64 = 100_000_000;

/// Runs a session with ring buffers over this line. Returns the client's report, and the session after its end. None:
/// it wasn't run, or the worker arrived at `WORKER_STOPPED` before the client left, or never.
pub fn serves<R: Threads + Wait + Sync>(
    rt: &R,
    alloc: Global,
    line: SimLine,
) -> Option<(Report, Session)>
    ensures { IfSome result (λ ran. (t : SimState) × IsLogOver line t ran.1) }
{
    serves_in::<Brand, R>(rt, alloc, BlankHistory::new(), line)
}

fn serves_in<J: ViewHistory + Send + Sync, R: Threads + Wait + Sync>(
    rt: &R,
    alloc: Global,
    history: BlankHistory,
    line: SimLine,
) -> Option<(Report, Session)>
    requires { book_of history ≡ J.book }
    ensures { IfSome result (λ ran. (t : SimState) × IsLogOver line t ran.1) }
{
    let Ok(log) = log(alloc, 1000) else {
        return None;
    };
    let mut askers = Vec::new(alloc);
    if askers.push(Asker::new()).is_err() {
        return None;
    }
    let gate = HasStopped(AtomicBool::new(false));
    let ended = run_session::<J, _, _, _, _, SimLine, R>(
        rt,
        alloc,
        history,
        config(2),
        log,
        4,
        &[2],
        askers,
        &gate,
        line,
        TURNS,
    );
    let Ok(end) = ended else {
        return None;
    };
    let LanesEnd {
        session,
        line: _,
        bodies,
        worker: _,
        turns: _,
        ends,
        matched: _,
        published: _,
    } = end;
    cancel_ends(alloc, ends);
    let Some(asker) = bodies.first() else {
        return None;
    };
    if asker.was_stopped || !gate.passed(WORKER_STOPPED) {
        return None;
    }
    Some((asker.report, session))
}

// Cancels the callbacks that are left.
fn cancel_ends<J: ViewHistory>(alloc: Global, ends: Vec<ClientEnd<J, Note, AskNote>>) {
    let mut ends = ends;
    while let Some(end) = ends.pop() {
        cancels(alloc, end.into_unspent());
    }
    ends.destroy_empty();
}

// Whether the worker has stopped.
#[derive(Drop)]
struct HasStopped(AtomicBool);

impl Gate for HasStopped {
    fn arrive(&self, point: u8) {
        if point == WORKER_STOPPED {
            self.0.store(true, Ordering::SeqCst);
        }
    }

    fn passed(&self, point: u8) -> bool {
        point == WORKER_STOPPED && self.0.load(Ordering::SeqCst)
    }
}

// A client, its report, and whether the worker had stopped before it left.
#[derive(Drop)]
struct Asker {
    report: Report,
    was_stopped: bool,
}

impl Asker {
    fn new() -> Asker {
        Asker {
            report: Report::new(),
            was_stopped: false,
        }
    }
}

impl Body<Note, AskNote> for Asker {
    fn run<J: ViewHistory, G: Gate>(&mut self, client: &mut Client<J>, gate: &G) {
        self.report.seen[0] = sees(client);
        let _ = client.discover(Kind::Full, AskNote(TAGS[0]));
        let _ = client.submit(get(), Note(TAGS[1]));
        let _ = client.submit(set(), Note(TAGS[2]));
        self.report.found[0] = told(&awaits(client));
        self.report.replies[0] = reply_in(&awaits(client));
        self.report.replies[1] = reply_in(&awaits(client));
        self.report.seen[1] = sees(client);
        let _ = client.discover(Kind::Incremental, AskNote(TAGS[3]));
        self.report.found[1] = told(&awaits(client));
        self.report.seen[2] = sees(client);
        self.was_stopped = gate.passed(WORKER_STOPPED);
        let _ = client.leave();
    }
}

#[inline(never)]
fn sees<J: ViewHistory>(client: &mut Client<J>) -> ActResult
    ensures { SameClient client.old client.new }
{
    let view = client.devices();
    Sees(view.run, found_in(&view.set))
}

// Collects once something has come.
#[inline(never)]
fn awaits<J: ViewHistory>(client: &mut Client<J>) -> Option<Collected>
    ensures { SameClient client.old client.new }
{
    for _try in 0..TRIES {
        let collected = client.collect();
        if collected.is_some() {
            return collected;
        }
        thread::yield_now();
    }
    None
}
