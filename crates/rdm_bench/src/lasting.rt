//! One session with ring buffers that never ends, in threads: sixteen clients, and a worker whose log keeps nothing.
//! Each request and each discovery has to be reported once, to its client, in order. Clients run in any order, so only
//! sums are the same in each run.
ghost use Rattle.std.specs.Prelude.{◌≡◌, []};
ghost use Rattle.rdm_lanes.specs.Clients.{SameClient};
ghost use Rattle.rdm_lanes.specs.Workers.{book_of};

use crate::bench::{Bench, Prints, holds};
use crate::checked::{Tally, Waiting, kept_nothing};
use crate::lines::{Drawn, Random, drawn_line};
use crate::ports::{ask, collect, submit};
use crate::served::{CLIENTS, PLACES, config, long_if};
use crate::soak::resident;
use rdm_client::WorkerEnd;
use rdm_lanes::views::{BlankHistory, ViewHistory};
use rdm_lanes::{Body, ClientEnd, Gate, LanesEnd, RingClient, WORKER_STOPPED, run_session};
use rdm_line::Counted;
use rdm_log::Log;
use std::alloc::Global;
use std::marker::Brand;
use std::sync::Wait;
use std::sync::atomic::{AtomicU64, Ordering};
use std::thread::{self, Threads};
use test_rig::{ActResult, AskNote, NOTHING_KEPT, Note, cancels, log};

// How often in a row a client that can do nothing tries before it gives up.
const TRIES: u64 = 1_000_000_000;

/// Prints how many calls the clients of one session made and were told of: ROUNDS times SIZE requests. What they
/// were told, and how much memory the process holds, goes to standard error. `discovers`: one call in 50 is a
/// discovery.
pub fn print<R: Prints + Threads + Wait + Sync>(bench: &Bench<R>, discovers: bool) -> Option<()> {
    let requests = (bench.size as u64).wrapping_mul(bench.rounds as u64);
    print_over::<Brand, R>(bench, BlankHistory::new(), discovers, requests)
}

// With the history of the views that this blank begins.
fn print_over<J: ViewHistory + Send + Sync, R: Prints + Threads + Wait + Sync>(
    bench: &Bench<R>,
    history: BlankHistory,
    discovers: bool,
    requests: u64,
) -> Option<()>
    requires { book_of history ≡ J.book }
{
    let (rt, alloc) = (bench.rt, bench.alloc);
    let places: &[u8] = &[PLACES; 16];
    let callers = callers_of(alloc, discovers, requests)?;
    if callers.len() != places.len() {
        return None;
    }
    let log = log(alloc, NOTHING_KEPT).ok()?;
    let gate = Stop(AtomicU64::new(0));
    let line = drawn_line(alloc, 1)?;
    let ended = run_session::<J, _, _, _, _, _, R>(
        rt,
        alloc,
        history,
        config(),
        log,
        PLACES,
        places,
        callers,
        &gate,
        line,
        u64::MAX,
    );
    print_end(bench, requests, ended.ok()?)
}

// What each client does.
fn callers_of(alloc: Global, discovers: bool, requests: u64) -> Option<Vec<Caller>> {
    let mut callers = Vec::with_capacity(alloc, usize::from(CLIENTS)).ok()?;
    for client in 0..u64::from(CLIENTS) {
        let share = requests.wrapping_add(client) / u64::from(CLIENTS);
        callers
            .push(Caller::new(alloc, client, discovers, share)?)
            .ok()?;
    }
    Some(callers)
}

// The session has to end because all have left, each with all outcomes.
fn print_end<J: ViewHistory, R: Prints>(
    bench: &Bench<R>,
    requests: u64,
    end: LanesEnd<J, Caller, Counted<Drawn>, Note, AskNote>,
) -> Option<()> {
    let LanesEnd {
        session,
        ends,
        matched,
        bodies,
        worker,
        turns: _,
        line: _,
        published: _,
    } = end;
    cancel_ends(bench.alloc, ends);
    let told = if matched && worker == WorkerEnd::AllLeft {
        sum_of(bodies.as_slice())
    } else {
        None
    };
    print_told(bench, requests, told?, session.log())
}

fn print_told<R: Prints>(bench: &Bench<R>, requests: u64, told: Tally, log: &Log) -> Option<()> {
    let rt = bench.rt;
    kept_nothing(log, &told)?;
    holds(told.is_whole() && told.submitted == requests)?;
    let Tally {
        asked,
        completed,
        timeouts,
        failed,
        discovered,
        aborted,
        ..
    } = told;
    println!(rt; "Lasting threads: {requests} requests, {asked} discoveries").ok()?;
    let entries = log.len_in_all();
    let kilobytes = resident(rt).unwrap_or(0);
    eprintln!(rt;
        "Lasting threads: Tally {{ completed: {completed}, timeouts: {timeouts}, failed: {failed}, \
        discovered: {discovered}, aborted: {aborted} }}, {entries} entries, {kilobytes} kB"
    )
    .ok()
}

// Cancels the callbacks that are left.
fn cancel_ends<J: ViewHistory>(alloc: Global, ends: Vec<ClientEnd<J, Note, AskNote>>) {
    let mut ends = ends;
    while let Some(end) = ends.pop() {
        cancels(alloc, end.into_unspent());
    }
    ends.destroy_empty();
}

// What all of them asked for, and were told. None: one of them wasn't told all, or wrongly.
fn sum_of(callers: &[Caller]) -> Option<Tally> {
    let mut told = Tally::default();
    for caller in callers {
        holds(caller.is_right)?;
        told.add(&caller.told);
    }
    Some(told)
}

// Whether the worker has stopped.
#[derive(Drop)]
struct Stop(AtomicU64);

impl Gate for Stop {
    fn arrive(&self, point: u8) {
        if point == WORKER_STOPPED {
            self.0.store(1, Ordering::SeqCst);
        }
    }

    fn passed(&self, point: u8) -> bool {
        point == WORKER_STOPPED && self.0.load(Ordering::SeqCst) == 1
    }
}

// What a client does: it makes its calls as fast as its queue accepts them, and counts those that are told.
#[derive(Drop)]
struct Caller {
    client: u64,
    share: u64,
    discovers: bool,
    random: Random,
    // Whether its next call is a discovery.
    asks_next: bool,
    waiting: Waiting,
    told: Tally,
    is_right: bool,
}

impl Caller {
    fn new(alloc: Global, client: u64, discovers: bool, share: u64) -> Option<Caller> {
        Some(Caller {
            client,
            share,
            discovers,
            random: Random::new(client.wrapping_add(3)),
            asks_next: false,
            waiting: Waiting::new(alloc)?,
            told: Tally::default(),
            is_right: false,
        })
    }

    // Makes its calls, and collects their outcomes. Returns whether it was told of each once, and rightly.
    fn perform<J: ViewHistory, G: Gate>(
        &mut self,
        client: &mut RingClient<J, Note, AskNote>,
        gate: &G,
    ) -> bool
        ensures { SameClient client.old client.new }
    {
        let mut idle = 0u64;
        for _try in 0..u64::MAX {
            let Some(does) = self.turn(client) else {
                return false;
            };
            if self.told.submitted == self.share && self.told.is_whole() {
                return true;
            }
            idle = if does { 0 } else { idle.wrapping_add(1) };
            if idle > TRIES || gate.passed(WORKER_STOPPED) {
                return false;
            }
            if idle > 0 {
                thread::yield_now();
            }
        }
        false
    }

    // Makes its next call, if there is one, and collects an outcome. Returns whether it did either. None: something was
    // wrong.
    fn turn<J: ViewHistory>(&mut self, client: &mut RingClient<J, Note, AskNote>) -> Option<bool>
        ensures { SameClient client.old client.new }
    {
        let made = if self.told.submitted == self.share {
            Some(false)
        } else if self.asks_next {
            ask(&(), client, self.told.asked)
        } else {
            submit(&(), client, self.tag())
        };
        let heard = collect(&(), client);
        self.note(made?, heard)
    }

    // Whether its queue has accepted its call, and what it has collected. The call after a request is drawn.
    fn note(&mut self, made: bool, heard: ActResult) -> Option<bool> {
        if made && self.asks_next {
            self.waiting.wait_for_discovery(&mut self.told)?;
            self.asks_next = false;
        } else if made {
            let tag = self.tag();
            self.waiting.wait_for_request(tag, &mut self.told)?;
            self.asks_next = self.discovers && self.random.below(50) == 0;
        }
        self.waiting.hear(heard, &mut self.told)?;
        Some(made || heard != ActResult::Nothing)
    }

    // The tag of its next request. No other client has it. One in 8 asks for the parameter in three parts.
    fn tag(&self) -> u64 {
        let number = self.told.submitted;
        let tag = number.wrapping_mul(u64::from(CLIENTS));
        long_if(tag.wrapping_add(self.client), number % 8 == 0)
    }
}

impl Body<Note, AskNote> for Caller {
    fn run<J: ViewHistory, G: Gate>(
        &mut self,
        client: &mut RingClient<J, Note, AskNote>,
        gate: &G,
    ) {
        self.is_right = self.perform(client, gate);
        leaves(client, gate);
    }
}

// Leaves, once its ring has a free slot.
fn leaves<J: ViewHistory, G: Gate>(client: &mut RingClient<J, Note, AskNote>, gate: &G)
    ensures { SameClient client.old client.new }
{
    for _try in 0..TRIES {
        if client.leave().is_ok() || gate.passed(WORKER_STOPPED) {
            return;
        }
        thread::yield_now();
    }
}
