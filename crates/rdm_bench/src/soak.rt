//! Many requests of sixteen clients of one session, on a line that loses and fails, with pauses. Each request and each
//! discovery has to be reported once, to its client, in order. Clients take turns drawn at random, the same in each
//! run. The log of a session that never ends keeps nothing, or is drained all the time, and each page has to follow the
//! one before it.

use crate::bench::{Bench, Prints, holds};
use crate::checked::{Held, History, Tally, Waiting, kept_nothing};
use crate::lines::{Random, drawn_line};
use crate::ports::on_session;
use crate::queue::on_queue;
use crate::served::{CLIENTS, ENTRIES, FREE, Job, Served, tag_of};
use rdm_log::{Entry, Log};
use std::alloc::Global;
use std::sync::Wait;
use std::{fs, mem};
use test_rig::{NOTHING_KEPT, log};

// How many blocks fill the gaps in memory while it is measured.
const BLOCKS: usize = 512;

// How many bytes each of them has: 2 MB together.
const BLOCK: usize = 4_000;

// How many rounds there are between two drains. In one round of as many, drawn at random, there is one more, before the
// reply to a frame.
const ROUNDS: u64 = 8;

/// Which session it is.
#[derive(Clone, Copy)]
pub enum Port {
    Alone,
    Locked,
    Rings,
}

/// What its log keeps: all entries, none, or those since the last drain.
#[derive(Clone, Copy, PartialEq, Eq)]
pub enum Keeps {
    All,
    Nothing,
    Pages,
}

impl Keeps {
    // How many entries its log has free.
    fn free(self) -> usize {
        match self {
            Keeps::All => FREE,
            Keeps::Nothing => NOTHING_KEPT,
            Keeps::Pages => ENTRIES,
        }
    }
}

// The name of a session whose log keeps this.
fn name_of(port: Port, keeps: Keeps) -> &'static str {
    match (port, keeps) {
        (Port::Alone, Keeps::Pages) => "Drained session",
        (Port::Alone, _) => "Lasting session",
        (Port::Locked, Keeps::All) => "Locked",
        (Port::Locked, Keeps::Nothing) => "Lasting port",
        (Port::Locked, Keeps::Pages) => "Drained port",
        (Port::Rings, Keeps::All) => "Rings",
        (Port::Rings, Keeps::Nothing) => "Lasting rings",
        (Port::Rings, Keeps::Pages) => "Drained rings",
    }
}

/// Prints what the clients of as many ports as there are rounds are told, each of SIZE requests. How much memory
/// the process holds after each port goes to standard error.
pub fn print_ports<R: Prints + Wait>(bench: &Bench<R>, port: Port) -> Option<()> {
    let mut held = Held::default();
    let mut requests: u64 = 0;
    for seed in 1..=bench.rounds as u64 {
        let mut soak = Soak::new(bench, port, Keeps::All, seed)?;
        soak.serve_on(bench, seed)?;
        requests = requests.wrapping_add(soak.told.submitted);
        held.stays(requests, soak.print(bench)?)?;
    }
    Some(())
}

/// Prints what the clients of one session are told of SIZE requests, as often as there are rounds, and how many
/// entries its pages have. Its log keeps nothing, or is drained. How much memory the process holds after each goes to
/// standard error. `discovers`: one call in 50 is a discovery.
pub fn print_one<R: Prints + Wait>(
    bench: &Bench<R>,
    port: Port,
    keeps: Keeps,
    discovers: bool,
) -> Option<()> {
    let mut soak = Soak::new(bench, port, keeps, 2)?;
    soak.discovers = discovers;
    soak.serve_on(bench, 1)
}

/// How many kilobytes of memory the process holds now, if the system says it, as Linux does. Pages of its files aren't
/// among them, since the system takes them back when it likes.
pub fn resident<R: Prints>(rt: &R) -> Option<u64> {
    let text = fs::read_to_string(rt, "/proc/self/status").ok()?;
    resident_in(text.as_str())
}

// The same while the gaps between values in use are filled; 0: the system doesn't say it. None: out of memory. Gaps
// come and go while no more memory is in use: a shared view takes 16 bytes more than a set, so the two don't fit where
// two sets were.
fn resident_without_gaps<R: Prints>(rt: &R, alloc: Global) -> Option<u64> {
    let mut blocks = Vec::with_capacity(alloc, BLOCKS).ok()?;
    for _ in 0..BLOCKS {
        blocks.push(vec![in alloc; 0u8; BLOCK].ok()?).ok()?;
    }
    Some(resident(rt).unwrap_or(0))
}

// The number after "RssAnon:".
fn resident_in(text: &str) -> Option<u64> {
    let (_, from) = text.split_once("RssAnon:")?;
    from.split_ascii_whitespace().next()?.parse::<u64>().ok()
}

// Requests of the clients of one session, and what was reported of them.
#[derive(Drop)]
struct Soak {
    alloc: Global,
    port: Port,
    keeps: Keeps,
    requests: u64,
    discovers: bool,
    random: Random,
    // What each client waits for.
    waiting: Vec<Waiting>,
    told: Tally,
    // The memory of the next page.
    next: Vec<Entry>,
    history: History,
    held: Held,
}

impl<R: Prints> Job<R> for Soak {
    // At last each client looks for one outcome more.
    fn perform<S: Served>(&mut self, bench: &Bench<R>, served: &mut S) -> Option<()> {
        let rounds = if self.is_one() { bench.rounds } else { 1 };
        for _ in 0..rounds {
            self.submit_until(served, self.told.submitted.wrapping_add(self.requests))?;
            if self.is_one() {
                let kilobytes = self.print(bench)?;
                self.held.stays(self.told.submitted, kilobytes)?;
            }
        }
        for client in 0..usize::from(CLIENTS) {
            self.collect(served, client)?;
        }
        // The second page is empty, and has the number of all entries.
        self.drain(served, false)?;
        self.drain(served, false)?;
        holds(self.told.is_whole() && (!self.is_drained() || self.history.has_all(&self.told)))
    }

    fn end(&mut self, log: &Log) -> Option<()> {
        match self.keeps {
            Keeps::Nothing => kept_nothing(log, &self.told),
            _ => self.history.end(log, &self.told),
        }
    }
}

impl Soak {
    fn new<R>(bench: &Bench<R>, port: Port, keeps: Keeps, seed: u64) -> Option<Soak> {
        let alloc = bench.alloc;
        let mut waiting = Vec::new(alloc);
        for _ in 0..CLIENTS {
            waiting.push(Waiting::new(alloc)?).ok()?;
        }
        Some(Soak {
            alloc,
            port,
            keeps,
            requests: bench.size as u64,
            discovers: false,
            random: Random::new(seed),
            waiting,
            told: Tally::default(),
            next: Vec::with_capacity(alloc, if keeps == Keeps::Pages { ENTRIES } else { 0 }).ok()?,
            history: History::default(),
            held: Held::default(),
        })
    }

    // Whether it is the only session, which never ends.
    fn is_one(&self) -> bool {
        self.keeps != Keeps::All
    }

    fn is_drained(&self) -> bool {
        self.keeps == Keeps::Pages
    }

    // Opens its session over its log and a line drawn by this seed.
    fn serve_on<R: Prints + Wait>(&mut self, bench: &Bench<R>, seed: u64) -> Option<()> {
        let line = drawn_line(bench.alloc, seed)?;
        let log = log(bench.alloc, self.keeps.free()).ok()?;
        let record = if self.is_one() {
            None
        } else {
            Some(Vec::new(bench.alloc))
        };
        match self.port {
            Port::Alone => on_queue(bench, log, line, self),
            Port::Locked => on_session(bench, true, CLIENTS, log, record, line, self),
            Port::Rings => on_session(bench, false, CLIENTS, log, record, line, self),
        }
    }

    // Rounds until so many requests were submitted, and all were reported. There are many more rounds than it takes.
    fn submit_until<S: Served>(&mut self, served: &mut S, submitted: u64) -> Option<()> {
        for round in 0..self.requests.wrapping_mul(8).wrapping_add(10_000) {
            if self.told.submitted < submitted {
                self.submit(served, submitted)?;
            } else if self.told.is_whole() {
                return Some(());
            }
            self.serve(served)?;
            if round % ROUNDS == 0 {
                self.drain(served, false)?;
            }
        }
        None
    }

    // A client submits up to four requests, or asks for a discovery, as far as its queue has places. Unless the session
    // never ends, there are no more requests than these.
    fn submit<S: Served>(&mut self, served: &mut S, most: u64) -> Option<()> {
        let client = self.random.below(u64::from(CLIENTS)) as usize;
        if self.discovers && self.random.below(50) == 0 {
            let accepted = served.ask(client, self.told.asked)?;
            if accepted {
                self.waiting
                    .get_mut(client)?
                    .wait_for_discovery(&mut self.told)?;
            }
            return Some(());
        }
        for _ in 0..self.random.below(5) {
            if self.is_one() || self.told.submitted < most {
                self.submit_one(served, client)?;
            }
        }
        Some(())
    }

    fn submit_one<S: Served>(&mut self, served: &mut S, client: usize) -> Option<()> {
        let tag = tag_of(self.told.submitted);
        if served.submit(client, tag)? {
            self.waiting
                .get_mut(client)?
                .wait_for_request(tag, &mut self.told)?;
        }
        Some(())
    }

    // The worker makes up to four turns, and a client collects up to seven outcomes. One round in 200 has a pause, in
    // which the log is drained. In some rounds it is drained between a frame and its reply.
    fn serve<S: Served>(&mut self, served: &mut S) -> Option<()> {
        if self.random.below(200) == 0 {
            served.pause(true)?;
            served.work(self.random.below(4))?;
            self.drain(served, false)?;
            served.pause(false)?;
        }
        served.work(self.random.below(4).wrapping_add(1))?;
        if self.is_drained() && self.random.below(ROUNDS) == 0 {
            self.drain(served, true)?;
        }
        let client = self.random.below(u64::from(CLIENTS)) as usize;
        for _ in 0..self.random.below(8) {
            self.collect(served, client)?;
        }
        Some(())
    }

    // A client collects an outcome, if there is one.
    fn collect<S: Served>(&mut self, served: &mut S, client: usize) -> Option<()> {
        let heard = served.collect(client)?;
        self.waiting.get_mut(client)?.hear(heard, &mut self.told)
    }

    // Drains the log, if it has to be drained: at once, or in a turn of the worker. The page that was drained before is
    // the memory of the next.
    fn drain<S: Served>(&mut self, served: &mut S, works: bool) -> Option<()> {
        if !self.is_drained() {
            return Some(());
        }
        let mut next = mem::replace(&mut self.next, Vec::new(self.alloc));
        next.clear();
        let page = if works {
            served.work_drained(next)?
        } else {
            served.drain(next)?
        };
        let follows = self.history.follow(page.first, page.entries.as_slice());
        self.next = page.entries;
        follows
    }

    // Returns how many kilobytes of memory the process holds.
    fn print<R: Prints>(&self, bench: &Bench<R>) -> Option<u64> {
        let (rt, name) = (bench.rt, name_of(self.port, self.keeps));
        let Tally {
            completed,
            timeouts,
            failed,
            ..
        } = self.told;
        println!(rt; "{name}: {completed} completed, {timeouts} timeouts, {failed} failed").ok()?;
        if self.is_one() {
            self.print_one(rt, name)?;
        }
        let kilobytes = resident_without_gaps(rt, self.alloc)?;
        eprintln!(rt; "{name}: {kilobytes} kB").ok()?;
        Some(kilobytes)
    }

    fn print_one<R: Print>(&self, rt: &R, name: &str) -> Option<()> {
        let (discovered, aborted) = (self.told.discovered, self.told.aborted);
        println!(rt; "{name}: {discovered} discovered, {aborted} failed").ok()?;
        if !self.is_drained() {
            return Some(());
        }
        let (entries, awaited) = (self.history.entries, self.history.awaited);
        println!(rt; "{name}: {entries} entries, {awaited} drains before a reply").ok()
    }
}
