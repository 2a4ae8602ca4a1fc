//! Clients that take turns with the worker of their session, all in one thread, so none of them ever waits.
ghost use Rattle.std.specs.Prelude.{◌≡◌, [], IfSome};
ghost use Rattle.rdm_log.specs.log.Config.{IsConfig};

use crate::bench::{Bench, Sample, Times, holds};
use crate::packets::TAG;
use rdm_agent::DEFAULT_BUDGET;
use rdm_log::{Config, Entry, Log, MOST_PLACES, Page};
use rdm_wire::Uid;
use std::alloc::Global;
use std::mem;
use test_rig::{ActResult, Ending, Found, LONG, log};

/// How many entries the log of a soak has free if it is drained, beside one for a close.
pub const ENTRIES: usize = 1_000;

/// How many clients there are, unless there is one.
pub const CLIENTS: u8 = 16;

// How many entries of the log stay unused while requests are timed. No session can have as many reserved.
const UNUSED: usize = 13_000;

/// How many entries a log has free, unless requests are timed. Memory that isn't used isn't taken from the system.
pub const FREE: usize = 1_000_000;

/// The queue depth of each client of a port, and the slots of its rings.
pub const PLACES: u8 = 8;

/// Clients of a session, with their worker and its line. None: a call didn't return what it should.
pub trait Served {
    /// A client submits the request with this tag. Returns whether its queue accepted it, or is full.
    fn submit(&mut self, client: usize, tag: u64) -> Option<bool>;

    /// A client asks for a full discovery with this tag. Returns whether its queue accepted it, or is full.
    fn ask(&mut self, client: usize, tag: u64) -> Option<bool>;

    /// A client collects a request's outcome. Returns how many bytes of data it has. None: there is no outcome.
    fn collect_bytes(&mut self, client: usize) -> Option<usize>;

    /// A client collects its next outcome, if there is one.
    fn collect(&mut self, client: usize) -> Option<ActResult>;

    /// The worker makes this many turns.
    fn work(&mut self, turns: u64) -> Option<()>;

    /// The operator pauses, or resumes.
    fn pause(&mut self, pauses: bool) -> Option<()>;

    /// The entries that the log stores; it goes on in this memory. None: there is no log, or too little memory.
    fn drain(&mut self, next: Vec<Entry>) -> Option<Page>
        requires { next.items ≡ [] };

    /// The worker makes a turn. The log is drained between its frame and the reply, if it can be drained then.
    /// Otherwise, or if no frame is sent, it is drained afterwards.
    fn work_drained(&mut self, next: Vec<Entry>) -> Option<Page>
        requires { next.items ≡ [] };
}

/// What is done with the clients of a session.
pub trait Job<R> {
    /// Does it.
    fn perform<S: Served>(&mut self, bench: &Bench<R>, served: &mut S) -> Option<()>;

    /// Looks at the log of a session that was drained, once it has ended.
    fn end(&mut self, log: &Log) -> Option<()>;
}

/// The tag of the request with this number. One in 8 asks for the parameter in three parts.
pub fn tag_of(number: u64) -> u64 {
    long_if(number, number % 8 == 0)
}

/// This tag, or one that asks for the parameter in three parts.
pub fn long_if(tag: u64, is_long: bool) -> u64 {
    if is_long { tag.wrapping_add(LONG) } else { tag }
}

/// A controller `7a70:00000100` with all the places that there may be.
pub fn config() -> Config
    ensures { IsConfig result }
{
    Config {
        source: Uid::new(0x7a70, 0x100),
        places: MOST_PLACES,
        budget: DEFAULT_BUDGET,
    }
}

/// A log for the requests that are timed: five entries for each, and as many unused ones as most logs have. Its memory
/// was written before, so none is taken from the system meanwhile.
pub fn written_log<R>(bench: &Bench<R>) -> Option<Log>
    ensures { IfSome result (λ log. log.entries ≡ []) }
{
    let requests = bench.repeats().wrapping_add(bench.size);
    let mut log = log(bench.alloc, requests.wrapping_mul(5).wrapping_add(UNUSED)).ok()?;
    for _ in 0..log.room() {
        if log.len_in_all() < log.room() as u64 {
            log.append(Entry::Pause);
        }
    }
    Some(log.cleared())
}

/// Times turns while this many requests wait: one is answered and collected, and another submitted. Or times
/// discoveries that have this many frames and find this many devices.
#[derive(Clone, Copy)]
pub struct Timing {
    pub work: &'static str,
    pub clients: u8,
    pub waiting: usize,
    /// How many bytes of data an outcome has.
    pub bytes: usize,
    pub discovery: Option<(u64, usize)>,
    /// How many turns there are between two drains of the log; 0: it isn't drained.
    pub drained_after: usize,
}

impl Timing {
    /// Times requests of this many clients, while this many wait, without a drain.
    pub fn new(work: &'static str, clients: u8, waiting: usize) -> Timing {
        Timing {
            work,
            clients,
            waiting,
            bytes: 2,
            discovery: None,
            drained_after: 0,
        }
    }
}

impl<R: Times> Job<R> for Timing {
    fn perform<S: Served>(&mut self, bench: &Bench<R>, served: &mut S) -> Option<()> {
        let clients = usize::from(self.clients).max(1);
        for index in 0..self.waiting {
            holds(served.submit(index % clients, TAG)?)?;
        }
        let mut turns = Turns {
            served,
            timing: *self,
            clients,
            turn: 0,
            alloc: bench.alloc,
            next: written_page(bench.alloc, self.drained_after, self.waiting)?,
        };
        bench.time(self.work, &mut turns)
    }

    fn end(&mut self, _log: &Log) -> Option<()> {
        Some(())
    }
}

// Clients that take turns, while requests wait. Or a discovery after another.
#[derive(Drop)]
struct Turns<'a, S> {
    served: &'a mut S,
    timing: Timing,
    clients: usize,
    turn: usize,
    alloc: Global,
    next: Vec<Entry>,
}

impl<S: Served> Sample for Turns<'_, S> {
    fn perform(&mut self) -> Option<u64> {
        if let Some((frames, devices)) = self.timing.discovery {
            return self.discover(frames, devices);
        }
        let clients = self.clients.max(1);
        let submitter = self.turn.wrapping_add(self.timing.waiting) % clients;
        self.served.work(1)?;
        holds(self.served.collect_bytes(self.turn % clients)? == self.timing.bytes)?;
        holds(self.served.submit(submitter, TAG)?)?;
        self.turn = self.turn.wrapping_add(1);
        if self.turn.checked_rem(self.timing.drained_after) == Some(0) {
            self.drain()?;
        }
        Some(1)
    }
}

impl<S: Served> Turns<'_, S> {
    // The first client asks for a discovery, and is told of it.
    #[inline(never)]
    fn discover(&mut self, frames: u64, devices: usize) -> Option<u64> {
        holds(self.served.ask(0, 0)?)?;
        self.served.work(frames)?;
        match self.served.collect(0)? {
            ActResult::Discovery(_, _, Ending::Faultless, Found::Others(found)) => {
                holds(found == devices)?;
                Some(frames)
            }
            _ => None,
        }
    }

    // The page that was drained before is the memory of the next.
    fn drain(&mut self) -> Option<()> {
        let mut next = mem::replace(&mut self.next, Vec::new(self.alloc));
        next.clear();
        self.next = self.served.drain(next)?.entries;
        Some(())
    }
}

// Memory for the entries of this many turns, and for those that are reserved while this many requests wait. It was
// written before.
fn written_page(alloc: Global, turns: usize, waiting: usize) -> Option<Vec<Entry>> {
    let room = if turns > 0 {
        page_room(turns, waiting)
    } else {
        0
    };
    let mut page = Vec::with_capacity(alloc, room).ok()?;
    for _ in 0..room {
        page.push(Entry::Pause).ok()?;
    }
    page.clear();
    Some(page)
}

/// How many entries of a log are enough for this many turns, five entries each, while this many requests wait.
pub fn page_room(turns: usize, waiting: usize) -> usize {
    turns
        .wrapping_mul(5)
        .wrapping_add(waiting.wrapping_mul(3))
        .wrapping_add(100)
}
