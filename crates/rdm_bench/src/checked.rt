//! What is checked of a session: what its clients are told, its pages, and the memory of the process.
use crate::bench::holds;
use crate::served::PLACES;
use rdm_join::Status;
use rdm_log::{Entry, Log};
use std::alloc::Global;
use std::collections::VecDeque;
use test_rig::{ActResult, Ending, Found};

// After how many requests the memory that the process holds has to be settled.
const SETTLED_AFTER: u64 = 1_000_000;

// How many kilobytes more it may hold from then on.
const MOST_GROWTH: u64 = 64;

/// The calls of clients, and what was reported to them.
#[derive(Clone, Copy, Default)]
pub struct Tally {
    pub submitted: u64,
    pub asked: u64,
    pub completed: u64,
    pub timeouts: u64,
    pub failed: u64,
    pub discovered: u64,
    pub aborted: u64,
}

impl Tally {
    /// Whether each call was reported.
    pub fn is_whole(&self) -> bool {
        let requests = self.completed.wrapping_add(self.timeouts);
        requests.wrapping_add(self.failed) == self.submitted
            && self.discovered.wrapping_add(self.aborted) == self.asked
    }

    /// Adds those of another one.
    pub fn add(&mut self, other: &Tally) {
        self.submitted = self.submitted.wrapping_add(other.submitted);
        self.asked = self.asked.wrapping_add(other.asked);
        self.completed = self.completed.wrapping_add(other.completed);
        self.timeouts = self.timeouts.wrapping_add(other.timeouts);
        self.failed = self.failed.wrapping_add(other.failed);
        self.discovered = self.discovered.wrapping_add(other.discovered);
        self.aborted = self.aborted.wrapping_add(other.aborted);
    }

    // A call has ended like this. A discovery finds both devices, or ends as the line fails. None: it can't end like
    // this on this line.
    fn count(&mut self, heard: ActResult) -> Option<()> {
        let count = match heard {
            ActResult::Answered(_, 1, 2) | ActResult::Data(_, 231 | 462 | 693) =>
                &mut self.completed,
            ActResult::Request(_, Status::Timeout) => &mut self.timeouts,
            ActResult::Request(_, Status::FailedToSend) => &mut self.failed,
            ActResult::Discovery(_, _, Ending::Faultless, Found::FirstAndSecond) => {
                &mut self.discovered
            }
            ActResult::Discovery(_, _, Ending::Faultless, _) => return None,
            ActResult::Discovery(_, _, _, _) => &mut self.aborted,
            _ => return None,
        };
        *count = count.wrapping_add(1);
        Some(())
    }
}

/// The tags of the calls that a client waits for, oldest first. Nothing else of a call is kept.
#[derive(Drop)]
pub struct Waiting {
    requests: VecDeque<u64>,
    discoveries: VecDeque<u64>,
}

impl Waiting {
    /// It waits for nothing. None: out of memory.
    pub fn new(alloc: Global) -> Option<Waiting> {
        let places = usize::from(PLACES);
        Some(Waiting {
            requests: VecDeque::with_capacity(alloc, places).ok()?,
            discoveries: VecDeque::with_capacity(alloc, places).ok()?,
        })
    }

    /// Its queue has accepted the request with this tag. None: out of memory.
    pub fn wait_for_request(&mut self, tag: u64, told: &mut Tally) -> Option<()> {
        told.submitted = told.submitted.wrapping_add(1);
        self.requests.push_back(tag).ok()
    }

    /// Its queue has accepted the next discovery, whose tag is the number of those before. None: out of memory.
    pub fn wait_for_discovery(&mut self, told: &mut Tally) -> Option<()> {
        let tag = told.asked;
        told.asked = tag.wrapping_add(1);
        self.discoveries.push_back(tag).ok()
    }

    /// It has collected this. An outcome has to be that of its oldest call of this kind.
    pub fn hear(&mut self, heard: ActResult, told: &mut Tally) -> Option<()> {
        let (oldest, tag) = match heard {
            ActResult::Nothing => return Some(()),
            ActResult::Discovery(tag, _, _, _) => (self.discoveries.pop_front(), tag),
            ActResult::Answered(tag, _, _) | ActResult::Data(tag, _) | ActResult::Request(tag, _) =>
                { (self.requests.pop_front(), tag) }
            _ => return None,
        };
        holds(oldest == Some(tag))?;
        told.count(heard)
    }
}

/// The history that the pages so far have.
#[derive(Clone, Copy, Default)]
pub struct History {
    pub entries: u64,
    /// How many pages end between a frame and its reply.
    pub awaited: u64,
    accepts: u64,
    finishes: u64,
    asks: u64,
    answers: u64,
    collects: u64,
    // Whether a frame was sent whose reply hasn't come.
    awaits: bool,
}

impl History {
    /// These entries have to follow the pages before, and the first of them has this number.
    pub fn follow(&mut self, first: u64, entries: &[Entry]) -> Option<()> {
        holds(first == self.entries)?;
        for entry in entries {
            self.entries = self.entries.wrapping_add(1);
            match entry {
                Entry::Accept { number, .. } => follows(&mut self.accepts, *number)?,
                Entry::Finish { number, .. } => follows(&mut self.finishes, *number)?,
                Entry::Ask { number, .. } => follows(&mut self.asks, *number)?,
                Entry::Answer { number, .. } => follows(&mut self.answers, *number)?,
                Entry::Collect { .. } => self.collects = self.collects.wrapping_add(1),
                Entry::Send { .. } => switches(&mut self.awaits, true)?,
                Entry::Came { .. } => switches(&mut self.awaits, false)?,
                _ => {}
            }
        }
        if self.awaits {
            self.awaited = self.awaited.wrapping_add(1);
        }
        Some(())
    }

    /// What the log stores has to follow the pages, and to end with its last entry. All together have to have these
    /// calls, each once.
    pub fn end(&mut self, log: &Log, told: &Tally) -> Option<()> {
        self.follow(log.gone(), log.entries())?;
        holds(self.entries == log.len_in_all() && !self.awaits && self.has_all(told))
    }

    /// Whether the pages have these calls, each once.
    pub fn has_all(&self, told: &Tally) -> bool {
        let (requests, discoveries) = (told.submitted, told.asked);
        self.accepts == requests
            && self.finishes == requests
            && self.asks == discoveries
            && self.answers == discoveries
            && self.collects == requests.wrapping_add(discoveries)
    }
}

/// The log has to store nothing, and to have had at least three entries for each of these calls: its own, its end and
/// its collection.
pub fn kept_nothing(log: &Log, told: &Tally) -> Option<()> {
    let calls = told.submitted.wrapping_add(told.asked);
    holds(!log.keeps() && log.entries().is_empty())?;
    holds(log.len_in_all() >= calls.wrapping_mul(3))
}

// The number has to be the next one.
fn follows(next: &mut u64, number: u64) -> Option<()> {
    holds(number == *next)?;
    *next = number.wrapping_add(1);
    Some(())
}

// It has to become another one.
fn switches(it: &mut bool, to: bool) -> Option<()> {
    holds(*it != to)?;
    *it = to;
    Some(())
}

/// How much memory the process held after the first million requests.
#[derive(Default, Drop)]
pub struct Held {
    settled: Option<u64>,
}

impl Held {
    /// After this many requests it holds this many kilobytes. From the first million on it may hold at most 64 more
    /// than it held then.
    pub fn stays(&mut self, requests: u64, kilobytes: u64) -> Option<()> {
        if requests < SETTLED_AFTER {
            return Some(());
        }
        let settled = *self.settled.get_or_insert(kilobytes);
        holds(kilobytes <= settled.saturating_add(MOST_GROWTH))
    }
}
