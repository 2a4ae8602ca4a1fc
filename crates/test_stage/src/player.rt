//! Clients with ring buffers that run a script in threads of their own, and the points at which they meet.
ghost use Rattle.rdm_lanes.specs.Clients.{SameClient};

use crate::lanes::makes;
use rdm_lanes::views::ViewHistory;
use rdm_lanes::{Body, Gate, RingClient, WORKER_STOPPED};
use std::sync::atomic::{AtomicU64, Ordering};
use std::thread;
use test_rig::{ActResult, AskNote, Note, Refusal, Step};

/// How often a player tries before it gives up.
pub const TRIES: u64 = 100_000_000;

/// How many steps of a player are noted.
pub const MOST_NOTED: usize = 20;

/// Three points, 0, 1 and 2, and that of the worker's stop. Each is reached or not.
#[derive(Drop)]
pub struct Points {
    first: AtomicU64,
    second: AtomicU64,
    third: AtomicU64,
    stopped: AtomicU64,
}

impl Points {
    /// Points that nobody has reached.
    pub fn new() -> Points {
        Points {
            first: AtomicU64::new(0),
            second: AtomicU64::new(0),
            third: AtomicU64::new(0),
            stopped: AtomicU64::new(0),
        }
    }

    fn at(&self, point: u8) -> Option<&AtomicU64> {
        match point {
            0 => Some(&self.first),
            1 => Some(&self.second),
            2 => Some(&self.third),
            WORKER_STOPPED => Some(&self.stopped),
            _ => None,
        }
    }
}

impl Gate for Points {
    fn arrive(&self, point: u8) {
        if let Some(point) = self.at(point) {
            point.store(1, Ordering::SeqCst);
        }
    }

    fn passed(&self, point: u8) -> bool {
        match self.at(point) {
            Some(point) => point.load(Ordering::SeqCst) == 1,
            None => false,
        }
    }
}

/// Waits for this point. Returns whether it was reached within the tries.
pub fn waits<G: Gate>(gate: &G, point: u8, tries: u64) -> bool {
    for _try in 0..tries {
        if gate.passed(point) {
            return true;
        }
        thread::yield_now();
    }
    false
}

/// One line of a player's script.
#[derive(Clone, Copy)]
pub enum Play {
    /// It notes that this point is reached.
    Arrive(u8),
    /// It waits for this point: Done, or Nothing if it gave up.
    Wait(u8),
    /// It looks whether this point is reached: Done, or Nothing if it isn't.
    Look(u8),
    /// It makes this step, and retries while the ring has no slot.
    Do(Step),
    /// It collects, and retries while nothing has come.
    Hear,
}

/// A script, and the results of its lines except arrivals.
pub type Part<'a> = (&'static [Play], &'a [ActResult]);

/// A client that follows its script.
#[derive(Clone, Copy)]
pub struct Player {
    /// Its script.
    pub script: &'static [Play],
    /// How often it tries before it gives up.
    pub tries: u64,
    /// How often it ran.
    pub runs: u64,
    /// The results of the script's lines except arrivals, in order; only the first ones if there are more than fit.
    pub heard: [ActResult; MOST_NOTED],
}

impl Player {
    /// A client that hasn't run.
    pub fn new(script: &'static [Play]) -> Player {
        Player {
            script,
            tries: TRIES,
            runs: 0,
            heard: [ActResult::Nothing; MOST_NOTED],
        }
    }
}

impl Body<Note, AskNote> for Player {
    fn run<J: ViewHistory, G: Gate>(
        &mut self,
        client: &mut RingClient<J, Note, AskNote>,
        gate: &G,
    ) {
        self.runs = self.runs.saturating_add(1);
        plays(client, gate, self.script, self.tries, &mut self.heard);
    }
}

// Runs the script.
fn plays<J: ViewHistory, G: Gate>(
    client: &mut RingClient<J, Note, AskNote>,
    gate: &G,
    script: &[Play],
    tries: u64,
    heard: &mut [ActResult],
)
    ensures { SameClient client.old client.new }
{
    let mut noted = 0usize;
    for play in script {
        let came = does(client, gate, *play, tries);
        if let Some(came) = came {
            if let Some(item) = heard.get_mut(noted) {
                *item = came;
            }
            noted = noted.saturating_add(1);
        }
    }
}

// Runs this line. None: there is nothing to note.
fn does<J: ViewHistory, G: Gate>(
    client: &mut RingClient<J, Note, AskNote>,
    gate: &G,
    play: Play,
    tries: u64,
) -> Option<ActResult>
    ensures { SameClient client.old client.new }
{
    match play {
        Play::Arrive(point) => {
            gate.arrive(point);
            None
        }
        Play::Wait(point) if waits(gate, point, tries) => Some(ActResult::Done),
        Play::Look(point) if gate.passed(point) => Some(ActResult::Done),
        Play::Wait(_) | Play::Look(_) => Some(ActResult::Nothing),
        Play::Do(step) => Some(sends(client, step, tries)),
        Play::Hear => Some(awaits(client, tries)),
    }
}

// Makes a step once its ring has a slot.
fn sends<J: ViewHistory>(
    client: &mut RingClient<J, Note, AskNote>,
    step: Step,
    tries: u64,
) -> ActResult
    ensures { SameClient client.old client.new }
{
    for _try in 0..tries {
        let heard = makes(client, step);
        if !is_full(heard) {
            return heard;
        }
        thread::yield_now();
    }
    ActResult::Nothing
}

// Whether the ring had no slot.
fn is_full(heard: ActResult) -> bool {
    matches!(
        heard,
        ActResult::Refused(Refusal::NoSlot | Refusal::RingFull(_))
    )
}

// Collects once something has come.
fn awaits<J: ViewHistory>(client: &mut RingClient<J, Note, AskNote>, tries: u64) -> ActResult
    ensures { SameClient client.old client.new }
{
    for _try in 0..tries {
        let heard = makes(client, Step::Collect);
        if heard != ActResult::Nothing {
            return heard;
        }
        thread::yield_now();
    }
    ActResult::Nothing
}
