//! Discovery runs that are told what the line replied.
ghost use Rattle.std.specs.Prelude.{◌≡◌, ℕ};
ghost use Rattle.rdm_wire.specs.Uid.{IsDevice};
ghost use Rattle.rdm_agent.specs.Calls.{next_op};

use crate::bench::{Bench, Sample, Times, holds};
use crate::lines::{Taped, TestLine, devices};
use crate::packets::TRANSACTION_NUMBER;
use rdm_agent::{Agent, DEFAULT_BUDGET, Kind, Op, OpReply};
use rdm_wire::UidSet;
use std::alloc::Global;
use test_rig::controller;

/// Times runs: a start and an end alone; and all frames of a run, with branch replies read from their bytes or not, and
/// with each frame written too or not.
pub fn time<R: Times>(bench: &Bench<R>) -> Option<()> {
    let known = devices(bench.size, (bench.size as u64).wrapping_add(42))?;
    let mut runs = Runs {
        known: &known,
        budget: 0,
        heard: Vec::new(bench.alloc),
        tape: tape(bench.alloc, &known)?,
        reads: false,
        writes: false,
    };
    bench.time("agent, StartAndEnd", &mut runs)?;
    runs.budget = DEFAULT_BUDGET;
    runs.heard = heard_of(bench.alloc, runs.tape.as_slice())?;
    bench.time("agent, Step", &mut runs)?;
    runs.reads = true;
    bench.time("agent, ReadAndStep", &mut runs)?;
    runs.writes = true;
    bench.time("agent, WriteAndReadAndStep", &mut runs)
}

/// What comes in a steady run on a line with these devices that loses nothing.
pub fn tape(alloc: Global, devices: &UidSet) -> Option<Vec<Taped>> {
    let mut line = TestLine::new(alloc, devices)?;
    let found = line.count()?;
    holds(found == devices.len())?;
    Some(line.tape)
}

// What an agent hears of it.
fn heard_of(alloc: Global, tape: &[Taped]) -> Option<Vec<OpReply>> {
    tape.iter()
        .map(|taped| taped.heard())
        .collect::<Vec<OpReply>>(alloc)
        .ok()
}

// Runs over these devices that may make this many exchanges, and what they hear.
#[derive(Drop)]
struct Runs<'a> {
    known: &'a UidSet,
    budget: u64,
    heard: Vec<OpReply>,
    tape: Vec<Taped>,
    reads: bool,
    writes: bool,
}

impl Sample for Runs<'_> {
    #[inline(never)]
    fn perform(&mut self) -> Option<u64> {
        let mut agent = Agent::start(Kind::Full, self.known, self.budget);
        for (index, heard) in self.heard.as_slice().iter().enumerate() {
            let op = agent.next();
            let is_written = self.write(op, index);
            holds(hear(&mut agent, op, self.read(index, *heard)) && is_written)?;
        }
        if agent.next() != Op::End {
            return None;
        }
        holds(match agent.end() {
            Ok(found) => found.len() == self.known.len(),
            Err(_) => self.budget == 0,
        })?;
        Some(self.heard.len().max(1) as u64)
    }
}

impl Runs<'_> {
    // Writes the frame of this operation, if that is to be done. Returns whether there is such a frame.
    #[inline(never)]
    fn write(&self, op: Op, index: usize) -> bool
        requires device { (u : ℕ) → op ≡ Op.Mute u → IsDevice u }
    {
        if !self.writes {
            return true;
        }
        let tn = (index % 256) as u8;
        op != Op::End && op.frame(controller(), tn).get(TRANSACTION_NUMBER) == Some(&tn)
    }

    // What the agent hears. A branch reply is read from its bytes, if that is to be done.
    fn read(&self, index: usize, heard: OpReply) -> OpReply {
        match self.tape.get(index) {
            Some(taped) if self.reads => taped.heard(),
            _ => heard,
        }
    }
}

// The agent hears the reply to this operation, which has to be what it asks next. Returns whether the reply fits.
fn hear(agent: &mut Agent, op: Op, reply: OpReply) -> bool
    requires { op ≡ next_op agent.old }
{
    let fits = reply.fits(&op);
    if fits {
        agent.hear(reply);
    }
    fits
}
