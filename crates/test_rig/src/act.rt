//! What the clients of a queue, its operator and its worker do, one act after another.
use crate::act_result::ActResult;
use crate::wrong::Wrong;
use rdm_agent::Kind;
use std::alloc::Global;

/// What a client does.
#[derive(Clone, Copy)]
pub enum Step {
    /// It submits the request with this tag.
    Submit(u64),
    /// It asks for a discovery of this kind, with this tag.
    Discover(Kind, u64),
    /// It collects.
    Collect,
    /// It leaves.
    Leave,
    /// It reads, and says which devices it knows of.
    Look,
    /// It says which devices it knows of without reading.
    Know,
}

/// What somebody does. Clients have numbers from 0.
#[derive(Clone, Copy)]
pub enum Act {
    /// A client joins with this queue depth.
    Join(u8),
    /// What this client does.
    Client(u8, Step),
    /// The operator pauses.
    Pause,
    /// The operator resumes.
    Resume,
    /// The operator closes.
    Close,
    /// The operator leaves.
    Retire,
    /// The worker works for this many turns at most.
    Work(u64),
    /// A session gives its next frame.
    Take,
    /// The line's answer to that frame is delivered.
    Deliver,
}

/// An act and its expected result.
pub type Move = (Act, ActResult);

/// Where acts are done. For an act that a stage doesn't support, the result is [`ActResult::Nothing`].
pub trait MakesActs {
    /// Does this, and returns its result.
    fn act(&mut self, alloc: Global, act: Act) -> ActResult;
}

/// Who drives a stage.
pub trait Driver {
    /// Does acts there.
    fn drive<S: MakesActs>(&mut self, alloc: Global, stage: &mut S);
}

/// A driver that makes these moves.
#[derive(Drop)]
pub struct Mover<'a> {
    moves: &'a [Move],
    /// Err: the first one with another result than expected.
    pub made: Result<(), Wrong>,
}

impl<'a> Mover<'a> {
    /// A driver that will make these moves.
    pub fn new(moves: &'a [Move]) -> Mover<'a> {
        Mover {
            moves,
            made: Ok(()),
        }
    }
}

impl Driver for Mover<'_> {
    fn drive<S: MakesActs>(&mut self, alloc: Global, stage: &mut S) {
        self.made = moved(alloc, stage, self.moves);
    }
}

/// Makes these moves. Err: the first one with another result than expected.
pub fn moved<S: MakesActs>(alloc: Global, stage: &mut S, moves: &[Move]) -> Result<(), Wrong> {
    for (number, (act, wanted)) in moves.iter().enumerate() {
        let came = stage.act(alloc, *act);
        if came != *wanted {
            return Err(Wrong::Move(number, came));
        }
    }
    Ok(())
}
