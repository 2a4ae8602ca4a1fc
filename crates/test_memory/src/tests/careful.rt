//! Moves of which one may run out of memory.
use crate::tests::*;

/// Makes moves. If one of them runs out of memory, it is made again.
#[derive(Drop)]
pub struct Careful<'a> {
    moves: &'a [Move],
    was_refused: bool,
    /// The first move with another result than expected, and that result.
    wrong: Option<(usize, ActResult)>,
}

impl<'a> Careful<'a> {
    /// A driver that will make these moves.
    pub fn new(moves: &'a [Move]) -> Careful<'a> {
        Careful {
            moves,
            was_refused: false,
            wrong: None,
        }
    }

    /// All moves had the expected results.
    pub fn is_right(&self, rt: &impl Abort) {
        assert!(rt; self.wrong.is_none(), "{:?}", self.wrong);
    }

    // The result of the act when it is made again, after it had this result for lack of memory.
    fn again<S: MakesActs>(
        &mut self,
        alloc: Global,
        stage: &mut S,
        act: Act,
        came: ActResult,
    ) -> ActResult {
        if self.was_refused {
            return came;
        }
        self.was_refused = true;
        match (act, came) {
            (Act::Join(_), Nothing | Refused(Refusal::Join(JoinFault::NoMemory))) => {}
            // The last turn made no exchange, published no view, or moved no outcome: the next turn does.
            (Act::Client(_, Step::Collect), Nothing) => works(alloc, stage, 1),
            (Act::Client(client, Step::Collect), Request(tag, Status::NoMemory)) => {
                let _ = stage.act(alloc, Act::Client(client, Step::Submit(tag)));
                works(alloc, stage, 3);
            }
            _ => return came,
        }
        stage.act(alloc, act)
    }
}

// Makes this many turns.
fn works<S: MakesActs>(alloc: Global, stage: &mut S, turns: u64) {
    let _ = stage.act(alloc, Act::Work(turns));
}

impl Driver for Careful<'_> {
    fn drive<S: MakesActs>(&mut self, alloc: Global, stage: &mut S) {
        let moves = self.moves;
        for (number, (act, wanted)) in moves.iter().enumerate() {
            let mut came = stage.act(alloc, *act);
            if came != *wanted {
                came = self.again(alloc, stage, *act, came);
            }
            if came != *wanted && self.wrong.is_none() {
                self.wrong = Some((number, came));
            }
        }
    }
}

/// Whether a request in this log got no data and was made again. The log has to have `wanted` entries. If a call ran
/// out of memory, it has more: one for a join, `request` for such a request.
pub fn is_again(rt: &impl Abort, log: &[Said], wanted: usize, request: usize) -> bool {
    let mut more = 0;
    let mut is_again = false;
    for said in log {
        match said {
            Said::Refuse(None, 4) => more = 1,
            Said::Finish(_, Status::NoMemory, 0) => {
                more = request;
                is_again = true;
            }
            _ => {}
        }
    }
    check(rt, log.len() == wanted.saturating_add(more));
    is_again
}
