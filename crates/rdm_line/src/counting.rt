//! A line of one's own, with its failures counted.
ghost use Rattle.std.specs.Prelude.{◌≡◌, ⊤};
ghost use Rattle.rdm_join.specs.Exchange.{event_of};
ghost use Rattle.rdm_line.specs.Events.{Exchange};
ghost use Rattle.rdm_line.specs.Counting.{CountedStep, IsReturned, event_of_bytes};

use crate::line::Line;
use rdm_join::{LineFault, LineReply};
use rdm_wire::Frame;

/// What sends a frame and waits for its reply, and counts nothing. [`Counted`] makes a [`Line`] of it.
pub trait Asks {
    /// The step, which relates the same values as a line's. If you don't name one, nothing is promised.
    ghost step: { Self → Exchange → Self → Type 0 } = { λ _ _ _. ⊤ };

    /// Sends a frame, and returns the bytes that came after it. No bytes are silence. `None`: the line failed.
    fn ask(&mut self, frame: &Frame) -> Option<LineReply>
        ensures { step self.old (frame.now, event_of_bytes result) self.new };
}

/// A line that counts the failures of what it asks. Once it has counted `u64::MAX`, a failure is silence.
#[derive(Debug, Drop)]
pub struct Counted<A> {
    asks: A,
    failures: u64,
}

impl<A> Counted<A> {
    /// A line that hasn't failed yet.
    pub fn new(asks: A) -> Counted<A>
        ensures asks { result.asks ≡ asks }
        ensures failures { result.failures ≡ 0 }
    {
        Counted { asks, failures: 0 }
    }

    /// What it asks, as the last exchange left it.
    pub fn into_inner(self) -> A
        ensures { result ≡ self.asks }
    {
        self.asks
    }
}

impl<A: Asks> Line for Counted<A> {
    ghost step = { λ old exchange new. CountedStep A A.step old.asks old.failures exchange new.asks new.failures };

    ghost failures_of = { λ line. line.failures };

    fn exchange(&mut self, frame: &Frame) -> Result<LineReply, LineFault> {
        let answer = self.asks.ask(frame);
        count_failure(&mut self.failures, answer)
    }

    fn failures(&self) -> u64 {
        self.failures
    }
}

// Counts a failure. If the count is at its end, the failure is silence.
pub(crate) fn count_failure(
    failures: &mut u64,
    answer: Option<LineReply>,
) -> Result<LineReply, LineFault>
    ensures { IsReturned (event_of_bytes answer) failures.old (event_of result) failures.new }
{
    match answer {
        Some(reply) => Ok(reply),
        None if *failures == u64::MAX => Ok(LineReply::new()),
        None => {
            *failures += 1;
            Err(LineFault)
        }
    }
}
