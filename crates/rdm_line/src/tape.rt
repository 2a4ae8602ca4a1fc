//! A line that replays events.
ghost use Rattle.std.specs.Prelude.{◌≡◌};
ghost use Rattle.rdm_line.specs.Counting.{event_of_bytes};
ghost use Rattle.rdm_line.specs.Tape.{TapeStep, first_event, later_events};

use crate::counting::count_failure;
use crate::line::Line;
use rdm_join::{LineEvent, LineFault, LineReply, copy_of_reply};
use rdm_wire::Frame;
use std::marker::Model;

/// A line that returns these events in order, whatever the frames are, and then fails at each exchange. An event that
/// is a failure is also used up, and counted. Contracts see the events to come and the count of failures.
#[derive(Debug, Drop)]
pub struct TapeLine {
    events: Vec<LineEvent>,
    next: usize,
    failures: u64,
}

impl Model for TapeLine {
    ghost use Rattle.std.specs.Prelude.{drop};
    ghost use Rattle.rdm_line.specs.Tape.{TapeState};

    ghost Value = { TapeState };

    ghost view = { λ t. record { left = drop t.next t.events.items; failures = t.failures } };
}

impl TapeLine {
    /// A line that returns these events.
    pub fn new(events: Vec<LineEvent>) -> TapeLine
        ensures { result ≡ record { left = events.items; failures = 0 } }
    {
        TapeLine {
            events,
            next: 0,
            failures: 0,
        }
    }

    // Takes the next event off the tape, and returns its bytes; None if it is a failure, and after the last event.
    fn next_reply(&mut self) -> Option<LineReply>
        ensures event { event_of_bytes result ≡ first_event self.old.left }
        ensures rest { self.new ≡ record self.old { left = later_events self.old.left } }
    {
        let event = self.events.get(self.next)?;
        self.next += 1;
        match event {
            LineEvent::Reply(reply) => Some(copy_of_reply(reply)),
            LineEvent::Failed => None,
        }
    }
}

impl Line for TapeLine {
    ghost step = { TapeStep };

    ghost failures_of = { λ t. t.failures };

    fn exchange(&mut self, _frame: &Frame) -> Result<LineReply, LineFault> {
        let answer = self.next_reply();
        count_failure(&mut self.failures, answer)
    }

    fn failures(&self) -> u64 {
        self.failures
    }
}
