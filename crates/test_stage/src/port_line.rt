//! Callbacks and lines that call the port that they belong to. If a method kept the mutex meanwhile, they would
//! deadlock.
ghost use Rattle.std.specs.Prelude.{◌≡◌};
ghost use Rattle.rdm_client.specs.Callbacks.{told, ask_told};

use rdm_agent::AgentFault;
use rdm_client::{AskTold, BoxedAsk, Tells, TellsAsk, Told};
use rdm_join::{LineFault, LineReply, Status};
use rdm_line::Line;
use rdm_locked::{Ledger, Port};
use rdm_log::Completion;
use rdm_wire::Frame;
use std::alloc::Global;
use std::sync::Wait;

/// A callback that returns what it was called with. If `pauses` is set, it pauses the port first.
#[derive(Drop)]
pub struct PortNote<'a, L: Ledger, R> {
    /// The runtime.
    pub rt: &'a R,
    /// The port.
    pub port: &'a Port<L>,
    /// Whether it pauses the port.
    pub pauses: bool,
    /// The tag that it returns.
    pub tag: u64,
}

impl<L: Ledger, R: Wait> PortNote<'_, L, R> {
    // Pauses the port if `pauses` is set.
    fn pause_if_set(&self) {
        if self.pauses {
            let _ = self.port.pause(self.rt);
        }
    }
}

impl<L: Ledger, R: Wait> Tells for PortNote<'_, L, R> {
    ghost tag_of = { λ callback. callback.tag };

    ghost calls = { λ callback done t. t ≡ told callback.tag done };

    fn spend(self, done: Completion) -> Told {
        self.pause_if_set();
        Told {
            tag: self.tag,
            done,
        }
    }

    fn cancel(self, alloc: Global) -> Told {
        let done = Completion {
            status: Status::FailedToSend,
            reply: None,
            bytes: Vec::new(alloc),
        };
        Tells::spend(self, done)
    }
}

impl<L: Ledger, R: Wait> TellsAsk for PortNote<'_, L, R> {
    ghost tag_of = { λ callback. callback.tag };

    ghost calls = { λ callback done t. t ≡ ask_told callback.tag done };

    fn spend(self, done: BoxedAsk) -> AskTold {
        self.pause_if_set();
        AskTold {
            tag: self.tag,
            done,
        }
    }

    fn cancel(self) -> AskTold {
        let done = BoxedAsk::new(0, Some(AgentFault::Aborted), None);
        TellsAsk::spend(self, done)
    }
}

/// A line that closes the port during one exchange, before it answers.
#[derive(Drop)]
pub struct ClosingLine<'a, L: Ledger, R, X: Drop> {
    /// The runtime.
    pub rt: &'a R,
    /// The port.
    pub port: &'a Port<L>,
    /// The line that answers.
    pub line: X,
    /// How many exchanges were made.
    pub made: u64,
    /// The exchange during which it closes the port, from 0.
    pub closes_at: Option<u64>,
}

impl<L: Ledger, R: Wait, X: Line + Drop> Line for ClosingLine<'_, L, R, X> {
    ghost step = { λ old x new. X.step old.line x new.line };

    ghost failures_of = { λ line. X.failures_of line.line };

    fn exchange(&mut self, frame: &Frame) -> Result<LineReply, LineFault> {
        if self.closes_at == Some(self.made) {
            self.port.close(self.rt);
        }
        self.made = self.made.saturating_add(1);
        self.line.exchange(frame)
    }

    fn failures(&self) -> u64 {
        self.line.failures()
    }
}
