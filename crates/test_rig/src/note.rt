//! Callbacks without a box.
ghost use Rattle.std.specs.Prelude.{◌≡◌};
ghost use Rattle.rdm_client.specs.Callbacks.{told, ask_told};

use rdm_agent::AgentFault;
use rdm_client::{AskTold, BoxedAsk, Tells, TellsAsk, Told, Unfinished, Unspent};
use rdm_join::Status;
use rdm_log::Completion;
use std::alloc::Global;

/// A request's callback that returns what it was called with, and does nothing else.
#[derive(Debug, PartialEq, Eq, Drop)]
pub struct Note(pub u64);

impl Tells for Note {
    ghost tag_of = { λ note. note.0 };

    ghost calls = { λ note done t. t ≡ told note.0 done };

    fn spend(self, done: Completion) -> Told {
        Told { tag: self.0, done }
    }

    fn cancel(self, alloc: Global) -> Told {
        self.spend(Completion {
            status: Status::FailedToSend,
            reply: None,
            bytes: Vec::new(alloc),
        })
    }
}

/// A discovery's callback that returns what it was called with, and does nothing else.
#[derive(Debug, PartialEq, Eq, Drop)]
pub struct AskNote(pub u64);

impl TellsAsk for AskNote {
    ghost tag_of = { λ note. note.0 };

    ghost calls = { λ note done t. t ≡ ask_told note.0 done };

    fn spend(self, done: BoxedAsk) -> AskTold {
        AskTold { tag: self.0, done }
    }

    fn cancel(self) -> AskTold {
        self.spend(BoxedAsk::new(0, Some(AgentFault::Aborted), None))
    }
}

/// Cancels all callbacks that are left, and says how many there were.
pub fn cancels<C: Tells, A: TellsAsk>(alloc: Global, mut unspent: Unspent<C, A>) -> u64 {
    let mut cancelled = 0u64;
    while let Some(left) = unspent.next() {
        match left {
            Unfinished::Request(callback) => drop(callback.cancel(alloc)),
            Unfinished::Ask(callback) => drop(callback.cancel()),
        }
        cancelled = cancelled.saturating_add(1);
    }
    unspent.close_empty();
    cancelled
}
