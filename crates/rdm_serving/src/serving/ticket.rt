//! The callbacks of a session file's clients: they return what they were called with, and do nothing else.
ghost use Rattle.std.specs.Prelude.{◌≡◌};
ghost use Rattle.rdm_client.specs.Callbacks.{told, ask_told};

use rdm_agent::AgentFault;
use rdm_client::{AskTold, BoxedAsk, Tells, TellsAsk, Told};
use rdm_join::Status;
use rdm_log::Completion;
use std::alloc::Global;

/// The callback of a request: the index of its call among the client's calls, from 0. It isn't [`Drop`].
pub struct RequestTicket(pub u64);

impl Tells for RequestTicket {
    ghost tag_of = { λ ticket. ticket.0 };

    ghost calls = { λ ticket done t. t ≡ told ticket.0 done };

    fn spend(self, done: Completion) -> Told {
        let RequestTicket(tag) = self;
        Told { tag, done }
    }

    fn cancel(self, alloc: Global) -> Told {
        self.spend(Completion {
            status: Status::FailedToSend,
            reply: None,
            bytes: Vec::new(alloc),
        })
    }
}

/// The callback of a discovery: the index of its call among the client's calls, from 0. It isn't [`Drop`].
pub struct AskTicket(pub u64);

impl TellsAsk for AskTicket {
    ghost tag_of = { λ ticket. ticket.0 };

    ghost calls = { λ ticket done t. t ≡ ask_told ticket.0 done };

    fn spend(self, done: BoxedAsk) -> AskTold {
        let AskTicket(tag) = self;
        AskTold { tag, done }
    }

    fn cancel(self) -> AskTold {
        self.spend(BoxedAsk::new(0, Some(AgentFault::Aborted), None))
    }
}
