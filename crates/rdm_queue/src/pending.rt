//! What is still to come: the unanswered discoveries, the run that serves them, and what awaits its reply.
ghost use Rattle.std.specs.Prelude.{◌≡◌};

use rdm_agent::Kind;
use rdm_join::Sent;
use rdm_log::ClientId;
use std::alloc::Global;
use std::default::MadeWith;

/// A discovery that isn't answered.
#[derive(Clone, Copy, Debug, Drop)]
pub(crate) struct Asked {
    pub(crate) client: ClientId,
    pub(crate) number: u64,
    pub(crate) kind: Kind,
}

/// What fills the elements that hold no discovery.
impl MadeWith<Global> for Asked {
    fn made_with(_alloc: Global) -> Asked {
        Asked {
            client: ClientId(0),
            number: 0,
            kind: Kind::Full,
        }
    }
}

/// A run that has begun, until all discoveries that it serves are answered.
#[derive(Clone, Copy, Debug)]
pub(crate) struct Running {
    pub(crate) number: u64,
    /// It serves this many of the unanswered discoveries, the oldest ones.
    pub(crate) left: usize,
}

impl Running {
    ghost use Rattle.std.specs.Prelude.{option_map};
    ghost use Rattle.rdm_queue.specs.body.Fields.{run_is};
    ghost use Rattle.rdm_queue.specs.body.Ending.{one_less};

    /// The run with one discovery fewer to answer; None if that was the last.
    pub(crate) fn one_less(&self) -> Option<Running>
        ensures { option_map run_is result ≡ one_less (run_is self.now) }
    {
        if self.left > 1 {
            Some(Running {
                number: self.number,
                left: self.left - 1,
            })
        } else {
            None
        }
    }
}

/// What awaits its reply.
#[derive(Clone, Copy, Debug)]
pub(crate) enum Awaited {
    /// A request, of which this was sent.
    Request(Sent),
    /// The agent's next operation, which was sent with this transaction number.
    Run(u8),
}
