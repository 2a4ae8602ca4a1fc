//! A look at a client's oldest outcome.
use rdm_log::{Completion, DiscoveryEnd, OutcomeKind};
use rdm_wire::DeviceSet;

/// A client's oldest uncollected outcome, by reference: what the next collect gives.
#[derive(Clone, Copy, Debug)]
pub enum Oldest<'a> {
    /// A request has ended.
    Request {
        /// Its number.
        number: u64,
        /// How it ended.
        done: &'a Completion,
        /// Whether its answer may lack its first parts. It is the first whole answer to such a GET after one that broke
        /// off, so the device may have gone on where that one stopped. The next GET gets all of it. Once more than
        /// [`MOST_BROKEN`](rdm_log::MOST_BROKEN) were broken off at once, others are flagged too.
        may_be_incomplete: bool,
    },
    /// A discovery has ended.
    Discovery {
        /// How it ended, and its number.
        end: DiscoveryEnd,
        /// The devices that its run found.
        set: &'a DeviceSet,
    },
}

impl Oldest<'_> {
    ghost use Rattle.std.specs.Prelude.{◌≡◌};
    ghost use Rattle.rdm_queue.specs.promises.Oldest.{kind_shown, flag_shown};

    /// Its kind.
    pub fn kind(&self) -> OutcomeKind
        ensures { result ≡ kind_shown self.now }
    {
        match self {
            Oldest::Request { .. } => OutcomeKind::Request,
            Oldest::Discovery { .. } => OutcomeKind::Discovery,
        }
    }

    /// Whether it is a request's whose answer may lack its first parts.
    pub fn may_be_incomplete(&self) -> bool
        ensures { result ≡ flag_shown self.now }
    {
        match self {
            Oldest::Request {
                may_be_incomplete,
                ..
            } => *may_be_incomplete,
            Oldest::Discovery { .. } => false,
        }
    }
}
