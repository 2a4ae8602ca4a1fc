//! The outcomes that a client collects.
use rdm_agent::AgentFault;
use rdm_join::{ReplyHead, Status};
use rdm_wire::DeviceSet;
use std::mem::size_of;

/// How a request ended, with the answer.
#[derive(Debug, Drop)]
pub struct Completion {
    /// How it ended.
    pub status: Status,
    /// The head of the last reply; only status Completed has one.
    pub reply: Option<ReplyHead>,
    /// The parameter data of all replies, joined in order; empty for each status but Completed.
    pub bytes: Vec<u8>,
}

/// How a discovery ended, and what its run found. The set makes it 32 KB in size.
#[derive(Debug, Drop)]
pub struct AskCompletion {
    /// The run that served it; 0 if none was begun for it.
    pub run: u64,
    /// Why the run ended early; None if it ended without fault.
    pub fault: Option<AgentFault>,
    /// The devices whose mute was acknowledged in the run, each as its first acknowledgement describes it. Without
    /// fault these are all that the run's certificate vouches for; none for run 0.
    pub set: DeviceSet,
}

/// What a client collects.
#[derive(Debug, Drop)]
pub enum Outcome {
    /// A request has ended.
    Request {
        /// Its number. A controller gives none without one; None is for a request that was never accepted.
        number: Option<u64>,
        /// How it ended.
        done: Completion,
    },
    /// A discovery has ended.
    Discovery {
        /// Its number. A controller gives none without one; None is for a discovery that was never accepted.
        number: Option<u64>,
        /// How it ended.
        done: AskCompletion,
    },
}

const _: () = prove!(size_of::<Outcome>() == 32_832);

/// What a client collects by an event: an [`Outcome`], but with the set of a discovery in a box.
#[derive(Debug, Drop)]
pub enum BoxedOutcome {
    /// A request has ended.
    Request {
        /// Its number.
        number: u64,
        /// How it ended.
        done: Completion,
    },
    /// A discovery has ended.
    Discovery {
        /// How it ended, and its number.
        end: DiscoveryEnd,
        /// The devices that its run found, as in [`AskCompletion::set`].
        set: Box<DeviceSet>,
    },
}

const _: () = prove!(size_of::<BoxedOutcome>() == 56);

/// The kind of an outcome.
#[derive(Clone, Copy, Debug, PartialEq, Eq)]
pub enum OutcomeKind {
    /// A request has ended.
    Request,
    /// A discovery has ended.
    Discovery,
}

/// How a discovery ended, without what its run found.
#[derive(Clone, Copy, Debug, PartialEq, Eq)]
pub struct DiscoveryEnd {
    /// Its number.
    pub number: u64,
    /// The run that served it; 0 if none was begun for it.
    pub run: u64,
    /// Why the run ended early; None if it ended without fault.
    pub fault: Option<AgentFault>,
}
