//! What goes through the rings of outcomes.
use rdm_client::BoxedAsk;
use rdm_log::Completion;
use std::mem::size_of;

/// An outcome on its way to its client. The set of a discovery is in a box, for which the worker allocates another.
#[derive(Debug, Drop)]
pub enum RingOutcome {
    /// A request has ended.
    Request {
        /// Its number; None if a close refused it.
        number: Option<u64>,
        /// How it ended.
        done: Completion,
    },
    /// A discovery has ended.
    Discovery {
        /// Its number; None if a close refused it.
        number: Option<u64>,
        /// How it ended. Without a set if a close refused it.
        done: BoxedAsk,
    },
}

// A ring's slot is small.
const _: () = prove!(size_of::<RingOutcome>() < 100);
