//! A discovery run without a queue, with what its frames need.
use rdm_agent::Agent;
use rdm_wire::Uid;

/// A discovery run without a queue, on a line of the caller's own.
#[derive(Debug, Drop)]
pub struct Discovery {
    /// The run, between an exchange and the next.
    pub agent: Agent,
    /// The controller that sends the frames.
    pub source: Uid,
    /// The transaction number of the next frame.
    pub tn: u8,
}
