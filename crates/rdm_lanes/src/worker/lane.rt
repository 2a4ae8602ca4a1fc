//! The worker's ends of one client's rings.
use crate::call::ClientCall;
use crate::ring_outcome::RingOutcome;
use crate::sleeping::ClientSleep;
use rtrb::{Consumer, Producer};
use std::alloc::Global;
use std::sync::Arc;

/// The worker's ends of a client's rings, and what the client has outstanding in the session.
#[derive(Drop)]
pub struct Lane {
    /// The client's calls.
    pub calls: Consumer<ClientCall, Global>,
    /// The client's outcomes.
    pub replies: Producer<RingOutcome, Global>,
    /// How many requests it may have outstanding.
    pub places: usize,
    /// How many requests were accepted and not collected.
    pub requests: usize,
    /// How many discoveries were accepted and not collected.
    pub asks: usize,
    /// Whether its leave was received.
    pub left: bool,
    /// What the client sleeps on.
    pub sleep: Arc<ClientSleep>,
}
