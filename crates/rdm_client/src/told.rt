//! What callbacks return.
use crate::boxed_ask::BoxedAsk;
use rdm_log::Completion;
use std::mem::size_of;

/// What a request's callback returns: the tag that it was made with, and the completion that it was called with.
#[derive(Debug, Drop)]
pub struct Told {
    /// The callback's tag.
    pub tag: u64,
    /// How the request ended.
    pub done: Completion,
}

/// What a discovery's callback returns: the tag that it was made with, and the completion that it was called with.
#[derive(Debug, Drop)]
pub struct AskTold {
    /// The callback's tag.
    pub tag: u64,
    /// How the discovery ended.
    pub done: BoxedAsk,
}

/// What a callback of either kind returned. It has no set of devices in its value.
#[derive(Debug, Drop)]
pub enum Collected {
    /// A request has ended.
    Request(Told),
    /// A discovery has ended.
    Ask(AskTold),
}

// It is small.
const _: () = prove!(size_of::<Collected>() < 100);
