//! Why calls are refused.
use rdm_log::{AskFault, JoinFault, SubmitFault};

/// Why a call was refused. A submit and a discovery have the tag of the callback that was returned.
#[derive(Clone, Copy, Debug, PartialEq, Eq)]
pub enum Refusal {
    /// A join.
    Join(JoinFault),
    /// A submit to a session, with or without a mutex.
    Submit(SubmitFault, u64),
    /// A discovery requested from a session, with or without a mutex.
    Ask(AskFault, u64),
    /// A submit or a discovery with ring buffers: the client already has as many calls outstanding as its limit.
    Full(u64),
    /// The same: the ring of calls has no free slot.
    RingFull(u64),
    /// The same: the client has left.
    HasLeft(u64),
    /// The ring had no slot for a leave, or for the operator's call.
    NoSlot,
    /// A pause, a resume or a take found the log full.
    LogFull,
}
