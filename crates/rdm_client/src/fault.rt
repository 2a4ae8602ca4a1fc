//! Why a call is refused.
use rdm_log::WorkFault;
use thiserror::Error;

/// The desk can't hold another callback of that kind, and nothing has changed.
#[derive(Clone, Copy, Debug, PartialEq, Eq, Error)]
#[error("the desk is full")]
pub struct Full;

/// No callback of the outcome's kind is held, and nothing has changed.
#[derive(Clone, Copy, Debug, PartialEq, Eq, Error)]
#[error("no callback is held for the outcome")]
pub struct Misdelivered;

/// Why a call of a [`Client`](crate::Client) is refused. A client with a mutex has the faults of its session. A client
/// with ring buffers has Full, RingFull and Left. After a close its call is sent, and the outcome says that it was
/// refused. While the log is full, the call stays in the ring.
#[derive(Clone, Copy, Debug, PartialEq, Eq, Error)]
pub enum CallFault {
    /// With a mutex: the queue is closed.
    #[error("the queue is closed")]
    Closed,
    /// With a mutex: no such client has joined. A client that has joined doesn't see this.
    #[error("no such client")]
    UnknownClient,
    /// With either: the client has as much outstanding as it may have, or the numbers of calls have run out.
    #[error("the client has as much outstanding as it may")]
    Full,
    /// With a mutex: the log has fewer than three free entries.
    #[error("the log is full")]
    LogFull,
    /// With ring buffers: the ring of calls has no free slot.
    #[error("the ring of calls is full")]
    RingFull,
    /// With ring buffers: the client has left.
    #[error("the client has left")]
    Left,
}

impl From<WorkFault> for CallFault {
    ghost use Rattle.std.specs.Prelude.{◌≡◌};
    ghost use Rattle.rdm_client.specs.Faults.{of_session};

    ghost from_gives = { λ fault call_fault. call_fault ≡ of_session fault };

    fn from(fault: WorkFault) -> CallFault {
        match fault {
            WorkFault::Closed => CallFault::Closed,
            WorkFault::UnknownClient => CallFault::UnknownClient,
            WorkFault::Full => CallFault::Full,
            WorkFault::LogFull => CallFault::LogFull,
        }
    }
}
