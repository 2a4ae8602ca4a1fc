//! Why a call is refused.
use rdm_client::CallFault;
use thiserror::Error;

/// Why lanes can't be opened. They are tested in this order.
#[derive(Clone, Copy, Debug, PartialEq, Eq, Error)]
pub enum OpenFault {
    /// 1: there are more than sixteen clients.
    #[error("there are more than sixteen clients")]
    TooManyClients,
    /// 2: the sum of the clients' queue depths is more than the configuration allows.
    #[error("there are too few places")]
    NoPlaces,
    /// 3: out of memory.
    #[error("out of memory")]
    NoMemory,
    /// 4: the log has fewer than three free entries before some client joins.
    #[error("the log is full")]
    LogFull,
}

/// Why a client's call isn't sent. Left is tested first, then Full, then RingFull.
#[derive(Clone, Copy, Debug, PartialEq, Eq, Error)]
pub enum RingFault {
    /// 1: the client holds as many requests' callbacks as its queue depth, or four discoveries' callbacks, or it has
    /// sent `u64::MAX` calls.
    #[error("the client has as many calls outstanding as it may have")]
    Full,
    /// 2: the ring of calls has no free slot.
    #[error("the ring of calls is full")]
    RingFull,
    /// 3: the client has left.
    #[error("the client has left")]
    Left,
}

/// The ring of calls has no free slot, and nothing has changed.
#[derive(Clone, Copy, Debug, PartialEq, Eq, Error)]
#[error("the ring of calls is full")]
pub struct RingFull;

impl From<RingFault> for CallFault {
    ghost use Rattle.std.specs.Prelude.{◌≡◌};
    ghost use Rattle.rdm_lanes.specs.Faults.{of_ring};

    ghost from_gives = { λ fault call_fault. call_fault ≡ of_ring fault };

    fn from(fault: RingFault) -> CallFault {
        match fault {
            RingFault::Full => CallFault::Full,
            RingFault::RingFull => CallFault::RingFull,
            RingFault::Left => CallFault::Left,
        }
    }
}
