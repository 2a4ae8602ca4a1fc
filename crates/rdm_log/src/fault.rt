//! Why a call is refused.
use thiserror::Error;

/// The log has fewer than three free entries, and nothing has changed.
#[derive(Clone, Copy, Debug, PartialEq, Eq, Error)]
#[error("the log is full")]
pub struct LogFull;

/// No reply is awaited, and nothing has changed.
#[derive(Clone, Copy, Debug, PartialEq, Eq, Error)]
#[error("no reply is awaited")]
pub struct NotAsked;

/// The session isn't idle, and nothing has changed.
#[derive(Clone, Copy, Debug, PartialEq, Eq, Error)]
#[error("the session isn't idle")]
pub struct NotIdle;

/// Why a join is refused. LogFull is tested first, and then the others in this order.
#[derive(Clone, Copy, Debug, PartialEq, Eq, Error)]
pub enum JoinFault {
    /// 1: the queue is closed.
    #[error("the queue is closed")]
    Closed,
    /// 2: sixteen clients have joined.
    #[error("there are sixteen clients")]
    TooManyClients,
    /// 3: the sum of the clients' queue depths would be too large.
    #[error("there are too few places")]
    NoPlaces,
    /// 4: no memory for what the client may have outstanding.
    #[error("out of memory")]
    NoMemory,
    /// 5: the log has fewer than three free entries.
    #[error("the log is full")]
    LogFull,
}

/// Why work isn't accepted: a request, or a discovery. LogFull is tested first, and then the others in this order.
#[derive(Clone, Copy, Debug, PartialEq, Eq, Error)]
pub enum WorkFault {
    /// 1: the queue is closed.
    #[error("the queue is closed")]
    Closed,
    /// 2: no such client has joined.
    #[error("no such client")]
    UnknownClient,
    /// 3: a request finds as many of the client's requests outstanding as its queue depth allows, a discovery finds
    /// four of its discoveries outstanding, or the numbers have run out.
    #[error("the client has as much outstanding as it may")]
    Full,
    /// 4: the log has fewer than three free entries.
    #[error("the log is full")]
    LogFull,
}

/// Why a submit is refused.
pub type SubmitFault = WorkFault;

/// Why a discover is refused.
pub type AskFault = WorkFault;

impl JoinFault {
    ghost use Rattle.std.specs.Prelude.{◌≡◌};
    ghost use Rattle.rdm_log.specs.log.Refusals.{number_of_join_fault};

    /// The fault's number, as an entry of the log has it; LogFull's is in no entry.
    pub fn number(self) -> u8
        ensures { result ≡ number_of_join_fault self }
    {
        match self {
            JoinFault::Closed => 1,
            JoinFault::TooManyClients => 2,
            JoinFault::NoPlaces => 3,
            JoinFault::NoMemory => 4,
            JoinFault::LogFull => 5,
        }
    }
}

impl WorkFault {
    ghost use Rattle.std.specs.Prelude.{◌≡◌};
    ghost use Rattle.rdm_log.specs.log.Refusals.{number_of_work_fault};

    /// The fault's number, as an entry of the log has it; LogFull's is in no entry.
    pub fn number(self) -> u8
        ensures { result ≡ number_of_work_fault self }
    {
        match self {
            WorkFault::Closed => 1,
            WorkFault::UnknownClient => 2,
            WorkFault::Full => 3,
            WorkFault::LogFull => 4,
        }
    }
}
