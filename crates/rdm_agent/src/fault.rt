//! Why a run ended without an answer.
ghost use Rattle.std.specs.Prelude.{◌≡◌};

use rdm_wire::Uid;
use thiserror::Error;

/// Why a run ended without an answer, with its number.
#[derive(Clone, Copy, Debug, PartialEq, Eq, Error)]
pub enum AgentFault {
    /// 1: the branch of this UID alone was answered, but showed no new device. In a quick run it was answered
    /// [`BAD_ANSWERS`](crate::BAD_ANSWERS) times in a row.
    #[error("the branch of one UID alone was answered, but showed no new device")]
    Corrupt(Uid),
    /// 2: more devices were found than fit into a set.
    #[error("more devices were found than a set has room for")]
    TooMany,
    /// 3: the frames that were allowed are used up.
    #[error("the frames that were allowed are used up")]
    Exhausted,
    /// 4: the line failed.
    #[error("the line failed")]
    LineFailed,
    /// 5: the run was aborted.
    #[error("the run was aborted")]
    Aborted,
}

impl AgentFault {
    ghost use Rattle.rdm_agent.specs.Fault.{fault_number};

    /// Its number, 1 to 5.
    pub fn number(self) -> u8
        ensures { result ≡ fault_number self }
    {
        match self {
            AgentFault::Corrupt(_) => 1,
            AgentFault::TooMany => 2,
            AgentFault::Exhausted => 3,
            AgentFault::LineFailed => 4,
            AgentFault::Aborted => 5,
        }
    }
}
