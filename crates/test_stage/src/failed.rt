//! Why a play failed, or what differed from what was expected.
use rdm_lanes::OpenFault;
use rdm_locked::FinishFault;
use test_rig::{ActResult, Stop, Wrong};
use thiserror::Error;

/// Why a play failed, or what differed from what was expected.
#[derive(Clone, Copy, Debug, PartialEq, Eq, Error)]
pub enum Failed {
    /// Something was wrong with the rig, or with a move.
    #[error("the rig or a move was wrong")]
    Rig(Wrong),
    /// The lanes couldn't be opened.
    #[error("the lanes couldn't be opened")]
    Open(OpenFault),
    /// The port couldn't be ended.
    #[error("the port couldn't be ended")]
    Finish(FinishFault),
    /// The port was ended although something was missing.
    #[error("the port was ended although something was missing")]
    Finished,
    /// What was left of a session couldn't be compared.
    #[error("what was left of a session couldn't be compared")]
    Unmatched,
    /// The client with this number has these counts; None: there is no such client.
    #[error("a client has other counts")]
    Counts(usize, Option<(u64, u64, u64)>),
    /// The worker stopped for this reason.
    #[error("the worker stopped")]
    Stop(Stop),
    /// The player with this number got this result for the script's line with this number.
    #[error("a player got another result")]
    ActResult(usize, usize, ActResult),
    /// There aren't as many players as clients, or one hasn't run once.
    #[error("a client's player didn't run once")]
    Players,
}

impl From<Wrong> for Failed {
    fn from(wrong: Wrong) -> Failed {
        Failed::Rig(wrong)
    }
}
