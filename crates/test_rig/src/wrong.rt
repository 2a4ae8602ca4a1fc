//! Errors of rigs.
use crate::act_result::ActResult;
use crate::said::Said;
use thiserror::Error;

/// Why a rig couldn't do its work, or what differs from what was expected.
#[derive(Clone, Copy, Debug, PartialEq, Eq, Error)]
pub enum Wrong {
    /// Out of memory.
    #[error("out of memory")]
    NoMemory,
    /// What a failed call returned wasn't what was passed in, or the same call failed again.
    #[error("a failed call returned something else")]
    NotAgain,
    /// The scene has a device that a line can't have.
    #[error("the scene has a device that a line can't have")]
    Device,
    /// The move with this number had this result.
    #[error("a move had another result")]
    Move(usize, ActResult),
    /// The log has this entry with this number; None: it ends before.
    #[error("the log has another entry")]
    Entry(usize, Option<Said>),
}
