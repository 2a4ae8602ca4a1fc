//! The fault that calls of several crates return.
use thiserror::Error;

/// Out of memory. Each call says what is then left unchanged.
#[derive(Clone, Copy, Debug, PartialEq, Eq, Error)]
#[error("out of memory")]
pub struct NoMemory;
