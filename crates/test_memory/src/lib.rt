//! What each call that allocates does if an allocation fails. The crate has only tests.
//!
//! A test passes whichever one of its allocations fails. What a failed call returned is used for the same call again,
//! which then succeeds. The rigs do this while they set up a session, `Careful` does it for moves, and the test for all
//! else. `checks/memory` lets each allocation of each test fail in turn. It does the same to the built program on a few
//! examples. What a test prints doesn't depend on which allocation fails.
#![tactic(auto)]

#[cfg(test)]
mod tests;
