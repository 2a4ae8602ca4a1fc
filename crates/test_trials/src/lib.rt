//! Trials of whole sessions: a close at each position, in one thread, with a mutex and with ring buffers; logs of each
//! size; clients with ring buffers in threads; and the laws of `rdm_scenes`, applied to real sessions. Nothing depends
//! on this crate. It has only tests, so the crates below needn't be proved again with them.
#![tactic(auto)]

#[cfg(test)]
mod tests;
