//! What discoveries in a queue's log report, if a simulated line made the log's exchanges. The crate has only
//! definitions and laws. They hold however the calls were made: in one thread, with a mutex or with ring buffers.
//! All of it is the profile of this project.
#![tactic(auto)]

pub mod laws;
