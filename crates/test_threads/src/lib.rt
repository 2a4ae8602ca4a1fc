//! Tests of sessions in threads: desks and callbacks by hand, sessions with a mutex, and clients and a worker with ring
//! buffers, driven by hand and in threads. The crate has only tests, so the libraries aren't proved a second time with
//! them.
#![tactic(auto)]

#[cfg(test)]
mod tests;
