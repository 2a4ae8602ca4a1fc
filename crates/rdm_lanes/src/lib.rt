//! Clients that never wait. Each has a ring for its calls and a ring for its outcomes. A worker has their other ends,
//! and publishes device views, which each client reads. All of it is the profile of this project.
//!
//! - `opening` makes the clients, the operator and the worker, and `session` runs all of them in threads.
//! - `client` has one end of each ring, and `worker` the other. `call` and `ring_outcome` are what goes through them.
//! - `views` has the device views that the worker publishes and the clients read.
#![tactic(auto)]

mod call;
mod client;
mod fault;
pub mod laws;
mod opening;
mod ring_outcome;
mod session;
mod sleeping;
pub mod views;
mod worker;

// What a program calls, and what the calls return.
pub use client::RingClient;
pub use client::ends::ClientEnd;
pub use fault::{OpenFault, RingFault, RingFull};
pub use opening::{Lanes, open_lanes};
pub use rdm_client::WorkerEnd;
pub use session::body::{Body, Gate, WORKER_STOPPED};
pub use session::together::LanesEnd;
pub use session::{run_session, run_session_with};
pub use worker::compared::Compared;
pub use worker::operator::Operator;
pub use worker::view_worker::ViewWorker;
