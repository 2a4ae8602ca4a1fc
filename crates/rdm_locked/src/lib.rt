//! A session with a mutex, for clients and a worker in threads of their own. All of it is the profile of this project.
//!
//! The mutex holds an [`Inside`]: a session with a book of its clients' calls. Each of its calls has a contract over
//! the log. A [`Port`] and its clients take the mutex, make one such call, and release it. Their contracts are about
//! what the caller holds: its callbacks, its count of calls, and the record of exchanges. At the end, [`Port::finish`]
//! compares the counts and the record with the log.
//!
//! A port that has to run for years has a log that keeps nothing. [`Port::end`] compares the counts alone.
#![tactic(auto)]

mod client;
mod exchange;
mod fault;
mod history;
mod inside;
mod oldest;
mod port;
mod sets;
mod share;
mod sleeping;
mod turn;

pub use client::{Left, LockedClient};
pub use exchange::Exchange;
pub use fault::FinishFault;
pub use history::{Blank, Ledger, LoggedCall};
pub use inside::{Inside, SessionEnd};
pub use port::Port;
pub use rdm_client::WorkerEnd;
pub use share::CallShare;
pub use turn::Turn;
