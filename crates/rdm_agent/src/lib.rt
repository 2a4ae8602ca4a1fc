//! One discovery run: which devices are on the line. What isn't marked as E1.20's is the profile of this project.
#![tactic(auto)]

mod agent;
mod apart;
mod belief;
mod fault;
mod kind;
mod known;
pub mod laws;
mod limits;
mod op;
mod phase;
mod ranges;
mod run_state;
mod search;
mod sweep;

pub use agent::Agent;
pub use fault::AgentFault;
pub use kind::Kind;
pub use limits::{BAD_ANSWERS, DEFAULT_BUDGET, MOST_APART, MOST_RANGES, TRIES, UNMUTES};
pub use op::{Op, OpReply};
pub use search::Search;
