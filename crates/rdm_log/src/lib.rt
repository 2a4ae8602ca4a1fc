//! The log of a queue of requests and discoveries on one RDM line: its entries, which logs are legal, and what a legal
//! log promises. All of it is the profile of this project.
//!
//! The laws in [`laws`] are only about logs. `rdm_queue` has the queue that writes such a log.
//!
//! # What calls cost
//!
//! - A log's opening contains a set of devices, of 32 KB, and the GETs that broke off, of 16 KB. Both are filled when a
//!   log is made or cleared, and when it gets another opening.
//! - An entry takes 296 bytes. The memory of all of them is reserved when the log is made, so `append` takes constant
//!   time and allocates nothing.
#![tactic(auto)]

mod broken;
mod config;
mod entry;
mod event;
mod fault;
pub mod laws;
mod log;
mod outcome;
mod page;
mod work;

pub use broken::{AnswerKey, BrokenAnswers, MOST_BROKEN};
pub use config::{Config, IntoSetup, MOST_PLACES, Setup};
pub use entry::{
    Call, Cause, ClientId, Entry, MOST_CLIENTS, MOST_DISCOVERIES, NEVER_GIVEN,
    NEVER_GIVEN_TO_A_DISCOVERY, Opening, Owner,
};
pub use event::{Answer, Event};
pub use fault::{AskFault, JoinFault, LogFull, NotAsked, NotIdle, SubmitFault, WorkFault};
pub use log::{LEAST_FREE, Log, MOST_ENTRIES, MOST_FREE_ENTRIES};
pub use outcome::{AskCompletion, BoxedOutcome, Completion, DiscoveryEnd, Outcome, OutcomeKind};
pub use page::Page;
pub use rdm_wire::NoMemory;
pub use work::Work;
