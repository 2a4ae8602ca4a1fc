//! A queue of requests and discoveries on one RDM line, with the log of all that it does. All of it is the profile of
//! this project.
//!
//! # What calls cost
//!
//! A [`Controller`] keeps three rings for each client: its unfinished requests, its uncollected outcomes, and the sets
//! of devices of the discoveries among these. A further ring has the client of each unfinished request, oldest first.
//! So the client with the oldest request is known, and not looked for.
//!
//! - `submit`, `take`, `deliver` and the calls that collect look at one client. So none of them takes longer if more
//!   requests wait, or if there are more clients.
//! - `next_completion` moves no set of devices. `next_discovery` copies one into the caller's, or exchanges its box for
//!   the caller's. `next_outcome` returns a value that could hold a set, 32 KB, even for a request. `answer` and `run`
//!   move no set for a request, and allocate memory for the set of each discovery that is collected.
//! - `close`, and the reply after it, look at one client for each request that they finish.
//! - When a run ends, its set is copied for each discovery that it answers. Without a fault it is also copied once for
//!   `devices`.
//! - `join_client` adds up the queue depths of the clients, 16 at most, and reserves the memory of the client's rings
//!   and sets. No later call allocates, except for the joined data of a request, and for what `answer` and `run`
//!   return.
//! - `is_idle` adds up what each client has. So does a [`Session`] before a call, if its log may be full: not if there
//!   is room for all that clients could have.
//! - The other calls take constant time. So does each entry of a [`Log`], whose memory is reserved when it is made.
//! - A log's opening contains a set of devices, of 32 KB. It is filled when a log is made or cleared, when a session
//!   begins, and when it continues with a new log.
//! - A [`Session`] copies each request and each frame once, into its log. `answer` and `run` borrow their events, so
//!   they copy each request and each event once more. The joined data of a request are copied once, into its outcome.
#![tactic(auto)]

mod client;
mod controller;
mod oldest;
mod pending;
mod promised;
mod queue;
mod run;
mod session;
mod set_ring;
mod takes_devices;

pub use controller::Controller;
pub use oldest::Oldest;
pub use promised::controllers_keep_promises;
pub use rdm_log::{
    Answer, AnswerKey, AskCompletion, AskFault, BoxedOutcome, BrokenAnswers, Call, Cause, ClientId,
    Completion, Config, DiscoveryEnd, Entry, Event, IntoSetup, JoinFault, LEAST_FREE, Log, LogFull,
    MOST_CLIENTS, MOST_DISCOVERIES, MOST_ENTRIES, MOST_FREE_ENTRIES, MOST_PLACES, NEVER_GIVEN,
    NEVER_GIVEN_TO_A_DISCOVERY, NoMemory, NotAsked, NotIdle, Opening, Outcome, OutcomeKind, Owner,
    Page, Setup, SubmitFault, Work, WorkFault, laws,
};
pub use session::Session;
pub use takes_devices::TakesDevices;
