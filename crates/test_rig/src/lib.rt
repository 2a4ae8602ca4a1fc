//! Rigs for tests: callbacks that return what they were called with, lines of simulated devices or stored replies, and
//! lists of acts that drive a queue's clients. Here the queue is a session in one thread; `test_stage` has a session
//! with a mutex, and clients with ring buffers. Nothing but tests and measurements depends on these crates.
//!
//! What a test compares is plain data: [`ActResult`] for the result of an act, [`Said`] for an entry of a log, and
//! [`State`] for the state of a session. The functions have hardly any clauses, so a test that calls them is proved
//! quickly.
#![tactic(auto)]

mod act;
mod act_result;
mod device;
mod found;
mod line;
mod note;
mod refusal;
mod said;
mod session;
mod setup;
mod state;
mod tape;
mod wrong;

pub use act::{Act, Driver, MakesActs, Move, Mover, Step, moved};
pub use act_result::{ActResult, Stop, boxed_told, completion_told, outcome_told, told};
pub use device::{Who, device_of};
pub use found::{Ending, Found, ending_by, found_in};
pub use line::{LineOf, Meeting, TimedDevice, line_of, one_device, two_devices};
pub use note::{AskNote, Note, cancels};
pub use refusal::Refusal;
pub use said::{Said, log_of, says, says_at, says_run};
pub use session::{SessionStage, open_session, session_of, switched};
pub use setup::{LONG, NOTHING_KEPT, config, config_with, controller, get, is_blank, log, request};
pub use state::{Counts, LastFrame, State, state_of};
pub use tape::{Came, silent, tape_of};
pub use wrong::Wrong;
