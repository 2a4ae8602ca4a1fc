//! Session files: the calls of clients as JSON, with a line to be simulated, or the controller's UID on the caller's
//! own line. Unknown keys are ignored, and the first one is reported to people.

mod call;
mod client;
mod command;
mod file;

pub use call::ClientCall;
pub use client::ClientFile;
pub use command::discovery_command;
pub use file::{SessionFile, read_session, unknown_in_session};
