//! Discovery runs on a line, and the texts that report runs, sessions and their logs.
//!
//! [`discover_in`] makes a run on the line of a scene, and [`discover`] on any line. [`report`] returns what is printed
//! for a run, and [`session_text`] what is printed for the [`Outcomes`] of a session's clients. A [`LogOutput`] gets
//! each exchange of a discovery, or, by [`write_log`], the log of a session. A [`Progress`] gets remarks on
//! a file, and the number of exchanges so far. All of it is the profile of this project.
#![tactic(auto)]

mod discovery;
pub mod laws;
mod log_output;
mod log_text;
mod opening_text;
mod outcomes;
mod progress;
mod reporting;

pub use discovery::{Discovery, discover, discover_in};
pub use log_output::{LogOutput, OpensLog, write_all};
pub use log_text::{entry_line, exchange_line, write_entries};
pub use opening_text::{discovery_opening, session_opening, write_log};
pub use outcomes::{Discovered, Outcomes, session_text};
pub use progress::{Progress, write_often};
pub use reporting::{device_lines, report};
