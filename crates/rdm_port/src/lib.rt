//! What the program `wurstlinen` does. It reads and writes the replies of RDM devices to a branch of the discovery
//! tree. It discovers devices, and runs sessions of clients, on a simulated line or on one that another program serves.
//! It explains their logs. All of it is the profile of this project.
//!
//! [`parse_words`] finds the [`Job`] that arguments give, and [`perform`] prints its answer. [`carry_out`] also keeps
//! its log, and opens its line. `rdm_files` reads the files, `rdm_serving` serves sessions, and `rdm_reports` makes the
//! texts. For people there are these:
//! - a [`Reason`] says why something isn't done;
//! - a [`Remark`] says what they should know about a file before its work begins;
//! - a [`Complaint`] says what is wrong with arguments that fit no command.
#![tactic(auto)]

mod answer;
mod branch;
mod discovering;
mod explaining;
mod fault;
mod input;
pub mod laws;
mod line_values;
mod logging;
mod opening;
mod performing;
mod position;
mod reason;
mod remark;
mod run;
mod standard_error;

pub use fault::Fault;
pub use line_values::LineValues;
pub use opening::{NoLine, Opens, Unopened};
pub use performing::{Silent, carry_out, perform};
pub use position::Position;
pub use rdm_arguments::{
    Complaint, DiscoverJob, DiscoveryLine, ExplainJob, Job, LineDiscovery, PortKind, RunJob,
    Streams, Usage, VERSION, WordsFault, parse_words,
};
pub use rdm_files::{
    ClientCall, ClientFile, FileFault, FileKind, Found, MOST_BYTES, Mismatch, Path, Remark,
    SceneFault, SceneFile, SessionFile, Step, UnknownKey,
};
pub use rdm_reports::{Discovered, Discovery, LogOutput, OpensLog, Outcomes, Progress, discover};
pub use rdm_serving::{ServeFault, Served};
pub use reason::Reason;
pub use standard_error::{Progressing, print_reason, print_usage};
