//! The arguments of the program `wurstlinen`: the job that they give, or what is wrong with them. All of it is the
//! profile of this project.
//!
//! [`parse_words`] finds the [`Job`] that arguments give. For people, a [`Complaint`] says what is wrong with arguments
//! that fit no command, and [`Usage`] explains the commands and their options. All three follow from one table, in
//! `src/table.rt`.
#![tactic(auto)]

mod commands;
mod complaint;
mod job;
pub mod laws;
mod port_kind;
mod reading;
mod table;
mod usage;

pub use complaint::{Complaint, complaint_of};
pub use job::{
    DiscoverJob, DiscoveryLine, ExplainJob, Job, LineDiscovery, RunJob, Streams, WordsFault,
    parse_words,
};
pub use port_kind::PortKind;
pub use usage::{Usage, VERSION};
