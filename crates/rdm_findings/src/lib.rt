//! Reads logs and prints what they show: which devices broke a rule, where bytes came that no device was due to send,
//! and whether a run's certificate is complete. All of it is the profile of this project.
#![tactic(auto)]

mod asks;
mod blame;
mod cause;
mod device_text;
mod document;
mod ending;
mod entry;
mod explaining;
mod fields;
mod flaw;
mod form;
mod gap_text;
mod garbled_text;
mod gone_text;
mod head;
mod head_text;
mod heard;
mod input;
pub mod laws;
mod line;
mod listing;
mod log;
mod mention;
mod misread;
mod opening;
mod order;
mod reading;
mod run_json;
mod stray_bytes;
mod stray_text;
mod unmute_text;
mod writing;

pub use document::{document_end, document_start, document_stop, memory_stop};
pub use explaining::{Explained, explain};
pub use flaw::Flaw;
pub use form::Form;
pub use head::{RunHead, Start};
pub use line::{DiscoveryOpening, LogLine, SessionOpening, read_line};
pub use log::{LogFault, explain_log};
