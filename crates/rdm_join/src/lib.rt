//! What a reply means for its request, and how the parts of an answer are joined. What isn't marked as E1.20's is the
//! profile of this project.
#![tactic(auto)]

mod event;
mod joiner;
pub mod laws;
mod status;
mod verdict;

pub use event::{LineEvent, LineFault, LineReply, copy_of_reply};
pub use joiner::{Joiner, MOST_JOINED_BYTES, MOST_PARTS, ReplyHead, Step};
pub use status::Status;
pub use verdict::{ALL_SUB_DEVICES, Judged, Sent, judge};
