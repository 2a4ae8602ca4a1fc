//! What goes over an RDM line: UIDs, packets, and the replies to a discovery's branch. What isn't marked as E1.20's is
//! the profile of this project.
#![tactic(auto)]

mod branch;
mod checksum;
mod command;
mod device;
mod device_set;
mod discovery;
mod fault;
mod frame;
pub mod laws;
mod mute_ack;
mod muted;
mod request;
mod response;
mod uid;
mod uid_range;
mod uid_set;

pub use branch::{
    BranchReply, LONGEST_BRANCH_REPLY, LONGEST_PREAMBLE, read_branch_reply, write_branch_reply,
};
pub use command::{Command, read_command};
pub use device::Device;
pub use device_set::DeviceSet;
pub use discovery::{encode_branch, encode_mute, encode_unmute};
pub use fault::NoMemory;
pub use frame::{Frame, MOST_FRAME_BYTES, MOST_PARAMETER_BYTES, copy_of_frame};
pub use mute_ack::{MuteAck, reads_mute_ack};
pub use muted::mute_response;
pub use request::{QUEUED_MESSAGE, ReqClass, Request, encode_request};
pub use response::{AckType, PacketFault, RespClass, Response, decode_response, encode_response};
pub use uid::{Uid, UidFault};
pub use uid_range::UidRange;
pub use uid_set::{MOST_DEVICES, SetFull, UidSet};
