//! What C holds and passes: handles of controllers, sessions, logs and discovery runs, and structs of numbers.
//!
//! A handle is 16 bytes in the memory of its C program. It owns a value on the heap while it is open. All of it is the
//! profile of this project.
#![tactic(auto)]

pub mod agents;
pub mod convert;
mod discovery;
pub mod entries;
mod forms;
pub mod handle;
mod holding;
mod loose;
pub mod packets;
pub mod sessions;
pub mod status;

pub use discovery::Discovery;
pub use forms::{
    CommandForC, CompletionForC, DeviceForC, EndForC, EntryForC, MuteAckForC, RequestForC,
    ResponseForC, SetupForC, StartForC,
};
pub use handle::Handle;
