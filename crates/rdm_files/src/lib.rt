//! The files of the program `wurstlinen`, which are JSON; their format is the profile of this project. A scene file has
//! a line to be simulated. A session file has a scene, and the calls of the clients on its line. For a line of the
//! caller's own it has the controller's UID in place of the scene.
//!
//! [`read_file`] returns a file's bytes. [`read_scene`] and [`read_session`] read its JSON, and [`read_rig`] which
//! devices a scene has. [`discovery_command`] finds a call that no client may make. For people there are these:
//! - a [`Mismatch`] says where a file has something else than was expected;
//! - a [`Remark`] says what they should know about a file that is read anyway;
//! - [`looks_like`] says which kind of file it seems to be.
#![tactic(auto)]

mod input;
mod kind;
mod losses;
mod remark;
mod scene;
mod session;

pub use input::{FileFault, MOST_BYTES, read_file};
pub use kind::{FileKind, looks_like};
pub use losses::five_losses;
pub use remark::Remark;
pub use scene::{
    Found, Mismatch, Path, RigFile, SceneFault, SceneFile, Step, UnknownKey, read_rig, read_scene,
    unknown_in_scene,
};
pub use session::{
    ClientCall, ClientFile, SessionFile, discovery_command, read_session, unknown_in_session,
};
