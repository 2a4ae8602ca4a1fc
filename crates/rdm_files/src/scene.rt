//! Scene files: a line to be simulated, as JSON. Unknown keys are ignored, and the first one is reported to people.

mod collision;
mod device;
mod fault;
mod file;
mod form;
mod key;
mod parameter;
mod path;
mod rig;
mod values;

pub use fault::{Found, Mismatch, SceneFault};
pub(crate) use file::BUDGET;
pub use file::{SceneFile, read_scene, unknown_in_scene};
pub(crate) use form::{Form, ListOf, optional, required};
pub use key::UnknownKey;
pub(crate) use key::{Keyed, unknown_in_list, unknown_of, unknown_under};
pub use path::{Path, Step};
pub use rig::{RigFile, read_rig};
pub(crate) use values::{AnyUid, Bytes, FourDigits, OwnUid, Whole};
