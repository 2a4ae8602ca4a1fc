//! A line of devices: what it has to do, a line of one's own, a tape that replays events, a line over streams of text,
//! and a simulation of devices from a description. All of it is the profile of this project.
#![tactic(auto)]

mod collision;
mod counting;
pub mod laws;
mod line;
mod overlay;
mod parameter;
mod scene;
mod scene_devices;
mod sim;
mod stream;
mod tape;

pub use collision::{Collision, CollisionBytes};
pub use counting::{Asks, Counted};
pub use line::Line;
pub use parameter::{Parameter, ParameterPart, Parameters};
pub use rdm_join::LineFault;
pub use rdm_wire::NoMemory;
pub use scene::{LATEST_ARRIVAL, Scene, SceneDevice};
pub use scene_devices::{AddFault, SceneDevices};
pub use sim::SimLine;
pub use stream::StreamLine;
pub use tape::TapeLine;
