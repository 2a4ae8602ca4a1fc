//! A line to be simulated: its devices, and what goes wrong on it.
ghost use Rattle.std.specs.Prelude.{◌≡◌, ◌↔◌, true, false};
ghost use Rattle.rdm_wire.specs.Uid.{is_broadcast};
ghost use Rattle.rdm_line.specs.Scenes.{is_present, IsSceneDevice};

use crate::collision::Collision;
use crate::parameter::Parameters;
use crate::scene_devices::SceneDevices;
use rdm_wire::{Device, LONGEST_PREAMBLE, Uid};

/// The latest exchange at which a simulated device may come: 1,000,000,000.
pub const LATEST_ARRIVAL: u64 = 1_000_000_000;

/// A line to be simulated. Exchanges are numbered from 0.
#[derive(Debug, Drop)]
pub struct Scene {
    /// The controller on the line.
    pub source: Uid,
    /// The devices.
    pub devices: SceneDevices,
    /// What results from collisions of replies to a branch, in order. The last one is repeated. If there is none, each
    /// is a [`Collision::Or`].
    pub collisions: Vec<Collision>,
    /// The exchanges whose reply is lost, in any order. `u64::MAX` names none.
    pub losses: Vec<u64>,
    /// The exchanges at which the line fails, in any order. `u64::MAX` names none.
    pub fails: Vec<u64>,
}

/// A device to be simulated.
#[derive(Debug, Drop)]
pub struct SceneDevice {
    /// Its own UID, and the control field and binding UID that it acknowledges a mute with.
    pub device: Device,
    /// How many preamble bytes its reply to a branch has: 0 to 7.
    pub preamble: u8,
    /// The parameters that it has.
    pub params: Parameters,
    /// The exchange at which it comes: 0 to [`LATEST_ARRIVAL`].
    pub from: u64,
    /// The exchange at which it has left, if it ever leaves.
    pub until: Option<u64>,
}

impl SceneDevice {
    /// Whether it may be added to a scene: its UID isn't broadcast, and its fields are in their ranges.
    pub fn is_valid(&self) -> bool
        ensures { (result ≡ true) ↔ ((is_broadcast self.now.device.uid ≡ false) × IsSceneDevice self.now) }
    {
        !self.device.uid.is_broadcast()
            && self.preamble <= LONGEST_PREAMBLE
            && self.from <= LATEST_ARRIVAL
    }

    // Its own UID.
    pub(crate) fn uid(&self) -> Uid
        ensures { result ≡ self.now.device.uid }
    {
        self.device.uid
    }

    // Whether it is on the line at this exchange.
    pub(crate) fn is_present(&self, exchange: u64) -> bool
        ensures { result ≡ is_present exchange self.now }
    {
        let gone = match self.until {
            Some(end) => end <= exchange,
            None => false,
        };
        self.from <= exchange && !gone
    }
}
