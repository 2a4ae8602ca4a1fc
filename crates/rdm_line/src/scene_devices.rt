//! The devices of a scene.
ghost use Rattle.std.specs.Prelude.{◌≡◌, ◌↔◌, ◌≤◌, ◌<◌, ◌^◌, [], length, true, false, None, IsErrOf, OnOk, OnErr};
ghost use Rattle.std.specs.Prelude.{OnSome, IfNone, IfSome, is_some, option_map};
ghost use Rattle.rdm_wire.specs.Uid.{is_broadcast, has};
ghost use Rattle.rdm_line.specs.Scenes.{IsScene, uids_of_scene, with_scene_device, find_device, device_at};
ghost use Rattle.rdm_line.specs.Scenes.{sent_by};
ghost use Rattle.rdm_line.specs.body.Parts.{parameter_at, AnswersPart};
ghost use Rattle.rdm_line.specs.body.SceneIndices.{index_in, has_at, IsFoundAt, IsFreeAt};

use crate::parameter::ParameterPart;
use crate::scene::SceneDevice;
use rdm_wire::{AckType, MOST_DEVICES, Uid};
use std::alloc::Global;
use std::marker::Model;
use thiserror::Error;

/// The devices of a scene, ascending by UID: 1,024 at most, one for each UID. Contracts see the list of the devices.
#[derive(Debug, Drop)]
pub struct SceneDevices {
    devices: Vec<SceneDevice>,
}

impl Model for SceneDevices {
    ghost use Rattle.std.specs.Prelude.{List};
    ghost use Rattle.rdm_line.specs.Scenes.{IsScene};
    ghost use Rattle.rdm_line.specs.declared.scene.SceneDevice.{SceneDevice};

    ghost Value = { List SceneDevice };

    ghost view = { λ s. s.devices.items };

    ghost invariant = { λ s. IsScene s.devices.items };
}

/// Why a device isn't added to a scene, in the order in which it is tested.
#[derive(Clone, Copy, Debug, PartialEq, Eq, Error)]
pub enum AddFault {
    /// There is a device with this UID.
    #[error("there is a device with this UID")]
    Repeated,
    /// There are 1,024 devices.
    #[error("there are 1,024 devices")]
    Full,
    /// Out of memory.
    #[error("out of memory")]
    NoMemory,
}

impl SceneDevices {
    /// No devices.
    pub fn new(alloc: Global) -> SceneDevices
        ensures { result ≡ [] }
    {
        SceneDevices {
            devices: Vec::new(alloc),
        }
    }

    /// Adds a device, which must be valid ([`SceneDevice::is_valid`]). An error is the first fault that applies, in the
    /// order of [`AddFault`]. Then the devices are unchanged.
    pub fn add(&mut self, device: SceneDevice) -> Result<(), AddFault>
        requires own { is_broadcast device.device.uid ≡ false }
        requires preamble { device.preamble ≤ 7 }
        requires from { device.from ≤ 1000000000 }
        ensures repeated { IsErrOf result AddFault.Repeated ↔ (has (uids_of_scene self.old) device.device.uid ≡ true) }
        ensures full { IsErrOf result AddFault.Full
            ↔ ((has (uids_of_scene self.old) device.device.uid ≡ false) × (length self.old ≡ 1024)) }
        ensures added { OnOk result (self.new ≡ with_scene_device device self.old) }
        ensures unchanged { OnErr result (self.new ≡ self.old) }
    {
        let Some(index) = self.free_index(device.uid()) else {
            return Err(AddFault::Repeated);
        };
        if self.devices.len() == MOST_DEVICES {
            return Err(AddFault::Full);
        }
        match self.devices.insert(index, device) {
            Ok(()) => Ok(()),
            Err(_) => Err(AddFault::NoMemory),
        }
    }

    // How many devices have a smaller UID. This is the index of the one with this UID.
    fn count_below(&self, uid: Uid) -> usize
        ensures value { result ≡ index_in self.now uid }
        ensures bound { result ≤ length self.now }
        ensures scene { IsScene self.now }
    {
        self.devices
            .iter()
            .take_while(|device| device.device.uid < uid)
            .count()
    }

    // Whether the device at this index has this UID.
    fn has_at(&self, index: usize, uid: Uid) -> bool
        ensures { result ≡ has_at index uid self.now }
    {
        match self.devices.get(index) {
            Some(device) => device.device.uid == uid,
            None => false,
        }
    }

    // The index that a device with this UID would have; `None` if there is one.
    fn free_index(&self, uid: Uid) -> Option<usize>
        ensures there { IfNone result (has (uids_of_scene self.now) uid ≡ true) }
        ensures absent { OnSome result (has (uids_of_scene self.now) uid ≡ false) }
        ensures index { IfSome result (λ i. (i ≤ length self.now) × IsFreeAt i uid self.now) }
        ensures few { length self.now ≤ MOST_DEVICES }
        ensures in_range { uid < 2 ^ 48 }
    {
        // Only for the proof: a UID's number is below 2^48.
        let _in_range = uid.number();
        let index = self.count_below(uid);
        if self.has_at(index, uid) {
            None
        } else {
            Some(index)
        }
    }

    // The index of the device with this UID.
    fn index_of(&self, uid: Uid) -> Option<usize>
        ensures none { IfNone result (find_device self.now uid ≡ None) }
        ensures some { IfSome result (λ i. (i < length self.now) × IsFoundAt i uid self.now) }
        ensures scene { IsScene self.now }
    {
        let index = self.count_below(uid);
        if self.has_at(index, uid) {
            Some(index)
        } else {
            None
        }
    }

    /// The devices, ascending by UID.
    pub(crate) fn as_slice(&self) -> &[SceneDevice]
        ensures value { result.now ≡ self.now }
        ensures scene { IsScene self.now }
    {
        self.devices.as_slice()
    }

    // The device with this UID, if it is present at this exchange.
    pub(crate) fn present(&self, uid: Uid, exchange: u64) -> Option<&SceneDevice>
        ensures value { option_map (λ d. d.now) result ≡ device_at exchange self.now uid }
        ensures scene { IsScene self.now }
    {
        let device = &self.devices[self.index_of(uid)?];
        if device.is_present(exchange) {
            Some(device)
        } else {
            None
        }
    }

    // Whether the device with this UID has a parameter with this PID.
    pub(crate) fn has_parameter(&self, uid: Uid, pid: u16) -> bool
        ensures { result ≡ is_some (parameter_at uid pid self.now) }
    {
        match self.index_of(uid) {
            Some(index) => self.devices[index].params.has(pid),
            None => false,
        }
    }

    // The part with which the device with this UID answers a GET of this PID, with its response type. The next GET is
    // answered with the next part.
    pub(crate) fn send(&mut self, uid: Uid, pid: u16) -> Option<(ParameterPart, AckType)>
        ensures value { AnswersPart (parameter_at uid pid self.old) result }
        ensures sent { self.new ≡ sent_by uid pid self.old }
    {
        let index = self.index_of(uid)?;
        self.devices[index].params.send(pid)
    }
}
