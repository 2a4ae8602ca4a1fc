//! A discovery's completion without a set in its value.
ghost use Rattle.std.specs.Prelude.{◌≡◌, ◌≤◌, [], length, IfSome, IfNone};
ghost use Rattle.std.specs.Arc.{arc_value};
ghost use Rattle.std.specs.List.{All};
ghost use Rattle.rdm_wire.specs.Uid.{IsDeviceSet};
ghost use Rattle.rdm_wire.specs.Devices.{uids_of};
ghost use Rattle.rdm_client.specs.Boxed.{devices_in};
ghost use Rattle.rdm_client.specs.Callbacks.{AskFits, DeviceFits, FaultFits};

use crate::found_set::FoundSet;
use rdm_agent::AgentFault;
use rdm_wire::{Device, DeviceSet};
use std::marker::Model;
use std::mem::size_of;
use std::sync::Arc;

/// An [`AskCompletion`](rdm_queue::AskCompletion) whose set is in a box, shared or not, or left out if it is
/// empty. Moving it copies no devices. Contracts treat it as an `AskCompletion`.
#[derive(Debug, Drop)]
pub struct BoxedAsk {
    run: u64,
    fault: Option<AgentFault>,
    found: FoundSet,
}

// The size that the docs state.
const _: () = prove!(size_of::<BoxedAsk>() == 48);

impl Model for BoxedAsk {
    ghost use Rattle.rdm_log.specs.declared.outcome.AskCompletion.{AskCompletion};
    ghost use Rattle.rdm_client.specs.Boxed.{devices_of};

    ghost Value = { AskCompletion };

    ghost view = { λ b. record { run = b.run; fault = b.fault; set = devices_of b.found } };
}

impl BoxedAsk {
    /// The completion of a discovery that this run served, 0 if none was begun for it. It ended with this fault, None
    /// if it ended without one, and found these devices. None for the set: no devices.
    pub fn new(run: u64, fault: Option<AgentFault>, set: Option<Box<DeviceSet>>) -> BoxedAsk
        ensures { result ≡ record { run = run; fault = fault; set = devices_in set } }
    {
        let found = match set {
            Some(set) => FoundSet::Boxed(set),
            None => FoundSet::Empty,
        };
        BoxedAsk { run, fault, found }
    }

    /// The same with devices in a box that has other owners too. It is one of them until it is dropped.
    pub fn shared(run: u64, fault: Option<AgentFault>, set: Arc<Box<DeviceSet>>) -> BoxedAsk
        ensures { result ≡ record { run = run; fault = fault; set = (arc_value set).value } }
    {
        BoxedAsk {
            run,
            fault,
            found: FoundSet::Shared(set),
        }
    }

    /// The run that served the discovery; 0 if none was begun for it.
    pub fn run(&self) -> u64
        ensures { result ≡ self.now.run }
    {
        self.run
    }

    /// Why the run ended early; None if it ended without fault.
    pub fn fault(&self) -> Option<AgentFault>
        ensures { result ≡ self.now.fault }
    {
        self.fault
    }

    /// The devices that the run found. None: no devices.
    pub fn set(&self) -> Option<&DeviceSet>
        ensures some { IfSome result (λ set. set.now ≡ self.now.set) }
        ensures none { IfNone result (self.now.set ≡ []) }
    {
        match &self.found {
            FoundSet::Empty => None,
            FoundSet::Boxed(set) => Some(set),
            FoundSet::Shared(set) => Some(set),
        }
    }

    /// The devices that the run found, ascending by UID.
    pub fn devices(&self) -> &[Device]
        ensures value { result.now ≡ self.now.set }
        ensures fits { length result.now ≤ 1024 }
        ensures devices { IsDeviceSet (uids_of self.now.set) }
    {
        match self.set() {
            Some(set) => set.as_slice(),
            None => &[],
        }
    }

    // Only for the proof: its numbers are in the ranges of their types.
    pub(crate) fn fits(&self)
        ensures { AskFits self.now }
    {
        let _run = self.run();
        fault_fits(self.fault());
        devices_fit(self.devices());
    }
}

// Only for the proof: the fault's UID is in the range of its type.
fn fault_fits(fault: Option<AgentFault>)
    ensures { FaultFits fault }
{}

// Only for the proof: each device's numbers are in the ranges of their types.
fn devices_fit(devices: &[Device])
    ensures { All DeviceFits devices.now }
{
    'devices: for device in devices {
        device_fits(device);
    }
}

// Only for the proof: this device's numbers are.
fn device_fits(device: &Device)
    ensures { DeviceFits device.now }
{
    let Device {
        control: _control,
        binding,
        ..
    } = *device;
    if let Some(uid) = binding {
        let _number = uid.number();
    }
}
