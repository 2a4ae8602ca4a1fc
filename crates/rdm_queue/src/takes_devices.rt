//! Where the devices of a discovery go when its outcome is collected.
use rdm_wire::DeviceSet;
use std::mem;

/// What can take the devices of a collected discovery. A set gets a copy of them. A box with a set is exchanged for the
/// one that has them, so that no set is copied.
pub trait TakesDevices {
    ghost use Rattle.std.specs.Prelude.{◌≡◌, List};
    ghost use Rattle.rdm_wire.specs.declared.device.Device.{Device};

    /// The devices that this has.
    ghost devices: { Self → List Device };

    /// Takes the devices of this box, in place of its own. What the box has afterwards isn't said.
    fn take(&mut self, from: &mut Box<DeviceSet>)
        ensures { devices self.new ≡ from.old.value };
}

impl TakesDevices for DeviceSet {
    ghost devices = { λ set. set };

    fn take(&mut self, from: &mut Box<DeviceSet>) {
        self.copy_from(from);
    }
}

impl TakesDevices for Box<DeviceSet> {
    ghost devices = { λ set. set.value };

    fn take(&mut self, from: &mut Box<DeviceSet>) {
        mem::swap(self, from);
    }
}
