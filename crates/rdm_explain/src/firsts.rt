//! Devices in a tree, the first of each UID.
use rdm_wire::{Device, NoMemory, Uid};
use std::alloc::Global;
use std::collections::BTreeMap;

/// Devices, one for each UID.
#[derive(Drop)]
pub(crate) struct Firsts {
    tree: BTreeMap<u64, Device>,
}

impl Firsts {
    ghost use Rattle.std.specs.Prelude.{◌≡◌, ℕ, None, OnOk};
    ghost use Rattle.rdm_explain.specs.body.Firsts.{first_in, or_else, if_uid};

    /// No devices.
    pub(crate) fn new(alloc: Global) -> Firsts
        ensures { (u : ℕ) → first_in result u ≡ None }
    {
        Firsts {
            tree: BTreeMap::new(alloc),
        }
    }

    /// The device with this UID.
    pub(crate) fn get(&self, uid: Uid) -> Option<Device>
        ensures { result ≡ first_in self.now uid }
    {
        self.tree.get(&uid.number()).copied()
    }

    /// Adds a device, unless there is one with its UID.
    pub(crate) fn add(&mut self, device: Device) -> Result<(), NoMemory>
        ensures { OnOk result ((u : ℕ) → first_in self.new u ≡ or_else (first_in self.old u) (if_uid device u)) }
    {
        if self.tree.contains_key(&device.uid.number()) {
            return Ok(());
        }
        match self.tree.insert(device.uid.number(), device) {
            Ok(_) => Ok(()),
            Err(_) => Err(NoMemory),
        }
    }
}
