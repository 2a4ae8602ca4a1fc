//! Sets of devices, each with its control field and binding UID.
ghost use Rattle.std.specs.Prelude.{⊤, ◌≡◌, ◌≢◌, ◌<◌, ◌≤◌, ◌^◌, ◌↔◌, ◌==◌, ℕ, [], length, true, false, Ok, None};
ghost use Rattle.std.specs.Prelude.{IsErr, IfNone, IfSome, OnSome, IfOk, IfErr, OnOk, OnErr, insert, slice_get};
ghost use Rattle.std.specs.Iterator.Runs.{EveryRun, ItemsMapTo};
ghost use Rattle.std.specs.Slice.Iter.{iter_rest, iter_steps};
ghost use Rattle.rdm_wire.specs.Uid.{has, with_uid, is_broadcast, IsDeviceSet};
ghost use Rattle.rdm_wire.specs.Devices.{uids_of, device_with, with_device};

use crate::device::Device;
use crate::uid::Uid;
use crate::uid_set::{MOST_DEVICES, SetFull, UidSet};
use arrayvec::ArrayVec;
use std::alloc::AllocError;
use std::marker::Model;
use std::mem::size_of;
use std::slice;

/// Devices, ascending by UID and one for each UID: [`MOST_DEVICES`] at most. Contracts see the list of the devices. A
/// set is a value of 32 KB, so it is best passed by reference.
#[derive(Debug, Drop, PartialEq, Eq)]
pub struct DeviceSet {
    devices: ArrayVec<Device, MOST_DEVICES>,
}

// The size that the docs state: 32 bytes for each device that fits, and 8 for the count.
const _: () = prove!(size_of::<DeviceSet>() == 32 * MOST_DEVICES + 8);

impl Model for DeviceSet {
    ghost use Rattle.std.specs.Prelude.{List};
    ghost use Rattle.rdm_wire.specs.Uid.{IsDeviceSet};
    ghost use Rattle.rdm_wire.specs.Devices.{uids_of};
    ghost use Rattle.rdm_wire.specs.declared.device.Device.{Device};

    ghost Value = { List Device };

    ghost view = { λ s. s.devices.items };

    ghost invariant = { λ s. IsDeviceSet (uids_of s.devices.items) };

    ghost inverse = { λ ds. record { devices = record { items = ds } } };
}

impl DeviceSet {
    /// The empty set.
    pub fn new() -> DeviceSet
        ensures { result ≡ [] }
    {
        DeviceSet {
            devices: ArrayVec::new(),
        }
    }

    /// How many devices there are.
    pub fn len(&self) -> usize
        ensures value { result ≡ length self.now }
        ensures fits { result ≤ MOST_DEVICES }
        ensures devices { IsDeviceSet (uids_of self.now) }
    {
        self.devices.len()
    }

    /// Whether there is no device.
    pub fn is_empty(&self) -> bool
        ensures { result ≡ (length self.now == 0) }
    {
        self.devices.is_empty()
    }

    /// Whether the set is full: no other device fits.
    pub fn is_full(&self) -> bool
        ensures value { result ≡ (length self.now == MOST_DEVICES) }
        ensures fits { length self.now ≤ MOST_DEVICES }
    {
        self.devices.is_full()
    }

    /// The devices, ascending by UID.
    pub fn as_slice(&self) -> &[Device]
        ensures value { result.now ≡ self.now }
        ensures fits { length result.now ≤ MOST_DEVICES }
        ensures devices { IsDeviceSet (uids_of self.now) }
    {
        self.devices.as_slice()
    }

    /// The devices, ascending by UID.
    pub fn iter(&self) -> slice::Iter<'_, Device>
        ensures rest { iter_rest result ≡ self.now }
        ensures fits { length (iter_rest result) < 2 ^ 64 }
        ensures runs { EveryRun (iter_steps {A = Device}) (λ p. ItemsMapTo p (λ d. d.now) (iter_rest p.from)) }
    {
        self.as_slice().iter()
    }

    /// The device with this UID; `None` if there is none.
    pub fn get(&self, uid: Uid) -> Option<Device>
        ensures value { result ≡ device_with self.now uid }
        ensures devices { IsDeviceSet (uids_of self.now) }
    {
        match self.search(uid) {
            Ok(index) => Some(self.as_slice()[index]),
            Err(_) => None,
        }
    }

    /// Whether a device with this UID is in it.
    pub fn contains(&self, uid: Uid) -> bool
        ensures value { result ≡ has (uids_of self.now) uid }
        ensures devices { IsDeviceSet (uids_of self.now) }
    {
        self.search(uid).is_ok()
    }

    /// Adds a device, whose UID must not be broadcast ([`Uid::is_broadcast`]). Returns whether it was added: `false` if
    /// the set has a device with that UID. [`SetFull`]: it has none, and is full. If nothing is added, the set is
    /// unchanged.
    pub fn insert(&mut self, device: Device) -> Result<bool, SetFull>
        requires { is_broadcast device.uid ≡ false }
        ensures there { (result ≡ Ok false) ↔ (has (uids_of self.old) device.uid ≡ true) }
        ensures full { IsErr result
            ↔ ((has (uids_of self.old) device.uid ≡ false) × (length self.old ≡ MOST_DEVICES)) }
        ensures inserted { OnOk result (self.new ≡ with_device device self.old) }
        ensures uids { OnOk result (uids_of self.new ≡ with_uid device.uid (uids_of self.old)) }
        ensures unchanged { result ≢ Ok true → self.new ≡ self.old }
        ensures fits { length self.old ≤ MOST_DEVICES }
        ensures devices { IsDeviceSet (uids_of self.old) × IsDeviceSet (uids_of self.new) }
    {
        let Some(index) = self.index_for(device.uid) else {
            return Ok(false);
        };
        if self.is_full() {
            return Err(SetFull);
        }
        self.devices.insert(index, device);
        Ok(true)
    }

    // The index at which a device with this UID is to be inserted; `None` if there is one already.
    fn index_for(&self, uid: Uid) -> Option<usize>
        ensures there { IfNone result (has (uids_of self.now) uid ≡ true) }
        ensures absent { OnSome result (has (uids_of self.now) uid ≡ false) }
        ensures index { IfSome result (λ i. (i ≤ length self.now)
            × ((d : Device) → d.uid ≡ uid → with_device d self.now ≡ insert self.now i d)) }
        ensures uid_in_range { uid < 2 ^ 48 }
        ensures fits { length self.now ≤ MOST_DEVICES }
        ensures devices { IsDeviceSet (uids_of self.now) }
    {
        self.search(uid).err()
    }

    // The index of the device with this UID, or else the index at which one is to be inserted.
    fn search(&self, uid: Uid) -> Result<usize, usize>
        ensures there { OnOk result (has (uids_of self.now) uid ≡ true) }
        ensures found { IfOk result (λ i. slice_get self.now i ≡ device_with self.now uid) }
        ensures in_range { IfOk result (λ i. i < length self.now) }
        ensures absent { OnErr result (has (uids_of self.now) uid ≡ false) }
        ensures none { OnErr result (device_with self.now uid ≡ None) }
        ensures index { IfErr result (λ i. (i ≤ length self.now)
            × ((d : Device) → d.uid ≡ uid → with_device d self.now ≡ insert self.now i d)) }
        ensures uid_in_range { uid < 2 ^ 48 }
        ensures fits { length self.now ≤ MOST_DEVICES }
        ensures devices { IsDeviceSet (uids_of self.now) }
    {
        // Only for the proof: a UID's number is below 2^48.
        let _in_range = uid.number();
        self.as_slice()
            .binary_search_by_key(&uid, |device| device.uid)
    }

    /// The UIDs of the devices.
    pub fn uids(&self) -> UidSet
        ensures value { result ≡ uids_of self.now }
        ensures devices { IsDeviceSet (uids_of self.now) }
    {
        UidSet::of_devices(self.as_slice())
    }

    /// Removes all devices. The cost grows with the number of devices that the set had.
    pub fn clear(&mut self)
        ensures { self.new ≡ [] }
    {
        self.devices.clear();
    }

    /// Becomes the same set as `other`. The cost grows with the number of devices of both.
    pub fn copy_from(&mut self, other: &DeviceSet)
        ensures { self.new ≡ other.now }
    {
        self.clear();
        self.devices
            .try_extend_from_slice(other.as_slice())
            .unwrap();
    }

    /// The same set again.
    pub fn copied(&self) -> DeviceSet
        ensures { result ≡ self.now }
    {
        DeviceSet {
            devices: ArrayVec::try_from(self.as_slice()).unwrap(),
        }
    }
}

impl Clone for DeviceSet {
    ghost is_clone = { λ s t. t ≡ s };

    ghost is_infallible = { λ _. ⊤ };

    /// The same set again. It allocates nothing, and can't fail.
    fn clone(&self) -> Result<DeviceSet, AllocError> {
        Ok(self.copied())
    }
}
