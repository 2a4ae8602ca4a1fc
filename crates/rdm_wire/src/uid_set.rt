//! Sets of devices.
ghost use Rattle.std.specs.Prelude.{⊤, ◌≡◌, ◌≢◌, ◌<◌, ◌≤◌, ◌^◌, ◌↔◌, ◌==◌, ℕ, [], length, true, false, Ok, IsErr};
ghost use Rattle.std.specs.Prelude.{OnOk, IfNone, IfSome, OnSome, insert};
ghost use Rattle.std.specs.Iterator.Runs.{EveryRun, ItemsMapTo};
ghost use Rattle.std.specs.Slice.Iter.{iter_rest, iter_steps};
ghost use Rattle.rdm_wire.specs.Uid.{has, with_uid, is_broadcast, IsDeviceSet};
ghost use Rattle.rdm_wire.specs.Devices.{uids_of};

use crate::device::Device;
use crate::uid::Uid;
use arrayvec::ArrayVec;
use std::alloc::AllocError;
use std::marker::Model;
use std::mem::size_of;
use std::slice;
use thiserror::Error;

/// The most devices in a set: 1,024.
pub const MOST_DEVICES: usize = 1024;

/// UIDs of devices, ascending and without repeats: [`MOST_DEVICES`] at most. Contracts see the list of their numbers.
#[derive(Debug, Drop, PartialEq, Eq)]
pub struct UidSet {
    uids: ArrayVec<Uid, MOST_DEVICES>,
}

// The size that the docs state: 8 bytes for each device that fits, and 8 for the count.
const _: () = prove!(size_of::<UidSet>() == 8 * MOST_DEVICES + 8);

impl Model for UidSet {
    ghost use Rattle.std.specs.Prelude.{List, ℕ};
    ghost use Rattle.rdm_wire.specs.Uid.{IsDeviceSet};

    ghost Value = { List ℕ };

    ghost view = { λ s. s.uids.items };

    ghost invariant = { λ s. IsDeviceSet s.uids.items };

    ghost inverse = { λ us. record { uids = record { items = us } } };
}

/// The set is full, so another device doesn't fit. The set is unchanged.
#[derive(Clone, Copy, Debug, PartialEq, Eq, Error)]
#[error("a set has room for 1,024 devices")]
pub struct SetFull;

impl UidSet {
    /// The empty set.
    pub fn new() -> UidSet
        ensures { result ≡ [] }
    {
        UidSet {
            uids: ArrayVec::new(),
        }
    }

    /// How many devices there are.
    pub fn len(&self) -> usize
        ensures value { result ≡ length self.now }
        ensures fits { result ≤ MOST_DEVICES }
        ensures devices { IsDeviceSet self.now }
    {
        self.uids.len()
    }

    /// Whether there is no device.
    pub fn is_empty(&self) -> bool
        ensures { result ≡ (length self.now == 0) }
    {
        self.uids.is_empty()
    }

    /// Whether the set is full: no other device fits.
    pub fn is_full(&self) -> bool
        ensures value { result ≡ (length self.now == MOST_DEVICES) }
        ensures fits { length self.now ≤ MOST_DEVICES }
    {
        self.uids.is_full()
    }

    /// The UIDs, ascending.
    pub fn as_slice(&self) -> &[Uid]
        ensures value { result.now ≡ self.now }
        ensures fits { length result.now ≤ MOST_DEVICES }
        ensures devices { IsDeviceSet self.now }
    {
        self.uids.as_slice()
    }

    /// The UIDs, ascending.
    pub fn iter(&self) -> slice::Iter<'_, Uid>
        ensures rest { iter_rest result ≡ self.now }
        ensures fits { length (iter_rest result) < 2 ^ 64 }
        ensures runs { EveryRun (iter_steps {A = ℕ}) (λ p. ItemsMapTo p (λ u. u.now) (iter_rest p.from)) }
    {
        self.as_slice().iter()
    }

    /// Whether `uid` is in it.
    pub fn contains(&self, uid: Uid) -> bool
        ensures value { result ≡ has self.now uid }
        ensures devices { IsDeviceSet self.now }
    {
        self.index_for(uid).is_none()
    }

    /// Adds `uid`, which must not be broadcast ([`Uid::is_broadcast`]). Returns whether it was added: `false` if the
    /// set has it already. [`SetFull`]: the set doesn't have it, and is full. If nothing is added, it is unchanged.
    pub fn insert(&mut self, uid: Uid) -> Result<bool, SetFull>
        requires { is_broadcast uid ≡ false }
        ensures there { (result ≡ Ok false) ↔ (has self.old uid ≡ true) }
        ensures full { IsErr result ↔ ((has self.old uid ≡ false) × (length self.old ≡ MOST_DEVICES)) }
        ensures inserted { OnOk result (self.new ≡ with_uid uid self.old) }
        ensures unchanged { result ≢ Ok true → self.new ≡ self.old }
        ensures fits { length self.old ≤ MOST_DEVICES }
        ensures devices { IsDeviceSet self.old × IsDeviceSet self.new }
    {
        let Some(index) = self.index_for(uid) else {
            return Ok(false);
        };
        if self.is_full() {
            return Err(SetFull);
        }
        self.uids.insert(index, uid);
        Ok(true)
    }

    // The index at which `uid` is to be inserted; `None` if the set has it already.
    fn index_for(&self, uid: Uid) -> Option<usize>
        ensures there { IfNone result (has self.now uid ≡ true) }
        ensures absent { OnSome result (has self.now uid ≡ false) }
        ensures index { IfSome result (λ i. (i ≤ length self.now) × (with_uid uid self.now ≡ insert self.now i uid)) }
        ensures in_range { uid < 2 ^ 48 }
        ensures fits { length self.now ≤ MOST_DEVICES }
        ensures devices { IsDeviceSet self.now }
    {
        // Only for the proof: a UID's number is below 2^48.
        let _in_range = uid.number();
        match self.as_slice().binary_search(&uid) {
            Ok(_) => None,
            Err(index) => Some(index),
        }
    }

    /// Removes all devices. The cost grows with the number of devices that the set had.
    pub fn clear(&mut self)
        ensures { self.new ≡ [] }
    {
        self.uids.clear();
    }

    /// Becomes the same set as `other`. The cost grows with the number of devices of both.
    pub fn copy_from(&mut self, other: &UidSet)
        ensures { self.new ≡ other.now }
    {
        self.clear();
        self.uids.try_extend_from_slice(other.as_slice()).unwrap();
    }

    /// The UIDs of these devices, which are those of a set.
    pub(crate) fn of_devices(devices: &[Device]) -> UidSet
        requires devices { IsDeviceSet (uids_of devices.now) }
        requires fits { length devices.now ≤ MOST_DEVICES }
        ensures { result ≡ uids_of devices.now }
    {
        let mut uids = ArrayVec::new();
        for device in devices {
            uids.push(device.uid);
        }
        UidSet { uids }
    }

    /// The same set again.
    pub fn copied(&self) -> UidSet
        ensures { result ≡ self.now }
    {
        UidSet {
            uids: ArrayVec::try_from(self.as_slice()).unwrap(),
        }
    }
}

impl Clone for UidSet {
    ghost is_clone = { λ s t. t ≡ s };

    ghost is_infallible = { λ _. ⊤ };

    /// The same set again. It allocates nothing, and can't fail.
    fn clone(&self) -> Result<UidSet, AllocError> {
        Ok(self.copied())
    }
}
