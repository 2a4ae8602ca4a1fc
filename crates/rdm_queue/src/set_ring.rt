//! The sets of a client's answered discoveries that aren't collected.
ghost use Rattle.std.specs.Prelude.{◌≡◌, [], IfOk};

use crate::takes_devices::TakesDevices;
use rdm_log::MOST_DISCOVERIES;
use rdm_wire::DeviceSet;
use std::alloc::{AllocError, Global};
use std::marker::Model;

/// A set in a box of its own. Contracts see its devices.
#[derive(Debug, Drop)]
struct HeldSet {
    set: Box<DeviceSet>,
}

impl Model for HeldSet {
    ghost use Rattle.std.specs.Prelude.{List};
    ghost use Rattle.rdm_wire.specs.declared.device.Device.{Device};

    ghost Value = { List Device };

    ghost view = { λ held. held.set.value };
}

impl HeldSet {
    // A set without devices. This isn't inlined, since a set is made in its frame.
    #[inline(never)]
    fn new(alloc: Global) -> Result<HeldSet, AllocError>
        ensures { IfOk result (λ held. held ≡ []) }
    {
        match Box::new(alloc, DeviceSet::new()) {
            Ok(set) => Ok(HeldSet { set }),
            Err(_) => Err(AllocError),
        }
    }
}

/// A ring of sets, each in a box. A set is copied into it. Whoever collects one copies it out, or exchanges the box for
/// another. Contracts see the sets that it holds, oldest first, and its capacity.
#[derive(Debug, Drop)]
pub(crate) struct SetRing {
    // As many as its capacity. Those that aren't held have any content.
    sets: Vec<HeldSet>,
    // The index of the oldest.
    first: usize,
    count: usize,
}

impl Model for SetRing {
    ghost use Rattle.std.specs.Prelude.{length};
    ghost use Rattle.rdm_queue.specs.body.Sets.{SetsHeld, IsRing, held};

    ghost Value = { SetsHeld };

    ghost view = { λ r. record { items = held r.first r.count r.sets.items; room = length r.sets.items } };

    ghost invariant = { λ r. IsRing r.first r.count (length r.sets.items) };
}

impl SetRing {
    ghost use Rattle.std.specs.Prelude.{◌≡◌, ◌<◌, ◌≤◌, ◌++◌, ◌∷◌, [], length, drop, IfOk, option_map, slice_get, Some};

    /// A ring without capacity. It allocates nothing.
    pub(crate) fn blank(alloc: Global) -> SetRing
        ensures { result ≡ record { items = []; room = 0 } }
    {
        SetRing {
            sets: Vec::new(alloc),
            first: 0,
            count: 0,
        }
    }

    /// An empty ring, with capacity for the sets of as many discoveries as a client may have outstanding.
    pub(crate) fn with_room(alloc: Global) -> Result<SetRing, AllocError>
        ensures { IfOk result (λ r. r ≡ record { items = []; room = MOST_DISCOVERIES }) }
    {
        let mut sets = Vec::with_capacity(alloc, MOST_DISCOVERIES)?;
        for _ in 0..MOST_DISCOVERIES {
            sets.push_reserved(HeldSet::new(alloc)?);
        }
        Ok(SetRing {
            sets,
            first: 0,
            count: 0,
        })
    }

    /// How many sets it holds.
    pub(crate) fn len(&self) -> usize
        ensures value { result ≡ length self.now.items }
        ensures fits { result ≤ MOST_DISCOVERIES }
    {
        self.count
    }

    /// The oldest.
    pub(crate) fn oldest(&self) -> Option<&DeviceSet>
        ensures { option_map (λ s. s.now) result ≡ slice_get self.now.items 0 }
    {
        if self.count == 0 {
            return None;
        }
        let held = self.sets.get(self.first)?;
        Some(&held.set)
    }

    /// Adds a copy of this set, as the newest.
    pub(crate) fn push_back(&mut self, set: &DeviceSet)
        requires { length self.old.items < self.old.room }
        ensures { self.new ≡ record self.old { items = self.old.items ++ set.now ∷ [] } }
    {
        let index = (self.first + self.count) % MOST_DISCOVERIES;
        self.sets[index].set.copy_from(set);
        self.count += 1;
    }

    /// Removes the oldest. `set` takes its devices.
    pub(crate) fn move_oldest<T: TakesDevices>(&mut self, set: &mut T)
        requires { 0 < length self.old.items }
        ensures taken { slice_get self.old.items 0 ≡ Some (T.devices set.new) }
        ensures removed { self.new ≡ record self.old { items = drop 1 self.old.items } }
    {
        set.take(&mut self.sets[self.first].set);
        self.first = (self.first + 1) % MOST_DISCOVERIES;
        self.count -= 1;
    }
}
