//! Memory for the devices that a client's discoveries find.
ghost use Rattle.std.specs.Prelude.{◌≡◌, ◌<◌, ◌+◌, length, vec_capacity, IfOk, OnSome, IfNone};
ghost use Rattle.std.specs.Arc.{arc_value};

use rdm_client::MOST_ASKS_HELD;
use rdm_wire::{DeviceSet, NoMemory};
use std::alloc::Global;
use std::sync::Arc;

/// A client's sets, [`MOST_ASKS_HELD`] when they are made. A completion shares one of them until it is dropped, and
/// then the client uses that set again. Each is in a box, which is exchanged for that of a collected discovery.
#[derive(Drop)]
pub(crate) struct SharedSets {
    sets: Vec<Arc<Box<DeviceSet>>>,
}

impl SharedSets {
    /// Sets that no completion shares.
    /// Err: out of memory.
    pub(crate) fn new(alloc: Global) -> Result<SharedSets, NoMemory>
        ensures { IfOk result (λ made. length made.sets.items ≡ 4) }
    {
        let Ok(mut sets) = Vec::with_capacity(alloc, MOST_ASKS_HELD) else {
            return Err(NoMemory);
        };
        'sets: for _set in 0..MOST_ASKS_HELD {
            let Some(set) = shared_set(alloc) else {
                return Err(NoMemory);
            };
            sets.push_reserved(set);
        }
        Ok(SharedSets { sets })
    }

    /// Takes out a set that no completion shares. None: each is shared.
    pub(crate) fn take_unshared(&mut self) -> Option<Arc<Box<DeviceSet>>>
        ensures one_less { OnSome result (length self.old.sets.items ≡ length self.new.sets.items + 1) }
        ensures room { OnSome result (length self.new.sets.items < vec_capacity self.new.sets) }
        ensures none { IfNone result (length self.new.sets.items ≡ length self.old.sets.items) }
    {
        'sets: for index in 0..self.sets.len() {
            if Arc::get_mut(self.sets.get_mut(index)?).is_some() {
                return Some(self.sets.swap_remove(index));
            }
        }
        None
    }

    /// Puts back a set that was taken out.
    pub(crate) fn put_back(&mut self, set: Arc<Box<DeviceSet>>)
        requires { length self.old.sets.items < vec_capacity self.old.sets }
        ensures { length self.new.sets.items ≡ length self.old.sets.items + 1 }
    {
        self.sets.push_reserved(set);
    }

    /// Puts back a set that was taken out, and returns it for a completion to share.
    pub(crate) fn share(&mut self, set: Arc<Box<DeviceSet>>) -> Arc<Box<DeviceSet>>
        requires { length self.old.sets.items < vec_capacity self.old.sets }
        ensures { arc_value result ≡ arc_value set }
    {
        match Arc::try_clone(&set) {
            Ok(shared) => {
                self.put_back(set);
                shared
            }
            // It can't fail, since the set has one owner. Otherwise the client would have a set less.
            Err(_) => set,
        }
    }
}

// It isn't inlined, since a set is made in its frame.
#[inline(never)]
fn shared_set(alloc: Global) -> Option<Arc<Box<DeviceSet>>> {
    let set = Box::new(alloc, DeviceSet::new()).ok()?;
    Arc::new(alloc, set).ok()
}
