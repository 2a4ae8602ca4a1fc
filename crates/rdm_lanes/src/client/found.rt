//! What a client knows of devices by its own discoveries.
ghost use Rattle.std.specs.Prelude.{◌≡◌};
ghost use Rattle.rdm_lanes.specs.Told.{value_in};
ghost use Rattle.rdm_lanes.specs.Views.{later_view, found_after, found_by};

use crate::ring_outcome::RingOutcome;
use rdm_client::{BoxedAsk, DeviceView};

/// Keeps the outcome's devices, if it is that of a discovery without fault.
pub fn keep_found(found: &mut DeviceView, item: &RingOutcome)
    ensures { found.new ≡ found_after found.old (value_in item.now) }
{
    if let RingOutcome::Discovery { done, .. } = item {
        keep_devices(found, done);
    }
}

// Keeps the completion's devices, if it has no fault.
fn keep_devices(found: &mut DeviceView, done: &BoxedAsk)
    ensures { found.new ≡ found_by found.old done.now.run done.now.fault done.now.set }
{
    if done.fault().is_some() {
        return;
    }
    found.run = done.run();
    match done.set() {
        Some(set) => found.set.copy_from(set),
        None => found.set.clear(),
    }
}

/// The later of two views, by run; the first, if they are of one run.
pub fn later<'a>(first: &'a DeviceView, second: &'a DeviceView) -> &'a DeviceView
    ensures { result.now ≡ later_view first.now second.now }
{
    if first.run < second.run {
        second
    } else {
        first
    }
}
