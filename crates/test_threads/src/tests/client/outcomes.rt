//! What callbacks are called with.
use crate::tests::*;
use rdm_client::BoxedAsk;
use rdm_log::{BoxedOutcome, Completion, DiscoveryEnd};
use rdm_wire::DeviceSet;
use std::alloc::AllocError;
use test_rig::device_of;

/// The completion of a request without data.
pub fn ended(alloc: Global, status: Status) -> Completion {
    Completion {
        status,
        reply: None,
        bytes: Vec::new(alloc),
    }
}

/// A client's outcome of such a request.
pub fn request_outcome(alloc: Global, number: u64, status: Status) -> BoxedOutcome {
    BoxedOutcome::Request {
        number,
        done: ended(alloc, status),
    }
}

// `1234:00000001`, in a box.
fn first_device(alloc: Global) -> Result<Box<DeviceSet>, AllocError> {
    let mut set = Box::new(alloc, DeviceSet::new())?;
    let device = device_of(Who::First);
    if !device.uid.is_broadcast() {
        let _ = set.insert(device);
    }
    Ok(set)
}

/// A run that found `1234:00000001`.
pub fn found(alloc: Global, run: u64) -> Result<BoxedAsk, AllocError> {
    Ok(BoxedAsk::new(run, None, Some(first_device(alloc)?)))
}

/// A client's outcome of a discovery whose run found that device.
pub fn ask_outcome(alloc: Global, number: u64, run: u64) -> Result<BoxedOutcome, AllocError> {
    let end = DiscoveryEnd {
        number,
        run,
        fault: None,
    };
    Ok(BoxedOutcome::Discovery {
        end,
        set: first_device(alloc)?,
    })
}
