//! The devices that a client sees.
use rdm_wire::DeviceSet;
use std::mem::size_of;

/// The devices that the last discovery without fault found, as a client sees them. It has 32 KB and no allocation, so
/// it is best passed by reference.
#[derive(Debug, PartialEq, Eq, Drop)]
pub struct DeviceView {
    /// The run that found them, from 1; 0 if no run has ended without fault.
    pub run: u64,
    /// The devices.
    pub set: DeviceSet,
}

// The size that the docs state.
const _: () = prove!(size_of::<DeviceView>() == 32 * 1024 + 16);
