//! Where the devices of a discovery are.
use rdm_wire::DeviceSet;
use std::sync::Arc;

/// Where the devices are that a discovery found.
#[derive(Debug, Drop)]
pub enum FoundSet {
    /// There are none.
    Empty,
    /// In a box.
    Boxed(Box<DeviceSet>),
    /// In a box that has other owners too.
    Shared(Arc<Box<DeviceSet>>),
}
