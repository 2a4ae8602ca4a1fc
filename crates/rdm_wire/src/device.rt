//! A device as it is reported.
use crate::uid::Uid;
use std::mem::size_of;

/// A device of the line, with the data of its first acknowledgement of a mute in a discovery run (E1.20, discovery
/// mute).
#[derive(Clone, Copy, Debug, Default, PartialEq, Eq)]
pub struct Device {
    /// Its own UID.
    pub uid: Uid,
    /// The control field's bits: 1 managed proxy, 2 sub-device, 4 boot-loader, 8 proxied device. Other bits are kept.
    pub control: u16,
    /// The binding UID, if the device gave one.
    pub binding: Option<Uid>,
}

// The size that the docs state.
const _: () = prove!(size_of::<Device>() == 32);
