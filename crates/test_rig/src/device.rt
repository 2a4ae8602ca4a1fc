//! The devices of scenes.
use rdm_wire::{Device, Uid};

/// A device of a scene. Their control fields and binding UIDs differ, so a test notices if one is lost.
#[derive(Clone, Copy)]
pub enum Who {
    /// `1234:00000001`, with control field 2, bound to `1234:00000005`.
    First,
    /// `9abc:00000002`, with control field 4, bound to `9abc:00000006`.
    Second,
    /// `5678:00000009`, with control field 8 and without a binding UID. It leaves in some scenes.
    Gone,
    /// `0000:00000000`, the lowest UID.
    Lowest,
    /// `0000:00000001`, the one after it.
    NextToLowest,
}

/// The device with its control field and its binding UID.
pub fn device_of(who: Who) -> Device {
    match who {
        Who::First => device(Uid::new(0x1234, 1), 2, Some(Uid::new(0x1234, 5))),
        Who::Second => device(Uid::new(0x9abc, 2), 4, Some(Uid::new(0x9abc, 6))),
        Who::Gone => device(Uid::new(0x5678, 9), 8, None),
        Who::Lowest => device(Uid::new(0, 0), 1, None),
        Who::NextToLowest => device(Uid::new(0, 1), 2, None),
    }
}

fn device(uid: Uid, control: u16, binding: Option<Uid>) -> Device {
    Device {
        uid,
        control,
        binding,
    }
}
