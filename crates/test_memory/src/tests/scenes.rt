//! Scenes, and the lines that are made of them.
use crate::tests::*;
use rdm_line::{AddFault, Parameters, SceneDevice, SceneDevices};
use rdm_wire::{Device, Frame, Uid, encode_mute};

// Adds the device with this number. It has no parameters, and is on the line from the start.
fn puts(
    rt: &impl Abort,
    alloc: Global,
    devices: &mut SceneDevices,
    number: u32,
) -> Result<(), AddFault> {
    let uid = Uid::new(0x1234, number);
    check(rt, !uid.is_broadcast());
    devices.add(SceneDevice {
        device: Device {
            uid,
            control: 0,
            binding: None,
        },
        preamble: 7,
        params: Parameters::new(Vec::new(alloc)),
        from: 0,
        until: None,
    })
}

// If an allocation fails, the device isn't there, and can be added again.
#[test]
fn scene_devices_add(rt: HostRuntime) {
    let mut devices = SceneDevices::new(rt.alloc());
    for number in [5, 1, 9, 3, 7, 2, 8, 4, 6, 0] {
        let mut added = puts(&rt, rt.alloc(), &mut devices, number);
        if added == Err(AddFault::NoMemory) {
            added = puts(&rt, rt.alloc(), &mut devices, number);
        }
        check(&rt, added.is_ok());
    }
    for number in 0..10 {
        let again = puts(&rt, rt.alloc(), &mut devices, number);
        check(&rt, again == Err(AddFault::Repeated));
    }
}

// The mute of the first device.
fn mute(rt: &impl Abort) -> Frame {
    let uid = device_of(Who::First).uid;
    check(rt, !uid.is_broadcast());
    encode_mute(uid, controller(), 0)
}

// Of this many mutes, those with these numbers fail or have no reply. The device acknowledges all others, with its
// binding UID.
fn has_faults(rt: &impl Abort, line: &mut SimLine, exchanges: u64, losses: &[u64], fails: &[u64]) {
    let frame = mute(rt);
    for number in 0..exchanges {
        let length = match line.exchange(&frame) {
            Ok(reply) => Some(reply.len()),
            Err(_) => None,
        };
        let wanted = if fails.contains(&number) {
            None
        } else if losses.contains(&number) {
            Some(0)
        } else {
            Some(34)
        };
        check(rt, length == wanted);
    }
}

#[test]
fn sim_line_new_with_losses_and_failures(rt: HostRuntime) {
    let (losses, fails) = ([7, 2], [9, 5, 0]);
    let mut line = first_device(&rt, rt.alloc(), &losses, &fails);
    has_faults(&rt, &mut line, 50, &losses, &fails);
}

#[test]
fn sim_line_new_with_many_losses_and_failures(rt: HostRuntime) {
    let losses = [
        49, 1, 47, 3, 45, 5, 43, 7, 41, 9, 39, 11, 37, 13, 35, 15, 33, 17, 31, 19, 29, 21, 27, 23,
        25,
    ];
    let fails = [
        0, 48, 2, 46, 4, 44, 6, 42, 8, 40, 10, 38, 12, 36, 14, 34, 16, 32, 18, 30, 20, 28, 22, 26,
        24,
    ];
    let mut line = first_device(&rt, rt.alloc(), &losses, &fails);
    has_faults(&rt, &mut line, 50, &losses, &fails);
}
