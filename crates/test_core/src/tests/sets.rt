//! Ranges and sets of UIDs.
ghost use Rattle.std.specs.Prelude.{◌≡◌, false};
ghost use Rattle.rdm_wire.specs.Uid.{is_broadcast};

use crate::tests::*;

// A device's UID.
fn uid(rt: &impl Abort, number: u32) -> Uid
    ensures { is_broadcast result ≡ false }
{
    let own = Uid::new(0x1234, number);
    check(rt, !own.is_broadcast());
    own
}

// The halves of a range, of which there are two.
fn halves(rt: &impl Abort, range: UidRange) -> (UidRange, UidRange) {
    range.halves().expect(rt, "two halves")
}

#[test]
fn ranges(rt: HostRuntime) {
    let whole = UidRange::whole();
    check(&rt, whole.lo.number() == 0);
    check(&rt, whole.hi.number() == 0xffff_ffff_ffff);
    let (lower, upper) = halves(&rt, whole);
    check(&rt, lower.hi.number() == 0x7fff_ffff_ffff);
    check(&rt, upper.lo.number() == 0x8000_0000_0000);
    check(&rt, lower.contains(lower.hi) && !lower.contains(upper.lo));
}

#[test]
fn small_ranges(rt: HostRuntime) {
    let three = UidRange::new(Uid::new(0, 0), Uid::new(0, 2)).expect(&rt, "in order");
    let (two, one) = halves(&rt, three);
    check(&rt, two.lo == Uid::new(0, 0) && two.hi == Uid::new(0, 1));
    check(&rt, one.lo == Uid::new(0, 2) && one.hi == Uid::new(0, 2));
    check(&rt, one.halves().is_none());
    check(&rt, UidRange::new(Uid::new(0, 5), Uid::new(0, 4)).is_none());
}

// Inserts the UID with this number, with this result: whether it was new.
fn inserts(rt: &impl Abort, set: &mut UidSet, number: u32, wanted: Result<bool, SetFull>) {
    check(rt, set.insert(uid(rt, number)) == wanted);
}

// The next UID of a set has this number.
fn is_next(rt: &impl Abort, next: Option<&Uid>, number: u32) {
    check(rt, next == Some(&Uid::new(0x1234, number)));
}

#[test]
fn sets(rt: HostRuntime) {
    let mut set = UidSet::new();
    check(&rt, set.is_empty());
    inserts(&rt, &mut set, 7, Ok(true));
    inserts(&rt, &mut set, 3, Ok(true));
    inserts(&rt, &mut set, 9, Ok(true));
    inserts(&rt, &mut set, 3, Ok(false));
    check(&rt, set.len() == 3);
    let mut uids = set.iter();
    is_next(&rt, uids.next(), 3);
    is_next(&rt, uids.next(), 7);
    is_next(&rt, uids.next(), 9);
    check(&rt, uids.next().is_none());
    check(
        &rt,
        set.contains(Uid::new(0x1234, 7)) && !set.contains(Uid::new(0x1234, 8)),
    );
}

#[test]
fn copies_of_sets(rt: HostRuntime) {
    let mut set = UidSet::new();
    inserts(&rt, &mut set, 7, Ok(true));
    inserts(&rt, &mut set, 8, Ok(true));
    check(&rt, set.clone().ok() == Some(set.copied()));
    let mut other = UidSet::new();
    inserts(&rt, &mut other, 1, Ok(true));
    other.copy_from(&set);
    check(&rt, other == set);
}

#[test]
fn a_full_set(rt: HostRuntime) {
    let mut set = UidSet::new();
    for number in 0..1024 {
        inserts(&rt, &mut set, 1024 - number, Ok(true));
    }
    check(&rt, set.is_full());
    inserts(&rt, &mut set, 1, Ok(false));
    inserts(&rt, &mut set, 0, Err(SetFull));
    check(&rt, set.len() == 1024);
    set.clear();
    check(&rt, set.is_empty());
}

// A device with this control field and no binding UID.
fn device(rt: &impl Abort, number: u32, control: u16) -> Device
    ensures { is_broadcast result.uid ≡ false }
{
    Device {
        uid: uid(rt, number),
        control,
        binding: None,
    }
}

// Inserts the device, with this result: whether it was new.
fn adds(rt: &impl Abort, set: &mut DeviceSet, device: Device, wanted: Result<bool, SetFull>)
    requires { is_broadcast device.uid ≡ false }
{
    check(rt, set.insert(device) == wanted);
}

// Device 5, with a binding UID.
fn bound(rt: &impl Abort) -> Device
    ensures { is_broadcast result.uid ≡ false }
{
    Device {
        uid: uid(rt, 5),
        control: 2,
        binding: Some(Uid::new(0x1234, 1)),
    }
}

// The devices 1, 5 and 9 in order. Of two devices with UID 5, the set keeps the first one.
fn three_devices(rt: &impl Abort) -> DeviceSet {
    let mut set = DeviceSet::new();
    check(rt, set.is_empty());
    adds(rt, &mut set, bound(rt), Ok(true));
    adds(rt, &mut set, device(rt, 9, 8), Ok(true));
    adds(rt, &mut set, device(rt, 1, 1), Ok(true));
    adds(rt, &mut set, device(rt, 5, 4), Ok(false));
    check(rt, set.get(Uid::new(0x1234, 5)) == Some(bound(rt)));
    set
}

// The device's UID, if there is a device.
fn uid_of(device: Option<&Device>) -> Option<&Uid> {
    match device {
        Some(device) => Some(&device.uid),
        None => None,
    }
}

#[test]
fn sets_of_devices(rt: HostRuntime) {
    let set = three_devices(&rt);
    check(&rt, set.len() == 3);
    check(&rt, set.get(Uid::new(0x1234, 6)).is_none());
    check(
        &rt,
        set.contains(Uid::new(0x1234, 9)) && !set.contains(Uid::new(0x1234, 8)),
    );
    let mut devices = set.iter();
    is_next(&rt, uid_of(devices.next()), 1);
    is_next(&rt, uid_of(devices.next()), 5);
    is_next(&rt, uid_of(devices.next()), 9);
    check(&rt, devices.next().is_none());
}

#[test]
fn copies_of_sets_of_devices(rt: HostRuntime) {
    let set = three_devices(&rt);
    let uids = set.uids();
    check(&rt, uids.len() == 3);
    check(
        &rt,
        uids.contains(Uid::new(0x1234, 5)) && !uids.contains(Uid::new(0x1234, 6)),
    );
    let mut other = DeviceSet::new();
    other.copy_from(&set);
    check(&rt, set.clone().ok() == Some(set.copied()));
    check(&rt, other == set);
    other.clear();
    check(&rt, other.is_empty() && !set.is_empty());
}

#[test]
fn a_full_set_of_devices(rt: HostRuntime) {
    let mut set = DeviceSet::new();
    for number in 0..1024 {
        adds(&rt, &mut set, device(&rt, 1024 - number, 0), Ok(true));
    }
    check(&rt, set.is_full());
    adds(&rt, &mut set, device(&rt, 1, 1), Ok(false));
    adds(&rt, &mut set, device(&rt, 0, 1), Err(SetFull));
    check(&rt, set.len() == 1024);
    check(&rt, set.as_slice().first() == Some(&device(&rt, 1, 0)));
    check(&rt, set.uids().len() == 1024);
}
