//! A set of devices is compared with the acknowledgements of a run. The program takes its set from these, so no case
//! can show this.
use crate::tests::*;
use rdm_explain::{Asked, Exchange, Heard, RunFinding, explain_run};
use rdm_wire::MuteAck;

// Two devices that acknowledge, and one that isn't there.
fn known() -> Uid {
    Uid::new(0x1234, 1)
}

fn new() -> Uid {
    Uid::new(0x9abc, 2)
}

fn absent() -> Uid {
    Uid::new(0x5678, 9)
}

fn ack(control: u16) -> Heard {
    Heard::Acked(MuteAck {
        control,
        binding: Some(Uid::new(0x1234, 5)),
    })
}

fn device(uid: Uid, control: u16) -> Device {
    Device {
        uid,
        control,
        binding: Some(Uid::new(0x1234, 5)),
    }
}

// Adds a mute of this UID.
fn mute(rt: &impl Abort, run: &mut Vec<Exchange>, uid: Uid, heard: Heard) {
    let asked = Asked::Mute(uid);
    check(rt, run.push(Exchange { asked, heard }).is_ok());
}

// A mute of each device that it acknowledges. The first one of the known device is lost.
fn mutes(rt: &impl Abort, alloc: Global) -> Vec<Exchange> {
    let mut run = Vec::new(alloc);
    mute(rt, &mut run, known(), Heard::Silent);
    mute(rt, &mut run, known(), ack(2));
    mute(rt, &mut run, new(), ack(1));
    run
}

// What the exchanges show of a set of these devices.
fn explained(
    rt: &impl Abort,
    alloc: Global,
    run: &[Exchange],
    devices: &[Device],
) -> Option<RunFinding> {
    let mut set = DeviceSet::new();
    for device in devices {
        if !device.uid.is_broadcast() {
            check(rt, set.insert(*device).is_ok());
        }
    }
    explain_run(alloc, &set, run).ok()
}

#[test]
fn a_set_is_compared_with_the_acknowledgements(rt: HostRuntime) {
    let run = mutes(&rt, rt.alloc());
    let more = [device(known(), 2), device(absent(), 0), device(new(), 1)];
    let found = explained(&rt, rt.alloc(), &run, &more);
    check(
        &rt,
        matches!(&found, Some(RunFinding { misreported: Some(uid), .. }) if *uid == absent()),
    );
    check(
        &rt,
        matches!(&found, Some(RunFinding { other_data: Some(is), .. }) if is.uid == absent()),
    );
    let fewer = [device(known(), 2)];
    let found = explained(&rt, rt.alloc(), &run, &fewer);
    check(
        &rt,
        matches!(&found, Some(RunFinding { misreported: Some(uid), .. }) if *uid == new()),
    );
    check(
        &rt,
        matches!(
            &found,
            Some(RunFinding {
                other_data: None,
                ..
            })
        ),
    );
}

#[test]
fn the_first_acknowledgement_counts(rt: HostRuntime) {
    let mut run = mutes(&rt, rt.alloc());
    mute(&rt, &mut run, known(), ack(8));
    let right = [device(known(), 2), device(new(), 1)];
    let found = explained(&rt, rt.alloc(), &run, &right);
    check(
        &rt,
        matches!(
            found,
            Some(RunFinding {
                misreported: None,
                other_data: None,
                ..
            })
        ),
    );
    let late = [device(known(), 8), device(new(), 1)];
    let found = explained(&rt, rt.alloc(), &run, &late);
    check(
        &rt,
        matches!(found, Some(RunFinding { other_data: Some(is), .. }) if is == device(known(), 8)),
    );
}
