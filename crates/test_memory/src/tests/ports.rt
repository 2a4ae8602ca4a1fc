//! A session with a mutex, with its client and its worker, in one thread.
use super::careful::{Careful, is_again};
use crate::tests::*;
use rdm_log::AskFault;

// A client submits a request, which is answered by two bytes, and collects.
static SHORT: &[Move] = moves! {
    Join(2) => Number(0), 0 Submit(1) => Number(0), Work(1) => Worked(Turns), 0 Collect => Answered(1, 1, 2),
};

// The same, but it is answered in three parts of 231 bytes.
static IN_PARTS: &[Move] = moves! {
    Join(2) => Number(0), 0 Submit(LONG) => Number(0), Work(3) => Worked(Turns), 0 Collect => Data(LONG, 693),
};

// A client asks for a discovery, which finds the device in ten exchanges, and collects.
static DISCOVERY: &[Move] = moves! {
    Join(2) => Number(0), 0 Full(1) => Number(0), Work(10) => Worked(Turns),
    0 Collect => Discovery(1, 1, Faultless, First),
};

// After a close discoveries are refused.
static CLOSED: &[Move] = moves! {
    Join(2) => Number(0), Close => Done, 0 Full(1) => Refused(Refusal::Ask(AskFault::Closed, 1)),
    0 Full(2) => Refused(Refusal::Ask(AskFault::Closed, 2)),
};

// Makes these moves. None: the rig itself ran out of memory.
fn plays<R: Wait + Abort>(rt: &R, alloc: Global, moves: &[Move]) -> Option<PortOver> {
    let line = first_device(rt, alloc, &[], &[]);
    let mut careful = Careful::new(moves);
    match drive_port(rt, alloc, PortSetup::new(2, 100), line, &mut careful) {
        Ok(over) => {
            careful.is_right(rt);
            Some(over)
        }
        Err(Failed::Rig(Wrong::NoMemory)) => None,
        Err(failed) => panic!(rt; "{failed:?}"),
    }
}

// Makes these moves, again if the rig runs out of memory.
fn plays_again<R: Wait + Abort>(rt: &R, alloc: Global, moves: &[Move]) -> PortOver {
    match plays(rt, alloc, moves) {
        Some(over) => over,
        None => plays(rt, alloc, moves).expect(rt, "memory for the rig"),
    }
}

// Makes these moves, whose request is answered in this many parts.
fn answers<R: Wait + Abort>(rt: &R, alloc: Global, moves: &[Move], parts: usize) {
    let over = plays_again(rt, alloc, moves);
    // The accept, a frame and a reply for each part, the end and the collect. The join comes before them.
    let request = parts.saturating_mul(2).saturating_add(3);
    let is_again = is_again(rt, &over.log, request.saturating_add(1), request);
    let (calls, recorded) = if is_again {
        (4, parts.saturating_mul(2))
    } else {
        (2, parts)
    };
    check(rt, over.calls == calls && over.recorded == recorded);
    check(
        rt,
        over.held == 0 && over.state.is_idle && !over.state.is_closed,
    );
}

#[test]
fn port_new_and_client_and_work(rt: HostRuntime) {
    answers(&rt, rt.alloc(), SHORT, 1);
}

#[test]
fn port_work_of_parts(rt: HostRuntime) {
    answers(&rt, rt.alloc(), IN_PARTS, 3);
}

#[test]
fn port_client_discover_and_collect(rt: HostRuntime) {
    let over = plays_again(&rt, rt.alloc(), DISCOVERY);
    check(&rt, over.calls == 2 && over.recorded == 10);
    check(&rt, over.held == 0 && over.state.is_idle);
}

// The count of allocations shows that no discovery allocates, whether it is refused or not.
#[test]
fn port_client_discover_after_a_close(rt: HostRuntime) {
    let over = plays_again(&rt, rt.alloc(), CLOSED);
    check(&rt, over.calls == 2 && over.recorded == 0);
    check(&rt, over.held == 0 && over.state.is_closed);
}
