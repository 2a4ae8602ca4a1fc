//! Clients with ring buffers and their worker, in one thread.
use super::careful::Careful;
use crate::tests::*;
use rdm_line::TapeLine;

// Lanes with rings of one slot.
fn setup(places: &[u8]) -> Setup<'_> {
    Setup::new(100, 1, places).of_capacity(4)
}

// Makes these moves over this line. None: the rig itself ran out of memory.
fn plays<X: Line + Drop, R: Wait + Abort>(
    rt: &R,
    alloc: Global,
    places: &[u8],
    line: X,
    moves: &[Move],
) -> Option<LanesOver> {
    let mut careful = Careful::new(moves);
    match drive_lanes(rt, alloc, setup(places), line, &mut careful) {
        Ok(over) => {
            careful.is_right(rt);
            Some(over)
        }
        Err(Failed::Rig(Wrong::NoMemory)) => None,
        Err(failed) => panic!(rt; "{failed:?}"),
    }
}

// Makes these moves over a line that fails, again if the rig runs out of memory. At the end the clients have to hold
// this many callbacks.
fn fails<R: Wait + Abort>(rt: &R, alloc: Global, places: &[u8], moves: &[Move], held: u64) {
    let over = match plays(rt, alloc, places, TapeLine::new(Vec::new(alloc)), moves) {
        Some(over) => over,
        None => plays(rt, alloc, places, TapeLine::new(Vec::new(alloc)), moves).expect(
            rt,
            "memory for the rig",
        ),
    };
    let mut all = 0u64;
    for left in &over.left {
        all = all.saturating_add(left.held);
    }
    check(rt, over.left.len() == places.len() && all == held);
}

// A client uses its rings' one slot.
static ONE_SLOT: &[Move] = moves! {
    0 Submit(1) => Done, 0 Submit(2) => Refused(Refusal::RingFull(2)), 0 Leave => Refused(Refusal::NoSlot),
    Work(1) => Worked(Turns), 0 Collect => Request(1, FailedToSend), 0 Leave => Done,
    0 Submit(3) => Refused(Refusal::HasLeft(3)),
};

#[test]
fn open_lanes_of_one_client(rt: HostRuntime) {
    fails(&rt, rt.alloc(), &[2], ONE_SLOT, 0);
}

#[test]
fn open_lanes_of_two_clients(rt: HostRuntime) {
    let moves = moves! {
        1 Submit(1) => Done, 1 Submit(2) => Refused(Refusal::RingFull(2)), 1 Leave => Refused(Refusal::NoSlot),
        Work(1) => Worked(Turns), 1 Collect => Request(1, FailedToSend), 1 Leave => Done,
        1 Submit(3) => Refused(Refusal::HasLeft(3)), 0 Submit(1) => Done, 0 Submit(2) => Refused(Refusal::Full(2)),
    };
    fails(&rt, rt.alloc(), &[1, 2], moves, 1);
}

#[test]
fn open_lanes_of_no_clients(rt: HostRuntime) {
    let moves = moves! { Retire => Done, Work(2) => Worked(AllLeft) };
    fails(&rt, rt.alloc(), &[], moves, 0);
}

static ONE_REQUEST: &[Move] = moves! {
    0 Submit(1) => Done, Work(1) => Worked(Turns), 0 Collect => Answered(1, 1, 2),
};

// A request that is answered by two bytes.
fn requests<R: Wait + Abort>(rt: &R, alloc: Global) -> Option<LanesOver> {
    let line = first_device(rt, alloc, &[], &[]);
    plays(rt, alloc, &[1], line, ONE_REQUEST)
}

#[test]
fn worker_work_of_a_request(rt: HostRuntime) {
    let played = requests(&rt, rt.alloc());
    check(&rt, played.is_some() || requests(&rt, rt.alloc()).is_some());
}

// Discovery on a silent line takes eight exchanges, and a request waits meanwhile. If there is no memory for the view
// of what the run found, or for the client's own copy, the outcome waits a turn.
static ONE_DISCOVERY: &[Move] = moves! {
    0 Full(1) => Done, Work(1) => Worked(Turns), 0 Submit(2) => Done, Work(7) => Worked(Turns),
    0 Collect => Discovery(1, 1, Faultless, Nobody), 0 Know => Sees(1, Nobody), Work(1) => Worked(Turns),
    0 Collect => Request(2, FailedToSend),
};

fn discovers<R: Wait + Abort>(rt: &R, alloc: Global) -> Option<LanesOver> {
    let line = silent(alloc, 8).ok()?;
    plays(rt, alloc, &[1], line, ONE_DISCOVERY)
}

#[test]
fn worker_work_of_a_discovery(rt: HostRuntime) {
    let over = match discovers(&rt, rt.alloc()) {
        Some(over) => over,
        None => discovers(&rt, rt.alloc()).expect(&rt, "memory for the rig"),
    };
    // The opening view and the view of run 1.
    check(&rt, over.published == 2);
}
