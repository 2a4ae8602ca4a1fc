//! What waits for what with ring buffers, and what doesn't: clients and a worker that are driven by hand, over lines
//! that fail.
use super::rows::{Row, USUAL, play_all};
use crate::tests::*;

static ROWS: [Row; 7] = rows! {
    "an outcome waits for a slot of its ring", places: &[2], counts: &[(2, 2, 0)] => {
        0 Submit(1) => Done, Work(1) => Worked(Turns), 0 Submit(2) => Done, Work(1) => Worked(Turns),
        0 Collect => Request(1, FailedToSend), 0 Collect => Nothing,
        Work(1) => Worked(Turns), 0 Collect => Request(2, FailedToSend),
    }
    // In the third turn all have left, and one request still waits for the fourth turn.
    "what clients that have left asked is still sent, and they collect it",
    ring: 4, places: &[2, 1, 1], counts: &[(2, 2, 0), (1, 1, 0), (1, 1, 0)] => {
        0 Submit(1) => Done, 0 Submit(2) => Done, 0 Leave => Done, 0 Submit(9) => Refused(Refusal::HasLeft(9)),
        1 Submit(3) => Done, 1 Leave => Done, 2 Submit(4) => Done, 2 Leave => Done,
        Retire => Done, Work(10) => Worked(AllLeft),
        0 Collect => Request(1, FailedToSend), 0 Collect => Request(2, FailedToSend),
        1 Collect => Request(3, FailedToSend), 2 Collect => Request(4, FailedToSend),
    }
    // Of 12 free entries the join takes 1, and each request takes 5 up to its collect.
    "a full log still lets outcomes move", free: 12, places: &[2], counts: &[(2, 2, 0)] => {
        0 Submit(1) => Done, Work(1) => Worked(Turns), 0 Submit(2) => Done, Work(1) => Worked(Turns),
        0 Collect => Request(1, FailedToSend), Work(5) => Worked(Stop::LogFull),
        0 Collect => Request(2, FailedToSend),
    }
    "a full ring holds up no other client", places: &[2, 1], counts: &[(2, 0, 2), (1, 1, 0)] => {
        0 Submit(1) => Done, Work(1) => Worked(Turns), 0 Submit(2) => Done, Work(1) => Worked(Turns),
        1 Submit(3) => Done, Work(1) => Worked(Turns), 1 Collect => Request(3, FailedToSend),
    }
    "a call after the close is not made while the ring has no slot",
    places: &[2], counts: &[(2, 0, 2)], is_closed: true,
    log: Some(entries! { Join(0, 2), Accept(0, 0), Close, Finish(0, FailedToSend, 0), Collect(0) }) => {
        0 Submit(1) => Done, Close => Done, Work(1) => Worked(Turns), 0 Submit(2) => Done, Work(3) => Worked(Turns),
    }
    "a call after the close waits for a slot", places: &[2], counts: &[(2, 2, 0)], is_closed: true => {
        0 Submit(1) => Done, Close => Done, Work(1) => Worked(Turns), 0 Submit(2) => Done, Work(3) => Worked(Turns),
        0 Collect => Request(1, FailedToSend), Work(1) => Worked(Turns), 0 Collect => Request(2, FailedToSend),
    }
    "a client that leaves without collecting holds nobody up",
    places: &[2], counts: &[(1, 0, 1)], is_closed: true => {
        0 Submit(1) => Done, Close => Done, Work(1) => Worked(Turns), 0 Leave => Done, Retire => Done,
        Work(2) => Worked(AllLeft),
    }
};

#[test]
fn nobody_waits_longer_than_needed(rt: HostRuntime) {
    play_all(&rt, rt.alloc(), &ROWS);
}
