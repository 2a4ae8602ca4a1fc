//! Clients and a worker that are driven by hand, over lines that fail at once.
use super::rows::{Row, USUAL, play_all};
use crate::tests::*;

static ROWS: [Row; 9] = rows! {
    "a ring of one slot takes one call", places: &[2], counts: &[(1, 1, 0)] => {
        0 Submit(1) => Done, 0 Submit(2) => Refused(Refusal::RingFull(2)), 0 Leave => Refused(Refusal::NoSlot),
        0 Look => Sees(0, Nobody), Work(1) => Worked(Turns), 0 Collect => Request(1, FailedToSend),
        0 Collect => Nothing, 0 Leave => Done, 0 Leave => Done, 0 Submit(3) => Refused(Refusal::HasLeft(3)),
        0 Full(4) => Refused(Refusal::HasLeft(4)), Work(2) => Worked(Turns), Retire => Done, Work(2) => Worked(AllLeft),
    }
    "a client is full until it collects", ring: 8, places: &[1], counts: &[(6, 3, 3)] => {
        0 Submit(1) => Done, 0 Submit(2) => Refused(Refusal::Full(2)),
        0 Full(0) => Done, 0 Full(1) => Done, 0 Full(2) => Done, 0 Full(3) => Done,
        0 Full(5) => Refused(Refusal::Full(5)),
        Work(10) => Worked(Turns), 0 Submit(2) => Refused(Refusal::Full(2)), 0 Collect => Request(1, FailedToSend),
        0 Collect => Discovery(0, 1, LineFailed, Nobody), 0 Collect => Discovery(1, 2, LineFailed, Nobody),
        0 Submit(6) => Done,
    }
    "a client without a place is full before its ring is", places: &[1], counts: &[(1, 0, 1)] => {
        0 Submit(1) => Done, 0 Submit(2) => Refused(Refusal::Full(2)),
    }
    "the worker makes all its turns, with a call and an exchange in each",
    ring: 3, places: &[3], counts: &[(3, 3, 0)] => {
        0 Submit(0) => Done, 0 Submit(1) => Done, 0 Submit(2) => Done,
        Work(1) => Worked(Turns), 0 Collect => Request(0, FailedToSend), 0 Collect => Nothing,
        Work(2) => Worked(Turns), 0 Collect => Request(1, FailedToSend), 0 Collect => Request(2, FailedToSend),
    }
    "two clients are served in their order", places: &[1, 1], counts: &[(1, 1, 0), (1, 1, 0)],
    log: Some(entries! {
        Join(0, 1), Join(1, 1), Accept(0, 0), Accept(1, 1),
        Send(Owner::Request(0), Some(0)), Came(false), Finish(0, FailedToSend, 0), Collect(0),
        Send(Owner::Request(1), Some(1)), Came(false), Finish(1, FailedToSend, 0), Collect(1),
    }) => {
        1 Submit(2) => Done, 0 Submit(1) => Done, Work(2) => Worked(Turns),
        0 Collect => Request(1, FailedToSend), 1 Collect => Request(2, FailedToSend),
    }
    "a call after the close is told without a number", ring: 2, places: &[2], counts: &[(2, 2, 0)], is_closed: true,
    log: Some(entries! {
        Join(0, 2), Accept(0, 0), Close, Finish(0, FailedToSend, 0), Collect(0), Refuse(Some(0), 1),
    }) => {
        0 Submit(1) => Done, Close => Done, Work(1) => Worked(Turns), 0 Submit(2) => Done, Work(1) => Worked(Turns),
        0 Collect => Request(1, FailedToSend), 0 Collect => Request(2, FailedToSend),
    }
    "a discovery after the close is told of run 0", ring: 2, places: &[2], counts: &[(1, 1, 0)], is_closed: true => {
        Close => Done, Work(1) => Worked(Turns), 0 Full(7) => Done, Work(1) => Worked(Turns),
        0 Collect => Discovery(7, 0, Aborted, Nobody),
    }
    "a full log ends the work in its first turn", free: 5, ring: 2, places: &[2], counts: &[(2, 0, 2)],
    log: Some(entries! { Join(0, 2), Accept(0, 0) }) => {
        0 Submit(1) => Done, 0 Submit(2) => Done, Work(1) => Worked(Stop::LogFull), Work(5) => Worked(Stop::LogFull),
    }
    "three free entries are enough for a call", free: 4, ring: 2, places: &[2], counts: &[(2, 0, 2)],
    log: Some(entries! { Join(0, 2), Accept(0, 0) }) => {
        0 Submit(1) => Done, 0 Submit(2) => Done, Work(1) => Worked(Stop::LogFull), Work(5) => Worked(Stop::LogFull),
    }
};

#[test]
fn calls_by_hand_come_to_what_they_should(rt: HostRuntime) {
    play_all(&rt, rt.alloc(), &ROWS);
}
