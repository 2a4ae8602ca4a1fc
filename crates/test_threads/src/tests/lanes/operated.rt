//! What an operator does beside clients and a worker that are driven by hand, over lines that fail at once.
use super::rows::{Row, USUAL, play_all};
use crate::tests::*;

static ROWS: [Row; 6] = rows! {
    "the operator pauses", ring: 4, places: &[2], counts: &[(0, 0, 0)], is_paused: true => {
        Pause => Done, Work(1) => Worked(Turns),
    }
    "the operator pauses and resumes", ring: 4, places: &[2], counts: &[(1, 1, 0)],
    log: Some(entries! {
        Join(0, 2), Pause, Accept(0, 0), Resume, Send(Owner::Request(0), Some(0)), Came(false),
        Finish(0, FailedToSend, 0), Collect(0),
    }) => {
        Pause => Done, Work(1) => Worked(Turns), 0 Submit(1) => Done, Work(2) => Worked(Turns), 0 Collect => Nothing,
        Resume => Done, Work(1) => Worked(Turns), 0 Collect => Request(1, FailedToSend),
        Retire => Done, Pause => Done, Work(2) => Worked(Turns),
    }
    "the worker makes one call of the operator in a turn",
    ring: 4, places: &[1], counts: &[(0, 0, 0)], is_paused: true => {
        Pause => Done, Resume => Done, Work(1) => Worked(Turns),
    }
    "and the next one in the next turn", ring: 4, places: &[1], counts: &[(0, 0, 0)] => {
        Pause => Done, Resume => Done, Work(1) => Worked(Turns), Work(1) => Worked(Turns),
    }
    "rings without a slot refuse each call", places: &[1], counts: &[(1, 0, 1)], is_paused: true => {
        0 Submit(1) => Done, 0 Full(9) => Refused(Refusal::RingFull(9)), 0 Leave => Refused(Refusal::NoSlot),
        0 Look => Sees(0, Nobody), Pause => Done, Pause => Refused(Refusal::NoSlot),
        Resume => Refused(Refusal::NoSlot), Close => Refused(Refusal::NoSlot), Retire => Refused(Refusal::NoSlot),
        Work(1) => Worked(Turns), Retire => Done,
    }
    "three free entries are enough for a call of the operator",
    free: 4, places: &[1], counts: &[(0, 0, 0)], is_paused: true, log: Some(entries! { Join(0, 1), Pause }) => {
        Pause => Done, Work(1) => Worked(Stop::LogFull),
    }
};

#[test]
fn an_operator_comes_after_the_clients(rt: HostRuntime) {
    play_all(&rt, rt.alloc(), &ROWS);
}
