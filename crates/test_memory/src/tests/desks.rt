//! Desks.
use crate::tests::*;
use rdm_client::{Collected, Desk, Full, Misdelivered};
use rdm_log::{BoxedOutcome, Completion};

// A desk for this queue depth, made again if an allocation fails.
fn desk(rt: &impl Abort, alloc: Global, places: u8) -> Desk<Note, AskNote> {
    match Desk::new(alloc, places) {
        Ok(desk) => desk,
        Err(NoMemory) => match Desk::new(alloc, places) {
            Ok(desk) => desk,
            Err(NoMemory) => panic!(rt; "memory for a desk"),
        },
    }
}

// A client's outcome of a request that wasn't answered.
fn outcome(alloc: Global, number: u64) -> BoxedOutcome {
    BoxedOutcome::Request {
        number,
        done: Completion {
            status: Timeout,
            reply: None,
            bytes: Vec::new(alloc),
        },
    }
}

// What a settle returns.
type Settled = Result<Collected, (Misdelivered, BoxedOutcome)>;

// Whether the callback with this tag was called with such an outcome.
fn is_told(settled: &Settled, tag: u64) -> bool {
    match settled {
        Ok(Collected::Request(told)) => told.tag == tag && told.done.status == Timeout,
        _ => false,
    }
}

// Whether the outcome of the request with this number was returned.
fn is_back(settled: &Settled, wanted: u64) -> bool {
    match settled {
        Err((Misdelivered, BoxedOutcome::Request { number, .. })) => *number == wanted,
        _ => false,
    }
}

#[test]
fn desk_new_of_one_place(rt: HostRuntime) {
    let mut desk = desk(&rt, rt.alloc(), 1);
    let held = desk.hold(Note(1)).is_ok();
    let refused = desk.hold(Note(2)).err();
    let told = desk.settle(outcome(rt.alloc(), 0));
    let again = desk.settle(outcome(rt.alloc(), 1));
    let left = cancels(rt.alloc(), desk.end());
    check(&rt, held && refused == Some((Full, Note(2))));
    check(&rt, is_told(&told, 1) && is_back(&again, 1) && left == 0);
}

// A desk holds as many callbacks of requests as its queue depth, and four of discoveries.
fn holds(rt: &impl Abort, alloc: Global, places: u8) {
    let mut desk = desk(rt, alloc, places);
    let mut held = 0u64;
    for tag in 0..=u64::from(places) {
        held = held.saturating_add(u64::from(desk.hold(Note(tag)).is_ok()));
    }
    for tag in 0..=4 {
        held = held.saturating_add(u64::from(desk.hold_ask(AskNote(tag)).is_ok()));
    }
    let left = cancels(alloc, desk.end());
    check(
        rt,
        held == u64::from(places).saturating_add(4) && left == held,
    );
}

#[test]
fn desk_new_of_no_places(rt: HostRuntime) {
    holds(&rt, rt.alloc(), 0);
}

#[test]
fn desk_new_of_many_places(rt: HostRuntime) {
    holds(&rt, rt.alloc(), 100);
}

#[test]
fn desk_new_of_the_most_places(rt: HostRuntime) {
    holds(&rt, rt.alloc(), 255);
}
