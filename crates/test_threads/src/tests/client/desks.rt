//! Desks.
use super::outcomes::{ask_outcome, ended, found, request_outcome};
use crate::tests::*;
use rdm_client::{Callback, Desk, Full, Misdelivered, Tells, Told};
use rdm_log::{BoxedOutcome, Completion};

// The result of a settle.
#[derive(Clone, Copy, Debug, PartialEq, Eq)]
enum Settled {
    // A callback was called.
    Spent(ActResult),
    // The outcome was returned.
    Back(ActResult),
}

// Settles this outcome.
fn settles(desk: &mut Desk<Note, AskNote>, outcome: BoxedOutcome) -> Settled {
    match desk.settle(outcome) {
        Ok(collected) => Settled::Spent(told(&Some(collected))),
        Err((Misdelivered, outcome)) => Settled::Back(boxed_told(&outcome)),
    }
}

#[test]
fn spends_the_callback_that_it_has_a_place_for(rt: HostRuntime) -> Result<(), Fail> {
    let first = Box::new(rt.alloc(), |done: Completion| Told { tag: 1, done })?;
    let second = Box::new(rt.alloc(), |done: Completion| Told { tag: 2, done })?;
    let mut desk: Desk = Desk::new(rt.alloc(), 1)?;
    let first_back = holds(rt.alloc(), &mut desk, Callback::new(1, first));
    let second_back = holds(rt.alloc(), &mut desk, Callback::new(2, second));
    let spent = desk.settle(request_outcome(rt.alloc(), 0, Timeout));
    let back = desk.settle(request_outcome(rt.alloc(), 1, Status::Checksum));
    let left = cancels(rt.alloc(), desk.end());
    assert_eq!(rt; (first_back, second_back, left), (None, Some(2), 0));
    assert_eq!(rt;
        spent.ok().map(|one| told(&Some(one))),
        Some(Request(1, Timeout))
    );
    assert_eq!(rt;
        back.err().map(|(_, one)| boxed_told(&one)),
        Some(Request(1, Status::Checksum))
    );
    Ok(())
}

// The tag of the callback that was returned because the desk was full.
fn holds(alloc: Global, desk: &mut Desk, callback: Callback) -> Option<u64> {
    match desk.hold(callback) {
        Ok(()) => None,
        Err((Full, callback)) => Some(callback.cancel(alloc).tag),
    }
}

#[test]
fn holds_four_discoveries(rt: HostRuntime) -> Result<(), Fail> {
    let outcome = ask_outcome(rt.alloc(), 0, 1)?;
    let mut desk: Desk<Note, AskNote> = Desk::new(rt.alloc(), 0)?;
    let held = (0..4).all(|tag| desk.hold_ask(AskNote(tag)).is_ok());
    let was_full = desk.is_full_of_asks();
    let refused = desk.hold_ask(AskNote(4)).err();
    let spent = settles(&mut desk, outcome);
    let held_after = desk.asks_held();
    let has_a_place = desk.hold_ask(AskNote(5)).is_ok();
    let left = cancels(rt.alloc(), desk.end());
    assert!(rt; held && was_full && has_a_place);
    assert_eq!(rt; refused, Some((Full, AskNote(4))));
    assert_eq!(rt; spent, Settled::Spent(Discovery(0, 1, Faultless, First)));
    assert_eq!(rt; (held_after, left), (3, 4));
    Ok(())
}

// Lets the desk hold the callbacks of a discovery, two requests and another discovery, in this order.
fn holds_both(desk: &mut Desk<Note, AskNote>) -> bool {
    desk.hold_ask(AskNote(20)).is_ok()
        && desk.hold(Note(10)).is_ok()
        && desk.hold(Note(11)).is_ok()
        && desk.hold_ask(AskNote(21)).is_ok()
}

fn ask_spent(tag: u64, run: u64) -> Settled {
    Settled::Spent(Discovery(tag, run, Faultless, First))
}

#[test]
fn keeps_requests_and_discoveries_apart(rt: HostRuntime) -> Result<(), Fail> {
    let first_run = ask_outcome(rt.alloc(), 0, 1)?;
    let second_run = ask_outcome(rt.alloc(), 1, 2)?;
    let third_run = ask_outcome(rt.alloc(), 2, 3)?;
    let fourth_run = found(rt.alloc(), 4)?;
    let mut desk: Desk<Note, AskNote> = Desk::new(rt.alloc(), 2)?;
    let held = holds_both(&mut desk);
    let first = settles(&mut desk, request_outcome(rt.alloc(), 0, Timeout));
    let second = settles(&mut desk, first_run);
    let third = desk.settle_request(ended(rt.alloc(), Status::Checksum));
    let none = desk.settle_request(ended(rt.alloc(), Status::TooShort));
    let last = settles(&mut desk, second_run);
    let back = settles(&mut desk, third_run);
    let handed = desk.settle_ask(fourth_run);
    let is_handed_back = matches!(&handed, Err((Misdelivered, done)) if done.run() == 4);
    let left = cancels(rt.alloc(), desk.end());
    assert_eq!(rt; first, Settled::Spent(Request(10, Timeout)));
    assert_eq!(rt; (second, last), (ask_spent(20, 1), ask_spent(21, 2)));
    assert!(rt; third.is_ok_and(|told| told.tag == 11 && told.done.status == Status::Checksum));
    assert!(rt; none.is_err_and(|(_, done)| done.status == Status::TooShort));
    assert_eq!(rt; back, Settled::Back(Discovery(2, 3, Faultless, First)));
    assert!(rt; held && is_handed_back && left == 0);
    Ok(())
}

#[test]
fn holds_as_many_requests_as_it_has_places(rt: HostRuntime) -> Result<(), Fail> {
    for places in [0u8, 1, 255] {
        let mut desk: Desk<Note, AskNote> = Desk::new(rt.alloc(), places)?;
        let held = (0..u64::from(places)).all(|tag| desk.hold(Note(tag)).is_ok());
        let count = desk.requests_held();
        let was_full = desk.is_full();
        let refused = desk.hold(Note(1000)).err();
        let left = cancels(rt.alloc(), desk.end());
        assert!(rt; held && was_full);
        assert_eq!(rt; count, usize::from(places));
        assert_eq!(rt; refused, Some((Full, Note(1000))));
        assert_eq!(rt; left, u64::from(places));
    }
    Ok(())
}
