//! The callbacks that are left in desks.
use crate::tests::*;
use rdm_client::{Desk, Unfinished};

#[test]
fn hands_back_requests_before_discoveries(rt: HostRuntime) -> Result<(), Fail> {
    let mut desk: Desk<Note, AskNote> = Desk::new(rt.alloc(), 2)?;
    let held = desk.hold_ask(AskNote(20)).is_ok()
        && desk.hold(Note(10)).is_ok()
        && desk.hold(Note(11)).is_ok()
        && desk.hold_ask(AskNote(21)).is_ok();
    let mut unspent = desk.end();
    let was_empty = unspent.is_empty();
    let first = kind_and_tag(unspent.next());
    let second = kind_and_tag(unspent.next());
    let third = match unspent.close() {
        Ok(()) => None,
        Err(mut unspent) => {
            let third = kind_and_tag(unspent.next());
            let rest = cancels(rt.alloc(), unspent);
            third.filter(|_| rest == 1)
        }
    };
    assert!(rt; held && !was_empty);
    assert_eq!(rt; first, Some(("request", 10)));
    assert_eq!(rt; second, Some(("request", 11)));
    assert_eq!(rt; third, Some(("discovery", 20)));
    Ok(())
}

#[test]
fn closes_where_nothing_is_left(rt: HostRuntime) -> Result<(), Fail> {
    let desk: Desk<Note, AskNote> = Desk::new(rt.alloc(), 3)?;
    let mut unspent = desk.end();
    let none = kind_and_tag(unspent.next());
    let is_closed = match unspent.close() {
        Ok(()) => true,
        Err(unspent) => {
            let _ = cancels(rt.alloc(), unspent);
            false
        }
    };
    assert_eq!(rt; none, None);
    assert!(rt; is_closed);
    Ok(())
}

// The kind of the callback, and its tag.
fn kind_and_tag(left: Option<Unfinished<Note, AskNote>>) -> Option<(&'static str, u64)> {
    match left {
        Some(Unfinished::Request(Note(tag))) => Some(("request", tag)),
        Some(Unfinished::Ask(AskNote(tag))) => Some(("discovery", tag)),
        None => None,
    }
}
