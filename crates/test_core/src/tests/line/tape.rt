//! A tape gives its events in order, and then fails.
use super::rig::meets;
use crate::tests::*;

// Adds a reply of these bytes.
fn adds(rt: &impl Abort, events: &mut Vec<LineEvent>, bytes: &[u8]) {
    let mut reply = LineReply::new();
    check(rt, reply.try_extend_from_slice(bytes).is_ok());
    check(rt, events.push(LineEvent::Reply(reply)).is_ok());
}

// The line's reply is these bytes, or it fails. By then it has failed this many times.
fn gives(rt: &impl Abort, line: &mut TapeLine, wanted: Option<&[u8]>, failures: u64) {
    meets(rt, line, wanted);
    check(rt, line.failures() == failures);
}

#[test]
fn gives_its_events_and_then_fails(rt: HostRuntime) {
    let mut events = Vec::new(rt.alloc());
    adds(&rt, &mut events, &[1, 2]);
    check(&rt, events.push(LineEvent::Failed).is_ok());
    adds(&rt, &mut events, &[]);
    let mut line = TapeLine::new(events);
    gives(&rt, &mut line, Some(&[1, 2]), 0);
    gives(&rt, &mut line, None, 1);
    gives(&rt, &mut line, Some(&[]), 1);
    for failures in 2..5 {
        gives(&rt, &mut line, None, failures);
    }
}
