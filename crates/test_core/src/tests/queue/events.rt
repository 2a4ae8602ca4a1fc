//! A list of events, and its answers. `test_memory` has answers to discoveries, and to hundreds of events.
use super::sessions::{CLIENT, get, reply, session_without_clients};
use crate::tests::*;
use rdm_log::{Answer, BoxedOutcome, Event};

/// The frame of the GET of the parameter `0060`, with number 0.
const FRAME: [u8; 26] = [
    0xcc, 0x01, 0x18, 0x12, 0x34, 0x00, 0x00, 0x00, 0x01, 0x7a, 0x70, 0x00, 0x00, 0x01, 0x00, 0x00,
    0x01, 0x00, 0x00, 0x00, 0x20, 0x00, 0x60, 0x00, 0x02, 0x98,
];

// A request, which a pause holds back, and a close.
fn events(rt: &impl Abort, alloc: Global) -> Vec<Event> {
    let mut events = Vec::new(alloc);
    for event in [
        Event::Join(1),
        Event::Pause,
        Event::Submit(CLIENT, get()),
        Event::Take,
        Event::Resume,
        Event::Take,
        Event::Deliver(reply(rt, &[])),
        Event::Collect(CLIENT),
        Event::Close,
    ] {
        check(rt, events.push(event).is_ok());
    }
    events
}

// Whether it is the outcome of request 0, which wasn't answered.
fn is_silent(outcome: &BoxedOutcome) -> bool {
    match outcome {
        BoxedOutcome::Request { number: 0, done } => {
            done.status == Status::Timeout && done.bytes.is_empty()
        }
        _ => false,
    }
}

// Whether the event at this position has this answer.
fn is_right(index: usize, answer: &Answer) -> bool {
    match answer {
        Answer::Join(Ok(client)) => index == 0 && *client == CLIENT,
        Answer::Pause(Ok(())) => index == 1,
        Answer::Submit(Ok(number)) => index == 2 && *number == 0,
        Answer::Take(Ok(None)) => index == 3,
        Answer::Resume(Ok(())) => index == 4,
        Answer::Take(Ok(Some(frame))) => index == 5 && frame.as_slice() == FRAME.as_slice(),
        Answer::Deliver(Ok(())) => index == 6,
        Answer::Collect(Ok(Some(outcome))) => index == 7 && is_silent(outcome),
        Answer::Close => index == 8,
        _ => false,
    }
}

#[test]
fn each_event_has_the_answer_of_its_call(rt: HostRuntime) {
    let mut session = session_without_clients(&rt, rt.alloc(), 1, 100);
    let made = session.run(rt.alloc(), &events(&rt, rt.alloc()));
    let answers = made.expect(&rt, "the memory of the answers");
    check_eq(&rt, answers.len(), 9);
    for (index, answer) in answers.iter().enumerate() {
        check(&rt, is_right(index, answer));
    }
    check(&rt, session.is_closed() && session.is_idle());
}
