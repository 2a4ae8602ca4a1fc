//! Lists of events that a session runs.
use crate::tests::*;
use rdm_join::{LineEvent, LineReply};
use rdm_log::{Answer, BoxedOutcome, DiscoveryEnd, Event};
use rdm_queue::{Oldest, Session};

const CLIENT: ClientId = ClientId(0);

// A session with capacity 255.
fn session(rt: &impl Abort, alloc: Global) -> Session {
    session_of(alloc, 255, DEFAULT_BUDGET, 2000).expect(rt, "memory for a session")
}

// A vector with capacity for this many events.
fn room_for(rt: &impl Abort, alloc: Global, count: usize) -> Vec<Event> {
    match Vec::with_capacity(alloc, count) {
        Ok(events) => events,
        Err(_) => Vec::with_capacity(alloc, count).expect(rt, "memory for events"),
    }
}

fn adds(rt: &impl Abort, events: &mut Vec<Event>, event: Event) {
    check(rt, events.push(event).is_ok());
}

// A client joins, and this many times submits a request, which is sent, not answered, and collected.
fn events(rt: &impl Abort, alloc: Global, times: usize) -> Vec<Event> {
    let mut events = room_for(rt, alloc, times.saturating_mul(4).saturating_add(1));
    adds(rt, &mut events, Event::Join(255));
    for _ in 0..times {
        adds(rt, &mut events, Event::Submit(CLIENT, request(0)));
        adds(rt, &mut events, Event::Take);
        adds(
            rt,
            &mut events,
            Event::Deliver(LineEvent::Reply(LineReply::new())),
        );
        adds(rt, &mut events, Event::Collect(CLIENT));
    }
    events
}

// Runs the events, again if there is no memory for the answers. In that case the session has to be like a new one.
fn runs(rt: &impl Abort, alloc: Global, session: &mut Session, events: &[Event]) -> Vec<Answer> {
    match session.run(alloc, events) {
        Ok(answers) => answers,
        Err(NoMemory) => {
            check(
                rt,
                session.log().entries().is_empty() && session.free() == 2000,
            );
            check(rt, session.is_idle() && !session.is_closed());
            session.run(alloc, events).expect(rt, "memory for answers")
        }
    }
}

// Whether the answer is a frame, or the outcome of a request that wasn't answered.
fn is_served(answer: &Answer) -> bool {
    match answer {
        Answer::Take(Ok(Some(_))) => true,
        Answer::Collect(Ok(Some(BoxedOutcome::Request { done, .. }))) => { done.status == Timeout }
        _ => false,
    }
}

// How many answers are of that kind.
fn served(answers: &[Answer]) -> usize {
    let mut served = 0usize;
    for answer in answers {
        if is_served(answer) {
            served = served.saturating_add(1);
        }
    }
    served
}

// Runs this many requests. If the join fails for lack of memory, there is no client, and nothing is sent. Returns
// whether it succeeded.
fn runs_requests(rt: &impl Abort, alloc: Global, times: usize) -> bool {
    let mut session = session(rt, alloc);
    let answers = runs(rt, alloc, &mut session, &events(rt, alloc, times));
    check(
        rt,
        answers.len() == times.saturating_mul(4).saturating_add(1),
    );
    let is_joined = !matches!(
        answers.first(),
        Some(Answer::Join(Err(JoinFault::NoMemory)))
    );
    let wanted = if is_joined {
        times.saturating_mul(2)
    } else {
        0
    };
    check(rt, served(&answers) == wanted && session.is_idle());
    // The join and the submits; each accepted one also has a frame, a reply, an end and a collect.
    let each = if is_joined { 5 } else { 1 };
    check(
        rt,
        session.log().entries().len() == times.saturating_mul(each).saturating_add(1),
    );
    is_joined
}

#[test]
fn run_of_one_request(rt: HostRuntime) {
    let is_joined = runs_requests(&rt, rt.alloc(), 1);
    check(&rt, is_joined || runs_requests(&rt, rt.alloc(), 1));
}

#[test]
fn run_of_many_requests(rt: HostRuntime) {
    let is_joined = runs_requests(&rt, rt.alloc(), 200);
    check(&rt, is_joined || runs_requests(&rt, rt.alloc(), 200));
}

#[test]
fn run_of_no_events(rt: HostRuntime) {
    let mut session = session(&rt, rt.alloc());
    let answers = runs(&rt, rt.alloc(), &mut session, &[]);
    check(
        &rt,
        answers.is_empty() && session.log().entries().is_empty(),
    );
}

// Answers a join, again if an allocation fails.
fn joins(rt: &impl Abort, alloc: Global, session: &mut Session) {
    let mut joined = session.answer(alloc, &Event::Join(1));
    if matches!(&joined, Answer::Join(Err(JoinFault::NoMemory))) {
        check(rt, session.log().entries().len() == 1);
        joined = session.answer(alloc, &Event::Join(1));
    }
    check(
        rt,
        matches!(&joined, Answer::Join(Ok(client)) if *client == CLIENT),
    );
}

// The outcome of the request with this number, which is answered by two bytes.
fn asks(
    rt: &impl Abort,
    alloc: Global,
    session: &mut Session,
    line: &mut SimLine,
    number: u64,
) -> ActResult {
    check(
        rt,
        session.submit(CLIENT, request(number)).ok() == Some(number),
    );
    let frame = session.take().ok().flatten().expect(rt, "a frame");
    let event = Event::Deliver(LineEvent::Reply(line.exchange(&frame).expect(rt, "a reply")));
    let answer = session.answer(alloc, &event);
    check(rt, matches!(&answer, Answer::Deliver(Ok(()))));
    let again = session.answer(alloc, &event);
    check(rt, matches!(&again, Answer::Deliver(Err(_))));
    completion_told(&session.next_completion(CLIENT))
}

#[test]
fn answer_of_a_join_and_of_a_reply(rt: HostRuntime) {
    let mut line = first_device(&rt, rt.alloc(), &[], &[]);
    let mut session = session(&rt, rt.alloc());
    joins(&rt, rt.alloc(), &mut session);
    let mut heard = asks(&rt, rt.alloc(), &mut session, &mut line, 0);
    if heard == Request(0, Status::NoMemory) {
        heard = asks(&rt, rt.alloc(), &mut session, &mut line, 1);
    }
    check(
        &rt,
        heard == Answered(0, 1, 2) || heard == Answered(1, 1, 2),
    );
}

// The frames of a run over one device: three unmutes, its branch, its mute, and five silent branches.
const RUN_FRAMES: usize = 10;

// Lets a client discover, and makes all exchanges of the run.
fn discovers(rt: &impl Abort, alloc: Global, session: &mut Session, line: &mut SimLine) {
    let asked = session.answer(alloc, &Event::Discover(CLIENT, Kind::Full));
    check(rt, matches!(&asked, Answer::Discover(Ok(0))));
    for _ in 0..RUN_FRAMES {
        let frame = session.take().ok().flatten().expect(rt, "a frame");
        let event = LineEvent::Reply(line.exchange(&frame).expect(rt, "a reply"));
        check(rt, session.deliver(alloc, event).is_ok());
    }
}

// Collects a discovery's outcome, again if there is no memory for it. In that case the session has to be unchanged.
fn collects(rt: &impl Abort, alloc: Global, session: &mut Session) -> Answer {
    let entries = session.log().entries().len();
    let free = session.free();
    let collected = session.answer(alloc, &Event::Collect(CLIENT));
    if !matches!(&collected, Answer::Collect(Err(NoMemory))) {
        return collected;
    }
    check(
        rt,
        session.log().entries().len() == entries && session.free() == free,
    );
    check(
        rt,
        matches!(session.oldest(CLIENT), Some(Oldest::Discovery { .. })),
    );
    session.answer(alloc, &Event::Collect(CLIENT))
}

// Whether the answer is the outcome of discovery 0, whose run found only the first device, with its control field and
// its binding UID.
fn is_found(answer: &Answer) -> bool {
    match answer {
        Answer::Collect(Ok(Some(BoxedOutcome::Discovery { end, set }))) => {
            let wanted = DiscoveryEnd {
                number: 0,
                run: 1,
                fault: None,
            };
            *end == wanted && found_in(set) == First
        }
        _ => false,
    }
}

#[test]
fn answer_of_a_collect_of_a_discovery(rt: HostRuntime) {
    let mut line = first_device(&rt, rt.alloc(), &[], &[]);
    let mut session = session(&rt, rt.alloc());
    joins(&rt, rt.alloc(), &mut session);
    discovers(&rt, rt.alloc(), &mut session, &mut line);
    let collected = collects(&rt, rt.alloc(), &mut session);
    check(&rt, is_found(&collected) && session.is_idle());
    let nothing = session.answer(rt.alloc(), &Event::Collect(CLIENT));
    check(&rt, matches!(&nothing, Answer::Collect(Ok(None))));
}
