//! Outcomes that aren't those of the log are detected.
use crate::tests::*;
use arrayvec::ArrayVec;
use rdm_agent::AgentFault;
use rdm_client::Told;
use rdm_join::{LineEvent, Status};
use rdm_log::{ClientId, Completion, Config, Log};
use rdm_queue::Session;
use rdm_reports::{Discovered, Outcomes};
use rdm_serving::are_logged;
use rdm_wire::{ReqClass, Request};

// A session with one client.
fn joined(alloc: Global) -> Option<(Session, ClientId)> {
    let config = Config {
        source: Uid::new(0x7a70, 0x100),
        places: 4,
        budget: 8,
    };
    let mut session = Session::new(alloc, config, Log::new(alloc, 100).ok()?).ok()?;
    let client = session.join_client(alloc, 2).ok()?;
    Some((session, client))
}

// The client makes a request and asks for a discovery. Returns whether both are accepted.
fn asks(session: &mut Session, client: ClientId) -> bool {
    let request = Request {
        target: Uid::new(0x1234, 1),
        sub_device: 0,
        class: ReqClass::Get,
        pid: 0x0060,
        param: ArrayVec::new(),
    };
    session.submit(client, request).is_ok() && session.discover(client, Kind::Full).is_ok()
}

// The line fails at the next frame. Returns whether there is one.
fn fails(alloc: Global, session: &mut Session) -> bool {
    matches!(session.take(), Ok(Some(_))) && session.deliver(alloc, LineEvent::Failed).is_ok()
}

// A session of one client, whose request failed to be sent, and whose discovery ended because the line failed.
fn session_of_one(rt: &impl Abort, alloc: Global) -> Session {
    let (mut session, client) = joined(alloc).expect(rt, "a session");
    check(rt, asks(&mut session, client));
    for _ in 0..2 {
        check(rt, fails(alloc, &mut session));
    }
    session
}

// Outcomes of a client: a request with this status and these data, and a discovery with this fault.
fn outcomes(
    rt: &impl Abort,
    alloc: Global,
    status: Status,
    data: &[u8],
    fault: Option<AgentFault>,
) -> Outcomes {
    let mut outcomes = Outcomes::new(alloc);
    let done = Completion {
        status,
        reply: None,
        bytes: Vec::from_slice(alloc, data).expect(rt, "memory"),
    };
    check(rt, outcomes.requests.push(Told { tag: 0, done }).is_ok());
    let discovered = Discovered {
        tag: 1,
        fault,
        uids: Vec::new(alloc),
    };
    check(rt, outcomes.discoveries.push(discovered).is_ok());
    outcomes
}

// Whether these outcomes are those of the session's log.
fn are_of(rt: &impl Abort, alloc: Global, session: &Session, told: &[Outcomes], same: bool) {
    check(rt, are_logged(alloc, session.log(), told) == Ok(same));
}

const FAILED: Option<AgentFault> = Some(AgentFault::LineFailed);

// Outcomes with a different end.
#[test]
fn outcomes_that_the_log_has_not_are_found_out(rt: HostRuntime) {
    let alloc = rt.alloc();
    let session = session_of_one(&rt, alloc);
    let told = [outcomes(&rt, alloc, Status::FailedToSend, b"", FAILED)];
    are_of(&rt, alloc, &session, &told, true);
    let other_status = [outcomes(&rt, alloc, Status::Timeout, b"", FAILED)];
    are_of(&rt, alloc, &session, &other_status, false);
    let other_data = [outcomes(&rt, alloc, Status::FailedToSend, b"x", FAILED)];
    are_of(&rt, alloc, &session, &other_data, false);
    let other_fault = [outcomes(&rt, alloc, Status::FailedToSend, b"", None)];
    are_of(&rt, alloc, &session, &other_fault, false);
}

// Missing outcomes, and those of one client too many.
#[test]
fn outcomes_of_too_few_and_too_many_are_found_out(rt: HostRuntime) {
    let alloc = rt.alloc();
    let session = session_of_one(&rt, alloc);
    are_of(&rt, alloc, &session, &[Outcomes::new(alloc)], false);
    let of_two_clients = [
        outcomes(&rt, alloc, Status::FailedToSend, b"", FAILED),
        outcomes(&rt, alloc, Status::FailedToSend, b"", FAILED),
    ];
    are_of(&rt, alloc, &session, &of_two_clients, false);
}
