//! Controllers: their creation, joins, and replies that are delivered.
use crate::tests::*;
use rdm_join::LineEvent;
use rdm_queue::Controller;

const CLIENT: ClientId = ClientId(0);

// A controller with this capacity, made again if an allocation fails.
fn controller(rt: &impl Abort, alloc: Global, places: u8) -> Controller {
    match Controller::new(alloc, config(places)) {
        Ok(controller) => controller,
        Err(NoMemory) => Controller::new(alloc, config(places)).expect(
            rt,
            "memory for a controller",
        ),
    }
}

// Lets the first client join with this queue depth, again if an allocation fails, which has to change nothing.
fn joins(rt: &impl Abort, alloc: Global, controller: &mut Controller, places: u8) {
    let mut joined = controller.join_client(alloc, places);
    if joined == Err(JoinFault::NoMemory) {
        check(rt, controller.is_idle() && !controller.is_closed());
        check(
            rt,
            refusal(rt, controller) == Some(SubmitFault::UnknownClient),
        );
        joined = controller.join_client(alloc, places);
    }
    check(rt, joined == Ok(CLIENT));
}

// Why a submit is refused. The request has to be returned.
fn refusal(rt: &impl Abort, controller: &mut Controller) -> Option<SubmitFault> {
    match controller.submit(CLIENT, request(0)) {
        Ok(_) => None,
        Err((fault, back)) => {
            check(rt, back == request(0));
            Some(fault)
        }
    }
}

// In a controller with capacity two, one client has it all: two requests are accepted, and the third one is returned.
#[test]
fn controller_new_and_join_client(rt: HostRuntime) {
    let mut controller = controller(&rt, rt.alloc(), 2);
    joins(&rt, rt.alloc(), &mut controller, 2);
    check(&rt, refusal(&rt, &mut controller).is_none());
    check(&rt, refusal(&rt, &mut controller).is_none());
    check(
        &rt,
        refusal(&rt, &mut controller) == Some(SubmitFault::Full),
    );
}

// The outcome of the request with this number, which is answered by two bytes. Then no reply is awaited.
fn asks(
    rt: &impl Abort,
    alloc: Global,
    controller: &mut Controller,
    line: &mut SimLine,
    number: u64,
) -> ActResult {
    check(
        rt,
        controller.submit(CLIENT, request(number)).ok() == Some(number),
    );
    let frame = controller.take().expect(rt, "a frame");
    let reply = line.exchange(&frame).expect(rt, "a reply");
    check(
        rt,
        controller.deliver(alloc, LineEvent::Reply(reply)).is_ok(),
    );
    let again = controller.deliver(alloc, LineEvent::Failed);
    check(rt, matches!(&again, Err((NotAsked, LineEvent::Failed))));
    completion_told(&controller.next_completion(CLIENT))
}

#[test]
fn deliver_to_a_controller(rt: HostRuntime) {
    let mut line = first_device(&rt, rt.alloc(), &[], &[]);
    let mut controller = controller(&rt, rt.alloc(), 1);
    joins(&rt, rt.alloc(), &mut controller, 1);
    let mut heard = asks(&rt, rt.alloc(), &mut controller, &mut line, 0);
    if heard == Request(0, Status::NoMemory) {
        heard = asks(&rt, rt.alloc(), &mut controller, &mut line, 1);
    }
    check(
        &rt,
        heard == Answered(0, 1, 2) || heard == Answered(1, 1, 2),
    );
}
