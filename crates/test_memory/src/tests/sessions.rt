//! Sessions and their logs: their creation, joins, and replies that are delivered.
use super::careful::Careful;
use super::lines::line;
use crate::tests::*;

// A session with this capacity, a line with the first device, and a log with this many free entries.
fn session(rt: &impl Abort, alloc: Global, places: u8, free: usize) -> SessionStage<SimLine> {
    let line = first_device(rt, alloc, &[], &[]);
    open_session(alloc, places, DEFAULT_BUDGET, free, line).expect(rt, "memory for a session")
}

// Makes these moves.
fn moves(rt: &impl Abort, alloc: Global, stage: &mut SessionStage<SimLine>, moves: &[Move]) {
    let mut careful = Careful::new(moves);
    careful.drive(alloc, stage);
    careful.is_right(rt);
}

const FULL: ActResult = Refused(Refusal::Submit(SubmitFault::Full, 0));

#[test]
fn join_client_of_one_place(rt: HostRuntime) {
    let mut stage = session(&rt, rt.alloc(), 2, 100);
    let all = moves! {
        Join(1) => Number(0), Join(2) => Refused(Refusal::Join(JoinFault::NoPlaces)), Join(1) => Number(1),
        0 Submit(0) => Number(0), 1 Submit(0) => Number(1), 0 Submit(0) => FULL,
    };
    moves(&rt, rt.alloc(), &mut stage, all);
}

// A client with this queue depth, which it uses up with requests. A join that runs out of memory may only change the
// log.
fn fills_queue(rt: &impl Abort, alloc: Global, places: u8) {
    let mut stage = session(rt, alloc, places, 2000);
    moves(rt, alloc, &mut stage, moves! { Join(places) => Number(0) });
    let state = stage.state();
    check(rt, state.is_idle && !state.is_closed && !state.is_paused);
    check(
        rt,
        state.counts.entries == state.counts.calls.saturating_add(1),
    );
    for number in 0..u64::from(places) {
        let submitted = stage.act(alloc, Act::Client(0, Step::Submit(0)));
        check(rt, submitted == Number(number));
    }
    check(
        rt,
        stage.act(alloc, Act::Client(0, Step::Submit(0))) == FULL,
    );
}

#[test]
fn join_client_of_two_places(rt: HostRuntime) {
    fills_queue(&rt, rt.alloc(), 2);
}

#[test]
fn join_client_of_many_places(rt: HostRuntime) {
    fills_queue(&rt, rt.alloc(), 100);
}

#[test]
fn join_client_of_the_most_places(rt: HostRuntime) {
    fills_queue(&rt, rt.alloc(), 255);
}

// In a log with three free entries a client joins. Then a submit is refused, its request is returned, and the close
// succeeds. Returns whether the join had memory.
fn fills_the_log(rt: &impl Abort, alloc: Global) -> bool {
    let mut stage = session(rt, alloc, 2, 3);
    check(rt, stage.state().free == 3);
    let joined = stage.act(alloc, Act::Join(1));
    if joined == Refused(Refusal::Join(JoinFault::NoMemory)) {
        return false;
    }
    let submitted = stage.act(alloc, Act::Client(0, Step::Submit(1)));
    let full = Refused(Refusal::Submit(SubmitFault::LogFull, 1));
    check(rt, joined == Number(0) && submitted == full);
    check(rt, stage.state().free == 2);
    let closed = stage.act(alloc, Act::Close);
    let state = stage.state();
    check(
        rt,
        closed == Done && state.is_closed && state.counts.entries == 2,
    );
    true
}

#[test]
fn log_new_and_session_new(rt: HostRuntime) {
    let is_filled = fills_the_log(&rt, rt.alloc());
    check(&rt, is_filled || fills_the_log(&rt, rt.alloc()));
}

#[test]
fn log_new_of_no_free_entries(rt: HostRuntime) {
    let made = session(&rt, rt.alloc(), 2, 0);
    check(&rt, made.state().free == 0);
}

#[test]
fn log_new_of_the_most_entries(rt: HostRuntime) {
    let made = session(&rt, rt.alloc(), 255, 1_000_000);
    check(&rt, made.state().free == 1_000_000);
}

// Whether the request with this number is answered by two bytes. If there is no memory for them, it ends with status
// 18.
fn is_answered(
    rt: &impl Abort,
    alloc: Global,
    stage: &mut SessionStage<SimLine>,
    number: u64,
) -> bool {
    let submitted = stage.act(alloc, Act::Client(0, Step::Submit(number)));
    check(rt, submitted == Number(number));
    let worked = stage.act(alloc, Act::Work(2));
    check(rt, worked == Worked(AllLeft));
    check(rt, stage.act(alloc, Act::Deliver) == Nothing);
    let collected = stage.act(alloc, Act::Client(0, Step::Collect));
    check(
        rt,
        collected == Answered(number, 1, 2) || collected == Request(number, Status::NoMemory),
    );
    collected == Answered(number, 1, 2)
}

#[test]
fn deliver(rt: HostRuntime) {
    let mut stage = session(&rt, rt.alloc(), 1, 100);
    moves(&rt, rt.alloc(), &mut stage, moves! { Join(1) => Number(0) });
    let is_first = is_answered(&rt, rt.alloc(), &mut stage, 0);
    check(&rt, is_first || is_answered(&rt, rt.alloc(), &mut stage, 1));
}

// Full discovery on a line without devices takes three unmutes and five silent branches.
#[test]
fn sim_line_new_without_devices(rt: HostRuntime) {
    let alloc = rt.alloc();
    let of = LineOf {
        devices: &[],
        meeting: Meeting::Noise,
        losses: &[],
        fails: &[],
    };
    let line = line(&rt, alloc, of);
    let opened = open_session(alloc, 1, DEFAULT_BUDGET, 100, line);
    let mut stage = opened.expect(&rt, "memory for a session");
    let all = moves! {
        Join(1) => Number(0), 0 Full(0) => Number(0), Work(9) => Worked(AllLeft),
        0 Collect => Discovery(0, 1, Faultless, Nobody),
    };
    moves(&rt, alloc, &mut stage, all);
    check(&rt, stage.state().counts.frames == (8, 0));
}
