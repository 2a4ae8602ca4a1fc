//! Sessions with ring buffers whose bodies and worker run in threads.
use crate::tests::*;
use std::thread::Threads;

// How often a body tries before it gives up. It gives up if no thread could be made for the other one.
const TRIES: u64 = 3_000_000;

// The worker makes all these turns if no thread could be made for the bodies.
const TURNS: u64 = 100_000_000;

// The script of a player, with the result of each line but arrivals.
macro_rules! part {
    (@ Arrive $point:expr) => { Play::Arrive($point) };
    (@ Wait $point:expr) => { Play::Wait($point) };
    (@ Hear) => { Play::Hear };
    (@ $step:ident $($tag:expr)?) => { Play::Do(Step::$step $(($tag))?) };
    ($($play:ident $(($with:expr))? $(=> $heard:expr)?),* $(,)?) => {
        (&[$(part!(@ $play $($with)?)),*], &[$($($heard,)?)*])
    };
}

// A client that waits for the other one, and makes two requests.
static FIRST: Part<'static> = part! {
    Arrive(0), Wait(1) => Done, Submit(10) => Done, Hear => Request(10, Timeout),
    Submit(11) => Done, Hear => Request(11, Timeout), Leave => Done,
};

// A client that makes one request before it waits, and another one after that.
static SECOND: Part<'static> = part! {
    Submit(20) => Done, Hear => Request(20, Timeout), Arrive(1), Wait(0) => Done,
    Submit(21) => Done, Hear => Request(21, Timeout), Leave => Done,
};

// A body with this script.
fn body(script: &'static [Play]) -> Player {
    Player {
        tries: TRIES,
        ..Player::new(script)
    }
}

// Holds a session of the two bodies in threads, over a silent line. None: the rig itself ran out of memory.
fn serves<R: Threads + Wait + Abort + Sync>(rt: &R, alloc: Global) -> Option<PlayersOver> {
    let line = silent(alloc, 4).ok()?;
    let bodies = Vec::from_slice(alloc, &[body(FIRST.0), body(SECOND.0)]).ok()?;
    let setup = Setup::new(100, 1, &[2, 2]).of_capacity(4);
    match serve_bodies(rt, alloc, setup, bodies, TURNS, line) {
        Ok(over) => Some(over),
        Err(NotServed::Failed(Failed::Rig(Wrong::NoMemory))) => None,
        Err(_) => panic!(rt; "a session that isn't run"),
    }
}

// Whether the bodies met, and each request got its outcome. If there was no memory for a thread, each body has run all
// the same.
fn have_met(rt: &impl Abort, over: &PlayersOver) -> bool {
    let [first, second] = over.players.as_slice() else {
        panic!(rt; "two bodies")
    };
    check(
        rt,
        first.runs == 1 && second.runs == 1 && !over.state.is_closed,
    );
    if player_heard(first, 0, FIRST.1).is_err() {
        return false;
    }
    if player_heard(second, 1, SECOND.1).is_err() {
        return false;
    }
    check(rt, over.stop == AllLeft && over.state.is_idle);
    check(rt, counts_are(&over.left, &[(2, 2, 0), (2, 2, 0)]).is_ok());
    true
}

fn meet<R: Threads + Wait + Abort + Sync>(rt: &R, alloc: Global) -> bool {
    match serves(rt, alloc) {
        Some(over) => have_met(rt, &over),
        None => false,
    }
}

#[test]
fn run_session_of_two_bodies(rt: HostRuntime) {
    let have_met = meet(&rt, rt.alloc());
    check(&rt, have_met || meet(&rt, rt.alloc()));
}
