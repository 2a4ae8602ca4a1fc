//! Bodies that meet in threads, and sessions that aren't run.
use crate::tests::*;
use rdm_lanes::{OpenFault, WORKER_STOPPED};

// A client that waits for the other one before its first request, and one that waits for it after its first request.
static WAIT: [Part<'static>; 2] = [
    part! {
        Arrive(0), Wait(1) => Done, Submit(10) => Done, Hear => Request(10, Timeout),
        Submit(11) => Done, Hear => Request(11, Timeout), Leave => Done,
    },
    part! {
        Submit(20) => Done, Hear => Request(20, Timeout), Arrive(1), Wait(0) => Done,
        Submit(21) => Done, Hear => Request(21, Timeout), Leave => Done,
    },
];

// Two clients with rings of one slot, and a log with this many free entries.
fn two(free: usize) -> Setup<'static> {
    Setup::new(free, 1, &[2, 2]).of_capacity(4)
}

#[test]
fn two_bodies_meet_at_both_gates(rt: HostRuntime) -> Result<(), Fail> {
    for _session in 0..100 {
        let line = silent(rt.alloc(), 4)?;
        let over = play_threads(&rt, rt.alloc(), two(100), &WAIT, line)?;
        counts_are(&over.left, &[(2, 2, 0), (2, 2, 0)])?;
        assert!(rt; over.state.is_idle && !over.state.is_closed);
    }
    Ok(())
}

// The clients hear the same as above.
#[test]
fn a_session_keeps_nothing(rt: HostRuntime) -> Result<(), Fail> {
    let line = silent(rt.alloc(), 4)?;
    let over = play_threads(&rt, rt.alloc(), two(NOTHING_KEPT), &WAIT, line)?;
    counts_are(&over.left, &[(2, 2, 0), (2, 2, 0)])?;
    assert!(rt; over.log.is_empty() && over.state.is_idle);
    Ok(())
}

// A client that looks for the worker's stop before it leaves, and waits for it after that.
static LOOKS: Part<'static> = part! {
    Submit(10) => Done, Hear => Request(10, Timeout), Passed(WORKER_STOPPED) => Nothing,
    Leave => Done, Wait(WORKER_STOPPED) => Done,
};

#[test]
fn the_stop_comes_last(rt: HostRuntime) -> Result<(), Fail> {
    let line = silent(rt.alloc(), 1)?;
    play_threads(&rt, rt.alloc(), Setup::new(100, 1, &[1]), &[LOOKS], line)?;
    Ok(())
}

#[test]
fn a_session_without_clients_ends_at_once(rt: HostRuntime) -> Result<(), Fail> {
    let line = silent(rt.alloc(), 0)?;
    let over = play_threads(&rt, rt.alloc(), Setup::new(100, 1, &[]), &[], line)?;
    assert!(rt; over.log.is_empty() && over.left.is_empty());
    Ok(())
}

// Why a session with this setup isn't run. All its clients wait first, and none may have run.
fn refused<R: Threads + Wait + Sync>(
    rt: &R,
    alloc: Global,
    setup: Setup,
) -> Result<OpenFault, Fail> {
    let all = [WAIT[0]; 17];
    let count = setup.places.len();
    let parts = all.get(..count).ok_or("too many clients")?;
    match serve_players(rt, alloc, setup, parts, silent(alloc, 4)?) {
        Err(NotServed::Refused(fault, players)) => {
            let is_whole = players.len() == count && players.iter().all(|player| player.runs == 0);
            if is_whole {
                Ok(fault)
            } else {
                Err("a player has run")?
            }
        }
        _ => Err("it was run")?,
    }
}

#[test]
fn a_refused_session_hands_all_back(rt: HostRuntime) -> Result<(), Fail> {
    assert_eq!(rt; refused(&rt, rt.alloc(), two(3))?, OpenFault::LogFull);
    let ones = [1u8; 17];
    let many = Setup::new(100, 1, &ones);
    assert_eq!(rt; refused(&rt, rt.alloc(), many)?, OpenFault::TooManyClients);
    let few = Setup::new(100, 1, &[1, 1]).of_capacity(1);
    assert_eq!(rt; refused(&rt, rt.alloc(), few)?, OpenFault::NoPlaces);
    Ok(())
}
