//! A close at each position, with ring buffers and a simulated line.
use super::due::{EXCHANGES, due, seen, sees};
use crate::tests::*;

/// The last position of a close: after the pause, three calls, a turn for each of them, the resume, and a turn for each
/// exchange.
const LAST_INDEX: usize = 19;

const COLLECT: Act = Act::Client(0, Step::Collect);

// The move at this position. A turn takes a call of the client, then one of the operator, and then makes an exchange.
fn step(index: usize) -> Move {
    match index {
        0 => (Act::Pause, Done),
        1 => (Act::Client(0, Step::Submit(0)), Done),
        2 => (Act::Client(0, Step::Discover(Kind::Full, 0)), Done),
        3 => (Act::Client(0, Step::Discover(Kind::Incremental, 1)), Done),
        7 => (Act::Resume, Done),
        _ => (Act::Work(1), Worked(Turns)),
    }
}

// How many exchanges are made before the close that the operator sends before this position. The turn after the resume
// takes the resume and makes the first exchange. So a close that is sent between the resume and that turn is taken in
// the next turn.
fn exchanges_before(index: usize) -> usize {
    if index < 8 {
        0
    } else {
        index.saturating_sub(8).max(1)
    }
}

// How many of the three calls are taken before that close. A turn takes a call, and then the operator's oldest one.
fn accepted_before(index: usize) -> usize {
    match index {
        0 => 1,
        1..=5 => 2,
        _ => 3,
    }
}

// A call after the close ends at once, and no frame is sent.
static AFTER: [Move; 5] = [
    (COLLECT, Nothing),
    (Act::Client(0, Step::Submit(2)), Done),
    (Act::Work(2), Worked(Turns)),
    (COLLECT, Request(2, FailedToSend)),
    (COLLECT, Nothing),
];

// All moves, a few more turns, and their results. Each call gets exactly one outcome, whether it was taken before the
// close or after it.
fn moves(alloc: Global, close_at: usize) -> Result<Vec<Move>, Fail> {
    let mut moves = Vec::new(alloc);
    for index in 0..=LAST_INDEX {
        if index == close_at {
            moves.push((Act::Close, Done))?;
        }
        if index < LAST_INDEX {
            moves.push(step(index))?;
        }
    }
    let exchanges = exchanges_before(close_at);
    moves.push((Act::Work(4), Worked(Turns)))?;
    moves.push((Act::Client(0, Step::Look), sees(exchanges)))?;
    for heard in due(exchanges, 3) {
        moves.push((COLLECT, heard))?;
    }
    moves.extend_from_slice(&AFTER)?;
    Ok(moves)
}

// The log has this many exchanges, all before the close. It has one outcome for each accepted call. The client gets
// outcomes of refused calls too.
fn has_counts(over: &LanesOver, close_at: usize) -> bool {
    let exchanges = exchanges_before(close_at);
    let accepted = accepted_before(close_at);
    let counts = over.state.counts;
    counts.frames == (exchanges, 0)
        && counts.calls == 4
        && (counts.accepted, counts.ended, counts.collected) == (accepted, accepted, accepted)
        && over.state.devices == seen(exchanges)
        && over.state.is_closed
        && over.state.is_idle
}

#[test]
fn a_close_comes_at_each_point_over_rings(rt: HostRuntime) -> Result<(), Fail> {
    for index in 0..=LAST_INDEX {
        let line = one_device(rt.alloc(), &[])?;
        let setup = Setup::new(100, 8, &[4]);
        let moves = moves(rt.alloc(), index)?;
        let over = play_lanes(&rt, rt.alloc(), setup, line, &moves)?;
        counts_are(&over.left, &[(4, 4, 0)])?;
        assert!(rt; has_counts(&over, index), "{index}");
    }
    assert_eq!(rt; exchanges_before(LAST_INDEX), EXCHANGES);
    Ok(())
}
