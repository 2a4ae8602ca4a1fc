//! A close at each position, in one thread and with a simulated line.
use super::due::{EXCHANGES, accepted_before, call, due, seen, sees};
use crate::tests::*;

/// The last position of a close: after the pause, three calls, a take without a frame, the resume, a take and a deliver
/// for each exchange, and three collects.
const LAST_INDEX: usize = 31;

// The act at this position.
fn act(index: usize) -> Act {
    match index {
        0 => Act::Pause,
        1 => Act::Client(0, Step::Submit(0)),
        2 => Act::Client(0, Step::Discover(Kind::Full, 0)),
        3 => Act::Client(0, Step::Discover(Kind::Incremental, 1)),
        5 => Act::Resume,
        28..=30 => Act::Client(0, Step::Collect),
        _ if index % 2 == 0 => Act::Take,
        _ => Act::Deliver,
    }
}

// How many frames were taken before a close at this position.
fn frames_before(index: usize) -> usize {
    (index.max(5).saturating_sub(5) / 2).min(EXCHANGES)
}

// The result of the act at `index`, if the close comes before the act at `close_at`.
fn wanted(index: usize, close_at: usize) -> ActResult {
    match index {
        0 | 5 => Done,
        1..=3 => call(index, index >= close_at),
        28..=30 => {
            let due = due(frames_before(close_at), accepted_before(close_at));
            due[index % 28 % 3]
        }
        _ if index % 2 == 0 => taken(index, close_at),
        // The reply to a frame that was taken before the close still counts.
        _ if index <= close_at => Done,
        _ => Nothing,
    }
}

// The result of a take at this position.
fn taken(index: usize, close_at: usize) -> ActResult {
    if index == 4 || index >= close_at {
        return Nothing;
    }
    Frame((index.saturating_sub(6) / 2 % 256) as u8)
}

// After the close each call is refused, no more outcomes come, and no frame is sent.
static AFTER: [Move; 5] = [
    (
        Act::Client(0, Step::Submit(2)),
        Refused(Refusal::Submit(SubmitFault::Closed, 2)),
    ),
    (
        Act::Client(0, Step::Discover(Kind::Full, 3)),
        Refused(Refusal::Ask(AskFault::Closed, 3)),
    ),
    (Act::Join(0), Refused(Refusal::Join(JoinFault::Closed))),
    (Act::Take, Nothing),
    (Act::Client(0, Step::Collect), Nothing),
];

// All acts, with a close before the one at this position, and then those of `AFTER`.
fn moves(alloc: Global, close_at: usize) -> Result<Vec<Move>, Fail> {
    let mut moves = Vec::new(alloc);
    moves.push((Act::Join(4), Number(0)))?;
    for index in 0..=LAST_INDEX {
        if index == close_at {
            moves.push((Act::Close, Done))?;
        }
        if index < LAST_INDEX {
            moves.push((act(index), wanted(index, close_at)))?;
        }
    }
    moves.push((Act::Client(0, Step::Know), sees(frames_before(close_at))))?;
    moves.extend_from_slice(&AFTER)?;
    Ok(moves)
}

#[test]
fn a_close_comes_at_each_point_of_a_session(rt: HostRuntime) -> Result<(), Fail> {
    for index in 0..=LAST_INDEX {
        let line = one_device(rt.alloc(), &[])?;
        let mut stage = open_session(rt.alloc(), 4, DEFAULT_BUDGET, 100, line)?;
        moved(rt.alloc(), &mut stage, &moves(rt.alloc(), index)?)?;
        let state = stage.state();
        let frames = frames_before(index);
        assert_eq!(rt; state.counts.frames, (frames, 0), "{index}");
        assert_eq!(rt; state.counts.accepted, accepted_before(index), "{index}");
        assert_eq!(rt; state.devices, seen(frames));
        assert!(rt; state.is_closed && state.is_idle);
    }
    Ok(())
}
