//! A close at each position, with a mutex and a simulated line: between any two steps, and during each exchange.
use super::due::{EXCHANGES, accepted_before, call, due, sees};
use crate::tests::*;

/// The last position of a close: after the pause, three calls, a turn without a frame, the resume, a turn for each
/// exchange, and three collects.
const LAST_INDEX: usize = 20;

// A close before the act at this position, if there is one, or during this exchange; how many exchanges are made, and
// how many calls are accepted.
#[derive(Clone, Copy)]
struct Closing {
    before: usize,
    during: Option<u64>,
    exchanges: usize,
    accepted: usize,
}

// A close before the act at this position.
fn before(index: usize) -> Closing {
    Closing {
        before: index,
        during: None,
        exchanges: index.max(6).saturating_sub(6).min(EXCHANGES),
        accepted: accepted_before(index),
    }
}

// A close during this exchange, which is still made.
fn during(exchange: usize) -> Closing {
    Closing {
        before: LAST_INDEX.saturating_add(1),
        during: Some(exchange as u64),
        exchanges: exchange.saturating_add(1),
        accepted: 3,
    }
}

// The act at this position.
fn act(index: usize) -> Act {
    match index {
        0 => Act::Pause,
        1 => Act::Client(0, Step::Submit(0)),
        2 => Act::Client(0, Step::Discover(Kind::Full, 0)),
        3 => Act::Client(0, Step::Discover(Kind::Incremental, 1)),
        5 => Act::Resume,
        17..=19 => Act::Client(0, Step::Collect),
        _ => Act::Work(1),
    }
}

// The result of the act at this position.
fn wanted(index: usize, closing: Closing) -> ActResult {
    match index {
        0 | 5 => Done,
        1..=3 => call(index, index >= closing.before),
        17..=19 => due(closing.exchanges, closing.accepted)[index % 17 % 3],
        _ => Worked(Turns),
    }
}

// After the close each call is refused, no more outcomes come, and no frame is sent.
static AFTER: [Move; 4] = [
    (
        Act::Client(0, Step::Submit(2)),
        Refused(Refusal::Submit(SubmitFault::Closed, 2)),
    ),
    (
        Act::Client(0, Step::Discover(Kind::Full, 3)),
        Refused(Refusal::Ask(AskFault::Closed, 3)),
    ),
    (Act::Client(0, Step::Collect), Nothing),
    (Act::Work(1), Worked(Turns)),
];

// All acts with the close, and then those of `AFTER`.
fn moves(alloc: Global, closing: Closing) -> Result<Vec<Move>, Fail> {
    let mut moves = Vec::new(alloc);
    moves.push((Act::Join(4), Number(0)))?;
    for index in 0..=LAST_INDEX {
        if index == closing.before {
            moves.push((Act::Close, Done))?;
        }
        if index < LAST_INDEX {
            moves.push((act(index), wanted(index, closing)))?;
        }
    }
    moves.push((Act::Client(0, Step::Look), sees(closing.exchanges)))?;
    moves.extend_from_slice(&AFTER)?;
    Ok(moves)
}

// The port counts the client's calls: the three, a collect for each accepted one, and the two after the close.
fn closes<R: Wait>(rt: &R, alloc: Global, closing: Closing) -> Result<(), Fail> {
    let setup = PortSetup {
        closes_at: closing.during,
        ..PortSetup::new(4, 100)
    };
    let line = one_device(alloc, &[])?;
    let over = play_port(rt, alloc, setup, line, &moves(alloc, closing)?)?;
    let is_whole = over.recorded == closing.exchanges && over.held == 0;
    let is_counted = over.calls == (closing.accepted as u64).saturating_add(5);
    let is_over = over.state.is_closed && over.state.is_idle;
    if is_whole && is_counted && is_over {
        Ok(())
    } else {
        Err("another end")?
    }
}

#[test]
fn a_close_comes_between_any_two_steps_of_a_port(rt: HostRuntime) -> Result<(), Fail> {
    for index in 0..=LAST_INDEX {
        closes(&rt, rt.alloc(), before(index))?;
    }
    Ok(())
}

#[test]
fn a_close_comes_during_each_exchange_of_a_port(rt: HostRuntime) -> Result<(), Fail> {
    for exchange in 0..EXCHANGES {
        closes(&rt, rt.alloc(), during(exchange))?;
    }
    Ok(())
}
