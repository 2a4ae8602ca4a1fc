//! Sessions in one thread over lines.
use crate::tests::*;
use rdm_agent::DEFAULT_BUDGET;
use rdm_wire::AckType;
use test_rig::{MakesActs, moved, open_session};

const COLLECT: Act = Act::Client(0, Step::Collect);

// A GET whose answer has 511 empty parts and a last reply. Returns how it ended, and how many frames it took.
fn with_empty_parts(alloc: Global, last: AckType) -> Result<(ActResult, usize), Fail> {
    let mut came = [Came::Empty(AckType::Overflow); 512];
    came[511] = Came::Empty(last);
    let mut stage = open_session(alloc, 1, DEFAULT_BUDGET, 2000, tape_of(alloc, &came)?)?;
    let moves =
        moves! { Join(1) => Number(0), 0 Submit(0) => Number(0), Work(600) => Worked(AllLeft) };
    moved(alloc, &mut stage, moves)?;
    Ok((stage.act(alloc, COLLECT), stage.state().counts.frames.0))
}

#[test]
fn takes_511_empty_parts_and_an_end(rt: HostRuntime) -> Result<(), Fail> {
    let ended = with_empty_parts(rt.alloc(), AckType::Ack)?;
    assert_eq!(rt; ended, (Data(0, 0), 512));
    Ok(())
}

#[test]
fn refuses_a_512th_part(rt: HostRuntime) -> Result<(), Fail> {
    let ended = with_empty_parts(rt.alloc(), AckType::Overflow)?;
    assert_eq!(rt; ended, (Request(0, Status::InvalidResponse), 512));
    Ok(())
}

// The results of two discoveries and a GET over a line that fails at just one exchange. The fifth exchange is the mute
// that is acknowledged, and the eleventh is the GET if no earlier one fails.
#[derive(Clone, Copy)]
struct Failure {
    ending: Ending,
    found: Found,
    // The devices that the session knows afterwards.
    known: (u64, Found),
    request: ActResult,
    // The last frame's transaction number, which is that of the GET.
    last: u8,
}

fn failure_at(exchange: u8) -> Failure {
    if exchange == 10 {
        return Failure {
            ending: Faultless,
            found: First,
            known: (1, First),
            request: Request(0, FailedToSend),
            last: 10,
        };
    }
    Failure {
        ending: LineFailed,
        found: if exchange < 5 { Nobody } else { First },
        known: (0, Nobody),
        request: Answered(0, 1, 2),
        last: exchange.wrapping_add(1),
    }
}

fn fails_at(alloc: Global, exchange: u8) -> Result<u8, Fail> {
    let wanted = failure_at(exchange);
    let line = one_device(alloc, &[u64::from(exchange)])?;
    let mut stage = open_session(alloc, 1, DEFAULT_BUDGET, 100, line)?;
    let moves = moves! {
        Join(1) => Number(0), Pause => Done, 0 Submit(0) => Number(0), 0 Full(0) => Number(0),
        0 Incremental(1) => Number(1), Take => Nothing, Resume => Done, Work(20) => Worked(AllLeft),
        0 Collect => Discovery(0, 1, wanted.ending, wanted.found),
        0 Collect => Discovery(1, 1, wanted.ending, wanted.found),
        0 Know => Sees(wanted.known.0, wanted.known.1), 0 Collect => wanted.request,
    };
    moved(alloc, &mut stage, moves)?;
    Ok(stage.state().counts.last_frame.number)
}

#[test]
fn a_line_fails_at_each_exchange(rt: HostRuntime) -> Result<(), Fail> {
    for exchange in 0..=10 {
        assert_eq!(rt; fails_at(rt.alloc(), exchange)?, failure_at(exchange).last);
    }
    Ok(())
}
