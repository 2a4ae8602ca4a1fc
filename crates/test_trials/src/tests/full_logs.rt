//! Logs of each size: what is refused for lack of free entries, and that nothing else is.
use crate::tests::*;
use rdm_line::SimLine;

// A join, a pause, a request, two discoveries and a resume. After that eleven exchanges are made.
static ACTS: [Act; 6] = [
    Act::Join(4),
    Act::Pause,
    Act::Client(0, Step::Submit(0)),
    Act::Client(0, Step::Discover(Kind::Full, 0)),
    Act::Client(0, Step::Discover(Kind::Incremental, 1)),
    Act::Resume,
];

// How many entries are free, counted by hand, if the log began with this many. The log also has one for the close.
// These are taken: the log's entries; one for the close, until it comes; one for a reply that is awaited; two for each
// accepted call that hasn't ended; one for each ended call that isn't collected.
fn free_by_hand(state: &State, size: usize) -> usize {
    let counts = &state.counts;
    let due = counts.accepted.saturating_sub(counts.ended);
    let used = [
        counts.entries,
        usize::from(!state.is_closed),
        usize::from(state.awaits),
        due.saturating_mul(2),
        counts.ended.saturating_sub(counts.collected),
    ];
    let mut free = size.saturating_add(1);
    for used in used {
        free = free.saturating_sub(used);
    }
    free
}

// Whether the act was refused for lack of free entries.
fn is_refused(heard: ActResult) -> bool {
    matches!(
        heard,
        Refused(
            Refusal::LogFull
                | Refusal::Join(JoinFault::LogFull)
                | Refusal::Submit(SubmitFault::LogFull, _)
                | Refusal::Ask(AskFault::LogFull, _)
        ) | Worked(Stop::LogFull)
    )
}

// Each act and each exchange is refused exactly when fewer than three entries are free.
fn fills(alloc: Global, stage: &mut SessionStage<SimLine>, size: usize) -> bool {
    for index in 0..17 {
        let state = stage.state();
        let act = ACTS.get(index).copied().unwrap_or(Act::Work(1));
        let heard = stage.act(alloc, act);
        let free = free_by_hand(&state, size);
        if state.free != free || is_refused(heard) != (free < 3) {
            return false;
        }
    }
    true
}

// A close and the collects are never refused: each call that was accepted has an outcome.
fn closes(alloc: Global, stage: &mut SessionStage<SimLine>) -> bool {
    stage.act(alloc, Act::Close);
    for _ in 0..stage.state().counts.accepted {
        if stage.act(alloc, Act::Client(0, Step::Collect)) == Nothing {
            return false;
        }
    }
    let last = stage.act(alloc, Act::Client(0, Step::Collect));
    let state = stage.state();
    last == Nothing && state.is_closed && state.is_idle
}

#[test]
fn a_log_of_each_size_is_full_in_a_session(rt: HostRuntime) -> Result<(), Fail> {
    for size in 0..=50 {
        let line = one_device(rt.alloc(), &[])?;
        let mut stage = open_session(rt.alloc(), 4, DEFAULT_BUDGET, size, line)?;
        assert!(rt; fills(rt.alloc(), &mut stage, size), "{size}");
        assert!(rt; closes(rt.alloc(), &mut stage), "{size}");
    }
    Ok(())
}
