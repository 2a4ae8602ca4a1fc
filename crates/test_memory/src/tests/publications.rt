//! A view whose publication fails in two turns in a row. In a test whose name ends with `twice`, `checks/memory` lets
//! an allocation and the next one fail.
use crate::tests::*;
use rdm_join::LineReply;
use rdm_line::{Asks, Counted};
use rdm_wire::Frame;
use std::sync::atomic::{AtomicU64, Ordering};

// How many allocations fail.
const FAILURES: usize = 2;

const LOOK: Act = Act::Client(0, Step::Look);

const COLLECT: Act = Act::Client(0, Step::Collect);

// A line that says how many exchanges it has made.
#[derive(Drop)]
struct Observed<'a, X: Drop> {
    line: X,
    made: &'a AtomicU64,
}

impl<X: Line + Drop> Asks for Observed<'_, X> {
    fn ask(&mut self, frame: &Frame) -> Option<LineReply> {
        self.made.fetch_add(1, Ordering::SeqCst);
        self.line.exchange(frame).ok()
    }
}

// Discovers on a silent line, which takes eight exchanges. A request waits meanwhile.
#[derive(Drop)]
struct Patient<'a> {
    made: &'a AtomicU64,
    // Whether nothing happened before the view was published, and then both outcomes came.
    is_right: bool,
}

impl Driver for Patient<'_> {
    fn drive<S: MakesActs>(&mut self, alloc: Global, stage: &mut S) {
        let _ = stage.act(alloc, Act::Client(0, Step::Discover(Kind::Full, 1)));
        let _ = stage.act(alloc, Act::Work(1));
        let _ = stage.act(alloc, Act::Client(0, Step::Submit(2)));
        let _ = stage.act(alloc, Act::Work(7));
        let waits = waits_for_view(alloc, stage, self.made);
        let discovery = Discovery(1, 1, Faultless, Nobody);
        let request = Request(2, FailedToSend);
        self.is_right = waits
            && collects(alloc, stage) == discovery
            && collects(alloc, stage) == request;
    }
}

// Works until the client sees the run's view. Until then it has to see the opening view and collect nothing, and the
// line makes no exchange.
fn waits_for_view<S: MakesActs>(alloc: Global, stage: &mut S, made: &AtomicU64) -> bool {
    for _turn in 0..FAILURES {
        if stage.act(alloc, LOOK) != Sees(0, Nobody) {
            break;
        }
        if stage.act(alloc, COLLECT) != Nothing || made.load(Ordering::SeqCst) != 8 {
            return false;
        }
        let _ = stage.act(alloc, Act::Work(1));
    }
    stage.act(alloc, LOOK) == Sees(1, Nobody)
}

// Collects, with further turns if an outcome waits for memory.
fn collects<S: MakesActs>(alloc: Global, stage: &mut S) -> ActResult {
    for _turn in 0..=FAILURES {
        let heard = stage.act(alloc, COLLECT);
        if heard != Nothing {
            return heard;
        }
        let _ = stage.act(alloc, Act::Work(1));
    }
    Nothing
}

// Drives lanes over that line. Returns whether all was right, and what is left.
fn drives<R: Wait>(rt: &R, alloc: Global) -> Result<(bool, LanesOver), Failed> {
    let made = AtomicU64::new(0);
    let line = Counted::new(Observed {
        line: silent(alloc, 8)?,
        made: &made,
    });
    let mut patient = Patient {
        made: &made,
        is_right: false,
    };
    let over = drive_lanes(rt, alloc, Setup::new(100, 1, &[1]), line, &mut patient)?;
    Ok((patient.is_right, over))
}

#[test]
fn worker_publishes_after_it_failed_twice(rt: HostRuntime) {
    let mut driven = drives(&rt, rt.alloc());
    for _failure in 0..FAILURES {
        if driven.is_err() {
            driven = drives(&rt, rt.alloc());
        }
    }
    let Ok((is_right, over)) = driven else {
        panic!(rt; "no memory for the rig");
    };
    check(&rt, is_right && over.published == 2);
}
