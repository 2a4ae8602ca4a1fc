//! Discoveries with ring buffers over a line with stored replies.
use crate::tests::*;
use rdm_join::LineReply;
use rdm_line::{Asks, Counted, Line};
use rdm_wire::Frame;
use std::sync::atomic::{AtomicUsize, Ordering};
use test_stage::read_alone;

// Answers of a line.
macro_rules! answers {
    ($($came:ident $(($who:ident))?),* $(,)?) => { [$(Came::$came $((Who::$who))?),*] };
}

// A full run finds `1234:00000001` and `5678:00000009`: three unmutes, a branch reply and an acknowledgement from each
// device, and five silences.
//
// Then the second one has gone, and `9abc:00000002` has come. An incremental run makes three unmutes, and two mutes of
// the first device, since the reply to the first mute is lost. It makes five mutes of the second device, a branch and a
// mute of the new one, and five branches.
static BOTH_RUNS: [Came; 29] = answers! {
    Nothing, Nothing, Nothing, Spelt(First), Muted(First), Spelt(Gone), Muted(Gone),
    Nothing, Nothing, Nothing, Nothing, Nothing,
    // The incremental run.
    Nothing, Nothing, Nothing, Nothing, Muted(First), Nothing, Nothing, Nothing, Nothing, Nothing,
    Spelt(Second), Muted(Second), Nothing, Nothing, Nothing, Nothing, Nothing,
};

// What a frame asks: the last bytes of its PID and of its destination UID (E1.20, discovery).
type Asked = (u8, u8);

const BRANCH: Asked = (1, 0xff);

const MUTE_FIRST: Asked = (2, 1);

const MUTE_SECOND: Asked = (2, 2);

const MUTE_GONE: Asked = (2, 9);

const UNMUTE: Asked = (3, 0xff);

// What the frame of both runs with this number asks.
fn wanted(number: usize) -> Option<Asked> {
    match number {
        0..=2 | 12..=14 => Some(UNMUTE),
        3 | 5 | 7..=11 | 22 | 24..=28 => Some(BRANCH),
        4 | 15 | 16 => Some(MUTE_FIRST),
        6 | 17..=21 => Some(MUTE_GONE),
        23 => Some(MUTE_SECOND),
        _ => None,
    }
}

// A line, and how many of its frames asked what was expected.
#[derive(Drop)]
struct Watched<'a, X: Drop> {
    line: X,
    made: usize,
    right: &'a AtomicUsize,
}

impl<X: Line + Drop> Asks for Watched<'_, X> {
    fn ask(&mut self, frame: &Frame) -> Option<LineReply> {
        if wanted(self.made) == Some(asked_by(frame)) {
            self.right.fetch_add(1, Ordering::SeqCst);
        }
        self.made = self.made.saturating_add(1);
        self.line.exchange(frame).ok()
    }
}

// What this frame asks.
fn asked_by(frame: &Frame) -> Asked {
    let pid = frame.get(22).copied();
    let uid = frame.get(8).copied();
    (pid.unwrap_or(0), uid.unwrap_or(0))
}

const NONE: ActResult = Sees(0, Nobody);

const KNOWN: ActResult = Sees(1, FirstAndGone);

const PRESENT: ActResult = Sees(2, FirstAndSecond);

const FULL: ActResult = Discovery(5, 1, Faultless, FirstAndGone);

const INCREMENTAL: ActResult = Discovery(6, 2, Faultless, FirstAndSecond);

// Makes both runs, each with its last frame in the last turn. After the first run, the view is read before the answer
// is collected. After the second run, the client knows what it collected without reading.
static MOVES: &[Move] = moves! {
    0 Full(5) => Done, Work(11) => Worked(Turns), 0 Collect => Nothing, 0 Look => NONE,
    Work(1) => Worked(Turns), 0 Look => KNOWN, 0 Collect => FULL,
    0 Incremental(6) => Done, Work(17) => Worked(Turns), 0 Know => KNOWN, 0 Collect => INCREMENTAL,
    0 Know => PRESENT, 0 Look => PRESENT,
};

#[test]
fn an_incremental_run_over_rings_has_the_frames_12_to_28(rt: HostRuntime) -> Result<(), Fail> {
    let setup = Setup::new(100, 4, &[1]);
    let right = AtomicUsize::new(0);
    let line = Counted::new(Watched {
        line: tape_of(rt.alloc(), &BOTH_RUNS)?,
        made: 0,
        right: &right,
    });
    let over = play_lanes(&rt, rt.alloc(), setup, line, MOVES)?;
    counts_are(&over.left, &[(2, 2, 0)])?;
    assert_eq!(rt; (over.log.len(), right.load(Ordering::SeqCst)), (65, 29));
    says_at(&over.log, 0, entries! { Join(0, 1), Ask(0, 0, Kind::Full) })?;
    says_run(&over.log, 2, 1, 0, 11)?;
    says_at(
        &over.log,
        26,
        entries! { Answer(0, 1, Faultless), Collect(0), Ask(0, 1, Kind::Incremental) },
    )?;
    says_run(&over.log, 29, 2, 12, 28)?;
    says_at(
        &over.log,
        63,
        entries! { Answer(1, 2, Faultless), Collect(0) },
    )?;
    Ok(())
}

// The client reads once more after the worker is gone. It sees what the first run found if that had its last frame,
// else nothing.
#[test]
fn the_last_view_stands_without_a_worker(rt: HostRuntime) -> Result<(), Fail> {
    for (count, wanted) in [(4, NONE), (6, KNOWN)] {
        let line = tape_of(rt.alloc(), &BOTH_RUNS)?;
        let setup = Setup::new(100, 4, &[1]);
        let seen = read_alone(&rt, rt.alloc(), setup, line, &MOVES[..count])?;
        assert_eq!(rt; seen, wanted);
    }
    Ok(())
}

// A client that asks for a full discovery and then for an incremental one. It looks at the devices before and after
// each.
static SEARCHER: Part<'static> = part! {
    Look => NONE, Full(5) => Done, Hear => FULL, Look => KNOWN,
    Incremental(6) => Done, Hear => INCREMENTAL, Look => PRESENT, Leave => Done,
};

#[test]
fn a_client_in_a_thread_sees_what_each_run_found(rt: HostRuntime) -> Result<(), Fail> {
    let setup = Setup::new(100, 1, &[1]).of_capacity(1);
    for _session in 0..100 {
        let line = tape_of(rt.alloc(), &BOTH_RUNS)?;
        let over = play_threads(&rt, rt.alloc(), setup, &[SEARCHER], line)?;
        counts_are(&over.left, &[(2, 2, 0)])?;
        assert_eq!(rt; (over.published, over.state.devices.0), (3, 2));
        assert_eq!(rt; over.state.counts.frames, (29, 0));
    }
    Ok(())
}
