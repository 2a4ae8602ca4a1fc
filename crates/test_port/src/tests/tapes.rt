//! Runs on stored replies.
use crate::tests::*;
use rdm_agent::{DEFAULT_BUDGET, Search};
use rdm_files::Remark;
use rdm_join::{LineEvent, LineReply};
use rdm_line::TapeLine;
use rdm_reports::{Discovery, Progress, discover, report};
use rdm_wire::UidSet;

// This many silences, and then this many replies that spell no UID.
fn tape(rt: &impl Abort, alloc: Global, silences: usize, noises: usize) -> TapeLine {
    let mut events = Vec::new(alloc);
    for _ in 0..silences {
        check(rt, events.push(LineEvent::Reply(LineReply::new())).is_ok());
    }
    for _ in 0..noises {
        let mut reply = LineReply::new();
        reply.push(0xff);
        check(rt, events.push(LineEvent::Reply(reply)).is_ok());
    }
    TapeLine::new(events)
}

// A run that mutes these devices first.
fn run<P: Progress>(
    alloc: Global,
    line: &mut TapeLine,
    known: &UidSet,
    progress: &mut P,
) -> Discovery {
    let source = Uid::new(0x7a70, 0x100);
    let kind = if known.is_empty() {
        Kind::Full
    } else {
        Kind::Incremental
    };
    let mut log = LogOutput::new(Vec::new(alloc));
    discover(
        alloc,
        line,
        source,
        Search::Steady,
        kind,
        known,
        DEFAULT_BUDGET,
        progress,
        &mut log,
    )
}

// A run over this many silences and noises finds no device, and reports this.
fn ends(rt: &impl Abort, alloc: Global, silences: usize, noises: usize, text: &str) {
    let mut line = tape(rt, alloc, silences, noises);
    let run = run(alloc, &mut line, &UidSet::new(), &mut Silent);
    let said = report(alloc, &run).expect(rt, "memory");
    check(rt, said.as_slice() == text.as_bytes());
    check(
        rt,
        matches!(&run.found, Err((_, found)) if found.is_empty()),
    );
}

// A line that answers each branch is corrupt, and a tape that ends fails.
#[test]
fn runs_end_on_a_tape(rt: HostRuntime) {
    let corrupt = "fault 1 0000:00000000\nframes 52\n";
    let alloc = rt.alloc();
    ends(&rt, alloc, 3, 60, corrupt);
    ends(&rt, alloc, 0, 0, "fault 4\nframes 1\n");
}

// How many exchanges a run had made each time that it reported.
#[derive(Drop)]
struct Reports(Vec<usize>);

impl Progress for Reports {
    fn remark(&mut self, _remark: &Remark) {}

    fn report_exchanges(&mut self, exchanges: usize) {
        let _ = self.0.push(exchanges);
    }
}

// This many devices that aren't there.
fn absent(rt: &impl Abort, count: u32) -> UidSet {
    let mut known = UidSet::new();
    for device in 0..count {
        let uid = Uid::new(0x1234, device);
        check(rt, !uid.is_broadcast());
        check(rt, known.insert(uid).is_ok());
    }
    known
}

// The run makes three unmutes, five mutes for each of 40 known devices that aren't there, and five branches of the
// whole range.
#[test]
fn every_hundredth_exchange_is_reported(rt: HostRuntime) {
    let known = absent(&rt, 40);
    let alloc = rt.alloc();
    let mut line = tape(&rt, alloc, 208, 0);
    let mut reports = Reports(Vec::new(alloc));
    let run = run(alloc, &mut line, &known, &mut reports);
    check(&rt, run.found.is_ok() && run.frames == 208);
    check(&rt, reports.0.as_slice() == [100, 200].as_slice());
}
