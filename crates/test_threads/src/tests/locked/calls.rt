//! Each call on a port is its session's call.
use crate::tests::*;
use rdm_log::SubmitFault;

// Two clients make each call at least once. The worker stops only once both have left. After the first one has left,
// the second one is number 0.
static EACH_CALL: &[Move] = moves! {
    Join(2) => Number(0), Join(1) => Number(1), 0 Submit(0) => Number(0), 1 Submit(1) => Number(1),
    Pause => Done, Work(1) => Worked(Turns), Resume => Done, Work(1) => Worked(Turns), 0 Collect => Answered(0, 1, 2),
    0 Full(2) => Number(0), Work(10) => Worked(Turns), 1 Incremental(3) => Number(1),
    0 Collect => Discovery(2, 1, Faultless, First), Work(9) => Worked(Turns),
    1 Collect => Discovery(3, 2, Faultless, First), Close => Done, 1 Collect => Request(1, FailedToSend),
    0 Submit(4) => Refused(Refusal::Submit(SubmitFault::Closed, 4)), 0 Leave => Done, Work(1) => Worked(Turns),
    0 Leave => Done, Work(1) => Worked(AllLeft),
};

// The log, worked out by hand: a run on one device takes 10 frames, and 9 if the device is known.
static BEFORE: &[Said] = entries! {
    Join(0, 2), Join(1, 1), Accept(0, 0), Accept(1, 1), Pause, Resume, Send(Owner::Request(0), Some(0)), Came(true),
    Finish(0, Completed, 2), Collect(0), Ask(0, 0, Kind::Full),
};

static BETWEEN: &[Said] =
    entries! { Answer(0, 1, Faultless), Ask(1, 1, Kind::Incremental), Collect(0) };

static AFTER: &[Said] = entries! {
    Answer(1, 2, Faultless), Collect(1), Close, Finish(1, FailedToSend, 0), Collect(1), Refuse(Some(0), 1),
};

#[test]
fn each_locked_call_is_the_sessions_call(rt: HostRuntime) -> Result<(), Fail> {
    let line = one_device(rt.alloc(), &[])?;
    let over = play_port(&rt, rt.alloc(), PortSetup::new(3, 1000), line, EACH_CALL)?;
    says_at(&over.log, 0, BEFORE)?;
    says_run(&over.log, 11, 1, 1, 10)?;
    says_at(&over.log, 31, BETWEEN)?;
    says_run(&over.log, 34, 2, 11, 19)?;
    says_at(&over.log, 52, AFTER)?;
    assert_eq!(rt; (over.log.len(), over.recorded), (58, 20));
    Ok(())
}

// A client submits and collects. Before the port is ended, it refuses to end without the client's share, and with an
// empty record.
#[test]
fn collect_gives_the_outcomes_own_completion(rt: HostRuntime) -> Result<(), Fail> {
    static MOVES: &[Move] = moves! {
        Join(1) => Number(0), 0 Submit(7) => Number(0), Work(1) => Worked(Turns), 0 Collect => Request(7, Timeout),
        0 Collect => Nothing,
    };
    let line = silent(rt.alloc(), 1)?;
    let over = play_port(&rt, rt.alloc(), PortSetup::new(1, 1000), line, MOVES)?;
    assert_eq!(rt; (over.calls, over.held, over.recorded), (2, 0, 1));
    Ok(())
}
