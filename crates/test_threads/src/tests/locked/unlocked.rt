//! The mutex is unlocked before a callback runs. Otherwise these callbacks would deadlock.
use crate::tests::*;

// A client's request and its discovery are collected. Each callback pauses the port, so no frame is sent after it.
static MOVES: &[Move] = moves! {
    Join(2) => Number(0), 0 Submit(1) => Number(0), Work(1) => Worked(Turns), 0 Collect => Answered(1, 1, 2),
    0 Submit(2) => Number(1), Work(1) => Worked(Turns), Resume => Done, 0 Full(3) => Number(0),
    Work(10) => Worked(Turns), 0 Collect => Discovery(3, 1, Faultless, First), Work(1) => Worked(Turns),
};

static BEFORE: &[Said] = entries! {
    Join(0, 2), Accept(0, 0), Send(Owner::Request(0), Some(0)), Came(true), Finish(0, Completed, 2), Collect(0),
    Pause, Accept(0, 1), Resume,
};

static AFTER: &[Said] = entries! { Answer(0, 1, Faultless), Collect(0), Pause };

#[test]
fn a_callback_may_call_the_port(rt: HostRuntime) -> Result<(), Fail> {
    let setup = PortSetup {
        pauses: true,
        ..PortSetup::new(2, 1000)
    };
    let line = one_device(rt.alloc(), &[])?;
    let over = play_port(&rt, rt.alloc(), setup, line, MOVES)?;
    assert_eq!(rt; (over.calls, over.held, over.recorded), (5, 1, 11));
    says_at(&over.log, 0, BEFORE)?;
    says_at(&over.log, 9, entries! { Ask(0, 0, Kind::Full) })?;
    says_run(&over.log, 10, 1, 1, 10)?;
    says_at(&over.log, 30, AFTER)?;
    assert_eq!(rt; over.log.len(), 33);
    Ok(())
}
