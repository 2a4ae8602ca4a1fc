//! Discoveries through a port.
use crate::tests::*;
use test_rig::LastFrame;

// A request and two discoveries wait during a pause. After it one run answers both discoveries, and then the request is
// sent.
static IN_A_PAUSE: &[Move] = moves! {
    Join(1) => Number(0), 0 Look => Sees(0, Nobody), Pause => Done, 0 Submit(0) => Number(0), 0 Full(2) => Number(0),
    0 Incremental(3) => Number(1), Work(3) => Worked(Turns), Resume => Done, Work(11) => Worked(Turns),
    0 Collect => Discovery(2, 1, Faultless, First), 0 Collect => Discovery(3, 1, Faultless, First),
    0 Collect => Answered(0, 1, 2), 0 Collect => Nothing, 0 Look => Sees(1, First), 0 Leave => Done,
    Work(1) => Worked(AllLeft),
};

static BEFORE: &[Said] = entries! {
    Join(0, 1), Pause, Accept(0, 0), Ask(0, 0, Kind::Full), Ask(0, 1, Kind::Incremental), Resume,
};

static AFTER: &[Said] = entries! {
    Answer(0, 1, Faultless), Answer(1, 1, Faultless), Send(Owner::Request(0), Some(10)), Came(true),
    Finish(0, Completed, 2),
};

#[test]
fn devices_are_those_of_the_last_run(rt: HostRuntime) -> Result<(), Fail> {
    let line = one_device(rt.alloc(), &[])?;
    let over = play_port(&rt, rt.alloc(), PortSetup::new(1, 1000), line, IN_A_PAUSE)?;
    says_at(&over.log, 0, BEFORE)?;
    says_run(&over.log, 6, 1, 0, 9)?;
    says_at(&over.log, 26, AFTER)?;
    let last = LastFrame {
        length: 26,
        number: 10,
        checksum: [0x02, 0xa2],
    };
    assert_eq!(rt; over.state.counts.last_frame, last);
    assert_eq!(rt; (over.calls, over.held, over.recorded), (6, 0, 11));
    Ok(())
}
