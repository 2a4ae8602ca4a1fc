//! A port whose end was refused continues.
use crate::tests::*;
use test_stage::play_port_again;

// A client leaves an answered request behind, and one that waits.
static FIRST: &[Move] = moves! {
    Join(2) => Number(0), 0 Submit(1) => Number(0), 0 Submit(2) => Number(1), Work(1) => Worked(Turns),
};

// The request that waited is sent, and each call works as before.
static LATER: &[Move] = moves! {
    Join(1) => Number(0), 0 Submit(3) => Number(2), Pause => Done, Resume => Done, Work(3) => Worked(Turns),
    0 Collect => Answered(3, 1, 2), 0 Look => Sees(0, Nobody), 0 Leave => Done,
};

#[test]
fn a_refused_end_leaves_the_session_open(rt: HostRuntime) -> Result<(), Fail> {
    let first = (one_device(rt.alloc(), &[])?, FIRST);
    let later = (one_device(rt.alloc(), &[])?, LATER);
    let over = play_port_again(&rt, rt.alloc(), PortSetup::new(3, 1000), first, later)?;
    assert!(rt; !over.state.is_closed && !over.state.is_paused);
    assert_eq!(rt; (over.calls, over.held, over.recorded), (4, 2, 3));
    Ok(())
}
