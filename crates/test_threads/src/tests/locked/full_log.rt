//! A full log in a session with a mutex.
use crate::tests::*;
use rdm_log::{AskFault, SubmitFault};

// Of five free entries the join takes one, and an accepted request takes three. Another request is refused, and so is
// any other call that needs an entry. The close ends the request, whose outcome is collected. The log then still
// refuses a submit.
static MOVES: &[Move] = moves! {
    Join(2) => Number(0), 0 Submit(0) => Number(0), 0 Submit(1) => Refused(Refusal::Submit(SubmitFault::LogFull, 1)),
    0 Full(2) => Refused(Refusal::Ask(AskFault::LogFull, 2)), Pause => Refused(Refusal::LogFull), 0 Collect => Nothing,
    Work(5) => Worked(Stop::LogFull), Close => Done, 0 Collect => Request(0, FailedToSend), 0 Collect => Nothing,
    0 Submit(3) => Refused(Refusal::Submit(SubmitFault::LogFull, 3)), Work(5) => Worked(Stop::LogFull),
};

#[test]
fn a_full_log_in_a_port_still_closes(rt: HostRuntime) -> Result<(), Fail> {
    let line = one_device(rt.alloc(), &[])?;
    let over = play_port(&rt, rt.alloc(), PortSetup::new(2, 5), line, MOVES)?;
    // The accepted submit, and the collect of its outcome.
    assert_eq!(rt; (over.calls, over.held, over.recorded), (2, 0, 0));
    let counts = over.state.counts;
    assert_eq!(rt; (counts.calls, counts.accepted), (1, 1));
    assert_eq!(rt; (counts.ended, counts.collected), (1, 1));
    assert_eq!(rt; (counts.entries, over.state.free), (5, 1));
    assert!(rt; over.state.is_closed && over.state.is_idle);
    Ok(())
}
