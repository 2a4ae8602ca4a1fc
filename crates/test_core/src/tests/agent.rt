//! Which replies fit an operation, and how many ranges are open.
use crate::tests::*;
use rdm_agent::{Agent, Op, OpReply};
use rdm_wire::BranchReply;

// Whether the reply fits an unmute, a mute, a branch, and the end of a run.
fn fits_each(rt: &impl Abort, reply: OpReply, fits: [bool; 4]) {
    check(rt, reply.fits(&Op::UnmuteAll) == fits[0]);
    check(rt, reply.fits(&Op::Mute(Uid::new(0x1234, 1))) == fits[1]);
    check(rt, reply.fits(&Op::Branch(UidRange::whole())) == fits[2]);
    check(rt, reply.fits(&Op::End) == fits[3]);
}

#[test]
fn a_reply_fits_its_own_operation(rt: HostRuntime) {
    let silent = OpReply::Branch(BranchReply::Silent);
    fits_each(&rt, OpReply::Done, [true, false, false, false]);
    fits_each(&rt, OpReply::Mute(None), [false, true, false, false]);
    fits_each(&rt, OpReply::Garbled, [false, true, false, false]);
    fits_each(&rt, silent, [false, false, true, false]);
    fits_each(&rt, OpReply::Failed, [true, true, true, false]);
}

// Each branch collides. The last split leaves one range at each depth, and one more at the deepest.
#[test]
fn a_line_that_always_collides(rt: HostRuntime) {
    let mut agent = Agent::start(Kind::Full, &UidSet::new(), DEFAULT_BUDGET);
    for at in 0..51 {
        let reply = if at < 3 {
            OpReply::Done
        } else {
            OpReply::Branch(BranchReply::Collision)
        };
        check(&rt, reply.fits(&agent.next()));
        agent.hear(reply);
    }
    check(&rt, agent.open_ranges() == 49);
}
