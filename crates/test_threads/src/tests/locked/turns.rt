//! A worker makes all its turns, even if there are many.
use crate::tests::*;
use rdm_wire::AckType;

// Three answers of 512 parts each, which the last turn completes.
static MOVES: &[Move] = moves! {
    Join(3) => Number(0), 0 Submit(0) => Number(0), 0 Submit(0) => Number(1), 0 Submit(0) => Number(2),
    Work(1536) => Worked(Turns), 0 Collect => Data(0, 0), 0 Collect => Data(0, 0), 0 Collect => Data(0, 0),
    0 Collect => Nothing,
};

#[test]
fn a_worker_makes_1536_exchanges_in_as_many_turns(rt: HostRuntime) -> Result<(), Fail> {
    let mut came = [Came::Empty(AckType::Overflow); 1536];
    came[511] = Came::Empty(AckType::Ack);
    came[1023] = Came::Empty(AckType::Ack);
    came[1535] = Came::Empty(AckType::Ack);
    let line = tape_of(rt.alloc(), &came)?;
    let over = play_port(&rt, rt.alloc(), PortSetup::new(3, 5000), line, MOVES)?;
    assert_eq!(rt; (over.recorded, over.calls), (1536, 6));
    Ok(())
}
