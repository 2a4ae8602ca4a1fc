//! What a port refuses, and in which order.
use crate::tests::*;
use rdm_log::{AskFault, JoinFault, SubmitFault};

// The capacity, how many entries are free, the moves, and how many calls are counted and callbacks are held at the end.
type Row = (u8, usize, &'static [Move], (u64, u64));

const MANY: ActResult = Refused(Refusal::Join(JoinFault::TooManyClients));

// Such rows.
macro_rules! ports {
    ($($places:literal, $free:literal, { $($moves:tt)* }, $counts:expr;)*) => {
        [$(($places, $free, moves! { $($moves)* }, $counts)),*]
    };
}

static ROWS: [Row; 3] = ports! {
    // Sixteen clients may join, and none after a close. If several faults apply, the order is Closed, TooManyClients,
    // NoPlaces.
    1, 1000, {
        Join(0) => Number(0), Join(0) => Number(1), Join(0) => Number(2), Join(0) => Number(3),
        Join(0) => Number(4), Join(0) => Number(5), Join(0) => Number(6), Join(0) => Number(7),
        Join(0) => Number(8), Join(0) => Number(9), Join(0) => Number(10), Join(0) => Number(11),
        Join(0) => Number(12), Join(0) => Number(13), Join(0) => Number(14), Join(0) => Number(15),
        Join(0) => MANY, Join(2) => MANY, Close => Done, Join(2) => Refused(Refusal::Join(JoinFault::Closed)),
    }, (0, 0);
    // The desk's Full comes before all other faults and isn't counted. After a close a call is refused and counted. The
    // calls counted are a submit, four discovers, a collect, and the submit after the close.
    1, 1000, {
        Join(1) => Number(0), Join(1) => Refused(Refusal::Join(JoinFault::NoPlaces)), 0 Submit(1) => Number(0),
        0 Full(0) => Number(0), 0 Full(1) => Number(1), 0 Full(2) => Number(2), 0 Full(3) => Number(3), Close => Done,
        0 Submit(5) => Refused(Refusal::Submit(SubmitFault::Full, 5)),
        0 Full(6) => Refused(Refusal::Ask(AskFault::Full, 6)), 0 Collect => Request(1, FailedToSend),
        0 Submit(7) => Refused(Refusal::Submit(SubmitFault::Closed, 7)),
    }, (7, 4);
    // Four discoveries fill the log and the client's desk. The desk's fault comes first; calls without a desk get the
    // log's.
    1, 15, {
        Join(0) => Number(0), 0 Full(0) => Number(0), 0 Full(1) => Number(1), 0 Full(2) => Number(2),
        0 Full(3) => Number(3), 0 Submit(4) => Refused(Refusal::Submit(SubmitFault::Full, 4)),
        0 Full(5) => Refused(Refusal::Ask(AskFault::Full, 5)), Join(1) => Refused(Refusal::Join(JoinFault::LogFull)),
        Pause => Refused(Refusal::LogFull), Resume => Refused(Refusal::LogFull),
    }, (4, 4);
};

#[test]
fn refusals_come_in_their_order(rt: HostRuntime) -> Result<(), Fail> {
    for (places, free, moves, wanted) in &ROWS {
        let line = silent(rt.alloc(), 0)?;
        let over = play_port(&rt, rt.alloc(), PortSetup::new(*places, *free), line, moves)?;
        assert_eq!(rt; (over.calls, over.held), *wanted);
        assert_eq!(rt; over.recorded, 0);
    }
    Ok(())
}
