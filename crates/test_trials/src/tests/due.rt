//! A pause, a request, two discoveries and a resume; one run answers both discoveries in ten exchanges, and then the
//! request is sent. Here is what becomes of them if a close comes in between.
use crate::tests::*;

/// How many exchanges there are without a close: ten of the run, and one of the request.
pub const EXCHANGES: usize = 11;

/// The outcomes of a client's request and its discoveries, in the order in which it gets them. Their tags or numbers
/// are 0 and 1. This many exchanges were made before the close, and this many of the three calls were accepted.
///
/// Before the first exchange the request comes first, since no run has begun. Later the run comes first. It is aborted
/// unless all its ten exchanges were made. By the fifth it has found the device.
pub fn due(exchanges: usize, accepted: usize) -> [ActResult; 3] {
    let mut due = [Nothing; 3];
    for (due, heard) in due.iter_mut().zip(&all_due(exchanges)[..accepted.min(3)]) {
        *due = *heard;
    }
    due
}

fn all_due(exchanges: usize) -> [ActResult; 3] {
    if exchanges == 0 {
        [
            Request(0, FailedToSend),
            Discovery(0, 0, Aborted, Nobody),
            Discovery(1, 0, Aborted, Nobody),
        ]
    } else {
        [
            discovery(0, exchanges),
            discovery(1, exchanges),
            request(exchanges),
        ]
    }
}

// The outcome of the discovery with this tag.
fn discovery(tag: u64, exchanges: usize) -> ActResult {
    if exchanges < 5 {
        Discovery(tag, 1, Aborted, Nobody)
    } else if exchanges < 10 {
        Discovery(tag, 1, Aborted, First)
    } else {
        Discovery(tag, 1, Faultless, First)
    }
}

fn request(exchanges: usize) -> ActResult {
    if exchanges < EXCHANGES {
        Request(0, FailedToSend)
    } else {
        Answered(0, 1, 2)
    }
}

/// The run whose devices are seen after this many exchanges, and which they are.
pub fn seen(exchanges: usize) -> (u64, Found) {
    if exchanges < 10 {
        (0, Nobody)
    } else {
        (1, First)
    }
}

/// The same, as what a client sees.
pub fn sees(exchanges: usize) -> ActResult {
    let (run, found) = seen(exchanges);
    Sees(run, found)
}

/// How many of the three calls were accepted before a close at this position, if they are at the positions 1, 2 and 3.
pub fn accepted_before(index: usize) -> usize {
    index.max(1).saturating_sub(1).min(3)
}

/// The result of the call at this position, 1, 2 or 3.
pub fn call(index: usize, is_closed: bool) -> ActResult {
    match index {
        1 if is_closed => Refused(Refusal::Submit(SubmitFault::Closed, 0)),
        2 if is_closed => Refused(Refusal::Ask(AskFault::Closed, 0)),
        _ if is_closed => Refused(Refusal::Ask(AskFault::Closed, 1)),
        3 => Number(1),
        _ => Number(0),
    }
}
