//! The texts of the faults.
use crate::tests::*;
use rdm_log::{JoinFault, LogFull, NotAsked, NotIdle, WorkFault};

#[test]
fn tells_why_a_join_is_refused(rt: HostRuntime) {
    use JoinFault::*;
    let rows = [
        (Closed, 1, "the queue is closed"),
        (TooManyClients, 2, "there are sixteen clients"),
        (NoPlaces, 3, "there are too few places"),
        (NoMemory, 4, "out of memory"),
        (LogFull, 5, "the log is full"),
    ];
    for (fault, number, text) in &rows {
        check_eq(&rt, fault.number(), *number);
        says(&rt, rt.alloc(), fault, text);
    }
}

#[test]
fn tells_why_work_is_refused(rt: HostRuntime) {
    use WorkFault::*;
    let rows = [
        (Closed, 1, "the queue is closed"),
        (UnknownClient, 2, "no such client"),
        (Full, 3, "the client has as much outstanding as it may"),
        (LogFull, 4, "the log is full"),
    ];
    for (fault, number, text) in &rows {
        check_eq(&rt, fault.number(), *number);
        says(&rt, rt.alloc(), fault, text);
    }
}

#[test]
fn tells_the_other_faults(rt: HostRuntime) {
    texts! { rt;
        NoMemory => "out of memory", LogFull => "the log is full", NotAsked => "no reply is awaited",
        NotIdle => "the session isn't idle",
    }
}
