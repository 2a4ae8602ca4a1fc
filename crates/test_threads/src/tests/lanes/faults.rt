//! The texts of the faults.
use rdm_lanes::{OpenFault, RingFault, RingFull};
use std::alloc::Global;
use std::fmt::Display;
use std::process::Abort;
use std::test::Fail;

// The fault has this text.
fn says<F: Display>(rt: &impl Abort, alloc: Global, fault: &F, text: &str) -> Result<(), Fail> {
    let said = format!(in alloc; "{fault}")?;
    assert_eq!(rt; said.as_str(), text);
    Ok(())
}

#[test]
fn faults_say_what_is_wrong(rt: HostRuntime) -> Result<(), Fail> {
    let open = [
        (
            OpenFault::TooManyClients,
            "there are more than sixteen clients",
        ),
        (OpenFault::NoPlaces, "there are too few places"),
        (OpenFault::NoMemory, "out of memory"),
        (OpenFault::LogFull, "the log is full"),
    ];
    for (fault, text) in open {
        says(&rt, rt.alloc(), &fault, text)?;
    }
    let ring = [
        (
            RingFault::Full,
            "the client has as many calls outstanding as it may have",
        ),
        (RingFault::RingFull, "the ring of calls is full"),
        (RingFault::Left, "the client has left"),
    ];
    for (fault, text) in ring {
        says(&rt, rt.alloc(), &fault, text)?;
    }
    says(&rt, rt.alloc(), &RingFull, "the ring of calls is full")
}
