//! What discoveries find, and how they end.
use crate::device::{Who, device_of};
use rdm_agent::AgentFault;
use rdm_wire::DeviceSet;

/// Which devices a set has. Each is the whole device, with its control field and its binding UID.
#[derive(Clone, Copy, Debug, PartialEq, Eq)]
pub enum Found {
    /// None.
    Nobody,
    /// [`Who::First`].
    First,
    /// [`Who::First`] and [`Who::Second`].
    FirstAndSecond,
    /// [`Who::First`] and [`Who::Gone`].
    FirstAndGone,
    /// [`Who::Lowest`] and [`Who::NextToLowest`].
    Neighbours,
    /// Others, this many.
    Others(usize),
}

/// Which devices the set has.
pub fn found_in(set: &DeviceSet) -> Found {
    let count = set.len();
    match count {
        0 => Found::Nobody,
        1 if has(set, Who::First) => Found::First,
        2 => pair_in(set),
        _ => Found::Others(count),
    }
}

// Which two devices the set has.
fn pair_in(set: &DeviceSet) -> Found {
    if has(set, Who::First) && has(set, Who::Second) {
        return Found::FirstAndSecond;
    }
    if has(set, Who::First) && has(set, Who::Gone) {
        return Found::FirstAndGone;
    }
    if has(set, Who::Lowest) && has(set, Who::NextToLowest) {
        return Found::Neighbours;
    }
    Found::Others(2)
}

// Whether the set has this very device.
fn has(set: &DeviceSet, who: Who) -> bool {
    let device = device_of(who);
    set.get(device.uid) == Some(device)
}

/// How a discovery run ended. It has no UID, so that tables of it are plain data.
#[derive(Clone, Copy, Debug, PartialEq, Eq)]
pub enum Ending {
    /// Without fault.
    Faultless,
    /// The line failed.
    LineFailed,
    /// It was aborted.
    Aborted,
    /// It took all the frames of its budget.
    Exhausted,
    /// With another fault.
    OtherFault,
}

/// How a run with this fault ended.
pub fn ending_by(fault: Option<AgentFault>) -> Ending {
    match fault {
        None => Ending::Faultless,
        Some(AgentFault::LineFailed) => Ending::LineFailed,
        Some(AgentFault::Aborted) => Ending::Aborted,
        Some(AgentFault::Exhausted) => Ending::Exhausted,
        Some(_) => Ending::OtherFault,
    }
}
