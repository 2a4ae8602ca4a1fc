//! Lines that are made again if the allocation of their scene fails.
use crate::tests::*;

/// A line of this scene. If `SimLine::new` fails, the rig calls it again with the scene that was returned.
pub fn line(rt: &impl Abort, alloc: Global, of: LineOf) -> SimLine {
    match line_of(alloc, of) {
        Ok(line) => line,
        Err(wrong) => {
            check(rt, wrong == Wrong::NoMemory);
            line_of(alloc, of).expect(rt, "memory for a scene")
        }
    }
}

/// A line with the first device, with these losses and failures.
pub fn first_device(rt: &impl Abort, alloc: Global, losses: &[u64], fails: &[u64]) -> SimLine {
    let of = LineOf {
        devices: &[TimedDevice::stays(Who::First)],
        meeting: Meeting::Noise,
        losses,
        fails,
    };
    line(rt, alloc, of)
}
