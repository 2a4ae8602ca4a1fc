//! Sessions in threads over simulated lines.
use crate::tests::*;
use rdm_line::SimLine;

// A line with both devices, whose colliding replies spell a third one.
fn lying_line(alloc: Global) -> Result<SimLine, Wrong> {
    let devices = [
        TimedDevice::stays(Who::First),
        TimedDevice::stays(Who::Second),
    ];
    let of = LineOf {
        devices: &devices,
        meeting: Meeting::Phantom,
        losses: &[],
        fails: &[],
    };
    line_of(alloc, of)
}

// A client that discovers, and then looks at the devices. One that collects nothing: it looks once at any time, and
// once after the other one has collected.
static VIEWS: [Part<'static>; 2] = [
    part! {
        Full(30) => Done, Hear => Discovery(30, 1, Faultless, FirstAndSecond), Look => BOTH, Arrive(0), Leave => Done,
    },
    part! { Look, Wait(0) => Done, Look => BOTH, Leave => Done },
];

const BOTH: ActResult = Sees(1, FirstAndSecond);

// One client discovers, and the other one looks at what it found. Returns what the other one saw at first. Each has
// read the last view.
fn views<R: Threads + Wait + Sync>(
    rt: &R,
    alloc: Global,
    line: SimLine,
) -> Result<ActResult, Fail> {
    let setup = Setup::new(1000, 4, &[1, 1]);
    let over = serve_players(rt, alloc, setup, &VIEWS, line).map_err(Failed::from)?;
    let (Some(finder), Some(viewer)) = (over.players.first(), over.players.get(1)) else {
        return Err("a player is missing")?;
    };
    let before = viewer.heard[0];
    player_heard(finder, 0, VIEWS[0].1)?;
    player_heard(viewer, 1, &[before, Done, BOTH, Done])?;
    let is_read = over.left.iter().all(|left| left.run == 1);
    if !is_read || over.published != 2 || over.state.counts.frames != (23, 0) {
        return Err(Fail::from("another view or frame"));
    }
    Ok(before)
}

#[test]
fn a_client_sees_what_another_one_found(rt: HostRuntime) -> Result<(), Fail> {
    for _session in 0..100 {
        let line = lying_line(rt.alloc())?;
        let before = views(&rt, rt.alloc(), line)?;
        assert!(rt; before == BOTH || before == Sees(0, Nobody));
    }
    Ok(())
}
