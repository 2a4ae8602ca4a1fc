//! Clients with ring buffers in threads of their own, a hundred times each.
use crate::tests::*;
use rdm_line::SimLine;

const TIMES: u64 = 100;

// Clients with these queue depths and with rings of one slot.
fn setup(places: &[u8]) -> Setup<'_> {
    Setup::new(1000, 1, places).of_capacity(4)
}

// A client that makes two calls, the second one once its ring has a slot, collects both outcomes, and looks at the
// devices. It does all this twice, and leaves.
static ONE_CLIENT: Part<'static> = part! {
    Submit(1) => Done, Submit(2) => Done, Hear => Answered(1, 1, 2), Hear => Answered(2, 1, 2),
    Look => Sees(0, Nobody), Submit(3) => Done, Submit(4) => Done, Hear => Answered(3, 1, 2),
    Hear => Answered(4, 1, 2), Look => Sees(0, Nobody), Leave => Done,
};

// From this entry on, the log shows a request that is served before another call is taken.
fn is_served(log: &[Said], at: usize, number: u8) -> Result<(), Wrong> {
    let of = u64::from(number);
    let wanted = entries! {
        Accept(0, of), Send(Owner::Request(of), Some(number)), Came(true), Finish(of, Completed, 2), Collect(0),
    };
    says_at(log, at, wanted)
}

// A turn takes a call, makes its exchange and moves its outcome, unless the previous outcome is still on the ring. So
// the log is the same each time.
#[test]
fn a_client_tries_again_while_its_ring_is_full(rt: HostRuntime) -> Result<(), Fail> {
    for _session in 0..TIMES {
        let line = one_device(rt.alloc(), &[])?;
        let over = play_threads(&rt, rt.alloc(), setup(&[2]), &[ONE_CLIENT], line)?;
        counts_are(&over.left, &[(4, 4, 0)])?;
        says_at(&over.log, 0, entries! { Join(0, 2) })?;
        for number in 0..4u8 {
            is_served(&over.log, usize::from(number) * 5 + 1, number)?;
        }
        assert_eq!(rt; over.log.len(), 21);
        assert!(rt; over.state.is_idle && !over.state.is_closed);
    }
    Ok(())
}

// Two such clients.
static TWO_CLIENTS: [Part<'static>; 2] = [
    part! {
        Submit(10) => Done, Submit(11) => Done, Hear => Answered(10, 1, 2), Hear => Answered(11, 1, 2),
        Look => Sees(0, Nobody), Submit(12) => Done, Submit(13) => Done, Hear => Answered(12, 1, 2),
        Hear => Answered(13, 1, 2), Look => Sees(0, Nobody), Leave => Done,
    },
    part! {
        Submit(20) => Done, Submit(21) => Done, Hear => Answered(20, 1, 2), Hear => Answered(21, 1, 2),
        Look => Sees(0, Nobody), Submit(22) => Done, Submit(23) => Done, Hear => Answered(22, 1, 2),
        Hear => Answered(23, 1, 2), Look => Sees(0, Nobody), Leave => Done,
    },
];

// The order between the clients may differ. What each client gets may not, nor how many entries of each kind there are.
#[test]
fn two_clients_are_each_told_of_their_own_requests(rt: HostRuntime) -> Result<(), Fail> {
    for _session in 0..TIMES {
        let line = one_device(rt.alloc(), &[])?;
        let over = play_threads(&rt, rt.alloc(), setup(&[2, 2]), &TWO_CLIENTS, line)?;
        counts_are(&over.left, &[(4, 4, 0), (4, 4, 0)])?;
        let counts = over.state.counts;
        assert_eq!(rt; (counts.calls, counts.accepted), (8, 8));
        assert_eq!(rt; (counts.ended, counts.collected), (8, 8));
        assert_eq!(rt; (counts.entries, counts.frames), (42, (8, 0)));
        assert!(rt; over.state.is_idle && !over.state.is_closed);
    }
    Ok(())
}

// When a second device is there, beside one that stays; what a full run finds, and an incremental run after it; and how
// many frames both runs take.
type Visit = (u64, Option<u64>, Found, Found, usize);

// The second device always comes after the first one's mute. If it stays, the full run has three unmutes, a branch and
// a mute for each device, and five silences. The incremental run has three unmutes, both mutes, and five silences. If
// it leaves after its own mute, five mutes of it have no answer. If it leaves before, the full run has five mutes of
// it, and five silences in each half; the incremental run doesn't know it.
static VISITS: [Visit; 3] = [
    (5, None, FirstAndSecond, FirstAndSecond, 22),
    (5, Some(7), FirstAndSecond, First, 26),
    (5, Some(6), First, First, 30),
];

// A client that asks for a full run and then for an incremental one, and makes a request beside each.
static SEARCHER: Part<'static> = part! {
    Full(5), Submit(6), Hear, Hear, Look, Incremental(7), Submit(8), Hear, Hear, Look, Leave,
};

// What the client gets if its runs find these devices.
fn searched(found: Found, found_then: Found) -> [ActResult; 11] {
    [
        Done,
        Done,
        Discovery(5, 1, Faultless, found),
        Answered(6, 1, 2),
        Sees(1, found),
        Done,
        Done,
        Discovery(7, 2, Faultless, found_then),
        Answered(8, 1, 2),
        Sees(2, found_then),
        Done,
    ]
}

// A line with the first device, and with the second one while it is there.
fn line_with_second(alloc: Global, from: u64, until: Option<u64>) -> Result<SimLine, Wrong> {
    let second = TimedDevice {
        who: Who::Second,
        from,
        until,
    };
    let devices = [TimedDevice::stays(Who::First), second];
    let of = LineOf {
        devices: &devices,
        meeting: Meeting::Noise,
        losses: &[],
        fails: &[],
    };
    line_of(alloc, of)
}

#[test]
fn a_second_device_comes_and_leaves_over_rings(rt: HostRuntime) -> Result<(), Fail> {
    for turn in 0..100usize {
        let (from, until, found, found_then, frames) = VISITS[turn % 3];
        let line = line_with_second(rt.alloc(), from, until)?;
        let heard = searched(found, found_then);
        let part = (SEARCHER.0, heard.as_slice());
        let over = play_threads(&rt, rt.alloc(), setup(&[2]), &[part], line)?;
        counts_are(&over.left, &[(4, 4, 0)])?;
        // Each of the two requests adds a frame.
        assert_eq!(rt; over.state.counts.frames, (frames.saturating_add(2), 0));
    }
    Ok(())
}

// What a discovery found, if that is the device that stays, and none that was never there.
fn sound(heard: ActResult) -> Option<Found> {
    match heard {
        Discovery(_, _, Faultless, found @ (First | FirstAndSecond)) => Some(found),
        _ => None,
    }
}

// Both runs found the device that stays, and none that was never there.
fn is_sound(over: &PlayersOver) -> Result<(), Fail> {
    let player = over.players.first().ok_or("no player")?;
    let found = sound(player.heard[2]).ok_or("the full run")?;
    let found_then = sound(player.heard[7]).ok_or("the incremental run")?;
    player_heard(player, 0, &searched(found, found_then))?;
    Ok(())
}

// The second device comes at each of 20 exchanges, and stays for 1, 2, 4, 8 or 16 of them.
#[test]
fn runs_find_the_device_that_stays(rt: HostRuntime) -> Result<(), Fail> {
    for session in 0..100u64 {
        let from = session % 20;
        let stays_for = 1u64 << (session / 20 % 5);
        let line = line_with_second(rt.alloc(), from, Some(from.saturating_add(stays_for)))?;
        let served = serve_players(&rt, rt.alloc(), setup(&[2]), &[SEARCHER], line);
        let over = served.map_err(Failed::from)?;
        counts_are(&over.left, &[(4, 4, 0)])?;
        is_sound(&over)?;
    }
    Ok(())
}
