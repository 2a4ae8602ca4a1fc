//! A close beside a client with ring buffers, in threads of their own, a hundred times each.
use crate::tests::*;
use test_stage::{LanesOver, serve_beside};

const TIMES: u64 = 100;

// At this point the operator is asked to close.
const CLOSE: u8 = 0;

// At this one the close is sent.
const CLOSED: u8 = 1;

// At this one the worker may begin.
const BEGIN: u8 = 2;

// Lets a client with queue depth two and rings of two slots run its script beside a close. It has to send and collect
// this many calls, and leave.
fn plays<R: Threads + Wait + Sync>(
    rt: &R,
    alloc: Global,
    player: &mut Player,
    calls: u64,
) -> Result<LanesOver, Fail> {
    let line = one_device(alloc, &[])?;
    let (stop, over) = serve_beside(rt, alloc, Setup::new(1000, 2, &[2]), line, player)?;
    counts_are(&over.left, &[(calls, calls, 0)])?;
    let is_over = over.state.is_closed && over.state.is_idle && stop == AllLeft;
    if is_over {
        Ok(over)
    } else {
        Err("another end")?
    }
}

// A client that submits before a close, and again once it has that outcome. The worker begins once the close is sent.
static CALLER: Part<'static> = part! {
    Submit(1) => Done, Arrive(CLOSE), Wait(CLOSED) => Done, Arrive(BEGIN), Hear => Request(1, FailedToSend),
    Submit(2) => Done, Hear => Request(2, FailedToSend), Leave => Done,
};

// The worker takes the submit and then the close; the second submit comes later.
static CALLER_LOG: &[Said] = entries! {
    Join(0, 2), Accept(0, 0), Close, Finish(0, FailedToSend, 0), Collect(0), Refuse(Some(0), 1),
};

#[test]
fn a_client_submits_before_a_close_and_after_it(rt: HostRuntime) -> Result<(), Fail> {
    for _session in 0..TIMES {
        let mut player = Player::new(CALLER.0);
        let over = plays(&rt, rt.alloc(), &mut player, 2)?;
        player_heard(&player, 0, CALLER.1)?;
        says(&over.log, CALLER_LOG)?;
    }
    Ok(())
}

// A client that makes a request and asks for a discovery, and collects both outcomes, in each of four rounds. It asks
// for the close after two of them, and the close is sent before the last one.
static ASKER: Part<'static> = part! {
    Arrive(BEGIN), Submit(0) => Done, Full(0) => Done,
    Hear => Answered(0, 1, 2), Hear => Discovery(0, 1, Faultless, First),
    Submit(1) => Done, Full(1) => Done, Hear => Answered(1, 1, 2), Hear => Discovery(1, 2, Faultless, First),
    Arrive(CLOSE), Submit(2) => Done, Full(2) => Done, Hear, Hear,
    Wait(CLOSED) => Done, Submit(3) => Done, Full(3) => Done,
    Hear => Request(3, FailedToSend), Hear => Discovery(3, 0, Aborted, Nobody), Leave => Done,
};

// What the client gets, if these are the outcomes of the third round.
fn asker_heard(request: ActResult, discovery: ActResult) -> [ActResult; 18] {
    let mut heard = [Nothing; 18];
    let (before, after) = ASKER.1.split_at(10);
    heard[..10].copy_from_slice(before);
    (heard[10], heard[11]) = (request, discovery);
    heard[12..].copy_from_slice(after);
    heard
}

// Whether each call of the third round got one outcome, in order. If the close ended the request, it ended the
// discovery too.
fn is_cut(request: ActResult, discovery: ActResult) -> bool {
    match (request, discovery) {
        (Answered(2, 1, 2), Discovery(2, _, ending, _)) => {
            ending == Faultless || ending == Aborted
        }
        (Request(2, FailedToSend), Discovery(2, _, Aborted, _)) => true,
        _ => false,
    }
}

// Two rounds come before the client asks for the close, and one after it is sent. Whenever it comes, each call gets one
// outcome, in order, and no frame is sent after it.
#[test]
fn a_close_comes_while_a_client_calls_over_rings(rt: HostRuntime) -> Result<(), Fail> {
    for _session in 0..TIMES {
        let mut player = Player::new(ASKER.0);
        let over = plays(&rt, rt.alloc(), &mut player, 8)?;
        let (request, discovery) = (player.heard[10], player.heard[11]);
        player_heard(&player, 0, &asker_heard(request, discovery))?;
        assert!(rt; is_cut(request, discovery));
        let counts = over.state.counts;
        assert_eq!(rt; (counts.calls, counts.ended), (8, counts.accepted));
        assert_eq!(rt; counts.collected, counts.accepted);
        assert!(rt; counts.frames.0 >= 22 && counts.frames.1 == 0);
    }
    Ok(())
}
