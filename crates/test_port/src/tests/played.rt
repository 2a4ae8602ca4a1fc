//! How a client plays its calls: it looks for the worker's stop before it collects, and makes all its turns and no
//! more.
ghost use Rattle.std.specs.Prelude.{⊤};

use crate::tests::*;
use rdm_client::{BoxedAsk, CallFault, Client, Collected, Desk, Told};
use rdm_files::ClientCall;
use rdm_serving::{AskTicket, RequestTicket, ServeFault, Watch, play};
use rdm_wire::Request;
use std::sync::atomic::{AtomicBool, Ordering};
use test_rig::cancels;

// A client whose outcome comes just before the first look for the worker's stop, but not before this many collects.
struct Late<'a> {
    desk: Desk<RequestTicket, AskTicket>,
    collects: u64,
    has_come: &'a AtomicBool,
    // How many calls and collects it has made.
    turns: u64,
}

impl Client<RequestTicket, AskTicket, ()> for Late<'_> {
    ghost held = { λ client. client.desk };

    ghost same = { λ old new. ⊤ };

    ghost submits = { λ old request number new. ⊤ };

    ghost refuses_submit = { λ old request fault new. ⊤ };

    ghost discovers = { λ old kind number new. ⊤ };

    ghost refuses_discover = { λ old kind fault new. ⊤ };

    ghost collects = { λ old collected new. ⊤ };

    fn submit(
        &mut self,
        _rt: &(),
        request: Request,
        callback: RequestTicket,
    ) -> Result<Option<u64>, (CallFault, Request, RequestTicket)> {
        Err((CallFault::Full, request, callback))
    }

    fn discover(
        &mut self,
        _rt: &(),
        _kind: Kind,
        callback: AskTicket,
    ) -> Result<Option<u64>, (CallFault, AskTicket)> {
        self.turns = self.turns.saturating_add(1);
        match self.desk.hold_ask(callback) {
            Ok(()) => Ok(None),
            Err((_, callback)) => Err((CallFault::Full, callback)),
        }
    }

    fn collect(&mut self, _rt: &()) -> Option<Collected> {
        self.turns = self.turns.saturating_add(1);
        self.collects = self.collects.saturating_sub(1);
        if self.collects > 0 || !self.has_come.load(Ordering::SeqCst) {
            return None;
        }
        let done = BoxedAsk::new(0, None, None);
        self.desk.settle_ask(done).ok().map(Collected::Ask)
    }

    fn collect_request(&mut self, _rt: &()) -> Option<Told> {
        None
    }

    ghost stays = { λ a. tt };

    ghost follows = { λ a b c before after. tt };
}

// What that client looks at.
#[derive(Drop)]
struct Look<'a> {
    has_come: &'a AtomicBool,
    has_stopped: bool,
}

impl<C> Watch<C> for Look<'_> {
    ghost sees = { λ look client has_stopped. ⊤ };

    fn has_stopped(&self, _client: &C) -> bool {
        self.has_come.store(true, Ordering::SeqCst);
        self.has_stopped
    }
}

// Such a client plays a discovery in this many turns. Returns how it ended, how many turns it took, and how many the
// client counted. None: out of memory.
fn plays(
    alloc: Global,
    collects: u64,
    has_stopped: bool,
    turns: u64,
) -> Option<(Result<(), ServeFault>, u64, u64)> {
    let has_come = AtomicBool::new(false);
    let look = Look {
        has_come: &has_come,
        has_stopped,
    };
    let mut client = Late {
        desk: Desk::new(alloc, 0).ok()?,
        collects,
        has_come: &has_come,
        turns: 0,
    };
    let calls = &[ClientCall::Discover(Kind::Full)];
    let (outcomes, end) = play(&(), alloc, calls, &mut client, &look, turns);
    let Late {
        desk,
        collects: _,
        has_come: _,
        turns,
    } = client;
    cancels(alloc, desk.end());
    Some((end, outcomes.turns, turns))
}

// The outcome comes after the client could have collected, and before it sees the stop.
#[test]
fn a_client_looks_for_the_stop_before_it_collects(rt: HostRuntime) {
    check(&rt, plays(rt.alloc(), 0, true, 100) == Some((Ok(()), 2, 2)));
}

// A call and three collects take four turns.
#[test]
fn a_client_makes_all_its_turns_and_no_more(rt: HostRuntime) {
    check(&rt, plays(rt.alloc(), 3, false, 4) == Some((Ok(()), 4, 4)));
    let all = Some((Err(ServeFault::Turns), 3, 3));
    check(&rt, plays(rt.alloc(), 3, false, 3) == all);
}
