//! Clients of a port and its worker in threads of their own.
ghost use Rattle.std.specs.Prelude.{◌≡◌};

use crate::failed::Failed;
use crate::player::TRIES;
use crate::port::{Gone, PortOver, PortSetup, over_of, port_of, stop_of};
use rdm_client::WorkerEnd;
use rdm_line::Line;
use rdm_locked::{Blank, CallShare, Exchange, Ledger, Left, LockedClient, Port};
use std::alloc::Global;
use std::marker::Brand;
use std::sync::Wait;
use std::thread;
use std::thread::{Threads, join_mut};
use test_rig::{ActResult, AskNote, Note, Stop, cancels, request, told};

type Client<'a, L> = LockedClient<'a, L, Note, AskNote>;

// A client until it has left, then its share; how many callbacks it held, and how many of its results were right.
struct Seat<'a, L: Ledger> {
    client: Option<Client<'a, L>>,
    calls: Option<CallShare<L>>,
    held: u64,
    right: u64,
}

/// Opens a port with this setup over this line. For each of these queue depths, a client runs in a thread of its own,
/// beside the worker. Each client submits this many requests, with tags from 0 on, and collects their outcomes. Returns
/// why the worker stopped, how many outcomes came in order with the data 1 and 2, and what is left.
///
/// With `turns`, the worker makes as many, and sleeps while it has nothing to send, as the clients do while no outcome
/// comes. The port is paused while each second request is submitted. Without it, they look again and again.
#[inline(never)]
pub fn serve_port<X: Line + Send + Drop, R: Threads + Wait + Sync>(
    rt: &R,
    alloc: Global,
    setup: PortSetup,
    places: &[u8],
    requests: u64,
    turns: Option<u64>,
    line: X,
) -> Result<(Stop, u64, PortOver), Failed> {
    serves::<Brand, X, R>(
        rt,
        alloc,
        Blank::new(17),
        setup,
        places,
        requests,
        turns,
        line,
    )
}

fn serves<L: Ledger + Send + Sync, X: Line + Send + Drop, R: Threads + Wait + Sync>(
    rt: &R,
    alloc: Global,
    blank: Blank,
    setup: PortSetup,
    places: &[u8],
    requests: u64,
    turns: Option<u64>,
    line: X,
) -> Result<(Stop, u64, PortOver), Failed>
    requires name { (blank.name ≡ L.name) × (blank.lists ≡ L.lists) }
    requires parts { (blank.parts ≡ L.parts) × (L.parts ≡ 17) }
{
    let port = port_of::<L>(alloc, blank, setup)?;
    let (stop, right, gone) = serve_clients(rt, alloc, &port, places, requests, turns, line);
    Ok((stop, right, over_of(alloc, port, gone)?))
}

/// The same on this port, which isn't ended.
pub fn serve_clients<L: Ledger + Send + Sync, X: Line + Send + Drop, R: Threads + Wait + Sync>(
    rt: &R,
    alloc: Global,
    port: &Port<L>,
    places: &[u8],
    requests: u64,
    turns: Option<u64>,
    line: X,
) -> (Stop, u64, Gone<L>) {
    let mut line = line;
    let mut record = Vec::new(alloc);
    let mut seats = seats_of(rt, alloc, port, places);
    let all = seats.as_mut_slice();
    let (end, _) = join_mut(
        rt,
        &mut || works(rt, alloc, port, &mut line, turns, &mut record),
        &mut || all_sit(rt, alloc, port, requests, turns.is_some(), all),
    );
    let (right, shares, held) = stood_up(rt, alloc, seats);
    let gone = Gone {
        record,
        shares,
        held,
    };
    (stop_of(end), right, gone)
}

// The worker, which sleeps if its turns are counted.
fn works<L: Ledger, X: Line, R: Wait>(
    rt: &R,
    alloc: Global,
    port: &Port<L>,
    line: &mut X,
    turns: Option<u64>,
    record: &mut Vec<Exchange>,
) -> WorkerEnd {
    match turns {
        Some(turns) => port.work_or_sleep(rt, alloc, line, turns, record),
        None => port.work(rt, alloc, line, TRIES, record),
    }
}

fn seats_of<'a, L: Ledger, R: Wait>(
    rt: &R,
    alloc: Global,
    port: &'a Port<L>,
    places: &[u8],
) -> Vec<Seat<'a, L>> {
    let mut seats = Vec::new(alloc);
    for places in places {
        if seats.reserve(1).is_ok() {
            seats.push_reserved(Seat {
                client: port.client(rt, alloc, *places).ok(),
                calls: None,
                held: 0,
                right: 0,
            });
        }
    }
    seats
}

// Each client in a thread of its own.
fn all_sit<L: Ledger + Send + Sync, R: Threads + Wait + Sync>(
    rt: &R,
    alloc: Global,
    port: &Port<L>,
    requests: u64,
    sleeps: bool,
    seats: &mut [Seat<'_, L>],
) {
    thread::for_each_mut(
        rt,
        seats,
        2,
        &|_, seat| sits(rt, alloc, port, requests, sleeps, seat),
    );
}

// Takes the client out of the seat, and lets it ask and leave.
fn sits<L: Ledger + Send + Sync, R: Wait>(
    rt: &R,
    alloc: Global,
    port: &Port<L>,
    requests: u64,
    sleeps: bool,
    seat: &mut Seat<'_, L>,
) {
    let Some(mut client) = seat.client.take() else {
        return;
    };
    seat.right = if sleeps {
        asks_asleep(rt, port, &mut client, requests)
    } else {
        asks(rt, &mut client, requests)
    };
    let Left { unspent, calls } = client.leave(rt);
    seat.held = cancels(alloc, unspent);
    seat.calls = Some(calls);
}

// Submits requests and collects their outcomes, each with its own callback in order. Returns how many were right.
fn asks<L: Ledger, R: Wait>(rt: &R, client: &mut Client<'_, L>, requests: u64) -> u64 {
    let mut submitted = 0u64;
    let mut right = 0u64;
    for _try in 0..TRIES {
        if submitted < requests && submits(rt, client, submitted) {
            submitted = submitted.saturating_add(1);
        }
        let heard = told(&client.collect(rt));
        if heard == ActResult::Answered(right, 1, 2) {
            right = right.saturating_add(1);
        } else if heard != ActResult::Nothing {
            break;
        } else {
            thread::yield_now();
        }
        if right == requests {
            break;
        }
    }
    right
}

// Submits requests one by one, and sleeps until the outcome of each comes. The port is paused while each second one is
// submitted. Returns how many were right.
fn asks_asleep<L: Ledger, R: Wait>(
    rt: &R,
    port: &Port<L>,
    client: &mut Client<'_, L>,
    requests: u64,
) -> u64 {
    let mut right = 0u64;
    for tag in 0..requests {
        let pauses = tag % 2 == 1;
        if pauses && port.pause(rt).is_err() || !submits(rt, client, tag) {
            break;
        }
        if pauses && port.resume(rt).is_err() {
            break;
        }
        if next_asleep(rt, client) == ActResult::Answered(tag, 1, 2) {
            right = right.saturating_add(1);
        }
    }
    right
}

// The next outcome. It comes at the first try, unless the worker hasn't begun yet.
fn next_asleep<L: Ledger, R: Wait>(rt: &R, client: &mut Client<'_, L>) -> ActResult {
    for _try in 0..TRIES {
        client.wait_for_outcome(rt);
        let heard = told(&client.collect(rt));
        if heard != ActResult::Nothing {
            return heard;
        }
        thread::yield_now();
    }
    ActResult::Nothing
}

// Submits the request with this tag. Returns whether it was accepted.
fn submits<L: Ledger, R: Wait>(rt: &R, client: &mut Client<'_, L>, tag: u64) -> bool {
    client.submit(rt, request(tag), Note(tag)).is_ok()
}

// How many results were right, the clients' shares, and how many callbacks they held.
fn stood_up<L: Ledger, R: Wait>(
    rt: &R,
    alloc: Global,
    seats: Vec<Seat<'_, L>>,
) -> (u64, Vec<CallShare<L>>, u64) {
    let mut seats = seats;
    let mut shares = Vec::new(alloc);
    let (mut right, mut held) = (0u64, 0u64);
    while let Some(seat) = seats.pop() {
        right = right.saturating_add(seat.right);
        held = held.saturating_add(seat.held);
        if let Some(calls) = left(rt, alloc, seat) {
            let _ = shares.push(calls);
        }
    }
    seats.destroy_empty();
    (right, shares, held)
}

// The share of the seat's client. A client whose thread never ran leaves now, and its share is lost.
fn left<L: Ledger, R: Wait>(rt: &R, alloc: Global, seat: Seat<'_, L>) -> Option<CallShare<L>> {
    let Seat {
        client,
        calls,
        held: _,
        right: _,
    } = seat;
    if let Some(client) = client {
        let Left { unspent, calls: _ } = client.leave(rt);
        cancels(alloc, unspent);
    }
    calls
}
