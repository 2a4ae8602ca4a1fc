//! Serves the clients of a session file with a mutex.
ghost use Rattle.std.specs.Prelude.{◌≡◌, ◌⊎◌, ◌≤◌, ◌+◌, [], ⊤, None, length, IfOk};
ghost use Rattle.std.specs.List.{All};
ghost use Rattle.rdm_log.specs.log.Config.{IsConfig};
ghost use Rattle.rdm_lanes.specs.Lines.{exchange_count};

use crate::serving::calls::cancel_all;
use crate::serving::playing::{Watch, play};
use crate::serving::ticket::{AskTicket, RequestTicket};
use crate::serving::{ServeFault, Served, Start};
use rdm_files::{ClientCall, ClientFile};
use rdm_line::Line;
use rdm_locked::{Blank, CallShare, Exchange, Ledger, Left, LockedClient, Port};
use rdm_log::JoinFault;
use rdm_reports::Outcomes;
use std::alloc::Global;
use std::sync::Wait;
use std::sync::atomic::{AtomicBool, Ordering};
use std::thread;
use std::thread::{Threads, join_mut};

type Client<'a, L> = LockedClient<'a, L, RequestTicket, AskTicket>;

/// Serves the clients: each has a thread, and the worker another. At the end the log's exchanges are compared with
/// those that the worker recorded, and its calls with those that the clients counted.
/// Err: there was no memory, or the log was full before all clients had joined.
pub fn serve_locked<L: Ledger + Send + Sync, X: Line + Send + Drop, R: Threads + Wait + Sync>(
    rt: &R,
    alloc: Global,
    blank: Blank,
    start: Start,
    clients: &[ClientFile],
    mut line: X,
) -> Result<Served, ServeFault>
    requires name { (blank.name ≡ L.name) × (blank.lists ≡ L.lists) }
    requires parts { (blank.parts ≡ L.parts) × (L.parts ≡ 17) }
    requires config_is { IsConfig start.setup.config }
    requires empty { start.log.entries ≡ [] }
    ensures in_turns { IfOk result (λ s. exchange_count s.session ≤ start.turns) }
    ensures slots { IfOk result (λ s. (s.slots ≡ None) × (s.ran_out ≡ None)) }
{
    let Start { setup, log, turns } = start;
    let port = match Port::<L>::new(alloc, blank, setup, log) {
        Ok(port) => port,
        Err(_) => return Err(ServeFault::Memory),
    };
    let mut record = Vec::new(alloc);
    let ended = together(rt, alloc, &port, clients, &mut line, turns, &mut record);
    match ended {
        Ok(ended) => finish(port, ended, &record),
        Err(fault) => Err(fault),
    }
}

// Ends the port, and returns its session.
fn finish<L: Ledger>(
    port: Port<L>,
    ended: Ended<L>,
    record: &[Exchange],
) -> Result<Served, ServeFault>
    requires { L.parts ≡ 17 }
    ensures exchanges { IfOk result (λ s. exchange_count s.session ≡ length «record».now) }
    ensures slots { IfOk result (λ s. (s.slots ≡ None) × (s.ran_out ≡ None)) }
{
    let Ended { outcomes, shares } = ended;
    match port.finish(shares, record) {
        Ok(end) => Ok(Served {
            outcomes,
            session: end.session,
            slots: None,
            ran_out: None,
        }),
        // Only a defect of the program causes this: all shares are there, and the record is the worker's own.
        Err(_) => Err(ServeFault::Defect),
    }
}

// The outcomes and shares of the clients, in their order, after all have left.
#[derive(Drop)]
struct Ended<L: Ledger> {
    outcomes: Vec<Outcomes>,
    shares: Vec<CallShare<L>>,
}

// The clients and the worker, each in a thread.
fn together<L: Ledger + Send + Sync, X: Line + Send, R: Threads + Wait + Sync>(
    rt: &R,
    alloc: Global,
    port: &Port<L>,
    clients: &[ClientFile],
    line: &mut X,
    turns: u64,
    record: &mut Vec<Exchange>,
) -> Result<Ended<L>, ServeFault>
    ensures { length «record».new.items ≤ length «record».old.items + turns }
{
    let (mut callers, refused) = join_all(rt, alloc, port, clients, turns);
    if refused.is_none() {
        serve_callers(rt, alloc, port, &mut callers, line, turns, record);
    }
    let ended = end_all(rt, alloc, callers);
    match refused {
        Some(fault) => Err(fault),
        None => ended,
    }
}

// The same for clients that have joined.
fn serve_callers<L: Ledger + Send + Sync, X: Line + Send, R: Threads + Wait + Sync>(
    rt: &R,
    alloc: Global,
    port: &Port<L>,
    callers: &mut Vec<Caller<'_, '_, L>>,
    line: &mut X,
    turns: u64,
    record: &mut Vec<Exchange>,
)
    ensures { length «record».new.items ≤ length «record».old.items + turns }
{
    let stop = AtomicBool::new(false);
    let all = callers.as_mut_slice();
    join_mut(
        rt,
        &mut || work(rt, alloc, port, line, turns, record, &stop),
        &mut || call_all(rt, alloc, &stop, all),
    );
}

// The worker. It tells the clients that it has stopped.
fn work<L: Ledger, X: Line, R: Wait>(
    rt: &R,
    alloc: Global,
    port: &Port<L>,
    line: &mut X,
    turns: u64,
    record: &mut Vec<Exchange>,
    stop: &AtomicBool,
)
    ensures { length «record».new.items ≤ length «record».old.items + turns }
{
    port.work_or_sleep(rt, alloc, line, turns, record);
    stop.store(true, Ordering::SeqCst);
}

fn call_all<L: Ledger + Send + Sync, R: Threads + Wait + Sync>(
    rt: &R,
    alloc: Global,
    stop: &AtomicBool,
    callers: &mut [Caller<'_, '_, L>],
) {
    thread::for_each_mut(
        rt,
        callers,
        16,
        &|_, caller| { caller.call(rt, alloc, stop) },
    );
}

// The clients in their order, with this many turns each. If one can't join: those before it, and why.
fn join_all<'p, 'c, L: Ledger, R: Wait>(
    rt: &R,
    alloc: Global,
    port: &'p Port<L>,
    clients: &'c [ClientFile],
    turns: u64,
) -> (Vec<Caller<'p, 'c, L>>, Option<ServeFault>)
    ensures { All (λ c. c.turns ≡ turns) result.0.items }
{
    let mut callers = Vec::new(alloc);
    for client in clients {
        match port.client(rt, alloc, client.places) {
            Ok(joined) => {
                let caller = Caller::new(alloc, joined, &client.calls, turns);
                if let Err(refused) = callers.push(caller) {
                    drop(refused.value.end(rt, alloc));
                    return (callers, Some(ServeFault::Memory));
                }
            }
            Err(JoinFault::LogFull) => return (callers, Some(ServeFault::Log)),
            Err(_) => return (callers, Some(ServeFault::Memory)),
        }
    }
    (callers, None)
}

// The outcomes and shares of the clients. All leave, even if memory runs out.
fn end_all<L: Ledger, R: Wait>(
    rt: &R,
    alloc: Global,
    callers: Vec<Caller<'_, '_, L>>,
) -> Result<Ended<L>, ServeFault> {
    let mut callers = callers;
    let mut outcomes = Vec::new(alloc);
    let mut shares = Vec::new(alloc);
    let mut has_memory = true;
    while let Some(caller) = callers.pop() {
        let called = caller.end(rt, alloc);
        has_memory &= called.end != Err(ServeFault::Memory);
        has_memory &= outcomes.push(called.outcomes).is_ok();
        if let Some(share) = called.share {
            has_memory &= shares.push(share).is_ok();
        }
    }
    callers.destroy_empty();
    outcomes.reverse();
    if has_memory {
        Ok(Ended { outcomes, shares })
    } else {
        Err(ServeFault::Memory)
    }
}

// A client with its calls.
struct Caller<'p, 'c, L: Ledger> {
    // None once it has left.
    client: Option<Client<'p, L>>,
    // None until it has left.
    share: Option<CallShare<L>>,
    calls: &'c [ClientCall],
    turns: u64,
    outcomes: Outcomes,
    end: Result<(), ServeFault>,
}

// The outcomes and the share of a client.
#[derive(Drop)]
struct Called<L: Ledger> {
    outcomes: Outcomes,
    share: Option<CallShare<L>>,
    end: Result<(), ServeFault>,
}

impl<'p, 'c, L: Ledger> Caller<'p, 'c, L> {
    // A client that has made none of these calls.
    fn new(
        alloc: Global,
        client: Client<'p, L>,
        calls: &'c [ClientCall],
        turns: u64,
    ) -> Caller<'p, 'c, L>
        ensures { result.turns ≡ turns }
    {
        Caller {
            client: Some(client),
            share: None,
            calls,
            turns,
            outcomes: Outcomes::new(alloc),
            end: Err(ServeFault::Turns),
        }
    }

    // Makes the calls in its turns, and leaves. If it has left before, nothing changes.
    fn call<R: Wait>(&mut self, rt: &R, alloc: Global, stop: &AtomicBool)
        ensures in_turns { (self.new.outcomes.turns ≤ self.old.turns) ⊎ (self.new.outcomes ≡ self.old.outcomes) }
    {
        let Some(mut client) = self.client.take() else {
            return;
        };
        let watch = Asleep { rt, stop };
        let (outcomes, end) = play(rt, alloc, self.calls, &mut client, &watch, self.turns);
        self.outcomes = outcomes;
        self.end = end;
        self.share = Some(leave(rt, alloc, client));
    }

    // Its outcomes and its share. If it hasn't left yet, it leaves.
    fn end<R: Wait>(self, rt: &R, alloc: Global) -> Called<L> {
        let Caller {
            client,
            share,
            calls: _,
            turns: _,
            outcomes,
            end,
        } = self;
        let share = match client {
            Some(client) => Some(leave(rt, alloc, client)),
            None => share,
        };
        Called {
            outcomes,
            share,
            end,
        }
    }
}

// Lets a client leave, and cancels the callbacks that it held.
fn leave<L: Ledger, R: Wait>(rt: &R, alloc: Global, client: Client<'_, L>) -> CallShare<L> {
    let Left { unspent, calls } = client.leave(rt);
    cancel_all(alloc, unspent);
    calls
}

// Sleeps until the client has an outcome or the worker stops, before it looks whether that has stopped.
#[derive(Drop)]
struct Asleep<'a, R> {
    rt: &'a R,
    stop: &'a AtomicBool,
}

impl<L: Ledger, R: Wait> Watch<Client<'_, L>> for Asleep<'_, R> {
    ghost sees = { λ watch client has_stopped. ⊤ };

    fn has_stopped(&self, client: &Client<'_, L>) -> bool {
        client.wait_for_outcome(self.rt);
        self.stop.load(Ordering::SeqCst)
    }
}
