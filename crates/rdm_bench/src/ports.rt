//! Clients of a port, which has a mutex, and clients with ring buffers.
ghost use Rattle.std.specs.Prelude.{◌≡◌, []};
ghost use Rattle.rdm_lanes.specs.Workers.{book_of};

use crate::bench::{Bench, Times, holds};
use crate::packets::Replay;
use crate::queue::replay_of;
use crate::served::{CLIENTS, FREE, Job, PLACES, Served, Timing, config, written_log};
use left_right::Absorb;
use rdm_agent::Kind;
use rdm_client::{CallFault, Client, DeviceView, WorkerEnd};
use rdm_join::{LineEvent, LineFault, LineReply};
use rdm_lanes::views::{BlankHistory, Shown, ViewHistory};
use rdm_lanes::{Lanes, RingClient, open_lanes};
use rdm_line::Line;
use rdm_locked::{Blank, CallShare, Exchange, Ledger, Left, LockedClient, Port};
use rdm_log::{Entry, Log, Page};
use rdm_wire::Frame;
use std::alloc::Global;
use std::marker::Brand;
use std::sync::Wait;
use test_rig::{ActResult, AskNote, Note, cancels, log, request, told};

/// Times requests of one client and of sixteen.
pub fn time<R: Times + Wait>(bench: &Bench<R>) -> Option<()> {
    for clients in [1, CLIENTS] {
        time_requests(bench, true, clients)?;
        time_requests(bench, false, clients)?;
    }
    Some(())
}

/// Times requests of one client or of sixteen with a mutex or with ring buffers.
pub fn time_requests<R: Times + Wait>(
    bench: &Bench<R>,
    with_mutex: bool,
    clients: u8,
) -> Option<()> {
    let work = match (with_mutex, clients) {
        (true, 1) => "port, clients, 1",
        (true, _) => "port, clients, 16",
        (false, 1) => "rings, clients, 1",
        (false, _) => "rings, clients, 16",
    };
    let line = Replay::of_two_bytes(bench.alloc)?;
    let log = written_log(bench)?;
    let record = written_record(bench.alloc, bench.repeats())?;
    let mut timing = Timing::new(work, clients, bench.size);
    on_session(
        bench,
        with_mutex,
        clients,
        log,
        Some(record),
        line,
        &mut timing,
    )
}

/// Times discoveries with a mutex or with ring buffers. The log has room for 40 of 1,024 devices.
pub fn time_discoveries<R: Times + Wait>(bench: &Bench<R>, with_mutex: bool) -> Option<()> {
    let work = if with_mutex {
        "port, Full"
    } else {
        "rings, Full"
    };
    let line = replay_of(bench.alloc, bench.size)?;
    let log = log(bench.alloc, FREE).ok()?;
    let record = Vec::with_capacity(bench.alloc, FREE / 2).ok()?;
    let mut timing = Timing::new(work, 1, 0);
    timing.discovery = Some((line.replies.len() as u64, bench.size));
    on_session(bench, with_mutex, 1, log, Some(record), line, &mut timing)
}

// A record for this many exchanges, whose memory was written before.
fn written_record(alloc: Global, count: usize) -> Option<Vec<Exchange>> {
    let mut record = Vec::with_capacity(alloc, count).ok()?;
    for _ in 0..count {
        let frame = Frame::new();
        let event = LineEvent::Failed;
        record.push(Exchange { frame, event }).ok()?;
    }
    record.clear();
    Some(record)
}

type PortClient<'a, L> = LockedClient<'a, L, Note, AskNote>;

// A line that drains the log of a port during an exchange, before it answers. Another thread may do so.
#[derive(Drop)]
struct DrainingLine<'a, L: Ledger, R, X: Drop> {
    rt: &'a R,
    port: &'a Port<L>,
    line: X,
    // The memory in which the log goes on, if it has to be drained during the next exchange.
    next: Option<Vec<Entry>>,
    // What was drained.
    page: Option<Page>,
}

impl<L: Ledger, R: Wait, X: Line + Drop> Line for DrainingLine<'_, L, R, X> {
    ghost step = { λ old x new. X.step old.line x new.line };

    ghost failures_of = { λ line. X.failures_of line.line };

    fn exchange(&mut self, frame: &Frame) -> Result<LineReply, LineFault> {
        if let Some(mut next) = self.next.take() {
            next.clear();
            match self.port.drain(self.rt, next) {
                Ok(page) => self.page = Some(page),
                Err((_, next)) => self.next = Some(next),
            }
        }
        self.line.exchange(frame)
    }

    fn failures(&self) -> u64 {
        self.line.failures()
    }
}

// A port with its clients, its worker and its line.
struct Locked<'a, L: Ledger, R, X: Drop> {
    bench: &'a Bench<'a, R>,
    port: &'a Port<L>,
    clients: Vec<PortClient<'a, L>>,
    line: DrainingLine<'a, L, R, X>,
    record: Vec<Exchange>,
    // Whether the record keeps its exchanges.
    is_recorded: bool,
}

impl<L: Ledger, R: Wait, X: Line + Drop> Served for Locked<'_, L, R, X> {
    fn submit(&mut self, client: usize, tag: u64) -> Option<bool> {
        submit(self.bench.rt, self.clients.get_mut(client)?, tag)
    }

    fn ask(&mut self, client: usize, tag: u64) -> Option<bool> {
        ask(self.bench.rt, self.clients.get_mut(client)?, tag)
    }

    fn collect_bytes(&mut self, client: usize) -> Option<usize> {
        collect_bytes(self.bench.rt, self.clients.get_mut(client)?)
    }

    fn collect(&mut self, client: usize) -> Option<ActResult> {
        Some(collect(self.bench.rt, self.clients.get_mut(client)?))
    }

    fn work(&mut self, turns: u64) -> Option<()> {
        let Locked {
            bench,
            port,
            line,
            record,
            is_recorded,
            ..
        } = self;
        let end = port.work(bench.rt, bench.alloc, line, turns, record);
        if !*is_recorded {
            record.clear();
        }
        holds(end == WorkerEnd::Turns)
    }

    fn pause(&mut self, pauses: bool) -> Option<()> {
        if pauses {
            self.port.pause(self.bench.rt).ok()
        } else {
            self.port.resume(self.bench.rt).ok()
        }
    }

    fn drain(&mut self, next: Vec<Entry>) -> Option<Page> {
        self.port.drain(self.bench.rt, next).ok()
    }

    fn work_drained(&mut self, next: Vec<Entry>) -> Option<Page> {
        self.line.next = Some(next);
        self.work(1)?;
        match self.line.next.take() {
            None => self.line.page.take(),
            Some(mut next) => {
                next.clear();
                self.drain(next)
            }
        }
    }
}

/// Opens a port, or ring buffers, for this many clients over this log and this line. Does this, and ends the clients. A
/// port gets this record, which is empty, and is finished with it. None: it is ended without a record.
pub fn on_session<X: Line + Drop, D: Job<R>, R: Wait>(
    bench: &Bench<R>,
    with_mutex: bool,
    clients: u8,
    log: Log,
    record: Option<Vec<Exchange>>,
    line: X,
    job: &mut D,
) -> Option<()>
    requires { log.entries ≡ [] }
{
    if with_mutex {
        on_port::<Brand, X, D, R>(bench, Blank::new(17), clients, log, record, line, job)
    } else {
        let history = BlankHistory::new();
        on_rings::<Brand, X, D, R, &R>(bench, bench.rt, history, clients, log, line, job)
    }
}

// The port, with the ledger of this blank. It is ended with the clients' shares, and with the record if there is one.
fn on_port<L: Ledger, X: Line + Drop, D: Job<R>, R: Wait>(
    bench: &Bench<R>,
    blank: Blank,
    count: u8,
    log: Log,
    record: Option<Vec<Exchange>>,
    line: X,
    job: &mut D,
) -> Option<()>
    requires name { (blank.name ≡ L.name) × (blank.lists ≡ L.lists) }
    requires parts { (blank.parts ≡ L.parts) × (L.parts ≡ 17) }
    requires empty { log.entries ≡ [] }
{
    let port = Port::<L>::new(bench.alloc, blank, config(), log).ok()?;
    let is_recorded = record.is_some();
    let record = record.unwrap_or(Vec::new(bench.alloc));
    let (shares, record) = perform(bench, &port, count, line, record, is_recorded, job);
    if is_recorded {
        return holds(port.finish(shares?, record.as_slice()).is_ok());
    }
    let end = port.end(shares?).ok()?;
    job.end(end.session.log())
}

// Does this with so many clients of a port. Returns their shares, if all of it was done, and the record.
fn perform<L: Ledger, X: Line + Drop, D: Job<R>, R: Wait>(
    bench: &Bench<R>,
    port: &Port<L>,
    count: u8,
    line: X,
    record: Vec<Exchange>,
    is_recorded: bool,
    job: &mut D,
) -> (Option<Vec<CallShare<L>>>, Vec<Exchange>) {
    let mut locked = Locked {
        bench,
        port,
        clients: Vec::new(bench.alloc),
        line: DrainingLine {
            rt: bench.rt,
            port,
            line,
            next: None,
            page: None,
        },
        record,
        is_recorded,
    };
    let is_done = join(bench, port, count, &mut locked.clients).is_some()
        && job.perform(bench, &mut locked).is_some();
    let Locked {
        bench: _,
        port: _,
        clients,
        line: _line,
        record,
        is_recorded: _,
    } = locked;
    (leave(bench, clients, is_done), record)
}

// Lets the clients join.
fn join<'a, L: Ledger, R: Wait>(
    bench: &Bench<R>,
    port: &'a Port<L>,
    count: u8,
    clients: &mut Vec<PortClient<'a, L>>,
) -> Option<()> {
    for _ in 0..count {
        clients.reserve(1).ok()?;
        match port.client(bench.rt, bench.alloc, PLACES) {
            Ok(client) => clients.push_reserved(client),
            Err(_) => return None,
        }
    }
    Some(())
}

// Lets the clients leave. Returns their shares, if the job is done and memory didn't run out. The callbacks of requests
// that were never told are cancelled.
fn leave<L: Ledger, R: Wait>(
    bench: &Bench<R>,
    mut clients: Vec<PortClient<'_, L>>,
    is_done: bool,
) -> Option<Vec<CallShare<L>>> {
    let mut shares = Vec::new(bench.alloc);
    let mut has_all = is_done;
    while let Some(client) = clients.pop() {
        let Left { unspent, calls } = client.leave(bench.rt);
        cancels(bench.alloc, unspent);
        has_all = shares.push(calls).is_ok() && has_all;
    }
    clients.destroy_empty();
    if has_all { Some(shares) } else { None }
}

// Clients, their operator, their worker and its line.
struct Rings<
    J: ViewHistory,
    T: Absorb<Shown<J>, State = [DeviceView; 0]> + Drop,
    W: Wait + Drop,
    X,
> {
    alloc: Global,
    lanes: Lanes<J, T, W, Note, AskNote>,
    line: X,
}

impl<J: ViewHistory, W: Wait + Drop, X: Line> Served for Rings<J, Shown<J>, W, X> {
    fn submit(&mut self, client: usize, tag: u64) -> Option<bool> {
        submit(&(), self.lanes.clients.get_mut(client)?, tag)
    }

    fn ask(&mut self, client: usize, tag: u64) -> Option<bool> {
        ask(&(), self.lanes.clients.get_mut(client)?, tag)
    }

    fn collect_bytes(&mut self, client: usize) -> Option<usize> {
        collect_bytes(&(), self.lanes.clients.get_mut(client)?)
    }

    fn collect(&mut self, client: usize) -> Option<ActResult> {
        Some(collect(&(), self.lanes.clients.get_mut(client)?))
    }

    fn work(&mut self, turns: u64) -> Option<()> {
        let Rings { alloc, lanes, line } = self;
        holds(lanes.worker.work(*alloc, line, turns) == WorkerEnd::Turns)
    }

    fn pause(&mut self, pauses: bool) -> Option<()> {
        if pauses {
            self.lanes.operator.pause().ok()
        } else {
            self.lanes.operator.resume().ok()
        }
    }

    fn drain(&mut self, next: Vec<Entry>) -> Option<Page> {
        self.lanes.worker.drain(next).ok()
    }

    // The worker can't be stopped between a frame and its reply.
    fn work_drained(&mut self, next: Vec<Entry>) -> Option<Page> {
        self.work(1)?;
        self.drain(next)
    }
}

/// A client of either port submits the request with this tag. Returns whether its queue accepted it, or is full.
pub fn submit<R, C: Client<Note, AskNote, R>>(rt: &R, client: &mut C, tag: u64) -> Option<bool>
    ensures { C.same client.old client.new }
{
    match client.submit(rt, request(tag), Note(tag)) {
        Ok(_) => Some(true),
        Err((CallFault::Full | CallFault::RingFull, _, _)) => Some(false),
        Err(_) => None,
    }
}

/// It asks for a full discovery with this tag. Returns whether its queue accepted it, or is full.
pub fn ask<R, C: Client<Note, AskNote, R>>(rt: &R, client: &mut C, tag: u64) -> Option<bool>
    ensures { C.same client.old client.new }
{
    match client.discover(rt, Kind::Full, AskNote(tag)) {
        Ok(_) => Some(true),
        Err((CallFault::Full | CallFault::RingFull, _)) => Some(false),
        Err(_) => None,
    }
}

/// What it collects.
#[inline(never)]
pub fn collect<R, C: Client<Note, AskNote, R>>(rt: &R, client: &mut C) -> ActResult
    ensures { C.same client.old client.new }
{
    told(&client.collect(rt))
}

// How many bytes of data the request's outcome has that it collects. None: there is no outcome.
fn collect_bytes<R, C: Client<Note, AskNote, R>>(rt: &R, client: &mut C) -> Option<usize> {
    Some(client.collect_request(rt)?.done.bytes.len())
}

// The ring buffers, with the history of the views that this blank begins.
fn on_rings<J: ViewHistory, X: Line + Drop, D: Job<R>, R, W: Wait + Drop>(
    bench: &Bench<R>,
    rt: W,
    history: BlankHistory,
    count: u8,
    log: Log,
    line: X,
    job: &mut D,
) -> Option<()>
    requires name { book_of history ≡ J.book }
    requires empty { log.entries ≡ [] }
{
    let alloc = bench.alloc;
    let places = &[PLACES; 16][..usize::from(count.min(16))];
    let opened = open_lanes(rt, alloc, history, config(), log, PLACES, places);
    let lanes: Lanes<J, Shown<J>, W, Note, AskNote> = opened.ok()?;
    perform_on_rings(bench, lanes, line, job)
}

// Does this with these clients, and ends them.
fn perform_on_rings<J: ViewHistory, X: Line + Drop, D: Job<R>, R, W: Wait + Drop>(
    bench: &Bench<R>,
    lanes: Lanes<J, Shown<J>, W, Note, AskNote>,
    line: X,
    job: &mut D,
) -> Option<()> {
    let alloc = bench.alloc;
    let mut rings = Rings { alloc, lanes, line };
    let done = job.perform(bench, &mut rings);
    let Rings {
        alloc: _,
        lanes,
        line: _line,
    } = rings;
    let Lanes {
        clients,
        operator: _operator,
        worker: _worker,
    } = lanes;
    end_clients(alloc, clients);
    done
}

// Ends the clients. The callbacks of requests that were never told are cancelled.
fn end_clients<J: ViewHistory>(alloc: Global, mut clients: Vec<RingClient<J, Note, AskNote>>) {
    while let Some(client) = clients.pop() {
        cancels(alloc, client.end().into_unspent());
    }
    clients.destroy_empty();
}
