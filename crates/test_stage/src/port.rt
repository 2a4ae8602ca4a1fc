//! A session with a mutex, with its clients and its worker in one thread.
ghost use Rattle.std.specs.Prelude.{◌≡◌, [], IfErr};

use crate::failed::Failed;
use crate::port_line::{ClosingLine, PortNote};
use rdm_agent::Kind;
use rdm_client::WorkerEnd;
use rdm_line::Line;
use rdm_locked::{
    Blank, CallShare, Exchange, FinishFault, Ledger, Left, LockedClient, Port, SessionEnd,
};
use rdm_log::Log;
use rdm_wire::NoMemory;
use std::alloc::Global;
use std::marker::Brand;
use std::sync::Wait;
use test_rig::{
    Act, ActResult, Driver, MakesActs, Move, Mover, Refusal, Said, State, Step, Stop, Wrong,
    cancels, config, found_in, is_blank, log, log_of, request, state_of, switched, told,
};

/// The setup of a port.
#[derive(Clone, Copy)]
pub struct PortSetup {
    /// The capacity for all clients together.
    pub places: u8,
    /// How many free entries the log has.
    pub free: usize,
    /// Whether each callback pauses the port.
    pub pauses: bool,
    /// The exchange during which the port is closed, from 0.
    pub closes_at: Option<u64>,
}

impl PortSetup {
    /// A port with this capacity and this many free entries, whose callbacks and exchanges don't call it.
    pub fn new(places: u8, free: usize) -> PortSetup {
        PortSetup {
            places,
            free,
            pauses: false,
            closes_at: None,
        }
    }
}

/// What is left of a port after its clients have left and it was ended.
#[derive(Drop)]
pub struct PortOver {
    /// How many calls of clients were counted.
    pub calls: u64,
    /// How many callbacks the clients still had.
    pub held: u64,
    /// How many exchanges the worker recorded.
    pub recorded: usize,
    /// The session's state.
    pub state: State,
    /// What its log says.
    pub log: Vec<Said>,
}

type Client<'a, L, R> = LockedClient<'a, L, PortNote<'a, L, R>, PortNote<'a, L, R>>;

/// A port with its clients, its worker and its line.
pub struct PortStage<'a, L: Ledger, R, X: Drop> {
    rt: &'a R,
    port: &'a Port<L>,
    pauses: bool,
    clients: Vec<Client<'a, L, R>>,
    line: ClosingLine<'a, L, R, X>,
    record: Vec<Exchange>,
    shares: Vec<CallShare<L>>,
    held: u64,
}

impl<'a, L: Ledger, R: Wait, X: Line + Drop> PortStage<'a, L, R, X> {
    // A port without clients.
    fn new(
        rt: &'a R,
        alloc: Global,
        port: &'a Port<L>,
        setup: PortSetup,
        line: X,
    ) -> PortStage<'a, L, R, X> {
        PortStage {
            rt,
            port,
            pauses: setup.pauses,
            clients: Vec::new(alloc),
            line: ClosingLine {
                rt,
                port,
                line,
                made: 0,
                closes_at: setup.closes_at,
            },
            record: Vec::new(alloc),
            shares: Vec::new(alloc),
            held: 0,
        }
    }

    fn note(&self, tag: u64) -> PortNote<'a, L, R> {
        PortNote {
            rt: self.rt,
            port: self.port,
            pauses: self.pauses,
            tag,
        }
    }

    // A client joins, after the others.
    fn join(&mut self, alloc: Global, places: u8) -> ActResult {
        if self.clients.reserve(1).is_err() {
            return ActResult::Nothing;
        }
        match self.port.client(self.rt, alloc, places) {
            Ok(client) => {
                let number = self.clients.len() as u64;
                self.clients.push_reserved(client);
                ActResult::Number(number)
            }
            Err(fault) => ActResult::Refused(Refusal::Join(fault)),
        }
    }

    fn client(&mut self, alloc: Global, at: u8, step: Step) -> ActResult {
        match step {
            Step::Submit(tag) => self.submit(at, tag),
            Step::Discover(kind, tag) => self.discover(at, kind, tag),
            Step::Collect => self.collect(at),
            Step::Look | Step::Know => self.look(at),
            Step::Leave => self.leave(alloc, at),
        }
    }

    fn submit(&mut self, at: u8, tag: u64) -> ActResult {
        let note = self.note(tag);
        match self.clients.get_mut(usize::from(at)) {
            Some(client) => submits(self.rt, client, note),
            None => ActResult::Nothing,
        }
    }

    fn discover(&mut self, at: u8, kind: Kind, tag: u64) -> ActResult {
        let note = self.note(tag);
        match self.clients.get_mut(usize::from(at)) {
            Some(client) => discovers(self.rt, client, kind, note),
            None => ActResult::Nothing,
        }
    }

    fn collect(&mut self, at: u8) -> ActResult {
        match self.clients.get_mut(usize::from(at)) {
            Some(client) => told(&client.collect(self.rt)),
            None => ActResult::Nothing,
        }
    }

    #[inline(never)]
    fn look(&mut self, at: u8) -> ActResult {
        match self.clients.get_mut(usize::from(at)) {
            Some(client) => {
                let view = client.devices(self.rt);
                ActResult::Sees(view.run, found_in(&view.set))
            }
            None => ActResult::Nothing,
        }
    }

    // This client leaves. The numbers of later clients decrease by one.
    fn leave(&mut self, alloc: Global, at: u8) -> ActResult {
        if usize::from(at) >= self.clients.len() || self.shares.reserve(1).is_err() {
            return ActResult::Nothing;
        }
        let Left { unspent, calls } = self.clients.remove(usize::from(at)).leave(self.rt);
        self.shares.push_reserved(calls);
        self.held = self.held.saturating_add(cancels(alloc, unspent));
        ActResult::Done
    }

    fn work(&mut self, alloc: Global, turns: u64) -> ActResult {
        let end = self
            .port
            .work(self.rt, alloc, &mut self.line, turns, &mut self.record);
        ActResult::Worked(stop_of(end))
    }

    // All clients leave.
    fn leaves(self, alloc: Global) -> Gone<L> {
        let PortStage {
            rt,
            port: _,
            pauses: _,
            mut clients,
            line: _,
            record,
            mut shares,
            mut held,
        } = self;
        // There is memory for all shares, unless two allocations fail.
        if shares.reserve(clients.len()).is_err() {
            let _ = shares.reserve(clients.len());
        }
        while let Some(client) = clients.pop() {
            let Left { unspent, calls } = client.leave(rt);
            held = held.saturating_add(cancels(alloc, unspent));
            let _ = shares.push(calls);
        }
        clients.destroy_empty();
        Gone {
            record,
            shares,
            held,
        }
    }
}

impl<L: Ledger, R: Wait, X: Line + Drop> MakesActs for PortStage<'_, L, R, X> {
    fn act(&mut self, alloc: Global, act: Act) -> ActResult {
        match act {
            Act::Join(places) => self.join(alloc, places),
            Act::Client(at, step) => self.client(alloc, at, step),
            Act::Pause => switched(self.port.pause(self.rt)),
            Act::Resume => switched(self.port.resume(self.rt)),
            Act::Close => {
                self.port.close(self.rt);
                ActResult::Done
            }
            Act::Work(turns) => self.work(alloc, turns),
            Act::Retire | Act::Take | Act::Deliver => ActResult::Nothing,
        }
    }
}

/// What is left once all clients have left: what the worker recorded, the clients' shares, and how many callbacks they
/// still had.
#[derive(Drop)]
pub struct Gone<L: Ledger> {
    pub record: Vec<Exchange>,
    pub shares: Vec<CallShare<L>>,
    pub held: u64,
}

/// Why the worker stopped.
pub(crate) fn stop_of(end: WorkerEnd) -> Stop {
    match end {
        WorkerEnd::Turns => Stop::Turns,
        WorkerEnd::AllLeft => Stop::AllLeft,
        WorkerEnd::LogFull => Stop::LogFull,
    }
}

// This client submits the request with the callback's tag.
fn submits<'a, L: Ledger, R: Wait>(
    rt: &R,
    client: &mut Client<'a, L, R>,
    note: PortNote<'a, L, R>,
) -> ActResult {
    let tag = note.tag;
    match client.submit(rt, request(tag), note) {
        Ok(number) => ActResult::Number(number),
        Err((fault, back, note)) if back == request(tag) => {
            ActResult::Refused(Refusal::Submit(fault, note.tag))
        }
        Err(_) => ActResult::Mixed,
    }
}

// This client asks for a discovery.
fn discovers<'a, L: Ledger, R: Wait>(
    rt: &R,
    client: &mut Client<'a, L, R>,
    kind: Kind,
    note: PortNote<'a, L, R>,
) -> ActResult {
    match client.discover(rt, kind, note) {
        Ok(number) => ActResult::Number(number),
        Err((fault, note)) => ActResult::Refused(Refusal::Ask(fault, note.tag)),
    }
}

/// Opens a port with this setup over this line, and makes these moves on it. Then all clients leave, and the port is
/// ended. First it has to refuse an end without the clients' shares, and an end with an empty record if exchanges were
/// made.
pub fn play_port<X: Line + Drop, R: Wait>(
    rt: &R,
    alloc: Global,
    setup: PortSetup,
    line: X,
    moves: &[Move],
) -> Result<PortOver, Failed> {
    let mut mover = Mover::new(moves);
    let over = drive_port(rt, alloc, setup, line, &mut mover);
    mover.made?;
    over
}

/// The same with this driver instead of moves.
pub fn drive_port<X: Line + Drop, R: Wait, D: Driver>(
    rt: &R,
    alloc: Global,
    setup: PortSetup,
    line: X,
    driver: &mut D,
) -> Result<PortOver, Failed> {
    driven::<Brand, X, R, D>(rt, alloc, Blank::new(17), setup, line, driver)
}

fn driven<L: Ledger, X: Line + Drop, R: Wait, D: Driver>(
    rt: &R,
    alloc: Global,
    blank: Blank,
    setup: PortSetup,
    line: X,
    driver: &mut D,
) -> Result<PortOver, Failed>
    requires name { (blank.name ≡ L.name) × (blank.lists ≡ L.lists) }
    requires parts { (blank.parts ≡ L.parts) × (L.parts ≡ 17) }
{
    let port = port_of::<L>(alloc, blank, setup)?;
    let gone = driven_on(rt, alloc, &port, setup, line, driver);
    over_of(alloc, port, gone)
}

// Lets the driver drive the port, and then lets all clients leave.
fn driven_on<L: Ledger, X: Line + Drop, R: Wait, D: Driver>(
    rt: &R,
    alloc: Global,
    port: &Port<L>,
    setup: PortSetup,
    line: X,
    driver: &mut D,
) -> Gone<L> {
    let mut stage = PortStage::new(rt, alloc, port, setup, line);
    driver.drive(alloc, &mut stage);
    stage.leaves(alloc)
}

/// Ends the port.
pub(crate) fn over_of<L: Ledger>(
    alloc: Global,
    port: Port<L>,
    gone: Gone<L>,
) -> Result<PortOver, Failed>
    requires { L.parts ≡ 17 }
{
    let recorded = gone.record.len();
    let held = gone.held;
    let SessionEnd { session, calls } = ended(alloc, port, gone)?;
    Ok(PortOver {
        calls,
        held,
        recorded,
        state: state_of(&session),
        log: log_of(alloc, &session)?,
    })
}

/// A port with this setup. If an allocation fails, the port is made with what was returned.
#[inline(never)]
pub(crate) fn port_of<L: Ledger>(
    alloc: Global,
    blank: Blank,
    setup: PortSetup,
) -> Result<Port<L>, Failed>
    requires name { (blank.name ≡ L.name) × (blank.lists ≡ L.lists) }
    requires parts { (blank.parts ≡ L.parts) × (L.parts ≡ 17) }
{
    let log = log(alloc, setup.free)?;
    match new_port(alloc, blank, setup, log) {
        Ok(port) => Ok(port),
        Err((blank, log)) if is_blank(&log) => match new_port(alloc, blank, setup, log) {
            Ok(port) => Ok(port),
            Err(_) => Err(Failed::Rig(Wrong::NotAgain)),
        },
        Err(_) => Err(Failed::Rig(Wrong::NotAgain)),
    }
}

// A port with this setup. Err: out of memory, and what was returned.
fn new_port<L: Ledger>(
    alloc: Global,
    blank: Blank,
    setup: PortSetup,
    log: Log,
) -> Result<Port<L>, (Blank, Log)>
    requires name { (blank.name ≡ L.name) × (blank.lists ≡ L.lists) }
    requires parts { (blank.parts ≡ L.parts) × (L.parts ≡ 17) }
    requires empty { log.entries ≡ [] }
    ensures blank { IfErr result (λ back. back.0 ≡ blank) }
    ensures log { IfErr result (λ back. back.1.entries ≡ []) }
{
    match Port::new(alloc, blank, config(setup.places), log) {
        Ok(port) => Ok(port),
        Err((NoMemory, blank, log)) => Err((blank, log)),
    }
}

/// Makes the moves, and then lets all clients leave.
pub(crate) fn plays_on<L: Ledger, X: Line + Drop, R: Wait>(
    rt: &R,
    alloc: Global,
    port: &Port<L>,
    setup: PortSetup,
    line: X,
    moves: &[Move],
) -> Result<Gone<L>, Failed> {
    let mut mover = Mover::new(moves);
    let gone = driven_on(rt, alloc, port, setup, line, &mut mover);
    mover.made?;
    Ok(gone)
}

// Ends the port, after it refused to end without shares and with an empty record.
#[inline(never)]
fn ended<L: Ledger>(alloc: Global, port: Port<L>, gone: Gone<L>) -> Result<SessionEnd, Failed>
    requires { L.parts ≡ 17 }
{
    let Gone { record, shares, .. } = gone;
    let none: Vec<Exchange> = Vec::new(alloc);
    let mut port = port;
    let mut shares = shares;
    if !shares.is_empty() {
        let missing = Vec::new(alloc);
        port = refused(port, missing, &record, FinishFault::SharesMissing)?.0;
    }
    if !record.is_empty() {
        (port, shares) = refused(port, shares, &none, FinishFault::ExchangesDiffer)?;
    }
    match port.finish(shares, &record) {
        Ok(end) => Ok(end),
        Err((fault, _, _)) => Err(Failed::Finish(fault)),
    }
}

/// The port refuses to end with this fault, and is returned with the shares.
#[inline(never)]
pub(crate) fn refused<L: Ledger>(
    port: Port<L>,
    shares: Vec<CallShare<L>>,
    record: &[Exchange],
    wanted: FinishFault,
) -> Result<(Port<L>, Vec<CallShare<L>>), Failed>
    requires { L.parts ≡ 17 }
{
    match port.finish(shares, record) {
        Ok(_) => Err(Failed::Finished),
        Err((fault, port, shares)) => {
            if fault == wanted {
                Ok((port, shares))
            } else {
                Err(Failed::Finish(fault))
            }
        }
    }
}
