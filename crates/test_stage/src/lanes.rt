//! Clients with ring buffers, their operator and their worker in one thread.
ghost use Rattle.std.specs.Prelude.{◌≡◌, ◌≤◌, [], length, map, vec_capacity, IfErr};
ghost use Rattle.rdm_lanes.specs.Clients.{SameClient};
ghost use Rattle.rdm_lanes.specs.Ends.{end_rings};
ghost use Rattle.rdm_lanes.specs.Workers.{lanes_of, book_of};
ghost use Rattle.rdm_lanes.specs.Pairs.{client_rings, ClientsPair};

use crate::failed::Failed;
use crate::port::stop_of;
use crate::setup::Setup;
use left_right::Absorb;
use rdm_agent::Kind;
use rdm_client::{DeviceView, Tells, TellsAsk, Unfinished, Unspent};
use rdm_lanes::views::{BlankHistory, Shown, ViewHistory};
use rdm_lanes::{
    ClientEnd, Compared, Lanes, OpenFault, Operator, RingClient, RingFault, RingFull, ViewWorker,
    open_lanes,
};
use rdm_line::{Line, TapeLine};
use rdm_log::Log;
use std::alloc::Global;
use std::marker::Brand;
use std::sync::Wait;
use test_rig::{
    Act, ActResult, AskNote, Driver, MakesActs, Move, Mover, Note, Refusal, Said, State, Step,
    Wrong, cancels, config, found_in, is_blank, log, log_of, moved, request, state_of, told,
};

type Client<J> = RingClient<J, Note, AskNote>;

type Ended<J> = ClientEnd<J, Note, AskNote>;

/// What is left of a client: how many calls it sent, outcomes it collected and callbacks it held, the tags of the first
/// four of these, how many slots its rings have, and the run of the last published view that it read.
#[derive(Clone, Copy, Debug, PartialEq, Eq)]
pub struct Left {
    pub sent: u64,
    pub collected: u64,
    pub held: u64,
    pub tags: [u64; 4],
    pub slots: (usize, usize),
    pub run: u64,
}

impl Left {
    /// How many calls it sent, how many outcomes it collected, and how many callbacks it held.
    pub fn counts(&self) -> (u64, u64, u64) {
        (self.sent, self.collected, self.held)
    }
}

/// What is left of clients with ring buffers and of their worker after their end.
#[derive(Drop)]
pub struct LanesOver {
    /// What is left of each client, in order.
    pub left: Vec<Left>,
    /// How many views were published.
    pub published: u64,
    /// The session's state.
    pub state: State,
    /// What its log says.
    pub log: Vec<Said>,
}

/// Clients with ring buffers, their operator, their worker and its line. The clients' rings are always those of the
/// worker.
pub struct LanesStage<
    J: ViewHistory,
    T: Absorb<Shown<J>, State = [DeviceView; 0]> + Drop,
    R: Wait + Drop,
    X,
> {
    pub(crate) clients: Vec<Client<J>>,
    pub(crate) operator: Operator,
    pub(crate) worker: ViewWorker<J, T, R>,
    pub(crate) line: X,
    ghost paired: { ClientsPair (lanes_of worker) clients.items },
}

// What opening lanes returns.
type Opened<J, R> = Result<Lanes<J, Shown<J>, R, Note, AskNote>, (OpenFault, Log, BlankHistory)>;

// Why lanes weren't opened, and what was returned.
pub(crate) type NotOpened<X> = (OpenFault, Log, X);

/// Opens lanes with this setup, this log and this line.
#[inline(never)]
pub(crate) fn opened<'a, J: ViewHistory, R: Wait, X: Drop>(
    rt: &'a R,
    alloc: Global,
    history: BlankHistory,
    setup: &Setup,
    log: Log,
    line: X,
) -> Result<LanesStage<J, Shown<J>, &'a R, X>, NotOpened<X>>
    requires name { book_of history ≡ J.book }
    requires empty { log.entries ≡ [] }
    ensures { IfErr result (λ back. back.1.entries ≡ []) }
{
    let (set, ring) = (config(setup.greatest), setup.ring.max(1));
    let opened: Opened<J, &'a R> = open_lanes(rt, alloc, history, set, log, ring, setup.places);
    match opened {
        Ok(
            Lanes {
                clients,
                operator,
                worker,
            },
        ) => Ok(LanesStage {
            clients,
            operator,
            worker,
            line,
        }),
        Err((fault, log, _)) => Err((fault, log, line)),
    }
}

/// Makes a client's step.
#[inline(never)]
pub(crate) fn makes<J: ViewHistory>(client: &mut Client<J>, step: Step) -> ActResult
    ensures { SameClient client.old client.new }
{
    match step {
        Step::Submit(tag) => submits(client, tag),
        Step::Discover(kind, tag) => discovers(client, kind, tag),
        Step::Collect => collects(client),
        Step::Look => looks(client),
        Step::Know => knows(client),
        Step::Leave => sent(client.leave()),
    }
}

fn submits<J: ViewHistory>(client: &mut Client<J>, tag: u64) -> ActResult
    ensures { SameClient client.old client.new }
{
    match client.submit(request(tag), Note(tag)) {
        Ok(()) => ActResult::Done,
        Err((fault, back, note)) if back == request(tag) => ActResult::Refused(refused(
            fault, note.0,
        )),
        Err(_) => ActResult::Mixed,
    }
}

fn discovers<J: ViewHistory>(client: &mut Client<J>, kind: Kind, tag: u64) -> ActResult
    ensures { SameClient client.old client.new }
{
    match client.discover(kind, AskNote(tag)) {
        Ok(()) => ActResult::Done,
        Err((fault, note)) => ActResult::Refused(refused(fault, note.0)),
    }
}

// Why a call with this tag was refused.
fn refused(fault: RingFault, tag: u64) -> Refusal {
    match fault {
        RingFault::Full => Refusal::Full(tag),
        RingFault::RingFull => Refusal::RingFull(tag),
        RingFault::Left => Refusal::HasLeft(tag),
    }
}

#[inline(never)]
fn collects<J: ViewHistory>(client: &mut Client<J>) -> ActResult
    ensures { SameClient client.old client.new }
{
    told(&client.collect())
}

fn looks<J: ViewHistory>(client: &mut Client<J>) -> ActResult
    ensures { SameClient client.old client.new }
{
    let view = client.devices();
    ActResult::Sees(view.run, found_in(&view.set))
}

fn knows<J: ViewHistory>(client: &Client<J>) -> ActResult {
    let view = client.known_devices();
    ActResult::Sees(view.run, found_in(&view.set))
}

// The result of a call that is refused only if the ring has no free slot.
fn sent(made: Result<(), RingFull>) -> ActResult {
    match made {
        Ok(()) => ActResult::Done,
        Err(RingFull) => ActResult::Refused(Refusal::NoSlot),
    }
}

impl<J: ViewHistory, R: Wait + Drop, X: Line> LanesStage<J, Shown<J>, R, X> {
    fn client(&mut self, at: usize, step: Step) -> ActResult {
        if at >= self.clients.len() {
            return ActResult::Nothing;
        }
        makes(&mut self.clients[at], step)
    }

    fn work(&mut self, alloc: Global, turns: u64) -> ActResult {
        ActResult::Worked(stop_of(self.worker.work(alloc, &mut self.line, turns)))
    }
}

impl<J: ViewHistory, R: Wait + Drop, X: Line> MakesActs for LanesStage<J, Shown<J>, R, X> {
    fn act(&mut self, alloc: Global, act: Act) -> ActResult {
        match act {
            Act::Client(at, step) => self.client(usize::from(at), step),
            Act::Pause => sent(self.operator.pause()),
            Act::Resume => sent(self.operator.resume()),
            Act::Close => sent(self.operator.close()),
            Act::Retire => sent(self.operator.leave()),
            Act::Work(turns) => self.work(alloc, turns),
            Act::Join(_) | Act::Take | Act::Deliver => ActResult::Nothing,
        }
    }
}

impl<J: ViewHistory, R: Wait + Drop, X: Drop> LanesStage<J, Shown<J>, R, X> {
    /// Ends the clients and the worker.
    #[inline(never)]
    pub(crate) fn end(self, alloc: Global) -> Result<LanesOver, Failed> {
        let Compared {
            session,
            ends,
            matched,
            published,
        } = self.compared(alloc)?;
        let left = all_left(alloc, ends)?;
        if !matched {
            return Err(Failed::Unmatched);
        }
        Ok(LanesOver {
            left,
            published: published.len(),
            state: state_of(&session),
            log: log_of(alloc, &session)?,
        })
    }

    fn compared(self, alloc: Global) -> Result<Compared<J, Note, AskNote>, Failed> {
        let LanesStage {
            clients,
            operator: _,
            worker,
            line: _,
        } = self;
        let Ok(room) = Vec::with_capacity(alloc, clients.len()) else {
            seen_last(alloc, clients);
            return Err(Failed::Rig(Wrong::NoMemory));
        };
        Ok(worker.end(ended_in(clients, room)))
    }

    // The clients. Everything else is dropped.
    #[inline(never)]
    fn clients_alone(self) -> Vec<Client<J>> {
        let LanesStage {
            clients,
            operator: _,
            worker: _,
            line: _,
        } = self;
        clients
    }
}

// Ends the clients. Their ends are put into the vector `room`, which has the capacity.
fn ended_in<J: ViewHistory>(clients: Vec<Client<J>>, room: Vec<Ended<J>>) -> Vec<Ended<J>>
    requires empty { room.items ≡ [] }
    requires fits { length clients.items ≤ vec_capacity room }
    ensures { map end_rings result.items ≡ map client_rings clients.items }
{
    let mut clients = clients;
    let mut ends = room;
    while !clients.is_empty() {
        let client = clients.remove(0);
        ends.push_reserved(client.end());
    }
    clients.destroy_empty();
    ends
}

/// What is left of each client.
pub(crate) fn all_left<J: ViewHistory>(
    alloc: Global,
    ends: Vec<Ended<J>>,
) -> Result<Vec<Left>, Failed> {
    let mut ends = ends;
    let mut all = Vec::new(alloc);
    let mut is_whole = true;
    while !ends.is_empty() {
        let end = ends.remove(0);
        let (sent, collected, run, slots) = (end.sent, end.collected, end.run, end.slots());
        let (held, tags) = cancelled(alloc, end.into_unspent());
        let left = Left {
            sent,
            collected,
            held,
            tags,
            slots,
            run,
        };
        is_whole &= all.push(left).is_ok();
    }
    ends.destroy_empty();
    if is_whole {
        Ok(all)
    } else {
        Err(Failed::Rig(Wrong::NoMemory))
    }
}

// Cancels all callbacks that are left. Returns how many there were, and the tags of the first four.
fn cancelled(alloc: Global, mut unspent: Unspent<Note, AskNote>) -> (u64, [u64; 4]) {
    let mut tags = [0; 4];
    let mut count = 0usize;
    while let Some(left) = unspent.next() {
        let tag = match left {
            Unfinished::Request(note) => note.cancel(alloc).tag,
            Unfinished::Ask(note) => note.cancel().tag,
        };
        if let Some(place) = tags.get_mut(count) {
            *place = tag;
        }
        count = count.saturating_add(1);
    }
    unspent.close_empty();
    (count as u64, tags)
}

/// Opens lanes with this setup over this line, makes these moves, and ends everything.
#[inline(never)]
pub fn play_lanes<X: Line + Drop, R: Wait>(
    rt: &R,
    alloc: Global,
    setup: Setup,
    line: X,
    moves: &[Move],
) -> Result<LanesOver, Failed> {
    let mut mover = Mover::new(moves);
    let over = drive_lanes(rt, alloc, setup, line, &mut mover)?;
    mover.made?;
    Ok(over)
}

/// The same with this driver. If an allocation fails, the lanes are opened with the log that was returned.
#[inline(never)]
pub fn drive_lanes<X: Line + Drop, R: Wait, D: Driver>(
    rt: &R,
    alloc: Global,
    setup: Setup,
    line: X,
    driver: &mut D,
) -> Result<LanesOver, Failed> {
    let log = log(alloc, setup.free)?;
    let first = driven::<Brand, X, R, D>(rt, alloc, BlankHistory::new(), &setup, log, line, driver);
    let (fault, log, line) = match first {
        Ok(over) => return over,
        Err(back) => back,
    };
    if fault != OpenFault::NoMemory || !is_blank(&log) {
        return Err(not_opened(fault, &log));
    }
    match driven::<Brand, X, R, D>(rt, alloc, BlankHistory::new(), &setup, log, line, driver) {
        Ok(over) => over,
        Err(_) => Err(Failed::Rig(Wrong::NotAgain)),
    }
}

/// Why lanes couldn't be opened, if the log was returned like a new one.
pub(crate) fn not_opened(fault: OpenFault, log: &Log) -> Failed {
    if is_blank(log) {
        Failed::Open(fault)
    } else {
        Failed::Rig(Wrong::NotAgain)
    }
}

fn driven<J: ViewHistory, X: Line + Drop, R: Wait, D: Driver>(
    rt: &R,
    alloc: Global,
    history: BlankHistory,
    setup: &Setup,
    log: Log,
    line: X,
    driver: &mut D,
) -> Result<Result<LanesOver, Failed>, NotOpened<X>>
    requires name { book_of history ≡ J.book }
    requires empty { log.entries ≡ [] }
    ensures { IfErr result (λ back. back.1.entries ≡ []) }
{
    let mut stage = opened::<J, R, X>(rt, alloc, history, setup, log, line)?;
    driver.drive(alloc, &mut stage);
    Ok(stage.end(alloc))
}

/// The clients ended with these counts: how many calls each sent, how many outcomes it collected, and how many
/// callbacks it held. Err: the first one that differs.
pub fn counts_are(left: &[Left], wanted: &[(u64, u64, u64)]) -> Result<(), Failed> {
    for number in 0..left.len().max(wanted.len()) {
        let came = left.get(number).map(|left| left.counts());
        if came != wanted.get(number).copied() {
            return Err(Failed::Counts(number, came));
        }
    }
    Ok(())
}

/// As [`play_lanes`], but after the moves the worker is dropped, and each client reads once more. Returns what the
/// first one sees then.
#[inline(never)]
pub fn read_alone<X: Line + Drop, R: Wait>(
    rt: &R,
    alloc: Global,
    setup: Setup,
    line: X,
    moves: &[Move],
) -> Result<ActResult, Failed> {
    reads_alone::<Brand, X, R>(rt, alloc, BlankHistory::new(), setup, line, moves)
}

fn reads_alone<J: ViewHistory, X: Line + Drop, R: Wait>(
    rt: &R,
    alloc: Global,
    history: BlankHistory,
    setup: Setup,
    line: X,
    moves: &[Move],
) -> Result<ActResult, Failed>
    requires { book_of history ≡ J.book }
{
    let log = log(alloc, setup.free)?;
    let mut stage = match opened::<J, R, X>(rt, alloc, history, &setup, log, line) {
        Ok(stage) => stage,
        Err((fault, log, _)) => return Err(not_opened(fault, &log)),
    };
    let made = moved(alloc, &mut stage, moves);
    let seen = seen_last(alloc, stage.clients_alone());
    made?;
    Ok(seen)
}

// Lets the clients read, the first one last, and ends them. Returns what the first one sees.
fn seen_last<J: ViewHistory>(alloc: Global, clients: Vec<Client<J>>) -> ActResult {
    let mut clients = clients;
    let mut seen = ActResult::Nothing;
    while let Some(mut client) = clients.pop() {
        seen = looks(&mut client);
        cancels(alloc, client.end().into_unspent());
    }
    clients.destroy_empty();
    seen
}

/// Why lanes with this setup can't be opened. None: they can.
#[inline(never)]
pub fn open_fault<R: Wait>(
    rt: &R,
    alloc: Global,
    setup: Setup,
) -> Result<Option<OpenFault>, Failed> {
    match play_lanes(rt, alloc, setup, TapeLine::new(Vec::new(alloc)), &[]) {
        Ok(_) => Ok(None),
        Err(Failed::Open(fault)) => Ok(Some(fault)),
        Err(wrong) => Err(wrong),
    }
}
