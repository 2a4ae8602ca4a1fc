//! The queue of requests in one thread, with a log and without, and its discoveries. Requests of a session also by
//! `answer` and by `run`, which are given their calls as events.
ghost use Rattle.std.specs.Prelude.{◌≡◌, []};

use crate::agent::tape;
use crate::bench::{Bench, Sample, Times, holds};
use crate::lines::{bytes_of, devices};
use crate::packets::{Replay, TAG, numbered, reply};
use crate::served::{CLIENTS, Job, PLACES, Served, Timing, config, page_room, tag_of, written_log};
use rdm_agent::Kind;
use rdm_join::{LineEvent, LineReply};
use rdm_line::Line;
use rdm_log::{
    Answer, AskFault, BoxedOutcome, ClientId, Completion, Entry, Event, Log, Outcome, Page,
    SubmitFault,
};
use rdm_queue::{Controller, Session};
use rdm_wire::{DeviceSet, Frame};
use std::alloc::Global;
use test_rig::{ActResult, NOTHING_KEPT, completion_told, ending_by, found_in, log, request};

// How many devices are on the line of discoveries.
const DEVICES: usize = 16;

// A queue without a log, or with one.
#[derive(Drop)]
enum Queue {
    Plain(Controller),
    Logged(Session),
}

// The same call of either.
macro_rules! either {
    ($of:expr, $queue:ident, $call:expr) => {
        match $of {
            Queue::Plain($queue) => $call,
            Queue::Logged($queue) => $call,
        }
    };
}

impl Queue {
    // None: the log is full.
    fn take(&mut self) -> Option<Option<Frame>> {
        match self {
            Queue::Plain(queue) => Some(queue.take()),
            Queue::Logged(queue) => queue.take().ok(),
        }
    }

    fn next_completion(&mut self, client: ClientId) -> Option<(u64, Completion)> {
        either!(self, queue, queue.next_completion(client))
    }

    // How many bytes the next outcome has, if it is a request's. It is a function of its own, since a function that has
    // an outcome among its locals takes longer.
    #[inline(never)]
    fn next_outcome(&mut self, client: ClientId) -> Option<usize> {
        match either!(self, queue, queue.next_outcome(client)) {
            Some(Outcome::Request { done, .. }) => Some(done.bytes.len()),
            _ => None,
        }
    }
}

// A queue with its clients and its line.
#[derive(Drop)]
struct Clients<X: Drop> {
    alloc: Global,
    queue: Queue,
    line: X,
    // Whether outcomes are collected by the call for either kind, which moves a set.
    by_outcome: bool,
    found: DeviceSet,
}

impl<X: Line + Drop> Clients<X> {
    fn answer(&mut self, frame: &Frame) -> Option<()> {
        let event = self.line.exchange(frame).into();
        holds(either!(
            &mut self.queue,
            queue,
            queue.deliver(self.alloc, event).is_ok()
        ))
    }
}

impl<X: Line + Drop> Served for Clients<X> {
    fn submit(&mut self, client: usize, tag: u64) -> Option<bool> {
        let client = id_of(client);
        match either!(&mut self.queue, queue, queue.submit(client, request(tag))) {
            Ok(_) => Some(true),
            Err((SubmitFault::Full, _)) => Some(false),
            Err(_) => None,
        }
    }

    // Its number is the tag.
    fn ask(&mut self, client: usize, _tag: u64) -> Option<bool> {
        let client = id_of(client);
        match either!(&mut self.queue, queue, queue.discover(client, Kind::Full)) {
            Ok(_) => Some(true),
            Err(AskFault::Full) => Some(false),
            Err(_) => None,
        }
    }

    fn collect_bytes(&mut self, client: usize) -> Option<usize> {
        if self.by_outcome {
            return self.queue.next_outcome(id_of(client));
        }
        let (_, done) = self.queue.next_completion(id_of(client))?;
        Some(done.bytes.len())
    }

    #[inline(never)]
    fn collect(&mut self, client: usize) -> Option<ActResult> {
        let client = id_of(client);
        if let Some((number, done)) = self.queue.next_completion(client) {
            return Some(completion_told(&Some((tag_of(number), done))));
        }
        let set = &mut self.found;
        let end = either!(&mut self.queue, queue, queue.next_discovery(client, set));
        let Some(end) = end else {
            return Some(ActResult::Nothing);
        };
        let found = found_in(&self.found);
        Some(ActResult::Discovery(end.number, end.run, ending_by(end.fault), found))
    }

    fn work(&mut self, turns: u64) -> Option<()> {
        for _ in 0..turns {
            if let Some(frame) = self.queue.take()? {
                self.answer(&frame)?;
            }
        }
        Some(())
    }

    fn pause(&mut self, pauses: bool) -> Option<()> {
        match &mut self.queue {
            Queue::Plain(_) => None,
            Queue::Logged(queue) if pauses => queue.pause().ok(),
            Queue::Logged(queue) => queue.resume().ok(),
        }
    }

    fn drain(&mut self, next: Vec<Entry>) -> Option<Page> {
        let Queue::Logged(queue) = &mut self.queue else {
            return None;
        };
        let first = queue.log().gone();
        let entries = queue.drain(next).ok()?;
        Some(Page { first, entries })
    }

    fn work_drained(&mut self, next: Vec<Entry>) -> Option<Page> {
        let frame = self.queue.take()?;
        let page = self.drain(next)?;
        if let Some(frame) = frame {
            self.answer(&frame)?;
        }
        Some(page)
    }
}

// The client with this number, below 256.
fn id_of(client: usize) -> ClientId {
    ClientId((client % 256) as u8)
}

/// Times requests and discoveries, while requests wait.
pub fn time<R: Times>(bench: &Bench<R>) -> Option<()> {
    for by_outcome in [false, true] {
        time_requests(bench, false, by_outcome)?;
        time_requests(bench, true, by_outcome)?;
    }
    time_drained(bench)?;
    let line = replay_of(bench.alloc, DEVICES)?;
    let mut timing = Timing::new("queue without log, Full", CLIENTS, bench.size);
    timing.discovery = Some((line.replies.len() as u64, DEVICES));
    let queue = plain(bench.alloc)?;
    timing.perform(bench, &mut clients_of(bench.alloc, queue, line, false))
}

/// Times requests of a queue with or without a log. Outcomes are collected by the call for either kind, or by the one
/// for requests.
pub fn time_requests<R: Times>(bench: &Bench<R>, with_log: bool, by_outcome: bool) -> Option<()> {
    let work = match (with_log, by_outcome) {
        (false, false) => "queue without log, NextCompletion",
        (false, true) => "queue without log, NextOutcome",
        (true, false) => "queue with log, NextCompletion",
        (true, true) => "queue with log, NextOutcome",
    };
    let line = Replay::of_two_bytes(bench.alloc)?;
    let queue = if with_log {
        Queue::Logged(session(bench)?)
    } else {
        plain(bench.alloc)?
    };
    let mut timing = Timing::new(work, CLIENTS, bench.size);
    timing.perform(bench, &mut clients_of(bench.alloc, queue, line, by_outcome))
}

/// Times requests of a queue with a log that is drained after every hundredth.
pub fn time_drained<R: Times>(bench: &Bench<R>) -> Option<()> {
    let mut timing = Timing::new(
        "queue with drained log, NextCompletion",
        CLIENTS,
        bench.size,
    );
    timing.drained_after = 100;
    let line = Replay::of_two_bytes(bench.alloc)?;
    let log = log(bench.alloc, page_room(100, bench.size)).ok()?;
    let queue = Queue::Logged(session_over(bench.alloc, log, u8::MAX)?);
    timing.perform(bench, &mut clients_of(bench.alloc, queue, line, false))
}

/// Times requests of one client, which nobody answers, of a session whose log keeps nothing.
pub fn time_unkept<R: Times>(bench: &Bench<R>) -> Option<()> {
    let mut timing = Timing::new("queue with unkept log, NextCompletion", 1, bench.size);
    timing.bytes = 0;
    let line = Replay {
        replies: Vec::new(bench.alloc),
        next: 0,
    };
    let log = log(bench.alloc, NOTHING_KEPT).ok()?;
    let queue = Queue::Logged(session_over(bench.alloc, log, u8::MAX)?);
    timing.perform(bench, &mut clients_of(bench.alloc, queue, line, false))
}

/// Opens a session of sixteen clients, each with the queue depth of a port's, over this log and this line, does this,
/// and looks at its log.
pub fn on_queue<X: Line + Drop, D: Job<R>, R>(
    bench: &Bench<R>,
    log: Log,
    line: X,
    job: &mut D,
) -> Option<()>
    requires { log.entries ≡ [] }
{
    let queue = Queue::Logged(session_over(bench.alloc, log, PLACES)?);
    let mut clients = clients_of(bench.alloc, queue, line, false);
    perform(bench, &mut clients, job)
}

// Does this with these clients, and looks at their log.
fn perform<X: Line + Drop, D: Job<R>, R>(
    bench: &Bench<R>,
    clients: &mut Clients<X>,
    job: &mut D,
) -> Option<()> {
    job.perform(bench, clients)?;
    match &clients.queue {
        Queue::Plain(_) => None,
        Queue::Logged(session) => job.end(session.log()),
    }
}

// A session of sixteen clients, for the requests that are timed.
fn session<R>(bench: &Bench<R>) -> Option<Session> {
    session_over(bench.alloc, written_log(bench)?, u8::MAX)
}

// A session over this log of sixteen clients with this queue depth.
fn session_over(alloc: Global, log: Log, places: u8) -> Option<Session>
    requires { log.entries ≡ [] }
{
    let mut session = Session::new(alloc, config(), log).ok()?;
    for _ in 0..CLIENTS {
        session.join_client(alloc, places).ok()?;
    }
    Some(session)
}

// A queue of sixteen clients without a log.
fn plain(alloc: Global) -> Option<Queue> {
    let mut controller = Controller::new(alloc, config()).ok()?;
    for _ in 0..CLIENTS {
        controller.join_client(alloc, u8::MAX).ok()?;
    }
    Some(Queue::Plain(controller))
}

fn clients_of<X: Drop>(alloc: Global, queue: Queue, line: X, by_outcome: bool) -> Clients<X> {
    Clients {
        alloc,
        queue,
        line,
        by_outcome,
        found: DeviceSet::new(),
    }
}

/// A line that replays the replies of a steady run over this many devices.
pub fn replay_of(alloc: Global, count: usize) -> Option<Replay> {
    let mut replies = Vec::new(alloc);
    for taped in tape(alloc, &devices(count, 58)?)?.as_slice() {
        replies.push(bytes_of(&taped.reply)?).ok()?;
    }
    Some(Replay { replies, next: 0 })
}

/// Times requests while others wait: by one `run` for the four events of a request, or by an `answer` for each.
pub fn time_events<R: Times>(bench: &Bench<R>, at_once: bool) -> Option<()> {
    let mut requests = Requests {
        alloc: bench.alloc,
        reply: reply(2)?,
        session: session(bench)?,
        at_once,
        waiting: bench.size,
        turn: 0,
    };
    for index in 0..bench.size {
        let client = id_of(index % usize::from(CLIENTS));
        holds(requests.session.submit(client, request(TAG)).is_ok())?;
    }
    let work = if at_once {
        "queue with log, Run"
    } else {
        "queue with log, Answer"
    };
    bench.time(work, &mut requests)
}

// A session in which this many requests wait, and the reply to each of them.
#[derive(Drop)]
struct Requests {
    alloc: Global,
    session: Session,
    at_once: bool,
    reply: LineReply,
    waiting: usize,
    turn: usize,
}

impl Sample for Requests {
    // One request is answered and collected, and another submitted.
    fn perform(&mut self) -> Option<u64> {
        let reply = numbered(&self.reply, (self.turn % 256) as u8);
        let submitter = self.turn.wrapping_add(self.waiting) % usize::from(CLIENTS);
        let events = [
            Event::Take,
            Event::Deliver(LineEvent::Reply(reply)),
            Event::Collect(id_of(self.turn % usize::from(CLIENTS))),
            Event::Submit(id_of(submitter), request(TAG)),
        ];
        self.turn = self.turn.wrapping_add(1);
        let are_right = if self.at_once {
            self.runs(&events)
        } else {
            self.answers(&events)
        };
        if are_right { Some(1) } else { None }
    }
}

impl Requests {
    fn answers(&mut self, events: &[Event]) -> bool {
        for event in events {
            if !is_right(&self.session.answer(self.alloc, event)) {
                return false;
            }
        }
        true
    }

    fn runs(&mut self, events: &[Event]) -> bool {
        match self.session.run(self.alloc, events) {
            Ok(answers) => answers.as_slice().iter().all(is_right),
            Err(_) => false,
        }
    }
}

// Whether a request's event came to what it should.
fn is_right(answer: &Answer) -> bool {
    match answer {
        Answer::Take(Ok(Some(_))) | Answer::Deliver(Ok(())) | Answer::Submit(Ok(_)) => true,
        Answer::Collect(Ok(Some(BoxedOutcome::Request { done, .. }))) => done.bytes.len() == 2,
        _ => false,
    }
}
