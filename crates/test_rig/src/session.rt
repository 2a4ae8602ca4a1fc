//! A session and its line in one thread.
ghost use Rattle.std.specs.Prelude.{◌≡◌, []};
ghost use Rattle.rdm_log.specs.log.Config.{IsConfig};

use crate::act::{Act, MakesActs, Step};
use crate::act_result::{ActResult, Stop, outcome_told};
use crate::found::found_in;
use crate::refusal::Refusal;
use crate::setup::{config_with, is_blank, log, request};
use crate::state::{State, state_of};
use crate::wrong::Wrong;
use rdm_agent::Kind;
use rdm_join::LineEvent;
use rdm_line::Line;
use rdm_log::{ClientId, Config, Log, LogFull, NotAsked};
use rdm_queue::Session;
use rdm_wire::{Frame, NoMemory};
use std::alloc::Global;

/// A session and its line, and the frame whose reply is awaited.
#[derive(Drop)]
pub struct SessionStage<X: Drop> {
    session: Session,
    line: X,
    awaited: Option<Frame>,
}

/// A session with this capacity and this budget, but at least 1, over a log with this many free entries. If an
/// allocation fails, the session is made with the log that was returned.
pub fn session_of(alloc: Global, places: u8, budget: u64, free: usize) -> Result<Session, Wrong> {
    let config = config_with(places, budget);
    match Session::new(alloc, config, log(alloc, free)?) {
        Ok(session) => Ok(session),
        Err((NoMemory, log)) => session_again(alloc, config, log),
    }
}

/// A stage with such a session, without clients, and this line.
pub fn open_session<X: Drop>(
    alloc: Global,
    places: u8,
    budget: u64,
    free: usize,
    line: X,
) -> Result<SessionStage<X>, Wrong> {
    let session = session_of(alloc, places, budget, free)?;
    Ok(SessionStage {
        session,
        line,
        awaited: None,
    })
}

// A session with the log that was returned.
fn session_again(alloc: Global, config: Config, log: Log) -> Result<Session, Wrong>
    requires config { IsConfig config }
    requires empty { log.entries ≡ [] }
{
    if !is_blank(&log) {
        return Err(Wrong::NotAgain);
    }
    match Session::new(alloc, config, log) {
        Ok(session) => Ok(session),
        Err(_) => Err(Wrong::NotAgain),
    }
}

impl<X: Drop> SessionStage<X> {
    /// The session's state.
    pub fn state(&self) -> State {
        state_of(&self.session)
    }

    fn join(&mut self, alloc: Global, places: u8) -> ActResult {
        match self.session.join_client(alloc, places) {
            Ok(client) => ActResult::Number(u64::from(client.0)),
            Err(fault) => ActResult::Refused(Refusal::Join(fault)),
        }
    }

    fn client(&mut self, client: u8, step: Step) -> ActResult {
        match step {
            Step::Submit(tag) => self.submit(client, tag),
            Step::Discover(kind, tag) => self.discover(client, kind, tag),
            Step::Collect => self.collect(client),
            Step::Look | Step::Know => sees(&self.session),
            Step::Leave => ActResult::Nothing,
        }
    }

    fn submit(&mut self, client: u8, tag: u64) -> ActResult {
        match self.session.submit(ClientId(client), request(tag)) {
            Ok(number) => ActResult::Number(number),
            Err((fault, back)) if back == request(tag) => {
                ActResult::Refused(Refusal::Submit(fault, tag))
            }
            Err(_) => ActResult::Mixed,
        }
    }

    fn discover(&mut self, client: u8, kind: Kind, tag: u64) -> ActResult {
        match self.session.discover(ClientId(client), kind) {
            Ok(number) => ActResult::Number(number),
            Err(fault) => ActResult::Refused(Refusal::Ask(fault, tag)),
        }
    }

    #[inline(never)]
    fn collect(&mut self, client: u8) -> ActResult {
        outcome_told(&self.session.next_outcome(ClientId(client)))
    }

    // Takes the next frame. If there is none, a frame that was taken before is kept.
    fn take(&mut self) -> ActResult {
        match self.session.take() {
            Ok(Some(frame)) => {
                let number = frame.get(15).copied();
                self.awaited = Some(frame);
                number.map_or(ActResult::Mixed, ActResult::Frame)
            }
            Ok(None) => ActResult::Nothing,
            Err(LogFull) => ActResult::Refused(Refusal::LogFull),
        }
    }
}

impl<X: Line + Drop> SessionStage<X> {
    // Makes the exchange of the frame that was taken last, and delivers what came. If there is no such frame, the
    // session has to refuse the delivery.
    fn deliver(&mut self, alloc: Global) -> ActResult {
        let Some(frame) = self.awaited.take() else {
            return self.delivers_nothing(alloc);
        };
        match self
            .session
            .deliver(alloc, self.line.exchange(&frame).into())
        {
            Ok(()) => ActResult::Done,
            Err(_) => ActResult::Mixed,
        }
    }

    fn delivers_nothing(&mut self, alloc: Global) -> ActResult {
        match self.session.deliver(alloc, LineEvent::Failed) {
            Err((NotAsked, LineEvent::Failed)) => ActResult::Nothing,
            _ => ActResult::Mixed,
        }
    }

    // Makes this many exchanges at most.
    fn work(&mut self, alloc: Global, turns: u64) -> ActResult {
        for _turn in 0..turns {
            match self.take() {
                ActResult::Frame(_) if self.deliver(alloc) == ActResult::Done => {}
                ActResult::Frame(_) => return ActResult::Mixed,
                ActResult::Refused(_) => return ActResult::Worked(Stop::LogFull),
                _ => return ActResult::Worked(Stop::AllLeft),
            }
        }
        ActResult::Worked(Stop::Turns)
    }
}

impl<X: Line + Drop> MakesActs for SessionStage<X> {
    fn act(&mut self, alloc: Global, act: Act) -> ActResult {
        match act {
            Act::Join(places) => self.join(alloc, places),
            Act::Client(client, step) => self.client(client, step),
            Act::Pause => switched(self.session.pause()),
            Act::Resume => switched(self.session.resume()),
            Act::Close => {
                self.session.close();
                ActResult::Done
            }
            Act::Work(turns) => self.work(alloc, turns),
            Act::Take => self.take(),
            Act::Deliver => self.deliver(alloc),
            Act::Retire => ActResult::Nothing,
        }
    }
}

// The devices that the session knows.
fn sees(session: &Session) -> ActResult {
    ActResult::Sees(session.devices_run(), found_in(session.devices()))
}

/// The result of a pause or a resume.
pub fn switched(made: Result<(), LogFull>) -> ActResult {
    match made {
        Ok(()) => ActResult::Done,
        Err(LogFull) => ActResult::Refused(Refusal::LogFull),
    }
}
