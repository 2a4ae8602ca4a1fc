//! Sessions with ring buffers in threads.
ghost use Rattle.std.specs.Prelude.{◌≡◌, [], length, IfErr};
ghost use Rattle.rdm_lanes.specs.Clients.{SameClient};
ghost use Rattle.rdm_lanes.specs.Lanes.{SameLanes};
ghost use Rattle.rdm_lanes.specs.Workers.{lanes_of, book_of};

use crate::failed::Failed;
use crate::lanes::{LanesOver, LanesStage, Left, all_left, not_opened, opened};
use crate::player::{Part, Player, Points, TRIES, waits};
use crate::port::stop_of;
use crate::setup::Setup;
use rdm_lanes::views::{BlankHistory, Shown, ViewHistory};
use rdm_lanes::{Body, Gate, LanesEnd, OpenFault, Operator, RingClient, ViewWorker, run_session};
use rdm_line::Line;
use rdm_log::Log;
use std::alloc::Global;
use std::marker::Brand;
use std::sync::Wait;
use std::thread::{Threads, join_mut};
use test_rig::{
    ActResult, AskNote, Note, Said, State, Stop, Wrong, config, is_blank, log, log_of, state_of,
};

// More turns than a worker takes.
const TURNS: u64 = 1_000_000_000;

// At this point the operator is asked to close.
const CLOSE: u8 = 0;

// At this one the close is sent.
const CLOSED: u8 = 1;

// At this one the worker may begin, if it waits at all.
const BEGIN: u8 = 2;

/// How a session of players ended.
#[derive(Drop)]
pub struct PlayersOver {
    /// The players, in order.
    pub players: Vec<Player>,
    /// Why the worker stopped.
    pub stop: Stop,
    /// What is left of each client.
    pub left: Vec<Left>,
    /// How many views were published.
    pub published: u64,
    /// The session's state.
    pub state: State,
    /// What its log says.
    pub log: Vec<Said>,
}

/// Why a session of players wasn't held.
#[derive(Drop)]
pub enum NotServed {
    /// It was refused: the fault, and the players that were returned. The log was returned like a new one.
    Refused(OpenFault, Vec<Player>),
    /// Something else failed.
    Failed(Failed),
}

impl From<NotServed> for Failed {
    fn from(why: NotServed) -> Failed {
        match why {
            NotServed::Refused(fault, _) => Failed::Open(fault),
            NotServed::Failed(failed) => failed,
        }
    }
}

// Why a session wasn't held, and what was returned.
type Back<X> = (OpenFault, Log, Vec<Player>, X, BlankHistory);

// How a session ends, or why it wasn't held.
type Ended<J, X> = Result<LanesEnd<J, Player, X, Note, AskNote>, Back<X>>;

/// Holds a session in threads with this setup over this line. For each part, a player runs its script in a thread of
/// its own, beside the worker. What it hears isn't compared.
#[inline(never)]
pub fn serve_players<X: Line + Send + Drop, R: Threads + Wait + Sync>(
    rt: &R,
    alloc: Global,
    setup: Setup,
    parts: &[Part<'_>],
    line: X,
) -> Result<PlayersOver, NotServed> {
    match players_of(alloc, parts) {
        Ok(players) => serve_bodies(rt, alloc, setup, players, TURNS, line),
        Err(wrong) => Err(NotServed::Failed(wrong)),
    }
}

/// The same with these players, and this many turns of the worker. If an allocation fails, the session is held with
/// what was returned.
pub fn serve_bodies<X: Line + Send + Drop, R: Threads + Wait + Sync>(
    rt: &R,
    alloc: Global,
    setup: Setup,
    players: Vec<Player>,
    turns: u64,
    line: X,
) -> Result<PlayersOver, NotServed> {
    if players.len() != setup.places.len() {
        return Err(NotServed::Failed(Failed::Players));
    }
    let log = match log(alloc, setup.free) {
        Ok(log) => log,
        Err(wrong) => return Err(NotServed::Failed(Failed::Rig(wrong))),
    };
    let new = BlankHistory::new();
    serves_twice::<Brand, X, R>(rt, alloc, new, &setup, log, players, turns, line)
}

// Holds the session. If there is no memory for it, it is held with what came back, the history too.
fn serves_twice<J: ViewHistory + Send + Sync, X: Line + Send + Drop, R: Threads + Wait + Sync>(
    rt: &R,
    alloc: Global,
    history: BlankHistory,
    setup: &Setup,
    log: Log,
    players: Vec<Player>,
    turns: u64,
    line: X,
) -> Result<PlayersOver, NotServed>
    requires name { book_of history ≡ J.book }
    requires empty { log.entries ≡ [] }
    requires one_each { length players.items ≡ length setup.now.places.now }
{
    let first = served::<J, X, R>(rt, alloc, history, setup, log, players, turns, line);
    let (fault, log, players, line, history) = match first {
        Ok(end) => return over_of(alloc, end),
        Err(back) => back,
    };
    if !is_blank(&log) {
        return Err(NotServed::Failed(Failed::Rig(Wrong::NotAgain)));
    }
    if fault != OpenFault::NoMemory {
        return Err(NotServed::Refused(fault, players));
    }
    match served::<J, X, R>(rt, alloc, history, setup, log, players, turns, line) {
        Ok(end) => over_of(alloc, end),
        Err(_) => Err(NotServed::Failed(Failed::Rig(Wrong::NotAgain))),
    }
}

/// The same, and checks that all clients left and each player got its part's results. Err: what differs.
pub fn play_threads<X: Line + Send + Drop, R: Threads + Wait + Sync>(
    rt: &R,
    alloc: Global,
    setup: Setup,
    parts: &[Part<'_>],
    line: X,
) -> Result<PlayersOver, Failed> {
    let over = serve_players(rt, alloc, setup, parts, line)?;
    if over.stop != Stop::AllLeft {
        return Err(Failed::Stop(over.stop));
    }
    players_heard(&over.players, parts)?;
    Ok(over)
}

// Each player ran once, and got its part's results.
fn players_heard(players: &[Player], parts: &[Part<'_>]) -> Result<(), Failed> {
    if players.len() != parts.len() {
        return Err(Failed::Players);
    }
    for (number, (player, part)) in players.iter().zip(parts).enumerate() {
        player_heard(player, number, part.1)?;
    }
    Ok(())
}

/// The player ran once, and got these results. Err: what differs, with the player's number.
pub fn player_heard(player: &Player, number: usize, heard: &[ActResult]) -> Result<(), Failed> {
    if player.runs != 1 {
        return Err(Failed::Players);
    }
    for (line, came) in player.heard.iter().enumerate() {
        let wanted = heard.get(line).copied().unwrap_or(ActResult::Nothing);
        if *came != wanted {
            return Err(Failed::ActResult(number, line, *came));
        }
    }
    Ok(())
}

// A player for each part.
fn players_of(alloc: Global, parts: &[Part<'_>]) -> Result<Vec<Player>, Failed> {
    let mut players = Vec::new(alloc);
    for part in parts {
        if players.push(Player::new(part.0)).is_err() {
            return Err(Failed::Rig(Wrong::NoMemory));
        }
    }
    Ok(players)
}

#[inline(never)]
fn served<J: ViewHistory + Send + Sync, X: Line + Send, R: Threads + Wait + Sync>(
    rt: &R,
    alloc: Global,
    history: BlankHistory,
    setup: &Setup,
    log: Log,
    players: Vec<Player>,
    turns: u64,
    line: X,
) -> Ended<J, X>
    requires name { book_of history ≡ J.book }
    requires empty { log.entries ≡ [] }
    requires one_each { length players.items ≡ length setup.now.places.now }
    ensures empty { IfErr result (λ back. back.1.entries ≡ []) }
    ensures one_each { IfErr result (λ back. length back.2.items ≡ length setup.now.places.now) }
    ensures same_name { IfErr result (λ back. book_of back.4 ≡ J.book) }
{
    let gate = Points::new();
    let (set, ring) = (config(setup.greatest), setup.ring.max(1));
    let places = setup.places;
    run_session(
        rt, alloc, history, set, log, ring, places, players, &gate, line, turns,
    )
}

// What is left of a session.
#[inline(never)]
fn over_of<J: ViewHistory, X: Drop>(
    alloc: Global,
    end: LanesEnd<J, Player, X, Note, AskNote>,
) -> Result<PlayersOver, NotServed> {
    let LanesEnd {
        session,
        line: _,
        bodies,
        worker,
        turns: _,
        ends,
        matched,
        published,
    } = end;
    let (Ok(left), Ok(log)) = (all_left(alloc, ends), log_of(alloc, &session)) else {
        return Err(NotServed::Failed(Failed::Rig(Wrong::NoMemory)));
    };
    if !matched {
        return Err(NotServed::Failed(Failed::Unmatched));
    }
    Ok(PlayersOver {
        players: bodies,
        stop: stop_of(worker),
        left,
        published: published.len(),
        state: state_of(&session),
        log,
    })
}

/// Opens lanes with this setup over this line. The first client's player runs beside the worker and the operator, each
/// in a thread of its own. The worker waits for point 2. The operator waits for point 0, closes and leaves, and then
/// arrives at point 1. Returns why the worker stopped, and what is left.
#[inline(never)]
pub fn serve_beside<X: Line + Send + Drop, R: Threads + Wait + Sync>(
    rt: &R,
    alloc: Global,
    setup: Setup,
    line: X,
    player: &mut Player,
) -> Result<(Stop, LanesOver), Failed> {
    serves_beside::<Brand, X, R>(rt, alloc, BlankHistory::new(), setup, line, player)
}

fn serves_beside<J: ViewHistory + Send + Sync, X: Line + Send + Drop, R: Threads + Wait + Sync>(
    rt: &R,
    alloc: Global,
    history: BlankHistory,
    setup: Setup,
    line: X,
    player: &mut Player,
) -> Result<(Stop, LanesOver), Failed>
    requires { book_of history ≡ J.book }
{
    let log = log(alloc, setup.free)?;
    let mut stage = match opened::<J, R, X>(rt, alloc, history, &setup, log, line) {
        Ok(stage) => stage,
        Err((fault, log, _)) => return Err(not_opened(fault, &log)),
    };
    let stop = stage.beside(rt, alloc, 0, player);
    let over = stage.end(alloc)?;
    match stop {
        Some(stop) => Ok((stop, over)),
        None => Err(Failed::Players),
    }
}

impl<J: ViewHistory + Send + Sync, W: Wait + Drop + Send, X: Line + Send> LanesStage<
    J,
    Shown<J>,
    W,
    X,
> {
    // Lets this client's player run beside the worker and the operator. Returns why the worker stopped.
    #[inline(never)]
    fn beside<R: Threads + Sync>(
        &mut self,
        rt: &R,
        alloc: Global,
        at: usize,
        player: &mut Player,
    ) -> Option<Stop> {
        if at >= self.clients.len() {
            return None;
        }
        let gate = Points::new();
        let end = beside(
            rt,
            alloc,
            &mut self.worker,
            &mut self.line,
            &mut self.clients[at],
            &mut self.operator,
            player,
            &gate,
        );
        Some(end)
    }
}

// Lets the player run beside the worker and the operator. Returns why the worker stopped.
fn beside<J: ViewHistory + Send + Sync, W: Wait + Drop + Send, X: Line + Send, R: Threads + Sync>(
    rt: &R,
    alloc: Global,
    worker: &mut ViewWorker<J, Shown<J>, W>,
    line: &mut X,
    client: &mut RingClient<J, Note, AskNote>,
    operator: &mut Operator,
    player: &mut Player,
    gate: &Points,
) -> Stop
    ensures lanes { SameLanes (lanes_of worker.old) (lanes_of worker.new) }
    ensures client { SameClient client.old client.new }
{
    let mut serve = || works(alloc, worker, line, gate);
    let mut play = || calls(rt, client, operator, player, gate);
    let (stop, _) = join_mut(rt, &mut serve, &mut play);
    stop
}

// The worker, once it may begin.
fn works<J: ViewHistory, W: Wait + Drop, X: Line>(
    alloc: Global,
    worker: &mut ViewWorker<J, Shown<J>, W>,
    line: &mut X,
    gate: &Points,
) -> Stop
    ensures { SameLanes (lanes_of worker.old) (lanes_of worker.new) }
{
    waits(gate, BEGIN, TRIES);
    stop_of(worker.work(alloc, line, TURNS))
}

// The client beside the operator.
fn calls<J: ViewHistory + Send + Sync, R: Threads + Sync>(
    rt: &R,
    client: &mut RingClient<J, Note, AskNote>,
    operator: &mut Operator,
    player: &mut Player,
    gate: &Points,
)
    ensures { SameClient client.old client.new }
{
    join_mut(
        rt,
        &mut || player.run(client, gate),
        &mut || closes(operator, gate),
    );
}

// The operator, which closes once it is asked to, and leaves.
fn closes(operator: &mut Operator, gate: &Points) {
    if waits(gate, CLOSE, TRIES) {
        let _ = operator.close();
        let _ = operator.leave();
    }
    gate.arrive(CLOSED);
}
