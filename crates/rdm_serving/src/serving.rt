//! Serves the clients of a session file on a line: each in a thread of its own, and a worker in another.
ghost use Rattle.std.specs.Prelude.{◌≡◌, ◌≤◌, Err, IfOk, OnOk, map, true};
ghost use Rattle.std.specs.Bool.{OnTrue};
ghost use Rattle.std.specs.List.{All};
ghost use Rattle.rdm_wire.specs.Uid.{IsDevice};
ghost use Rattle.rdm_log.specs.log.Config.{IsConfig};
ghost use Rattle.rdm_client.specs.declared.told.Told.{Told};
ghost use Rattle.rdm_serving.specs.Serving.{MayServe, IsInTurns, IsServedBy, IsSetUp};
ghost use Rattle.rdm_serving.specs.body.Agreement.{AgreesWith};
ghost use Rattle.rdm_reports.specs.SessionReport.{AllSettled, IsSettled, is_request, is_ask, indices_of};
ghost use Rattle.rdm_reports.specs.declared.outcomes.Discovered.{Discovered};

mod called;
mod calls;
mod locked;
mod logged;
mod playing;
mod progress_line;
mod rings;
mod script;
mod ticket;

use crate::serving::called::has_calls;
use crate::serving::locked::serve_locked;
pub use crate::serving::logged::{all_entries, are_logged};
pub use crate::serving::playing::{Watch, play};
use crate::serving::progress_line::ProgressLine;
use crate::serving::rings::serve_rings;
pub use crate::serving::ticket::{AskTicket, RequestTicket};
use rdm_arguments::PortKind;
use rdm_client::Told;
use rdm_files::{ClientCall, ClientFile, SessionFile};
use rdm_line::Line;
use rdm_locked::{Blank, Ledger};
use rdm_log::{Config, Log, MOST_PLACES, Setup, laws};
use rdm_queue::Session;
use rdm_reports::{Discovered, Outcomes, Progress};
use rdm_wire::Uid;
use std::alloc::Global;
use std::sync::Wait;
use std::thread::Threads;

/// Why not all calls of a session are settled.
#[derive(Clone, Copy, PartialEq, Eq)]
pub enum ServeFault {
    /// There was no memory.
    Memory,
    /// The log is full.
    Log,
    /// A client or the worker has made all its turns.
    Turns,
    /// The outcomes of a session differ from its log or its file. Only a defect of the program causes this.
    Defect,
}

/// What a session starts with.
#[derive(Drop)]
pub struct Start {
    /// How it is set up.
    pub setup: Setup,
    /// Its log, which is empty.
    pub log: Log,
    /// How many turns the worker and each client may make.
    pub turns: u64,
}

/// What is left of a session.
#[derive(Drop)]
pub struct Served {
    /// The outcomes of each client's calls, in the order of the clients.
    pub outcomes: Vec<Outcomes>,
    /// The session, with its log.
    pub session: Session,
    /// With ring buffers: how many slots the first client's rings had, the one for its calls and the one for its
    /// outcomes. None with a mutex, or without clients.
    pub slots: Option<(usize, usize)>,
    /// With ring buffers: how many turns the worker made, if it stopped because it had made all of them. None with a
    /// mutex, or if it stopped for another reason.
    pub ran_out: Option<u64>,
}

/// Serves a session on a line, which is dropped at the end. It returns the outcomes of each client's calls, with the
/// session and its log. The log has exactly the file's clients and calls, and its opening the file's source and budget.
/// Each outcome has its call's tag. It agrees with that log in its status and the number of its bytes, or in its fault.
/// The worker made at most as many exchanges as `turns` says, and each client at most as many turns. With ring buffers,
/// each of the first client's rings had as many slots as the file says. The file's scene isn't used. To serve it, take
/// it out of the file and pass `SimLine::new(alloc, scene)` as the line.
///
/// The file's fields must be in their ranges: the source isn't broadcast ([`Uid::is_broadcast`]), the budget and the
/// ring are at least 1, and the log is at most [`MOST_FREE_ENTRIES`](rdm_queue::MOST_FREE_ENTRIES). Those of a file
/// that was read are.
///
/// Err: there was no memory; or else the log is full; or else a client or the worker has made all its turns; or else
/// the outcomes differ from the log or the file.
pub fn serve<
    L: Ledger + Send + Sync,
    X: Line + Send + Drop,
    P: Progress + Send,
    R: Threads + Wait + Sync,
>(
    rt: &R,
    alloc: Global,
    blank: Blank,
    port: PortKind,
    file: SessionFile,
    line: X,
    progress: &mut P,
) -> Result<Served, ServeFault>
    requires may_serve { MayServe L.name L.parts L.lists blank file.source file.budget file.ring file.log }
    ensures served { IfOk result (IsServedBy port file.clients.items file.ring file.turns) }
    ensures set_up { IfOk result (λ s. IsSetUp file.source file.budget file.search s.session) }
{
    let clients = &file.clients;
    let Ok(log) = Log::new(alloc, file.log as usize) else {
        return Err(ServeFault::Memory);
    };
    let line = ProgressLine::new(line, progress);
    let start = Start {
        setup: Setup {
            config: config_of(file.source, file.budget, clients),
            search: file.search,
        },
        log,
        turns: file.turns,
    };
    let served = match port {
        PortKind::Locked => serve_locked::<L, _, R>(rt, alloc, blank, start, clients, line),
        PortKind::Rings => serve_rings(rt, alloc, start, file.ring, clients, line),
    };
    match served {
        Ok(served) => settled(alloc, &file, served),
        Err(fault) => Err(fault),
    }
}

// What is left of the session, if it agrees with the file.
fn settled(alloc: Global, file: &SessionFile, served: Served) -> Result<Served, ServeFault>
    ensures agrees { IfOk result (AgreesWith file.now) }
    ensures same { IfOk result (λ s. s ≡ served) }
    ensures turns { result ≡ Err ServeFault.Turns → AllSettled file.now.clients.items served.outcomes.items → ⊥ }
{
    match compare_with_file(alloc, file, &served) {
        Ok(()) => Ok(served),
        Err(fault) => Err(fault),
    }
}

// Compares what is left of the session with the file. A log with fewer than three free entries would have refused the
// worker's next frame, so it is full, even if no frame was left. If all calls have outcomes, only a defect of the
// program can make these differ from the log or the file. The log has each outcome, the file's set-up and exactly its
// calls. Each client made enough turns, and not too many.
fn compare_with_file(alloc: Global, file: &SessionFile, served: &Served) -> Result<(), ServeFault>
    ensures agrees { OnOk result (AgreesWith file.now served.now) }
    ensures turns { result ≡ Err ServeFault.Turns → AllSettled file.now.clients.items served.now.outcomes.items → ⊥ }
{
    let (log, outcomes) = (served.session.log(), &served.outcomes);
    // The log was opened to keep its entries, and nobody drains it here, so it stores all of them.
    if served.session.is_full() || !log.keeps_all() {
        return Err(ServeFault::Log);
    }
    laws::legal_keeps_promises();
    let Ok(is_logged) = are_logged(alloc, log, outcomes) else {
        return Err(ServeFault::Memory);
    };
    let is_called = has_calls(all_entries(log), &file.clients);
    let is_set_up = is_set_up(log, file);
    let are_in_turns = all_in_turns(file.turns, outcomes);
    if !have_all(&file.clients, outcomes) {
        return Err(ServeFault::Turns);
    }
    let is_settled = all_settled(&file.clients, outcomes);
    if is_logged && is_called && is_set_up && are_in_turns && is_settled {
        Ok(())
    } else {
        Err(ServeFault::Defect)
    }
}

// The configuration whose places are the sum of the clients' queue depths.
fn config_of(source: Uid, budget: u64, clients: &[ClientFile]) -> Config
    requires source { IsDevice source }
    requires budget { 1 ≤ budget }
    ensures { IsConfig result }
{
    let mut places: u16 = 0;
    for client in clients {
        places = places.saturating_add(u16::from(client.places));
    }
    Config {
        source,
        places: places.min(MOST_PLACES),
        budget,
    }
}

// Whether a session began as the file says.
fn is_set_up(log: &Log, file: &SessionFile) -> bool
    ensures { OnTrue result (IsSetUp file.now.source file.now.budget file.now.search log.now) }
{
    let opening = log.opening();
    opening.source == file.source && opening.budget == file.budget && opening.search == file.search
}

// Whether a client made at most this many turns, and at least two for each outcome.
fn is_in_turns(turns: u64, outcomes: &Outcomes) -> bool
    ensures { OnTrue result (IsInTurns turns outcomes.now) }
{
    let told = outcomes.requests.len() + outcomes.discoveries.len();
    told as u64 <= outcomes.turns / 2 && outcomes.turns <= turns
}

// Whether the same holds of each client.
fn all_in_turns(turns: u64, outcomes: &[Outcomes]) -> bool
    ensures { OnTrue result (All (IsInTurns turns) outcomes.now) }
{
    outcomes.iter().all(|client| is_in_turns(turns, client))
}

// Whether no client has fewer outcomes than calls. Clients without outcomes of their own aren't compared.
fn have_all(clients: &[ClientFile], outcomes: &[Outcomes]) -> bool
    ensures { AllSettled clients.now outcomes.now → result ≡ true }
{
    let count = clients.len().min(outcomes.len());
    for i in 0..count {
        let told = &outcomes[i];
        if told.requests.len() + told.discoveries.len() < clients[i].calls.len() {
            return false;
        }
    }
    true
}

// Whether each client's calls have all their outcomes.
fn all_settled(clients: &[ClientFile], outcomes: &[Outcomes]) -> bool
    ensures { OnTrue result (AllSettled clients.now outcomes.now) }
{
    if clients.len() != outcomes.len() {
        return false;
    }
    'clients: for i in 0..clients.len() {
        if !is_settled(&clients[i].calls, &outcomes[i]) {
            return false;
        }
    }
    true
}

// Whether each call has its outcome, in order.
fn is_settled(calls: &[ClientCall], outcomes: &Outcomes) -> bool
    ensures { OnTrue result (IsSettled calls.now outcomes.now) }
{
    are_of_requests(calls, &outcomes.requests) && are_of_discoveries(calls, &outcomes.discoveries)
}

// Whether these are the outcomes of the requests among the calls, in order.
fn are_of_requests(calls: &[ClientCall], outcomes: &[Told]) -> bool
    ensures { OnTrue result (map (λ (t : Told). t.tag) outcomes.now ≡ indices_of is_request 0 calls.now) }
{
    let mut count = 0;
    'calls: for call_index in 0..calls.len() {
        match &calls[call_index] {
            ClientCall::Submit(_) => {
                if count == outcomes.len() || outcomes[count].tag != call_index as u64 {
                    return false;
                }
                count += 1;
            }
            ClientCall::Discover(_) => {}
        }
    }
    count == outcomes.len()
}

// Whether these are the outcomes of the discoveries among the calls, in order.
fn are_of_discoveries(calls: &[ClientCall], outcomes: &[Discovered]) -> bool
    ensures { OnTrue result (map (λ (d : Discovered). d.tag) outcomes.now ≡ indices_of is_ask 0 calls.now) }
{
    let mut count = 0;
    'calls: for call_index in 0..calls.len() {
        match &calls[call_index] {
            ClientCall::Discover(_) => {
                if count == outcomes.len() || outcomes[count].tag != call_index as u64 {
                    return false;
                }
                count += 1;
            }
            ClientCall::Submit(_) => {}
        }
    }
    count == outcomes.len()
}
