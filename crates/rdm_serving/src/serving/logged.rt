//! Compares what the clients' callbacks returned with the session's log.
ghost use Rattle.std.specs.Prelude.{◌≡◌, ◌-◌, List, IfOk, map, slice_get};
ghost use Rattle.std.specs.Bool.{OnTrue};
ghost use Rattle.rdm_log.specs.log.Entries.{accepts, asks};
ghost use Rattle.rdm_log.specs.log.LogState.{stored};
ghost use Rattle.rdm_log.specs.log.Clients.{is_client_of};
ghost use Rattle.rdm_log.specs.declared.entry.Entry.{Entry as EntryState};
ghost use Rattle.rdm_reports.specs.declared.outcomes.Discovered.{Discovered as DiscoveredState};
ghost use Rattle.rdm_serving.specs.LoggedOutcomes.{AllLogged, AreLogged, end_told, end_logged, ends_logged};
ghost use Rattle.rdm_serving.specs.LoggedOutcomes.{fault_logged, faults_logged};

use rdm_agent::AgentFault;
use rdm_client::Told;
use rdm_join::Status;
use rdm_log::{Entry, Log, Opening};
use rdm_reports::{Discovered, Outcomes};
use std::alloc::{AllocError, Global};

/// Whether each client received the outcomes of all its requests and discoveries that ended, in order, and each agrees
/// with the log: a request in its status and the number of its bytes, a discovery in its fault. False too if the log
/// doesn't store all its entries. Err: there was no memory.
pub fn are_logged(alloc: Global, log: &Log, told: &[Outcomes]) -> Result<bool, AllocError>
    ensures { IfOk result (λ same. OnTrue same (AllLogged log.now.opening log.now.entries 0 told.now)) }
{
    if !log.keeps_all() {
        return Ok(false);
    }
    are_all_logged(alloc, log, told)
}

// The same for a log that stores all its entries.
fn are_all_logged(alloc: Global, log: &Log, told: &[Outcomes]) -> Result<bool, AllocError>
    requires whole { stored log.now ≡ log.now.entries }
    ensures { IfOk result (λ same. OnTrue same (AllLogged log.now.opening log.now.entries 0 told.now)) }
{
    let askers = Askers::new(alloc, log)?;
    'clients: for client in 0..told.len() {
        if !is_logged(log, &askers, client, &told[client]) {
            return Ok(false);
        }
    }
    Ok(true)
}

/// All entries of a log that stores them all.
pub fn all_entries(log: &Log) -> &[Entry]
    requires { stored log.now ≡ log.now.entries }
    ensures { result.now ≡ log.now.entries }
{
    log.entries()
}

// The clients of a log's requests, and of its discoveries, by number.
#[derive(Drop)]
struct Askers {
    requests: Vec<u8>,
    discoveries: Vec<u8>,
}

impl Askers {
    fn new(alloc: Global, log: &Log) -> Result<Askers, AllocError>
        requires whole { stored log.now ≡ log.now.entries }
        ensures requests { IfOk result (λ a. a.requests.items ≡ map (λ s. s.client) (accepts log.now.entries)) }
        ensures discoveries { IfOk result (λ a. a.discoveries.items ≡ map (λ s. s.client) (asks log.now.entries)) }
    {
        Ok(Askers {
            requests: submitters(alloc, all_entries(log))?,
            discoveries: discoverers(alloc, all_entries(log))?,
        })
    }
}

// The clients of the requests, in order.
fn submitters(alloc: Global, entries: &[Entry]) -> Result<Vec<u8>, AllocError>
    ensures { IfOk result (λ clients. clients.items ≡ map (λ s. s.client) (accepts entries.now)) }
{
    let mut clients = Vec::new(alloc);
    'entries: for entry in entries {
        if let Entry::Accept { client, .. } = entry {
            clients.push(client.0)?;
        }
    }
    Ok(clients)
}

// The clients of the discoveries, in order.
fn discoverers(alloc: Global, entries: &[Entry]) -> Result<Vec<u8>, AllocError>
    ensures { IfOk result (λ clients. clients.items ≡ map (λ s. s.client) (asks entries.now)) }
{
    let mut clients = Vec::new(alloc);
    'entries: for entry in entries {
        if let Entry::Ask { client, .. } = entry {
            clients.push(client.0)?;
        }
    }
    Ok(clients)
}

fn is_logged(log: &Log, askers: &Askers, client: usize, told: &Outcomes) -> bool
    requires whole { stored log.now ≡ log.now.entries }
    requires requests { askers.now.requests.items ≡ map (λ s. s.client) (accepts log.now.entries) }
    requires discoveries { askers.now.discoveries.items ≡ map (λ s. s.client) (asks log.now.entries) }
    ensures { OnTrue result (AreLogged log.now.opening log.now.entries client told.now) }
{
    let (opening, entries) = (log.opening(), all_entries(log));
    are_requests_logged(opening, entries, &askers.requests, client, &told.requests)
        && are_discoveries_logged(
            opening,
            entries,
            &askers.discoveries,
            client,
            &told.discoveries,
        )
}

fn are_requests_logged(
    opening: &Opening,
    entries: &[Entry],
    askers: &[u8],
    client: usize,
    told: &[Told],
) -> bool
    requires { askers.now ≡ map (λ s. s.client) (accepts entries.now) }
    ensures { OnTrue result (ends_logged opening.now client entries.now ≡ map end_told told.now) }
{
    let mut left = told;
    'entries: for entry in entries {
        let Some(end) = end_logged(opening, askers, client, entry) else {
            continue;
        };
        let Some((told, later)) = left.split_first() else {
            return false;
        };
        if !ended_so(told, end) {
            return false;
        }
        left = later;
    }
    left.is_empty()
}

// How a request of this client ended, if the entry is its Finish.
fn end_logged(
    opening: &Opening,
    askers: &[u8],
    client: usize,
    entry: &Entry,
) -> Option<(Status, usize)>
    ensures { (h : List EntryState) → askers.now ≡ map (λ s. s.client) (accepts h)
        → result ≡ end_logged opening.now client h entry.now }
{
    match entry {
        Entry::Finish {
            number,
            status,
            len,
        } if is_asker(askers, opening.next_request, *number, client) => Some((*status, *len)),
        _ => None,
    }
}

// Whether the call with this number is the client's, if the first one has that number.
fn is_asker(askers: &[u8], first: u64, number: u64, client: usize) -> bool
    ensures { result ≡ is_client_of client (slice_get askers.now (number - first)) }
{
    match askers.get(number.saturating_sub(first) as usize) {
        Some(asker) => client == usize::from(*asker),
        None => false,
    }
}

// Whether this is how a request ended.
fn ended_so(told: &Told, end: (Status, usize)) -> bool
    ensures { OnTrue result (end ≡ end_told told.now) }
{
    let (status, len) = end;
    told.done.status == status && told.done.bytes.len() == len
}

fn are_discoveries_logged(
    opening: &Opening,
    entries: &[Entry],
    askers: &[u8],
    client: usize,
    told: &[Discovered],
) -> bool
    requires { askers.now ≡ map (λ s. s.client) (asks entries.now) }
    ensures { OnTrue result (faults_logged opening.now client entries.now
        ≡ map (λ (d : DiscoveredState). d.fault) told.now) }
{
    let mut left = told;
    'entries: for entry in entries {
        let Some(fault) = fault_logged(opening, askers, client, entry) else {
            continue;
        };
        let Some((told, later)) = left.split_first() else {
            return false;
        };
        if !had_fault(told, fault) {
            return false;
        }
        left = later;
    }
    left.is_empty()
}

// The fault with which a discovery of this client ended, if any, if the entry is its Answer.
fn fault_logged(
    opening: &Opening,
    askers: &[u8],
    client: usize,
    entry: &Entry,
) -> Option<Option<AgentFault>>
    ensures { (h : List EntryState) → askers.now ≡ map (λ s. s.client) (asks h)
        → result ≡ fault_logged opening.now client h entry.now }
{
    match entry {
        Entry::Answer { number, fault, .. }
            if is_asker(askers, opening.next_ask, *number, client) => { Some(*fault) }
        _ => None,
    }
}

// Whether a discovery ended with this fault, or with none.
fn had_fault(told: &Discovered, fault: Option<AgentFault>) -> bool
    ensures { OnTrue result (fault ≡ told.now.fault) }
{
    told.fault == fault
}
