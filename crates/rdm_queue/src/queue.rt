//! The requests and discoveries that wait, the run that serves these, and the outcomes that wait for their clients.
ghost use Rattle.std.specs.Prelude.{◌≡◌, ◌≤◌, length, IfSome, IfNone, Some, None, if◌then◌else◌};
ghost use Rattle.rdm_log.specs.declared.fault.WorkFault.TheVariants.{Full};
ghost use Rattle.rdm_queue.specs.body.Rings.{value_shown};
ghost use Rattle.rdm_queue.specs.body.Fields.{places_of};

mod ending;

use crate::client::{Client, Waiting};
use crate::oldest::Oldest;
use crate::pending::{Asked, Awaited, Running};
use crate::takes_devices::TakesDevices;
use arrayvec::ArrayVec;
use rdm_agent::{Agent, Kind, MOST_APART, Op, Search};
use rdm_join::{Joiner, Sent};
use rdm_log::{
    AskCompletion, BrokenAnswers, ClientId, Completion, Config, DiscoveryEnd, JoinFault,
    MOST_CLIENTS, Opening, Outcome, Owner, Setup, Work, WorkFault,
};
use rdm_wire::{DeviceSet, Frame, Request, Uid, UidSet, encode_request};
use std::alloc::Global;
use std::collections::VecDeque;
use std::marker::Model;

/// How many discoveries all clients together have outstanding, at most.
const MOST_ASKED: usize = 64;

/// What a controller holds. Contracts see its state: the unfinished requests, what was sent, and the uncollected
/// outcomes.
#[derive(Debug, Drop)]
pub(crate) struct Queue {
    config: Config,
    /// How its runs search.
    search: Search,
    /// The clients, each with the rings of what it has outstanding.
    clients: ArrayVec<Client, MOST_CLIENTS, Global>,
    /// The client of each unfinished request, oldest first.
    owners: VecDeque<u8>,
    paused: bool,
    closed: bool,
    next_request: u64,
    next_tn: u8,
    /// What was sent, while its reply is awaited.
    awaited: Option<Awaited>,
    /// Whether a frame was sent for the oldest unfinished request.
    under_way: bool,
    /// The replies to the oldest unfinished request.
    joiner: Joiner,
    /// How the oldest unfinished request has ended, until it is finished.
    decided: Option<Completion>,
    next_ask: u64,
    next_run: u64,
    /// The discoveries that aren't answered, oldest first.
    asked: ArrayVec<Asked, MOST_ASKED, Global>,
    run: Option<Running>,
    /// The agent of the run that began last.
    agent: Agent,
    /// The devices of the last run without fault, and that run; none and 0 before the first.
    devices: DeviceSet,
    devices_run: u64,
    /// What GETs asked for whose answers broke off.
    broken: BrokenAnswers,
}

impl Model for Queue {
    ghost use Rattle.rdm_queue.specs.body.State.{QueueState};

    ghost Value = { QueueState };

    ghost use Rattle.rdm_queue.specs.body.Fields.{state_of};
    ghost use Rattle.rdm_queue.specs.body.QueueInvariant.{QueueInvariant, AreOwners};
    ghost use Rattle.std.specs.VecDeque.{deque_capacity};

    ghost view = { state_of };

    ghost invariant = { λ c. QueueInvariant (state_of c) c.clients.items
        × AreOwners (state_of c).waiting c.config.places c.owners.items (deque_capacity c.owners) };
}

impl Queue {
    ghost use Rattle.std.specs.Prelude.{◌≡◌, ◌<◌, ◌+◌, ◌-◌, ◌*◌, ◌++◌, ◌∷◌, [], ℕ, Bool, ◌==◌, ◌&&◌, false, true, List};
    ghost use Rattle.std.specs.Prelude.{length, drop, sum, map, IfOk, IfErr, IfSome, IfNone, OnOk, OnErr, OnSome};
    ghost use Rattle.std.specs.Prelude.{Some, None};
    ghost use Rattle.std.specs.VecDeque.{deque_capacity};
    ghost use Rattle.std.specs.Prelude.{is_some, option_map, slice_get, if◌then◌else◌, ◌≢◌, ◌≤◌};
    ghost use Rattle.rdm_wire.specs.Devices.{uids_of};
    ghost use Rattle.std.specs.List.{AllByRecursion};
    ghost use Rattle.rdm_agent.specs.Calls.{HasRunBy, AfterEach};
    ghost use Rattle.rdm_agent.specs.Cause.{WasBad};
    ghost use Rattle.rdm_log.specs.promises.Outcomes.{outcome_value, request_outcome, discovery_outcome};
    ghost use Rattle.rdm_log.specs.declared.outcome.OutcomeKind.TheVariants as kinds;
    ghost use Rattle.rdm_log.specs.promises.Blocks.{RefusesJoin};
    ghost use Rattle.rdm_queue.specs.body.Fields.{accepted_is, run_is};
    ghost use Rattle.rdm_log.specs.log.Config.{IsConfig};
    ghost use Rattle.rdm_log.specs.log.Entries.{Accepted, AskedDiscovery};
    ghost use Rattle.rdm_queue.specs.body.State.{QueueState, first_state, first_join_fault, first_submit_fault};
    ghost use Rattle.rdm_queue.specs.body.State.{first_ask_fault, first_fault, number_for, asked_of, joins_client};
    ghost use Rattle.rdm_queue.specs.body.State.{accepts_work, accepts_request, asks_discovery, collects_oldest};
    ghost use Rattle.rdm_queue.specs.body.State.{owed_to, uncollected, first_kind, CollectsOldest, opening_of};
    ghost use Rattle.rdm_queue.specs.body.State.{flags_to};
    ghost use Rattle.rdm_queue.specs.body.Sending.{to_send, request_to_send, run_to_send, IsGiven, GivesRequest};
    ghost use Rattle.rdm_queue.specs.body.Sending.{GivesRun, begun, kind_of};
    ghost use Rattle.rdm_queue.specs.promises.Oldest.{flag_shown};

    /// A queue without clients, neither paused nor closed, whose numbers begin at 0. The ring for its owners is empty.
    pub(crate) fn new(alloc: Global, setup: Setup, owners: VecDeque<u8>) -> Queue
        requires config_is { IsConfig setup.config }
        requires empty { owners.items ≡ [] }
        requires room { deque_capacity owners ≡ setup.config.places }
        ensures { result ≡ first_state setup }
    {
        Queue {
            config: setup.config,
            search: setup.search,
            clients: ArrayVec::new_in(alloc),
            owners,
            paused: false,
            closed: false,
            next_request: 0,
            next_tn: 0,
            awaited: None,
            under_way: false,
            joiner: Joiner::new(),
            decided: None,
            next_ask: 0,
            next_run: 1,
            asked: ArrayVec::new_in(alloc),
            run: None,
            agent: Agent::start(Kind::Full, &UidSet::new(), setup.config.budget),
            devices: DeviceSet::new(),
            devices_run: 0,
            broken: BrokenAnswers::new(),
        }
    }

    /// How its runs search.
    pub(crate) fn search(&self) -> Search
        ensures { result ≡ self.now.search }
    {
        self.search
    }

    // The first fault of a join, except NoMemory.
    fn join_fault(&self, places: u8) -> Option<JoinFault>
        ensures { result ≡ first_join_fault self.now places }
    {
        if self.closed {
            Some(JoinFault::Closed)
        } else if self.clients.is_full() {
            Some(JoinFault::TooManyClients)
        } else if self.given_places() + u16::from(places) > self.config.places {
            Some(JoinFault::NoPlaces)
        } else {
            None
        }
    }

    // The sum of the clients' queue depths.
    fn given_places(&self) -> u16
        ensures { result ≡ sum self.now.places }
    {
        self.clients
            .iter()
            .map(|client| u16::from(client.places))
            .sum()
    }

    /// Lets a client join, and reserves its memory.
    pub(crate) fn join_client(&mut self, alloc: Global, places: u8) -> Result<ClientId, JoinFault>
        ensures joined { IfOk result (λ c. (first_join_fault self.old places ≡ None) × (c.0 ≡ length self.old.places)
            × (self.new ≡ joins_client self.old places)) }
        ensures refused { IfErr result (λ fault. RefusesJoin (first_join_fault self.old places) fault) }
        ensures unchanged { OnErr result (self.new ≡ self.old) }
    {
        if let Some(fault) = self.join_fault(places) {
            return Err(fault);
        }
        let Ok(client) = Client::with_places(alloc, places) else {
            return Err(JoinFault::NoMemory);
        };
        let number = ClientId(self.clients.len() as u8);
        self.clients.push(client);
        Ok(number)
    }

    /// The first fault of a client's work.
    pub(crate) fn first_fault(&self, client: ClientId, work: &Work) -> Option<WorkFault>
        ensures { result ≡ first_fault self.now client.0 work.now }
    {
        if self.closed {
            return Some(WorkFault::Closed);
        }
        let Some(own) = self.clients.get(usize::from(client.0)) else {
            return Some(WorkFault::UnknownClient);
        };
        match work {
            Work::Submit(_) => full_if(own.has_most_requests(self.next_request)),
            Work::Discover(_) => {
                full_if(own.has_most_discoveries(self.asked_by(client), self.next_ask))
            }
        }
    }

    // How many discoveries of the client aren't answered.
    fn asked_by(&self, client: ClientId) -> usize
        ensures value { result ≡ length (asked_of client.0 self.now) }
        ensures fits { result ≤ 64 }
    {
        self.asked
            .iter()
            .filter(|asked| client.0 == asked.client.0)
            .count()
    }

    /// Accepts a client's work, which no fault refuses, and returns its number.
    // It is inlined: a request is large, and each call would move it there and back.
    #[inline(always)]
    pub(crate) fn add(&mut self, client: ClientId, work: Work) -> u64
        requires { first_fault self.old client.0 work ≡ None }
        ensures number { result ≡ number_for self.old work }
        ensures accepted { self.new ≡ accepts_work self.old client.0 work }
    {
        match work {
            Work::Submit(request) => self.accept_request(client, request),
            Work::Discover(kind) => self.accept_discovery(client, kind),
        }
    }

    // Accepts a request, which no fault refuses, and returns its number.
    fn accept_request(&mut self, client: ClientId, request: Request) -> u64
        requires { first_submit_fault self.old client.0 ≡ None }
        ensures number { result ≡ self.old.next_request }
        ensures accepted { self.new ≡ accepts_request self.old client.0 request }
    {
        let number = self.next_request;
        self.clients[usize::from(client.0)].accept(number, request);
        self.owners.push_back_reserved(client.0);
        self.next_request = number + 1;
        number
    }

    // Accepts a discovery, which no fault refuses, and returns its number.
    fn accept_discovery(&mut self, client: ClientId, kind: Kind) -> u64
        requires { first_ask_fault self.old client.0 ≡ None }
        ensures number { result ≡ self.old.next_ask }
        ensures accepted { self.new ≡ asks_discovery self.old client.0 kind }
    {
        let number = self.next_ask;
        self.asked.push(Asked {
            client,
            number,
            kind,
        });
        self.next_ask = number + 1;
        number
    }

    /// Pauses sending, or resumes it.
    pub(crate) fn set_paused(&mut self, paused: bool)
        ensures { self.new ≡ record self.old { paused = paused } }
    {
        self.paused = paused;
    }

    /// Refuses all later joins, submits and discovers, and sends nothing more.
    pub(crate) fn set_closed(&mut self)
        ensures { self.new ≡ record self.old { closed = true } }
    {
        self.closed = true;
    }

    /// The next frame for the line, and its owner.
    // It is inlined: a frame is large, and each call would move it.
    #[inline(always)]
    pub(crate) fn take(&mut self) -> Option<(Owner, Frame)>
        ensures none { IfNone result ((to_send self.old ≡ None) × (self.new ≡ self.old)) }
        ensures frame { IfSome result (λ given. IsGiven self.old given.0 given.1 self.new) }
    {
        if self.awaited.is_some() || self.closed {
            return None;
        }
        if self.run.is_none() {
            if self.paused {
                return None;
            }
            if self.under_way || self.asked.is_empty() {
                return self.take_request();
            }
            self.begin_run();
        }
        self.take_run()
    }

    // The frame of the oldest request, which is then under way.
    #[inline(always)]
    fn take_request(&mut self) -> Option<(Owner, Frame)>
        ensures none { IfNone result ((request_to_send self.old ≡ None) × (self.new ≡ self.old)) }
        ensures frame { IfSome result (λ given. GivesRequest self.old given.0 given.1 self.new) }
    {
        let (_, oldest) = self.oldest()?;
        let request = &oldest.request;
        let owner = Owner::Request(oldest.number);
        let frame = encode_request(request, self.config.source, self.next_tn);
        self.awaited = Some(Awaited::Request(Sent {
            target: request.target,
            source: self.config.source,
            tn: self.next_tn,
            sub_device: request.sub_device,
            class: request.class,
            pid: request.pid,
        }));
        self.next_tn = self.next_tn.wrapping_add(1);
        self.under_way = true;
        Some((owner, frame))
    }

    // Begins a run for all discoveries that wait: full if one of them is, or else from the known devices.
    fn begin_run(&mut self)
        requires none { self.old.run ≡ None }
        requires some { 0 < length self.old.asked }
        ensures begun { self.new ≡ begun self.old }
        ensures starts { HasRunBy self.old.search (kind_of self.old.asked) (uids_of self.old.devices)
            self.old.budget false [] (begun self.old).agent }
    {
        self.run = Some(Running {
            number: self.next_run,
            left: self.asked.len(),
        });
        self.next_run += 1;
        let kind = self.asked_kind();
        let known = self.devices.uids();
        let budget = self.config.budget;
        self.agent.restart(self.search, kind, &known, budget);
    }

    // Full if one of the discoveries that wait is.
    fn asked_kind(&self) -> Kind
        ensures { result ≡ kind_of self.now.asked }
    {
        if self
            .asked
            .iter()
            .any(|asked| matches!(asked.kind, Kind::Full))
        {
            Kind::Full
        } else {
            Kind::Incremental
        }
    }

    // The frame of the run's next operation; None if no run is open, or its agent has ended.
    #[inline(never)]
    fn take_run(&mut self) -> Option<(Owner, Frame)>
        ensures none { IfNone result ((run_to_send self.old ≡ None) × (self.new ≡ self.old)) }
        ensures frame { IfSome result (λ given. GivesRun self.old given.0 given.1 self.new) }
    {
        let run = self.run?;
        let op = self.agent.next();
        if op == Op::End {
            return None;
        }
        let frame = op.frame(self.config.source, self.next_tn);
        self.awaited = Some(Awaited::Run(self.next_tn));
        self.next_tn = self.next_tn.wrapping_add(1);
        Some((Owner::Run(run.number), frame))
    }

    // The oldest request, and the index of its client.
    fn oldest(&self) -> Option<(usize, &Waiting)>
        ensures { option_map (λ found. accepted_is found.0 found.1.now) result ≡ slice_get self.now.waiting 0 }
    {
        let at = usize::from(*self.owners.front()?);
        let oldest = self.clients.get(at)?.oldest()?;
        Some((at, oldest))
    }

    /// A look at a client's oldest outcome.
    pub(crate) fn oldest_outcome(&self, client: ClientId) -> Option<Oldest<'_>>
        ensures value { option_map value_shown result ≡ slice_get (owed_to client.0 self.now) 0 }
        ensures flag { option_map flag_shown result ≡ slice_get (flags_to client.0 self.now) 0 }
    {
        self.clients.get(usize::from(client.0))?.oldest_outcome()
    }

    /// Takes a client's oldest outcome out, which is then no longer outstanding.
    // It is inlined: an outcome has room for a set, and each call would fill and move all of it.
    #[inline(always)]
    pub(crate) fn next_outcome(&mut self, client: ClientId) -> Option<Outcome>
        ensures outcome { option_map outcome_value result ≡ slice_get (owed_to client.0 self.old) 0 }
        ensures removed { OnSome result (self.new ≡ collects_oldest self.old client.0) }
        ensures none { IfNone result (self.new ≡ self.old) }
    {
        if let Some((number, done)) = self.next_completion(client) {
            return Some(Outcome::Request {
                number: Some(number),
                done,
            });
        }
        // A set is made only for what is there.
        if self.oldest_outcome(client).is_none() {
            return None;
        }
        let mut set = DeviceSet::new();
        let DiscoveryEnd { number, run, fault } = self.next_discovery(client, &mut set)?;
        Some(Outcome::Discovery {
            number: Some(number),
            done: AskCompletion { run, fault, set },
        })
    }

    /// Takes a client's oldest outcome out, if that is a request's.
    #[inline(always)]
    pub(crate) fn next_completion(&mut self, client: ClientId) -> Option<(u64, Completion)>
        ensures removed { IfSome result (λ r. CollectsOldest self.old client.0
            (outcome_value (request_outcome r)) self.new) }
        ensures none { IfNone result (first_kind client.0 self.old ≢ Some kinds.Request) }
        ensures unchanged { IfNone result (self.new ≡ self.old) }
    {
        self.clients
            .get_mut(usize::from(client.0))?
            .collect_request()
    }

    /// Takes a client's oldest outcome out, if that is a discovery's. `set` takes its devices.
    pub(crate) fn next_discovery<T: TakesDevices>(
        &mut self,
        client: ClientId,
        set: &mut T,
    ) -> Option<DiscoveryEnd>
        ensures removed { IfSome result (λ end. CollectsOldest self.old client.0
            (outcome_value (discovery_outcome end (T.devices set.new))) self.new) }
        ensures none { IfNone result (first_kind client.0 self.old ≢ Some kinds.Discovery) }
        ensures unchanged { IfNone result ((self.new ≡ self.old) × (set.new ≡ set.old)) }
    {
        self.clients
            .get_mut(usize::from(client.0))?
            .collect_discovery(set)
    }

    /// The devices of the last run without fault; none before the first.
    pub(crate) fn devices(&self) -> &DeviceSet
        ensures { result.now ≡ self.now.devices }
    {
        &self.devices
    }

    /// The run that found them; 0 before the first.
    pub(crate) fn devices_run(&self) -> u64
        ensures { result ≡ self.now.devices_run }
    {
        self.devices_run
    }

    /// The UIDs that the run that began last has set apart, the newest first; none before the first run.
    pub(crate) fn bad_uids(&self) -> &[Uid]
        ensures value { result.now ≡ self.now.agent.apart }
        ensures fits { length result.now ≤ MOST_APART }
        ensures answered { AfterEach self.now.agent (λ run.
            AllByRecursion (λ u. WasBad u run.exchanges) result.now) }
    {
        self.agent.bad_uids()
    }

    /// Whether that run gave up further ones.
    pub(crate) fn has_more_bad_uids(&self) -> bool
        ensures { result ≡ self.now.agent.more }
    {
        self.agent.has_more_bad_uids()
    }

    /// The number of that run; 0 before the first.
    pub(crate) fn bad_uids_run(&self) -> u64
        ensures { result ≡ self.now.next_run - 1 }
    {
        self.next_run.saturating_sub(1)
    }

    /// The opening of a log that continues from here.
    pub(crate) fn opening(&self) -> Opening
        ensures { result ≡ opening_of self.now }
    {
        Opening {
            source: self.config.source,
            greatest: self.config.places,
            budget: self.config.budget,
            search: self.search,
            places: places_of(&self.clients),
            paused: self.paused,
            closed: self.closed,
            devices: self.devices.copied(),
            devices_run: self.devices_run,
            broken: self.broken.copied(),
            next_request: self.next_request,
            next_ask: self.next_ask,
            next_run: self.next_run,
            next_tn: self.next_tn,
        }
    }

    /// How many clients have joined.
    pub(crate) fn client_count(&self) -> usize
        ensures { result ≡ length self.now.places }
    {
        self.clients.len()
    }

    /// How many requests aren't finished.
    pub(crate) fn waiting(&self) -> usize
        ensures { result ≡ length self.now.waiting }
    {
        self.clients.iter().map(|client| client.waiting()).sum()
    }

    /// How many discoveries aren't answered.
    pub(crate) fn asked(&self) -> usize
        ensures { result ≡ length self.now.asked }
    {
        self.asked.len()
    }

    /// At least as many as `uncollected`, and two for each request that isn't finished and each discovery that isn't
    /// answered. It returns three for each request that the queue can hold, and for each of 64 discoveries: sixteen
    /// clients can have four each. It looks at no client.
    pub(crate) fn most_reserved(&self) -> usize
        ensures most { 2 * (length self.now.waiting + length self.now.asked) + uncollected self.now ≤ result }
        ensures fits { result ≤ 12432 }
    {
        3 * (usize::from(self.config.places) + MOST_ASKED)
    }

    /// How many outcomes aren't collected.
    pub(crate) fn uncollected(&self) -> usize
        ensures { result ≡ uncollected self.now }
    {
        self.clients.iter().map(|client| client.uncollected()).sum()
    }

    pub(crate) fn is_idle(&self) -> bool
        ensures { result ≡ ((length self.now.waiting == 0) && (length self.now.asked == 0)
            && (uncollected self.now == 0)) }
    {
        self.waiting() == 0 && self.asked.is_empty() && self.uncollected() == 0
    }

    pub(crate) fn is_paused(&self) -> bool
        ensures { result ≡ self.now.paused }
    {
        self.paused
    }

    pub(crate) fn is_closed(&self) -> bool
        ensures { result ≡ self.now.closed }
    {
        self.closed
    }

    /// Whether a reply is awaited.
    pub(crate) fn awaits(&self) -> bool
        ensures { result ≡ is_some self.now.awaited }
    {
        self.awaited.is_some()
    }
}

// Full if this holds.
fn full_if(is_full: bool) -> Option<WorkFault>
    ensures { result ≡ (if is_full then Some Full else None) }
{
    if is_full { Some(WorkFault::Full) } else { None }
}

// The queue depth of each client, in the order of joining.
fn places_of(clients: &[Client]) -> ArrayVec<u8, MOST_CLIENTS>
    requires { length clients.now ≤ 16 }
    ensures { result.items ≡ places_of clients.now }
{
    let mut places = ArrayVec::new();
    for client in clients {
        places.push(client.places);
    }
    places
}
