//! The runs that a log's lines have, one line after another.
ghost use Rattle.std.specs.Prelude.{◌≡◌, ℕ, List, Some, None, IfOk, length, if◌then◌else◌};
ghost use Rattle.std.specs.Option.{option_map};
ghost use Rattle.rdm_wire.specs.Devices.{uids_of};
ghost use Rattle.rdm_explain.specs.Exchanges.{seen_all};
ghost use Rattle.rdm_explain.specs.Reported.{reported_in};
ghost use Rattle.rdm_findings.specs.Starts.{has_start};
ghost use Rattle.rdm_findings.specs.Runs.{is_next, is_kind, is_search, is_number};

use crate::asks::{Asks, NO_ASKS};
use crate::flaw::first_flaw;
use crate::head::{RunHead, Start};
use crate::line::{DiscoveryOpening, LogLine, SessionOpening};
use rdm_agent::{AgentFault, Kind, Search};
use rdm_explain::{Exchange, acknowledged_devices, push_exchange};
use rdm_join::LineEvent;
use rdm_log::{Entry, Owner};
use rdm_wire::{Frame, NoMemory, Uid};
use std::alloc::Global;
use std::marker::Model;

/// What was read of a log so far: the run in progress, or what is known of the next one. Contracts see its exchanges as
/// what was asked and heard.
#[derive(Drop)]
pub(crate) struct Reading {
    head: RunHead,
    known: Option<Vec<Uid>>,
    exchanges: Vec<Exchange>,
    has_run: bool,
    // An opening like that of the run came after it, which may go on.
    reopened: bool,
    is_session: bool,
    asks: Asks,
    sent: Option<Frame>,
}

impl Model for Reading {
    ghost use Rattle.std.specs.Option.{option_map};
    ghost use Rattle.rdm_explain.specs.Exchanges.{seen_all};
    ghost use Rattle.rdm_findings.specs.Runs.{ReadState};

    ghost Value = { ReadState };

    ghost view = { λ r. record {
      run = record {
        head = r.head;
        known = option_map (λ k. k.items) r.known;
        exchanges = seen_all r.exchanges.items;
      };
      has_run = r.has_run;
      reopened = r.reopened;
      is_session = r.is_session;
      asks = r.asks;
      sent = r.sent;
    } };
}

// Nothing is known of a run.
const UNKNOWN: RunHead = RunHead {
    number: None,
    kind: None,
    search: None,
    start: Start::Unknown,
    budget: None,
    fault: None,
    flaw: None,
};

impl Reading {
    ghost use Rattle.std.specs.Prelude.{◌≡◌, ◌||◌, not, OnOk, None, Some, true, false, if◌then◌else◌};
    ghost use Rattle.std.specs.Option.{option_map};
    ghost use Rattle.rdm_wire.specs.Devices.{uids_of};
    ghost use Rattle.rdm_explain.specs.Exchanges.{seen_all};
    ghost use Rattle.rdm_findings.specs.Asked.{no_asks, asks_from};
    ghost use Rattle.rdm_findings.specs.Runs.{nothing_read, begins, begins_run, begins_log, after_line};
    ghost use Rattle.rdm_findings.specs.Runs.{after_entry, after_send};
    ghost use Rattle.rdm_findings.specs.Runs.{awaiting, unopened, begun, begun_by, discovered, continues};
    ghost use Rattle.rdm_findings.specs.Runs.{reopens, is_like, is_known, after_opening, before_discovery};
    ghost use Rattle.rdm_findings.specs.Runs.{opened_again};
    ghost use Rattle.rdm_findings.specs.Runs.{is_in_progress, is_anothers};
    ghost use Rattle.rdm_findings.specs.Runs.{with_exchange, after_event, after_end, with_end, with_other_end};
    ghost use Rattle.rdm_findings.specs.Runs.{replaces_known, with_known, known_after};

    /// Before the first line.
    pub(crate) fn new(alloc: Global) -> Reading
        ensures { result ≡ nothing_read }
    {
        Reading {
            head: UNKNOWN,
            known: None,
            exchanges: Vec::new(alloc),
            has_run: false,
            reopened: false,
            is_session: false,
            asks: NO_ASKS,
            sent: None,
        }
    }

    /// Whether a run is in progress.
    pub(crate) fn has_run(&self) -> bool
        ensures { result ≡ self.now.has_run }
    {
        self.has_run
    }

    /// What is known of the run in progress.
    pub(crate) fn head(&self) -> &RunHead
        ensures { result.now ≡ self.now.run.head }
    {
        &self.head
    }

    /// The UIDs that were known before it, if the log has them.
    pub(crate) fn known(&self) -> Option<&[Uid]>
        ensures { option_map (λ k. k.now) result ≡ self.now.run.known }
    {
        match &self.known {
            Some(known) => Some(known.as_slice()),
            None => None,
        }
    }

    /// Its exchanges.
    pub(crate) fn exchanges(&self) -> &[Exchange]
        ensures { seen_all result.now ≡ self.now.run.exchanges }
    {
        self.exchanges.as_slice()
    }

    /// Whether the run in progress, if there is one, ended before this line.
    pub(crate) fn is_ended_by(&self, line: &LogLine) -> bool
        ensures { result ≡ begins line.now self.now }
    {
        match line {
            LogLine::Discovery(opening) => !self.reopens(opening),
            LogLine::Session(_) => true,
            LogLine::Entered { entry, .. } => {
                self.begins_log(entry) || self.is_ended_by_entry(entry)
            }
            LogLine::Exchanged { number, .. } => !self.continues(*number),
        }
    }

    // Whether an opening may be that of the next part of the discovery in progress.
    fn reopens(&self, opening: &DiscoveryOpening) -> bool
        ensures { result ≡ reopens opening.now self.now }
    {
        (self.has_run && !self.is_session) && self.is_like(opening)
    }

    // Whether an opening says the same of the run in progress as its own.
    fn is_like(&self, opening: &DiscoveryOpening) -> bool
        ensures { result ≡ is_like opening.now self.now.run }
    {
        (is_kind(opening.kind, self.head.kind) && is_search(opening.search, self.head.search))
            && (is_number(opening.budget, self.head.budget) && self.knows(opening.known.as_slice()))
    }

    // Whether these UIDs were known before the run in progress.
    fn knows(&self, uids: &[Uid]) -> bool
        ensures { result ≡ is_known uids.now self.now.run.known }
    {
        match &self.known {
            Some(known) => uids == known.as_slice(),
            None => false,
        }
    }

    fn is_ended_by_entry(&self, entry: &Entry) -> bool
        ensures { result ≡ begins_run entry.now self.now }
    {
        match entry {
            Entry::Send {
                owner: Owner::Run(run),
                ..
            } => !self.is_in_progress(*run),
            _ => false,
        }
    }

    // Whether this entry begins the log of a session, without an opening.
    fn begins_log(&self, entry: &Entry) -> bool
        ensures { result ≡ (not self.now.is_session || begins_log entry.now self.now) }
    {
        !self.is_session || self.begins_another(entry)
    }

    // Whether it begins that of another session: it asks for a discovery that was answered.
    fn begins_another(&self, entry: &Entry) -> bool
        ensures { result ≡ begins_log entry.now self.now }
    {
        match entry {
            Entry::Ask { number, .. } => self.asks.is_answered(*number),
            _ => false,
        }
    }

    // Whether the run of a session with this number is in progress: its end isn't known.
    fn is_in_progress(&self, run: u64) -> bool
        ensures { result ≡ is_in_progress run self.now }
    {
        match self.head.number {
            Some(number) => (self.has_run && run == number) && self.head.fault.is_none(),
            None => false,
        }
    }

    // Whether a run with this number that begins now is another session's.
    fn is_anothers(&self, run: u64) -> bool
        ensures { result ≡ is_anothers run self.now }
    {
        match self.head.number {
            Some(number) => self.has_run && run <= number,
            None => false,
        }
    }

    // Whether the exchange of a discovery with this number continues the one in progress.
    fn continues(&self, number: u64) -> bool
        ensures { result ≡ continues number self.now }
    {
        (self.has_run && !self.is_session)
            && is_next(number, self.exchanges.as_slice(), self.head.start)
    }

    /// Takes the next line. The only error: out of memory.
    pub(crate) fn take(&mut self, alloc: Global, line: LogLine) -> Result<(), NoMemory>
        ensures { OnOk result (self.new ≡ after_line line self.old) }
    {
        match line {
            LogLine::Discovery(opening) => self.take_discovery(alloc, opening),
            LogLine::Session(opening) => self.open_session(alloc, opening),
            LogLine::Entered { entry, .. } => {
                self.continue_session(&entry);
                self.take_entry(alloc, entry)
            }
            LogLine::Exchanged {
                number,
                frame,
                event,
                ..
            } => {
                self.continue_discovery(number);
                self.add(&frame, &event)
            }
        }
    }

    fn take_discovery(
        &mut self,
        alloc: Global,
        opening: Box<DiscoveryOpening>,
    ) -> Result<(), NoMemory>
        ensures { OnOk result (self.new ≡ after_opening opening.value self.old) }
    {
        if self.reopens(&opening) {
            self.reopened = true;
            return Ok(());
        }
        self.open_discovery(alloc, opening)
    }

    fn open_discovery(
        &mut self,
        alloc: Global,
        opening: Box<DiscoveryOpening>,
    ) -> Result<(), NoMemory>
        ensures { OnOk result (self.new ≡ awaiting false (Some opening.value.kind) (Some opening.value.search)
            (Some opening.value.budget) (Some opening.value.known) no_asks) }
    {
        let known = copied(alloc, opening.known.as_slice())?;
        let (kind, search) = (Some(opening.kind), Some(opening.search));
        self.begin_log(false, kind, search, Some(opening.budget), NO_ASKS);
        self.known = Some(known);
        Ok(())
    }

    fn open_session(&mut self, alloc: Global, opening: Box<SessionOpening>) -> Result<(), NoMemory>
        ensures { OnOk result (self.new ≡ awaiting true None (Some opening.value.opening.search)
            (Some opening.value.opening.budget) (Some (uids_of opening.value.opening.devices))
            (asks_from opening.value.opening.next_ask opening.value.opening.next_run)) }
    {
        let known = copied(alloc, opening.opening.devices.uids().as_slice())?;
        let asks = Asks::from(opening.opening.next_ask, opening.opening.next_run);
        let budget = Some(opening.opening.budget);
        let search = Some(opening.opening.search);
        self.begin_log(true, None, search, budget, asks);
        self.known = Some(known);
        Ok(())
    }

    // A log begins. This is known of its next run.
    fn begin_log(
        &mut self,
        is_session: bool,
        kind: Option<Kind>,
        search: Option<Search>,
        budget: Option<u64>,
        asks: Asks,
    )
        ensures { self.new ≡ awaiting is_session kind search budget None asks }
    {
        self.head = RunHead {
            number: None,
            kind,
            search,
            start: Start::Unknown,
            budget,
            fault: None,
            flaw: None,
        };
        self.known = None;
        self.exchanges.clear();
        self.has_run = false;
        self.reopened = false;
        self.is_session = is_session;
        self.asks = asks;
        self.sent = None;
    }

    // An entry comes, which may begin the log of a session, without an opening.
    fn continue_session(&mut self, entry: &Entry)
        ensures { self.new ≡ (if not self.old.is_session || begins_log entry.now self.old then unopened true
            else self.old) }
    {
        if self.begins_log(entry) {
            self.begin_log(true, None, None, None, NO_ASKS);
        }
    }

    // The exchange of a discovery with this number comes.
    fn continue_discovery(&mut self, number: u64)
        ensures { self.new ≡ (if continues number self.old then self.old else discovered number self.old) }
    {
        if self.continues(number) {
            return;
        }
        self.begin_discovery();
        self.head.start = Start::At(number);
        self.has_run = true;
    }

    // A discovery begins. An opening is that of one.
    fn begin_discovery(&mut self)
        ensures { self.new ≡ before_discovery self.old }
    {
        if self.reopened {
            self.open_again();
        } else if self.is_session || self.has_run {
            self.begin_log(false, None, None, None, NO_ASKS);
        }
    }

    // The opening that came after a run which is like it is that of the next discovery.
    fn open_again(&mut self)
        ensures { self.new ≡ opened_again self.old }
    {
        let known = self.known.take();
        let (kind, search, budget) = (self.head.kind, self.head.search, self.head.budget);
        self.begin_log(false, kind, search, budget, NO_ASKS);
        self.known = known;
    }

    // A run of a session begins, or that of another one, of which nothing else is known.
    fn begin_any_run(&mut self, alloc: Global, run: u64) -> Result<(), NoMemory>
        ensures { OnOk result (self.new ≡ begun_by run self.old) }
    {
        if self.is_anothers(run) {
            self.begin_log(true, None, None, None, NO_ASKS);
        }
        self.begin_run(alloc, run)
    }

    // A run of a session begins, or the log begins within it.
    fn begin_run(&mut self, alloc: Global, run: u64) -> Result<(), NoMemory>
        ensures { OnOk result (self.new ≡ begun run self.old) }
    {
        self.learn(alloc)?;
        self.head = RunHead {
            number: Some(run),
            kind: self.asks.kind_of_run(run),
            search: self.head.search,
            start: self.asks.start_of(run),
            budget: self.head.budget,
            fault: None,
            flaw: None,
        };
        self.asks.run(run);
        self.exchanges.clear();
        self.has_run = true;
        self.reopened = false;
        self.sent = None;
        Ok(())
    }

    // Learns which UIDs are known when the next run of a session begins.
    fn learn(&mut self, alloc: Global) -> Result<(), NoMemory>
        ensures { OnOk result (self.new ≡ with_known (known_after self.old) self.old) }
    {
        if self.has_run {
            match self.head.fault {
                None => self.known = None,
                Some(None) => {
                    self.known = reported(alloc, self.head.start, self.exchanges.as_slice())?;
                }
                Some(Some(_)) => {}
            }
        }
        Ok(())
    }

    // Adds an exchange.
    fn add(&mut self, frame: &Frame, event: &LineEvent) -> Result<(), NoMemory>
        ensures { OnOk result (self.new ≡ with_exchange frame.now event.now self.old) }
    {
        self.sent = None;
        self.reopened = false;
        self.head.flaw = first_flaw(self.head.flaw, frame, event);
        push_exchange(&mut self.exchanges, frame, event)
    }

    fn take_entry(&mut self, alloc: Global, entry: Entry) -> Result<(), NoMemory>
        ensures { OnOk result (self.new ≡ after_entry entry self.old) }
    {
        match entry {
            Entry::Send { owner, frame } => self.take_send(alloc, owner, frame),
            Entry::Came { event } => self.take_event(&event),
            Entry::Ask { number, kind, .. } => {
                self.asks.ask(number, kind);
                Ok(())
            }
            Entry::Answer { number, run, fault } => {
                self.take_end(run, fault);
                self.asks.answer(number, run);
                Ok(())
            }
            _ => Ok(()),
        }
    }

    fn take_send(&mut self, alloc: Global, owner: Owner, frame: Frame) -> Result<(), NoMemory>
        ensures { OnOk result (self.new ≡ after_send owner frame self.old) }
    {
        match owner {
            Owner::Request(_) => self.sent = None,
            Owner::Run(run) => {
                if !self.is_in_progress(run) {
                    self.begin_any_run(alloc, run)?;
                }
                self.sent = Some(frame);
            }
        }
        Ok(())
    }

    fn take_event(&mut self, event: &LineEvent) -> Result<(), NoMemory>
        ensures { OnOk result (self.new ≡ after_event self.old.sent event.now self.old) }
    {
        match self.sent.take() {
            Some(frame) => self.add(&frame, event),
            None => Ok(()),
        }
    }

    fn take_end(&mut self, run: u64, fault: Option<AgentFault>)
        ensures { self.new ≡ after_end run fault self.old }
    {
        if self.is_in_progress(run) {
            self.head.fault = Some(fault);
        } else if !self.has_run && fault.is_none() {
            // It replaced the known UIDs, and the log doesn't have its exchanges.
            self.known = None;
        }
    }
}

// A list with the same UIDs.
fn copied(alloc: Global, uids: &[Uid]) -> Result<Vec<Uid>, NoMemory>
    ensures { IfOk result (λ list. list.items ≡ uids.now) }
{
    match Vec::from_slice(alloc, uids) {
        Ok(list) => Ok(list),
        Err(_) => Err(NoMemory),
    }
}

fn is_kind(kind: Kind, other: Option<Kind>) -> bool
    ensures { result ≡ is_kind kind other }
{
    match (kind, other) {
        (Kind::Full, Some(Kind::Full)) => true,
        (Kind::Incremental, Some(Kind::Incremental)) => true,
        _ => false,
    }
}

fn is_search(search: Search, other: Option<Search>) -> bool
    ensures { result ≡ is_search search other }
{
    match (search, other) {
        (Search::Steady, Some(Search::Steady)) => true,
        (Search::Quick, Some(Search::Quick)) => true,
        _ => false,
    }
}

fn is_number(number: u64, other: Option<u64>) -> bool
    ensures { result ≡ is_number number other }
{
    match other {
        Some(other) => number == other,
        None => false,
    }
}

// Whether this is the number of a discovery's next exchange.
fn is_next(number: u64, exchanges: &[Exchange], start: Start) -> bool
    ensures { result ≡ is_next number (length (seen_all exchanges.now)) start }
{
    match start {
        Start::At(first) => match first.checked_add(exchanges.len() as u64) {
            Some(next) => next == number,
            None => false,
        },
        Start::Later | Start::Unknown => false,
    }
}

// The UIDs that a run without a fault reports, if the log has all of the run.
fn reported(
    alloc: Global,
    start: Start,
    exchanges: &[Exchange],
) -> Result<Option<Vec<Uid>>, NoMemory>
    ensures { IfOk result (λ known. option_map (λ k. k.items) known
        ≡ (if has_start start then Some (uids_of (reported_in (seen_all exchanges.now))) else None)) }
{
    if !start.is_first() {
        return Ok(None);
    }
    let devices = acknowledged_devices(exchanges);
    Ok(Some(copied(alloc, devices.uids().as_slice())?))
}
