//! What a client of a session file does in its turns, whichever port it has.
ghost use Rattle.std.specs.Prelude.{◌≡◌, ◌⊎◌, ◌<◌, ◌+◌, ◌^◌, ◌&&◌, ◌++◌, ◌∷◌, ◌↔◌, [], length, true, false, not};
ghost use Rattle.std.specs.Prelude.{nat_lt, if◌then◌else◌, OnOk, IfErr, Ok, Err, None};
ghost use Rattle.rdm_serving.specs.body.Scripts.{IsNext, Notes, has_all};

use crate::serving::ServeFault;
use rdm_client::Collected;
use rdm_files::ClientCall;
use rdm_reports::{Discovered, Outcomes};
use std::alloc::Global;

/// A client's calls, and their outcomes.
#[derive(Drop)]
pub struct Script<'a> {
    calls: &'a [ClientCall],
    // How many of the calls were accepted.
    accepted: usize,
    // Whether the last call found the queue or the ring full, so that a collect comes before the next try.
    is_full: bool,
    outcomes: Outcomes,
}

/// What a client does in its next turn.
pub enum Next<'a> {
    /// It makes this call, which has this index among its calls.
    Call(&'a ClientCall, u64),
    /// It collects.
    Collect,
    /// Each call has its outcome.
    Done,
}

impl<'a> Script<'a> {
    /// A client that has made none of these calls.
    pub fn new(alloc: Global, calls: &'a [ClientCall]) -> Script<'a>
        ensures calls { result.calls.now ≡ calls.now }
        ensures none_made { (result.accepted ≡ 0) × (result.is_full ≡ false) }
        ensures none_told { (result.outcomes.requests.items ≡ []) × (result.outcomes.discoveries.items ≡ []) }
        ensures no_turn { result.outcomes.turns ≡ 0 }
    {
        Script {
            calls,
            accepted: 0,
            is_full: false,
            outcomes: Outcomes::new(alloc),
        }
    }

    /// What the client does in its next turn. It makes its calls in order. After a call that found the queue or the
    /// ring full it collects before it tries again. At the end it collects until each call has its outcome.
    pub fn next(&self) -> Next<'a>
        ensures { IsNext self.now result }
    {
        if self.is_settled() {
            return Next::Done;
        }
        match self.calls.get(self.accepted) {
            Some(call) if !self.is_full => Next::Call(call, self.accepted as u64),
            _ => Next::Collect,
        }
    }

    /// Counts a turn. The client has made fewer than [`u64::MAX`].
    pub fn count_turn(&mut self)
        requires countable { self.old.outcomes.turns + 1 < 2 ^ 64 }
        ensures counted { self.new.outcomes.turns ≡ self.old.outcomes.turns + 1 }
        ensures outcomes { (self.new.outcomes.requests ≡ self.old.outcomes.requests)
            × (self.new.outcomes.discoveries ≡ self.old.outcomes.discoveries) }
        ensures same { (self.new.calls ≡ self.old.calls) × (self.new.accepted ≡ self.old.accepted)
            × (self.new.is_full ≡ self.old.is_full) }
    {
        self.outcomes.turns += 1;
    }

    /// Records whether a call was accepted. If not, the queue or the ring was full.
    pub fn tried(&mut self, is_accepted: bool)
        ensures room { self.new.is_full ≡ not is_accepted }
        ensures accepted { self.new.accepted ≡
            (if is_accepted && nat_lt self.old.accepted (length self.old.calls.now) then self.old.accepted + 1
            else self.old.accepted) }
        ensures same { (self.new.calls ≡ self.old.calls) × (self.new.outcomes ≡ self.old.outcomes) }
    {
        self.is_full = !is_accepted;
        if is_accepted && self.accepted < self.calls.len() {
            self.accepted += 1;
        }
    }

    /// Records what a collect returned. If it returned nothing, and the worker had stopped before, nothing more comes.
    pub fn collected(
        &mut self,
        alloc: Global,
        collected: Option<Collected>,
        has_stopped: bool,
    ) -> Result<(), ServeFault>
        ensures notes { OnOk result (Notes collected self.old.outcomes self.new.outcomes) }
        ensures fault { IfErr result (λ e. (e ≡ ServeFault.Memory)
            ⊎ ((e ≡ ServeFault.Turns) × (collected ≡ None) × (has_stopped ≡ true))) }
        ensures stops { collected ≡ None → has_stopped ≡ true → result ≡ Err ServeFault.Turns }
        ensures room { self.new.is_full ≡ false }
        ensures same { (self.new.calls ≡ self.old.calls) × (self.new.accepted ≡ self.old.accepted)
            × (self.new.outcomes.turns ≡ self.old.outcomes.turns) }
    {
        self.is_full = false;
        match collected {
            Some(Collected::Request(told)) => match self.outcomes.requests.push(told) {
                Ok(()) => Ok(()),
                Err(_) => Err(ServeFault::Memory),
            },
            Some(Collected::Ask(told)) => match Discovered::new(alloc, &told) {
                Ok(discovered) => self.note(discovered),
                Err(_) => Err(ServeFault::Memory),
            },
            None if has_stopped => Err(ServeFault::Turns),
            None => Ok(()),
        }
    }

    fn note(&mut self, discovered: Discovered) -> Result<(), ServeFault>
        ensures noted { OnOk result (self.new.outcomes.discoveries.items
            ≡ self.old.outcomes.discoveries.items ++ discovered ∷ []) }
        ensures requests { self.new.outcomes.requests ≡ self.old.outcomes.requests }
        ensures fault { IfErr result (λ e. e ≡ ServeFault.Memory) }
        ensures same { (self.new.calls ≡ self.old.calls) × (self.new.accepted ≡ self.old.accepted)
            × (self.new.is_full ≡ self.old.is_full) × (self.new.outcomes.turns ≡ self.old.outcomes.turns) }
    {
        match self.outcomes.discoveries.push(discovered) {
            Ok(()) => Ok(()),
            Err(_) => Err(ServeFault::Memory),
        }
    }

    // Whether each call has an outcome.
    fn is_settled(&self) -> bool
        ensures { result ≡ has_all self.now }
    {
        self.outcomes.requests.len() + self.outcomes.discoveries.len() == self.calls.len()
    }

    /// Whether the turns sufficed.
    pub fn at_last_turn(&self) -> Result<(), ServeFault>
        ensures suffice { result ≡ Ok tt ↔ (has_all self.now ≡ true) }
        ensures fault { IfErr result (λ e. e ≡ ServeFault.Turns) }
    {
        if self.is_settled() {
            Ok(())
        } else {
            Err(ServeFault::Turns)
        }
    }

    /// The outcomes of the calls.
    pub fn into_outcomes(self) -> Outcomes
        ensures { result ≡ self.entry.outcomes }
    {
        self.outcomes
    }
}
