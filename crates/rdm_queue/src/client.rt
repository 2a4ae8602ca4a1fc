//! A client's queue depth, and the rings of what it has outstanding.
ghost use Rattle.std.specs.Prelude.{◌≡◌, ◌≢◌, ◌+◌, ◌-◌, ◌<◌, ◌≤◌, IfOk, IfSome, IfNone, Some, length, option_map};
ghost use Rattle.std.specs.Prelude.{slice_get, nat_le, ◌||◌, [], true, false};
ghost use Rattle.std.specs.VecDeque.{deque_len, deque_capacity};
ghost use Rattle.rdm_agent.specs.declared.fault.AgentFault.TheVariants.{Aborted};

use crate::oldest::Oldest;
use crate::set_ring::SetRing;
use crate::takes_devices::TakesDevices;
use rdm_agent::AgentFault;
use rdm_log::{
    Completion, DiscoveryEnd, Entry, MOST_DISCOVERIES, NEVER_GIVEN, NEVER_GIVEN_TO_A_DISCOVERY,
};
use rdm_wire::{DeviceSet, Request};
use std::alloc::{AllocError, Global};
use std::collections::VecDeque;
use std::default::MadeWith;

/// A request that isn't finished.
#[derive(Debug, Drop)]
pub(crate) struct Waiting {
    pub(crate) number: u64,
    pub(crate) request: Request,
}

/// An outcome that its client hasn't collected. A discovery's set is kept elsewhere, so that a request needs no memory
/// for one.
#[derive(Debug, Drop)]
pub(crate) enum Owed {
    Request {
        number: u64,
        done: Completion,
        /// Whether its answer may lack its first parts.
        may_be_incomplete: bool,
    },
    Discovery {
        number: u64,
        run: u64,
        fault: Option<AgentFault>,
    },
}

/// A client, with memory for all that it may have outstanding.
#[derive(Debug, Drop)]
pub(crate) struct Client {
    pub(crate) places: u8,
    /// Its requests that aren't finished, oldest first.
    waiting: VecDeque<Waiting>,
    /// Its outcomes that it hasn't collected, oldest first.
    outcomes: VecDeque<Owed>,
    /// The sets of the discoveries among them, in the same order.
    sets: SetRing,
}

impl Client {
    ghost use Rattle.rdm_queue.specs.body.Rings.{IsNewClient, ClientAccepts, ClientFinishes, ClientAnswers};
    ghost use Rattle.rdm_queue.specs.body.Rings.{ClientCollects, HasSets, first_kind_owed, owed_values, value_shown};
    ghost use Rattle.rdm_queue.specs.body.Rings.{client_flags};
    ghost use Rattle.rdm_queue.specs.promises.Oldest.{flag_shown};
    ghost use Rattle.rdm_log.specs.promises.Outcomes.{outcome_value, request_outcome, discovery_outcome};
    ghost use Rattle.rdm_log.specs.declared.outcome.OutcomeKind.TheVariants as kinds;

    /// A client without requests. This call reserves its memory.
    pub(crate) fn with_places(alloc: Global, places: u8) -> Result<Client, AllocError>
        ensures { IfOk result (IsNewClient places) }
    {
        Ok(Client {
            places,
            waiting: VecDeque::with_capacity(alloc, usize::from(places))?,
            outcomes: VecDeque::with_capacity(alloc, usize::from(places) + MOST_DISCOVERIES)?,
            sets: SetRing::with_room(alloc)?,
        })
    }

    /// How many of its requests aren't finished.
    pub(crate) fn waiting(&self) -> usize
        ensures { result ≡ deque_len self.now.waiting }
    {
        self.waiting.len()
    }

    /// How many of its outcomes aren't collected.
    pub(crate) fn uncollected(&self) -> usize
        ensures { result ≡ deque_len self.now.outcomes }
    {
        self.outcomes.len()
    }

    /// How many of its requests aren't finished, or not collected.
    pub(crate) fn outstanding(&self) -> usize
        requires { length self.now.sets.items ≤ deque_len self.now.outcomes }
        ensures { result ≡ deque_len self.now.waiting + (deque_len self.now.outcomes - length self.now.sets.items) }
    {
        self.waiting.len() + (self.outcomes.len() - self.sets.len())
    }

    /// How many of its discoveries are answered and not collected.
    pub(crate) fn answered(&self) -> usize
        ensures value { result ≡ length self.now.sets.items }
        ensures fits { result ≤ MOST_DISCOVERIES }
    {
        self.sets.len()
    }

    /// Whether it has as many requests outstanding as its queue depth allows, or this is the number that none gets.
    pub(crate) fn has_most_requests(&self, next: u64) -> bool
        requires { length self.now.sets.items ≤ deque_len self.now.outcomes }
        ensures { result ≡ (nat_le self.now.places (deque_len self.now.waiting
            + (deque_len self.now.outcomes - length self.now.sets.items)) || nat_le NEVER_GIVEN next) }
    {
        self.outstanding() >= usize::from(self.places) || next >= NEVER_GIVEN
    }

    /// Whether it has four discoveries outstanding, of which this many aren't answered, or this is a number that none
    /// gets.
    pub(crate) fn has_most_discoveries(&self, unanswered: usize, next: u64) -> bool
        requires { unanswered ≤ 64 }
        ensures { result ≡ (nat_le MOST_DISCOVERIES (unanswered + length self.now.sets.items)
            || nat_le NEVER_GIVEN_TO_A_DISCOVERY next) }
    {
        unanswered + self.answered() >= MOST_DISCOVERIES || next >= NEVER_GIVEN_TO_A_DISCOVERY
    }

    /// Its oldest request that isn't finished.
    pub(crate) fn oldest(&self) -> Option<&Waiting>
        ensures { option_map (λ w. w.now) result ≡ slice_get self.now.waiting.items 0 }
    {
        self.waiting.front()
    }

    /// Accepts a request, which its queue depth allows.
    pub(crate) fn accept(&mut self, number: u64, request: Request)
        requires { deque_len self.old.waiting < deque_capacity self.old.waiting }
        ensures { ClientAccepts self.old number request self.new }
    {
        self.waiting.push_back_reserved(Waiting { number, request });
    }

    /// Finishes its oldest request with this end, and returns the entry.
    pub(crate) fn finish_oldest(&mut self, done: Completion, may_be_incomplete: bool) -> Entry
        requires some { 0 < deque_len self.old.waiting }
        requires room { deque_len self.old.outcomes < deque_capacity self.old.outcomes }
        ensures { ClientFinishes self.old done may_be_incomplete result self.new }
    {
        let Some(oldest) = self.waiting.pop_front() else {
            unreachable!();
        };
        let entry = Entry::Finish {
            number: oldest.number,
            status: done.status,
            len: done.bytes.len(),
        };
        self.outcomes.push_back_reserved(Owed::Request {
            number: oldest.number,
            done,
            may_be_incomplete,
        });
        entry
    }

    /// Answers its discovery of this number, with this run and fault, and the devices found.
    pub(crate) fn answer(
        &mut self,
        number: u64,
        run: u64,
        fault: Option<AgentFault>,
        found: &DeviceSet,
    )
        requires sets { HasSets self.old }
        requires room { deque_len self.old.outcomes < deque_capacity self.old.outcomes }
        requires set_room { length self.old.sets.items < self.old.sets.room }
        ensures { ClientAnswers self.old number run fault found.now self.new }
    {
        self.outcomes
            .push_back_reserved(Owed::Discovery { number, run, fault });
        self.sets.push_back(found);
    }

    /// Answers its discovery of this number, which a close ended before a run served it. This isn't inlined, since a
    /// set is made in its frame.
    #[inline(never)]
    pub(crate) fn answer_aborted(&mut self, number: u64)
        requires sets { HasSets self.old }
        requires room { deque_len self.old.outcomes < deque_capacity self.old.outcomes }
        requires set_room { length self.old.sets.items < self.old.sets.room }
        ensures { ClientAnswers self.old number 0 (Some Aborted) [] self.new }
    {
        self.answer(number, 0, Some(AgentFault::Aborted), &DeviceSet::new());
    }

    /// A look at its oldest outcome.
    pub(crate) fn oldest_outcome(&self) -> Option<Oldest<'_>>
        requires { HasSets self.now }
        ensures value { option_map value_shown result ≡ slice_get (owed_values self.now) 0 }
        ensures flag { option_map flag_shown result ≡ slice_get (client_flags self.now) 0 }
    {
        match self.outcomes.front()? {
            Owed::Request {
                number,
                done,
                may_be_incomplete,
            } => Some(Oldest::Request {
                number: *number,
                done,
                may_be_incomplete: *may_be_incomplete,
            }),
            Owed::Discovery { number, run, fault } => {
                let Some(set) = self.sets.oldest() else {
                    unreachable!();
                };
                let end = DiscoveryEnd {
                    number: *number,
                    run: *run,
                    fault: *fault,
                };
                Some(Oldest::Discovery { end, set })
            }
        }
    }

    /// Takes its oldest outcome out, if that is a request's.
    #[inline(always)]
    pub(crate) fn collect_request(&mut self) -> Option<(u64, Completion)>
        requires { HasSets self.old }
        ensures removed { IfSome result (λ r. ClientCollects self.old (outcome_value (request_outcome r)) self.new) }
        ensures none { IfNone result (first_kind_owed self.old ≢ Some kinds.Request) }
        ensures unchanged { IfNone result (self.new ≡ self.old) }
    {
        let Some(Owed::Request { .. }) = self.outcomes.front() else {
            return None;
        };
        let Owed::Request { number, done, .. } = self.outcomes.pop_front()? else {
            unreachable!();
        };
        Some((number, done))
    }

    /// Takes its oldest outcome out, if that is a discovery's. `set` takes its devices.
    pub(crate) fn collect_discovery<T: TakesDevices>(&mut self, set: &mut T) -> Option<DiscoveryEnd>
        requires { HasSets self.old }
        ensures removed { IfSome result (λ end. ClientCollects self.old
            (outcome_value (discovery_outcome end (T.devices set.new))) self.new) }
        ensures none { IfNone result (first_kind_owed self.old ≢ Some kinds.Discovery) }
        ensures unchanged { IfNone result ((self.new ≡ self.old) × (set.new ≡ set.old)) }
    {
        let Some(Owed::Discovery { .. }) = self.outcomes.front() else {
            return None;
        };
        let Owed::Discovery { number, run, fault } = self.outcomes.pop_front()? else {
            unreachable!();
        };
        self.sets.move_oldest(set);
        Some(DiscoveryEnd { number, run, fault })
    }
}

/// What fills the elements of clients that haven't joined. It allocates nothing.
impl MadeWith<Global> for Client {
    fn made_with(alloc: Global) -> Client {
        Client {
            places: 0,
            waiting: VecDeque::new(alloc),
            outcomes: VecDeque::new(alloc),
            sets: SetRing::blank(alloc),
        }
    }
}
