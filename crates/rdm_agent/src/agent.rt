//! The agent of a discovery run.
ghost use Rattle.std.specs.Prelude.{◌≡◌, ◌≢◌, ◌≤◌, ◌++◌, ◌∷◌, [], ℕ, List, true, false, length, IfOk, IfErr, IsOkAnd};
ghost use Rattle.std.specs.Prelude.{IfSome, IfNone};
ghost use Rattle.std.specs.List.{AllByRecursion};
ghost use Rattle.rdm_wire.specs.Uid.{has, IsDevice};
ghost use Rattle.rdm_wire.specs.Devices.{uids_of};
ghost use Rattle.rdm_wire.specs.Honest.{HonestTrace, HonestTo};
ghost use Rattle.rdm_wire.specs.HonestOver.{HonestOver};
ghost use Rattle.rdm_wire.specs.Noisy.{NoisyTrace, NoisyTo};
ghost use Rattle.rdm_agent.specs.Machine.{start, start_by, fed, fault_of, open_ranges};
ghost use Rattle.rdm_agent.specs.Run.{asked_by, heard_by, seen_op, IsReport};
ghost use Rattle.rdm_agent.specs.Calls.{fits, next_op, run_result, ended_by_abort, HasRun, HasRunBy, AfterEach};
ghost use Rattle.rdm_agent.specs.Certificate.{Certificate};
ghost use Rattle.rdm_agent.specs.Cause.{Cause, EndsFailed, WasBad};
ghost use Rattle.rdm_agent.specs.Statements.{IsInOrder, IsInEach, IsInOne};
ghost use Rattle.rdm_agent.specs.Bound.{IsUndisturbed, StaysInBound, IsInNoise, enough_by, with_exchange};
ghost use Rattle.rdm_agent.specs.declared.op.Op.TheVariants.{End};

use crate::apart::UidsApart;
use crate::fault::AgentFault;
use crate::kind::Kind;
use crate::known::KnownLeft;
use crate::limits::{MOST_APART, MOST_RANGES, UNMUTES};
use crate::op::{Op, OpReply};
use crate::phase::Phase;
use crate::ranges::RangesBelow;
use crate::run_state::RunState;
use crate::search::Search;
use rdm_wire::{DeviceSet, Uid, UidSet};
use std::marker::Model;
use std::mem::size_of;

/// One discovery run by E1.20's discovery commands, between an exchange and the next.
///
/// It is a plain value of 42,144 bytes, allocates nothing and stores no exchanges. Contracts see it as the state of a
/// machine: its budget, how many exchanges it has made, the devices found, the UIDs set apart, and its
/// phase.
#[derive(Debug, Drop)]
pub struct Agent {
    budget: u64,
    frames: u64,
    phase: Phase,
    run_state: RunState,
}

// The size that the docs state.
const _: () = prove!(size_of::<Agent>() == 42_144);

impl Model for Agent {
    ghost use Rattle.rdm_agent.specs.Machine.{AgentState};
    ghost use Rattle.rdm_agent.specs.body.AgentFields.{state_of};
    ghost use Rattle.rdm_agent.specs.body.GoesOn.{IsConsistent};

    ghost Value = { AgentState };

    ghost view = { λ a. state_of a.budget a.frames a.phase a.run_state };

    ghost invariant = { λ a. IsConsistent a.phase a.run_state };
}

impl Agent {
    /// Begins a run that may make `budget` exchanges. An incremental one mutes the devices of `known` first. The search
    /// is [`Search::Steady`].
    pub fn start(kind: Kind, known: &UidSet, budget: u64) -> Agent
        ensures state { result ≡ start kind known.now budget }
        ensures has_run { HasRun kind known.now budget false [] result }
    {
        Agent::start_by(Search::Steady, kind, known, budget)
    }

    /// Begins a run as [`Agent::start`] does, with this search.
    pub fn start_by(search: Search, kind: Kind, known: &UidSet, budget: u64) -> Agent
        ensures state { result ≡ start_by search kind known.now budget }
        ensures has_run { HasRunBy search kind known.now budget false [] result }
    {
        Agent {
            budget,
            frames: 0,
            phase: Phase::Unmuting { more: UNMUTES },
            run_state: RunState {
                search,
                known: KnownLeft::new(kind, known),
                found: DeviceSet::new(),
                below: RangesBelow::new(),
                apart: UidsApart::new(),
                more: false,
            },
        }
    }

    /// Begins another run in place of this one, as [`Agent::start_by`] does. It writes only what the last run used of
    /// the agent, and the known UIDs. A new agent is filled completely.
    pub fn restart(&mut self, search: Search, kind: Kind, known: &UidSet, budget: u64)
        ensures state { self.new ≡ start_by search kind known.now budget }
        ensures has_run { HasRunBy search kind known.now budget false [] self.new }
    {
        self.budget = budget;
        self.frames = 0;
        self.phase = Phase::Unmuting { more: UNMUTES };
        self.run_state.reset(search, kind, known);
    }

    /// What it asks of the line next: three unmutes, then branches and mutes of devices. [`Op::End`]: the run has
    /// ended. It has also ended if its budget is used up, the line failed, or it was aborted.
    pub fn next(&self) -> Op
        ensures value { result ≡ next_op self.now }
        ensures device { (u : ℕ) → result ≡ Op.Mute u → IsDevice u }
        ensures in_order { AfterEach self.now (λ run.
            result ≢ End → IsInOrder (length run.exchanges) (asked_by result)) }
        ensures in_budget { AfterEach self.now (λ run. length run.exchanges ≡ run.budget → result ≡ End) }
        ensures failed { AfterEach self.now (λ run. EndsFailed run.exchanges → result ≡ End) }
        ensures aborted { AfterEach self.now (λ run. run.aborted ≡ true → result ≡ End) }

        // On an honest line the run has ended once it has made as many exchanges as suffice for the devices.
        ensures in_bound { AfterEach self.now (λ run. (present : List ℕ) → IsUndisturbed present run
            → length run.exchanges ≡ enough_by run.search present run.kind run.known → result ≡ End) }
    {
        if self.frames < self.budget {
            self.phase.op()
        } else {
            Op::End
        }
    }

    /// Takes the reply to what it asks next, which the reply must fit ([`OpReply::fits`]).
    pub fn hear(&mut self, reply: OpReply)
        requires { fits reply (next_op self.old) ≡ true }
        ensures state { self.new ≡ fed self.old (heard_by reply) }
        ensures has_run { AfterEach self.old (λ run.
            let exchanges = run.exchanges ++ seen_op (next_op self.old, reply) ∷ [] in
            HasRunBy run.search run.kind run.known run.budget false exchanges self.new) }

        // On an honest line: no more exchanges than suffice for the devices, and then the run has ended.
        ensures in_bound { AfterEach self.old (λ run.
            StaysInBound self.new (with_exchange run (seen_op (next_op self.old, reply)))) }
    {
        self.frames += 1;
        self.phase = self.run_state.heard(self.phase, reply);
    }

    /// The agent after the reply to what it asks next, as [`Agent::hear`] makes it; the whole agent is moved.
    pub fn feed(mut self, reply: OpReply) -> Agent
        requires { fits reply (next_op self) ≡ true }
        ensures state { result ≡ fed self (heard_by reply) }
        ensures has_run { AfterEach self (λ run.
            let exchanges = run.exchanges ++ seen_op (next_op self, reply) ∷ [] in
            HasRunBy run.search run.kind run.known run.budget false exchanges result) }

        // On an honest line: no more exchanges than suffice for the devices, and then the run has ended.
        ensures in_bound { AfterEach self (λ run.
            StaysInBound result (with_exchange run (seen_op (next_op self, reply)))) }
    {
        self.hear(reply);
        self
    }

    /// Ends the run with [`AgentFault::Aborted`]; a run that has ended is unchanged.
    pub fn stop(&mut self)
        ensures state { next_op self.old ≢ End → self.new ≡ ended_by_abort self.old }
        ensures has_run { AfterEach self.old (λ run.
            next_op self.old ≢ End → HasRunBy run.search run.kind run.known run.budget true run.exchanges self.new) }
        ensures unchanged { next_op self.old ≡ End → self.new ≡ self.old }
    {
        if self.next() != Op::End {
            self.phase = Phase::Ended(Some(AgentFault::Aborted));
        }
    }

    /// The agent after [`Agent::stop`]; the whole agent is moved.
    pub fn abort(mut self) -> Agent
        ensures state { next_op self ≢ End → result ≡ ended_by_abort self }
        ensures has_run { AfterEach self (λ run.
            next_op self ≢ End → HasRunBy run.search run.kind run.known run.budget true run.exchanges result) }
        ensures unchanged { next_op self ≡ End → result ≡ self }
    {
        self.stop();
        self
    }

    /// The devices found so far, each with the control field and the binding UID of its first acknowledgement in the
    /// run. These are the devices that [`Agent::end`] returns, without a copy.
    pub fn found(&self) -> &DeviceSet
        ensures value { result.now ≡ self.now.found }
        ensures report { AfterEach self.now (λ run. IsReport run.exchanges result.now) }
    {
        &self.run_state.found
    }

    /// The bad UIDs: those that a quick run has set apart, the newest first, at most [`MOST_APART`]. Each was answered
    /// badly four times in a row when it was asked alone: a faulty device has it, or several devices do. The run
    /// searches what is between these UIDs, and asks each again at the end. Those that are then found or silent aren't
    /// listed any more. It is empty in a steady run.
    pub fn bad_uids(&self) -> &[Uid]
        ensures value { result.now ≡ self.now.apart }
        ensures fits { length result.now ≤ MOST_APART }
        ensures answered { AfterEach self.now (λ run. AllByRecursion (λ u. WasBad u run.exchanges) result.now) }
    {
        self.run_state.apart.as_slice()
    }

    /// Whether a quick run gave up further UIDs like these, since [`MOST_APART`] were set apart.
    pub fn has_more_bad_uids(&self) -> bool
        ensures { result ≡ self.now.more }
    {
        self.run_state.more
    }

    /// Why the run has no answer; None if it has one. The run must have ended (`next` returns [`Op::End`]). This is the
    /// fault that [`Agent::end`] returns, without the set.
    pub fn fault(&self) -> Option<AgentFault>
        requires { next_op self.now ≡ End }
        ensures value { result ≡ fault_of self.now.phase }
        ensures certified { AfterEach self.now (λ run.
            IfNone result (Certificate run.kind run.known run.exchanges self.now.found)) }
        ensures caused { AfterEach self.now (λ run.
            IfSome result (λ f. Cause run.search run.budget (run.aborted ≡ true) f run.exchanges)) }
    {
        self.phase.fault()
    }

    /// What the run found. It must have ended (`next` returns [`Op::End`]). `Ok`: the devices found, with the
    /// certificate that each other UID was silent. `Err`: why it ended, and the devices found until then, or the first
    /// ones if more were found than fit into a set. Each device has the control field and the binding UID of its first
    /// acknowledgement in the run.
    ///
    /// On an honest line the result has no device that was never there, and `Ok` has each one that was always there. On
    /// a noisy line whose devices stay, `Ok` has exactly these, and `Err` no others. On an honest line the result is
    /// `Ok` if its devices stayed and were at most 1,024, the budget suffices for them, no exchange failed and the run
    /// wasn't aborted. A quick run on a noisy line also ends with `Ok`, if its budget allows 15 exchanges more for each
    /// disturbed one, and never more than seven branches in a row were disturbed.
    ///
    /// The set is copied. [`Agent::found`] and [`Agent::fault`] return the same without a copy.
    pub fn end(self) -> Result<DeviceSet, (AgentFault, DeviceSet)>
        requires { next_op self ≡ End }
        ensures value { result ≡ run_result (fault_of self.phase) self.found }
        ensures certified { AfterEach self (λ run. IfOk result (λ s.
            Certificate run.kind run.known run.exchanges s × IsReport run.exchanges s)) }
        ensures caused { AfterEach self (λ run. IfErr result (λ e.
            Cause run.search run.budget (run.aborted ≡ true) e.0 run.exchanges × IsReport run.exchanges e.1)) }

        // On an honest line the devices are found, and nothing else. A device to which the line is honest is found,
        // whatever the others do.
        ensures finds_all { AfterEach self (λ run.
            (present : List ℕ) → HonestTrace present run.exchanges → IfOk result (λ s. uids_of s ≡ present)) }
        ensures finds_each { AfterEach self (λ run.
            (u : ℕ) → IsDevice u → HonestTo u run.exchanges → IfOk result (λ s. has (uids_of s) u ≡ true)) }
        ensures no_phantom { AfterEach self (λ run. (present : List ℕ) (u : ℕ) → HonestTrace present run.exchanges
            → IfErr result (λ e. has (uids_of e.1) u ≡ true → has present u ≡ true)) }

        // The same on a noisy line, however many of its exchanges are disturbed.
        ensures finds_all_in_noise { AfterEach self (λ run.
            (present : List ℕ) → NoisyTrace present run.exchanges → IfOk result (λ s. uids_of s ≡ present)) }
        ensures finds_each_in_noise { AfterEach self (λ run.
            (u : ℕ) → IsDevice u → NoisyTo u run.exchanges → IfOk result (λ s. has (uids_of s) u ≡ true)) }
        ensures no_phantom_in_noise { AfterEach self (λ run. (present : List ℕ) (u : ℕ) →
            NoisyTrace present run.exchanges → IfErr result (λ e. has (uids_of e.1) u ≡ true → has present u ≡ true)) }

        // On an honest line whose devices come and leave, each device that was always present is found. None is found
        // that was never present, not even with a fault.
        ensures finds_staying { AfterEach self (λ run. (sets : List (List ℕ)) (u : ℕ) →
            HonestOver sets run.exchanges → IsInEach u sets → IfOk result (λ s. has (uids_of s) u ≡ true)) }
        ensures no_stranger { AfterEach self (λ run. (sets : List (List ℕ)) (u : ℕ) →
            HonestOver sets run.exchanges → IfOk result (λ s. has (uids_of s) u ≡ true → IsInOne u sets)) }
        ensures no_stranger_in_fault { AfterEach self (λ run. (sets : List (List ℕ)) (u : ℕ) →
            HonestOver sets run.exchanges → IfErr result (λ e. has (uids_of e.1) u ≡ true → IsInOne u sets)) }

        // If no exchange failed and the budget suffices for the devices, a run on an honest line has no fault.
        ensures no_fault { AfterEach self (λ run. (present : List ℕ) →
            IsUndisturbed present run → IsOkAnd result (λ s. uids_of s ≡ present)) }

        // The same for a quick run on a noisy line, if its budget also allows 15 exchanges for each disturbed one, and
        // never more than seven branches in a row are disturbed.
        ensures no_fault_in_noise { AfterEach self (λ run. (present : List ℕ) (w : ℕ) →
            IsInNoise present w run → IsOkAnd result (λ s. uids_of s ≡ present)) }
    {
        // Each arm makes its own copy. If both moved one set, LLVM would split it into thousands of pieces.
        match self.phase.fault() {
            None => Ok(self.run_state.found.copied()),
            Some(fault) => Err((fault, self.run_state.found.copied())),
        }
    }

    /// How many ranges are still open: 1 from the start, [`MOST_RANGES`] at most. It is 1 during the sweep of a quick
    /// run, and 0 at the end of the search, after a failure and after an abort. If the budget was used up during the
    /// search, the ranges that were open then still count.
    pub fn open_ranges(&self) -> usize
        ensures value { result ≡ open_ranges self.now.phase }
        ensures at_most { result ≤ MOST_RANGES }
    {
        match self.phase {
            Phase::Unmuting { .. }
            | Phase::MutingKnown { .. }
            | Phase::Sweeping { .. }
            | Phase::MutingSwept { .. }
            | Phase::Checking { .. }
            | Phase::MutingStray { .. } => 1,
            Phase::Searching { .. } | Phase::MutingRead { .. } => self.run_state.below.len() + 1,
            Phase::Ended(_) => 0,
        }
    }

    /// How many exchanges it has made.
    pub fn frames(&self) -> u64
        ensures value { result ≡ self.now.frames }
        ensures counted { AfterEach self.now (λ run. (result ≡ length run.exchanges) × (result ≤ run.budget)) }

        // On an honest line: no more than suffice for the devices, and then the run has ended.
        ensures in_bound { AfterEach self.now (λ run. (present : List ℕ) → IsUndisturbed present run
            → result ≤ enough_by run.search present run.kind run.known) }
        ensures ended { AfterEach self.now (λ run. (present : List ℕ) → IsUndisturbed present run
            → result ≡ enough_by run.search present run.kind run.known → next_op self.now ≡ End) }
    {
        self.frames
    }
}
