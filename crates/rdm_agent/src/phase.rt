//! The phase of a run.
ghost use Rattle.std.specs.Prelude.{◌≡◌, ℕ, List};
ghost use Rattle.rdm_wire.specs.Span.{Span};
ghost use Rattle.rdm_agent.specs.Machine.{wanted, fault_of};
ghost use Rattle.rdm_agent.specs.Calls.{op_of};

use crate::fault::AgentFault;
use crate::op::Op;
use crate::sweep::{Sweep, unassigned};
use rdm_wire::{Uid, UidRange};

/// The phase of a run. Contracts see it together with the known UIDs that are left and the ranges below the top one.
#[derive(Clone, Copy, Debug, PartialEq, Eq)]
pub(crate) enum Phase {
    /// This many unmutes are still to be sent, this one among them.
    Unmuting {
        /// 1 to [`UNMUTES`](crate::UNMUTES).
        more: u8,
    },
    /// A known UID is being muted, and this many tries had no answer.
    MutingKnown {
        /// The UID.
        uid: Uid,
        /// Below [`TRIES`](crate::TRIES).
        tries: u8,
        /// How many garbled replies needn't be counted as tries.
        spare: u8,
    },
    /// The top range is being branched, and was silent this many times in a row.
    Searching {
        /// The range.
        top: UidRange,
        /// Below [`TRIES`](crate::TRIES).
        silences: u8,
        /// How many bad answers in a row it had: below [`BAD_ANSWERS`](crate::BAD_ANSWERS).
        bads: u8,
        /// How many branches it had since it was taken up or since a device was found in it: 10 at most.
        spent: u8,
    },
    /// A UID that the top range's branch spelt is being muted, and this many tries had no answer.
    MutingRead {
        /// The UID.
        uid: Uid,
        /// Below [`TRIES`](crate::TRIES).
        tries: u8,
        /// How many garbled replies needn't be counted as tries.
        spare: u8,
        /// How many bad answers in a row the range had, if this becomes one.
        bads: u8,
        /// The range.
        top: UidRange,
    },
    /// The range of a sweep's question is branched.
    Sweeping {
        /// The sweep.
        sweep: Sweep,
    },
    /// A UID that a sweep's branch spelt is being muted, and this many tries had no answer.
    MutingSwept {
        /// The UID.
        uid: Uid,
        /// Below [`TRIES`](crate::TRIES).
        tries: u8,
        /// How many garbled replies needn't be counted as tries.
        spare: u8,
        /// The sweep.
        sweep: Sweep,
    },
    /// A UID was spelt by a sweep's range that it isn't in. The range without devices is branched, to see whether this
    /// UID answers for others.
    Checking {
        /// The UID.
        uid: Uid,
        /// How often in a row that range was silent: 0 or 1.
        silences: u8,
        /// The sweep.
        sweep: Sweep,
    },
    /// Such a UID is being muted, and this many tries had no answer.
    MutingStray {
        /// The UID.
        uid: Uid,
        /// Below [`TRIES`](crate::TRIES).
        tries: u8,
        /// How many garbled replies needn't be counted as tries.
        spare: u8,
        /// The sweep.
        sweep: Sweep,
    },
    /// The run has ended.
    Ended(Option<AgentFault>),
}

impl Phase {
    ghost use Rattle.rdm_agent.specs.body.AgentFields.{phase_of};

    /// What it asks of the line.
    pub(crate) fn op(self) -> Op
        ensures { (known : List ℕ) (below : List Span) → result ≡ op_of (wanted (phase_of self known below)) }
    {
        match self {
            Phase::Unmuting { .. } => Op::UnmuteAll,
            Phase::MutingKnown { uid, .. }
            | Phase::MutingRead { uid, .. }
            | Phase::MutingSwept { uid, .. }
            | Phase::MutingStray { uid, .. } => Op::Mute(uid),
            Phase::Searching { top, .. } => Op::Branch(top),
            Phase::Sweeping { sweep } => Op::Branch(sweep.question.range),
            Phase::Checking { .. } => Op::Branch(unassigned()),
            Phase::Ended(_) => Op::End,
        }
    }

    /// The fault of a run that asks nothing more in this phase. If it hasn't ended, its budget is used up.
    pub(crate) fn fault(self) -> Option<AgentFault>
        ensures { (known : List ℕ) (below : List Span) → result ≡ fault_of (phase_of self known below) }
    {
        match self {
            Phase::Ended(fault) => fault,
            _ => Some(AgentFault::Exhausted),
        }
    }
}
