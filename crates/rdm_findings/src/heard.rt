//! The UIDs that a run heard, and those that acknowledged a mute.
ghost use Rattle.std.specs.Prelude.{◌≡◌, ℕ, ◌||◌, ◌∷◌, [], IfOk, OnOk};
ghost use Rattle.rdm_wire.specs.Uid.{has};
ghost use Rattle.rdm_wire.specs.Honest.Asked.{Branch, Mute};
ghost use Rattle.rdm_explain.specs.Exchanges.{seen_of, seen_all, heard_of};
ghost use Rattle.rdm_agent.specs.Run.{acked_by, acked_in, acked_uid};
ghost use Rattle.rdm_findings.specs.HeardUids.{heard_uid, heard_by, heard_in, in_uids};

use rdm_explain::{Asked, Exchange, Heard};
use rdm_wire::{NoMemory, Uid};
use std::alloc::Global;
use std::collections::BTreeSet;

/// A set of UIDs that a run shows.
#[derive(Drop)]
pub(crate) struct RunUids {
    tree: BTreeSet<u64>,
}

/// The UIDs that replies to branches spelt, and those of the acknowledged mutes.
pub(crate) fn heard_uids(alloc: Global, exchanges: &[Exchange]) -> Result<RunUids, NoMemory>
    ensures { IfOk result (λ heard. (u : ℕ) → in_uids heard u ≡ has (heard_in (seen_all exchanges.now)) u) }
{
    let mut heard = RunUids::new(alloc);
    for exchange in exchanges {
        heard.add_if(heard_by(exchange))?;
    }
    Ok(heard)
}

/// The UIDs that acknowledged a mute.
pub(crate) fn acknowledged_uids(alloc: Global, exchanges: &[Exchange]) -> Result<RunUids, NoMemory>
    ensures { IfOk result (λ acked. (u : ℕ) → in_uids acked u ≡ has (acked_in (seen_all exchanges.now)) u) }
{
    let mut acked = RunUids::new(alloc);
    for exchange in exchanges {
        acked.add_if(acked_by(exchange))?;
    }
    Ok(acked)
}

// The UID whose mute an exchange finds acknowledged.
fn acked_by(exchange: &Exchange) -> Option<Uid>
    ensures { result ≡ acked_by (seen_of exchange.now) }
{
    match exchange.asked {
        Asked::Mute(uid) => acked(uid, &exchange.heard),
        _ => None,
    }
}

// The UID that an exchange heard.
fn heard_by(exchange: &Exchange) -> Option<Uid>
    ensures { result ≡ heard_by (seen_of exchange.now) }
{
    match exchange.asked {
        Asked::Branch { .. } => spelt(&exchange.heard),
        Asked::Mute(uid) => acked(uid, &exchange.heard),
        _ => None,
    }
}

// The UID that a reply to a branch spelt.
fn spelt(heard: &Heard) -> Option<Uid>
    ensures { (lo hi : ℕ) → result ≡ heard_uid (Branch lo hi) (heard_of heard.now) }
{
    match heard {
        Heard::One(uid) => Some(*uid),
        _ => None,
    }
}

// The UID of a mute, if it was acknowledged.
fn acked(uid: Uid, heard: &Heard) -> Option<Uid>
    ensures heard { result ≡ heard_uid (Mute uid) (heard_of heard.now) }
    ensures acked { result ≡ acked_uid (Mute uid) (heard_of heard.now) }
{
    match heard {
        Heard::Acked(_) => Some(uid),
        _ => None,
    }
}

impl RunUids {
    ghost use Rattle.std.specs.Prelude.{◌≡◌, ℕ, ◌||◌, ◌==◌, [], false, OnOk};
    ghost use Rattle.std.specs.List.{cons_option};
    ghost use Rattle.rdm_wire.specs.Uid.{has};
    ghost use Rattle.rdm_findings.specs.HeardUids.{in_uids};

    fn new(alloc: Global) -> RunUids
        ensures { (u : ℕ) → in_uids result u ≡ false }
    {
        RunUids {
            tree: BTreeSet::new(alloc),
        }
    }

    /// Whether a UID is in the set.
    pub(crate) fn contains(&self, uid: Uid) -> bool
        ensures { result ≡ in_uids self.now uid }
    {
        self.tree.contains(&uid.number())
    }

    fn add(&mut self, uid: Uid) -> Result<(), NoMemory>
        ensures { OnOk result ((u : ℕ) → in_uids self.new u ≡ ((u == uid) || in_uids self.old u)) }
    {
        match self.tree.insert(uid.number()) {
            Ok(_) => Ok(()),
            Err(_) => Err(NoMemory),
        }
    }

    // Adds a UID, if there is one.
    fn add_if(&mut self, uid: Option<Uid>) -> Result<(), NoMemory>
        ensures { OnOk result ((u : ℕ) → in_uids self.new u ≡ (in_uids self.old u || has (cons_option uid []) u)) }
    {
        match uid {
            Some(uid) => self.add(uid),
            None => Ok(()),
        }
    }
}
