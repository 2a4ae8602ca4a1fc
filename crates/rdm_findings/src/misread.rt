//! The first exchange that misread each UID.
ghost use Rattle.std.specs.Prelude.{◌≡◌, ℕ, []};
ghost use Rattle.std.specs.List.{cons_option};
ghost use Rattle.rdm_wire.specs.Uid.{has};
ghost use Rattle.rdm_findings.specs.Mentions.{is_misread, misread_by};

use crate::ending::{has_bytes, is_own};
use rdm_explain::{Asked, Exchange};
use rdm_wire::{NoMemory, Uid};
use std::alloc::Global;
use std::collections::BTreeMap;

/// For each UID, the index of the first exchange in which other bytes than its text answered a branch of it alone.
#[derive(Drop)]
pub(crate) struct Misreads {
    tree: BTreeMap<u64, usize>,
}

/// The UID that an exchange misread.
pub(crate) fn misread(exchange: &Exchange) -> Option<Uid>
    ensures each { (u : ℕ) → is_misread u exchange.now ≡ has (cons_option result []) u }
    ensures one { result ≡ misread_by exchange.now.asked exchange.now.heard }
{
    match exchange.asked {
        Asked::Branch { lo, .. } => {
            if is_misread(lo, exchange) {
                Some(lo)
            } else {
                None
            }
        }
        _ => None,
    }
}

/// Whether other bytes than its text answered a branch of a UID alone.
pub(crate) fn is_misread(uid: Uid, exchange: &Exchange) -> bool
    ensures { result ≡ is_misread uid exchange.now }
{
    match exchange.asked {
        Asked::Branch { lo, hi } => {
            lo == uid && hi == uid && (has_bytes(&exchange.heard) && !is_own(uid, &exchange.heard))
        }
        _ => false,
    }
}

impl Misreads {
    ghost use Rattle.std.specs.Prelude.{◌≡◌, ℕ, None, Some, ◌==◌, if◌then◌else◌, IfOk, OnOk};
    ghost use Rattle.std.specs.List.{position};
    ghost use Rattle.rdm_findings.specs.DeviceText.{first_number};
    ghost use Rattle.rdm_findings.specs.Mentions.{is_misread, misread_in};

    /// Those of a run's exchanges. The only error: out of memory.
    pub(crate) fn of(alloc: Global, exchanges: &[Exchange]) -> Result<Misreads, NoMemory>
        ensures { IfOk result (λ found. (u : ℕ) → misread_in found u ≡ position (is_misread u) exchanges.now) }
    {
        let mut found = Misreads::new(alloc);
        for (at, exchange) in exchanges.iter().enumerate() {
            found.note(at, exchange)?;
        }
        Ok(found)
    }

    fn new(alloc: Global) -> Misreads
        ensures { (u : ℕ) → misread_in result u ≡ None }
    {
        Misreads {
            tree: BTreeMap::new(alloc),
        }
    }

    /// The index of the first exchange that misread a UID.
    pub(crate) fn first(&self, uid: Uid) -> Option<usize>
        ensures { result ≡ misread_in self.now uid }
    {
        self.tree.get(&uid.number()).copied()
    }

    // Adds an exchange, if it is the first that misread its UID.
    fn note(&mut self, at: usize, exchange: &Exchange) -> Result<(), NoMemory>
        ensures { OnOk result ((u : ℕ) → misread_in self.new u
            ≡ first_number (misread_in self.old u) (if is_misread u exchange.now then Some at else None)) }
    {
        match misread(exchange) {
            Some(uid) => self.add(uid, at),
            None => Ok(()),
        }
    }

    // Adds the index for a UID, unless it has one.
    fn add(&mut self, uid: Uid, at: usize) -> Result<(), NoMemory>
        ensures { OnOk result ((u : ℕ) → misread_in self.new u
            ≡ first_number (misread_in self.old u) (if u == uid then Some at else None)) }
    {
        if self.tree.contains_key(&uid.number()) {
            return Ok(());
        }
        match self.tree.insert(uid.number(), at) {
            Ok(_) => Ok(()),
            Err(_) => Err(NoMemory),
        }
    }
}
