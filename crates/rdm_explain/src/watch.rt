//! What is known of the devices of a list, exchange by exchange.
ghost use Rattle.std.specs.Prelude.{◌≡◌, ◌<◌, ◌^◌, ℕ, map, IfOk};
ghost use Rattle.std.specs.List.{AllByRecursion, list_any, list_all};
ghost use Rattle.rdm_explain.specs.Exchanges.{seen_of};
ghost use Rattle.rdm_explain.specs.body.Watching.{watch_of, heard_by, finding_of, IsCounted, are_quiet, is_listed};

use crate::exchange::{Asked, Exchange, Heard};
use crate::rule::{Breach, DeviceFinding, rule_by};
use crate::standing::Standing;
use rdm_wire::{NoMemory, Uid};
use std::alloc::Global;

/// A device, what is known of its state, and where it broke a rule first. After that nothing is known.
#[derive(Clone, Copy)]
pub(crate) struct Watch {
    uid: Uid,
    standing: Standing,
    breach: Option<Breach>,
}

impl Watch {
    ghost use Rattle.std.specs.Prelude.{◌==◌};
    ghost use Rattle.rdm_explain.specs.body.Watching.{is_quiet_one};

    // Before the first exchange.
    fn of(uid: Uid) -> Watch
        ensures { result ≡ watch_of uid }
    {
        Watch {
            uid,
            standing: Standing::start(),
            breach: None,
        }
    }

    // Hears an exchange.
    #[inline(always)]
    fn hear(&mut self, at: usize, exchange: &Exchange)
        requires counted { IsCounted at self.old }
        requires few { at < 2 ^ 63 }
        ensures { self.new ≡ heard_by at (seen_of exchange.now) self.old }
    {
        if self.breach.is_some() {
            return;
        }
        self.standing.hear(self.uid, exchange);
        if !self.standing.is_alive() {
            self.breach = Some(Breach {
                at,
                rule: rule_by(exchange),
            });
        }
    }

    // Whether the device is outside of the range, or known to be muted.
    fn is_quiet(&self, lo: Uid, hi: Uid) -> bool
        ensures { result ≡ is_quiet_one lo hi self.now }
    {
        self.uid < lo || hi < self.uid || (self.standing.muted && !self.standing.unmuted)
    }

    // Whether this is the device's UID.
    fn is(&self, uid: Uid) -> bool
        ensures { result ≡ (uid == self.now.uid) }
    {
        uid == self.uid
    }

    // What is found of it.
    fn finding(&self) -> DeviceFinding
        ensures { result ≡ finding_of self.now }
    {
        DeviceFinding {
            uid: self.uid,
            breach: self.breach,
        }
    }
}

/// The devices of a list, before the first exchange. The only error: out of memory.
pub(crate) fn watch_all(alloc: Global, uids: &[Uid]) -> Result<Vec<Watch>, NoMemory>
    ensures { IfOk result (λ v. v.items ≡ map watch_of uids.now) }
{
    let mut watches = Vec::new(alloc);
    for uid in uids {
        if watches.push(Watch::of(*uid)).is_err() {
            return Err(NoMemory);
        }
    }
    Ok(watches)
}

/// All of them hear an exchange. Each arm has a loop of its own, in which the compiler knows what was asked.
pub(crate) fn hear_all(watches: &mut Vec<Watch>, at: usize, exchange: &Exchange)
    requires counted { AllByRecursion (IsCounted at) watches.old.items }
    requires few { at < 2 ^ 63 }
    ensures { watches.new.items ≡ map (heard_by at (seen_of exchange.now)) watches.old.items }
{
    match exchange.asked {
        Asked::Unmute => hear_each(watches, at, &unmute(&exchange.heard)),
        Asked::Branch { .. } if exchange.heard.is_silent() => {
            hear_each(watches, at, &silence(&exchange.asked));
        }
        _ => hear_each(watches, at, exchange),
    }
}

// An unmute that was answered like this.
#[inline(always)]
fn unmute(heard: &Heard) -> Exchange
    ensures asked { result.asked ≡ Asked.Unmute }
    ensures heard { result.heard ≡ heard.now }
{
    Exchange {
        asked: Asked::Unmute,
        heard: *heard,
    }
}

// A silent exchange.
#[inline(always)]
fn silence(asked: &Asked) -> Exchange
    ensures asked { result.asked ≡ asked.now }
    ensures heard { result.heard ≡ Heard.Silent }
{
    Exchange {
        asked: *asked,
        heard: Heard::Silent,
    }
}

#[inline(always)]
fn hear_each(watches: &mut Vec<Watch>, at: usize, exchange: &Exchange)
    requires counted { AllByRecursion (IsCounted at) watches.old.items }
    requires few { at < 2 ^ 63 }
    ensures { watches.new.items ≡ map (heard_by at (seen_of exchange.now)) watches.old.items }
{
    'watches: for index in 0..watches.len() {
        watches[index].hear(at, exchange);
    }
}

/// Whether each is outside of the range, or known to be muted.
pub(crate) fn are_quiet(watches: &[Watch], lo: Uid, hi: Uid) -> bool
    ensures { result ≡ are_quiet lo hi watches.now }
{
    watches.iter().all(|watch| watch.is_quiet(lo, hi))
}

/// Whether one of them has this UID.
pub(crate) fn is_listed(watches: &[Watch], uid: Uid) -> bool
    ensures { result ≡ is_listed uid watches.now }
{
    watches.iter().any(|watch| watch.is(uid))
}

/// What is found of them. The only error: out of memory.
pub(crate) fn findings(alloc: Global, watches: &[Watch]) -> Result<Vec<DeviceFinding>, NoMemory>
    ensures { IfOk result (λ v. v.items ≡ map finding_of watches.now) }
{
    let mut found = Vec::new(alloc);
    for watch in watches {
        if found.push(watch.finding()).is_err() {
            return Err(NoMemory);
        }
    }
    Ok(found)
}
