//! Which UIDs a run muted, and whether they were known or read before.
ghost use Rattle.std.specs.Prelude.{◌≡◌, ◌∷◌, [], IfOk, OnOk};
ghost use Rattle.std.specs.List.{before_first};
ghost use Rattle.rdm_agent.specs.Run.{is_branch, muted_in, read_in};
ghost use Rattle.rdm_explain.specs.Exchanges.{seen_of, seen_all};
ghost use Rattle.rdm_explain.specs.Certificates.{FirstElementWithout, FirstWithout, IsMutedFirst, MutesAreNamed};
ghost use Rattle.rdm_explain.specs.body.Trees.{Holds, Gains};
ghost use Rattle.rdm_explain.specs.body.Naming.{mutes_other};

use crate::exchange::{Asked, Exchange, Heard};
use crate::uids::Uids;
use rdm_wire::{NoMemory, Uid};
use std::alloc::Global;

/// A part of a certificate: the known UIDs are muted before the first branch. The first of these that isn't. `None`:
/// all are. A full run mutes none first, so for it the list is empty. The only error: out of memory.
pub fn first_not_muted_first(
    alloc: Global,
    known: &[Uid],
    exchanges: &[Exchange],
) -> Result<Option<Uid>, NoMemory>
    ensures { IfOk result (λ found. FirstElementWithout (IsMutedFirst (seen_all exchanges.now)) known.now found) }
{
    let muted = muted_before_branches(alloc, exchanges)?;
    for uid in known {
        if !muted.contains(*uid) {
            return Ok(Some(*uid));
        }
    }
    Ok(None)
}

// The UIDs that are muted before the first branch.
fn muted_before_branches(alloc: Global, exchanges: &[Exchange]) -> Result<Uids, NoMemory>
    ensures { IfOk result (λ tree. Holds (muted_in (before_first is_branch (seen_all exchanges.now))) tree) }
{
    let mut muted = Uids::new(alloc);
    for exchange in exchanges {
        if is_branch(exchange) {
            return Ok(muted);
        }
        add_muted(&mut muted, exchange)?;
    }
    Ok(muted)
}

fn is_branch(exchange: &Exchange) -> bool
    ensures { result ≡ is_branch (seen_of exchange.now) }
{
    matches!(exchange.asked, Asked::Branch { .. })
}

// Adds the UID that an exchange mutes.
fn add_muted(muted: &mut Uids, exchange: &Exchange) -> Result<(), NoMemory>
    ensures { OnOk result (Gains (muted_in (seen_of exchange.now ∷ [])) muted.old muted.new) }
{
    match exchange.asked {
        Asked::Mute(uid) => muted.add(uid),
        _ => Ok(()),
    }
}

/// A part of a certificate: each muted UID is one of the known ones, or was read from the reply to an earlier branch.
/// The index of the first exchange that mutes another one. `None`: there is none. A full run mutes no known UIDs, so
/// for it the list is empty. The only error: out of memory.
pub fn first_unread(
    alloc: Global,
    known: &[Uid],
    exchanges: &[Exchange],
) -> Result<Option<usize>, NoMemory>
    ensures { IfOk result (λ found. FirstWithout (MutesAreNamed known.now) exchanges.now found) }
{
    let mut named = Uids::of(alloc, known)?;
    for (at, exchange) in exchanges.iter().enumerate() {
        if mutes_other(&named, exchange) {
            return Ok(Some(at));
        }
        add_read(&mut named, exchange)?;
    }
    Ok(None)
}

// Whether an exchange mutes a UID that isn't in a set.
fn mutes_other(named: &Uids, exchange: &Exchange) -> bool
    ensures { result ≡ mutes_other named.now (seen_of exchange.now) }
{
    match exchange.asked {
        Asked::Mute(uid) => !named.contains(uid),
        _ => false,
    }
}

// Adds the UID that an exchange reads.
fn add_read(named: &mut Uids, exchange: &Exchange) -> Result<(), NoMemory>
    ensures { OnOk result (Gains (read_in (seen_of exchange.now ∷ [])) named.old named.new) }
{
    match (exchange.asked, exchange.heard) {
        (Asked::Branch { .. }, Heard::One(uid)) => named.add(uid),
        _ => Ok(()),
    }
}
