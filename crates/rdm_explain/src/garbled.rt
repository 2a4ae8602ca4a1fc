//! Bytes that no honest line allows, whichever devices are on it.
ghost use Rattle.std.specs.Prelude.{◌≡◌, ◌||◌, ◌&&◌, ◌==◌, ℕ, false, IfOk, OnOk};
ghost use Rattle.rdm_explain.specs.Exchanges.{seen_of, heard_of};
ghost use Rattle.rdm_explain.specs.Garbled.{FirstGarbled};
ghost use Rattle.rdm_explain.specs.body.Trees.{in_tree};
ghost use Rattle.rdm_explain.specs.body.Garbling.{is_garbled, is_wrong_reply, is_no_acknowledgement, muted_with};

use crate::exchange::{Asked, Exchange, Heard};
use crate::sighting::{Sighting, noted};
use crate::uids::Uids;
use rdm_wire::{NoMemory, Uid};
use std::alloc::Global;

/// The first exchange that was answered by bytes which no honest line allows, whichever devices are on it, and how many
/// such exchanges come after it:
/// - a branch of one UID alone, and the bytes aren't the text of that UID: no other device may reply, so nothing
///   collides;
/// - a branch of one UID alone, although that device acknowledged a mute before, and no unmute came after that;
/// - a branch of one UID alone that is no device's, but a broadcast;
/// - a mute, and the bytes don't acknowledge it.
///
/// `None`: there is no such exchange before the line fails. The only error: out of memory.
pub fn first_garbled(alloc: Global, exchanges: &[Exchange]) -> Result<Option<Sighting>, NoMemory>
    ensures { IfOk result (λ found. FirstGarbled exchanges.now found) }
{
    let mut muted = Uids::new(alloc);
    let mut found = None;
    for (at, exchange) in exchanges.iter().enumerate() {
        if exchange.heard.is_failed() {
            return Ok(found);
        }
        found = noted(found, at, is_garbled(&muted, exchange));
        hear(&mut muted, exchange)?;
    }
    Ok(found)
}

// Whether bytes came that don't answer what was asked.
fn is_garbled(muted: &Uids, exchange: &Exchange) -> bool
    ensures { result ≡ is_garbled (in_tree muted.now) (seen_of exchange.now) }
{
    match exchange.asked {
        Asked::Branch { lo, hi } => lo == hi && is_wrong_reply(muted, lo, &exchange.heard),
        Asked::Mute(_) => is_no_acknowledgement(&exchange.heard),
        _ => false,
    }
}

// Whether bytes came that aren't the text of a UID, or that are although its device is muted, or it is no device's.
fn is_wrong_reply(muted: &Uids, uid: Uid, heard: &Heard) -> bool
    ensures { result ≡ is_wrong_reply (in_tree muted.now uid) uid (heard_of heard.now) }
{
    match heard {
        Heard::Failed | Heard::Silent => false,
        Heard::One(read) => muted.contains(uid) || (*read != uid || uid.is_broadcast()),
        Heard::Acked(_) | Heard::Noise => true,
    }
}

// Whether bytes came that don't acknowledge a mute.
fn is_no_acknowledgement(heard: &Heard) -> bool
    ensures { result ≡ is_no_acknowledgement (heard_of heard.now) }
{
    match heard {
        Heard::One(_) | Heard::Noise => true,
        _ => false,
    }
}

/// Which devices are muted after an exchange.
pub(crate) fn hear(muted: &mut Uids, exchange: &Exchange) -> Result<(), NoMemory>
    ensures { OnOk result ((u : ℕ) → in_tree muted.new u
        ≡ muted_with u (in_tree muted.old u) (seen_of exchange.now)) }
{
    match exchange.asked {
        Asked::Unmute => {
            muted.clear();
            Ok(())
        }
        Asked::Mute(uid) if exchange.heard.is_acked() => muted.add(uid),
        _ => Ok(()),
    }
}
