//! Whether a run tried each UID that it muted.
ghost use Rattle.std.specs.Prelude.{◌≡◌, ◌<◌, ◌^◌, ℕ, IfOk};
ghost use Rattle.rdm_wire.specs.Honest.Asked.{Mute};
ghost use Rattle.rdm_wire.specs.Honest.Heard.{Silent};
ghost use Rattle.rdm_explain.specs.Exchanges.{seen_of, seen_all, asked_of};
ghost use Rattle.rdm_explain.specs.Certificates.{FirstWithout, AreTried};
ghost use Rattle.rdm_explain.specs.body.Trees.{Holds};
ghost use Rattle.rdm_explain.specs.body.Trying.{seen, alone, lows, tried_points, mutes_untried};

use crate::cover::{Cover, Stretch};
use crate::exchange::{Asked, Exchange, Heard};
use crate::uids::Uids;
use rdm_wire::{NoMemory, Uid};
use std::alloc::Global;

/// A part of a certificate: each muted UID is a device's, and was acknowledged in the run, or was muted five times in a
/// row without acknowledgement. The index of the first exchange that mutes another one. `None`: there is none. The only
/// error: out of memory.
pub fn first_untried(alloc: Global, exchanges: &[Exchange]) -> Result<Option<usize>, NoMemory>
    ensures { IfOk result (λ found. FirstWithout (AreTried (seen_all exchanges.now)) exchanges.now found) }
{
    let tried = tried(alloc, exchanges)?;
    for (at, exchange) in exchanges.iter().enumerate() {
        if mutes_untried(&tried, exchange) {
            return Ok(Some(at));
        }
    }
    Ok(None)
}

// The UIDs that were acknowledged, or muted five times in a row without acknowledgement.
fn tried(alloc: Global, exchanges: &[Exchange]) -> Result<Uids, NoMemory>
    ensures { IfOk result (λ tree. Holds (lows (tried_points (seen_all exchanges.now))) tree) }
{
    let points = tried_points(alloc, exchanges)?;
    lows(alloc, &points)
}

// The same UIDs, each as a range of its own.
fn tried_points(alloc: Global, exchanges: &[Exchange]) -> Result<Vec<Stretch>, NoMemory>
    ensures { IfOk result (λ v. v.items ≡ tried_points (seen_all exchanges.now)) }
{
    let mut cover = Cover::new(alloc);
    for exchange in exchanges {
        cover = cover.after(&alone(exchange))?;
    }
    Ok(cover.covered)
}

// A mute without acknowledgement as a silent branch of its UID alone, so that five in a row cover that UID. A branch
// covers nothing.
fn alone(exchange: &Exchange) -> Exchange
    ensures { seen_of result ≡ alone (seen_of exchange.now) }
{
    match exchange.asked {
        Asked::Mute(_) if exchange.heard.is_acked() => *exchange,
        Asked::Mute(uid) => Exchange {
            asked: Asked::Branch { lo: uid, hi: uid },
            heard: Heard::Silent,
        },
        _ => Exchange {
            asked: Asked::Other,
            heard: Heard::Silent,
        },
    }
}

// The lower bounds of ranges.
fn lows(alloc: Global, stretches: &[Stretch]) -> Result<Uids, NoMemory>
    ensures { IfOk result (λ tree. Holds (lows stretches.now) tree) }
{
    let mut uids = Uids::new(alloc);
    for stretch in stretches {
        uids.add(stretch.lo)?;
    }
    Ok(uids)
}

// Whether an exchange mutes a UID that is no device's, or isn't in a set.
fn mutes_untried(tried: &Uids, exchange: &Exchange) -> bool
    ensures untried { result ≡ mutes_untried tried.now (seen_of exchange.now) }
    ensures in_range { (u : ℕ) → (seen_of exchange.now).asked ≡ Mute u → u < 2 ^ 48 }
{
    match exchange.asked {
        Asked::Mute(uid) => {
            // Only for the proof: a UID's number is below 2^48.
            let _in_range = uid.number();
            uid.is_broadcast() || !tried.contains(uid)
        }
        _ => false,
    }
}
