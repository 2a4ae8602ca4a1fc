//! Which devices broke a rule, and bytes that came although no device of two lists was due to send any.
ghost use Rattle.std.specs.Prelude.{◌≡◌, ◌≤◌, ◌||◌, ◌&&◌, ◌==◌, not, length, take, IfOk, if◌then◌else◌};
ghost use Rattle.rdm_wire.specs.Uid.{has, is_within};
ghost use Rattle.rdm_explain.specs.Exchanges.{seen_of, heard_of};
ghost use Rattle.rdm_explain.specs.Rules.{AreFirstBreaches, uids_of_findings};
ghost use Rattle.rdm_explain.specs.Strays.{FirstStray};
ghost use Rattle.rdm_explain.specs.body.Trees.{in_tree};
ghost use Rattle.rdm_explain.specs.body.Standings.{is_failing};
ghost use Rattle.rdm_explain.specs.body.Watching.{are_muted, is_stray};

use crate::exchange::{Asked, Exchange, Heard};
use crate::garbled::hear;
use crate::rule::DeviceFinding;
use crate::sighting::{Sighting, noted};
use crate::uids::Uids;
use crate::watch::{Watch, are_quiet, findings, hear_all, is_listed, watch_all};
use rdm_wire::{NoMemory, Uid};
use std::alloc::Global;

/// What the exchanges of a run show of its devices, and of bytes that none of them was due to send.
#[derive(Drop)]
pub struct Judged {
    /// For each device that is judged, in order, the first exchange that breaks a rule towards it.
    pub devices: Vec<DeviceFinding>,
    /// The first exchange with such bytes, and how many such exchanges come after it. `None`: there is none before the
    /// line fails.
    pub stray: Option<Sighting>,
}

/// Judges the first `many` devices of `uids` as `first_breaches` does. In the same pass, finds the first exchange that
/// was answered, be it by an acknowledgement, although no device of `uids` and `passing` was due:
/// - a branch, and each device was outside of its range, or muted;
/// - a mute of a UID that is in neither list.
///
/// What comes after other frames isn't counted. The devices of `uids` are on the line during the whole run. Such a one
/// is muted if it followed the rules so far, and by these rules must be muted now. Those of `passing` come or leave.
/// Such a one is muted if it acknowledged a mute, and no unmute came after that. After a failure of the line nothing is
/// found. The only error: out of memory.
///
/// This is for runs of this project's agent, or of another that sends no mute to several devices and no unmute to one.
pub fn judge(
    alloc: Global,
    uids: &[Uid],
    many: usize,
    passing: &[Uid],
    exchanges: &[Exchange],
) -> Result<Judged, NoMemory>
    requires { many ≤ length uids.now }
    ensures devices { IfOk result (λ judged. uids_of_findings judged.devices.items ≡ take many uids.now) }
    ensures first { IfOk result (λ judged. AreFirstBreaches exchanges.now judged.devices.items) }
    ensures stray { IfOk result (λ judged. FirstStray uids.now passing.now exchanges.now judged.stray) }
{
    let mut watches = watch_all(alloc, uids)?;
    let mut muted = Uids::new(alloc);
    let mut found = None;
    let mut failed = false;
    for (at, exchange) in exchanges.iter().enumerate() {
        failed = has_failed(failed, &exchange.heard);
        found = noted(
            found,
            at,
            is_stray(failed, &watches, passing, &muted, exchange),
        );
        hear_all(&mut watches, at, exchange);
        hear(&mut muted, exchange)?;
    }
    Ok(Judged {
        devices: findings(alloc, &watches[..many])?,
        stray: found,
    })
}

// Whether the line has failed by this exchange.
fn has_failed(before: bool, heard: &Heard) -> bool
    ensures { result ≡ (before || is_failing (heard_of heard.now)) }
{
    match heard {
        Heard::Failed => true,
        _ => before,
    }
}

// Whether an exchange was answered although nobody was due, and the line hasn't failed.
fn is_stray(
    failed: bool,
    watches: &[Watch],
    passing: &[Uid],
    muted: &Uids,
    exchange: &Exchange,
) -> bool
    ensures { result
        ≡ (not failed && is_stray watches.now passing.now (in_tree muted.now) (seen_of exchange.now)) }
{
    if failed {
        return false;
    }
    match exchange.asked {
        Asked::Branch { lo, hi } => {
            !exchange.heard.is_silent()
                && (are_quiet(watches, lo, hi) && are_muted(passing, muted, lo, hi))
        }
        Asked::Mute(uid) => {
            !exchange.heard.is_silent() && (!is_listed(watches, uid) && !has(passing, uid))
        }
        _ => false,
    }
}

// Whether each device is outside of the range, or stays muted.
fn are_muted(passing: &[Uid], muted: &Uids, lo: Uid, hi: Uid) -> bool
    ensures { result ≡ are_muted lo hi (in_tree muted.now) passing.now }
{
    passing
        .iter()
        .all(|uid| *uid < lo || hi < *uid || muted.contains(*uid))
}

fn has(uids: &[Uid], uid: Uid) -> bool
    ensures { result ≡ has uids.now uid }
{
    uids.iter().any(|other| uid == *other)
}
