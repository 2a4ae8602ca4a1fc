//! Which devices are listed, and which others are judged.
ghost use Rattle.std.specs.Prelude.{◌≡◌, ◌++◌, [], Some, IfOk, OnOk, option_copied};
ghost use Rattle.rdm_wire.specs.Uid.{has};
ghost use Rattle.rdm_wire.specs.Devices.{uids_of};
ghost use Rattle.rdm_findings.specs.Explained.{listed, staying, with_others, culprits_of, gone_of};
ghost use Rattle.rdm_findings.specs.BadAnswers.{before_failure};
ghost use Rattle.rdm_findings.specs.Explained.{with_suspect, unmuted_after, misread_after, suspects_of};

use crate::ending::{is_complete, unmuted_at};
use crate::heard::RunUids;
use crate::misread::misread;
use rdm_agent::MOST_APART;
use rdm_explain::{Exchange, RunFinding};
use rdm_wire::{DeviceSet, Uid};
use std::alloc::{AllocError, Global};

/// The reported devices, and then the others that are present; but none of those that come or leave.
pub(crate) fn listed(
    alloc: Global,
    reported: &DeviceSet,
    present: &[Uid],
    passing: &[Uid],
) -> Result<Vec<Uid>, AllocError>
    ensures { IfOk result (λ v. v.items ≡ listed (uids_of reported.now) present.now passing.now) }
{
    let uids = with_others(alloc, reported, present)?;
    staying(alloc, &uids, passing)
}

// Those that don't come or leave.
fn staying(alloc: Global, uids: &[Uid], passing: &[Uid]) -> Result<Vec<Uid>, AllocError>
    ensures { IfOk result (λ v. v.items ≡ staying passing.now uids.now) }
{
    let mut stay = Vec::new(alloc);
    'uids: for uid in uids {
        if !has(passing, *uid) {
            stay.push(*uid)?;
        }
    }
    Ok(stay)
}

// The reported devices, and then the others that are present.
fn with_others(alloc: Global, reported: &DeviceSet, present: &[Uid]) -> Result<Vec<Uid>, AllocError>
    ensures { IfOk result (λ v. v.items ≡ with_others (uids_of reported.now) present.now) }
{
    let mut uids = Vec::from_slice(alloc, reported.uids().as_slice())?;
    'present: for uid in present {
        if !reported.contains(*uid) {
            uids.push(*uid)?;
        }
    }
    Ok(uids)
}

/// The listed devices, and then those that come or leave.
pub(crate) fn with_passing(
    alloc: Global,
    uids: &[Uid],
    passing: &[Uid],
) -> Result<Vec<Uid>, AllocError>
    ensures { IfOk result (λ v. v.items ≡ uids.now ++ passing.now) }
{
    let mut due = Vec::from_slice(alloc, uids)?;
    due.extend_from_slice(passing)?;
    Ok(due)
}

/// The UIDs that answered alone, and then acknowledged no mute, before an exchange failed, but none of the list.
pub(crate) fn culprits_of(
    alloc: Global,
    failure: Option<usize>,
    uids: &[Uid],
    reported: &DeviceSet,
    exchanges: &[Exchange],
) -> Result<Vec<Uid>, AllocError>
    ensures { IfOk result (λ v. v.items ≡ culprits_of failure uids.now (uids_of reported.now) exchanges.now) }
{
    unmuted(alloc, uids, reported, before_failure(failure, exchanges))
}

/// The exchanges before the one that failed, if one did.
pub(crate) fn before_failure(failure: Option<usize>, exchanges: &[Exchange]) -> &[Exchange]
    ensures { result.now ≡ before_failure failure exchanges.now }
{
    match failure {
        Some(at) if at < exchanges.len() => &exchanges[..at],
        _ => exchanges,
    }
}

fn unmuted(
    alloc: Global,
    uids: &[Uid],
    reported: &DeviceSet,
    exchanges: &[Exchange],
) -> Result<Vec<Uid>, AllocError>
    ensures { IfOk result (λ v. v.items ≡ unmuted_after uids.now (uids_of reported.now) [] exchanges.now) }
{
    let mut suspects = Vec::new(alloc);
    for (at, exchange) in exchanges.iter().enumerate() {
        let uid = unmuted_at(reported, exchange, &exchanges[at + 1..]);
        add_suspect(&mut suspects, uids, uid)?;
    }
    Ok(suspects)
}

/// The UIDs that were asked alone, and that other bytes answered than their text, before an exchange failed, but none
/// of the list. None in a run whose certificate is complete.
pub(crate) fn suspects_of(
    alloc: Global,
    certificate: &RunFinding,
    uids: &[Uid],
    exchanges: &[Exchange],
) -> Result<Vec<Uid>, AllocError>
    ensures { IfOk result (λ v. v.items ≡ suspects_of certificate.now uids.now exchanges.now) }
{
    if is_complete(certificate) {
        Ok(Vec::new(alloc))
    } else {
        misread_uids(alloc, uids, before_failure(certificate.failure, exchanges))
    }
}

fn misread_uids(alloc: Global, uids: &[Uid], exchanges: &[Exchange]) -> Result<Vec<Uid>, AllocError>
    ensures { IfOk result (λ v. v.items ≡ misread_after uids.now [] exchanges.now) }
{
    let mut suspects = Vec::new(alloc);
    for exchange in exchanges {
        add_suspect(&mut suspects, uids, misread(exchange))?;
    }
    Ok(suspects)
}

// Adds a UID, if there is one, and it is in neither list.
fn add_suspect(suspects: &mut Vec<Uid>, uids: &[Uid], uid: Option<Uid>) -> Result<(), AllocError>
    ensures { OnOk result (suspects.new.items ≡ with_suspect uids.now suspects.old.items uid) }
{
    match uid {
        Some(uid) => add_new(suspects, uids, uid),
        None => Ok(()),
    }
}

fn add_new(suspects: &mut Vec<Uid>, uids: &[Uid], uid: Uid) -> Result<(), AllocError>
    ensures { OnOk result (suspects.new.items ≡ with_suspect uids.now suspects.old.items (Some uid)) }
{
    if MOST_APART <= suspects.len() || (has(suspects, uid) || has(uids, uid)) {
        return Ok(());
    }
    suspects.push(uid)?;
    Ok(())
}

/// The known UIDs that acknowledged no mute, and aren't in the list; none if the log doesn't have the known ones.
pub(crate) fn gone_of(
    alloc: Global,
    acked: &RunUids,
    due: &[Uid],
    known: Option<&[Uid]>,
) -> Result<Vec<Uid>, AllocError>
    ensures { IfOk result (λ v. v.items ≡ gone_of acked.now due.now (option_copied known.entry)) }
{
    match known {
        Some(known) => gone(alloc, acked, due, known),
        None => Ok(Vec::new(alloc)),
    }
}

// The known UIDs that acknowledged no mute, and aren't in the list.
fn gone(alloc: Global, acked: &RunUids, due: &[Uid], known: &[Uid]) -> Result<Vec<Uid>, AllocError>
    ensures { IfOk result (λ v. v.items ≡ gone_of acked.now due.now (Some known.now)) }
{
    let mut gone = Vec::new(alloc);
    'known: for uid in known {
        if !(acked.contains(*uid) || has(due, *uid)) {
            gone.push(*uid)?;
        }
    }
    Ok(gone)
}

/// Whether a UID is in a list.
pub(crate) fn has(uids: &[Uid], uid: Uid) -> bool
    ensures { result ≡ has uids.now uid }
{
    for one in uids {
        if uid == *one {
            return true;
        }
    }
    false
}
