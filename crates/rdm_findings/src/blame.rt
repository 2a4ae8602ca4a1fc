//! What the findings about a run say together: what was found, and who is probably to blame for bytes.
ghost use Rattle.std.specs.Prelude.{◌≡◌};
ghost use Rattle.rdm_explain.specs.Rules.{uids_of_findings};
ghost use Rattle.rdm_findings.specs.FindingText.{unless_garbled};
ghost use Rattle.rdm_findings.specs.Ends.{first_uid};
ghost use Rattle.rdm_findings.specs.Explained.{cause_at, cause_by, cause_of, cause_or_failed, is_calm};
ghost use Rattle.rdm_findings.specs.Explained.{calm_cause, device_cause, is_nobody, is_only, unfound_cause};
ghost use Rattle.rdm_findings.specs.Explained.{is_absent, is_sent, may_be_gone, present_end};
ghost use Rattle.rdm_findings.specs.Passing.{any_about, is_passing};
ghost use Rattle.rdm_findings.specs.Explained.{missing_of, missing_in, shows_all, stray_of};
ghost use Rattle.rdm_findings.specs.Explained.{stubborn_else, stubborn_in, stubborn_of};

use crate::cause::{
    Cause, first_stubborn, first_stubborn_device, is_stubborn, other_end, stubborn_by,
    unclear_cause,
};
use crate::ending::{decides_stray, end_of, is_whole};
use crate::explaining::Findings;
use crate::flaw::{Flaw, may_be_noise};
use crate::head::RunHead;
use crate::heard::RunUids;
use crate::listing::has;
use crate::mention::{Mention, garbled_mention};
use rdm_explain::{DeviceFinding, Exchange, Sighting};
use rdm_wire::Uid;

/// A UID that had many bad answers, if a finding names one.
pub(crate) fn stubborn_of(head: &RunHead, exchanges: &[Exchange], found: &Findings) -> Option<Uid>
    ensures { result ≡ stubborn_of head.now exchanges.now found.now }
{
    let failure = found.certificate.failure;
    let mention = garbled_mention(head.start, head.flaw, exchanges, found.garbled);
    match stubborn_by(failure, exchanges, &mention) {
        Some(uid) => Some(uid),
        None => stubborn_else(failure, exchanges, found),
    }
}

// One that may not be in the line about the first bytes that no honest line allows.
fn stubborn_else(failure: Option<usize>, exchanges: &[Exchange], found: &Findings) -> Option<Uid>
    ensures { result ≡ stubborn_else failure exchanges.now found.now }
{
    match first_stubborn(failure, exchanges, &found.culprits) {
        Some(uid) => Some(uid),
        None => stubborn_rest(failure, exchanges, found),
    }
}

// One that didn't answer alone.
fn stubborn_rest(failure: Option<usize>, exchanges: &[Exchange], found: &Findings) -> Option<Uid>
    ensures { result ≡ first_uid (stubborn_in failure exchanges.now found.now.suspects.items)
        (stubborn_in failure exchanges.now (uids_of_findings found.now.devices.items)) }
{
    match first_stubborn(failure, exchanges, &found.suspects) {
        Some(uid) => Some(uid),
        None => first_stubborn_device(failure, exchanges, &found.devices),
    }
}

/// How many listed devices acknowledged no mute, if the log has all of the run.
pub(crate) fn missing_in(head: &RunHead, exchanges: &[Exchange], found: &Findings) -> usize
    ensures { result ≡ missing_in head.now exchanges.now found.now }
{
    if shows_all(head, exchanges, found) {
        missing_of(&found.acked, &found.devices)
    } else {
        0
    }
}

fn missing_of(acked: &RunUids, devices: &[DeviceFinding]) -> usize
    ensures { result ≡ missing_of acked.now devices.now }
{
    let mut missing = 0;
    for device in devices {
        missing = if acked.contains(device.uid) {
            missing
        } else {
            missing + 1
        };
    }
    missing
}

/// Who is probably to blame for the first bytes that no honest line allows.
pub(crate) fn cause_of(head: &RunHead, exchanges: &[Exchange], found: &Findings) -> Cause
    ensures { result ≡ cause_of head.now exchanges.now found.now }
{
    let mention = garbled_mention(head.start, head.flaw, exchanges, found.garbled);
    cause_by(head, exchanges, found, &mention)
}

fn cause_by(
    head: &RunHead,
    exchanges: &[Exchange],
    found: &Findings,
    mention: &Option<Mention>,
) -> Cause
    ensures { result ≡ cause_by head.now exchanges.now found.now mention.now }
{
    match mention {
        Some(mention) => cause_or_failed(head, exchanges, found, mention.uid),
        None => Cause::Unclear(false),
    }
}

// The same for bytes after this UID was asked. An exchange that failed comes first.
fn cause_or_failed(head: &RunHead, exchanges: &[Exchange], found: &Findings, uid: Uid) -> Cause
    ensures { result ≡ cause_or_failed head.now exchanges.now found.now uid }
{
    let failure = found.certificate.failure;
    if failure.is_some() {
        Cause::Failed(is_stubborn(failure, exchanges, uid))
    } else {
        cause_at(head, exchanges, found, uid)
    }
}

// The same, if no exchange failed.
fn cause_at(head: &RunHead, exchanges: &[Exchange], found: &Findings, uid: Uid) -> Cause
    ensures { result ≡ cause_at head.now exchanges.now found.now uid }
{
    if is_calm(head, exchanges, found) && (found.acked.contains(uid) && !is_passing(found, uid)) {
        Cause::Found
    } else {
        unfound_cause(head, exchanges, found, uid)
    }
}

// The same, if it acknowledged no mute.
fn unfound_cause(head: &RunHead, exchanges: &[Exchange], found: &Findings, uid: Uid) -> Cause
    ensures { result ≡ unfound_cause head.now exchanges.now found.now uid }
{
    if is_calm(head, exchanges, found) && is_nobody(found, uid) {
        calm_cause(found, uid)
    } else {
        device_cause(head, exchanges, found, uid)
    }
}

// Whether no device should have a UID.
fn is_nobody(found: &Findings, uid: Uid) -> bool
    ensures { result ≡ is_nobody found.now uid }
{
    !(has(&found.due, uid) || found.heard.contains(uid))
}

// Noise; but a known device may have the UID, if it wasn't taken away.
fn calm_cause(found: &Findings, uid: Uid) -> Cause
    ensures { result ≡ calm_cause found.now uid }
{
    if any_about(uid, &found.gone) {
        Cause::Gone
    } else {
        Cause::Noise(found.expects)
    }
}

// A device, or noise.
fn device_cause(head: &RunHead, exchanges: &[Exchange], found: &Findings, uid: Uid) -> Cause
    ensures { result ≡ device_cause head.now exchanges.now found.now uid }
{
    let acked = found.acked.contains(uid);
    if is_stubborn(found.certificate.failure, exchanges, uid) {
        return Cause::Device(acked);
    }
    let ending = end_of(head, &found.reported, exchanges, &found.certificate);
    let end = present_end(found, other_end(exchanges, ending, uid));
    let gone = may_be_gone(head, found, uid);
    let stubborn = stubborn_else(found.certificate.failure, exchanges, found);
    unclear_cause(gone, acked, end, stubborn)
}

// Whether the device of a UID may be gone, and noise may have made the bytes after it was asked.
fn may_be_gone(head: &RunHead, found: &Findings, uid: Uid) -> bool
    ensures { result ≡ may_be_gone head.now found.now uid }
{
    is_absent(found, uid) && !is_sent(head.flaw)
}

// The UID at which a run ended, if its device isn't one that may be gone.
fn present_end(found: &Findings, end: Option<Uid>) -> Option<Uid>
    ensures { result ≡ present_end found.now end }
{
    match end {
        Some(uid) => {
            if is_absent(found, uid) {
                None
            } else {
                Some(uid)
            }
        }
        None => None,
    }
}

// Whether a UID comes or leaves, or was known and acknowledged no mute.
fn is_absent(found: &Findings, uid: Uid) -> bool
    ensures { result ≡ is_absent found.now uid }
{
    any_about(uid, &found.gone) || is_passing(found, uid)
}

/// Whether a UID comes or leaves.
pub(crate) fn is_passing(found: &Findings, uid: Uid) -> bool
    ensures { result ≡ is_passing found.now uid }
{
    has(&found.due, uid) && !(any_about(uid, &found.devices) || has(&found.culprits, uid))
}

// Whether a reply with this flaw is one that a device must have sent.
fn is_sent(flaw: Option<Flaw>) -> bool
    ensures { result ≡ is_sent flaw }
{
    flaw.is_some() && !may_be_noise(flaw)
}

// Whether a run found all devices, and one exchange alone has bytes that no honest line allows, which noise may have
// made, and no other has bytes though no device was due.
fn is_calm(head: &RunHead, exchanges: &[Exchange], found: &Findings) -> bool
    ensures { result ≡ is_calm head.now exchanges.now found.now }
{
    decides_stray(head, &found.certificate)
        && missing_in(head, exchanges, found) == 0
        && is_only(found.garbled)
        && may_be_noise(head.flaw)
        && stray_of(found).is_none()
}

// Whether there is one such exchange alone.
fn is_only(sighting: Option<Sighting>) -> bool
    ensures { result ≡ is_only sighting }
{
    match sighting {
        Some(first) => first.more == 0,
        None => false,
    }
}

fn any_about(uid: Uid, devices: &[DeviceFinding]) -> bool
    ensures { result ≡ any_about uid devices.now }
{
    for device in devices {
        if device.uid == uid {
            return true;
        }
    }
    false
}

/// The first stray exchange that has a finding of its own.
pub(crate) fn stray_of(found: &Findings) -> Option<Sighting>
    ensures { result ≡ stray_of found.now }
{
    unless_garbled(found.garbled, found.stray)
}

// The first stray exchange, unless another finding is about the same one.
fn unless_garbled(garbled: Option<Sighting>, stray: Option<Sighting>) -> Option<Sighting>
    ensures { result ≡ unless_garbled garbled stray }
{
    match (garbled, stray) {
        (None, stray) => stray,
        (Some(_), None) => None,
        (Some(garbled), Some(first)) => {
            if first.at == garbled.at {
                None
            } else {
                Some(first)
            }
        }
    }
}

/// Whether the log has all of the run.
pub(crate) fn shows_all(head: &RunHead, exchanges: &[Exchange], found: &Findings) -> bool
    ensures { result ≡ shows_all head.now exchanges.now found.now }
{
    is_whole(head, &found.reported, exchanges, &found.certificate)
}
