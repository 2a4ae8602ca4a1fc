//! Who is probably to blame for bytes that no honest line allows.
ghost use Rattle.std.specs.Prelude.{◌≡◌, None, Some};
ghost use Rattle.rdm_explain.specs.Rules.{uids_of_findings};
ghost use Rattle.rdm_findings.specs.BadAnswers.{bad_answers, is_bad_answer, is_stubborn};
ghost use Rattle.rdm_findings.specs.Explained.{is_likelier, other_end, stubborn_by, stubborn_in, unclear_cause};

use crate::ending::is_garbled_mute;
use crate::listing::before_failure;
use crate::mention::Mention;
use crate::misread::is_misread;
use rdm_agent::{AgentFault, TRIES};
use rdm_explain::{DeviceFinding, Exchange};
use rdm_wire::Uid;

/// Who is probably to blame for bytes that no honest line allows.
#[derive(Clone, Copy)]
pub(crate) enum Cause {
    /// Noise. The flag says that devices are listed by `--present` or the rig.
    Noise(bool),
    /// Noise: the device that was asked was found.
    Found,
    /// Noise, if a known device is gone; or this one.
    Gone,
    /// The device that was asked. The flag says that it was found.
    Device(bool),
    /// A device or noise. The flag says the same.
    Unclear(bool),
    /// A device or noise. The run ended at another device's UID.
    Other(Uid),
    /// The same, and the device that was asked may be gone.
    Ended(Uid),
    /// A device or noise. Another device's UID had many bad answers.
    Stubborn(Uid),
    /// A device, or noise too. An exchange failed. The flag says that the UID that was asked had many bad answers.
    Failed(bool),
}

/// Who may be to blame beside noise. The flags say that the device that was asked may be gone, and that it was found.
/// `end` is another device's UID at which the run ended, and `stubborn` one that had many bad answers.
pub(crate) fn unclear_cause(
    gone: bool,
    found: bool,
    end: Option<Uid>,
    stubborn: Option<Uid>,
) -> Cause
    ensures { result ≡ unclear_cause gone found end stubborn }
{
    match end {
        Some(uid) => {
            if gone {
                Cause::Ended(uid)
            } else {
                Cause::Other(uid)
            }
        }
        None => unended_cause(gone, found, stubborn),
    }
}

// The same, if the run ended at no other device's UID.
fn unended_cause(gone: bool, found: bool, stubborn: Option<Uid>) -> Cause
    ensures { result ≡ unclear_cause gone found None stubborn }
{
    match stubborn {
        Some(uid) => Cause::Stubborn(uid),
        None => {
            if gone {
                Cause::Gone
            } else {
                Cause::Unclear(found)
            }
        }
    }
}

/// The UID at which a run ended, if its device may rather be to blame than another one.
pub(crate) fn other_end(
    exchanges: &[Exchange],
    ending: Option<Option<AgentFault>>,
    uid: Uid,
) -> Option<Uid>
    ensures { result ≡ other_end exchanges.now ending uid }
{
    match ending {
        Some(Some(fault)) => corrupt_end(exchanges, &fault, uid),
        _ => None,
    }
}

// The same of a run that ended with this fault.
fn corrupt_end(exchanges: &[Exchange], fault: &AgentFault, uid: Uid) -> Option<Uid>
    ensures { result ≡ other_end exchanges.now (Some (Some fault.now)) uid }
{
    match fault {
        AgentFault::Corrupt(end) if is_likelier(exchanges, *end, uid) => Some(*end),
        _ => None,
    }
}

fn is_likelier(exchanges: &[Exchange], end: Uid, uid: Uid) -> bool
    ensures { result ≡ is_likelier exchanges.now end uid }
{
    !(end == uid || end.is_broadcast())
        && bad_answers(uid, exchanges).saturating_sub(1) <= bad_answers(end, exchanges)
}

/// Whether a UID had as many bad answers as a mute is tried, before an exchange failed.
pub(crate) fn is_stubborn(failure: Option<usize>, exchanges: &[Exchange], uid: Uid) -> bool
    ensures { result ≡ is_stubborn failure exchanges.now uid }
{
    TRIES as usize <= bad_answers(uid, before_failure(failure, exchanges))
}

/// The UID that a line names, if it had so many.
pub(crate) fn stubborn_by(
    failure: Option<usize>,
    exchanges: &[Exchange],
    mention: &Option<Mention>,
) -> Option<Uid>
    ensures { result ≡ stubborn_by failure exchanges.now mention.now }
{
    match mention {
        Some(mention) if is_stubborn(failure, exchanges, mention.uid) => Some(mention.uid),
        _ => None,
    }
}

/// The first of some UIDs that had so many.
pub(crate) fn first_stubborn(
    failure: Option<usize>,
    exchanges: &[Exchange],
    uids: &[Uid],
) -> Option<Uid>
    ensures { result ≡ stubborn_in failure exchanges.now uids.now }
{
    for uid in uids {
        if is_stubborn(failure, exchanges, *uid) {
            return Some(*uid);
        }
    }
    None
}

/// The same of the UIDs of devices.
pub(crate) fn first_stubborn_device(
    failure: Option<usize>,
    exchanges: &[Exchange],
    devices: &[DeviceFinding],
) -> Option<Uid>
    ensures { result ≡ stubborn_in failure exchanges.now (uids_of_findings devices.now) }
{
    for device in devices {
        if is_stubborn(failure, exchanges, device.uid) {
            return Some(device.uid);
        }
    }
    None
}

// How often a UID was asked alone or muted, and bytes came that are no right answer.
fn bad_answers(uid: Uid, exchanges: &[Exchange]) -> usize
    ensures { result ≡ bad_answers uid exchanges.now }
{
    let mut bad = 0;
    for exchange in exchanges {
        bad = if is_bad_answer(uid, exchange) {
            bad + 1
        } else {
            bad
        };
    }
    bad
}

fn is_bad_answer(uid: Uid, exchange: &Exchange) -> bool
    ensures { result ≡ is_bad_answer uid exchange.now }
{
    is_misread(uid, exchange) || is_garbled_mute(uid, exchange)
}
