//! Whether the log of a run shows that the run is over, how it ended, and whether it found each device.
ghost use Rattle.std.specs.Prelude.{◌≡◌, ℕ, ◌+◌, ◌<◌, ◌≤◌, ◌^◌, Some, None, if◌then◌else◌};
ghost use Rattle.rdm_wire.specs.Devices.{uids_of};
ghost use Rattle.rdm_wire.specs.Noisy.{has_bytes as has_bytes_seen};
ghost use Rattle.rdm_explain.specs.Exchanges.{heard_of, seen_all, seen_of};
ghost use Rattle.rdm_agent.specs.Cause.{answered_again, answers_in_a_row};
ghost use Rattle.rdm_agent.specs.Run.{is_branch};
ghost use Rattle.std.specs.List.{list_all, list_any};
ghost use Rattle.rdm_findings.specs.Ends.{is_complete, is_known_complete, shows_new, new_alone, wrong_alone};
ghost use Rattle.rdm_findings.specs.Ends.{new_alone_in, wrong_alone_in, from_end, last_of, is_lost_mute};
ghost use Rattle.rdm_findings.specs.Ends.{lacks_acknowledgement, never_muted, unmuted_at, corrupt_uid, corrupt_end};
ghost use Rattle.rdm_findings.specs.Ends.{as_too_many, is_spent, as_exhausted, first_fault, shown_fault, with_fault};
ghost use Rattle.rdm_findings.specs.Ends.{are_enough, if_enough, is_garbled_mute};
ghost use Rattle.rdm_findings.specs.Ends.{shown_end, end_of, shows_end, is_over, is_whole, decides_stray, has_bytes};
ghost use Rattle.rdm_findings.specs.Ends.{is_own, lacks_unmute, has_branch, loses_names, is_lost};

use crate::head::RunHead;
use rdm_agent::{AgentFault, BAD_ANSWERS, Search};
use rdm_explain::{Asked, Exchange, Heard, KnownFinding, RunFinding};
use rdm_wire::{DeviceSet, Uid};

/// Whether no part of a certificate fails, but those that depend on known UIDs.
pub(crate) fn is_complete(found: &RunFinding) -> bool
    ensures { result ≡ is_complete found.now }
{
    found.missing_unmute.is_none()
        && found.failure.is_none()
        && found.misreported.is_none()
        && found.untried.is_none()
        && found.uncovered.is_none()
        && found.other_data.is_none()
}

/// Whether none of those fails.
pub(crate) fn is_known_complete(found: &KnownFinding) -> bool
    ensures { result ≡ is_known_complete found.now }
{
    found.not_muted_first.is_none() && found.unread.is_none()
}

/// How the run ended, if the log says it, or its exchanges show it.
pub(crate) fn end_of(
    head: &RunHead,
    reported: &DeviceSet,
    exchanges: &[Exchange],
    found: &RunFinding,
) -> Option<Option<AgentFault>>
    ensures { result ≡ end_of head.now reported.now exchanges.now found.now }
{
    match head.fault {
        Some(fault) => Some(fault),
        None => shown_end(head, reported, exchanges, found),
    }
}

// How a run ended that the log has from its beginning, if its exchanges show it.
fn shown_end(
    head: &RunHead,
    reported: &DeviceSet,
    exchanges: &[Exchange],
    found: &RunFinding,
) -> Option<Option<AgentFault>>
    ensures { result ≡ shown_end head.now reported.now exchanges.now found.now }
{
    if head.start.is_first() {
        with_fault(shown_fault(head, reported, exchanges, found))
    } else {
        None
    }
}

// An end with this fault.
fn with_fault(fault: Option<AgentFault>) -> Option<Option<AgentFault>>
    ensures { result ≡ with_fault fault }
{
    match fault {
        Some(fault) => Some(Some(fault)),
        None => None,
    }
}

// The fault with which the run ended, if its exchanges show it.
fn shown_fault(
    head: &RunHead,
    reported: &DeviceSet,
    exchanges: &[Exchange],
    found: &RunFinding,
) -> Option<AgentFault>
    ensures { result ≡ shown_fault head.now reported.now exchanges.now found.now }
{
    match corrupt_end(head.search, reported, exchanges, found) {
        Some(uid) => Some(AgentFault::Corrupt(uid)),
        None => shown_limit(head, exchanges, found),
    }
}

// The end of a run with too many devices, or with too few frames.
fn shown_limit(head: &RunHead, exchanges: &[Exchange], found: &RunFinding) -> Option<AgentFault>
    ensures { result ≡ first_fault (as_too_many found.now) (as_exhausted head.now exchanges.now found.now) }
{
    if found.misreported.is_some() {
        Some(AgentFault::TooMany)
    } else if is_spent(exchanges.len(), head.budget)
        && !(is_complete(found) || found.failure.is_some())
    {
        Some(AgentFault::Exhausted)
    } else {
        None
    }
}

// Whether so many exchanges use up the budget, if that is known.
fn is_spent(many: usize, budget: Option<u64>) -> bool
    ensures { result ≡ is_spent many budget }
{
    match budget {
        Some(budget) => budget <= many as u64,
        None => false,
    }
}

/// Whether the run is over: the log says how it ended, or its exchanges show that nothing came after them.
pub(crate) fn is_over(
    head: &RunHead,
    reported: &DeviceSet,
    exchanges: &[Exchange],
    found: &RunFinding,
) -> bool
    ensures { result ≡ is_over head.now reported.now exchanges.now found.now }
{
    (head.fault.is_some() || found.failure.is_some()) || shows_end(head, reported, exchanges, found)
}

/// Whether the log has all of the run.
pub(crate) fn is_whole(
    head: &RunHead,
    reported: &DeviceSet,
    exchanges: &[Exchange],
    found: &RunFinding,
) -> bool
    ensures { result ≡ is_whole head.now reported.now exchanges.now found.now }
{
    head.start.is_first() && is_over(head, reported, exchanges, found)
}

// Whether its exchanges show that nothing came after them.
fn shows_end(
    head: &RunHead,
    reported: &DeviceSet,
    exchanges: &[Exchange],
    found: &RunFinding,
) -> bool
    ensures { result ≡ shows_end head.now reported.now exchanges.now found.now }
{
    is_complete(found) || shown_fault(head, reported, exchanges, found).is_some()
}

/// Whether stray bytes show that a rule was broken, unless their device left: the log has the run's beginning, and the
/// run found all devices that stayed and followed the rules.
pub(crate) fn decides_stray(head: &RunHead, found: &RunFinding) -> bool
    ensures { result ≡ decides_stray head.now found.now }
{
    head.start.is_first() && is_complete(found)
}

/// Whether a part of the certificate fails that later exchanges can't mend.
pub(crate) fn is_lost(
    exchanges: &[Exchange],
    found: &RunFinding,
    names: &Option<KnownFinding>,
) -> bool
    ensures { result ≡ is_lost exchanges.now found.now names.now }
{
    lacks_unmute(exchanges.len(), found.missing_unmute)
        || found.failure.is_some()
        || found.misreported.is_some()
        || found.other_data.is_some()
        || loses_names(exchanges, names)
}

// Whether one of so many exchanges is in the place of the unmute that is missing.
fn lacks_unmute(many: usize, missing: Option<usize>) -> bool
    ensures { result ≡ lacks_unmute many missing }
{
    match missing {
        Some(at) => at < many,
        None => false,
    }
}

// Whether a part fails that depends on known UIDs, and that later exchanges can't mend.
fn loses_names(exchanges: &[Exchange], names: &Option<KnownFinding>) -> bool
    ensures { result ≡ loses_names exchanges.now names.now }
{
    match names {
        Some(names) => {
            names.unread.is_some() || (names.not_muted_first.is_some() && has_branch(exchanges))
        }
        None => false,
    }
}

fn has_branch(exchanges: &[Exchange]) -> bool
    ensures { result ≡ has_branch exchanges.now }
{
    for exchange in exchanges {
        if is_branch(exchange) {
            return true;
        }
    }
    false
}

fn is_branch(exchange: &Exchange) -> bool
    ensures { result ≡ is_branch (seen_of exchange.now) }
{
    matches!(exchange.asked, Asked::Branch { .. })
}

// The UID with which the run ended as Corrupt, if its exchanges show that, and these are the devices that it found.
fn corrupt_end(
    search: Option<Search>,
    reported: &DeviceSet,
    exchanges: &[Exchange],
    found: &RunFinding,
) -> Option<Uid>
    ensures { result ≡ corrupt_end search reported.now exchanges.now found.now }
{
    if found.missing_unmute.is_some() || found.failure.is_some() || is_complete(found) {
        None
    } else {
        if_enough(search, exchanges, corrupt_uid(reported, exchanges))
    }
}

// The UID, if a run that searches like this ends as Corrupt once its exchanges show that of it.
fn if_enough(search: Option<Search>, exchanges: &[Exchange], uid: Option<Uid>) -> Option<Uid>
    ensures { result ≡ if_enough search exchanges.now uid }
{
    match uid {
        Some(uid) => uid_if(are_enough(search, uid, exchanges), uid),
        None => None,
    }
}

// Whether these are enough: a quick run ends only after eight bad answers of a UID alone in a row.
fn are_enough(search: Option<Search>, uid: Uid, exchanges: &[Exchange]) -> bool
    ensures { result ≡ are_enough search uid exchanges.now }
{
    match search {
        Some(Search::Quick) => BAD_ANSWERS as usize <= answers_in_a_row(uid, exchanges),
        Some(Search::Steady) | None => true,
    }
}

// How often in a row the branch of this UID alone was answered by bytes, at the end.
fn answers_in_a_row(uid: Uid, exchanges: &[Exchange]) -> usize
    ensures { result ≡ answers_in_a_row uid (seen_all exchanges.now) }
{
    let mut times = 0;
    for exchange in exchanges {
        times = answered_again(uid, times, exchange);
    }
    times
}

// How often it was, if it was so often before this exchange.
fn answered_again(uid: Uid, times: usize, exchange: &Exchange) -> usize
    requires { times < 2 ^ 63 }
    ensures times { result ≡ answered_again uid times (seen_of exchange.now).asked (seen_of exchange.now).heard }
    ensures bound { result ≤ times + 1 }
{
    match exchange.asked {
        Asked::Branch { lo, hi } => {
            if has_bytes(&exchange.heard) && (lo == uid && hi == uid) {
                times + 1
            } else {
                0
            }
        }
        Asked::Mute(_) => { if exchange.heard.is_acked() { 0 } else { times } }
        Asked::Unmute | Asked::Other => 0,
    }
}

// The same, if the run begins by its unmutes, and no exchange failed.
pub(crate) fn corrupt_uid(found: &DeviceSet, exchanges: &[Exchange]) -> Option<Uid>
    ensures { result ≡ corrupt_uid (uids_of found.now) exchanges.now }
{
    match wrong_alone_in(found, from_end(1, exchanges)) {
        Some(uid) => Some(uid),
        None => never_muted(found, exchanges),
    }
}

/// The UID that a branch of it alone showed, and that then didn't acknowledge five mutes, if these exchanges come last.
pub(crate) fn never_muted(found: &DeviceSet, exchanges: &[Exchange]) -> Option<Uid>
    ensures { result ≡ never_muted (uids_of found.now) exchanges.now }
{
    match new_alone_in(found, from_end(6, exchanges)) {
        Some(uid) => uid_if(are_lost_mutes(uid, last_of(5, exchanges)), uid),
        None => None,
    }
}

/// The UID that answered a branch of it alone, by this exchange, and then acknowledged none of five mutes, if these
/// come next.
pub(crate) fn unmuted_at(found: &DeviceSet, exchange: &Exchange, rest: &[Exchange]) -> Option<Uid>
    ensures { result ≡ unmuted_at (uids_of found.now) exchange.now rest.now }
{
    if rest.len() < 5 {
        return None;
    }
    match new_alone(found, exchange.asked, &exchange.heard) {
        Some(uid) => uid_if(are_lost_mutes(uid, &rest[..5]), uid),
        None => None,
    }
}

// The last exchanges, at most so many.
fn last_of(many: usize, exchanges: &[Exchange]) -> &[Exchange]
    ensures { result.now ≡ last_of many exchanges.now }
{
    &exchanges[exchanges.len().saturating_sub(many)..]
}

// Whether each exchange is a mute of this UID that wasn't acknowledged.
fn are_lost_mutes(uid: Uid, exchanges: &[Exchange]) -> bool
    ensures { result ≡ list_all (is_lost_mute uid) exchanges.now }
{
    for exchange in exchanges {
        if !lacks_acknowledgement(uid, exchange.asked, &exchange.heard) {
            return false;
        }
    }
    true
}

/// Whether bytes came after a mute of this UID in one of these exchanges, and didn't acknowledge it.
pub(crate) fn has_garbled_mute(uid: Uid, exchanges: &[Exchange]) -> bool
    ensures { result ≡ list_any (is_garbled_mute uid) exchanges.now }
{
    for exchange in exchanges {
        if is_garbled_mute(uid, exchange) {
            return true;
        }
    }
    false
}

/// Whether bytes came after a mute of this UID, and didn't acknowledge it.
pub(crate) fn is_garbled_mute(uid: Uid, exchange: &Exchange) -> bool
    ensures { result ≡ is_garbled_mute uid exchange.now }
{
    lacks_acknowledgement(uid, exchange.asked, &exchange.heard) && has_bytes(&exchange.heard)
}

// Whether this is the mute of a UID, and no acknowledgement came.
fn lacks_acknowledgement(uid: Uid, asked: Asked, heard: &Heard) -> bool
    ensures { result ≡ lacks_acknowledgement uid asked heard.now }
{
    match asked {
        Asked::Mute(muted) => !heard.is_acked() && muted == uid,
        _ => false,
    }
}

// The exchange at this place from the end; the last one has 1.
fn from_end(place: usize, exchanges: &[Exchange]) -> Option<Exchange>
    ensures { result ≡ from_end place exchanges.now }
{
    if exchanges.len() < place {
        return None;
    }
    exchanges.get(exchanges.len() - place).copied()
}

fn wrong_alone_in(found: &DeviceSet, exchange: Option<Exchange>) -> Option<Uid>
    ensures { result ≡ wrong_alone_in (uids_of found.now) exchange }
{
    match exchange {
        Some(exchange) => wrong_alone(found, exchange.asked, &exchange.heard),
        None => None,
    }
}

// The UID of a branch of one UID that was answered, but showed no device that wasn't found.
fn wrong_alone(found: &DeviceSet, asked: Asked, heard: &Heard) -> Option<Uid>
    ensures { result ≡ wrong_alone (uids_of found.now) asked heard.now }
{
    match asked {
        Asked::Branch { lo, hi } => uid_if(
            lo == hi && (has_bytes(heard) && !shows_new(found, lo, heard)),
            lo,
        ),
        _ => None,
    }
}

fn new_alone_in(found: &DeviceSet, exchange: Option<Exchange>) -> Option<Uid>
    ensures { result ≡ new_alone_in (uids_of found.now) exchange }
{
    match exchange {
        Some(exchange) => new_alone(found, exchange.asked, &exchange.heard),
        None => None,
    }
}

// The UID of a branch of one UID that showed a device that wasn't found.
fn new_alone(found: &DeviceSet, asked: Asked, heard: &Heard) -> Option<Uid>
    ensures { result ≡ new_alone (uids_of found.now) asked heard.now }
{
    match asked {
        Asked::Branch { lo, hi } => uid_if(lo == hi && shows_new(found, lo, heard), lo),
        _ => None,
    }
}

// The UID, if the fact holds.
fn uid_if(fact: bool, uid: Uid) -> Option<Uid>
    ensures { result ≡ (if fact then Some uid else None) }
{
    if fact { Some(uid) } else { None }
}

fn shows_new(found: &DeviceSet, uid: Uid, heard: &Heard) -> bool
    ensures { result ≡ shows_new (uids_of found.now) uid heard.now }
{
    is_own(uid, heard) && (!uid.is_broadcast() && !found.contains(uid))
}

// Whether an answer is the text of this UID.
pub(crate) fn is_own(uid: Uid, heard: &Heard) -> bool
    ensures { result ≡ is_own uid heard.now }
{
    match heard {
        Heard::One(spelt) => *spelt == uid,
        _ => false,
    }
}

// Whether bytes came.
pub(crate) fn has_bytes(heard: &Heard) -> bool
    ensures own { result ≡ has_bytes heard.now }
    ensures seen { result ≡ has_bytes_seen (heard_of heard.now) }
{
    match heard {
        Heard::Failed | Heard::Silent => false,
        _ => true,
    }
}
