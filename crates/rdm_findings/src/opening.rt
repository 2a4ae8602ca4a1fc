//! Reads the line of an opening.
ghost use Rattle.std.specs.Prelude.{◌≡◌, false, All, IfSome};
ghost use Rattle.rdm_wire.specs.Uid.{is_broadcast};
ghost use Rattle.rdm_findings.specs.SameLines.{Has64Bits, Has48Bits, FitsDevice, FitsOpening};

use crate::entry::kind;
use crate::fields::{between, digits, leading_number, medium, number, small, uid};
use crate::line::{DiscoveryOpening, SessionOpening};
use arrayvec::ArrayVec;
use rdm_agent::Search;
use rdm_log::{BrokenAnswers, MOST_CLIENTS, Opening};
use rdm_wire::{Device, DeviceSet, Uid, UidSet};

/// The opening of a discovery's log that a line seems to have.
pub(crate) fn discovery(line: &str) -> Option<DiscoveryOpening>
    ensures { IfSome result (λ o. Has48Bits o.source × All Has48Bits o.known × Has64Bits o.budget) }
{
    Some(DiscoveryOpening {
        source: uid(line, "\"source\":\"")?,
        search: search(line)?,
        kind: kind(line)?,
        known: known(between(line, "\"known\":[", "]")?)?,
        budget: number(line, "\"budget\":")?,
    })
}

/// The opening of a session's log that a line seems to have.
pub(crate) fn session(line: &str) -> Option<SessionOpening>
    ensures { IfSome result (λ s. FitsOpening s.opening × Has64Bits s.first) }
{
    Some(SessionOpening {
        opening: opening(line)?,
        first: number(line, "\"number\":")?,
    })
}

fn search(line: &str) -> Option<Search> {
    match between(line, "\"search\":\"", "\"")? {
        "steady" => Some(Search::Steady),
        "quick" => Some(Search::Quick),
        _ => None,
    }
}

fn opening(line: &str) -> Option<Opening>
    ensures { IfSome result FitsOpening }
{
    Some(Opening {
        source: uid(line, "\"source\":\"")?,
        greatest: medium(line, "\"greatest\":")?,
        budget: number(line, "\"budget\":")?,
        search: search(line)?,
        places: places(between(line, "\"places\":[", "]")?)?,
        paused: line.contains("\"paused\":true"),
        closed: line.contains("\"closed\":true"),
        devices: devices(between(line, "\"devices\":[", "]")?)?,
        devices_run: number(line, "\"devices_run\":")?,
        broken: BrokenAnswers::new(),
        next_request: number(line, "\"next_request\":")?,
        next_ask: number(line, "\"next_ask\":")?,
        next_run: number(line, "\"next_run\":")?,
        next_tn: small(line, "\"next_tn\":")?,
    })
}

// The UIDs of a list.
fn known(list: &str) -> Option<UidSet>
    ensures { IfSome result (All Has48Bits) }
{
    let mut uids = UidSet::new();
    if list.is_empty() {
        return Some(uids);
    }
    for item in list.split(',') {
        let uid = Uid::parse(item.strip_prefix('"')?.strip_suffix('"')?).ok()?;
        if uid.is_broadcast() || uids.insert(uid).is_err() {
            return None;
        }
    }
    Some(uids)
}

// The queue depths of a list.
fn places(list: &str) -> Option<ArrayVec<u8, MOST_CLIENTS>>
    ensures { IfSome result (λ depths. All Has64Bits depths.items) }
{
    let mut depths = ArrayVec::new();
    if list.is_empty() {
        return Some(depths);
    }
    for item in list.split(',') {
        depths
            .try_push(u8::try_from(leading_number(item)?).ok()?)
            .ok()?;
    }
    Some(depths)
}

// The devices of a list.
#[tactic(auto, using(crate::proofs::FitLemmas::more_fit))]
fn devices(list: &str) -> Option<DeviceSet>
    ensures { IfSome result (All FitsDevice) }
{
    let mut devices = DeviceSet::new();
    for item in list.split('{') {
        if !item.is_empty() && devices.insert(device(item)?).is_err() {
            return None;
        }
    }
    Some(devices)
}

fn device(item: &str) -> Option<Device>
    ensures device { IfSome result (λ d. is_broadcast d.uid ≡ false) }
    ensures fits { IfSome result FitsDevice }
{
    let own = uid(item, "\"uid\":\"")?;
    if own.is_broadcast() {
        return None;
    }
    Some(Device {
        uid: own,
        control: digits(item, "\"control\":\"")?,
        binding: uid(item, "\"binding\":\""),
    })
}
