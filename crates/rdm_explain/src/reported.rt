//! Whether a set is that of the acknowledged devices.
ghost use Rattle.std.specs.Prelude.{◌≡◌, ◌↔◌, ◌||◌, ◌&&◌, not, ℕ, ◌∷◌, [], Bool, true, Some, IfOk, OnOk, fold};
ghost use Rattle.rdm_wire.specs.Uid.{has, IsAscending};
ghost use Rattle.rdm_wire.specs.Honest.Asked.{Mute};
ghost use Rattle.rdm_wire.specs.Devices.{uids_of, device_with};
ghost use Rattle.rdm_agent.specs.Run.{acked_in, devices_in, device_by, acked_device};
ghost use Rattle.rdm_explain.specs.Exchanges.{seen_of, seen_all, heard_of};
ghost use Rattle.rdm_explain.specs.Certificates.{FirstMisreported, FirstElementWithout, IsAsFirstAcked};
ghost use Rattle.rdm_explain.specs.Reported.{with_reported, reported_in};
ghost use Rattle.rdm_explain.specs.body.Trees.{Holds, Gains, in_tree};
ghost use Rattle.rdm_explain.specs.body.Leasts.{Least};
ghost use Rattle.rdm_explain.specs.body.Firsts.{first_in, or_else};

use crate::exchange::{Asked, Exchange, Heard};
use crate::firsts::Firsts;
use crate::uids::Uids;
use rdm_wire::{Device, DeviceSet, NoMemory, Uid};
use std::alloc::Global;

/// A part of a certificate: the set is that of the acknowledged UIDs. The least UID that is in the set and wasn't
/// acknowledged, or was acknowledged and isn't in the set. `None`: there is none. The only error: out of memory.
pub fn first_misreported(
    alloc: Global,
    set: &DeviceSet,
    exchanges: &[Exchange],
) -> Result<Option<Uid>, NoMemory>
    ensures { IfOk result (λ found. FirstMisreported (uids_of set.now) exchanges.now found) }
{
    let acked = acknowledged(alloc, exchanges)?;
    let added = first_other(set.as_slice(), &acked);
    let missing = least_missing(set, exchanges);
    Ok(lesser(added, missing))
}

// The acknowledged UIDs.
fn acknowledged(alloc: Global, exchanges: &[Exchange]) -> Result<Uids, NoMemory>
    ensures { IfOk result (λ tree. Holds (acked_in (seen_all exchanges.now)) tree) }
{
    let mut acked = Uids::new(alloc);
    for exchange in exchanges {
        add_acked(&mut acked, exchange)?;
    }
    Ok(acked)
}

/// The devices whose mutes were acknowledged, each as in its first acknowledgement: of more than 1,024 the first. UIDs
/// that are no device's are left out. The findings about a certificate say whether any is missing.
pub fn acknowledged_devices(exchanges: &[Exchange]) -> DeviceSet
    ensures { result ≡ reported_in (seen_all exchanges.now) }
{
    let mut devices = DeviceSet::new();
    for exchange in exchanges {
        add_device(&mut devices, exchange);
    }
    devices
}

// Adds the device whose mute an exchange finds acknowledged.
fn add_device(devices: &mut DeviceSet, exchange: &Exchange)
    ensures { devices.new ≡ fold with_reported devices.old (devices_in (seen_of exchange.now ∷ [])) }
{
    if let Some(device) = acknowledgement(exchange) {
        add_reported(devices, device);
    }
}

// Adds a device, unless its UID is no device's or the set is full.
fn add_reported(devices: &mut DeviceSet, device: Device)
    ensures { devices.new ≡ with_reported devices.old device }
{
    if !device.uid.is_broadcast() && !devices.is_full() {
        let _ = devices.insert(device);
    }
}

// Adds the UID whose mute an exchange finds acknowledged.
fn add_acked(acked: &mut Uids, exchange: &Exchange) -> Result<(), NoMemory>
    ensures { OnOk result (Gains (acked_in (seen_of exchange.now ∷ [])) acked.old acked.new) }
{
    match exchange.asked {
        Asked::Mute(uid) if exchange.heard.is_acked() => acked.add(uid),
        _ => Ok(()),
    }
}

// The device whose mute an exchange finds acknowledged.
fn acknowledgement(exchange: &Exchange) -> Option<Device>
    ensures { result ≡ device_by (seen_of exchange.now) }
{
    match exchange.asked {
        Asked::Mute(uid) => acked_device(uid, &exchange.heard),
        _ => None,
    }
}

// The device whose mute was answered like this, if it acknowledged the mute.
fn acked_device(uid: Uid, heard: &Heard) -> Option<Device>
    ensures { result ≡ acked_device (Mute uid) (heard_of heard.now) }
{
    match heard {
        Heard::Acked(ack) => Some(Device {
            uid,
            control: ack.control,
            binding: ack.binding,
        }),
        _ => None,
    }
}

// The least UID of these devices, which ascend, that isn't in the tree.
fn first_other(devices: &[Device], uids: &Uids) -> Option<Uid>
    requires { IsAscending (uids_of devices.now) }
    ensures { Least (λ u. has (uids_of devices.now) u && not (in_tree uids.now u)) result }
{
    for device in devices {
        if !uids.contains(device.uid) {
            return Some(device.uid);
        }
    }
    None
}

// The least acknowledged UID that isn't in the set.
fn least_missing(set: &DeviceSet, exchanges: &[Exchange]) -> Option<Uid>
    ensures { Least (λ u. has (acked_in (seen_all exchanges.now)) u && not (has (uids_of set.now) u)) result }
{
    let mut least = None;
    for exchange in exchanges {
        least = lesser(least, missing(set, exchange));
    }
    least
}

// The UID whose mute an exchange finds acknowledged, if it isn't in the set.
fn missing(set: &DeviceSet, exchange: &Exchange) -> Option<Uid>
    ensures { Least (λ u. has (acked_in (seen_of exchange.now ∷ [])) u && not (has (uids_of set.now) u)) result }
{
    match exchange.asked {
        Asked::Mute(uid) if exchange.heard.is_acked() && !set.contains(uid) => Some(uid),
        _ => None,
    }
}

// The lesser one, if there is one.
fn lesser(a: Option<Uid>, b: Option<Uid>) -> Option<Uid>
    ensures { (f g : ℕ → Bool) → Least f a → Least g b → Least (λ u. f u || g u) result }
{
    match (a, b) {
        (Some(x), Some(y)) => Some(if x <= y { x } else { y }),
        (Some(x), None) => Some(x),
        (None, other) => other,
    }
}

/// A part of a certificate: each device of the set has the data of its first acknowledgement. The first that has other
/// data, or wasn't acknowledged. `None`: there is none. The only error: out of memory.
pub fn first_other_data(
    alloc: Global,
    set: &DeviceSet,
    exchanges: &[Exchange],
) -> Result<Option<Device>, NoMemory>
    ensures { IfOk result (λ found. FirstElementWithout (IsAsFirstAcked (seen_all exchanges.now)) set.now found) }
{
    let first = first_acknowledgements(alloc, set, exchanges)?;
    for device in set.as_slice() {
        if !is_among(&first, device) {
            return Ok(Some(*device));
        }
    }
    Ok(None)
}

// The first acknowledgement of each device of the set.
fn first_acknowledgements(
    alloc: Global,
    set: &DeviceSet,
    exchanges: &[Exchange],
) -> Result<Firsts, NoMemory>
    ensures { IfOk result (λ tree. (u : ℕ) → has (uids_of set.now) u ≡ true
        → first_in tree u ≡ device_with (devices_in (seen_all exchanges.now)) u) }
{
    let mut first = Firsts::new(alloc);
    for exchange in exchanges {
        add_first(&mut first, set, exchange)?;
    }
    Ok(first)
}

// Adds the device whose mute an exchange finds acknowledged, if it is in the set and has no acknowledgement yet.
fn add_first(first: &mut Firsts, set: &DeviceSet, exchange: &Exchange) -> Result<(), NoMemory>
    ensures { OnOk result ((u : ℕ) → has (uids_of set.now) u ≡ true → first_in first.new u
        ≡ or_else (first_in first.old u) (device_with (devices_in (seen_of exchange.now ∷ [])) u)) }
{
    match acknowledgement(exchange) {
        Some(device) if set.contains(device.uid) => first.add(device),
        _ => Ok(()),
    }
}

// Whether the device of that UID has the same data.
fn is_among(first: &Firsts, device: &Device) -> bool
    ensures { (result ≡ true) ↔ (first_in first.now device.now.uid ≡ Some device.now) }
{
    first.get(device.uid) == Some(*device)
}
