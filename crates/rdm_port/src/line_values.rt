//! The UIDs of a discovery on a line.
ghost use Rattle.std.specs.Prelude.{◌≡◌, ◌≤◌, ℕ, List, IfOk, IfErr, length};
ghost use Rattle.rdm_wire.specs.Uid.{set_of};
ghost use Rattle.rdm_port.specs.LineOutcome.{SaysValues, SpellsDevice, SpellDevices};

use crate::answer::Refused;
use crate::fault::Fault;
use crate::reason::Reason;
use rdm_arguments::LineDiscovery;
use rdm_wire::{MOST_DEVICES, Uid, UidSet};

/// The UIDs that a discovery's texts spell.
#[derive(Drop)]
pub struct LineValues {
    /// The controller's.
    pub source: Uid,
    /// The UIDs that an incremental run mutes first.
    pub known: UidSet,
}

/// The UIDs that a discovery's texts spell. Err: one of them spells no device's UID; the first one is the reason. Or
/// more than 1,024 are known, which no arguments give.
pub(crate) fn values_of<'a>(own: &LineDiscovery<'a>) -> Result<LineValues, Refused<'a>>
    ensures ok { IfOk result (SaysValues own.now) }
    ensures fault { IfErr result (λ e. (e.0 ≡ Fault.Uid) × ((values : LineValues) → SaysValues own.now values → ⊥)) }
{
    let source = match device_of("--source", own.source) {
        Ok(source) => source,
        Err(refused) => return Err(refused),
    };
    if MOST_DEVICES < own.known.len() {
        return Err((Fault::Uid, None));
    }
    match devices_of("--known", &own.known) {
        Ok(known) => Ok(LineValues { source, known }),
        Err(refused) => Err(refused),
    }
}

/// The UIDs that an option's texts spell. Err: one of them spells no device's UID; the first one is the reason.
pub(crate) fn devices_of<'a>(option: &'static str, texts: &[&'a str]) -> Result<UidSet, Refused<'a>>
    requires { length texts.now ≤ MOST_DEVICES }
    ensures ok { IfOk result (λ known. (listed : List ℕ) × SpellDevices texts.now listed × (known ≡ set_of listed)) }
    ensures fault { IfErr result (λ e. (e.0 ≡ Fault.Uid) × ((listed : List ℕ) → SpellDevices texts.now listed → ⊥)) }
{
    let mut known = UidSet::new();
    'texts: for i in 0..texts.len() {
        match device_of(option, texts[i]) {
            Ok(uid) => {
                // All of them fit into a set.
                let _ = known.insert(uid);
            }
            Err(refused) => return Err(refused),
        }
    }
    Ok(known)
}

// The UID of one device that an option's text spells.
fn device_of<'a>(option: &'static str, text: &'a str) -> Result<Uid, Refused<'a>>
    ensures ok { IfOk result (SpellsDevice text.now) }
    ensures fault { IfErr result (λ e. (e.0 ≡ Fault.Uid) × ((u : ℕ) → SpellsDevice text.now u → ⊥)) }
{
    match Uid::parse(text) {
        Ok(uid) if uid.is_broadcast() => Err((Fault::Uid, Some(Reason::NoDevice(option, text)))),
        Ok(uid) => Ok(uid),
        Err(_) => Err((Fault::Uid, Some(Reason::NoDevice(option, text)))),
    }
}
