//! A scene file as a whole.
ghost use Rattle.serde_json.specs.View.{view};
ghost use Rattle.rdm_files.specs.Forms.{Reads};
ghost use Rattle.rdm_files.specs.SceneFiles.{IsSceneFile, AreKnown};

use crate::scene::collision::CollisionForm;
use crate::scene::device::{DeviceForm, DevicesForm};
use crate::scene::fault::SceneFault;
use crate::scene::form::{Form, ListOf, Listed, optional, required};
use crate::scene::key::{UnknownKey, unknown_in_list, unknown_of};
use crate::scene::values::{OwnUid, Whole};
use rdm_agent::DEFAULT_BUDGET;
use rdm_line::{Scene, SceneDevices};
use rdm_wire::{MOST_DEVICES, UidSet};
use serde_json::Value;
use std::alloc::Global;

/// The contents of a scene file.
#[derive(Drop)]
pub struct SceneFile {
    /// The line to be simulated.
    pub scene: Scene,
    /// The devices that an incremental run mutes first.
    pub known: UidSet,
    /// How many exchanges a run may make: 1 to 1,000,000,000.
    pub budget: u64,
}

const KEYS: &[&str] = &[
    "source",
    "devices",
    "collisions",
    "losses",
    "fails",
    "known",
    "budget",
];

const COLLISIONS: ListOf<CollisionForm> = ListOf {
    form: CollisionForm,
    least: 0,
    most: usize::MAX,
    expected: "a list of what comes of collisions",
};

const EXCHANGES: ListOf<Whole> = ListOf {
    form: Whole {
        least: 0,
        most: u64::MAX,
        expected: "the number of an exchange, from 0",
    },
    least: 0,
    most: usize::MAX,
    expected: "a list of exchanges' numbers",
};

/// How many frames a run may send.
pub(crate) const BUDGET: Whole = Whole {
    least: 1,
    most: 1_000_000_000,
    expected: "a whole number from 1 to 1000000000",
};

/// Reads a scene file. An error is the first mismatch in the order of the keys `source`, `devices`, `collisions`,
/// `losses`, `fails`, `known`, `budget`, or NoMemory if an allocation failed before it.
pub fn read_scene(alloc: Global, value: &Value) -> Result<SceneFile, SceneFault>
    ensures { Reads result (IsSceneFile (view value.now)) }
{
    let source = required(alloc, value, "source", &OwnUid)?;
    let devices = optional(
        alloc,
        value,
        "devices",
        &DevicesForm,
        SceneDevices::new(alloc),
    )?;
    let collisions = optional(alloc, value, "collisions", &COLLISIONS, Listed::new(alloc))?;
    let losses = optional(alloc, value, "losses", &EXCHANGES, Listed::new(alloc))?;
    let fails = optional(alloc, value, "fails", &EXCHANGES, Listed::new(alloc))?;
    let known = optional(alloc, value, "known", &KnownForm, UidSet::new())?;
    let budget = optional(alloc, value, "budget", &BUDGET, DEFAULT_BUDGET)?;
    Ok(SceneFile {
        scene: Scene {
            source,
            devices,
            collisions: collisions.into_vec(),
            losses: losses.into_vec(),
            fails: fails.into_vec(),
        },
        known,
        budget,
    })
}

/// The first key of a scene that isn't known, if there is one: its own, else a device's, else a collision's.
pub fn unknown_in_scene(value: &Value) -> Option<UnknownKey> {
    if let Some(unknown) = unknown_of(value, KEYS) {
        return Some(unknown);
    }
    match unknown_in_list(value, "devices", &DeviceForm) {
        Some(unknown) => Some(unknown),
        None => unknown_in_list(value, "collisions", &CollisionForm),
    }
}

const KNOWN: &str = "a list of at most 1024 UIDs";

// The known devices.
#[derive(Clone, Copy, Drop)]
struct KnownForm;

impl Form for KnownForm {
    type Out = UidSet;

    ghost says = { λ _. AreKnown };

    fn expected(&self) -> &'static str {
        KNOWN
    }

    fn read(&self, alloc: Global, value: &Value) -> Result<UidSet, SceneFault> {
        let Some(values) = value.as_array() else {
            return Err(SceneFault::at(value, KNOWN));
        };
        if MOST_DEVICES < values.len() {
            return Err(SceneFault::at(value, KNOWN));
        }
        let mut known = UidSet::new();
        'known: for i in 0..values.len() {
            match OwnUid.read(alloc, &values[i]) {
                Ok(uid) => {
                    // All of them fit into a set.
                    let _ = known.insert(uid);
                }
                Err(fault) => return Err(fault.in_item(i)),
            }
        }
        Ok(known)
    }
}
