//! A scene's devices.
ghost use Rattle.std.specs.Prelude.{◌≡◌, length, false, OnOk, IfErr};
ghost use Rattle.serde_json.specs.View.{view};
ghost use Rattle.rdm_wire.specs.Uid.{has};
ghost use Rattle.rdm_line.specs.Scenes.{uids_of_scene};
ghost use Rattle.rdm_files.specs.Forms.{is_memory};
ghost use Rattle.rdm_files.specs.SceneFiles.{IsDeviceOf, AreDevices, leaves_first};
ghost use Rattle.rdm_files.specs.body.Elements.{IsAdded};

use crate::scene::fault::SceneFault;
use crate::scene::form::{Form, ListOf, Listed, given, optional, required};
use crate::scene::key::{Keyed, UnknownKey, unknown_in_list, unknown_of};
use crate::scene::parameter::ParameterForm;
use crate::scene::values::{FourDigits, OwnUid, Whole};
use rdm_line::{AddFault, LATEST_ARRIVAL, Parameters, SceneDevice, SceneDevices};
use rdm_wire::{Device, MOST_DEVICES};
use serde_json::Value;
use std::alloc::Global;

const PREAMBLE: Whole = Whole {
    least: 0,
    most: 7,
    expected: "a whole number from 0 to 7",
};

const FROM: Whole = Whole {
    least: 0,
    most: LATEST_ARRIVAL,
    expected: "a whole number from 0 to 1000000000",
};

const UNTIL: Whole = Whole {
    least: 1,
    most: 1_000_000_000,
    expected: "a whole number from 1 to 1000000000",
};

const PARAMS: ListOf<ParameterForm> = ListOf {
    form: ParameterForm,
    least: 0,
    most: usize::MAX,
    expected: "a list of parameters",
};

const KEYS: &[&str] = &[
    "uid", "preamble", "params", "control", "binding", "from", "until",
];

/// A device, with the data of its acknowledgements, and the exchanges at which it is on the line.
#[derive(Clone, Copy, Drop)]
pub(crate) struct DeviceForm;

impl Form for DeviceForm {
    type Out = SceneDevice;

    ghost says = { λ _. IsDeviceOf };

    fn expected(&self) -> &'static str {
        "a device"
    }

    fn read(&self, alloc: Global, value: &Value) -> Result<SceneDevice, SceneFault> {
        let uid = required(alloc, value, "uid", &OwnUid)?;
        let preamble = optional(alloc, value, "preamble", &PREAMBLE, 7)?;
        let params = optional(alloc, value, "params", &PARAMS, Listed::new(alloc))?;
        let control = optional(alloc, value, "control", &FourDigits, 0)?;
        let binding = given(alloc, value, "binding", &OwnUid)?;
        let from = optional(alloc, value, "from", &FROM, 0)?;
        let until = given(alloc, value, "until", &UNTIL)?;
        if leaves_first(from, until) {
            return Err(leaves_too_soon(value));
        }
        Ok(SceneDevice {
            device: Device {
                uid,
                control,
                binding,
            },
            preamble: preamble as u8,
            params: Parameters::new(params.into_vec()),
            from,
            until,
        })
    }
}

impl Keyed for DeviceForm {
    fn unknown(&self, value: &Value) -> Option<UnknownKey> {
        match unknown_of(value, KEYS) {
            Some(unknown) => Some(unknown),
            None => unknown_in_list(value, "params", &ParameterForm),
        }
    }
}

// The device of this value leaves before it comes, or at that exchange.
fn leaves_too_soon(value: &Value) -> SceneFault
    ensures { is_memory result ≡ false }
{
    let expected = "a number after from";
    match value.get("until") {
        Some(until) => SceneFault::at(until, expected).under("until"),
        None => SceneFault::at(value, expected),
    }
}

// Whether a device leaves before it comes, or at that exchange.
fn leaves_first(from: u64, until: Option<u64>) -> bool
    ensures { result ≡ leaves_first from until }
{
    match until {
        Some(end) => end <= from,
        None => false,
    }
}

const EXPECTED: &str = "a list of at most 1024 devices";

/// The devices of a scene, in the order of the file.
pub(crate) const DEVICES: ListOf<DeviceForm> = ListOf {
    form: DeviceForm,
    least: 0,
    most: MOST_DEVICES,
    expected: EXPECTED,
};

/// The devices of a scene.
#[derive(Clone, Copy, Drop)]
pub(crate) struct DevicesForm;

impl Form for DevicesForm {
    type Out = SceneDevices;

    ghost says = { λ _. AreDevices };

    fn expected(&self) -> &'static str {
        EXPECTED
    }

    fn read(&self, alloc: Global, value: &Value) -> Result<SceneDevices, SceneFault> {
        let Some(values) = value.as_array() else {
            return Err(SceneFault::at(value, EXPECTED));
        };
        if MOST_DEVICES < values.len() {
            return Err(SceneFault::at(value, EXPECTED));
        }
        let mut devices = SceneDevices::new(alloc);
        'devices: for i in 0..values.len() {
            match add(alloc, &mut devices, &values[i]) {
                Ok(()) => {}
                Err(fault) => return Err(fault.in_item(i)),
            }
        }
        Ok(devices)
    }
}

// Reads a device and adds it to the others.
fn add(alloc: Global, devices: &mut SceneDevices, value: &Value) -> Result<(), SceneFault>
    ensures added { OnOk result (IsAdded (view value.now) devices.old devices.new) }
    ensures refused { IfErr result (λ fault. is_memory fault ≡ false → (d : SceneDevice) →
        IsDeviceOf (view value.now) d → has (uids_of_scene devices.old) d.device.uid ≡ false
        → length devices.old ≡ 1024) }
{
    let device = DeviceForm.read(alloc, value)?;
    match devices.add(device) {
        Ok(()) => Ok(()),
        Err(AddFault::NoMemory) => Err(SceneFault::NoMemory),
        Err(AddFault::Repeated) => Err(repeated(value)),
        Err(AddFault::Full) => Err(SceneFault::at(value, EXPECTED)),
    }
}

// Another device has the same UID as this value's.
fn repeated(value: &Value) -> SceneFault
    ensures { is_memory result ≡ false }
{
    let expected = "a UID that no device before it has";
    match value.get("uid") {
        Some(uid) => SceneFault::at(uid, expected).under("uid"),
        None => SceneFault::at(value, expected),
    }
}
