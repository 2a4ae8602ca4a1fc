//! The parameters of a scene's device.
ghost use Rattle.rdm_files.specs.SceneFiles.{IsParameter};

use crate::scene::fault::SceneFault;
use crate::scene::form::{Form, ListOf, required};
use crate::scene::key::{Keyed, UnknownKey, unknown_of};
use crate::scene::values::{Bytes, FourDigits};
use rdm_line::Parameter;
use rdm_wire::MOST_PARAMETER_BYTES;
use serde_json::Value;
use std::alloc::Global;

// The parts of a parameter's data.
const PARTS: ListOf<Bytes<MOST_PARAMETER_BYTES>> = ListOf {
    form: Bytes {
        least: 0,
        expected: "hexadecimal digits of 0 to 231 bytes",
    },
    least: 1,
    most: 512,
    expected: "a list of 1 to 512 parts",
};

const KEYS: &[&str] = &["pid", "parts"];

/// A parameter: its PID and the parts of its data.
#[derive(Clone, Copy, Drop)]
pub(crate) struct ParameterForm;

impl Form for ParameterForm {
    type Out = Parameter;

    ghost says = { λ _. IsParameter };

    fn expected(&self) -> &'static str {
        "a parameter"
    }

    fn read(&self, alloc: Global, value: &Value) -> Result<Parameter, SceneFault> {
        let pid = required(alloc, value, "pid", &FourDigits)?;
        let parts = required(alloc, value, "parts", &PARTS)?;
        Ok(Parameter::new(pid, parts.into_vec()))
    }
}

impl Keyed for ParameterForm {
    fn unknown(&self, value: &Value) -> Option<UnknownKey> {
        unknown_of(value, KEYS)
    }
}
