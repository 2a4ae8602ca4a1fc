//! The calls of a session file's clients.
ghost use Rattle.std.specs.Prelude.{◌≡◌, false};
ghost use Rattle.serde_json.specs.View.{view};
ghost use Rattle.rdm_files.specs.Forms.{Reads, is_memory};
ghost use Rattle.rdm_files.specs.SessionFiles.{IsCall};
ghost use Rattle.rdm_files.specs.body.Elements.{IsRequest, IsAsk};

use crate::scene::{
    AnyUid, Bytes, Form, FourDigits, Keyed, SceneFault, UnknownKey, Whole, optional, required,
    unknown_of,
};
use arrayvec::ArrayVec;
use rdm_agent::Kind;
use rdm_wire::{MOST_PARAMETER_BYTES, ReqClass, Request};
use serde_json::Value;
use std::alloc::Global;

/// A call that a client makes.
#[derive(Drop)]
pub enum ClientCall {
    /// It submits a request.
    Submit(Request),
    /// It asks for a discovery.
    Discover(Kind),
}

const SUB: Whole = Whole {
    least: 0,
    most: 65_535,
    expected: "a whole number from 0 to 65535",
};

const PARAM: Bytes<MOST_PARAMETER_BYTES> = Bytes {
    least: 0,
    expected: "hexadecimal digits of 0 to 231 bytes",
};

const EXPECTED: &str = "a call with one of get, set and discover";

const GET_KEYS: &[&str] = &["get", "pid", "sub", "param"];

const SET_KEYS: &[&str] = &["set", "pid", "sub", "param"];

const DISCOVER_KEYS: &[&str] = &["discover"];

/// A call: a request with the key `get` or `set`, or a discovery with the key `discover`, but only one of them.
#[derive(Clone, Copy, Drop)]
pub(crate) struct CallForm;

impl Form for CallForm {
    type Out = ClientCall;

    ghost says = { λ _. IsCall };

    fn expected(&self) -> &'static str {
        EXPECTED
    }

    fn read(&self, alloc: Global, value: &Value) -> Result<ClientCall, SceneFault> {
        let gets = value.get("get").is_some();
        let sets = value.get("set").is_some();
        let discovers = value.get("discover").is_some();
        match (gets, sets, discovers) {
            (true, false, false) => request(alloc, value, "get", ReqClass::Get),
            (false, true, false) => request(alloc, value, "set", ReqClass::Set),
            (false, false, true) => discovery(alloc, value),
            _ => Err(no_call(value, gets, sets, discovers)),
        }
    }
}

impl Keyed for CallForm {
    fn unknown(&self, value: &Value) -> Option<UnknownKey> {
        let known = if value.get("get").is_some() {
            GET_KEYS
        } else if value.get("set").is_some() {
            SET_KEYS
        } else {
            DISCOVER_KEYS
        };
        unknown_of(value, known)
    }
}

// Why a value is no call: it has these of the keys, instead of exactly one.
fn no_call(value: &Value, gets: bool, sets: bool, discovers: bool) -> SceneFault
    ensures { is_memory result ≡ false }
{
    if !value.is_object() {
        return SceneFault::at(value, EXPECTED);
    }
    let keys = match (gets, sets, discovers) {
        (true, true, true) => "all three",
        (true, true, false) => "get and set",
        (true, false, _) => "get and discover",
        (false, true, _) => "set and discover",
        (false, false, _) => "none of them",
    };
    SceneFault::with_keys(keys, EXPECTED)
}

// A request of this class to the UID under this key.
fn request(
    alloc: Global,
    value: &Value,
    key: &'static str,
    class: ReqClass,
) -> Result<ClientCall, SceneFault>
    ensures { Reads result (IsRequest key.now class (view value.now)) }
{
    let target = required(alloc, value, key, &AnyUid)?;
    let pid = required(alloc, value, "pid", &FourDigits)?;
    let sub_device = optional(alloc, value, "sub", &SUB, 0)?;
    let param = optional(alloc, value, "param", &PARAM, ArrayVec::new())?;
    Ok(ClientCall::Submit(Request {
        target,
        sub_device: sub_device as u16,
        class,
        pid,
        param,
    }))
}

// A discovery of the kind under the key `discover`.
fn discovery(alloc: Global, value: &Value) -> Result<ClientCall, SceneFault>
    ensures { Reads result (IsAsk (view value.now)) }
{
    let kind = required(alloc, value, "discover", &KindForm)?;
    Ok(ClientCall::Discover(kind))
}

const EXPECTED_KIND: &str = "\"full\" or \"incremental\"";

// A kind of discovery.
#[derive(Clone, Copy, Drop)]
struct KindForm;

impl Form for KindForm {
    type Out = Kind;

    ghost use Rattle.rdm_files.specs.SessionFiles.{IsKind};

    ghost says = { λ _. IsKind };

    fn expected(&self) -> &'static str {
        EXPECTED_KIND
    }

    fn read(&self, _alloc: Global, value: &Value) -> Result<Kind, SceneFault> {
        match value.as_str() {
            Some("full") => Ok(Kind::Full),
            Some("incremental") => Ok(Kind::Incremental),
            _ => Err(SceneFault::at(value, EXPECTED_KIND)),
        }
    }
}
