//! The clients of a session file.
ghost use Rattle.rdm_files.specs.SessionFiles.{IsClient};

use crate::scene::{
    Form, Keyed, ListOf, SceneFault, UnknownKey, Whole, required, unknown_in_list, unknown_of,
};
use crate::session::call::{CallForm, ClientCall};
use serde_json::Value;
use std::alloc::Global;

/// A client: its queue depth, and the calls that it makes, in order.
#[derive(Drop)]
pub struct ClientFile {
    /// How many requests it may have outstanding: 1 to 255.
    pub places: u8,
    /// Its calls.
    pub calls: Vec<ClientCall>,
}

const PLACES: Whole = Whole {
    least: 1,
    most: 255,
    expected: "a whole number from 1 to 255",
};

const CALLS: ListOf<CallForm> = ListOf {
    form: CallForm,
    least: 0,
    most: usize::MAX,
    expected: "a list of calls",
};

const KEYS: &[&str] = &["places", "calls"];

/// A client.
#[derive(Clone, Copy, Drop)]
pub(crate) struct ClientForm;

impl Form for ClientForm {
    type Out = ClientFile;

    ghost says = { λ _. IsClient };

    fn expected(&self) -> &'static str {
        "a client"
    }

    fn read(&self, alloc: Global, value: &Value) -> Result<ClientFile, SceneFault> {
        let places = required(alloc, value, "places", &PLACES)?;
        let calls = required(alloc, value, "calls", &CALLS)?;
        Ok(ClientFile {
            places: places as u8,
            calls: calls.into_vec(),
        })
    }
}

impl Keyed for ClientForm {
    fn unknown(&self, value: &Value) -> Option<UnknownKey> {
        match unknown_of(value, KEYS) {
            Some(unknown) => Some(unknown),
            None => unknown_in_list(value, "calls", &CallForm),
        }
    }
}
