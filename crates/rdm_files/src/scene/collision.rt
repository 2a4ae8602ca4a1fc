//! What results from a scene's collisions.
ghost use Rattle.std.specs.Prelude.{◌≡◌, None, codes, false};
ghost use Rattle.serde_json.specs.Find.{get, as_str};
ghost use Rattle.serde_json.specs.View.{view};
ghost use Rattle.rdm_files.specs.Forms.{Reads, is_memory};
ghost use Rattle.rdm_files.specs.SceneFiles.{IsCollision};

use crate::scene::fault::SceneFault;
use crate::scene::form::{Form, required};
use crate::scene::key::{Keyed, UnknownKey, unknown_of};
use crate::scene::values::{AnyUid, Bytes};
use rdm_line::{Collision, CollisionBytes};
use rdm_wire::MOST_FRAME_BYTES;
use serde_json::Value;
use std::alloc::Global;

const EXPECTED: &str = "\"or\", or an object with either a uid or bytes";

const KEYS: &[&str] = &["uid", "bytes"];

// The bytes that result from a collision.
const BYTES: Bytes<MOST_FRAME_BYTES> = Bytes {
    least: 1,
    expected: "hexadecimal digits of 1 to 257 bytes",
};

/// What results from a collision: the OR of the replies, the text of a UID, or other bytes.
#[derive(Clone, Copy, Drop)]
pub(crate) struct CollisionForm;

impl Form for CollisionForm {
    type Out = Collision;

    ghost says = { λ _. IsCollision };

    fn expected(&self) -> &'static str {
        EXPECTED
    }

    fn read(&self, alloc: Global, value: &Value) -> Result<Collision, SceneFault> {
        if let Some(text) = value.as_str() {
            return match text {
                "or" => Ok(Collision::Or),
                _ => Err(SceneFault::at(value, EXPECTED)),
            };
        }
        match (value.get("uid").is_some(), value.get("bytes").is_some()) {
            (true, false) => Ok(Collision::Uid(required(alloc, value, "uid", &AnyUid)?)),
            (false, true) => read_bytes(alloc, value),
            _ => Err(no_collision(value)),
        }
    }
}

// Why a value is no collision: it isn't a text, and doesn't have exactly one of the keys.
fn no_collision(value: &Value) -> SceneFault
    ensures { is_memory result ≡ false }
{
    if !value.is_object() {
        return SceneFault::at(value, EXPECTED);
    }
    let keys = if value.get("uid").is_some() {
        "both"
    } else {
        "neither"
    };
    SceneFault::with_keys(keys, EXPECTED)
}

fn read_bytes(alloc: Global, value: &Value) -> Result<Collision, SceneFault>
    requires no_uid { get (codes "uid") (view value.now) ≡ None }
    requires no_text { as_str (view value.now) ≡ None }
    ensures { Reads result (IsCollision (view value.now)) }
{
    let bytes = required(alloc, value, "bytes", &BYTES)?;
    match CollisionBytes::new(bytes) {
        Some(bytes) => Ok(Collision::Bytes(bytes)),
        None => Err(SceneFault::at(value, EXPECTED)),
    }
}

impl Keyed for CollisionForm {
    fn unknown(&self, value: &Value) -> Option<UnknownKey> {
        unknown_of(value, KEYS)
    }
}
