//! What results from replies that collide.
ghost use Rattle.std.specs.Prelude.{◌≡◌, ◌↔◌, ◌<◌, ◌≤◌, [], length, IsNone, IfSome};

use rdm_join::LineReply;
use rdm_wire::{MOST_FRAME_BYTES, Uid};
use std::marker::Model;

/// What results from replies to a branch that collide.
#[derive(Debug, Drop)]
pub enum Collision {
    /// The OR of the replies.
    Or,
    /// The text of this UID, which may be a device's or not, after seven preamble bytes.
    Uid(Uid),
    /// These bytes.
    Bytes(CollisionBytes),
}

/// Bytes that result from a collision: 1 to 257.
#[derive(Debug, Drop)]
pub struct CollisionBytes {
    bytes: LineReply,
}

impl Model for CollisionBytes {
    ghost use Rattle.std.specs.Prelude.{◌<◌, length, List, ℕ};

    ghost Value = { List ℕ };

    ghost view = { λ c. c.bytes.items };

    ghost invariant = { λ c. 0 < length c.bytes.items };
}

impl CollisionBytes {
    /// These bytes; `None` if there are none.
    pub fn new(bytes: LineReply) -> Option<CollisionBytes>
        ensures none { IsNone result ↔ (bytes.items ≡ []) }
        ensures some { IfSome result (λ c. c ≡ bytes.items) }
    {
        if bytes.is_empty() {
            None
        } else {
            Some(CollisionBytes { bytes })
        }
    }

    // The bytes.
    pub(crate) fn as_slice(&self) -> &[u8]
        ensures value { result.now ≡ self.now }
        ensures some { 0 < length self.now }
        ensures few { length self.now ≤ MOST_FRAME_BYTES }
    {
        self.bytes.as_slice()
    }
}
