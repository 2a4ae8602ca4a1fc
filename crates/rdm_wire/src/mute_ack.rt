//! The acknowledgement of a mute.
ghost use Rattle.std.specs.Prelude.{◌≡◌, ◌≤◌, ◌↔◌, Some, length};
ghost use Rattle.rdm_wire.specs.MuteAcks.{MuteAckedWith, ack_data};
ghost use Rattle.rdm_wire.specs.Reading.{ack_read, acks};

use crate::discovery::DISC_MUTE;
use crate::frame::{u16_at, uid_at};
use crate::response::{AckType, RespClass, Response, decode_response};
use crate::uid::Uid;

// How many bytes the control field has, and how many with a binding UID after it.
const CONTROL_LENGTH: usize = 2;

const CONTROL_AND_BINDING_LENGTH: usize = 8;

/// The data with which a device acknowledges a mute (E1.20, discovery mute).
#[derive(Clone, Copy, Debug, PartialEq, Eq)]
pub struct MuteAck {
    /// The control field's bits: 1 managed proxy, 2 sub-device, 4 boot-loader, 8 proxied device. Other bits are kept.
    pub control: u16,
    /// The binding UID, if the device gave one.
    pub binding: Option<Uid>,
}

/// The acknowledgement of a mute of `uid` that the controller `source` sent with the transaction number `tn`
/// (E1.20, discovery mute). `None` if the bytes don't begin with that device's ACK of that command, or its parameter
/// data have neither 2 bytes nor 8.
pub fn reads_mute_ack(uid: Uid, source: Uid, tn: u8, bytes: &[u8]) -> Option<MuteAck>
    ensures value { result ≡ ack_read uid source tn bytes.now }
    ensures acknowledged { (ack : MuteAck) → (result ≡ Some ack) ↔ MuteAckedWith uid source tn bytes.now ack }
{
    let response = decode_response(bytes).ok()?;
    if !acknowledges(&response, uid, source, tn) {
        return None;
    }
    Some(ack_of_data(&response.param))
}

// Whether a response is that ACK, with data of a length that an acknowledgement has.
fn acknowledges(response: &Response, uid: Uid, source: Uid, tn: u8) -> bool
    ensures { result ≡ acks uid source tn response.now }
{
    let size = response.param.len();
    response.class == RespClass::Discovery
        && response.pid == DISC_MUTE
        && response.ack == AckType::Ack
        && response.source == uid
        && response.dest == source
        && response.tn == tn
        && (size == CONTROL_LENGTH || size == CONTROL_AND_BINDING_LENGTH)
}

// What an acknowledgement's parameter data encode: the control field, and the binding UID if it follows.
fn ack_of_data(param: &[u8]) -> MuteAck
    requires { 2 ≤ length param.now }
    ensures { result ≡ ack_data param.now }
{
    let binding = if param.len() == CONTROL_AND_BINDING_LENGTH {
        Some(uid_at(param, CONTROL_LENGTH))
    } else {
        None
    };
    MuteAck {
        control: u16_at(param, 0),
        binding,
    }
}
