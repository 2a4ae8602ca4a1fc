//! The response of a device that was muted.
ghost use Rattle.std.specs.Prelude.{◌≡◌};
ghost use Rattle.rdm_wire.specs.MuteResponses.{mute_response, mute_data, binding_bytes};

use crate::device::Device;
use crate::discovery::DISC_MUTE;
use crate::frame::MOST_PARAMETER_BYTES;
use crate::response::{AckType, RespClass, Response};
use crate::uid::Uid;
use arrayvec::ArrayVec;

/// The response of a device that was muted by the controller `source` with the transaction number `tn` (E1.20,
/// discovery mute): an ACK with the device's control field, and with its binding UID if it has one.
pub fn mute_response(device: &Device, source: Uid, tn: u8) -> Response
    ensures { result ≡ mute_response device.now source tn }
{
    Response {
        source: device.uid,
        dest: source,
        tn,
        ack: AckType::Ack,
        count: 0,
        sub_device: 0,
        class: RespClass::Discovery,
        pid: DISC_MUTE,
        param: mute_data(device),
    }
}

// The data of the acknowledgement: the control field, and then the binding UID if there is one.
fn mute_data(device: &Device) -> ArrayVec<u8, MOST_PARAMETER_BYTES>
    ensures { result.items ≡ mute_data device.now }
{
    let mut bytes = ArrayVec::new();
    bytes
        .try_extend_from_slice(&device.control.to_be_bytes())
        .unwrap();
    if let Some(binding) = device.binding {
        bytes.try_extend_from_slice(&binding.to_bytes()).unwrap();
    }
    bytes
}
