//! Requests that read or change a device's parameters, and their packets.
ghost use Rattle.std.specs.Prelude.{◌≡◌};
ghost use Rattle.rdm_wire.specs.Packet.{Packet};
ghost use Rattle.rdm_wire.specs.CommandFrames.{code_of_request_class, request_fields, request_frame};

use crate::frame::{Frame, Header, MOST_PARAMETER_BYTES, NO_MESSAGES, PORT_ID, class};
use crate::uid::Uid;
use arrayvec::ArrayVec;

/// The parameter of a device's queued messages (E1.20, QUEUED_MESSAGE).
pub const QUEUED_MESSAGE: u16 = 0x0020;

/// What a request does with a parameter (E1.20, command class).
#[derive(Clone, Copy, Debug, PartialEq, Eq)]
pub enum ReqClass {
    /// Reads it.
    Get,
    /// Changes it.
    Set,
}

/// A request to a device, or to many (E1.20, GET and SET commands).
#[derive(Debug, PartialEq, Eq, Drop)]
pub struct Request {
    /// The device, or a broadcast UID.
    pub target: Uid,
    /// The sub-device: 0 is the root, `ffff` all of them.
    pub sub_device: u16,
    /// Whether the parameter is read or changed.
    pub class: ReqClass,
    /// The parameter's identifier.
    pub pid: u16,
    /// The parameter data.
    pub param: ArrayVec<u8, MOST_PARAMETER_BYTES>,
}

impl Request {
    /// The same request again. It allocates nothing.
    pub fn copied(&self) -> Request
        ensures { result ≡ self.now }
    {
        Request {
            target: self.target,
            sub_device: self.sub_device,
            class: self.class,
            pid: self.pid,
            param: ArrayVec::try_from(self.param.as_slice()).unwrap(),
        }
    }
}

impl ReqClass {
    // The code of its command class.
    fn code(self) -> u8
        ensures { result ≡ code_of_request_class self }
    {
        match self {
            ReqClass::Get => class::GET_COMMAND,
            ReqClass::Set => class::SET_COMMAND,
        }
    }
}

/// The packet of a request (E1.20, packet format), from the controller `source`, with the transaction number `tn`,
/// port id 1 and message count 0.
pub fn encode_request(request: &Request, source: Uid, tn: u8) -> Frame
    ensures frame { result.items ≡ request_frame request.now source tn }
    ensures packet { Packet (request_fields request.now source tn) result.items }
{
    let header = Header {
        dest: request.target,
        source,
        tn,
        port_or_type: PORT_ID,
        count: NO_MESSAGES,
        sub_device: request.sub_device,
        class: request.class.code(),
        pid: request.pid,
    };
    header.encode(&request.param)
}
