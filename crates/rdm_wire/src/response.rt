//! Responses of devices, and how bytes are read as one.
ghost use Rattle.std.specs.Prelude.{◌≡◌, ◌↔◌, ◌≤◌, ◌+◌, Ok, Err, IfOk, IfErr, length, slice_index};
ghost use Rattle.rdm_wire.specs.Responses.{Reads, decoded, response_of, fields_of};
ghost use Rattle.rdm_wire.specs.Responses.{class_of_code, ack_of_code, code_of_class, code_of_ack};
ghost use Rattle.rdm_wire.specs.Packet.{Packet, packet, fields_at};

use crate::checksum::checksum;
use crate::frame::{
    CHECKSUM_LENGTH, Frame, HEADER_LENGTH, Header, LEAST_FRAME_BYTES, MOST_PARAMETER_BYTES,
    START_CODE, SUB_START_CODE, class, offset, response_type, u16_at,
};
use crate::uid::Uid;
use arrayvec::ArrayVec;
use thiserror::Error;

/// What a response answers (E1.20, command class).
#[derive(Clone, Copy, Debug, PartialEq, Eq)]
pub enum RespClass {
    /// A discovery command.
    Discovery,
    /// A GET.
    Get,
    /// A SET.
    Set,
}

/// How a device responds (E1.20, response type).
#[derive(Clone, Copy, Debug, PartialEq, Eq)]
pub enum AckType {
    /// It did what was asked.
    Ack,
    /// It will have the answer later.
    Timer,
    /// It refuses, for the reason in the data.
    Nack,
    /// It did what was asked, and there is more data to get.
    Overflow,
}

/// Why bytes are no response, in the order in which it is tested.
#[derive(Clone, Copy, Debug, PartialEq, Eq, Error)]
pub enum PacketFault {
    /// There are fewer than 26 bytes.
    #[error("a packet has 26 bytes at least")]
    TooShort,
    /// The first byte isn't the start code `cc`.
    #[error("a packet begins with the start code cc")]
    WrongStart,
    /// The second byte isn't the sub start code `01`.
    #[error("a packet has the sub start code 01")]
    WrongSubStart,
    /// The message length is below 24, or the bytes end before the checksum that it points to does.
    #[error("the message length does not fit the bytes")]
    LengthMismatch,
    /// The length of the parameter data isn't the message length less 24.
    #[error("the parameter data length does not fit the message length")]
    ParamLengthMismatch,
    /// The checksum isn't the sum of the bytes before it.
    #[error("the checksum is wrong")]
    Checksum,
    /// The command class isn't that of a response.
    #[error("the command class is not that of a response")]
    InvalidClass,
    /// There is no such response type.
    #[error("there is no such response type")]
    InvalidResponseType,
}

/// A device's response to a command (E1.20, packet format).
#[derive(Debug, PartialEq, Eq, Drop)]
pub struct Response {
    /// The device.
    pub source: Uid,
    /// The controller that it answers.
    pub dest: Uid,
    /// The transaction number of the command that it answers.
    pub tn: u8,
    /// How it responds.
    pub ack: AckType,
    /// How many messages wait in the device's queue.
    pub count: u8,
    /// The sub-device: 0 is the root.
    pub sub_device: u16,
    /// What it answers.
    pub class: RespClass,
    /// The parameter's identifier.
    pub pid: u16,
    /// The parameter data.
    pub param: ArrayVec<u8, MOST_PARAMETER_BYTES>,
}

impl RespClass {
    // The code of its command class.
    fn code(self) -> u8
        ensures { result ≡ code_of_class self }
    {
        match self {
            RespClass::Discovery => class::DISCOVERY_RESPONSE,
            RespClass::Get => class::GET_RESPONSE,
            RespClass::Set => class::SET_RESPONSE,
        }
    }

    // The class with this code, if it is a response's.
    fn from_code(code: u8) -> Option<RespClass>
        ensures { result ≡ class_of_code code }
    {
        match code {
            class::DISCOVERY_RESPONSE => Some(RespClass::Discovery),
            class::GET_RESPONSE => Some(RespClass::Get),
            class::SET_RESPONSE => Some(RespClass::Set),
            _ => None,
        }
    }
}

impl AckType {
    // The code of its response type.
    fn code(self) -> u8
        ensures { result ≡ code_of_ack self }
    {
        match self {
            AckType::Ack => response_type::ACK,
            AckType::Timer => response_type::ACK_TIMER,
            AckType::Nack => response_type::NACK_REASON,
            AckType::Overflow => response_type::ACK_OVERFLOW,
        }
    }

    // The response type with this code, if there is one.
    fn from_code(code: u8) -> Option<AckType>
        ensures { result ≡ ack_of_code code }
    {
        match code {
            response_type::ACK => Some(AckType::Ack),
            response_type::ACK_TIMER => Some(AckType::Timer),
            response_type::NACK_REASON => Some(AckType::Nack),
            response_type::ACK_OVERFLOW => Some(AckType::Overflow),
            _ => None,
        }
    }
}

/// The response whose packet the bytes begin with (E1.20, packet format). Bytes after the checksum are ignored. An
/// error is the first fault that applies, in the order of [`PacketFault`].
pub fn decode_response(bytes: &[u8]) -> Result<Response, PacketFault>
    ensures value { result ≡ decoded bytes.now }
    ensures reads { (r : Response) → (result ≡ Ok r) ↔ Reads r bytes.now }
{
    let length = message_length(bytes)?;
    let header = Header::read(bytes);
    let Some(class) = RespClass::from_code(header.class) else {
        return Err(PacketFault::InvalidClass);
    };
    let Some(ack) = AckType::from_code(header.port_or_type) else {
        return Err(PacketFault::InvalidResponseType);
    };
    let mut param = ArrayVec::new();
    param
        .try_extend_from_slice(&bytes[HEADER_LENGTH..length])
        .unwrap();
    Ok(Response {
        source: header.source,
        dest: header.dest,
        tn: header.tn,
        ack,
        count: header.count,
        sub_device: header.sub_device,
        class,
        pid: header.pid,
        param,
    })
}

/// The packet of a response, from its device to the controller that it answers (E1.20, packet format).
pub fn encode_response(response: &Response) -> Frame
    ensures frame { result.items ≡ packet (fields_of response.now) }
    ensures packet { Packet (fields_of response.now) result.items }
{
    let header = Header {
        dest: response.dest,
        source: response.source,
        tn: response.tn,
        port_or_type: response.ack.code(),
        count: response.count,
        sub_device: response.sub_device,
        class: response.class.code(),
        pid: response.pid,
    };
    header.encode(&response.param)
}

// The message length of the packet that the bytes begin with, whatever its class and its response type.
fn message_length(bytes: &[u8]) -> Result<usize, PacketFault>
    ensures fault { IfErr result (λ fault. decoded bytes.now ≡ Err fault) }
    ensures packet { IfOk result (λ n. decoded bytes.now
        ≡ response_of bytes.now (class_of_code (fields_at bytes.now).class)
        (ack_of_code (fields_at bytes.now).port_or_type)) }
    ensures length { IfOk result (λ n. n ≡ 24 + slice_index bytes.now 23) }
    ensures fits { IfOk result (λ n. n ≤ 255) }
    ensures within { IfOk result (λ n. n + 2 ≤ length bytes.now) }
{
    if bytes.len() < LEAST_FRAME_BYTES {
        return Err(PacketFault::TooShort);
    }
    if bytes[0] != START_CODE {
        return Err(PacketFault::WrongStart);
    }
    if bytes[1] != SUB_START_CODE {
        return Err(PacketFault::WrongSubStart);
    }
    let length = usize::from(bytes[offset::MESSAGE_LENGTH]);
    let within = HEADER_LENGTH <= length && length + CHECKSUM_LENGTH <= bytes.len();
    if !within {
        return Err(PacketFault::LengthMismatch);
    }
    let pdl = usize::from(bytes[offset::PDL]);
    if HEADER_LENGTH + pdl != length {
        return Err(PacketFault::ParamLengthMismatch);
    }
    let sum = checksum(&bytes[..length]);
    if u16_at(bytes, length) != sum {
        return Err(PacketFault::Checksum);
    }
    Ok(length)
}
