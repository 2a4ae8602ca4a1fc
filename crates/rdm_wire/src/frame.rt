//! The bytes of a packet: the table of its fields, read and written.
ghost use Rattle.std.specs.Prelude.{◌≡◌, ◌≤◌, ◌+◌, ℕ, List, length};
ghost use Rattle.rdm_wire.specs.Bytes.{number_at};
ghost use Rattle.rdm_wire.specs.Packet.{Packet, FieldsFit, fields_at, header_of};
ghost use Rattle.rdm_wire.specs.body.Header.{header_fields};

use crate::checksum::checksum;
use crate::uid::Uid;
use arrayvec::ArrayVec;

/// The most bytes of parameter data in a packet (E1.20, parameter data length).
pub const MOST_PARAMETER_BYTES: usize = 231;

/// How many bytes precede the parameter data (E1.20, packet format).
pub(crate) const HEADER_LENGTH: usize = 24;

/// How many bytes the checksum has.
pub(crate) const CHECKSUM_LENGTH: usize = 2;

/// How many bytes a packet has that carries no parameter data.
pub(crate) const LEAST_FRAME_BYTES: usize = HEADER_LENGTH + CHECKSUM_LENGTH;

/// How many bytes the longest packet has, from the start code to the checksum: 257.
pub const MOST_FRAME_BYTES: usize = HEADER_LENGTH + MOST_PARAMETER_BYTES + CHECKSUM_LENGTH;

/// A packet's bytes, from the start code to the checksum (E1.20, packet format): [`MOST_FRAME_BYTES`] at most.
pub type Frame = ArrayVec<u8, MOST_FRAME_BYTES>;

/// The same frame again. It allocates nothing.
pub fn copy_of_frame(frame: &Frame) -> Frame
    ensures { result ≡ frame.now }
{
    ArrayVec::try_from(frame.as_slice()).unwrap()
}

/// The first byte of a packet (E1.20, start code).
pub(crate) const START_CODE: u8 = 0xcc;

/// The second byte of a packet (E1.20, sub start code).
pub(crate) const SUB_START_CODE: u8 = 0x01;

/// The port id of this controller's commands (E1.20, port ID): this project's is 1.
pub(crate) const PORT_ID: u8 = 1;

/// The message count of a command (E1.20, message count).
pub(crate) const NO_MESSAGES: u8 = 0;

/// Where the fields are (E1.20, packet format). Those of several bytes have the high byte first.
pub(crate) mod offset {
    /// The message length, from the start code to the end of the parameter data: 1 byte.
    pub(crate) const MESSAGE_LENGTH: usize = 2;
    /// The destination's UID: 6 bytes.
    pub(crate) const DESTINATION: usize = 3;
    /// The source's UID: 6 bytes.
    pub(crate) const SOURCE: usize = 9;
    /// The transaction number: 1 byte.
    pub(crate) const TRANSACTION_NUMBER: usize = 15;
    /// The port id of a command, the response type of a response: 1 byte.
    pub(crate) const PORT_OR_TYPE: usize = 16;
    /// The message count: 1 byte.
    pub(crate) const MESSAGE_COUNT: usize = 17;
    /// The sub-device: 2 bytes.
    pub(crate) const SUB_DEVICE: usize = 18;
    /// The command class: 1 byte.
    pub(crate) const COMMAND_CLASS: usize = 20;
    /// The parameter's identifier: 2 bytes.
    pub(crate) const PID: usize = 21;
    /// The parameter data's length: 1 byte, which the data follow.
    pub(crate) const PDL: usize = 23;
}

/// The codes of the command classes (E1.20, command class).
pub(crate) mod class {
    /// A discovery command.
    pub(crate) const DISCOVERY_COMMAND: u8 = 0x10;
    /// What answers a discovery command.
    pub(crate) const DISCOVERY_RESPONSE: u8 = 0x11;
    /// A GET.
    pub(crate) const GET_COMMAND: u8 = 0x20;
    /// What answers a GET.
    pub(crate) const GET_RESPONSE: u8 = 0x21;
    /// A SET.
    pub(crate) const SET_COMMAND: u8 = 0x30;
    /// What answers a SET.
    pub(crate) const SET_RESPONSE: u8 = 0x31;
}

/// The codes of the response types (E1.20, response type).
pub(crate) mod response_type {
    /// ACK: it is done.
    pub(crate) const ACK: u8 = 0x00;
    /// ACK_TIMER: the answer comes later.
    pub(crate) const ACK_TIMER: u8 = 0x01;
    /// NACK_REASON: it is refused.
    pub(crate) const NACK_REASON: u8 = 0x02;
    /// ACK_OVERFLOW: it is done, and there is more data to get.
    pub(crate) const ACK_OVERFLOW: u8 = 0x03;
}

/// The fields of a packet before its parameter data.
#[derive(Clone, Copy)]
pub(crate) struct Header {
    /// The destination.
    pub(crate) dest: Uid,
    /// The source.
    pub(crate) source: Uid,
    /// The transaction number.
    pub(crate) tn: u8,
    /// The port id of a command, the response type of a response.
    pub(crate) port_or_type: u8,
    /// The message count.
    pub(crate) count: u8,
    /// The sub-device.
    pub(crate) sub_device: u16,
    /// The command class's code.
    pub(crate) class: u8,
    /// The parameter's identifier.
    pub(crate) pid: u16,
}

impl Header {
    /// The fields at their offsets.
    pub(crate) fn read(bytes: &[u8]) -> Header
        requires { 24 ≤ length bytes.now }
        ensures { header_fields result (fields_at bytes.now).param ≡ fields_at bytes.now }
    {
        Header {
            dest: uid_at(bytes, offset::DESTINATION),
            source: uid_at(bytes, offset::SOURCE),
            tn: bytes[offset::TRANSACTION_NUMBER],
            port_or_type: bytes[offset::PORT_OR_TYPE],
            count: bytes[offset::MESSAGE_COUNT],
            sub_device: u16_at(bytes, offset::SUB_DEVICE),
            class: bytes[offset::COMMAND_CLASS],
            pid: u16_at(bytes, offset::PID),
        }
    }

    /// The packet with this header and these data.
    pub(crate) fn encode(self, param: &[u8]) -> Frame
        requires { length param.now ≤ MOST_PARAMETER_BYTES }
        ensures { Packet (header_fields self param.now) result.items }
    {
        let mut frame = Frame::new();
        frame
            .try_extend_from_slice(&self.to_bytes(param.len() as u8))
            .unwrap();
        frame.try_extend_from_slice(param).unwrap();
        let sum = checksum(&frame);
        frame.try_extend_from_slice(&sum.to_be_bytes()).unwrap();
        frame
    }

    // The bytes before this many bytes of parameter data.
    fn to_bytes(self, pdl: u8) -> [u8; HEADER_LENGTH]
        requires { pdl ≤ MOST_PARAMETER_BYTES }
        ensures bytes { (param : List ℕ) → length param ≡ pdl → result ≡ header_of (header_fields self param) }
        ensures in_range { (param : List ℕ) → length param ≡ pdl → FieldsFit (header_fields self param) }
    {
        let [d0, d1, d2, d3, d4, d5] = self.dest.to_bytes();
        let [s0, s1, s2, s3, s4, s5] = self.source.to_bytes();
        let [sub_high, sub_low] = self.sub_device.to_be_bytes();
        let [pid_high, pid_low] = self.pid.to_be_bytes();
        [
            START_CODE,
            SUB_START_CODE,
            HEADER_LENGTH as u8 + pdl,
            d0,
            d1,
            d2,
            d3,
            d4,
            d5,
            s0,
            s1,
            s2,
            s3,
            s4,
            s5,
            self.tn,
            self.port_or_type,
            self.count,
            sub_high,
            sub_low,
            self.class,
            pid_high,
            pid_low,
            pdl,
        ]
    }
}

/// The 16-bit number at an offset, its high byte first.
pub(crate) fn u16_at(bytes: &[u8], at: usize) -> u16
    requires { at + 2 ≤ length bytes.now }
    ensures { result ≡ number_at at 2 bytes.now }
{
    u16::from_be_bytes([bytes[at], bytes[at + 1]])
}

/// The UID at an offset.
pub(crate) fn uid_at(bytes: &[u8], at: usize) -> Uid
    requires { at + 6 ≤ length bytes.now }
    ensures { result ≡ number_at at 6 bytes.now }
{
    Uid::from_bytes([
        bytes[at],
        bytes[at + 1],
        bytes[at + 2],
        bytes[at + 3],
        bytes[at + 4],
        bytes[at + 5],
    ])
}
