//! Commands of a controller, and how bytes are read as one.
ghost use Rattle.std.specs.Prelude.{◌≡◌, ◌≤◌, ◌↔◌, ℕ, Some, None, IfNone, IfSome, length, slice_index, ◌+◌};
ghost use Rattle.hex.specs.Hex.{IsBytes};
ghost use Rattle.rdm_wire.specs.body.Header.{header_fields};
ghost use Rattle.rdm_wire.specs.Packet.{Packet};
ghost use Rattle.rdm_wire.specs.Commands.{Writes, IsInOrder, command_read, command_in, discovery_in, branch_in};
ghost use Rattle.rdm_wire.specs.Commands.{request_in, command_fields};

use crate::discovery::{
    DISC_MUTE, DISC_UN_MUTE, DISC_UNIQUE_BRANCH, encode_branch, encode_mute, encode_unmute,
};
use crate::frame::{
    Frame, HEADER_LENGTH, Header, LEAST_FRAME_BYTES, MOST_FRAME_BYTES, MOST_PARAMETER_BYTES, class,
    offset, uid_at,
};
use crate::request::{ReqClass, Request, encode_request};
use crate::uid::Uid;
use crate::uid_range::UidRange;
use arrayvec::ArrayVec;

// How many bytes of data a branch has: its two bounds.
const BOUNDS_LENGTH: usize = 12;

/// What a controller asks, one for each of the encoders (E1.20, discovery, GET and SET commands).
#[derive(Debug, PartialEq, Eq, Drop)]
pub enum Command {
    /// All devices are to be unmuted: `encode_unmute`.
    Unmute,
    /// Each unmuted device of this range is to reply with its UID: `encode_branch`.
    Branch(UidRange),
    /// This device is to be muted: `encode_mute`.
    Mute(Uid),
    /// A parameter is to be read or changed: `encode_request`.
    Request(Request),
}

/// The command whose frame the bytes are, with the controller that sent it and its transaction number. `None` if
/// none of the four encoders writes exactly these bytes. So a frame with a wrong checksum, a branch whose bounds are
/// crossed and a mute of a broadcast UID are no commands.
pub fn read_command(bytes: &[u8]) -> Option<(Command, Uid, u8)>
    ensures value { result ≡ command_read bytes.now }
    ensures written { (command : Command) (source tn : ℕ) →
        (result ≡ Some (command, source, tn)) ↔ Writes command source tn bytes.now }
{
    let length = data_length(bytes)?;
    let header = Header::read(bytes);
    let (source, tn) = (header.source, header.tn);
    let command = command_of(header, &bytes[HEADER_LENGTH..HEADER_LENGTH + length])?;
    let frame = encode_command(&command, source, tn);
    if frame.as_slice() == bytes {
        Some((command, source, tn))
    } else {
        None
    }
}

// The length of the parameter data, if the packet has exactly that many.
fn data_length(bytes: &[u8]) -> Option<usize>
    ensures none { IfNone result (command_read bytes.now ≡ None) }
    ensures length { IfSome result (λ n. (n ≡ slice_index bytes.now 23) × (length bytes.now ≡ 26 + n)) }
    ensures few { IfSome result (λ n. n ≤ MOST_PARAMETER_BYTES) }
    ensures bytes { IsBytes bytes.now }
{
    if bytes.len() < LEAST_FRAME_BYTES || bytes.len() > MOST_FRAME_BYTES {
        return None;
    }
    let length = usize::from(bytes[offset::PDL]);
    if LEAST_FRAME_BYTES + length == bytes.len() {
        Some(length)
    } else {
        None
    }
}

// The command that a header and its data encode.
fn command_of(header: Header, param: &[u8]) -> Option<Command>
    requires { length param.now ≤ MOST_PARAMETER_BYTES }
    ensures value { result ≡ command_in (header_fields header param.now) }
    ensures in_order { IfSome result (λ command. IsInOrder command) }
{
    match header.class {
        class::DISCOVERY_COMMAND => discovery_of(header, param),
        class::GET_COMMAND => Some(Command::Request(request_of(header, ReqClass::Get, param))),
        class::SET_COMMAND => Some(Command::Request(request_of(header, ReqClass::Set, param))),
        _ => None,
    }
}

fn discovery_of(header: Header, param: &[u8]) -> Option<Command>
    ensures value { result ≡ discovery_in (header_fields header param.now) }
    ensures in_order { IfSome result (λ command. IsInOrder command) }
{
    match header.pid {
        DISC_UN_MUTE => Some(Command::Unmute),
        DISC_MUTE if header.dest.is_broadcast() => None,
        DISC_MUTE => Some(Command::Mute(header.dest)),
        DISC_UNIQUE_BRANCH => branch_of(param),
        _ => None,
    }
}

// The branch of the range whose bounds the data are.
fn branch_of(param: &[u8]) -> Option<Command>
    ensures value { result ≡ branch_in param.now }
    ensures in_order { IfSome result (λ command. IsInOrder command) }
{
    if param.len() != BOUNDS_LENGTH {
        return None;
    }
    let range = UidRange::new(uid_at(param, 0), uid_at(param, BOUNDS_LENGTH / 2))?;
    Some(Command::Branch(range))
}

fn request_of(header: Header, class: ReqClass, bytes: &[u8]) -> Request
    requires { length bytes.now ≤ MOST_PARAMETER_BYTES }
    ensures { result ≡ request_in (header_fields header bytes.now) class }
{
    let mut param = ArrayVec::new();
    param.try_extend_from_slice(bytes).unwrap();
    Request {
        target: header.dest,
        sub_device: header.sub_device,
        class,
        pid: header.pid,
        param,
    }
}

// The frame of a command.
fn encode_command(command: &Command, source: Uid, tn: u8) -> Frame
    requires { IsInOrder command.now }
    ensures { Packet (command_fields command.now source tn) result.items }
{
    match command {
        Command::Unmute => encode_unmute(source, tn),
        Command::Branch(range) => encode_branch(*range, source, tn),
        Command::Mute(uid) => encode_mute(*uid, source, tn),
        Command::Request(request) => encode_request(request, source, tn),
    }
}
