//! Packets for C: the meaning of its structs, and how they are written.
ghost use Rattle.std.specs.Prelude.{◌≡◌, ◌≢◌, length, take, IfOk, IfErr, Some, None};
ghost use Rattle.rdm_handles.specs.Packets.{number_status, frame_status, response_status, response_of, ack_of};
ghost use Rattle.rdm_handles.specs.Packets.{reply_class_of, form_of_response, form_of_ack, form_of_command, device_of};
ghost use Rattle.rdm_handles.specs.Packets.{device_status, data_of_command, packet_status, uid_fault_status};
ghost use Rattle.rdm_handles.specs.Packets.{binding_of, data_status, number_of_request};

use crate::convert::{number_of_ack, number_of_class, number_or_0, own_uid, put_bytes};
use crate::forms::{CommandForC, DeviceForC, MuteAckForC, ResponseForC};
use crate::status::{self, DONE};
use arrayvec::ArrayVec;
use rdm_wire::{
    AckType, Command, Device, Frame, MOST_FRAME_BYTES, MOST_PARAMETER_BYTES, MuteAck, PacketFault,
    ReqClass, RespClass, Response, Uid, UidFault,
};

/// The UID with this number. It may be broadcast.
/// Err: its status.
pub fn any_uid(number: u64) -> Result<Uid, u32>
    ensures ok { IfOk result (λ u. (u ≡ number) × (number_status number ≡ 0)) }
    ensures err { IfErr result (λ fault. (fault ≡ number_status number) × (fault ≢ 0)) }
{
    match Uid::from_number(number) {
        Some(uid) => Ok(uid),
        None => Err(status::BAD_UID),
    }
}

/// Writes a packet at the front of a buffer of 257 bytes, and how many bytes it has.
pub fn put_frame(frame: &mut [u8], packet: &Frame, len: &mut usize) -> u32
    ensures status { result ≡ frame_status (length frame.old) }
    ensures written { result ≡ DONE → take len.new frame.new ≡ packet.now.items }
    ensures len { result ≡ DONE → len.new ≡ length packet.now.items }
    ensures unchanged { result ≢ DONE → (len.new ≡ len.old) × (frame.new ≡ frame.old) }
{
    if frame.len() < MOST_FRAME_BYTES {
        return status::BUFFER_TOO_SMALL;
    }
    *len = put_bytes(frame, packet);
    DONE
}

/// The status of bytes that are no response.
pub fn status_of_packet(fault: PacketFault) -> u32
    ensures { result ≡ packet_status fault }
{
    match fault {
        PacketFault::TooShort => status::TOO_SHORT,
        PacketFault::WrongStart => status::WRONG_START,
        PacketFault::WrongSubStart => status::WRONG_SUB_START,
        PacketFault::LengthMismatch => status::LENGTH_MISMATCH,
        PacketFault::ParamLengthMismatch => status::PARAM_LENGTH_MISMATCH,
        PacketFault::Checksum => status::WRONG_CHECKSUM,
        PacketFault::InvalidClass => status::INVALID_CLASS,
        PacketFault::InvalidResponseType => status::INVALID_RESPONSE_TYPE,
    }
}

/// The status of a text that is no UID.
pub fn status_of_text(fault: UidFault) -> u32
    ensures { result ≡ uid_fault_status fault }
{
    match fault {
        UidFault::Length => status::UID_LENGTH,
        UidFault::Separator => status::UID_SEPARATOR,
        UidFault::Digit => status::UID_DIGIT,
    }
}

/// A response without its parameter data.
pub fn response_for_c(response: &Response) -> ResponseForC
    ensures { result ≡ form_of_response response.now }
{
    ResponseForC {
        source: response.source.number(),
        dest: response.dest.number(),
        len: response.param.len(),
        ack: number_of_ack(response.ack),
        response_class: number_of_class(response.class),
        sub_device: response.sub_device,
        pid: response.pid,
        tn: response.tn,
        count: response.count,
    }
}

/// The response with these data.
/// Err: the status of its first fault.
pub fn response_of(response: &ResponseForC, param_bytes: &[u8]) -> Result<Response, u32>
    ensures ok { IfOk result (λ r. (r ≡ response_of response.now param_bytes.now)
        × (response_status response.now param_bytes.now ≡ 0)) }
    ensures err { IfErr result (λ fault. (fault ≡ response_status response.now param_bytes.now) × (fault ≢ 0)) }
{
    let source = any_uid(response.source)?;
    let dest = any_uid(response.dest)?;
    if response.ack > 3 {
        return Err(status::BAD_RESPONSE_TYPE);
    }
    if response.response_class > 2 {
        return Err(status::BAD_CLASS);
    }
    if param_bytes.len() > MOST_PARAMETER_BYTES {
        return Err(status::DATA_TOO_LONG);
    }
    let mut param = ArrayVec::new();
    param.try_extend_from_slice(param_bytes).unwrap();
    Ok(Response {
        source,
        dest,
        tn: response.tn,
        ack: ack_of(response.ack),
        count: response.count,
        sub_device: response.sub_device,
        class: reply_class_of(response.response_class),
        pid: response.pid,
        param,
    })
}

// The response type with this number.
fn ack_of(number: u32) -> AckType
    ensures { result ≡ ack_of number }
{
    match number {
        0 => AckType::Ack,
        1 => AckType::Timer,
        2 => AckType::Nack,
        _ => AckType::Overflow,
    }
}

// The response class with this number.
fn reply_class_of(number: u32) -> RespClass
    ensures { result ≡ reply_class_of number }
{
    match number {
        0 => RespClass::Discovery,
        1 => RespClass::Get,
        _ => RespClass::Set,
    }
}

/// The acknowledgement of a mute.
pub fn ack_for_c(ack: MuteAck) -> MuteAckForC
    ensures { result ≡ form_of_ack ack }
{
    MuteAckForC {
        binding: number_or_0(ack.binding),
        control: ack.control,
        has_binding: ack.binding.is_some(),
    }
}

/// The device with these numbers.
/// Err: the status of its first fault.
pub fn device_of(device: &DeviceForC) -> Result<Device, u32>
    ensures ok { IfOk result (λ d. (d ≡ device_of device.now) × (device_status device.now ≡ 0)) }
    ensures err { IfErr result (λ fault. (fault ≡ device_status device.now) × (fault ≢ 0)) }
{
    let uid = own_uid(device.uid)?;
    let binding = any_uid(device.binding)?;
    Ok(Device {
        uid,
        control: device.control,
        binding: binding_of(device.has_binding, binding),
    })
}

// The binding UID, if there is one.
fn binding_of(is_there: bool, uid: Uid) -> Option<Uid>
    ensures { result ≡ binding_of is_there uid }
{
    if is_there { Some(uid) } else { None }
}

/// A command without a request's parameter data.
pub fn command_for_c(command: &Command, source: Uid, tn: u8) -> CommandForC
    ensures { result ≡ form_of_command command.now source tn }
{
    let mut form = CommandForC {
        source: source.number(),
        target: 0,
        lo: 0,
        hi: 0,
        len: 0,
        kind: 0,
        command_class: 0,
        sub_device: 0,
        pid: 0,
        tn,
    };
    match command {
        Command::Unmute => {}
        Command::Branch(range) => {
            form.kind = 1;
            form.lo = range.lo.number();
            form.hi = range.hi.number();
        }
        Command::Mute(uid) => {
            form.kind = 2;
            form.target = uid.number();
        }
        Command::Request(request) => {
            form.kind = 3;
            form.target = request.target.number();
            form.len = request.param.len();
            form.command_class = number_of_request(request.class);
            form.sub_device = request.sub_device;
            form.pid = request.pid;
        }
    }
    form
}

/// The number of a request's class: 0 GET, 1 SET.
pub(crate) fn number_of_request(class: ReqClass) -> u32
    ensures { result ≡ number_of_request class }
{
    match class {
        ReqClass::Get => 0,
        ReqClass::Set => 1,
    }
}

/// Writes a request's parameter data at the front of a buffer of 231 bytes. Other commands have none.
pub fn put_data(buffer: &mut [u8], command: &Command) -> u32
    ensures status { result ≡ data_status (length buffer.old) }
    ensures written { result ≡ DONE →
        take (length (data_of_command command.now)) buffer.new ≡ data_of_command command.now }
    ensures unchanged { result ≢ DONE → buffer.new ≡ buffer.old }
{
    if buffer.len() < MOST_PARAMETER_BYTES {
        return status::BUFFER_TOO_SMALL;
    }
    if let Command::Request(request) = command {
        put_bytes(buffer, &request.param);
    }
    DONE
}
