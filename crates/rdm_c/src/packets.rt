//! C's calls that read and write UIDs and packets.
ghost use Rattle.std.specs.Prelude.{◌≡◌, ◌≢◌, ◌≤◌, ◌↔◌, ℕ, [], length, take, Some, Ok, IfOk, IfErr, nat_lt};
ghost use Rattle.std.specs.Prelude.{if◌then◌else◌, ◌⊎◌, slice_index};
ghost use Rattle.std.specs.Str.{IsUtf8};
ghost use Rattle.rdm_wire.specs.BranchText.{BranchText, branch_text};
ghost use Rattle.rdm_wire.specs.CommandFrames.{request_frame, unmute_frame, mute_frame, branch_frame};
ghost use Rattle.rdm_wire.specs.Commands.{command_read};
ghost use Rattle.rdm_wire.specs.MuteResponses.{mute_response};
ghost use Rattle.rdm_wire.specs.Packet.{packet};
ghost use Rattle.rdm_wire.specs.Reading.{ack_read};
ghost use Rattle.rdm_wire.specs.Responses.{decoded, fields_of};
ghost use Rattle.rdm_wire.specs.UidText.{UidText, uid_text, colon};
ghost use Rattle.rdm_wire.specs.declared.command.Command.{Command};
ghost use Rattle.rdm_wire.specs.declared.mute_ack.MuteAck.{MuteAck};
ghost use Rattle.rdm_wire.specs.declared.response.Response.{Response};
ghost use Rattle.rdm_handles.specs.Forms.{uid_status, request_status, request_of};
ghost use Rattle.rdm_handles.specs.Packets.{first_of, number_status, frame_status, range_status, read_status};
ghost use Rattle.rdm_handles.specs.Packets.{found_status};
ghost use Rattle.rdm_handles.specs.Packets.{response_status, response_of, device_status, device_of, data_status};
ghost use Rattle.rdm_handles.specs.Packets.{form_of_response, form_of_ack, form_of_command, data_of_command};

use arrayvec::ArrayVec;
use rdm_handles::convert::{own_uid, put_bytes, request_of};
use rdm_handles::packets::{
    ack_for_c, any_uid, command_for_c, device_of, put_data, put_frame, response_for_c, response_of,
    status_of_packet, status_of_text,
};
use rdm_handles::status::{
    BAD_PREAMBLE, BAD_RANGE, BUFFER_TOO_SMALL, DONE, NOT_TEXT, NOTHING, UID_DIGIT, UID_LENGTH,
    UID_SEPARATOR,
};
use rdm_handles::{CommandForC, DeviceForC, MuteAckForC, RequestForC, ResponseForC};
use rdm_wire::{
    BranchReply, LONGEST_BRANCH_REPLY, LONGEST_PREAMBLE, MOST_PARAMETER_BYTES, Uid, UidRange,
    decode_response, encode_branch, encode_mute, encode_request, encode_response, encode_unmute,
    mute_response, read_branch_reply, read_command, reads_mute_ack, write_branch_reply,
};

/// Reads a UID's text, as `7a70:00000001`.
#[unsafe(no_mangle)]
pub extern "C" fn wurst_uid_read(text: &[u8], uid: &mut u64) -> u32
    ensures read { result ≡ DONE → UidText text.now uid.new }
    ensures all { (u : ℕ) → IsUtf8 text.now → UidText text.now u → (result ≡ DONE) × (uid.new ≡ u) }
    ensures length { IsUtf8 text.now → (result ≡ UID_LENGTH) ↔ (length text.now ≢ 13) }
    ensures separator { IsUtf8 text.now →
        (result ≡ UID_SEPARATOR) ↔ ((length text.now ≡ 13) × (slice_index text.now 4 ≢ colon)) }
    ensures text { IsUtf8 text.now → result ≢ NOT_TEXT }
    ensures not_text { (IsUtf8 text.now → ⊥) → result ≡ NOT_TEXT }
    // Any other fault is that of the digits.
    ensures statuses { (result ≡ DONE) ⊎ ((result ≡ NOT_TEXT) ⊎ ((result ≡ UID_LENGTH)
        ⊎ ((result ≡ UID_SEPARATOR) ⊎ (result ≡ UID_DIGIT)))) }
    ensures unchanged { result ≢ DONE → uid.new ≡ uid.old }
{
    let Ok(text) = str::from_utf8(text) else {
        return NOT_TEXT;
    };
    match Uid::parse(text) {
        Ok(read) => {
            *uid = read.number();
            DONE
        }
        Err(fault) => status_of_text(fault),
    }
}

/// Writes a UID's text, 13 bytes, in lower case.
#[unsafe(no_mangle)]
pub extern "C" fn wurst_uid_write(uid: u64, text: &mut [u8]) -> u32
    ensures status { result ≡ first_of (number_status uid)
        (if nat_lt (length text.old) 13 then BUFFER_TOO_SMALL else DONE) }
    ensures text { result ≡ DONE → take 13 text.new ≡ uid_text uid }
    ensures unchanged { result ≢ DONE → text.new ≡ text.old }
{
    let uid = match any_uid(uid) {
        Ok(uid) => uid,
        Err(fault) => return fault,
    };
    if text.len() < 13 {
        return BUFFER_TOO_SMALL;
    }
    put_bytes(text, &uid.to_text());
    DONE
}

/// Reads the bytes after a branch: 0 for silence, 1 for a device's reply with its UID, 2 for a collision.
#[unsafe(no_mangle)]
pub extern "C" fn wurst_branch_reply_read(bytes: &[u8], kind: &mut u32, uid: &mut u64) -> u32
    ensures done { result ≡ DONE }
    ensures silent { (kind.new ≡ 0) ↔ (bytes.now ≡ []) }
    ensures one { kind.new ≡ 1 → BranchText bytes.now uid.new }
    ensures each { (u : ℕ) → BranchText bytes.now u → (kind.new ≡ 1) × (uid.new ≡ u) }
    ensures kinds { kind.new ≤ 2 }
    ensures unchanged { kind.new ≢ 1 → uid.new ≡ uid.old }
{
    match read_branch_reply(bytes) {
        BranchReply::Silent => *kind = 0,
        BranchReply::One(one) => {
            *kind = 1;
            *uid = one.number();
        }
        BranchReply::Collision => *kind = 2,
    }
    DONE
}

/// Writes a device's reply to a branch, after this many preamble bytes.
#[unsafe(no_mangle)]
pub extern "C" fn wurst_branch_reply_write(
    uid: u64,
    preamble: u8,
    bytes: &mut [u8],
    len: &mut usize,
) -> u32
    ensures status { result ≡ first_of (number_status uid)
        (first_of (if nat_lt 7 preamble then BAD_PREAMBLE else DONE)
        (if nat_lt (length bytes.old) 24 then BUFFER_TOO_SMALL else DONE)) }
    ensures written { result ≡ DONE → take len.new bytes.new ≡ branch_text uid preamble }
    ensures len { result ≡ DONE → len.new ≡ length (branch_text uid preamble) }
    ensures unchanged { result ≢ DONE → (len.new ≡ len.old) × (bytes.new ≡ bytes.old) }
{
    let uid = match any_uid(uid) {
        Ok(uid) => uid,
        Err(fault) => return fault,
    };
    if preamble > LONGEST_PREAMBLE {
        return BAD_PREAMBLE;
    }
    if bytes.len() < LONGEST_BRANCH_REPLY {
        return BUFFER_TOO_SMALL;
    }
    *len = put_reply(bytes, &write_branch_reply(uid, preamble));
    DONE
}

// Writes a reply at the front of a buffer. Returns how many bytes it has.
fn put_reply(bytes: &mut [u8], reply: &ArrayVec<u8, LONGEST_BRANCH_REPLY>) -> usize
    requires { 24 ≤ length bytes.old }
    ensures front { take result bytes.new ≡ reply.now.items }
    ensures len { result ≡ length reply.now.items }
{
    put_bytes(bytes, reply)
}

/// Writes a request's packet.
#[unsafe(no_mangle)]
pub extern "C" fn wurst_request_write(
    request: &RequestForC,
    param_bytes: &[u8],
    source: u64,
    tn: u8,
    frame: &mut [u8],
    len: &mut usize,
) -> u32
    ensures status { result ≡ first_of (request_status request.now param_bytes.now)
        (first_of (number_status source) (frame_status (length frame.old))) }
    ensures written { result ≡ DONE →
        take len.new frame.new ≡ request_frame (request_of request.now param_bytes.now) source tn }
    ensures len { result ≡ DONE →
        len.new ≡ length (request_frame (request_of request.now param_bytes.now) source tn) }
    ensures unchanged { result ≢ DONE → (len.new ≡ len.old) × (frame.new ≡ frame.old) }
{
    let request = match request_of(request, param_bytes) {
        Ok(request) => request,
        Err(fault) => return fault,
    };
    let source = match any_uid(source) {
        Ok(source) => source,
        Err(fault) => return fault,
    };
    put_frame(frame, &encode_request(&request, source, tn), len)
}

/// Writes the packet that unmutes all devices.
#[unsafe(no_mangle)]
pub extern "C" fn wurst_unmute_write(source: u64, tn: u8, frame: &mut [u8], len: &mut usize) -> u32
    ensures status { result ≡ first_of (number_status source) (frame_status (length frame.old)) }
    ensures written { result ≡ DONE → take len.new frame.new ≡ unmute_frame source tn }
    ensures unchanged { result ≢ DONE → (len.new ≡ len.old) × (frame.new ≡ frame.old) }
{
    let source = match any_uid(source) {
        Ok(source) => source,
        Err(fault) => return fault,
    };
    put_frame(frame, &encode_unmute(source, tn), len)
}

/// Writes the packet that mutes a device.
#[unsafe(no_mangle)]
pub extern "C" fn wurst_mute_write(
    uid: u64,
    source: u64,
    tn: u8,
    frame: &mut [u8],
    len: &mut usize,
) -> u32
    ensures status { result ≡ first_of (uid_status uid)
        (first_of (number_status source) (frame_status (length frame.old))) }
    ensures written { result ≡ DONE → take len.new frame.new ≡ mute_frame uid source tn }
    ensures unchanged { result ≢ DONE → (len.new ≡ len.old) × (frame.new ≡ frame.old) }
{
    let uid = match own_uid(uid) {
        Ok(uid) => uid,
        Err(fault) => return fault,
    };
    let source = match any_uid(source) {
        Ok(source) => source,
        Err(fault) => return fault,
    };
    put_frame(frame, &encode_mute(uid, source, tn), len)
}

/// Writes the packet that asks each unmuted device of a range for its UID.
#[unsafe(no_mangle)]
pub extern "C" fn wurst_branch_write(
    lo: u64,
    hi: u64,
    source: u64,
    tn: u8,
    frame: &mut [u8],
    len: &mut usize,
) -> u32
    ensures status { result ≡ first_of (number_status lo) (first_of (number_status hi)
        (first_of (range_status lo hi) (first_of (number_status source) (frame_status (length frame.old))))) }
    ensures written { result ≡ DONE → take len.new frame.new ≡ branch_frame lo hi source tn }
    ensures unchanged { result ≢ DONE → (len.new ≡ len.old) × (frame.new ≡ frame.old) }
{
    let range = match range_of(lo, hi) {
        Ok(range) => range,
        Err(fault) => return fault,
    };
    let source = match any_uid(source) {
        Ok(source) => source,
        Err(fault) => return fault,
    };
    put_frame(frame, &encode_branch(range, source, tn), len)
}

// The range with these bounds, or the status of its first fault.
fn range_of(lo: u64, hi: u64) -> Result<UidRange, u32>
    ensures ok { IfOk result (λ r. (r.lo ≡ lo) × (r.hi ≡ hi)
        × (first_of (number_status lo) (first_of (number_status hi) (range_status lo hi)) ≡ 0)) }
    ensures err { IfErr result (λ fault. (fault ≢ 0)
        × (fault ≡ first_of (number_status lo) (first_of (number_status hi) (range_status lo hi)))) }
{
    let lo = any_uid(lo)?;
    let hi = any_uid(hi)?;
    match UidRange::new(lo, hi) {
        Some(range) => Ok(range),
        None => Err(BAD_RANGE),
    }
}

/// Reads the response that the bytes begin with.
#[unsafe(no_mangle)]
pub extern "C" fn wurst_response_read(
    bytes: &[u8],
    response: &mut ResponseForC,
    buffer: &mut [u8],
) -> u32
    ensures status { result ≡ read_status (decoded bytes.now) (length buffer.old) }
    ensures written { (r : Response) → decoded bytes.now ≡ Ok r → result ≡ DONE →
        (response.new ≡ form_of_response r) × (take response.new.len buffer.new ≡ r.param.items) }
    ensures unchanged { result ≢ DONE → (response.new ≡ response.old) × (buffer.new ≡ buffer.old) }
{
    let read = match decode_response(bytes) {
        Ok(read) => read,
        Err(fault) => return status_of_packet(fault),
    };
    if buffer.len() < MOST_PARAMETER_BYTES {
        return BUFFER_TOO_SMALL;
    }
    *response = response_for_c(&read);
    put_bytes(buffer, &read.param);
    DONE
}

/// Writes a response's packet.
#[unsafe(no_mangle)]
pub extern "C" fn wurst_response_write(
    response: &ResponseForC,
    param_bytes: &[u8],
    frame: &mut [u8],
    len: &mut usize,
) -> u32
    ensures status { result ≡ first_of (response_status response.now param_bytes.now)
        (frame_status (length frame.old)) }
    ensures written { result ≡ DONE →
        take len.new frame.new ≡ packet (fields_of (response_of response.now param_bytes.now)) }
    ensures len { result ≡ DONE →
        len.new ≡ length (packet (fields_of (response_of response.now param_bytes.now))) }
    ensures unchanged { result ≢ DONE → (len.new ≡ len.old) × (frame.new ≡ frame.old) }
{
    match response_of(response, param_bytes) {
        Ok(response) => put_frame(frame, &encode_response(&response), len),
        Err(fault) => fault,
    }
}

/// Reads the acknowledgement of a mute.
#[unsafe(no_mangle)]
pub extern "C" fn wurst_mute_ack_read(
    uid: u64,
    source: u64,
    tn: u8,
    bytes: &[u8],
    ack: &mut MuteAckForC,
) -> u32
    ensures status { result ≡ first_of (number_status uid)
        (first_of (number_status source) (found_status (ack_read uid source tn bytes.now))) }
    ensures written { (a : MuteAck) → ack_read uid source tn bytes.now ≡ Some a → result ≡ DONE →
        ack.new ≡ form_of_ack a }
    ensures unchanged { result ≢ DONE → ack.new ≡ ack.old }
{
    let uid = match any_uid(uid) {
        Ok(uid) => uid,
        Err(fault) => return fault,
    };
    let source = match any_uid(source) {
        Ok(source) => source,
        Err(fault) => return fault,
    };
    match reads_mute_ack(uid, source, tn, bytes) {
        Some(read) => {
            *ack = ack_for_c(read);
            DONE
        }
        None => NOTHING,
    }
}

/// Writes the acknowledgement of a mute.
#[unsafe(no_mangle)]
pub extern "C" fn wurst_mute_ack_write(
    device: &DeviceForC,
    source: u64,
    tn: u8,
    frame: &mut [u8],
    len: &mut usize,
) -> u32
    ensures status { result ≡ first_of (device_status device.now)
        (first_of (number_status source) (frame_status (length frame.old))) }
    ensures written { result ≡ DONE →
        take len.new frame.new ≡ packet (fields_of (mute_response (device_of device.now) source tn)) }
    ensures unchanged { result ≢ DONE → (len.new ≡ len.old) × (frame.new ≡ frame.old) }
{
    let device = match device_of(device) {
        Ok(device) => device,
        Err(fault) => return fault,
    };
    let source = match any_uid(source) {
        Ok(source) => source,
        Err(fault) => return fault,
    };
    put_frame(
        frame,
        &encode_response(&mute_response(&device, source, tn)),
        len,
    )
}

/// Reads a controller's command.
#[unsafe(no_mangle)]
pub extern "C" fn wurst_command_read(
    bytes: &[u8],
    command: &mut CommandForC,
    buffer: &mut [u8],
) -> u32
    ensures status { result ≡ first_of (found_status (command_read bytes.now)) (data_status (length buffer.old)) }
    ensures written { (c : Command) (source tn : ℕ) → command_read bytes.now ≡ Some (c, source, tn) → result ≡ DONE →
        (command.new ≡ form_of_command c source tn) × (take command.new.len buffer.new ≡ data_of_command c) }
    ensures unchanged { result ≢ DONE → (command.new ≡ command.old) × (buffer.new ≡ buffer.old) }
{
    let Some((read, source, tn)) = read_command(bytes) else {
        return NOTHING;
    };
    let status = put_data(buffer, &read);
    if status == DONE {
        *command = command_for_c(&read, source, tn);
    }
    status
}
