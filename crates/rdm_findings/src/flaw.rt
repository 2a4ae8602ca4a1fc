//! Why bytes that came after a mute, or a branch of one UID alone, are no right answer.
ghost use Rattle.std.specs.Prelude.{◌≡◌, ◌≤◌, ◌++◌, OnOk, codes, length, ◌==◌};
ghost use Rattle.std.specs.List.{prefix_len};
ghost use Rattle.rdm_wire.specs.Commands.{command_read};
ghost use Rattle.rdm_wire.specs.Responses.{decoded};
ghost use Rattle.rdm_wire.specs.UidText.{uid_text};
ghost use Rattle.rdm_join.specs.Exchange.{seen_event};
ghost use Rattle.rdm_explain.specs.Exchanges.{asked_of, seen_of};
ghost use Rattle.rdm_findings.specs.Flaws.{is_discovery, flaw_of_type, flaw_of_response, flaw_of_decoded, flaw_after};
ghost use Rattle.rdm_findings.specs.Flaws.{flaw_of_broadcast, flaw_read, flaw_of, first_flaw, packet_text, flaw_text};
ghost use Rattle.rdm_findings.specs.Flaws.{is_formless, is_noisy, may_be_noise};
ghost use Rattle.rdm_findings.specs.Flaws.{is_separator, flaw_of_text, flaw_alone, flaw_of_branch, flaw_of_reply};

use crate::writing::{write, write_uid};
use rdm_explain::{Asked, Exchange, Heard, read_exchange};
use rdm_join::LineEvent;
use rdm_wire::{
    AckType, Command, Frame, LONGEST_PREAMBLE, PacketFault, RespClass, Response, Uid,
    decode_response, read_command,
};
use std::alloc::AllocError;

// The parameter of a mute (E1.20, discovery mute).
const DISC_MUTE: u16 = 2;

// The bytes of a discovery reply after its preamble (E1.20, discovery unique branch): a separator, and the UID and its
// checksum as pairs.
const TEXT_LEN: usize = 17;

/// Why bytes don't acknowledge a mute, in the order in which it is tested; or why they don't answer a branch of one UID
/// alone.
#[derive(Clone, Copy, Debug, PartialEq, Eq)]
pub enum Flaw {
    /// They are no response.
    Packet(PacketFault),
    /// They don't begin like the reply to a branch.
    NoText,
    /// They are too short for one.
    Cut,
    /// They are one with a wrong checksum.
    Sum,
    /// They came after a mute of a broadcast UID, which no device may answer.
    Broadcast,
    /// They answer another command.
    Command,
    /// They are from this UID, and not from that of the mute.
    Source(Uid),
    /// They are for another controller than the mute's.
    Controller,
    /// They have another transaction number than the mute.
    Number,
    /// They refuse it.
    Nack,
    /// They are neither ACK nor NACK.
    Type,
    /// They have neither 2 bytes of data nor 8.
    Length,
}

/// The first flaw, with one more exchange.
pub(crate) fn first_flaw(flaw: Option<Flaw>, frame: &Frame, event: &LineEvent) -> Option<Flaw>
    ensures { result ≡ first_flaw flaw frame.now event.now }
{
    match flaw {
        Some(flaw) => Some(flaw),
        None => flaw_of(frame, event),
    }
}

// Why the line's answer to a frame is no right one, if the frame is a mute, or a branch of one UID alone, and bytes
// came.
fn flaw_of(frame: &Frame, event: &LineEvent) -> Option<Flaw>
    ensures { result ≡ flaw_of frame.now event.now }
{
    match event {
        LineEvent::Failed => None,
        LineEvent::Reply(bytes) => flaw_of_reply(frame, event, bytes.as_slice()),
    }
}

fn flaw_of_reply(frame: &Frame, event: &LineEvent, bytes: &[u8]) -> Option<Flaw>
    ensures { result ≡ flaw_of_reply (command_read frame.now.items) (seen_event (frame.now, event.now)) bytes.now }
{
    match flaw_of_branch(&read_exchange(frame, event), bytes) {
        Some(first) => Some(first),
        None => flaw_of_bytes(frame, event, bytes),
    }
}

// Why bytes that came after a branch of one UID alone are the text of no UID.
fn flaw_of_branch(exchange: &Exchange, bytes: &[u8]) -> Option<Flaw>
    ensures { result ≡ flaw_of_branch (seen_of exchange.now).asked (seen_of exchange.now).heard bytes.now }
{
    match exchange.heard {
        Heard::Noise => flaw_alone(exchange.asked, bytes),
        _ => None,
    }
}

// The same of bytes that are the text of no UID.
fn flaw_alone(asked: Asked, bytes: &[u8]) -> Option<Flaw>
    ensures { result ≡ flaw_alone (asked_of asked) bytes.now }
{
    match asked {
        Asked::Branch { lo, hi } => {
            if lo == hi {
                Some(flaw_of_text(preamble_len(bytes), bytes))
            } else {
                None
            }
        }
        _ => None,
    }
}

// How many preamble bytes the bytes begin with.
fn preamble_len(bytes: &[u8]) -> usize
    ensures value { result ≡ prefix_len (λ byte. byte == 0xfe) bytes.now }
    ensures bound { result ≤ length bytes.now }
{
    bytes.iter().take_while(|byte| **byte == 0xfe).count()
}

// Why bytes with so many preamble bytes are the text of no UID.
fn flaw_of_text(preamble: usize, bytes: &[u8]) -> Flaw
    ensures { result ≡ flaw_of_text preamble bytes.now }
{
    if usize::from(LONGEST_PREAMBLE) < preamble || !is_separator(bytes.get(preamble).copied()) {
        Flaw::NoText
    } else if bytes.len() < preamble + TEXT_LEN {
        Flaw::Cut
    } else {
        Flaw::Sum
    }
}

// Whether this byte follows a preamble.
fn is_separator(byte: Option<u8>) -> bool
    ensures { result ≡ is_separator byte }
{
    match byte {
        Some(byte) => byte == 0xaa,
        None => false,
    }
}

fn flaw_of_bytes(frame: &Frame, event: &LineEvent, bytes: &[u8]) -> Option<Flaw>
    ensures { result ≡ flaw_read (command_read frame.now.items) (seen_event (frame.now, event.now)) bytes.now }
{
    match read_command(frame.as_slice()) {
        Some((command, source, tn)) => flaw_after(&command, source, tn, bytes),
        None => flaw_of_broadcast(&read_exchange(frame, event)),
    }
}

// Why bytes don't acknowledge a mute of a broadcast UID, which `read_command` doesn't read.
fn flaw_of_broadcast(exchange: &Exchange) -> Option<Flaw>
    ensures { result ≡ flaw_of_broadcast (seen_of exchange.now).asked (seen_of exchange.now).heard }
{
    match (exchange.asked, exchange.heard) {
        (Asked::Mute(_), Heard::Noise) => Some(Flaw::Broadcast),
        _ => None,
    }
}

fn flaw_after(command: &Command, source: Uid, tn: u8, bytes: &[u8]) -> Option<Flaw>
    ensures { result ≡ flaw_after command.now source tn bytes.now }
{
    match command {
        Command::Mute(uid) => {
            if bytes.is_empty() {
                None
            } else {
                flaw_in(*uid, source, tn, bytes)
            }
        }
        _ => None,
    }
}

fn flaw_in(uid: Uid, source: Uid, tn: u8, bytes: &[u8]) -> Option<Flaw>
    ensures { result ≡ flaw_of_decoded uid source tn (decoded bytes.now) }
{
    match decode_response(bytes) {
        Ok(response) => flaw_of_response(uid, source, tn, &response),
        Err(fault) => Some(Flaw::Packet(fault)),
    }
}

fn flaw_of_response(uid: Uid, source: Uid, tn: u8, response: &Response) -> Option<Flaw>
    ensures { result ≡ flaw_of_response uid source tn response.now }
{
    if !is_discovery(response.class) || response.pid != DISC_MUTE {
        Some(Flaw::Command)
    } else if response.source != uid {
        Some(Flaw::Source(response.source))
    } else if response.dest != source {
        Some(Flaw::Controller)
    } else if response.tn != tn {
        Some(Flaw::Number)
    } else {
        flaw_of_type(response.ack, response.param.len())
    }
}

fn is_discovery(class: RespClass) -> bool
    ensures { result ≡ is_discovery class }
{
    match class {
        RespClass::Discovery => true,
        _ => false,
    }
}

fn flaw_of_type(ack: AckType, length: usize) -> Option<Flaw>
    ensures { result ≡ flaw_of_type ack length }
{
    match ack {
        AckType::Ack => {
            if length == 2 || length == 8 {
                None
            } else {
                Some(Flaw::Length)
            }
        }
        AckType::Nack => Some(Flaw::Nack),
        _ => Some(Flaw::Type),
    }
}

/// Whether noise alone may have made bytes, which may have a flaw.
pub(crate) fn may_be_noise(flaw: Option<Flaw>) -> bool
    ensures { result ≡ may_be_noise flaw }
{
    match flaw {
        Some(flaw) => is_noisy(flaw),
        None => false,
    }
}

fn is_noisy(flaw: Flaw) -> bool
    ensures { result ≡ is_noisy flaw }
{
    match flaw {
        Flaw::Packet(fault) => is_formless(fault),
        Flaw::NoText => true,
        _ => false,
    }
}

// Whether bytes are too few for a response, or don't begin like one.
fn is_formless(fault: PacketFault) -> bool
    ensures { result ≡ is_formless fault }
{
    match fault {
        PacketFault::TooShort | PacketFault::WrongStart => true,
        _ => false,
    }
}

/// Writes a flaw in words.
pub(crate) fn write_flaw(text: &mut Vec<u8>, flaw: Flaw) -> Result<(), AllocError>
    ensures { OnOk result (text.new.items ≡ text.old.items ++ flaw_text flaw) }
{
    match flaw {
        Flaw::Packet(fault) => write(text, packet_text(fault)),
        Flaw::NoText => write(text, "they don't begin like a discovery reply"),
        Flaw::Cut => write(text, "they are too short for a discovery reply"),
        Flaw::Sum => write(text, "their checksum is wrong"),
        Flaw::Broadcast => write(text, "no device may answer a broadcast"),
        Flaw::Command => write(text, "they answer another command"),
        Flaw::Source(uid) => write_source(text, uid),
        Flaw::Controller => write(text, "they are for another controller"),
        Flaw::Number => write(text, "they have another transaction number"),
        Flaw::Nack => write(text, "they are a NACK"),
        Flaw::Type => write(text, "they are no ACK"),
        Flaw::Length => write(text, "they have neither 2 bytes of data nor 8"),
    }
}

fn write_source(text: &mut Vec<u8>, uid: Uid) -> Result<(), AllocError>
    ensures { OnOk result (text.new.items ≡ text.old.items ++ (codes "they are from " ++ uid_text uid)) }
{
    write(text, "they are from ")?;
    write_uid(text, uid)
}

fn packet_text(fault: PacketFault) -> &'static str
    ensures { result.now ≡ packet_text fault }
{
    match fault {
        PacketFault::TooShort => "they are too short for a response",
        PacketFault::WrongStart => "they don't begin with the start code",
        PacketFault::WrongSubStart => "their sub start code is wrong",
        PacketFault::LengthMismatch => "their message length is wrong",
        PacketFault::ParamLengthMismatch => "their parameter data length is wrong",
        PacketFault::Checksum => "their checksum is wrong",
        PacketFault::InvalidClass => "their command class isn't that of a response",
        PacketFault::InvalidResponseType => "their response type is unknown",
    }
}
