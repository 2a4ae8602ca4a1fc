//! The replies to a branch: what they mean, and how they are written.
ghost use Rattle.std.specs.Prelude.{◌≡◌, ◌≤◌, IfOk, IfErr, length};
ghost use Rattle.hex.specs.Hex.{encode_lower};
ghost use Rattle.rdm_port.specs.Fault.{IsDecodeFault, IsEncodeFault};
ghost use Rattle.rdm_reports.specs.Report.{line_of};
ghost use Rattle.rdm_port.specs.Outcome.{Decodes, Encodes, reply_text};
ghost use Rattle.rdm_port.specs.body.Texts.{answer_bytes};

use crate::answer::{Answer, Answered, LONGEST_TEXT, Refused};
use crate::fault::Fault;
use crate::reason::Reason;
use hex::FromHexError;
use rdm_wire::{
    BranchReply, LONGEST_BRANCH_REPLY, LONGEST_PREAMBLE, Uid, read_branch_reply, write_branch_reply,
};
use std::alloc::Global;

/// Says what the bytes after a branch mean.
pub fn decode<'a>(alloc: Global, digits: &'a str) -> Result<Answered<'a>, Refused<'a>>
    ensures ok { IfOk result (λ a. Decodes digits.now (answer_bytes a.text)) }
    ensures status { IfOk result (λ a. a.status ≡ 0) }
    ensures fault { IfErr result (λ e. IsDecodeFault digits.now e.0) }
{
    match hex::decode(alloc, digits) {
        Ok(bytes) => Ok(to_print(read_branch_reply(&bytes))),
        Err(FromHexError::OutOfMemory) => Err((Fault::Memory, None)),
        Err(_) => Err((Fault::Hex, Some(Reason::NoBytes(digits)))),
    }
}

// How a reply to a branch is printed.
fn to_print<'a>(reply: BranchReply) -> Answered<'a>
    ensures text { answer_bytes result.text ≡ line_of (reply_text reply) }
    ensures status { result.status ≡ 0 }
{
    match reply {
        BranchReply::One(uid) => Answered {
            text: Answer::line(&uid.to_text()),
            status: 0,
            reason: broadcast(uid),
        },
        BranchReply::Silent => Answered::done(Answer::line(b"silent")),
        BranchReply::Collision => Answered::done(Answer::line(b"collision")),
    }
}

// Why no device sends a reply with this UID; none if one may.
fn broadcast<'a>(uid: Uid) -> Option<Reason<'a>> {
    if uid.is_broadcast() {
        Some(Reason::Broadcast)
    } else {
        None
    }
}

/// Writes the reply of a device, with the longest preamble.
pub fn encode<'a>(uid: &'a str) -> Result<Answered<'a>, Refused<'a>>
    ensures ok { IfOk result (λ a. Encodes uid.now (answer_bytes a.text)) }
    ensures status { IfOk result (λ a. a.status ≡ 0) }
    ensures fault { IfErr result (λ e. IsEncodeFault uid.now e.0) }
{
    match Uid::parse(uid) {
        Ok(uid) => {
            let reply = write_branch_reply(uid, LONGEST_PREAMBLE);
            Ok(Answered {
                text: digits_of(&reply),
                status: 0,
                reason: broadcast(uid),
            })
        }
        Err(_) => Err((Fault::Uid, Some(Reason::NoUid(uid)))),
    }
}

// Bytes in hexadecimal.
fn digits_of(bytes: &[u8]) -> Answer
    requires { length bytes.now ≤ LONGEST_BRANCH_REPLY }
    ensures { answer_bytes result ≡ line_of (encode_lower bytes.now) }
{
    let mut digits = [0; LONGEST_TEXT];
    let digits = &mut digits[..2 * bytes.len()];
    hex::encode_to_slice(bytes, digits).unwrap();
    Answer::line(digits)
}
