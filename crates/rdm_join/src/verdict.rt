//! What one event of the line means for the request that was sent.
ghost use Rattle.std.specs.Prelude.{◌≡◌};
ghost use Rattle.rdm_join.specs.Verdict.{verdict, verdict_of_response, verdict_of_type, answers_class};

use crate::event::LineEvent;
use crate::status::Status;
use rdm_wire::{AckType, QUEUED_MESSAGE, ReqClass, RespClass, Response, Uid, decode_response};

/// The number that addresses all sub-devices (E1.20, sub-devices).
pub const ALL_SUB_DEVICES: u16 = 0xffff;

/// The fields of a request's frame by which its reply is judged (E1.20, request packet).
#[derive(Clone, Copy, Debug)]
pub struct Sent {
    /// The device, or a broadcast UID.
    pub target: Uid,
    /// The controller.
    pub source: Uid,
    /// The frame's transaction number.
    pub tn: u8,
    /// The sub-device: 0 is the root, `ffff` all of them.
    pub sub_device: u16,
    /// Whether the parameter is read or changed.
    pub class: ReqClass,
    /// The parameter's identifier.
    pub pid: u16,
}

/// What an event means for the request that was sent.
#[derive(Debug, Drop)]
pub enum Judged {
    /// A response that has all, or the rest, of the answer.
    Whole(Response),
    /// A response with a part of the answer, after which there is more to get.
    Part(Response),
    /// The request has ended with this status.
    Ended(Status),
}

/// What the event means for the request. The first of these that applies decides: a failed line, a broadcast request,
/// silence, a fault of the packet, or a response that isn't the request's. Otherwise the response decides. A request
/// for a queued message may be answered with any PID and sub-device, and as a GET or a SET (E1.20, QUEUED_MESSAGE).
pub fn judge(sent: &Sent, event: &LineEvent) -> Judged
    ensures { result ≡ verdict sent.now event.now }
{
    let LineEvent::Reply(bytes) = event else {
        return Judged::Ended(Status::FailedToSend);
    };
    if sent.target.is_broadcast() {
        return Judged::Ended(Status::WasBroadcast);
    }
    if bytes.is_empty() {
        return Judged::Ended(Status::Timeout);
    }
    match decode_response(bytes) {
        Ok(response) => judge_response(sent, response),
        Err(fault) => Judged::Ended(Status::of_fault(fault)),
    }
}

fn judge_response(sent: &Sent, response: Response) -> Judged
    ensures { result ≡ verdict_of_response sent.now response }
{
    if response.tn != sent.tn {
        return Judged::Ended(Status::TransactionMismatch);
    }
    let any_sub_device = sent.sub_device == ALL_SUB_DEVICES || sent.pid == QUEUED_MESSAGE;
    if response.sub_device != sent.sub_device && !any_sub_device {
        return Judged::Ended(Status::SubDeviceMismatch);
    }
    if response.source != sent.target {
        return Judged::Ended(Status::SourceMismatch);
    }
    if response.dest != sent.source {
        return Judged::Ended(Status::DestMismatch);
    }
    if !sent.is_answered_by(response.class) {
        return Judged::Ended(Status::ClassMismatch);
    }
    if response.pid != sent.pid && sent.pid != QUEUED_MESSAGE {
        return Judged::Ended(Status::InvalidResponse);
    }
    judge_type(response)
}

// The verdict by the response type. Only the answer to a GET may have several parts.
fn judge_type(response: Response) -> Judged
    ensures { result ≡ verdict_of_type response response.ack }
{
    match (response.ack, response.class) {
        (AckType::Overflow, RespClass::Get) => Judged::Part(response),
        (AckType::Overflow, _) => Judged::Ended(Status::InvalidResponse),
        _ => Judged::Whole(response),
    }
}

impl Sent {
    // Whether a response of this class answers the request: a queued message may be the answer to a SET too.
    fn is_answered_by(&self, class: RespClass) -> bool
        ensures { result ≡ answers_class self.now class }
    {
        match (self.class, class) {
            (ReqClass::Get, RespClass::Get) | (ReqClass::Set, RespClass::Set) => true,
            (ReqClass::Get, RespClass::Set) => self.pid == QUEUED_MESSAGE,
            _ => false,
        }
    }
}
