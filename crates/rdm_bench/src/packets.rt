//! Packets: a line that replays stored replies, and single calls that write, read and judge packets.
ghost use Rattle.std.specs.Prelude.{⊤};

use crate::bench::{Bench, Sample, Times, holds};
use crate::lines::bytes_of;
use arrayvec::ArrayVec;
use rdm_join::{Judged, LineEvent, LineFault, LineReply, Sent, judge};
use rdm_line::Line;
use rdm_wire::{
    AckType, BranchReply, Frame, LONGEST_PREAMBLE, MOST_PARAMETER_BYTES, Request, RespClass,
    Response, decode_response, encode_request, encode_response, read_branch_reply,
    write_branch_reply,
};
use std::alloc::Global;
use test_rig::{Who, controller, device_of, request};

/// Where a packet's transaction number is (E1.20, packet format).
pub const TRANSACTION_NUMBER: usize = 15;

/// The tag of the request that is timed.
pub const TAG: u64 = 1;

// This many bytes of data, 231 at most.
fn data(count: usize) -> Option<ArrayVec<u8, MOST_PARAMETER_BYTES>> {
    let all = [0x5a; MOST_PARAMETER_BYTES];
    let mut data = ArrayVec::new();
    data.try_extend_from_slice(all.get(..count)?).ok()?;
    Some(data)
}

/// The device's reply to the request that is timed, with this many bytes of data and the transaction number 0.
pub fn reply(count: usize) -> Option<LineReply> {
    let request = request(TAG);
    bytes_of(&encode_response(&Response {
        source: request.target,
        dest: controller(),
        tn: 0,
        ack: AckType::Ack,
        count: 0,
        sub_device: request.sub_device,
        class: RespClass::Get,
        pid: request.pid,
        param: data(count)?,
    }))
}

/// A line that gives these replies in order, again and again. Packets get the transaction numbers of their frames.
#[derive(Drop)]
pub struct Replay {
    pub replies: Vec<LineReply>,
    pub next: usize,
}

impl Replay {
    /// A line that answers the request that is timed by two bytes.
    pub fn of_two_bytes(alloc: Global) -> Option<Replay> {
        let reply = reply(2)?;
        let mut replies = Vec::with_capacity(alloc, 1).ok()?;
        replies.push_reserved(reply);
        Some(Replay { replies, next: 0 })
    }
}

impl Line for Replay {
    ghost step = { λ old exchange new. ⊤ };

    ghost failures_of = { λ line. 0 };

    fn exchange(&mut self, frame: &Frame) -> Result<LineReply, LineFault> {
        let tn = frame.get(TRANSACTION_NUMBER).copied().unwrap_or(0);
        let index = self.next % self.replies.len().max(1);
        self.next = index.wrapping_add(1);
        match self.replies.get(index) {
            Some(reply) => Ok(numbered(reply, tn)),
            None => Ok(LineReply::new()),
        }
    }

    fn failures(&self) -> u64 {
        0
    }
}

/// The same packet with this transaction number, and its checksum (E1.20, packet format). Other bytes are the same.
#[inline(never)]
pub fn numbered(reply: &LineReply, tn: u8) -> LineReply {
    let mut reply = copied(reply);
    let bytes = reply.as_mut_slice();
    let length = bytes.len();
    if length > TRANSACTION_NUMBER + 2 && bytes[0] == 0xcc {
        let sum = u16::from_be_bytes([bytes[length - 2], bytes[length - 1]])
            .wrapping_sub(u16::from(bytes[TRANSACTION_NUMBER]))
            .wrapping_add(u16::from(tn));
        let [high, low] = sum.to_be_bytes();
        bytes[TRANSACTION_NUMBER] = tn;
        bytes[length - 2] = high;
        bytes[length - 1] = low;
    }
    reply
}

#[inline(never)]
fn copied(reply: &LineReply) -> LineReply {
    let mut bytes = LineReply::new();
    bytes.try_extend_from_slice(reply.as_slice()).unwrap();
    bytes
}

// What is called.
#[derive(Clone, Copy)]
enum Work {
    EncodeRequest,
    DecodeResponse,
    Judge,
    ReadBranchReply,
}

const WORKS: [(&str, Work); 4] = [
    ("calls, EncodeRequest", Work::EncodeRequest),
    ("calls, DecodeResponse", Work::DecodeResponse),
    ("calls, Judge", Work::Judge),
    ("calls, ReadBranchReply", Work::ReadBranchReply),
];

/// Times calls on packets.
pub fn time<R: Times>(bench: &Bench<R>) -> Option<()> {
    let mut calls = calls_of(bench.alloc, bench.size)?;
    for (name, work) in WORKS {
        calls.work = work;
        bench.time(name, &mut calls)?;
    }
    Some(())
}

// Calls on packets with this many bytes of data: the reply with each transaction number, in order.
fn calls_of(alloc: Global, count: usize) -> Option<Calls> {
    let mut calls = Calls {
        work: Work::Judge,
        request: request(TAG),
        branch: bytes_of(&write_branch_reply(device_of(Who::First).uid, LONGEST_PREAMBLE))?,
        events: Vec::new(alloc),
    };
    let reply = reply(count)?;
    for tn in 0..=u8::MAX {
        let event = LineEvent::Reply(numbered(&reply, tn));
        calls.events.push(event).ok()?;
    }
    calls.request.param = data(count)?;
    Some(calls)
}

// A call, what is written, a branch reply, and the replies to the request by transaction numbers.
#[derive(Drop)]
struct Calls {
    work: Work,
    request: Request,
    branch: LineReply,
    events: Vec<LineEvent>,
}

impl Sample for Calls {
    fn perform(&mut self) -> Option<u64> {
        let mut tn: u8 = 0;
        for event in self.events.as_slice() {
            holds(self.is_right(tn, event))?;
            tn = tn.wrapping_add(1);
        }
        Some(256)
    }
}

impl Calls {
    // Makes the call, and returns whether it came to what it should.
    fn is_right(&self, tn: u8, event: &LineEvent) -> bool {
        let LineEvent::Reply(reply) = event else {
            return false;
        };
        match self.work {
            Work::EncodeRequest => !encode_request(&self.request, controller(), tn).is_empty(),
            Work::DecodeResponse => match decode_response(reply) {
                Ok(response) => response.param.len() == self.request.param.len(),
                Err(_) => false,
            },
            Work::Judge => matches!(judge(&self.sent(tn), event), Judged::Whole(_)),
            Work::ReadBranchReply => matches!(read_branch_reply(&self.branch), BranchReply::One(_)),
        }
    }

    fn sent(&self, tn: u8) -> Sent {
        Sent {
            target: self.request.target,
            source: controller(),
            tn,
            sub_device: self.request.sub_device,
            class: self.request.class,
            pid: self.request.pid,
        }
    }
}
