//! Lines that replay stored replies.
use crate::device::{Who, device_of};
use crate::setup::controller;
use crate::wrong::Wrong;
use arrayvec::ArrayVec;
use rdm_join::{LineEvent, LineReply};
use rdm_line::TapeLine;
use rdm_wire::{
    AckType, Frame, RespClass, Response, encode_response, mute_response, write_branch_reply,
};
use std::alloc::Global;

/// What a line answers to a frame.
#[derive(Clone, Copy)]
pub enum Came {
    /// Silence.
    Nothing,
    /// The branch reply of this device.
    Spelt(Who),
    /// The acknowledgement of this device's mute.
    Muted(Who),
    /// The reply of [`Who::First`] to a GET of the parameter `0060`, without data, of this type.
    Empty(AckType),
}

/// A line that gives these answers to frames with transaction numbers from 0, and then fails.
#[inline(never)]
pub fn tape_of(alloc: Global, came: &[Came]) -> Result<TapeLine, Wrong> {
    let mut events = Vec::new(alloc);
    let mut tn = 0u8;
    for came in came {
        if events.push(event(tn, *came)).is_err() {
            return Err(Wrong::NoMemory);
        }
        tn = tn.wrapping_add(1);
    }
    Ok(TapeLine::new(events))
}

/// A line that is silent this many times, and then fails.
pub fn silent(alloc: Global, count: usize) -> Result<TapeLine, Wrong> {
    let mut events = Vec::new(alloc);
    for _ in 0..count {
        if events.push(LineEvent::Reply(ArrayVec::new())).is_err() {
            return Err(Wrong::NoMemory);
        }
    }
    Ok(TapeLine::new(events))
}

// What the line answers to the frame with this transaction number.
#[inline(never)]
fn event(tn: u8, came: Came) -> LineEvent {
    match came {
        Came::Nothing => LineEvent::Reply(ArrayVec::new()),
        Came::Spelt(who) => spelt(who),
        Came::Muted(who) => muted(who, tn),
        Came::Empty(ack) => empty(ack, tn),
    }
}

// The branch reply of this device.
fn spelt(who: Who) -> LineEvent {
    let mut bytes: LineReply = ArrayVec::new();
    let _ = bytes.try_extend_from_slice(&write_branch_reply(device_of(who).uid, 7));
    LineEvent::Reply(bytes)
}

// This device's acknowledgement of the mute with this transaction number.
fn muted(who: Who, tn: u8) -> LineEvent {
    reply(&encode_response(&mute_response(&device_of(who), controller(), tn)))
}

// The reply without data to the GET with this transaction number.
fn empty(ack: AckType, tn: u8) -> LineEvent {
    reply(&encode_response(&Response {
        source: device_of(Who::First).uid,
        dest: controller(),
        tn,
        ack,
        count: 0,
        sub_device: 0,
        class: RespClass::Get,
        pid: 0x0060,
        param: ArrayVec::new(),
    }))
}

// These bytes as a line's event.
fn reply(frame: &Frame) -> LineEvent {
    let mut bytes: LineReply = ArrayVec::new();
    let _ = bytes.try_extend_from_slice(frame);
    LineEvent::Reply(bytes)
}
