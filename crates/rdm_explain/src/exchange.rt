//! An exchange, as the definitions of an honest line see it.
ghost use Rattle.std.specs.Prelude.{◌≡◌, ◌≢◌, ℕ, [], ◌∷◌, ◌++◌, OnOk, OnErr};
ghost use Rattle.rdm_wire.specs.Reading.{text_read, ack_read};
ghost use Rattle.rdm_wire.specs.Frames.{heard_bytes, one_or_noise, acked_or_noise};
ghost use Rattle.rdm_join.specs.Exchange.{seen_event, bytes_heard};
ghost use Rattle.rdm_explain.specs.Exchanges.{seen_of, seen_all, asked_of, heard_of};
ghost use Rattle.rdm_explain.specs.body.FrameTests.{heard_event};

use crate::frame::{Sent, read_frame};
use rdm_join::LineEvent;
use rdm_wire::{BranchReply, Frame, MuteAck, NoMemory, Uid, read_branch_reply, reads_mute_ack};

/// What a frame asks (E1.20, discovery commands).
#[derive(Clone, Copy, Debug)]
pub enum Asked {
    /// All devices are to be unmuted.
    Unmute,
    /// Each unmuted device from `lo` to `hi` is to reply. If `lo` is above `hi`, no device is.
    Branch {
        /// The least UID.
        lo: Uid,
        /// The greatest UID.
        hi: Uid,
    },
    /// This device is to be muted.
    Mute(Uid),
    /// Nothing that concerns a discovery.
    Other,
}

/// What came after a frame.
#[derive(Clone, Copy, Debug)]
pub enum Heard {
    /// The line failed.
    Failed,
    /// No bytes came.
    Silent,
    /// After a branch: the bytes were the text of this UID.
    One(Uid),
    /// After a mute: the device acknowledged it.
    Acked(MuteAck),
    /// Other bytes came.
    Noise,
}

/// What a frame asks, and what came after it.
#[derive(Clone, Copy, Debug)]
pub struct Exchange {
    /// What the frame asks.
    pub asked: Asked,
    /// What came after it.
    pub heard: Heard,
}

impl Heard {
    ghost use Rattle.std.specs.Prelude.{◌≡◌, ◌↔◌, true};
    ghost use Rattle.rdm_wire.specs.Honest.{is_silent, is_acked};
    ghost use Rattle.rdm_wire.specs.Honest.Heard.{Failed};
    ghost use Rattle.rdm_explain.specs.Exchanges.{heard_of};

    /// Whether the line failed.
    pub fn is_failed(&self) -> bool
        ensures { (result ≡ true) ↔ (heard_of self.now ≡ Failed) }
    {
        matches!(self, Heard::Failed)
    }

    /// Whether no bytes came.
    pub fn is_silent(&self) -> bool
        ensures { result ≡ is_silent (heard_of self.now) }
    {
        matches!(self, Heard::Silent)
    }

    /// Whether a mute was acknowledged.
    pub fn is_acked(&self) -> bool
        ensures { result ≡ is_acked (heard_of self.now) }
    {
        matches!(self, Heard::Acked(_))
    }
}

/// An exchange of a frame and what came from the line: what it asks, and what was heard.
pub fn read_exchange(frame: &Frame, event: &LineEvent) -> Exchange
    ensures { seen_of result ≡ seen_event (frame.now, event.now) }
{
    let sent = read_frame(frame.as_slice());
    let heard = read_event(&sent, event);
    Exchange {
        asked: sent.asked,
        heard,
    }
}

/// Adds an exchange of a frame and what came from the line. Err: out of memory, and the exchanges are unchanged.
pub fn push_exchange(
    exchanges: &mut Vec<Exchange>,
    frame: &Frame,
    event: &LineEvent,
) -> Result<(), NoMemory>
    ensures added { OnOk result (seen_all exchanges.new.items
        ≡ seen_all exchanges.old.items ++ seen_event (frame.now, event.now) ∷ []) }
    ensures same { OnErr result (exchanges.new.items ≡ exchanges.old.items) }
{
    if exchanges
        .extend_from_slice(&[read_exchange(frame, event)])
        .is_err()
    {
        return Err(NoMemory);
    }
    Ok(())
}

// How an event is heard after a frame.
fn read_event(sent: &Sent, event: &LineEvent) -> Heard
    ensures { heard_of result
        ≡ heard_event sent.now.source sent.now.tn (asked_of sent.now.asked) (bytes_heard event.now) }
{
    match event {
        LineEvent::Failed => Heard::Failed,
        LineEvent::Reply(bytes) => read_answer(sent, bytes.as_slice()),
    }
}

// How bytes are heard after a frame.
fn read_answer(sent: &Sent, bytes: &[u8]) -> Heard
    ensures { heard_of result ≡ heard_bytes sent.now.source sent.now.tn (asked_of sent.now.asked) bytes.now }
{
    if bytes.is_empty() {
        return Heard::Silent;
    }
    match sent.asked {
        Asked::Branch { .. } => read_branch(bytes),
        Asked::Mute(uid) => read_ack(uid, sent.source, sent.tn, bytes),
        _ => Heard::Noise,
    }
}

// How bytes are heard after a branch.
fn read_branch(bytes: &[u8]) -> Heard
    requires { bytes.now ≢ [] }
    ensures { heard_of result ≡ one_or_noise (text_read bytes.now) }
{
    match read_branch_reply(bytes) {
        BranchReply::One(uid) => Heard::One(uid),
        _ => Heard::Noise,
    }
}

// How bytes are heard after a mute.
fn read_ack(uid: Uid, source: Uid, tn: u8, bytes: &[u8]) -> Heard
    ensures { heard_of result ≡ acked_or_noise (ack_read uid source tn bytes.now) }
{
    match reads_mute_ack(uid, source, tn, bytes) {
        Some(ack) => Heard::Acked(ack),
        None => Heard::Noise,
    }
}
