//! What a run asks of the line, and what the line replies.
ghost use Rattle.std.specs.Prelude.{◌≡◌, ◌≢◌, ◌↔◌, ℕ, true, Some, None, option_copied};
ghost use Rattle.rdm_wire.specs.Uid.{IsDevice};
ghost use Rattle.rdm_wire.specs.Span.{Span};
ghost use Rattle.rdm_wire.specs.Frames.{asked_in, heard_in};
ghost use Rattle.rdm_wire.specs.Honest.Heard.{Acked};
ghost use Rattle.rdm_wire.specs.declared.mute_ack.MuteAck.{MuteAck};
ghost use Rattle.rdm_agent.specs.Calls.{fits, next_op};
ghost use Rattle.rdm_agent.specs.OpFrames.{op_frame, IsSendable};
ghost use Rattle.rdm_agent.specs.Run.{asked_by, heard_by, mute_reply};
ghost use Rattle.rdm_agent.specs.Machine.{AgentState, fed};

use rdm_wire::{
    BranchReply, Frame, MuteAck, Uid, UidRange, encode_branch, encode_mute, encode_unmute,
    read_branch_reply, reads_mute_ack,
};

/// What a run wants next (E1.20, discovery commands).
#[derive(Clone, Copy, Debug, PartialEq, Eq)]
pub enum Op {
    /// All devices are to be unmuted.
    UnmuteAll,
    /// This device is to be muted.
    Mute(Uid),
    /// Each unmuted device of this range is to reply with its UID.
    Branch(UidRange),
    /// Nothing: the run has ended.
    End,
}

/// What the line replied to an [`Op`].
#[derive(Clone, Copy, Debug, PartialEq, Eq)]
pub enum OpReply {
    /// The unmute was sent; it isn't answered.
    Done,
    /// The acknowledgement of a mute, or silence.
    Mute(Option<MuteAck>),
    /// Bytes came after a mute that aren't its acknowledgement.
    Garbled,
    /// What the bytes after a branch mean.
    Branch(BranchReply),
    /// The line failed.
    Failed,
}

impl Op {
    /// The operation's packet, from the controller `source`, with the transaction number `tn`. [`Op::End`] has none. A
    /// mute must be of a device, whose UID isn't broadcast ([`Uid::is_broadcast`]). Those of
    /// [`Agent::next`](crate::Agent::next) are.
    pub fn frame(&self, source: Uid, tn: u8) -> Frame
        requires goes_on { self.now ≢ Op.End }
        requires device { (u : ℕ) → self.now ≡ Op.Mute u → IsDevice u }
        ensures frame { result.items ≡ op_frame self.now source tn }
        ensures asks { asked_in result.items ≡ asked_by self.now }
    {
        self.show_sendable(source, tn);
        match self {
            Op::UnmuteAll => encode_unmute(source, tn),
            Op::Mute(uid) => encode_mute(*uid, source, tn),
            Op::Branch(range) => encode_branch(*range, source, tn),
            Op::End => unreachable!(),
        }
    }

    /// What the bytes in `answer` mean, which came after its packet with this source and transaction number. `None`:
    /// the line failed, and the result is [`OpReply::Failed`]. [`Op::End`] has no reply.
    pub fn read_reply(&self, source: Uid, tn: u8, answer: Option<&[u8]>) -> OpReply
        requires goes_on { self.now ≢ Op.End }
        ensures fits { fits result self.now ≡ true }
        ensures failed { (result ≡ OpReply.Failed) ↔ (option_copied answer.entry ≡ None) }
        ensures branch { (r : Span) → self.now ≡ Op.Branch r →
            heard_by result ≡ heard_in (op_frame self.now source tn) (option_copied answer.entry) }
        ensures mute { (u : ℕ) → self.now ≡ Op.Mute u →
            heard_by result ≡ heard_in (op_frame self.now source tn) (option_copied answer.entry) }
        ensures acked { (ack : MuteAck) → (result ≡ OpReply.Mute (Some ack))
            ↔ (heard_in (op_frame self.now source tn) (option_copied answer.entry) ≡ Acked ack) }
        // An agent continues in the same way with the reply as with the bytes: any bytes after an unmute mean the same
        // to it as silence.
        ensures fed { (a : AgentState) → next_op a ≡ self.now → fed a (heard_by result)
            ≡ fed a (heard_in (op_frame self.now source tn) (option_copied answer.entry)) }
    {
        match answer {
            None => OpReply::Failed,
            Some(bytes) => self.read_bytes(source, tn, bytes),
        }
    }

    // The reply that these bytes mean.
    fn read_bytes(&self, source: Uid, tn: u8, bytes: &[u8]) -> OpReply
        requires goes_on { self.now ≢ Op.End }
        ensures fits { fits result self.now ≡ true }
        ensures came { result ≢ OpReply.Failed }
        ensures branch { (r : Span) → self.now ≡ Op.Branch r →
            heard_by result ≡ heard_in (op_frame self.now source tn) (Some bytes.now) }
        ensures mute { (u : ℕ) → self.now ≡ Op.Mute u →
            heard_by result ≡ heard_in (op_frame self.now source tn) (Some bytes.now) }
        ensures acked { (ack : MuteAck) → (result ≡ OpReply.Mute (Some ack))
            ↔ (heard_in (op_frame self.now source tn) (Some bytes.now) ≡ Acked ack) }
        ensures fed { (a : AgentState) → next_op a ≡ self.now → fed a (heard_by result)
            ≡ fed a (heard_in (op_frame self.now source tn) (Some bytes.now)) }
    {
        self.show_sendable(source, tn);
        match self {
            Op::UnmuteAll => OpReply::Done,
            Op::Mute(uid) => mute_reply(reads_mute_ack(*uid, source, tn, bytes), bytes),
            Op::Branch(_) => OpReply::Branch(read_branch_reply(bytes)),
            Op::End => unreachable!(),
        }
    }

    // Only for the proof: each number fits its field, since a UID's number is below 2^48.
    fn show_sendable(&self, source: Uid, tn: u8)
        ensures { IsSendable self.now source tn }
    {
        let _source = source.number();
        match self {
            Op::Mute(uid) => {
                let _uid = uid.number();
            }
            Op::Branch(range) => {
                let _bounds = (range.lo.number(), range.hi.number());
            }
            Op::UnmuteAll | Op::End => {}
        }
    }
}

// The reply to a mute: these bytes came, which acknowledge it like this.
fn mute_reply(ack: Option<MuteAck>, bytes: &[u8]) -> OpReply
    ensures { result ≡ mute_reply ack bytes.now }
{
    if ack.is_none() && !bytes.is_empty() {
        OpReply::Garbled
    } else {
        OpReply::Mute(ack)
    }
}

impl OpReply {
    /// Whether it may answer this operation. [`OpReply::Failed`] may answer each but [`Op::End`], which has no reply.
    pub fn fits(&self, op: &Op) -> bool
        ensures { result ≡ fits self.now op.now }
    {
        match (self, op) {
            (OpReply::Done, Op::UnmuteAll)
            | (OpReply::Mute(_) | OpReply::Garbled, Op::Mute(_))
            | (OpReply::Branch(_), Op::Branch(_))
            | (OpReply::Failed, Op::UnmuteAll | Op::Mute(_) | Op::Branch(_)) => true,
            _ => false,
        }
    }
}
