//! A request's replies, joined.
ghost use Rattle.std.specs.Prelude.{◌≡◌, ◌<◌, ◌↔◌, List, [], ◌∷◌, ◌++◌, length, not, true, IfOk, OnErr};
ghost use Rattle.rdm_join.specs.Result.{result_of, head_of, differs};
ghost use Rattle.rdm_join.specs.JoinerStanding.{IsOpen, head_of_standing, step_of};
ghost use Rattle.rdm_join.specs.body.Standing.{StandsAt, JoinerMoves, ended_standing, stage_with_part, allows_whole};
ghost use Rattle.rdm_join.specs.declared.verdict.Judged.{Judged};
ghost use Rattle.rdm_join.specs.declared.verdict.Judged.TheVariants.{Whole, Part};

use crate::status::Status;
use crate::verdict::Judged;
use arrayvec::ArrayVec;
use rdm_wire::{AckType, RespClass, Response};
use std::alloc::{AllocError, Global};
use std::marker::Model;
use std::mem::size_of;

/// The most bytes of an answer, all its parts together: 65,535.
pub const MOST_JOINED_BYTES: usize = 65_535;

/// The most replies that an answer may have: 512. If the last of them is a part, it ends the request.
pub const MOST_PARTS: usize = 512;

/// The fields that a completed request reports of its last reply, beside the data (E1.20, response packet).
#[derive(Clone, Copy, Debug, PartialEq, Eq)]
pub struct ReplyHead {
    /// How the device responded.
    pub ack: AckType,
    /// What it answered.
    pub class: RespClass,
    /// The parameter's identifier.
    pub pid: u16,
    /// The sub-device: 0 is the root.
    pub sub_device: u16,
}

impl ReplyHead {
    // Whether its class, PID and sub-device are those of `other`.
    fn goes_with(self, other: ReplyHead) -> bool
        ensures { result ≡ not (differs self other) }
    {
        self.class == other.class && self.pid == other.pid && self.sub_device == other.sub_device
    }
}

fn head_of(response: &Response) -> ReplyHead
    ensures { result ≡ head_of response.now }
{
    ReplyHead {
        ack: response.ack,
        class: response.class,
        pid: response.pid,
        sub_device: response.sub_device,
    }
}

/// What follows from a verdict for the request.
#[derive(Clone, Copy, Debug, PartialEq, Eq)]
pub enum Step {
    /// A part was joined: the same request is to be sent again, for the rest.
    More,
    /// The request has ended with this status.
    Done(Status),
}

/// How far a request is.
#[derive(Clone, Copy, Debug)]
enum Stage {
    /// No part has come.
    Waiting,
    /// This many parts have come, and the first had this head.
    Joining { first: ReplyHead, parts: usize },
    /// It has ended. If it is completed, its last reply had this head.
    Ended(Option<ReplyHead>),
}

impl Stage {
    // The stage after one more part, if it joins with the first and isn't the last reply that is allowed.
    fn with_part(self, head: ReplyHead) -> Option<Stage>
        ensures { result ≡ stage_with_part self head }
    {
        match self {
            Stage::Waiting => Some(Stage::Joining {
                first: head,
                parts: 1,
            }),
            Stage::Joining { first, parts } if first.goes_with(head) && parts < MOST_PARTS - 1 => {
                Some(Stage::Joining {
                    first,
                    parts: parts + 1,
                })
            }
            _ => None,
        }
    }

    // Whether a reply with all, or the rest, of the answer completes the request.
    fn allows_whole(self, head: ReplyHead) -> bool
        ensures { result ≡ allows_whole self head }
    {
        match self {
            Stage::Waiting => true,
            Stage::Joining { first, .. } => first.goes_with(head) && head.ack == AckType::Ack,
            Stage::Ended(_) => false,
        }
    }
}

/// Joins the replies to one request: the same request is sent until a reply has all, or the rest, of the answer
/// (E1.20, ACK_OVERFLOW). Contracts see the stage of the request, and its data. After any list of verdicts these are
/// those of the verdicts' result, or of their parts if there is no result yet (`StandsAt`).
#[derive(Debug, Drop)]
pub struct Joiner {
    stage: Stage,
    joined: ArrayVec<u8, MOST_JOINED_BYTES>,
}

// The size that the docs state.
const _: () = prove!(size_of::<Joiner>() == 65_560);

impl Model for Joiner {
    ghost use Rattle.rdm_join.specs.JoinerStanding.{JoinerStanding};

    ghost Value = { JoinerStanding };

    ghost view = { λ j. record { stage = j.stage; data_ = j.joined.items } };
}

impl Joiner {
    /// A joiner that was given no verdict yet. It allocates nothing. It has 64 KB, and this call fills all of them. So
    /// make it once, and reset it for each request.
    pub fn new() -> Joiner
        ensures is_open { IsOpen result }
        ensures stands { StandsAt [] result }
    {
        Joiner {
            stage: Stage::Waiting,
            joined: ArrayVec::new(),
        }
    }

    /// Forgets all verdicts, for another request. The cost grows with the data that it had.
    pub fn reset(&mut self)
        ensures is_open { IsOpen self.new }
        ensures stands { StandsAt [] self.new }
    {
        self.joined.clear();
        self.stage = Stage::Waiting;
    }

    /// Whether the request hasn't ended, so that another verdict may be added.
    pub fn is_open(&self) -> bool
        ensures { (result ≡ true) ↔ IsOpen self.now }
    {
        match self.stage {
            Stage::Waiting | Stage::Joining { .. } => true,
            Stage::Ended(_) => false,
        }
    }

    /// Adds the verdict on the next reply. The request must be open ([`Joiner::is_open`]): no earlier call has returned
    /// `Done`.
    ///
    /// A reply joins with the parts before it if all of these hold. Otherwise the request ends as an invalid response.
    ///
    /// - it has the class, the PID and the sub-device of the first part;
    /// - it is an ACK, unless it is a part itself;
    /// - the data stay within [`MOST_JOINED_BYTES`];
    /// - it isn't a part that comes as the last of [`MOST_PARTS`] replies.
    pub fn add(&mut self, judged: Judged) -> Step
        requires { IsOpen self.old }
        ensures more { (result ≡ Step.More) ↔ IsOpen self.new }
        ensures stands { (vs : List Judged) → StandsAt vs self.old → StandsAt (vs ++ judged ∷ []) self.new }
        ensures step { (vs : List Judged) → StandsAt vs self.old →
            result ≡ step_of (result_of (vs ++ judged ∷ [])) }
    {
        match judged {
            Judged::Whole(response) => self.add_whole(&response),
            Judged::Part(response) => self.add_part(&response),
            Judged::Ended(status) => self.end(status),
        }
    }

    fn add_whole(&mut self, whole: &Response) -> Step
        requires { IsOpen self.old }
        ensures { JoinerMoves self.old (Whole whole.now) result self.new }
    {
        let head = head_of(whole);
        if !self.stage.allows_whole(head)
            || self.joined.try_extend_from_slice(&whole.param).is_err()
        {
            return self.end(Status::InvalidResponse);
        }
        self.stage = Stage::Ended(Some(head));
        Step::Done(Status::Completed)
    }

    fn add_part(&mut self, part: &Response) -> Step
        requires { IsOpen self.old }
        ensures { JoinerMoves self.old (Part part.now) result self.new }
    {
        let Some(stage) = self.stage.with_part(head_of(part)) else {
            return self.end(Status::InvalidResponse);
        };
        if self.joined.try_extend_from_slice(&part.param).is_err() {
            return self.end(Status::InvalidResponse);
        }
        self.stage = stage;
        Step::More
    }

    // Ends the request without data.
    fn end(&mut self, status: Status) -> Step
        ensures stands { self.new ≡ ended_standing }
        ensures step { result ≡ Step.Done status }
    {
        self.stage = Stage::Ended(None);
        self.joined.clear();
        Step::Done(status)
    }

    /// The head of the last reply if the request is completed, that is, if `add` returned `Done(Completed)`.
    pub fn head(&self) -> Option<ReplyHead>
        ensures { result ≡ head_of_standing self.now }
    {
        match self.stage {
            Stage::Ended(head) => head,
            Stage::Waiting | Stage::Joining { .. } => None,
        }
    }

    /// A copy of the data: of the parts so far, or of the whole answer if the request is completed. If it has ended
    /// with another status, there are none. This is the only call that allocates. `Err`: out of memory. A copy of no
    /// data needs no memory, and can't fail.
    pub fn take_data(&self, alloc: Global) -> Result<Vec<u8>, AllocError>
        ensures ok { IfOk result (λ v. v.items ≡ self.now.data_) }
        ensures err { OnErr result (0 < length self.now.data_) }
    {
        let mut data = Vec::new(alloc);
        data.extend_from_slice(&self.joined)?;
        Ok(data)
    }
}
