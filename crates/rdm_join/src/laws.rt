//! Laws of results and joiners, each the contract of a function that does nothing. The definitions are in `specs`.
ghost use Rattle.std.specs.Prelude.{◌≡◌, ◌↔◌, ℕ, List, [], ◌++◌, Some, None};
ghost use Rattle.arrayvec.specs.ArrayVec.{ArrayVec as Items};
ghost use Rattle.rdm_wire.specs.Frames.{asked_in};
ghost use Rattle.rdm_wire.specs.Honest.Heard.{Failed, Silent};
ghost use Rattle.rdm_join.specs.Exchange.{seen_event};
ghost use Rattle.rdm_join.specs.Result.{Joined, result_of, IsResult};
ghost use Rattle.rdm_join.specs.JoinerStanding.{JoinerStanding, IsOpen, head_of_standing};
ghost use Rattle.rdm_join.specs.body.Standing.{StandsAt};
ghost use Rattle.rdm_join.specs.declared.verdict.Judged.{Judged};

use crate::event::LineEvent;
use crate::joiner::{MOST_JOINED_BYTES, MOST_PARTS};
use crate::verdict::ALL_SUB_DEVICES;

/// The constants of this crate that other crates depend on.
pub fn limits_are()
    ensures joined { MOST_JOINED_BYTES ≡ 65535 }
    ensures parts { MOST_PARTS ≡ 512 }
    ensures sub_devices { ALL_SUB_DEVICES ≡ 0xffff }
{}

/// An exchange of a frame and an event asks what the frame asks. What is heard is a failure if the line failed, and
/// silence if no bytes came.
pub fn events_are_seen()
    ensures asked { (frame : Items ℕ) (event : LineEvent) → (seen_event (frame, event)).asked ≡ asked_in frame.items }
    ensures failed { (frame : Items ℕ) → (seen_event (frame, LineEvent.Failed)).heard ≡ Failed }
    ensures silent { (frame reply : Items ℕ) → reply.items ≡ []
        → (seen_event (frame, LineEvent.Reply reply)).heard ≡ Silent }
{}

/// A request's result is that of the first position that decides anything. There is at most one result, and later
/// verdicts don't change it.
pub fn result_is_determined()
    ensures meets { (vs : List Judged) (j : Joined) → result_of vs ≡ Some j → IsResult vs j }
    ensures only { (vs : List Judged) (j : Joined) → IsResult vs j → result_of vs ≡ Some j }
    ensures stays { (vs more : List Judged) (j : Joined) →
        result_of vs ≡ Some j → result_of (vs ++ more) ≡ Some j }
{}

/// A joiner that was given a list of verdicts is open if and only if they have no result. Otherwise it has the head and
/// the data of their result.
pub fn joiners_stand_at_results()
    ensures is_open { (vs : List Judged) (s : JoinerStanding) → StandsAt vs s → IsOpen s ↔ (result_of vs ≡ None) }
    ensures head { (vs : List Judged) (s : JoinerStanding) (j : Joined) →
        StandsAt vs s → result_of vs ≡ Some j → head_of_standing s ≡ j.head }
    ensures joined { (vs : List Judged) (s : JoinerStanding) (j : Joined) →
        StandsAt vs s → result_of vs ≡ Some j → s.data_ ≡ j.data_ }
{}
