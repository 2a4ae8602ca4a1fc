//! What clients are promised: laws about each legal log.
ghost use Rattle.std.specs.Prelude.{List};
ghost use Rattle.rdm_log.specs.declared.entry.Opening.{Opening};
ghost use Rattle.rdm_log.specs.declared.entry.Entry.{Entry};
ghost use Rattle.rdm_log.specs.declared.event.Event.{Event};
ghost use Rattle.rdm_log.specs.declared.event.Answer.{Answer};
ghost use Rattle.rdm_log.specs.log.Legal.{Legal};
ghost use Rattle.rdm_log.specs.log.LogState.{LogState};
ghost use Rattle.rdm_log.specs.promises.Explains.{Explains};
ghost use Rattle.rdm_log.specs.promises.Headline.{OneResult, OwnRequests, OwnAnswers, InOrder, FullRefuses};
ghost use Rattle.rdm_log.specs.promises.Headline.{NothingAfterClose};
ghost use Rattle.rdm_log.specs.promises.Flags.{FlagsHold};
ghost use Rattle.rdm_log.specs.promises.LogInBound.{InBound};
ghost use Rattle.rdm_log.specs.promises.Promised.{LegalPromised, Promised};
ghost use Rattle.rdm_log.specs.promises.EventsHeadline.{EventsPromised};

/// Each accepted request is finished with exactly one result: never with two, and with one once the queue is closed
/// and no reply is awaited.
#[tactic(auto, using(crate::proofs::PromiseLemmas::OneResult::one_result))]
pub fn exactly_one_result()
    ensures { (o : Opening) (h : List Entry) → Legal o h → OneResult o h }
{}

/// Each frame that is sent for a request is that request's packet, with the transaction number of its index among all
/// frames.
#[tactic(auto, using(crate::proofs::PromiseLemmas::OwnRequests::own_requests))]
pub fn own_requests()
    ensures { (o : Opening) (h : List Entry) → Legal o h → OwnRequests o h }
{}

/// Each result is the joined answer of the request's own exchanges.
#[tactic(auto, using(crate::proofs::PromiseLemmas::OwnAnswers::own_answers))]
pub fn joined_answer()
    ensures { (o : Opening) (h : List Entry) → Legal o h → OwnAnswers o h }
{}

/// First in, first out: requests finish in the order in which they were accepted, over all clients and for each.
pub fn first_in_first_out()
    ensures { (o : Opening) (h : List Entry) → Legal o h → InOrder o h }
{}

/// A request is refused as full only if its client's queue is full, and no request is accepted then. After a refusal's
/// entry the log says the same about the queue as before.
#[tactic(auto, using(crate::proofs::PromiseLemmas::FullRefuses::full_refuses))]
pub fn full_queue_refuses()
    ensures { (o : Opening) (h : List Entry) → Legal o h → FullRefuses o h }
{}

/// Nothing starts after a close.
#[tactic(auto, using(crate::proofs::PromiseLemmas::NothingAfterClose::after_close))]
pub fn nothing_after_close()
    ensures { (o : Opening) (h : List Entry) → Legal o h → NothingAfterClose o h }
{}

/// An answer that isn't flagged has all its parts, if the device begins each answer at its first part unless the last
/// GET of it broke off (E1.20, ACK_OVERFLOW): after a GET that broke off, the next one of the same that is answered
/// whole is flagged. While the queue notes all GETs that broke off, nothing else is. Those that it notes at a log's end
/// are in the next log's opening.
#[tactic(auto, using(crate::proofs::PromiseLemmas::FlagLemmas::flags_hold))]
pub fn flags_hold()
    ensures { (o : Opening) (h : List Entry) → Legal o h → FlagsHold o h }
{}

/// All that clients are promised for a legal log holds for each legal log. If the log is also in bound, all that they
/// are promised for a session's log holds for it.
pub fn legal_keeps_promises()
    ensures legal { (o : Opening) (h : List Entry) → Legal o h → LegalPromised o h }
    ensures in_bound { (k : LogState) → Legal k.opening k.entries → InBound k → Promised k }
{}

/// All together, for every list of events. If a log explains their answers and is legal, these hold:
/// - each event has one answer;
/// - each accepted request is finished with exactly one result, the joined answer of its own exchanges, first in, first
///   out;
/// - a full queue refuses and changes nothing but the log;
/// - nothing starts after a close.
///
/// If the exchanges of a run are those of an honest line, its discoveries that are collected without fault have exactly
/// the devices present. With at most 1,024 devices, no failure and a sufficient budget, they are answered with a fault
/// only after a close.
#[tactic(auto, using(crate::proofs::PromiseLemmas::EventsPromises::events_promised))]
pub fn answers_keep_promises()
    ensures { (old : LogState) (es : List Event) (rs : List Answer) (new : LogState) → Explains old es rs new
        → Legal new.opening new.entries → EventsPromised old es rs new }
{}
