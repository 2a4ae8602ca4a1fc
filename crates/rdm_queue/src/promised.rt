//! What a controller's clauses promise about its results.
ghost use Rattle.std.specs.Prelude.{List};
ghost use Rattle.rdm_log.specs.declared.entry.Opening.{Opening};
ghost use Rattle.rdm_log.specs.declared.entry.Entry.{Entry};
ghost use Rattle.rdm_log.specs.log.Legal.{Legal};
ghost use Rattle.rdm_log.specs.promises.Promised.{LegalPromised};
ghost use Rattle.rdm_queue.specs.body.Describes.{StandsAfter};
ghost use Rattle.rdm_queue.specs.body.State.{QueueState};

/// Each log that describes a controller's state (`StandsAfter`) is legal, so clients have all that they are promised
/// for a legal log. That is everything except the bound on frames, which a clause of `deliver` keeps. A log without
/// entries describes a new controller. The clauses of each call say which block it adds to each log that describes the
/// controller. The longer log then describes it. So a reader of these clauses needs to know only this law about
/// `StandsAfter`.
pub fn controllers_keep_promises()
    ensures legal { (o : Opening) (h : List Entry) (s : QueueState) → StandsAfter o h s → Legal o h }
    ensures promised { (o : Opening) (h : List Entry) (s : QueueState) → StandsAfter o h s → LegalPromised o h }
{}
