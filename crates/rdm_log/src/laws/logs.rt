//! Laws of logs, and a sample log that is legal.
ghost use Rattle.std.specs.Prelude.{◌≡◌, ◌↔◌, ℕ, List, [], ◌∷◌, ◌++◌, Some, None, true, false};
ghost use Rattle.arrayvec.specs.ArrayVec.{ArrayVec};
ghost use Rattle.rdm_wire.specs.Lists.{EachAfter};
ghost use Rattle.rdm_join.specs.Result.{ended};
ghost use Rattle.rdm_join.specs.declared.status.Status.TheVariants.{Completed, Timeout};
ghost use Rattle.rdm_log.specs.declared.entry.Call.TheVariants as calls;
ghost use Rattle.rdm_log.specs.declared.entry.Opening.{Opening};
ghost use Rattle.rdm_log.specs.declared.entry.Entry.{Entry};
ghost use Rattle.rdm_log.specs.declared.entry.Entry.TheVariants.{Finish, Send};
ghost use Rattle.rdm_log.specs.declared.entry.Owner.{Owner};
ghost use Rattle.rdm_log.specs.declared.fault.JoinFault.TheVariants as join_faults;
ghost use Rattle.rdm_log.specs.declared.fault.WorkFault.TheVariants as faults;
ghost use Rattle.rdm_log.specs.log.History.{awaited, free_room};
ghost use Rattle.rdm_log.specs.declared.broken.AnswerKey.{AnswerKey};
ghost use Rattle.rdm_log.specs.log.BrokenKeys.{BrokenKeys, same_key, is_open, with_open, with_closed};
ghost use Rattle.rdm_log.specs.log.Broken.{may_be_incomplete};
ghost use Rattle.rdm_log.specs.log.Clients.{uncollected, outstanding_requests};
ghost use Rattle.rdm_log.specs.log.Refusals.{join_fault, submit_fault, IsRefused};
ghost use Rattle.rdm_log.specs.log.MaySend.{NoSend};
ghost use Rattle.rdm_log.specs.log.Legal.{MayFollow, Legal};
ghost use Rattle.rdm_log.specs.promises.Outcomes.{told, outcome_of};
ghost use Rattle.rdm_log.specs.promises.Outcomes.OutcomeValue.{RequestValue};
ghost use Rattle.rdm_log.specs.samples.Sample.{sample_opening, join_only, accepted_one, sent_one, finished_one};
ghost use Rattle.rdm_log.specs.samples.Sample.{closed_log};
ghost use Rattle.rdm_log.specs.samples.SampleParts.{wide_opening};
ghost use Rattle.rdm_log.specs.samples.SampleBroken.{asked_again};

/// In some logs each entry may follow those before it. This stays true with one more entry that may follow, and it is
/// true of each prefix of such a log.
pub fn log_grows()
    ensures pushed { (o : Opening) (h : List Entry) (e : Entry) → EachAfter (MayFollow o) h → MayFollow o h e
        → EachAfter (MayFollow o) (h ++ e ∷ []) }
    ensures front { (o : Opening) (h more : List Entry) → EachAfter (MayFollow o) (h ++ more)
        → EachAfter (MayFollow o) h }
    ensures empty { (o : Opening) → Legal o [] }
{}

/// After a legal log, no frame may be sent if and only if no Send keeps the log legal.
pub fn no_send_is_no_legal_send()
    ensures { (o : Opening) (h : List Entry) → Legal o h
        → NoSend o h ↔ ((owner : Owner) (frame : ArrayVec ℕ) → Legal o (h ++ Send owner frame ∷ []) → ⊥) }
{}

/// A whole log is legal: a join, a request, its frame, silence, its Finish, a Collect, a Close.
#[tactic(auto, using(crate::proofs::SampleLemmas::SampleLegal::sample))]
pub fn sample_is_legal()
    ensures { Legal sample_opening closed_log }
{}

/// The counts of a log.
pub fn counts_of_a_log()
    ensures waits { awaited sent_one ≡ true }
    ensures collected { uncollected sample_opening 0 closed_log ≡ [] }
    ensures outstanding { outstanding_requests sample_opening 0 finished_one ≡ 1 }
    ensures settled { outstanding_requests sample_opening 0 closed_log ≡ 0 }
    ensures told { told sample_opening 0 closed_log ≡ Finish 0 Timeout 0 ∷ [] }
    ensures outcome { outcome_of closed_log (Finish 0 Timeout 0) ≡ Some (RequestValue (Some 0) (ended Timeout)) }
{}

/// A key that is opened is open, and one that is closed isn't. Each other that was open still is.
pub fn open_keys_stay()
    ensures opened { (key : AnswerKey) (b : BrokenKeys) → is_open (with_open key b) key ≡ true }
    ensures closed { (key : AnswerKey) (b : BrokenKeys) → is_open (with_closed key b) key ≡ false }
    ensures stays { (k key : AnswerKey) (b : BrokenKeys) → is_open b k ≡ true → is_open (with_open key b) k ≡ true }
    ensures stays_too { (k key : AnswerKey) (b : BrokenKeys) → same_key key k ≡ false → is_open b k ≡ true
        → is_open (with_closed key b) k ≡ true }
{}

/// A client's answer breaks off. The next client to ask the same gets only the last part, and is told so. Whoever asks
/// then isn't.
pub fn broken_answers_are_flagged()
    ensures lost { may_be_incomplete wide_opening asked_again (Finish 0 Timeout 0) ≡ false }
    ensures rest { may_be_incomplete wide_opening asked_again (Finish 1 Completed 1) ≡ true }
    ensures again { may_be_incomplete wide_opening asked_again (Finish 2 Completed 1) ≡ false }
{}

/// The first fault that applies, in order.
pub fn faults_in_order()
    ensures join_goes { join_fault sample_opening [] 1 ≡ None }
    ensures no_places { join_fault sample_opening accepted_one 1 ≡ Some join_faults.NoPlaces }
    ensures no_memory { IsRefused sample_opening [] None (calls.Join 1) 4 }
    ensures closed_first { join_fault sample_opening closed_log 1 ≡ Some join_faults.Closed }
    ensures full { submit_fault sample_opening accepted_one 0 ≡ Some faults.Full }
    ensures still_full { submit_fault sample_opening finished_one 0 ≡ Some faults.Full }
    ensures unknown { submit_fault sample_opening accepted_one 1 ≡ Some faults.UnknownClient }
    ensures closed { submit_fault sample_opening closed_log 1 ≡ Some faults.Closed }
{}

/// The free entries of logs with capacity for eleven entries, and for four.
pub fn rooms()
    ensures accepted { free_room 11 sample_opening accepted_one ≡ 6 }
    ensures finished { free_room 11 sample_opening finished_one ≡ 4 }
    ensures closed { free_room 11 sample_opening closed_log ≡ 4 }
    ensures three { free_room 4 sample_opening [] ≡ 3 }
    ensures two { free_room 4 sample_opening join_only ≡ 2 }
{}
