//! Logs that break what clients are promised, each in one way: none is legal.
ghost use Rattle.std.specs.Prelude.{[], ◌∷◌, ◌++◌, Some};
ghost use Rattle.rdm_join.specs.declared.status.Status.TheVariants.{Completed, FailedToSend, Timeout, NoMemory};
ghost use Rattle.rdm_log.specs.declared.entry.Call.TheVariants.{Submit};
ghost use Rattle.rdm_log.specs.declared.entry.Owner.TheVariants.{Request};
ghost use Rattle.rdm_log.specs.declared.entry.Entry.TheVariants.{Refuse, Accept, Finish, Collect, Pause, Close};
ghost use Rattle.rdm_log.specs.log.MaySend.{MaySend};
ghost use Rattle.rdm_log.specs.log.Legal.{MayFollow, Legal};
ghost use Rattle.rdm_log.specs.samples.Sample.{sample_opening, sample_request, sample_frame, join_only};
ghost use Rattle.rdm_log.specs.samples.Sample.{accepted_one, accepted_two, sent_one, came_one, finished_one};
ghost use Rattle.rdm_log.specs.samples.Sample.{closed_log, closed_two};
ghost use Rattle.rdm_log.specs.samples.SampleParts.{wide_opening, second_frame, came_part, came_again, two_clients};

/// A request isn't finished twice, nor left without a result, nor is one finished that wasn't accepted.
pub fn wrong_results()
    ensures twice { MayFollow sample_opening finished_one (Finish 0 Timeout 0) → ⊥ }
    ensures never { Legal sample_opening (accepted_one ++ Close ∷ []) → ⊥ }
    ensures late { Legal sample_opening came_one → ⊥ }
    ensures not_accepted { MayFollow sample_opening (join_only ++ Close ∷ []) (Finish 0 FailedToSend 0) → ⊥ }
{}

/// A request that was answered by silence isn't finished as if it had been answered, nor with data, nor with NoMemory.
/// One that wasn't sent isn't finished before a close.
pub fn wrong_answers()
    ensures status { MayFollow sample_opening came_one (Finish 0 Completed 0) → ⊥ }
    ensures length { MayFollow sample_opening came_one (Finish 0 Timeout 1) → ⊥ }
    ensures memory { MayFollow sample_opening came_one (Finish 0 NoMemory 0) → ⊥ }
    ensures unsent { MayFollow sample_opening accepted_one (Finish 0 FailedToSend 0) → ⊥ }
    // Closed, but its reply is awaited.
    ensures awaited { MayFollow sample_opening (sent_one ++ Close ∷ []) (Finish 0 FailedToSend 0) → ⊥ }
{}

/// A request that was answered in two parts is finished with both, not with only the last one, nor after the first.
pub fn wrong_parts()
    ensures both { MayFollow wide_opening came_again (Finish 0 Completed 3) }
    ensures last_alone { MayFollow wide_opening came_again (Finish 0 Completed 1) → ⊥ }
    ensures first_alone { MayFollow wide_opening came_part (Finish 0 Completed 2) → ⊥ }
{}

/// Between two parts the same request is sent again, with the next transaction number, and no other one. Nothing is
/// sent while sending is paused.
pub fn wrong_frames()
    ensures same { MaySend wide_opening came_part (Request 0) (record { items = second_frame }) }
    ensures other { MaySend wide_opening came_part (Request 1) (record { items = second_frame }) → ⊥ }
    ensures number { MaySend wide_opening came_part (Request 0) (record { items = sample_frame }) → ⊥ }
    ensures skipped { MaySend wide_opening accepted_two (Request 0) (record { items = second_frame }) → ⊥ }
    ensures paused { MaySend sample_opening (accepted_one ++ Pause ∷ []) (Request 0) (record { items = sample_frame })
        → ⊥ }
{}

/// A client collects its own outcomes, not another's.
pub fn wrong_collector()
    ensures own { MayFollow wide_opening two_clients (Collect (record { 0 = 0 })) }
    ensures other { MayFollow wide_opening two_clients (Collect (record { 0 = 1 })) → ⊥ }
{}

/// Of two requests the first is finished first, and numbers aren't left out.
pub fn wrong_order()
    ensures first { MayFollow sample_opening closed_two (Finish 0 FailedToSend 0) }
    ensures second { MayFollow sample_opening closed_two (Finish 1 FailedToSend 0) → ⊥ }
    ensures number { MayFollow sample_opening join_only (Accept (record { 0 = 0 }) 1 sample_request) → ⊥ }
{}

/// A client with queue depth 1 has no second request accepted, and isn't refused as full while it has none outstanding.
pub fn wrong_refusals()
    ensures accepted { MayFollow sample_opening accepted_one (Accept (record { 0 = 0 }) 1 sample_request) → ⊥ }
    ensures refused { MayFollow sample_opening accepted_one
        (Refuse (Some (record { 0 = 0 })) (Submit sample_request) (record { 0 = 3 })) }
    // The queue is closed, which is tested before an unknown client.
    ensures first_fault { MayFollow sample_opening closed_log
        (Refuse (Some (record { 0 = 1 })) (Submit sample_request) (record { 0 = 1 })) }
    ensures second_fault { MayFollow sample_opening closed_log
        (Refuse (Some (record { 0 = 1 })) (Submit sample_request) (record { 0 = 2 })) → ⊥ }
    ensures free { MayFollow sample_opening join_only
        (Refuse (Some (record { 0 = 0 })) (Submit sample_request) (record { 0 = 3 })) → ⊥ }
{}

/// After a close no frame is sent, even if a request waits, and no request is accepted.
pub fn wrong_after_a_close()
    ensures waits { MaySend sample_opening accepted_one (Request 0) (record { items = sample_frame }) }
    ensures sent { MaySend sample_opening (accepted_one ++ Close ∷ []) (Request 0) (record { items = sample_frame })
        → ⊥ }
    ensures accepted { MayFollow sample_opening closed_log (Accept (record { 0 = 0 }) 1 sample_request) → ⊥ }
{}
