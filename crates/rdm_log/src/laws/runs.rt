//! Logs with discovery runs: some are legal, and the others break one rule each.
ghost use Rattle.std.specs.Prelude.{◌≡◌, [], ◌∷◌, ◌++◌, take, map, Some, None};
ghost use Rattle.rdm_wire.specs.CommandFrames.{unmute_frame};
ghost use Rattle.rdm_join.specs.declared.status.Status.TheVariants.{FailedToSend};
ghost use Rattle.rdm_agent.specs.declared.kind.Kind.TheVariants.{Full, Incremental};
ghost use Rattle.rdm_agent.specs.declared.fault.AgentFault.TheVariants.{LineFailed, Exhausted, Aborted};
ghost use Rattle.rdm_agent.specs.SampleRun.{sample_run, sample_device};
ghost use Rattle.rdm_log.specs.declared.entry.Owner.TheVariants.{Request, Run};
ghost use Rattle.rdm_log.specs.declared.entry.Entry.TheVariants.{Ask, Finish, Answer, Pause, Close};
ghost use Rattle.rdm_log.specs.declared.fault.WorkFault.TheVariants as faults;
ghost use Rattle.rdm_log.specs.log.History.{unanswered, is_idle, reserved};
ghost use Rattle.rdm_log.specs.log.Clients.{outstanding_discoveries, uncollected};
ghost use Rattle.rdm_log.specs.log.Runs.{open_run, unserved, served, run_exchanges, run_devices, run_kind};
ghost use Rattle.rdm_log.specs.log.Runs.{known_devices, devices_run, known_at_run, next_run};
ghost use Rattle.rdm_log.specs.log.Refusals.{ask_fault};
ghost use Rattle.rdm_log.specs.log.MaySend.{MaySend};
ghost use Rattle.rdm_log.specs.log.Legal.{MayFollow, Legal};
ghost use Rattle.rdm_log.specs.promises.Outcomes.{outcome_of};
ghost use Rattle.rdm_log.specs.promises.Outcomes.OutcomeValue.{DiscoveryValue};
ghost use Rattle.rdm_log.specs.samples.Sample.{sample_opening, closed_log};
ghost use Rattle.rdm_log.specs.samples.SampleParts.{wide_opening, came_part};
ghost use Rattle.rdm_log.specs.samples.SampleRuns.{first_client, source, tenth_frame, run_traffic, known_traffic};
ghost use Rattle.rdm_log.specs.samples.SampleRuns.{waiting_log, run_log, answered_first, answered_both, request_sent};
ghost use Rattle.rdm_log.specs.samples.SampleRuns.{asked_one, begun_run, asked_during, failed_run, answered_failed};
ghost use Rattle.rdm_log.specs.samples.SampleRuns.{aborted_log, closed_run, known_opening, second_run};
ghost use Rattle.rdm_log.specs.samples.SampleRuns.{closed_amid, aborted_first, then_unsent, failed_late};
ghost use Rattle.rdm_log.specs.samples.SampleRuns.{came_with, whole_branch};

/// Two discoveries are asked for while sending is paused. One full run of ten frames answers both alike, and then the
/// request that waited goes out. That is legal, and so is a run whose line fails, with a discovery asked for
/// during it that a close answers.
pub fn runs_are_legal()
    ensures found { Legal sample_opening request_sent }
    ensures failed { Legal sample_opening aborted_log }
{}

/// The run's bytes are seen as a run on a line with one device, which is then known.
pub fn runs_are_seen()
    ensures seen { run_exchanges 1 (run_log 10) ≡ sample_run }
    ensures devices { run_devices 1 (run_log 10) ≡ sample_device ∷ [] }
    ensures full { run_kind 1 (run_log 10) ≡ Full }
    ensures serves { map (λ a. a.number) (served 1 (run_log 10)) ≡ 0 ∷ 1 ∷ [] }
    ensures open_ { open_run (run_log 10) ≡ Some 1 }
    ensures still_open { open_run answered_first ≡ None }
    ensures known { known_devices sample_opening answered_first ≡ sample_device ∷ [] }
    ensures devices_run { devices_run sample_opening answered_first ≡ 1 }
    ensures next { next_run sample_opening answered_first ≡ 2 }
    ensures outcome { outcome_of answered_both (Answer 1 1 None)
        ≡ Some (DiscoveryValue (Some 1) (record { run = 1; fault = None; devices = sample_device ∷ [] })) }
    ensures started_from { known_at_run (known_opening 1) 2 (second_run Incremental known_traffic)
        ≡ 0x123400000001 ∷ [] }
{}

/// The counts of logs with discoveries.
pub fn counts_of_discoveries()
    ensures later { map (λ a. a.number) (unserved asked_during) ≡ 1 ∷ [] }
    ensures serves { map (λ a. a.number) (served 1 asked_during) ≡ 0 ∷ [] }
    ensures not_begun { served 2 asked_during ≡ [] }
    ensures left { map (λ a. a.number) (unanswered answered_failed) ≡ 1 ∷ [] }
    ensures outstanding { outstanding_discoveries sample_opening 0 answered_failed ≡ 2 }
    ensures uncollected { uncollected sample_opening 0 answered_failed ≡ Answer 0 1 (Some LineFailed) ∷ [] }
    ensures reserved { reserved sample_opening answered_failed ≡ 4 }
    ensures none_known { known_devices sample_opening aborted_log ≡ [] }
    ensures free { ask_fault sample_opening asked_during 0 ≡ None }
    ensures closed { ask_fault sample_opening closed_log 0 ≡ Some faults.Closed }
    ensures unknown { ask_fault sample_opening asked_during 1 ≡ Some faults.UnknownClient }
    ensures fifth { ask_fault sample_opening (asked_during ++ Ask first_client 2 Full ∷ Ask first_client 3 Full ∷ []) 0
        ≡ Some faults.Full }
{}

/// No run begins between two parts of a request, nor while sending is paused. No frame of a run is sent after its
/// answer. A request waits while a discovery waits for a run. An open run's frames are sent even while sending is
/// paused.
pub fn wrong_run_frames()
    ensures between_parts { MaySend wide_opening (came_part ++ Ask first_client 0 Full ∷ [])
        (Run 1) (record { items = unmute_frame source 1 }) → ⊥ }
    ensures answered { MaySend sample_opening answered_both (Run 1) (record { items = unmute_frame source 10 }) → ⊥ }
    ensures waits { MaySend sample_opening waiting_log (Request 0) (record { items = tenth_frame }) → ⊥ }
    ensures skipped { MaySend sample_opening (answered_both ++ Ask first_client 2 Full ∷ [])
        (Run 3) (record { items = unmute_frame source 10 }) → ⊥ }
    ensures paused { MaySend sample_opening (asked_one ++ Pause ∷ [])
        (Run 1) (record { items = unmute_frame source 0 }) → ⊥ }
    ensures goes_on { MaySend sample_opening (begun_run ++ came_with [] ∷ Pause ∷ [])
        (Run 1) (record { items = unmute_frame source 1 }) }
    // The fourth unmute, a branch in place of the first one, and a frame more than the budget allows.
    ensures fourth { MaySend sample_opening (run_log 3) (Run 1) (record { items = unmute_frame source 3 }) → ⊥ }
    ensures first { MaySend sample_opening asked_one (Run 1) (record { items = whole_branch 0 }) → ⊥ }
    ensures over_budget { MaySend (record sample_opening { budget = 1 }) (begun_run ++ came_with [] ∷ [])
        (Run 1) (record { items = unmute_frame source 1 }) → ⊥ }
{}

/// A discovery asked for during a run isn't served by that run. One that a run serves isn't answered as if none had
/// begun for it, and none is forgotten at a close. Each fault has its cause.
pub fn wrong_discovery_answers()
    ensures asked_during { MayFollow sample_opening answered_failed (Answer 1 1 (Some LineFailed)) → ⊥ }
    ensures aborted { MayFollow sample_opening closed_run (Answer 0 1 (Some Aborted)) }
    ensures never_begun { MayFollow sample_opening closed_run (Answer 0 0 (Some Aborted)) → ⊥ }
    ensures forgotten { Legal sample_opening (asked_one ++ Close ∷ []) → ⊥ }
    ensures unasked { MayFollow sample_opening failed_run (Answer 0 1 (Some Aborted)) → ⊥ }
    ensures no_fault { MayFollow sample_opening failed_run (Answer 0 1 None) → ⊥ }
    ensures failed_before { MayFollow sample_opening failed_late (Answer 0 1 (Some Aborted)) → ⊥ }
    ensures budget_left { MayFollow sample_opening closed_run (Answer 0 1 (Some Exhausted)) → ⊥ }
    // One of two discoveries that a run serves is left, and a run that isn't done yet.
    ensures one_left { Legal sample_opening answered_first → ⊥ }
    ensures too_early { MayFollow sample_opening (run_log 9) (Answer 0 1 None) → ⊥ }
    ensures done { MayFollow sample_opening (run_log 10) (Answer 0 1 None) }
    ensures done_in_vain { MayFollow sample_opening (run_log 10) (Answer 0 1 (Some Exhausted)) → ⊥ }
{}

/// At a close the discoveries of an aborted run are answered first. Then all requests are finished. The
/// discoveries for which no run has begun are answered last.
pub fn order_at_a_close()
    ensures first { MayFollow sample_opening closed_amid (Answer 0 1 (Some Aborted)) }
    ensures then { MayFollow sample_opening aborted_first (Finish 0 FailedToSend 0) }
    ensures last { MayFollow sample_opening then_unsent (Answer 1 0 (Some Aborted)) }
    ensures request_first { MayFollow sample_opening closed_amid (Finish 0 FailedToSend 0) → ⊥ }
    ensures request_last { MayFollow sample_opening aborted_first (Answer 1 0 (Some Aborted)) → ⊥ }
{}

/// A full discovery isn't served by an incremental run. An incremental run doesn't start without devices if one is
/// known.
pub fn wrong_kinds()
    ensures full { MayFollow (known_opening 1) (second_run Full known_traffic) (Answer 0 2 None) → ⊥ }
    ensures from_nothing { MayFollow (known_opening 0) (second_run Incremental run_traffic) (Answer 0 2 None) → ⊥ }
{}
