//! Answers that a log explains, and answers that no log explains.
ghost use Rattle.std.specs.Prelude.{◌≡◌, ℕ, List, [], ◌∷◌, ◌++◌, Ok, Err, Some, None, slice_get};
ghost use Rattle.std.specs.Global.{Vec, Box};
ghost use Rattle.rdm_wire.specs.declared.device.Device.{Device};
ghost use Rattle.rdm_log.specs.declared.fault.LogFull.{LogFull};
ghost use Rattle.rdm_join.specs.declared.event.LineEvent.TheVariants.{Reply};
ghost use Rattle.rdm_agent.specs.declared.kind.Kind.TheVariants.{Full};
ghost use Rattle.rdm_agent.specs.declared.fault.AgentFault.TheVariants.{Exhausted};
ghost use Rattle.rdm_log.specs.declared.entry.Entry.TheVariants as entries;
ghost use Rattle.rdm_log.specs.declared.fault.WorkFault.TheVariants as faults;
ghost use Rattle.rdm_log.specs.declared.event.Event.{Event};
ghost use Rattle.rdm_log.specs.declared.event.Event.TheVariants as events;
ghost use Rattle.rdm_log.specs.declared.event.Answer.{Answer};
ghost use Rattle.rdm_log.specs.declared.event.Answer.TheVariants as answers;
ghost use Rattle.rdm_log.specs.log.LogState.{LogState};
ghost use Rattle.rdm_log.specs.promises.InBound.{IsCalmRun};
ghost use Rattle.rdm_log.specs.promises.Explains.{Explains};
ghost use Rattle.rdm_log.specs.promises.EventsHeadline.{AnsweredAt};
ghost use Rattle.rdm_join.specs.Result.{result_of};
ghost use Rattle.rdm_log.specs.log.Entries.{verdicts};
ghost use Rattle.rdm_log.specs.log.Legal.{Legal};
ghost use Rattle.rdm_log.specs.samples.SampleParts.{wide_opening, joined_log, joined_parts};
ghost use Rattle.rdm_log.specs.samples.Sample.{sample_request, join_only, accepted_one, finished_one, closed_log};
ghost use Rattle.rdm_log.specs.samples.Sample.{logged_with, sample_events, sample_answers};
ghost use Rattle.rdm_log.specs.samples.SampleRuns.{asked_one, failing_events, failing_answers, collected_failed};
ghost use Rattle.rdm_log.specs.samples.SampleRuns.{first_client, aborted_log};
ghost use Rattle.rdm_log.specs.samples.SampleRuns.{wasted_opening, wasted_with, wasted_sent, wasted_run};

/// A whole log explains the answers to its events: a join, a submit, a take, a deliver, a collect, a close.
pub fn sample_is_explained()
    ensures { (none : Vec ℕ) → none.items ≡ []
        → Explains (logged_with []) sample_events (sample_answers none) (logged_with closed_log) }
{}

/// A log with a run explains the answers to its events: a discover, the run's first frame, a discover during the run,
/// a failure of the line, a close, a collect for which there is no memory, and another that returns the outcome.
pub fn failing_run_is_explained()
    ensures { (set : Box (List Device)) → set.value ≡ []
        → Explains (logged_with []) failing_events (failing_answers set) (logged_with collected_failed) }
{}

/// If a log explains the answers to a list of events, it explains each of them at its index.
#[tactic(auto, using(crate::proofs::PromiseLemmas::ExplainsLemmas::answered_at))]
pub fn each_event_is_answered()
    ensures { (old : LogState) (es : List Event) (rs : List Answer) (new : LogState) → Explains old es rs new
        → (i : ℕ) (event : Event) (answer : Answer) → slice_get es i ≡ Some event → slice_get rs i ≡ Some answer
        → AnsweredAt old es rs new i event answer }
{}

/// No log explains these answers.
pub fn not_explained()
    // A submit is refused as full while the client has nothing outstanding, or with LogFull while the log isn't full.
    ensures full { (new : LogState) → Explains (logged_with join_only)
        (events.Submit (record { 0 = 0 }) sample_request ∷ [])
        (answers.Submit (Err (faults.Full, sample_request)) ∷ []) new → ⊥ }
    ensures log_full { (new : LogState) → Explains (logged_with join_only)
        (events.Submit (record { 0 = 0 }) sample_request ∷ [])
        (answers.Submit (Err (faults.LogFull, sample_request)) ∷ []) new → ⊥ }
    // A discover is refused as full while the client has one outstanding.
    ensures discovery { (new : LogState) → Explains (logged_with asked_one)
        (events.Discover (record { 0 = 0 }) Full ∷ []) (answers.Discover (Err faults.Full) ∷ []) new → ⊥ }
    // A request or a discovery waits, but no frame is returned for it, or LogFull is.
    ensures no_frame { (new : LogState)
        → Explains (logged_with accepted_one) (events.Take ∷ []) (answers.Take (Ok None) ∷ []) new → ⊥ }
    ensures no_run { (new : LogState)
        → Explains (logged_with asked_one) (events.Take ∷ []) (answers.Take (Ok None) ∷ []) new → ⊥ }
    ensures no_room { (new : LogState)
        → Explains (logged_with accepted_one) (events.Take ∷ []) (answers.Take (Err (record {})) ∷ []) new → ⊥ }
    // NoMemory is returned for a request's outcome, or a discovery's outcome is gone after NoMemory.
    ensures request { (new : LogState) → Explains (logged_with finished_one)
        (events.Collect first_client ∷ []) (answers.Collect (Err (record {})) ∷ []) new → ⊥ }
    ensures lost { Explains (logged_with aborted_log) (events.Collect first_client ∷ [])
        (answers.Collect (Err (record {})) ∷ []) (logged_with collected_failed) → ⊥ }
    // An event without an answer, an answer without its entry, and answers in another order.
    ensures left_out { (new : LogState)
        → Explains (logged_with []) (events.Pause ∷ events.Resume ∷ []) (answers.Pause (Ok tt) ∷ []) new → ⊥ }
    ensures no_entry { Explains (logged_with []) (events.Pause ∷ []) (answers.Pause (Ok tt) ∷ []) (logged_with []) → ⊥ }
    ensures exchanged { (new : LogState) → Explains (logged_with [])
        (events.Pause ∷ events.Close ∷ []) (answers.Close ∷ answers.Pause (Ok tt) ∷ []) new → ⊥ }
{}

/// A line without devices is calm, and eight frames suffice for a run. So no log explains that the reply to a run's
/// eighth frame is followed by its Answer with Exhausted, if the queue isn't closed.
pub fn wasted_run_is_not_explained()
    ensures calm { IsCalmRun (wasted_with wasted_run) 1 [] }
    ensures fault { Explains (wasted_with wasted_sent) (events.Deliver (Reply (record { items = [] })) ∷ [])
        (answers.Deliver (Ok tt) ∷ []) (wasted_with (wasted_run ++ entries.Answer 0 1 (Some Exhausted) ∷ [])) → ⊥ }
{}

/// A whole log whose request is answered in two parts is legal, and joins them.
pub fn parts_are_joined()
    ensures legal { Legal wide_opening joined_log }
    ensures joined { result_of (verdicts 0 joined_log) ≡ Some joined_parts }
{}
