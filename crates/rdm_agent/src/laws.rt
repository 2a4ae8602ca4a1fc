//! Laws of whole runs, each the contract of a function that does nothing: what a run asks, how it ends, and what it
//! finds on an honest line. [`OpReply`](crate::OpReply) describes the replies. The definitions are in `specs`.
ghost use Rattle.std.specs.Prelude.{◌≡◌, ◌≢◌, ◌≤◌, ◌⊎◌, ◌++◌, ℕ, List, [], ◌∷◌, map, length, true, false, replicate};
ghost use Rattle.std.specs.Prelude.{◌↔◌, ◌+◌, ◌*◌, Option, Some, None};
ghost use Rattle.rdm_wire.specs.Uid.{has, IsDevice};
ghost use Rattle.rdm_wire.specs.Devices.{uids_of};
ghost use Rattle.rdm_wire.specs.declared.device.Device.{Device};
ghost use Rattle.rdm_wire.specs.Honest.{Heard, Seen, HonestTo, HonestTrace, is_acked};
ghost use Rattle.rdm_wire.specs.HonestOver.{HonestOver};
ghost use Rattle.rdm_wire.specs.Honest.Asked.{Mute};
ghost use Rattle.rdm_wire.specs.Honest.Heard.{Failed, Silent, Noise};
ghost use Rattle.rdm_wire.specs.Noisy.{NoisyTo, NoisyTrace, NoisyTraceWith};
ghost use Rattle.rdm_wire.specs.Frames.{asked_in, seen_exchange};
ghost use Rattle.rdm_agent.specs.SampleRun.{sample_uid, sample_device, sample_run, lossy_run};
ghost use Rattle.rdm_agent.specs.SampleRun.{other_uid, other_device, colliding_run, failed_run, garbled_run};
ghost use Rattle.rdm_agent.specs.SampleRun.{absent_uid, incremental_run, swept_run, noisy_run, exchange};
ghost use Rattle.rdm_agent.specs.Machine.{AgentState, fed, fed_all, start, start_by, next_of, fault_of};
ghost use Rattle.rdm_agent.specs.Machine.{open_ranges, Runs};
ghost use Rattle.rdm_agent.specs.Machine.Phase.{Ended};
ghost use Rattle.rdm_agent.specs.Statements.{AsksInOrder, EndsAtFailure, EndsAtBudget, GoesOnSoundly};
ghost use Rattle.rdm_agent.specs.Statements.{HasFewRanges, EndsCertified, FindsAll, FindsEach, FindsNoPhantom};
ghost use Rattle.rdm_agent.specs.Statements.{FindsAcknowledged, CertificateIsTheEnd};
ghost use Rattle.rdm_agent.specs.Statements.{FindsStaying, FindsNoStranger, IsInEach, IsInOne};
ghost use Rattle.rdm_agent.specs.Statements.{FindsAllInNoise, FindsEachInNoise, FindsNoPhantomInNoise};
ghost use Rattle.rdm_agent.specs.declared.limits.TheConstants.{BAD_ANSWERS, DEFAULT_BUDGET, MOST_RANGES, TRIES};
ghost use Rattle.rdm_agent.specs.declared.limits.TheConstants.{UNMUTES};
ghost use Rattle.rdm_agent.specs.declared.kind.Kind.{Kind};
ghost use Rattle.rdm_agent.specs.declared.kind.Kind.TheVariants.{Full, Incremental};
ghost use Rattle.rdm_agent.specs.declared.search.Search.{Search};
ghost use Rattle.rdm_agent.specs.declared.search.Search.TheVariants.{Steady, Quick};
ghost use Rattle.rdm_agent.specs.declared.fault.AgentFault.{AgentFault};
ghost use Rattle.rdm_agent.specs.declared.fault.AgentFault.TheVariants.{Exhausted, LineFailed};
ghost use Rattle.rdm_agent.specs.Run.{acked_in, asked_by, FailureIsLast};
ghost use Rattle.rdm_agent.specs.Calls.{next_op, HasRunBy, AfterEach};
ghost use Rattle.rdm_agent.specs.OpFrames.{op_frame, IsSendable};
ghost use Rattle.rdm_agent.specs.Bound.{most_frames, enough_for, enough_by, IsUndisturbed};
ghost use Rattle.rdm_agent.specs.Bound.{EndsInNoisyBound, IsNoisy};
ghost use Rattle.rdm_agent.specs.Bound.{EndsInBound, EndsInBoundBy, EndsByDefault};
ghost use Rattle.rdm_agent.specs.declared.op.Op.{Op};
ghost use Rattle.rdm_agent.specs.declared.op.Op.TheVariants.{End};
ghost use Rattle.rdm_agent.specs.Certificate.{Certificate, known_of};

/// A run unmutes three times, and then asks for branches and for mutes of devices. It counts its exchanges, and asks
/// nothing after a failure, nor after exchanges that show a corrupt UID, nor once its budget is used up. It has found
/// what was acknowledged, and has at most [`MOST_RANGES`](crate::MOST_RANGES) ranges open. This holds for both
/// searches, for full and incremental runs, for every known set and budget, at any moment, and whatever the line
/// replies.
pub fn run_asks_in_order()
    ensures in_order { (search : Search) → AsksInOrder search }
    ensures ends_at_failure { (search : Search) → EndsAtFailure search }
    ensures ends_at_budget { (search : Search) → EndsAtBudget search }
    ensures goes_on { (search : Search) → GoesOnSoundly search }
    ensures acknowledged { (search : Search) → FindsAcknowledged search }
    ensures few_ranges { (search : Search) → HasFewRanges search }
{}

/// A run that ends without fault has its certificate: each of the 2^48 UIDs is acknowledged, or lies in a range that
/// was branched five times in a row and silent each time. A run with a fault shows that fault's cause. Both report the
/// acknowledged UIDs, or as many as fit into a set. This holds whatever the line replies.
pub fn run_has_certificate()
    ensures { (search : Search) → EndsCertified search }
{}

/// A run has a certificate, of any set, only once it has ended without fault. So a run whose exchanges show everything
/// never has a fault, even if its budget is used up at the very end, or if it is aborted then.
pub fn certificate_is_the_end()
    ensures { (search : Search) → CertificateIsTheEnd search }
{}

/// On an honest line a run that ends without fault finds exactly the devices, whatever bytes result from collisions.
/// If a line is honest to one device, that device is found, whatever the others do.
pub fn honest_run_finds_all()
    ensures all { (search : Search) → FindsAll search }
    ensures each { (search : Search) → FindsEach search }
{}

/// On a noisy line, however many exchanges are disturbed, a run that ends without fault finds exactly the devices. Each
/// device that follows the rules is found, whatever the others do. Only devices are found, whether the run has ended or
/// not, and whatever its fault.
pub fn noisy_run_finds_all()
    ensures all { (search : Search) → FindsAllInNoise search }
    ensures each { (search : Search) → FindsEachInNoise search }
    ensures no_phantom { (search : Search) → FindsNoPhantomInNoise search }
{}

/// On an honest line whose devices come and leave, a run that ends without fault finds each device that was present at
/// every exchange. No run finds one that was present at none, whether it has ended or not, and whatever its fault. We
/// don't promise that it finds a device that came during the run.
pub fn changing_devices()
    ensures staying { (search : Search) → FindsStaying search }
    ensures no_stranger { (search : Search) → FindsNoStranger search }
{}

/// On an honest line only devices are found, whether a run has ended or not, and whatever its fault.
pub fn no_phantom()
    ensures { (search : Search) → FindsNoPhantom search }
{}

/// The bound: a run makes at most `8 + 370 n + 5 k` exchanges, where `n` devices are on the line and `k` UIDs are known
/// (0 in a full run). Once it has made as many it has ended. At its end it has no fault, whatever bytes result from
/// collisions. The conditions are these:
/// - the line is honest, and has at most 1,024 devices;
/// - no exchange failed;
/// - the run's budget is no less than the bound.
///
/// For a quick search the same holds with `213 + 370 n + 5 k` exchanges.
pub fn honest_run_ends()
    ensures steady { EndsInBound }
    ensures quick { EndsInBoundBy Quick }
{}

/// The same for a quick run on a noisy line. `w` of its exchanges are disturbed, and never more than seven branches in
/// a row. It makes at most `213 + 370 n + 5 k + 15 w` exchanges, and ends without fault if its budget is no less.
pub fn noisy_run_ends()
    ensures { EndsInNoisyBound }
{}

/// The default budget suffices for each such run of the steady search, with up to 1,024 devices and as many known UIDs.
/// For a quick one it suffices if and only if `370 n + 5 k` is at most 383,795. Examples are 1,023 devices with 1,024
/// known UIDs, and 1,024 devices with 983 known UIDs.
pub fn default_budget_suffices()
    ensures most { (present known : List ℕ) (kind : Kind) →
        length present ≤ 1024 → length known ≤ 1024 → enough_for present kind known ≤ DEFAULT_BUDGET }
    ensures ends { EndsByDefault }
    ensures quick { (present known : List ℕ) (kind : Kind) → (enough_by Quick present kind known ≤ DEFAULT_BUDGET)
        ↔ (370 * length present + 5 * length (known_of kind known) ≤ 383795) }
    ensures quick_sizes { (present known : List ℕ) (kind : Kind) → length present ≤ 1024 → length known ≤ 1024
        → (length present ≤ 1023) ⊎ (length (known_of kind known) ≤ 983)
        → enough_by Quick present kind known ≤ DEFAULT_BUDGET }
{}

/// The same for any list of exchanges, whoever asked. On an honest line a certificate's set is that of the devices, and
/// only devices are acknowledged. If devices come and leave, a certificate's set has each that was always present, and
/// only devices that were present at some exchange are acknowledged.
pub fn honest_certificate()
    // A device to which the line was honest is found, whatever the others do.
    ensures found { (kind : Kind) (known : List ℕ) (x : List Seen) (s : List Device) (u : ℕ) →
        IsDevice u → Certificate kind known x s → HonestTo u x → has (uids_of s) u ≡ true }
    ensures devices { (kind : Kind) (known : List ℕ) (x : List Seen) (s : List Device) (present : List ℕ) →
        Certificate kind known x s → HonestTrace present x → uids_of s ≡ present }
    ensures no_phantom { (present : List ℕ) (x : List Seen) (u : ℕ) →
        FailureIsLast x → HonestTrace present x → has (acked_in x) u ≡ true → has present u ≡ true }
    ensures staying { (kind : Kind) (known : List ℕ) (x : List Seen) (s : List Device) (sets : List (List ℕ)) (u : ℕ) →
        Certificate kind known x s → HonestOver sets x → IsInEach u sets → has (uids_of s) u ≡ true }
    ensures no_stranger { (sets : List (List ℕ)) (x : List Seen) (u : ℕ) →
        FailureIsLast x → HonestOver sets x → has (acked_in x) u ≡ true → IsInOne u sets }
{}

/// The same on a noisy line: a certificate's set is that of the devices, and only devices are acknowledged.
pub fn noisy_certificate()
    // A device that follows the rules is found, whatever the others do.
    ensures found { (kind : Kind) (known : List ℕ) (x : List Seen) (s : List Device) (u : ℕ) →
        IsDevice u → Certificate kind known x s → NoisyTo u x → has (uids_of s) u ≡ true }
    ensures devices { (kind : Kind) (known : List ℕ) (x : List Seen) (s : List Device) (present : List ℕ) →
        Certificate kind known x s → NoisyTrace present x → uids_of s ≡ present }
    ensures no_phantom { (present : List ℕ) (x : List Seen) (u : ℕ) →
        FailureIsLast x → NoisyTrace present x → has (acked_in x) u ≡ true → has present u ≡ true }
{}

/// Whole runs: on an empty line, on a line that answers each branch with one byte, and with budgets of 8, 7 and 0.
pub fn worked_runs()
    ensures empty { fed_all (start Full [] DEFAULT_BUDGET) (replicate 8 Silent)
        ≡ (record {
          budget = DEFAULT_BUDGET;
          frames = 8;
          search = Steady;
          found = [];
          apart = [];
          more = false;
          phase = Ended None;
        }) }
    ensures corrupt { fed_all (start Full [] DEFAULT_BUDGET) (replicate 3 Silent ++ replicate 49 Noise) ≡ (record {
      budget = DEFAULT_BUDGET;
      frames = 52;
      search = Steady;
      found = [];
      apart = [];
      more = false;
      phase = Ended (Some (AgentFault.Corrupt 0));
    }) }
    ensures in_budget { (fed_all (start Full [] 8) (replicate 8 Silent)).phase ≡ Ended None }
    ensures exhausted { next_of (fed_all (start Full [] 7) (replicate 7 Silent)) ≡ None }
    ensures exhausted_fault { fault_of (fed_all (start Full [] 7) (replicate 7 Silent)).phase ≡ Some Exhausted }
    ensures none { next_of (start Full [] 0) ≡ None }
    ensures none_fault { fault_of (start Full [] 0).phase ≡ Some Exhausted }
    ensures whole_first { open_ranges (start Full [] DEFAULT_BUDGET).phase ≡ 1 }
    ensures deepest { open_ranges
        (fed_all (start Full [] DEFAULT_BUDGET) (replicate 3 Silent ++ replicate 48 Noise)).phase ≡ 49 }
{}

/// Ten exchanges with one device, on an honest line. They have the certificate of its set. A run makes them and ends.
pub fn honest_run()
    ensures honest { HonestTrace (sample_uid ∷ []) sample_run }
    ensures certified { Certificate Full [] sample_run (sample_device ∷ []) }
    ensures ends { Runs (start Full [] DEFAULT_BUDGET) sample_run (record {
      budget = DEFAULT_BUDGET;
      frames = 10;
      search = Steady;
      found = sample_device ∷ [];
      apart = [];
      more = false;
      phase = Ended None;
    }) }
{}

/// An incremental run that knows a device and a UID that isn't there any more. The first acknowledgement is lost, and
/// the known device is muted again; five mutes find the other UID absent; the search finds a new device.
pub fn incremental_sample()
    ensures honest { HonestTrace (sample_uid ∷ other_uid ∷ []) incremental_run }
    ensures certified { Certificate Incremental (sample_uid ∷ absent_uid ∷ []) incremental_run
        (sample_device ∷ other_device ∷ []) }
    ensures ends { Runs (start Incremental (sample_uid ∷ absent_uid ∷ []) DEFAULT_BUDGET) incremental_run (record {
      budget = DEFAULT_BUDGET;
      frames = 17;
      search = Steady;
      found = sample_device ∷ other_device ∷ [];
      apart = [];
      more = false;
      phase = Ended None;
    }) }
{}

/// The ten exchanges of [`honest_run`] are those of such a run, so the law on the bound isn't empty. The bound is 378
/// exchanges with one device, and 378,888 with 1,024 devices.
pub fn undisturbed_run()
    ensures undisturbed { IsUndisturbed (sample_uid ∷ [])
        (record { search = Steady; kind = Full; known = []; budget = 378; aborted = false; exchanges = sample_run }) }
    ensures ends { Runs (start Full [] 378) sample_run (record {
      budget = 378;
      frames = 10;
      search = Steady;
      found = sample_device ∷ [];
      apart = [];
      more = false;
      phase = Ended None;
    }) }
    ensures one_device { most_frames 1 0 ≡ 378 }
    ensures most_devices { most_frames 1024 0 ≡ 378888 }
{}

/// An honest line loses up to four replies in a row, of branches and of mutes, and the device is found; a line
/// that loses five isn't honest.
pub fn honest_losses()
    ensures up_to_four { (branches mutes : ℕ) →
        branches ≤ 4 → mutes ≤ 4 → HonestTrace (sample_uid ∷ []) (lossy_run branches mutes) }
    ensures found { fed_all (start Full [] DEFAULT_BUDGET) (map (λ e. e.heard) (lossy_run 4 4)) ≡ (record {
      budget = DEFAULT_BUDGET;
      frames = 18;
      search = Steady;
      found = sample_device ∷ [];
      apart = [];
      more = false;
      phase = Ended None;
    }) }
    ensures five_branches { ¬ HonestTrace (sample_uid ∷ []) (lossy_run 5 0) }
    ensures five_mutes { ¬ HonestTrace (sample_uid ∷ []) (lossy_run 0 5) }
{}

/// A run on a noisy line, three of whose exchanges are disturbed: it finds the device. But no line is noisy that loses
/// five replies to branches in a row, or five acknowledgements, whether bytes came in their place or not.
pub fn noisy_run()
    ensures noisy { NoisyTraceWith (sample_uid ∷ []) 3 noisy_run }
    ensures calm { IsNoisy (sample_uid ∷ []) 3 noisy_run }
    ensures found { Runs (start Full [] DEFAULT_BUDGET) noisy_run (record {
      budget = DEFAULT_BUDGET;
      frames = 23;
      search = Steady;
      found = sample_device ∷ [];
      apart = [];
      more = false;
      phase = Ended None;
    }) }
    ensures five_branches { ¬ NoisyTrace (sample_uid ∷ []) (lossy_run 5 0) }
    ensures five_mutes { (heard : Heard) → heard ≢ Failed → is_acked heard ≡ false
        → ¬ NoisyTrace (sample_uid ∷ []) (replicate 5 (exchange (Mute sample_uid) heard)) }
{}

/// Two devices that collide on an honest line are found. A line that fails is honest up to its failure. A line may be
/// honest to only one device.
pub fn honest_lines()
    ensures colliding { HonestTrace (sample_uid ∷ other_uid ∷ []) colliding_run }
    ensures both_found { Runs (start Full [] DEFAULT_BUDGET) colliding_run (record {
      budget = DEFAULT_BUDGET;
      frames = 18;
      search = Steady;
      found = sample_device ∷ other_device ∷ [];
      apart = [];
      more = false;
      phase = Ended None;
    }) }
    ensures failing { HonestTrace (sample_uid ∷ []) failed_run }
    ensures failed { Runs (start Full [] DEFAULT_BUDGET) failed_run (record {
      budget = DEFAULT_BUDGET;
      frames = 4;
      search = Steady;
      found = [];
      apart = [];
      more = false;
      phase = Ended (Some LineFailed);
    }) }
    ensures to_one { HonestTo sample_uid garbled_run }
    ensures to_no_set { (present : List ℕ) → ¬ HonestTrace present garbled_run }
{}

/// Quick searches. The first silence of an empty line is one of the five. The line of [`honest_run`] takes ten
/// exchanges, as with the steady search. Two devices that collide take 13, and 18 with the steady search. On a line
/// that answers each branch with one byte the sweep sets UIDs apart and reaches its limit of 320 exchanges, and the
/// steady search after it finds UID 0 corrupt.
pub fn quick_runs()
    ensures empty { fed_all (start_by Quick Full [] DEFAULT_BUDGET) (replicate 8 Silent)
        ≡ (record {
          budget = DEFAULT_BUDGET;
          frames = 8;
          search = Quick;
          found = [];
          apart = [];
          more = false;
          phase = Ended None;
        }) }
    ensures one { Runs (start_by Quick Full [] DEFAULT_BUDGET) sample_run (record {
      budget = DEFAULT_BUDGET;
      frames = 10;
      search = Quick;
      found = sample_device ∷ [];
      apart = [];
      more = false;
      phase = Ended None;
    }) }
    ensures honest { HonestTrace (sample_uid ∷ other_uid ∷ []) swept_run }
    ensures two { Runs (start_by Quick Full [] DEFAULT_BUDGET) swept_run (record {
      budget = DEFAULT_BUDGET;
      frames = 13;
      search = Quick;
      found = sample_device ∷ other_device ∷ [];
      apart = [];
      more = false;
      phase = Ended None;
    }) }
    ensures corrupt { (fed_all (start_by Quick Full [] DEFAULT_BUDGET)
        (replicate 3 Silent ++ replicate 472 Noise)).phase ≡ Ended (Some (AgentFault.Corrupt 0)) }
{}

/// The constants of the profile.
pub fn limits_are()
    ensures unmutes { UNMUTES ≡ 3 }
    ensures tries { TRIES ≡ 5 }
    ensures bad_answers { BAD_ANSWERS ≡ 8 }
    ensures ranges { MOST_RANGES ≡ 49 }
    ensures budget { DEFAULT_BUDGET ≡ 384008 }
{}

/// The frame of an operation asks what the operation asks. If an agent takes what was heard after that frame, its run
/// has made that exchange. So what holds for runs holds for the frames and bytes of a log. With
/// [`Op::read_reply`](crate::Op::read_reply) the agent takes the same.
pub fn frames_carry_operations()
    ensures asked { (op : Op) (s tn : ℕ) → op ≢ End → IsSendable op s tn → asked_in (op_frame op s tn) ≡ asked_by op }
    ensures goes_on { (a : AgentState) (s tn : ℕ) (answer : Option (List ℕ)) →
        next_op a ≢ End → IsSendable (next_op a) s tn → AfterEach a (λ run.
        let exchange = seen_exchange (op_frame (next_op a) s tn) answer in
        let exchanges = run.exchanges ++ exchange ∷ [] in
        HasRunBy run.search run.kind run.known run.budget false exchanges (fed a exchange.heard)) }
{}
