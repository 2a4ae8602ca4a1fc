//! Laws of findings, each the contract of a function that does nothing. The definitions are in `specs`.
ghost use Rattle.std.specs.Prelude.{◌≡◌, ◌↔◌, ◌⊎◌, ℕ, ◌<◌, ◌^◌, true, List, None, Some};
ghost use Rattle.std.specs.List.{AllByRecursion};
ghost use Rattle.rdm_wire.specs.Uid.{has, set_of};
ghost use Rattle.rdm_wire.specs.Devices.{uids_of};
ghost use Rattle.rdm_wire.specs.declared.device.Device.{Device};
ghost use Rattle.rdm_wire.specs.Honest.{HonestTrace};
ghost use Rattle.rdm_wire.specs.HonestOver.{HonestOver};
ghost use Rattle.rdm_agent.specs.Run.{acked_in};
ghost use Rattle.rdm_agent.specs.Statements.{IsInEach, IsInOne};
ghost use Rattle.rdm_agent.specs.Certificate.{Certificate, IsCleared, known_of};
ghost use Rattle.rdm_agent.specs.declared.kind.Kind.{Kind};
ghost use Rattle.rdm_explain.specs.declared.exchange.Exchange.{Exchange};
ghost use Rattle.rdm_explain.specs.declared.rule.Breach.{Breach};
ghost use Rattle.rdm_explain.specs.declared.rule.DeviceFinding.{DeviceFinding};
ghost use Rattle.rdm_explain.specs.Exchanges.{seen_all};
ghost use Rattle.rdm_explain.specs.Rules.{AreFirstBreaches, FirstBreach, Followed};
ghost use Rattle.rdm_explain.specs.Covers.{FirstUncovered};
ghost use Rattle.rdm_explain.specs.Strays.{IsStray};
ghost use Rattle.rdm_explain.specs.Garbled.{IsGarbled};
ghost use Rattle.rdm_explain.specs.Certificates.{ExplainsRun, ExplainsKnown, IsComplete, IsKnownComplete};
ghost use Rattle.rdm_explain.specs.declared.certificate.RunFinding.{RunFinding};
ghost use Rattle.rdm_explain.specs.declared.certificate.KnownFinding.{KnownFinding};

/// If the exchanges have the certificate of a set, the set has each device that followed the rules by its finding.
pub fn followers_are_reported()
    ensures certified { (kind : Kind) (known : List ℕ) (xs : List Exchange) (s : List Device)
        (found : List DeviceFinding) →
        Certificate kind known (seen_all xs) s → AreFirstBreaches xs found
        → AllByRecursion (λ (f : DeviceFinding). Followed f → has (uids_of s) f.uid ≡ true) found }
    // The same by the findings about the certificate.
    ensures explained { (kind : Kind) (known : List ℕ) (xs : List Exchange) (s : List Device) (run : RunFinding)
        (names : KnownFinding) (found : List DeviceFinding) →
        ExplainsRun s xs run → IsComplete run → ExplainsKnown (known_of kind known) xs names → IsKnownComplete names
        → AreFirstBreaches xs found
        → AllByRecursion (λ (f : DeviceFinding). Followed f → has (uids_of s) f.uid ≡ true) found }
{}

/// The findings about the parts of a certificate together decide whether the exchanges have it: they have it if and
/// only if no part fails.
pub fn parts_are_the_certificate()
    ensures decided { (kind : Kind) (known : List ℕ) (xs : List Exchange) (s : List Device) (run : RunFinding)
        (names : KnownFinding) → ExplainsRun s xs run → ExplainsKnown (known_of kind known) xs names
        → (IsComplete run × IsKnownComplete names) ↔ Certificate kind known (seen_all xs) s }
    // A part that fails excludes the certificate, whatever was known.
    ensures incomplete { (kind : Kind) (known : List ℕ) (xs : List Exchange) (s : List Device) (run : RunFinding)
        → ExplainsRun s xs run → (IsComplete run → ⊥) → Certificate kind known (seen_all xs) s → ⊥ }
{}

/// If a device broke a rule, the line wasn't honest for any devices among which it is.
pub fn breach_is_not_honest()
    ensures { (u : ℕ) (present : List ℕ) (xs : List Exchange) (b : Breach) → FirstBreach u xs (Some b)
        → has present u ≡ true → HonestTrace present (seen_all xs) → ⊥ }
{}

/// If an exchange is stray for two lists, the line wasn't honest for these devices, nor for any part of them.
pub fn stray_is_not_honest()
    ensures fixed { (us ps present : List ℕ) (xs : List Exchange) (at : ℕ) → IsStray us ps xs at
        → ((u : ℕ) → has present u ≡ true → (has us u ≡ true) ⊎ (has ps u ≡ true))
        → HonestTrace present (seen_all xs) → ⊥ }
    // The same of devices that come and leave, if those of the first list that are ever there stay.
    ensures changing { (us ps : List ℕ) (sets : List (List ℕ)) (xs : List Exchange) (at : ℕ) → IsStray us ps xs at
        → ((u : ℕ) → IsInOne u sets → (has us u ≡ true) ⊎ (has ps u ≡ true))
        → ((u : ℕ) → IsInOne u sets → has us u ≡ true → IsInEach u sets)
        → HonestOver sets (seen_all xs) → ⊥ }
{}

/// If an exchange is garbled, the line wasn't honest for any devices. They needn't be known, and may come and leave.
pub fn garbled_is_not_honest()
    ensures fixed { (present : List ℕ) (xs : List Exchange) (at : ℕ) → IsGarbled xs at
        → HonestTrace present (seen_all xs) → ⊥ }
    ensures changing { (sets : List (List ℕ)) (xs : List Exchange) (at : ℕ) → IsGarbled xs at
        → HonestOver sets (seen_all xs) → ⊥ }
{}

/// If no UID is uncovered, the exchanges have that part of the certificate of the acknowledged UIDs. If one is, they
/// certify no set.
pub fn coverage_is_the_certificates()
    ensures complete { (xs : List Exchange) → FirstUncovered xs None → (u : ℕ) → u < 2 ^ 48
        → (has (set_of (acked_in (seen_all xs))) u ≡ true) ⊎ IsCleared (seen_all xs) u }
    ensures incomplete { (kind : Kind) (known : List ℕ) (xs : List Exchange) (s : List Device) (u : ℕ) →
        FirstUncovered xs (Some u) → Certificate kind known (seen_all xs) s → ⊥ }
{}
