//! What clients are promised about discoveries: laws about each legal log.
ghost use Rattle.std.specs.Prelude.{ℕ, List, Option};
ghost use Rattle.rdm_log.specs.declared.entry.Opening.{Opening};
ghost use Rattle.rdm_log.specs.declared.entry.Entry.{Entry};
ghost use Rattle.rdm_log.specs.log.Legal.{Legal};
ghost use Rattle.rdm_log.specs.promises.Discoveries.{OneAnswer, AnsweredInOrder, AnswersReportTheLine, RunsAnswer};
ghost use Rattle.rdm_log.specs.promises.Discoveries.{AnswersReportANoisyLine};
ghost use Rattle.rdm_log.specs.promises.EventsHeadline.{IsOwnReport, ReportsANoisyLine};
ghost use Rattle.rdm_log.specs.promises.Outcomes.{Discovered};
ghost use Rattle.rdm_log.specs.promises.Discoveries.{OwnDiscoveries, FullRefusesDiscoveries, DiscoveriesPromised};

/// Each discovery that is asked for has exactly one answer: never two, and one once the queue is closed and no reply is
/// awaited.
#[tactic(auto, using(crate::proofs::PromiseLemmas::OneResult::one_answer))]
pub fn exactly_one_answer()
    ensures { (o : Opening) (h : List Entry) → Legal o h → OneAnswer o h }
{}

/// First in, first out: discoveries are answered in the order in which they were asked, over all clients and for each.
pub fn first_asked_first_answered()
    ensures { (o : Opening) (h : List Entry) → Legal o h → AnsweredInOrder o h }
{}

/// A discovery that ends without fault on an honest line reports exactly the devices present, whatever bytes colliding
/// replies make; with a fault, no others. If devices come and leave, it reports without fault each that was always
/// present, and none that never was. This holds among requests, pauses, closes and other runs.
#[tactic(auto, using(crate::proofs::PromiseLemmas::AnswersReportTheLine::all_report_the_line))]
pub fn answers_report_the_line()
    ensures { (o : Opening) (h : List Entry) → Legal o h → AnswersReportTheLine o h }
{}

/// A discovery that ends without fault on a noisy line reports exactly the devices present, however many exchanges were
/// disturbed; with a fault, no others. Each device that follows the rules of a noisy line is reported without fault,
/// whatever others do.
#[tactic(auto, using(crate::proofs::PromiseLemmas::AnswersReportTheLine::all_report_a_noisy_line))]
pub fn answers_report_a_noisy_line()
    ensures { (o : Opening) (h : List Entry) → Legal o h → AnswersReportANoisyLine o h }
{}

/// The same of the outcome of a client's discovery, as its client collects it.
pub fn outcomes_report_a_noisy_line()
    ensures { (o : Opening) (h : List Entry) (c : ℕ) (number : Option ℕ) (done : Discovered) → Legal o h
        → IsOwnReport o h c number done → ReportsANoisyLine h done }
{}

/// One run answers the discoveries that were asked for before it began, and all of them alike.
#[tactic(auto, using(crate::proofs::PromiseLemmas::RunsAnswer::runs_answer))]
pub fn runs_answer_what_was_asked()
    ensures { (o : Opening) (h : List Entry) → Legal o h → RunsAnswer o h }
{}

/// A client gets answers only to its own discoveries.
#[tactic(auto, using(crate::proofs::PromiseLemmas::OwnDiscoveries::own_discoveries))]
pub fn own_discoveries()
    ensures { (o : Opening) (h : List Entry) → Legal o h → OwnDiscoveries o h }
{}

/// A discovery is refused as full only if its client has four outstanding or the numbers have run out. Then it isn't
/// accepted.
#[tactic(auto, using(crate::proofs::PromiseLemmas::FullRefuses::full_refuses_discoveries))]
pub fn full_client_is_refused()
    ensures { (o : Opening) (h : List Entry) → Legal o h → FullRefusesDiscoveries o h }
{}

/// All that clients are promised about discoveries holds for each legal log.
pub fn legal_keeps_discoveries()
    ensures { (o : Opening) (h : List Entry) → Legal o h → DiscoveriesPromised o h }
{}
