//! The first finding of a run.
ghost use Rattle.std.specs.Prelude.{◌≡◌, ◌++◌, OnOk, codes, decimal};
ghost use Rattle.rdm_wire.specs.UidText.{uid_text};
ghost use Rattle.rdm_findings.specs.FindingText.{name_text, kind_text, search_text, what_text, end_text, outcome_text};
ghost use Rattle.rdm_findings.specs.FindingText.{sound_text, gap_text, begun_text, certificate_text, decides_gaps};
ghost use Rattle.rdm_findings.specs.FindingText.{may_be_old};
ghost use Rattle.rdm_findings.specs.Ends.{end_of, is_quick};
ghost use Rattle.rdm_findings.specs.FindingText.{head_text, head_finding, head_sentence, reason_text, spent_text};
ghost use Rattle.rdm_findings.specs.FindingText.{count_text, missing_text, devices_count, early_text};
ghost use Rattle.rdm_findings.specs.FindingText.{corrupt_text, is_this, wrongs_text};
ghost use Rattle.rdm_findings.specs.FindingText.{sound_judgement, begun_judgement, run_judgement};
ghost use Rattle.rdm_findings.specs.Forms.{after_sentence};

use crate::ending::{
    corrupt_uid, end_of, is_complete, is_known_complete, is_lost, is_over, never_muted,
};
use crate::form::{About, Form, Judgement, end};
use crate::head::{RunHead, Start};
use crate::run_json::write_run_start;
use crate::writing::{write, write_count, write_number, write_uid};
use rdm_agent::{AgentFault, Kind, Search};
use rdm_explain::{Exchange, KnownFinding, RunFinding};
use rdm_wire::{DeviceSet, Uid};
use std::alloc::AllocError;

/// Writes the first finding of a run, which didn't find so many listed devices. In JSON the run's members precede it.
pub(crate) fn write_head(
    text: &mut Vec<u8>,
    form: Form,
    head: &RunHead,
    reported: &DeviceSet,
    missing: usize,
    stubborn: Option<Uid>,
    exchanges: &[Exchange],
    certificate: &RunFinding,
    names: &Option<KnownFinding>,
) -> Result<(), AllocError>
    ensures { OnOk result (text.new.items ≡ text.old.items
        ++ head_finding form head.now reported.now missing stubborn exchanges.now certificate.now names.now) }
{
    let ending = end_of(head, reported, exchanges, certificate);
    let decided = decides_gaps(head, reported, exchanges, certificate, names);
    let about = About::run(run_judgement(head, decided, certificate, names));
    write_run_start(text, form, head, ending, reported.len(), exchanges, &about)?;
    write_sentence(
        text,
        head,
        reported,
        missing,
        stubborn,
        exchanges,
        certificate,
        names,
    )?;
    end(text, form)
}

fn write_sentence(
    text: &mut Vec<u8>,
    head: &RunHead,
    reported: &DeviceSet,
    missing: usize,
    stubborn: Option<Uid>,
    exchanges: &[Exchange],
    certificate: &RunFinding,
    names: &Option<KnownFinding>,
) -> Result<(), AllocError>
    ensures { OnOk result (text.new.items ≡ text.old.items
        ++ head_sentence head.now reported.now missing stubborn exchanges.now certificate.now names.now) }
{
    let ending = end_of(head, reported, exchanges, certificate);
    let decided = decides_gaps(head, reported, exchanges, certificate, names);
    write_run(
        text,
        head,
        never_muted(reported, exchanges),
        stubborn,
        ending,
        exchanges.len(),
        reported.len(),
        missing,
    )?;
    let old = may_be_old(head, reported, exchanges);
    write(
        text,
        certificate_text(head, decided, old, certificate, names),
    )
}

// Whether a quick run of an older version ended here.
fn may_be_old(head: &RunHead, reported: &DeviceSet, exchanges: &[Exchange]) -> bool
    ensures { result ≡ may_be_old head.now reported.now exchanges.now }
{
    is_quick(head.search) && corrupt_uid(reported, exchanges).is_some()
}

fn is_quick(search: Option<Search>) -> bool
    ensures { result ≡ is_quick search }
{
    match search {
        Some(Search::Quick) => true,
        Some(Search::Steady) => false,
        None => false,
    }
}

// Whether the certificate is complete, if that can be decided.
fn run_judgement(
    head: &RunHead,
    decided: bool,
    certificate: &RunFinding,
    names: &Option<KnownFinding>,
) -> Judgement
    ensures { result ≡ run_judgement head.now decided certificate.now names.now }
{
    if head.start.is_first() {
        begun_judgement(decided, certificate, names)
    } else {
        Judgement::Undecided
    }
}

// The same, if the log has the run's beginning.
fn begun_judgement(
    decided: bool,
    certificate: &RunFinding,
    names: &Option<KnownFinding>,
) -> Judgement
    ensures { result ≡ begun_judgement decided certificate.now names.now }
{
    if is_complete(certificate) {
        sound_judgement(names)
    } else if decided {
        Judgement::Incomplete
    } else {
        Judgement::Undecided
    }
}

// The same, if no part fails but those that depend on the known UIDs.
fn sound_judgement(names: &Option<KnownFinding>) -> Judgement
    ensures { result ≡ sound_judgement names.now }
{
    match names {
        Some(names) => {
            if is_known_complete(names) {
                Judgement::Complete
            } else {
                Judgement::Incomplete
            }
        }
        None => Judgement::Undecided,
    }
}

// Whether no exchanges that the log doesn't have could mend the certificate.
fn decides_gaps(
    head: &RunHead,
    reported: &DeviceSet,
    exchanges: &[Exchange],
    certificate: &RunFinding,
    names: &Option<KnownFinding>,
) -> bool
    ensures { result ≡ decides_gaps head.now reported.now exchanges.now certificate.now names.now }
{
    is_over(head, reported, exchanges, certificate) || is_lost(exchanges, certificate, names)
}

fn write_run(
    text: &mut Vec<u8>,
    head: &RunHead,
    unmuted: Option<Uid>,
    stubborn: Option<Uid>,
    ending: Option<Option<AgentFault>>,
    exchanges: usize,
    reported: usize,
    missing: usize,
) -> Result<(), AllocError>
    ensures { OnOk result (text.new.items ≡ text.old.items
        ++ head_text head.now unmuted stubborn ending exchanges reported missing) }
{
    write_what(text, head)?;
    write_count(text, exchanges as u64, " exchange")?;
    write_outcome(
        text,
        head.budget,
        unmuted,
        stubborn,
        ending,
        reported,
        missing,
    )
}

// The run's name, its kind, and how it searched.
fn write_what(text: &mut Vec<u8>, head: &RunHead) -> Result<(), AllocError>
    ensures { OnOk result (text.new.items ≡ text.old.items ++ what_text head.now) }
{
    write_name(text, head.number)?;
    write(text, ": ")?;
    write_how(text, head)
}

fn write_name(text: &mut Vec<u8>, number: Option<u64>) -> Result<(), AllocError>
    ensures { OnOk result (text.new.items ≡ text.old.items ++ name_text number) }
{
    match number {
        Some(number) => {
            write(text, "run ")?;
            write_number(text, number)
        }
        None => write(text, "discovery"),
    }
}

fn write_how(text: &mut Vec<u8>, head: &RunHead) -> Result<(), AllocError>
    ensures { OnOk result (text.new.items ≡ text.old.items
        ++ (kind_text head.now.kind ++ search_text head.now.search)) }
{
    write(text, kind_text(head.kind))?;
    write(text, search_text(head.search))
}

fn kind_text(kind: Option<Kind>) -> &'static str
    ensures { result.now ≡ kind_text kind }
{
    match kind {
        None => "",
        Some(Kind::Full) => "full, ",
        Some(Kind::Incremental) => "incremental, ",
    }
}

fn search_text(search: Option<Search>) -> &'static str
    ensures { result.now ≡ search_text search }
{
    match search {
        None => "",
        Some(Search::Steady) => "steady, ",
        Some(Search::Quick) => "quick, ",
    }
}

// How the run ended, and how many devices it reported.
fn write_outcome(
    text: &mut Vec<u8>,
    budget: Option<u64>,
    unmuted: Option<Uid>,
    stubborn: Option<Uid>,
    ending: Option<Option<AgentFault>>,
    reported: usize,
    missing: usize,
) -> Result<(), AllocError>
    ensures { OnOk result (text.new.items ≡ text.old.items
        ++ outcome_text budget unmuted stubborn ending reported missing) }
{
    write_ending(text, budget, unmuted, stubborn, ending)?;
    write(text, ", ")?;
    write_devices_count(text, reported, missing)
}

fn write_devices_count(
    text: &mut Vec<u8>,
    reported: usize,
    missing: usize,
) -> Result<(), AllocError>
    ensures { OnOk result (text.new.items ≡ text.old.items ++ devices_count reported missing) }
{
    write_count(text, reported as u64, " device")?;
    write_missing(text, missing)
}

// That so many listed devices weren't found, if there are any.
fn write_missing(text: &mut Vec<u8>, missing: usize) -> Result<(), AllocError>
    ensures { OnOk result (text.new.items ≡ text.old.items ++ missing_text missing) }
{
    if missing == 0 {
        Ok(())
    } else if missing == 1 {
        write(text, ", but 1 listed device wasn't found")
    } else {
        write_several(text, missing)
    }
}

fn write_several(text: &mut Vec<u8>, missing: usize) -> Result<(), AllocError>
    ensures { OnOk result (text.new.items ≡ text.old.items
        ++ (codes ", but " ++ decimal missing ++ codes " listed devices weren't found")) }
{
    write(text, ", but ")?;
    write_number(text, missing as u64)?;
    write(text, " listed devices weren't found")
}

fn write_ending(
    text: &mut Vec<u8>,
    budget: Option<u64>,
    unmuted: Option<Uid>,
    stubborn: Option<Uid>,
    ending: Option<Option<AgentFault>>,
) -> Result<(), AllocError>
    ensures { OnOk result (text.new.items ≡ text.old.items ++ end_text budget unmuted stubborn ending) }
{
    match ending {
        None => Ok(()),
        Some(None) => write(text, ", no fault"),
        Some(Some(fault)) => write_explained(text, budget, unmuted, stubborn, &fault),
    }
}

// That it ended early, and why.
fn write_explained(
    text: &mut Vec<u8>,
    budget: Option<u64>,
    unmuted: Option<Uid>,
    stubborn: Option<Uid>,
    fault: &AgentFault,
) -> Result<(), AllocError>
    ensures { OnOk result (text.new.items ≡ text.old.items
        ++ (codes ", " ++ early_text fault.now ++ reason_text budget unmuted stubborn fault.now)) }
{
    write(text, ", ")?;
    write_early(text, fault)?;
    write_reason(text, budget, unmuted, stubborn, fault)
}

fn write_reason(
    text: &mut Vec<u8>,
    budget: Option<u64>,
    unmuted: Option<Uid>,
    stubborn: Option<Uid>,
    fault: &AgentFault,
) -> Result<(), AllocError>
    ensures { OnOk result (text.new.items ≡ text.old.items ++ reason_text budget unmuted stubborn fault.now) }
{
    match fault {
        AgentFault::Corrupt(uid) => write(text, corrupt_text(is_this(unmuted, *uid))),
        AgentFault::TooMany => write(text, " (more than 1,024 devices answered)"),
        AgentFault::Exhausted => write_exhausted(text, budget, stubborn),
        AgentFault::LineFailed => write(text, " (the line failed)"),
        AgentFault::Aborted => write(text, " (it was aborted)"),
    }
}

// Why a UID ended the run. The flag says that it answered alone, and then acknowledged no mute.
fn corrupt_text(unmuted: bool) -> &'static str
    ensures { result.now ≡ corrupt_text unmuted }
{
    if unmuted {
        " (it answered alone and then acknowledged no mute)"
    } else {
        " (it alone was asked, and the answers weren't a new device's)"
    }
}

fn is_this(one: Option<Uid>, uid: Uid) -> bool
    ensures { result ≡ is_this one uid }
{
    match one {
        Some(one) => one == uid,
        None => false,
    }
}

// That its budget is used up, and after whose wrong answers, if a UID had many.
fn write_exhausted(
    text: &mut Vec<u8>,
    budget: Option<u64>,
    stubborn: Option<Uid>,
) -> Result<(), AllocError>
    ensures { OnOk result (text.new.items ≡ text.old.items ++ (spent_text budget ++ wrongs_text stubborn)) }
{
    write_spent(text, budget)?;
    write_wrongs(text, stubborn)
}

fn write_wrongs(text: &mut Vec<u8>, stubborn: Option<Uid>) -> Result<(), AllocError>
    ensures { OnOk result (text.new.items ≡ text.old.items ++ wrongs_text stubborn) }
{
    match stubborn {
        Some(uid) => write_wrong(text, uid),
        None => Ok(()),
    }
}

fn write_wrong(text: &mut Vec<u8>, uid: Uid) -> Result<(), AllocError>
    ensures { OnOk result (text.new.items ≡ text.old.items
        ++ (codes " after many wrong answers of " ++ uid_text uid)) }
{
    write(text, " after many wrong answers of ")?;
    write_uid(text, uid)
}

fn write_spent(text: &mut Vec<u8>, budget: Option<u64>) -> Result<(), AllocError>
    ensures { OnOk result (text.new.items ≡ text.old.items ++ spent_text budget) }
{
    match budget {
        Some(budget) => write_budget(text, budget),
        None => write(text, " (its budget of frames is used up)"),
    }
}

fn write_budget(text: &mut Vec<u8>, budget: u64) -> Result<(), AllocError>
    ensures { OnOk result (text.new.items ≡ text.old.items
        ++ (codes " (its budget of " ++ count_text budget (codes " frame") ++ codes " is used up)")) }
{
    write(text, " (its budget of ")?;
    write_count(text, budget, " frame")?;
    write(text, " is used up)")
}

// That it ended early, and at which UID, if its answers ended it.
fn write_early(text: &mut Vec<u8>, fault: &AgentFault) -> Result<(), AllocError>
    ensures { OnOk result (text.new.items ≡ text.old.items ++ early_text fault.now) }
{
    match fault {
        AgentFault::Corrupt(uid) => {
            write(text, "ended early at ")?;
            write_uid(text, *uid)
        }
        _ => write(text, "ended early"),
    }
}

// The certificate; or why it can't be decided.
fn certificate_text(
    head: &RunHead,
    decided: bool,
    old: bool,
    certificate: &RunFinding,
    names: &Option<KnownFinding>,
) -> &'static str
    ensures { result.now ≡ certificate_text head.now decided old certificate.now names.now }
{
    match head.start {
        Start::At(number) => {
            if number == 0 {
                begun_text(head, decided, old, certificate, names)
            } else {
                "; others may be on the line, as the log begins within the run"
            }
        }
        Start::Later => LATER,
        Start::Unknown => UNKNOWN,
    }
}

const LATER: &str =
    "; others may be on the line, as the log begins within the run; exchanges count from there";

const UNKNOWN: &str =
    "; others may be on the line, as the log may begin within the run; exchanges count from there";

// The certificate, if the log has the run's beginning.
fn begun_text(
    head: &RunHead,
    decided: bool,
    old: bool,
    certificate: &RunFinding,
    names: &Option<KnownFinding>,
) -> &'static str
    ensures { result.now ≡ begun_text head.now decided old certificate.now names.now }
{
    if is_complete(certificate) {
        sound_text(head.kind, names)
    } else {
        gap_text(decided, old)
    }
}

// A certificate of which no part fails but those that can't be decided.
fn sound_text(kind: Option<Kind>, names: &Option<KnownFinding>) -> &'static str
    ensures { result.now ≡ sound_text kind names.now }
{
    match names {
        Some(names) => {
            if is_known_complete(names) {
                "; no other device is on the line if all follow the rules"
            } else {
                IRREGULAR
            }
        }
        None => match kind {
            Some(_) => {
                "; no other device is on the line if all follow the rules; the log doesn't have the run's known devices"
            }
            None => {
                "; no other device is on the line if all follow the rules; the log doesn't have the run's kind"
            }
        },
    }
}

const IRREGULAR: &str =
    "; no other device is on the line if all follow the rules, but the run isn't regular";

// A certificate of which a part fails.
fn gap_text(decided: bool, old: bool) -> &'static str
    ensures { result.now ≡ gap_text decided old }
{
    if decided {
        "; others may be on the line"
    } else if old {
        "; others may be on the line: the run ended there if it is of an older version, or the log ends within it"
    } else {
        "; others may be on the line, or the log ends within the run"
    }
}
