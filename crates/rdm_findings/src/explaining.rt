//! The findings about a run, and their text.
ghost use Rattle.std.specs.Prelude.{◌≡◌, ◌++◌, IfOk, OnOk, option_copied};
ghost use Rattle.rdm_explain.specs.Rules.{AreFirstBreaches, uids_of_findings};
ghost use Rattle.rdm_explain.specs.Strays.{FirstStray};
ghost use Rattle.rdm_findings.specs.FindingText.{any_broke, garbled_finding, stray_finding};
ghost use Rattle.rdm_findings.specs.Ends.{decides_stray};
ghost use Rattle.rdm_findings.specs.Explained.{first_of, ExplainsNames, Finds, gone_of};
ghost use Rattle.rdm_findings.specs.Explained.{findings_text, IsExplained, is_broken, stray_of, facts_of, cause_of};
ghost use Rattle.rdm_findings.specs.Explained.{devices_text, others_text, bytes_text, run_text};
ghost use Rattle.rdm_findings.specs.Orders.{order_finding, order_of};
ghost use Rattle.rdm_findings.specs.RunJson.{before_run, run_end};

use crate::blame::{cause_of, missing_in, shows_all, stray_of, stubborn_of};
use crate::device_text::write_devices;
use crate::ending::decides_stray;
use crate::form::Form;
use crate::gap_text::{write_quiet, write_run_gaps};
use crate::garbled_text::write_garbled;
use crate::gone_text::{write_culprits, write_gone, write_suspects};
use crate::head::RunHead;
use crate::head_text::write_head;
use crate::heard::{RunUids, acknowledged_uids, heard_uids};
use crate::listing::{culprits_of, gone_of, listed, suspects_of, with_passing};
use crate::mention::{RunFacts, garbled_mention, stray_mention};
use crate::misread::Misreads;
use crate::order::write_order;
use crate::run_json::{write_before_run, write_run_end};
use crate::stray_text::write_stray;
use crate::unmute_text::write_answered;
use rdm_agent::Kind;
use rdm_explain::{
    DeviceFinding, Exchange, Judged, KnownFinding, RunFinding, Sighting, acknowledged_devices,
    explain_known, explain_run, first_breaches, first_garbled, judge,
};
use rdm_wire::{DeviceSet, NoMemory, Uid};
use std::alloc::{AllocError, Global};

/// What is printed for a run.
#[derive(Debug, Drop)]
pub struct Explained {
    /// The lines.
    pub text: Vec<u8>,
    /// Whether a rule was broken. That bytes came though no device was due counts only if the log has the run from its
    /// beginning and the run found all devices: else they may be those of one that it hadn't found yet. Bytes that no
    /// honest line allows always count, and so does a UID that answered alone and then acknowledged no mute.
    pub is_broken: bool,
}

/// The findings about a run, and the devices that it reports.
#[derive(Drop)]
pub(crate) struct Findings {
    pub(crate) reported: DeviceSet,
    pub(crate) certificate: RunFinding,
    pub(crate) names: Option<KnownFinding>,
    pub(crate) devices: Vec<DeviceFinding>,
    /// The UIDs that answered alone, and then acknowledged no mute.
    pub(crate) culprits: Vec<Uid>,
    /// The listed devices, those that come or leave, and those that acknowledged no mute.
    pub(crate) due: Vec<Uid>,
    /// Others that were answered wrongly when they were asked alone.
    pub(crate) suspects: Vec<Uid>,
    /// Other known UIDs that acknowledged no mute.
    pub(crate) gone: Vec<DeviceFinding>,
    pub(crate) stray: Option<Sighting>,
    pub(crate) garbled: Option<Sighting>,
    pub(crate) misreads: Misreads,
    pub(crate) heard: RunUids,
    pub(crate) acked: RunUids,
    /// Whether devices are listed by `--present` or the rig.
    pub(crate) expects: bool,
}

/// What the exchanges of a run show, a finding a line:
/// - whether they certify the devices whose mutes were acknowledged;
/// - whether each of these, and each of the list `present`, was found and followed the rules, but none of `passing`,
///   which come or leave;
/// - the UIDs that answered alone and then acknowledged no mute, others that were answered wrongly when they were asked
///   alone, and known ones that acknowledged no mute;
/// - where bytes came first though none of all these was due, and how often after that;
/// - where bytes came first that no honest line allows, whichever devices are on it, and how often after that.
///
/// `any` says whether other runs were printed before. `known` has the UIDs that were known before the run, if the log
/// has them; a full run needs none. The only error: out of memory.
pub fn explain(
    alloc: Global,
    form: Form,
    any: bool,
    head: &RunHead,
    known: Option<&[Uid]>,
    present: &[Uid],
    passing: &[Uid],
    exchanges: &[Exchange],
) -> Result<Explained, NoMemory>
    ensures { IfOk result (λ e. IsExplained form any head.now (option_copied known.entry) present.now passing.now
        exchanges.now e.text.items e.is_broken) }
{
    let found = find(alloc, head.kind, known, present, passing, exchanges)?;
    match text(alloc, form, any, head, exchanges, &found) {
        Ok(text) => Ok(Explained {
            text,
            is_broken: is_broken(head, &found),
        }),
        Err(_) => Err(NoMemory),
    }
}

fn find(
    alloc: Global,
    kind: Option<Kind>,
    known: Option<&[Uid]>,
    present: &[Uid],
    passing: &[Uid],
    exchanges: &[Exchange],
) -> Result<Findings, NoMemory>
    ensures { IfOk result (λ found. Finds kind (option_copied known.entry) present.now passing.now exchanges.now
        found) }
{
    let reported = acknowledged_devices(exchanges);
    let Ok(uids) = listed(alloc, &reported, present, passing) else {
        return Err(NoMemory);
    };
    let Ok(mut due) = with_passing(alloc, &uids, passing) else {
        return Err(NoMemory);
    };
    let certificate = explain_run(alloc, &reported, exchanges)?;
    let Ok(culprits) = culprits_of(alloc, certificate.failure, &due, &reported, exchanges) else {
        return Err(NoMemory);
    };
    let judged = judge_listed(alloc, uids, &culprits, passing, exchanges)?;
    if due.extend_from_slice(&culprits).is_err() {
        return Err(NoMemory);
    }
    let Ok(suspects) = suspects_of(alloc, &certificate, &due, exchanges) else {
        return Err(NoMemory);
    };
    let acked = acknowledged_uids(alloc, exchanges)?;
    Ok(Findings {
        certificate,
        names: names(alloc, kind, known, exchanges)?,
        devices: judged.devices,
        culprits,
        gone: gone(alloc, &acked, &due, known, exchanges)?,
        suspects,
        stray: judged.stray,
        garbled: first_garbled(alloc, exchanges)?,
        misreads: Misreads::of(alloc, exchanges)?,
        heard: heard_uids(alloc, exchanges)?,
        due,
        reported,
        acked,
        expects: !present.is_empty(),
    })
}

// What is found of the listed devices, and of bytes that neither these nor those without an acknowledgement were due to
// send.
fn judge_listed(
    alloc: Global,
    mut uids: Vec<Uid>,
    culprits: &[Uid],
    passing: &[Uid],
    exchanges: &[Exchange],
) -> Result<Judged, NoMemory>
    ensures all { IfOk result (λ judged. uids_of_findings judged.devices.items ≡ uids.items) }
    ensures first { IfOk result (λ judged. AreFirstBreaches exchanges.now judged.devices.items) }
    ensures stray { IfOk result (λ judged. FirstStray (uids.items ++ culprits.now) passing.now exchanges.now
        judged.stray) }
{
    let many = uids.len();
    if uids.extend_from_slice(culprits).is_err() {
        return Err(NoMemory);
    }
    judge(alloc, &uids, many, passing, exchanges)
}

// The known UIDs that acknowledged no mute, and aren't in the list, and what they lack.
fn gone(
    alloc: Global,
    acked: &RunUids,
    due: &[Uid],
    known: Option<&[Uid]>,
    exchanges: &[Exchange],
) -> Result<Vec<DeviceFinding>, NoMemory>
    ensures all { IfOk result (λ gone. uids_of_findings gone.items
        ≡ gone_of acked.now due.now (option_copied known.entry)) }
    ensures first { IfOk result (λ gone. AreFirstBreaches exchanges.now gone.items) }
{
    let Ok(uids) = gone_of(alloc, acked, due, known) else {
        return Err(NoMemory);
    };
    if uids.is_empty() {
        return Ok(Vec::new(alloc));
    }
    first_breaches(alloc, &uids, exchanges)
}

// The findings that depend on the known UIDs, if the log has these.
fn names(
    alloc: Global,
    kind: Option<Kind>,
    known: Option<&[Uid]>,
    exchanges: &[Exchange],
) -> Result<Option<KnownFinding>, NoMemory>
    ensures { IfOk result (λ names. ExplainsNames (first_of kind (option_copied known.entry)) exchanges.now names) }
{
    let found = match (kind, known) {
        (Some(Kind::Full), _) => explain_known(alloc, Kind::Full, &[], exchanges)?,
        (Some(Kind::Incremental), Some(known)) => {
            explain_known(alloc, Kind::Incremental, known, exchanges)?
        }
        _ => return Ok(None),
    };
    Ok(Some(found))
}

fn text(
    alloc: Global,
    form: Form,
    any: bool,
    head: &RunHead,
    exchanges: &[Exchange],
    found: &Findings,
) -> Result<Vec<u8>, AllocError>
    ensures { IfOk result (λ text. text.items
        ≡ before_run form any ++ findings_text form head.now exchanges.now found.now) }
{
    let mut text = Vec::new(alloc);
    write_before_run(&mut text, form, any)?;
    write_findings(&mut text, form, head, exchanges, found)?;
    Ok(text)
}

fn write_findings(
    text: &mut Vec<u8>,
    form: Form,
    head: &RunHead,
    exchanges: &[Exchange],
    found: &Findings,
) -> Result<(), AllocError>
    ensures { OnOk result (text.new.items ≡ text.old.items
        ++ findings_text form head.now exchanges.now found.now) }
{
    write_run(text, form, head, exchanges, found)?;
    write_others(text, form, head, exchanges, found)
}

// Writes the findings about the run, its certificate and its silence.
fn write_run(
    text: &mut Vec<u8>,
    form: Form,
    head: &RunHead,
    exchanges: &[Exchange],
    found: &Findings,
) -> Result<(), AllocError>
    ensures { OnOk result (text.new.items ≡ text.old.items ++ run_text form head.now exchanges.now found.now) }
{
    write_head(
        text,
        form,
        head,
        &found.reported,
        missing_in(head, exchanges, found),
        stubborn_of(head, exchanges, found),
        exchanges,
        &found.certificate,
        &found.names,
    )?;
    write_run_gaps(text, form, head.start, &found.certificate, &found.names)?;
    write_quiet(text, form, head, exchanges, &found.certificate)
}

// Writes the findings about devices and bytes.
fn write_others(
    text: &mut Vec<u8>,
    form: Form,
    head: &RunHead,
    exchanges: &[Exchange],
    found: &Findings,
) -> Result<(), AllocError>
    ensures { OnOk result (text.new.items ≡ text.old.items
        ++ (devices_text form (facts_of head.now exchanges.now found.now) exchanges.now found.now
        ++ bytes_text form head.now exchanges.now found.now
        ++ (order_finding form (order_of head.now exchanges.now found.now) ++ run_end form))) }
{
    let facts = facts_of(head, exchanges, found);
    write_judged(text, form, &facts, exchanges, found)?;
    write_bytes(text, form, head, exchanges, found)?;
    write_end(text, form, head, exchanges, found)
}

// Writes what to do, if no other line says it, and what follows the last finding.
fn write_end(
    text: &mut Vec<u8>,
    form: Form,
    head: &RunHead,
    exchanges: &[Exchange],
    found: &Findings,
) -> Result<(), AllocError>
    ensures { OnOk result (text.new.items ≡ text.old.items
        ++ (order_finding form (order_of head.now exchanges.now found.now) ++ run_end form)) }
{
    write_order(text, form, head, exchanges, found)?;
    write_run_end(text, form)
}

// Writes the findings about bytes that no device was due to send, or may send.
fn write_bytes(
    text: &mut Vec<u8>,
    form: Form,
    head: &RunHead,
    exchanges: &[Exchange],
    found: &Findings,
) -> Result<(), AllocError>
    ensures { OnOk result (text.new.items ≡ text.old.items ++ bytes_text form head.now exchanges.now found.now) }
{
    write_first_stray(text, form, head, exchanges, found)?;
    write_first_garbled(text, form, head, exchanges, found)?;
    write_answered(text, form, head.start, exchanges)
}

// Writes the finding about the first stray exchange, unless another one is about the same exchange.
fn write_first_stray(
    text: &mut Vec<u8>,
    form: Form,
    head: &RunHead,
    exchanges: &[Exchange],
    found: &Findings,
) -> Result<(), AllocError>
    ensures { OnOk result (text.new.items ≡ text.old.items
        ++ stray_finding form head.now.start found.now.due.items (decides_stray head.now found.now.certificate)
        exchanges.now (stray_of found.now)) }
{
    let decided = decides_stray(head, &found.certificate);
    write_stray(
        text,
        form,
        head.start,
        &found.due,
        decided,
        exchanges,
        stray_of(found),
    )
}

// Writes the finding about the first exchange with bytes that no honest line allows.
fn write_first_garbled(
    text: &mut Vec<u8>,
    form: Form,
    head: &RunHead,
    exchanges: &[Exchange],
    found: &Findings,
) -> Result<(), AllocError>
    ensures { OnOk result (text.new.items ≡ text.old.items
        ++ garbled_finding form head.now.start (cause_of head.now exchanges.now found.now) head.now.flaw
        exchanges.now found.now.garbled) }
{
    let cause = cause_of(head, exchanges, found);
    write_garbled(text, form, head, cause, exchanges, found.garbled)
}

// What is said of devices beside their findings.
fn facts_of(head: &RunHead, exchanges: &[Exchange], found: &Findings) -> RunFacts
    ensures { result ≡ facts_of head.now exchanges.now found.now }
{
    RunFacts {
        start: head.start,
        whole: shows_all(head, exchanges, found),
        failure: found.certificate.failure,
        garbled: garbled_mention(head.start, head.flaw, exchanges, found.garbled),
        stray: stray_mention(head.start, &found.due, exchanges, stray_of(found)),
    }
}

// Writes a finding about each device that is listed, didn't mute, or was known and is gone.
fn write_judged(
    text: &mut Vec<u8>,
    form: Form,
    facts: &RunFacts,
    exchanges: &[Exchange],
    found: &Findings,
) -> Result<(), AllocError>
    ensures { OnOk result (text.new.items ≡ text.old.items
        ++ devices_text form facts.now exchanges.now found.now) }
{
    write_devices(
        text,
        form,
        facts,
        &found.misreads,
        &found.heard,
        &found.acked,
        &found.devices,
    )?;
    write_unlisted(text, form, facts, exchanges, found)
}

// Writes the findings about UIDs that aren't listed.
fn write_unlisted(
    text: &mut Vec<u8>,
    form: Form,
    facts: &RunFacts,
    exchanges: &[Exchange],
    found: &Findings,
) -> Result<(), AllocError>
    ensures { OnOk result (text.new.items ≡ text.old.items
        ++ others_text form facts.now exchanges.now found.now) }
{
    write_culprits(text, form, facts, exchanges, &found.culprits)?;
    write_suspects(
        text,
        form,
        facts,
        &found.misreads,
        exchanges,
        &found.suspects,
    )?;
    write_gone(text, form, facts, &found.gone)
}

// Whether any finding is that a rule was broken.
fn is_broken(head: &RunHead, found: &Findings) -> bool
    ensures { result ≡ is_broken head.now found.now }
{
    (any_broke(&found.devices) || found.garbled.is_some())
        || !found.culprits.is_empty()
        || (decides_stray(head, &found.certificate) && found.stray.is_some())
}

fn any_broke(devices: &[DeviceFinding]) -> bool
    ensures { result ≡ any_broke devices.now }
{
    for device in devices {
        if device.breach.is_some() {
            return true;
        }
    }
    false
}
