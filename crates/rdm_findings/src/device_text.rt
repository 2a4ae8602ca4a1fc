//! What is printed about devices.
ghost use Rattle.std.specs.Prelude.{◌≡◌, ◌++◌, false, OnOk, codes, decimal, flat_map};
ghost use Rattle.rdm_findings.specs.DeviceText.{silent_before, mutes_before, breach_before, breach_after};
ghost use Rattle.rdm_findings.specs.DeviceText.{followed_text, until_text, over_text};
ghost use Rattle.rdm_findings.specs.DeviceText.{yet_text, yet_doubt, found_text, missed_text, calm_text};
ghost use Rattle.rdm_findings.specs.DeviceText.{unbroken_text, unfound_doubt, before_doubt, doubt_text};
ghost use Rattle.rdm_findings.specs.DeviceText.{innocent_text, verdict_text};
ghost use Rattle.rdm_findings.specs.DeviceText.{but_text, breach_text};
ghost use Rattle.rdm_findings.specs.DeviceText.{device_finding, device_exchange, device_judgement, of_device};
ghost use Rattle.rdm_findings.specs.DeviceText.{unbroken_judgement, is_noticed};
ghost use Rattle.rdm_findings.specs.Forms.{finding};
ghost use Rattle.rdm_findings.specs.Starts.{has_start};
ghost use Rattle.rdm_wire.specs.UidText.{uid_text};

use crate::form::{About, Form, Judgement, begin, end};
use crate::head::Start;
use crate::heard::RunUids;
use crate::mention::RunFacts;
use crate::misread::Misreads;
use crate::writing::{write, write_exchange, write_number, write_uid};
use rdm_explain::{Breach, DeviceFinding, Rule};
use rdm_wire::Uid;
use std::alloc::AllocError;

/// Writes a finding about each listed device. The sets have the UIDs that were heard, and those that acknowledged a
/// mute.
pub(crate) fn write_devices(
    text: &mut Vec<u8>,
    form: Form,
    facts: &RunFacts,
    misreads: &Misreads,
    heard: &RunUids,
    acked: &RunUids,
    found: &[DeviceFinding],
) -> Result<(), AllocError>
    ensures { OnOk result (text.new.items ≡ text.old.items
        ++ flat_map (device_finding form facts.now misreads.now heard.now acked.now) found.now) }
{
    'devices: for device in found {
        write_device(text, form, facts, misreads, heard, acked, device)?;
    }
    Ok(())
}

fn write_device(
    text: &mut Vec<u8>,
    form: Form,
    facts: &RunFacts,
    misreads: &Misreads,
    heard: &RunUids,
    acked: &RunUids,
    found: &DeviceFinding,
) -> Result<(), AllocError>
    ensures { OnOk result (text.new.items ≡ text.old.items
        ++ device_finding form facts.now misreads.now heard.now acked.now found.now) }
{
    let was_heard = is_noticed(heard, misreads, found.uid);
    let was_acked = acked.contains(found.uid);
    let see = facts.seen_at(misreads, found.uid);
    write_judged(
        text,
        form,
        facts,
        found.uid,
        was_heard,
        was_acked,
        see,
        found.breach,
    )
}

/// Whether its text was read, its mute was acknowledged, or bytes came when it alone was asked.
pub(crate) fn is_noticed(heard: &RunUids, misreads: &Misreads, uid: Uid) -> bool
    ensures { result ≡ is_noticed heard.now misreads.now uid }
{
    heard.contains(uid) || misreads.first(uid).is_some()
}

fn write_judged(
    text: &mut Vec<u8>,
    form: Form,
    facts: &RunFacts,
    uid: Uid,
    heard: bool,
    acked: bool,
    see: Option<u64>,
    breach: Option<Breach>,
) -> Result<(), AllocError>
    ensures { OnOk result (text.new.items ≡ text.old.items
        ++ finding form (of_device facts.now uid acked see breach)
        (uid_text uid ++ verdict_text facts.now heard acked see breach)) }
{
    begin(text, form, &about(facts, uid, acked, see, breach))?;
    write_uid(text, uid)?;
    write_verdict(text, facts, heard, acked, see, breach)?;
    end(text, form)
}

fn about(facts: &RunFacts, uid: Uid, acked: bool, see: Option<u64>, breach: Option<Breach>) -> About
    ensures { result ≡ of_device facts.now uid acked see breach }
{
    About {
        judgement: device_judgement(facts, acked, breach),
        uid: Some(uid),
        exchange: device_exchange(facts, see, breach),
    }
}

// Whether it broke a rule, and whether it was found.
fn device_judgement(facts: &RunFacts, acked: bool, breach: Option<Breach>) -> Judgement
    ensures { result ≡ device_judgement facts.now acked breach }
{
    match breach {
        None => unbroken_judgement(facts, acked),
        Some(_) => Judgement::Broke(acked),
    }
}

// Whether one that broke no rule was found.
fn unbroken_judgement(facts: &RunFacts, acked: bool) -> Judgement
    ensures { result ≡ unbroken_judgement facts.now acked }
{
    if acked {
        Judgement::Found
    } else if facts.whole {
        Judgement::Missed
    } else {
        Judgement::Pending
    }
}

// The exchange that its sentence names.
fn device_exchange(facts: &RunFacts, see: Option<u64>, breach: Option<Breach>) -> Option<u64>
    ensures { result ≡ device_exchange facts.now see breach }
{
    match breach {
        None => see,
        Some(breach) => Some(facts.start.number(breach.at)),
    }
}

fn write_verdict(
    text: &mut Vec<u8>,
    facts: &RunFacts,
    heard: bool,
    acked: bool,
    see: Option<u64>,
    breach: Option<Breach>,
) -> Result<(), AllocError>
    ensures { OnOk result (text.new.items ≡ text.old.items ++ verdict_text facts.now heard acked see breach) }
{
    match breach {
        None => write_innocent(text, facts, acked, see),
        Some(breach) => write_broken(text, facts, heard, acked, breach),
    }
}

// The rule that it broke first, and where; and that it was found all the same.
fn write_broken(
    text: &mut Vec<u8>,
    facts: &RunFacts,
    heard: bool,
    acked: bool,
    breach: Breach,
) -> Result<(), AllocError>
    ensures { OnOk result (text.new.items ≡ text.old.items
        ++ (but_text acked ++ breach_text facts.now heard breach)) }
{
    write(text, but_text(acked))?;
    write_breach(text, facts, heard, breach)
}

fn but_text(acked: bool) -> &'static str
    ensures { result.now ≡ but_text acked }
{
    if acked { " was found, but" } else { "" }
}

fn write_breach(
    text: &mut Vec<u8>,
    facts: &RunFacts,
    heard: bool,
    breach: Breach,
) -> Result<(), AllocError>
    ensures { OnOk result (text.new.items ≡ text.old.items ++ breach_text facts.now heard breach) }
{
    write(text, breach_before(heard, facts.whole, breach.rule))?;
    write_number(text, facts.start.number(breach.at))?;
    write(text, breach_after(breach.rule))
}

// A device whose log doesn't show that it broke a rule, and the exchange that leaves a doubt.
fn write_innocent(
    text: &mut Vec<u8>,
    facts: &RunFacts,
    acked: bool,
    see: Option<u64>,
) -> Result<(), AllocError>
    ensures { OnOk result (text.new.items ≡ text.old.items ++ innocent_text facts.now acked see) }
{
    match see {
        None => write_unbroken(text, facts, acked),
        Some(number) => write_doubted(text, facts, acked, number),
    }
}

fn write_doubted(
    text: &mut Vec<u8>,
    facts: &RunFacts,
    acked: bool,
    number: u64,
) -> Result<(), AllocError>
    ensures { OnOk result (text.new.items ≡ text.old.items
        ++ (before_doubt facts.now acked ++ doubt_text number)) }
{
    write_before_doubt(text, facts, acked)?;
    write_doubt(text, number)
}

fn write_before_doubt(text: &mut Vec<u8>, facts: &RunFacts, acked: bool) -> Result<(), AllocError>
    ensures { OnOk result (text.new.items ≡ text.old.items ++ before_doubt facts.now acked) }
{
    if acked {
        write(text, " was found; ")
    } else {
        write_unfound_doubt(text, facts)
    }
}

// That it wasn't found, or not yet, before the exchange.
fn write_unfound_doubt(text: &mut Vec<u8>, facts: &RunFacts) -> Result<(), AllocError>
    ensures { OnOk result (text.new.items ≡ text.old.items ++ unfound_doubt facts.now) }
{
    if facts.whole {
        write_missed(text, facts.start, facts.failure)
    } else {
        write(text, yet_doubt(facts.start.is_first()))
    }
}

fn yet_doubt(begun: bool) -> &'static str
    ensures { result.now ≡ yet_doubt begun }
{
    if begun { " wasn't found yet; " } else { ": " }
}

fn write_doubt(text: &mut Vec<u8>, number: u64) -> Result<(), AllocError>
    ensures { OnOk result (text.new.items ≡ text.old.items ++ doubt_text number) }
{
    write_exchange(text, number)?;
    write(
        text,
        " has its UID and an answer that wasn't due, perhaps another device's",
    )
}

// A device that broke no rule.
fn write_unbroken(text: &mut Vec<u8>, facts: &RunFacts, acked: bool) -> Result<(), AllocError>
    ensures { OnOk result (text.new.items ≡ text.old.items ++ unbroken_text facts.now acked) }
{
    if acked {
        write_found(text, facts)
    } else {
        write_calm(text, facts)
    }
}

// That it was found, and followed the rules.
fn write_found(text: &mut Vec<u8>, facts: &RunFacts) -> Result<(), AllocError>
    ensures { OnOk result (text.new.items ≡ text.old.items ++ found_text facts.now) }
{
    write(text, " was found, and")?;
    write_followed(text, facts.whole, facts.start, facts.failure)
}

// That it followed the rules, and until when.
fn write_followed(
    text: &mut Vec<u8>,
    whole: bool,
    start: Start,
    failure: Option<usize>,
) -> Result<(), AllocError>
    ensures { OnOk result (text.new.items ≡ text.old.items ++ (followed_text whole ++ until_text start failure)) }
{
    write(text, followed_text(whole))?;
    write_until(text, start, failure)
}

// That it wasn't found, or not yet, and broke no rule.
fn write_calm(text: &mut Vec<u8>, facts: &RunFacts) -> Result<(), AllocError>
    ensures { OnOk result (text.new.items ≡ text.old.items ++ calm_text facts.now) }
{
    if facts.whole {
        write_ended(text, facts)
    } else {
        write_pending(text, facts)
    }
}

// That it wasn't found in a run that is over.
fn write_ended(text: &mut Vec<u8>, facts: &RunFacts) -> Result<(), AllocError>
    ensures { OnOk result (text.new.items ≡ text.old.items
        ++ (missed_text facts.now ++ codes "it broke no rule until then")) }
{
    write_missed(text, facts.start, facts.failure)?;
    write(text, "it broke no rule until then")
}

// That it wasn't found yet in a run that isn't over.
fn write_pending(text: &mut Vec<u8>, facts: &RunFacts) -> Result<(), AllocError>
    ensures { OnOk result (text.new.items ≡ text.old.items ++ (yet_text (has_start facts.now.start)
        ++ (followed_text false ++ until_text facts.now.start facts.now.failure))) }
{
    write(text, yet_text(facts.start.is_first()))?;
    write_followed(text, false, facts.start, facts.failure)
}

fn write_missed(text: &mut Vec<u8>, start: Start, failure: Option<usize>) -> Result<(), AllocError>
    ensures { OnOk result (text.new.items ≡ text.old.items ++ (codes " wasn't found: "
        ++ over_text start failure ++ codes " before it was clear whether it is there; ")) }
{
    write(text, " wasn't found: ")?;
    write_over(text, start, failure)?;
    write(text, " before it was clear whether it is there; ")
}

// Why the run was over.
fn write_over(text: &mut Vec<u8>, start: Start, failure: Option<usize>) -> Result<(), AllocError>
    ensures { OnOk result (text.new.items ≡ text.old.items ++ over_text start failure) }
{
    match failure {
        None => write(text, "the run ended"),
        Some(at) => {
            write_exchange(text, start.number(at))?;
            write(text, " failed")
        }
    }
}

fn yet_text(begun: bool) -> &'static str
    ensures { result.now ≡ yet_text begun }
{
    if begun { " wasn't found yet; it" } else { "" }
}

fn followed_text(whole: bool) -> &'static str
    ensures { result.now ≡ followed_text whole }
{
    if whole {
        " followed the rules"
    } else {
        " followed the rules in the exchanges that the log has"
    }
}

// Until when a device followed the rules, if an exchange failed.
fn write_until(text: &mut Vec<u8>, start: Start, failure: Option<usize>) -> Result<(), AllocError>
    ensures { OnOk result (text.new.items ≡ text.old.items ++ until_text start failure) }
{
    match failure {
        None => Ok(()),
        Some(at) => write_until_failure(text, start.number(at)),
    }
}

fn write_until_failure(text: &mut Vec<u8>, number: u64) -> Result<(), AllocError>
    ensures { OnOk result (text.new.items ≡ text.old.items
        ++ (codes " until exchange " ++ decimal number ++ codes " failed")) }
{
    write(text, " until exchange ")?;
    write_number(text, number)?;
    write(text, " failed")
}

fn breach_before(heard: bool, whole: bool, rule: Rule) -> &'static str
    ensures { result.now ≡ breach_before heard whole rule }
{
    match rule {
        Rule::SilentBranches => silent_before(heard, whole),
        Rule::SilentMutes => mutes_before(heard, whole),
        Rule::GarbledMute => " didn't acknowledge a mute (exchange ",
    }
}

// Only in a run of which the log has all a device was never heard.
fn silent_before(heard: bool, whole: bool) -> &'static str
    ensures { result.now ≡ silent_before heard whole }
{
    if whole && !heard {
        " was never heard (exchange "
    } else {
        " didn't answer (exchange "
    }
}

// The same of five mutes in a row without an answer.
fn mutes_before(heard: bool, whole: bool) -> &'static str
    ensures { result.now ≡ mutes_before heard whole }
{
    if whole && !heard {
        " was never heard (exchange "
    } else {
        " didn't mute (exchange "
    }
}

fn breach_after(rule: Rule) -> &'static str
    ensures { result.now ≡ breach_after rule }
{
    match rule {
        Rule::SilentBranches => " is the fifth silence in a row in a range that holds it)",
        Rule::SilentMutes => " is the fifth mute of it in a row without an answer)",
        Rule::GarbledMute => " has other bytes: a rule was broken, by it, another device or noise)",
    }
}
