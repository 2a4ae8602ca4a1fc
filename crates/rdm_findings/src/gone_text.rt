//! What is printed about UIDs that acknowledged no mute though they answered alone, or were known, and about those that
//! were answered wrongly when they were asked alone.
ghost use Rattle.std.specs.Prelude.{◌≡◌, ◌++◌, OnOk, Some, codes, decimal, flat_map};
ghost use Rattle.rdm_wire.specs.UidText.{uid_text};
ghost use Rattle.rdm_findings.specs.DeviceText.{culprit_why, culprit_text, culprit_found, culprit_finding, guilt_text};
ghost use Rattle.rdm_findings.specs.DeviceText.{gone_before, gone_after, gone_finding, of_gone};
ghost use Rattle.rdm_findings.specs.DeviceText.{suspect_text, suspect_found, suspect_finding};
ghost use Rattle.rdm_findings.specs.Forms.{finding};
ghost use Rattle.rdm_findings.specs.Starts.{number_at};

use crate::cause::is_stubborn;
use crate::ending::has_garbled_mute;
use crate::form::{About, Form, Judgement, begin, end};
use crate::head::Start;
use crate::mention::RunFacts;
use crate::misread::Misreads;
use crate::writing::{write, write_number, write_uid, write_uid_finding};
use rdm_explain::{Breach, DeviceFinding, Exchange, Rule};
use rdm_wire::Uid;
use std::alloc::AllocError;

/// Writes a finding about each UID that answered alone, and then acknowledged no mute.
pub(crate) fn write_culprits(
    text: &mut Vec<u8>,
    form: Form,
    facts: &RunFacts,
    exchanges: &[Exchange],
    culprits: &[Uid],
) -> Result<(), AllocError>
    ensures { OnOk result (text.new.items ≡ text.old.items
        ++ flat_map (culprit_finding form facts.now exchanges.now) culprits.now) }
{
    'culprits: for uid in culprits {
        write_one_culprit(text, form, facts, exchanges, *uid)?;
    }
    Ok(())
}

fn write_one_culprit(
    text: &mut Vec<u8>,
    form: Form,
    facts: &RunFacts,
    exchanges: &[Exchange],
    uid: Uid,
) -> Result<(), AllocError>
    ensures { OnOk result (text.new.items ≡ text.old.items
        ++ culprit_finding form facts.now exchanges.now uid) }
{
    let garbled = has_garbled_mute(uid, exchanges);
    let stubborn = is_stubborn(facts.failure, exchanges, uid);
    write_culprit(text, form, uid, garbled, stubborn)
}

fn write_culprit(
    text: &mut Vec<u8>,
    form: Form,
    uid: Uid,
    garbled: bool,
    stubborn: bool,
) -> Result<(), AllocError>
    ensures { OnOk result (text.new.items ≡ text.old.items ++ culprit_found form uid garbled stubborn) }
{
    begin(text, form, &About::uid(Judgement::Unmuted, uid))?;
    write_uid(text, uid)?;
    write_ignoring(text, garbled, stubborn)?;
    end(text, form)
}

// That it acknowledged no mute, and why.
fn write_ignoring(text: &mut Vec<u8>, garbled: bool, stubborn: bool) -> Result<(), AllocError>
    ensures { OnOk result (text.new.items ≡ text.old.items ++ culprit_text garbled stubborn) }
{
    write(text, " answered alone and then acknowledged no mute: ")?;
    write_culprit_why(text, garbled, stubborn)
}

fn write_culprit_why(text: &mut Vec<u8>, garbled: bool, stubborn: bool) -> Result<(), AllocError>
    ensures { OnOk result (text.new.items ≡ text.old.items ++ culprit_why garbled stubborn) }
{
    write(text, culprit_why(garbled, stubborn))
}

fn culprit_why(garbled: bool, stubborn: bool) -> &'static str
    ensures { result.now ≡ culprit_why garbled stubborn }
{
    if garbled {
        guilt_text(stubborn)
    } else {
        "it left, or broke a rule"
    }
}

// Who broke a rule by bad answers. The flag says that there were many.
fn guilt_text(stubborn: bool) -> &'static str
    ensures { result.now ≡ guilt_text stubborn }
{
    if stubborn {
        "a rule was broken, by a device rather than noise"
    } else {
        "a rule was broken, by a device or noise"
    }
}

/// Writes a finding about each UID that was answered wrongly when it was asked alone, unless another line names it.
pub(crate) fn write_suspects(
    text: &mut Vec<u8>,
    form: Form,
    facts: &RunFacts,
    misreads: &Misreads,
    exchanges: &[Exchange],
    suspects: &[Uid],
) -> Result<(), AllocError>
    ensures { OnOk result (text.new.items ≡ text.old.items
        ++ flat_map (suspect_finding form facts.now misreads.now exchanges.now) suspects.now) }
{
    'suspects: for uid in suspects {
        write_one_suspect(text, form, facts, misreads, exchanges, *uid)?;
    }
    Ok(())
}

fn write_one_suspect(
    text: &mut Vec<u8>,
    form: Form,
    facts: &RunFacts,
    misreads: &Misreads,
    exchanges: &[Exchange],
    uid: Uid,
) -> Result<(), AllocError>
    ensures { OnOk result (text.new.items ≡ text.old.items
        ++ suspect_finding form facts.now misreads.now exchanges.now uid) }
{
    let stubborn = is_stubborn(facts.failure, exchanges, uid);
    write_suspect(text, form, uid, stubborn, facts.suspect_at(misreads, uid))
}

fn write_suspect(
    text: &mut Vec<u8>,
    form: Form,
    uid: Uid,
    stubborn: bool,
    at: Option<u64>,
) -> Result<(), AllocError>
    ensures { OnOk result (text.new.items ≡ text.old.items ++ suspect_found form uid stubborn at) }
{
    match at {
        Some(number) => write_suspected(text, form, uid, stubborn, number),
        None => Ok(()),
    }
}

fn write_suspected(
    text: &mut Vec<u8>,
    form: Form,
    uid: Uid,
    stubborn: bool,
    number: u64,
) -> Result<(), AllocError>
    ensures { OnOk result (text.new.items ≡ text.old.items ++ suspect_found form uid stubborn (Some number)) }
{
    let about = About {
        judgement: Judgement::Garbled,
        uid: Some(uid),
        exchange: Some(number),
    };
    begin(text, form, &about)?;
    write_uid(text, uid)?;
    write_wrong(text, stubborn, number)?;
    end(text, form)
}

fn write_wrong(text: &mut Vec<u8>, stubborn: bool, number: u64) -> Result<(), AllocError>
    ensures { OnOk result (text.new.items ≡ text.old.items ++ suspect_text stubborn number) }
{
    write(
        text,
        " alone was asked, and bytes came that are no right answer; ",
    )?;
    write(text, guilt_text(stubborn))?;
    write_place(text, number)
}

fn write_place(text: &mut Vec<u8>, number: u64) -> Result<(), AllocError>
    ensures { OnOk result (text.new.items ≡ text.old.items
        ++ (codes " (exchange " ++ decimal number ++ codes ")")) }
{
    write(text, " (exchange ")?;
    write_number(text, number)?;
    write(text, ")")
}

/// Writes a finding about each known UID that acknowledged no mute.
pub(crate) fn write_gone(
    text: &mut Vec<u8>,
    form: Form,
    facts: &RunFacts,
    gone: &[DeviceFinding],
) -> Result<(), AllocError>
    ensures { OnOk result (text.new.items ≡ text.old.items ++ flat_map (gone_finding form facts.now) gone.now) }
{
    'gone: for device in gone {
        write_one(text, form, facts, device)?;
    }
    Ok(())
}

const MISSED: &str =
    " was known, and wasn't found: the run ended before it was clear whether it is there";

fn write_one(
    text: &mut Vec<u8>,
    form: Form,
    facts: &RunFacts,
    gone: &DeviceFinding,
) -> Result<(), AllocError>
    ensures { OnOk result (text.new.items ≡ text.old.items ++ gone_finding form facts.now gone.now) }
{
    match gone.breach {
        None => {
            if facts.whole {
                write_uid_finding(text, form, Judgement::Gone, gone.uid, MISSED)
            } else {
                Ok(())
            }
        }
        Some(breach) => write_lacking(text, form, facts.start, gone.uid, breach),
    }
}

fn write_lacking(
    text: &mut Vec<u8>,
    form: Form,
    start: Start,
    uid: Uid,
    breach: Breach,
) -> Result<(), AllocError>
    ensures { OnOk result (text.new.items ≡ text.old.items
        ++ finding form (of_gone uid (number_at start breach.at)) (uid_text uid
        ++ (gone_before breach.rule ++ decimal (number_at start breach.at) ++ gone_after breach.rule))) }
{
    let number = start.number(breach.at);
    begin(text, form, &about(uid, number))?;
    write_uid(text, uid)?;
    write_what(text, breach.rule, number)?;
    end(text, form)
}

fn about(uid: Uid, number: u64) -> About
    ensures { result ≡ of_gone uid number }
{
    About {
        judgement: Judgement::Gone,
        uid: Some(uid),
        exchange: Some(number),
    }
}

// What it lacks, and at which exchange.
fn write_what(text: &mut Vec<u8>, rule: Rule, number: u64) -> Result<(), AllocError>
    ensures { OnOk result (text.new.items ≡ text.old.items
        ++ (gone_before rule ++ decimal number ++ gone_after rule)) }
{
    write(text, gone_before(rule))?;
    write_number(text, number)?;
    write(text, gone_after(rule))
}

fn gone_before(rule: Rule) -> &'static str
    ensures { result.now ≡ gone_before rule }
{
    match rule {
        Rule::SilentBranches => " was known, and wasn't heard: exchange ",
        Rule::SilentMutes => " was known, and didn't answer five mutes: exchange ",
        Rule::GarbledMute => {
            " was known, and bytes came that don't acknowledge its mute: exchange "
        }
    }
}

fn gone_after(rule: Rule) -> &'static str
    ensures { result.now ≡ gone_after rule }
{
    match rule {
        Rule::SilentBranches => " is the fifth silence in a row in a range that holds it",
        Rule::SilentMutes => " is the last of them",
        Rule::GarbledMute => "",
    }
}
