//! What is printed about bytes that no honest line allows, whichever devices are on it.
ghost use Rattle.std.specs.Prelude.{◌≡◌, ◌++◌, OnOk, codes, true};
ghost use Rattle.rdm_wire.specs.UidText.{uid_text};
ghost use Rattle.rdm_findings.specs.FindingText.{sighting_name, blame_text, cause_text, guilt_after, reply_text};
ghost use Rattle.rdm_findings.specs.FindingText.{garbled_text};
ghost use Rattle.rdm_findings.specs.FindingText.{nobody_before, nobody_after, nobody_text, after_take, off_text};
ghost use Rattle.rdm_findings.specs.FindingText.{who_text, end_off, first_off, stubborn_off, turns_text};
ghost use Rattle.rdm_findings.specs.FindingText.{same_why, off_advice, same_advice, same_text, own_text, other_bytes};
ghost use Rattle.rdm_findings.specs.FindingText.{both_text, then_text, why_text, unacked_text, wrong_text};
ghost use Rattle.rdm_findings.specs.FindingText.{garbled_found, garbled_finding, asked_uid, of_garbled};
ghost use Rattle.rdm_findings.specs.Forms.{finding};

use crate::cause::Cause;
use crate::flaw::{Flaw, write_flaw};
use crate::form::{About, Form, Judgement, begin, end};
use crate::head::RunHead;
use crate::writing::{write, write_around, write_sighting, write_uid};
use rdm_explain::{Asked, Exchange, Heard, Sighting};
use rdm_wire::Uid;
use std::alloc::AllocError;

/// Writes the finding about the first exchange with such bytes, if there is one.
pub(crate) fn write_garbled(
    text: &mut Vec<u8>,
    form: Form,
    head: &RunHead,
    cause: Cause,
    exchanges: &[Exchange],
    garbled: Option<Sighting>,
) -> Result<(), AllocError>
    ensures { OnOk result (text.new.items ≡ text.old.items
        ++ garbled_finding form head.now.start cause head.now.flaw exchanges.now garbled) }
{
    let Some(first) = garbled else {
        return Ok(());
    };
    match exchanges.get(first.at) {
        Some(exchange) => {
            write_found(
                text,
                form,
                head.start.number(first.at),
                first.more as u64,
                cause,
                head.flaw,
                &exchange.asked,
                &exchange.heard,
            )
        }
        None => Ok(()),
    }
}

fn write_found(
    text: &mut Vec<u8>,
    form: Form,
    number: u64,
    more: u64,
    cause: Cause,
    flaw: Option<Flaw>,
    asked: &Asked,
    heard: &Heard,
) -> Result<(), AllocError>
    ensures { OnOk result (text.new.items ≡ text.old.items ++ finding form (of_garbled number asked.now)
        (sighting_name number more ++ garbled_text cause flaw asked.now heard.now)) }
{
    begin(text, form, &about(number, asked))?;
    write_sighting(text, number, more)?;
    write_reason(text, cause, flaw, asked, heard)?;
    end(text, form)
}

fn about(number: u64, asked: &Asked) -> About
    ensures { result ≡ of_garbled number asked.now }
{
    About {
        judgement: Judgement::Garbled,
        uid: asked_uid(asked),
        exchange: Some(number),
    }
}

// The UID that was asked alone.
fn asked_uid(asked: &Asked) -> Option<Uid>
    ensures { result ≡ asked_uid asked.now }
{
    match asked {
        Asked::Branch { lo, .. } => Some(*lo),
        Asked::Mute(uid) => Some(*uid),
        _ => None,
    }
}

fn write_reason(
    text: &mut Vec<u8>,
    cause: Cause,
    flaw: Option<Flaw>,
    asked: &Asked,
    heard: &Heard,
) -> Result<(), AllocError>
    ensures { OnOk result (text.new.items ≡ text.old.items ++ garbled_text cause flaw asked.now heard.now) }
{
    match asked {
        Asked::Branch { lo, .. } => write_from(text, cause, flaw, *lo, heard),
        Asked::Mute(uid) => write_unmuted(text, cause, flaw, *uid),
        _ => Ok(()),
    }
}

fn write_from(
    text: &mut Vec<u8>,
    cause: Cause,
    flaw: Option<Flaw>,
    uid: Uid,
    heard: &Heard,
) -> Result<(), AllocError>
    ensures { OnOk result (text.new.items ≡ text.old.items
        ++ (codes ": " ++ uid_text uid ++ own_text cause flaw uid heard.now)) }
{
    write(text, ": ")?;
    write_uid(text, uid)?;
    write_own(text, cause, flaw, uid, heard)
}

// Its own text, or other bytes.
fn write_own(
    text: &mut Vec<u8>,
    cause: Cause,
    flaw: Option<Flaw>,
    uid: Uid,
    heard: &Heard,
) -> Result<(), AllocError>
    ensures { OnOk result (text.new.items ≡ text.old.items ++ own_text cause flaw uid heard.now) }
{
    match heard {
        Heard::One(read) if *read == uid => write_same(text, &cause, uid),
        _ => write_other_bytes(text, cause, flaw, uid, heard),
    }
}

fn write_same(text: &mut Vec<u8>, cause: &Cause, uid: Uid) -> Result<(), AllocError>
    ensures { OnOk result (text.new.items ≡ text.old.items ++ same_text cause.now uid) }
{
    write(text, same_why(uid))?;
    write(text, same_advice(cause, uid))
}

// What to do about a UID, unless an exchange failed.
fn same_advice(cause: &Cause, uid: Uid) -> &'static str
    ensures { result.now ≡ same_advice cause.now uid }
{
    match cause {
        Cause::Failed(_) => "",
        _ => off_advice(uid),
    }
}

// Why it shouldn't answer: no device has such a UID, or it is muted.
fn same_why(uid: Uid) -> &'static str
    ensures { result.now ≡ same_why uid }
{
    if uid.is_broadcast() {
        " alone was asked and answered, though no device may have it; a rule was broken"
    } else {
        " alone was asked and answered, though it was muted: it restarted or broke a rule, or another has its UID"
    }
}

// What to do about a UID.
fn off_advice(uid: Uid) -> &'static str
    ensures { result.now ≡ off_advice uid }
{
    if uid.is_broadcast() {
        ": split the line and discover each half"
    } else {
        "; take it off the line and discover again"
    }
}

fn write_unmuted(
    text: &mut Vec<u8>,
    cause: Cause,
    flaw: Option<Flaw>,
    uid: Uid,
) -> Result<(), AllocError>
    ensures { OnOk result (text.new.items ≡ text.old.items
        ++ (codes ": bytes came after a mute of " ++ uid_text uid ++ unacked_text cause uid flaw)) }
{
    write(text, ": bytes came after a mute of ")?;
    write_uid(text, uid)?;
    write_unacked(text, cause, uid, flaw)
}

fn write_unacked(
    text: &mut Vec<u8>,
    cause: Cause,
    uid: Uid,
    flaw: Option<Flaw>,
) -> Result<(), AllocError>
    ensures { OnOk result (text.new.items ≡ text.old.items ++ unacked_text cause uid flaw) }
{
    write(text, " that don't acknowledge it")?;
    write_wrong(text, cause, flaw, uid)
}

// Why they don't, if that is known.
fn write_why(text: &mut Vec<u8>, flaw: Option<Flaw>) -> Result<(), AllocError>
    ensures { OnOk result (text.new.items ≡ text.old.items ++ why_text flaw) }
{
    match flaw {
        None => Ok(()),
        Some(flaw) => {
            write(text, ": ")?;
            write_flaw(text, flaw)
        }
    }
}

fn write_other_bytes(
    text: &mut Vec<u8>,
    cause: Cause,
    flaw: Option<Flaw>,
    uid: Uid,
    heard: &Heard,
) -> Result<(), AllocError>
    ensures { OnOk result (text.new.items ≡ text.old.items ++ other_bytes cause flaw uid heard.now) }
{
    write(
        text,
        " alone was asked, and bytes came that are no right answer",
    )?;
    write_reply(text, cause, flaw, uid, heard)
}

// What the bytes read as after a branch of this UID, and what to do.
fn write_reply(
    text: &mut Vec<u8>,
    cause: Cause,
    flaw: Option<Flaw>,
    uid: Uid,
    heard: &Heard,
) -> Result<(), AllocError>
    ensures { OnOk result (text.new.items ≡ text.old.items ++ reply_text cause flaw uid heard.now) }
{
    match heard {
        Heard::One(read) => write_spelt(text, cause, flaw, uid, *read),
        _ => write_wrong(text, cause, flaw, uid),
    }
}

// Why the bytes are no right answer, and what to do.
fn write_wrong(
    text: &mut Vec<u8>,
    cause: Cause,
    flaw: Option<Flaw>,
    uid: Uid,
) -> Result<(), AllocError>
    ensures { OnOk result (text.new.items ≡ text.old.items ++ wrong_text cause flaw uid) }
{
    write_why(text, flaw)?;
    write_cause(text, cause, uid)
}

// Who is probably to blame, and what to do.
fn write_cause(text: &mut Vec<u8>, cause: Cause, uid: Uid) -> Result<(), AllocError>
    ensures { OnOk result (text.new.items ≡ text.old.items ++ cause_text cause uid) }
{
    match cause {
        Cause::Noise(expects) => write_noise(text, expects, uid),
        Cause::Found => write_around(text, "; a rule was broken, probably by noise: ", uid, FOUND),
        Cause::Gone => write_around(
            text,
            "; a rule was broken, perhaps by noise if you took ",
            uid,
            " away; if it is still there, check its power and its cable, and discover again",
        ),
        Cause::Device(found) => write_device(text, found, uid),
        Cause::Unclear(found) => write_unclear(text, found, uid),
        Cause::Other(end) => write_other(text, end, uid),
        Cause::Ended(end) => write_ended(text, end),
        Cause::Stubborn(other) => write_stubborn(text, other),
        Cause::Failed(stubborn) => write(text, guilt_after(stubborn)),
    }
}

const FOUND: &str =
    " was found all the same; if it happens again, take it off the line and discover again";

fn write_noise(text: &mut Vec<u8>, expects: bool, uid: Uid) -> Result<(), AllocError>
    ensures { OnOk result (text.new.items ≡ text.old.items
        ++ (codes "; a rule was broken, probably by noise" ++ nobody_text expects uid
        ++ codes "; if it happens again, check the cable and its terminator")) }
{
    write(text, "; a rule was broken, probably by noise")?;
    write_nobody(text, expects, uid)?;
    write(
        text,
        "; if it happens again, check the cable and its terminator",
    )
}

// Why no device should have the UID.
fn write_nobody(text: &mut Vec<u8>, expects: bool, uid: Uid) -> Result<(), AllocError>
    ensures { OnOk result (text.new.items ≡ text.old.items ++ nobody_text expects uid) }
{
    write_around(
        text,
        nobody_before(expects, uid),
        uid,
        nobody_after(expects, uid),
    )
}

fn nobody_before(expects: bool, uid: Uid) -> &'static str
    ensures { result.now ≡ nobody_before expects uid }
{
    if uid.is_broadcast() {
        ": no device may have "
    } else if expects {
        ": "
    } else {
        " if your rig has no "
    }
}

fn nobody_after(expects: bool, uid: Uid) -> &'static str
    ensures { result.now ≡ nobody_after expects uid }
{
    if uid.is_broadcast() {
        ""
    } else if expects {
        " isn't listed, and all listed devices were found"
    } else {
        "; if it has, name it by --present"
    }
}

fn write_device(text: &mut Vec<u8>, found: bool, uid: Uid) -> Result<(), AllocError>
    ensures { OnOk result (text.new.items ≡ text.old.items
        ++ (codes "; a rule was broken, by a device rather than noise: " ++ off_text found uid)) }
{
    write(text, "; a rule was broken, by a device rather than noise: ")?;
    write_off(text, found, uid)
}

fn write_unclear(text: &mut Vec<u8>, found: bool, uid: Uid) -> Result<(), AllocError>
    ensures { OnOk result (text.new.items ≡ text.old.items
        ++ (codes "; a rule was broken, by a device or noise: " ++ off_text found uid)) }
{
    write(text, "; a rule was broken, by a device or noise: ")?;
    write_off(text, found, uid)
}

fn write_other(text: &mut Vec<u8>, end: Uid, uid: Uid) -> Result<(), AllocError>
    ensures { OnOk result (text.new.items ≡ text.old.items
        ++ (codes "; a rule was broken, by a device or noise: " ++ first_off end uid)) }
{
    write(text, "; a rule was broken, by a device or noise: ")?;
    write_first_off(text, end, uid)
}

fn write_ended(text: &mut Vec<u8>, end: Uid) -> Result<(), AllocError>
    ensures { OnOk result (text.new.items ≡ text.old.items
        ++ (codes "; a rule was broken, by a device or noise: " ++ end_off end)) }
{
    write(text, "; a rule was broken, by a device or noise: ")?;
    write_end_off(text, end)
}

// Whether a device or noise broke a rule, if nothing is said of what to do.
fn guilt_after(stubborn: bool) -> &'static str
    ensures { result.now ≡ guilt_after stubborn }
{
    if stubborn {
        "; a rule was broken, by a device rather than noise"
    } else {
        "; a rule was broken, by a device or noise"
    }
}

fn write_stubborn(text: &mut Vec<u8>, uid: Uid) -> Result<(), AllocError>
    ensures { OnOk result (text.new.items ≡ text.old.items
        ++ (codes "; a rule was broken, by a device or noise: " ++ stubborn_off uid)) }
{
    write(text, "; a rule was broken, by a device or noise: ")?;
    write_stubborn_off(text, uid)
}

// What to do if another UID had many bad answers.
fn write_stubborn_off(text: &mut Vec<u8>, uid: Uid) -> Result<(), AllocError>
    ensures { OnOk result (text.new.items ≡ text.old.items ++ stubborn_off uid) }
{
    if uid.is_broadcast() {
        write(text, "split the line and discover each half")
    } else {
        write_around(
            text,
            "take ",
            uid,
            ", which had many wrong answers, off the line and discover again",
        )
    }
}

// What to do, if the run ended at a UID.
fn write_end_off(text: &mut Vec<u8>, end: Uid) -> Result<(), AllocError>
    ensures { OnOk result (text.new.items ≡ text.old.items ++ end_off end) }
{
    write_around(
        text,
        "take ",
        end,
        ", at which the run ended, off the line and discover again",
    )
}

// The same, and then what to do about another one.
fn write_first_off(text: &mut Vec<u8>, end: Uid, uid: Uid) -> Result<(), AllocError>
    ensures { OnOk result (text.new.items ≡ text.old.items ++ first_off end uid) }
{
    write(text, "first ")?;
    write_end_off(text, end)?;
    write_then(text, uid)
}

// What to do about a UID.
fn write_off(text: &mut Vec<u8>, found: bool, uid: Uid) -> Result<(), AllocError>
    ensures { OnOk result (text.new.items ≡ text.old.items ++ off_text found uid) }
{
    if uid.is_broadcast() {
        write(text, "split the line and discover each half")
    } else {
        write_around(text, "take ", uid, after_take(found))
    }
}

fn after_take(found: bool) -> &'static str
    ensures { result.now ≡ after_take found }
{
    if found {
        " off the line and discover again"
    } else {
        " off the line and discover again; if your rig has no such device, split the line"
    }
}

fn write_spelt(
    text: &mut Vec<u8>,
    cause: Cause,
    flaw: Option<Flaw>,
    uid: Uid,
    read: Uid,
) -> Result<(), AllocError>
    ensures { OnOk result (text.new.items ≡ text.old.items ++ reply_text cause flaw uid (Heard.One read)) }
{
    if read.is_broadcast() {
        write_cause(text, cause, uid)
    } else {
        write_both(text, cause, uid, read)
    }
}

// The bytes are the text of another UID.
fn write_both(text: &mut Vec<u8>, cause: Cause, uid: Uid, read: Uid) -> Result<(), AllocError>
    ensures { OnOk result (text.new.items ≡ text.old.items ++ both_text cause uid read) }
{
    write(text, "; they read as ")?;
    write_uid(text, read)?;
    write_blame(text, &cause, uid, read)
}

fn write_blame(text: &mut Vec<u8>, cause: &Cause, uid: Uid, read: Uid) -> Result<(), AllocError>
    ensures { OnOk result (text.new.items ≡ text.old.items ++ blame_text cause.now uid read) }
{
    match cause {
        Cause::Failed(stubborn) => write(text, guilt_after(*stubborn)),
        _ => write_who(text, cause, uid, read),
    }
}

// Whether a device or noise broke a rule, and what to do.
fn write_who(text: &mut Vec<u8>, cause: &Cause, uid: Uid, read: Uid) -> Result<(), AllocError>
    ensures { OnOk result (text.new.items ≡ text.old.items ++ (who_text cause.now ++ turns_text cause.now uid read)) }
{
    write(text, who_text(cause))?;
    write_turns(text, cause, uid, read)
}

// Whether a device or noise broke a rule.
fn who_text(cause: &Cause) -> &'static str
    ensures { result.now ≡ who_text cause.now }
{
    match cause {
        Cause::Device(_) => "; a rule was broken, by a device rather than noise: ",
        _ => "; a rule was broken, by a device or noise: ",
    }
}

fn write_turns(text: &mut Vec<u8>, cause: &Cause, uid: Uid, read: Uid) -> Result<(), AllocError>
    ensures { OnOk result (text.new.items ≡ text.old.items ++ turns_text cause.now uid read) }
{
    match cause {
        Cause::Other(end) => write_first_off(text, *end, uid),
        Cause::Ended(end) => write_end_off(text, *end),
        Cause::Stubborn(other) => write_stubborn_off(text, *other),
        Cause::Gone => write_off(text, true, read),
        _ => write_in_turn(text, uid, read),
    }
}

// The two UIDs, one after the other.
fn write_in_turn(text: &mut Vec<u8>, uid: Uid, read: Uid) -> Result<(), AllocError>
    ensures { OnOk result (text.new.items ≡ text.old.items ++ (off_text true read ++ then_text uid)) }
{
    write_off(text, true, read)?;
    write_then(text, uid)
}

fn write_then(text: &mut Vec<u8>, uid: Uid) -> Result<(), AllocError>
    ensures { OnOk result (text.new.items ≡ text.old.items ++ then_text uid) }
{
    if uid.is_broadcast() {
        Ok(())
    } else {
        write_next(text, uid)
    }
}

fn write_next(text: &mut Vec<u8>, uid: Uid) -> Result<(), AllocError>
    ensures { OnOk result (text.new.items ≡ text.old.items ++ (codes "; then " ++ uid_text uid)) }
{
    write(text, "; then ")?;
    write_uid(text, uid)
}
