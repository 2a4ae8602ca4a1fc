//! What is printed about stray bytes.
ghost use Rattle.std.specs.Prelude.{◌≡◌, ◌++◌, OnOk, codes};
ghost use Rattle.rdm_wire.specs.UidText.{uid_text};
ghost use Rattle.rdm_findings.specs.FindingText.{sighting_name, range_text, mute_text, place_text, sign_text};
ghost use Rattle.rdm_findings.specs.FindingText.{sender_text, stray_text, stray_found, stray_finding};
ghost use Rattle.rdm_findings.specs.FindingText.{asks_around, silent_text};
ghost use Rattle.rdm_findings.specs.FindingText.{stray_judgement, sign_uid, of_stray};
ghost use Rattle.rdm_findings.specs.Forms.{finding};

use crate::form::{About, Form, Judgement, begin, end};
use crate::head::Start;
use crate::stray_bytes::{Sign, sign_of};
use crate::writing::{write, write_sighting, write_uid};
use rdm_explain::{Asked, Exchange, Sighting};
use rdm_wire::Uid;
use std::alloc::AllocError;

/// Writes the finding about a stray exchange, if there is one. `listed` also has the devices that come or leave.
/// `decided` says that the bytes show that a rule was broken.
pub(crate) fn write_stray(
    text: &mut Vec<u8>,
    form: Form,
    start: Start,
    listed: &[Uid],
    decided: bool,
    exchanges: &[Exchange],
    stray: Option<Sighting>,
) -> Result<(), AllocError>
    ensures { OnOk result (text.new.items ≡ text.old.items
        ++ stray_finding form start listed.now decided exchanges.now stray) }
{
    let Some(first) = stray else {
        return Ok(());
    };
    match exchanges.get(first.at) {
        Some(exchange) => {
            let sign = sign_of(listed, exchange);
            write_found(
                text,
                form,
                start.number(first.at),
                first.more as u64,
                decided,
                &exchange.asked,
                &sign,
            )
        }
        None => Ok(()),
    }
}

fn write_found(
    text: &mut Vec<u8>,
    form: Form,
    number: u64,
    more: u64,
    decided: bool,
    asked: &Asked,
    sign: &Sign,
) -> Result<(), AllocError>
    ensures { OnOk result (text.new.items ≡ text.old.items
        ++ finding form (of_stray decided number sign.now)
        (sighting_name number more ++ stray_text decided asked.now sign.now)) }
{
    begin(text, form, &about(decided, number, sign))?;
    write_sighting(text, number, more)?;
    write_reason(text, decided, asked, sign)?;
    end(text, form)
}

fn about(decided: bool, number: u64, sign: &Sign) -> About
    ensures { result ≡ of_stray decided number sign.now }
{
    About {
        judgement: stray_judgement(decided),
        uid: sign_uid(sign),
        exchange: Some(number),
    }
}

fn stray_judgement(decided: bool) -> Judgement
    ensures { result ≡ stray_judgement decided }
{
    if decided {
        Judgement::Stray
    } else {
        Judgement::Unexplained
    }
}

fn sign_uid(sign: &Sign) -> Option<Uid>
    ensures { result ≡ sign_uid sign.now }
{
    match sign {
        Sign::Listed(uid) | Sign::Other(uid) => Some(*uid),
        Sign::Unread => None,
    }
}

// After what the bytes came, what they read as, and who may have sent them.
fn write_reason(
    text: &mut Vec<u8>,
    decided: bool,
    asked: &Asked,
    sign: &Sign,
) -> Result<(), AllocError>
    ensures { OnOk result (text.new.items ≡ text.old.items ++ stray_text decided asked.now sign.now) }
{
    write_place(text, asked)?;
    write_sign(text, asked, sign)?;
    write(text, sender_text(decided, sign))
}

fn sender_text(decided: bool, sign: &Sign) -> &'static str
    ensures { result.now ≡ sender_text decided sign.now }
{
    match (sign, decided) {
        (Sign::Listed(_), true) | (Sign::Other(_), false) => "",
        (Sign::Listed(_), false) => "; or another device sent them",
        (Sign::Other(_), true) | (Sign::Unread, true) => "; a rule was broken",
        (Sign::Unread, false) => "; they may be noise, or those of a device that isn't listed",
    }
}

fn write_sign(text: &mut Vec<u8>, asked: &Asked, sign: &Sign) -> Result<(), AllocError>
    ensures { OnOk result (text.new.items ≡ text.old.items ++ sign_text asked.now sign.now) }
{
    match sign {
        Sign::Listed(uid) => write_spelt(text, *uid, silent_text(asks_around(*uid, asked))),
        Sign::Other(uid) => write_spelt(text, *uid, ", which isn't listed"),
        Sign::Unread => Ok(()),
    }
}

// Whether a range was asked that has this UID.
fn asks_around(uid: Uid, asked: &Asked) -> bool
    ensures { result ≡ asks_around uid asked.now }
{
    match asked {
        Asked::Branch { lo, hi } => *lo <= uid && uid <= *hi,
        _ => false,
    }
}

// A restart explains no answer for a range without its UID.
fn silent_text(within: bool) -> &'static str
    ensures { result.now ≡ silent_text within }
{
    if within {
        ", which should be silent there unless it restarted"
    } else {
        ", which should be silent there"
    }
}

fn write_spelt(text: &mut Vec<u8>, uid: Uid, last: &str) -> Result<(), AllocError>
    ensures { OnOk result (text.new.items ≡ text.old.items
        ++ (codes "; they read as " ++ uid_text uid ++ last.now)) }
{
    write(text, "; they read as ")?;
    write_uid(text, uid)?;
    write(text, last)
}

// After which frame bytes came. After other frames than these, no bytes are stray.
fn write_place(text: &mut Vec<u8>, asked: &Asked) -> Result<(), AllocError>
    ensures { OnOk result (text.new.items ≡ text.old.items ++ place_text asked.now) }
{
    match asked {
        Asked::Branch { lo, hi } => write_asked(text, *lo, *hi),
        Asked::Mute(uid) => write_mute(text, *uid),
        _ => Ok(()),
    }
}

const NOBODY_WAS_DUE: &str = ", and bytes came though no listed device was due";

fn write_asked(text: &mut Vec<u8>, lo: Uid, hi: Uid) -> Result<(), AllocError>
    ensures { OnOk result (text.new.items ≡ text.old.items
        ++ (range_text lo hi ++ codes ", and bytes came though no listed device was due")) }
{
    write_range(text, lo, hi)?;
    write(text, NOBODY_WAS_DUE)
}

fn write_mute(text: &mut Vec<u8>, uid: Uid) -> Result<(), AllocError>
    ensures { OnOk result (text.new.items ≡ text.old.items ++ mute_text uid) }
{
    write(text, ": bytes came after a mute of ")?;
    write_uid(text, uid)?;
    write(text, ", which isn't listed")
}

fn write_range(text: &mut Vec<u8>, lo: Uid, hi: Uid) -> Result<(), AllocError>
    ensures { OnOk result (text.new.items ≡ text.old.items ++ range_text lo hi) }
{
    if lo == hi {
        write_one(text, lo)
    } else {
        write_between(text, lo, hi)
    }
}

fn write_one(text: &mut Vec<u8>, uid: Uid) -> Result<(), AllocError>
    ensures { OnOk result (text.new.items ≡ text.old.items
        ++ (codes ": " ++ uid_text uid ++ codes " alone was asked")) }
{
    write(text, ": ")?;
    write_uid(text, uid)?;
    write(text, " alone was asked")
}

fn write_between(text: &mut Vec<u8>, lo: Uid, hi: Uid) -> Result<(), AllocError>
    ensures { OnOk result (text.new.items ≡ text.old.items ++ (codes ": the UIDs from " ++ uid_text lo
        ++ (codes " to " ++ uid_text hi ++ codes " were asked"))) }
{
    write(text, ": the UIDs from ")?;
    write_uid(text, lo)?;
    write_to(text, hi)
}

fn write_to(text: &mut Vec<u8>, hi: Uid) -> Result<(), AllocError>
    ensures { OnOk result (text.new.items ≡ text.old.items
        ++ (codes " to " ++ uid_text hi ++ codes " were asked")) }
{
    write(text, " to ")?;
    write_uid(text, hi)?;
    write(text, " were asked")
}
