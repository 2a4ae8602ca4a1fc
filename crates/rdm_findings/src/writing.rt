//! Findings about exchanges and about UIDs.
ghost use Rattle.std.specs.Prelude.{◌≡◌, ◌++◌, OnOk, codes, decimal};
ghost use Rattle.rdm_wire.specs.UidText.{uid_text};
ghost use Rattle.rdm_findings.specs.FindingText.{exchange_name, exchange_finding, uid_finding, exchange_gap, uid_gap};
ghost use Rattle.rdm_findings.specs.Forms.{after_sentence, finding};
ghost use Rattle.rdm_findings.specs.FindingText.{count_text, sighting_name};

use crate::form::{About, Form, Judgement, begin, end};
use itoa::Buffer;
use rdm_wire::Uid;
use std::alloc::AllocError;

/// Writes a text.
pub(crate) fn write(text: &mut Vec<u8>, more: &str) -> Result<(), AllocError>
    ensures { OnOk result (text.new.items ≡ text.old.items ++ more.now) }
{
    text.extend_from_slice(more.as_bytes())
}

/// Writes a number.
pub(crate) fn write_number(text: &mut Vec<u8>, number: u64) -> Result<(), AllocError>
    ensures { OnOk result (text.new.items ≡ text.old.items ++ decimal number) }
{
    text.extend_from_slice(Buffer::new().format(number).as_bytes())
}

/// Writes a UID.
pub(crate) fn write_uid(text: &mut Vec<u8>, uid: Uid) -> Result<(), AllocError>
    ensures { OnOk result (text.new.items ≡ text.old.items ++ uid_text uid) }
{
    text.extend_from_slice(&uid.to_text())
}

/// Writes a UID between two texts.
pub(crate) fn write_around(
    text: &mut Vec<u8>,
    before: &str,
    uid: Uid,
    after: &str,
) -> Result<(), AllocError>
    ensures { OnOk result (text.new.items ≡ text.old.items ++ (before.now ++ uid_text uid ++ after.now)) }
{
    write(text, before)?;
    write_uid(text, uid)?;
    write(text, after)
}

/// Writes how many there are of a thing.
pub(crate) fn write_count(text: &mut Vec<u8>, count: u64, thing: &str) -> Result<(), AllocError>
    ensures { OnOk result (text.new.items ≡ text.old.items ++ count_text count thing.now) }
{
    write_number(text, count)?;
    write(text, thing)?;
    write(text, if count == 1 { "" } else { "s" })
}

/// Writes the end of a sentence, and of its finding.
pub(crate) fn write_end(text: &mut Vec<u8>, form: Form, last: &str) -> Result<(), AllocError>
    ensures { OnOk result (text.new.items ≡ text.old.items ++ (last.now ++ after_sentence form)) }
{
    write(text, last)?;
    end(text, form)
}

/// Writes a finding whose sentence is a fixed text.
pub(crate) fn write_finding(
    text: &mut Vec<u8>,
    form: Form,
    about: &About,
    sentence: &str,
) -> Result<(), AllocError>
    ensures { OnOk result (text.new.items ≡ text.old.items ++ finding form about.now sentence.now) }
{
    begin(text, form, about)?;
    write_end(text, form, sentence)
}

/// Writes a finding about an exchange.
pub(crate) fn write_exchange_finding(
    text: &mut Vec<u8>,
    form: Form,
    judgement: Judgement,
    number: u64,
    last: &str,
) -> Result<(), AllocError>
    ensures { OnOk result (text.new.items ≡ text.old.items ++ exchange_finding form judgement number last.now) }
{
    begin(text, form, &About::exchange(judgement, number))?;
    write_exchange(text, number)?;
    write_end(text, form, last)
}

/// Writes the name of an exchange.
pub(crate) fn write_exchange(text: &mut Vec<u8>, number: u64) -> Result<(), AllocError>
    ensures { OnOk result (text.new.items ≡ text.old.items ++ exchange_name number) }
{
    write(text, "exchange ")?;
    write_number(text, number)
}

/// Writes the name of an exchange, and how many others of its kind come after it.
pub(crate) fn write_sighting(text: &mut Vec<u8>, number: u64, more: u64) -> Result<(), AllocError>
    ensures { OnOk result (text.new.items ≡ text.old.items ++ sighting_name number more) }
{
    write_exchange(text, number)?;
    if more == 0 {
        Ok(())
    } else {
        write_more(text, more)
    }
}

fn write_more(text: &mut Vec<u8>, more: u64) -> Result<(), AllocError>
    ensures { OnOk result (text.new.items ≡ text.old.items ++ (codes " (and " ++ decimal more ++ codes " more)")) }
{
    write(text, " (and ")?;
    write_number(text, more)?;
    write(text, " more)")
}

/// Writes a finding about a UID.
pub(crate) fn write_uid_finding(
    text: &mut Vec<u8>,
    form: Form,
    judgement: Judgement,
    uid: Uid,
    last: &str,
) -> Result<(), AllocError>
    ensures { OnOk result (text.new.items ≡ text.old.items ++ uid_finding form judgement uid last.now) }
{
    begin(text, form, &About::uid(judgement, uid))?;
    write_uid(text, uid)?;
    write_end(text, form, last)
}

/// Writes a finding about the exchange of a run with this index, if there is one.
pub(crate) fn write_exchange_gap(
    text: &mut Vec<u8>,
    form: Form,
    judgement: Judgement,
    at: Option<usize>,
    last: &str,
) -> Result<(), AllocError>
    ensures { OnOk result (text.new.items ≡ text.old.items ++ exchange_gap form judgement at last.now) }
{
    match at {
        Some(at) => write_exchange_finding(text, form, judgement, at as u64, last),
        None => Ok(()),
    }
}

/// Writes a part of the certificate that fails for a UID, if there is one.
pub(crate) fn write_uid_gap(
    text: &mut Vec<u8>,
    form: Form,
    uid: Option<Uid>,
    last: &str,
) -> Result<(), AllocError>
    ensures { OnOk result (text.new.items ≡ text.old.items ++ uid_gap form uid last.now) }
{
    match uid {
        Some(uid) => write_uid_finding(text, form, Judgement::Gap, uid, last),
        None => Ok(()),
    }
}
