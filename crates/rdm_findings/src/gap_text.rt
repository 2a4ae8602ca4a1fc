//! The parts of a certificate that fail.
ghost use Rattle.std.specs.Prelude.{◌≡◌, ◌++◌, OnOk, Some, codes};
ghost use Rattle.rdm_wire.specs.UidText.{uid_text};
ghost use Rattle.rdm_findings.specs.OpenRanges.{is_greatest, alone_before, alone_after, range_after};
ghost use Rattle.rdm_findings.specs.OpenRanges.{open_text, open_gap, uncovered_gap};
ghost use Rattle.rdm_findings.specs.FindingText.{device_gap, start_gaps, end_gaps, gaps_text};
ghost use Rattle.std.specs.List.{list_all};
ghost use Rattle.rdm_findings.specs.FindingText.{quiet_text, hears_nothing};
ghost use Rattle.rdm_findings.specs.FindingText.{names_gaps, known_gaps, failure_gap, run_gaps};

use crate::ending::decides_stray;
use crate::form::{About, Form, Judgement, begin, end};
use crate::head::{RunHead, Start};
use crate::writing::{
    write, write_around, write_exchange_finding, write_exchange_gap, write_finding, write_uid,
    write_uid_finding, write_uid_gap,
};
use rdm_explain::{Exchange, KnownFinding, RunFinding};
use rdm_wire::{Device, Uid};
use std::alloc::AllocError;

/// Writes the parts of a certificate that fail. If the log may begin within the run, only a failure is decided.
pub(crate) fn write_run_gaps(
    text: &mut Vec<u8>,
    form: Form,
    start: Start,
    found: &RunFinding,
    names: &Option<KnownFinding>,
) -> Result<(), AllocError>
    ensures { OnOk result (text.new.items ≡ text.old.items ++ run_gaps form start found.now names.now) }
{
    if start.is_first() {
        write_gaps(text, form, found)?;
        write_known_gaps(text, form, names)
    } else {
        write_failure(text, form, start, found.failure)
    }
}

/// Writes a finding if the run found all devices, but heard none.
pub(crate) fn write_quiet(
    text: &mut Vec<u8>,
    form: Form,
    head: &RunHead,
    exchanges: &[Exchange],
    found: &RunFinding,
) -> Result<(), AllocError>
    ensures { OnOk result (text.new.items ≡ text.old.items ++ quiet_text form head.now exchanges.now found.now) }
{
    if decides_stray(head, found) && hear_nothing(exchanges) {
        write_finding(
            text,
            form,
            &About::run(Judgement::Quiet),
            "no byte came in the whole run: check the adapter and the first cable",
        )
    } else {
        Ok(())
    }
}

/// Whether no byte came in any exchange.
pub(crate) fn hear_nothing(exchanges: &[Exchange]) -> bool
    ensures { result ≡ list_all hears_nothing exchanges.now }
{
    for exchange in exchanges {
        if !exchange.heard.is_silent() {
            return false;
        }
    }
    true
}

const FAILED: &str = " failed";

fn write_failure(
    text: &mut Vec<u8>,
    form: Form,
    start: Start,
    at: Option<usize>,
) -> Result<(), AllocError>
    ensures { OnOk result (text.new.items ≡ text.old.items ++ failure_gap form start at) }
{
    match at {
        Some(at) => {
            write_exchange_finding(text, form, Judgement::Failure, start.number(at), FAILED)
        }
        None => Ok(()),
    }
}

fn write_gaps(text: &mut Vec<u8>, form: Form, found: &RunFinding) -> Result<(), AllocError>
    ensures { OnOk result (text.new.items ≡ text.old.items ++ gaps_text form found.now) }
{
    write_start_gaps(text, form, found)?;
    write_end_gaps(text, form, found)
}

fn write_start_gaps(text: &mut Vec<u8>, form: Form, found: &RunFinding) -> Result<(), AllocError>
    ensures { OnOk result (text.new.items ≡ text.old.items ++ start_gaps form found.now) }
{
    write_exchange_gap(
        text,
        form,
        Judgement::Gap,
        found.missing_unmute,
        " should be one of the three unmutes that begin a run",
    )?;
    write_exchange_gap(text, form, Judgement::Failure, found.failure, FAILED)?;
    write_uid_gap(
        text,
        form,
        found.misreported,
        " acknowledged a mute, but isn't reported: a run reports at most 1,024 devices",
    )
}

const UNTRIED: &str =
    " mutes a UID that neither acknowledged nor was muted five times in a row: perhaps no device has it";

fn write_end_gaps(text: &mut Vec<u8>, form: Form, found: &RunFinding) -> Result<(), AllocError>
    ensures { OnOk result (text.new.items ≡ text.old.items ++ end_gaps form found.now) }
{
    write_exchange_gap(text, form, Judgement::Gap, found.untried, UNTRIED)?;
    write_uncovered(text, form, found.uncovered, found.uncovered_to)?;
    write_device_gap(
        text,
        form,
        &found.other_data,
        " isn't reported as in its first acknowledgement",
    )
}

// About the first range that wasn't ruled out.
fn write_uncovered(
    text: &mut Vec<u8>,
    form: Form,
    first: Option<Uid>,
    last: Option<Uid>,
) -> Result<(), AllocError>
    ensures { OnOk result (text.new.items ≡ text.old.items ++ uncovered_gap form first last) }
{
    match first {
        Some(first) => write_open_gap(text, form, first, last),
        None => Ok(()),
    }
}

fn write_open_gap(
    text: &mut Vec<u8>,
    form: Form,
    first: Uid,
    last: Option<Uid>,
) -> Result<(), AllocError>
    ensures { OnOk result (text.new.items ≡ text.old.items ++ open_gap form first last) }
{
    match last {
        Some(last) => write_unsettled(text, form, first, last),
        None => Ok(()),
    }
}

fn write_unsettled(text: &mut Vec<u8>, form: Form, first: Uid, last: Uid) -> Result<(), AllocError>
    ensures { OnOk result (text.new.items ≡ text.old.items ++ open_gap form first (Some last)) }
{
    begin(text, form, &About::uid(Judgement::Gap, first))?;
    write_open(text, first, last)?;
    end(text, form)
}

fn write_open(text: &mut Vec<u8>, first: Uid, last: Uid) -> Result<(), AllocError>
    ensures { OnOk result (text.new.items ≡ text.old.items ++ open_text first last) }
{
    if first == last {
        write_around(text, alone_before(first), first, alone_after(first))
    } else {
        write_range(text, first, last)
    }
}

fn write_range(text: &mut Vec<u8>, first: Uid, last: Uid) -> Result<(), AllocError>
    ensures { OnOk result (text.new.items ≡ text.old.items ++ (codes "not settled: a device from " ++ uid_text first
        ++ (codes " to " ++ uid_text last ++ range_after last))) }
{
    write(text, "not settled: a device from ")?;
    write_uid(text, first)?;
    write_around(text, " to ", last, range_after(last))
}

// What comes after the last UID of a range: those above it may be open too.
fn range_after(last: Uid) -> &'static str
    ensures { result.now ≡ range_after last }
{
    if is_greatest(last) {
        " may be missing"
    } else {
        " may be missing, perhaps others above it too"
    }
}

fn alone_before(uid: Uid) -> &'static str
    ensures { result.now ≡ alone_before uid }
{
    if is_greatest(uid) {
        ""
    } else if uid.is_broadcast() {
        "not settled: "
    } else {
        "not settled: a device with "
    }
}

fn alone_after(uid: Uid) -> &'static str
    ensures { result.now ≡ alone_after uid }
{
    if is_greatest(uid) {
        " alone wasn't ruled out, and no device may have it"
    } else if uid.is_broadcast() {
        " wasn't ruled out, and perhaps UIDs above it; no device may have this one"
    } else {
        " may be missing, perhaps others above it too"
    }
}

fn is_greatest(uid: Uid) -> bool
    ensures { result ≡ is_greatest uid }
{
    uid == Uid::ALL
}

fn write_device_gap(
    text: &mut Vec<u8>,
    form: Form,
    device: &Option<Device>,
    last: &str,
) -> Result<(), AllocError>
    ensures { OnOk result (text.new.items ≡ text.old.items ++ device_gap form device.now last.now) }
{
    match device {
        Some(device) => write_uid_finding(text, form, Judgement::Gap, device.uid, last),
        None => Ok(()),
    }
}

// Writes the parts that fail of those that depend on the known UIDs, if these parts are known.
fn write_known_gaps(
    text: &mut Vec<u8>,
    form: Form,
    found: &Option<KnownFinding>,
) -> Result<(), AllocError>
    ensures { OnOk result (text.new.items ≡ text.old.items ++ known_gaps form found.now) }
{
    match found {
        Some(found) => write_names_gaps(text, form, found),
        None => Ok(()),
    }
}

fn write_names_gaps(text: &mut Vec<u8>, form: Form, found: &KnownFinding) -> Result<(), AllocError>
    ensures { OnOk result (text.new.items ≡ text.old.items ++ names_gaps form found.now) }
{
    write_uid_gap(
        text,
        form,
        found.not_muted_first,
        " is known, but wasn't muted before the first branch",
    )?;
    write_exchange_gap(
        text,
        form,
        Judgement::Gap,
        found.unread,
        " mutes a UID that no earlier branch had read",
    )
}
