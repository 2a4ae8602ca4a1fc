//! What JSON has of a run before the sentence of its first finding.
ghost use Rattle.std.specs.Prelude.{◌≡◌, ◌++◌, OnOk, Some, codes, decimal, length, map};
ghost use Rattle.rdm_wire.specs.UidText.{uid_text};
ghost use Rattle.rdm_findings.specs.RunJson.{number_part, kind_part, search_part, first_part, end_name, end_part};
ghost use Rattle.rdm_findings.specs.RunJson.{exchange_letter, known_parts, outcome_parts, heard_part, run_start};
ghost use Rattle.rdm_findings.specs.RunJson.{before_run, run_end};

use crate::form::{About, Form, write_start};
use crate::head::{RunHead, Start};
use crate::writing::{write, write_number, write_uid};
use rdm_agent::{AgentFault, Kind, Search};
use rdm_explain::{Exchange, Heard};
use rdm_wire::Uid;
use std::alloc::AllocError;

/// Writes what precedes a run. The flag says whether others were printed before.
pub(crate) fn write_before_run(text: &mut Vec<u8>, form: Form, any: bool) -> Result<(), AllocError>
    ensures { OnOk result (text.new.items ≡ text.old.items ++ before_run form any) }
{
    match form {
        Form::Lines => Ok(()),
        Form::Json => write(text, if any { "," } else { "" }),
    }
}

/// Writes what precedes the sentence of a run's first finding.
pub(crate) fn write_run_start(
    text: &mut Vec<u8>,
    form: Form,
    head: &RunHead,
    ending: Option<Option<AgentFault>>,
    devices: usize,
    exchanges: &[Exchange],
    about: &About,
) -> Result<(), AllocError>
    ensures { OnOk result (text.new.items ≡ text.old.items
        ++ run_start form head.now ending devices exchanges.now about.now) }
{
    match form {
        Form::Lines => Ok(()),
        Form::Json => {
            write_members(text, head, ending, devices, exchanges)?;
            write(text, ",\"findings\":[")?;
            write_start(text, about)
        }
    }
}

/// Writes what follows a run's last finding.
pub(crate) fn write_run_end(text: &mut Vec<u8>, form: Form) -> Result<(), AllocError>
    ensures { OnOk result (text.new.items ≡ text.old.items ++ run_end form) }
{
    match form {
        Form::Lines => Ok(()),
        Form::Json => write(text, "]}"),
    }
}

fn write_members(
    text: &mut Vec<u8>,
    head: &RunHead,
    ending: Option<Option<AgentFault>>,
    devices: usize,
    exchanges: &[Exchange],
) -> Result<(), AllocError>
    ensures { OnOk result (text.new.items ≡ text.old.items
        ++ (codes "{\"exchanges\":" ++ decimal (length exchanges.now) ++ known_parts head.now
        ++ outcome_parts ending devices ++ heard_part exchanges.now)) }
{
    write(text, "{\"exchanges\":")?;
    write_number(text, exchanges.len() as u64)?;
    write_known(text, head)?;
    write_outcome(text, ending, devices)?;
    write_heard(text, exchanges)
}

fn write_known(text: &mut Vec<u8>, head: &RunHead) -> Result<(), AllocError>
    ensures { OnOk result (text.new.items ≡ text.old.items ++ known_parts head.now) }
{
    write_run_number(text, head.number)?;
    write(text, kind_part(head.kind))?;
    write(text, search_part(head.search))?;
    write_first(text, head.start)
}

fn write_run_number(text: &mut Vec<u8>, number: Option<u64>) -> Result<(), AllocError>
    ensures { OnOk result (text.new.items ≡ text.old.items ++ number_part number) }
{
    match number {
        Some(number) => {
            write(text, ",\"run\":")?;
            write_number(text, number)
        }
        None => Ok(()),
    }
}

fn kind_part(kind: Option<Kind>) -> &'static str
    ensures { result.now ≡ kind_part kind }
{
    match kind {
        None => "",
        Some(Kind::Full) => ",\"kind\":\"full\"",
        Some(Kind::Incremental) => ",\"kind\":\"incremental\"",
    }
}

fn search_part(search: Option<Search>) -> &'static str
    ensures { result.now ≡ search_part search }
{
    match search {
        None => "",
        Some(Search::Steady) => ",\"search\":\"steady\"",
        Some(Search::Quick) => ",\"search\":\"quick\"",
    }
}

fn write_first(text: &mut Vec<u8>, start: Start) -> Result<(), AllocError>
    ensures { OnOk result (text.new.items ≡ text.old.items ++ first_part start) }
{
    match start {
        Start::At(number) => {
            write(text, ",\"first\":")?;
            write_number(text, number)
        }
        Start::Later | Start::Unknown => Ok(()),
    }
}

fn write_outcome(
    text: &mut Vec<u8>,
    ending: Option<Option<AgentFault>>,
    devices: usize,
) -> Result<(), AllocError>
    ensures { OnOk result (text.new.items ≡ text.old.items ++ outcome_parts ending devices) }
{
    write_end_part(text, ending)?;
    write(text, ",\"devices\":")?;
    write_number(text, devices as u64)
}

fn write_end_part(text: &mut Vec<u8>, ending: Option<Option<AgentFault>>) -> Result<(), AllocError>
    ensures { OnOk result (text.new.items ≡ text.old.items ++ end_part ending) }
{
    match ending {
        Some(fault) => {
            write(text, ",\"end\":\"")?;
            write_end_name(text, fault)
        }
        None => Ok(()),
    }
}

fn write_end_name(text: &mut Vec<u8>, fault: Option<AgentFault>) -> Result<(), AllocError>
    ensures { OnOk result (text.new.items ≡ text.old.items ++ end_name fault) }
{
    match fault {
        None => write(text, "no fault\""),
        Some(fault) => write_fault_name(text, fault),
    }
}

fn write_fault_name(text: &mut Vec<u8>, fault: AgentFault) -> Result<(), AllocError>
    ensures { OnOk result (text.new.items ≡ text.old.items ++ end_name (Some fault)) }
{
    match fault {
        AgentFault::Corrupt(uid) => write_corrupt(text, uid),
        AgentFault::TooMany => write(text, "too many devices\""),
        AgentFault::Exhausted => write(text, "budget used up\""),
        AgentFault::LineFailed => write(text, "line failed\""),
        AgentFault::Aborted => write(text, "aborted\""),
    }
}

fn write_corrupt(text: &mut Vec<u8>, uid: Uid) -> Result<(), AllocError>
    ensures { OnOk result (text.new.items ≡ text.old.items ++ end_name (Some (AgentFault.Corrupt uid))) }
{
    write(text, "corrupt\",\"uid\":\"")?;
    write_uid(text, uid)?;
    write(text, "\"")
}

fn write_heard(text: &mut Vec<u8>, exchanges: &[Exchange]) -> Result<(), AllocError>
    ensures { OnOk result (text.new.items ≡ text.old.items ++ heard_part exchanges.now) }
{
    write(text, ",\"heard\":\"")?;
    write_letters(text, exchanges)?;
    write(text, "\"")
}

fn write_letters(text: &mut Vec<u8>, exchanges: &[Exchange]) -> Result<(), AllocError>
    ensures { OnOk result (text.new.items ≡ text.old.items ++ map exchange_letter exchanges.now) }
{
    'exchanges: for exchange in exchanges {
        text.push(letter(exchange))?;
    }
    Ok(())
}

// A letter for what came after a frame.
fn letter(exchange: &Exchange) -> u8
    ensures { result ≡ exchange_letter exchange.now }
{
    match exchange.heard {
        Heard::Acked(_) => b'a',
        Heard::Failed => b'f',
        Heard::Noise => b'n',
        Heard::One(_) => b'o',
        Heard::Silent => b's',
    }
}
