//! What is printed around the runs of a log.
ghost use Rattle.std.specs.Prelude.{◌≡◌, ◌++◌, IfOk, OnOk, codes, drop, flat_map};
ghost use Rattle.rdm_findings.specs.Document.{passing_finding, document_start, document_end, document_stop, stop_name};
ghost use Rattle.rdm_findings.specs.Document.{before_fault, after_fault};

use crate::form::{Form, Judgement};
use crate::log::LogFault;
use crate::writing::{write, write_number, write_uid_finding};
use rdm_wire::Uid;
use std::alloc::{AllocError, Global};

/// What precedes the first run of a log: the devices that come or leave.
pub fn document_start(alloc: Global, form: Form, passing: &[Uid]) -> Result<Vec<u8>, AllocError>
    ensures { IfOk result (λ text. text.items ≡ document_start form passing.now) }
{
    let listed = passing_text(alloc, form, passing)?;
    match form {
        Form::Lines => Ok(listed),
        Form::Json => in_object(alloc, &listed),
    }
}

// The list of those devices, and the beginning of the list of runs, without the comma before the first device.
fn in_object(alloc: Global, listed: &[u8]) -> Result<Vec<u8>, AllocError>
    ensures { IfOk result (λ text. text.items
        ≡ codes "{\"passing\":[" ++ drop 1 listed.now ++ codes "],\"runs\":[") }
{
    let mut text = Vec::from_slice(alloc, b"{\"passing\":[")?;
    text.extend_from_slice(without_first(listed))?;
    text.extend_from_slice(b"],\"runs\":[")?;
    Ok(text)
}

fn without_first(bytes: &[u8]) -> &[u8]
    ensures { result.now ≡ drop 1 bytes.now }
{
    if bytes.is_empty() { bytes } else { &bytes[1..] }
}

fn passing_text(alloc: Global, form: Form, passing: &[Uid]) -> Result<Vec<u8>, AllocError>
    ensures { IfOk result (λ text. text.items ≡ flat_map (passing_finding form) passing.now) }
{
    let mut text = Vec::new(alloc);
    'passing: for uid in passing {
        write_passing(&mut text, form, *uid)?;
    }
    Ok(text)
}

const PASSING: &str =
    " can't be judged: it comes or leaves, and may have been absent when it was asked";

fn write_passing(text: &mut Vec<u8>, form: Form, uid: Uid) -> Result<(), AllocError>
    ensures { OnOk result (text.new.items ≡ text.old.items ++ passing_finding form uid) }
{
    write_uid_finding(text, form, Judgement::Passing, uid, PASSING)
}

/// What follows the last run of a log. The flag says whether a rule was broken in any.
pub fn document_end(form: Form, broken: bool) -> &'static str
    ensures { result.now ≡ document_end form broken }
{
    match form {
        Form::Lines => "",
        Form::Json => {
            if broken {
                "],\"broken\":true}\n"
            } else {
                "],\"broken\":false}\n"
            }
        }
    }
}

/// What follows the last run that was explained, if this fault ended that.
pub fn document_stop(alloc: Global, form: Form, fault: LogFault) -> Result<Vec<u8>, AllocError>
    ensures { IfOk result (λ text. text.items ≡ document_stop form fault) }
{
    let mut text = Vec::new(alloc);
    write(&mut text, before_fault(form))?;
    write_stop(&mut text, fault)?;
    write(&mut text, after_fault(form))?;
    Ok(text)
}

/// The same if there was no memory, without any.
pub fn memory_stop(form: Form) -> &'static str
    ensures { result.now ≡ document_stop form LogFault.NoMemory }
{
    match form {
        Form::Lines => "fault: memory\n",
        Form::Json => "],\"fault\":\"memory\"}\n",
    }
}

fn before_fault(form: Form) -> &'static str
    ensures { result.now ≡ before_fault form }
{
    match form {
        Form::Lines => "fault: ",
        Form::Json => "],\"fault\":\"",
    }
}

fn after_fault(form: Form) -> &'static str
    ensures { result.now ≡ after_fault form }
{
    match form {
        Form::Lines => "\n",
        Form::Json => "\"}\n",
    }
}

fn write_stop(text: &mut Vec<u8>, fault: LogFault) -> Result<(), AllocError>
    ensures { OnOk result (text.new.items ≡ text.old.items ++ stop_name fault) }
{
    match fault {
        LogFault::Unread(_) => write(text, "file"),
        LogFault::Line(number) => {
            write(text, "line ")?;
            write_number(text, number)
        }
        LogFault::Unwritten(_) => write(text, "output"),
        LogFault::NoMemory => write(text, "memory"),
    }
}
