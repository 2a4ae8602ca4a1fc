//! Answers the command that explains a log.
ghost use Rattle.std.specs.Prelude.{◌≡◌, ◌⊎◌, ◌++◌, ◌≤◌, ℕ, List, IfOk, IfErr, OnOk, OnErr, IfSome, false, is_some};
ghost use Rattle.std.specs.Prelude.{All, length};
ghost use Rattle.std.specs.Io.KnownBytes.{Appends};
ghost use Rattle.rdm_findings.specs.declared.line.LogLine.{LogLine};
ghost use Rattle.rdm_findings.specs.Document.{document_start, document_stop};
ghost use Rattle.rdm_findings.specs.SameLines.{FitsLine};
ghost use Rattle.rdm_findings.specs.Lines.{lines_text};
ghost use Rattle.rdm_findings.specs.Logs.{IsLogText};
ghost use Rattle.rdm_findings.specs.Runs.{runs_of};
ghost use Rattle.rdm_port.specs.Explanation.{Explains, HasDevices, HasRig, IsExplainFault, IsExplanation};
ghost use Rattle.rdm_port.specs.Explanation.{IsPartExplanation, IsRigFault, SaysPresent, explain_status, form_of};
ghost use Rattle.rdm_port.specs.Explanation.{rigs, without};
ghost use Rattle.rdm_port.specs.Fault.{IsTextFault, SaysFile};
ghost use Rattle.rdm_port.specs.Outcome.{IsPrinted};
ghost use Rattle.rdm_port.specs.body.Parts.{IsNoWriterFault, WritesPart};

use crate::answer::Refused;
use crate::fault::Fault;
use crate::input::{bytes_of_file, no_json};
use crate::line_values::devices_of;
use crate::performing::{NOT_WRITTEN, print_text};
use crate::reason::Reason;
use crate::remark::remark_on;
use rdm_arguments::ExplainJob;
use rdm_files::{FileKind, RigFile, SceneFault, read_rig, unknown_in_scene};
use rdm_findings::{
    Form, LogFault, document_end, document_start, document_stop, explain_log, memory_stop,
};
use rdm_reports::{Progress, write_all};
use rdm_wire::{MOST_DEVICES, Uid, UidSet};
use serde_json::Value;
use std::alloc::{AllocError, Global};
use std::io::{BufReader, ErrorKind, Read, Write};

/// Prints what a log shows: the findings about its runs, each when it has ended, and then a fault, if it isn't
/// explained to its end. Returns the status, and the reason for a fault. Err: nothing was printed. The rig is the scene
/// file with devices that were present, if the arguments name one. The progress receives what people should know about
/// it.
pub fn print_explanation<'a, R: Read, S: Read, W: Write, P: Progress>(
    alloc: Global,
    job: &ExplainJob<'a>,
    reader: &mut R,
    rig: &mut S,
    writer: &mut W,
    progress: &mut P,
) -> Result<(u8, Option<Reason<'a>>), Refused<'a>>
    ensures ok { IfOk result (λ p. (text : List ℕ) × (status : ℕ)
        × Explains job.now (R.remaining reader.old) (S.remaining rig.old) text status
        × IsPrinted (W.contents writer.old) (W.contents writer.new) text status p.0) }
    ensures fault { IfErr result (λ e. IsExplainFault job.now (S.remaining rig.old) e.0) }
    ensures unprinted { OnErr result (writer.new ≡ writer.old) }
{
    let devices = match listed(alloc, job, rig, progress) {
        Ok(devices) => devices,
        Err(refused) => return Err(refused),
    };
    let form = form_of(job.json);
    let Ok(start) = document_start(alloc, form, &devices.passing) else {
        return Err((Fault::Memory, None));
    };
    Ok(print_log(alloc, form, job.log, &devices, &start, reader, writer))
}

// The devices that an explanation is about.
#[derive(Drop)]
struct Devices {
    // Those that were present.
    present: Vec<Uid>,
    // Those that come or leave.
    passing: Vec<Uid>,
}

// The devices that the arguments give, and those of the scene file. Err: one isn't a device's UID, or there is no such
// scene, or more than 1,024 were present.
fn listed<'a, S: Read, P: Progress>(
    alloc: Global,
    job: &ExplainJob<'a>,
    rig: &mut S,
    progress: &mut P,
) -> Result<Devices, Refused<'a>>
    ensures ok { IfOk result (λ d. HasDevices job.now (S.remaining rig.old) d.present.items d.passing.items) }
    ensures few { IfOk result (λ d. length d.present.items ≤ MOST_DEVICES) }
    ensures fault { IfErr result (λ e. IsExplainFault job.now (S.remaining rig.old) e.0) }
{
    let given = match given_of(job) {
        Ok(given) => given,
        Err(refused) => return Err(refused),
    };
    let file = match rig_of(alloc, job.rig, rig, progress) {
        Ok(file) => file,
        Err(refused) => return Err(refused),
    };
    match joined(alloc, &given, &file) {
        Ok(devices) if MOST_DEVICES < devices.present.len() => {
            Err((Fault::Scene, Some(Reason::TooManyPresent)))
        }
        Ok(devices) => Ok(devices),
        Err(_) => Err((Fault::Memory, None)),
    }
}

// The UIDs that the arguments give. Err: one of them isn't a device's. Or there are more than 1,024, which no arguments
// give.
fn given_of<'a>(job: &ExplainJob<'a>) -> Result<UidSet, Refused<'a>>
    ensures ok { IfOk result (SaysPresent job.now) }
    ensures fault { IfErr result (λ e. (e.0 ≡ Fault.Uid) × ((given : List ℕ) → SaysPresent job.now given → ⊥)) }
{
    if MOST_DEVICES < job.present.len() {
        return Err((Fault::Uid, None));
    }
    devices_of("--present", &job.present)
}

// The devices of the scene file at the path, if there is one, and remarks on it.
fn rig_of<'a, S: Read, P: Progress>(
    alloc: Global,
    path: Option<&'a str>,
    rig: &mut S,
    progress: &mut P,
) -> Result<RigFile, Refused<'a>>
    ensures ok { IfOk result (HasRig path.entry (S.remaining rig.old)) }
    ensures fault { IfErr result (λ e. IsRigFault path.entry (S.remaining rig.old) e.0) }
{
    let Some(path) = path else {
        return Ok(RigFile {
            staying: Vec::new(alloc),
            passing: Vec::new(alloc),
        });
    };
    let bytes = match bytes_of_file(alloc, path, rig) {
        Ok(bytes) => bytes,
        Err(refused) => return Err(refused),
    };
    rig_in(alloc, &bytes, progress)
}

// The devices of the scene that the bytes of a file encode, and remarks on it.
fn rig_in<'a, P: Progress>(
    alloc: Global,
    bytes: &[u8],
    progress: &mut P,
) -> Result<RigFile, Refused<'a>>
    ensures ok { IfOk result (SaysFile rigs bytes.now) }
    ensures fault { IfErr result (λ e. IsTextFault rigs bytes.now e.0) }
{
    let value = match Value::from_slice(alloc, bytes) {
        Ok(value) => value,
        Err(error) => return Err(no_json(bytes, &error)),
    };
    match read_rig(alloc, &value) {
        Ok(rig) => {
            remark_on(alloc, unknown_in_scene(&value), "losses", &[], progress);
            Ok(rig)
        }
        Err(SceneFault::Mismatch(mismatch)) => {
            let reason = Reason::of_mismatch(mismatch, &value, FileKind::Scene);
            Err((Fault::Scene, Some(reason)))
        }
        Err(SceneFault::NoMemory) => Err((Fault::Memory, None)),
    }
}

// The given devices, and the others of the file.
fn joined(alloc: Global, given: &UidSet, file: &RigFile) -> Result<Devices, AllocError>
    ensures present { IfOk result (λ d. d.present.items ≡ given.now ++ without given.now file.now.staying.items) }
    ensures passing { IfOk result (λ d. d.passing.items ≡ without given.now file.now.passing.items) }
{
    let mut present = Vec::from_slice(alloc, given.as_slice())?;
    push_others(&mut present, given, &file.staying)?;
    let mut passing = Vec::new(alloc);
    push_others(&mut passing, given, &file.passing)?;
    Ok(Devices { present, passing })
}

// Pushes those of the others that aren't given.
fn push_others(uids: &mut Vec<Uid>, given: &UidSet, others: &[Uid]) -> Result<(), AllocError>
    ensures { OnOk result (uids.new.items ≡ uids.old.items ++ without given.now others.now) }
{
    'others: for uid in others {
        if !given.contains(*uid) {
            uids.push(*uid)?;
        }
    }
    Ok(())
}

// Prints what the log in the reader's file shows, which is the one at the path. The start is what precedes the first
// run.
fn print_log<'a, R: Read, W: Write>(
    alloc: Global,
    form: Form,
    path: &'a str,
    devices: &Devices,
    start: &[u8],
    reader: &mut R,
    writer: &mut W,
) -> (u8, Option<Reason<'a>>)
    requires start { start.now ≡ document_start form devices.now.passing.items }
    ensures { (text : List ℕ) × (status : ℕ)
        × (IsExplanation form devices.now.present.items devices.now.passing.items (R.remaining reader.old) text status
        ⊎ IsPartExplanation form devices.now.present.items devices.now.passing.items (R.remaining reader.old) text
        status)
        × IsPrinted (W.contents writer.old) (W.contents writer.new) text status result.0 }
{
    if let Err(kind) = write_all(writer, start) {
        return (NOT_WRITTEN, Some(Reason::Unwritten(kind)));
    }
    match write_runs(alloc, form, reader, devices, writer) {
        Ok(broken) => print_text(
            writer,
            document_end(form, broken).as_bytes(),
            explain_status(broken),
            None,
        ),
        Err(fault) => match writer_fault(fault) {
            Some(kind) => (NOT_WRITTEN, Some(Reason::Unwritten(kind))),
            None => print_stop(alloc, form, path, fault, writer),
        },
    }
}

// How the writer failed, if it did.
fn writer_fault(fault: LogFault) -> Option<ErrorKind>
    ensures { is_some result ≡ false → IsNoWriterFault fault }
{
    match fault {
        LogFault::Unwritten(kind) => Some(kind),
        LogFault::Line(_) => None,
        LogFault::Unread(_) => None,
        LogFault::NoMemory => None,
    }
}

// Writes the findings about the reader's log, and returns whether a rule was broken.
fn write_runs<R: Read, W: Write>(
    alloc: Global,
    form: Form,
    reader: &mut R,
    devices: &Devices,
    writer: &mut W,
) -> Result<bool, LogFault>
    ensures explained { IfOk result (λ broken. (lines : List LogLine) × (findings : List ℕ)
        × All FitsLine lines × IfSome (R.remaining reader.old) (λ bytes. bytes ≡ lines_text lines)
        × IsLogText form devices.now.present.items devices.now.passing.items (runs_of lines) findings broken
        × Appends (W.contents writer.old) (W.contents writer.new) findings) }
    ensures stopped { IfErr result (WritesPart form devices.now.present.items devices.now.passing.items
        (R.remaining reader.old) (W.contents writer.old) (W.contents writer.new)) }
{
    let Ok(mut buffered) = BufReader::new(alloc, &mut *reader) else {
        return Err(LogFault::NoMemory);
    };
    explain_log(
        alloc,
        form,
        &mut buffered,
        &devices.present,
        &devices.passing,
        writer,
    )
}

// Prints that the log at the path isn't explained to its end, because of this fault, or because there was no memory.
fn print_stop<'a, W: Write>(
    alloc: Global,
    form: Form,
    path: &'a str,
    fault: LogFault,
    writer: &mut W,
) -> (u8, Option<Reason<'a>>)
    ensures { (shown : LogFault) × ((n : ℕ) → shown ≡ LogFault.Line n → fault ≡ LogFault.Line n)
        × IsPrinted (W.contents writer.old) (W.contents writer.new) (document_stop form shown) 1 result.0 }
{
    match document_stop(alloc, form, fault) {
        Ok(text) => print_text(writer, &text, 1, reason_of(path, fault)),
        Err(_) => print_text(writer, memory_stop(form).as_bytes(), 1, None),
    }
}

// Why the log at the path isn't explained to its end; none if memory ran out.
fn reason_of<'a>(path: &'a str, fault: LogFault) -> Option<Reason<'a>> {
    match fault {
        LogFault::Line(number) => Some(Reason::NoLogLine(path, number)),
        LogFault::Unread(kind) => Some(Reason::Unreadable(path, kind)),
        LogFault::Unwritten(kind) => Some(Reason::Unwritten(kind)),
        LogFault::NoMemory => None,
    }
}

/// The status if a rule was broken.
const BROKEN: u8 = 3;

fn explain_status(broken: bool) -> u8
    ensures { result ≡ explain_status broken }
{
    if broken { BROKEN } else { 0 }
}

// How findings are printed: as JSON, if the arguments say so.
fn form_of(json: bool) -> Form
    ensures { result ≡ form_of json }
{
    if json { Form::Json } else { Form::Lines }
}
