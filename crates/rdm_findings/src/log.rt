//! Explains a whole log, line by line.
ghost use Rattle.std.specs.Prelude.{◌≡◌, ◌≢◌, ◌&&◌, ◌++◌, ◌+◌, ◌-◌, ◌<◌, ◌^◌, List, [], ℕ, IfOk, IfErr, OnOk, Err};
ghost use Rattle.std.specs.Prelude.{false, All, flat_map, if◌then◌else◌};
ghost use Rattle.std.specs.Io.KnownBytes.{Appends, Consumes, IsAtEnd};
ghost use Rattle.rdm_findings.specs.declared.line.LogLine.{LogLine};
ghost use Rattle.rdm_findings.specs.SameLines.{FitsLine};
ghost use Rattle.rdm_findings.specs.Lines.{line_text, lines_text};
ghost use Rattle.rdm_findings.specs.Runs.{runs_of, begins, ended, after_line};
ghost use Rattle.rdm_findings.specs.Logs.{AreExplained, IsLogText, EndsLog, IsStopped, unjudged_finding, no_run_text};
ghost use Rattle.rdm_findings.specs.Forms.{object_start, of_run};
ghost use Rattle.rdm_findings.specs.Logs.{no_run_finding, no_run_start};
ghost use Rattle.rdm_findings.specs.body.Stops.{StopsAfter};

use crate::explaining::explain;
use crate::form::{About, Form, Judgement, write_start};
use crate::input::{NoText, read_text};
use crate::line::{LogLine, read_line};
use crate::reading::Reading;
use crate::run_json::write_run_end;
use crate::writing::{write, write_end, write_uid_finding};
use rdm_reports::write_all;
use rdm_wire::{NoMemory, Uid};
use std::alloc::{AllocError, Global};
use std::io::{ErrorKind, Read, Write};

/// Why a log isn't explained to its end.
#[derive(Clone, Copy, Debug, PartialEq, Eq)]
pub enum LogFault {
    /// The reader failed.
    Unread(ErrorKind),
    /// This line, counted from 1, isn't a log's.
    Line(u64),
    /// The writer failed.
    Unwritten(ErrorKind),
    /// Out of memory.
    NoMemory,
}

impl From<NoMemory> for LogFault {
    ghost use Rattle.std.specs.Prelude.{◌≡◌};

    fn from(_: NoMemory) -> LogFault
        ensures from_gives { result ≡ LogFault.NoMemory }
    {
        LogFault::NoMemory
    }
}

/// Explains each run of the reader's log, in order, when it has ended, with a list of devices that were present. If the
/// log has no run, it says so. `passing` has devices that come or leave. Returns whether a rule was broken in any run.
/// With an error, runs may have been explained before: those that ended.
pub fn explain_log<R: Read, W: Write>(
    alloc: Global,
    form: Form,
    reader: &mut R,
    present: &[Uid],
    passing: &[Uid],
    writer: &mut W,
) -> Result<bool, LogFault>
    ensures explained { IfOk result (λ broken. (lines : List LogLine) × (text : List ℕ)
        × All FitsLine lines × Consumes (R.remaining reader.old) (R.remaining reader.new) (lines_text lines)
        × IsLogText form present.now passing.now (runs_of lines) text broken
        × Appends (W.contents writer.old) (W.contents writer.new) text) }
    ensures whole { OnOk result (IsAtEnd (R.remaining reader.new)) }
    ensures stopped { IfErr result (IsStopped form present.now passing.now (R.remaining reader.old)
        (R.remaining reader.new) (W.contents writer.old) (W.contents writer.new)) }
{
    let mut text = Vec::new(alloc);
    let mut reading = Reading::new(alloc);
    let mut any = false;
    let mut broken = false;
    'lines: for number in 0..u64::MAX {
        read_next(reader, &mut text, number)?;
        if text.is_empty() {
            let breaks = explain_last(alloc, form, any, &reading, present, passing, writer)?;
            return Ok(broken || breaks);
        }
        let line = next_line(alloc, &text, number)?;
        let breaks = explain_ended(alloc, form, any, &reading, &line, present, passing, writer)?;
        let ends = ends_run(&reading, &line);
        any = any || ends;
        broken = broken || breaks;
        take_line(alloc, &mut reading, line)?;
    }
    // No log is that long.
    Err(LogFault::Unread(ErrorKind::FileTooLarge))
}

// Reads the text of the line with this number, counted from 0.
fn read_next<R: Read>(reader: &mut R, text: &mut Vec<u8>, number: u64) -> Result<(), LogFault>
    requires { number < 2 ^ 64 - 1 }
    ensures text { OnOk result (Consumes (R.remaining reader.old) (R.remaining reader.new) text.new.items) }
    ensures end { OnOk result (text.new.items ≡ [] → IsAtEnd (R.remaining reader.new)) }
    ensures refused { (n : ℕ) → result ≡ Err (LogFault.Line n)
        → (n ≡ number + 1) × Consumes (R.remaining reader.old) (R.remaining reader.new) text.new.items }
{
    match read_text(reader, text) {
        Ok(()) => Ok(()),
        Err(NoText::Failed(kind)) => Err(LogFault::Unread(kind)),
        Err(NoText::TooLong) => Err(LogFault::Line(number + 1)),
        Err(NoText::NoMemory) => Err(LogFault::NoMemory),
    }
}

// The line of a log with this text and this number, counted from 0.
fn next_line(alloc: Global, text: &[u8], number: u64) -> Result<LogLine, LogFault>
    requires { number < 2 ^ 64 - 1 }
    ensures line { IfOk result (λ line. line_text line ≡ text.now) }
    ensures fits { IfOk result FitsLine }
    ensures refused { (n : ℕ) → result ≡ Err (LogFault.Line n) → n ≡ number + 1 }
{
    match read_line(alloc, text) {
        Ok(Some(line)) => Ok(line),
        Ok(None) => Err(LogFault::Line(number + 1)),
        Err(_) => Err(LogFault::NoMemory),
    }
}

// Takes the next line.
fn take_line(alloc: Global, reading: &mut Reading, line: LogLine) -> Result<(), LogFault>
    ensures taken { OnOk result (reading.new ≡ after_line line reading.old) }
    ensures fault { (n : ℕ) → result ≢ Err (LogFault.Line n) }
{
    match reading.take(alloc, line) {
        Ok(()) => Ok(()),
        Err(_) => Err(LogFault::NoMemory),
    }
}

// Whether there is a run in progress that ended before this line.
fn ends_run(reading: &Reading, line: &LogLine) -> bool
    ensures { result ≡ begins line.now reading.now && reading.now.has_run }
{
    reading.is_ended_by(line) && reading.has_run()
}

// Explains the run in progress if it ended before this line, and returns whether a rule was broken. `any` says whether
// others were printed before.
fn explain_ended<W: Write>(
    alloc: Global,
    form: Form,
    any: bool,
    reading: &Reading,
    line: &LogLine,
    present: &[Uid],
    passing: &[Uid],
    writer: &mut W,
) -> Result<bool, LogFault>
    ensures explained { IfOk result (λ broken. (text : List ℕ)
        × AreExplained form any present.now passing.now
        (if begins line.now reading.now then ended reading.now else []) text broken
        × Appends (W.contents writer.old) (W.contents writer.new) text) }
    ensures stopped { IfErr result (StopsAfter (AreExplained form any present.now passing.now
        (if begins line.now reading.now then ended reading.now else [])) (W.contents writer.old)
        (W.contents writer.new)) }
    ensures fault { (n : ℕ) → result ≢ Err (LogFault.Line n) }
{
    if reading.is_ended_by(line) {
        explain_run(alloc, form, any, reading, present, passing, writer)
    } else {
        Ok(false)
    }
}

// Explains the run in progress at the end of a log, if there is one, and returns whether a rule was broken. `any` says
// whether the log has others.
fn explain_last<W: Write>(
    alloc: Global,
    form: Form,
    any: bool,
    reading: &Reading,
    present: &[Uid],
    passing: &[Uid],
    writer: &mut W,
) -> Result<bool, LogFault>
    ensures explained { IfOk result (λ broken. (text : List ℕ)
        × EndsLog form present.now passing.now any (ended reading.now) text broken
        × Appends (W.contents writer.old) (W.contents writer.new) text) }
    ensures stopped { IfErr result (StopsAfter (EndsLog form present.now passing.now any (ended reading.now))
        (W.contents writer.old) (W.contents writer.new)) }
    ensures fault { (n : ℕ) → result ≢ Err (LogFault.Line n) }
{
    if any || reading.has_run() {
        explain_run(alloc, form, any, reading, present, passing, writer)
    } else {
        explain_none(alloc, form, present, writer)
    }
}

// Explains the run in progress, if there is one, and returns whether a rule was broken. `any` says whether others were
// printed before.
fn explain_run<W: Write>(
    alloc: Global,
    form: Form,
    any: bool,
    reading: &Reading,
    present: &[Uid],
    passing: &[Uid],
    writer: &mut W,
) -> Result<bool, LogFault>
    ensures explained { IfOk result (λ broken. (text : List ℕ)
        × AreExplained form any present.now passing.now (ended reading.now) text broken
        × Appends (W.contents writer.old) (W.contents writer.new) text) }
    ensures stopped { IfErr result (StopsAfter (AreExplained form any present.now passing.now (ended reading.now))
        (W.contents writer.old) (W.contents writer.new)) }
    ensures fault { (n : ℕ) → result ≢ Err (LogFault.Line n) }
{
    if !reading.has_run() {
        return Ok(false);
    }
    let Ok(explained) = explain(
        alloc,
        form,
        any,
        reading.head(),
        reading.known(),
        present,
        passing,
        reading.exchanges(),
    ) else {
        return Err(LogFault::NoMemory);
    };
    match write_all(writer, &explained.text) {
        Ok(()) => Ok(explained.is_broken),
        Err(kind) => Err(LogFault::Unwritten(kind)),
    }
}

// Says that the log has no run, in which no rule was broken.
fn explain_none<W: Write>(
    alloc: Global,
    form: Form,
    present: &[Uid],
    writer: &mut W,
) -> Result<bool, LogFault>
    ensures unbroken { IfOk result (λ broken. broken ≡ false) }
    ensures printed { OnOk result (Appends (W.contents writer.old) (W.contents writer.new)
        (no_run_text form present.now)) }
    ensures stopped { IfErr result (StopsAfter (λ text broken.
        (text ≡ no_run_text form present.now) × (broken ≡ false)) (W.contents writer.old) (W.contents writer.new)) }
    ensures fault { (n : ℕ) → result ≢ Err (LogFault.Line n) }
{
    let Ok(text) = no_run_text(alloc, form, present) else {
        return Err(LogFault::NoMemory);
    };
    match write_all(writer, &text) {
        Ok(()) => Ok(false),
        Err(kind) => Err(LogFault::Unwritten(kind)),
    }
}

// What is printed for a log without a run: nothing is known of the listed devices.
fn no_run_text(alloc: Global, form: Form, present: &[Uid]) -> Result<Vec<u8>, AllocError>
    ensures { IfOk result (λ text. text.items ≡ no_run_text form present.now) }
{
    let mut text = Vec::new(alloc);
    write_no_run(&mut text, form)?;
    write_unjudged(&mut text, form, present)?;
    write_run_end(&mut text, form)?;
    Ok(text)
}

// The first finding about a log without a run.
fn write_no_run(text: &mut Vec<u8>, form: Form) -> Result<(), AllocError>
    ensures { OnOk result (text.new.items ≡ text.old.items ++ no_run_finding form) }
{
    write_no_run_start(text, form)?;
    write_end(text, form, "the log has no exchange of a discovery")
}

// What precedes its sentence: in JSON it has the form of a run.
fn write_no_run_start(text: &mut Vec<u8>, form: Form) -> Result<(), AllocError>
    ensures { OnOk result (text.new.items ≡ text.old.items ++ no_run_start form) }
{
    match form {
        Form::Lines => Ok(()),
        Form::Json => write_no_run_object(text),
    }
}

const NO_RUN: &str = "{\"exchanges\":0,\"devices\":0,\"heard\":\"\",\"findings\":[";

fn write_no_run_object(text: &mut Vec<u8>) -> Result<(), AllocError>
    ensures { OnOk result (text.new.items ≡ text.old.items ++ no_run_start Form.Json) }
{
    write(text, NO_RUN)?;
    write_no_run_about(text)
}

fn write_no_run_about(text: &mut Vec<u8>) -> Result<(), AllocError>
    ensures { OnOk result (text.new.items ≡ text.old.items ++ object_start (of_run Judgement.NoRun)) }
{
    write_start(text, &About::run(Judgement::NoRun))
}

fn write_unjudged(text: &mut Vec<u8>, form: Form, present: &[Uid]) -> Result<(), AllocError>
    ensures { OnOk result (text.new.items ≡ text.old.items ++ flat_map (unjudged_finding form) present.now) }
{
    'present: for uid in present {
        write_unjudged_finding(text, form, *uid)?;
    }
    Ok(())
}

const UNJUDGED: &str = " can't be judged: the log has no exchange of a discovery";

fn write_unjudged_finding(text: &mut Vec<u8>, form: Form, uid: Uid) -> Result<(), AllocError>
    ensures { OnOk result (text.new.items ≡ text.old.items ++ unjudged_finding form uid) }
{
    write_uid_finding(text, form, Judgement::Unjudged, uid, UNJUDGED)
}
